// Writing the message of a row: its chunks as numbers, the head, and the fields, which go into packed bytes one after another.
// Contracts cite specs/Chunks.antt, specs/Message.antt and specs/Write.antt.
ghost use Rattle.std.specs.Prelude.{◌≡◌, true, ◌+◌, ◌*◌, ◌≤◌, length, take, drop};
ghost use mathlib.Core.List.{◌++◌, flat_map};
ghost use Rattle.bits.specs.Bits.{digits, bytes_for, pack, unpack as unpacked, fits};
ghost use Rattle.bits.specs.Filling.{Ready, Goes};
ghost use Rattle.message.specs.Layout.{row_bits};
ghost use Rattle.message.specs.Chunks.{row_of};
ghost use Rattle.message.specs.Message.{fields_length, message_bytes, sums, block_sums, string_sums, checks, head, field_bits, message};
ghost use Rattle.message.specs.Write.{written_of, write_answer, write_target};

use crate::Layout;
use crate::chunks::{self, Row};
use crate::layouts::{self, Legal};
use bits::Filler;
use refusal::Refusal;
use vt::Weights;

// So many sums of a row from a first one on, as fields of k bits behind those that a filler has taken. The block sums come first,
// then the chunk-string sums. Out of line it would read the row's layout again at each sum.
#[inline(always)]
#[tactic(auto, using(crate::proofs::Legal::most))]
fn put_sums(
    weights: &Weights,
    row: &Row<'_>,
    first: usize,
    count: usize,
    k: usize,
    start: Filler,
    out: &mut [u8],
) -> Filler
    requires { ((first + count ≤ row.now.layout.l1 + row.now.layout.l2) × (k ≤ 16))
        × (Ready start × (start.at * 8 + start.count + count * k ≤ length out.old * 8)) }
    ensures { Goes start out.old (flat_map (digits k) (take count (drop first
        (sums row.now.layout (row_of row.now.layout.nc row.now.chunks.now)))))
        result out.new }
{
    let mut f = start;
    for i in first..first + count {
        f = f.put(out, k, row.sum(weights, i));
    }
    f
}

// Checks as fields of nc bits behind those that a filler has taken.
fn put_checks(nc: usize, values: &[u8], start: Filler, out: &mut [u8]) -> Filler
    requires { (nc ≤ 16)
        × (Ready start × (start.at * 8 + start.count + length values.now * nc ≤ length out.old * 8)) }
    ensures { Goes start out.old (flat_map (digits nc) values.now) result out.new }
{
    let mut f = start;
    for v in values {
        f = f.put(out, nc, usize::from(*v));
    }
    f
}

// The checks of a row behind the bits that a filler has taken.
#[tactic(auto, using(crate::proofs::Legal::most))]
fn put_row_checks(row: &Row<'_>, start: Filler, out: &mut [u8]) -> Filler
    requires { Ready start
        × (start.at * 8 + start.count + row.now.layout.r * row.now.layout.nc ≤ length out.old * 8) }
    ensures { Goes start out.old
        (flat_map (digits row.now.layout.nc) (checks row.now.layout (row_of row.now.layout.nc row.now.chunks.now)))
        result out.new }
{
    let mut values: [u8; 16] = [0; 16];
    row.fill_checks(&mut values);
    put_checks(row.layout.nc, &values[..row.layout.r], start, out)
}

// The fields of a row's message, packed, at the start of a slice.
#[tactic(auto, using(crate::proofs::Legal::most))]
fn put_fields(row: &Row<'_>, out: &mut [u8])
    requires { bytes_for (fields_length row.now.layout) ≤ length out.old }
    ensures { out.new
        ≡ pack (field_bits row.now.layout (block_sums row.now.layout (row_of row.now.layout.nc row.now.chunks.now))
        (string_sums row.now.layout (row_of row.now.layout.nc row.now.chunks.now))
        (checks row.now.layout (row_of row.now.layout.nc row.now.chunks.now)))
        ++ drop (bytes_for (fields_length row.now.layout)) out.old }
{
    let Layout { l1, l2, nc, .. } = row.layout;
    let block = layouts::width(l2 * nc);
    let string = layouts::width(nc * l1);
    let weights = Weights::new();
    let start = Filler {
        at: 0,
        held: 0,
        count: 0,
    };
    let blocks = put_sums(&weights, row, 0, l1, block, start, out);
    let strings = put_sums(&weights, row, l1, l2, string, blocks, out);
    put_row_checks(row, strings, out).end(out);
}

// The head of a message at the start of a slice.
#[tactic(auto, unfolding(crate::specs::Message::head), using(crate::proofs::Legal::most))]
fn put_head(l: Legal, out: &mut [u8])
    requires { 9 ≤ length out.old }
    ensures { out.new ≡ head l.layout ++ drop 9 out.old }
{
    let Layout { l1, l2, nc, r } = l.layout;
    let bytes: [u8; 9] = [
        0x52, 0x53, 0x4D, 0x00, 0x01, l1 as u8, l2 as u8, nc as u8, r as u8,
    ];
    out[..9].copy_from_slice(&bytes);
}

// The message of a packed row at the start of a slice.
#[tactic(auto, using(crate::proofs::Legal::most))]
fn put_message(l: Legal, row: &[u8], out: &mut [u8])
    requires { (fits (row_bits l.layout) row.now ≡ true)
        × (message_bytes l.layout ≤ length out.old) }
    ensures { out.new
        ≡ message l.layout (take (row_bits l.layout) (unpacked row.now))
        ++ drop (message_bytes l.layout) out.old }
{
    let Layout { l1, l2, nc, .. } = l.layout;
    let n = l1 * l2;
    let mut chunks: [u8; bits::MOST_CHUNKS] = [0; bits::MOST_CHUNKS];
    chunks::fill(row, nc, &mut chunks[..n]);
    put_head(l, out);
    let row = Row {
        layout: l.layout,
        chunks: &chunks[..n],
    };
    put_fields(&row, &mut out[9..]);
}

// Writes the message of a packed row to the start of a slice. The layout's numbers may be any.
#[tactic(auto, unfolding(crate::specs::Write::write_answer, crate::specs::Write::write_target, crate::specs::Write::write_refusal), using(crate::proofs::Legal::most))]
pub fn write(layout: Layout, row: &[u8], out: &mut [u8]) -> Result<usize, Refusal>
    ensures { (written_of result ≡ write_answer layout row.now (length out.old))
        × (out.new ≡ write_target layout row.now out.old) }
{
    let l = Legal::try_from(layout)?;
    if !bits::fits(layout.l1 * layout.l2 * layout.nc, row) {
        return Err(Refusal::Packing);
    }
    let n = l.message_bytes();
    if out.len() < n {
        return Err(Refusal::ShortTarget);
    }
    put_message(l, row, out);
    Ok(n)
}
