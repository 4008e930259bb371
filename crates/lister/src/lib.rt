// Listing: from a message and the received row, all rows that are consistent with both. The checks of document 01's table run
// in rising number; the search finds the rows. Contracts cite specs/ and consistent's specs/List.antt.
#![tactic(auto)]

ghost use Rattle.std.specs.Prelude.{◌≡◌, ◌*◌, ◌≤◌, length, take};
ghost use Rattle.bits.specs.Bits.{longest, unpack as unpacked};
ghost use Rattle.message.specs.Layout.{row_bits};
ghost use Rattle.consistent.specs.List.{list_answer, list_slice};
ghost use Rattle.found.specs.Found.{Given, all_sent};
ghost use Rattle.refusal.specs.Refusal.{refusal_in};
ghost use Rattle.lister.specs.Answer.{listed_of};
ghost use Rattle.lister.specs.Rows.{row_refusal, room_for, rows_answer, rows_slice};

use message::Layout;
use message::layouts::Legal;
use refusal::Refusal;

// The most bits that may be lost.
const MOST_LOSSES: usize = 12;

// Only so many bytes of a list slice are used.
const USED_BYTES: usize = 65536;

// The first check that applies to a received row of m bits where n were sent.
fn check_row(n: usize, m: usize, row: &[u8]) -> Result<(), Refusal>
    requires { n ≤ longest }
    ensures { refusal_in result ≡ row_refusal n row.now m }
{
    if n < m || MOST_LOSSES < n - m {
        return Err(Refusal::Losses);
    }
    if !bits::fits(m, row) {
        return Err(Refusal::Packing);
    }
    Ok(())
}

// How many rows of n bits fit whole in a list slice.
fn room(n: usize, slice: usize) -> usize
    requires { (1 ≤ n) × (n ≤ longest) }
    ensures { result ≡ room_for n slice }
{
    slice.min(USED_BYTES) / n.div_ceil(8)
}

// Lists the rows that are consistent with the numbers of a fit message and the m bits of a fit row.
fn list_rows(
    l: Layout,
    numbers: &[u16],
    row: &[u8],
    m: usize,
    out: &mut [u8],
) -> Result<usize, Refusal>
    requires { Given l numbers.now (take m (unpacked row.now)) × (m ≤ length row.now * 8) }
    ensures { (listed_of result
        ≡ rows_answer (room_for (row_bits l) (length out.old)) (all_sent l numbers.now (take m (unpacked row.now))))
        × (out.new ≡ rows_slice (room_for (row_bits l) (length out.old)) (all_sent l numbers.now (take m (unpacked row.now))) out.old) }
{
    let mut y: [u8; bits::LONGEST] = [0; bits::LONGEST];
    bits::unpack(row, m, &mut y);
    let n = l.l1 * l.l2 * l.nc;
    let cap = room(n, out.len());
    let kept = search::search(l, &y[..m], numbers, cap, out);
    if kept.more {
        return Err(Refusal::ListFull);
    }
    Ok(kept.count)
}

// Lists the rows that are consistent with a message and the m bits of a packed row, at the start of a slice.
//
// The contract gives the answer and every byte of the slice as a function of the message, the row, the bit count and the slice,
// and of nothing else. So the archive gives in December the list that it gave in March.
pub fn list(msg: &[u8], row: &[u8], m: usize, out: &mut [u8]) -> Result<usize, Refusal>
    ensures { (listed_of result ≡ list_answer msg.now row.now m (length out.old))
        × (out.new ≡ list_slice msg.now row.now m out.old) }
{
    let mut numbers: [u16; message::MOST_NUMBERS] = [0; message::MOST_NUMBERS];
    let Legal { layout } = message::reading::read(msg, &mut numbers)?;
    let Layout { l1, l2, nc, r } = layout;
    check_row(l1 * l2 * nc, m, row)?;
    list_rows(layout, &numbers[..l1 + l2 + r], row, m, out)
}
