// Reading a message: its checks, and the numbers that stand in it.
ghost use Rattle.std.specs.Prelude.{◌≡◌, true, ◌||◌, ◌++◌, ◌+◌, ◌*◌, ◌≤◌, length, take, drop};
ghost use Rattle.bits.specs.Bits.{unpack as unpacked, blank};
ghost use Rattle.message.specs.Layout.{block_bits, string_bits};
ghost use Rattle.message.specs.Message.{fields_length, message_bytes};
ghost use Rattle.message.specs.Read.{marked as isMarked, version_one, layout_of, fields, body, read_block_sums, read_string_sums, read_checks, some_above, message_refusal, read_refusal, read_of, layout_answer, read_target};

use crate::Layout;
use crate::layouts::{self, Legal};
use bits::BitCursor;
use refusal::Refusal;

// Whether there are nine bytes, of which the first three are the mark.
#[tactic(auto, unfolding(crate::specs::Read::marked))]
fn marked(s: &[u8]) -> bool
    ensures { result ≡ isMarked s.now }
{
    9 <= s.len() && s[0] == 0x52 && s[1] == 0x53 && s[2] == 0x4D
}

// Whether the version is 1.
#[tactic(auto, unfolding(crate::specs::Read::version_one))]
fn version_one(s: &[u8]) -> bool
    requires { 9 ≤ length s.now }
    ensures { result ≡ version_one s.now }
{
    s[3] == 0x00 && s[4] == 0x01
}

// The bits of the head of a message.
const HEAD_BITS: usize = 72;

// Whether one of n fields of k bits, the first at bit at of packed bytes, at least four, is above a limit.
fn some_above(s: &[u8], at: usize, n: usize, k: usize, limit: usize) -> bool
    requires { ((k ≤ 16) × (4 ≤ length s.now)) × ((length s.now ≤ 4096) × (at + n * k ≤ length s.now * 8)) }
    ensures { result ≡ some_above limit (fields n k (drop at (unpacked s.now))) }
{
    let mut c = BitCursor { at };
    for _ in 0..n {
        let field = c.take_long(s, k);
        if limit < usize::from(field.value) {
            return true;
        }
        c = field.next;
    }
    false
}

// Whether a sum of a message is above the length of its string.
fn sum_high(l: Legal, s: &[u8]) -> bool
    requires { length s.now ≡ message_bytes l.layout }
    ensures { result ≡ (some_above (block_bits l.layout) (read_block_sums l.layout s.now)
        || some_above (string_bits l.layout) (read_string_sums l.layout s.now)) }
{
    let Layout { l1, l2, nc, .. } = l.layout;
    let block = layouts::width(l2 * nc);
    if some_above(s, HEAD_BITS, l1, block, l2 * nc) {
        return true;
    }
    let string = layouts::width(nc * l1);
    some_above(s, HEAD_BITS + l1 * block, l2, string, nc * l1)
}

// Whether no spare bit of a message is 1.
fn spare_blank(l: Legal, s: &[u8]) -> bool
    requires { length s.now ≡ message_bytes l.layout }
    ensures { result ≡ blank (drop (fields_length l.layout) (body s.now)) }
{
    bits::fits(l.fields_length(), &s[9..])
}

// What a message is refused for by rows 3 to 6 of the table, where its mark and version are right and its head names this layout; the
// layout where it is fit.
fn check_layout(layout: Layout, s: &[u8]) -> Result<Legal, Refusal>
    requires { (isMarked s.now ≡ true) × ((version_one s.now ≡ true) × (layout_of s.now ≡ layout)) }
    ensures { read_of result ≡ layout_answer (message_refusal s.now) s.now }
{
    let l = Legal::try_from(layout)?;
    if s.len() != l.message_bytes() {
        return Err(Refusal::MessageLength);
    }
    if sum_high(l, s) {
        return Err(Refusal::Sum);
    }
    if !spare_blank(l, s) {
        return Err(Refusal::SpareBit);
    }
    Ok(l)
}

// What a message is refused for by rows 1 to 6 of the table, whatever it is read for; its layout where it is fit.
pub fn check(s: &[u8]) -> Result<Legal, Refusal>
    ensures { read_of result ≡ layout_answer (message_refusal s.now) s.now }
{
    if !marked(s) {
        return Err(Refusal::NoMessage);
    }
    if !version_one(s) {
        return Err(Refusal::Version);
    }
    let layout = Layout {
        l1: usize::from(s[5]),
        l2: usize::from(s[6]),
        nc: usize::from(s[7]),
        r: usize::from(s[8]),
    };
    check_layout(layout, s)
}

// Fields of k bits, the first at bit at of packed bytes, at least four: as many as the slice has entries.
fn read_fields(s: &[u8], at: usize, k: usize, out: &mut [u16])
    requires { ((k ≤ 16) × (4 ≤ length s.now))
        × ((length s.now ≤ 4096) × (at + length out.old * k ≤ length s.now * 8)) }
    ensures { out.new ≡ fields (length out.old) k (drop at (unpacked s.now)) }
{
    let mut c = BitCursor { at };
    for v in out.iter_mut() {
        let field = c.take_long(s, k);
        *v = field.value;
        c = field.next;
    }
}

// The numbers of a fit message: block sums, chunk-string sums, checks, written to the start of a slice.
fn read_numbers(l: Legal, s: &[u8], out: &mut [u16])
    requires { (length s.now ≡ message_bytes l.layout)
        × (l.layout.l1 + l.layout.l2 + l.layout.r ≤ length out.old) }
    ensures { out.new
        ≡ read_block_sums l.layout s.now ++ read_string_sums l.layout s.now
        ++ read_checks l.layout s.now ++ drop (l.layout.l1 + l.layout.l2 + l.layout.r) out.old }
{
    let Layout { l1, l2, nc, r } = l.layout;
    let block = layouts::width(l2 * nc);
    let string = layouts::width(nc * l1);
    let strings = HEAD_BITS + l1 * block;
    let checks = strings + l2 * string;
    let (block_sums, behind) = out.split_at_mut(l1);
    let (string_sums, behind) = behind.split_at_mut(l2);
    read_fields(s, HEAD_BITS, block, block_sums);
    read_fields(s, strings, string, string_sums);
    read_fields(s, checks, nc, &mut behind[..r]);
}

// Reads a message: answers its layout, and writes its numbers to the start of a slice.
pub fn read(s: &[u8], out: &mut [u16]) -> Result<Legal, Refusal>
    ensures { (read_of result
        ≡ layout_answer (read_refusal s.now (length out.old)) s.now)
        × (out.new ≡ read_target s.now out.old) }
{
    let l = check(s)?;
    let Layout { l1, l2, r, .. } = l.layout;
    if out.len() < l1 + l2 + r {
        return Err(Refusal::ShortTarget);
    }
    read_numbers(l, s, out);
    Ok(l)
}
