// The anchor: once one consistent row is held, parts of a search whose rows can differ from it in at most r chunks are left out,
// since they hold no other consistent row. What is worked out from the anchor stands on a desk, a slice of bytes. Contracts cite
// specs/Anchor.antt; strings are unpacked, one byte a bit.
#![tactic(auto)]

ghost use Rattle.std.specs.Prelude.{◌≡◌, true, List, ◌++◌, ℕ, ◌+◌, ◌-◌, ◌*◌, ◌<◌, ◌≤◌, length, get_or, take, drop};
ghost use Rattle.bits.specs.Bits.{most_chunks, most_in_line, AllBits, bytes_for, unpack as unpacked};
ghost use Rattle.rows.specs.Held.{Held, Known};
ghost use Rattle.message.specs.Layout.{legal, row_bits};
ghost use Rattle.consistent.specs.Consistent.{most_losses};
ghost use Rattle.consistent.specs.Greedy.{in_all};
ghost use Rattle.lines.specs.Lines.{values, unlike};
ghost use Rattle.consistent.specs.Query.{query};
ghost use Rattle.found.specs.Given.{Given, Sent, HoldsSent};
ghost use Rattle.anchor.specs.Anchor.{over, Reads, desk_size, wide, NearFor, LaterFor, Prepared, is_set, Anchor, Anchors};
ghost use Rattle.anchor.specs.Anchor.{OwnCounts, LightInHand, BlockMost};

use message::Layout;
use message::layouts::Legal;
use rows::Kept;

// How many numbers of losses there can be before a place, from none on.
const SHIFTS: usize = 13;

// Where the second part of the desk begins: a piece for each chunk.
const NEAR: usize = 1 + bits::MOST_CHUNKS;

// Where its third part begins: a piece for each number of losses.
const LATER: usize = NEAR + bits::MOST_CHUNKS * SHIFTS;

// Bytes of a piece of the third part: one for each block, and one for the end of the row.
const BLOCKS: usize = bits::MOST_IN_LINE + 1;

// Bytes of the desk.
pub const DESK: usize = LATER + SHIFTS * BLOCKS;

// Whether the desk has an anchor.
pub fn is_set(desk: &[u8]) -> bool
    ensures { result ≡ is_set desk.now }
{
    DESK <= desk.len() && desk[0] == 1
}

// Whether chunk c, read after t losses, is v, or the received row does not have it there.
fn reads(nc: usize, y: &[u8], c: usize, t: usize, v: u8) -> bool
    requires { AllBits y.now × ((nc ≤ 8) × (c ≤ most_chunks)) }
    ensures { result ≡ true → Reads nc y.now c v t }
{
    let at = c * nc;
    if at < t {
        return true;
    }
    let from = at - t;
    if y.len() < from + nc {
        return true;
    }
    message::chunks::number_at(y, from, nc) == v
}

// For each number of losses before chunk c, up to k, how many more leave it v.
fn shifts(nc: usize, y: &[u8], c: usize, k: usize, v: u8) -> [u8; SHIFTS]
    requires { AllBits y.now × ((nc ≤ 8) × ((c ≤ most_chunks) × (k ≤ most_losses))) }
    ensures { (d t : ℕ) → d ≤ most_losses → d ≤ t → t < d + get_or result d 0 → Reads nc y.now c v t }
{
    let mut out = [0; SHIFTS];
    let mut run = 0;
    for d in (0..=k).rev() {
        run = if reads(nc, y, c, d, v) { run + 1 } else { 0 };
        out[d] = run;
    }
    out
}

// The same for every chunk of the anchor, on the desk.
fn fill_near(l: Layout, y: &[u8], k: usize, desk: &mut [u8])
    requires { (legal l ≡ true) × (AllBits y.now × ((k ≤ most_losses) × (desk_size ≤ length desk.old))) }
    ensures { NearFor l.nc y.now (l.l1 * l.l2) desk.old desk.new }
{
    for c in 0..l.l1 * l.l2 {
        let near = shifts(l.nc, y, c, k, desk[1 + c]);
        let at = NEAR + c * SHIFTS;
        desk[at..at + SHIFTS].copy_from_slice(&near);
    }
}

// How many of n chunks can be another than the anchor's although they lost no bit, where d to d + a bits are lost before them.
fn count_wide(desk: &[u8], from: usize, n: usize, d: usize, a: usize) -> usize
    requires { (desk_size ≤ length desk.now) × ((from + n ≤ most_chunks) × (d ≤ most_losses)) }
    ensures { (result ≡ over (wide desk.now d a) from n) × (result ≤ n) }
{
    let mut count = 0;
    for c in from..from + n {
        if usize::from(desk[NEAR + c * SHIFTS + d]) <= a {
            count += 1;
        }
    }
    count
}

// For each block, how many chunks from there on can be another than the anchor's although they lost no bit, where d to k bits are
// lost before them.
fn later(l: Layout, desk: &[u8], d: usize, k: usize) -> [u8; BLOCKS]
    requires { (legal l ≡ true) × ((desk_size ≤ length desk.now) × ((d ≤ k) × (k ≤ most_losses))) }
    ensures { (i : ℕ) → i ≤ l.l1
        → get_or result i 0 ≡ over (wide desk.now d (k - d)) (i * l.l2) ((l.l1 - i) * l.l2) }
{
    let mut out = [0; BLOCKS];
    let mut count = 0;
    for i in (0..l.l1).rev() {
        count += count_wide(desk, i * l.l2, l.l2, d, k - d);
        out[i] = count as u8;
    }
    out
}

// The same for every number of losses up to k, on the desk.
fn fill_later(l: Layout, k: usize, desk: &mut [u8])
    requires { (legal l ≡ true) × ((k ≤ most_losses) × (desk_size ≤ length desk.old)) }
    ensures { LaterFor l k (k + 1) desk.old desk.new }
{
    for d in 0..k + 1 {
        let counts = later(l, desk, d, k);
        let at = LATER + d * BLOCKS;
        desk[at..at + BLOCKS].copy_from_slice(&counts);
    }
}

// The chunks of the first row of the list slice.
fn first_chunks(l: Layout, list: &[u8], out: &mut [u8])
    requires { (legal l ≡ true) × ((bytes_for (row_bits l) ≤ length list.now) × (l.l1 * l.l2 ≤ length out.old)) }
    ensures { out.new
        ≡ values l (take (row_bits l) (unpacked (take (bytes_for (row_bits l)) list.now)))
        ++ drop (l.l1 * l.l2) out.old }
{
    let n = l.l1 * l.l2 * l.nc;
    let mut row = [0; bits::LONGEST];
    bits::unpack(&list[..n.div_ceil(8)], n, &mut row);
    message::chunks::fill_chunks(Legal { layout: l }, &row[..n], out);
}

// The desk prepared for the first row of the list slice.
fn prepare(l: Layout, y: &[u8], list: &[u8], desk: &mut [u8])
    requires { (legal l ≡ true) × (AllBits y.now × (((length y.now ≤ row_bits l)
        × (row_bits l ≤ length y.now + most_losses))
        × ((bytes_for (row_bits l) ≤ length list.now) × (desk_size ≤ length desk.old)))) }
    ensures { Prepared l y.now
        (values l (take (row_bits l) (unpacked (take (bytes_for (row_bits l)) list.now)))) desk.new }
{
    let mut chunks = [0; bits::MOST_CHUNKS];
    first_chunks(l, list, &mut chunks);
    desk[1..NEAR].copy_from_slice(&chunks);
    let k = l.l1 * l.l2 * l.nc - y.len();
    fill_near(l, y, k, desk);
    fill_later(l, k, desk);
}

// Once a row is held, the first row of the list slice becomes the anchor. A desk that is too short gets none, and without
// checks none is set: two consistent rows may then differ in any one chunk.
pub fn set_anchor(
    l: Layout,
    y: &[u8],
    numbers: &[u16],
    cap: usize,
    list: &[u8],
    kept: Kept,
    desk: &mut [u8],
)
    requires { Given (query l numbers.now y.now) × (HoldsSent (query l numbers.now y.now) cap list.now kept
        × Anchors (query l numbers.now y.now) list.now kept desk.old) }
    ensures { Anchors (query l numbers.now y.now) list.now kept desk.new }
{
    if l.r == 0 || desk.len() < DESK || kept.count == 0 {
        return;
    }
    if desk[0] == 1 {
        return;
    }
    desk[0] = 1;
    prepare(l, y, list, desk);
}

// How many of n chunks differ in two rows.
pub fn count_unlike(us: &[u8], vs: &[u8], from: usize, n: usize) -> usize
    requires { (from + n ≤ length us.now) × (from + n ≤ length vs.now) }
    ensures { (result ≡ over (unlike us.now vs.now) from n) × (result ≤ n) }
{
    let to = from + n;
    let mut count = 0;
    for (u, v) in us[from..to].iter().zip(&vs[from..to]) {
        if u != v {
            count += 1;
        }
    }
    count
}

// In how many chunks of block b a consistent row can differ from the anchor, at most, if it loses d bits before the block and a in it.
// A block with none or one loss is in hand.
fn block_most(
    l: Layout,
    numbers: &[u16],
    y: &[u8],
    desk: &[u8],
    row: &[u8],
    b: usize,
    d: usize,
    a: usize,
) -> usize
    requires { (Given (query l numbers.now y.now) × (desk_size ≤ length desk.now)) × ((l.l1 * l.l2 ≤ length row.now)
        × ((b < l.l1) × ((d ≤ most_losses) × (a ≤ 255)))) }
    ensures { BlockMost (query l numbers.now y.now) desk.now row.now b d a result
        × (result ≤ most_in_line + 255) }
{
    let from = b * l.l2;
    if a <= 1 {
        return count_unlike(row, &desk[1..NEAR], from, l.l2);
    }
    count_wide(desk, from, l.l2, d, a) + a
}

// Whether every consistent row under the first i counts of a loss pattern is the anchor, which is known: it can differ from the anchor
// in at most r chunks. Without checks there is no anchor.
pub fn near_anchor(
    l: Layout,
    numbers: &[u16],
    y: &[u8],
    desk: &[u8],
    counts: &[u8],
    row: &[u8],
    i: usize,
) -> bool
    requires { Given (query l numbers.now y.now) × (((l.l1 * l.l2 ≤ length row.now) × (l.l1 ≤ length counts.now))
        × ((i ≤ l.l1) × (in_all (take i counts.now) + length y.now ≤ row_bits l))) }
    ensures { result ≡ true → (held : Held) (x : List ℕ)
        → (is_set desk.now ≡ true → Anchor (query l numbers.now y.now) held desk.now)
        → Sent (query l numbers.now y.now) x → OwnCounts l y.now counts.now i x
        → LightInHand l counts.now i row.now x → Known held x }
{
    if l.r == 0 || !is_set(desk) {
        return false;
    }
    // two consistent rows differ in at least so many chunks
    let least = l.r + 1;
    let mut most = 0;
    let mut d = 0;
    for (b, count) in counts[..i].iter().enumerate() {
        let a = usize::from(*count);
        most += block_most(l, numbers, y, desk, row, b, d, a);
        if least <= most {
            return false;
        }
        d += a;
    }
    let left = l.l1 * l.l2 * l.nc - y.len() - d;
    most + usize::from(desk[LATER + d * BLOCKS + i]) + left < least
}
