// The floor: the least row that can be under the first counts of a loss pattern. Once more rows were found than fit,
// parts of a search whose rows all come after the last row held are left out. Contracts cite specs/Floor.antt; the
// received row is unpacked, one byte a bit, the rows held are packed.
#![tactic(auto)]

ghost use Rattle.std.specs.Prelude.{◌≡◌, true, List, ℕ, ◌+◌, ◌*◌, ◌<◌, ◌≤◌, length, drop};
ghost use Rattle.bits.specs.Bits.{longest, AllBits, bytes_for, number, unpack as unpacked};
ghost use Rattle.rows.specs.Held.{Known};
ghost use Rattle.rows.specs.Order.{Less, Row};
ghost use Rattle.message.specs.Layout.{legal, row_bits};
ghost use Rattle.consistent.specs.Query.{query};
ghost use Rattle.found.specs.Given.{Given, Sent, HoldsSent, held_sent};
ghost use Rattle.anchor.specs.Anchor.{OwnCounts, LightInHand};
ghost use Rattle.floor.specs.Floor.{next_bit, least_lost, bit_of, BlockInHand, BlockLoses, BlockCompared};

use bits::BitCursor;
use message::Layout;
use rows::Kept;
use std::cmp::Ordering;

// The number that the k bits from a place of a packed row on spell.
fn number_in(packed: &[u8], at: usize, k: usize) -> usize
    requires { (k ≤ 8) × ((length packed.now ≤ bytes_for longest) × (at + k ≤ length packed.now * 8)) }
    ensures { result ≡ number k (drop at (unpacked packed.now)) }
{
    usize::from(BitCursor { at }.take(packed, k).value)
}

// The next bit of the received row at a place, 1 where it has ended.
fn next_bit(y: &[u8], p: usize) -> usize
    requires { AllBits y.now }
    ensures { (result ≡ next_bit y.now p) × (result ≤ 1) }
{
    if p < y.len() { usize::from(y[p]) } else { 1 }
}

// Of the least string of so many bits that loses just `left`, whether the first bit is lost (1) or takes the next bit
// (0).
fn least_lost(next: usize, left: usize, bits: usize) -> usize
    requires { next ≤ 1 }
    ensures { (result ≡ least_lost next left bits) × ((result ≤ 1) × (result ≤ left)) }
{
    if left == 0 {
        0
    } else if left == bits {
        1
    } else {
        next
    }
}

// The bit that is lost against the next bit, or takes it.
fn bit_of(next: usize, lost: usize) -> usize
    requires { next ≤ 1 }
    ensures { result ≡ bit_of next lost }
{
    if lost == 0 { next } else { 1 - next }
}

// Block b in hand compared with that of the row `last`.
fn light_block(l: Layout, row: &[u8], b: usize, last: &[u8]) -> Ordering
    requires { (legal l ≡ true) × ((b < l.l1) × ((l.l1 * l.l2 ≤ length row.now)
        × (length last.now ≡ bytes_for (row_bits l)))) }
    ensures { (x : List ℕ) → Row (row_bits l) x → BlockInHand l row.now b x
        → BlockCompared l b (unpacked last.now) x result }
{
    let from = b * l.l2;
    for (j, own) in row[from..from + l.l2].iter().enumerate() {
        let held = number_in(last, (from + j) * l.nc, l.nc);
        match usize::from(*own).cmp(&held) {
            Ordering::Equal => {}
            order => return order,
        }
    }
    Ordering::Equal
}

// The least block b that loses a bits, after d, compared with that of the row `last`.
fn heavy_block(l: Layout, y: &[u8], b: usize, d: usize, a: usize, last: &[u8]) -> Ordering
    requires { (legal l ≡ true) × (AllBits y.now × ((b < l.l1) × (length last.now ≡ bytes_for (row_bits l)))) }
    ensures { (x : List ℕ) → Row (row_bits l) x → BlockLoses l y.now b d a x
        → BlockCompared l b (unpacked last.now) x result }
{
    let nb = l.l2 * l.nc;
    let from = b * nb;
    if from < d {
        return Ordering::Less;
    }
    let mut p = from - d;
    let mut left = a;
    for u in 0..nb {
        let next = next_bit(y, p);
        let lost = least_lost(next, left, nb - u);
        let least = bit_of(next, lost);
        let held = number_in(last, from + u, 1);
        match least.cmp(&held) {
            Ordering::Equal => {}
            order => return order,
        }
        p += 1 - lost;
        left -= lost;
    }
    Ordering::Equal
}

// Block b of a row that loses d bits before it and a in it, compared with that of the row `last`: a block with none or
// one loss is in hand, of another the least is taken.
fn compare_block(
    l: Layout,
    y: &[u8],
    row: &[u8],
    b: usize,
    d: usize,
    a: usize,
    last: &[u8],
) -> Ordering
    requires { (legal l ≡ true) × (AllBits y.now × ((b < l.l1) × ((l.l1 * l.l2 ≤ length row.now)
        × (length last.now ≡ bytes_for (row_bits l))))) }
    ensures { (x : List ℕ) → Row (row_bits l) x → BlockLoses l y.now b d a x
        → (a ≤ 1 → BlockInHand l row.now b x) → BlockCompared l b (unpacked last.now) x result }
{
    if a <= 1 {
        light_block(l, row, b, last)
    } else {
        heavy_block(l, y, b, d, a, last)
    }
}

// Whether every row under the first i counts of a loss pattern comes after the row `last`.
fn after_row(l: Layout, y: &[u8], counts: &[u8], row: &[u8], i: usize, last: &[u8]) -> bool
    requires { (legal l ≡ true) × (AllBits y.now × (((l.l1 * l.l2 ≤ length row.now) × (l.l1 ≤ length counts.now))
        × ((i ≤ l.l1) × (length last.now ≡ bytes_for (row_bits l))))) }
    ensures { result ≡ true → (x : List ℕ) → Row (row_bits l) x → OwnCounts l y.now counts.now i x
        → LightInHand l counts.now i row.now x → Less (unpacked last.now) x }
{
    let mut d = 0;
    for (b, count) in counts[..i].iter().enumerate() {
        let a = usize::from(*count);
        match compare_block(l, y, row, b, d, a, last) {
            Ordering::Less => return false,
            Ordering::Equal => d += a,
            Ordering::Greater => return true,
        }
    }
    false
}

// Whether every consistent row under the first i counts of a loss pattern is known, as more rows were found than fit
// and it comes after the last row held.
pub fn above(
    l: Layout,
    numbers: &[u16],
    y: &[u8],
    counts: &[u8],
    row: &[u8],
    i: usize,
    cap: usize,
    list: &[u8],
    kept: Kept,
) -> bool
    requires { Given (query l numbers.now y.now)
        × (HoldsSent (query l numbers.now y.now) cap list.now kept
        × (((l.l1 * l.l2 ≤ length row.now) × (l.l1 ≤ length counts.now)) × (i ≤ l.l1))) }
    ensures { result ≡ true → (x : List ℕ) → Sent (query l numbers.now y.now) x
        → OwnCounts l y.now counts.now i x
        → LightInHand l counts.now i row.now x
        → Known (held_sent (query l numbers.now y.now) list.now kept) x }
{
    if !kept.more {
        return false;
    }
    if kept.count == 0 {
        return true;
    }
    let w = (l.l1 * l.l2 * l.nc).div_ceil(8);
    let at = (kept.count - 1) * w;
    let end = at + w;
    after_row(l, y, counts, row, i, &list[at..end])
}
