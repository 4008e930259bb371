// A guess of a likely row, before a search: where it is right, the search has its anchor from the start. Films are long
// runs, so a lost bit mostly belongs to a run that is still there: the guess prolongs runs until the blocks have their
// sums. Where a row repeats itself after as many bits as were lost, the guess repeats it once more. It promises only that
// what it adds is consistent. Contracts cite specs/Tries.antt and found's specs/Given.antt; strings of bits are unpacked,
// one byte a bit.
#![tactic(auto)]

ghost use Rattle.std.specs.Prelude.{◌≡◌, ◌+◌, ◌*◌, ◌<◌, ◌≤◌, IfErr, length};
ghost use Rattle.bits.specs.Bits.{AllBits, longest};
ghost use Rattle.consistent.specs.Consistent.{most_losses};
ghost use Rattle.consistent.specs.Query.{query};
ghost use Rattle.found.specs.Given.{Given, HoldsSent, AddsSent};
ghost use Rattle.hint.specs.Tries.{Fit, Hand, Stands};

use message::Layout;
use message::layouts::Legal;
use rows::Kept;

// The bits that a guess writes for each loss, about, before it gives up.
const FUEL: usize = 20000;

// Where a guess stands: block i is read from place p of the received row on.
#[derive(Clone, Copy)]
pub struct Stand {
    pub i: usize,
    pub p: usize,
}

// What is tried in a block: the run that ends at place r of the received row is e bits longer, and an earlier one,
// which ends at place q, is g bits longer.
#[derive(Clone, Copy)]
pub struct Try {
    pub q: usize,
    pub g: usize,
    pub r: usize,
    pub e: usize,
}

// Bit j of y; past its end the last one again, and 0 where y is empty.
fn read_on(y: &[u8], j: usize) -> u8
    requires { AllBits y.now }
    ensures { result < 2 }
{
    if j < y.len() {
        y[j]
    } else {
        y.last().copied().unwrap_or(0)
    }
}

// The place of a string that place j comes from, once the bit at place q stands there g times more.
fn back(j: usize, q: usize, g: usize) -> usize
    requires { (q ≤ longest) × (g ≤ 13) }
{
    if j <= q {
        j
    } else if j <= q + g {
        q
    } else {
        j - g
    }
}

// Block i as it is read from place p on with its runs prolonged, in the row x; whether it has the sum s.
fn try_block(y: &[u8], p: usize, t: Try, nb: usize, i: usize, s: usize, x: &mut [u8]) -> bool
    requires { ((AllBits y.now × (length y.now ≤ longest)) × (AllBits x.old × (length x.old ≤ longest)))
        × (Fit y.now t × ((p ≤ longest) × (i * nb + nb ≤ length x.old))) }
    ensures { AllBits x.new }
{
    let from = i * nb;
    let mut total = 0;
    for u in 0..nb {
        let b = read_on(y, back(back(p + u, t.q, t.g), t.r, t.e));
        x[from + u] = b;
        total += (u + 1) * usize::from(b);
    }
    total % (nb + 1) == s
}

// Blocks from one on as they are read, without loss, in the row x; the first that has not its sum, or the end of the
// row.
fn as_read(l: Layout, y: &[u8], numbers: &[u16], at: Stand, x: &mut [u8]) -> Stand
    requires { Given (query l numbers.now y.now) × (Stands l at × Hand l x.old) }
    ensures { Hand l x.new × (Stands l result × (at.p ≤ result.p)) }
{
    let nb = l.l2 * l.nc;
    let plain = Try {
        q: 0,
        g: 0,
        r: 0,
        e: 0,
    };
    let mut p = at.p;
    for i in at.i..l.l1 {
        let s = usize::from(numbers[i]);
        if !try_block(y, p, plain, nb, i, s, x) {
            return Stand { i, p };
        }
        p += nb;
    }
    Stand { i: l.l1, p }
}

// The last place of the run that holds place q of y; the end of y where q is behind it.
fn run_end(y: &[u8], q: usize) -> usize
    ensures { result ≤ length y.now }
{
    if y.len() <= q {
        return y.len();
    }
    let bit = y[q];
    match y[q + 1..].iter().position(|b| *b != bit) {
        Some(more) => q + more,
        None => y.len() - 1,
    }
}

// The first try with these lengths from place p on: the first run, or the first two.
fn first_try(y: &[u8], p: usize, e: usize, g: usize) -> Try
    requires { (length y.now ≤ longest) × ((e ≤ 13) × (g ≤ 13)) }
    ensures { Fit y.now result × ((result.e ≡ e) × (result.g ≡ g)) }
{
    let q = run_end(y, p);
    let r = if 0 < g { run_end(y, q + 1) } else { q };
    Try { q, g, r, e }
}

// The try after t in a block that is read from place p to place end: the next earlier run, the next run, the next
// lengths. None is left where the lengths are more than most.
fn next_try(y: &[u8], p: usize, end: usize, most: usize, t: Try) -> Try
    requires { ((length y.now ≤ longest) × (most ≤ most_losses))
        × (Fit y.now t × ((0 < t.e) × (t.e + t.g ≤ most))) }
    ensures { Fit y.now result × (0 < result.e) }
{
    let a = t.e + t.g;
    let q = run_end(y, t.q + 1);
    if 0 < t.g && q < t.r {
        return Try { q, ..t };
    }
    let r = run_end(y, t.r + 1);
    if t.r < r && r + a < end {
        return Try {
            q: run_end(y, p),
            r,
            ..t
        };
    }
    if a < most {
        first_try(y, p, t.e + 1, t.g)
    } else {
        first_try(y, p, 1, t.g + 1)
    }
}

// Rows in which the losses that are left prolong runs, from a block on, in the row x: a block that has its sum as it is
// read lost nothing, in another one run or two are longer. It ends with the first consistent row, or when the fuel,
// which is counted in bits, is used up; where no row is consistent it answers the fuel that is left.
fn prolong(
    l: Layout,
    y: &[u8],
    numbers: &[u16],
    at: Stand,
    left: usize,
    fuel: usize,
    x: &mut [u8],
) -> Result<(), usize>
    requires { (Given (query l numbers.now y.now) × (left ≤ most_losses)) × (Stands l at × Hand l x.old) }
    ensures { Hand l x.new × IfErr result (λ rest. rest ≤ fuel) }
{
    let here = as_read(l, y, numbers, at, x);
    let i = here.i;
    let p = here.p;
    let mut f = fuel.saturating_sub(p - at.p);
    if i == l.l1 {
        if consistent::is_consistent(Legal { layout: l }, x, y, numbers) {
            return Ok(());
        }
        return Err(f.saturating_sub(2 * p));
    }
    let nb = l.l2 * l.nc;
    let most = left.min(nb);
    let s = usize::from(numbers[i]);
    let mut t = first_try(y, p, 1, 0);
    while t.e + t.g <= most {
        if f == 0 {
            return Err(0);
        }
        f = f.saturating_sub(nb);
        if try_block(y, p, t, nb, i, s, x) {
            let a = t.e + t.g;
            let next = Stand {
                i: i + 1,
                p: p + nb - a,
            };
            match prolong(l, y, numbers, next, left - a, f, x) {
                Ok(()) => return Ok(()),
                Err(rest) => f = rest,
            }
        }
        t = next_try(y, p, p + nb, most, t);
    }
    Err(f)
}

// How many bits of a string are another than the one k places before them. They are counted by their place, which the compiler does many
// at a time; a chain of iterators goes bit by bit.
fn unlike(y: &[u8], k: usize) -> usize
    ensures { result ≤ length y.now }
{
    let mut unlike = 0;
    for i in k..y.len() {
        if y[i] != y[i - k] {
            unlike += 1;
        }
    }
    unlike
}

// Whether a row has few runs: at most one in eight bits.
fn few_runs(y: &[u8]) -> bool
    requires { length y.now ≤ longest }
{
    8 * (1 + unlike(y, 1)) <= y.len()
}

// Adds a row whose losses prolong runs, if a consistent one is found before the fuel is used up; x is as long as a row.
fn add_prolonged(
    l: Layout,
    y: &[u8],
    numbers: &[u16],
    x: &mut [u8],
    cap: usize,
    list: &mut [u8],
    kept: Kept,
) -> Kept
    requires { Given (query l numbers.now y.now) × (Hand l x.old
        × HoldsSent (query l numbers.now y.now) cap list.old kept) }
    ensures { AddsSent (query l numbers.now y.now) cap (λ z. ⊥)
        list.old kept list.new result }
{
    let start = Stand { i: 0, p: 0 };
    let left = x.len() - y.len();
    if prolong(l, y, numbers, start, left, left * FUEL, x).is_err() {
        return kept;
    }
    found::add_bits(l, y, numbers, x, cap, list, kept)
}

// Whether a string mostly repeats itself after k bits: at most one bit in eight is another than the one k places before it.
fn repeats(y: &[u8], k: usize) -> bool
    requires { length y.now ≤ longest }
{
    8 * unlike(y, k) <= y.len()
}

// The place of a string that place j comes from, once the k bits before place q stand there again.
fn again(j: usize, q: usize, k: usize) -> usize {
    if j < q || j < k { j } else { j - k }
}

// The row x as the received row with the k bits before place q once more.
fn repeat_at(y: &[u8], q: usize, k: usize, x: &mut [u8])
    requires { AllBits y.now × AllBits x.old }
    ensures { AllBits x.new }
{
    for (j, b) in x.iter_mut().enumerate() {
        *b = read_on(y, again(j, q, k));
    }
}

// Adds the row in which the bits before the first block that has not its sum were sent twice, as many as were lost, if it
// is consistent; it is made in a slice as long as a row.
fn add_repeated(
    l: Layout,
    y: &[u8],
    numbers: &[u16],
    row: &mut [u8],
    cap: usize,
    list: &mut [u8],
    kept: Kept,
) -> Kept
    requires { Given (query l numbers.now y.now) × (Hand l row.old
        × HoldsSent (query l numbers.now y.now) cap list.old kept) }
    ensures { AddsSent (query l numbers.now y.now) cap (λ z. ⊥)
        list.old kept list.new result }
{
    let start = Stand { i: 0, p: 0 };
    let here = as_read(l, y, numbers, start, row);
    repeat_at(y, here.p, row.len() - y.len(), row);
    found::add_bits(l, y, numbers, row, cap, list, kept)
}

// Adds a likely row, if it is consistent. Without checks there is no use for an anchor, and where runs are short and
// nothing repeats itself no row is likely.
pub fn guess(l: Layout, y: &[u8], numbers: &[u16], cap: usize, list: &mut [u8], kept: Kept) -> Kept
    requires { Given (query l numbers.now y.now)
        × HoldsSent (query l numbers.now y.now) cap list.old kept }
    ensures { AddsSent (query l numbers.now y.now) cap (λ z. ⊥)
        list.old kept list.new result }
{
    if l.r == 0 {
        return kept;
    }
    let n = l.l1 * l.l2 * l.nc;
    if few_runs(y) {
        let mut x = [0; bits::LONGEST];
        return add_prolonged(l, y, numbers, &mut x[0..n], cap, list, kept);
    }
    if repeats(y, n - y.len()) {
        let mut x = [0; bits::LONGEST];
        return add_repeated(l, y, numbers, &mut x[0..n], cap, list, kept);
    }
    kept
}
