// What the chunks of a short heavy block can bring to its sum from a column on, with each number of losses left. Contracts cite
// specs/Rests.antt.
#![tactic(auto)]

ghost use Rattle.std.specs.Prelude.{◌≡◌, true, List, ℕ, ◌+◌, ◌*◌, ◌<◌, ◌≤◌, length, get_or};
ghost use Rattle.residues.specs.Residues.{Has};
ghost use Rattle.states.specs.States.{lefts, each, entries, entry_at};
ghost use Rattle.column.specs.Column.{Fit, Crosses};
ghost use Rattle.marks.specs.Marks.{Path};
ghost use Rattle.sums.specs.Sums.{Short, block_modulus, rest, Holds, HoldsFrom, rest_at};
ghost use Rattle.rests.specs.Rests.{ShortChunk, Brings, Filled, FilledColumn, Marked};

use column::Heavy;
use message::Layout;

// The set of what the chunk of a block in column c brings with what those behind it bring, where it is read with so much left at its
// start and after it: each of its contents is tried. None where it cannot be read so.
fn with_chunk(
    l: Layout,
    y: &[u8],
    block: u8,
    end: u8,
    c: usize,
    left: u8,
    next: u8,
    behind: u64,
) -> u64
    requires { ShortChunk l y.now block c × (left < lefts) }
    ensures { Brings l y.now block end c left next behind result }
{
    let nc = l.nc;
    let p = column::place_of(l, y.len(), block, c, end, left, next);
    if !p.ok || y.len() < p.at {
        return 0;
    }
    let mut list = [0; 256];
    let n = contents::contents(nc, y, p.at, p.lost, &mut list);
    sums::with_each(nc, l.l2 * nc + 1, c * nc + 1, &list, 0, n, behind)
}

// The same for each number of losses after the chunk; what those behind it bring stands in the table from an entry on.
fn with_chunks(
    l: Layout,
    y: &[u8],
    block: u8,
    end: u8,
    c: usize,
    left: u8,
    rests: &[u64],
    at: usize,
) -> u64
    requires { (ShortChunk l y.now block c × (left < lefts)) × (at + lefts ≤ length rests.now) }
    ensures { (next : ℕ) → next ≤ left
        → Brings l y.now block end c left next (get_or rests.now (at + next) 0) result }
{
    let mut r = 0;
    for next in 0..=left {
        let behind = rests[at + usize::from(next)];
        r = residues::together(r, with_chunk(l, y, block, end, c, left, next, behind));
    }
    r
}

// The entries of heavy block s in column c, for each number of losses that it can have left there.
fn fill_block(
    l: Layout,
    y: &[u8],
    block: u8,
    end: u8,
    c: usize,
    s: usize,
    most: u8,
    rests: &mut [u64],
)
    requires { ShortChunk l y.now block c × (((s < 6) × (most < lefts)) × (rest_at (c + 2) 0 0 ≤ length rests.old)) }
    ensures { Filled l y.now block end c s (most + 1) rests.old rests.new }
{
    let own = c * states::ENTRIES + s * states::LEFTS;
    for left in 0..=most {
        let set = with_chunks(l, y, block, end, c, left, rests, own + states::ENTRIES);
        rests[own + usize::from(left)] = set;
    }
}

// The entries of all heavy blocks in column c.
fn fill_column(
    l: Layout,
    y: &[u8],
    numbers: &[u16],
    heavy: Heavy,
    size: [u8; states::MOST_HEAVY],
    c: usize,
    rests: &mut [u64],
)
    requires { (Fit l y.now numbers.now heavy × (Short l × (c < l.l2)))
        × (((s : ℕ) → s < heavy.n → each size s < lefts) × (rest_at (c + 2) 0 0 ≤ length rests.old)) }
    ensures { FilledColumn l y.now heavy size c heavy.n rests.old rests.new }
{
    for s in 0..heavy.n {
        fill_block(l, y, heavy.block[s], heavy.end[s], c, s, size[s], rests);
    }
}

// The most entries of a table: the blocks of a short layout have at most twenty chunks.
pub const RESTS: usize = 1638;

// Fills the table for heavy blocks that have so many losses at first; with a layout that is not short it stays as it is.
#[tactic(auto, using(crate::proofs::Rests::short_columns))]
pub fn fill(
    l: Layout,
    y: &[u8],
    numbers: &[u16],
    heavy: Heavy,
    size: [u8; states::MOST_HEAVY],
    rests: &mut [u64],
)
    requires { Fit l y.now numbers.now heavy
        × (((s : ℕ) → s < heavy.n → each size s < lefts) × (1638 ≤ length rests.old)) }
    ensures { ((row vs : List ℕ) (own : ℕ → ℕ → ℕ)
        → Path l y.now numbers.now heavy row (each size) vs own
        → HoldsFrom l heavy rests.new vs own 0) × (length rests.new ≡ length rests.old) }
{
    if !sums::is_short(l) {
        return;
    }
    let end = l.l2 * states::ENTRIES;
    for s in 0..heavy.n {
        rests[end + s * states::LEFTS] = residues::only(0);
    }
    for c in (0..l.l2).rev() {
        fill_column(l, y, numbers, heavy, size, c, rests);
    }
}

// Marks with how many losses left heavy block s can leave column c, with so many at its start: what it is to bring from there on is among
// what its chunk brings with those behind it.
fn mark_block(
    l: Layout,
    y: &[u8],
    block: u8,
    end: u8,
    c: usize,
    s: usize,
    left: u8,
    set: u64,
    rests: &[u64],
    can: &mut [u8; states::ENTRIES],
)
    requires { (ShortChunk l y.now block c × (((s < 6) × (left < lefts)) × (rest_at (c + 2) 0 0 ≤ length rests.now)))
        × (length can.old ≡ entries) }
    ensures { Marked l y.now block end c s left set rests.now can.old (left + 1)
        can.new }
{
    let own = s * states::LEFTS;
    let behind = (c + 1) * states::ENTRIES + own;
    for next in 0..=left {
        let n = usize::from(next);
        let brings = with_chunk(l, y, block, end, c, left, next, rests[behind + n]);
        if residues::meet(set, brings) {
            can[own + n] = 1;
        }
    }
}

// With how many losses left each heavy block can leave column c; with a layout that is not short nothing is known, and each number is
// marked.
#[tactic(auto, using(crate::proofs::Rests::short_columns))]
pub fn exits(
    l: Layout,
    y: &[u8],
    numbers: &[u16],
    heavy: Heavy,
    c: usize,
    left: [u8; states::MOST_HEAVY],
    sets: [u64; states::MOST_HEAVY],
    rests: &[u64],
) -> [u8; states::ENTRIES]
    requires { Fit l y.now numbers.now heavy × ((c < l.l2) × ((s : ℕ) → s < heavy.n → each left s < lefts)) }
    ensures { (row vs : List ℕ) (next : ℕ → ℕ) → Crosses l y.now numbers.now heavy row c (each left) next vs
        → Holds l heavy sets vs c
        → (Short l → (s : ℕ) → s < heavy.n
        → Has (block_modulus l) (get_or rests.now (rest_at (c + 1) s (next s)) 0) (rest l heavy vs (c + 1) s))
        → (s : ℕ) → s < heavy.n → 0 < get_or result (entry_at s (next s)) 0 }
{
    if !sums::is_short(l) || rests.len() < RESTS {
        return [1; states::ENTRIES];
    }
    let mut can = [0; states::ENTRIES];
    for s in 0..heavy.n {
        mark_block(
            l,
            y,
            heavy.block[s],
            heavy.end[s],
            c,
            s,
            left[s],
            sets[s],
            rests,
            &mut can,
        );
    }
    can
}

// Whether all of n heavy blocks can leave a column with so many losses left.
pub fn all_can(n: usize, next: [u8; states::MOST_HEAVY], can: &[u8; states::ENTRIES]) -> bool
    requires { n ≤ 6 }
    ensures { ((s : ℕ) → s < n → 0 < get_or can.now (entry_at s (each next s)) 0) → result ≡ true }
{
    for (s, left) in next[..n].iter().enumerate() {
        let at = s * states::LEFTS + usize::from(*left);
        if states::ENTRIES <= at {
            return true;
        }
        if can[at] == 0 {
            return false;
        }
    }
    true
}
