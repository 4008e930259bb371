// What a pattern costs: how many bits each column loses at least in every row under it, against the losses that its heavy
// blocks have. Sets hold what they are said to at least: a residue too many lets a column pass, and no row is lost by that.
// Contracts cite specs/Costs.antt.
#![tactic(auto)]

ghost use Rattle.std.specs.Prelude.{◌≡◌, true, List, ℕ, ◌+◌, ◌*◌, ◌%◌, ◌<◌, ◌≤◌, length, get_or};
ghost use Rattle.bits.specs.Bits.{most_in_line};
ghost use Rattle.message.specs.Layout.{legal as isLegal};
ghost use Rattle.windows.specs.Windows.{Tables};
ghost use Rattle.states.specs.States.{each, firsts};
ghost use Rattle.weigh.specs.Weigh.{chunk_top};
ghost use Rattle.column.specs.Column.{Fit, Light, Crosses};
ghost use Rattle.marks.specs.Marks.{Path};
ghost use Rattle.whole.specs.Whole.{modulus, Source, OneLess, Legible, brings};
ghost use Rattle.sets.specs.Sets.{In, Moved, MovedTwice, Long, Room};
ghost use Rattle.costs.specs.Costs.{ReadBut, brings_but, Asked, Tells, Repairs};

use column::Heavy;
use message::Layout;

// What the chunk of a block in column j brings to the sum of its chunk-string, where it is read whole with e losses
// left in its block; the modulus where it cannot be read so.
pub fn residue(
    l: Layout,
    y: &[u8],
    totals: &[u32],
    counts: &[u16],
    block: u8,
    end: u8,
    j: usize,
    e: usize,
) -> usize
    requires { Source l y.now totals.now counts.now block j × (e ≤ 255) }
    ensures { Legible l (length y.now) block end j e
        → result ≡ brings l y.now block end j e % modulus l }
{
    let m = l.l1 * l.nc + 1;
    let read = whole::reading(l, y, totals, counts, block, end, j, e);
    if read == whole::UNREAD { m } else { read % m }
}

// Puts the residues of a set that stands twice, with what the chunk of a block in column j brings, into another: each
// reading of the chunk with at most so many losses left. Readings that bring the same as the one before are passed over.
fn add_block(
    l: Layout,
    y: &[u8],
    totals: &[u32],
    counts: &[u16],
    block: u8,
    end: u8,
    size: u8,
    j: usize,
    from: &[u64],
    to: &mut [u64],
)
    requires { Source l y.now totals.now counts.now block j
        × Room (modulus l) from.now to.old }
    ensures { (e : ℕ) → e ≤ size → Legible l (length y.now) block end j e
        → Moved (modulus l) (brings l y.now block end j e) from.now to.new }
{
    let m = l.l1 * l.nc + 1;
    let mut last = m;
    for e in 0..=usize::from(size) {
        let by = residue(l, y, totals, counts, block, end, j, e);
        if by != last {
            sets::move_in(m, by, from, to);
            last = by;
        }
    }
}

// Puts what the chunk of a block in column j brings into the residues of a set that stands twice: each of them with each
// reading of the chunk. The other set is empty before and after.
fn take_block(
    l: Layout,
    y: &[u8],
    totals: &[u32],
    counts: &[u16],
    block: u8,
    end: u8,
    size: u8,
    j: usize,
    set: &mut [u64],
    other: &mut [u64],
)
    requires { Source l y.now totals.now counts.now block j
        × Room (modulus l) set.old other.old }
    ensures { (e : ℕ) → e ≤ size → Legible l (length y.now) block end j e
        → MovedTwice (modulus l) (brings l y.now block end j e) set.old set.new }
{
    add_block(l, y, totals, counts, block, end, size, j, set, other);
    sets::take_over(l.l1 * l.nc + 1, set, other);
}

// Makes a set of the residues that the sum of column j can have where the chunks of its heavy blocks are read whole, whatever
// losses are left in each; heavy block but is left out. The other set is empty before and after.
pub fn fill_sums(
    l: Layout,
    y: &[u8],
    totals: &[u32],
    counts: &[u16],
    heavy: Heavy,
    size: [u8; states::MOST_HEAVY],
    known: &[u16],
    j: usize,
    but: usize,
    set: &mut [u64],
    other: &mut [u64],
)
    requires { ((isLegal l ≡ true) × ((heavy.n ≤ 6) × (j < length known.now)))
        × (((s : ℕ) → s < heavy.n → Source l y.now totals.now counts.now (get_or heavy.block s 0) j)
        × Room (modulus l) set.old other.old) }
    ensures { (left : ℕ → ℕ) → ReadBut l (length y.now) heavy size j left but heavy.n
        → In set.new ((get_or known.now j 0
        + firsts (brings_but l y.now heavy j left but) heavy.n) % modulus l) }
{
    let m = l.l1 * l.nc + 1;
    sets::only(m, usize::from(known[j]) % m, set);
    for s in 0..heavy.n {
        if s != but {
            take_block(
                l,
                y,
                totals,
                counts,
                heavy.block[s],
                heavy.end[s],
                size[s],
                j,
                set,
                other,
            );
        }
    }
}

// Whether column j can have its sum where no chunk of a heavy block loses a bit there, whatever losses are left in each.
fn can_be_whole(
    l: Layout,
    y: &[u8],
    totals: &[u32],
    counts: &[u16],
    numbers: &[u16],
    heavy: Heavy,
    size: [u8; states::MOST_HEAVY],
    known: &[u16],
    j: usize,
    set: &mut [u64],
    other: &mut [u64],
) -> bool
    requires { Asked l y.now totals.now counts.now numbers.now heavy known.now j
        × Room (modulus l) set.old other.old }
    ensures { Tells l y.now numbers.now heavy size known.now j
        (λ left next. (s : ℕ) → s < heavy.n → next s ≡ left s) result }
{
    fill_sums(
        l, y, totals, counts, heavy, size, known, j, heavy.n, set, other,
    );
    sets::holds(set, usize::from(numbers[l.l1 + j]))
}

// Whether a residue of a set, with some number from low to high, makes up the sum modulo m: the residue that goes with a
// number falls by one, modulo m, as the number rises.
fn makes_up(m: usize, sum: usize, low: usize, high: usize, set: &[u64]) -> bool
    requires { (sum < m) × ((high ≤ chunk_top) × Long m set.now) }
    ensures { (part n : ℕ) → part < m → In set.now part → low ≤ n → n ≤ high
        → (part + n) % m ≡ sum → result ≡ true }
{
    let mut part = column::missing(sum, low % m, m);
    for _ in low..=high {
        if sets::holds(set, part) {
            return true;
        }
        part = if part == 0 { m - 1 } else { part - 1 };
    }
    false
}

// Whether the chunk of a block in column j, with so many losses left before, can have lost one bit and bring the column to
// its sum from one of the residues of a set: what it can bring is tried by the number of its ones.
fn repairs(
    l: Layout,
    y: &[u8],
    totals: &[u32],
    counts: &[u16],
    block: u8,
    end: u8,
    j: usize,
    left: u8,
    sum: usize,
    set: &[u64],
) -> bool
    requires { Source l y.now totals.now counts.now block j × ((1 ≤ left) × ((sum < modulus l)
        × Long (modulus l) set.now)) }
    ensures { (v part : ℕ) → Repairs l y.now block end j left sum set.now v part → result ≡ true }
{
    let nc = l.nc;
    let p = column::place_of(l, y.len(), block, j, end, left, left - 1);
    if !p.ok {
        return false;
    }
    let seen = weigh::look(y, totals, counts, p.at, nc - 1);
    let more = weigh::more_ones(y, totals, counts, p.at, nc - 1, 1);
    let before = usize::from(block) * nc;
    for g in more.first..=more.last {
        let span = weigh::widen(nc, before, 1, seen, g, weigh::Span { low: 0, high: 0 });
        if makes_up(l.l1 * nc + 1, sum, span.low / 2, span.high / 2, set) {
            return true;
        }
    }
    false
}

// The same with any losses left, up to so many.
fn repairs_some(
    l: Layout,
    y: &[u8],
    totals: &[u32],
    counts: &[u16],
    block: u8,
    end: u8,
    size: u8,
    j: usize,
    sum: usize,
    set: &[u64],
) -> bool
    requires { Source l y.now totals.now counts.now block j × ((sum < modulus l)
        × Long (modulus l) set.now) }
    ensures { (left v part : ℕ) → 1 ≤ left → left ≤ size
        → Repairs l y.now block end j left sum set.now v part → result ≡ true }
{
    for left in 1..=size {
        if repairs(l, y, totals, counts, block, end, j, left, sum, set) {
            return true;
        }
    }
    false
}

// Whether column j can have its sum where the chunk of one heavy block, number at, loses one bit there and no other chunk does,
// whatever losses are left in each.
fn can_lose_in(
    l: Layout,
    y: &[u8],
    totals: &[u32],
    counts: &[u16],
    numbers: &[u16],
    heavy: Heavy,
    size: [u8; states::MOST_HEAVY],
    known: &[u16],
    j: usize,
    at: usize,
    set: &mut [u64],
    other: &mut [u64],
) -> bool
    requires { Asked l y.now totals.now counts.now numbers.now heavy known.now j
        × ((at < heavy.n) × Room (modulus l) set.old other.old) }
    ensures { Tells l y.now numbers.now heavy size known.now j
        (λ left next. OneLess heavy.n left next at) result }
{
    fill_sums(l, y, totals, counts, heavy, size, known, j, at, set, other);
    let sum = usize::from(numbers[l.l1 + j]);
    repairs_some(
        l,
        y,
        totals,
        counts,
        heavy.block[at],
        heavy.end[at],
        size[at],
        j,
        sum,
        set,
    )
}

// The same with any heavy block.
fn can_lose_one(
    l: Layout,
    y: &[u8],
    totals: &[u32],
    counts: &[u16],
    numbers: &[u16],
    heavy: Heavy,
    size: [u8; states::MOST_HEAVY],
    known: &[u16],
    j: usize,
    set: &mut [u64],
    other: &mut [u64],
) -> bool
    requires { Asked l y.now totals.now counts.now numbers.now heavy known.now j
        × Room (modulus l) set.old other.old }
    ensures { Tells l y.now numbers.now heavy size known.now j
        (λ left next. (s : ℕ) × ((s < heavy.n) × OneLess heavy.n left next s)) result }
{
    for s in 0..heavy.n {
        if can_lose_in(
            l, y, totals, counts, numbers, heavy, size, known, j, s, set, other,
        ) {
            return true;
        }
    }
    false
}

// The fewest losses that every row under the pattern has in column j: none where the column can be whole, two where it cannot
// lose just one, if that is asked, and else one.
fn cost(
    l: Layout,
    y: &[u8],
    totals: &[u32],
    counts: &[u16],
    numbers: &[u16],
    heavy: Heavy,
    size: [u8; states::MOST_HEAVY],
    known: &[u16],
    j: usize,
    deep: bool,
    set: &mut [u64],
    other: &mut [u64],
) -> usize
    requires { Asked l y.now totals.now counts.now numbers.now heavy known.now j
        × Room (modulus l) set.old other.old }
    ensures { (result ≤ 2) × ((row vs : List ℕ) (left next : ℕ → ℕ) → Light l heavy row known.now
        → ((s : ℕ) → s < heavy.n → left s ≤ each size s)
        → Crosses l y.now numbers.now heavy row j left next vs
        → firsts next heavy.n + result ≤ firsts left heavy.n) }
{
    if can_be_whole(
        l, y, totals, counts, numbers, heavy, size, known, j, set, other,
    ) {
        return 0;
    }
    if !deep {
        return 1;
    }
    if can_lose_one(
        l, y, totals, counts, numbers, heavy, size, known, j, set, other,
    ) {
        return 1;
    }
    2
}

// The losses of n blocks together.
pub fn all_losses(n: usize, size: [u8; states::MOST_HEAVY]) -> usize
    requires { n ≤ 6 }
    ensures { (result ≡ firsts (each size) n) × (result ≤ 1530) }
{
    let mut all = 0;
    for losses in &size[..n] {
        all += usize::from(*losses);
    }
    all
}

// What the columns cost together, at most two for each; it looks no further once that is above a limit.
fn columns_cost(
    l: Layout,
    y: &[u8],
    totals: &[u32],
    counts: &[u16],
    numbers: &[u16],
    heavy: Heavy,
    size: [u8; states::MOST_HEAVY],
    known: &[u16],
    limit: usize,
    deep: bool,
    set: &mut [u64],
    other: &mut [u64],
) -> usize
    requires { Fit l y.now numbers.now heavy × (Tables y.now 0 totals.now counts.now
        × ((l.l2 ≤ length known.now) × Room (modulus l) set.old other.old)) }
    ensures { (result ≤ 2 * most_in_line) × ((row vs : List ℕ) (own : ℕ → ℕ → ℕ) → Light l heavy row known.now
        → Path l y.now numbers.now heavy row (each size) vs own → result ≤ firsts (each size) heavy.n) }
{
    let mut sum = 0;
    for j in 0..l.l2 {
        sum += cost(
            l, y, totals, counts, numbers, heavy, size, known, j, deep, set, other,
        );
        if limit < sum {
            break;
        }
    }
    sum
}

// Whether the losses of the heavy blocks are enough for what the columns cost. Most patterns fail already where columns cost no
// more than one; where these are at most half of the losses, columns of two cannot be too many.
pub fn enough(
    l: Layout,
    y: &[u8],
    totals: &[u32],
    counts: &[u16],
    numbers: &[u16],
    heavy: Heavy,
    size: [u8; states::MOST_HEAVY],
    known: &[u16],
) -> bool
    requires { Fit l y.now numbers.now heavy × (Tables y.now 0 totals.now counts.now
        × (l.l2 ≤ length known.now)) }
    ensures { (row vs : List ℕ) (own : ℕ → ℕ → ℕ) → Light l heavy row known.now
        → Path l y.now numbers.now heavy row (each size) vs own → result ≡ true }
{
    let all = all_losses(heavy.n, size);
    let mut set = [0; sets::TWICE];
    let mut other = [0; sets::WORDS];
    let ones = columns_cost(
        l, y, totals, counts, numbers, heavy, size, known, all, false, &mut set, &mut other,
    );
    if all < ones {
        return false;
    }
    if ones * 2 <= all {
        return true;
    }
    columns_cost(
        l, y, totals, counts, numbers, heavy, size, known, all, true, &mut set, &mut other,
    ) <= all
}
