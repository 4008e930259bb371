// Patterns under which every row is near another one: a row differs from it in a column only where it loses a bit there, or where chunks that
// are read whole differ and the column still has its sum. Contracts cite specs/Alike.antt.
#![tactic(auto)]

ghost use Rattle.std.specs.Prelude.{◌≡◌, true, List, ℕ, ◌+◌, ◌*◌, ◌%◌, ◌<◌, ◌≤◌, length, get_or};
ghost use Rattle.windows.specs.Windows.{Tables};
ghost use Rattle.states.specs.States.{lefts, each};
ghost use Rattle.column.specs.Column.{Fit, Light, Crosses, apart_in};
ghost use Rattle.whole.specs.Whole.{modulus, Source, Legible, brings};
ghost use Rattle.far.specs.Far.{Reads, read_apart};
ghost use Rattle.marks.specs.Marks.{Path, apart_from};
ghost use Rattle.sets.specs.Sets.{Long, Room};
ghost use Rattle.costs.specs.Costs.{Asked, Tells};
ghost use Rattle.alike.specs.Alike.{Hits};

use column::Heavy;
use message::Layout;

// Whether the chunk of a block in column j, read whole where e losses are left, brings the column to its sum from one of the residues of a
// set.
fn hits(
    l: Layout,
    y: &[u8],
    totals: &[u32],
    counts: &[u16],
    block: u8,
    end: u8,
    j: usize,
    e: usize,
    sum: usize,
    set: &[u64],
) -> bool
    requires { Source l y.now totals.now counts.now block j × ((e ≤ 255) × ((sum < modulus l)
        × Long (modulus l) set.now)) }
    ensures { (part : ℕ) → Hits l y.now block end j e sum set.now part → result ≡ true }
{
    let m = l.l1 * l.nc + 1;
    let by = costs::residue(l, y, totals, counts, block, end, j, e);
    by < m && sets::holds(set, column::missing(sum, by, m))
}

// Whether the chunk of heavy block s in column j, which has so many losses, does so where it is another than in z.
fn other_hits(
    l: Layout,
    y: &[u8],
    totals: &[u32],
    counts: &[u16],
    heavy: Heavy,
    z: &[u8],
    s: usize,
    size: usize,
    j: usize,
    sum: usize,
    set: &[u64],
) -> bool
    requires { (Source l y.now totals.now counts.now (get_or heavy.block s 0) j × ((s < 6) × (size < lefts)))
        × ((l.l1 * l.l2 ≤ length z.now) × ((sum < modulus l) × Long (modulus l) set.now)) }
    ensures { (e part : ℕ) → e ≤ size → Reads l y.now heavy s j e
        → 0 < read_apart l y.now heavy z.now s j e
        → Hits l y.now (get_or heavy.block s 0) (get_or heavy.end s 0) j e sum set.now part
        → result ≡ true }
{
    let block = heavy.block[s];
    let end = heavy.end[s];
    for e in 0..=size {
        if far::read_apart(l, y, heavy, z, s, size, j, e) == 1
            && hits(l, y, totals, counts, block, end, j, e, sum, set)
        {
            return true;
        }
    }
    false
}

// Whether a row can cross column j without a loss where its chunk of heavy block s is another than in z, whatever losses are left in each
// block.
fn can_differ_in(
    l: Layout,
    y: &[u8],
    totals: &[u32],
    counts: &[u16],
    numbers: &[u16],
    heavy: Heavy,
    size: [u8; states::MOST_HEAVY],
    known: &[u16],
    z: &[u8],
    j: usize,
    s: usize,
    set: &mut [u64],
    other: &mut [u64],
) -> bool
    requires { Asked l y.now totals.now counts.now numbers.now heavy known.now j
        × ((l.l1 * l.l2 ≤ length z.now) × ((s < heavy.n) × Room (modulus l) set.old other.old)) }
    ensures { Tells l y.now numbers.now heavy size known.now j
        (λ left next. ((t : ℕ) → t < heavy.n → next t ≡ left t)
        × (0 < read_apart l y.now heavy z.now s j (left s))) result }
{
    let own = usize::from(size[s]);
    if states::LEFTS <= own {
        return true;
    }
    costs::fill_sums(l, y, totals, counts, heavy, size, known, j, s, set, other);
    let sum = usize::from(numbers[l.l1 + j]);
    other_hits(l, y, totals, counts, heavy, z, s, own, j, sum, set)
}

// The same with any heavy block.
fn can_differ(
    l: Layout,
    y: &[u8],
    totals: &[u32],
    counts: &[u16],
    numbers: &[u16],
    heavy: Heavy,
    size: [u8; states::MOST_HEAVY],
    known: &[u16],
    z: &[u8],
    j: usize,
    set: &mut [u64],
    other: &mut [u64],
) -> bool
    requires { Asked l y.now totals.now counts.now numbers.now heavy known.now j
        × ((l.l1 * l.l2 ≤ length z.now) × Room (modulus l) set.old other.old) }
    ensures { (row vs : List ℕ) (left next : ℕ → ℕ) → Light l heavy row known.now
        → ((s : ℕ) → s < heavy.n → left s ≤ each size s)
        → Crosses l y.now numbers.now heavy row j left next vs
        → ((s : ℕ) → s < heavy.n → next s ≡ left s)
        → 0 < apart_in l heavy z.now vs j heavy.n → result ≡ true }
{
    for s in 0..heavy.n {
        if can_differ_in(
            l, y, totals, counts, numbers, heavy, size, known, z, j, s, set, other,
        ) {
            return true;
        }
    }
    false
}

// Whether every row under the pattern differs from z in fewer than room chunks of the heavy blocks: in each column where it loses a bit it can
// differ in all of them, and so in each where it can without a loss.
pub fn all_near(
    l: Layout,
    y: &[u8],
    totals: &[u32],
    counts: &[u16],
    numbers: &[u16],
    heavy: Heavy,
    size: [u8; states::MOST_HEAVY],
    known: &[u16],
    z: &[u8],
    room: usize,
) -> bool
    requires { Fit l y.now numbers.now heavy × (Tables y.now 0 totals.now counts.now
        × ((l.l2 ≤ length known.now) × (l.l1 * l.l2 ≤ length z.now))) }
    ensures { result ≡ true → (row vs : List ℕ) (own : ℕ → ℕ → ℕ) → Light l heavy row known.now
        → Path l y.now numbers.now heavy row (each size) vs own
        → apart_from l heavy z.now vs 0 < room }
{
    let n = heavy.n;
    let mut most = costs::all_losses(n, size) * n;
    if room <= most {
        return false;
    }
    let mut set = [0; sets::TWICE];
    let mut other = [0; sets::WORDS];
    for j in 0..l.l2 {
        if can_differ(
            l, y, totals, counts, numbers, heavy, size, known, z, j, &mut set, &mut other,
        ) {
            most += n;
            if room <= most {
                return false;
            }
        }
    }
    true
}
