// The sums of short blocks. What the chunks of a heavy block can still bring to its sum is carried from column to column as a set of
// residues: in each column the contents of its chunk are listed, and those are taken that the column's sum allows. Contracts cite
// specs/Sums.antt.
#![tactic(auto)]

ghost use Rattle.std.specs.Prelude.{◌≡◌, true, false, List, ℕ, ◌+◌, ◌*◌, ◌%◌, ◌<◌, ◌≤◌, length, get_or};
ghost use Rattle.bits.specs.Bits.{digits};
ghost use Rattle.vt.specs.Sum.{sum, total};
ghost use Rattle.message.specs.Layout.{legal};
ghost use Rattle.lines.specs.Lines.{line};
ghost use Rattle.contents.specs.Contents.{Among};
ghost use Rattle.residues.specs.Residues.{Has};
ghost use Rattle.states.specs.States.{each};
ghost use Rattle.weigh.specs.Weigh.{brought};
ghost use Rattle.column.specs.Column.{Fit, Light, Crosses};
ghost use Rattle.sums.specs.Sums.{Short, block_modulus, rest, Holds, HoldsFrom, Weighs, Completes, Listing, others_bring};

use column::Heavy;
use message::Layout;
use vt::Weights;

// The most contents of the chunks of a column: 256 for each of six blocks.
const CONTENTS: usize = 1536;

// Where the contents of a block begin, and where those of the last one end.
const PARTS: usize = 7;

// Whether a layout's blocks and chunk-strings are short.
pub fn is_short(l: Layout) -> bool
    requires { legal l ≡ true }
    ensures { (result ≡ true → Short l) × (Short l → result ≡ true) }
{
    l.l2 * l.nc <= 62 && l.l1 * l.nc <= 62
}

// A set moved on by each of the contents that are listed from low to high: by the total of its positions, of which the first is given.
pub fn with_each(
    nc: usize,
    m: usize,
    first: usize,
    list: &[u8],
    low: usize,
    high: usize,
    set: u64,
) -> u64
    requires { Weighs nc m first × (high ≤ length list.now) }
    ensures { (v n : ℕ) → Among list.now low high v → Has m set n
        → Has m result (n + total first (digits nc v)) }
{
    let weights = Weights::new();
    let mut r = 0;
    for k in low..high {
        let by = lines::chunk_total(&weights, nc, list[k], first);
        r = residues::together(r, residues::moved_on(set, m, by));
    }
    r
}

// What stands beside a chunk in its column: the set of what the others bring, modulo a number; where the chunk's first bit stands; and what
// they are to bring with it.
#[derive(Clone, Copy)]
pub struct Beside {
    pub others: u64,
    pub modulus: usize,
    pub first: usize,
    pub want: usize,
}

// Whether a content completes its column: the others can bring what is missing beside it.
fn completes(weights: &Weights, nc: usize, beside: Beside, v: u8) -> bool
    requires { Weighs nc beside.modulus beside.first × (beside.want < 64) }
    ensures { Completes nc beside v → result ≡ true }
{
    let own = lines::chunk_total(weights, nc, v, beside.first);
    residues::holds(
        residues::moved_on(beside.others, beside.modulus, own),
        beside.want,
    )
}

// A set moved back by each of the contents from low to high that completes its column.
fn without_each(
    nc: usize,
    m: usize,
    first: usize,
    list: &[u8],
    low: usize,
    high: usize,
    set: u64,
    beside: Beside,
) -> u64
    requires { (Weighs nc m first × (high ≤ length list.now)) × (Weighs nc beside.modulus beside.first × (beside.want < 64)) }
    ensures { (v n : ℕ) → Among list.now low high v → Completes nc beside v
        → Has m set (n + total first (digits nc v)) → Has m result n }
{
    let weights = Weights::new();
    let mut r = 0;
    for k in low..high {
        let v = list[k];
        if completes(&weights, nc, beside, v) {
            let by = lines::chunk_total(&weights, nc, v, first);
            r = residues::together(r, residues::moved_back(set, m, by));
        }
    }
    r
}

// Lists what chunks can be, one behind the other; the answer is where those of each begin, and where they end.
fn list_chunks(nc: usize, y: &[u8], chunks: weigh::Chunks, list: &mut [u8]) -> [usize; PARTS]
    requires { (nc ≤ 8) × ((chunks.n ≤ 6) × (1536 ≤ length list.old)) }
    ensures { Listing nc y.now chunks list.new result chunks.n }
{
    let mut from = [0; PARTS];
    let mut end = 0;
    for s in 0..chunks.n {
        let place = chunks.place[s];
        if place <= y.len() {
            end = contents::list_behind(nc, y, place, chunks.lost[s], list, end);
        }
        from[s + 1] = end;
    }
    from
}

// What the chunks of a column but that of heavy block s can bring, with what is known of it.
fn other_sums(
    l: Layout,
    n: usize,
    block: [u8; states::MOST_HEAVY],
    list: &[u8],
    from: [usize; PARTS],
    known: usize,
    s: usize,
) -> u64
    requires { ((legal l ≡ true) × Short l) × (((n ≤ 6) × ((b : ℕ) → b < n → get_or block b 0 < l.l1))
        × (((b : ℕ) → b < n → get_or from (b + 1) 0 ≤ length list.now) × (known < 64))) }
    ensures { (vs : ℕ → ℕ) → known < l.l1 * l.nc + 1
        → ((b : ℕ) → b < n → (b ≡ s → ⊥) → Among list.now (get_or from b 0) (get_or from (b + 1) 0) (vs b))
        → Has (l.l1 * l.nc + 1) result (known + others_bring l.nc block vs s n) }
{
    let nc = l.nc;
    let modulus = l.l1 * nc + 1;
    let mut r = residues::only(known);
    for b in 0..n {
        if b != s {
            let first = usize::from(block[b]) * nc + 1;
            r = with_each(nc, modulus, first, list, from[b], from[b + 1], r);
        }
    }
    r
}

// The set of heavy block s after column j, which has so much beside the chunks of the heavy blocks and is to have the sum want: the set
// before it moved back by each content of the block's chunk that completes the column. The contents of all chunks there are listed.
fn set_after(
    l: Layout,
    heavy: Heavy,
    j: usize,
    list: &[u8],
    from: [usize; PARTS],
    known: usize,
    want: usize,
    s: usize,
    set: u64,
) -> u64
    requires { ((legal l ≡ true) × (Short l × (j < l.l2)))
        × (((heavy.n ≤ 6) × ((s < heavy.n) × ((b : ℕ) → b < heavy.n → get_or heavy.block b 0 < l.l1)))
        × (((b : ℕ) → b < heavy.n → get_or from (b + 1) 0 ≤ length list.now) × ((known < 64) × (want < 64)))) }
    ensures { (vs : ℕ → ℕ) (k : ℕ) → known < l.l1 * l.nc + 1
        → ((b : ℕ) → b < heavy.n → Among list.now (get_or from b 0) (get_or from (b + 1) 0) (vs b))
        → (known + brought l.nc heavy.block vs heavy.n) % (l.l1 * l.nc + 1) ≡ want
        → Has (block_modulus l) set (k + total (j * l.nc + 1) (digits l.nc (vs s))) → Has (block_modulus l) result k }
{
    let nc = l.nc;
    let beside = Beside {
        others: other_sums(l, heavy.n, heavy.block, list, from, known, s),
        modulus: l.l1 * nc + 1,
        first: usize::from(heavy.block[s]) * nc + 1,
        want,
    };
    without_each(
        nc,
        l.l2 * nc + 1,
        j * nc + 1,
        list,
        from[s],
        from[s + 1],
        set,
        beside,
    )
}

// The sets before the first column: what each heavy block brings is its sum.
pub fn at_first(l: Layout, numbers: &[u16], heavy: Heavy) -> [u64; states::MOST_HEAVY]
    requires { (legal l ≡ true) × ((heavy.n ≤ 6) × ((s : ℕ) → s < heavy.n → get_or heavy.block s 0 < length numbers.now)) }
    ensures { (vs : List ℕ) → ((s : ℕ) → s < heavy.n
        → sum (line l.nc (get_or heavy.block s 0 * l.l2) 1 l.l2 vs) ≡ get_or numbers.now (get_or heavy.block s 0) 0)
        → Holds l heavy result vs 0 }
{
    let mut sets = [0; states::MOST_HEAVY];
    for (s, block) in heavy.block[..heavy.n].iter().enumerate() {
        let sum = usize::from(numbers[usize::from(*block)]);
        if sum < 64 {
            sets[s] = residues::only(sum);
        }
    }
    sets
}

// The sets after column j, which is crossed from one loss state to another.
pub fn after(
    l: Layout,
    y: &[u8],
    numbers: &[u16],
    heavy: Heavy,
    known: &[u16],
    j: usize,
    left: [u8; states::MOST_HEAVY],
    next: [u8; states::MOST_HEAVY],
    sets: [u64; states::MOST_HEAVY],
) -> [u64; states::MOST_HEAVY]
    requires { Fit l y.now numbers.now heavy × ((j < l.l2) × (l.l2 ≤ length known.now)) }
    ensures { (row vs : List ℕ) → Light l heavy row known.now
        → Crosses l y.now numbers.now heavy row j (each left) (each next) vs
        → Holds l heavy sets vs j → Holds l heavy result vs (j + 1) }
{
    if !is_short(l) {
        return sets;
    }
    let part = usize::from(known[j]);
    if 63 < part {
        return sets;
    }
    let found = column::find_chunks(l, y, numbers, heavy, j, left, next);
    if !found.ok {
        return sets;
    }
    let mut list = [0; CONTENTS];
    let from = list_chunks(l.nc, y, found.chunks, &mut list);
    let want = usize::from(numbers[l.l1 + j]);
    let mut r = [0; states::MOST_HEAVY];
    for s in 0..heavy.n {
        r[s] = set_after(l, heavy, j, &list, from, part, want, s, sets[s]);
    }
    r
}

// Whether each heavy block can still have its sum, with so much left at the start of column c: what it is to bring from there on is among
// what it can bring.
pub fn all_meet(
    l: Layout,
    heavy: Heavy,
    c: usize,
    left: [u8; states::MOST_HEAVY],
    sets: [u64; states::MOST_HEAVY],
    rests: &[u64],
) -> bool
    requires { (legal l ≡ true) × ((heavy.n ≤ 6) × (c ≤ l.l2)) }
    ensures { (vs : List ℕ) (own : ℕ → ℕ → ℕ) → Holds l heavy sets vs c → HoldsFrom l heavy rests.now vs own 0
        → ((s : ℕ) → s < heavy.n → own c s ≡ each left s) → result ≡ true }
{
    if !is_short(l) {
        return true;
    }
    for s in 0..heavy.n {
        let at = c * states::ENTRIES + s * states::LEFTS + usize::from(left[s]);
        let Some(rest) = rests.get(at) else {
            return true;
        };
        if !residues::meet(sets[s], *rest) {
            return false;
        }
    }
    true
}
