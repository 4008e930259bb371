// One column of a row whose heavy blocks are read from the received row at a loss state: whether it can have its sum,
// and in how many chunks it can differ from another row. Contracts cite specs/Column.antt.
#![tactic(auto)]

ghost use Rattle.std.specs.Prelude.{◌≡◌, true, cond, List, ℕ, ◌+◌, ◌-◌, ◌*◌, ◌%◌, ◌<◌, ◌≤◌, eqb, length, get_or, drop};
ghost use Rattle.bits.specs.Bits.{AllBits, longest, longest_line, number};
ghost use Rattle.message.specs.Layout.{legal};
ghost use Rattle.states.specs.States.{each};
ghost use Rattle.windows.specs.Windows.{Tables};
ghost use Rattle.column.specs.Column.{Fit, Zeroed, Cleared, Light, Crosses, apart_in};
ghost use Rattle.column.specs.Column.{PlaceOf, readable, Placed, Within, AsRead};

use message::Layout;

// The blocks with two losses or more: each block, and the losses up to its end.
#[derive(Clone, Copy)]
pub struct Heavy {
    pub n: usize,
    pub block: [u8; states::MOST_HEAVY],
    pub end: [u8; states::MOST_HEAVY],
}

// Makes n chunks from a place on zero.
fn clear(n: usize, at: usize, out: &mut [u8])
    requires { at + n ≤ length out.old }
    ensures { Zeroed n at out.old out.new }
{
    out[at..at + n].fill(0);
}

// Makes the chunks of the heavy blocks zero in the row in hand.
fn clear_heavy(l: Layout, heavy: Heavy, row: &mut [u8])
    requires { ((legal l ≡ true) × ((heavy.n ≤ 6) × (l.l1 * l.l2 ≤ length row.old)))
        × ((s : ℕ) → s < heavy.n → get_or heavy.block s 0 < l.l1) }
    ensures { Cleared l heavy heavy.n row.old row.new }
{
    for block in &heavy.block[..heavy.n] {
        clear(l.l2, usize::from(*block) * l.l2, row);
    }
}

// The sums of the chunk-strings where the chunks of the heavy blocks count as zero; in the row in hand they are made so, since nothing is
// decided of them yet.
pub fn light_sums(
    l: Layout,
    y: &[u8],
    numbers: &[u16],
    heavy: Heavy,
    row: &mut [u8],
    known: &mut [u16],
)
    requires { Fit l y.now numbers.now heavy
        × ((l.l1 * l.l2 ≤ length row.old) × (l.l2 ≤ length known.old)) }
    ensures { Light l heavy row.old known.new
        × Cleared l heavy heavy.n row.old row.new }
{
    let l2 = l.l2;
    let modulus = l.l1 * l.nc + 1;
    let weights = vt::Weights::new();
    clear_heavy(l, heavy, row);
    for (j, sum) in known[..l2].iter_mut().enumerate() {
        let total = lines::line_total(&weights, l.nc, j, l2, l.l1, row);
        *sum = (total % modulus) as u16;
    }
}

// A chunk that is matched against the received row: whether it can be, where its bits start, and how many it lost.
#[derive(Clone, Copy)]
pub struct Place {
    pub ok: bool,
    pub at: usize,
    pub lost: u8,
}

// Where chunk j of a block is read in a received row of so many bits: where it starts in its own row, less the bits lost before it. Those
// are the losses up to the end of the block less the ones that are left at the chunk's start; so many are left after it.
pub fn place_of(l: Layout, size: usize, block: u8, j: usize, end: u8, left: u8, next: u8) -> Place
    requires { ((legal l ≡ true) × (size ≤ longest)) × ((block < l.l1) × (j < l.l2)) }
    ensures { PlaceOf l size block j end left next result }
{
    let nc = l.nc;
    let none = Place {
        ok: false,
        at: 0,
        lost: 0,
    };
    if left < next {
        return none;
    }
    let lost = left - next;
    if nc < usize::from(lost) {
        return none;
    }
    let from = (usize::from(block) * l.l2 + j) * nc + usize::from(left);
    let before = usize::from(end);
    if from < before {
        return none;
    }
    let at = from - before;
    let ok = at + nc <= size + usize::from(lost);
    Place { ok, at, lost }
}

// The chunks of the heavy blocks in a column: whether they can be matched against the received row, and where.
#[derive(Clone, Copy)]
pub struct Found {
    pub ok: bool,
    pub chunks: weigh::Chunks,
}

// The chunks of the heavy blocks in column j, from what is left at its start and after it.
pub fn find_chunks(
    l: Layout,
    y: &[u8],
    numbers: &[u16],
    heavy: Heavy,
    j: usize,
    left: [u8; states::MOST_HEAVY],
    next: [u8; states::MOST_HEAVY],
) -> Found
    requires { Fit l y.now numbers.now heavy × (j < l.l2) }
    ensures { (((s : ℕ) → s < heavy.n → readable l (length y.now) heavy j (each left) (each next) s)
        → result.ok ≡ true)
        × (result.ok ≡ true → Placed l (length y.now) heavy j (each left) (each next) result.chunks) }
{
    let mut chunks = weigh::Chunks {
        n: heavy.n,
        block: heavy.block,
        place: [0; weigh::MOST],
        lost: [0; weigh::MOST],
    };
    for s in 0..heavy.n {
        let p = place_of(
            l,
            y.len(),
            heavy.block[s],
            j,
            heavy.end[s],
            left[s],
            next[s],
        );
        if !p.ok {
            return Found { ok: false, chunks };
        }
        chunks.place[s] = p.at;
        chunks.lost[s] = p.lost;
    }
    Found { ok: true, chunks }
}

// What is still to be brought to a sum, modulo the modulus, where a part of it is there.
pub fn missing(whole: usize, part: usize, modulus: usize) -> usize
    requires { (whole < modulus) × (modulus ≤ longest_line + 1) }
    ensures { (result < modulus) × ((b : ℕ) → part < modulus → (part + b) % modulus ≡ whole → b % modulus ≡ result) }
{
    if part <= whole {
        return whole - part;
    }
    if modulus <= part {
        return 0;
    }
    whole + modulus - part
}

// The number that the nc bits from a place on spell. Blank and filled chunks, which are most, are known by their ones.
fn read_number(nc: usize, y: &[u8], totals: &[u32], counts: &[u16], at: usize) -> u8
    requires { (nc ≤ 8) × ((AllBits y.now × (length y.now ≤ longest))
        × (Tables y.now 0 totals.now counts.now × (at + nc ≤ length y.now))) }
    ensures { result ≡ number nc (drop at y.now) }
{
    let seen = weigh::look(y, totals, counts, at, nc);
    if seen.ones == 0 {
        return 0;
    }
    if seen.ones == nc {
        return (bits::power(nc) - 1) as u8;
    }
    message::chunks::number_at(y, at, nc)
}

// One where a chunk can be another than the number v: where it lost bits, and where it is read so.
pub fn other(nc: usize, y: &[u8], totals: &[u32], counts: &[u16], at: usize, lost: u8, v: u8) -> u8
    requires { (nc ≤ 8) × ((AllBits y.now × (length y.now ≤ longest))
        × (Tables y.now 0 totals.now counts.now × (at + nc ≤ length y.now + lost))) }
    ensures { ((u : ℕ) → (lost ≡ 0 → u ≡ number nc (drop at y.now)) → cond (eqb u v) 0 1 ≤ result)
        × (result ≤ 1) }
{
    u8::from(0 < lost || read_number(nc, y, totals, counts, at) != v)
}

// One more than the number of heavy blocks whose chunk in column j can be another than in z.
fn others(
    l: Layout,
    y: &[u8],
    totals: &[u32],
    counts: &[u16],
    numbers: &[u16],
    heavy: Heavy,
    chunks: weigh::Chunks,
    z: &[u8],
    j: usize,
) -> u8
    requires { (Fit l y.now numbers.now heavy × Tables y.now 0 totals.now counts.now)
        × (Within l (length y.now) heavy chunks × ((j < l.l2) × (l.l1 * l.l2 ≤ length z.now))) }
    ensures { ((vs : List ℕ) → AsRead l y.now heavy chunks vs j heavy.n
        → apart_in l heavy z.now vs j heavy.n < result) × (result ≤ 7) }
{
    let mut r = 1;
    for s in 0..heavy.n {
        let c = usize::from(heavy.block[s]) * l.l2 + j;
        r += other(
            l.nc,
            y,
            totals,
            counts,
            chunks.place[s],
            chunks.lost[s],
            z[c],
        );
    }
    r
}

// Crossing column j from one loss state to another: zero where no row does, otherwise one more than the number of
// chunks of the heavy blocks there that can be others than in z, at most: those that are read so and those that lost
// bits.
pub fn crossing(
    l: Layout,
    y: &[u8],
    totals: &[u32],
    counts: &[u16],
    numbers: &[u16],
    heavy: Heavy,
    known: &[u16],
    z: &[u8],
    j: usize,
    left: [u8; states::MOST_HEAVY],
    next: [u8; states::MOST_HEAVY],
) -> u8
    requires { Fit l y.now numbers.now heavy × (Tables y.now 0 totals.now counts.now × ((j < l.l2)
        × ((l.l2 ≤ length known.now) × (l.l1 * l.l2 ≤ length z.now)))) }
    ensures { ((row vs : List ℕ) → Light l heavy row known.now
        → Crosses l y.now numbers.now heavy row j (each left) (each next) vs
        → apart_in l heavy z.now vs j heavy.n < result) × (result ≤ 7) }
{
    let found = find_chunks(l, y, numbers, heavy, j, left, next);
    if !found.ok {
        return 0;
    }
    let chunks = found.chunks;
    let modulus = l.l1 * l.nc + 1;
    let need = missing(
        usize::from(numbers[l.l1 + j]),
        usize::from(known[j]),
        modulus,
    );
    if !weigh::can_bring(l.nc, modulus, y, totals, counts, chunks, need) {
        return 0;
    }
    others(l, y, totals, counts, numbers, heavy, chunks, z, j)
}
