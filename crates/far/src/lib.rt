// In how many chunks of a heavy block a row can differ from another one, as its losses are shared among its columns.
// Contracts cite specs/Far.antt.
#![tactic(auto)]

ghost use Rattle.std.specs.Prelude.{◌≡◌, ℕ, ◌+◌, ◌*◌, ◌<◌, ◌≤◌, length, get_or};
ghost use Rattle.states.specs.States.{lefts};
ghost use Rattle.column.specs.Column.{Fit};
ghost use Rattle.far.specs.Far.{column_of, left_of, Reads, read_apart, Asked};
ghost use Rattle.far.specs.Far.{step_at, Stepped, Swept, Covered, block_at};

use column::Heavy;
use message::Layout;

// One where the chunk of heavy block s in column j, read whole where e losses are left, is another than in z.
pub fn read_apart(
    l: Layout,
    y: &[u8],
    heavy: Heavy,
    z: &[u8],
    s: usize,
    size: usize,
    j: usize,
    e: usize,
) -> u8
    requires { Asked l y.now heavy z.now s size × ((j < l.l2) × (e ≤ size)) }
    ensures { (result ≤ 1) × (Reads l y.now heavy s j e
        → read_apart l y.now heavy z.now s j e ≤ result) }
{
    let left = e as u8;
    let p = column::place_of(l, y.len(), heavy.block[s], j, heavy.end[s], left, left);
    if !p.ok {
        return 0;
    }
    let c = usize::from(heavy.block[s]) * l.l2 + j;
    u8::from(message::chunks::number_at(y, p.at, l.nc) != z[c])
}

// The same at a step, where so many losses are counted.
fn step_apart(
    l: Layout,
    y: &[u8],
    heavy: Heavy,
    z: &[u8],
    s: usize,
    size: usize,
    ahead: bool,
    t: usize,
    w: usize,
) -> u8
    requires { Asked l y.now heavy z.now s size × ((t < l.l2) × (w ≤ size)) }
    ensures { (result ≤ 1) × (Reads l y.now heavy s (column_of ahead l.l2 t) (left_of ahead size w)
        → read_apart l y.now heavy z.now s (column_of ahead l.l2 t) (left_of ahead size w) ≤ result) }
{
    if ahead {
        read_apart(l, y, heavy, z, s, size, t, size - w)
    } else {
        read_apart(l, y, heavy, z, s, size, l.l2 - 1 - t, w)
    }
}

// The entries of step t + 1: as many as those of step t where the chunk is read, and one more than those with fewer
// losses counted.
fn next_step(
    l: Layout,
    y: &[u8],
    heavy: Heavy,
    z: &[u8],
    s: usize,
    size: usize,
    ahead: bool,
    t: usize,
    at: usize,
    table: &mut [u8],
)
    requires { Asked l y.now heavy z.now s size × ((t < l.l2) × ((step_at at (t + 2) ≤ length table.old)
        × ((w : ℕ) → w ≤ size → get_or table.old (step_at at t + w) 0 ≤ t))) }
    ensures { Stepped l y.now heavy z.now s size ahead at t
        table.old table.new }
{
    let from = at + t * states::LEFTS;
    let to = from + states::LEFTS;
    let mut most: u8 = 0;
    for w in 0..=size {
        let here = table[from + w];
        let apart = step_apart(l, y, heavy, z, s, size, ahead, t, w);
        table[to + w] = most.max(here + apart);
        most = most.max(here + 1);
    }
}

// The table of heavy block s, from a place on.
fn sweep(
    l: Layout,
    y: &[u8],
    heavy: Heavy,
    z: &[u8],
    s: usize,
    size: usize,
    ahead: bool,
    at: usize,
    table: &mut [u8],
)
    requires { Asked l y.now heavy z.now s size × (step_at at (l.l2 + 1) ≤ length table.old) }
    ensures { Swept l y.now heavy z.now s size ahead at
        table.old table.new }
{
    table[at..=at + size].fill(0);
    for t in 0..l.l2 {
        next_step(l, y, heavy, z, s, size, ahead, t, at, table);
    }
}

// The tables of all heavy blocks, which have these losses.
pub fn fill(
    l: Layout,
    y: &[u8],
    numbers: &[u16],
    heavy: Heavy,
    z: &[u8],
    size: [u8; states::MOST_HEAVY],
    ahead: bool,
    table: &mut [u8],
)
    requires { Fit l y.now numbers.now heavy × ((l.l1 * l.l2 ≤ length z.now)
        × (((s : ℕ) → s < heavy.n → get_or size s 0 < lefts) × (block_at l.l2 heavy.n ≤ length table.old))) }
    ensures { ((s : ℕ) → s < heavy.n
        → Covered l y.now heavy z.now s (get_or size s 0) ahead (block_at l.l2 s) l.l2
        table.new)
        × (length table.new ≡ length table.old) }
{
    let stride = (l.l2 + 1) * states::LEFTS;
    for s in 0..heavy.n {
        let most = usize::from(size[s]);
        sweep(l, y, heavy, z, s, most, ahead, s * stride, table);
    }
}
