// In how many chunks of all heavy blocks together a row that comes through a loss state can differ from another one at most, by the tables of
// what rows count in each block. Contracts cite specs/Near.antt.
#![tactic(auto)]

ghost use Rattle.std.specs.Prelude.{◌≡◌, true, ℕ, ◌+◌, ◌*◌, ◌<◌, ◌≤◌, length, get_or};
ghost use Rattle.bits.specs.Bits.{most_in_line};
ghost use Rattle.states.specs.States.{lefts, each, entry_at, Shaped, state_of};
ghost use Rattle.column.specs.Column.{Fit};
ghost use Rattle.far.specs.Far.{block_at};
ghost use Rattle.near.specs.Near.{Counted, Sized, most_in, SaysIn, most, most_after};

use column::Heavy;
use message::Layout;
use states::Shape;

// Whether each heavy block has so few losses that tables of counts can be made.
pub fn few_losses(shape: Shape) -> bool
    requires { shape.n ≤ 6 }
    ensures { result ≡ true → (s : ℕ) → s < shape.n → get_or shape.size s 0 < lefts }
{
    shape.size[..shape.n]
        .iter()
        .all(|size| usize::from(*size) < states::LEFTS)
}

// The tables of what rows count in each heavy block, where rows that differ in room chunks are asked for.
pub fn count_blocks(
    l: Layout,
    y: &[u8],
    numbers: &[u16],
    heavy: Heavy,
    z: &[u8],
    size: [u8; states::MOST_HEAVY],
    room: usize,
    before: &mut [u8],
    after: &mut [u8],
)
    requires { (Fit l y.now numbers.now heavy × (l.l1 * l.l2 ≤ length z.now))
        × (((s : ℕ) → s < heavy.n → get_or size s 0 < lefts)
        × ((block_at l.l2 heavy.n ≤ length before.old) × (block_at l.l2 heavy.n ≤ length after.old))) }
    ensures { ((length before.new ≡ length before.old)
        × (length after.new ≡ length after.old))
        × (0 < room → Counted l y.now heavy z.now size before.new after.new) }
{
    if room == 0 {
        return;
    }
    far::fill(l, y, numbers, heavy, z, size, true, before);
    far::fill(l, y, numbers, heavy, z, size, false, after);
}

// What the tables say of heavy block s, which has so many losses, where at column j so many are left: in how many of its chunks a row can
// differ from z at most. Where the block cannot have so many left they say nothing.
fn most_in(
    columns: usize,
    before: &[u8],
    after: &[u8],
    s: usize,
    size: u8,
    left: u8,
    j: usize,
) -> usize
    requires { ((columns ≤ most_in_line) × ((s < 6) × ((j ≤ columns) × (size < lefts))))
        × ((block_at columns (s + 1) ≤ length before.now) × (block_at columns (s + 1) ≤ length after.now)) }
    ensures { (left ≤ size → result ≡ most_in columns before.now after.now s size left j)
        × (result ≤ 510) }
{
    if size < left {
        return 510;
    }
    let at = s * ((columns + 1) * states::LEFTS);
    let used = at + j * states::LEFTS + usize::from(size - left);
    let rest = at + (columns - j) * states::LEFTS + usize::from(left);
    usize::from(before[used]) + usize::from(after[rest])
}

// Puts what the tables say of heavy block s in column j into a table of values, for each number of losses that it can have left.
fn fill_block(
    columns: usize,
    before: &[u8],
    after: &[u8],
    s: usize,
    size: u8,
    j: usize,
    values: &mut [u16],
)
    requires { ((columns ≤ most_in_line) × ((s < 6) × ((j ≤ columns) × (size < lefts))))
        × (((block_at columns (s + 1) ≤ length before.now) × (block_at columns (s + 1) ≤ length after.now))
        × (entry_at s lefts ≤ length values.old)) }
    ensures { (length values.new ≡ length values.old)
        × (((i : ℕ) → i < entry_at s 0 → get_or values.new i 0 ≡ get_or values.old i 0)
        × ((e : ℕ) → e ≤ size → SaysIn columns before.now after.now s size j values.new e)) }
{
    let at = s * states::LEFTS;
    for left in 0..=size {
        values[at + usize::from(left)] = most_in(columns, before, after, s, size, left, j) as u16;
    }
}

// What the tables say of all heavy blocks together, for each loss state at column j.
pub fn fill_apart(
    columns: usize,
    shape: Shape,
    before: &[u8],
    after: &[u8],
    j: usize,
    apart: &mut [u16],
)
    requires { ((Sized columns shape before.now × Sized columns shape after.now) × (j ≤ columns))
        × (Shaped shape.n shape.size shape.stride shape.states × (shape.states ≤ length apart.old)) }
    ensures { (length apart.new ≡ length apart.old)
        × ((left : ℕ → ℕ) → ((s : ℕ) → s < shape.n → left s ≤ each shape.size s)
        → get_or apart.new (state_of shape left) 0
        ≡ most columns before.now after.now (each shape.size) left j shape.n) }
{
    let mut values = [0; states::ENTRIES];
    for s in 0..shape.n {
        fill_block(columns, before, after, s, shape.size[s], j, &mut values);
    }
    states::add_up(shape, &values, apart);
}

// What the second table says of all heavy blocks together from column j on, where at its start so many losses are left.
pub fn most_after(
    columns: usize,
    shape: Shape,
    after: &[u8],
    j: usize,
    left: [u8; states::MOST_HEAVY],
) -> usize
    requires { Sized columns shape after.now × ((j ≤ columns) × ((s : ℕ) → s < shape.n → get_or left s 0 < lefts)) }
    ensures { result ≡ most_after columns after.now (each left) j shape.n }
{
    let stride = (columns + 1) * states::LEFTS;
    let from = (columns - j) * states::LEFTS;
    let mut most = 0;
    for (s, e) in left[..shape.n].iter().enumerate() {
        most += usize::from(after[s * stride + from + usize::from(*e)]);
    }
    most
}
