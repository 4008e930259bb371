// Loss states: how many losses each of a few blocks has left, as one number of mixed radix. Contracts cite specs/States.antt.
#![tactic(auto)]

ghost use Rattle.std.specs.Prelude.{◌≡◌, ◌⊎◌, ℕ, ◌+◌, ◌*◌, ◌<◌, ◌≤◌, length, get_or};
ghost use Rattle.states.specs.States.{stride, state, each, Shaped, state_of};
ghost use Rattle.states.specs.States.{Valued, added_up, Raised, WithBlock};

// The most blocks with two losses or more.
pub const MOST_HEAVY: usize = 6;

// The most loss states whose marks are kept.
pub const MOST_STATES: usize = 729;

// The numbers of losses that tables tell apart, none to twelve.
pub const LEFTS: usize = 13;

// The entries of a table that has one for each block and each number of losses left.
pub const ENTRIES: usize = 78;

// The loss states: how many losses each block has at most, what one counts in the number of a state, and how many states there are.
#[derive(Clone, Copy)]
pub struct Shape {
    pub n: usize,
    pub size: [u8; MOST_HEAVY],
    pub stride: [usize; MOST_HEAVY],
    pub states: usize,
}

// The shape of the loss states of n blocks with these losses.
pub fn shape_of(n: usize, size: [u8; MOST_HEAVY]) -> Shape
    requires { n ≤ 6 }
    ensures { ((result.n ≡ n) × (result.size ≡ size)) × Shaped result.n result.size result.stride result.states }
{
    let mut stride = [0; MOST_HEAVY];
    let mut states = 1;
    for (s, most) in size[..n].iter().enumerate() {
        stride[s] = states;
        states *= usize::from(*most) + 1;
    }
    Shape {
        n,
        size,
        stride,
        states,
    }
}

// The losses that each block has left in a state.
pub fn losses_left(shape: Shape, q: usize) -> [u8; MOST_HEAVY]
    requires { (shape.n ≤ 6) × Shaped shape.n shape.size shape.stride shape.states }
    ensures { (left : ℕ → ℕ) → ((s : ℕ) → s < shape.n → left s ≤ each shape.size s)
        → q ≡ state (each shape.size) left shape.n → (s : ℕ) → s < shape.n → get_or result s 0 ≡ left s }
{
    let mut left = [0; MOST_HEAVY];
    for s in 0..shape.n {
        left[s] = (q / shape.stride[s] % (usize::from(shape.size[s]) + 1)) as u8;
    }
    left
}

// The losses left in the state after one: a block that has all of its losses left has none then, and the next block one more.
pub fn next_left(n: usize, size: [u8; MOST_HEAVY], left: [u8; MOST_HEAVY]) -> [u8; MOST_HEAVY]
    requires { (n ≤ 6) × ((s : ℕ) → s < n → get_or left s 0 ≤ each size s) }
    ensures { ((s : ℕ) → s < n → get_or result s 0 ≤ each size s)
        × (state (each size) (each left) n + 1 < stride (each size) n
        → state (each size) (each result) n ≡ state (each size) (each left) n + 1) }
{
    let mut next = left;
    for s in 0..n {
        if next[s] < size[s] {
            next[s] += 1;
            return next;
        }
        next[s] = 0;
    }
    next
}

// The number of a state.
pub fn number_of(shape: Shape, left: [u8; MOST_HEAVY]) -> usize
    requires { (shape.n ≤ 6) × Shaped shape.n shape.size shape.stride shape.states }
    ensures { result ≡ state (each shape.size) (each left) shape.n }
{
    let mut q = 0;
    for s in 0..shape.n {
        q += usize::from(left[s]) * shape.stride[s];
    }
    q
}

// Puts the first len entries, each with v added, at a place: in their own place, or behind them.
fn put_raised(sums: &mut [u16], to: usize, len: usize, v: u16)
    requires { ((to + len ≤ length sums.old) × ((to ≡ 0) ⊎ (len ≤ to)))
        × ((p : ℕ) → p < len → get_or sums.old p 0 + v ≤ 65535) }
    ensures { (length sums.new ≡ length sums.old)
        × Raised to len v sums.old sums.new }
{
    for p in 0..len {
        sums[to + p] = sums[p] + v;
    }
}

// Puts one block more, of so many losses, into the first len sums: for each number of its losses left they stand once, with
// the value of that number. It goes down, so that the sums themselves are overwritten last.
fn add_block(sums: &mut [u16], len: usize, size: u8, values: &[u16], at: usize)
    requires { ((len * (size + 1) ≤ length sums.old) × (at + size < length values.now))
        × ((e p : ℕ) → e ≤ size → p < len → get_or sums.old p 0 + get_or values.now (at + e) 0 ≤ 65535) }
    ensures { (length sums.new ≡ length sums.old)
        × WithBlock len size at values.now sums.old sums.new }
{
    for d in (0..=usize::from(size)).rev() {
        put_raised(sums, d * len, len, values[at + d]);
    }
}

// What the values of all blocks add up to in each state. Block s has its values from entry 13 s on, one for each number of its
// losses left.
pub fn add_up(shape: Shape, values: &[u16], sums: &mut [u16])
    requires { ((shape.n ≤ 6) × Shaped shape.n shape.size shape.stride shape.states)
        × ((shape.states ≤ length sums.old) × Valued shape values.now) }
    ensures { (length sums.new ≡ length sums.old)
        × ((left : ℕ → ℕ) → ((s : ℕ) → s < shape.n → left s ≤ each shape.size s)
        → get_or sums.new (state_of shape left) 0 ≡ added_up values.now left shape.n) }
{
    sums[0] = 0;
    for s in 0..shape.n {
        add_block(sums, shape.stride[s], shape.size[s], values, s * LEFTS);
    }
}
