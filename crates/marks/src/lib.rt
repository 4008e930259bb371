// Marks of loss states: a byte for each state of each column, which says whether a row can come through the state and in how many chunks such
// a row can differ from another one. Here is what all passes over the marks share: the table of the losses left in each state, and marks set
// and read. Contracts cite specs/Marks.antt and specs/Digits.antt.
#![tactic(auto)]

ghost use Rattle.std.specs.Prelude.{◌≡◌, ◌⊎◌, ℕ, ◌+◌, ◌*◌, ◌<◌, ◌≤◌, length, get_or};
ghost use Rattle.bits.specs.Bits.{most_in_line};
ghost use Rattle.states.specs.States.{Shaped};
ghost use Rattle.marks.specs.Marks.{Remade};
ghost use Rattle.marks.specs.Digits.{Digits, PutAt};

use states::Shape;

// From here on a mark says nothing of a number.
pub const MANY: u8 = 40;

// Sets the losses left in state q.
fn put_digits(digits: &mut [u8], q: usize, left: [u8; states::MOST_HEAVY])
    requires { q * 6 + 6 ≤ length digits.old }
    ensures { PutAt q left digits.old digits.new }
{
    let at = q * states::MOST_HEAVY;
    digits[at..at + states::MOST_HEAVY].copy_from_slice(&left);
}

// The table of the losses left in each state.
pub fn fill_digits(shape: Shape, digits: &mut [u8])
    requires { (shape.n ≤ 6) × (Shaped shape.n shape.size shape.stride shape.states
        × (shape.states * 6 ≤ length digits.old)) }
    ensures { Digits shape digits.new }
{
    let mut left = [0; states::MOST_HEAVY];
    for q in 0..shape.states {
        put_digits(digits, q, left);
        let next = states::next_left(shape.n, shape.size, left);
        left = next;
    }
}

// The losses left in state q.
pub fn digits_of(digits: &[u8], q: usize) -> [u8; states::MOST_HEAVY]
    requires { q * 6 + 6 ≤ length digits.now }
    ensures { (s : ℕ) → s < 6 → get_or result s 0 ≡ get_or digits.now (q * 6 + s) 0 }
{
    let at = q * states::MOST_HEAVY;
    let mut left = [0; states::MOST_HEAVY];
    left.copy_from_slice(&digits[at..at + states::MOST_HEAVY]);
    left
}

// Gives one state of a column a mark, and the others none.
pub fn only(states: usize, at: usize, q: usize, mark: u8, marks: &mut [u8])
    requires { (q < states) × (at + states ≤ length marks.old) }
    ensures { Remade states at marks.old marks.new
        × (get_or marks.new (at + q) 0 ≡ mark) }
{
    marks[at..at + states].fill(0);
    marks[at + q] = mark;
}

// The mark of a loss state in column j; where none is kept, it is 255.
pub fn mark_at(shape: Shape, marks: &[u8], j: usize, q: usize) -> u8
    requires { j ≤ most_in_line }
    ensures { (result ≡ 255) ⊎ ((j * shape.states + q < length marks.now)
        × (result ≡ get_or marks.now (j * shape.states + q) 0)) }
{
    if 4294967295 < shape.states || marks.len() <= q {
        return 255;
    }
    let at = j * shape.states;
    if marks.len() - q <= at {
        return 255;
    }
    marks[at + q]
}
