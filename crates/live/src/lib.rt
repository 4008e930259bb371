// The marks of the loss states of the heavy blocks, made in three passes: after the first one, two that count in how many chunks a row that
// comes through a state can differ from another one, before its column and from it on. Contracts cite specs/Passes.antt and
// specs/Floors.antt.
#![tactic(auto)]

ghost use Rattle.std.specs.Prelude.{◌≡◌, true, false, List, ℕ, ◌+◌, ◌*◌, ◌<◌, ◌≤◌, length, get_or};
ghost use Rattle.windows.specs.Windows.{Tables};
ghost use Rattle.states.specs.States.{most_states, lefts, each, Shaped, state_of};
ghost use Rattle.column.specs.Column.{Fit, Light, Crosses, apart_in};
ghost use Rattle.steps.specs.Steps.{Counts};
ghost use Rattle.marks.specs.Marks.{many, Path, apart_before, apart_from, Covers, Through, Kept, Remade};
ghost use Rattle.marks.specs.Digits.{Within, entry_of, Digits};
ghost use Rattle.near.specs.Near.{CountedIn, Counted, Sized, most_after};
ghost use Rattle.live.specs.Passes.{Ready, Gains, Spread, SpreadBy, Regained, Pass};
ghost use Rattle.live.specs.Floors.{Floors};

use column::Heavy;
use message::Layout;
use states::Shape;

// One count more than states: of the marked states below each, and of all.
const MOST_COUNTS: usize = states::MOST_STATES + 1;

// The digits of all states, so many losses for each heavy block.
const DIGITS: usize = states::MOST_STATES * states::MOST_HEAVY;

// What is prepared: the shape of the loss states; whether their marks are kept; and whether no row comes through them but those near
// another row.
#[derive(Clone, Copy)]
pub struct Prepared {
    pub shape: Shape,
    pub kept: bool,
    pub none: bool,
}

// Whether none of the first n blocks has more left in one state than in another.
fn no_more(n: usize, next: [u8; states::MOST_HEAVY], left: [u8; states::MOST_HEAVY]) -> bool
    requires { n ≤ 6 }
    ensures { ((s : ℕ) → s < n → get_or next s 0 ≤ get_or left s 0) → result ≡ true }
{
    next[..n]
        .iter()
        .zip(&left[..n])
        .all(|(next, left)| next <= left)
}

// Crossing column j from one state to another, where no block has more left afterwards; as crossing says.
fn between(
    l: Layout,
    y: &[u8],
    totals: &[u32],
    counts: &[u16],
    numbers: &[u16],
    heavy: Heavy,
    known: &[u16],
    z: &[u8],
    j: usize,
    left: [u8; states::MOST_HEAVY],
    next: [u8; states::MOST_HEAVY],
) -> u8
    requires { Ready l y.now totals.now counts.now numbers.now heavy known.now z.now × (j < l.l2) }
    ensures { (row vs : List ℕ) → Light l heavy row known.now
        → Crosses l y.now numbers.now heavy row j (each left) (each next) vs
        → apart_in l heavy z.now vs j heavy.n < result }
{
    if !no_more(heavy.n, next, left) {
        return 0;
    }
    column::crossing(
        l, y, totals, counts, numbers, heavy, known, z, j, left, next,
    )
}

// A mark and what crossing a column answers together: the mark after crossing it.
fn carried(mark: u8, cross: u8) -> u8
    ensures { (m a : ℕ) → Covers mark m → a < cross → Covers result (m + a) }
{
    if mark == 0 || cross == 0 {
        return 0;
    }
    mark.saturating_add(cross - 1)
}

// The mark of state q by the mark of one other state.
fn reached_by(
    l: Layout,
    y: &[u8],
    totals: &[u32],
    counts: &[u16],
    numbers: &[u16],
    heavy: Heavy,
    known: &[u16],
    z: &[u8],
    digits: &[u8],
    j: usize,
    other: [u8; states::MOST_HEAVY],
    there: u8,
    q: usize,
) -> u8
    requires { Ready l y.now totals.now counts.now numbers.now heavy known.now z.now × ((j < l.l2)
        × (q * 6 + 6 ≤ length digits.now)) }
    ensures { Gains l y.now numbers.now heavy known.now z.now j false (entry_of digits.now q) (each other) there result }
{
    let own = marks::digits_of(digits, q);
    carried(
        there,
        between(
            l, y, totals, counts, numbers, heavy, known, z, j, own, other,
        ),
    )
}

// The same, for a state that may have had no mark.
fn reached(
    l: Layout,
    y: &[u8],
    totals: &[u32],
    counts: &[u16],
    numbers: &[u16],
    heavy: Heavy,
    known: &[u16],
    z: &[u8],
    digits: &[u8],
    j: usize,
    other: [u8; states::MOST_HEAVY],
    there: u8,
    q: usize,
    mark: u8,
) -> u8
    requires { Ready l y.now totals.now counts.now numbers.now heavy known.now z.now × ((j < l.l2)
        × (q * 6 + 6 ≤ length digits.now)) }
    ensures { 0 < mark
        → Gains l y.now numbers.now heavy known.now z.now j false (entry_of
        digits.now q) (each other) there result }
{
    if mark == 0 {
        return 0;
    }
    reached_by(
        l, y, totals, counts, numbers, heavy, known, z, digits, j, other, there, q,
    )
}

// Raises the fresh marks of the states low to high - 1 of a column, whose marks stand at a place, by the mark of one
// other state.
fn spread_over(
    l: Layout,
    y: &[u8],
    totals: &[u32],
    counts: &[u16],
    numbers: &[u16],
    heavy: Heavy,
    known: &[u16],
    z: &[u8],
    states: usize,
    digits: &[u8],
    j: usize,
    other: [u8; states::MOST_HEAVY],
    there: u8,
    marks: &[u8],
    at: usize,
    low: usize,
    high: usize,
    fresh: &mut [u8],
)
    requires { Ready l y.now totals.now counts.now numbers.now heavy known.now z.now × ((j < l.l2)
        × ((states * 6 ≤ length digits.now)
        × (((low ≤ high) × (high ≤ states)) × ((at + states ≤ length marks.now)
        × (states ≤ length fresh.old))))) }
    ensures { Spread l y.now numbers.now heavy known.now z.now digits.now j (each other) there
        marks.now at low high fresh.old fresh.new }
{
    for q in low..high {
        let mark = reached(
            l,
            y,
            totals,
            counts,
            numbers,
            heavy,
            known,
            z,
            digits,
            j,
            other,
            there,
            q,
            marks[at + q],
        );
        fresh[q] = fresh[q].max(mark);
    }
}

// Raises the fresh marks of a column by the mark of the other state p: ahead, of all that rows can come to from it; otherwise of those that
// have no less left. The counts are those of the column's marked states.
fn spread(
    l: Layout,
    y: &[u8],
    totals: &[u32],
    counts: &[u16],
    numbers: &[u16],
    heavy: Heavy,
    known: &[u16],
    z: &[u8],
    shape: Shape,
    digits: &[u8],
    j: usize,
    ahead: bool,
    p: usize,
    there: u8,
    marks: &[u8],
    at: usize,
    some: &[u16],
    fresh: &mut [u8],
)
    requires { Ready l y.now totals.now counts.now numbers.now heavy known.now z.now × ((j < l.l2)
        × ((Kept heavy shape × Digits shape digits.now) × ((p < shape.states)
        × ((at + shape.states ≤ length marks.now)
        × ((shape.states ≤ length fresh.old) × ((shape.states < length some.now)
        × Counts marks.now at shape.states some.now)))))) }
    ensures { SpreadBy l y.now numbers.now heavy known.now z.now digits.now
        shape j ahead p there marks.now at fresh.old fresh.new }
{
    if there == 0 {
        return;
    }
    let other = marks::digits_of(digits, p);
    if ahead {
        steps::raise(
            l, y, totals, counts, numbers, heavy, known, z, shape, j, other, there, marks, at,
            some, fresh,
        );
        return;
    }
    spread_over(
        l,
        y,
        totals,
        counts,
        numbers,
        heavy,
        known,
        z,
        shape.states,
        digits,
        j,
        other,
        there,
        marks,
        at,
        p,
        shape.states,
        fresh,
    );
}

// A mark, if it is above its floor; zero otherwise.
fn above_floor(mark: u8, floor: u8) -> u8
    ensures { floor < mark → result ≡ mark }
{
    if floor < mark { mark } else { 0 }
}

// Sets the marks of a column, those that are above their floors. It answers the greatest.
fn put_column(states: usize, at: usize, floors: &[u8], fresh: &[u8], marks: &mut [u8]) -> u8
    requires { (states ≤ length floors.now) × ((states ≤ length fresh.now) × (at + states ≤ length marks.old)) }
    ensures { Remade states at marks.old marks.new
        × (((p : ℕ) → p < states → get_or marks.new (at + p) 0 ≤ result)
        × ((p : ℕ) → p < states → get_or floors.now p 0 < get_or fresh.now p 0
        → get_or marks.new (at + p) 0 ≡ get_or fresh.now p 0)) }
{
    let mut highest: u8 = 0;
    for p in 0..states {
        let mark = above_floor(fresh[p], floors[p]);
        marks[at + p] = mark;
        highest = highest.max(mark);
    }
    highest
}

// New marks of one column, at a place, by those of a column next to it, at base, for the states that had one; those that are not above
// their floors are left out. It answers the greatest.
fn remake(
    l: Layout,
    y: &[u8],
    totals: &[u32],
    counts: &[u16],
    numbers: &[u16],
    heavy: Heavy,
    known: &[u16],
    z: &[u8],
    shape: Shape,
    digits: &[u8],
    j: usize,
    ahead: bool,
    at: usize,
    base: usize,
    floors: [u8; states::MOST_STATES],
    marks: &mut [u8],
) -> u8
    requires { Ready l y.now totals.now counts.now numbers.now heavy known.now z.now × ((j < l.l2)
        × (Kept heavy shape × (Digits shape digits.now
        × ((at + shape.states ≤ length marks.old) × ((base + shape.states ≤ length marks.old)
        × ((q : ℕ) → q < most_states → get_or floors q 0 < many)))))) }
    ensures { Remade shape.states at marks.old marks.new
        × (((p : ℕ) → p < shape.states → get_or marks.new (at + p) 0 ≤ result)
        × ((own : ℕ → ℕ) → Within shape own → 0 < get_or marks.old (at + state_of shape own) 0
        → Regained l y.now numbers.now heavy known.now z.now shape j ahead
        marks.old base (get_or floors (state_of shape own) 0) own
        (get_or marks.new (at + state_of shape own) 0))) }
{
    let mut fresh = floors;
    let mut some = [0; MOST_COUNTS];
    steps::count_marked(marks, at, shape.states, &mut some);
    for p in 0..shape.states {
        spread(
            l,
            y,
            totals,
            counts,
            numbers,
            heavy,
            known,
            z,
            shape,
            digits,
            j,
            ahead,
            p,
            marks[base + p],
            marks,
            at,
            &some,
            &mut fresh,
        );
    }
    put_column(shape.states, at, &floors, &fresh, marks)
}

// What a row must count before a column, at least, where it can differ from z in so many chunks from there on and is not near.
fn floor_by(room: usize, most: usize) -> u8
    ensures { (result < many) × ((n : ℕ) → room ≤ n + most → result ≤ n) }
{
    let floor = room.saturating_sub(most);
    floor.min(usize::from(marks::MANY - 1)) as u8
}

// The floor of state q of column j, which has this mark. A state without a mark needs none.
fn floor_of(
    columns: usize,
    shape: Shape,
    digits: &[u8],
    after: &[u8],
    room: usize,
    j: usize,
    q: usize,
    mark: u8,
) -> u8
    requires { Sized columns shape after.now × ((j ≤ columns) × ((q * 6 + 6 ≤ length digits.now)
        × ((s : ℕ) → s < shape.n → entry_of digits.now q s < lefts))) }
    ensures { (result < many) × ((n : ℕ)
        → room ≤ n + most_after columns after.now (entry_of digits.now q) j shape.n → result ≤ n) }
{
    if mark == 0 {
        return 0;
    }
    let left = marks::digits_of(digits, q);
    floor_by(room, near::most_after(columns, shape, after, j, left))
}

// The floors of the states of column j, whose marks stand at a place.
fn floors_of(
    columns: usize,
    shape: Shape,
    digits: &[u8],
    after: &[u8],
    room: usize,
    j: usize,
    marks: &[u8],
    at: usize,
) -> [u8; states::MOST_STATES]
    requires { Sized columns shape after.now × ((j ≤ columns) × (Digits shape digits.now
        × ((Shaped shape.n shape.size shape.stride shape.states × (shape.states ≤ most_states))
        × (at + shape.states ≤ length marks.now)))) }
    ensures { Floors columns shape after.now room j result }
{
    let mut floors = [0; states::MOST_STATES];
    for q in 0..shape.states {
        floors[q] = floor_of(columns, shape, digits, after, room, j, q, marks[at + q]);
    }
    floors
}

// Marks that count the chunks that can be others than in z, from the first column on: in the columns before each. It answers whether a row
// that is not near can come to the end.
fn ahead(
    l: Layout,
    y: &[u8],
    totals: &[u32],
    counts: &[u16],
    numbers: &[u16],
    heavy: Heavy,
    known: &[u16],
    z: &[u8],
    shape: Shape,
    digits: &[u8],
    after: &[u8],
    room: usize,
    marks: &mut [u8],
) -> bool
    requires { Ready l y.now totals.now counts.now numbers.now heavy known.now z.now
        × (Kept heavy shape × (Digits shape digits.now × ((Sized l.l2 shape after.now
        × (0 < room → CountedIn l y.now heavy z.now shape.size false after.now))
        × ((l.l2 + 1) * shape.states ≤ length marks.old)))) }
    ensures { Pass l y.now numbers.now heavy known.now z.now shape room
        (apart_before l heavy z.now) marks.old marks.new
        × ((row vs : List ℕ) (own : ℕ → ℕ → ℕ) → Light l heavy row known.now
        → Path l y.now numbers.now heavy row (each shape.size) vs own
        → room ≤ apart_from l heavy z.now vs 0 → Through l shape marks.old own (λ j. 0) → result ≡ true) }
{
    let states = shape.states;
    marks::only(states, 0, states - 1, 1, marks);
    for j in 0..l.l2 {
        let at = (j + 1) * states;
        let floors = floors_of(l.l2, shape, digits, after, room, j + 1, marks, at);
        let highest = remake(
            l,
            y,
            totals,
            counts,
            numbers,
            heavy,
            known,
            z,
            shape,
            digits,
            j,
            true,
            at,
            j * states,
            floors,
            marks,
        );
        if highest == 0 {
            return false;
        }
    }
    0 < marks[l.l2 * states]
}

// Marks that count the chunks that can be others than in z, from the last column back: in the columns from each on.
fn back(
    l: Layout,
    y: &[u8],
    totals: &[u32],
    counts: &[u16],
    numbers: &[u16],
    heavy: Heavy,
    known: &[u16],
    z: &[u8],
    shape: Shape,
    digits: &[u8],
    marks: &mut [u8],
)
    requires { Ready l y.now totals.now counts.now numbers.now heavy known.now z.now
        × (Kept heavy shape × (Digits shape digits.now × ((l.l2 + 1) * shape.states ≤ length marks.old))) }
    ensures { Pass l y.now numbers.now heavy known.now z.now shape 0
        (apart_from l heavy z.now) marks.old marks.new }
{
    let states = shape.states;
    let none = [0; states::MOST_STATES];
    marks::only(states, l.l2 * states, 0, 1, marks);
    for j in (0..l.l2).rev() {
        remake(
            l,
            y,
            totals,
            counts,
            numbers,
            heavy,
            known,
            z,
            shape,
            digits,
            j,
            false,
            j * states,
            (j + 1) * states,
            none,
            marks,
        );
    }
}

// The counts of marks that let every row through that is not near: from the first column on, and back if one comes to the end.
fn count_marks(
    l: Layout,
    y: &[u8],
    totals: &[u32],
    counts: &[u16],
    numbers: &[u16],
    heavy: Heavy,
    known: &[u16],
    z: &[u8],
    shape: Shape,
    digits: &[u8],
    after: &[u8],
    room: usize,
    marks: &mut [u8],
) -> Prepared
    requires { Ready l y.now totals.now counts.now numbers.now heavy known.now z.now
        × (Kept heavy shape × (Digits shape digits.now × ((Sized l.l2 shape after.now
        × (0 < room → CountedIn l y.now heavy z.now shape.size false after.now))
        × ((l.l2 + 1) * shape.states ≤ length marks.old)))) }
    ensures { (result.shape ≡ shape) × ((row vs : List ℕ) (own : ℕ → ℕ → ℕ) → Light l heavy row known.now
        → Path l y.now numbers.now heavy row (each shape.size) vs own
        → room ≤ apart_from l heavy z.now vs 0 → Through l shape marks.old own (λ j. 0)
        → (result.none ≡ true → ⊥)
        × (result.kept ≡ true → Through l shape marks.new own (apart_from l heavy z.now vs))) }
{
    if !ahead(
        l, y, totals, counts, numbers, heavy, known, z, shape, digits, after, room, marks,
    ) {
        return Prepared {
            shape,
            kept: false,
            none: true,
        };
    }
    back(
        l, y, totals, counts, numbers, heavy, known, z, shape, digits, marks,
    );
    Prepared {
        shape,
        kept: true,
        none: false,
    }
}

// The marks of the loss states, in three passes, with the tables of what rows count in each heavy block.
fn make_marks(
    l: Layout,
    y: &[u8],
    totals: &[u32],
    counts: &[u16],
    numbers: &[u16],
    heavy: Heavy,
    known: &[u16],
    z: &[u8],
    shape: Shape,
    before: &[u8],
    after: &[u8],
    room: usize,
    marks: &mut [u8],
) -> Prepared
    requires { Ready l y.now totals.now counts.now numbers.now heavy known.now z.now
        × (Kept heavy shape × ((Sized l.l2 shape before.now × Sized l.l2 shape after.now)
        × ((0 < room → Counted l y.now heavy z.now shape.size before.now after.now)
        × ((l.l2 + 1) * shape.states ≤ length marks.old)))) }
    ensures { (result.shape ≡ shape) × ((row vs : List ℕ) (own : ℕ → ℕ → ℕ) → Light l heavy row known.now
        → Path l y.now numbers.now heavy row (each shape.size) vs own
        → room ≤ apart_from l heavy z.now vs 0 → (result.none ≡ true → ⊥)
        × (result.kept ≡ true → Through l shape marks.new own (apart_from l heavy z.now vs))) }
{
    let mut digits = [0; DIGITS];
    marks::fill_digits(shape, &mut digits);
    if !first::complete(
        l, y, totals, counts, numbers, heavy, known, shape, &digits, before, after, room, marks,
    ) {
        return Prepared {
            shape,
            kept: false,
            none: true,
        };
    }
    count_marks(
        l, y, totals, counts, numbers, heavy, known, z, shape, &digits, after, room, marks,
    )
}

// The bytes of a table of counts: enough for every layout.
const COUNTS: usize = (bits::MOST_CHUNKS + states::MOST_HEAVY) * states::LEFTS;

// The marks of the loss states, in three passes. Where the heavy blocks lost more bits than are told apart none are kept.
fn fill_marks(
    l: Layout,
    y: &[u8],
    totals: &[u32],
    counts: &[u16],
    numbers: &[u16],
    heavy: Heavy,
    known: &[u16],
    z: &[u8],
    shape: Shape,
    room: usize,
    marks: &mut [u8],
) -> Prepared
    requires { Ready l y.now totals.now counts.now numbers.now heavy known.now z.now
        × (Kept heavy shape × ((l.l2 + 1) * shape.states ≤ length marks.old)) }
    ensures { (result.shape ≡ shape) × ((row vs : List ℕ) (own : ℕ → ℕ → ℕ) → Light l heavy row known.now
        → Path l y.now numbers.now heavy row (each shape.size) vs own
        → room ≤ apart_from l heavy z.now vs 0 → (result.none ≡ true → ⊥)
        × (result.kept ≡ true → Through l shape marks.new own (apart_from l heavy z.now vs))) }
{
    if !near::few_losses(shape) || COUNTS < shape.n * ((l.l2 + 1) * states::LEFTS) {
        return Prepared {
            shape,
            kept: false,
            none: false,
        };
    }
    let mut before = [0; COUNTS];
    let mut after = [0; COUNTS];
    near::count_blocks(
        l,
        y,
        numbers,
        heavy,
        z,
        shape.size,
        room,
        &mut before,
        &mut after,
    );
    make_marks(
        l, y, totals, counts, numbers, heavy, known, z, shape, &before, &after, room, marks,
    )
}

// The marks of the loss states of the heavy blocks with these losses, where they are wanted. A row that differs from z in
// fewer than room chunks of the heavy blocks is near, and nothing is said of it.
pub fn prepare(
    l: Layout,
    y: &[u8],
    totals: &[u32],
    counts: &[u16],
    numbers: &[u16],
    heavy: Heavy,
    size: [u8; states::MOST_HEAVY],
    known: &[u16],
    z: &[u8],
    room: usize,
    wanted: bool,
    marks: &mut [u8],
) -> Prepared
    requires { Fit l y.now numbers.now heavy × (Tables y.now 0 totals.now counts.now
        × ((l.l2 ≤ length known.now) × (l.l1 * l.l2 ≤ length z.now))) }
    ensures { ((result.shape.n ≡ heavy.n) × (result.shape.size ≡ size))
        × (Shaped result.shape.n result.shape.size result.shape.stride result.shape.states
        × ((row vs : List ℕ) (own : ℕ → ℕ → ℕ) → Light l heavy row known.now
        → Path l y.now numbers.now heavy row (each size) vs own
        → room ≤ apart_from l heavy z.now vs 0 → (result.none ≡ true → ⊥)
        × (result.kept ≡ true → Through l result.shape marks.new own (apart_from l heavy z.now vs)))) }
{
    let shape = states::shape_of(heavy.n, size);
    if !wanted || states::MOST_STATES < shape.states || marks.len() < (l.l2 + 1) * shape.states {
        return Prepared {
            shape,
            kept: false,
            none: false,
        };
    }
    fill_marks(
        l, y, totals, counts, numbers, heavy, known, z, shape, room, marks,
    )
}
