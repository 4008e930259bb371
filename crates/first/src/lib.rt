// The first pass over the marks of loss states, from the last column to the first: a state is marked if a row that is not near can still come
// to the end from it, as far as steps of none or one loss tell. Contracts cite specs/First.antt.
#![tactic(auto)]

ghost use Rattle.std.specs.Prelude.{◌≡◌, true, List, ℕ, ◌+◌, ◌-◌, ◌*◌, ◌%◌, ◌<◌, ◌≤◌, length, get_or};
ghost use Rattle.bits.specs.Bits.{most_in_line, longest_line};
ghost use Rattle.windows.specs.Windows.{Tables};
ghost use Rattle.states.specs.States.{lefts, each, state_of, entry_at, added_up};
ghost use Rattle.column.specs.Column.{Fit, Light, Crosses};
ghost use Rattle.whole.specs.Whole.{modulus, OneLess, Readings};
ghost use Rattle.marks.specs.Marks.{Path, Through, Kept, Remade};
ghost use Rattle.marks.specs.Digits.{Within, entry_of, Digits};
ghost use Rattle.near.specs.Near.{Sized, most};
ghost use Rattle.first.specs.First.{Read, Goes, FirstMark};

use column::Heavy;
use message::Layout;
use states::Shape;

// One more than the level of the state that lies down lower, for a block that has losses left; at most three.
fn raised(levels: &[u8], q: usize, down: usize, left: u8) -> u8
    requires { q ≤ length levels.now }
    ensures { (v : ℕ) → 0 < left → 0 < down → down ≤ q → 0 < v → v < 3
        → v ≤ get_or levels.now (q - down) 0
        → v + 1 ≤ result }
{
    if left == 0 || down == 0 || q < down {
        return 0;
    }
    match levels[q - down] {
        0 => 0,
        level => level.min(2) + 1,
    }
}

// The level of state q: one more than the losses that it has above a state that is marked in the next column, up to two
// losses.
fn level_of(
    n: usize,
    strides: &[usize; states::MOST_HEAVY],
    digits: &[u8],
    q: usize,
    levels: &[u8; states::MOST_STATES],
    next: u8,
) -> u8
    requires { (n ≤ 6) × ((q * 6 + 6 ≤ length digits.now) × (q < 729)) }
    ensures { (0 < next → 0 < result) × ((s v : ℕ) → s < n → 0 < get_or digits.now (q * 6 + s) 0
        → 0 < get_or strides.now s 0 → get_or strides.now s 0 ≤ q → 0 < v → v < 3
        → v ≤ get_or levels.now (q - get_or strides.now s 0) 0 → v + 1 ≤ result) }
{
    let mut level = u8::from(0 < next);
    for s in 0..n {
        let left = digits[q * states::MOST_HEAVY + s];
        level = level.max(raised(levels, q, strides[s], left));
        if 2 < level {
            break;
        }
    }
    level
}

// Whether a state is marked after column j and the column has its sum where no chunk of a heavy block loses a bit there; part is what all
// chunks of the column bring then.
fn stays(l: Layout, numbers: &[u16], j: usize, part: usize, mark: u8) -> bool
    requires { (l.l1 * l.nc ≤ longest_line) × ((j < l.l2) × ((l.l1 ≤ most_in_line) × (l.l1 + l.l2 ≤ length numbers.now))) }
    ensures { part % modulus l ≡ get_or numbers.now (l.l1 + j) 0 → 0 < mark → result ≡ true }
{
    0 < mark && part % (l.l1 * l.nc + 1) == usize::from(numbers[l.l1 + j])
}

// Whether state q, with so many losses left in a block, has a marked state down lower, with one loss less there; the marks stand at base.
fn leads(own: u8, down: usize, q: usize, marks: &[u8], base: usize) -> bool
    requires { base + q < length marks.now }
    ensures { (result ≡ true → 0 < own)
        × (0 < own → down ≤ q → 0 < get_or marks.now (base + (q - down)) 0 → result ≡ true) }
{
    0 < own && down <= q && 0 < marks[base + (q - down)]
}

// Whether a row can cross column j with one loss, in heavy block s. Part is what all chunks of the column bring where they are read whole.
fn loses_one(
    l: Layout,
    y: &[u8],
    totals: &[u32],
    counts: &[u16],
    numbers: &[u16],
    heavy: Heavy,
    readings: &[u16],
    j: usize,
    left: [u8; states::MOST_HEAVY],
    part: usize,
    s: usize,
) -> bool
    requires { (Fit l y.now numbers.now heavy × (Tables y.now 0 totals.now counts.now × ((j < l.l2)
        × (Readings l y.now heavy left j readings.now × (entry_at heavy.n 0 ≤ length readings.now)))))
        × ((((t : ℕ) → t < heavy.n → get_or left t 0 < lefts) × (added_up readings.now (each left) heavy.n ≤ part))
        × ((s < heavy.n) × (0 < get_or left s 0))) }
    ensures { (row vs known : List ℕ) (next : ℕ → ℕ) → Light l heavy row known
        → part ≡ get_or known j 0 + added_up readings.now (each left) heavy.n
        → Crosses l y.now numbers.now heavy row j (each left) next vs
        → OneLess heavy.n (each left) next s → result ≡ true }
{
    let own = left[s];
    let reading = usize::from(readings[s * states::LEFTS + usize::from(own)]);
    whole::can_lose_one(
        l,
        y,
        totals,
        counts,
        heavy.block[s],
        heavy.end[s],
        j,
        own,
        part - reading,
        usize::from(numbers[l.l1 + j]),
    )
}

// Whether a row can cross column j from state q with one loss, to a marked state.
fn loses(
    l: Layout,
    y: &[u8],
    totals: &[u32],
    counts: &[u16],
    numbers: &[u16],
    heavy: Heavy,
    shape: Shape,
    readings: &[u16],
    j: usize,
    left: [u8; states::MOST_HEAVY],
    part: usize,
    q: usize,
    marks: &[u8],
    base: usize,
) -> bool
    requires { (Read l y.now totals.now counts.now numbers.now heavy shape readings.now j
        × (((t : ℕ) → t < heavy.n → get_or left t 0 ≤ each shape.size t)
        × (added_up readings.now (each left) heavy.n ≤ part)))
        × ((q < shape.states) × (base + shape.states ≤ length marks.now)) }
    ensures { (row vs known : List ℕ) (next : ℕ → ℕ) (s : ℕ) → s < heavy.n → Light l heavy row known
        → part ≡ get_or known j 0 + added_up readings.now (each left) heavy.n
        → Crosses l y.now numbers.now heavy row j (each left) next vs
        → OneLess heavy.n (each left) next s → get_or shape.stride s 0 ≤ q
        → 0 < get_or marks.now (base + (q - get_or shape.stride s 0)) 0 → result ≡ true }
{
    for s in 0..heavy.n {
        if leads(left[s], shape.stride[s], q, marks, base)
            && loses_one(
                l, y, totals, counts, numbers, heavy, readings, j, left, part, s,
            )
        {
            return true;
        }
    }
    false
}

// The mark of state q by the marks of the next column, which stand at base, where no loss or one is lost in the column.
fn tested_mark(
    l: Layout,
    y: &[u8],
    totals: &[u32],
    counts: &[u16],
    numbers: &[u16],
    heavy: Heavy,
    known: &[u16],
    shape: Shape,
    digits: &[u8],
    readings: &[u16],
    j: usize,
    q: usize,
    marks: &[u8],
    base: usize,
) -> u8
    requires { (Read l y.now totals.now counts.now numbers.now heavy shape readings.now j
        × ((l.l2 ≤ length known.now) × Digits shape digits.now))
        × ((q < shape.states) × (base + shape.states ≤ length marks.now)) }
    ensures { FirstMark l y.now numbers.now heavy known.now shape j marks.now base (entry_of digits.now q) q 1 result }
{
    let left = marks::digits_of(digits, q);
    let part = usize::from(known[j]) + whole::all(heavy.n, left, readings);
    if stays(l, numbers, j, part, marks[base + q])
        || loses(
            l, y, totals, counts, numbers, heavy, shape, readings, j, left, part, q, marks, base,
        )
    {
        return 255;
    }
    0
}

// The mark of state q, from its level and by the marks of the next column, which stand at base.
fn first_mark(
    l: Layout,
    y: &[u8],
    totals: &[u32],
    counts: &[u16],
    numbers: &[u16],
    heavy: Heavy,
    known: &[u16],
    shape: Shape,
    digits: &[u8],
    readings: &[u16],
    j: usize,
    q: usize,
    level: u8,
    marks: &[u8],
    base: usize,
) -> u8
    requires { (Read l y.now totals.now counts.now numbers.now heavy shape readings.now j
        × ((l.l2 ≤ length known.now) × Digits shape digits.now))
        × ((q < shape.states) × (base + shape.states ≤ length marks.now)) }
    ensures { FirstMark l y.now numbers.now heavy known.now shape j marks.now base (entry_of digits.now q) q level result }
{
    match level {
        0 => 0,
        1..=2 => tested_mark(
            l, y, totals, counts, numbers, heavy, known, shape, digits, readings, j, q, marks, base,
        ),
        _ => 255,
    }
}

// The level of a state through which rows come that differ from z in at most so many chunks; none where these are fewer than room.
fn far_level(apart: u16, room: usize, level: u8) -> u8
    ensures { room ≤ apart → result ≡ level }
{
    if usize::from(apart) < room { 0 } else { level }
}

// The first marks of a column, at a place, by those of the next column, at base: whether a row can cross it to a marked
// state, and is not near. It answers the greatest.
fn complete_column(
    l: Layout,
    y: &[u8],
    totals: &[u32],
    counts: &[u16],
    numbers: &[u16],
    heavy: Heavy,
    known: &[u16],
    shape: Shape,
    digits: &[u8],
    before: &[u8],
    after: &[u8],
    room: usize,
    j: usize,
    at: usize,
    base: usize,
    marks: &mut [u8],
) -> u8
    requires { (Fit l y.now numbers.now heavy × (Tables y.now 0 totals.now counts.now
        × (l.l2 ≤ length known.now))) × ((j < l.l2)
        × (Kept heavy shape × (Digits shape digits.now × ((Sized l.l2 shape before.now
        × Sized l.l2 shape after.now)
        × ((at + shape.states ≤ base) × (base + shape.states ≤ length marks.old)))))) }
    ensures { Remade shape.states at marks.old marks.new
        × (((p : ℕ) → p < shape.states → get_or marks.new (at + p) 0 ≤ result)
        × ((left : ℕ → ℕ) → Within shape left
        → room ≤ most l.l2 before.now after.now (each shape.size) left j shape.n
        → Goes l y.now numbers.now heavy known.now shape j marks.old base left
        (get_or marks.new (at + state_of shape left) 0))) }
{
    let mut readings = [0; states::ENTRIES];
    whole::fill(
        l,
        y,
        totals,
        counts,
        numbers,
        heavy,
        shape.size,
        j,
        &mut readings,
    );
    let mut apart = [0; states::MOST_STATES];
    near::fill_apart(l.l2, shape, before, after, j, &mut apart);
    let mut levels = [0; states::MOST_STATES];
    let mut highest: u8 = 0;
    for q in 0..shape.states {
        let level = level_of(shape.n, &shape.stride, digits, q, &levels, marks[base + q]);
        let tested = far_level(apart[q], room, level);
        let mark = first_mark(
            l, y, totals, counts, numbers, heavy, known, shape, digits, &readings, j, q, tested,
            marks, base,
        );
        levels[q] = level;
        marks[at + q] = mark;
        highest = highest.max(mark);
    }
    highest
}

// The first marks of all columns, from the last to the first: where a row can still come to the end. It answers whether
// one can.
pub fn complete(
    l: Layout,
    y: &[u8],
    totals: &[u32],
    counts: &[u16],
    numbers: &[u16],
    heavy: Heavy,
    known: &[u16],
    shape: Shape,
    digits: &[u8],
    before: &[u8],
    after: &[u8],
    room: usize,
    marks: &mut [u8],
) -> bool
    requires { (Fit l y.now numbers.now heavy × (Tables y.now 0 totals.now counts.now
        × (l.l2 ≤ length known.now)))
        × (Kept heavy shape × (Digits shape digits.now × ((Sized l.l2 shape before.now
        × Sized l.l2 shape after.now)
        × ((l.l2 + 1) * shape.states ≤ length marks.old)))) }
    ensures { (length marks.new ≡ length marks.old)
        × ((row vs : List ℕ) (own : ℕ → ℕ → ℕ) → Light l heavy row known.now
        → Path l y.now numbers.now heavy row (each shape.size) vs own
        → ((i : ℕ) → i ≤ l.l2
        → room ≤ most l.l2 before.now after.now (each shape.size) (own i) i shape.n)
        → (result ≡ true) × Through l shape marks.new own (λ j. 0)) }
{
    let states = shape.states;
    marks::only(states, l.l2 * states, 0, 255, marks);
    for j in (0..l.l2).rev() {
        let highest = complete_column(
            l,
            y,
            totals,
            counts,
            numbers,
            heavy,
            known,
            shape,
            digits,
            before,
            after,
            room,
            j,
            j * states,
            (j + 1) * states,
            marks,
        );
        if highest == 0 {
            return false;
        }
    }
    0 < marks[states - 1]
}
