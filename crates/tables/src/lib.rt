// Loss tables: how the losses of the heavy blocks are shared among their chunks. Contracts cite specs/Tables.antt.
#![tactic(auto)]

ghost use Rattle.std.specs.Prelude.{◌≡◌, true, false, List, MatchOption, IfSome, ℕ, ◌+◌, ◌-◌, ◌*◌, ◌<◌, ◌≤◌, length, get_or};
ghost use Rattle.bits.specs.Bits.{AllBits, longest, most_chunks};
ghost use Rattle.rows.specs.Slice.{rows_of_slice};
ghost use Rattle.message.specs.Layout.{legal, row_bits};
ghost use Rattle.windows.specs.Windows.{Tables};
ghost use Rattle.lines.specs.Lines.{unlike};
ghost use Rattle.found.specs.Found.{Given, Sent, Holding, Grown};
ghost use Rattle.anchor.specs.Anchor.{over};
ghost use Rattle.cells.specs.Cells.{NoSingle, OpenAt, Placed, SameBut};
ghost use Rattle.states.specs.States.{each, state_of};
ghost use Rattle.marks.specs.Marks.{Covers, apart_from};
ghost use Rattle.tables.specs.Tables.{
  Undecided,
  Free,
  pushed,
  Stepped,
  NoneLeft,
  Whole,
  Sound,
  Under,
  ShapeOf,
  own_left,
  IsMark,
  LightIn,
  HeavyOf,
  Looked,
  NearKnown,
  UnderMarks,
  Leaves,
};

use cells::Cells;
use column::Heavy;
use message::Layout;
use rows::Kept;
use states::Shape;

// A table as it is made: the losses that each heavy block has left to share, and the short chunks so far. The chunks in hand are lent beside
// it: a step writes those that it decides, and leaves the decided ones as they are.
#[derive(Clone, Copy)]
pub struct Table {
    pub left: [u8; 6],
    pub cells: Cells,
}

// Where a chunk that starts at bit at of the row is read in the received row of m bits, if end bits are lost up to the end of its
// block and left of them from the chunk on.
fn place_of(at: usize, end: u8, left: u8, m: usize) -> Option<usize>
    requires { (at ≤ longest) × (m ≤ longest) }
    ensures within { IfSome result (λ place. place ≤ m) }
    ensures there { (d : ℕ) → d + left ≡ end → d ≤ at → at - d ≤ m → result ≡ Some (at - d) }
{
    let place = (at + usize::from(left)).checked_sub(usize::from(end))?;
    if place <= m { Some(place) } else { None }
}

// The cells with one more.
fn push_cell(cells: Cells, i: u8, j: u8, a: u8, place: usize) -> Cells
    requires { cells.n < 12 }
    ensures { result ≡ pushed cells i j a place }
{
    let n = cells.n;
    let mut r = cells;
    r.block[n] = i;
    r.column[n] = j;
    r.lost[n] = a;
    r.place[n] = place;
    r.n = n + 1;
    r
}

// Whether all losses of the heavy blocks are shared out.
fn none_left(left: [u8; 6]) -> bool
    ensures { (result ≡ true → NoneLeft left) × (NoneLeft left → result ≡ true) }
{
    left.iter().all(|a| *a == 0)
}

// All rows under a table after the last column: there are none where losses are left, and otherwise the cells are mended.
fn mend_table(
    l: Layout,
    y: &[u8],
    numbers: &[u16],
    t: Table,
    row: &mut [u8],
    cap: usize,
    list: &mut [u8],
    kept: Kept,
) -> Kept
    requires { Given l numbers.now y.now × (Holding l numbers.now y.now cap list.old kept.count kept.more
        × ((Placed l (length y.now) t.cells × (NoneLeft t.left → NoSingle t.cells.block t.cells.lost))
        × (l.l1 * l.l2 ≤ length row.old))) }
    ensures { Grown l numbers.now y.now cap (Whole l y.now t row.old)
        list.old kept.count kept.more list.new result.count result.more
        × SameBut l (OpenAt t.cells) row.old row.new }
{
    if none_left(t.left) {
        return turns::mend_strings(l, y, numbers, t.cells, row, cap, list, kept);
    }
    kept
}

// The table after column j, if each heavy block has so much left then: a chunk that loses no bit is read from the received row, and one that
// does becomes a cell.
fn step(
    l: Layout,
    y: &[u8],
    heavy: Heavy,
    j: usize,
    next: [u8; 6],
    t: Table,
    row: &mut [u8],
) -> Option<Table>
    requires { (legal l ≡ true) × (AllBits y.now × ((length y.now ≤ row_bits l)
        × (Sound l (length y.now) heavy t × ((j < l.l2) × (l.l1 * l.l2 ≤ length row.old))))) }
    ensures { MatchOption result (Stepped l y.now heavy j (each next) t row.old false t row.new)
        (λ new. Stepped l y.now heavy j (each next) t row.old true new row.new) }
{
    let mut table = t;
    for h in 0..heavy.n {
        let left = table.left[h];
        let a = left.checked_sub(next[h])?;
        let i = heavy.block[h];
        let c = usize::from(i) * l.l2 + j;
        let place = place_of(c * l.nc, heavy.end[h], left, y.len())?;
        if a == 0 {
            if y.len() < place + l.nc {
                return None;
            }
            row[c] = message::chunks::number_at(y, place, l.nc);
        } else {
            table.left[h] = left - a;
            table.cells = push_cell(table.cells, i, j as u8, a, place);
        }
    }
    Some(table)
}

// Whether heavy block h can have its sum after column j, where its losses ended there: it had some left before. Otherwise nothing is asked.
fn ends(
    l: Layout,
    y: &[u8],
    totals: &[u32],
    counts: &[u16],
    numbers: &[u16],
    heavy: Heavy,
    j: usize,
    h: usize,
    before: u8,
    t: Table,
    row: &[u8],
) -> bool
    requires { Given l numbers.now y.now × (Tables y.now 0 totals.now counts.now
        × (Sound l (length y.now) heavy t × ((j < l.l2) × ((h < heavy.n) × (l.l1 * l.l2 ≤ length row.now))))) }
    ensures { (x : List ℕ) → Sent l numbers.now y.now x
        → Under l y.now heavy (j + 1) 0 t row.now x
        → result ≡ true }
{
    if before == 0 || t.left[h] > 0 {
        return true;
    }
    blocks::can_end(
        l,
        y,
        totals,
        counts,
        numbers,
        t.cells,
        row,
        usize::from(heavy.block[h]),
        heavy.end[h],
        j + 1,
    )
}

// Whether all heavy blocks whose losses ended in column j can have their sums; before it they had so much left.
fn all_end(
    l: Layout,
    y: &[u8],
    totals: &[u32],
    counts: &[u16],
    numbers: &[u16],
    heavy: Heavy,
    j: usize,
    before: [u8; 6],
    t: Table,
    row: &[u8],
) -> bool
    requires { Given l numbers.now y.now × (Tables y.now 0 totals.now counts.now
        × (Sound l (length y.now) heavy t × ((j < l.l2) × (l.l1 * l.l2 ≤ length row.now)))) }
    ensures { (x : List ℕ) → Sent l numbers.now y.now x
        → Under l y.now heavy (j + 1) 0 t row.now x
        → result ≡ true }
{
    for (h, had) in before[..heavy.n].iter().enumerate() {
        if !ends(l, y, totals, counts, numbers, heavy, j, h, *had, t, row) {
            return false;
        }
    }
    true
}

// Whether a state with this mark can hold a row that is not known: one comes through it, and it can differ from z in room
// chunks.
fn hopeful(mark: u8, differ: usize, room: usize) -> bool
    requires { differ ≤ 4000 }
    ensures { (n : ℕ) → result ≡ false → Covers mark n → differ + n < room }
{
    mark > 0 && (mark >= marks::MANY || room < differ + usize::from(mark))
}

// All rows under a table at the start of column j that come through marked loss states. Column by column: those that lose
// a bit in the column are looked for; then it is read whole, and gone on with where it has its sum. After the last column
// the cells are mended.
#[cycle(columns_losses_here_losses_to)]
fn columns(
    l: Layout,
    y: &[u8],
    totals: &[u32],
    counts: &[u16],
    numbers: &[u16],
    heavy: Heavy,
    shape: Shape,
    known: &[u16],
    marks: &[u8],
    rests: &[u64],
    z: &[u8],
    room: usize,
    j: usize,
    t: Table,
    row: &mut [u8],
    sets: [u64; states::MOST_HEAVY],
    differ: usize,
    cap: usize,
    list: &mut [u8],
    kept: Kept,
) -> Kept
    requires { Given l numbers.now y.now × (Holding l numbers.now y.now cap list.old kept.count kept.more
        × ((Sound l (length y.now) heavy t × (l.l1 * l.l2 ≤ length row.old)) × ((j ≤ l.l2) × (ShapeOf heavy shape t.left
        × (Looked l y.now totals.now counts.now known.now z.now differ j
        × NearKnown l numbers.now y.now (rows_of_slice (row_bits l) list.old kept.count kept.more) z.now room))))) }
    ensures { Grown l numbers.now y.now cap
        (UnderMarks l y.now numbers.now heavy shape known.now marks.now
        rests.now z.now sets differ j t row.old)
        list.old kept.count kept.more list.new result.count result.more
        × SameBut l (Free heavy j 0 t.cells) row.old row.new }
{
    let mut now = t;
    let mut held = sets;
    let mut apart = differ;
    let mut k = kept;
    for c in j..l.l2 {
        let left = now.left;
        let q = states::number_of(shape, left);
        let mark = marks::mark_at(shape, marks, c, q);
        if !hopeful(mark, apart, room) {
            return k;
        }
        k = losses_here(
            l, y, totals, counts, numbers, heavy, shape, known, marks, rests, z, room, c, now, row,
            held, apart, cap, list, k,
        );
        let whole = column::crossing(
            l, y, totals, counts, numbers, heavy, known, z, c, left, left,
        );
        if whole == 0 {
            return k;
        }
        let Some(read) = step(l, y, heavy, c, left, now, row) else {
            return k;
        };
        now = read;
        let fresh = sums::after(l, y, numbers, heavy, known, c, left, left, held);
        held = fresh;
        apart += usize::from(whole) - 1;
    }
    mend_table(l, y, numbers, now, row, cap, list, k)
}

// All rows under a table at the start of column j that come through marked loss states and lose a bit in the column: each
// lower state is tried.
#[cycle(columns_losses_here_losses_to)]
fn losses_here(
    l: Layout,
    y: &[u8],
    totals: &[u32],
    counts: &[u16],
    numbers: &[u16],
    heavy: Heavy,
    shape: Shape,
    known: &[u16],
    marks: &[u8],
    rests: &[u64],
    z: &[u8],
    room: usize,
    j: usize,
    t: Table,
    row: &mut [u8],
    sets: [u64; states::MOST_HEAVY],
    differ: usize,
    cap: usize,
    list: &mut [u8],
    kept: Kept,
) -> Kept
    requires { Given l numbers.now y.now × (Holding l numbers.now y.now cap list.old kept.count kept.more
        × ((Sound l (length y.now) heavy t × (l.l1 * l.l2 ≤ length row.old)) × ((j < l.l2) × (ShapeOf heavy shape t.left
        × (Looked l y.now totals.now counts.now known.now z.now differ j
        × NearKnown l numbers.now y.now (rows_of_slice (row_bits l) list.old kept.count kept.more) z.now room))))) }
    ensures { Grown l numbers.now y.now cap
        (λ x. UnderMarks l y.now numbers.now heavy shape known.now marks.now
        rests.now z.now sets differ j t row.old x
        × (state_of shape (own_left l y.now heavy x (j + 1)) < state_of shape (each t.left)))
        list.old kept.count kept.more list.new result.count result.more
        × SameBut l (Free heavy j 0 t.cells) row.old row.new }
{
    let left = t.left;
    let q = states::number_of(shape, left);
    let can = rests::exits(l, y, numbers, heavy, j, left, sets, rests);
    let mut k = kept;
    for to in 0..q {
        let mark = marks::mark_at(shape, marks, j + 1, to);
        if mark != 0 {
            k = losses_to(
                l, y, totals, counts, numbers, heavy, shape, known, marks, rests, z, room, j, t,
                row, sets, &can, to, mark, differ, cap, list, k,
            );
        }
    }
    k
}

// Those of them that are at one lower state after the column, which has this mark.
#[cycle(columns_losses_here_losses_to)]
fn losses_to(
    l: Layout,
    y: &[u8],
    totals: &[u32],
    counts: &[u16],
    numbers: &[u16],
    heavy: Heavy,
    shape: Shape,
    known: &[u16],
    marks: &[u8],
    rests: &[u64],
    z: &[u8],
    room: usize,
    j: usize,
    t: Table,
    row: &mut [u8],
    sets: [u64; states::MOST_HEAVY],
    can: &[u8; states::ENTRIES],
    to: usize,
    mark: u8,
    differ: usize,
    cap: usize,
    list: &mut [u8],
    kept: Kept,
) -> Kept
    requires { (Given l numbers.now y.now × (Holding l numbers.now y.now cap list.old kept.count kept.more
        × ((Sound l (length y.now) heavy t × (l.l1 * l.l2 ≤ length row.old)) × ((j < l.l2) × (ShapeOf heavy shape t.left
        × (Looked l y.now totals.now counts.now known.now z.now differ j
        × NearKnown l numbers.now y.now (rows_of_slice (row_bits l) list.old kept.count kept.more) z.now room))))))
        × (((to < state_of shape (each t.left)) × IsMark shape marks.now (j + 1) to mark)
        × Leaves l y.now numbers.now heavy shape known.now marks.now rests.now z.now sets differ j t row.old can.now) }
    ensures { Grown l numbers.now y.now cap
        (λ x. UnderMarks l y.now numbers.now heavy shape known.now marks.now
        rests.now z.now sets differ j t row.old x
        × (state_of shape (own_left l y.now heavy x (j + 1)) ≡ to))
        list.old kept.count kept.more list.new result.count result.more
        × SameBut l (Free heavy j 0 t.cells) row.old row.new }
{
    let left = t.left;
    let next = states::losses_left(shape, to);
    if !rests::all_can(heavy.n, next, can) {
        return kept;
    }
    let here = column::crossing(
        l, y, totals, counts, numbers, heavy, known, z, j, left, next,
    );
    if here == 0 {
        return kept;
    }
    let apart = differ + (usize::from(here) - 1);
    if !hopeful(mark, apart, room) {
        return kept;
    }
    let fresh = sums::after(l, y, numbers, heavy, known, j, left, next, sets);
    if !sums::all_meet(l, heavy, j + 1, next, fresh, rests) {
        return kept;
    }
    let Some(table) = step(l, y, heavy, j, next, t, row) else {
        return kept;
    };
    if !all_end(l, y, totals, counts, numbers, heavy, j, left, table, row) {
        return kept;
    }
    columns(
        l,
        y,
        totals,
        counts,
        numbers,
        heavy,
        shape,
        known,
        marks,
        rests,
        z,
        room,
        j + 1,
        table,
        row,
        fresh,
        apart,
        cap,
        list,
        kept,
    )
}

// Whether block i is heavy block h.
fn is_heavy(heavy: Heavy, h: usize, i: usize) -> bool
    requires { heavy.n ≤ 6 }
    ensures { (result ≡ true → (h < heavy.n) × (get_or heavy.block h 0 ≡ i))
        × (result ≡ false → h < heavy.n → get_or heavy.block h 0 ≡ i → ⊥) }
{
    h < heavy.n && usize::from(heavy.block[h]) == i
}

// In how many chunks the row in hand differs from z, the heavy blocks left out.
fn apart_light(l: Layout, heavy: Heavy, row: &[u8], z: &[u8]) -> usize
    requires { (legal l ≡ true) × (HeavyOf l heavy × ((l.l1 * l.l2 ≤ length row.now) × (l.l1 * l.l2 ≤ length z.now))) }
    ensures { ((vs : List ℕ) → LightIn l heavy row.now vs
        → over (unlike vs z.now) 0 (l.l1 * l.l2) ≤ result + apart_from l heavy z.now vs 0) × (result ≤ most_chunks) }
{
    let mut count = 0;
    let mut h = 0;
    for i in 0..l.l1 {
        if is_heavy(heavy, h, i) {
            h += 1;
        } else {
            count += anchor::count_unlike(row, z, i * l.l2, l.l2);
        }
    }
    count
}

// With so few columns the loss states of a short layout are gone through in less time than they are marked.
const FEW_COLUMNS: usize = 3;

// Whether loss states are to be marked.
fn marks_pay(l: Layout) -> bool
    requires { legal l ≡ true }
{
    l.l2 > FEW_COLUMNS || !sums::is_short(l)
}

// The most marks of loss states: they are kept where they are enough.
const MARKS: usize = 32768;

// All rows whose losses are those of the pattern that the heavy blocks come from: their losses are shared among their chunks in every
// way that comes through marked loss states. Rows that differ from z in fewer than room chunks are known.
pub fn tables(
    l: Layout,
    y: &[u8],
    totals: &[u32],
    counts: &[u16],
    numbers: &[u16],
    heavy: Heavy,
    t: Table,
    row: &mut [u8],
    z: &[u8],
    room: usize,
    cap: usize,
    list: &mut [u8],
    kept: Kept,
) -> Kept
    requires { (Given l numbers.now y.now × Holding l numbers.now y.now cap list.old kept.count kept.more)
        × ((Sound l (length y.now) heavy t × (t.cells.n ≡ 0)) × (Tables y.now 0 totals.now counts.now
        × (((l.l1 * l.l2 ≤ length row.old) × (l.l1 * l.l2 ≤ length z.now))
        × NearKnown l numbers.now y.now (rows_of_slice (row_bits l) list.old kept.count kept.more) z.now room))) }
    ensures { Grown l numbers.now y.now cap (Under l y.now heavy 0 0 t row.old)
        list.old kept.count kept.more list.new result.count result.more
        × SameBut l (Undecided heavy 0 0) row.old row.new }
{
    let mut known = [0; bits::MOST_IN_LINE];
    column::light_sums(l, y, numbers, heavy, row, &mut known);
    if !costs::enough(l, y, totals, counts, numbers, heavy, t.left, &known) {
        return kept;
    }
    let light = apart_light(l, heavy, row, z);
    let rest = room.saturating_sub(light);
    if alike::all_near(
        l, y, totals, counts, numbers, heavy, t.left, &known, z, rest,
    ) {
        return kept;
    }
    let mut marks = [0; MARKS];
    let p = live::prepare(
        l,
        y,
        totals,
        counts,
        numbers,
        heavy,
        t.left,
        &known,
        z,
        rest,
        marks_pay(l),
        &mut marks,
    );
    if p.none {
        return kept;
    }
    let sets = sums::at_first(l, numbers, heavy);
    let mut brings = [0; rests::RESTS];
    rests::fill(l, y, numbers, heavy, t.left, &mut brings);
    let held = if p.kept { MARKS } else { 0 };
    columns(
        l,
        y,
        totals,
        counts,
        numbers,
        heavy,
        p.shape,
        &known,
        &marks[..held],
        &brings,
        z,
        room,
        0,
        t,
        row,
        sets,
        light,
        cap,
        list,
        kept,
    )
}
