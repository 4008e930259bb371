// Mending by turns: chunk-strings and blocks that have exactly one open loss are mended by their sums, until neither kind has
// one. Contracts cite specs/Turns.antt.
#![tactic(auto)]

ghost use Rattle.std.specs.Prelude.{◌≡◌, true, List, MatchOption, ℕ, ◌*◌, ◌<◌, ◌≤◌, length, drop};
ghost use Rattle.message.specs.Layout.{legal as isLegal};
ghost use Rattle.found.specs.Found.{Given, Holding, Grown};
ghost use Rattle.cells.specs.Cells.{NoSingle, SingleAt, OpenAt, Placed, SameBut, Under};
ghost use Rattle.turns.specs.Turns.{keys_of, line_of, Ready, chunk_at, Short, Found, Turned};

use cells::Cells;
use message::Layout;
use rows::Kept;

// A line of chunks with one of them marked: its first chunk, how far its chunks stand apart, how many they are, which one is
// marked, and which of the numbers given is the line's sum.
#[derive(Clone, Copy)]
pub struct Line {
    pub start: usize,
    pub stride: usize,
    pub count: usize,
    pub hole: usize,
    pub number: usize,
}

// What a turn leaves: whether a row can be under the state at all, whether a cell was found, and the cells afterwards.
#[derive(Clone, Copy)]
pub struct Turn {
    pub ok: bool,
    pub any: bool,
    pub cells: Cells,
}

// The line of chunk j of block i: its chunk-string or its block.
fn line_of(strings: bool, l: Layout, i: usize, j: usize) -> Line
    requires { (isLegal l ≡ true) × ((i < l.l1) × (j < l.l2)) }
    ensures { result ≡ line_of strings l i j }
{
    if strings {
        Line {
            start: j,
            stride: l.l2,
            count: l.l1,
            hole: i,
            number: l.l1 + j,
        }
    } else {
        Line {
            start: i * l.l2,
            stride: 1,
            count: l.l2,
            hole: j,
            number: i,
        }
    }
}

// The first cell that has the only open loss of its chunk-string, or of its block.
fn single(strings: bool, cells: Cells) -> Option<usize>
    ensures { MatchOption result (NoSingle (keys_of strings cells) cells.lost)
        (λ z. (z < 12) × SingleAt (keys_of strings cells) cells.lost z) }
{
    let keys = if strings { cells.column } else { cells.block };
    let z = cells::single(keys, cells.lost);
    if z < 12 { Some(z) } else { None }
}

// The chunk of a cell that lost one bit, mended in its line by the line's sum. It fails where too few bits are left, where no bit
// of the chunk gives the line its sum, or where the chunk found does not lose just one bit against y from the place on.
fn mend_cell(nc: usize, y: &[u8], place: usize, n: Line, sum: usize, row: &[u8]) -> Option<u8>
    requires { Ready nc y.now place n sum (length row.now) }
    ensures { (us : List ℕ) → Short nc n sum (drop place y.now) row.now us
        → result ≡ Some (chunk_at n us) }
{
    let short = nc - 1;
    if y.len() - place < short {
        return None;
    }
    let end = place + short;
    let m = lines::mend_line(
        nc,
        n.start,
        n.stride,
        n.count,
        n.hole,
        sum,
        &y[place..end],
        row,
    );
    if m.ok && cells::loses_just(nc, m.value, y, place, 1) {
        Some(m.value)
    } else {
        None
    }
}

// Cell z, which has the only open loss of its chunk-string, or of its block, is found: its chunk is put into the row in hand.
fn mend_one(
    strings: bool,
    l: Layout,
    y: &[u8],
    numbers: &[u16],
    cells: Cells,
    row: &mut [u8],
    z: usize,
) -> Turn
    requires { (Given l numbers.now y.now × (l.l1 * l.l2 ≤ length row.old)) × (Placed l (length y.now) cells
        × ((z < 12) × SingleAt (keys_of strings cells) cells.lost z)) }
    ensures { Found l numbers.now y.now cells z row.old result row.new }
{
    let i = usize::from(cells.block[z]);
    let j = usize::from(cells.column[z]);
    let n = line_of(strings, l, i, j);
    let sum = usize::from(numbers[n.number]);
    let count = l.l1 * l.l2;
    let mut next = cells;
    next.lost[z] = 0;
    let Some(v) = mend_cell(l.nc, y, cells.place[z], n, sum, &row[..count]) else {
        return Turn {
            ok: false,
            any: true,
            cells: next,
        };
    };
    row[i * l.l2 + j] = v;
    Turn {
        ok: true,
        any: true,
        cells: next,
    }
}

// A turn: while a chunk-string, or a block, has exactly one open loss, it is mended by its sum.
fn take_turn(
    strings: bool,
    l: Layout,
    y: &[u8],
    numbers: &[u16],
    cells: Cells,
    row: &mut [u8],
) -> Turn
    requires { (Given l numbers.now y.now × (l.l1 * l.l2 ≤ length row.old))
        × Placed l (length y.now) cells }
    ensures { Turned strings l numbers.now y.now cells row.old result
        row.new }
{
    let mut t = Turn {
        ok: true,
        any: false,
        cells,
    };
    while let Some(z) = single(strings, t.cells) {
        t = mend_one(strings, l, y, numbers, t.cells, row, z);
        if !t.ok {
            return t;
        }
    }
    t
}

// Chunk-strings are mended, where no block has exactly one open loss. If one was, the blocks have their turn; if none was, the
// cells that are left are filled.
#[cycle(mend_blocks_mend_strings)]
pub fn mend_strings(
    l: Layout,
    y: &[u8],
    numbers: &[u16],
    cells: Cells,
    row: &mut [u8],
    cap: usize,
    list: &mut [u8],
    kept: Kept,
) -> Kept
    requires { (Given l numbers.now y.now × (l.l1 * l.l2 ≤ length row.old))
        × (Holding l numbers.now y.now cap list.old kept.count kept.more
        × (Placed l (length y.now) cells × NoSingle cells.block cells.lost)) }
    ensures { Grown l numbers.now y.now cap (Under l y.now cells row.old)
        list.old kept.count kept.more list.new result.count result.more
        × SameBut l (OpenAt cells) row.old row.new }
{
    let t = take_turn(true, l, y, numbers, cells, row);
    if !t.ok {
        return kept;
    }
    if !t.any {
        return fill::fill(l, y, numbers, t.cells, row, cap, list, kept);
    }
    mend_blocks(l, y, numbers, t.cells, row, cap, list, kept)
}

// Blocks are mended, where no chunk-string has exactly one open loss. If one was, the chunk-strings have their turn; if none
// was, the cells that are left are filled.
#[cycle(mend_blocks_mend_strings)]
pub fn mend_blocks(
    l: Layout,
    y: &[u8],
    numbers: &[u16],
    cells: Cells,
    row: &mut [u8],
    cap: usize,
    list: &mut [u8],
    kept: Kept,
) -> Kept
    requires { (Given l numbers.now y.now × (l.l1 * l.l2 ≤ length row.old))
        × (Holding l numbers.now y.now cap list.old kept.count kept.more
        × (Placed l (length y.now) cells × NoSingle cells.column cells.lost)) }
    ensures { Grown l numbers.now y.now cap (Under l y.now cells row.old)
        list.old kept.count kept.more list.new result.count result.more
        × SameBut l (OpenAt cells) row.old row.new }
{
    let t = take_turn(false, l, y, numbers, cells, row);
    if !t.ok {
        return kept;
    }
    if !t.any {
        return fill::fill(l, y, numbers, t.cells, row, cap, list, kept);
    }
    mend_strings(l, y, numbers, t.cells, row, cap, list, kept)
}
