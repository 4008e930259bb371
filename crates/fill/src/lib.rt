// Filling: chunks that are still short when nothing is left to mend are erased. As many of them as there are checks are recovered
// from these; while there are more, every content is tried that loses just their counts and meets the sums. However many are
// erased, every fill that meets all sums and checks is listed. Contracts cite specs/Fill.antt, and the specs of found and of
// cells.
#![tactic(auto)]

ghost use Rattle.std.specs.Prelude.{◌≡◌, true, List, MatchOption, ℕ, ◌+◌, ◌*◌, ◌<◌, ◌≤◌, eqb, length, get_or, set};
ghost use Rattle.message.specs.Layout.{legal};
ghost use Rattle.lines.specs.Lines.{values};
ghost use Rattle.found.specs.Found.{Given, Sent, Holding, Grown};
ghost use Rattle.erasures.specs.Erasures.{weight};
ghost use Rattle.cells.specs.Cells.{share, NoSingle, chunk_of, Open, OpenAt, Placed, SameBut, Under};
ghost use Rattle.contents.specs.Asks.{Small};
ghost use Rattle.contents.specs.Contents.{Among};
ghost use Rattle.fill.specs.Fill.{Asks, AllLose, With};

use cells::Cells;
use contents::Ask;
use message::Layout;
use rows::Kept;

// The rank of a cell that is not open.
const CLOSED: usize = 512;

// Whether no other cell with the key of cell z, its block or its column, is open.
fn alone(keys: [u8; 12], lost: [u8; 12], z: usize) -> bool
    requires { z < 12 }
    ensures { result ≡ eqb (share keys (set lost z 0) (get_or keys z 0)) 0 }
{
    cells::share(keys, lost, keys[z]) == usize::from(lost[z])
}

// How dear it is to try the contents of cell z, below CLOSED if it is open: the sum of a line in which it is the only open one
// leaves few contents, and fewer losses leave fewer.
fn rank(block: [u8; 12], column: [u8; 12], lost: [u8; 12], z: usize) -> usize
    requires { z < 12 }
    ensures { (result ≤ 512) × ((0 < get_or lost z 0 → result < 512) × (result < 512 → 0 < get_or lost z 0)) }
{
    let a = usize::from(lost[z]);
    if a == 0 {
        CLOSED
    } else if alone(column, lost, z) || alone(block, lost, z) {
        a
    } else {
        a + 256
    }
}

// The open cell whose contents are tried first, if one is open. Any open cell will do; a good choice leaves few contents to try.
fn choose(cells: Cells) -> Option<usize>
    ensures { MatchOption result ((k : ℕ) → k < 12 → get_or cells.lost k 0 ≡ 0)
        (λ z. (z < 12) × (0 < get_or cells.lost z 0)) }
{
    let mut best = None;
    let mut least = CLOSED;
    for z in 0..12 {
        let dear = rank(cells.block, cells.column, cells.lost, z);
        if dear < least {
            best = Some(z);
            least = dear;
        }
    }
    best
}

// What the sum of its chunk-string asks of cell z: nothing where another cell is open there.
fn ask_string(l: Layout, numbers: &[u16], cells: Cells, row: &[u8], z: usize) -> Ask
    requires { ((legal l ≡ true) × (l.l1 * l.l2 ≤ length row.now)) × ((length numbers.now ≡ l.l1 + l.l2 + l.r)
        × ((z < 12) × ((get_or cells.block z 0 < l.l1) × (get_or cells.column z 0 < l.l2)))) }
    ensures { Small result × Asks l numbers.now cells row.now z result }
{
    if !alone(cells.column, cells.lost, z) {
        return contents::anything();
    }
    let i = usize::from(cells.block[z]);
    let j = usize::from(cells.column[z]);
    let sum = usize::from(numbers[l.l1 + j]);
    contents::asked(l.nc, j, l.l2, l.l1, i, row, sum)
}

// The same of its block.
fn ask_block(l: Layout, numbers: &[u16], cells: Cells, row: &[u8], z: usize) -> Ask
    requires { ((legal l ≡ true) × (l.l1 * l.l2 ≤ length row.now)) × ((length numbers.now ≡ l.l1 + l.l2 + l.r)
        × ((z < 12) × ((get_or cells.block z 0 < l.l1) × (get_or cells.column z 0 < l.l2)))) }
    ensures { Small result × Asks l numbers.now cells row.now z result }
{
    if !alone(cells.block, cells.lost, z) {
        return contents::anything();
    }
    let i = usize::from(cells.block[z]);
    let j = usize::from(cells.column[z]);
    let sum = usize::from(numbers[i]);
    contents::asked(l.nc, i * l.l2, 1, l.l2, j, row, sum)
}

// Lists the contents of cell z, which is open, that lose just its count and that its sums allow; the answer is how many they are.
fn list_contents(
    l: Layout,
    y: &[u8],
    numbers: &[u16],
    cells: Cells,
    row: &[u8],
    z: usize,
    out: &mut [u8],
) -> usize
    requires { (Given l numbers.now y.now × (l.l1 * l.l2 ≤ length row.now))
        × ((Placed l (length y.now) cells × Open cells z) × (256 ≤ length out.old)) }
    ensures { (result ≤ 256) × ((x : List ℕ) → Sent l numbers.now y.now x
        → Under l y.now cells row.now x
        → Among out.new 0 result (get_or (values l x) (chunk_of l cells z) 0)) }
{
    let all = contents::contents(l.nc, y, cells.place[z], cells.lost[z], out);
    let some = contents::sift(l.nc, ask_string(l, numbers, cells, row, z), out, all);
    contents::sift(l.nc, ask_block(l, numbers, cells, row, z), out, some)
}

// Whether each open cell of the row in hand loses just its count: a row that fails is not under the state.
fn all_lose(l: Layout, y: &[u8], cells: Cells, row: &[u8]) -> bool
    requires { ((legal l ≡ true) × (l.l1 * l.l2 ≤ length row.now)) × Placed l (length y.now) cells }
    ensures { AllLose l y.now cells row.now → result ≡ true }
{
    for z in 0..12 {
        if cells.lost[z] > 0 {
            let at = recover::chunk_of(l, cells, z);
            if !cells::loses_just(l.nc, row[at], y, cells.place[z], cells.lost[z]) {
                return false;
            }
        }
    }
    true
}

// The one row that the checks leave, where a cell is open and there are at most as many open cells as checks. The test of its open
// cells is much quicker than that of the whole row, and most rows fail it.
fn add_recovered(
    l: Layout,
    y: &[u8],
    numbers: &[u16],
    cells: Cells,
    row: &mut [u8],
    cap: usize,
    list: &mut [u8],
    kept: Kept,
) -> Kept
    requires { (Given l numbers.now y.now × (l.l1 * l.l2 ≤ length row.old))
        × (Holding l numbers.now y.now cap list.old kept.count kept.more
        × (Placed l (length y.now) cells × ((0 < weight cells.lost) × (weight cells.lost ≤ l.r)))) }
    ensures { Grown l numbers.now y.now cap (Under l y.now cells row.old)
        list.old kept.count kept.more list.new result.count result.more
        × SameBut l (OpenAt cells) row.old row.new }
{
    let erased = recover::collect(l, cells);
    recover::recover(l, numbers, erased, row);
    if !all_lose(l, y, cells, row) {
        return kept;
    }
    found::add_row(l, y, numbers, row, cap, list, kept)
}

// How many cells are open.
fn open_cells(lost: [u8; 12]) -> usize
    ensures { (result ≡ weight lost) × (result ≤ 12) }
{
    lost.iter().filter(|a| **a > 0).count()
}

// The rows in which cell z, which is open, has the content v.
#[cycle(try_content_try_contents_try_each)]
fn try_content(
    l: Layout,
    y: &[u8],
    numbers: &[u16],
    cells: Cells,
    row: &mut [u8],
    z: usize,
    v: u8,
    cap: usize,
    list: &mut [u8],
    kept: Kept,
) -> Kept
    requires { (Given l numbers.now y.now × (l.l1 * l.l2 ≤ length row.old))
        × (Holding l numbers.now y.now cap list.old kept.count kept.more
        × (Placed l (length y.now) cells × Open cells z)) }
    ensures { Grown l numbers.now y.now cap (With l y.now cells row.old z v)
        list.old kept.count kept.more list.new result.count result.more
        × SameBut l (OpenAt cells) row.old row.new }
{
    let at = recover::chunk_of(l, cells, z);
    row[at] = v;
    let mut next = cells;
    next.lost[z] = 0;
    try_contents(l, y, numbers, next, row, cap, list, kept)
}

// Every content of cell z, which is open, that loses just its count and that its sums allow.
#[cycle(try_content_try_contents_try_each)]
fn try_each(
    l: Layout,
    y: &[u8],
    numbers: &[u16],
    cells: Cells,
    row: &mut [u8],
    z: usize,
    cap: usize,
    list: &mut [u8],
    kept: Kept,
) -> Kept
    requires { (Given l numbers.now y.now × (l.l1 * l.l2 ≤ length row.old))
        × (Holding l numbers.now y.now cap list.old kept.count kept.more
        × (Placed l (length y.now) cells × Open cells z)) }
    ensures { Grown l numbers.now y.now cap (Under l y.now cells row.old)
        list.old kept.count kept.more list.new result.count result.more
        × SameBut l (OpenAt cells) row.old row.new }
{
    let mut tried = [0; 256];
    let n = list_contents(l, y, numbers, cells, row, z, &mut tried);
    let mut held = kept;
    for v in &tried[..n] {
        held = try_content(l, y, numbers, cells, row, z, *v, cap, list, held);
    }
    held
}

// Every content of the open cells, cell by cell while there are more of them than checks; the others have one content only. Where no
// cell is open the row in hand is the only one.
#[cycle(try_content_try_contents_try_each)]
fn try_contents(
    l: Layout,
    y: &[u8],
    numbers: &[u16],
    cells: Cells,
    row: &mut [u8],
    cap: usize,
    list: &mut [u8],
    kept: Kept,
) -> Kept
    requires { (Given l numbers.now y.now × (l.l1 * l.l2 ≤ length row.old))
        × (Holding l numbers.now y.now cap list.old kept.count kept.more
        × Placed l (length y.now) cells) }
    ensures { Grown l numbers.now y.now cap (Under l y.now cells row.old)
        list.old kept.count kept.more list.new result.count result.more
        × SameBut l (OpenAt cells) row.old row.new }
{
    let open = open_cells(cells.lost);
    if open == 0 {
        return found::add_row(l, y, numbers, row, cap, list, kept);
    }
    if open <= l.r {
        return add_recovered(l, y, numbers, cells, row, cap, list, kept);
    }
    let z = choose(cells).unwrap();
    try_each(l, y, numbers, cells, row, z, cap, list, kept)
}

// Every fill of the open cells that meets all sums and checks is listed, where no block and no chunk-string has exactly one loss
// that is not mended.
pub fn fill(
    l: Layout,
    y: &[u8],
    numbers: &[u16],
    cells: Cells,
    row: &mut [u8],
    cap: usize,
    list: &mut [u8],
    kept: Kept,
) -> Kept
    requires { (Given l numbers.now y.now × (l.l1 * l.l2 ≤ length row.old))
        × (Holding l numbers.now y.now cap list.old kept.count kept.more
        × (Placed l (length y.now) cells × (NoSingle cells.block cells.lost
        × NoSingle cells.column cells.lost))) }
    ensures { Grown l numbers.now y.now cap (Under l y.now cells row.old)
        list.old kept.count kept.more list.new result.count result.more
        × SameBut l (OpenAt cells) row.old row.new }
{
    try_contents(l, y, numbers, cells, row, cap, list, kept)
}
