// Heavy blocks whose losses are all shared out: whether the block's sum can come out. Such a block is known but for its short chunks, which
// are weighed as those of a chunk-string are. Contracts cite specs/Blocks.antt.
#![tactic(auto)]

ghost use Rattle.std.specs.Prelude.{◌≡◌, true, List, ℕ, ◌+◌, ◌*◌, ◌<◌, ◌≤◌, length, get_or, IfSome};
ghost use Rattle.bits.specs.Bits.{AllBits, longest, most_chunks};
ghost use Rattle.message.specs.Layout.{legal};
ghost use Rattle.windows.specs.Windows.{Tables};
ghost use Rattle.cells.specs.Cells.{Placed};
ghost use Rattle.blocks.specs.Blocks.{stands_in, is_in, bare, Longer, CutOut, Later, ReadOn, Ended};

use cells::Cells;
use message::Layout;

// Short chunks of one block, cut out of the row, and a column behind all of theirs.
#[derive(Clone, Copy)]
pub struct Cut {
    pub next: usize,
    pub chunks: weigh::Chunks,
}

// Whether a cell that lost so many bits in a block is open and stands in block i.
fn is_in(lost: u8, block: u8, i: usize) -> bool
    ensures { result ≡ stands_in lost block i }
{
    lost != 0 && usize::from(block) == i
}

// One chunk more, of column j. Chunks are weighed where they come in ascending columns and are not too many.
fn with_chunk(cut: Cut, j: u8, place: usize, lost: u8) -> Option<Cut>
    ensures { IfSome result (λ new. Longer cut j place lost new) }
{
    let mut chunks = cut.chunks;
    let n = chunks.n;
    let column = usize::from(j);
    if weigh::MOST <= n || column < cut.next {
        return None;
    }
    chunks.n = n + 1;
    chunks.block[n] = j;
    chunks.place[n] = place;
    chunks.lost[n] = lost;
    Some(Cut {
        next: column + 1,
        chunks,
    })
}

// Cell z, which is open and stands in block i, cut out of a row, in which a zero is left for it.
fn cut_cell(
    l: Layout,
    y: &[u8],
    cells: Cells,
    i: usize,
    z: usize,
    cut: Cut,
    row: &mut [u8],
) -> Option<Cut>
    requires { ((legal l ≡ true) × (i < l.l1))
        × (Placed l (length y.now) cells × ((z < 12) × ((is_in cells i z ≡ true) × (length row.old ≡ most_chunks)))) }
    ensures { (length row.new ≡ length row.old)
        × IfSome result (λ longer. CutOut l y.now cells i z cut
        → CutOut l y.now cells i (z + 1) longer
        × ((vs : List ℕ) → row.old ≡ bare l cells i z vs → row.new ≡ bare l cells i (z + 1) vs)) }
{
    let j = cells.column[z];
    let longer = with_chunk(cut, j, cells.place[z], cells.lost[z])?;
    row[i * l.l2 + usize::from(j)] = 0;
    Some(longer)
}

// The open cells of block i cut out of a row, in which a zero is left for each.
fn cut_out(l: Layout, y: &[u8], cells: Cells, i: usize, row: &mut [u8]) -> Option<Cut>
    requires { (legal l ≡ true) × ((i < l.l1) × (Placed l (length y.now) cells × (length row.old ≡ most_chunks))) }
    ensures { IfSome result (λ cut. CutOut l y.now cells i 12 cut × (row.new ≡ bare l cells i 12 row.old)) }
{
    let mut cut = Cut {
        next: 0,
        chunks: weigh::Chunks {
            n: 0,
            block: [0; weigh::MOST],
            place: [0; weigh::MOST],
            lost: [0; weigh::MOST],
        },
    };
    for z in 0..12 {
        if is_in(cells.lost[z], cells.block[z], i) {
            cut = cut_cell(l, y, cells, i, z, cut, row)?;
        }
    }
    Some(cut)
}

// The chunks of block i from column j on as they are read where no loss of the block is left, in a row; whether they are
// there.
fn read_on(l: Layout, y: &[u8], i: usize, end: u8, j: usize, row: &mut [u8]) -> bool
    requires { (legal l ≡ true)
        × (AllBits y.now × ((length y.now ≤ longest) × ((i < l.l1) × (length row.old ≡ most_chunks)))) }
    ensures { ReadOn l y.now i end j row.old row.new result }
{
    let nc = l.nc;
    let first = i * l.l2;
    let before = usize::from(end);
    for c in j..l.l2 {
        let at = (first + c) * nc;
        if at < before {
            return false;
        }
        let place = at - before;
        if y.len() < place + nc {
            return false;
        }
        row[first + c] = message::chunks::number_at(y, place, nc);
    }
    true
}

// Whether block i can have its sum, where its losses are all shared out before column j and end bits are lost up to its end. Its chunks
// are those in hand but for the open cells, and from column j on as they are read.
pub fn can_end(
    l: Layout,
    y: &[u8],
    totals: &[u32],
    counts: &[u16],
    numbers: &[u16],
    cells: Cells,
    row: &[u8],
    i: usize,
    end: u8,
    j: usize,
) -> bool
    requires { ((legal l ≡ true) × (AllBits y.now × (length y.now ≤ longest)))
        × (Tables y.now 0 totals.now counts.now
        × (Placed l (length y.now) cells × (((i < l.l1) × (l.l1 * l.l2 ≤ length row.now))
        × ((i < length numbers.now) × (get_or numbers.now i 0 ≤ l.l2 * l.nc))))) }
    ensures { (vs : List ℕ)
        → Ended l y.now numbers.now cells row.now i end j vs → result ≡ true }
{
    let mut out = [0; bits::MOST_CHUNKS];
    let first = i * l.l2;
    let behind = first + l.l2;
    out[first..behind].copy_from_slice(&row[first..behind]);
    if !read_on(l, y, i, end, j, &mut out) {
        return false;
    }
    let Some(cut) = cut_out(l, y, cells, i, &mut out) else {
        return true;
    };
    let modulus = l.l2 * l.nc + 1;
    let part = lines::line_sum(l.nc, first, 1, l.l2, &out);
    let need = column::missing(usize::from(numbers[i]), part, modulus);
    weigh::can_bring(l.nc, modulus, y, totals, counts, cut.chunks, need)
}
