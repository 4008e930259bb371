// The open cells recovered from the checks: at most as many erased chunks as there are checks have one content only.
// Contracts cite specs/Recover.antt, and the specs of found and of cells.
#![tactic(auto)]

ghost use Rattle.std.specs.Prelude.{◌≡◌, true, false, ℕ, ◌+◌, ◌*◌, ◌%◌, ◌^◌, ◌<◌, ◌≤◌, List, length, get_or};
ghost use Rattle.field.specs.Field.{Elements};
ghost use Rattle.field.specs.Tables.{powers, Logs};
ghost use Rattle.message.specs.Layout.{legal as isLegal};
ghost use Rattle.cells.specs.Cells.{chunk_of, SameBut, Under};
ghost use Rattle.found.specs.Found.{Given, Sent, InHand};
ghost use Rattle.recover.specs.Recover.{OpenInside, Among, ErasedAt, Spots, Collected, PutAt, Missing};

use cells::Cells;
use message::Layout;

// The most places of a row with checks: the largest field has so many powers of 2, one for each place.
const PLACES: usize = 255;

// The places of erased chunks, in row order counted from 0, each once.
#[derive(Clone, Copy)]
pub struct Erased {
    pub n: usize,
    pub places: [u8; 12],
}

// Whether a place is among the first n.
fn among(places: [u8; 12], n: usize, c: u8) -> bool
    requires { n ≤ 12 }
    ensures { (result ≡ true → Among n places c) × (result ≡ false → Among n places c → ⊥) }
{
    places[..n].contains(&c)
}

// The chunk of cell z, counted in row order.
pub fn chunk_of(l: Layout, cells: Cells, z: usize) -> usize
    requires { (isLegal l ≡ true) × ((z < 12)
        × ((get_or cells.block z 0 < l.l1) × (get_or cells.column z 0 < l.l2))) }
    ensures { (result ≡ chunk_of l cells z) × (result < l.l1 * l.l2) }
{
    let i = usize::from(cells.block[z]);
    let j = usize::from(cells.column[z]);
    i * l.l2 + j
}

// The place of cell z added, if the cell is open and the place is new.
fn add_cell(l: Layout, cells: Cells, z: usize, e: Erased) -> Erased
    requires { ((isLegal l ≡ true) × (0 < l.r)) × (OpenInside l cells
        × ((z < 12) × Collected l cells z e.n e.places)) }
    ensures { Collected l cells (z + 1) result.n result.places }
{
    let a = cells.lost[z];
    if a == 0 {
        return e;
    }
    let c = chunk_of(l, cells, z) as u8;
    if among(e.places, e.n, c) {
        return e;
    }
    let mut places = e.places;
    places[e.n] = c;
    Erased { n: e.n + 1, places }
}

// The places of all open cells. With checks each is a byte.
pub fn collect(l: Layout, cells: Cells) -> Erased
    requires { ((isLegal l ≡ true) × (0 < l.r)) × OpenInside l cells }
    ensures { Collected l cells 12 result.n result.places }
{
    let mut e = Erased {
        n: 0,
        places: [0; 12],
    };
    for z in 0..12 {
        e = add_cell(l, cells, z, e);
    }
    e
}

// Puts chunks at the erased places of a row.
fn put(row: &mut [u8], e: Erased, contents: [u8; 12])
    requires { (e.n ≤ 12) × Spots e.n (length row.old) e.places }
    ensures { PutAt e.n e.places contents row.old row.new }
{
    for (place, content) in e.places[..e.n].iter().zip(&contents) {
        row[usize::from(*place)] = *content;
    }
}

// Writes each number of a row as an element of the field.
fn reduce(nc: usize, row: &[u8], out: &mut [u8])
    requires { ((3 ≤ nc) × (nc ≤ 8)) × (length row.now ≤ length out.old) }
    ensures { (c : ℕ) → c < length row.now
        → get_or out.new c 0 ≡ get_or row.now c 0 % 2 ^ nc }
{
    let ones = field::order(nc) as u8;
    for (c, v) in row.iter().enumerate() {
        out[c] = *v & ones;
    }
}

// What is missing of each of the first n checks: the field sum of the check and that of the chunks.
fn missing(
    l: Layout,
    n: usize,
    t: &[u8; 498],
    logs: &[u8],
    numbers: &[u16],
    chunks: &[u8],
) -> [u8; 16]
    requires { ((isLegal l ≡ true) × (n ≤ l.r)) × (((t.now ≡ powers) × Logs l.nc logs.now
        × (length numbers.now ≡ l.l1 + l.l2 + l.r))
        × (Elements l.nc chunks.now × (length chunks.now < 2 ^ l.nc))) }
    ensures { Elements l.nc result × Missing l n numbers.now chunks.now result }
{
    let size = field::order(l.nc) + 1;
    let first = l.l1 + l.l2;
    let mut own = [0; 16];
    field::checks(t, l.nc, n, logs, chunks, &mut own);
    let mut out = [0; 16];
    for (i, number) in numbers[first..first + n].iter().enumerate() {
        out[i] = ((usize::from(*number) % size) as u8) ^ own[i];
    }
    out
}

// Puts into the row in hand, which is lent, the open cells recovered, whose places are those of e: the only contents that as many
// checks allow. It is for rows with checks, whose chunks are no more than the places of the field.
pub fn recover(l: Layout, numbers: &[u16], e: Erased, row: &mut [u8])
    requires { (isLegal l ≡ true) × ((length numbers.now ≡ l.l1 + l.l2 + l.r)
        × (((e.n ≤ 12) × ((0 < e.n) × (e.n ≤ l.r)))
        × (Spots e.n (l.l1 * l.l2) e.places × (l.l1 * l.l2 ≤ length row.old)))) }
    ensures { SameBut l (ErasedAt l e.n e.places) row.old row.new
        × ((cells : Cells) → Collected l cells 12 e.n e.places
        → (y x : List ℕ) → Given l numbers.now y → Sent l numbers.now y x
        → Under l y cells row.old x → InHand l row.new x) }
{
    let nc = l.nc;
    let t = field::table();
    let mut logs = [0; 256];
    field::fill_logs(&t, nc, &mut logs);
    put(row, e, [0; 12]);
    let count = l.l1 * l.l2;
    let mut base = [0; PLACES];
    reduce(nc, &row[..count], &mut base);
    let s = missing(l, e.n, &t, &logs, numbers, &base[..count]);
    let contents = erasures::solve(&t, nc, &logs, e.places, e.n, 0, s);
    put(row, e, contents);
}
