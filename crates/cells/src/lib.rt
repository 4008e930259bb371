// The short chunks of a loss table. Contracts cite specs/Cells.antt.
#![tactic(auto)]

ghost use Rattle.std.specs.Prelude.{◌≡◌, ◌<◌, ◌≤◌, eqb, length, drop};
ghost use Rattle.bits.specs.Bits.{digits};
ghost use Rattle.consistent.specs.Greedy.{losses};
ghost use Rattle.cells.specs.Cells.{share as shared, NoSingle, SingleAt};

// At most twelve short chunks: the block and the column of each, its losses, 0 where it is mended or where there is no such cell,
// and the place in the received row from which it is matched.
#[derive(Clone, Copy)]
pub struct Cells {
    pub n: usize,
    pub block: [u8; 12],
    pub column: [u8; 12],
    pub lost: [u8; 12],
    pub place: [usize; 12],
}

// The losses that are still open among the cells with this key, their block or their column. They are counted in 16 bits, so that
// the loop is done many cells at a time.
pub fn share(keys: [u8; 12], lost: [u8; 12], key: u8) -> usize
    ensures { result ≡ shared keys lost key }
{
    let mut total = 0;
    for (k, n) in keys.iter().zip(&lost) {
        if *k == key {
            total += u16::from(*n);
        }
    }
    usize::from(total)
}

// The first cell that has the only open loss of its key; 12 where there is none.
pub fn single(keys: [u8; 12], lost: [u8; 12]) -> usize
    ensures { (result ≤ 12) × ((result < 12 → SingleAt keys lost result) × (result ≡ 12 → NoSingle keys lost)) }
{
    for (z, key) in keys.iter().enumerate() {
        if lost[z] == 1 && share(keys, lost, *key) == 1 {
            return z;
        }
    }
    12
}

// Whether the chunk with number v loses just a bits against y from a place on.
pub fn loses_just(nc: usize, v: u8, y: &[u8], place: usize, a: u8) -> bool
    requires { (1 ≤ nc) × ((nc ≤ 8) × (place ≤ length y.now)) }
    ensures { result ≡ eqb (losses (digits nc v) (drop place y.now)) a }
{
    let mut bits = [0; 8];
    lines::spread(nc, 0, 1, 1, &[v], &mut bits, 0);
    let n = consistent::taken(&bits[..nc], &y[place..]);
    n + usize::from(a) == nc
}
