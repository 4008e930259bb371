// One block of a loss pattern: in which order its counts are tried, and the block tried with a count; with none or one loss it is put
// in the row in hand. Contracts cite specs/Pieces.antt; strings of bits are unpacked, one byte a bit.
#![tactic(auto)]

ghost use Rattle.std.specs.Prelude.{◌≡◌, true, ◌++◌, ◌+◌, ◌*◌, ◌<◌, ◌≤◌, length, get_or, take, drop};
ghost use Rattle.bits.specs.Bits.{AllBits};
ghost use Rattle.message.specs.Layout.{legal, block_bits};
ghost use Rattle.message.specs.Read.{fields};
ghost use Rattle.pieces.specs.Pieces.{count_at, has_its_sum, Tabled, Tried};

use message::Layout;

// Whether the counts of a block are to be tried from the most down. A lost bit is another than the next received bit: where
// that is 1, the rows that lose many bits early come first in dictionary order. With checks a row that is held leaves out
// those near it, and in rising order one is held sooner.
pub fn down_pays(checks: usize, rest: &[u8]) -> bool {
    checks == 0 && rest.first() == Some(&1)
}

// The count that is tried in a turn: they go from the first to the most, up or down.
pub fn count_at(first: usize, most: usize, down: bool, turn: usize) -> usize
    requires { (first ≤ turn) × (turn ≤ most) }
    ensures { result ≡ count_at first most down turn }
{
    if down { most - (turn - first) } else { turn }
}

// Whether at least nb bits remain and the next nb have the sum s.
fn has_sum(nb: usize, s: usize, rest: &[u8], totals: &[u32], counts: &[u16], p: usize) -> bool
    requires { AllBits rest.now × Tabled rest.now p totals.now counts.now }
    ensures { result ≡ has_its_sum nb s rest.now }
{
    nb <= rest.len() && windows::window_sum(rest, totals, counts, p, nb) == s
}

// The numbers of the l2 chunks of a block's bits, in block i of the row in hand.
fn put_block(nc: usize, l2: usize, bits: &[u8], row: &mut [u8], i: usize)
    requires { AllBits bits.now × ((nc ≤ 8) × ((length bits.now ≡ l2 * nc) × (i * l2 + l2 ≤ length row.old))) }
    ensures { row.new ≡ take (i * l2) row.old ++ fields l2 nc bits.now
        ++ drop (i * l2 + l2) row.old }
{
    let at = i * l2;
    for j in 0..l2 {
        row[at + j] = message::chunks::number_at(bits, j * nc, nc);
    }
}

// Block i, whose sum is s, without a loss: it is the next nb bits, where these have its sum.
fn whole_block(
    l: Layout,
    s: usize,
    i: usize,
    rest: &[u8],
    totals: &[u32],
    counts: &[u16],
    p: usize,
    row: &mut [u8],
) -> bool
    requires { (legal l ≡ true) × (AllBits rest.now × (Tabled rest.now p totals.now counts.now
        × (i * l.l2 + l.l2 ≤ length row.old))) }
    ensures { Tried l s i 0 rest.now row.old row.new result }
{
    let nb = l.l2 * l.nc;
    if !has_sum(nb, s, rest, totals, counts, p) {
        return false;
    }
    put_block(l.nc, l.l2, &rest[0..nb], row, i);
    true
}

// Block i, whose sum is s, with one loss: it is mended from the next nb - 1 bits. Where the next nb bits have its sum, one loss
// yields no row that zero losses don't also yield. Near the row's end fewer than nb bits remain, and one loss is still tried.
fn mended_block(
    l: Layout,
    s: usize,
    i: usize,
    rest: &[u8],
    totals: &[u32],
    counts: &[u16],
    p: usize,
    row: &mut [u8],
) -> bool
    requires { (legal l ≡ true) × (AllBits rest.now × (Tabled rest.now p totals.now counts.now
        × ((s ≤ block_bits l) × (i * l.l2 + l.l2 ≤ length row.old)))) }
    ensures { Tried l s i 1 rest.now row.old row.new result }
{
    let nb = l.l2 * l.nc;
    let short = nb - 1;
    if rest.len() < short {
        return false;
    }
    if has_sum(nb, s, rest, totals, counts, p) {
        return false;
    }
    let mut bits = [0; bits::LONGEST_LINE];
    vt::mend_bits(s, &rest[0..short], &mut bits);
    put_block(l.nc, l.l2, &bits[0..nb], row, i);
    true
}

// Whether block i can lose a bits against the rest of the received row. With none or one loss it is put in the row in hand.
pub fn try_block(
    l: Layout,
    numbers: &[u16],
    i: usize,
    a: usize,
    rest: &[u8],
    totals: &[u32],
    counts: &[u16],
    p: usize,
    row: &mut [u8],
) -> bool
    requires { (legal l ≡ true) × (AllBits rest.now × (Tabled rest.now p totals.now counts.now
        × ((i < length numbers.now) × ((get_or numbers.now i 0 ≤ block_bits l)
        × (i * l.l2 + l.l2 ≤ length row.old))))) }
    ensures { Tried l (get_or numbers.now i 0) i a rest.now row.old row.new result }
{
    let s = usize::from(numbers[i]);
    match a {
        0 => whole_block(l, s, i, rest, totals, counts, p, row),
        1 => mended_block(l, s, i, rest, totals, counts, p, row),
        _ => {
            let nb = l.l2 * l.nc;
            a <= nb && nb - a <= rest.len()
        }
    }
}
