// Which rows are consistent with a message and a received row, and the tests that a search makes of a candidate. Contracts cite
// specs/Consistent.antt and specs/Greedy.antt; strings are unpacked, one byte a bit.
#![tactic(auto)]

ghost use Rattle.std.specs.Prelude.{◌≡◌, true, [], ◌∷◌, ◌++◌, ◌+◌, ◌-◌, ◌*◌, ◌<◌, ◌≤◌, length, get_or, take, drop};
ghost use Rattle.bits.specs.Bits.{AllBits, same};
ghost use Rattle.rows.specs.Deletion.{comes_from};
ghost use Rattle.message.specs.Chunks.{row_of};
ghost use Rattle.message.specs.Layout.{row_bits};
ghost use Rattle.message.specs.Message.{sums, checks};
ghost use Rattle.consistent.specs.Consistent.{candidate};
ghost use Rattle.consistent.specs.Greedy.{eat, losses};

use message::chunks::Row;
use message::layouts::Legal;

// The most bits that are compared at a time.
const PIECE: usize = 64;

// Where y goes on after a bit of x: one place further where the bit takes what stands at place j.
fn after_bit(b: u8, y: &[u8], j: usize) -> usize
    requires { j ≤ length y.now }
    ensures { (result ≤ length y.now) × ((eat (b ∷ []) (drop j y.now) ≡ drop result y.now)
        × (losses (b ∷ []) (drop j y.now) + result ≡ j + 1)) }
{
    if y.len() <= j {
        return j;
    }
    if y[j] != b {
        return j;
    }
    j + 1
}

// How many bits of y the string x takes, bit by bit from the left.
pub fn taken(x: &[u8], y: &[u8]) -> usize
    ensures { (result ≤ length y.now) × ((eat x.now y.now ≡ drop result y.now)
        × (losses x.now y.now + result ≡ length x.now)) }
{
    let mut j = 0;
    for b in x {
        j = after_bit(*b, y, j);
    }
    j
}

// Whether a piece is the first bits of y, which has as many. All bits are compared wherever one differs, so that the loop is done many
// bits at a time.
fn starts(p: &[u8], y: &[u8]) -> bool
    requires { length p.now ≤ length y.now }
    ensures { result ≡ true → p.now ≡ take (length p.now) y.now }
{
    let mut differ: u8 = 0;
    for (a, b) in p.iter().zip(y) {
        if *a != *b {
            differ = 1;
        }
    }
    differ == 0
}

// How many bits of y a piece takes: all its own where it is the first bits of y.
fn piece_taken(p: &[u8], y: &[u8]) -> usize
    ensures { (result ≤ length y.now)
        × (eat p.now y.now ≡ drop result y.now) }
{
    if p.len() <= y.len() && starts(p, y) {
        return p.len();
    }
    taken(p, y)
}

// Whether y comes from x by deleting bits, piece by piece.
pub fn comes(x: &[u8], y: &[u8]) -> bool
    ensures { result
        ≡ comes_from x.now (length x.now - length y.now) y.now }
{
    let mut at = 0;
    for piece in x.chunks(PIECE) {
        at += piece_taken(piece, &y[at..]);
    }
    at == y.len()
}

// Whether these numbers are the sums of a row.
fn sums_agree(row: &Row<'_>, numbers: &[u16]) -> bool
    requires { length numbers.now ≡ row.now.layout.l1 + row.now.layout.l2 }
    ensures { result ≡ same (sums row.now.layout (row_of row.now.layout.nc row.now.chunks.now)) numbers.now }
{
    let weights = vt::Weights::new();
    for (k, number) in numbers.iter().enumerate() {
        if row.sum(&weights, k) != usize::from(*number) {
            return false;
        }
    }
    true
}

// Whether bytes are these numbers, one by one.
fn equal(values: &[u8], numbers: &[u16]) -> bool
    requires { length values.now ≡ length numbers.now }
    ensures { result ≡ same values.now numbers.now }
{
    for (value, number) in values.iter().zip(numbers) {
        if u16::from(*value) != *number {
            return false;
        }
    }
    true
}

// Whether these numbers are the checks of a row.
fn checks_agree(row: &Row<'_>, numbers: &[u16]) -> bool
    requires { length numbers.now ≡ row.now.layout.r }
    ensures { result ≡ same (checks row.now.layout (row_of row.now.layout.nc row.now.chunks.now)) numbers.now }
{
    let mut values: [u8; 16] = [0; 16];
    row.fill_checks(&mut values);
    equal(&values[..row.layout.r], numbers)
}

// Whether these numbers, as they are read of a message, are the sums and the checks of a row.
fn row_agrees(row: &Row<'_>, numbers: &[u16]) -> bool
    requires { length numbers.now ≡ row.now.layout.l1 + row.now.layout.l2 + row.now.layout.r }
    ensures { result ≡ same (sums row.now.layout (row_of row.now.layout.nc row.now.chunks.now)
        ++ checks row.now.layout (row_of row.now.layout.nc row.now.chunks.now)) numbers.now }
{
    let n = row.layout.l1 + row.layout.l2;
    sums_agree(row, &numbers[..n]) && checks_agree(row, &numbers[n..])
}

// Whether these numbers, as they are read of a message, are the sums and the checks of the row with these bits: the row yields that
// message.
fn agrees(l: Legal, x: &[u8], numbers: &[u16]) -> bool
    requires { AllBits x.now × ((length x.now ≡ row_bits l.layout)
        × (length numbers.now ≡ l.layout.l1 + l.layout.l2 + l.layout.r)) }
    ensures { result ≡ same (sums l.layout x.now ++ checks l.layout x.now) numbers.now }
{
    let mut chunks: [u8; bits::MOST_CHUNKS] = [0; bits::MOST_CHUNKS];
    message::chunks::fill_chunks(l, x, &mut chunks);
    let layout = l.layout;
    let n = layout.l1 * layout.l2;
    let row = Row {
        layout,
        chunks: &chunks[..n],
    };
    row_agrees(&row, numbers)
}

// Whether a candidate is consistent with the received row y and the numbers of a message.
pub fn is_consistent(l: Legal, x: &[u8], y: &[u8], numbers: &[u16]) -> bool
    requires { AllBits x.now × ((length x.now ≡ row_bits l.layout)
        × (length numbers.now ≡ l.layout.l1 + l.layout.l2 + l.layout.r)) }
    ensures { result ≡ candidate l.layout numbers.now y.now x.now }
{
    comes(x, y) && agrees(l, x, numbers)
}
