// What a search has found: the list slice as it grows. Contracts cite specs/Given.antt and specs/Sought.antt; strings of bits
// are unpacked, one byte a bit.
#![tactic(auto)]

ghost use Rattle.std.specs.Prelude.{◌≡◌, ◌*◌, ◌≤◌, length};
ghost use Rattle.rows.specs.Order.{Row};
ghost use Rattle.message.specs.Layout.{row_bits};
ghost use Rattle.consistent.specs.Query.{query};
ghost use Rattle.found.specs.Given.{Given, Sent, HoldsSent, AddsSent, InHand};

use message::Layout;
use message::layouts::Legal;
use rows::Kept;

// The most bytes of a packed row.
const BYTES: usize = (bits::LONGEST + 7) / 8;

// Adds a consistent row to the rows held, its bits being x.
fn add_sent(
    l: Layout,
    y: &[u8],
    numbers: &[u16],
    x: &[u8],
    cap: usize,
    list: &mut [u8],
    kept: Kept,
) -> Kept
    requires { Given (query l numbers.now y.now) × (Sent (query l numbers.now y.now) x.now
        × HoldsSent (query l numbers.now y.now) cap list.old kept) }
    ensures { AddsSent (query l numbers.now y.now) cap (λ z. z ≡ x.now)
        list.old kept list.new result }
{
    let mut bytes = [0; BYTES];
    bits::pack(x, &mut bytes);
    let w = x.len().div_ceil(8);
    rows::insert(list, kept, cap, &bytes[0..w])
}

// Adds the row whose bits are x, if it is consistent.
pub fn add_bits(
    l: Layout,
    y: &[u8],
    numbers: &[u16],
    x: &[u8],
    cap: usize,
    list: &mut [u8],
    kept: Kept,
) -> Kept
    requires { Given (query l numbers.now y.now) × (Row (row_bits l) x.now
        × HoldsSent (query l numbers.now y.now) cap list.old kept) }
    ensures { AddsSent (query l numbers.now y.now) cap (λ z. z ≡ x.now)
        list.old kept list.new result }
{
    if !consistent::is_consistent(Legal { layout: l }, x, y, numbers) {
        return kept;
    }
    add_sent(l, y, numbers, x, cap, list, kept)
}

// Adds the row in hand, which is lent as the numbers of its chunks, if it is consistent.
pub fn add_row(
    l: Layout,
    y: &[u8],
    numbers: &[u16],
    row: &[u8],
    cap: usize,
    list: &mut [u8],
    kept: Kept,
) -> Kept
    requires { Given (query l numbers.now y.now) × ((l.l1 * l.l2 ≤ length row.now)
        × HoldsSent (query l numbers.now y.now) cap list.old kept) }
    ensures { AddsSent (query l numbers.now y.now) cap (InHand l row.now)
        list.old kept list.new result }
{
    let mut x = [0; bits::LONGEST];
    let count = l.l1 * l.l2;
    let n = count * l.nc;
    lines::spread(l.nc, 0, 1, count, row, &mut x, 0);
    add_bits(l, y, numbers, &x[0..n], cap, list, kept)
}
