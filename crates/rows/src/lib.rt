// Rows: all strings of n bits in dictionary order, those that pass a test, which strings come from which by deletion, and the
// bounded ordered list of packed rows in a slice. Contracts cite specs/Order.antt, specs/Held.antt and specs/Slice.antt.
#![tactic(auto)]

ghost use Rattle.std.specs.Prelude.{◌≡◌, [], ◌∷◌, ◌++◌, ◌+◌, ◌*◌, ◌-◌, ◌≤◌, length, take, drop};
ghost use Rattle.rows.specs.Order.{order, by_order, Ascending};
ghost use Rattle.rows.specs.Held.{add};
ghost use Rattle.bits.specs.Bits.{cut};
ghost use Rattle.rows.specs.Slice.{held_in, Written, place as placed};

use std::cmp::Ordering;

// How many rows the list slice holds, and whether more were found than fit.
#[derive(Clone, Copy)]
pub struct Kept {
    pub count: usize,
    pub more: bool,
}

// Whether the row at a place of the list slice comes before x, is x or comes after x.
#[tactic(auto, using(crate::proofs::Order::slices_compared))]
pub fn compare(list: &[u8], at: usize, x: &[u8]) -> Ordering
    requires { at + length x.now ≤ length list.now }
    ensures { result ≡ by_order (order (take (length x.now) (drop at list.now)) x.now) Ordering.Less Ordering.Equal Ordering.Greater }
{
    list[at..at + x.len()].cmp(x)
}

// How many of the rows held come before x.
pub fn place(list: &[u8], count: usize, x: &[u8]) -> usize
    requires { (count * length x.now ≤ length list.now) × Ascending (cut count (length x.now) list.now) }
    ensures { result ≡ placed x.now (cut count (length x.now) list.now) }
{
    let w = x.len();
    let mut low = 0;
    let mut high = count;
    while low < high {
        let mid = low + (high - low) / 2;
        if compare(list, mid * w, x) == Ordering::Less {
            low = mid + 1;
        } else {
            high = mid;
        }
    }
    low
}

// The bytes that are moved at a time.
const PIECE: usize = 64;

// A piece from one place on is moved up by w.
fn move_piece(list: &mut [u8], from: usize, w: usize)
    requires { from + 64 + w ≤ length list.old }
    ensures { list.new ≡ take (from + w) list.old
        ++ (take 64 (drop from list.old) ++ drop (from + 64 + w) list.old) }
{
    let end = from + PIECE;
    let mut held = [0; PIECE];
    held.copy_from_slice(&list[from..end]);
    list[from + w..end + w].copy_from_slice(&held);
}

// The bytes from one place to another are moved up by w, one by one.
fn move_bytes(list: &mut [u8], from: usize, to: usize, w: usize)
    requires { (from ≤ to) × ((to + w ≤ length list.old) × (1 ≤ w)) }
    ensures { list.new ≡ take (from + w) list.old
        ++ (take (to - from) (drop from list.old) ++ drop (to + w) list.old) }
{
    for i in (from..to).rev() {
        list[i + w] = list[i];
    }
}

// The bytes from one place to another are moved up by w: whole pieces from the last down, and what is left one by one.
fn move_up(list: &mut [u8], from: usize, to: usize, w: usize)
    requires { (from ≤ to) × ((to + w ≤ length list.old) × (1 ≤ w)) }
    ensures { list.new ≡ take (from + w) list.old
        ++ (take (to - from) (drop from list.old) ++ drop (to + w) list.old) }
{
    let mut i = to;
    while PIECE <= i - from {
        i -= PIECE;
        move_piece(list, i, w);
    }
    move_bytes(list, from, i, w);
}

// A row goes to a place of the list slice, and what stands from there up to another place moves up by one row.
fn put_row(list: &mut [u8], at: usize, to: usize, x: &[u8])
    requires { (at ≤ to) × ((to + length x.now ≤ length list.old) × (1 ≤ length x.now)) }
    ensures { list.new ≡ take at list.old ++ (x.now
        ++ (take (to - at) (drop at list.old) ++ drop (to + length x.now) list.old)) }
{
    let w = x.len();
    move_up(list, at, to, w);
    list[at..at + w].copy_from_slice(x);
}

// Adds the row x to the rows held: it goes to its place in the order, once; of a full list the last row is pushed out.
pub fn insert(list: &mut [u8], kept: Kept, cap: usize, x: &[u8]) -> Kept
    requires { (1 ≤ length x.now) × ((cap * length x.now ≤ length list.old) × ((kept.count ≤ cap)
        × Ascending (cut kept.count (length x.now) list.old))) }
    ensures { Written (length x.now)
        (add cap (held_in (length x.now) list.old kept.count kept.more) (x.now ∷ []))
        list.old list.new result.count result.more }
{
    let w = x.len();
    let count = kept.count;
    let more = kept.more;
    let at = place(list, count, x);
    if at < count && compare(list, at * w, x) == Ordering::Equal {
        return kept;
    }
    if count < cap {
        put_row(list, at * w, count * w, x);
        return Kept {
            count: count + 1,
            more,
        };
    }
    if at < cap {
        put_row(list, at * w, (cap - 1) * w, x);
    }
    Kept { count, more: true }
}
