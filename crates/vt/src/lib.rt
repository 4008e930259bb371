// The sum of a string, and the one string that a sum and a string one bit short pick. Contracts cite specs/Sum.antt,
// specs/Ones.antt, specs/Weights.antt, specs/Places.antt, specs/Mend.antt and specs/Answer.antt; that exactly one string is
// picked is proved in proofs/Mending.antt.
#![tactic(auto)]

ghost use Rattle.std.specs.Prelude.{◌≡◌, ◌∷◌, ◌++◌, true, ◌+◌, ◌-◌, ◌*◌, ◌/◌, ◌%◌, ◌^◌, ◌<◌, ◌≤◌, length, take, drop};
ghost use Rattle.bits.specs.Bits.{AllBits, longest, digits, bytes, bytes_for, pack, unpack, fits};
ghost use Rattle.vt.specs.Sum.{total};
ghost use Rattle.vt.specs.Ones.{ones};
ghost use Rattle.vt.specs.Weights.{weights};
ghost use Rattle.vt.specs.Places.{Reach, PartOf};
ghost use Rattle.vt.specs.Mend.{mended, mend_refusal, mend_target};
ghost use Rattle.vt.specs.Answer.{answer_of};

use refusal::Refusal;

// What each byte weighs: the number of its ones, times 64, and the total of their positions, which is below 64.
const WEIGHTS: [u16; 256] = [
    0, 72, 71, 143, 70, 142, 141, 213, 69, 141, 140, 212, 139, 211, 210, 282, 68, 140, 139, 211,
    138, 210, 209, 281, 137, 209, 208, 280, 207, 279, 278, 350, 67, 139, 138, 210, 137, 209, 208,
    280, 136, 208, 207, 279, 206, 278, 277, 349, 135, 207, 206, 278, 205, 277, 276, 348, 204, 276,
    275, 347, 274, 346, 345, 417, 66, 138, 137, 209, 136, 208, 207, 279, 135, 207, 206, 278, 205,
    277, 276, 348, 134, 206, 205, 277, 204, 276, 275, 347, 203, 275, 274, 346, 273, 345, 344, 416,
    133, 205, 204, 276, 203, 275, 274, 346, 202, 274, 273, 345, 272, 344, 343, 415, 201, 273, 272,
    344, 271, 343, 342, 414, 270, 342, 341, 413, 340, 412, 411, 483, 65, 137, 136, 208, 135, 207,
    206, 278, 134, 206, 205, 277, 204, 276, 275, 347, 133, 205, 204, 276, 203, 275, 274, 346, 202,
    274, 273, 345, 272, 344, 343, 415, 132, 204, 203, 275, 202, 274, 273, 345, 201, 273, 272, 344,
    271, 343, 342, 414, 200, 272, 271, 343, 270, 342, 341, 413, 269, 341, 340, 412, 339, 411, 410,
    482, 131, 203, 202, 274, 201, 273, 272, 344, 200, 272, 271, 343, 270, 342, 341, 413, 199, 271,
    270, 342, 269, 341, 340, 412, 268, 340, 339, 411, 338, 410, 409, 481, 198, 270, 269, 341, 268,
    340, 339, 411, 267, 339, 338, 410, 337, 409, 408, 480, 266, 338, 337, 409, 336, 408, 407, 479,
    335, 407, 406, 478, 405, 477, 476, 548,
];

// What one pass over a string finds: the total of the positions of its ones, and their number.
#[derive(Clone, Copy)]
pub struct Weight {
    pub total: usize,
    pub ones: usize,
}

// The table as a local, to be lent: a constant that is read in place is copied at each read.
#[derive(Drop)]
pub struct Weights {
    table: [u16; 256],
    ghost is_table: { table ≡ weights },
}

impl Weights {
    // A copy of the table.
    pub fn new() -> Self {
        Weights { table: WEIGHTS }
    }

    // The total and the number of the ones of a byte.
    pub fn of(&self, b: u8) -> Weight
        ensures { ((result.total ≡ total 1 (digits 8 b)) × (result.total ≤ 36)) × ((result.ones ≡ ones (digits 8 b))
            × (result.ones ≤ 8)) }
    {
        let v = usize::from(self.table[usize::from(b)]);
        Weight {
            total: v % 64,
            ones: v / 64,
        }
    }
}

// The total and the number of the ones of packed bits.
fn weigh_bytes(weights: &Weights, s: &[u8]) -> Weight
    requires { length s.now * 8 ≤ longest }
    ensures { (result.total ≡ total 1 (unpack s.now)) × (result.ones ≡ ones (unpack s.now)) }
{
    let mut total = 0;
    let mut ones = 0;
    for (i, b) in s.iter().enumerate() {
        let w = weights.of(*b);
        total += i * 8 * w.ones + w.total;
        ones += w.ones;
    }
    Weight { total, ones }
}

// The total and the number of the ones.
pub fn weigh(bits: &[u8]) -> Weight
    requires { AllBits bits.now × (length bits.now ≤ longest) }
    ensures { (result.total ≡ total 1 bits.now) × (result.ones ≡ ones bits.now) }
{
    let mut total = 0;
    let mut ones = 0;
    for (i, bit) in bits.iter().enumerate() {
        let b = usize::from(*bit);
        total += (i + 1) * b;
        ones += b;
    }
    Weight { total, ones }
}

// Where a deleted bit goes back, and which bit it is.
#[derive(Clone, Copy)]
struct Place {
    at: usize,
    bit: u8,
}

// The place and the bit that add t to the total of a string, looked for in a part of it: so many bits come before the part, so
// many ones stand behind it, and count is the number of ones from the part on.
fn find_place(bits: &[u8], before: usize, behind: usize, t: usize, count: usize) -> Place
    requires { ((AllBits bits.now × (length bits.now ≤ longest)) × ((before ≤ longest) × (behind ≤ longest)))
        × ((count ≡ ones bits.now + behind) × ((behind ≤ t)
        × Reach (before + 1) t count (before + length bits.now + 1 + behind))) }
    ensures { ((result.at ≤ length bits.now) × (result.bit < 2))
        × ((before + result.at + 1) * result.bit + (ones (drop result.at bits.now) + behind) ≡ t) }
{
    let mut r = count;
    for (j, bit) in bits.iter().enumerate() {
        if t == r {
            return Place { at: j, bit: 0 };
        }
        if t == before + j + 1 + r {
            return Place { at: j, bit: 1 };
        }
        r -= usize::from(*bit);
    }
    let bit = if t == behind { 0 } else { 1 };
    Place {
        at: bits.len(),
        bit,
    }
}

// A string with a bit put in at a place, at the start of a slice.
fn put_in(bits: &[u8], at: usize, bit: u8, out: &mut [u8])
    requires { (at ≤ length bits.now) × (length bits.now + 1 ≤ length out.old) }
    ensures { out.new ≡ take at bits.now ++ (bit ∷ drop at bits.now)
        ++ drop (length bits.now + 1) out.old }
{
    out[..at].copy_from_slice(&bits[..at]);
    out[at] = bit;
    out[at + 1..bits.len() + 1].copy_from_slice(&bits[at..]);
}

// What a bit that is put in must add to a total, so that a string of w bits gets the sum s.
pub fn lacking(w: usize, s: usize, total: usize) -> usize
    requires { (w ≤ longest) × (s ≤ w) }
    ensures { (result ≤ w) × ((total + result) % (w + 1) ≡ s) }
{
    let m = w + 1;
    (s + m - total % m) % m
}

// The string that the sum s and a string one bit short pick, one byte a bit, at the start of a slice.
pub fn mend_bits(s: usize, bits: &[u8], out: &mut [u8])
    requires { (AllBits bits.now × (length bits.now < longest)) × ((s ≤ length bits.now + 1)
        × (length bits.now + 1 ≤ length out.old)) }
    ensures { out.new ≡ mended (length bits.now + 1) s bits.now
        ++ drop (length bits.now + 1) out.old }
{
    let w = weigh(bits);
    let t = lacking(bits.len() + 1, s, w.total);
    let p = find_place(bits, 0, 0, t, w.ones);
    put_in(bits, p.at, p.bit, out);
}

// The first check that applies to a length, a sum, packed bits and a target of so many bytes.
fn check(w: usize, s: usize, bits: &[u8], room: usize) -> Result<(), Refusal>
    ensures { answer_of result ≡ record { refusal = mend_refusal w s bits.now room; value = 0 } }
{
    if w < 1 || bits::LONGEST < w {
        return Err(Refusal::Layout);
    }
    if w < s {
        return Err(Refusal::Sum);
    }
    if !bits::fits(w - 1, bits) {
        return Err(Refusal::Packing);
    }
    if room < w.div_ceil(8) {
        return Err(Refusal::ShortTarget);
    }
    Ok(())
}

// A part of packed bits, within one byte: the byte, how many of its bits, the ones from its first bit on, and those behind it.
#[derive(Clone, Copy)]
struct Part {
    byte: usize,
    size: usize,
    ones: usize,
    behind: usize,
}

// The part of the first n of packed bits in which a bit that adds t has its place; count is the number of ones.
fn find_part(weights: &Weights, s: &[u8], n: usize, t: usize, count: usize) -> Part
    requires { ((fits n s.now ≡ true) × (n < longest))
        × ((count ≡ ones (unpack s.now)) × (t ≤ n + 1)) }
    ensures { PartOf n t (unpack s.now) result.byte result.size result.ones result.behind }
{
    let whole = n / 8;
    let mut r = count;
    for (i, b) in s[..whole].iter().enumerate() {
        let w = weights.of(*b);
        let behind = r - w.ones;
        if behind <= t && t <= i * 8 + 9 + behind {
            return Part {
                byte: i,
                size: 8,
                ones: r,
                behind,
            };
        }
        r = behind;
    }
    Part {
        byte: whole,
        size: n % 8,
        ones: r,
        behind: 0,
    }
}

// The place among the first n of packed bits, and the bit, that add t to their total; count is the number of ones.
fn find_packed(weights: &Weights, s: &[u8], n: usize, t: usize, count: usize) -> Place
    requires { ((fits n s.now ≡ true) × (n < longest))
        × ((count ≡ ones (unpack s.now)) × (t ≤ n + 1)) }
    ensures { ((result.at ≤ n) × (result.bit < 2))
        × ((result.at + 1) * result.bit + ones (drop result.at (unpack s.now)) ≡ t) }
{
    let part = find_part(weights, s, n, t, count);
    let byte = part.byte;
    let size = part.size;
    let mut cell = [0; 8];
    bits::unpack(&s[byte..], size, &mut cell);
    let p = find_place(&cell[..size], byte * 8, part.behind, t, part.ones);
    Place {
        at: byte * 8 + p.at,
        bit: p.bit,
    }
}

// A byte with a bit put in at a place, its last bit left out.
fn with_bit(b: usize, at: usize, bit: u8) -> u8
    requires { (b < 256) × ((at < 8) × (bit < 2)) }
    ensures { result ≡ b / 2 ^ (8 - at) * 2 ^ (8 - at) + (bit * 2 ^ (7 - at) + b / 2 % 2 ^ (7 - at)) }
{
    let high = bits::power(8 - at);
    let low = bits::power(7 - at);
    let v = b / high * high + (usize::from(bit) * low + b / 2 % low);
    v as u8
}

// Packed bits moved on by one, from a byte on: so many bytes in all, at their places in a slice.
fn move_on(s: &[u8], from: usize, count: usize, out: &mut [u8])
    requires { ((1 ≤ from) × ((from ≤ count) × (length s.now ≤ count))) × ((count ≤ length s.now + 1)
        × (count ≤ length out.old)) }
    ensures { out.new ≡ take from out.old
        ++ drop from (bytes count (0 ∷ unpack s.now)) ++ drop count out.old }
{
    for i in from..s.len() {
        out[i] = s[i - 1] % 2 * 128 + s[i] / 2;
    }
    let last = from.max(s.len());
    if last < count {
        out[last] = s[last - 1] % 2 * 128;
    }
}

// Packed bits with a bit put in at a place, in so many bytes at the start of a slice.
fn put_packed(s: &[u8], at: usize, bit: u8, count: usize, out: &mut [u8])
    requires { ((at ≤ length s.now * 8) × (bit < 2)) × (((at / 8 < count) × (length s.now ≤ count))
        × ((count ≤ length s.now + 1) × (count ≤ length out.old))) }
    ensures { out.new ≡ bytes count (take at (unpack s.now)
        ++ (bit ∷ drop at (unpack s.now))) ++ drop count out.old }
{
    let first = at / 8;
    for (i, b) in s[..first].iter().enumerate() {
        out[i] = *b;
    }
    out[first] = with_bit(bits::byte_at(s, first), at % 8, bit);
    move_on(s, first + 1, count, out);
}

// The mended string of packed bits, packed, at the start of a slice.
fn mend_packed(w: usize, s: usize, bits: &[u8], out: &mut [u8])
    requires { ((1 ≤ w) × (w ≤ longest)) × ((s ≤ w) × ((fits (w - 1) bits.now ≡ true)
        × (bytes_for w ≤ length out.old))) }
    ensures { out.new ≡ pack (mended w s (take (w - 1) (unpack bits.now)))
        ++ drop (bytes_for w) out.old }
{
    let weights = Weights::new();
    let weight = weigh_bytes(&weights, bits);
    let t = lacking(w, s, weight.total);
    let p = find_packed(&weights, bits, w - 1, t, weight.ones);
    put_packed(bits, p.at, p.bit, w.div_ceil(8), out);
}

// The string of length w with the sum s from which the packed bits come by one deletion, packed, at the start of a slice.
pub fn mend(w: usize, s: usize, bits: &[u8], out: &mut [u8]) -> Result<(), Refusal>
    ensures { (answer_of result
        ≡ record { refusal = mend_refusal w s bits.now (length out.old); value = 0 })
        × (out.new ≡ mend_target w s bits.now out.old) }
{
    check(w, s, bits, out.len())?;
    mend_packed(w, s, bits, out);
    Ok(())
}
