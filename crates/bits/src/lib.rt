// Strings of bits: packed into bytes, unpacked to one byte a bit, read field by field through a bit cursor, and put into bytes
// field by field through a filler, both passed by value. Contracts cite specs/Bits.antt and specs/Filling.antt.
#![tactic(auto)]

ghost use Rattle.std.specs.Prelude.{◌≡◌, ◌++◌, ◌+◌, ◌-◌, ◌*◌, ◌/◌, ◌%◌, ◌^◌, ◌<◌, ◌≤◌, length, take, drop, get_or};
ghost use Rattle.bits.specs.Filling.{filled, Ready, Goes};
ghost use Rattle.bits.specs.Bits.{AllBits, longest, number, digits, bytes, bytes_for, pack as packed, unpack as unpacked, fits as fit};

// The most bits of a string: a row, received bits, a string to be mended.
pub const LONGEST: usize = 2040;

// The most chunks of a row.
pub const MOST_CHUNKS: usize = 255;

// The most chunks of a line, that is blocks of a row or chunks of a block: each count is a byte of the message.
pub const MOST_IN_LINE: usize = 255;

// The most bits of a line, that is of a block or of a chunk-string: as many chunks of at most 8 bits.
pub const LONGEST_LINE: usize = 2040;

// 2 to the power k.
pub fn power(k: usize) -> usize
    requires { k ≤ 16 }
    ensures { result ≡ 2 ^ k }
{
    1 << k
}

// Bit i of packed bytes.
fn bit_at(s: &[u8], i: usize) -> u8
    requires { i < length s.now * 8 }
    ensures { result ≡ get_or (unpacked s.now) i 0 }
{
    let b = s[i / 8];
    let shift = 7 - i % 8;
    (b >> shift) % 2
}

// The eight bits of a byte, one byte a bit, from a place of a slice on.
pub fn unpack_byte(b: u8, out: &mut [u8], at: usize)
    requires { at + 8 ≤ length out.old }
    ensures { out.new ≡ take at out.old ++ digits 8 b ++ drop (at + 8) out.old }
{
    out[at] = b / 128 % 2;
    out[at + 1] = b / 64 % 2;
    out[at + 2] = b / 32 % 2;
    out[at + 3] = b / 16 % 2;
    out[at + 4] = b / 8 % 2;
    out[at + 5] = b / 4 % 2;
    out[at + 6] = b / 2 % 2;
    out[at + 7] = b % 2;
}

// The first n bytes of a slice, one byte a bit, at the start of another.
fn unpack_bytes(s: &[u8], n: usize, out: &mut [u8])
    requires { (n ≤ length s.now) × (n * 8 ≤ length out.old) }
    ensures { out.new ≡ take (n * 8) (unpacked s.now) ++ drop (n * 8) out.old }
{
    for (i, b) in s[..n].iter().enumerate() {
        unpack_byte(*b, out, i * 8);
    }
}

// The bits of packed bytes from one place up to another, one byte a bit, at the same places of a slice.
fn unpack_part(s: &[u8], from: usize, to: usize, out: &mut [u8])
    requires { (from ≤ to) × ((to ≤ length s.now * 8) × (to ≤ length out.old)) }
    ensures { out.new
        ≡ take from out.old ++ take (to - from) (drop from (unpacked s.now))
        ++ drop (from + (to - from)) out.old }
{
    for i in 0..to - from {
        out[from + i] = bit_at(s, from + i);
    }
}

// The first w bits of packed bytes, one byte a bit, at the start of a slice.
pub fn unpack(s: &[u8], w: usize, out: &mut [u8])
    requires { (w ≤ length s.now * 8) × (w ≤ length out.old) }
    ensures { out.new ≡ take w (unpacked s.now) ++ drop w out.old }
{
    let n = w / 8;
    unpack_bytes(s, n, out);
    unpack_part(s, n * 8, w, out);
}

// The next four bits of a string as a number, with no loop: their four bytes as one number, the last highest, times
// 2 ^ 27 + 2 ^ 18 + 2 ^ 9 + 1 have the bits side by side from place 27 down to 24.
fn four_bits(bits: &[u8], at: usize) -> usize
    requires { AllBits bits.now × (at + 4 ≤ length bits.now) }
    ensures { (result ≡ number 4 (drop at bits.now)) × (result < 16) }
{
    let low = usize::from(bits[at]) + usize::from(bits[at + 1]) * 256;
    let high = usize::from(bits[at + 2]) + usize::from(bits[at + 3]) * 256;
    (low + high * 65536) * 134480385 / 16777216 % 16
}

// The next eight bits of a string, as a byte.
pub fn whole_byte(bits: &[u8], at: usize) -> u8
    requires { AllBits bits.now × (at + 8 ≤ length bits.now) }
    ensures { result ≡ number 8 (drop at bits.now) }
{
    (four_bits(bits, at) * 16 + four_bits(bits, at + 4)) as u8
}

// The same near the end of a string: past the end stands 0.
fn last_byte(bits: &[u8], at: usize) -> u8
    requires { AllBits bits.now × (at < length bits.now) }
    ensures { result ≡ number 8 (drop at bits.now) }
{
    let rest = &bits[at..];
    let mut v = 0;
    for j in 0..8 {
        v = v * 2 + byte_at(rest, j);
    }
    v as u8
}

// The first n whole bytes of a string, at the start of a slice.
fn pack_bytes(bits: &[u8], n: usize, out: &mut [u8])
    requires { AllBits bits.now × ((n * 8 ≤ length bits.now) × (n ≤ length out.old)) }
    ensures { out.new ≡ bytes n bits.now ++ drop n out.old }
{
    for (i, b) in out[..n].iter_mut().enumerate() {
        *b = whole_byte(bits, i * 8);
    }
}

// A string, packed, at the start of a slice.
pub fn pack(bits: &[u8], out: &mut [u8])
    requires { AllBits bits.now
        × ((length bits.now ≤ longest) × (bytes_for (length bits.now) ≤ length out.old)) }
    ensures { out.new
        ≡ packed bits.now ++ drop (bytes_for (length bits.now)) out.old }
{
    let n = bits.len() / 8;
    pack_bytes(bits, n, out);
    if n * 8 < bits.len() {
        out[n] = last_byte(bits, n * 8);
    }
}

// Whether the bytes are just those that w bits need, with no spare bit 1.
pub fn fits(w: usize, s: &[u8]) -> bool
    requires { w ≤ longest }
    ensures { result ≡ fit w s.now }
{
    let n = w.div_ceil(8);
    if s.len() != n {
        return false;
    }
    let spare = BitCursor { at: w }.take(s, n * 8 - w);
    spare.value == 0
}

// A byte of a slice; past the end stands 0.
pub fn byte_at(s: &[u8], i: usize) -> usize
    ensures { (result ≡ get_or s.now i 0) × (result < 256) }
{
    s.get(i).map_or(0, |b| usize::from(*b))
}

// Four bytes from a place on, as a number.
fn four_bytes(s: &[u8], i: usize) -> usize
    requires { i + 4 ≤ length s.now }
    ensures { (result ≡ number 32 (drop (i * 8) (unpacked s.now))) × (result < 2 ^ 32) }
{
    u32::from_be_bytes([s[i], s[i + 1], s[i + 2], s[i + 3]]) as usize
}

// The first four bytes as a number; past the end stands 0.
fn first_bytes(s: &[u8]) -> usize
    ensures { (result ≡ number 32 (unpacked s.now)) × (result < 2 ^ 32) }
{
    byte_at(s, 0) * 16777216 + byte_at(s, 1) * 65536 + byte_at(s, 2) * 256 + byte_at(s, 3)
}

// Bits on their way into packed bytes: so many bytes are whole, and the bits behind them are held as a number.
#[derive(Clone, Copy)]
pub struct Filler {
    pub at: usize,
    pub held: usize,
    pub count: usize,
}

impl Filler {
    // v as k binary digits behind the bits that were taken, whole bytes of them at their place in a slice.
    pub fn put(self, out: &mut [u8], k: usize, v: usize) -> Filler
        requires { ((k ≤ 16) × Ready self) × (self.at * 8 + self.count + k ≤ length out.old * 8) }
        ensures { Goes self out.old (digits k v) result out.new }
    {
        let size = power(k);
        let all = self.held * size + v % size;
        let mut at = self.at;
        let mut count = self.count + k;
        while 8 <= count {
            count -= 8;
            out[at] = ((all >> count) % 256) as u8;
            at += 1;
        }
        Filler {
            at,
            held: all % power(count),
            count,
        }
    }

    // The last bits in a byte of their own, with zeros behind them.
    pub fn end(self, out: &mut [u8])
        requires { Ready self × (self.at * 8 + self.count ≤ length out.old * 8) }
        ensures { out.new
            ≡ packed (filled self out.old)
            ++ drop (bytes_for (self.at * 8 + self.count)) out.old }
    {
        let at = self.at;
        let count = self.count;
        if 0 < count {
            out[at] = (self.held * power(8 - count)) as u8;
        }
    }
}

// A place among bits.
#[derive(Clone, Copy)]
pub struct BitCursor {
    pub at: usize,
}

// A field that was read, and the cursor after it.
#[derive(Clone, Copy)]
pub struct Field {
    pub value: u16,
    pub next: BitCursor,
}

// The field of k bits that has so many bits behind it in four bytes, and the cursor at its end.
fn cut(held: usize, behind: usize, k: usize, end: usize) -> Field
    requires { (k ≤ 16) × (behind ≤ 32) }
    ensures { (result.value ≡ held / 2 ^ behind % 2 ^ k) × (result.next.at ≡ end) }
{
    let value = (held >> behind) % power(k);
    Field {
        value: value as u16,
        next: BitCursor { at: end },
    }
}

impl BitCursor {
    // The next k bits of packed bytes, at least four bytes, as a number, and the cursor after them.
    pub fn take_long(self, s: &[u8], k: usize) -> Field
        requires { ((k ≤ 16) × (4 ≤ length s.now)) × ((length s.now ≤ 4096) × (self.at + k ≤ length s.now * 8)) }
        ensures { (result.value ≡ number k (drop self.at (unpacked s.now)))
            × (result.next.at ≡ self.at + k) }
    {
        let at = self.at;
        let end = at + k;
        // the first of the four bytes in which the field lies: its own first byte, or the fourth from the end where that
        // comes first
        let i = (at / 8).min(s.len() - 4);
        cut(four_bytes(s, i), (i + 4) * 8 - end, k, end)
    }

    // The same of any packed bytes.
    pub fn take(self, s: &[u8], k: usize) -> Field
        requires { (k ≤ 16) × ((length s.now ≤ 4096) × (self.at + k ≤ length s.now * 8)) }
        ensures { (result.value ≡ number k (drop self.at (unpacked s.now)))
            × (result.next.at ≡ self.at + k) }
    {
        if 4 <= s.len() {
            return self.take_long(s, k);
        }
        let end = self.at + k;
        cut(first_bytes(s), 32 - end, k, end)
    }
}
