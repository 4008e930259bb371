// A row as the numbers of its chunks, and the lines of chunks that have a sum: blocks and chunk-strings. Contracts cite
// specs/Lines.antt; strings are unpacked, one byte a bit.
#![tactic(auto)]

ghost use Rattle.std.specs.Prelude.{◌≡◌, true, List, ◌++◌, ℕ, ◌+◌, ◌-◌, ◌*◌, ◌<◌, ◌≤◌, length, get_or, take, drop};
ghost use Rattle.bits.specs.Bits.{AllBits, most_chunks, longest_line, number, digits};
ghost use Rattle.rows.specs.Deletion.{comes_from};
ghost use Rattle.vt.specs.Ones.{ones};
ghost use Rattle.vt.specs.Sum.{total, sum as sum_of};
ghost use Rattle.lines.specs.Lines.{line, Inside, Mendable};

use vt::{Weight, Weights};

// The nc bits of a chunk from a place of a slice on: those of a byte are put there at once.
fn put_chunk(nc: usize, v: u8, out: &mut [u8], at: usize)
    requires { (nc ≤ 8) × (at + nc ≤ length out.old) }
    ensures { out.new ≡ take at out.old ++ digits nc v ++ drop (at + nc) out.old }
{
    if nc == 8 {
        bits::unpack_byte(v, out, at);
        return;
    }
    for i in 0..nc {
        let shift = nc - 1 - i;
        out[at + i] = (v >> shift) % 2;
    }
}

// The bits of a line from a place of a slice on.
pub fn spread(
    nc: usize,
    start: usize,
    stride: usize,
    count: usize,
    vs: &[u8],
    out: &mut [u8],
    at: usize,
)
    requires { Inside nc start stride count (length vs.now) × (at + count * nc ≤ length out.old) }
    ensures { out.new
        ≡ take at out.old ++ line nc start stride count vs.now
        ++ drop (at + count * nc) out.old }
{
    for t in 0..count {
        put_chunk(nc, vs[start + t * stride], out, at + t * nc);
    }
}

// The total of the positions of a chunk's ones, where its first bit stands at a position. The chunk is the last nc bits of v.
pub fn chunk_total(weights: &Weights, nc: usize, v: u8, first: usize) -> usize
    requires { (nc ≤ 8) × ((1 ≤ first) × (first ≤ longest_line + 1)) }
    ensures { (result ≡ total first (digits nc v)) × (result ≤ 20000) }
{
    let ones = (bits::power(nc) - 1) as u8;
    message::chunks::chunk_total(weights, nc, v & ones, first)
}

// The total of the positions of a line's ones, chunk by chunk where they stand.
pub fn line_total(
    weights: &Weights,
    nc: usize,
    start: usize,
    stride: usize,
    count: usize,
    vs: &[u8],
) -> usize
    requires { Inside nc start stride count (length vs.now) }
    ensures { result ≡ total 1 (line nc start stride count vs.now) }
{
    let mut sum = 0;
    for t in 0..count {
        sum += chunk_total(weights, nc, vs[start + t * stride], t * nc + 1);
    }
    sum
}

// The sum of a line.
pub fn line_sum(nc: usize, start: usize, stride: usize, count: usize, vs: &[u8]) -> usize
    requires { Inside nc start stride count (length vs.now) }
    ensures { result ≡ sum_of (line nc start stride count vs.now) }
{
    let weights = Weights::new();
    line_total(&weights, nc, start, stride, count, vs) % (count * nc + 1)
}

// The chunk of nc bits whose positions have this total in the chunk itself, and from which the bits at hand come by one deletion.
fn put_back(nc: usize, whole: usize, bits: &[u8]) -> u8
    requires { ((length bits.now + 1 ≡ nc) × (nc ≤ 8)) × AllBits bits.now }
    ensures { (x : List ℕ) → AllBits x → comes_from x 1 bits.now ≡ true → total 1 x ≡ whole
        → result ≡ number nc x }
{
    let mut out = [0; 8];
    vt::mend_bits(whole % (nc + 1), bits, &mut out);
    message::chunks::number_at(&out[..nc], 0, nc)
}

// The chunk of nc bits that the bits at hand, which weigh so much, make with a bit that adds g to the total of their positions, the
// first of which is given. A 0 adds at most the number of their ones; a 1 adds at least that and the first position.
fn mend_chunk(nc: usize, first: usize, w: Weight, g: usize, bits: &[u8]) -> Option<u8>
    requires { (((length bits.now + 1 ≡ nc) × (nc ≤ 8)) × AllBits bits.now) × (((1 ≤ first)
        × (first ≤ longest_line) × (g ≤ longest_line))
        × ((w.total ≡ total 1 bits.now) × (w.ones ≡ ones bits.now))) }
    ensures { (x : List ℕ) → AllBits x → comes_from x 1 bits.now ≡ true
        → total first x ≡ total first bits.now + g → result ≡ Some (number nc x) }
{
    if g <= w.ones {
        return Some(put_back(nc, w.total + g, bits));
    }
    if g < first + w.ones || first + nc <= g {
        return None;
    }
    Some(put_back(nc, w.total + g + 1 - first, bits))
}

// A chunk that was mended in its line: whether it can be, and its number.
#[derive(Clone, Copy)]
pub struct Mended {
    pub ok: bool,
    pub value: u8,
}

// The chunk of a line that lost one bit: its sum says what the lost bit adds to the total of the line with the bits at hand, one
// short, in the chunk's place. Where no bit of the chunk adds just that, no row has the line.
pub fn mend_line(
    nc: usize,
    start: usize,
    stride: usize,
    count: usize,
    hole: usize,
    sum: usize,
    bits: &[u8],
    vs: &[u8],
) -> Mended
    requires { (Inside nc start stride count (length vs.now) × (length vs.now ≤ most_chunks))
        × ((hole < count) × (((length bits.now + 1 ≡ nc) × AllBits bits.now) × (sum ≤ count * nc))) }
    ensures { (us : List ℕ) → Mendable nc start stride count hole sum bits.now vs.now us
        → (result.ok ≡ true) × (result.value ≡ get_or us (start + hole * stride) 0) }
{
    let at = start + hole * stride;
    let before = hole * nc;
    let first = before + 1;
    let weights = Weights::new();
    let whole = line_total(&weights, nc, start, stride, count, vs);
    let own = chunk_total(&weights, nc, vs[at], first);
    let w = vt::weigh(bits);
    let short = whole - own + (before * w.ones + w.total);
    let g = vt::lacking(count * nc, sum, short);
    match mend_chunk(nc, first, w, g, bits) {
        Some(value) => Mended { ok: true, value },
        None => Mended {
            ok: false,
            value: 0,
        },
    }
}
