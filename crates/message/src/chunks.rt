// The chunks of a row as numbers, a byte each, and the sums and the checks of a row that is given so. Contracts cite
// specs/Layout.antt, specs/Chunks.antt and specs/Message.antt.
ghost use Rattle.std.specs.Prelude.{◌≡◌, true, ◌++◌, map, ◌+◌, ◌*◌, ◌^◌, ◌<◌, ◌≤◌, length, get_or, take, drop};
ghost use Rattle.bits.specs.Bits.{AllBits, most_in_line, longest_line, number, digits, unpack};
ghost use Rattle.vt.specs.Sum.{total, sum};
ghost use Rattle.field.specs.Field.{Elements};
ghost use Rattle.message.specs.Layout.{legal, row_bits, chunks as chunks_of};
ghost use Rattle.message.specs.Chunks.{row_of, Chunked, picked};
ghost use Rattle.message.specs.Message.{sums, checks};
ghost use Rattle.message.specs.Read.{fields};

use crate::Layout;
use crate::layouts::Legal;
use bits::BitCursor;
use vt::Weights;

// A row of a legal layout, as the numbers of its chunks in row order.
#[derive(Clone, Copy)]
pub struct Row<'a> {
    pub layout: Layout,
    pub chunks: &'a [u8],
    ghost is_legal: { legal layout ≡ true },
    ghost chunked: { Chunked layout chunks.now },
}

// The numbers of chunks of nc bits, from the start of packed bytes: as many as the slice has entries.
pub fn fill(s: &[u8], nc: usize, out: &mut [u8])
    requires { ((nc ≤ 8) × (length s.now ≤ 4096)) × (length out.old * nc ≤ length s.now * 8) }
    ensures { out.new ≡ fields (length out.old) nc (unpack s.now) }
{
    let mut c = BitCursor { at: 0 };
    for v in out.iter_mut() {
        let field = c.take(s, nc);
        *v = field.value as u8;
        c = field.next;
    }
}

// The number that the k bits from a place on spell: a byte is read at once.
pub fn number_at(bits: &[u8], at: usize, k: usize) -> u8
    requires { AllBits bits.now × ((k ≤ 8) × (at + k ≤ length bits.now)) }
    ensures { result ≡ number k (drop at bits.now) }
{
    if k == 8 {
        return bits::whole_byte(bits, at);
    }
    let mut v = 0;
    for b in &bits[at..at + k] {
        v = v * 2 + *b;
    }
    v
}

// The chunks of a row as numbers, in row order, at the start of a slice.
pub fn fill_chunks(l: Legal, row: &[u8], out: &mut [u8])
    requires { AllBits row.now
        × ((length row.now ≡ row_bits l.layout) × (l.layout.l1 * l.layout.l2 ≤ length out.old)) }
    ensures { out.new
        ≡ map (number l.layout.nc) (chunks_of l.layout row.now)
        ++ drop (l.layout.l1 * l.layout.l2) out.old }
{
    let Layout { l1, l2, nc, .. } = l.layout;
    for i in 0..l1 * l2 {
        out[i] = number_at(row, i * nc, nc);
    }
}

// The total of the positions of a chunk's ones, where its first bit stands at a position. The table has the chunk as a byte, in
// which its first bit stands at position 9 - nc.
pub fn chunk_total(weights: &Weights, nc: usize, v: u8, first: usize) -> usize
    requires { (nc ≤ 8) × ((v < 2 ^ nc) × ((1 ≤ first) × (first ≤ longest_line + 1))) }
    ensures { (result ≡ total first (digits nc v)) × (result ≤ 20000) }
{
    let w = weights.of(v);
    w.total + first * w.ones - (9 - nc) * w.ones
}

// The sum of a line of chunks: count of them, from a first one on, each stride after the last.
fn line_sum(
    weights: &Weights,
    nc: usize,
    chunks: &[u8],
    start: usize,
    stride: usize,
    count: usize,
) -> usize
    requires { ((nc ≤ 8) × Elements nc chunks.now) × (((count ≤ most_in_line) × (stride ≤ most_in_line))
        × ((count * nc ≤ longest_line) × (start + count * stride < length chunks.now + stride))) }
    ensures { result ≡ sum (row_of nc (picked start stride count chunks.now)) }
{
    let mut total = 0;
    for k in 0..count {
        total += chunk_total(weights, nc, chunks[start + k * stride], k * nc + 1);
    }
    total % (count * nc + 1)
}

impl Row<'_> {
    // Sum k of a row: the block sums come first, then the chunk-string sums.
    pub fn sum(&self, weights: &Weights, k: usize) -> usize
        requires { k < self.now.layout.l1 + self.now.layout.l2 }
        ensures { result ≡ get_or (sums self.now.layout (row_of self.now.layout.nc self.now.chunks.now)) k 0 }
    {
        let Layout { l1, l2, nc, .. } = self.layout;
        if k < l1 {
            return line_sum(weights, nc, self.chunks, k * l2, 1, l2);
        }
        line_sum(weights, nc, self.chunks, k - l1, l2, l1)
    }

    // The checks of a row at the start of a slice, if there are any; what stands behind them is free.
    pub fn fill_checks(&self, out: &mut [u8])
        requires { self.now.layout.r ≤ length out.old }
        ensures { take self.now.layout.r out.new
            ≡ checks self.now.layout (row_of self.now.layout.nc self.now.chunks.now) }
    {
        let Layout { nc, r, .. } = self.layout;
        if r == 0 {
            return;
        }
        let t = field::table();
        let mut logs: [u8; 256] = [0; 256];
        field::fill_logs(&t, nc, &mut logs);
        field::checks(&t, nc, r, &logs, self.chunks, out);
    }
}
