// The contents of a chunk that lose just so many bits against the received row, listed bit by bit, so that most numbers are never
// looked at; and those of them that the sum of a line allows, where the rest of the line is in hand. Contracts cite
// specs/Contents.antt and specs/Asks.antt; strings are unpacked, one byte a bit.
#![tactic(auto)]

ghost use Rattle.std.specs.Prelude.{◌≡◌, ℕ, ◌+◌, ◌*◌, ◌^◌, ◌<◌, ◌≤◌, length, drop, set};
ghost use Rattle.bits.specs.Bits.{digits};
ghost use Rattle.vt.specs.Sum.{sum};
ghost use Rattle.consistent.specs.Greedy.{losses};
ghost use Rattle.lines.specs.Lines.{line, Inside};
ghost use Rattle.contents.specs.Asks.{Allows, Small};
ghost use Rattle.contents.specs.Contents.{Among, Ends, EndsAfter, Room, Gathered};

// Puts at entry n the content whose bits before the last `left` are those of v, and whose last ones lose no bit against y from place p
// on: they are the next ones of y, if there are so many. The answer is where the entries end.
fn follow(left: usize, v: u8, y: &[u8], p: usize, out: &mut [u8], n: usize) -> usize
    requires { Room left v n (length out.old) × (p ≤ length y.now) }
    ensures { Gathered (Ends left v 0 (drop p y.now)) (2 ^ left) n out.old result out.new }
{
    if y.len() - p < left {
        return n;
    }
    let mut whole = v;
    for b in &y[p..p + left] {
        if *b > 1 {
            return n;
        }
        whole = 2 * whole + *b;
    }
    out[n] = whole;
    n + 1
}

// Lists from entry n on the contents whose bits before the last `left` are those of v, and whose last ones lose just a bits against
// y from place p on. The answer is where the entries end.
#[cycle(gather_gather_bit)]
fn gather(left: usize, v: u8, y: &[u8], p: usize, a: usize, out: &mut [u8], n: usize) -> usize
    requires { Room left v n (length out.old) × (p ≤ length y.now) }
    ensures { Gathered (Ends left v a (drop p y.now)) (2 ^ left) n out.old result out.new }
{
    if left < a {
        return n;
    }
    if 0 < a {
        let rest = left - 1;
        let next = gather_bit(rest, 2 * v, 0, y, p, a, out, n);
        return gather_bit(rest, 2 * v + 1, 1, y, p, a, out, next);
    }
    follow(left, v, y, p, out, n)
}

// The same where the last bit of v, which is b, is not matched yet: it takes the next received bit if that is b too, and is lost
// otherwise.
#[cycle(gather_gather_bit)]
fn gather_bit(
    left: usize,
    v: u8,
    b: u8,
    y: &[u8],
    p: usize,
    a: usize,
    out: &mut [u8],
    n: usize,
) -> usize
    requires { Room left v n (length out.old) × (p ≤ length y.now) }
    ensures { Gathered (EndsAfter b left v a (drop p y.now)) (2 ^ left) n
        out.old result out.new }
{
    if p < y.len() && y[p] == b {
        return gather(left, v, y, p + 1, a, out, n);
    }
    if a == 0 {
        return n;
    }
    gather(left, v, y, p, a - 1, out, n)
}

// Lists from entry n on the contents of nc bits that lose just a bits against y from a place on; the answer is where the entries end.
pub fn list_behind(nc: usize, y: &[u8], place: usize, a: u8, out: &mut [u8], n: usize) -> usize
    requires { (nc ≤ 8) × ((place ≤ length y.now) × (n + 256 ≤ length out.old)) }
    ensures { Gathered (λ w. (w < 2 ^ nc) × (losses (digits nc w) (drop place y.now) ≡ a)) 256 n
        out.old result out.new }
{
    gather(nc, 0, y, place, usize::from(a), out, n)
}

// Lists them from the first entry on; the answer is how many there are.
pub fn contents(nc: usize, y: &[u8], place: usize, a: u8, out: &mut [u8]) -> usize
    requires { (nc ≤ 8) × ((place ≤ length y.now) × (256 ≤ length out.old)) }
    ensures { (result ≤ 256) × ((w : ℕ) → w < 2 ^ nc → losses (digits nc w) (drop place y.now) ≡ a
        → Among out.new 0 result w) }
{
    list_behind(nc, y, place, a, out, 0)
}

// What the sum of a line asks of one of its chunks: the sum of the rest of the line and the total of the chunk's positions, the
// first of which is given, are so much modulo a number.
#[derive(Clone, Copy)]
pub struct Ask {
    pub rest: usize,
    pub first: usize,
    pub modulus: usize,
    pub want: usize,
}

// What a line asks of which more than one chunk is not in hand: nothing.
pub fn anything() -> Ask
    ensures { Small result × ((nc v : ℕ) → Allows nc result v) }
{
    Ask {
        rest: 0,
        first: 1,
        modulus: 1,
        want: 0,
    }
}

// What a line with this sum asks of its chunk t, the others being those of the row in hand.
pub fn asked(
    nc: usize,
    start: usize,
    stride: usize,
    count: usize,
    t: usize,
    row: &[u8],
    want: usize,
) -> Ask
    requires { Inside nc start stride count (length row.now) × ((0 < stride) × (t < count)) }
    ensures { Small result × ((v : ℕ)
        → sum (line nc start stride count (set row.now (start + t * stride) v)) ≡ want → Allows nc result v) }
{
    let at = start + t * stride;
    let first = t * nc + 1;
    let modulus = count * nc + 1;
    let weights = vt::Weights::new();
    let own = lines::chunk_total(&weights, nc, row[at], first);
    let whole = lines::line_total(&weights, nc, start, stride, count, row);
    Ask {
        rest: (whole - own) % modulus,
        first,
        modulus,
        want,
    }
}

// Keeps of the first n contents those that a line allows, one by one; the answer is how many they are.
fn sift_each(nc: usize, a: Ask, out: &mut [u8], n: usize) -> usize
    requires { (nc ≤ 8) × (Small a × (n ≤ length out.old)) }
    ensures { (result ≤ n) × ((w : ℕ) → Among out.old 0 n w → Allows nc a w
        → Among out.new 0 result w) }
{
    let weights = vt::Weights::new();
    let mut k = 0;
    for i in 0..n {
        let v = out[i];
        if (a.rest + lines::chunk_total(&weights, nc, v, a.first)) % a.modulus == a.want {
            out[k] = v;
            k += 1;
        }
    }
    k
}

// Keeps of the first n contents those that a line allows; the answer is how many they are. A line that asks nothing allows all.
pub fn sift(nc: usize, a: Ask, out: &mut [u8], n: usize) -> usize
    requires { (nc ≤ 8) × (Small a × (n ≤ length out.old)) }
    ensures { (result ≤ n) × ((w : ℕ) → Among out.old 0 n w → Allows nc a w
        → Among out.new 0 result w) }
{
    if a.modulus == 1 {
        return n;
    }
    sift_each(nc, a, out, n)
}
