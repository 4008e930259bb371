// What chunks that lost bits can bring to the sum of their line, a chunk-string or a block. Contracts cite specs/Weigh.antt.
#![tactic(auto)]

ghost use Rattle.std.specs.Prelude.{◌≡◌, true, ℕ, ◌+◌, ◌*◌, ◌-◌, ◌%◌, ◌<◌, ◌≤◌, length, take, drop};
ghost use Rattle.bits.specs.Bits.{AllBits, longest, longest_line};
ghost use Rattle.windows.specs.Windows.{Tables};
ghost use Rattle.weigh.specs.Weigh.{Can, brought, chunk_top, SeenIn, MoreOnes, There, Wider, Within, Weighable};

// The most chunks of a line that are weighed.
pub const MOST: usize = 6;

// Chunks of one line that are matched against the received row: of each its place in the line (`block`: the chunk's block in a
// chunk-string, its column in a block), where its bits start, and how many it lost.
#[derive(Clone, Copy)]
pub struct Chunks {
    pub n: usize,
    pub block: [u8; MOST],
    pub place: [usize; MOST],
    pub lost: [u8; MOST],
}

// The bits of a chunk that were received: the number of their ones, and the total of the positions of these, from 1.
#[derive(Clone, Copy)]
pub struct Seen {
    pub ones: usize,
    pub total: usize,
}

// Twice the least and twice the greatest that some chunks can bring.
#[derive(Clone, Copy)]
pub struct Span {
    pub low: usize,
    pub high: usize,
}

// Whether a chunk of nc bits that lost some has the others from a place of m bits on.
fn is_there(nc: usize, m: usize, place: usize, lost: usize) -> bool
    requires { m ≤ longest }
    ensures { (result ≡ true → There nc m place lost) × (There nc m place lost → result ≡ true) }
{
    lost <= nc && place <= m && nc - lost <= m - place
}

// The next w bits from place p on, from the tables.
pub fn look(y: &[u8], totals: &[u32], counts: &[u16], p: usize, w: usize) -> Seen
    requires { AllBits y.now × ((length y.now ≤ longest) × (Tables y.now 0 totals.now counts.now
        × (p + w ≤ length y.now))) }
    ensures { SeenIn (take w (drop p y.now)) w result }
{
    let ones = usize::from(counts[p + w] - counts[p]);
    let high = (totals[p + w] - totals[p]) as usize;
    Seen {
        ones,
        total: high - p * ones,
    }
}

// How many ones more than were received a chunk can have, at least and at most.
#[derive(Clone, Copy)]
pub struct Extra {
    pub first: usize,
    pub last: usize,
}

// A lost bit is another than the next one received: where the bits received and the next one are all zeros, each lost bit is a one, and
// where they are all ones, a zero.
pub fn more_ones(
    y: &[u8],
    totals: &[u32],
    counts: &[u16],
    place: usize,
    w: usize,
    lost: usize,
) -> Extra
    requires { AllBits y.now × ((length y.now ≤ longest) × (Tables y.now 0 totals.now counts.now
        × (place + w ≤ length y.now))) }
    ensures { MoreOnes y.now place w lost result.first result.last }
{
    let any = Extra {
        first: 0,
        last: lost,
    };
    if lost == 0 || y.len() <= place + w {
        return any;
    }
    let next = look(y, totals, counts, place, w + 1);
    if next.ones == 0 {
        Extra {
            first: lost,
            last: lost,
        }
    } else if next.ones == w + 1 {
        Extra { first: 0, last: 0 }
    } else {
        any
    }
}

// A span with one chunk more, which has so many positions before it and g ones more than were received: least, the lost
// ones stand in front of the received bits and the lost zeros behind; greatest, the other way round.
pub fn widen(nc: usize, before: usize, lost: usize, seen: Seen, g: usize, span: Span) -> Span
    requires { ((nc ≤ 8) × (before ≤ longest_line)) × (((seen.ones + lost ≤ nc) × ((seen.total ≤ 64) × (g ≤ lost)))
        × ((span.low ≤ 5 * chunk_top) × (span.high ≤ 5 * chunk_top))) }
    ensures { Wider nc before lost seen g span result }
{
    let whole = 2 * (before * (seen.ones + g) + seen.total);
    Span {
        low: span.low + whole + g * (2 * seen.ones + g + 1),
        high: span.high + whole + 2 * ((lost - g) * seen.ones) + g * (2 * nc + 1 - g),
    }
}

// Whether some number whose double lies in a span is, modulo the modulus, the one needed.
pub fn reaches(modulus: usize, need: usize, span: Span) -> bool
    requires { (need < modulus) × ((modulus ≤ longest_line + 1) × (span.low ≤ 6 * chunk_top)) }
    ensures { (n : ℕ) → span.low ≤ 2 * n → 2 * n ≤ span.high → n % modulus ≡ need → result ≡ true }
{
    let least = span.low / 2;
    let rest = least % modulus;
    let up = if rest <= need {
        need - rest
    } else {
        need + modulus - rest
    };
    least + up <= span.high / 2
}

// Whether the chunks from s on may bring what is needed, where those before it bring what lies in the span: each number
// of ones that chunk s can have is tried.
fn brings(
    nc: usize,
    modulus: usize,
    y: &[u8],
    totals: &[u32],
    counts: &[u16],
    chunks: Chunks,
    s: usize,
    need: usize,
    span: Span,
) -> bool
    requires { Weighable nc modulus y.now totals.now counts.now chunks need
        × ((s < chunks.n) × ((span.low ≤ s * chunk_top) × (span.high ≤ s * chunk_top))) }
    ensures { (vs : ℕ → ℕ) → Can nc y.now chunks vs → Within nc chunks vs s span
        → brought nc chunks.block vs chunks.n % modulus ≡ need → result ≡ true }
{
    let place = chunks.place[s];
    let lost = usize::from(chunks.lost[s]);
    if !is_there(nc, y.len(), place, lost) {
        return false;
    }
    let seen = look(y, totals, counts, place, nc - lost);
    let before = usize::from(chunks.block[s]) * nc;
    let more = more_ones(y, totals, counts, place, nc - lost, lost);
    for g in more.first..=more.last {
        let wider = widen(nc, before, lost, seen, g, span);
        let found = if s + 1 == chunks.n {
            reaches(modulus, need, wider)
        } else {
            brings(nc, modulus, y, totals, counts, chunks, s + 1, need, wider)
        };
        if found {
            return true;
        }
    }
    false
}

// Whether such chunks may bring what is needed, as far as the number of their ones and their least and greatest weights
// tell.
pub fn can_bring(
    nc: usize,
    modulus: usize,
    y: &[u8],
    totals: &[u32],
    counts: &[u16],
    chunks: Chunks,
    need: usize,
) -> bool
    requires { ((nc ≤ 8) × ((1 ≤ modulus) × (modulus ≤ longest_line + 1))) × (AllBits y.now × ((length y.now ≤ longest)
        × (Tables y.now 0 totals.now counts.now × ((chunks.n ≤ 6) × (need < modulus))))) }
    ensures { (vs : ℕ → ℕ) → Can nc y.now chunks vs
        → brought nc chunks.block vs chunks.n % modulus ≡ need → result ≡ true }
{
    if chunks.n == 0 {
        return need == 0;
    }
    brings(
        nc,
        modulus,
        y,
        totals,
        counts,
        chunks,
        0,
        need,
        Span { low: 0, high: 0 },
    )
}
