// What the chunks of the heavy blocks in a column bring to the sum of their chunk-string where they are read whole, and whether the sum can
// come out with all of them read so but one, which lost a bit. Contracts cite specs/Whole.antt.
#![tactic(auto)]

ghost use Rattle.std.specs.Prelude.{◌≡◌, true, ℕ, ◌+◌, ◌-◌, ◌*◌, ◌%◌, ◌^◌, ◌<◌, ◌≤◌, length, get_or, take, drop};
ghost use Rattle.bits.specs.Bits.{AllBits, longest, longest_line, digits};
ghost use Rattle.vt.specs.Sum.{total};
ghost use Rattle.windows.specs.Windows.{Tables};
ghost use Rattle.consistent.specs.Greedy.{losses};
ghost use Rattle.states.specs.States.{lefts, each, entry_at, added_up};
ghost use Rattle.column.specs.Column.{Fit, Readable, start_at};
ghost use Rattle.whole.specs.Whole.{modulus, Source, Legible, brings, unread, Readings};

use column::Heavy;
use message::Layout;

// In place of what a chunk brings that cannot be read whole: more than a chunk brings.
pub const UNREAD: usize = 65535;

// What the next w bits from place p on bring to the total of a string in which so many positions stand before them.
fn weight(y: &[u8], totals: &[u32], counts: &[u16], p: usize, w: usize, before: usize) -> usize
    requires { (AllBits y.now × (length y.now ≤ longest)) × (Tables y.now 0 totals.now counts.now
        × ((p + w ≤ length y.now) × (before ≤ longest_line))) }
    ensures { (result ≡ total (before + 1) (take w (drop p y.now))) × (result ≤ before * w + w * w) }
{
    let seen = weigh::look(y, totals, counts, p, w);
    seen.total + before * seen.ones
}

// What the chunk of a block in column j brings to the total of its chunk-string, where it is read whole with e losses
// left in its block; UNREAD where it cannot be read so.
pub fn reading(
    l: Layout,
    y: &[u8],
    totals: &[u32],
    counts: &[u16],
    block: u8,
    end: u8,
    j: usize,
    e: usize,
) -> usize
    requires { Source l y.now totals.now counts.now block j × (e ≤ 255) }
    ensures { (Legible l (length y.now) block end j e
        → (result ≡ brings l y.now block end j e) × (result < unread)) × (result ≤ unread) }
{
    let left = e as u8;
    let p = column::place_of(l, y.len(), block, j, end, left, left);
    if !p.ok {
        return UNREAD;
    }
    weight(y, totals, counts, p.at, l.nc, usize::from(block) * l.nc)
}

// Puts what the chunk of heavy block s in column j brings into a table, for each number of losses left up to its size.
fn fill_block(
    l: Layout,
    y: &[u8],
    totals: &[u32],
    counts: &[u16],
    heavy: Heavy,
    size: u8,
    j: usize,
    s: usize,
    table: &mut [u16],
)
    requires { Source l y.now totals.now counts.now (get_or heavy.block s 0) j × ((s < 6) × ((size < lefts)
        × (entry_at s lefts ≤ length table.old))) }
    ensures { (length table.new ≡ length table.old)
        × (((i : ℕ) → i < entry_at s 0 → get_or table.new i 0 ≡ get_or table.old i 0)
        × ((e : ℕ) → e ≤ size → Legible l (length y.now) (get_or heavy.block s 0) (get_or heavy.end s 0) j e
        → get_or table.new (entry_at s e) 0
        ≡ brings l y.now (get_or heavy.block s 0) (get_or heavy.end s 0) j e)) }
{
    let block = heavy.block[s];
    let end = heavy.end[s];
    let at = s * states::LEFTS;
    for e in 0..=usize::from(size) {
        table[at + e] = reading(l, y, totals, counts, block, end, j, e) as u16;
    }
}

// Makes the table of what the chunks of the heavy blocks in column j bring, by the losses left in each.
pub fn fill(
    l: Layout,
    y: &[u8],
    totals: &[u32],
    counts: &[u16],
    numbers: &[u16],
    heavy: Heavy,
    size: [u8; states::MOST_HEAVY],
    j: usize,
    table: &mut [u16],
)
    requires { Fit l y.now numbers.now heavy × (Tables y.now 0 totals.now counts.now × ((j < l.l2)
        × (((s : ℕ) → s < heavy.n → get_or size s 0 < lefts) × (entry_at heavy.n 0 ≤ length table.old)))) }
    ensures { (length table.new ≡ length table.old)
        × Readings l y.now heavy size j table.new }
{
    for s in 0..heavy.n {
        fill_block(l, y, totals, counts, heavy, size[s], j, s, table);
    }
}

// What n blocks bring together where so many losses are left in each, as a table has it.
pub fn all(n: usize, left: [u8; states::MOST_HEAVY], table: &[u16]) -> usize
    requires { (n ≤ 6) × (((s : ℕ) → s < n → get_or left s 0 < lefts) × (entry_at n 0 ≤ length table.now)) }
    ensures { (result ≡ added_up table.now (each left) n) × (result ≤ n * unread) }
{
    let mut sum = 0;
    for (s, e) in left[..n].iter().enumerate() {
        sum += usize::from(table[s * states::LEFTS + usize::from(*e)]);
    }
    sum
}

// Whether the chunk of a block in column j can have lost one bit, with so many losses left before, and bring what is missing of the sum of its
// chunk-string; the other chunks bring rest.
#[tactic(auto, using(message::proofs::Legal::string_high))]
pub fn can_lose_one(
    l: Layout,
    y: &[u8],
    totals: &[u32],
    counts: &[u16],
    block: u8,
    end: u8,
    j: usize,
    left: u8,
    rest: usize,
    sum: usize,
) -> bool
    requires { Source l y.now totals.now counts.now block j × ((1 ≤ left) × (sum < modulus l)) }
    ensures { (v : ℕ) → v < 2 ^ l.nc
        → Readable l.nc (length y.now) (start_at l block j left) end left (left - 1)
        → losses (digits l.nc v) (drop (start_at l block j left - end) y.now) ≡ 1
        → (rest + total (block * l.nc + 1) (digits l.nc v)) % modulus l ≡ sum → result ≡ true }
{
    let nc = l.nc;
    let m = l.l1 * nc + 1;
    let p = column::place_of(l, y.len(), block, j, end, left, left - 1);
    if !p.ok {
        return false;
    }
    let need = column::missing(sum, rest % m, m);
    let mut blocks = [0; weigh::MOST];
    blocks[0] = block;
    let mut places = [0; weigh::MOST];
    places[0] = p.at;
    let mut lost = [0; weigh::MOST];
    lost[0] = 1;
    let chunks = weigh::Chunks {
        n: 1,
        block: blocks,
        place: places,
        lost,
    };
    weigh::can_bring(nc, m, y, totals, counts, chunks, need)
}
