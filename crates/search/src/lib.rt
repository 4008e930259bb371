// The search for all consistent rows: loss patterns, block by block. Contracts cite specs/Patterns.antt; one block is tried
// with a count in pieces.
#![tactic(auto)]

ghost use Rattle.std.specs.Prelude.{◌≡◌, false, ◌*◌, ◌-◌, ◌<◌, ◌≤◌, length, get_or, take};
ghost use Rattle.bits.specs.Bits.{bytes_for, most_chunks, most_in_line};
ghost use Rattle.message.specs.Layout.{row_bits, block_bits};
ghost use Rattle.consistent.specs.Consistent.{most_losses};
ghost use Rattle.consistent.specs.Greedy.{in_all};
ghost use Rattle.rows.specs.Slice.{rows_of_slice};
ghost use Rattle.windows.specs.Windows.{Tables};
ghost use Rattle.found.specs.Found.{Given, Holding, Grown, Listed};
ghost use Rattle.anchor.specs.Anchor.{Anchored};
ghost use Rattle.pieces.specs.Pieces.{Tabled};
ghost use Rattle.search.specs.Patterns.{Under, HeavyIn, Joined, Begun};

use cells::Cells;
use column::Heavy;
use message::Layout;
use rows::Kept;
use tables::Table;

// One count for each block, and their sum.
#[derive(Clone, Copy)]
pub struct Pattern {
    pub counts: [u8; bits::MOST_IN_LINE],
    pub total: usize,
}

// The heavy blocks of a pattern, and the losses of each.
#[derive(Clone, Copy)]
struct Heavies {
    heavy: Heavy,
    left: [u8; 6],
}

// One heavy block more: block i loses a bits, and up to its end so many are lost.
fn with_block(hs: Heavies, i: usize, a: u8, end: usize) -> Heavies
    requires { (hs.heavy.n < 6) × ((i < 256) × (end < 256)) }
    ensures { Joined hs.heavy hs.left i a end result.heavy result.left }
{
    let heavy = hs.heavy;
    let n = heavy.n;
    let mut block = heavy.block;
    block[n] = i as u8;
    let mut ends = heavy.end;
    ends[n] = end as u8;
    let mut left = hs.left;
    left[n] = a;
    let heavier = Heavy {
        n: n + 1,
        block,
        end: ends,
    };
    Heavies {
        heavy: heavier,
        left,
    }
}

// The blocks of a pattern with two losses or more. As all losses are at most twelve, these blocks are at most six.
fn heavy_of(l1: usize, pattern: Pattern) -> Heavies
    requires { (l1 ≤ most_in_line) × (in_all (take l1 pattern.counts) ≤ most_losses) }
    ensures { HeavyIn pattern.counts l1 result.heavy result.left }
{
    let none = Heavy {
        n: 0,
        block: [0; 6],
        end: [0; 6],
    };
    let mut hs = Heavies {
        heavy: none,
        left: [0; 6],
    };
    let mut end = 0;
    for i in 0..l1 {
        let a = pattern.counts[i];
        end += usize::from(a);
        if 2 <= a {
            hs = with_block(hs, i, a, end);
        }
    }
    hs
}

// The row in hand without heavy blocks is whole; with them, the loss tables share out their losses. Where there is an anchor, rows that
// differ from it in at most r chunks are known.
fn finish(
    l: Layout,
    y: &[u8],
    totals: &[u32],
    counts: &[u16],
    numbers: &[u16],
    pattern: Pattern,
    row: &mut [u8],
    desk: &[u8],
    cap: usize,
    list: &mut [u8],
    kept: Kept,
) -> Kept
    requires { Given l numbers.now y.now × (Holding l numbers.now y.now cap list.old kept.count kept.more
        × (((in_all (take l.l1 pattern.counts) ≤ most_losses) × (l.l1 * l.l2 ≤ length row.old))
        × (Tables y.now 0 totals.now counts.now
        × Anchored l numbers.now y.now (rows_of_slice (row_bits l) list.old kept.count kept.more) desk.now))) }
    ensures { Grown l numbers.now y.now cap
        (Under l y.now pattern.counts l.l1 row.old)
        list.old kept.count kept.more list.new result.count result.more }
{
    let hs = heavy_of(l.l1, pattern);
    let heavy = hs.heavy;
    if heavy.n == 0 {
        return found::add_row(l, y, numbers, row, cap, list, kept);
    }
    let left = hs.left;
    let cells = Cells {
        n: 0,
        block: [0; 12],
        column: [0; 12],
        lost: [0; 12],
        place: [0; 12],
    };
    let t = Table { left, cells };
    if anchor::is_set(desk) {
        let near = l.r + 1;
        let behind = 1 + bits::MOST_CHUNKS;
        return tables::tables(
            l,
            y,
            totals,
            counts,
            numbers,
            heavy,
            t,
            row,
            &desk[1..behind],
            near,
            cap,
            list,
            kept,
        );
    }
    let blank: [u8; bits::MOST_CHUNKS] = [0; bits::MOST_CHUNKS];
    tables::tables(
        l, y, totals, counts, numbers, heavy, t, row, &blank, 0, cap, list, kept,
    )
}

// The rows under a whole pattern: none where its losses are not all.
fn one_pattern(
    l: Layout,
    y: &[u8],
    totals: &[u32],
    counts: &[u16],
    numbers: &[u16],
    pattern: Pattern,
    row: &[u8],
    desk: &[u8],
    cap: usize,
    list: &mut [u8],
    kept: Kept,
) -> Kept
    requires { Given l numbers.now y.now × (Holding l numbers.now y.now cap list.old kept.count kept.more
        × (((length row.now ≡ most_chunks) × (pattern.total ≡ in_all (take l.l1 pattern.counts)))
        × (Tables y.now 0 totals.now counts.now
        × Anchored l numbers.now y.now (rows_of_slice (row_bits l) list.old kept.count kept.more) desk.now))) }
    ensures { Grown l numbers.now y.now cap
        (Under l y.now pattern.counts l.l1 row.now)
        list.old kept.count kept.more list.new result.count result.more }
{
    let k = l.l1 * l.l2 * l.nc - y.len();
    if pattern.total != k {
        return kept;
    }
    let mut hand = [0; bits::MOST_CHUNKS];
    hand.copy_from_slice(row);
    finish(
        l, y, totals, counts, numbers, pattern, &mut hand, desk, cap, list, kept,
    )
}

// The rows under the first counts of a pattern: each count that block i can lose is tried in turn, and the later blocks
// share out what is left; the last block takes all of it. The part of the received row that starts at block i is handed
// on, with its tables; those of the whole received row serve the loss tables. Where no row but the anchor can be under the
// first counts, or all rows under them come after the last row of a list that is full, nothing is tried; once a row is
// held, it becomes the anchor. Any order of the counts is right: the one that finds small rows early fills the list with
// rows that leave out more of the others.
fn patterns(
    l: Layout,
    y: &[u8],
    ytotals: &[u32],
    ycounts: &[u16],
    numbers: &[u16],
    rest: &[u8],
    totals: &[u32],
    counts: &[u16],
    later: usize,
    pattern: Pattern,
    row: &mut [u8],
    desk: &mut [u8],
    cap: usize,
    list: &mut [u8],
    kept: Kept,
) -> Kept
    requires { (Given l numbers.now y.now × Holding l numbers.now y.now cap list.old kept.count kept.more)
        × ((later ≤ l.l1) × (Begun l y.now rest.now pattern.counts row.old (l.l1 - later) pattern.total
        × ((Tables y.now 0 ytotals.now ycounts.now
        × Tabled rest.now ((l.l1 - later) * block_bits l - pattern.total) totals.now counts.now)
        × Anchored l numbers.now y.now (rows_of_slice (row_bits l) list.old kept.count kept.more) desk.old))) }
    ensures { Grown l numbers.now y.now cap
        (Under l y.now pattern.counts (l.l1 - later) row.old)
        list.old kept.count kept.more list.new result.count result.more
        × ((take ((l.l1 - later) * l.l2) row.new ≡ take ((l.l1 - later) * l.l2) row.old)
        × Anchored l numbers.now y.now (rows_of_slice (row_bits l) list.new result.count result.more) desk.new) }
{
    let i = l.l1 - later;
    let own = pattern.counts;
    if anchor::near_anchor(l, numbers, y, desk, &own, row, i) {
        return kept;
    }
    if floor::above(l, numbers, y, &own, row, i, cap, list, kept) {
        return kept;
    }
    if later == 0 {
        return one_pattern(
            l, y, ytotals, ycounts, numbers, pattern, row, desk, cap, list, kept,
        );
    }
    let nb = l.l2 * l.nc;
    let p = i * nb - pattern.total;
    let most = l.l1 * nb - y.len() - pattern.total;
    let mut first: usize = 0;
    if later == 1 {
        first = most;
    }
    let down = pieces::down_pays(l.r, rest);
    let mut k = kept;
    for turn in first..=most {
        let a = pieces::count_at(first, most, down, turn);
        if pieces::try_block(l, numbers, i, a, rest, totals, counts, p, row) {
            let mut next = pattern;
            next.counts[i] = a as u8;
            next.total = pattern.total + a;
            let from = nb - a;
            k = patterns(
                l,
                y,
                ytotals,
                ycounts,
                numbers,
                &rest[from..],
                &totals[from..],
                &counts[from..],
                later - 1,
                next,
                row,
                desk,
                cap,
                list,
                k,
            );
            anchor::set_anchor(l, y, numbers, cap, list, k, desk);
        }
    }
    k
}

// An anchor before the patterns, where the desk is long enough for one and the guess is right; the desk has none yet.
fn early_anchor(
    l: Layout,
    y: &[u8],
    numbers: &[u16],
    desk: &mut [u8],
    cap: usize,
    list: &mut [u8],
) -> Kept
    requires { Given l numbers.now y.now × ((cap * bytes_for (row_bits l) ≤ length list.old)
        × (get_or desk.old 0 0 ≡ 0)) }
    ensures { Grown l numbers.now y.now cap (λ x. ⊥)
        list.old 0 false list.new result.count result.more
        × Anchored l numbers.now y.now (rows_of_slice (row_bits l) list.new result.count result.more) desk.new }
{
    let none = Kept {
        count: 0,
        more: false,
    };
    if desk.len() < anchor::DESK {
        return none;
    }
    let kept = hint::guess(l, y, numbers, cap, list, none);
    anchor::set_anchor(l, y, numbers, cap, list, kept, desk);
    kept
}

// The prefixes of a received row: none of its bits, and each number of them up to all.
const PREFIXES: usize = bits::LONGEST + 1;

// All consistent rows, by their loss patterns. The tables of the received row are made once for all patterns; the desk has no
// anchor yet.
fn all_patterns(
    l: Layout,
    y: &[u8],
    numbers: &[u16],
    desk: &mut [u8],
    cap: usize,
    list: &mut [u8],
) -> Kept
    requires { Given l numbers.now y.now × ((cap * bytes_for (row_bits l) ≤ length list.old)
        × (get_or desk.old 0 0 ≡ 0)) }
    ensures { Listed l numbers.now y.now cap list.old list.new
        result.count result.more }
{
    let kept = early_anchor(l, y, numbers, desk, cap, list);
    let start = Pattern {
        counts: [0; bits::MOST_IN_LINE],
        total: 0,
    };
    let mut totals: [u32; PREFIXES] = [0; PREFIXES];
    let mut counts: [u16; PREFIXES] = [0; PREFIXES];
    windows::fill(y, &mut totals, &mut counts);
    let mut row: [u8; bits::MOST_CHUNKS] = [0; bits::MOST_CHUNKS];
    patterns(
        l, y, &totals, &counts, numbers, y, &totals, &counts, l.l1, start, &mut row, desk, cap,
        list, kept,
    )
}

// Whether an anchor is worth its preparation, with r checks and so many lost bits: without checks it leaves out only itself, and with one lost
// bit there is little to leave out.
fn anchor_pays(r: usize, lost: usize) -> bool {
    r > 0 && lost >= 2
}

// All consistent rows where bits were lost. Where an anchor does not pay, the desk is too short for it.
fn some_lost(l: Layout, y: &[u8], numbers: &[u16], cap: usize, list: &mut [u8]) -> Kept
    requires { Given l numbers.now y.now × (cap * bytes_for (row_bits l) ≤ length list.old) }
    ensures { Listed l numbers.now y.now cap list.old list.new
        result.count result.more }
{
    let lost = l.l1 * l.l2 * l.nc - y.len();
    if !anchor_pays(l.r, lost) {
        let mut short: [u8; 1] = [0; 1];
        return all_patterns(l, y, numbers, &mut short, cap, list);
    }
    let mut desk: [u8; anchor::DESK] = [0; anchor::DESK];
    all_patterns(l, y, numbers, &mut desk, cap, list)
}

// All consistent rows: the first of them, as many as fit, in the list slice. Where no bit is lost, only the received row can be one.
pub fn search(l: Layout, y: &[u8], numbers: &[u16], cap: usize, list: &mut [u8]) -> Kept
    requires { Given l numbers.now y.now × (cap * bytes_for (row_bits l) ≤ length list.old) }
    ensures { Listed l numbers.now y.now cap list.old list.new
        result.count result.more }
{
    if y.len() < l.l1 * l.l2 * l.nc {
        return some_lost(l, y, numbers, cap, list);
    }
    let none = Kept {
        count: 0,
        more: false,
    };
    found::add_bits(l, y, numbers, y, cap, list, none)
}
