// What the chunk of each heavy block can be in a column, from a loss state, listed as choices. Contracts cite specs/Choices.antt.
#![tactic(auto)]

ghost use Rattle.std.specs.Prelude.{◌≡◌, true, ◌+◌, ◌-◌, ◌*◌, ◌<◌, ◌≤◌, length, get_or, IfSome, IsSome};
ghost use Rattle.states.specs.States.{stride, each};
ghost use Rattle.weigh.specs.Weigh.{chunk_top};
ghost use Rattle.column.specs.Column.{chunk_at, Readable};
ghost use Rattle.choices.specs.Choices.{Fitted, Seeable, Viewed, most_choices, Keeps, Put, ChoicesOf, Blocks};

use column::Heavy;
use message::Layout;
use states::Shape;
use weigh::Span;

// What is seen of a chunk that loses bits: where the bits start that it takes, their ones, and how many more ones it can have, at least and
// at most.
#[derive(Clone, Copy)]
pub struct View {
    pub at: usize,
    pub seen: weigh::Seen,
    pub first: usize,
    pub last: usize,
}

// The chunk of heavy block s in column j, if it loses a bits where so many are left and can be matched so.
fn look_at(
    l: Layout,
    y: &[u8],
    totals: &[u32],
    counts: &[u16],
    heavy: Heavy,
    j: usize,
    s: usize,
    left: u8,
    a: u8,
) -> Option<View>
    requires { Seeable l y.now totals.now counts.now heavy j × ((s < heavy.n) × (a ≤ left)) }
    ensures { IfSome result (λ view. Viewed l y.now heavy j s left a view)
        × (Readable l.nc (length y.now) (chunk_at l heavy j s * l.nc + left) (get_or heavy.end s 0) left
        (left - a) → IsSome result) }
{
    let p = column::place_of(l, y.len(), heavy.block[s], j, heavy.end[s], left, left - a);
    if !p.ok {
        return None;
    }
    let lost = usize::from(a);
    let w = l.nc - lost;
    let seen = weigh::look(y, totals, counts, p.at, w);
    let more = weigh::more_ones(y, totals, counts, p.at, w, lost);
    Some(View {
        at: p.at,
        seen,
        first: more.first,
        last: more.last,
    })
}

// The numbers of all choices: four for each. Each of six blocks has at most 45 of them: its chunk loses none to eight bits, and none to all
// of these are ones.
pub const NUMBERS: usize = 1080;

// Puts choice t: what it adds to the number of the state, what the chunk brings, and whether it can be another than in z.
fn put_choice(choices: &mut [u16], t: usize, adds: usize, span: Span, other: u8)
    requires { (4 * t + 4 ≤ length choices.old) × ((adds ≤ 65535) × ((span.low ≤ chunk_top) × (span.high ≤ chunk_top))) }
    ensures { Keeps t choices.old choices.new
        × Put t adds span other choices.new }
{
    let at = 4 * t;
    choices[at] = adds as u16;
    choices[at + 1] = span.low as u16;
    choices[at + 2] = span.high as u16;
    choices[at + 3] = u16::from(other);
}

// Lists the choices of heavy block b in column j, from choice t on, where so many losses are left and it loses a bits there: one for each
// number of ones that its chunk can have. A loss that is left adds `one` to the number of the state. It answers where the choices end.
fn list_share(
    l: Layout,
    y: &[u8],
    totals: &[u32],
    counts: &[u16],
    heavy: Heavy,
    z: &[u8],
    j: usize,
    b: usize,
    left: u8,
    a: u8,
    one: usize,
    choices: &mut [u16],
    t: usize,
) -> usize
    requires { (Seeable l y.now totals.now counts.now heavy j × (l.l1 * l.l2 ≤ length z.now))
        × ((b < heavy.n) × ((a ≤ left) × ((left * one ≤ 65535) × (a ≤ l.nc → 4 * (t + a + 1) ≤ length choices.old)))) }
    ensures { (Keeps t choices.old choices.new × ((result ≤ t + a + 1) × (l.nc < a → result ≡ t)))
        × ChoicesOf l y.now heavy z.now j b left one choices.new t result
        (λ next vs. left ≡ next b + a) }
{
    let Some(v) = look_at(l, y, totals, counts, heavy, j, b, left, a) else {
        return t;
    };
    let block = usize::from(heavy.block[b]);
    let other = column::other(l.nc, y, totals, counts, v.at, a, z[block * l.l2 + j]);
    let adds = usize::from(left - a) * one;
    let before = block * l.nc;
    let none = Span { low: 0, high: 0 };
    let mut end = t;
    for g in v.first..=v.last {
        let span = weigh::widen(l.nc, before, usize::from(a), v.seen, g, none);
        put_choice(choices, end, adds, span, other);
        end += 1;
    }
    end
}

// The same for all losses that it can have there.
fn list_block(
    l: Layout,
    y: &[u8],
    totals: &[u32],
    counts: &[u16],
    heavy: Heavy,
    z: &[u8],
    j: usize,
    b: usize,
    left: u8,
    one: usize,
    choices: &mut [u16],
    t: usize,
) -> usize
    requires { (Seeable l y.now totals.now counts.now heavy j × (l.l1 * l.l2 ≤ length z.now))
        × ((b < heavy.n) × ((left * one ≤ 65535) × (4 * (t + most_choices) ≤ length choices.old))) }
    ensures { (Keeps t choices.old choices.new × (result ≤ t + most_choices))
        × ChoicesOf l y.now heavy z.now j b left one choices.new t result
        (λ next vs. next b ≤ left) }
{
    let mut end = t;
    for a in 0..=left {
        end = list_share(
            l, y, totals, counts, heavy, z, j, b, left, a, one, choices, end,
        );
    }
    end
}

// The same for all heavy blocks, of which so much is left: it answers where the choices of each block begin, and where all end.
pub fn list_choices(
    l: Layout,
    y: &[u8],
    totals: &[u32],
    counts: &[u16],
    heavy: Heavy,
    z: &[u8],
    shape: Shape,
    j: usize,
    left: [u8; states::MOST_HEAVY],
    choices: &mut [u16],
) -> [usize; 7]
    requires { (Seeable l y.now totals.now counts.now heavy j × (l.l1 * l.l2 ≤ length z.now))
        × (Fitted heavy shape left × (4 * (6 * most_choices) ≤ length choices.old)) }
    ensures { (length choices.new ≡ length choices.old) × ((get_or result heavy.n 0 ≤ 6 * most_choices)
        × Blocks l y.now heavy z.now j (each left) (stride (each shape.size)) choices.new result
        heavy.n) }
{
    let mut from = [0; 7];
    for b in 0..heavy.n {
        from[b + 1] = list_block(
            l,
            y,
            totals,
            counts,
            heavy,
            z,
            j,
            b,
            left[b],
            shape.stride[b],
            choices,
            from[b],
        );
    }
    from
}
