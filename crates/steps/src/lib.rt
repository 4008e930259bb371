// The steps over one column from a loss state: all loss states that a row can be at after it are found in one sweep over the choices of its
// heavy blocks, block by block, and their marks are raised. Contracts cite specs/Steps.antt.
#![tactic(auto)]

ghost use Rattle.std.specs.Prelude.{◌≡◌, true, List, ℕ, ◌+◌, ◌*◌, ◌<◌, ◌≤◌, length, get_or};
ghost use Rattle.bits.specs.Bits.{longest_line};
ghost use Rattle.states.specs.States.{each, most_states, state_of};
ghost use Rattle.windows.specs.Windows.{Tables};
ghost use Rattle.weigh.specs.Weigh.{chunk_top};
ghost use Rattle.column.specs.Column.{Fit, Light, Crosses, apart_in};
ghost use Rattle.choices.specs.Choices.{Fitted, other_of};
ghost use Rattle.steps.specs.Steps.{one_if, Counts, Counted, Above, Raises, Picks, Ground, Low, Stands, With, Ends, Gains};

use column::Heavy;
use message::Layout;
use states::Shape;
use weigh::Span;

// One for a mark, zero for none.
fn one_if(mark: u8) -> u16
    ensures { result ≡ one_if mark }
{
    u16::from(mark != 0)
}

// Counts of the marked states below each, of the marks from a place on.
pub fn count_marked(marks: &[u8], at: usize, states: usize, some: &mut [u16])
    requires { (at + states ≤ length marks.now) × ((states < length some.old) × (states ≤ most_states)) }
    ensures { (length some.new ≡ length some.old)
        × Counts marks.now at states some.new }
{
    some[0] = 0;
    for (q, mark) in marks[at..at + states].iter().enumerate() {
        some[q + 1] = some[q] + one_if(*mark);
    }
}

// A mark with so many chunks more; 255 where it would be more.
fn above(there: u8, apart: u8) -> u8
    ensures { Above there apart result }
{
    there.saturating_add(apart)
}

// Where a sweep stands: the number of the state that the choices picked so far add up to, what their chunks bring, and how many of these can
// be others than in z.
#[derive(Clone, Copy)]
pub struct Stand {
    pub q: usize,
    pub span: Span,
    pub apart: u8,
}

// Raises the fresh mark of the state at which a sweep ends, if it is marked and the chunks of the column can bring what is needed.
fn raise_one(
    modulus: usize,
    need: usize,
    there: u8,
    marks: &[u8],
    at: usize,
    stand: Stand,
    fresh: &mut [u8],
)
    requires { ((need < modulus) × (modulus ≤ longest_line + 1)) × ((stand.span.low ≤ 6 * chunk_top)
        × ((at + stand.q < length marks.now) × (stand.q < length fresh.old))) }
    ensures { Raises fresh.old fresh.new
        × Ends modulus need there marks.now at stand fresh.new }
{
    let q = stand.q;
    if marks[at + q] == 0 {
        return;
    }
    let v = above(there, stand.apart);
    if fresh[q] < v && weigh::reaches(modulus, need, stand.span) {
        fresh[q] = v;
    }
}

// Whether none of the states from low to high - 1 is marked.
fn none_marked(some: &[u16], low: usize, high: usize) -> bool
    requires { (low < length some.now) × (high < length some.now) }
    ensures { result ≡ true → get_or some.now high 0 ≤ get_or some.now low 0 }
{
    some[high] <= some[low]
}

// Where a sweep starts: nothing is picked.
fn start() -> Stand
    ensures { (result.q ≡ 0) × ((result.span.low ≡ 0) × ((result.span.high ≡ 0) × (result.apart ≡ 0))) }
{
    Stand {
        q: 0,
        span: Span { low: 0, high: 0 },
        apart: 0,
    }
}

// Where a sweep stands with choice t picked too.
fn with_choice(choices: &[u16], t: usize, stand: Stand) -> Stand
    requires { (4 * t + 4 ≤ length choices.now) × (Low stand × (other_of choices.now t ≤ 1)) }
    ensures { With choices.now t stand result }
{
    let at = 4 * t;
    Stand {
        q: stand.q + usize::from(choices[at]),
        span: Span {
            low: stand.span.low + usize::from(choices[at + 1]),
            high: stand.span.high + usize::from(choices[at + 2]),
        },
        apart: stand.apart + choices[at + 3] as u8,
    }
}

// Raises the marks of all states that can be come to where a sweep stands, with a choice picked for each block from s on: each choice of
// block s - 1 is picked. Where no block is left then, the mark is raised here, which spares the last call of each sweep.
fn sweep(
    choices: &[u16],
    from: &[usize; 7],
    shape: Shape,
    modulus: usize,
    need: usize,
    there: u8,
    marks: &[u8],
    at: usize,
    some: &[u16],
    s: usize,
    stand: Stand,
    fresh: &mut [u8],
)
    requires { Ground choices.now from.now shape modulus need marks.now at some.now fresh.old
        × Stands shape s stand }
    ensures { Raises fresh.old fresh.new × ((pick : ℕ → ℕ) → Picks from.now pick s
        → Gains choices.now modulus need there marks.now at s stand fresh.new pick) }
{
    if s == 0 {
        raise_one(modulus, need, there, marks, at, stand, fresh);
        return;
    }
    let b = s - 1;
    let one = shape.stride[b];
    for t in from[b]..from[s] {
        let next = with_choice(choices, t, stand);
        let q = next.q;
        if !none_marked(some, q, q + one) {
            if b == 0 {
                raise_one(modulus, need, there, marks, at, next, fresh);
            } else {
                sweep(
                    choices, from, shape, modulus, need, there, marks, at, some, b, next, fresh,
                );
            }
        }
    }
}

// Raises the fresh marks of all states after column j that are marked and that a row can come to from one state, which has so much left and
// this mark: by the mark and the chunks of the column that can be others than in z.
pub fn raise(
    l: Layout,
    y: &[u8],
    totals: &[u32],
    counts: &[u16],
    numbers: &[u16],
    heavy: Heavy,
    known: &[u16],
    z: &[u8],
    shape: Shape,
    j: usize,
    left: [u8; states::MOST_HEAVY],
    there: u8,
    marks: &[u8],
    at: usize,
    some: &[u16],
    fresh: &mut [u8],
)
    requires { (Fit l y.now numbers.now heavy × (Tables y.now 0 totals.now counts.now × ((j < l.l2)
        × ((l.l2 ≤ length known.now) × (l.l1 * l.l2 ≤ length z.now)))))
        × ((Fitted heavy shape left × Counted shape marks.now at some.now) × (shape.states ≤ length fresh.old)) }
    ensures { Raises fresh.old fresh.new × ((row vs : List ℕ) (next : ℕ → ℕ)
        → Light l heavy row known.now
        → Crosses l y.now numbers.now heavy row j (each left) next vs
        → 0 < get_or marks.now (at + state_of shape next) 0
        → Above there (apart_in l heavy z.now vs j heavy.n)
        (get_or fresh.new (state_of shape next) 0)) }
{
    let modulus = l.l1 * l.nc + 1;
    let need = column::missing(
        usize::from(numbers[l.l1 + j]),
        usize::from(known[j]),
        modulus,
    );
    let mut choices = [0; choices::NUMBERS];
    let from = choices::list_choices(l, y, totals, counts, heavy, z, shape, j, left, &mut choices);
    sweep(
        &choices,
        &from,
        shape,
        modulus,
        need,
        there,
        marks,
        at,
        some,
        heavy.n,
        start(),
        fresh,
    );
}
