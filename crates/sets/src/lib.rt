// Sets of residues modulo any number up to 2,041, as the bits of words: a residue is in the set where its bit is one. A set
// may stand twice, one copy behind the other, so that its residues stand in one piece wherever one starts to read. What is
// proved of sets is what they hold at least. Contracts cite specs/Sets.antt.
#![tactic(auto)]

ghost use Rattle.std.specs.Prelude.{◌≡◌, true, ℕ, ◌+◌, ◌*◌, ◌/◌, ◌<◌, ◌≤◌, length};
ghost use Rattle.sets.specs.Sets.{One, In, Grows, Twice, Moved, Long, Room};

// The words of a set of the residues of a sum, of which there are at most one more than a line has bits.
pub const WORDS: usize = bits::LONGEST_LINE / 64 + 1;

// The words of a set that stands twice.
pub const TWICE: usize = 2 * WORDS;

// The 64 bits from place p on.
fn word_at(from: &[u64], p: usize) -> u64
    requires { p / 64 + 1 < length from.now }
    ensures { (b : ℕ) → b < 64 → In from.now (p + b) → One result b }
{
    let q = p / 64;
    let s = p % 64;
    (from[q] >> s) | ((from[q + 1] << (63 - s)) << 1)
}

// Puts the bits of a word into word i of a set.
fn add_word(set: &mut [u64], i: usize, w: u64)
    requires { i < length set.old }
    ensures { Grows set.old set.new
        × ((b : ℕ) → b < 64 → One w b → In set.new (64 * i + b)) }
{
    set[i] |= w;
}

// Whether a residue is in a set.
pub fn holds(set: &[u64], r: usize) -> bool
    requires { r / 64 < length set.now }
    ensures { In set.now r → result ≡ true }
{
    (set[r / 64] >> (r % 64)) % 2 == 1
}

// Puts m bits of a set, from place a on, into another. Bits behind these may come with them.
fn put_in(m: usize, a: usize, from: &[u64], to: &mut [u64])
    requires { (a ≤ m) × Room m from.now to.old }
    ensures { Grows to.old to.new
        × ((i : ℕ) → i < m → In from.now (a + i) → In to.new i) }
{
    let words = m / 64 + 1;
    for i in 0..words {
        add_word(to, i, word_at(from, a + 64 * i));
    }
}

// Puts the residues of a set that stands twice, each moved on by so much modulo m, into another.
pub fn move_in(m: usize, by: usize, from: &[u64], to: &mut [u64])
    requires { Room m from.now to.old }
    ensures { Grows to.old to.new
        × (by < m → Moved m by from.now to.new) }
{
    if by < m {
        put_in(m, m - by, from, to);
    }
}

// Puts the bits of a word into word i of a set, and as far on in its second copy.
fn put_twice(m: usize, i: usize, v: u64, set: &mut [u64])
    requires { m / 64 + i + 1 < length set.old }
    ensures { Grows set.old set.new
        × ((b : ℕ) → b < 64 → One v b → Twice m set.new (64 * i + b)) }
{
    let e = m / 64;
    let s = m % 64;
    add_word(set, i, v);
    add_word(set, e + i, v << s);
    add_word(set, e + i + 1, (v >> 1) >> (63 - s));
}

// Makes a set that stands twice of the residues of another, which is empty afterwards.
pub fn take_over(m: usize, set: &mut [u64], other: &mut [u64])
    requires { Room m set.old other.old }
    ensures { (r : ℕ) → r < m → In other.old r → Twice m set.new r }
{
    let e = m / 64;
    set[..2 * e + 2].fill(0);
    for (i, w) in other[..e].iter_mut().enumerate() {
        put_twice(m, i, *w, set);
        *w = 0;
    }
    put_twice(m, e, other[e] % (1 << (m % 64)), set);
    other[e] = 0;
}

// Makes a set that stands twice of one residue.
pub fn only(m: usize, r: usize, set: &mut [u64])
    requires { (r < m) × Long m set.old }
    ensures { Twice m set.new r }
{
    set[..2 * (m / 64) + 2].fill(0);
    let second = m + r;
    add_word(set, r / 64, 1 << (r % 64));
    add_word(set, second / 64, 1 << (second % 64));
}
