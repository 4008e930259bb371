// Sets of residues modulo a small number, each a word: a residue is in the set where its bit is one. Contracts cite
// specs/Residues.antt.
#![tactic(auto)]

ghost use Rattle.std.specs.Prelude.{◌≡◌, true, ℕ, ◌+◌, ◌%◌, ◌<◌, ◌≤◌};
ghost use Rattle.residues.specs.Residues.{Has};

// The set of one residue.
pub fn only(r: usize) -> u64
    requires { r < 64 }
    ensures { (m n : ℕ) → n % m ≡ r → Has m result n }
{
    1 << r
}

// The set moved on: so much is added to each residue, modulo m.
pub fn moved_on(set: u64, m: usize, by: usize) -> u64
    requires { (1 ≤ m) × (m ≤ 63) }
    ensures { (n : ℕ) → Has m set n → Has m result (n + by) }
{
    let up = by % m;
    let turned = (set << up) | (set >> (m - up));
    turned % (1 << m)
}

// The set moved back: so much is taken from each residue, modulo m.
pub fn moved_back(set: u64, m: usize, by: usize) -> u64
    requires { (1 ≤ m) × (m ≤ 63) }
    ensures { (n : ℕ) → Has m set (n + by) → Has m result n }
{
    moved_on(set, m, m - by % m)
}

// Two sets together.
pub fn together(a: u64, b: u64) -> u64
    ensures { (m n : ℕ) → (Has m a n → Has m result n) × (Has m b n → Has m result n) }
{
    a | b
}

// Whether a residue is in a set.
pub fn holds(set: u64, r: usize) -> bool
    requires { r < 64 }
    ensures { (m n : ℕ) → n % m ≡ r → Has m set n → result ≡ true }
{
    (set >> r) % 2 == 1
}

// Whether two sets have a residue in common.
pub fn meet(a: u64, b: u64) -> bool
    ensures { (m n : ℕ) → Has m a n → Has m b n → result ≡ true }
{
    a & b != 0
}
