// Erased chunks, whose places are known and whose contents are not, found from as many checks. The contracts cite
// specs/Erasures.antt.
#![tactic(auto)]

ghost use Rattle.std.specs.Prelude.{◌≡◌, ℕ, suc, ◌+◌, ◌-◌, ◌*◌, ◌^◌, ◌<◌, ◌≤◌, length, get_or};
ghost use Rattle.std.specs.Int.Bits.{bit_xor};
ghost use Rattle.field.specs.Field.{Element, Elements, power, times};
ghost use Rattle.field.specs.Tables.{powers, Logs};
ghost use Rattle.erasures.specs.Erasures.{brought, Brings, without, scaled, Places, Contents};

// A quotient: the element that d times gives x.
fn divide(t: &[u8; 498], nc: usize, logs: &[u8], x: u8, d: u8) -> u8
    requires { ((t.now ≡ powers) × (3 ≤ nc) × (nc ≤ 8) × Logs nc logs.now)
        × (Element nc x × Element nc d × (0 < d)) }
    ensures { Element nc result × ((e : ℕ) → Element nc e → x ≡ times nc d e → result ≡ e) }
{
    let e = field::log_of(nc, logs, d);
    if e == 0 {
        return x;
    }
    field::shift(t, nc, logs, field::order(nc) - e, x)
}

// The chunk at place c taken out of the first n checks: of these n - 1 numbers are left.
fn take_out(t: &[u8; 498], nc: usize, logs: &[u8], c: usize, n: usize, s: [u8; 16]) -> [u8; 16]
    requires { ((t.now ≡ powers) × (3 ≤ nc) × (nc ≤ 8) × Logs nc logs.now)
        × ((c + 1 < 2 ^ nc) × (n ≤ 16) × Elements nc s) }
    ensures { Elements nc result × ((i : ℕ) → suc i < n → get_or result i 0 ≡ without nc c (get_or s i 0) (get_or s (suc i) 0)) }
{
    let mut out = s;
    for i in 1..n {
        out[i - 1] = s[i] ^ field::shift(t, nc, logs, c, s[i - 1]);
    }
    out
}

// The contents of the chunks after the u-th from what they bring once it is taken out, and its own from the first check.
fn settle(
    t: &[u8; 498],
    nc: usize,
    logs: &[u8],
    cs: [u8; 12],
    n: usize,
    u: usize,
    first: u8,
    rest: [u8; 12],
) -> [u8; 12]
    requires { ((t.now ≡ powers) × (3 ≤ nc) × (nc ≤ 8) × Logs nc logs.now)
        × ((u < n) × (n ≤ 12) × Places nc n (λ z. get_or cs z 0) × Element nc first × Elements nc rest) }
    ensures { Elements nc result × ((e : ℕ → ℕ) → Contents nc e
        → ((z : ℕ) → u < z → z < n → get_or rest z 0 ≡ scaled nc (λ v. get_or cs v 0) e u z)
        → first ≡ brought nc 0 (λ v. get_or cs v 0) e u (n - u)
        → (z : ℕ) → u ≤ z → z < n → get_or result z 0 ≡ e z) }
{
    let own = field::entry(t, nc, usize::from(cs[u]));
    let mut out = rest;
    let mut sum = first;
    for z in u + 1..n {
        let other = field::entry(t, nc, usize::from(cs[z]));
        let v = divide(t, nc, logs, rest[z], other ^ own);
        out[z] = v;
        sum ^= v;
    }
    out[u] = sum;
    out
}

// The contents of the erased chunks from the u-th on, whose places are cs, from what they bring to as many checks.
pub fn solve(
    t: &[u8; 498],
    nc: usize,
    logs: &[u8],
    cs: [u8; 12],
    n: usize,
    u: usize,
    s: [u8; 16],
) -> [u8; 12]
    requires { ((t.now ≡ powers) × (3 ≤ nc) × (nc ≤ 8) × Logs nc logs.now)
        × ((u ≤ n) × (n ≤ 12) × Places nc n (λ z. get_or cs z 0) × Elements nc s) }
    ensures { Elements nc result × ((e : ℕ → ℕ) → Contents nc e → Brings nc s (λ z. get_or cs z 0) e u (n - u)
        → (z : ℕ) → u ≤ z → z < n → get_or result z 0 ≡ e z) }
{
    if u == n {
        return [0; 12];
    }
    let left = take_out(t, nc, logs, usize::from(cs[u]), n - u, s);
    let rest = solve(t, nc, logs, cs, n, u + 1, left);
    settle(t, nc, logs, cs, n, u, s[0], rest)
}
