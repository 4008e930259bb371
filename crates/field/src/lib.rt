// The fields of 2 ^ nc elements, nc from 3 to 8: the table of the powers of 2, the product through logs, and the checks of a
// row's chunks. The contracts cite specs/Field.antt, specs/Tables.antt and specs/Exponents.antt.
#![tactic(auto)]

ghost use Rattle.std.specs.Prelude.{◌≡◌, ℕ, ◌+◌, ◌-◌, ◌*◌, ◌^◌, ◌<◌, ◌≤◌, length, get_or};
ghost use Rattle.field.specs.Field.{Element, Elements, power, times, Checks};
ghost use Rattle.field.specs.Tables.{powers, start, with_logs, Logs};
ghost use Rattle.field.specs.Exponents.{Exponents, sum_to, Terms};

// The powers of 2 of the six fields one after another, 2 ^ nc - 1 for each.
const POWERS: [u8; 498] = [
    1, 2, 4, 3, 6, 7, 5, 1, 2, 4, 8, 3, 6, 12, 11, 5, 10, 7, 14, 15, 13, 9, 1, 2, 4, 8, 16, 5, 10,
    20, 13, 26, 17, 7, 14, 28, 29, 31, 27, 19, 3, 6, 12, 24, 21, 15, 30, 25, 23, 11, 22, 9, 18, 1,
    2, 4, 8, 16, 32, 3, 6, 12, 24, 48, 35, 5, 10, 20, 40, 19, 38, 15, 30, 60, 59, 53, 41, 17, 34,
    7, 14, 28, 56, 51, 37, 9, 18, 36, 11, 22, 44, 27, 54, 47, 29, 58, 55, 45, 25, 50, 39, 13, 26,
    52, 43, 21, 42, 23, 46, 31, 62, 63, 61, 57, 49, 33, 1, 2, 4, 8, 16, 32, 64, 9, 18, 36, 72, 25,
    50, 100, 65, 11, 22, 44, 88, 57, 114, 109, 83, 47, 94, 53, 106, 93, 51, 102, 69, 3, 6, 12, 24,
    48, 96, 73, 27, 54, 108, 81, 43, 86, 37, 74, 29, 58, 116, 97, 75, 31, 62, 124, 113, 107, 95,
    55, 110, 85, 35, 70, 5, 10, 20, 40, 80, 41, 82, 45, 90, 61, 122, 125, 115, 111, 87, 39, 78, 21,
    42, 84, 33, 66, 13, 26, 52, 104, 89, 59, 118, 101, 67, 15, 30, 60, 120, 121, 123, 127, 119,
    103, 71, 7, 14, 28, 56, 112, 105, 91, 63, 126, 117, 99, 79, 23, 46, 92, 49, 98, 77, 19, 38, 76,
    17, 34, 68, 1, 2, 4, 8, 16, 32, 64, 128, 29, 58, 116, 232, 205, 135, 19, 38, 76, 152, 45, 90,
    180, 117, 234, 201, 143, 3, 6, 12, 24, 48, 96, 192, 157, 39, 78, 156, 37, 74, 148, 53, 106,
    212, 181, 119, 238, 193, 159, 35, 70, 140, 5, 10, 20, 40, 80, 160, 93, 186, 105, 210, 185, 111,
    222, 161, 95, 190, 97, 194, 153, 47, 94, 188, 101, 202, 137, 15, 30, 60, 120, 240, 253, 231,
    211, 187, 107, 214, 177, 127, 254, 225, 223, 163, 91, 182, 113, 226, 217, 175, 67, 134, 17, 34,
    68, 136, 13, 26, 52, 104, 208, 189, 103, 206, 129, 31, 62, 124, 248, 237, 199, 147, 59, 118,
    236, 197, 151, 51, 102, 204, 133, 23, 46, 92, 184, 109, 218, 169, 79, 158, 33, 66, 132, 21, 42,
    84, 168, 77, 154, 41, 82, 164, 85, 170, 73, 146, 57, 114, 228, 213, 183, 115, 230, 209, 191,
    99, 198, 145, 63, 126, 252, 229, 215, 179, 123, 246, 241, 255, 227, 219, 171, 75, 150, 49, 98,
    196, 149, 55, 110, 220, 165, 87, 174, 65, 130, 25, 50, 100, 200, 141, 7, 14, 28, 56, 112, 224,
    221, 167, 83, 166, 81, 162, 89, 178, 121, 242, 249, 239, 195, 155, 43, 86, 172, 69, 138, 9, 18,
    36, 72, 144, 61, 122, 244, 245, 247, 243, 251, 235, 203, 139, 11, 22, 44, 88, 176, 125, 250,
    233, 207, 131, 27, 54, 108, 216, 173, 71, 142,
];

// The number of powers of 2 in the field: the elements but 0.
pub fn order(nc: usize) -> usize
    requires { (3 ≤ nc) × (nc ≤ 8) }
    ensures { result ≡ 2 ^ nc - 1 }
{
    (1usize << nc) - 1
}

// Where the field's powers start in the table: the smaller fields have 2 ^ nc - 8 elements in all, and each one power less.
fn base_of(nc: usize) -> usize
    requires { (3 ≤ nc) × (nc ≤ 8) }
    ensures { result ≡ start 3 (nc - 3) }
{
    order(nc) - nc - 4
}

// The table as a local array, to be lent: a constant that is read in place is copied at each read.
pub fn table() -> [u8; 498]
    ensures { result ≡ powers }
{
    POWERS
}

// 2 to the power e, from the table.
pub fn entry(t: &[u8; 498], nc: usize, e: usize) -> u8
    requires { (t.now ≡ powers) × (3 ≤ nc) × (nc ≤ 8) × (e + 1 < 2 ^ nc) }
    ensures { result ≡ power nc e }
{
    let base = base_of(nc);
    t[base + e]
}

// An exponent of the same power below 2 ^ nc - 1, from one below twice that.
fn reduce(nc: usize, e: usize) -> usize
    requires { (3 ≤ nc) × (nc ≤ 8) × (e + 2 < 2 * 2 ^ nc) }
    ensures { (result + 1 < 2 ^ nc) × (power nc result ≡ power nc e) }
{
    let n = order(nc);
    if e < n { e } else { e - n }
}

// Writes the log of each element but 0 at the element's place, and nothing else.
pub fn fill_logs(t: &[u8; 498], nc: usize, logs: &mut [u8])
    requires { (t.now ≡ powers) × (3 ≤ nc) × (nc ≤ 8) × (2 ^ nc ≤ length logs.old) }
    ensures { (logs.new ≡ with_logs nc (2 ^ nc - 1) logs.old) × Logs nc logs.new }
{
    let n = order(nc);
    for e in 0..n {
        let x = usize::from(entry(t, nc, e));
        logs[x] = e as u8;
    }
}

// The log of an element but 0: the exponent of 2 that gives it.
pub fn log_of(nc: usize, logs: &[u8], x: u8) -> usize
    requires { Logs nc logs.now × Element nc x × (0 < x) }
    ensures { (result + 1 < 2 ^ nc) × (power nc result ≡ x) }
{
    usize::from(logs[usize::from(x)])
}

// 2 to the power e, times x.
pub fn shift(t: &[u8; 498], nc: usize, logs: &[u8], e: usize, x: u8) -> u8
    requires { (t.now ≡ powers) × (3 ≤ nc) × (nc ≤ 8) × Logs nc logs.now × (e + 1 < 2 ^ nc) × Element nc x }
    ensures { result ≡ times nc (power nc e) x }
{
    if x == 0 {
        return 0;
    }
    let d = log_of(nc, logs, x);
    entry(t, nc, reduce(nc, e + d))
}

// The exponent of 2 to the power c + e. All bytes and one choice, so that a loop of it is done many at a time.
fn raise(nc: usize, e: u8, c: u8) -> u8
    requires { (3 ≤ nc) × (nc ≤ 8) × (e + 1 < 2 ^ nc) × (c + 1 < 2 ^ nc) }
    ensures { (result + 1 < 2 ^ nc) × (power nc result ≡ times nc (power nc c) (power nc e)) }
{
    let d = order(nc) as u8 - c;
    if e < d { e + c } else { e - d }
}

// The chunks but those that are 0, at the start of two slices: their places, and the exponents of their contents. Answers how many
// there are.
fn fill_terms(nc: usize, logs: &[u8], xs: &[u8], cs: &mut [u8], es: &mut [u8]) -> usize
    requires { ((3 ≤ nc) × (nc ≤ 8) × Logs nc logs.now × Elements nc xs.now)
        × ((length xs.now < 2 ^ nc) × (length xs.now ≤ length cs.old) × (length xs.now ≤ length es.old))
        × (Exponents nc cs.old × Exponents nc es.old) }
    ensures { Terms nc result (length xs.now) xs.now cs.new es.new }
{
    let mut n = 0;
    for (c, x) in xs.iter().enumerate() {
        if *x != 0 {
            cs[n] = c as u8;
            es[n] = log_of(nc, logs, *x) as u8;
            n += 1;
        }
    }
    n
}

// The first n exponents of one check's terms made those of the next check's.
fn raise_all(nc: usize, n: usize, cs: &[u8], es: &mut [u8])
    requires { ((3 ≤ nc) × (nc ≤ 8) × (n ≤ length cs.now) × (n ≤ length es.old))
        × (Exponents nc cs.now × Exponents nc es.old) }
    ensures { Exponents nc es.new
        × ((k : ℕ) → k < n → power nc (get_or es.new k 0)
        ≡ times nc (power nc (get_or cs.now k 0)) (power nc (get_or es.old k 0))) }
{
    for k in 0..n {
        es[k] = raise(nc, es[k], cs[k]);
    }
}

// The field sum of the powers of 2 with these exponents.
fn sum(t: &[u8; 498], nc: usize, es: &[u8]) -> u8
    requires { (t.now ≡ powers) × (3 ≤ nc) × (nc ≤ 8) × Exponents nc es.now }
    ensures { result ≡ sum_to (length es.now) (λ k. power nc (get_or es.now k 0)) }
{
    let mut s = 0;
    for e in es {
        s ^= entry(t, nc, usize::from(*e));
    }
    s
}

// The first r checks of the chunks, at the start of a slice: the exponents of all terms of a check are made those of the next.
pub fn checks(t: &[u8; 498], nc: usize, r: usize, logs: &[u8], chunks: &[u8], out: &mut [u8])
    requires { ((t.now ≡ powers) × (3 ≤ nc) × (nc ≤ 8) × Logs nc logs.now × Elements nc chunks.now)
        × ((length chunks.now < 2 ^ nc) × (r ≤ length out.old)) }
    ensures { Checks nc r chunks.now out.new }
{
    let mut cs = [0; 256];
    let mut es = [0; 256];
    let n = fill_terms(nc, logs, chunks, &mut cs, &mut es);
    // So many exponents are raised eight at a time, with none left over.
    let m = n.next_multiple_of(8);
    for (i, check) in out[..r].iter_mut().enumerate() {
        if i > 0 {
            raise_all(nc, m, &cs, &mut es);
        }
        *check = sum(t, nc, &es[..n]);
    }
}
