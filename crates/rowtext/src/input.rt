// What stands where in the input.
ghost use Rattle.std.specs.Prelude.{◌≡◌, ◌≤◌};
ghost use Rattle.rowtext.specs.Input.{length_at, Split};

// Where the message stands in the input, the number of bits, and where the row begins.
#[derive(Clone, Copy)]
pub struct Parts {
    pub from: usize,
    pub to: usize,
    pub m: usize,
    pub row: usize,
}

// The number in the first two bytes, high first; 0 where there are fewer.
fn length_at(s: &[u8]) -> usize
    ensures { (result ≡ length_at s.now) × (result ≤ 65535) }
{
    match s {
        [high, low, ..] => usize::from(*high) * 256 + usize::from(*low),
        _ => 0,
    }
}

// Splits the input.
pub fn split(s: &[u8]) -> Parts
    ensures { Split s.now result.from result.to result.m result.row }
{
    let length = length_at(s);
    let from = s.len().min(2);
    let to = s.len().min(2 + length);
    let m = length_at(&s[to..]);
    let row = s.len().min(4 + length);
    Parts { from, to, m, row }
}
