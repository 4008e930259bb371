// The sum of the next bits of a string in constant time, from tables of what stands before each place. Contracts cite
// specs/Windows.antt.
#![tactic(auto)]

ghost use Rattle.std.specs.Prelude.{◌≡◌, ◌+◌, ◌<◌, ◌≤◌, length, take};
ghost use Rattle.bits.specs.Bits.{AllBits, longest};
ghost use Rattle.vt.specs.Sum.{sum};
ghost use Rattle.windows.specs.Windows.{Tables};

// Fills the tables of a string, in two slices that have more places than it.
pub fn fill(y: &[u8], totals: &mut [u32], counts: &mut [u16])
    requires { AllBits y.now × ((length y.now ≤ longest) × ((length y.now < length totals.old)
        × (length y.now < length counts.old))) }
    ensures { Tables y.now 0 totals.new counts.new }
{
    totals[0] = 0;
    counts[0] = 0;
    for (i, &b) in y.iter().enumerate() {
        totals[i + 1] = totals[i] + (i + 1) as u32 * u32::from(b);
        counts[i + 1] = counts[i] + u16::from(b);
    }
}

// The sum of the next w bits of a string that starts at place p of a longer one.
pub fn window_sum(y: &[u8], totals: &[u32], counts: &[u16], p: usize, w: usize) -> usize
    requires { AllBits y.now × (Tables y.now p totals.now counts.now × ((w ≤ length y.now)
        × (p + w ≤ longest))) }
    ensures { result ≡ sum (take w y.now) }
{
    let high = (totals[w] - totals[0]) as usize;
    let count = usize::from(counts[w] - counts[0]);
    (high - p * count) % (w + 1)
}
