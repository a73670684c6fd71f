// The samples of one channel in one quantum.
ghost use Rattle.std.specs.Prelude.{◌≡◌};
ghost use Rattle.pool.specs.Pool.{plus};

use layout::QUANTUM;

/// What a slot holds.
pub type Samples = [f32; QUANTUM];

/// The sum of two channels, sample by sample.
pub fn plus(a: &Samples, b: &Samples) -> Samples
    ensures { result ≡ plus a.now b.now }
{
    let mut sum = [0.0; QUANTUM];
    for i in 0..QUANTUM {
        sum[i] = a[i] + b[i];
    }
    sum
}
