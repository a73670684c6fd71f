// Slot 0 is silence.
ghost use Rattle.std.specs.Prelude.{◌≡◌, ◌↔◌, IsTrue};
ghost use Rattle.std.specs.Float.Ieee.{binary32, of_bits};
ghost use Rattle.pool.specs.Pool.{silence};

use pool::samples::Samples;

// Whether a sample is +0.0; -0.0 and NaN are not.
fn zero(x: f32) -> bool
    ensures { IsTrue result ↔ (x ≡ of_bits binary32 0) }
{
    x == x && x.to_bits() == 0
}

// Whether all samples of a slot are +0.0.
pub(crate) fn silent(samples: &Samples) -> bool
    ensures { IsTrue result ↔ (samples.now ≡ silence) }
{
    for x in samples {
        if !zero(*x) {
            return false;
        }
    }
    true
}
