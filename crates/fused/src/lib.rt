// a * b + c rounded once to an f32, on sign, exponent and fraction bits: the exact product, the two summands cut at one place with
// what is cut off kept as one odd bit, their exact sum, and one rounding.
#![tactic(auto)]

ghost use Rattle.std.specs.Prelude.{◌≡◌};
ghost use Rattle.fused.specs.Fused.{fused_of};

mod align;
mod bits;
mod combine;
mod round;

/// a * b + c, rounded once to the nearest f32, a tie to the even one. An infinity times a zero gives a NaN, and so do a NaN among the three
/// and an infinite product beside the other infinity; there is one NaN.
pub fn fused(a: f32, b: f32, c: f32) -> f32
    ensures { result ≡ fused_of a b c }
{
    let product = combine::product(bits::unpack(a), bits::unpack(b));
    combine::sum(product, bits::unpack(c))
}
