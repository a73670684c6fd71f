// Two summands brought to one place.
ghost use Rattle.std.specs.Prelude.{◌≡◌, ◌+◌, ◌-◌, ◌*◌, ◌^◌, ◌<◌, ◌≤◌};
ghost use Rattle.fused.specs.Steps.{jam, size_of, IsLevel};

use crate::bits::{Finite, LOWEST};

/// Where a product and a summand are cut: 13 places below the product or 37 below the summand, whichever is higher.
/// The product has up to 48 digits and the summand up to 24, so each keeps up to 61.
pub fn level(product: u64, summand: u64) -> u64
    requires lowest { LOWEST ≤ summand }
    requires first { product < 1000 }
    requires second { summand < 1000 }
    ensures level { IsLevel product summand result }
    ensures below { result < 1000 }
{
    product.saturating_sub(13).max(summand - 37)
}

/// v cut at `place`, in halves: a rest is rounded to the odd neighbour, so the last bit says whether anything was cut off.
pub fn align(v: Finite, place: u64) -> Finite
    requires near { v.place ≤ place + 37 }
    requires room { v.significand * 2 ^ (v.place - place) < 2 ^ 61 }
    ensures sign { result.negative ≡ v.negative }
    ensures value { result.significand ≡ jam (size_of v) (2 ^ place) }
    ensures place { result.place ≡ place }
    ensures below { result.significand < 2 ^ 62 }
{
    Finite {
        significand: cut(v.significand, v.place, place),
        place,
        ..v
    }
}

// m * 2^i in halves of 2^h, a rest rounded to the odd neighbour.
fn cut(m: u64, i: u64, h: u64) -> u64
    requires near { i ≤ h + 37 }
    requires room { m * 2 ^ (i - h) < 2 ^ 61 }
    ensures value { result ≡ jam (m * 2 ^ i) (2 ^ h) }
    ensures below { result < 2 ^ 62 }
{
    if h <= i {
        return (m << (i - h)) << 1;
    }
    let dropped = h - i;
    if dropped > 61 {
        return u64::from(m != 0);
    }
    let quotient = m >> dropped;
    let sticky = u64::from(quotient << dropped != m);
    (quotient << 1) | sticky
}
