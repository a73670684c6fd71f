// A number rounded to an f32.
ghost use Rattle.std.specs.Prelude.{◌≡◌, ◌+◌, ◌-◌, ◌*◌, ◌^◌, ◌<◌, ◌≤◌};
ghost use Rattle.std.specs.Float.Ieee.Nearest.{closest};
ghost use Rattle.fused.specs.Steps.{rounded_of, IsMagnitude, Drops};

use crate::bits::{DIGITS, Finite, LOWEST, SIGN};

// The pattern of the positive infinity, below which the finite ones are.
const INFINITY: u64 = 0x7f80_0000;

/// The f32 nearest to v, which is in units of 2^-299.
pub fn nearest_float(v: Finite) -> f32
    requires room { v.significand < 2 ^ 63 }
    requires place { v.place < 1000 }
    ensures { result ≡ rounded_of (2 * LOWEST + 1) v }
{
    let bits = magnitude(v.significand, v.place) as u32;
    if v.negative {
        f32::from_bits(bits | SIGN)
    } else {
        f32::from_bits(bits)
    }
}

// The bits below the sign of the f32 nearest to w * 2^h / 2^299.
fn magnitude(w: u64, h: u64) -> u64
    requires room { w < 2 ^ 63 }
    requires place { h < 1000 }
    ensures below { result ≤ INFINITY }
    ensures value { IsMagnitude (w * 2 ^ h) result }
{
    if w == 0 {
        return 0;
    }
    let k = dropped(w, h);
    let bits = (k << 23) + scaled(w, h, LOWEST + 1 + k);
    bits.min(INFINITY)
}

// How many digits of w * 2^h / 2^150 are more than 24.
fn dropped(w: u64, h: u64) -> u64
    requires some { 0 < w }
    requires place { h < 1000 }
    ensures { Drops (w * 2 ^ h) (LOWEST + 1) result }
{
    let digits = 64 - u64::from(w.leading_zeros()) + h;
    digits.saturating_sub(DIGITS + LOWEST + 1)
}

// w * 2^h / 2^g to the nearest whole number.
fn scaled(w: u64, h: u64, g: u64) -> u64
    requires some { 0 < w }
    requires room { w * 2 ^ (h - g) < 2 ^ 63 }
    ensures { result ≡ closest (w * 2 ^ h) (2 ^ g) }
{
    if g <= h {
        w << (h - g)
    } else {
        nearest_whole(w, g - h)
    }
}

// w / 2^t to the nearest whole number, a tie to the even one.
fn nearest_whole(w: u64, t: u64) -> u64
    requires some { 0 < t }
    requires room { w < 2 ^ 63 }
    ensures { result ≡ closest w (2 ^ t) }
{
    if t > 63 {
        return 0;
    }
    let quotient = w >> t;
    let rest = w - (quotient << t);
    let half = 1u64 << (t - 1);
    if rest < half {
        quotient
    } else if rest > half {
        quotient + 1
    } else {
        quotient + (quotient & 1)
    }
}
