// The exact product and the exact sum.
ghost use Rattle.std.specs.Prelude.{◌≡◌, ◌+◌, ◌*◌, ◌^◌, ◌<◌, ◌≤◌};
ghost use Rattle.std.specs.Float.Ieee.{unlike};
ghost use Rattle.fused.specs.Steps.{size_of, sum_of, AddsUp, IsProduct, IsShort, IsShortValue, IsSum};

use crate::align::{align, level};
use crate::bits::{DIGITS, Finite, LOWEST, Value, infinity};
use crate::round::nearest_float;

/// The product of two values, exact, in units of 2^-298.
pub fn product(a: Value, b: Value) -> Value
    requires first { IsShortValue LOWEST DIGITS a }
    requires second { IsShortValue LOWEST DIGITS b }
    ensures value { IsProduct a b result }
    ensures short { IsShortValue (2 * LOWEST) (2 * DIGITS) result }
{
    match (a, b) {
        (Value::Nan, _) | (_, Value::Nan) => Value::Nan,
        (Value::Infinite(s), Value::Infinite(t)) => Value::Infinite(s != t),
        (Value::Infinite(s), Value::Number(v)) => infinite_product(s, v),
        (Value::Number(v), Value::Infinite(s)) => infinite_product(s, v),
        (Value::Number(v), Value::Number(w)) => Value::Number(finite_product(v, w)),
    }
}

// The product of an infinity and a number; that of an infinity and a zero is no number.
fn infinite_product(negative: bool, v: Finite) -> Value
    ensures value { IsProduct (Value.Infinite negative) (Value.Number v) result }
    ensures short { IsShortValue (2 * LOWEST) (2 * DIGITS) result }
{
    if v.significand == 0 {
        Value::Nan
    } else {
        Value::Infinite(negative != v.negative)
    }
}

fn finite_product(v: Finite, w: Finite) -> Finite
    requires first { IsShort LOWEST DIGITS v }
    requires second { IsShort LOWEST DIGITS w }
    ensures sign { result.negative ≡ unlike v.negative w.negative }
    ensures value { size_of result ≡ size_of v * size_of w }
    ensures short { IsShort (2 * LOWEST) (2 * DIGITS) result }
{
    let significand = v.significand * w.significand;
    Finite {
        negative: v.negative != w.negative,
        significand,
        place: if significand == 0 {
            0
        } else {
            v.place + w.place
        },
    }
}

/// The sum of an exact product and a value, rounded once.
#[tactic(auto, using(crate::proofs::Specials::nan_first, crate::proofs::Specials::nan_second))]
pub fn sum(product: Value, c: Value) -> f32
    requires product { IsShortValue (2 * LOWEST) (2 * DIGITS) product }
    requires summand { IsShortValue LOWEST DIGITS c }
    ensures { IsSum product c result }
{
    match (product, c) {
        (Value::Nan, _) | (_, Value::Nan) => f32::NAN,
        (Value::Infinite(s), Value::Infinite(t)) => { if s == t { infinity(s) } else { f32::NAN } }
        (Value::Infinite(s), Value::Number(_)) => infinity(s),
        (Value::Number(_), Value::Infinite(s)) => infinity(s),
        (Value::Number(p), Value::Number(c)) => finite_sum(p, c),
    }
}

// The sum of a product in units of 2^-298 and a summand in units of 2^-149.
fn finite_sum(product: Finite, c: Finite) -> f32
    requires product { IsShort (2 * LOWEST) (2 * DIGITS) product }
    requires summand { IsShort LOWEST DIGITS c }
    ensures { result ≡ sum_of product c }
{
    let summand = Finite {
        place: c.place + LOWEST,
        ..c
    };
    let place = level(product.place, summand.place);
    nearest_float(add(align(product, place), align(summand, place)))
}

// The sum of two numbers at one place; an exact zero is negative only where both are.
fn add(x: Finite, y: Finite) -> Finite
    requires place { x.place ≡ y.place }
    requires first { x.significand < 2 ^ 62 }
    requires second { y.significand < 2 ^ 62 }
    ensures value { AddsUp x y result }
    ensures place { result.place ≡ x.place }
    ensures below { result.significand < 2 ^ 63 }
{
    if x.negative == y.negative {
        Finite {
            significand: x.significand + y.significand,
            ..x
        }
    } else if x.significand < y.significand {
        Finite {
            significand: y.significand - x.significand,
            ..y
        }
    } else if y.significand < x.significand {
        Finite {
            significand: x.significand - y.significand,
            ..x
        }
    } else {
        Finite {
            negative: false,
            significand: 0,
            ..x
        }
    }
}
