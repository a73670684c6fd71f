// An f32 taken apart.
ghost use Rattle.std.specs.Prelude.{◌≡◌, ◌+◌, ◌-◌, ◌*◌, ◌/◌, ◌%◌, ◌^◌, ◌<◌, ◌≤◌, Float};
ghost use Rattle.std.specs.Float.{inf};
ghost use Rattle.fused.specs.Steps.{field_of, significand_of, place_of, StandsFor, IsShortValue};

/// The smallest value of the format is 2^-149: the lowest place of a significand's last digit.
pub const LOWEST: u64 = 149;

/// The digits of a full significand, with the leading one.
pub const DIGITS: u64 = 24;

pub const SIGN: u32 = 0x8000_0000;

const LEADING: u64 = 0x80_0000;

const FRACTION: u32 = 0x7f_ffff;

// The field of an infinity or a NaN.
const FULL_FIELD: u64 = 0xff;

/// A finite number, `significand` * 2^`place` in units that each use names.
#[derive(Clone, Copy)]
pub struct Finite {
    pub negative: bool,
    pub significand: u64,
    pub place: u64,
}

/// What an f32 is, or an exact product of two.
#[derive(Clone, Copy)]
pub enum Value {
    Nan,
    /// An infinity; `true` is the negative one.
    Infinite(bool),
    Number(Finite),
}

// The exponent's field of a pattern.
fn field(bits: u32) -> u64
    ensures { result ≡ field_of bits }
{
    u64::from((bits >> 23) & 0xff)
}

// The digits of a finite pattern, with the leading one.
fn significand(bits: u32) -> u64
    ensures value { result ≡ significand_of bits }
    ensures below { result < 2 ^ DIGITS }
{
    let fraction = u64::from(bits & FRACTION);
    if field(bits) == 0 {
        fraction
    } else {
        fraction | LEADING
    }
}

// How many places above the lowest the last digit of a finite pattern stands: a field of 0 counts as one of 1.
fn place(bits: u32) -> u64
    ensures value { result ≡ place_of bits }
    ensures below { result < 255 }
{
    field(bits).saturating_sub(1)
}

/// The value of x, in units of 2^-149.
pub fn unpack(x: f32) -> Value
    ensures value { StandsFor LOWEST x result }
    ensures short { IsShortValue LOWEST DIGITS result }
{
    if x.is_nan() {
        return Value::Nan;
    }
    let bits = x.to_bits();
    let negative = bits >= SIGN;
    if field(bits) == FULL_FIELD {
        return Value::Infinite(negative);
    }
    Value::Number(Finite {
        negative,
        significand: significand(bits),
        place: place(bits),
    })
}

/// The infinity with this sign.
pub fn infinity(negative: bool) -> f32
    ensures { result ≡ inf negative }
{
    if negative {
        f32::NEG_INFINITY
    } else {
        f32::INFINITY
    }
}
