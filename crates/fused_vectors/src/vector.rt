// A vector: what `fused` is given and what it must give.
ghost use Rattle.std.specs.Prelude.{◌≡◌, ◌↔◌, IsTrue};
ghost use Rattle.std.specs.Result.{OkIff};
ghost use Rattle.fused_vectors.specs.Vectors.{IsWord, word_of, ParsesFirst};

use std::error::Error;
use std::fmt;
use std::num::{f32_from_bits_with_nan, f32_to_bits_with_nan};
use std::str::FromStr;

#[derive(Clone, Copy, Debug)]
pub struct Vector {
    pub a: f32,
    pub b: f32,
    pub c: f32,
    pub result: f32,
}

/// Why a line is no vector.
#[derive(Clone, Copy, Debug, PartialEq, Eq)]
pub enum VectorError {
    FewWords,
    Word,
}

impl fmt::Display for VectorError {
    fn fmt<W: fmt::Write>(&self, f: &mut fmt::Formatter<W>) -> fmt::Result {
        match self {
            VectorError::FewWords => write!(f, "a vector is four words, one space between two"),
            VectorError::Word => write!(f, "a word is eight hexadecimal digits"),
        }
    }
}

impl Error for VectorError {}

const DIGITS: usize = 8;

// The value whose pattern a word writes.
fn word(text: &str) -> Result<f32, VectorError>
    ensures { OkIff result (IsWord text.now) (word_of text.now) }
{
    if text.len() != DIGITS || text.starts_with('+') {
        return Err(VectorError::Word);
    }
    match u32::from_str_radix(text, 16) {
        Ok(bits) => Ok(f32_from_bits_with_nan(bits)),
        Err(_) => Err(VectorError::Word),
    }
}

// The value of the first word, and what follows it and a space.
fn first(text: &str) -> Result<(f32, &str), VectorError>
    ensures { ParsesFirst text.now result }
{
    let (first, rest) = text.split_once(' ').ok_or(VectorError::FewWords)?;
    Ok((word(first)?, rest))
}

impl FromStr for Vector {
    type Err = VectorError;

    ghost use Rattle.fused_vectors.specs.Vectors.{ParsesVector};

    ghost from_str_gives = { ParsesVector };

    fn from_str(line: &str) -> Result<Vector, VectorError> {
        let (a, rest) = first(line)?;
        let (b, rest) = first(rest)?;
        let (c, rest) = first(rest)?;
        Ok(Vector {
            a,
            b,
            c,
            result: word(rest)?,
        })
    }
}

/// Whether two values are the same bit for bit, all NaNs taken for one.
pub fn is_same(x: f32, y: f32) -> bool
    ensures { IsTrue result ↔ (x ≡ y) }
{
    f32_to_bits_with_nan(x) == f32_to_bits_with_nan(y)
}
