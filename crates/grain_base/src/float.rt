//! Floating-point numbers, as constants of a program hold them.
ghost use Rattle.std.specs.Prelude.{◌≡◌, to_bits, from_bits};
ghost use lib.Ieee.{binary64};

use std::fmt;
use std::num::{f64_from_bits_with_nan, f64_to_bits_with_nan};

/// The smallest number, apart from zero, that is written without an exponent.
const LEAST_PLAIN: f64 = 0.0000001;

/// The largest number that is written without an exponent.
const MOST_PLAIN: f64 = 10000000000000.0;

/// A floating-point number, by the 64 bits that IEEE 754 gives it.
///
/// Two of them are equal if their bits are, unlike numbers: NaN is equal to itself, and `0.0` isn't `-0.0`. So a constant
/// is equal to its copies, and equal constants have equal hashes.
#[derive(Clone, Copy, PartialEq, Eq, Hash, Drop)]
pub struct Float {
    /// The bits: the sign, 11 of the exponent, 52 of the fraction.
    pub bits: u64,
}

impl Float {
    /// The constant of a number. Each NaN has the same bits.
    #[must_use]
    pub fn of(number: f64) -> Float
        ensures { result.bits ≡ to_bits binary64 number }
    {
        Float {
            bits: f64_to_bits_with_nan(number),
        }
    }

    /// The number.
    #[must_use]
    pub fn number(self) -> f64
        ensures { result ≡ from_bits binary64 self.bits }
    {
        f64_from_bits_with_nan(self.bits)
    }
}

/// The text of the number, as [`write_number`] writes it.
impl fmt::Display for Float {
    fn fmt<W: fmt::Write>(&self, f: &mut fmt::Formatter<W>) -> fmt::Result {
        write_number(self.number(), f)
    }
}

/// Writes a number with the fewest digits that only it has. A whole number ends with `.0`, very large and very small ones
/// have an exponent, and neither zero nor NaN has a sign.
///
/// # Errors
/// Those of `out`.
pub fn write_number<W: fmt::Write>(number: f64, out: &mut W) -> fmt::Result {
    let size = number.abs();
    if number.is_nan() {
        write!(out, "NaN")
    } else if size == 0.0 {
        write!(out, "0.0")
    } else if size < LEAST_PLAIN || size > MOST_PLAIN {
        write!(out, "{number:e}")
    } else if size.fract() == 0.0 {
        write!(out, "{number}.0")
    } else {
        write!(out, "{number}")
    }
}
