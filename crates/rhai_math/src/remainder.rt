//! What is left of a division of floating-point numbers.
//!
//! It is computed from the bits, and is exact. The operator `%` of `f64` would call `fmod` of the C library, in a version that
//! systems of 2023 and before don't have.

use std::num::{f64_from_bits_with_nan, f64_to_bits_with_nan, nearest_i64_to_f64};

/// How many bits of a number are its fraction.
const FRACTION_BITS: u64 = 52;

/// The bit above the fraction, which all numbers have but the smallest ones.
const IMPLICIT: u64 = 1 << FRACTION_BITS;

/// By how many bits 64 have room to shift a fraction of 53 bits.
const ROOM: u64 = 11;

/// A number from zero on: an integer below 2^53, times 2 to the power of the exponent less 1075.
#[derive(Clone, Copy)]
struct Scaled {
    integer: u64,
    /// From 1 to 2046.
    exponent: u64,
}

/// The parts of a finite number that isn't below zero.
fn parts_of(number: f64) -> Scaled {
    let bits = f64_to_bits_with_nan(number);
    let fraction = bits & (IMPLICIT - 1);
    match (bits >> FRACTION_BITS) & 0x7ff {
        0 => Scaled {
            integer: fraction,
            exponent: 1,
        },
        exponent => Scaled {
            integer: fraction | IMPLICIT,
            exponent,
        },
    }
}

/// 2 to the power of an exponent less 1075.
fn power(exponent: u64) -> f64 {
    let bits = if exponent > FRACTION_BITS {
        (exponent - FRACTION_BITS) << FRACTION_BITS
    } else {
        // The powers below have no exponent of their own.
        IMPLICIT >> (FRACTION_BITS + 1 - exponent.max(1))
    };
    f64_from_bits_with_nan(bits)
}

/// What is left of a number that is no less than the divisor. Both are finite and above zero.
fn remainder_of_sizes(number: f64, divisor: f64) -> f64 {
    let Scaled { integer, exponent } = parts_of(number);
    let divisor = parts_of(divisor);
    let mut rest = integer.checked_rem(divisor.integer).unwrap_or(0);
    let mut shifts = exponent.saturating_sub(divisor.exponent);
    for _turn in 0..exponent {
        if shifts == 0 {
            break;
        }
        let shift = shifts.min(ROOM);
        rest = (rest << shift).checked_rem(divisor.integer).unwrap_or(0);
        shifts -= shift;
    }
    let rest = i64::try_from(rest).unwrap_or(0);
    nearest_i64_to_f64(rest) * power(divisor.exponent)
}

/// What is left of the first number once the second was taken off as often as it fits. It has the sign of the first. Nothing is
/// left, but NaN, of an infinity or NaN, or for a zero.
#[must_use]
pub fn remainder(number: f64, divisor: f64) -> f64 {
    if number.is_nan() || number.is_infinite() || divisor.is_nan() || divisor == 0.0 {
        return f64::NAN;
    }
    if number.abs() < divisor.abs() {
        return number;
    }
    let rest = remainder_of_sizes(number.abs(), divisor.abs());
    if number < 0.0 { -rest } else { rest }
}
