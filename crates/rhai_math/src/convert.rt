//! Floating-point numbers as integers.

use std::num::saturating_f64_to_i64;

/// The first number above all integers of 64 bits: 2 to the power of 63.
const PAST_INTEGERS: f64 = 9223372036854775808.0;

/// The integer that is left without the fraction; `None` of NaN, and if it doesn't fit 64 bits.
#[must_use]
pub fn integer_of(number: f64) -> Option<i64> {
    if -PAST_INTEGERS <= number && number < PAST_INTEGERS {
        Some(saturating_f64_to_i64(number))
    } else {
        None
    }
}

/// 1 of a number above zero, -1 of one below it, and 0 of both zeros; `None` of NaN.
#[must_use]
pub fn sign_of(number: f64) -> Option<i64> {
    if number > 0.0 {
        Some(1)
    } else if number < 0.0 {
        Some(-1)
    } else if number == 0.0 {
        Some(0)
    } else {
        None
    }
}
