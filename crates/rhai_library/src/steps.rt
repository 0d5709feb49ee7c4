//! Numbers at equal distances.

use rhai_texts::places::number_of;
use rhai_values::{Cause, SizeLimits, Value};
use std::alloc::Global;
use std::num::nearest_i64_to_f64;

/// The integers from one to before another, by a step that may be below 0.
pub(crate) fn of_integers(
    alloc: Global,
    limits: SizeLimits,
    bounds: (i64, i64),
    step: i64,
) -> Result<Vec<Value>, Cause> {
    let (from, to) = bounds;
    let Some(rounds) = to.abs_diff(from).checked_div(step.unsigned_abs()) else {
        return Err(no_step());
    };
    let is_upward = step > 0;
    if from == to || is_upward != (from < to) {
        return Ok(Vec::new(alloc));
    }
    let rounds = usize::try_from(rounds).unwrap_or(usize::MAX);
    if rounds >= limits.size {
        return Err(Cause::TooLarge);
    }
    let mut items = Vec::new(alloc);
    let mut number = from;
    for _ in 0..=rounds {
        let is_past = if is_upward {
            number >= to
        } else {
            number <= to
        };
        if is_past {
            return Ok(items);
        }
        items.push(Value::Int(number))?;
        number = number.saturating_add(step);
    }
    Ok(items)
}

/// As [`of_integers`], of floating-point numbers. Each one is the sum of the one before it and the step, which must change it.
pub(crate) fn of_floats(
    alloc: Global,
    limits: SizeLimits,
    bounds: (f64, f64),
    step: f64,
) -> Result<Vec<Value>, Cause> {
    let (from, to) = bounds;
    if step.is_nan() || from + step == from {
        return Err(no_step());
    }
    if (to - from) / step > nearest_i64_to_f64(number_of(limits.size)) {
        return Err(Cause::TooLarge);
    }
    let mut items = Vec::new(alloc);
    let mut number = from;
    for _ in 0..limits.size {
        let is_before = if step > 0.0 { number < to } else { number > to };
        if !is_before {
            return Ok(items);
        }
        items.push(Value::Float(number))?;
        number += step;
    }
    Err(Cause::TooLarge)
}

fn no_step() -> Cause {
    Cause::WrongType("a step that isn't zero")
}
