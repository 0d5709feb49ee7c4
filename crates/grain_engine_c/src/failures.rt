//! Why and where runs failed, by number.
ghost use Rattle.std.specs.Prelude.{◌≡◌, ◌<◌, ◌^◌, ◌↔◌, IfSome, MatchOption, None, true, false};
ghost use Rattle.grain_engine_c.specs.Numbers.{IsFailureRecord, kind_number, number_or_zero};

use crate::handle::CSession;
use crate::records::CFailure;
use crate::status::{ACCEPTED, NOT_NOW};
use rhai_session::{FaultKind, RunFailure};
use std::alloc::Global;

/// The script threw a value.
pub const THROWN: u32 = 1;

/// No variable has the name, or lies in the slot.
pub const NO_VARIABLE: u32 = 2;

/// No function has the name and takes such arguments.
pub const NO_FUNCTION: u32 = 3;

/// A value has no such property.
pub const NO_PROPERTY: u32 = 4;

/// A value is of another type.
pub const WRONG_TYPE: u32 = 5;

/// A result doesn't fit 64 bits.
pub const OVERFLOW: u32 = 6;

/// A divisor is zero.
pub const DIVISION_BY_ZERO: u32 = 7;

/// No item lies at the index.
pub const OUT_OF_BOUNDS: u32 = 8;

/// `this` is used in a function that wasn't called on a value.
pub const NO_THIS: u32 = 9;

/// The machine doesn't do the operation.
pub const UNSUPPORTED: u32 = 10;

/// The bound on calls was reached.
pub const TOO_DEEP: u32 = 11;

/// A value isn't within the bounds.
pub const TOO_LARGE: u32 = 12;

/// The host failed, or too much was printed.
pub const HOST: u32 = 13;

fn number_of(kind: FaultKind) -> u32
    ensures { result ≡ kind_number kind }
{
    match kind {
        FaultKind::Thrown => THROWN,
        FaultKind::NoVariable => NO_VARIABLE,
        FaultKind::NoFunction => NO_FUNCTION,
        FaultKind::NoProperty => NO_PROPERTY,
        FaultKind::WrongType => WRONG_TYPE,
        FaultKind::Overflow => OVERFLOW,
        FaultKind::DivisionByZero => DIVISION_BY_ZERO,
        FaultKind::OutOfBounds => OUT_OF_BOUNDS,
        FaultKind::NoThis => NO_THIS,
        FaultKind::TooDeep => TOO_DEEP,
        FaultKind::TooLarge => TOO_LARGE,
        FaultKind::Host => HOST,
        FaultKind::Unsupported => UNSUPPORTED,
    }
}

/// A line or a column, and 0 if it isn't known.
fn number_or_zero(number: Option<usize>) -> u32
    requires { IfSome number (λ n. n < 2 ^ 16) }
    ensures { result ≡ number_or_zero number }
{
    match number {
        Some(number) => number as u32,
        None => 0,
    }
}

fn record_of(failure: RunFailure) -> CFailure
    ensures { IsFailureRecord result failure }
{
    CFailure {
        kind: number_of(failure.kind),
        line: number_or_zero(failure.position.line()),
        column: number_or_zero(failure.position.position()),
        at: failure.at,
    }
}

/// Writes why and where the last run that failed did.
///
/// - 0: it is written.
/// - 15: none has failed, or the handle keeps nothing.
#[unsafe(no_mangle)]
pub extern "C" fn grain_proved_session_failure(
    alloc: Global,
    session: &mut CSession,
    failure: &mut CFailure,
) -> u32
    ensures made { session.new.made ≡ session.old.made }
    ensures empty { session.old.made ≡ false → result ≡ NOT_NOW }
    ensures kept { session.old.made ≡ true → session.new.content ≡ session.old.content }
    ensures none { session.old.made ≡ true
        → (result ≡ NOT_NOW) ↔ (session.old.content.failure ≡ None) }
    ensures some { result ≡ ACCEPTED
        → MatchOption session.old.content.failure ⊥ (IsFailureRecord failure.new) }
{
    let Some(kept) = session.take(alloc) else {
        return NOT_NOW;
    };
    let found = kept.failure();
    session.keep(alloc, kept);
    match found {
        Some(found) => {
            *failure = record_of(found);
            ACCEPTED
        }
        None => NOT_NOW,
    }
}
