//! Why and where runs failed.
ghost use Rattle.std.specs.Prelude.{◌≡◌};
ghost use Rattle.rhai_session.specs.Kinds.{kind_of, kind_of_reason};

use grain::Position;
use rhai_values::{Cause, Reason};

/// Of which kind a fault is.
#[derive(Clone, Copy, Debug, PartialEq, Eq, Drop)]
pub enum FaultKind {
    /// The script threw a value, which the host is shown.
    Thrown,
    /// No variable has the name, or lies in the slot.
    NoVariable,
    /// No function has the name and takes such arguments.
    NoFunction,
    /// A value has no such property.
    NoProperty,
    /// A value is of another type.
    WrongType,
    /// A result doesn't fit 64 bits.
    Overflow,
    /// A divisor is zero.
    DivisionByZero,
    /// No item lies at the index.
    OutOfBounds,
    /// `this` is used in a function that wasn't called on a value.
    NoThis,
    /// The bound on calls was reached.
    TooDeep,
    /// A value isn't within the bounds.
    TooLarge,
    /// The host failed, or too much was printed.
    Host,
    /// The machine doesn't do the operation.
    Unsupported,
}

/// Why and where a run failed.
#[derive(Clone, Copy, Debug, PartialEq, Eq, Drop)]
pub struct RunFailure {
    /// Of which kind the fault is.
    pub kind: FaultKind,
    /// The address of the operation that failed.
    pub at: usize,
    /// Where that is in the source text, or the step of a chain that failed.
    pub position: Position,
}

/// Of which kind a cause is. A lack of memory is an event of its own, and a script that ends itself doesn't fail.
pub(crate) fn kind_of(cause: &Cause) -> Option<FaultKind>
    ensures { result ≡ kind_of cause.now }
{
    match cause {
        Cause::Thrown(_) => Some(FaultKind::Thrown),
        Cause::Detailed(reason, _) => Some(kind_of_reason(*reason)),
        Cause::WrongType(_) => Some(FaultKind::WrongType),
        Cause::OutOfBounds(_, _) => Some(FaultKind::OutOfBounds),
        Cause::NoThis => Some(FaultKind::NoThis),
        Cause::TooDeep => Some(FaultKind::TooDeep),
        Cause::TooLarge => Some(FaultKind::TooLarge),
        Cause::Unsupported => Some(FaultKind::Unsupported),
        Cause::Exited(_) | Cause::OutOfMemory => None,
    }
}

fn kind_of_reason(reason: Reason) -> FaultKind
    ensures { result ≡ kind_of_reason reason }
{
    match reason {
        Reason::NoVariable => FaultKind::NoVariable,
        Reason::NoFunction => FaultKind::NoFunction,
        Reason::NoProperty => FaultKind::NoProperty,
        Reason::Overflow => FaultKind::Overflow,
        Reason::DivisionByZero => FaultKind::DivisionByZero,
        Reason::NoNumber => FaultKind::WrongType,
        Reason::World => FaultKind::Host,
    }
}
