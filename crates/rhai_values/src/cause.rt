//! Why operations fail.

use crate::value::Value;
use std::alloc::{AllocError, AllocFailed, Global};
use std::fmt;

/// Why an operation failed, if a text has the details.
#[derive(Clone, Copy, Debug, PartialEq, Eq, Drop)]
pub enum Reason {
    /// No variable has the name in the text, or none is in the slot.
    NoVariable,
    /// No function has this name and takes such arguments. The text has the name and the types of the arguments.
    NoFunction,
    /// A value has no property of the name in the text.
    NoProperty,
    /// A result doesn't fit 64 bits. The text has the operation.
    Overflow,
    /// A divisor is zero. The text has the operation.
    DivisionByZero,
    /// A string isn't a number. The text is the whole message.
    NoNumber,
    /// The world outside the script failed. The text is the whole message.
    World,
}

/// Why an operation of a script fails. One case alone has a text, since each case that owns memory adds to the proof of every
/// function that may drop a cause.
#[derive(Drop)]
pub enum Cause {
    /// The script threw this value.
    Thrown(Value),
    /// The script ends itself, and this is its value. It is no fault.
    Exited(Value),
    /// It failed for this reason, and the text has the details.
    Detailed(Reason, String),
    /// A value is of another type than this.
    WrongType(&'static str),
    /// No item lies at this index of a value that has this many items.
    OutOfBounds(i64, usize),
    /// `this` is used in a function that wasn't called on a value.
    NoThis,
    /// The limit on calls under way was reached.
    TooDeep,
    /// A value would be larger, or nested deeper, than the limits allow.
    TooLarge,
    /// Out of memory.
    OutOfMemory,
    /// The host doesn't do this operation.
    Unsupported,
}

impl Reason {
    /// How the sentence begins that ends with the text.
    fn beginning(self) -> &'static str {
        match self {
            Reason::NoVariable => "Variable not found: ",
            Reason::NoFunction => "Function not found: ",
            Reason::NoProperty => "Property not found: ",
            Reason::Overflow | Reason::DivisionByZero | Reason::NoNumber | Reason::World => "",
        }
    }
}

impl Cause {
    /// Whether a script may catch it. The limits of the host and memory are no matter of the script's.
    #[must_use]
    pub fn is_catchable(&self) -> bool {
        match self {
            Cause::TooDeep
            | Cause::TooLarge
            | Cause::OutOfMemory
            | Cause::Exited(_)
            | Cause::Detailed(Reason::World, _) => false,
            _ => true,
        }
    }

    /// The cause if no function has this name and takes such arguments, the receiver before the others. It is
    /// [`Cause::OutOfMemory`] if there is none for its text.
    #[must_use]
    pub fn no_function(
        alloc: Global,
        name: &str,
        receiver: Option<&Value>,
        arguments: &[Value],
    ) -> Cause {
        match signature(alloc, name, receiver, arguments) {
            Ok(text) => Cause::Detailed(Reason::NoFunction, text),
            Err(_) => Cause::OutOfMemory,
        }
    }
}

/// A name with the types of its arguments.
fn signature(
    alloc: Global,
    name: &str,
    receiver: Option<&Value>,
    arguments: &[Value],
) -> Result<String, AllocError> {
    let mut text = String::from_str(alloc, name)?;
    text.push_str(" (")?;
    let mut is_first = true;
    if let Some(receiver) = receiver {
        text.push_str(receiver.type_name())?;
        is_first = false;
    }
    for argument in arguments {
        if !is_first {
            text.push_str(", ")?;
        }
        is_first = false;
        text.push_str(argument.type_name())?;
    }
    text.push(')')?;
    Ok(text)
}

impl From<AllocError> for Cause {
    fn from(_: AllocError) -> Cause {
        Cause::OutOfMemory
    }
}

impl<T: Drop> From<AllocFailed<T>> for Cause {
    fn from(_: AllocFailed<T>) -> Cause {
        Cause::OutOfMemory
    }
}

impl fmt::Display for Cause {
    fn fmt<W: fmt::Write>(&self, f: &mut fmt::Formatter<W>) -> fmt::Result {
        match self {
            Cause::Thrown(value) => write!(f, "Runtime error: {value}"),
            Cause::Exited(_) => f.write_str("Script exited"),
            Cause::Detailed(reason, text) => {
                f.write_str(reason.beginning())?;
                f.write_str(text.as_str())
            }
            Cause::WrongType(wanted) => write!(f, "Data type incorrect: expecting {wanted}"),
            Cause::OutOfBounds(index, len) => {
                write!(f, "Index out of bounds: {index} (length {len})")
            }
            Cause::NoThis => f.write_str("'this' not bound"),
            Cause::TooDeep => f.write_str("Stack overflow"),
            Cause::TooLarge => f.write_str("Size of data too large"),
            Cause::OutOfMemory => f.write_str("Out of memory"),
            Cause::Unsupported => f.write_str("Unsupported operation"),
        }
    }
}
