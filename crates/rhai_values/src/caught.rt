//! Faults as scripts catch them.

use crate::cause::{Cause, Reason};
use crate::value::{Object, Value};
use grain_base::Position;
use std::alloc::{AllocError, Global};
use std::rc::Rc;

impl Cause {
    /// What a `catch` binds: the value that the script threw, or an object map with the name that Rhai has for the error as `error`,
    /// its sentence as `message`, and its `line` and `position` if they are known.
    ///
    /// # Errors
    /// Out of memory.
    pub fn into_value(self, alloc: Global, place: Position) -> Result<Value, AllocError> {
        match self {
            Cause::Thrown(value) => Ok(value),
            cause => cause.to_map(alloc, place),
        }
    }

    fn to_map(&self, alloc: Global, place: Position) -> Result<Value, AllocError> {
        let mut object = Object::new(alloc);
        self.describe(alloc, &mut object)?;
        locate(alloc, &mut object, place)?;
        Ok(Value::Map(Rc::new(alloc, object)?))
    }

    /// Adds the name and the sentence.
    fn describe(&self, alloc: Global, object: &mut Object) -> Result<(), AllocError> {
        let name = String::from_str(alloc, self.error_name())?;
        put_text(alloc, object, "error", name)?;
        put_text(alloc, object, "message", format!(in alloc; "{self}")?)
    }

    /// The name of the variant of Rhai's `EvalAltResult`.
    fn error_name(&self) -> &'static str {
        match self {
            Cause::Detailed(reason, _) => name_of(*reason),
            Cause::WrongType(_) => "ErrorMismatchDataType",
            Cause::OutOfBounds(..) => "ErrorArrayBounds",
            Cause::NoThis => "ErrorUnboundThis",
            Cause::TooDeep => "ErrorStackOverflow",
            Cause::TooLarge => "ErrorDataTooLarge",
            Cause::Thrown(_) | Cause::Exited(_) | Cause::OutOfMemory | Cause::Unsupported => {
                "ErrorRuntime"
            }
        }
    }
}

fn name_of(reason: Reason) -> &'static str {
    match reason {
        Reason::NoVariable => "ErrorVariableNotFound",
        Reason::NoFunction => "ErrorFunctionNotFound",
        Reason::NoProperty => "ErrorPropertyNotFound",
        Reason::Overflow | Reason::DivisionByZero | Reason::NoNumber => "ErrorArithmetic",
        Reason::World => "ErrorRuntime",
    }
}

/// Adds the line and the column that are known.
fn locate(alloc: Global, object: &mut Object, place: Position) -> Result<(), AllocError> {
    if let Some(line) = place.line() {
        put(alloc, object, "line", integer(line))?;
    }
    if let Some(column) = place.position() {
        put(alloc, object, "position", integer(column))?;
    }
    Ok(())
}

fn put_text(
    alloc: Global,
    object: &mut Object,
    name: &str,
    text: String,
) -> Result<(), AllocError> {
    put(alloc, object, name, Value::text(alloc, text)?)
}

fn put(alloc: Global, object: &mut Object, name: &str, value: Value) -> Result<(), AllocError> {
    let _is_new = object.insert(String::from_str(alloc, name)?, value)?;
    Ok(())
}

fn integer(number: usize) -> Value {
    Value::Int(i64::try_from(number).unwrap_or(i64::MAX))
}
