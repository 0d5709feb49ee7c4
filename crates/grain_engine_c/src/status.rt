//! What calls return, by number: each number means one thing, also in `crates/grain_c`.
ghost use Rattle.std.specs.Prelude.{◌≡◌};
ghost use Rattle.grain_engine_c.specs.Numbers.{status_number};

use rhai_session::Refused;

/// The call did what it is for.
pub const ACCEPTED: u32 = 0;

/// The program is refused, and the refusal is written.
pub const REFUSED: u32 = 1;

/// A list of the caller's has too few items.
pub const SHORT: u32 = 2;

/// The allocator refused.
pub const OUT_OF_MEMORY: u32 = 3;

/// The chunks span more of the code than the limit allows.
pub const TOO_MUCH_WORK: u32 = 5;

/// The bytes are no file within the limits, and why is written.
pub const MALFORMED: u32 = 9;

/// A limit is above its greatest value.
pub const BAD_LIMIT: u32 = 11;

/// The source text has an error, and a report is written.
pub const NO_SCRIPT: u32 = 13;

/// The script has no function or variable of this name.
pub const NO_NAME: u32 = 14;

/// It isn't time for the call.
pub const NOT_NOW: u32 = 15;

/// Bytes are no text, or rows are no values within the bounds.
pub const BAD_VALUE: u32 = 16;

/// A constant of the program is a value of another host.
pub const FOREIGN_CONSTANT: u32 = 17;

/// What is returned if a session does a call, or doesn't.
pub(crate) fn status_of(done: Result<(), Refused>) -> u32
    ensures { result ≡ status_number done }
{
    match done {
        Ok(()) => ACCEPTED,
        Err(Refused::NoName) => NO_NAME,
        Err(Refused::NotNow) => NOT_NOW,
        Err(Refused::BadValue) => BAD_VALUE,
        Err(Refused::OutOfMemory) => OUT_OF_MEMORY,
    }
}
