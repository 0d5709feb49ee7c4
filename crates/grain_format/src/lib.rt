//! The fields of program files: how each is encoded, read and written.
//!
//! A [`FileField`] is a type with a *format* (docs/FORMAT.md, "Program files"; the folder `specs/`). The format says how values are
//! spelled, what reading gives and which values are refused. It has the laws that tie these to one another. [`Cursor`] reads the
//! bytes. Names, constants and switches have functions of their own. A host uses `grain_file`, which re-exports what is for hosts.
#![tactic(auto)]

mod cases;
mod chains;
mod copy;
mod cursor;
mod error;
mod field;
mod functions;
mod integer;
mod lists;
mod names;
mod number;
mod parts;
mod switches;
mod tokens;
mod values;

pub use cursor::Cursor;
pub use error::{FieldFault, Stop, Unkept, WriteError};
pub use field::FileField;
pub use names::read_names;
pub use number::{put_bytes, put_number};
pub use parts::Part;
pub use switches::{put_switch, read_switches};
pub use values::{put_value, read_values};
