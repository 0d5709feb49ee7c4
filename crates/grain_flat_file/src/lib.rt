//! Program files in the flat form in which they are handed to programs in C and Rust.
//!
//! [`FlatFile`] is the flat form of a program, which takes its place. [`tighten`] and [`strip`] write a file again. What stands in
//! the form and in the files is said in the folder `specs/`. The exports of the static library stand in `grain_c`.
#![tactic(auto)]

mod begins;
pub mod causes;
mod changed;
mod contents;
mod copies;
mod errors;
mod functions;
pub mod laws;
mod loading;
pub mod parts;
mod pools;
mod recalled;
mod records;
pub mod tags;
mod unflat;
mod values;

pub use changed::{StripStop, Stripped, TightenStop, strip, tighten};
pub use contents::FlatFile;
pub use errors::{read_error_of, read_error_record};
pub use loading::{FileStop, read_flat};
pub use records::{
    CContents, CFunction, CLimits, CONTENTS_SIZE, COpAssignment, CRange, CReadError, CValue,
};
pub use unflat::Unflat;
