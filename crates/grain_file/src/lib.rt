//! Program files: from the bytes of a stranger's file to a verified program.
//!
//! [`read`] gives the program that bytes are a file of, [`write`] the file of a program, and [`load`] reads and verifies.
//! [`read_sidecar`] and [`write_sidecar`] do the same for positions that are kept apart. [`outline`] and [`outline_sidecar`] say
//! where each part is. What a file is stands in
//! docs/FORMAT.md ("Program files", "Sidecar files") and in the folder `specs/`. It is made of the formats of its fields, which
//! the crate `grain_format` has. By their laws a program has one file, and a file is of one program.
#![tactic(auto)]

mod draft;
mod file;
mod items;
mod kinds;
pub mod laws;
mod loading;
mod sidecars;
mod writing;

pub use file::{Limits, MAX_DEPTH, ReadError, read};
pub use grain_format::{FieldFault, Part, Unkept, WriteError};
pub use items::Item;
pub use kinds::{FileKind, kind_of};
pub use loading::{LoadError, load};
pub use sidecars::{outline_sidecar, read_sidecar, write_sidecar};
pub use writing::{outline, write};
