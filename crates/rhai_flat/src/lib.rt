//! Values of a run in the flat form in which hosts in C and Rust pass and receive them.
//!
//! Values go by copy in both directions. [`FlatValues`] is a list of values as rows and the bytes of their texts, and
//! [`read_values`] gives the values of such rows. The rows are those of the constants of a program file, so a host reads both in
//! one way. Values have one flat form: rows that differ from what [`FlatValues`] writes are refused, except that NaN is read from
//! each of its bits. So the bytes of texts are in the order of their rows and without gaps, fields that a tag doesn't use are 0,
//! and the keys of a map ascend.
//!
//! A value of the host's own is a row `SHARED` of [`grain_flat_file::tags`], and a range from its kind to its number: no constant
//! of a program is such a value. `HOST` and `OPERATOR` are tags of no value of a run.
#![tactic(auto)]

mod bad_value;
mod laws;
mod reader;
mod reading;
mod writing;

pub use bad_value::{BadValue, MAX_DEPTH};
pub use grain_flat_file::CValue;
pub use laws::{numbers_keep_bits, rows_tell_forms};
pub use reading::{read_one, read_values};
pub use writing::FlatValues;
