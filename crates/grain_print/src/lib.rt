//! The assembly text of a program (docs/ASSEMBLY.md): [`print`] writes it, a [`Printer`] piece by piece. The crate `grain_parse` parses it. The texts of single
//! entries are for other listings.
#![tactic(auto)]

mod chains;
mod code;
mod forms;
mod marks;
mod operators;
mod program;
mod quote;
mod switches;
mod values;

pub use chains::write_chain;
pub use code::UNLISTED;
pub use forms::{Operand, TextForm, form_named, form_of};
pub use marks::Marks;
pub use operators::{spelling, token_spelled, write_assign_op, write_token};
pub use program::{Printer, print, write_capabilities, write_chunk, write_function};
pub use quote::{write_front, write_text};
pub use switches::write_switch;
pub use values::write_value;
