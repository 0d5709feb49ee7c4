//! Listings of explained programs, as text for people and as JSON for programs (docs/LISTINGS.md).
//!
//! Each instruction is listed with its address, its bytes and the state there, and of a refusal a path to its flaw and the rule
//! that it breaks. [`ProgramListing`] explains a program, [`write_program`] writes the text and [`write_listed`] the JSON.
//! [`Naming`] says whether names and values of the program replace its indices.
#![tactic(auto)]

mod code;
mod colours;
mod cut;
mod handlers;
mod naming;
mod object;
mod paint;
mod program;
mod refusal;
mod sentence;
mod shown;
mod text;

pub use code::{CodeListing, effect_of};
pub use colours::{Colours, colour_option};
pub use handlers::Handlers;
pub use naming::{Naming, name_of};
pub use object::{Listed, write_listed};
pub use paint::{Kind, Paint};
pub use program::ProgramListing;
pub use refusal::{Needing, lacking};
pub use sentence::{rule, write_wrong};
pub use shown::{push_capabilities, push_name, push_position, push_shown};
pub use text::{
    Style, count_parts, row_at, write_bases, write_chunk, write_code, write_part, write_program,
};
