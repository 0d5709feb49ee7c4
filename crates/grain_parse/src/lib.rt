//! Assembly text (docs/ASSEMBLY.md): [`parse`] makes a program of it; [`read`] stops before anything is verified. The crate `grain_print` writes it.
#![tactic(auto)]

mod chains;
mod chunks;
mod code;
mod draft;
mod error;
mod labels;
mod parsed;
mod parsing;
mod pools;
mod sections;
mod switches;
mod values;

pub use draft::MAX_POSITIONS;
pub use error::{ParseError, SyntaxError};
pub use grain_lexer::LineProblem;
pub use parsed::Parsed;
pub use parsing::{parse, parse_accepted, read};
pub use values::MAX_DEPTH;
