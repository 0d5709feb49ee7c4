//! The lines of the program `grain_check`, and of others that read them: which are cases, what a case means, and the verdict on it.
//!
//! Lines, cases and verdicts are those of docs/FORMAT.md, "Lines, cases and verdicts".
#![tactic(auto)]

mod case;
mod driver;
mod fields;
mod lines;
mod outcome;
mod report;
mod stream;
mod verdict;
mod words;

pub use case::{LineCase, case_of};
pub use driver::run;
pub use fields::{are_hex_digits, caps_of, chunk_of, hex_of, u32_of};
pub use lines::{is_case, without_return};
pub use outcome::{RunError, Summary, status};
pub use stream::{Failed, OverRead, OverWrite, Sink, Source};
pub use verdict::{write_accepted, write_verdict};
pub use words::{next_word, split_at_byte};
