//! Listings of the cases of a reader: the verdict of each, the state at each instruction, and of a refusal a path to its flaw and
//! the rule that it breaks.
//!
//! [`run`] reads the lines of docs/FORMAT.md, "Lines, cases and verdicts", and writes the [`Listings`] of docs/LISTINGS.md. What is
//! listed of a line is a [`Listing`].
#![tactic(auto)]

mod driver;
mod explained;
mod listing;
mod object;
mod problem;
mod text;

pub use driver::{Listings, run};
pub use explained::{explained_of, write_explained};
pub use listing::Listing;
