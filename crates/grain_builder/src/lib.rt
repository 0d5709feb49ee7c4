//! Operations in the making, each of which fits where it stands: an [`Assembler`] keeps what a typing by index has at the next
//! operation, and what is found at each label.
#![tactic(auto)]

mod assembler;
mod blocks;
mod chunks;
mod labels;
mod leaving;
mod level;
mod resolving;
mod writing;

pub use assembler::{Assembler, TableTargets};
pub use level::Level;
pub use resolving::Assembled;
