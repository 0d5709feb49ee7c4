//! Values as JSON, and out of it.
#![tactic(auto)]

mod reading;
mod writing;

pub use reading::parsed;
pub use writing::text_of;
