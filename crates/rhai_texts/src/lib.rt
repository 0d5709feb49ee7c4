//! New texts out of old ones, bytes that values make, and the places to which the indices of scripts lead.
#![tactic(auto)]

pub mod bytes;
pub mod places;
pub mod splitting;
pub mod words;
