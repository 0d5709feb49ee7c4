//! Random programs, for tests of machines and verifiers: accepted ones, and ones that are one step away from that.
//!
//! [`smith`] writes operations by index at random. It keeps the state that a typing has at each of them, so that what it writes
//! is accepted. [`smith_near`] changes one thing of such a program. The same seed gives the same program everywhere.
#![tactic(auto)]

mod chains;
mod chance;
mod closing;
mod draft;
mod error;
mod frames;
mod leaving;
mod lists;
mod near;
mod opening;
mod operators;
mod options;
mod plain;
mod smithing;
mod steps;
mod supply;
mod switches;
mod values;
mod writer;

pub use error::SmithError;
pub use near::smith_near;
pub use options::SmithOptions;
pub use smithing::smith;
