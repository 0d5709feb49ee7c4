//! The pools that instructions point into.

use grain_pools::{Chain, Strings, Switch};

/// The pools of a program, as the verifier needs them: what it must look into, and how many there are of all else.
#[derive(Drop)]
pub struct Pools<'a> {
    /// How many constants an index may name.
    pub consts: usize,
    /// The names. Whether one is qualified decides what its instruction requires of the host.
    pub names: &'a Strings,
    /// How many operators there are.
    pub tokens: usize,
    /// How many op-assignments there are.
    pub assign_ops: usize,
    /// How many fragments of syntax there are that weren't compiled.
    pub residuals: usize,
    /// The chains, with the indices inside them.
    pub chains: &'a [Chain],
    /// The switches, with their targets and the constants of their cases.
    pub switches: &'a [Switch],
}
