//! How a source text is compiled.

/// How a source text is compiled.
#[derive(Clone, Copy, Debug, Default, PartialEq, Eq, Drop)]
pub struct Options {
    /// Whether a variable that is declared nowhere is an error. Otherwise it is one that the host has.
    pub strict_variables: bool,
    /// The number of the program, by which positions that are kept apart from it know it again.
    pub debug_id: u128,
}
