//! Who may call a function.

/// Whether a function of a script can be called from outside it.
#[derive(Clone, Copy, Debug, PartialEq, Eq)]
pub enum FnAccess {
    /// The function is visible to whoever holds the program.
    Public,
    /// The function is visible inside its own script alone.
    Private,
}
