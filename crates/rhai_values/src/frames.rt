//! What a function that is called has: its frame, and the value of `this`.

use crate::path::Key;
use crate::value::Value;

/// A variable of the function that runs.
#[derive(Clone, Copy, Drop)]
pub enum Variable {
    /// The local variable in a slot.
    Local(u16),
    /// The variable of a name.
    Named(u32),
    /// `this`.
    This,
}

/// Where the value of `this` was taken from, and goes back to when the function ends.
#[derive(Drop)]
pub struct Lent {
    /// The variable of the calling function.
    pub variable: Variable,
    /// Where it lies inside the value of that variable.
    pub path: Vec<Key>,
}

/// The value of `this` in a function.
#[derive(Drop)]
pub struct This {
    /// The value itself.
    pub value: Value,
    /// Where it goes back to, if anywhere.
    pub lent: Option<Lent>,
}

/// A function that has begun.
#[derive(Clone, Copy, Drop)]
pub struct Call {
    /// Where the local variables of the calling function begin.
    pub(crate) base: usize,
    /// The address of the operation that called it.
    pub at: usize,
    /// Whether it was called on a value, which is then the last of those of all calls.
    pub has_this: bool,
}
