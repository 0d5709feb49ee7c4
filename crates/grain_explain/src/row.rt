//! Rows of a stack typing, and the lists of bases that they name.

/// The base of an armed handler, in front of a list of bases: how many operands and iterators stood when the handler was armed,
/// and the list of those that were armed before.
///
/// A number names a list: 0 the empty one, and `k + 1` the one whose first base stands at index `k`. So lists with equal
/// ends share them, and many rows with deep lists take little memory.
#[derive(Clone, Copy, Debug, PartialEq, Eq, PartialOrd, Ord)]
pub struct LinkedBase {
    /// How many operands stood.
    pub operands: u32,
    /// How many iterators stood.
    pub iterators: u32,
    /// The list behind it.
    pub next: u32,
}

/// What is on the stacks when a run reaches an instruction.
#[derive(Clone, Copy, Debug, PartialEq, Eq)]
pub struct Row {
    /// The address of the instruction.
    pub at: u32,
    /// How many operands there are.
    pub operands: u32,
    /// How many iterators there are.
    pub iterators: u32,
    /// The list of the bases of the armed handlers, that of the last first (see [`LinkedBase`]).
    pub bases: u32,
}
