//! What chains are made of, by number.

/// A chain begins at a local variable.
pub const LOCAL: u32 = 0;

/// A chain begins at a variable that is looked up by its name.
pub const NAMED: u32 = 1;

/// A chain begins at the receiver of the function.
pub const THIS: u32 = 2;

/// A chain begins at a value that lies on the operand stack.
pub const TEMPORARY: u32 = 3;

/// A step is an index.
pub const INDEX: u32 = 0;

/// A step is a property.
pub const PROPERTY: u32 = 1;

/// A step is a call of a method.
pub const METHOD: u32 = 2;

/// A chain gives the value that it has reached.
pub const READ: u32 = 0;

/// A chain assigns to what it has reached.
pub const ASSIGN: u32 = 1;

/// A chain assigns through an op-assignment.
pub const ASSIGN_THROUGH: u32 = 2;
