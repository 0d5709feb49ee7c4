//! What a number is: the kinds of the fields of instructions, and of the indices that refusals name.

/// There is no number.
pub const NOTHING: u32 = 0;

/// An index of a constant.
pub const CONSTANT: u32 = 1;

/// An index of a name.
pub const NAME: u32 = 2;

/// An index of an operator.
pub const OPERATOR: u32 = 3;

/// An index of an op-assignment.
pub const OP_ASSIGNMENT: u32 = 4;

/// An index of a fragment of syntax.
pub const FRAGMENT: u32 = 5;

/// An index of a chain.
pub const CHAIN: u32 = 6;

/// An index of a switch.
pub const SWITCH: u32 = 7;

/// An index of a site of custom syntax.
pub const SYNTAX_SITE: u32 = 8;

/// A place among the operands of a chain.
pub const OPERAND: u32 = 9;

/// A slot, a depth, a length, or an index within a literal.
pub const SLOT: u32 = 10;

/// A count of arguments or of operands.
pub const COUNT: u32 = 11;

/// A jump target: an address in the code.
pub const TARGET: u32 = 12;

/// There is no address: that of an instruction is less.
pub const NO_ADDRESS: u32 = 0xffff_ffff;

/// There is no base: an index of one is less.
pub const NO_BASE: u32 = 0xffff_ffff;
