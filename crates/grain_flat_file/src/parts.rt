//! The parts of a file, by number.

/// The magic, the version and the kind.
pub const HEADER: u32 = 0;

/// The capabilities.
pub const CAPABILITIES: u32 = 1;

/// The number of the program.
pub const ID: u32 = 2;

/// The code.
pub const CODE: u32 = 3;

/// The main chunk.
pub const MAIN_CHUNK: u32 = 4;

/// How many functions there are.
pub const FUNCTIONS: u32 = 5;

/// A function.
pub const FUNCTION: u32 = 6;

/// How many names there are.
pub const NAMES: u32 = 7;

/// A name.
pub const NAME: u32 = 8;

/// How many constants there are.
pub const CONSTANTS: u32 = 9;

/// A constant.
pub const CONSTANT: u32 = 10;

/// How many operators there are.
pub const OPERATORS: u32 = 11;

/// An operator.
pub const OPERATOR: u32 = 12;

/// How many op-assignments there are.
pub const OP_ASSIGNMENTS: u32 = 13;

/// An op-assignment.
pub const OP_ASSIGNMENT: u32 = 14;

/// How many chains there are.
pub const CHAINS: u32 = 15;

/// A chain.
pub const CHAIN: u32 = 16;

/// How many switches there are.
pub const SWITCHES: u32 = 17;

/// A switch.
pub const SWITCH: u32 = 18;

/// The name of the source, or that there is none.
pub const SOURCE_NAME: u32 = 19;

/// How many positions there are, or that there are none.
pub const POSITIONS: u32 = 20;

/// A position.
pub const POSITION: u32 = 21;

/// The address table of a sidecar.
pub const ADDRESS_TABLE: u32 = 22;

/// The chain stream of a sidecar.
pub const CHAIN_STREAM: u32 = 23;

/// What follows the last part.
pub const REST: u32 = 24;
