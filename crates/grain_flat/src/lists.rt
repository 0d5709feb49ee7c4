//! The lists of pools, by number.

/// The constants.
pub const CONSTANTS: u32 = 1;

/// The names, with their starts.
pub const NAMES: u32 = 2;

/// The chains.
pub const CHAINS: u32 = 3;

/// The steps of all chains.
pub const STEPS: u32 = 4;

/// The switches.
pub const SWITCHES: u32 = 5;

/// The cases of all switches.
pub const CASES: u32 = 6;

/// The ranges of all switches.
pub const RANGES: u32 = 7;
