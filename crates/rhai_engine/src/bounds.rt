//! The limits of a state.

use rhai_values::SizeLimits;

/// The limits of a state.
#[derive(Clone, Copy, Debug, PartialEq, Eq, Drop)]
pub struct Bounds {
    /// How large a value may be.
    pub size: SizeLimits,
    /// How many frames of a run may wait for functions that they called.
    pub calls: usize,
    /// How many runs may wait for calls of the host while another run is under way.
    pub runs: usize,
    /// How many bytes of output are kept until they are cleared.
    pub printed: usize,
}

impl Bounds {
    /// Limits for scripts of strangers.
    pub const DEFAULT: Bounds = Bounds {
        size: SizeLimits {
            size: 16_000_000,
            depth: 64,
        },
        calls: 1_000,
        runs: 16,
        printed: 1_000_000,
    };
}
