//! What crosses to C.
ghost use Rattle.std.specs.Prelude.{◌≡◌};

use rhai_engine::Bounds;
use rhai_values::SizeLimits;

/// What a script may use.
#[repr(C)]
#[derive(Clone, Copy)]
pub struct CBounds {
    /// How many values and bytes of text one value has at most.
    pub value_size: usize,
    /// How deep values are nested at most.
    pub value_depth: usize,
    /// How many calls of functions of the script may wait in one run.
    pub calls: usize,
    /// How many runs may wait for the host while another one is under way.
    pub runs: usize,
    /// How many bytes of output are kept.
    pub printed: usize,
    /// How many bytes of memory are taken: the allocator enforces it, and nothing here reads it.
    pub memory: usize,
}

/// Why and where a run failed.
#[repr(C)]
#[derive(Clone, Copy)]
pub struct CFailure {
    /// Of which kind the fault is (`crate::failures`).
    pub kind: u32,
    /// The line, from 1; 0: it isn't known.
    pub line: u32,
    /// The column, from 1; 0: it isn't known.
    pub column: u32,
    /// The address of the operation.
    pub at: usize,
}

/// How much a session has to show.
#[repr(C)]
#[derive(Clone, Copy)]
pub struct CSizes {
    /// How many rows.
    pub rows: usize,
    /// How many bytes of texts.
    pub texts: usize,
    /// How many values.
    pub count: usize,
}

/// The bounds of a state.
pub(crate) fn bounds_of(bounds: &CBounds) -> Bounds
    ensures calls { result.calls ≡ bounds.now.calls }
    ensures runs { result.runs ≡ bounds.now.runs }
{
    Bounds {
        size: SizeLimits {
            size: bounds.value_size,
            depth: bounds.value_depth,
        },
        calls: bounds.calls,
        runs: bounds.runs,
        printed: bounds.printed,
    }
}
