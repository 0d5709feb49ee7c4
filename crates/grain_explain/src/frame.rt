//! Boundaries of whole instructions.
//!
//! A certificate is checked without memory, so the starts of instructions aren't listed: they are found by reading on.
ghost use Rattle.std.specs.Prelude.{◌≡◌, ◌≤◌, ℕ, List};
ghost use Rattle.grain_code.specs.Split.{Split};
ghost use Rattle.grain_rules.specs.Layout.{IsBoundary};

use grain_code::width;

/// The first boundary of whole instructions that isn't below an address, from a boundary on; if there is none, the
/// end of the code.
pub(crate) fn boundary_from(code: &[u8], from: usize, at: usize) -> usize
    requires whole { (starts : List ℕ) × Split code.now starts }
    requires here { IsBoundary code.now from }
    ensures boundary { IsBoundary code.now result }
    ensures found { IsBoundary code.now at → from ≤ at → result ≡ at }
{
    let mut here = from;
    while here < at {
        let Some(width) = width(code, here) else {
            return here;
        };
        here += width;
    }
    here
}
