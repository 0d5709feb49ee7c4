//! Whether a program may have functions of its own.
//!
//! It is a test of its own, since a list of functions needs the capability whatever the code does.
ghost use Rattle.std.specs.Prelude.{◌≡◌, ◌≢◌, [], OnOk, IfErr};
ghost use Rattle.grain_base.specs.CapBits.{FUNCTION};
ghost use Rattle.grain_rules.specs.Capabilities.{Allows};

use crate::capabilities::allows;
use crate::error::VerifyError;
use grain_base::Caps;
use grain_code::Function;

/// Tests that the host allows functions if there are some.
///
/// # Errors
/// `MissingCaps` at address 0, with `FUNCTION`.
pub fn check_functions(caps: Caps, functions: &[Function]) -> Result<(), VerifyError>
    ensures ok { OnOk result (functions.now ≢ [] → Allows caps.0 FUNCTION) }
    ensures err { IfErr result (λ e. (asked : Caps) × (e ≡ VerifyError.MissingCaps caps asked 0)
        × (functions.now ≢ []) × (asked.0 ≡ FUNCTION) × (Allows caps.0 FUNCTION → ⊥)) }
{
    if functions.is_empty() || allows(caps, Caps::FUNCTION) {
        Ok(())
    } else {
        Err(VerifyError::MissingCaps {
            artifact: caps,
            missing: Caps::FUNCTION,
            at: 0,
        })
    }
}
