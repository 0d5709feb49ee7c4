//! Where operations lead.
ghost use Rattle.std.specs.Prelude.{◌≡◌, IfOk};
ghost use Rattle.grain_rules.specs.FlowFields.{targets_for};
ghost use Rattle.grain_rules.specs.EffectView.{flow_in};

use grain_code::Flow;
use grain_rules::{Effect, Read, Targets};
use std::alloc::{AllocError, Global};

/// All targets of an operation that does this.
///
/// # Errors
/// [`AllocError`] if the memory was refused.
pub(crate) fn targets_of<P: Read>(
    alloc: Global,
    pools: &P,
    effect: &Effect,
) -> Result<Vec<u32>, AllocError>
    ensures { IfOk result (λ v. v.items ≡ targets_for (P.leads pools.now) (flow_in effect.now)) }
{
    match effect.flow {
        Flow::Jumps | Flow::Branches | Flow::AdvancesIterator | Flow::PushesHandler => Ok(
            vec![in alloc; effect.target]?,
        ),
        Flow::Switches => list_of(alloc, pools.targets(effect.target)),
        Flow::Falls | Flow::Ends | Flow::BeginsIterator | Flow::EndsIterator | Flow::PopsHandler =>
            Ok(Vec::new(alloc)),
    }
}

/// The targets of a switch.
fn list_of<T: Targets>(alloc: Global, mut targets: T) -> Result<Vec<u32>, AllocError>
    ensures { IfOk result (λ v. v.items ≡ T.left targets) }
{
    let mut listed = Vec::new(alloc);
    while let Some(target) = targets.next() {
        listed.push(target)?;
    }
    Ok(listed)
}
