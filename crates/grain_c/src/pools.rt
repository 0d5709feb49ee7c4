//! Pools in their flat form.
ghost use Rattle.std.specs.Prelude.{◌≡◌, MatchBool};
ghost use Rattle.std.specs.Bool.{OnFalse, OnTrue};
ghost use Rattle.grain_flat.specs.Flat.{Pooled};
ghost use Rattle.grain_flat.specs.PoolsFlaws.{PoolsFlaw};

use grain_flat::{CPools, CPoolsFlaw, pools_flaw};

/// Whether pools are flat. If they aren't, the first entry that is wrong is written, of the first list that is.
#[unsafe(no_mangle)]
pub extern "C" fn grain_proved_check_pools(pools: &CPools<'_>, flaw: &mut CPoolsFlaw) -> bool
    ensures flat { MatchBool result (Pooled pools.now) (Pooled pools.now → ⊥) }
    ensures flaw { OnFalse result (PoolsFlaw pools.now flaw.new) }
    ensures kept { OnTrue result (flaw.new ≡ flaw.old) }
{
    match pools_flaw(pools) {
        None => true,
        Some(found) => {
            *flaw = found;
            false
        }
    }
}
