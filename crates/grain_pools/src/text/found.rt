//! What an index finds, or the error that says that it finds nothing.
ghost use Rattle.std.specs.Prelude.{◌≡◌, ◌∷◌, [], Some, IfOk, slice_get};
ghost use Rattle.grain_pools.specs.LookedUp.{LooksUp, name, constant, operator, op_assignment, chain, switch};

use super::error::DisassembleError;
use crate::assign_op::AssignOp;
use crate::chain::Chain;
use crate::lookups::Lookups;
use crate::switch::Switch;
use grain_base::{Dynamic, Token};

/// The name at the index.
pub fn find_name<L: Lookups>(lookups: &L, index: u32) -> Result<&str, DisassembleError>
    ensures { LooksUp (L.pools lookups.now) (λ _. name index ∷ []) result }
{
    lookups.name(index).ok_or(DisassembleError::Missing {
        what: "name",
        index,
    })
}

/// The constant at the index.
pub fn find_constant<L: Lookups>(lookups: &L, index: u32) -> Result<&Dynamic, DisassembleError>
    ensures { LooksUp (L.pools lookups.now) (λ _. constant index ∷ []) result }
{
    lookups.constant(index).ok_or(DisassembleError::Missing {
        what: "constant",
        index,
    })
}

/// The operator at the index.
pub fn find_token<L: Lookups>(lookups: &L, index: u32) -> Result<&Token, DisassembleError>
    ensures { LooksUp (L.pools lookups.now) (λ _. operator index ∷ []) result }
{
    lookups.token(index).ok_or(DisassembleError::Missing {
        what: "operator",
        index,
    })
}

/// The op-assignment at the index.
pub(super) fn find_assign_op<L: Lookups>(
    lookups: &L,
    index: u32,
) -> Result<&AssignOp, DisassembleError>
    ensures looked_up { LooksUp (L.pools lookups.now) (λ _. op_assignment index ∷ []) result }
    ensures found { IfOk result (λ assign_op.
        slice_get (L.pools lookups.now).assign_ops index ≡ Some assign_op.now) }
{
    lookups.assign_op(index).ok_or(DisassembleError::Missing {
        what: "op-assignment",
        index,
    })
}

/// The chain at the index.
pub(super) fn find_chain<L: Lookups>(lookups: &L, index: u32) -> Result<&Chain, DisassembleError>
    ensures looked_up { LooksUp (L.pools lookups.now) (λ _. chain index ∷ []) result }
    ensures found { IfOk result (λ chain.
        slice_get (L.pools lookups.now).chains index ≡ Some chain.now) }
{
    lookups.chain(index).ok_or(DisassembleError::Missing {
        what: "chain",
        index,
    })
}

/// The switch at the index.
pub(super) fn find_switch<L: Lookups>(lookups: &L, index: u32) -> Result<&Switch, DisassembleError>
    ensures looked_up { LooksUp (L.pools lookups.now) (λ _. switch index ∷ []) result }
    ensures found { IfOk result (λ switch.
        slice_get (L.pools lookups.now).switches index ≡ Some switch.now) }
{
    lookups.switch(index).ok_or(DisassembleError::Missing {
        what: "switch",
        index,
    })
}
