//! What the indices in instructions lead to.
ghost use Rattle.std.specs.Prelude.{◌≡◌, option_map, slice_get};
ghost use Rattle.std.specs.Option.{option_copied};
ghost use Rattle.grain_pools.specs.Pools.{Pools};

use crate::assign_op::AssignOp;
use crate::chain::Chain;
use crate::switch::Switch;
use grain_base::{Dynamic, Token};

/// Pools whose entries are looked up by the indices that instructions carry.
///
/// Contracts see the pools as lists. An index past the end of a list finds nothing.
pub trait Lookups {
    ghost pools: { Self → Pools };

    /// The name at the index, or `None` past the names.
    fn name(&self, index: u32) -> Option<&str>
        ensures { option_map (λ text. text.now) result ≡ slice_get (pools self.now).names index };

    /// The constant at the index, or `None` past the constants.
    fn constant(&self, index: u32) -> Option<&Dynamic>
        ensures { option_copied result ≡ slice_get (pools self.now).constants index };

    /// The operator at the index, or `None` past the operators.
    fn token(&self, index: u32) -> Option<&Token>
        ensures { option_copied result ≡ slice_get (pools self.now).tokens index };

    /// The op-assignment at the index, or `None` past the op-assignments.
    fn assign_op(&self, index: u32) -> Option<&AssignOp>
        ensures { option_copied result ≡ slice_get (pools self.now).assign_ops index };

    /// The chain at the index, or `None` past the chains.
    fn chain(&self, index: u32) -> Option<&Chain>
        ensures { option_copied result ≡ slice_get (pools self.now).chains index };

    /// The switch at the index, or `None` past the switches.
    fn switch(&self, index: u32) -> Option<&Switch>
        ensures { option_copied result ≡ slice_get (pools self.now).switches index };
}
