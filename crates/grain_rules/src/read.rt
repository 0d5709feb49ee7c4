//! What verification reads of pools, however these are kept.
//!
//! The verifier is generic over this trait, so that pools of a host are read in place and never copied into a form of ours.
ghost use Rattle.std.specs.Prelude.{◌≡◌, ◌∷◌, [], ◌<◌, ◌≤◌, ℕ, IfNone, IfSome, List, get_or, length, map};
ghost use Rattle.std.specs.List.{Contains};
ghost use Rattle.grain_code.specs.declared.field.Pool.TheVariants.{Switches};
ghost use Rattle.grain_pools.specs.Dispatch.{first_past};
ghost use Rattle.grain_rules.specs.Facts.{ChainFacts, Facts};
ghost use Rattle.grain_rules.specs.FirstOut.{alone, first_out, refused, tests_inside};
ghost use Rattle.grain_rules.specs.Indices.{size};

use crate::bounds::BadIndex;
use grain_base::Caps;
use grain_code::Pool;

/// Targets of a switch, one after another.
pub trait Targets: Drop {
    /// Those that are left.
    ghost left: { Self → List ℕ };

    /// The next.
    fn next(&mut self) -> Option<u32>
        ensures some { IfSome result (λ t. left self.old ≡ t ∷ left self.new) }
        ensures none { IfNone result (left self.old ≡ []) };
}

/// What verification reads of pools. No call takes memory; one that goes through a name, a chain or a switch takes time by its
/// length.
///
/// That `facts` and `leads` are those of the host's real pools is believed of an implementation. What its methods return is
/// proved of them, and that both are about the same number of switches.
pub trait Read {
    /// What is said of the pools.
    ghost facts: { Self → Facts };

    /// The targets of each switch.
    ghost leads: { Self → List (List ℕ) };

    /// The targets of a switch.
    type Leads: Targets;

    /// How many entries a pool has.
    fn size(&self, pool: Pool) -> usize
        ensures { result ≡ size (alone (facts self.now)) pool };

    /// How many switches there are, in the facts and among those that lead somewhere.
    fn switches(&self) -> usize
        ensures leads { result ≡ length (leads self.now) }
        ensures facts { result ≡ size (alone (facts self.now)) Switches };

    /// What the name at an index requires of the host; past the names nothing.
    fn name_asks(&self, name: u32) -> Caps
        ensures { result.0 ≡ get_or (facts self.now).names name 0 };

    /// How many operands the chain at an index takes; past the chains none.
    fn chain_takes(&self, chain: u32) -> u32
        ensures { result ≡ get_or (map (λ (c : ChainFacts). c.takes) (facts self.now).chains) chain 0 };

    /// What the chain at an index requires of the host; past the chains nothing.
    fn chain_asks(&self, chain: u32) -> Caps
        ensures { result.0 ≡ get_or (map (λ (c : ChainFacts). c.asks) (facts self.now).chains) chain 0 };

    /// Tests what the chain at an index names: its root, its steps in order, and its tail.
    ///
    /// # Errors
    /// The first that is out of bounds.
    fn check_chain(&self, chain: u32) -> Result<(), BadIndex>
        ensures { refused result ≡ first_out (tests_inside (facts self.now) chain) };

    /// A constant of a case of the switch at an index that is at or above the number of constants, if there is one.
    fn bad_constant(&self, switch: u32) -> Option<u32>
        ensures { result ≡ first_past (facts self.now).consts (get_or (facts self.now).cases switch []) };

    /// Where the switch at an index may lead; past the switches nowhere.
    fn targets(&self, switch: u32) -> Self::Leads
        ensures { Self.Leads.left result ≡ get_or (leads self.now) switch [] };

    /// Where the switch at an index leads by default, if there is one.
    fn default_target(&self, switch: u32) -> Option<u32>
        ensures some { IfSome result (λ t. (switch < length (leads self.now))
            × Contains (get_or (leads self.now) switch []) t) }
        ensures none { IfNone result (length (leads self.now) ≤ switch) };
}
