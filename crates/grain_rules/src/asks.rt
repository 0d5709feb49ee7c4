//! What operations, names and chains require of the host.
//!
//! An operation says which name or chain to ask about, and nothing is read of the pools here, so that the verifier can keep what it
//! has read of each once.
ghost use Rattle.std.specs.Prelude.{◌≡◌, ℕ};
ghost use Rattle.grain_rules.specs.Capabilities.{chain_caps, name_caps, root_caps, step_caps};
ghost use Rattle.grain_rules.specs.EffectView.{asked_in};
ghost use Rattle.grain_rules.specs.Setting.{with_caps};

use crate::read::Read;
use grain_base::{Caps, Flags};
use grain_pools::names::split_qualified;
use grain_pools::{Chain, Root, Step};

/// What an operation requires of the host. What a name or a chain requires is in the pools.
#[derive(Clone, Copy, Debug, PartialEq, Eq)]
pub enum Asks {
    /// Nothing.
    Nothing,
    /// These capabilities.
    These(Caps),
    /// What the name of an index requires.
    Name(u32),
    /// `THIS`, and what the name of an index requires.
    NameOnThis(u32),
    /// What the chain of an index requires.
    Chain(u32),
}

/// What naming a variable or a function so requires: a qualified name is one of a module.
#[must_use]
pub fn name_caps(name: &str) -> Caps
    ensures { result.0 ≡ name_caps name.now }
{
    match split_qualified(name) {
        Some(_) => Caps::MODULE,
        None => Caps::empty(),
    }
}

/// What a chain requires: what its root and each of its steps do. It goes through the steps.
#[must_use]
pub fn chain_caps(chain: &Chain) -> Caps
    ensures { result.0 ≡ chain_caps chain.now }
{
    let mut all = root_caps(&chain.root);
    for step in &chain.steps {
        all = all.union(step_caps(step));
    }
    all
}

fn root_caps(root: &Root) -> Caps
    ensures { result.0 ≡ root_caps root.now }
{
    match root {
        Root::This { .. } => Caps::THIS,
        Root::Local { .. } | Root::Named { .. } | Root::Temporary => Caps::empty(),
    }
}

fn step_caps(step: &Step) -> Caps
    ensures { result.0 ≡ step_caps step.now }
{
    match step {
        Step::Index { .. } => Caps::INDEXING,
        Step::Property { .. } => Caps::PROPERTY,
        Step::Method { .. } => Caps::METHOD,
    }
}

/// What an operation requires with these pools; an index past a pool requires nothing. It goes through the name or the
/// chain.
#[must_use]
pub fn asked_beside<P: Read>(pools: &P, asks: Asks) -> Caps
    ensures { (caps : ℕ) → result.0 ≡ asked_in (with_caps caps (P.facts pools.now)) asks }
{
    match asks {
        Asks::Nothing => Caps::empty(),
        Asks::These(caps) => caps,
        Asks::Name(name) => pools.name_asks(name),
        Asks::NameOnThis(name) => Caps::THIS.union(pools.name_asks(name)),
        Asks::Chain(chain) => pools.chain_asks(chain),
    }
}
