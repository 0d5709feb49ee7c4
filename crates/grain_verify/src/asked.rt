//! What names and chains require, once code that is walked has named them.
ghost use Rattle.std.specs.Prelude.{◌≡◌, ℕ, IfOk, List, OnOk, get_or, map};
ghost use Rattle.grain_rules.specs.EffectView.{asked_in};
ghost use Rattle.grain_rules.specs.Facts.{ChainFacts, Facts};
ghost use Rattle.grain_rules.specs.Setting.{Setting};
ghost use Rattle.grain_verify.specs.Asked.{AreKnown, Knows};

use grain_base::{Caps, Flags};
use grain_code::Pool;
use grain_rules::{Asks, Read};
use std::alloc::{AllocError, Global};

/// What names and chains require of the host, as far as it is known.
///
/// It is read when code first names one. So an operation costs no more if its name or its chain is long, and a name that no code
/// uses takes no time. Memory is taken for all names once code names one, and so for chains.
#[derive(Drop)]
pub(crate) struct Asked {
    names: Vec<Option<Caps>>,
    chains: Vec<Option<Caps>>,
}

impl Asked {
    /// It takes no memory until code names a name or a chain.
    #[inline(always)]
    pub(crate) fn new(alloc: Global) -> Asked {
        Asked {
            names: Vec::new(alloc),
            chains: Vec::new(alloc),
        }
    }

    /// Nothing is known any more. The memory stays for other pools.
    #[tactic(auto, using(crate::proofs::KnownCapabilities::nothing_known))]
    pub(crate) fn forget(&mut self)
        ensures { (facts : Facts) → Knows facts self.new }
    {
        self.names.clear();
        self.chains.clear();
    }

    /// What an operation requires.
    ///
    /// # Errors
    /// [`AllocError`] if the memory for what all names, or all chains, require was refused.
    #[inline(always)]
    pub(crate) fn of<P: Read>(&mut self, pools: &P, asks: Asks) -> Result<Caps, AllocError>
        requires { Knows (P.facts pools.now) self.old }
        ensures knows { OnOk result (Knows (P.facts pools.now) self.new) }
        ensures asks { IfOk result (λ caps. (s : Setting) → s.facts ≡ P.facts pools.now
            → caps.0 ≡ asked_in s asks) }
    {
        match asks {
            Asks::Nothing => Ok(Caps::empty()),
            Asks::These(caps) => Ok(caps),
            Asks::Name(name) => self.by_name(pools, name),
            Asks::NameOnThis(name) => Ok(Caps::THIS.union(self.by_name(pools, name)?)),
            Asks::Chain(chain) => self.by_chain(pools, chain),
        }
    }

    #[inline(always)]
    fn by_name<P: Read>(&mut self, pools: &P, name: u32) -> Result<Caps, AllocError>
        requires { Knows (P.facts pools.now) self.old }
        ensures knows { OnOk result (Knows (P.facts pools.now) self.new) }
        ensures asks { IfOk result (λ caps. caps.0 ≡ get_or (P.facts pools.now).names name 0) }
    {
        match known_at(&self.names, name) {
            Some(caps) => Ok(caps),
            None => self.read_name(pools, name),
        }
    }

    #[inline(always)]
    fn by_chain<P: Read>(&mut self, pools: &P, chain: u32) -> Result<Caps, AllocError>
        requires { Knows (P.facts pools.now) self.old }
        ensures knows { OnOk result (Knows (P.facts pools.now) self.new) }
        ensures asks { IfOk result (λ caps. caps.0
            ≡ get_or (map (λ (c : ChainFacts). c.asks) (P.facts pools.now).chains) chain 0) }
    {
        match known_at(&self.chains, chain) {
            Some(caps) => Ok(caps),
            None => self.read_chain(pools, chain),
        }
    }

    /// What a name requires of which that isn't known yet. It is called once for each name, and compiled apart.
    #[cold]
    #[inline(never)]
    fn read_name<P: Read>(&mut self, pools: &P, name: u32) -> Result<Caps, AllocError>
        requires { Knows (P.facts pools.now) self.old }
        ensures knows { OnOk result (Knows (P.facts pools.now) self.new) }
        ensures asks { IfOk result (λ caps. caps.0 ≡ get_or (P.facts pools.now).names name 0) }
    {
        let caps = pools.name_asks(name);
        note(&mut self.names, pools.size(Pool::Names), name, caps)?;
        Ok(caps)
    }

    /// The same of a chain.
    #[cold]
    #[inline(never)]
    fn read_chain<P: Read>(&mut self, pools: &P, chain: u32) -> Result<Caps, AllocError>
        requires { Knows (P.facts pools.now) self.old }
        ensures knows { OnOk result (Knows (P.facts pools.now) self.new) }
        ensures asks { IfOk result (λ caps. caps.0
            ≡ get_or (map (λ (c : ChainFacts). c.asks) (P.facts pools.now).chains) chain 0) }
    {
        let caps = pools.chain_asks(chain);
        note(&mut self.chains, pools.size(Pool::Chains), chain, caps)?;
        Ok(caps)
    }
}

/// What is known at an index.
#[inline(always)]
fn known_at(known: &[Option<Caps>], index: u32) -> Option<Caps>
    ensures { result ≡ get_or known.now index None }
{
    match known.get(index as usize) {
        Some(caps) => *caps,
        None => None,
    }
}

/// Makes room for what this many require, if nothing is known.
#[tactic(auto, using(crate::proofs::KnownCapabilities::none_known))]
fn make_room(known: &mut Vec<Option<Caps>>, count: usize) -> Result<(), AllocError>
    ensures { (asks : List ℕ) → AreKnown asks known.old.items
        → OnOk result (AreKnown asks known.new.items) }
{
    if known.is_empty() {
        known.resize(count, None)?;
    }
    Ok(())
}

/// Notes what is required at an index among this many.
#[tactic(auto, using(crate::proofs::KnownCapabilities::known_more))]
fn note(
    known: &mut Vec<Option<Caps>>,
    count: usize,
    index: u32,
    caps: Caps,
) -> Result<(), AllocError>
    ensures { (asks : List ℕ) → AreKnown asks known.old.items → caps.0 ≡ get_or asks index 0
        → OnOk result (AreKnown asks known.new.items) }
{
    make_room(known, count)?;
    let index = index as usize;
    if index < known.len() {
        known[index] = Some(caps);
    }
    Ok(())
}
