//! What an operation does, as a value.
//!
//! The verifier, explanations and listings read it here, so that no two of them can differ on an operation.
ghost use Rattle.std.specs.Prelude.{◌≡◌, ◌+◌, ◌<◌, ◌≤◌, ◌^◌, false, true};
ghost use Rattle.grain_rules.specs.declared.asks.Asks.TheVariants.{Nothing};

use crate::asks::Asks;
use grain_code::Flow;

/// What an operation does: its row of the instruction table (docs/FORMAT.md, "Instructions").
#[derive(Clone, Copy, Debug, PartialEq, Eq)]
pub struct Effect {
    /// What it requires of the host.
    pub asks: Asks,
    /// How many operands there have to be.
    pub needs: u32,
    /// How many of them it takes.
    pub takes: u32,
    /// How many it gives.
    pub gives: u32,
    /// How it is left.
    pub flow: Flow,
    /// Where that leads: the target of a jump, where a handler catches, the exit of an iterator, or the index of a switch. Of
    /// any other flow it says nothing.
    pub target: u32,
    /// Whether it is quiet: it may find or leave less than stood when the last handler was armed (docs/FORMAT.md,
    /// "Verification").
    pub quiet: bool,
    ghost there: { takes ≤ needs },
    ghost by_one: { gives ≤ takes + 1 },
}

impl Effect {
    /// Takes all that it needs, requires nothing of the host, falls through and isn't quiet.
    #[inline(always)]
    pub(crate) fn taking(takes: u32, gives: u32) -> Effect
        requires { gives ≤ takes + 1 }
        ensures asks { result.asks ≡ Nothing }
        ensures needs { result.needs ≡ takes }
        ensures takes { result.takes ≡ takes }
        ensures gives { result.gives ≡ gives }
        ensures flow { result.flow ≡ Flow.Falls }
        ensures quiet { result.quiet ≡ false }
    {
        Effect {
            asks: Asks::Nothing,
            needs: takes,
            takes,
            gives,
            flow: Flow::Falls,
            target: 0,
            quiet: false,
        }
    }

    /// Takes some, gives none, and needs others below them, which it keeps.
    #[inline(always)]
    pub(crate) fn keeping(kept: u32, takes: u32) -> Effect
        requires { kept + takes < 2 ^ 32 }
        ensures asks { result.asks ≡ Nothing }
        ensures needs { result.needs ≡ kept + takes }
        ensures takes { result.takes ≡ takes }
        ensures gives { result.gives ≡ 0 }
        ensures flow { result.flow ≡ Flow.Falls }
        ensures quiet { result.quiet ≡ false }
    {
        Effect {
            asks: Asks::Nothing,
            needs: kept + takes,
            takes,
            gives: 0,
            flow: Flow::Falls,
            target: 0,
            quiet: false,
        }
    }

    /// The same, with this required of the host.
    #[inline(always)]
    pub(crate) fn asking(mut self, asks: Asks) -> Effect
        ensures { result ≡ record self { asks = asks } }
    {
        self.asks = asks;
        self
    }

    /// The same, with this flow, which leads nowhere.
    #[inline(always)]
    pub(crate) fn flowing(mut self, flow: Flow) -> Effect
        ensures { result ≡ record self { flow = flow } }
    {
        self.flow = flow;
        self
    }

    /// The same, with this flow, which leads to this target.
    #[inline(always)]
    pub(crate) fn leading(mut self, flow: Flow, target: u32) -> Effect
        ensures { result ≡ record self { flow = flow; target = target } }
    {
        self.flow = flow;
        self.target = target;
        self
    }

    /// The same, and quiet.
    #[inline(always)]
    pub(crate) fn quietly(mut self) -> Effect
        ensures { result ≡ record self { quiet = true } }
    {
        self.quiet = true;
        self
    }
}
