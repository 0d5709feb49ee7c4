//! What an operation finds lacking.
//!
//! The walk that explains and the check of a certificate ask the same, so that both refuse for the same reasons.
ghost use Rattle.std.specs.Prelude.{◌≡◌, ◌≤◌, IfErr, IfOk, OnOk, length};
ghost use Rattle.grain_rules.specs.Counts.{last_base};
ghost use Rattle.grain_rules.specs.Setting.{with_caps};
ghost use Rattle.grain_rules.specs.Sinking.{ReachesUpTo};
ghost use Rattle.grain_explain.specs.Lacking.{DoesTo, HasAll, IsReserve, FindsLacking};
ghost use Rattle.grain_explain.specs.RowView.{AreLinked, plain_base, counts_of, list_in};

use crate::lists::first_base;
use crate::row::{LinkedBase, Row};
use grain_base::{Caps, Flags};
use grain_code::Op;
use grain_rules::{Effect, Read, asked_beside, missing};
use std::marker::Model;

/// What an operation finds lacking.
#[derive(Clone, Copy)]
pub(crate) enum Lack {
    /// These capabilities.
    Capabilities(Caps),
    /// Operands, and how many it needs.
    Operands(u32),
    /// The iterator that it needs.
    Iterators,
    /// The handler that it disarms.
    Handlers,
    /// It isn't quiet, and leaves too little of what was on the stacks when the last handler was armed: how many operands
    /// there were, or iterators if the operands are enough, and how many it leaves.
    Reserve(u32, u32),
}

/// What an operation does, if it finds all that it asks and needs in a row.
///
/// # Errors
/// What it finds lacking first.
pub(crate) fn check_needs<P: Read>(
    caps: Caps,
    pools: &P,
    op: &Op,
    bases: &[LinkedBase],
    row: &Row,
) -> Result<Effect, Lack>
    requires linked { AreLinked bases.now }
    requires listed { row.now.bases ≤ length bases.now }
    ensures has { OnOk result
        (HasAll (with_caps caps.0 (P.facts pools.now)) op.now (counts_of bases.now row.now)) }
    ensures does { IfOk result (DoesTo (with_caps caps.0 (P.facts pools.now)) op.now) }
    ensures lacks { IfErr result (FindsLacking
        (with_caps caps.0 (P.facts pools.now)) op.now (counts_of bases.now row.now)) }
{
    let effect = Effect::of(op, pools);
    let absent = missing(caps, asked_beside(pools, effect.asks));
    if !absent.is_empty() {
        return Err(Lack::Capabilities(absent));
    }
    if row.operands < effect.needs {
        return Err(Lack::Operands(effect.needs));
    }
    if row.iterators < effect.iterators_needed() {
        return Err(Lack::Iterators);
    }
    let last = first_base(bases, row.bases);
    if last.is_none() && effect.handlers_needed() > 0 {
        return Err(Lack::Handlers);
    }
    if !effect.quiet {
        let left = Reserve {
            operands: row.operands.saturating_sub(effect.takes),
            iterators: row.iterators.saturating_sub(effect.iterators_needed()),
        };
        check_reserve(last_reserve(bases, row.bases), left)?;
    }
    Ok(effect)
}

/// How much of the stacks is to be left, or is left.
#[derive(Clone, Copy)]
pub(crate) struct Reserve {
    pub(crate) operands: u32,
    pub(crate) iterators: u32,
}

impl Model for Reserve {
    ghost use Rattle.grain_rules.specs.Counts as counts;

    ghost Value = { counts.Base };

    ghost view = { λ b. record { operands = b.operands; iterators = b.iterators } };

    ghost inverse = { λ v. record { operands = v.operands; iterators = v.iterators } };
}

/// The base of the handler that was armed last; if none is armed, that of empty stacks.
fn last_reserve(bases: &[LinkedBase], list: u32) -> Reserve
    requires linked { AreLinked bases.now }
    requires listed { list ≤ length bases.now }
    ensures { result ≡ last_base (list_in bases.now list) }
{
    match first_base(bases, list) {
        Some(last) => Reserve {
            operands: last.operands,
            iterators: last.iterators,
        },
        None => Reserve {
            operands: 0,
            iterators: 0,
        },
    }
}

/// Whether stacks reach up to a base.
///
/// # Errors
/// The operands that they lack, or if there are enough, the iterators.
fn check_reserve(base: Reserve, left: Reserve) -> Result<(), Lack>
    ensures ok { OnOk result (ReachesUpTo base left) }
    ensures err { IfErr result (IsReserve base left) }
{
    if left.operands < base.operands {
        return Err(Lack::Reserve(base.operands, left.operands));
    }
    if left.iterators < base.iterators {
        return Err(Lack::Reserve(base.iterators, left.iterators));
    }
    Ok(())
}
