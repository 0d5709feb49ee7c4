//! The pools that the operations of a program have indices into.

use crate::chains::{Sizes, chain};
use crate::chance::Chance;
use crate::error::SmithError;
use crate::lists::names;
use crate::operators::{assignments, tokens};
use crate::switches::Table;
use grain::{AssignOp, Chain, Effect, Op, Pool, Pools, Strings, Token};
use std::alloc::Global;

/// How many constants and chains there are at most.
const MOST: u32 = 12;

/// The pools of a program in the making.
#[derive(Drop)]
pub struct Supply {
    /// The names.
    pub names: Strings,
    /// The seeds of the constants.
    pub seeds: Vec<u64>,
    /// The operators.
    pub tokens: Vec<Token>,
    /// The op-assignments.
    pub assign_ops: Vec<AssignOp>,
    /// The chains.
    pub chains: Vec<Chain>,
    /// The switches.
    pub switches: Vec<Table>,
}

/// A count as a number below which indices are.
fn limit(count: usize) -> u32 {
    u32::try_from(count).unwrap_or(u32::MAX)
}

fn seeds(alloc: Global, chance: &mut Chance) -> Result<Vec<u64>, SmithError> {
    let mut seeds = Vec::new(alloc);
    for _turn in 0..chance.below(MOST).saturating_add(1) {
        seeds.push(chance.word())?;
    }
    Ok(seeds)
}

fn chains(alloc: Global, chance: &mut Chance, sizes: Sizes) -> Result<Vec<Chain>, SmithError> {
    let mut chains = Vec::new(alloc);
    for _turn in 0..chance.below(MOST).saturating_add(1) {
        chains.push(chain(alloc, chance, sizes)?)?;
    }
    Ok(chains)
}

impl Supply {
    /// Pools with something in each of them, except that the switches come with the code.
    pub fn new(alloc: Global, chance: &mut Chance) -> Result<Supply, SmithError> {
        let names = names(alloc, chance)?;
        let seeds = seeds(alloc, chance)?;
        let tokens = tokens(alloc, chance)?;
        let assign_ops = assignments(alloc, chance, limit(names.len()))?;
        let sizes = Sizes {
            names: limit(names.len()),
            assign_ops: limit(assign_ops.len()),
        };
        let chains = chains(alloc, chance, sizes)?;
        Ok(Supply {
            names,
            seeds,
            tokens,
            assign_ops,
            chains,
            switches: Vec::new(alloc),
        })
    }

    /// How many entries a pool has. A file keeps no fragments, and no program has sites of custom syntax.
    pub fn size(&self, pool: Pool) -> u32 {
        match pool {
            Pool::Constants => limit(self.seeds.len()),
            Pool::Names => limit(self.names.len()),
            Pool::Operators => limit(self.tokens.len()),
            Pool::OpAssignments => limit(self.assign_ops.len()),
            Pool::Chains => limit(self.chains.len()),
            Pool::Switches => limit(self.switches.len()),
            Pool::Fragments | Pool::SyntaxSites => 0,
        }
    }

    /// What an operation does.
    pub fn effect(&self, op: &Op) -> Effect {
        let pools = Pools {
            consts: self.seeds.len(),
            names: &self.names,
            tokens: self.tokens.len(),
            assign_ops: self.assign_ops.len(),
            residuals: 0,
            chains: &self.chains,
            switches: &[],
        };
        Effect::of(op, &pools)
    }
}
