//! Operations in the making, with the state that a typing has after the last of them.

use crate::chance::Chance;
use crate::error::SmithError;
use crate::frames::{Base, Frame};
use crate::supply::Supply;
use grain::{Effect, Flow, Op};
use std::alloc::Global;

/// A label that isn't bound yet.
const NOWHERE: u32 = u32::MAX;

/// Operations in the making. Targets are labels.
#[derive(Drop)]
pub struct Writer {
    /// What allocates.
    pub alloc: Global,
    /// What decides.
    pub chance: Chance,
    /// The pools.
    pub supply: Supply,
    /// The operations so far.
    pub ops: Vec<Op>,
    /// The operation to which each label is bound.
    pub labels: Vec<u32>,
    /// The pieces that are open, the innermost last.
    pub frames: Vec<Frame>,
    /// How many operands there are.
    pub operands: u32,
    /// How many iterators there are.
    pub iterators: u32,
    /// The bases of the handlers that are armed, the innermost last.
    pub bases: Vec<Base>,
}

impl Writer {
    /// No operations yet, over these pools.
    pub fn new(alloc: Global, chance: Chance, supply: Supply) -> Writer {
        Writer {
            alloc,
            chance,
            supply,
            ops: Vec::new(alloc),
            labels: Vec::new(alloc),
            frames: Vec::new(alloc),
            operands: 0,
            iterators: 0,
            bases: Vec::new(alloc),
        }
    }

    /// The base of the handler that was armed last, or nothing on the stacks.
    pub fn floor(&self) -> Base {
        match self.bases.last() {
            Some(base) => *base,
            None => Base {
                operands: 0,
                iterators: 0,
            },
        }
    }

    /// Whether the verifier lets an operation of this effect pass here.
    pub fn allows(&self, effect: &Effect) -> bool {
        if self.operands < effect.needs
            || self.iterators < effect.iterators_needed()
            || self.bases.len() < effect.handlers_needed()
        {
            return false;
        }
        let floor = self.floor();
        effect.quiet || self.operands.saturating_sub(effect.takes) >= floor.operands
    }

    /// The state after an operation of this effect, where the next one begins.
    fn follow(&mut self, effect: &Effect) -> Result<(), SmithError> {
        self.operands = self
            .operands
            .saturating_sub(effect.takes)
            .saturating_add(effect.gives);
        match effect.flow {
            Flow::BeginsIterator => self.iterators = self.iterators.saturating_add(1),
            Flow::EndsIterator => self.iterators = self.iterators.saturating_sub(1),
            Flow::AdvancesIterator => self.operands = self.operands.saturating_add(1),
            Flow::PopsHandler => {
                let _base = self.bases.pop();
            }
            Flow::PushesHandler => self.bases.push(Base {
                operands: self.operands,
                iterators: self.iterators,
            })?,
            Flow::Falls | Flow::Ends | Flow::Jumps | Flow::Branches | Flow::Switches => {}
        }
        Ok(())
    }

    /// One more operation.
    pub fn put(&mut self, op: Op) -> Result<(), SmithError> {
        let effect = self.supply.effect(&op);
        self.ops.push(op)?;
        self.follow(&effect)
    }

    /// A new label, which isn't bound yet.
    pub fn label(&mut self) -> Result<u32, SmithError> {
        let label = u32::try_from(self.labels.len()).unwrap_or(NOWHERE);
        self.labels.push(NOWHERE)?;
        Ok(label)
    }

    /// Binds a label to the next operation.
    pub fn bind(&mut self, label: u32) {
        let at = u32::try_from(self.ops.len()).unwrap_or(NOWHERE);
        if let Some(found) = self.labels.get_mut(label as usize) {
            *found = at;
        }
    }

    /// Has this many operands on the stack, by pushing or popping. It is quiet, so that it passes under each handler.
    pub fn level(&mut self, operands: u32) -> Result<(), SmithError> {
        for _turn in operands..self.operands {
            self.put(Op::Pop)?;
        }
        for _turn in self.operands..operands {
            let op = if self.chance.one_in(2) {
                Op::Unit
            } else {
                Op::Bool(self.chance.one_in(2))
            };
            self.put(op)?;
        }
        Ok(())
    }

    /// Has at least this many operands on the stack above the base of the last handler.
    pub fn room(&mut self, operands: u32) -> Result<(), SmithError> {
        let wanted = self.floor().operands.saturating_add(operands);
        if self.operands < wanted {
            return self.level(wanted);
        }
        Ok(())
    }

    /// Opens a piece of code.
    pub fn open(&mut self, frame: Frame) -> Result<(), SmithError> {
        self.frames.push(frame)?;
        Ok(())
    }
}
