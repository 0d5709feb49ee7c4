//! Whole programs as operations by index, before they are built.

use crate::chance::Chance;
use crate::closing::MOST_CLOSINGS;
use crate::error::SmithError;
use crate::frames::DEPTH;
use crate::lists::position;
use crate::options::SmithOptions;
use crate::supply::Supply;
use crate::switches::switches;
use crate::values::constant;
use crate::writer::Writer;
use grain::{Cut, Dynamic, FnAccess, Head, Op, Parts, Pool, Position, Positions, assemble};
use std::alloc::{AllocError, Global};
use std::mem;

/// How many functions a program has at most.
const FUNCTIONS: u32 = 4;

/// A program as operations by index.
#[derive(Drop)]
pub struct Draft {
    /// The operations.
    pub ops: Vec<Op>,
    /// The chunks, that of the top level first.
    pub cuts: Vec<Cut>,
    /// The functions, apart from their chunks.
    pub heads: Vec<Head>,
    /// All else.
    pub parts: Parts,
}

impl Writer {
    /// Writes one or a few operations.
    fn turn(&mut self) -> Result<(), SmithError> {
        let is_full = self.frames.len() >= DEPTH;
        match self.chance.below(16) {
            0 | 1 if !is_full => self.begin(),
            2 | 3 => self.close(),
            4 => self.leave(),
            5 if self.chance.one_in(3) => self.end_run(),
            _ => self.plain(),
        }
    }

    /// Writes a chunk of about this many operations, and says where it is.
    fn chunk(&mut self, size: usize) -> Result<Cut, SmithError> {
        let first = self.ops.len();
        self.operands = 0;
        self.iterators = 0;
        for _turn in 0..size {
            if self.ops.len().saturating_sub(first) >= size {
                break;
            }
            self.turn()?;
        }
        for _turn in 0..MOST_CLOSINGS {
            self.close()?;
        }
        self.put_end()?;
        Ok(Cut {
            first,
            end: self.ops.len(),
            max_stack: u16::MAX,
        })
    }

    /// A function apart from its chunk.
    fn head(&mut self) -> Result<Head, SmithError> {
        let names = self.supply.size(Pool::Names);
        let mut params = Vec::new(self.alloc);
        for _turn in 0..self.chance.below(4) {
            params.push(self.chance.below(names))?;
        }
        let access = if self.chance.one_in(2) {
            FnAccess::Private
        } else {
            FnAccess::Public
        };
        let this_type = self.chance.below(names);
        Ok(Head {
            name: self.chance.below(names),
            params,
            access,
            this_type: self.chance.one_in(3).then_some(this_type),
        })
    }

    /// Writes the functions. One in six has the chunk of the top level.
    fn functions(
        &mut self,
        count: u32,
        size: usize,
        cuts: &mut Vec<Cut>,
    ) -> Result<Vec<Head>, SmithError> {
        let mut heads = Vec::new(self.alloc);
        for _turn in 0..count {
            heads.push(self.head()?)?;
            let shared = match cuts.first() {
                Some(cut) if self.chance.one_in(6) => Some(*cut),
                _ => None,
            };
            let cut = match shared {
                Some(cut) => cut,
                None => self.chunk(size)?,
            };
            cuts.push(cut)?;
        }
        Ok(heads)
    }

    /// Replaces the labels of jumps by the operations to which they are bound.
    fn settle(&mut self) {
        let labels = mem::replace(&mut self.labels, Vec::new(self.alloc));
        for op in self.ops.iter_mut() {
            op.bind_target(&labels);
        }
        self.labels = labels;
    }

    /// The positions of each byte of the code: those of instructions in three of four programs, and else none.
    fn positions(&mut self) -> Result<Positions, SmithError> {
        if self.chance.one_in(4) {
            return Ok(Positions::Stripped);
        }
        let (code, offsets) = assemble(self.alloc, &self.ops)?;
        let mut positions = vec![in self.alloc; Position::NONE; code.len()]?;
        for offset in &offsets {
            if let Some(found) = positions.get_mut(*offset as usize) {
                *found = position(&mut self.chance);
            }
        }
        Ok(Positions::dense(positions))
    }

    /// All that a program has except for code and chunks.
    fn parts(mut self) -> Result<(Vec<Op>, Parts), SmithError> {
        let alloc = self.alloc;
        let positions = self.positions()?;
        let debug_id = u128::from(self.chance.word()) << 64 | u128::from(self.chance.word());
        let source = match self.chance.one_in(2) {
            true => Some(String::from_str(alloc, "smith.rhai")?),
            false => None,
        };
        let Supply {
            names,
            seeds,
            tokens,
            assign_ops,
            chains,
            switches: tables,
        } = self.supply;
        let parts = Parts {
            positions,
            debug_id,
            residuals: 0,
            consts: constants(alloc, &seeds)?,
            names,
            tokens,
            assign_ops,
            chains,
            switches: switches(alloc, &tables, &seeds, &self.labels)?,
            source,
        };
        Ok((self.ops, parts))
    }
}

/// The constants of these seeds.
fn constants(alloc: Global, seeds: &[u64]) -> Result<Vec<Dynamic>, AllocError> {
    let mut constants = Vec::new(alloc);
    for seed in seeds {
        constants.push(constant(alloc, *seed)?)?;
    }
    Ok(constants)
}

/// The program of a seed, as operations.
pub fn drafted(alloc: Global, seed: u64, options: &SmithOptions) -> Result<Draft, SmithError> {
    let mut chance = Chance::new(seed);
    let supply = Supply::new(alloc, &mut chance)?;
    let mut writer = Writer::new(alloc, chance, supply);
    let count = writer.chance.below(FUNCTIONS);
    let size = options.size / (count as usize).saturating_add(1);
    let mut cuts = Vec::new(alloc);
    cuts.push(writer.chunk(size)?)?;
    let heads = writer.functions(count, size, &mut cuts)?;
    writer.settle();
    let (ops, parts) = writer.parts()?;
    Ok(Draft {
        ops,
        cuts,
        heads,
        parts,
    })
}
