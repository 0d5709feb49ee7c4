//! Single changes of a program.

use crate::chance::Chance;
use crate::error::SmithError;
use grain::{Caps, Chunk, Flags, Function, Parts, Program, disassemble, tag, tag_row};
use std::alloc::{AllocError, Global};

/// What a program is made of.
#[derive(Drop)]
pub struct Pieces {
    /// The capabilities that it may require.
    pub caps: Caps,
    /// Its code.
    pub code: Vec<u8>,
    /// The chunk of the top level.
    pub main: Chunk,
    /// Its functions.
    pub functions: Vec<Function>,
    /// All else.
    pub parts: Parts,
}

/// What is changed of a chunk.
#[derive(Clone, Copy)]
enum Part {
    Entry,
    End,
    Declared,
}

/// What is changed of a program.
#[derive(Clone, Copy)]
enum Change {
    /// A byte of the code.
    Byte,
    /// An instruction of one byte, so that a pop is added or taken away, say.
    Short,
    /// A byte of a field.
    Field,
    /// The target of a jump, to another instruction.
    Target,
    /// The target of a jump, by a few bytes.
    NearTarget,
    /// A chunk.
    Chunk(Part),
    /// The capabilities, by one.
    Caps,
    /// How many operands a chain takes.
    Chain,
    /// Where a switch leads by default.
    Default,
}

/// Changes that more often lead to a refusal are more frequent.
static CHANGES: [Change; 14] = [
    Change::Byte,
    Change::Short,
    Change::Short,
    Change::Short,
    Change::Short,
    Change::Field,
    Change::Target,
    Change::NearTarget,
    Change::Chunk(Part::Entry),
    Change::Chunk(Part::End),
    Change::Chunk(Part::Declared),
    Change::Caps,
    Change::Chain,
    Change::Default,
];

/// Instructions of one byte, which replace one another in place.
static SHORT: [u8; 9] = [
    tag::UNIT,
    tag::POP,
    tag::TICK,
    tag::RETURN,
    tag::THROW,
    tag::ITER_INIT,
    tag::ITER_DROP,
    tag::POP_HANDLER,
    tag::LOAD_THIS,
];

/// Capabilities that programs require.
static CAPS: [Caps; 14] = [
    Caps::FUNCTION,
    Caps::ARRAY,
    Caps::BLOB,
    Caps::MAP,
    Caps::FN_PTR,
    Caps::CURRYING,
    Caps::SHARING,
    Caps::THIS,
    Caps::INDEXING,
    Caps::PROPERTY,
    Caps::METHOD,
    Caps::MODULE,
    Caps::EXPORT,
    Caps::IMPORT,
];

/// A number above this one or below it, by a few.
fn beside(number: u32, chance: &mut Chance) -> u32 {
    let by = chance.below(5).saturating_add(1);
    if chance.one_in(2) {
        number.saturating_add(by)
    } else {
        number.saturating_sub(by)
    }
}

/// A chunk with one number changed.
fn changed(chunk: Chunk, part: Part, chance: &mut Chance) -> Chunk {
    let (entry, end, most) = (chunk.entry(), chunk.end(), chunk.max_stack());
    match part {
        Part::Entry => Chunk::new(beside(entry, chance), end, most),
        Part::End => Chunk::new(entry, beside(end, chance), most),
        Part::Declared => Chunk::new(entry, end, most.saturating_sub(1)),
    }
}

/// The addresses of instructions of one byte.
fn short_ones(alloc: Global, code: &[u8]) -> Result<Vec<usize>, AllocError> {
    let mut found = Vec::new(alloc);
    for (at, op) in disassemble(code) {
        if op.fields().as_slice().is_empty() {
            found.push(at)?;
        }
    }
    Ok(found)
}

/// The addresses of instructions with a target.
fn jumps(alloc: Global, code: &[u8]) -> Result<Vec<usize>, AllocError> {
    let mut found = Vec::new(alloc);
    for (at, _op) in disassemble(code) {
        let tag = code.get(at).copied().unwrap_or(0);
        if tag_row(tag).flow.has_target() {
            found.push(at)?;
        }
    }
    Ok(found)
}

/// The addresses of all instructions.
fn starts(alloc: Global, code: &[u8]) -> Result<Vec<usize>, AllocError> {
    let mut found = Vec::new(alloc);
    for (at, _op) in disassemble(code) {
        found.push(at)?;
    }
    Ok(found)
}

impl Pieces {
    /// The program of these pieces.
    pub fn program(self, alloc: Global) -> Program {
        Program::new(
            alloc,
            self.caps,
            self.code,
            self.main,
            self.functions,
            self.parts,
        )
    }

    /// Changes one thing.
    pub fn change(&mut self, alloc: Global, chance: &mut Chance) -> Result<(), SmithError> {
        match chance.pick(&CHANGES).unwrap_or(Change::Byte) {
            Change::Byte => self.change_byte(chance),
            Change::Short => self.change_short(alloc, chance)?,
            Change::Field => self.change_field(alloc, chance)?,
            Change::Target => self.change_target(alloc, chance)?,
            Change::NearTarget => self.move_target(alloc, chance)?,
            Change::Chunk(part) => self.change_chunk(part, chance),
            Change::Caps => self.drop_caps(chance),
            Change::Chain => self.change_chain(chance),
            Change::Default => self.change_default(chance),
        }
        Ok(())
    }

    /// Replaces the byte at an address.
    fn set(&mut self, at: usize, byte: u8) {
        if let Some(found) = self.code.get_mut(at) {
            *found = byte;
        }
    }

    /// Replaces the target of the jump at an address.
    fn set_target(&mut self, at: usize, target: u32) {
        for (place, byte) in target.to_le_bytes().iter().enumerate() {
            self.set(at.saturating_add(place).saturating_add(1), *byte);
        }
    }

    fn change_byte(&mut self, chance: &mut Chance) {
        let at = chance.index(self.code.len());
        self.set(at, chance.byte(u8::MAX));
    }

    fn change_short(&mut self, alloc: Global, chance: &mut Chance) -> Result<(), SmithError> {
        let found = short_ones(alloc, &self.code)?;
        if let Some(at) = chance.pick(&found) {
            self.set(at, chance.pick(&SHORT).unwrap_or(tag::POP));
        }
        Ok(())
    }

    fn change_field(&mut self, alloc: Global, chance: &mut Chance) -> Result<(), SmithError> {
        let found = starts(alloc, &self.code)?;
        if let Some(at) = chance.pick(&found) {
            let tag = self.code.get(at).copied().unwrap_or(0);
            let width = usize::from(tag_row(tag).width);
            let place = chance.index(width.saturating_sub(1)).saturating_add(1);
            if place < width {
                self.set(at.saturating_add(place), chance.byte(32));
            }
        }
        Ok(())
    }

    fn change_target(&mut self, alloc: Global, chance: &mut Chance) -> Result<(), SmithError> {
        let found = jumps(alloc, &self.code)?;
        let all = starts(alloc, &self.code)?;
        if let (Some(at), Some(target)) = (chance.pick(&found), chance.pick(&all)) {
            self.set_target(at, u32::try_from(target).unwrap_or(0));
        }
        Ok(())
    }

    fn move_target(&mut self, alloc: Global, chance: &mut Chance) -> Result<(), SmithError> {
        let found = jumps(alloc, &self.code)?;
        if let Some(at) = chance.pick(&found)
            && let Some(instruction) = grain::Instruction::at(&self.code, at)
            && let Some(target) = instruction.target()
        {
            self.set_target(at, beside(target, chance));
        }
        Ok(())
    }

    fn change_chunk(&mut self, part: Part, chance: &mut Chance) {
        let index = chance.index(self.functions.len().saturating_add(1));
        match self.functions.get_mut(index) {
            Some(function) => function.chunk = changed(function.chunk, part, chance),
            None => self.main = changed(self.main, part, chance),
        }
    }

    fn drop_caps(&mut self, chance: &mut Chance) {
        if let Some(caps) = chance.pick(&CAPS) {
            self.caps = self.caps.difference(caps);
        }
    }

    fn change_chain(&mut self, chance: &mut Chance) {
        let index = chance.index(self.parts.chains.len());
        if let Some(chain) = self.parts.chains.get_mut(index) {
            chain.operands = chance.small(6);
        }
    }

    fn change_default(&mut self, chance: &mut Chance) {
        let index = chance.index(self.parts.switches.len());
        if let Some(switch) = self.parts.switches.get_mut(index) {
            switch.default = beside(switch.default, chance);
        }
    }
}
