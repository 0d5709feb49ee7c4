//! Which addresses of code have a label.

use grain::{Instruction, Program, disassemble};
use grain_code::{Chunk, Field};
use std::alloc::{AllocError, Global};

/// What is at an address.
#[derive(Clone, Copy, Debug, PartialEq, Eq)]
enum Mark {
    /// The inside of an instruction.
    Inside,
    /// The first byte of a line, or the end of the code.
    Line,
    /// The same, and something leads there.
    Label,
}

/// What is at each address of code, up to its end.
#[derive(Drop)]
pub struct Marks {
    marks: Vec<Mark>,
    /// The address up to which the code is instructions.
    pub whole: usize,
}

/// The marks of code and of its end, where each byte has a line.
fn unmarked(alloc: Global, len: usize) -> Result<Vec<Mark>, AllocError> {
    let mut marks = vec![in alloc; Mark::Line; len]?;
    marks.push(Mark::Line)?;
    Ok(marks)
}

/// The address after the instruction at an address.
fn end_of(code: &[u8], at: usize) -> usize {
    match Instruction::at(code, at) {
        Some(instruction) => at.saturating_add(instruction.width()),
        None => at.saturating_add(1),
    }
}

impl Marks {
    /// No marks: each address is written as a number.
    #[must_use]
    pub fn none(alloc: Global) -> Marks {
        Marks {
            marks: Vec::new(alloc),
            whole: 0,
        }
    }

    /// The marks of a program. It goes over the code twice, and takes memory for a byte of each of its bytes.
    pub fn of(alloc: Global, program: &Program) -> Result<Marks, AllocError> {
        let mut marks = Marks::lines(alloc, program.code())?;
        marks.lead_chunk(program.main());
        for function in program.functions() {
            marks.lead_chunk(function.chunk);
        }
        marks.lead_code(program.code());
        for switch in program.switches() {
            marks.lead_to(switch.default);
            for range in &switch.ranges {
                marks.lead_to(range.target);
            }
            if let Some(cases) = &switch.cases {
                for (target, _) in cases.values() {
                    marks.lead_to(*target);
                }
            }
        }
        Ok(marks)
    }

    /// Where the lines of code begin.
    fn lines(alloc: Global, code: &[u8]) -> Result<Marks, AllocError> {
        let mut marks = Marks {
            marks: unmarked(alloc, code.len())?,
            whole: 0,
        };
        for (at, _) in disassemble(code) {
            let end = end_of(code, at);
            marks.hide(at.saturating_add(1), end);
            marks.whole = end;
        }
        Ok(marks)
    }

    /// Marks the inside of an instruction.
    fn hide(&mut self, from: usize, end: usize) {
        for at in from..end {
            if let Some(mark) = self.marks.get_mut(at) {
                *mark = Mark::Inside;
            }
        }
    }

    fn lead_to(&mut self, address: u32) {
        if let Some(mark) = self.marks.get_mut(address as usize) {
            if *mark == Mark::Line {
                *mark = Mark::Label;
            }
        }
    }

    fn lead_chunk(&mut self, chunk: Chunk) {
        self.lead_to(chunk.entry());
        self.lead_to(chunk.end());
    }

    fn lead_code(&mut self, code: &[u8]) {
        for (_, op) in disassemble(code) {
            for field in op.fields().as_slice() {
                if let Field::Target(target) = field {
                    self.lead_to(*target);
                }
            }
        }
    }

    /// Whether a line at the address has a label.
    #[must_use]
    pub fn has_label(&self, at: usize) -> bool {
        self.marks.get(at) == Some(&Mark::Label)
    }

    /// Whether a line begins at the address.
    #[must_use]
    pub fn begins_line(&self, at: usize) -> bool {
        match self.marks.get(at) {
            Some(Mark::Line | Mark::Label) => true,
            Some(Mark::Inside) | None => false,
        }
    }
}

/// Appends an address: a label where a line begins there, or else the number.
pub fn write_address(out: &mut String, marks: &Marks, address: u32) -> Result<(), AllocError> {
    if marks.has_label(address as usize) {
        write!(out, "L{address}")
    } else {
        write!(out, "{address}")
    }
}
