//! What crosses to C.
//!
//! Each record has its fields in the order of its struct in grain.h. hosts/c/layout.h compares sizes and offsets, since no proof
//! reaches a header.
use std::marker::Model;

/// A field of an instruction: what it is, and its value. If there is no field both are 0.
#[repr(C)]
#[derive(Clone, Copy)]
pub struct CField {
    /// What the value is, by a number of [`crate::kinds`].
    pub kind: u32,
    /// The index, the slot, the count or the target.
    pub value: u32,
}

/// An instruction: its tag, how many bytes it takes, and its fields in order.
#[repr(C)]
#[derive(Clone, Copy)]
pub struct CInstruction {
    /// The byte with which it begins.
    pub tag: u8,
    /// How many bytes it takes, its tag among them.
    pub width: u8,
    /// Its fields, and then empty ones.
    pub fields: [CField; 3],
}

/// A part of the code that is run by itself.
#[repr(C)]
#[derive(Clone, Copy)]
pub struct CChunk {
    /// The address of the first instruction.
    pub entry: u32,
    /// The address past the last instruction.
    pub end: u32,
    /// How many operands the chunk declares that it stacks at most.
    pub max_stack: u16,
}

impl Model for CChunk {
    ghost use Rattle.grain_code.specs.Span.{Span};

    ghost Value = { Span };

    ghost view = { λ c. record { entry = c.entry; end = c.end; max_stack = c.max_stack } };

    ghost inverse = { λ s. record { entry = s.entry; end = s.end; max_stack = s.max_stack } };
}

/// The capabilities that a constant requires of the host.
#[repr(C)]
#[derive(Clone, Copy)]
pub struct CConstant {
    /// 1 if that can be said; 0 for a shared value or one of the host, and what holds one.
    pub is_known: u16,
    /// The capabilities; 0 if they can't be said.
    pub caps: u16,
}

/// A chain of accesses.
#[repr(C)]
#[derive(Clone, Copy)]
pub struct CChain {
    /// Where it begins, by a number of [`crate::shapes`].
    pub root: u32,
    /// The index of the name of a variable at which it begins, else 0.
    pub root_name: u32,
    /// How many steps it has.
    pub steps: u32,
    /// What it does at its end, by a number of [`crate::shapes`].
    pub tail: u32,
    /// The index of the op-assignment that it assigns through, else 0.
    pub op: u32,
    /// How many operands its steps take.
    pub operands: u16,
    /// The slot of the local variable at which it begins, else 0.
    pub slot: u16,
}

/// A step of a chain.
#[repr(C)]
#[derive(Clone, Copy)]
pub struct CStep {
    /// What it is, by a number of [`crate::shapes`].
    pub kind: u32,
    /// The index of the name of a property or a method, else 0.
    pub name: u32,
    /// The index of the name of the function that reads a property, else 0.
    pub getter: u32,
    /// The index of the name of the function that writes a property, else 0.
    pub setter: u32,
    /// Where an index, or the first argument of a method, lies among the operands of the chain, else 0.
    pub operand: u16,
    /// How many arguments a method has, else 0.
    pub argc: u8,
}

/// A switch.
#[repr(C)]
#[derive(Clone, Copy)]
pub struct CSwitch {
    /// How many cases it has.
    pub cases: u32,
    /// How many ranges it has.
    pub ranges: u32,
    /// Where all other subjects lead.
    pub otherwise: u32,
}

/// A case of a switch.
#[repr(C)]
#[derive(Clone, Copy)]
pub struct CCase {
    /// Where it leads.
    pub target: u32,
    /// The index of its constant.
    pub constant: u32,
}

/// The flat form of what a program has beside its code and its chunks.
///
/// The steps of all chains stand one chain after another, and so do the cases and the ranges of all switches.
#[repr(C)]
#[derive(Clone, Copy)]
pub struct CPools<'a> {
    /// What each constant asks.
    pub constants: &'a [CConstant],
    /// The bytes of all names, one after another.
    pub names: &'a [u8],
    /// Where each name begins, and at last where the last one ends.
    pub starts: &'a [u32],
    /// How many operators there are.
    pub operators: usize,
    /// How many op-assignments there are.
    pub op_assignments: usize,
    /// How many fragments of syntax there are.
    pub fragments: usize,
    /// How many functions there are.
    pub functions: usize,
    /// The chains.
    pub chains: &'a [CChain],
    /// The steps of all chains.
    pub steps: &'a [CStep],
    /// The switches.
    pub switches: &'a [CSwitch],
    /// The cases of all switches, of each in any order.
    pub cases: &'a [CCase],
    /// Where each range of each switch leads.
    pub ranges: &'a [u32],
}

/// Why a program is refused.
#[repr(C)]
#[derive(Clone, Copy)]
pub struct CRefusal {
    /// What is wrong, by a number of [`crate::flaws`].
    pub flaw: u32,
    /// The index of the chunk that is refused, or [`crate::flaws::WHOLE_PROGRAM`].
    pub chunk: u64,
    /// The address of an instruction, if the refusal names one.
    pub at: u64,
    /// What else the refusal names.
    pub first: u64,
    /// What else the refusal names.
    pub second: u64,
}

/// A program: its code, its chunks, and its pools.
#[repr(C)]
#[derive(Clone, Copy)]
pub struct CProgram<'a> {
    /// The code.
    pub code: &'a [u8],
    /// The chunks.
    pub chunks: &'a [CChunk],
    /// What it has beside them.
    pub pools: CPools<'a>,
}

/// What a verification found.
#[repr(C)]
#[derive(Clone, Copy)]
pub struct CReport {
    /// Why the program is refused.
    pub refusal: CRefusal,
    /// How many instructions the walks visited, counted for each chunk apart.
    pub visited: u64,
}

/// Where pools aren't flat.
#[repr(C)]
#[derive(Clone, Copy)]
pub struct CPoolsFlaw {
    /// The list, by a number of [`crate::lists`].
    pub list: u32,
    /// The index of the entry, or the length of the list if entries are missing.
    pub index: u64,
}

/// An entry of an address table.
#[repr(C)]
#[derive(Clone, Copy)]
pub struct CEntry {
    /// The address of an instruction.
    pub address: u32,
    /// Its line, or 0 if that isn't known.
    pub line: u32,
    /// Its column, or 0 for the start of the line.
    pub column: u32,
}

/// A place in a source text.
#[repr(C)]
#[derive(Clone, Copy)]
pub struct CPlace {
    /// The line, or 0 if there is no place.
    pub line: u32,
    /// The column, or 0 for the start of the line.
    pub column: u32,
}

/// What stands at an instruction when a run reaches it.
#[repr(C)]
#[derive(Clone, Copy)]
pub struct CRow {
    /// The address of the instruction.
    pub at: u32,
    /// How many operands there are.
    pub operands: u32,
    /// How many iterators there are.
    pub iterators: u32,
    /// An address from which an edge leads here, or [`crate::kinds::NO_ADDRESS`]: at the entry, and on a path.
    pub from: u32,
    /// The base of the last armed handler, an index into the bases, or [`crate::kinds::NO_BASE`].
    pub base: u32,
}

/// The base of an armed handler.
#[repr(C)]
#[derive(Clone, Copy)]
pub struct CBase {
    /// How many operands stood when it was armed.
    pub operands: u32,
    /// How many iterators stood.
    pub iterators: u32,
    /// The base of the handler that was armed before, an index into the bases, or [`crate::kinds::NO_BASE`].
    pub next: u32,
}

/// What an explanation has.
#[repr(C)]
#[derive(Clone, Copy)]
pub struct CExplanation {
    /// How many rows say what stands at each instruction that was visited.
    pub rows: usize,
    /// How many rows of the path to the flaw stand behind them, from the entry on; none if there is no flaw.
    pub path: usize,
    /// How many rows of another path stand behind those; none except for a conflict.
    pub other: usize,
    /// How many bases there are.
    pub bases: usize,
    /// Why the chunk is refused, if it is.
    pub refusal: CRefusal,
}
