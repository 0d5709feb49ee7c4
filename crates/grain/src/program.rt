//! A program: code, its chunks, and the pools that its instructions point into.
ghost use Rattle.std.specs.Prelude.{◌≡◌, ◌↔◌, IsTrue, Some, is_none, length, option_map, string_bytes};
ghost use Rattle.grain_base.specs.CapBits.{FN_PTR};
ghost use Rattle.grain_base.specs.Place.{place_of};
ghost use Rattle.grain_bytecode.specs.Positions.{place_at};
ghost use Rattle.grain_rules.specs.Capabilities.{Allows};
ghost use Rattle.grain.specs.Program.{IsGreatest, Program, declared_by, listed_positions, made, places_of};

use grain_base::{Caps, Dynamic, Position, Token};
use grain_bytecode::Positions;
use grain_code::{Chunk, Function};
use grain_pools::{AssignOp, Chain, Strings, Switch};
use grain_rules::{Pools, allows};
use std::alloc::Global;
use std::fmt;
use std::marker::Model;

/// What a program has besides its code and its chunks: its positions and the pools that instructions point into.
#[derive(Drop)]
pub struct Parts {
    /// Where the bytes of the code are in the source text.
    pub positions: Positions,
    /// Which program this is. Positions that are kept apart carry the same number.
    pub debug_id: u128,
    /// How many fragments of syntax there are that weren't compiled.
    pub residuals: usize,
    /// The constants.
    pub consts: Vec<Dynamic>,
    /// The names.
    pub names: Strings,
    /// The operators.
    pub tokens: Vec<Token>,
    /// The op-assignments.
    pub assign_ops: Vec<AssignOp>,
    /// The chains, with their positions.
    pub chains: Vec<Chain>,
    /// The switches.
    pub switches: Vec<Switch>,
    /// What the source text is called, if that is known.
    pub source: Option<String>,
}

/// A compiled script, as a host keeps it. Nothing says that it passes [`Program::verify`].
///
/// Contracts see a record of what it has. Its allocator and the room that its lists keep are no part of that. A call that
/// makes one, says what it has or finds something by an index takes constant time, unless its own text says more.
#[derive(Drop)]
pub struct Program {
    pub(crate) alloc: Global,
    pub(crate) caps: Caps,
    pub(crate) code: Vec<u8>,
    pub(crate) main: Chunk,
    pub(crate) functions: Vec<Function>,
    pub(crate) parts: Parts,
}

impl Model for Program {
    ghost use Rattle.grain.specs.Program.{Program, made};
    ghost use Rattle.std.specs.Coded.{codes};
    ghost use Rattle.grain_base.specs.contracts.value.Dynamic as value;
    ghost use Rattle.grain_pools.specs.contracts.switch.Switch as switch;

    ghost Value = { Program };

    ghost coded = { Prim.hlevel (codes, value.the_row.coded, switch.the_row.coded) };

    ghost view = { λ p. made p.caps p.code.items p.main p.functions.items p.parts };
}

impl Program {
    /// The program of these parts. Calls that want memory take it from the allocator.
    pub fn new(
        alloc: Global,
        caps: Caps,
        code: Vec<u8>,
        main: Chunk,
        functions: Vec<Function>,
        parts: Parts,
    ) -> Program
        ensures { result ≡ made caps code.items main functions.items parts }
    {
        Program {
            alloc,
            caps,
            code,
            main,
            functions,
            parts,
        }
    }

    /// The capabilities that the program may require.
    pub fn caps(&self) -> Caps
        ensures { result ≡ self.now.caps }
    {
        self.caps
    }

    /// The code that all chunks share.
    pub fn code(&self) -> &[u8]
        ensures { result.now ≡ self.now.code }
    {
        &self.code
    }

    /// The chunk of the top level.
    pub fn main(&self) -> Chunk
        ensures { result ≡ self.now.main }
    {
        self.main
    }

    /// The functions, in order.
    pub fn functions(&self) -> &[Function]
        ensures { result.now ≡ self.now.functions }
    {
        &self.functions
    }

    /// How many functions there are.
    pub fn num_functions(&self) -> usize
        ensures { result ≡ length self.now.functions }
    {
        self.functions.len()
    }

    /// Whether making function pointers is among the capabilities.
    pub fn makes_fn_pointers(&self) -> bool
        ensures { IsTrue result ↔ Allows self.now.caps.0 FN_PTR }
    {
        allows(self.caps, Caps::FN_PTR)
    }

    /// The most operands that the main chunk or a function declares. It takes time by the number of functions.
    pub fn max_stack(&self) -> u16
        ensures { IsGreatest (declared_by self.now) result }
    {
        let mut most = self.main.max_stack();
        for function in &self.functions {
            most = most.max(function.chunk.max_stack());
        }
        most
    }

    /// Which program this is.
    pub fn debug_id(&self) -> u128
        ensures { result ≡ self.now.debug_id }
    {
        self.parts.debug_id
    }

    /// How many fragments of syntax there are that weren't compiled.
    pub fn residual_count(&self) -> usize
        ensures { result ≡ self.now.residuals }
    {
        self.parts.residuals
    }

    /// What the source text is called, if that is known.
    pub fn source(&self) -> Option<&str>
        ensures { option_map (λ source. source.now) result ≡ self.now.source }
    {
        self.parts.source.as_deref()
    }

    /// Says what the source text is called.
    pub fn set_source(&mut self, source: String) -> &mut Self
        ensures same { result.ghost_name ≡ self.entry.ghost_name }
        ensures source { result.now ≡ record self.old { source = Some (string_bytes source) } }
    {
        self.parts.source = Some(source);
        self
    }

    /// Says where the bytes of the code are in the source text.
    pub fn set_positions(&mut self, positions: Positions)
        ensures { self.new ≡ record self.old { positions = listed_positions positions } }
    {
        self.parts.positions = positions;
    }

    /// The constants that instructions point into.
    pub fn consts(&self) -> &[Dynamic]
        ensures { result.now ≡ self.now.consts }
    {
        &self.parts.consts
    }

    /// The names that instructions point into.
    pub fn names(&self) -> &Strings
        ensures { result.now ≡ self.now.names }
    {
        &self.parts.names
    }

    /// The operators that instructions point into.
    pub fn tokens(&self) -> &[Token]
        ensures { result.now ≡ self.now.tokens }
    {
        &self.parts.tokens
    }

    /// The op-assignments that instructions point into.
    pub fn assign_ops(&self) -> &[AssignOp]
        ensures { result.now ≡ self.now.assign_ops }
    {
        &self.parts.assign_ops
    }

    /// The chains that instructions point into.
    pub fn chains(&self) -> &[Chain]
        ensures { result.now ≡ self.now.chains }
    {
        &self.parts.chains
    }

    /// The switches that instructions point into.
    pub fn switches(&self) -> &[Switch]
        ensures { result.now ≡ self.now.switches }
    {
        &self.parts.switches
    }

    /// The pools as [`verify`](grain_verify::verify) takes them.
    pub fn pools(&self) -> Pools<'_>
        ensures consts { result.consts ≡ length self.now.consts }
        ensures names { result.names.now ≡ self.now.names }
        ensures tokens { result.tokens ≡ length self.now.tokens }
        ensures assign_ops { result.assign_ops ≡ length self.now.assign_ops }
        ensures residuals { result.residuals ≡ self.now.residuals }
        ensures chains { result.chains.now ≡ self.now.chains }
        ensures switches { result.switches.now ≡ self.now.switches }
    {
        Pools {
            consts: self.parts.consts.len(),
            names: &self.parts.names,
            tokens: self.parts.tokens.len(),
            assign_ops: self.parts.assign_ops.len(),
            residuals: self.parts.residuals,
            chains: &self.parts.chains,
            switches: &self.parts.switches,
        }
    }

    /// The position of the byte of the code at an address, which is none past the code.
    pub fn position(&self, pc: usize) -> Position
        ensures { place_of result ≡ place_at (places_of self.now) pc }
    {
        self.parts.positions.get(pc)
    }

    /// Where the bytes of the code are in the source text.
    pub fn positions(&self) -> &Positions
        ensures { listed_positions result.now ≡ self.now.positions }
    {
        &self.parts.positions
    }
}

/// How many there are of each thing that it has, and whether its positions are known.
impl fmt::Debug for Program {
    fn fmt<W: fmt::Write>(&self, f: &mut fmt::Formatter<W>) -> fmt::Result {
        f.debug_struct("Program")
            .field("source", &self.source())
            .field("bytes", &self.code.len())
            .field("max_stack", &self.main.max_stack())
            .field("consts", &self.parts.consts.len())
            .field("names", &self.parts.names.len())
            .field("residuals", &self.parts.residuals)
            .field("compiled_fns", &self.functions.len())
            .field("positions", &!self.parts.positions.is_stripped())
            .finish()
    }
}
