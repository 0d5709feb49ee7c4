//! The main chunk and the functions.
ghost use Rattle.std.specs.Prelude.{◌≡◌, IfOk, MatchOption, OnOk, [], length, map};
ghost use Rattle.grain_parse.specs.Depths.{DeclareDepths, max_stack_of};
ghost use Rattle.grain_parse.specs.Drafted.{KeepsChunks};

use crate::labels::Labels;
use crate::pools::Pools;
use grain_base::FnAccess;
use grain_code::{Chunk, Function};
use grain_lexer::{LineCursor, LineProblem, LineStop};
use std::alloc::{AllocError, Global};

/// The chunks of a program while its text is read.
#[derive(Drop)]
pub(crate) struct Chunks {
    /// The main chunk, once it is read.
    pub main: Option<Chunk>,
    /// The functions.
    pub functions: Vec<Function>,
    /// Which chunks declare what verification finds: 0 the main one, 1 that of the first function.
    pub automatic: Vec<usize>,
}

/// Reads how many operands a chunk declares: nothing for `auto`.
fn read_stack(cursor: &mut LineCursor<'_>) -> Result<Option<u16>, LineStop> {
    if !cursor.eat_word("stack") || cursor.eat_word("auto") {
        return Ok(None);
    }
    let declared = cursor.number_16()?;
    Ok(Some(declared))
}

/// Reads the names of parameters, between parentheses.
fn read_params(pools: &mut Pools, cursor: &mut LineCursor<'_>) -> Result<Vec<u32>, LineStop> {
    let mut params = Vec::new(cursor.alloc);
    cursor.expect(b'(')?;
    if cursor.eat(b')') {
        return Ok(params);
    }
    for _turn in 0..cursor.left.len() {
        let param = pools.read_name(cursor)?;
        params.push(param)?;
        if cursor.eat(b')') {
            return Ok(params);
        }
        cursor.expect(b',')?;
    }
    Err(LineStop::Fault(LineProblem::NoEnd))
}

fn read_access(cursor: &mut LineCursor<'_>) -> FnAccess {
    if cursor.eat_word("private") {
        return FnAccess::Private;
    }
    let _public = cursor.eat_word("public");
    FnAccess::Public
}

fn read_this_type(pools: &mut Pools, cursor: &mut LineCursor<'_>) -> Result<Option<u32>, LineStop> {
    if !cursor.eat_word("on") {
        return Ok(None);
    }
    let name = pools.read_name(cursor)?;
    Ok(Some(name))
}

impl Chunks {
    /// No chunks.
    pub fn new(alloc: Global) -> Chunks
        ensures main { result.main ≡ None }
        ensures functions { result.functions.items ≡ [] }
        ensures automatic { result.automatic.items ≡ [] }
    {
        Chunks {
            main: None,
            functions: Vec::new(alloc),
            automatic: Vec::new(alloc),
        }
    }

    /// Reads where a chunk begins and ends, and how many operands it declares.
    fn read_chunk(
        &mut self,
        labels: &Labels,
        cursor: &mut LineCursor<'_>,
        place: usize,
    ) -> Result<Chunk, LineStop>
        ensures main { self.new.main ≡ self.old.main }
        ensures functions { self.new.functions ≡ self.old.functions }
    {
        let entry = labels.read_address(cursor)?;
        let end = labels.read_address(cursor)?;
        match read_stack(cursor)? {
            Some(declared) => Ok(Chunk::new(entry, end, declared)),
            None => {
                self.automatic.push(place)?;
                Ok(Chunk::new(entry, end, u16::MAX))
            }
        }
    }

    fn read_function(
        &mut self,
        pools: &mut Pools,
        labels: &Labels,
        cursor: &mut LineCursor<'_>,
    ) -> Result<Function, LineStop>
        ensures main { self.new.main ≡ self.old.main }
        ensures functions { self.new.functions ≡ self.old.functions }
    {
        let name = pools.read_name(cursor)?;
        let params = read_params(pools, cursor)?;
        let access = read_access(cursor);
        let this_type = read_this_type(pools, cursor)?;
        let place = self.functions.len().saturating_add(1);
        let chunk = self.read_chunk(labels, cursor, place)?;
        Ok(Function {
            name,
            params,
            access,
            this_type,
            chunk,
        })
    }

    /// Reads a line of the chunks: the main one, or a function.
    pub fn read_line(
        &mut self,
        pools: &mut Pools,
        labels: &Labels,
        cursor: &mut LineCursor<'_>,
    ) -> Result<(), LineStop>
        ensures { OnOk result (KeepsChunks self.old self.new) }
    {
        let start = cursor.left;
        match cursor.word()? {
            "main" if self.main.is_none() => {
                let main = self.read_chunk(labels, cursor, 0)?;
                self.main = Some(main);
                Ok(())
            }
            "function" => {
                let function = self.read_function(pools, labels, cursor)?;
                self.functions.push(function)?;
                Ok(())
            }
            word => {
                cursor.left = start;
                Err(LineStop::Fault(if word == "main" {
                    LineProblem::MainTwice
                } else {
                    LineProblem::Word
                }))
            }
        }
    }

    /// Takes the whole code as the main chunk if the text has none.
    pub fn complete(&mut self, len: usize) -> Result<Chunk, LineStop>
        ensures { IfOk result (λ main. MatchOption self.old.main
            (main ≡ record { entry = 0; end = len; max_stack = 65535 })
            (λ read. main ≡ read)) }
    {
        if let Some(main) = self.main {
            return Ok(main);
        }
        self.automatic.push(0)?;
        match u32::try_from(len) {
            Ok(end) => Ok(Chunk::new(0, end, u16::MAX)),
            Err(_) => Err(LineStop::Fault(LineProblem::TooWide)),
        }
    }
}

/// Has the chunks with these indices declare their depths.
fn put_depths(stacks: &mut [u16], automatic: &[usize], depths: &[u16])
    requires { length depths.now ≡ length stacks.old }
    ensures { DeclareDepths automatic.now depths.now stacks.old stacks.new }
{
    'chosen: for index in automatic {
        let at = *index;
        if at >= stacks.len() {
            continue;
        }
        stacks[at] = depths[at];
    }
}

/// What the chunks declare: those with these indices their depth, the others what they declare already.
///
/// # Errors
/// If the allocator refuses the list.
pub(crate) fn stacks_of(
    alloc: Global,
    chunks: &[Chunk],
    automatic: &[usize],
    depths: &[u16],
) -> Result<Vec<u16>, AllocError>
    requires { length depths.now ≡ length chunks.now }
    ensures { IfOk result (λ stacks.
        DeclareDepths automatic.now depths.now (map max_stack_of chunks.now) stacks.items) }
{
    let mut stacks = declared(alloc, chunks)?;
    put_depths(&mut stacks, automatic, depths);
    Ok(stacks)
}

/// What chunks declare.
fn declared(alloc: Global, chunks: &[Chunk]) -> Result<Vec<u16>, AllocError>
    ensures { IfOk result (λ stacks. stacks.items ≡ map max_stack_of chunks.now) }
{
    let mut stacks = Vec::with_capacity(alloc, chunks.len())?;
    for chunk in chunks {
        stacks.push(chunk.max_stack())?;
    }
    Ok(stacks)
}
