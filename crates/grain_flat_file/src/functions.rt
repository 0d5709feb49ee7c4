//! The chunks and the functions of a program as rows.
ghost use Rattle.std.specs.Prelude.{◌≡◌, ◌∷◌, ◌++◌, [], IfOk, OnOk, map};
ghost use Rattle.std.specs.List.{flat_map};
ghost use Rattle.grain.specs.Program.{chunks_of};
ghost use Rattle.grain_code.specs.declared.function.Function.{Function};
ghost use Rattle.grain_flat_file.specs.Contents.{AreFunctionLists, function_row, parameters_of};

use crate::records::CFunction;
use crate::unflat::Unflat;
use grain::Program;
use grain_base::FnAccess;
use grain_code::{Chunk, Function};
use grain_flat::CChunk;
use std::alloc::{AllocError, Global};

fn chunk_row(chunk: &Chunk) -> CChunk
    ensures { result ≡ chunk.now }
{
    CChunk {
        entry: chunk.entry(),
        end: chunk.end(),
        max_stack: chunk.max_stack(),
    }
}

/// The chunks of a program as rows, the main one first.
pub(crate) fn chunk_rows(alloc: Global, program: &Program) -> Result<Vec<CChunk>, AllocError>
    ensures { IfOk result (λ rows. rows.items ≡ chunks_of program.now) }
{
    let mut rows = Vec::new(alloc);
    rows.push(chunk_row(&program.main()))?;
    for function in program.functions() {
        rows.push(chunk_row(&function.chunk))?;
    }
    Ok(rows)
}

/// The row of a function, unless it has too many parameters.
fn function_row(function: &Function) -> Result<CFunction, Unflat>
    ensures { IfOk result (λ row. row ≡ function_row function.now) }
{
    let Ok(parameters) = u32::try_from(function.params.len()) else {
        return Err(Unflat::TooLong);
    };
    let is_private = match function.access {
        FnAccess::Private => true,
        FnAccess::Public => false,
    };
    Ok(CFunction {
        name: function.name,
        parameters,
        is_private,
        is_typed: function.this_type.is_some(),
        this_type: function.this_type.unwrap_or(0),
    })
}

/// Chunks and functions as rows.
#[derive(Drop)]
pub(crate) struct FunctionLists {
    /// The main chunk, and then those of the functions.
    pub(crate) chunks: Vec<CChunk>,
    /// The functions.
    pub(crate) rows: Vec<CFunction>,
    /// The names of the parameters of all.
    pub(crate) parameters: Vec<u32>,
}

impl FunctionLists {
    /// Adds a function.
    fn add(&mut self, function: &Function) -> Result<(), Unflat>
        ensures chunks { OnOk result
            (self.new.chunks.items ≡ self.old.chunks.items ++ function.now.chunk ∷ []) }
        ensures rows { OnOk result
            (self.new.rows.items ≡ self.old.rows.items ++ function_row function.now ∷ []) }
        ensures parameters { OnOk result (self.new.parameters.items
            ≡ self.old.parameters.items ++ function.now.params.items) }
    {
        let row = function_row(function)?;
        self.chunks.push(chunk_row(&function.chunk))?;
        self.rows.push(row)?;
        self.parameters.extend_from_slice(&function.params)?;
        Ok(())
    }

    /// Adds functions.
    fn add_all(&mut self, functions: &[Function]) -> Result<(), Unflat>
        ensures chunks { OnOk result (self.new.chunks.items
            ≡ self.old.chunks.items ++ map (λ (f : Function). f.chunk) functions.now) }
        ensures rows { OnOk result
            (self.new.rows.items ≡ self.old.rows.items ++ map function_row functions.now) }
        ensures parameters { OnOk result (self.new.parameters.items
            ≡ self.old.parameters.items ++ flat_map parameters_of functions.now) }
    {
        for function in functions {
            self.add(function)?;
        }
        Ok(())
    }
}

/// The chunks and the functions as rows.
pub(crate) fn function_lists(alloc: Global, program: &Program) -> Result<FunctionLists, Unflat>
    ensures { IfOk result (AreFunctionLists program.now) }
{
    let mut chunks = Vec::new(alloc);
    chunks.push(chunk_row(&program.main()))?;
    let mut lists = FunctionLists {
        chunks,
        rows: Vec::new(alloc),
        parameters: Vec::new(alloc),
    };
    lists.add_all(program.functions())?;
    Ok(lists)
}
