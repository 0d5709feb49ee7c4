//! A program with its instructions and its explanation.

ghost use Rattle.std.specs.Prelude.{◌≡◌, IfOk};
ghost use Rattle.grain_listing.specs.ListedCode.{IsListedCode};

use crate::code::CodeListing;
use crate::handlers::{Handlers, all_depths};
use grain::{ExplainError, Explained, Program, explain};
use grain_code::Chunk;
use std::alloc::{AllocError, Global};

/// A program with its explanation.
#[derive(Drop)]
pub struct ProgramListing {
    /// Its code.
    pub code: CodeListing,
    /// Its chunks.
    pub chunks: Vec<Chunk>,
    /// Its verdict, and where the tests before the chunks pass each chunk explained.
    pub explained: Explained,
    /// For each explained chunk, how many bases are in each of its lists.
    pub depths: Vec<Vec<usize>>,
}

impl ProgramListing {
    /// Code with chunks and their explanation. It takes time by the length of the code and of the explanation.
    ///
    /// # Errors
    /// [`AllocError`] if memory was refused.
    pub fn new(
        alloc: Global,
        bytes: Vec<u8>,
        chunks: Vec<Chunk>,
        explained: Explained,
    ) -> Result<ProgramListing, AllocError>
        ensures code { IfOk result (λ p. IsListedCode bytes.items p.code) }
        ensures chunks { IfOk result (λ p. p.chunks ≡ chunks) }
        ensures explained { IfOk result (λ p. p.explained ≡ explained) }
    {
        let code = CodeListing::of(alloc, bytes)?;
        let depths = all_depths(alloc, &explained.chunks)?;
        Ok(ProgramListing {
            code,
            chunks,
            explained,
            depths,
        })
    }

    /// Explains a program with its own capabilities: the top level and its functions, in this order. It takes the time of
    /// [`explain`], and a copy of the code.
    ///
    /// # Errors
    /// [`AllocError`] if memory was refused.
    pub fn of(alloc: Global, program: &Program) -> Result<ProgramListing, AllocError> {
        let chunks = program.chunks()?;
        let pools = program.pools();
        let explained = explain(
            alloc,
            program.caps(),
            program.consts(),
            program.code(),
            program.functions(),
            &chunks,
            &pools,
        );
        match explained {
            Ok(explained) => {
                let bytes = Vec::from_slice(alloc, program.code())?;
                ProgramListing::new(alloc, bytes, chunks, explained)
            }
            Err(ExplainError::OutOfMemory | ExplainError::BadCode) => Err(AllocError),
        }
    }

    /// The armed handlers of the explained chunk at a place. It takes constant time.
    pub fn handlers_at(&self, place: usize) -> Handlers<'_> {
        match (self.explained.chunks.get(place), self.depths.get(place)) {
            (Some(chunk), Some(depths)) => Handlers {
                bases: &chunk.bases,
                depths,
            },
            _ => Handlers {
                bases: &[],
                depths: &[],
            },
        }
    }
}
