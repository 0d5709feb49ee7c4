//! Verified programs whose code is decoded, and their chunks.
ghost use Rattle.std.specs.Prelude.{◌≡◌, ◌+◌, ◌<◌, IfOk, Some, length};
ghost use Rattle.std.specs.Prelude.{slice_get};
ghost use Rattle.grain.specs.Program.{chunks_of};
ghost use Rattle.grain_machine.specs.Calls.{begins};
ghost use Rattle.grain_machine.specs.State.{IsRunnable, IsUnderWay, state_of};

use crate::decoded::{Decoded, decode_each};
use crate::frame::Frame;
use grain::{Program, Verified};
use grain_code::Chunk;
use std::alloc::{AllocError, Global};
use std::marker::Model;

/// A verified program with its code decoded. It owns both, and borrows nothing.
#[derive(Drop)]
pub struct Prepared {
    verified: Verified,
    /// What stands at each address of the code.
    decoded: Vec<Decoded>,
}

impl Model for Prepared {
    ghost use Rattle.std.specs.Coded.{codes};
    ghost use Rattle.std.specs.Prelude.{length};
    ghost use Rattle.grain_base.specs.contracts.value.Dynamic as value;
    ghost use Rattle.grain_pools.specs.contracts.switch.Switch as switch;
    ghost use Rattle.grain.specs.Verified.{Verified};
    ghost use Rattle.grain_machine.specs.Decoded.{AreDecoded};

    ghost Value = { Verified };

    ghost coded = { Prim.hlevel (codes, value.the_row.coded, switch.the_row.coded) };

    ghost view = { λ a. a.verified };

    ghost invariant = { λ a. AreDecoded a.verified.program (length a.verified.program.code) a.decoded.items };
}

/// A chunk of a verified program, which can be run in place.
#[derive(Drop)]
pub struct Runnable<'a> {
    pub(crate) program: &'a Program,
    /// The depth of each chunk of the program.
    depths: &'a [u16],
    /// What stands at each address of the code.
    pub(crate) decoded: &'a [Decoded],
    pub(crate) chunk: Chunk,
    /// The depth of this one: its frames have room for as many operands.
    pub(crate) room: u16,
}

impl<'a> Model for Runnable<'a> {
    ghost use Rattle.std.specs.Coded.{codes};
    ghost use Rattle.std.specs.Prelude.{length};
    ghost use Rattle.grain_base.specs.contracts.value.Dynamic as value;
    ghost use Rattle.grain_pools.specs.contracts.switch.Switch as switch;
    ghost use Rattle.grain.specs.Verified.{IsVerified};
    ghost use Rattle.grain_machine.specs.Decoded.{AreDecoded};
    ghost use Rattle.grain_machine.specs.State.{IsRunnable, Runs};

    ghost Value = { Runs };

    ghost coded = { Prim.hlevel (codes, value.the_row.coded, switch.the_row.coded) };

    ghost view = { λ r. record { program = r.program.now; chunk = r.chunk; room = r.room } };

    ghost invariant = { λ r. IsRunnable
        (record { program = r.program.now; chunk = r.chunk; room = r.room })
        × IsVerified (record { program = r.program.now; depths = r.depths.now })
        × AreDecoded r.program.now (length r.program.now.code) r.decoded.now };
}

/// The program with its code decoded, which takes 40 bytes for each byte of the code.
///
/// # Errors
/// [`AllocError`] if the allocator refuses the decoded code. The program is dropped.
pub fn prepare(alloc: Global, verified: Verified) -> Result<Prepared, AllocError>
    ensures { IfOk result (λ prepared. prepared ≡ verified) }
{
    let decoded = decode_each(alloc, verified.program())?;
    Ok(Prepared { verified, decoded })
}

impl Prepared {
    /// The program, with the depth of each chunk.
    pub fn verified(&self) -> &Verified
        ensures { result.now ≡ self.now }
    {
        &self.verified
    }

    /// The chunk of the top level.
    pub fn main(&self) -> Runnable<'_>
        ensures program { result.program ≡ self.now.program }
        ensures chunk { result.chunk ≡ self.now.program.main }
        ensures room { slice_get self.now.depths 0 ≡ Some result.room }
    {
        let program = self.verified.program();
        let depths = self.verified.depths();
        Runnable {
            program,
            depths,
            decoded: self.decoded.as_slice(),
            chunk: program.main(),
            room: depths[0],
        }
    }

    /// The chunk of the function at an index, which must be below the number of the program's functions.
    pub fn function(&self, index: usize) -> Runnable<'_>
        requires { index < length self.now.program.functions }
        ensures program { result.program ≡ self.now.program }
        ensures chunk { slice_get (chunks_of self.now.program) (index + 1) ≡ Some result.chunk }
        ensures room { slice_get self.now.depths (index + 1) ≡ Some result.room }
    {
        let program = self.verified.program();
        let depths = self.verified.depths();
        Runnable {
            program,
            depths,
            decoded: self.decoded.as_slice(),
            chunk: program.functions()[index].chunk,
            room: depths[index + 1],
        }
    }
}

impl<'a> Runnable<'a> {
    /// The same chunk, once more.
    pub(crate) fn again(&self) -> Runnable<'a>
        ensures { result ≡ self.now }
    {
        Runnable {
            program: self.program,
            depths: self.depths,
            decoded: self.decoded,
            chunk: self.chunk,
            room: self.room,
        }
    }

    /// This chunk.
    pub fn chunk(&self) -> Chunk
        ensures chunk { result ≡ self.now.chunk }
        ensures runs { IsRunnable self.now }
    {
        self.chunk
    }

    /// The depth of this chunk.
    pub(crate) fn room(&self) -> u16
        ensures { result ≡ self.now.room }
    {
        self.room
    }

    /// Another chunk of the same program, with its depth.
    pub(crate) fn other(&self, chunk: Chunk, room: u16) -> Runnable<'a>
        requires { IsRunnable (record {
          program = self.now.program;
          chunk = chunk;
          room = room;
        }) }
        ensures { result ≡ record {
          program = self.now.program;
          chunk = chunk;
          room = room;
        } }
    {
        Runnable {
            program: self.program,
            depths: self.depths,
            decoded: self.decoded,
            chunk,
            room,
        }
    }

    /// The chunk of the function at an index, of the same program.
    pub(crate) fn callee(&self, function: usize) -> Runnable<'a>
        requires { function < length self.now.program.functions }
        ensures program { result.program ≡ self.now.program }
        ensures chunk { slice_get (chunks_of self.now.program) (function + 1) ≡ Some result.chunk }
    {
        Runnable {
            program: self.program,
            depths: self.depths,
            decoded: self.decoded,
            chunk: self.program.functions()[function].chunk,
            room: self.depths[function + 1],
        }
    }

    /// A run of it begins, in the memory of a frame that ended if there is one.
    pub(crate) fn first_frame<V: Drop, I: Drop>(
        &self,
        alloc: Global,
        spare: Option<Vec<V>>,
    ) -> Result<Frame<V, I>, AllocError>
        ensures first { IfOk result (λ frame. frame.machine ≡ (begins self.now.chunk).machine) }
        ensures ready { IfOk result (λ frame. IsUnderWay self.now (state_of frame)) }
    {
        Frame::new(alloc, self.chunk.entry(), self.room, spare)
    }
}
