//! What is to be verified.
//!
//! It is one value, so that every call that verifies has the very same contract.
ghost use Rattle.std.specs.Prelude.{◌≡◌};
ghost use Rattle.grain_rules.specs.Accepted.{input_beside};

use crate::read::Read;
use grain_base::{Caps, Dynamic};
use grain_code::{Chunk, Function};
use std::marker::Model;

/// A program that is to be verified, as a host has it, with pools in any form that can be read.
///
/// Contracts see it as the input of the theorem, so that what verifies it says `IsVerdict candidate.now result`.
#[derive(Drop)]
pub struct Candidate<'a, P: Read> {
    /// The capabilities of the host.
    pub caps: Caps,
    /// The constants themselves. How many an index may name is what the pools say.
    pub consts: &'a [Dynamic],
    /// The code of all chunks.
    pub code: &'a [u8],
    /// The functions, for which the host needs a capability.
    pub functions: &'a [Function],
    /// The parts of the code that are run by themselves, in the order in which they are verified.
    pub chunks: &'a [Chunk],
    /// What the indices of instructions lead into.
    pub pools: &'a P,
}

impl<'a, P: Read> Model for Candidate<'a, P> {
    ghost use Rattle.std.specs.Coded.{codes};
    ghost use Rattle.grain_base.specs.contracts.value.Dynamic as dynamic;
    ghost use Rattle.grain_rules.specs.Accepted.{Input, input_beside};

    ghost Value = { Input };

    ghost view = { λ c. input_beside c.caps.0 c.consts.now c.code.now c.functions.now c.chunks.now
        (P.facts c.pools.now) (P.leads c.pools.now) };

    ghost coded = { Prim.hlevel (codes, dynamic.the_row.coded) };
}

impl<'a, P: Read> Candidate<'a, P> {
    /// The program with these parts.
    #[inline(always)]
    #[must_use]
    pub fn new(
        caps: Caps,
        consts: &'a [Dynamic],
        code: &'a [u8],
        functions: &'a [Function],
        chunks: &'a [Chunk],
        pools: &'a P,
    ) -> Candidate<'a, P>
        ensures { result ≡ input_beside caps.0 consts.now code.now functions.now chunks.now
            (P.facts pools.now) (P.leads pools.now) }
    {
        Candidate {
            caps,
            consts,
            code,
            functions,
            chunks,
            pools,
        }
    }
}
