//! Verifying a program, and declaring no more operands than it stacks.
ghost use Rattle.std.specs.Prelude.{◌≡◌, ◌⊎◌, ℕ, IfErr, IfOk, OnErr, OnOk, length, map};
ghost use Rattle.grain_rules.specs.Accepted.{IsAccepted};
ghost use Rattle.grain_rules.specs.Flaw.{Flaw};
ghost use Rattle.grain.specs.Lookups.{FindsIndices};
ghost use Rattle.grain.specs.Program.{chunks_of, declared_by, input_of};
ghost use Rattle.grain.specs.Tightened.{IsTightened, undeclared, undeclared_function};
ghost use Rattle.grain_rules.specs.Verdict.{IsVerdict};
ghost use Rattle.grain_verify.specs.Meter.{AreReached, HasCounted, IsMetered, IsWithinAll};
ghost use Rattle.grain_verify.specs.Refusals.{IsLocatedRefusal, without_chunk};

use crate::program::Program;
use grain_code::{Chunk, Function};
use grain_rules::VerifyError;
use grain_verify::{Meter, Refusal, verify_located};
use std::alloc::AllocError;

impl Program {
    /// The greatest operand count that any run of each chunk reaches, the main chunk before those of the functions, or why
    /// the program is refused. It costs as much as [`verify`](grain_verify::verify) of what the program has, and promises of kept
    /// runs, and requires of a machine, what that does.
    ///
    /// # Errors
    /// As [`verify`](grain_verify::verify) of what the program has. `OutOfMemory` may come before any test.
    pub fn verify(&self) -> Result<Vec<u16>, VerifyError>
        // The headline, of what the program has.
        ensures verdict { IsVerdict (input_of self.now) result }

        // Each index of its instructions is found by its lookup.
        ensures found { OnOk result (FindsIndices self.now) }
    {
        match self.verify_located(&mut Meter::new()) {
            Ok(numbers) => Ok(numbers),
            Err(refusal) => Err(refusal.error),
        }
    }

    /// Verifies as [`Program::verify`] does, counts as [`verify_metered`](grain_verify::verify_metered) does, and says of a
    /// refusal which chunk is refused. It costs as much.
    ///
    /// # Errors
    /// As [`Program::verify`], each with the index of its chunk.
    pub fn verify_located(&self, meter: &mut Meter) -> Result<Vec<u16>, Refusal>
        ensures verdict { IsVerdict (input_of self.now) (without_chunk result) }
        ensures located { IfErr result (IsLocatedRefusal (input_of self.now)) }
        ensures metered { IsMetered (input_of self.now) meter.old meter.new (without_chunk result) }
    {
        let chunks = self.chunks()?;
        let pools = self.pools();
        verify_located(
            self.alloc,
            self.caps,
            &self.parts.consts,
            &self.code,
            &self.functions,
            &chunks,
            &pools,
            meter,
        )
    }

    /// Has each chunk declare the number that [`Program::verify`] returns for it, and costs as much. The number is that of
    /// kept runs: what it requires of a machine is said at [`verify`](grain_verify::verify).
    ///
    /// # Errors
    /// As [`Program::verify`], the program being unchanged.
    pub fn tighten_stack(&mut self) -> Result<(), VerifyError>
        ensures ok { OnOk result (IsTightened self.old self.new) }
        ensures accepts { IsAccepted (input_of self.old)
            → IfErr result (λ e. e ≡ VerifyError.OutOfMemory) }
        ensures flaws { IfErr result
            (λ e. (e ≡ VerifyError.OutOfMemory) ⊎ Flaw (input_of self.old) e) }
        ensures unchanged { OnErr result (self.new ≡ self.old) }
    {
        match self.tighten_located(&mut Meter::new()) {
            Ok(()) => Ok(()),
            Err(refusal) => Err(refusal.error),
        }
    }

    /// Tightens as [`Program::tighten_stack`] does, counts as [`Program::verify_located`] does, and names the chunk of a refusal.
    ///
    /// # Errors
    /// As [`Program::verify_located`], the program being unchanged.
    pub fn tighten_located(&mut self, meter: &mut Meter) -> Result<(), Refusal>
        ensures ok { OnOk result (IsTightened self.old self.new) }
        ensures accepts { IsAccepted (input_of self.old)
            → IfErr result (λ r. r.error ≡ VerifyError.OutOfMemory) }
        ensures located { IfErr result (IsLocatedRefusal (input_of self.old)) }
        ensures reached { OnOk result ((n : ℕ)
            × AreReached (input_of self.old).code (chunks_of self.old) n
            × HasCounted meter.old meter.new n) }
        ensures within { OnErr result ((n : ℕ)
            × IsWithinAll (input_of self.old) n × HasCounted meter.old meter.new n) }
        ensures unchanged { OnErr result (self.new ≡ self.old) }
    {
        let numbers = self.verify_located(meter)?;
        self.declare(&numbers);
        Ok(())
    }

    /// The chunks: the main one, then those of the functions. It takes time and memory by the number of functions.
    ///
    /// # Errors
    /// [`AllocError`] if the allocator refuses the list.
    pub fn chunks(&self) -> Result<Vec<Chunk>, AllocError>
        ensures { IfOk result (λ v. v.items ≡ chunks_of self.now) }
    {
        let mut chunks = Vec::with_capacity(self.alloc, self.functions.len() + 1)?;
        chunks.push(self.main)?;
        for function in &self.functions {
            chunks.push(function.chunk)?;
        }
        Ok(chunks)
    }

    /// Has each chunk declare its number of these, the main chunk the first. Nothing says that the program is accepted with
    /// them. It takes time by the number of functions.
    pub fn declare(&mut self, numbers: &[u16])
        requires { length numbers.now ≡ length (chunks_of self.old) }
        ensures declared { declared_by self.new ≡ numbers.now }
        ensures rest { undeclared self.new ≡ undeclared self.old }
    {
        self.main.set_max_stack(numbers[0]);
        declare_all(&mut self.functions, &numbers[1..]);
    }
}

/// Declares these numbers, function by function.
fn declare_all(functions: &mut [Function], numbers: &[u16])
    requires { length numbers.now ≡ length functions.old }
    ensures declared { map (λ f. f.chunk.max_stack) functions.new ≡ numbers.now }
    ensures rest { map undeclared_function functions.new ≡ map undeclared_function functions.old }
{
    for (index, function) in functions.iter_mut().enumerate() {
        function.chunk.set_max_stack(numbers[index]);
    }
}
