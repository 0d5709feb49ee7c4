//! Runs, with the functions that they call: in one go, or in slices that pause.
ghost use Rattle.std.specs.Prelude.{◌≡◌, ◌+◌, ℕ, IfErr, IfOk, OnErr};
ghost use Rattle.grain_code.specs.Span.{Span};
ghost use Rattle.grain_machine.specs.Calls.{outermost_of};
ghost use Rattle.grain_machine.specs.Ends.{IsEnded};
ghost use Rattle.grain_machine.specs.Resting.{IsParked, parked_stack};
ghost use Rattle.grain_machine.specs.Resuming.{AwaitsValue, HasEnded, HasReached, IsAwaiting};
ghost use Rattle.grain_machine.specs.Resuming.{IsResumable, Progresses};

use crate::frames::{Frames, Going, Parked};
use crate::host::Host;
use crate::prepared::Runnable;
use crate::step::Outcome;
use std::alloc::{AllocError, Global};

/// How far a run may go.
#[derive(Clone, Copy, Debug, PartialEq, Eq)]
pub struct RunLimits {
    /// How many turns it may take, of all its frames: operations that are done, functions that begin, and faults that are
    /// caught. A return is the operation that called, done at last.
    pub fuel: u64,
    /// How many frames may wait for a function that they called.
    pub depth: usize,
}

/// Where a run ended, and how.
#[derive(Drop)]
pub struct Ending<V, F> {
    /// The address in the chunk that was run: of the operation that ended it, of the one that would have come next, or of the
    /// one that called the function in which the run ended.
    pub at: usize,
    /// How it ended.
    pub outcome: Outcome<V, F>,
}

/// A run that waits for a value from the host. It borrows nothing, as [`Parked`].
#[derive(Drop)]
pub struct Waiting<V, I> {
    frames: Parked<V, I>,
    /// How many operands the value replaces.
    takes: usize,
    /// The address after the operation.
    next: usize,
}

/// How a slice of a run ended.
#[derive(Drop)]
pub enum Progress<V, I, F> {
    /// The fuel of the slice is used up.
    Paused(Parked<V, I>),
    /// After this number of turns the host had it wait for the value of an operation.
    Waits { run: Waiting<V, I>, turns: u64 },
    /// It ended after this number of turns.
    Ended { ending: Ending<V, F>, turns: u64 },
}

impl<'a> Runnable<'a> {
    /// Runs the chunk from its entry, with the functions that it calls, within the limits.
    ///
    /// Room for all operands that any run of a chunk has is taken where its frame begins; iterators, handlers and frames that
    /// wait take theirs as they come.
    ///
    /// # Errors
    /// There is no room for the operands; the host was asked for nothing.
    pub fn run<H: Host>(
        &self,
        alloc: Global,
        host: &mut H,
        limits: RunLimits,
    ) -> Result<Ending<H::Value, H::Fault>, AllocError>
        // A kept run of the chunk ends so, there and within the fuel, and with it those of the functions that it called.
        ensures ended { IfOk result (λ ending. IsEnded H.Iterator self.now limits ending.at ending.outcome) }

        // Without room for its operands no run begins.
        ensures unasked { OnErr result (host.new ≡ host.old) }
    {
        let begun = self.start(alloc)?;
        host.began();
        match self.resume(alloc, begun, host, limits) {
            Progress::Ended {
                ending,
                turns: _turns,
            } => Ok(ending),
            Progress::Paused(rest) => {
                let at = self.stop(host, rest);
                Ok(Ending {
                    at,
                    outcome: Outcome::OutOfFuel,
                })
            }
            Progress::Waits {
                run: waiting,
                turns: _turns,
            } => {
                let at = self.stop(host, waiting.frames);
                Ok(Ending {
                    at,
                    outcome: Outcome::Unanswered,
                })
            }
        }
    }

    /// Begins a run of the chunk, before its first turn.
    ///
    /// The host isn't called. The caller must call [`Host::began`] before, unless another run of that host waits meanwhile.
    ///
    /// # Errors
    /// There is no room for the operands.
    pub fn start<V: Drop, I: Drop>(&self, alloc: Global) -> Result<Parked<V, I>, AllocError>
        ensures parked { IfOk result (IsParked self.now.program) }
        ensures reached { IfOk result (λ run. (depth : ℕ)
            → HasReached self.now.program depth self.now.chunk 0 (parked_stack run)) }
    {
        let frames = Frames::new(alloc, self)?;
        Ok(frames.park())
    }

    /// Continues a run of the same program until it ends, or the host has it wait, or the fuel of this slice is used up.
    ///
    /// The limit on the depth must be the same for all slices of a run.
    pub fn resume<H: Host>(
        &self,
        alloc: Global,
        run: Parked<H::Value, H::Iterator>,
        host: &mut H,
        limits: RunLimits,
    ) -> Progress<H::Value, H::Iterator, H::Fault>
        requires { IsParked self.now.program run }

        // What is left of the run can be continued.
        ensures resumable { IsResumable self.now.program result }

        // If a run of any chunk has reached these frames, it has now made the turns of this slice too.
        ensures goes { (chunk : Span) (turns : ℕ)
            → HasReached self.now.program limits.depth chunk turns (parked_stack run)
            → Progresses self.now.program limits chunk turns result }
    {
        let mut frames = Frames::revived(self, run);
        'turns: for made in 0..limits.fuel {
            if frames.quick_turn(host) {
                continue;
            }
            let at = frames.at();
            match frames.turn(alloc, host, limits.depth) {
                Ok(Going::On) => {}
                Ok(Going::Waits { takes, next }) => {
                    let frames = frames.park();
                    let waiting = Waiting {
                        frames,
                        takes,
                        next,
                    };
                    return Progress::Waits {
                        run: waiting,
                        turns: made,
                    };
                }
                Err(outcome) => {
                    frames.leave(host);
                    return Progress::Ended {
                        ending: Ending { at, outcome },
                        turns: made,
                    };
                }
            }
        }
        Progress::Paused(frames.park())
    }

    /// Answers a run of the same program: the value replaces the operands of the operation at which it waits. That is a turn.
    pub fn answer<H: Host>(
        &self,
        host: &H,
        run: Waiting<H::Value, H::Iterator>,
        value: H::Value,
    ) -> Parked<H::Value, H::Iterator>
        requires { IsAwaiting self.now.program run }
        ensures parked { IsParked self.now.program result }
        ensures goes { (depth : ℕ) (chunk : Span) (turns : ℕ)
            → AwaitsValue self.now.program depth chunk turns run
            → HasReached self.now.program depth chunk (turns + 1) (parked_stack result) }
    {
        let Waiting {
            frames,
            takes,
            next,
        } = run;
        let mut frames = Frames::revived(self, frames);
        frames.go_on(host, takes, next, value);
        frames.park()
    }

    /// Has the operation fail at which a run of the same program waits. A handler catches the fault, which is a turn.
    ///
    /// # Errors
    /// No handler does, and the run has ended.
    pub fn fail<H: Host>(
        &self,
        host: &mut H,
        run: Waiting<H::Value, H::Iterator>,
        fault: H::Fault,
    ) -> Result<Parked<H::Value, H::Iterator>, Ending<H::Value, H::Fault>>
        requires { IsAwaiting self.now.program run }
        ensures parked { IfOk result (IsParked self.now.program) }
        ensures goes { IfOk result (λ caught. (depth : ℕ) (chunk : Span) (turns : ℕ)
            → AwaitsValue self.now.program depth chunk turns run
            → HasReached self.now.program depth chunk (turns + 1) (parked_stack caught)) }
        ensures ends { IfErr result (λ ending. (depth : ℕ) (chunk : Span) (turns : ℕ)
            → AwaitsValue self.now.program depth chunk turns run
            → HasEnded H.Iterator self.now.program depth chunk turns ending.at ending.outcome) }
    {
        let Waiting {
            frames,
            takes: _takes,
            next,
        } = run;
        let mut frames = Frames::revived(self, frames);
        let at = frames.at();
        match frames.raise(host, fault, next) {
            Ok(()) => Ok(frames.park()),
            Err(outcome) => {
                frames.leave(host);
                Err(Ending { at, outcome })
            }
        }
    }

    /// Ends a parked run of the same program, and returns the address of its outermost frame.
    fn stop<H: Host>(&self, host: &mut H, run: Parked<H::Value, H::Iterator>) -> usize
        requires { IsParked self.now.program run }
        ensures { result ≡ (outermost_of (parked_stack run)).machine.address }
    {
        let frames = Frames::revived(self, run);
        frames.leave(host);
        frames.at()
    }
}
