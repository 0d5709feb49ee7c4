//! The frames of a run: the one that runs, and those that wait for a function that they called.
ghost use Rattle.std.specs.Prelude.{◌≡◌, ℕ, ◌<◌, [], ◌∷◌, ◌++◌, IfErr, IfOk, IfSome, OnOk};
ghost use Rattle.std.specs.Bool.{OnFalse, OnTrue};
ghost use Rattle.std.specs.Prelude.{vec_capacity, vec_len};
ghost use Rattle.std.specs.List.{All};
ghost use Rattle.grain_machine.specs.Calls.{IsCaughtBy, IsGivenBack, IsMoved, IsRaised, Turns};
ghost use Rattle.grain_machine.specs.Calls.{begins, outermost_of};
ghost use Rattle.grain_machine.specs.Ends.{IsFaultOf, StackEnds};
ghost use Rattle.grain_machine.specs.Resting.{GoesOrWaits, IsParked, parked_runs};
ghost use Rattle.grain_machine.specs.Standing.{GivesHere, IsCalling, IsStanding, IsWaiting, MayCallHere};
ghost use Rattle.grain_machine.specs.Standing.{stack_of, waiting_of};
ghost use Rattle.grain_machine.specs.State.{state_of};
ghost use Rattle.grain_machine.specs.declared.step.Outcome.TheVariants as outcomes;

use crate::frame::Frame;
use crate::host::{CallError, Host};
use crate::prepared::Runnable;
use crate::step::{Outcome, Turn};
use grain_code::Chunk;
use std::alloc::{AllocError, Global};
use std::mem;

/// A frame that waits for the function that it called.
#[derive(Drop)]
pub(crate) struct Caller<V, I> {
    /// The chunk that it runs.
    chunk: Chunk,
    /// The depth of that chunk.
    room: u16,
    frame: Frame<V, I>,
    /// How many operands the value replaces.
    takes: usize,
    /// The address after the operation that called.
    next: usize,
}

/// The frames of a run between two slices. They borrow nothing: the run can be resumed by any [`Runnable`] of its program.
///
/// It costs constant time to park a run and to resume it, at any depth of calls.
#[derive(Drop)]
pub struct Parked<V, I> {
    /// The chunk of the frame on top.
    chunk: Chunk,
    /// The depth of that chunk.
    room: u16,
    frame: Frame<V, I>,
    callers: Vec<Caller<V, I>>,
    spare: Vec<Vec<V>>,
}

/// What the frame on top did.
#[derive(Clone, Copy)]
pub(crate) enum Going {
    /// It made a turn.
    On,
    /// It waits for a value from the host. The value replaces this number of operands, and the frame goes on at `next`.
    Waits { takes: usize, next: usize },
}

/// The frames of a run.
#[derive(Drop)]
pub(crate) struct Frames<'a, V, I> {
    /// The chunk that runs.
    body: Runnable<'a>,
    /// Where it stands.
    frame: Frame<V, I>,
    /// The frames that wait, the last that called at the end.
    callers: Vec<Caller<V, I>>,
    /// The memory of operands of frames that ended, for frames to come.
    spare: Vec<Vec<V>>,
}

impl<'a, V: Drop, I: Drop> Frames<'a, V, I> {
    /// A run of the chunk begins.
    pub(crate) fn new(alloc: Global, body: &Runnable<'a>) -> Result<Frames<'a, V, I>, AllocError>
        ensures standing { IfOk result (IsStanding body.now.program) }
        ensures first { IfOk result (λ frames. stack_of frames ≡ record {
          top = begins body.now.chunk;
          callers = [];
        }) }
    {
        Ok(Frames {
            body: body.again(),
            frame: body.first_frame(alloc, None)?,
            callers: Vec::new(alloc),
            spare: Vec::new(alloc),
        })
    }

    /// Where the outermost frame stands.
    #[inline(always)]
    pub(crate) fn at(&self) -> usize
        ensures { result ≡ (outermost_of (stack_of self.now)).machine.address }
    {
        if self.callers.is_empty() {
            self.frame.at()
        } else {
            self.callers[0].frame.at()
        }
    }

    /// The frame on top does the operation where it stands, if that is done at once. `false` if it isn't.
    #[inline(always)]
    pub(crate) fn quick_turn<H: Host<Value = V, Iterator = I>>(&mut self, host: &mut H) -> bool
        requires { IsStanding self.old.body.program self.old }
        ensures standing { IsStanding self.old.body.program self.new }
        ensures goes { OnTrue result ((depth : ℕ)
            → Turns self.old.body.program depth (stack_of self.old) (stack_of self.new)) }
        ensures stays { OnFalse result (stack_of self.new ≡ stack_of self.old) }
    {
        self.body.quick_step(&mut self.frame, host)
    }

    /// The frame on top does the operation where it stands, or waits there for a value from the host.
    #[inline(never)]
    pub(crate) fn turn<H: Host<Value = V, Iterator = I>>(
        &mut self,
        alloc: Global,
        host: &mut H,
        depth: usize,
    ) -> Result<Going, Outcome<V, H::Fault>>
        requires { IsStanding self.old.body.program self.old }
        ensures standing { OnOk result (IsStanding self.old.body.program self.new) }
        ensures goes { IfOk result
            (GoesOrWaits self.old.body.program depth self.old self.new) }
        ensures ends { IfErr result
            (StackEnds self.old.body.program (stack_of self.old)) }
    {
        match self.body.step(&mut self.frame, host) {
            Ok(Turn::Moved) => Ok(Going::On),
            Ok(
                Turn::Calls {
                    function,
                    takes,
                    next,
                },
            ) => match self.call(alloc, host, depth, function, takes, next) {
                Ok(()) => Ok(Going::On),
                Err(outcome) => Err(outcome),
            },
            Ok(Turn::Waits { takes, next }) => Ok(Going::Waits { takes, next }),
            Err(Outcome::Returned(value)) => match self.give_back(host, value) {
                Ok(()) => Ok(Going::On),
                Err(outcome) => Err(outcome),
            },
            Err(Outcome::Faulted(fault)) => match self.unwind(host, fault) {
                Ok(()) => Ok(Going::On),
                Err(outcome) => Err(outcome),
            },
            Err(Outcome::Uncatchable(fault)) => Err(Outcome::Uncatchable(fault)),
            Err(Outcome::OutOfFuel) => Err(Outcome::OutOfFuel),
            Err(Outcome::OutOfMemory) => Err(Outcome::OutOfMemory),
            Err(Outcome::Unanswered) => Err(Outcome::Unanswered),
        }
    }

    /// Runs the function at an index, if there is room for it.
    fn call<H: Host<Value = V, Iterator = I>>(
        &mut self,
        alloc: Global,
        host: &mut H,
        depth: usize,
        function: usize,
        takes: usize,
        next: usize,
    ) -> Result<(), Outcome<V, H::Fault>>
        requires standing { IsStanding self.old.body.program self.old }
        requires calling { IsCalling self.old.body (state_of self.old.frame) function takes next }
        ensures standing { OnOk result (IsStanding self.old.body.program self.new) }
        ensures goes { OnOk result
            (Turns self.old.body.program depth (stack_of self.old) (stack_of self.new)) }
        ensures ends { IfErr result (IsFaultOf
            ((stack_of self.old).top ∷ (stack_of self.old).callers)) }
    {
        if self.callers.len() >= depth {
            return self.refuse(host, function, CallError::TooDeep, next);
        }
        let body = self.body.callee(function);
        let spare = self.spare.pop();
        match body.first_frame(alloc, spare) {
            Ok(frame) => match self.callers.reserve(1) {
                Ok(()) => {
                    self.enter(body, frame, takes, next);
                    host.entered(function);
                    Ok(())
                }
                Err(_) => self.refuse(host, function, CallError::OutOfMemory, next),
            },
            Err(_) => self.refuse(host, function, CallError::OutOfMemory, next),
        }
    }

    /// A frame begins on top of the one that runs, which waits for it.
    fn enter(&mut self, callee: Runnable<'a>, begun: Frame<V, I>, takes: usize, next: usize)
        requires { vec_len self.old.callers < vec_capacity self.old.callers }
        ensures runs { self.new.body ≡ callee.entry }
        ensures stands { self.new.frame ≡ begun }
        ensures waits { self.new.callers.items ≡ self.old.callers.items ++ (record {
          chunk = self.old.body.chunk;
          room = self.old.body.room;
          frame = self.old.frame;
          takes = takes;
          next = next;
        }) ∷ [] }
    {
        let chunk = self.body.chunk();
        let room = self.body.room();
        self.body = callee;
        let waiting = Caller {
            chunk,
            room,
            frame: mem::replace(&mut self.frame, begun),
            takes,
            next,
        };
        self.callers.push_reserved(waiting);
    }

    /// Raises the fault that it is where a function can't be run.
    fn refuse<H: Host<Value = V, Iterator = I>>(
        &mut self,
        host: &mut H,
        function: usize,
        why: CallError,
        next: usize,
    ) -> Result<(), Outcome<V, H::Fault>>
        requires standing { IsStanding self.old.body.program self.old }
        requires calling { MayCallHere self.old.body (state_of self.old.frame) next }
        ensures standing { OnOk result (IsStanding self.old.body.program self.new) }
        ensures goes { OnOk result (IsRaised self.old.body.program
            (stack_of self.old) (stack_of self.new)) }
        ensures ends { IfErr result (IsFaultOf
            ((stack_of self.old).top ∷ (stack_of self.old).callers)) }
    {
        let fault = host.refused(function, why);
        self.raise(host, fault, next)
    }

    /// Raises a fault at the operation where the frame on top stands.
    pub(crate) fn raise<H: Host<Value = V, Iterator = I>>(
        &mut self,
        host: &mut H,
        fault: H::Fault,
        next: usize,
    ) -> Result<(), Outcome<V, H::Fault>>
        requires standing { IsStanding self.old.body.program self.old }
        requires calling { MayCallHere self.old.body (state_of self.old.frame) next }
        ensures standing { OnOk result (IsStanding self.old.body.program self.new) }
        ensures goes { OnOk result (IsRaised self.old.body.program
            (stack_of self.old) (stack_of self.new)) }
        ensures ends { IfErr result (IsFaultOf
            ((stack_of self.old).top ∷ (stack_of self.old).callers)) }
    {
        match self.frame.catch() {
            Some(name) => match host.caught(fault, name) {
                Ok(()) => Ok(()),
                Err(fault) => Err(Outcome::Uncatchable(fault)),
            },
            None => self.unwind(host, fault),
        }
    }

    /// The frame on top goes on with the value for which it waits.
    pub(crate) fn go_on<H: Host<Value = V>>(
        &mut self,
        host: &H,
        takes: usize,
        behind: usize,
        value: V,
    )
        requires standing { IsStanding self.old.body.program self.old }
        requires asking { GivesHere self.old.body (state_of self.old.frame) takes behind }
        ensures standing { IsStanding self.old.body.program self.new }
        ensures goes { IsMoved self.old.body.program (stack_of self.old) (stack_of self.new) }
    {
        self.frame.replace_few(host, takes, value);
        self.frame.go(behind);
    }

    /// Parks the run.
    pub(crate) fn park(self) -> Parked<V, I>
        requires { IsStanding self.body.program self }
        ensures parked { IsParked self.entry.body.program result }
        ensures chunk { result.chunk ≡ self.entry.body.chunk }
        ensures room { result.room ≡ self.entry.body.room }
        ensures frame { result.frame ≡ self.entry.frame }
        ensures callers { result.callers.items ≡ self.entry.callers.items }
    {
        let Frames {
            body,
            frame,
            callers,
            spare,
        } = self;
        let chunk = body.chunk();
        let room = body.room();
        Parked {
            chunk,
            room,
            frame,
            callers,
            spare,
        }
    }

    /// The frames of a parked run of the same program.
    pub(crate) fn revived(body: &Runnable<'a>, parked: Parked<V, I>) -> Frames<'a, V, I>
        requires { IsParked body.now.program parked }
        ensures standing { IsStanding body.now.program result }
        ensures runs { result.body ≡ parked_runs body.now.program parked }
        ensures frame { result.frame ≡ parked.frame }
        ensures callers { result.callers.items ≡ parked.callers.items }
    {
        let Parked {
            chunk,
            room,
            frame,
            callers,
            spare,
        } = parked;
        let body = body.other(chunk, room);
        Frames {
            body,
            frame,
            callers,
            spare,
        }
    }

    /// The last frame that called goes on with what the function returned, if there is one.
    fn give_back<H: Host<Value = V>>(
        &mut self,
        host: &mut H,
        value: Option<V>,
    ) -> Result<(), Outcome<V, H::Fault>>
        requires { All (IsWaiting self.old.body.program) self.old.callers.items }
        ensures standing { OnOk result (IsStanding self.old.body.program self.new) }
        ensures goes { OnOk result (IsGivenBack self.old.body.program
            (waiting_of self.old.callers.items) value (stack_of self.new)) }
        ensures ends { IfErr result (λ outcome. (outcome ≡ outcomes.Returned value)
            × (waiting_of self.old.callers.items ≡ [])) }
    {
        let Some(caller) = self.callers.pop() else {
            return Err(Outcome::Returned(value));
        };
        host.left();
        let Caller {
            chunk,
            room,
            mut frame,
            takes,
            next,
        } = caller;
        let given = value_or_unit(host, value);
        frame.replace_few(host, takes, given);
        frame.go(next);
        let body = self.body.other(chunk, room);
        self.body = body;
        mem::swap(&mut self.frame, &mut frame);
        keep_memory(&mut self.spare, frame);
        Ok(())
    }

    /// The last frame that called and has a handler that hasn't caught catches the fault, or it ends the run.
    fn unwind<H: Host<Value = V, Iterator = I>>(
        &mut self,
        host: &mut H,
        fault: H::Fault,
    ) -> Result<(), Outcome<V, H::Fault>>
        requires { All (IsWaiting self.old.body.program) self.old.callers.items }
        ensures standing { OnOk result (IsStanding self.old.body.program self.new) }
        ensures caught { OnOk result (IsCaughtBy self.old.body.program
            (waiting_of self.old.callers.items) (stack_of self.new)) }
        ensures ends { IfErr result (IsFaultOf (waiting_of self.old.callers.items)) }
    {
        'callers: while let Some(caller) = self.callers.pop() {
            host.left();
            let Caller {
                chunk,
                room,
                mut frame,
                takes: _,
                next: _,
            } = caller;
            match frame.catch() {
                Some(name) => {
                    let body = self.body.other(chunk, room);
                    self.body = body;
                    self.frame = frame;
                    return match host.caught(fault, name) {
                        Ok(()) => Ok(()),
                        Err(fault) => Err(Outcome::Uncatchable(fault)),
                    };
                }
                None => {}
            }
        }
        Err(Outcome::Faulted(fault))
    }

    /// Tells the host that the frames above the outermost one have ended with the run.
    pub(crate) fn leave<H: Host>(&self, host: &mut H) {
        for _ in 0..self.callers.len() {
            host.left();
        }
    }
}

/// Keeps the memory of a frame that ended. If the list can't grow, that memory is freed.
fn keep_memory<V: Drop, I: Drop>(spare: &mut Vec<Vec<V>>, ended: Frame<V, I>) {
    let _kept = spare.push(ended.into_operands());
}

/// The value that a function returned, or unit if it returned none.
#[inline(always)]
fn value_or_unit<H: Host>(host: &mut H, value: Option<H::Value>) -> H::Value
    ensures { IfSome value (λ returned. result ≡ returned) }
{
    match value {
        Some(value) => value,
        None => host.unit(),
    }
}
