//! What the machine requires of its host.
ghost use Rattle.std.specs.Prelude.{◌≡◌, IfOk, length};
ghost use Rattle.std.specs.List.{Contains};
ghost use Rattle.grain_base.specs.View.{content};
ghost use Rattle.grain_pools.specs.Dispatch.{arms, dispatched};
ghost use Rattle.grain_rules.specs.Code.{switch_targets};
ghost use Rattle.grain_rules.specs.Rows.{gives};
ghost use Rattle.grain.specs.Program.{setting_of};
ghost use Rattle.grain_machine.specs.Asked.{IsAsked, IsRequested};
ghost use Rattle.grain_machine.specs.Reply.{NamesFunction};

use grain::Program;
use grain_base::Dynamic;
use grain_code::{Chunk, Op};
use grain_pools::Switch;

/// What a host is asked to do: an operation, where a run meets it.
#[derive(Clone, Copy)]
pub struct Request<'a> {
    /// The program, which is accepted.
    pub program: &'a Program,
    /// The chunk that is run, one of the program's.
    pub chunk: Chunk,
    /// The address of the operation.
    pub at: usize,
    /// The operation.
    pub op: &'a Op,
}

/// The answer of a host to an operation that gives a value.
#[derive(Drop)]
pub enum Reply<V> {
    /// The value.
    Value(V),
    /// The machine is to run the function of the program at this index, and what that returns is the value. The host has
    /// taken the arguments out of the operands that it was lent.
    Call { function: usize },
    /// The value comes later. The run pauses at the operation, and [`answer`](crate::Runnable::answer) or
    /// [`fail`](crate::Runnable::fail) continues it. The host may have taken the arguments out of the operands.
    Wait,
}

/// Why a function that the host asks for isn't run.
#[derive(Clone, Copy, Debug, PartialEq, Eq, Drop)]
pub enum CallError {
    /// As many frames wait as may.
    TooDeep,
    /// There is no room for its operands, or for the frame that would wait for it.
    OutOfMemory,
}

/// It knows values, iterators and faults, and does what operations do with them.
///
/// Each operation that a request has is one that a kept run of a chunk of the accepted program meets at its address. The
/// program has its capabilities, and finds its indices. To `give` and `take` it lends just the operands that it needs, the
/// topmost last.
pub trait Host {
    /// A value of the script.
    type Value: Drop;
    /// A walk over the items of a value.
    type Iterator: Drop;
    /// Why an operation fails.
    type Fault: Drop;

    /// The unit value.
    fn unit(&mut self) -> Self::Value;

    /// A truth value.
    fn boolean(&mut self, value: bool) -> Self::Value;

    /// A run begins. No frame of an earlier run is left, however that one ended.
    fn began(&mut self) {}

    /// Keeps this number of local variables of the frame, and drops the later ones.
    fn unwind_to(&mut self, depth: u16);

    /// Does an operation that takes its operands and gives a value, or names the function of the program that does, or has the
    /// run wait for the value. The machine drops what is left of the operands.
    ///
    /// # Errors
    /// Why it fails.
    fn give(
        &mut self,
        request: &Request<'_>,
        operands: &mut [Self::Value],
    ) -> Result<Reply<Self::Value>, Self::Fault>
        requires asked { IsAsked request.now.program.now request.now.chunk request.now.at
            request.now.op.now (length operands.old) }
        requires gives { gives (setting_of request.now.program.now) request.now.op.now ≡ 1 }
        ensures { IfOk result (NamesFunction request.now.program.now) };

    /// The function at this index begins to run, which the host named last.
    fn entered(&mut self, function: usize) {
        let _ = function;
    }

    /// The function that was entered last, of those that weren't left, no longer runs: it returned, a fault left it, or the
    /// whole run has ended.
    fn left(&mut self) {}

    /// The fault if the function at this index, which the host named last, can't be run.
    fn refused(&mut self, function: usize, why: CallError) -> Self::Fault;

    /// Does an operation that gives no value. The machine drops what is left of the operands that it takes.
    ///
    /// # Errors
    /// Why it fails.
    fn take(
        &mut self,
        request: &Request<'_>,
        operands: &mut [Self::Value],
    ) -> Result<(), Self::Fault>
        requires asked { IsAsked request.now.program.now request.now.chunk request.now.at
            request.now.op.now (length operands.old) }
        requires gives { gives (setting_of request.now.program.now) request.now.op.now ≡ 0 };

    /// As [`give`](Host::give), if a look at the operands is enough for the value. With `None` the machine calls `give`, so nothing
    /// may have changed.
    fn quick_give(
        &mut self,
        _request: &Request<'_>,
        _operands: &[Self::Value],
    ) -> Option<Self::Value>
        requires asked { IsAsked _request.now.program.now _request.now.chunk _request.now.at
            _request.now.op.now (length _operands.now) }
        requires gives { gives (setting_of _request.now.program.now) _request.now.op.now ≡ 1 }
    {
        None
    }

    /// As [`take`](Host::take), if a look at the operands is enough. With `false` the machine calls `take`, so nothing may have
    /// changed.
    fn quick_take(&mut self, _request: &Request<'_>, _operands: &[Self::Value]) -> bool
        requires asked { IsAsked _request.now.program.now _request.now.chunk _request.now.at
            _request.now.op.now (length _operands.now) }
        requires gives { gives (setting_of _request.now.program.now) _request.now.op.now ≡ 0 }
    {
        false
    }

    /// Whether a condition holds. With `None` the machine calls [`is_true`](Host::is_true).
    fn quick_truth(&mut self, _value: &Self::Value) -> Option<bool> {
        None
    }

    /// The next item of an iterator, which stays where it is until [`went_on`](Host::went_on). With `None` the machine calls
    /// [`advance`](Host::advance).
    fn quick_next(
        &mut self,
        _iterator: &Self::Iterator,
        _counter: Option<u16>,
    ) -> Option<Self::Value> {
        None
    }

    /// Moves an iterator past the item that [`quick_next`](Host::quick_next) gave.
    fn went_on(&mut self, _iterator: &mut Self::Iterator) {}

    /// Whether dropping the value does anything. If it doesn't, the machine forgets the value.
    fn needs_drop(&self, _value: &Self::Value) -> bool {
        true
    }

    /// Whether a condition holds.
    ///
    /// # Errors
    /// Why it is none.
    fn is_true(&mut self, request: &Request<'_>, value: &Self::Value) -> Result<bool, Self::Fault>
        requires met { IsRequested request.now.program.now request.now.chunk request.now.at request.now.op.now };

    /// Whether a value is unit.
    fn is_unit(&mut self, value: &Self::Value) -> bool;

    /// Where the switch leads with this subject.
    ///
    /// # Errors
    /// Why it leads nowhere.
    fn dispatch(
        &mut self,
        request: &Request<'_>,
        switch: &Switch,
        subject: &Self::Value,
    ) -> Result<u32, Self::Fault>
        requires met { IsRequested request.now.program.now request.now.chunk request.now.at request.now.op.now }
        ensures { IfOk result (λ target. Contains (switch_targets switch.now) target) };

    /// Begins to go over a value.
    ///
    /// # Errors
    /// Why it can't be gone over.
    fn begin(
        &mut self,
        request: &Request<'_>,
        value: Self::Value,
    ) -> Result<Self::Iterator, Self::Fault>
        requires met { IsRequested request.now.program.now request.now.chunk request.now.at request.now.op.now };

    /// The next item, or `None` past the last. If a slot counts the items, it is the host that counts there.
    ///
    /// # Errors
    /// Why there is none.
    fn advance(
        &mut self,
        request: &Request<'_>,
        iterator: &mut Self::Iterator,
        counter: Option<u16>,
    ) -> Result<Option<Self::Value>, Self::Fault>
        requires met { IsRequested request.now.program.now request.now.chunk request.now.at request.now.op.now };

    /// The fault that a value is when it is thrown.
    fn thrown(&mut self, request: &Request<'_>, value: Self::Value) -> Self::Fault
        requires met { IsRequested request.now.program.now request.now.chunk request.now.at request.now.op.now };

    /// Binds a fault that a handler caught to the name at the index, if it has one.
    ///
    /// # Errors
    /// The fault, if it isn't one to be caught: then it ends the run.
    fn caught(&mut self, fault: Self::Fault, name: Option<u32>) -> Result<(), Self::Fault>;
}

/// Where the switch leads with this subject, for a host whose values have a [`Dynamic`] to show: the target of the first case
/// that has it, else of the first range, else the default, as [`Switch::dispatch`].
pub fn dispatch(switch: &Switch, subject: &Dynamic) -> u32
    ensures target { result ≡ dispatched (arms switch.now) (content subject.now) }

    // So it is one of its targets.
    ensures among { Contains (switch_targets switch.now) result }
{
    switch.dispatch(subject)
}
