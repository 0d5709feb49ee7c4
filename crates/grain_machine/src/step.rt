//! One operation at a time.
ghost use Rattle.std.specs.Prelude.{◌≡◌, ◌≤◌, IfErr, IfOk, OnOk};
ghost use Rattle.grain_code.specs.declared.op.Op.{Op};
ghost use Rattle.grain.specs.Program.{setting_of};
ghost use Rattle.grain_machine.specs.Ends.{IsFault, MayEnd};
ghost use Rattle.grain_machine.specs.Asked.{IsForHost, program_code};
ghost use Rattle.grain_rules.specs.Rows.{takes};
ghost use Rattle.grain_machine.specs.Standing.{DoesTurn};
ghost use Rattle.grain_machine.specs.State.{MakesMove, IsAt, IsUnderWay, state_of};
ghost use Rattle.grain_machine.specs.Values.{Lands};

use crate::decoded::Decoded;
use crate::frame::{Frame, Given};
use crate::host::{Host, Request};
use crate::prepared::Runnable;
use grain_code::{Op, Receiver};

/// How a run ends.
#[derive(Drop)]
pub enum Outcome<V, F> {
    /// It reached `Return`, with this on top of the operand stack.
    Returned(Option<V>),
    /// A fault came, and no handler is armed that hasn't caught.
    Faulted(F),
    /// A fault came that a handler would catch, and that the host doesn't let be caught.
    Uncatchable(F),
    /// It has taken as many turns as it may.
    OutOfFuel,
    /// An iterator or a handler more wants memory that isn't there.
    OutOfMemory,
    /// It reached an operation for whose value the host has the run wait. [`run`](Runnable::run) can't; a run by
    /// [`resume`](Runnable::resume) never ends so.
    Unanswered,
}

/// What a frame does next.
#[derive(Clone, Copy)]
pub(crate) enum Turn {
    /// It has made a move.
    Moved,
    /// It waits for the function at an index: what that returns takes the place of the operands that are taken, and it goes on at `next`.
    Calls {
        function: usize,
        takes: usize,
        next: usize,
    },
    /// It waits for a value from the host, which replaces this number of operands. Then it goes on at `next`.
    Waits {
        takes: usize,
        next: usize,
    },
}

impl<'a> Runnable<'a> {
    /// What stands where the run is.
    #[inline(always)]
    pub(crate) fn read<V: Drop, I: Drop>(&self, frame: &Frame<V, I>) -> &'a Decoded
        requires { IsUnderWay self.now (state_of frame.now) }
        ensures at { IsAt self.now (state_of frame.now) result.now.op result.now.next }
        ensures takes { result.now.takes ≡ takes (setting_of self.now.program) result.now.op }
    {
        let decoded = self.decoded;
        let at = frame.at();
        &decoded[at]
    }

    /// What the host is asked to do with an operation where the run is.
    #[inline(always)]
    pub(crate) fn request<'b, V: Drop, I: Drop>(
        &'b self,
        frame: &Frame<V, I>,
        op: &'b Op,
    ) -> Request<'b>
        ensures program { result.program.now ≡ self.now.program }
        ensures chunk { result.chunk ≡ self.now.chunk }
        ensures at { result.at ≡ frame.now.machine.address }
        ensures op { result.op.now ≡ op.now }
    {
        let here = frame.at();
        Request {
            program: self.program,
            chunk: self.chunk,
            at: here,
            op,
        }
    }

    /// Does the operation that stands where the run is.
    #[inline(always)]
    pub(crate) fn step<H: Host>(
        &self,
        frame: &mut Frame<H::Value, H::Iterator>,
        host: &mut H,
    ) -> Result<Turn, Outcome<H::Value, H::Fault>>
        requires { IsUnderWay self.now (state_of frame.old) }
        ensures goes { IfOk result (DoesTurn self.now frame.old frame.new) }
        ensures ends { IfErr result (MayEnd (program_code self.now.program) frame.old.machine) }
    {
        let here = self.read(frame);
        let next = here.next;
        match here.op {
            Op::Const(_) | Op::LoadLocal(_) => self.give(frame, host, &here.op, next, 0),
            Op::Call { .. } => self.give(frame, host, &here.op, next, here.takes as usize),
            Op::EvalAst { .. }
            | Op::InterpolateStart
            | Op::LoadShared(_)
            | Op::LoadSharedNamed(_)
            | Op::LoadNamed(_)
            | Op::MakeClosure(_)
            | Op::LoadThis
            | Op::LoadThisShared
            | Op::CustomSyntax(_) => self.give_apart(frame, host, &here.op, next, 0),
            Op::InterpolateEnd | Op::CheckSize { .. } | Op::MakeFnPtr | Op::IsShared => {
                self.give_apart(frame, host, &here.op, next, 1)
            }
            Op::CallRef {
                receiver: Receiver::Local(_),
                ..
            } => self.give_apart(frame, host, &here.op, next, here.takes as usize),
            Op::CallRef {
                receiver: Receiver::This,
                ..
            }
            | Op::CallRef {
                receiver: Receiver::Named(_),
                ..
            } => self.give_apart(frame, host, &here.op, next, here.takes as usize),
            Op::Chain(_) | Op::MakeArray(_) | Op::MakeMap(_) => {
                self.give_apart(frame, host, &here.op, next, here.takes as usize)
            }
            Op::Curry(_) | Op::CallFnPtr { .. } => {
                self.give_apart(frame, host, &here.op, next, here.takes as usize)
            }
            Op::StoreLocal { .. }
            | Op::AssignLocal { .. }
            | Op::DeclareLocal { .. }
            | Op::AssignNamed { .. }
            | Op::StoreShared(_)
            | Op::AssignThis { .. }
            | Op::Import { .. } => {
                self.take(frame, host, &here.op, next, 1, 1)?;
                Ok(Turn::Moved)
            }
            Op::InterpolateAppend => {
                self.take(frame, host, &here.op, next, 2, 1)?;
                Ok(Turn::Moved)
            }
            Op::Share(_)
            | Op::ShareNamed(_)
            | Op::RequireThis
            | Op::ExportLocal { .. }
            | Op::ExportNamed { .. }
            | Op::Tick
            | Op::Checkpoint
            | Op::Statement { .. } => {
                self.take(frame, host, &here.op, next, 0, 0)?;
                Ok(Turn::Moved)
            }
            Op::Unit => {
                let value = host.unit();
                self.unit(frame, next, value);
                Ok(Turn::Moved)
            }
            Op::Bool(value) => {
                let truth = host.boolean(value);
                self.truth(frame, next, value, truth);
                Ok(Turn::Moved)
            }
            Op::Pop => {
                self.pop(frame, next);
                Ok(Turn::Moved)
            }
            Op::Rotate(depth) => {
                self.rotate(frame, next, depth as usize);
                Ok(Turn::Moved)
            }
            Op::UnwindTo(depth) => {
                host.unwind_to(depth);
                self.unwind(frame, next, depth);
                Ok(Turn::Moved)
            }
            Op::Jump(target) => {
                self.jump(frame, next, target);
                Ok(Turn::Moved)
            }
            Op::JumpIfTrue { target } => {
                self.jump_if_true(frame, host, next, target)?;
                Ok(Turn::Moved)
            }
            Op::JumpIfFalse { target } => {
                self.jump_if_false(frame, host, next, target)?;
                Ok(Turn::Moved)
            }
            Op::SkipIfNotUnit { target } => {
                self.skip(frame, host, next, target);
                Ok(Turn::Moved)
            }
            Op::Switch(index) => {
                self.switch(frame, host, next, index)?;
                Ok(Turn::Moved)
            }
            Op::Return => Err(Outcome::Returned(frame.result())),
            Op::Throw => {
                self.throw(frame, host, next)?;
                Ok(Turn::Moved)
            }
            Op::IterInit => {
                self.begin(frame, host, next)?;
                Ok(Turn::Moved)
            }
            Op::IterNext { exit, counter_slot } => {
                self.advance(frame, host, next, exit, counter_slot)?;
                Ok(Turn::Moved)
            }
            Op::IterDrop => {
                self.end(frame, next);
                Ok(Turn::Moved)
            }
            Op::PushHandler { target, catch_var } => {
                self.arm(frame, next, target, catch_var)?;
                Ok(Turn::Moved)
            }
            Op::PopHandler => {
                self.disarm(frame, next);
                Ok(Turn::Moved)
            }
        }
    }

    #[inline(always)]
    fn give<H: Host>(
        &self,
        frame: &mut Frame<H::Value, H::Iterator>,
        host: &mut H,
        op: &Op,
        next: usize,
        takes: usize,
    ) -> Result<Turn, Outcome<H::Value, H::Fault>>
        requires at { IsAt self.now (state_of frame.old) op.now next }
        requires plain { IsForHost (setting_of self.now.program) op.now takes takes 1 }
        ensures goes { IfOk result (DoesTurn self.now frame.old frame.new) }
        ensures ends { IfErr result (MayEnd (program_code self.now.program) frame.old.machine) }
    {
        let request = self.request(frame, op);
        match frame.give(host, &request, takes) {
            Ok(Given::Value) => {
                frame.go(next);
                Ok(Turn::Moved)
            }
            Ok(Given::Call(function)) => Ok(Turn::Calls {
                function,
                takes,
                next,
            }),
            Ok(Given::Wait) => Ok(Turn::Waits { takes, next }),
            Err(fault) => match raise(frame, host, fault) {
                Ok(()) => Ok(Turn::Moved),
                Err(outcome) => Err(outcome),
            },
        }
    }

    /// As [`Runnable::give`], in a function of its own: what a host does with the frequent operations stays small.
    #[inline(never)]
    fn give_apart<H: Host>(
        &self,
        frame: &mut Frame<H::Value, H::Iterator>,
        host: &mut H,
        op: &Op,
        next: usize,
        takes: usize,
    ) -> Result<Turn, Outcome<H::Value, H::Fault>>
        requires at { IsAt self.now (state_of frame.old) op.now next }
        requires plain { IsForHost (setting_of self.now.program) op.now takes takes 1 }
        ensures goes { IfOk result (DoesTurn self.now frame.old frame.new) }
        ensures ends { IfErr result (MayEnd (program_code self.now.program) frame.old.machine) }
    {
        self.give(frame, host, op, next, takes)
    }

    #[inline(always)]
    fn take<H: Host>(
        &self,
        frame: &mut Frame<H::Value, H::Iterator>,
        host: &mut H,
        op: &Op,
        next: usize,
        needs: usize,
        takes: usize,
    ) -> Result<(), Outcome<H::Value, H::Fault>>
        requires at { IsAt self.now (state_of frame.old) op.now next }
        requires plain { IsForHost (setting_of self.now.program) op.now needs takes 0 }
        requires within { takes ≤ needs }
        ensures goes { OnOk result (MakesMove self.now frame.old frame.new) }
        ensures ends { IfErr result (MayEnd (program_code self.now.program) frame.old.machine) }
    {
        let request = self.request(frame, op);
        match frame.take(host, &request, needs, takes) {
            Ok(()) => {
                frame.go(next);
                Ok(())
            }
            Err(fault) => raise(frame, host, fault),
        }
    }

    #[inline(always)]
    pub(crate) fn unit<V: Drop, I: Drop>(&self, frame: &mut Frame<V, I>, next: usize, unit: V)
        requires { IsAt self.now (state_of frame.old) Op.Unit next }
        ensures { MakesMove self.now frame.old frame.new }
    {
        frame.push(unit);
        frame.go(next);
    }

    #[inline(always)]
    pub(crate) fn truth<V: Drop, I: Drop>(
        &self,
        frame: &mut Frame<V, I>,
        next: usize,
        value: bool,
        truth: V,
    )
        requires { IsAt self.now (state_of frame.old) (Op.Bool value) next }
        ensures { MakesMove self.now frame.old frame.new }
    {
        frame.push(truth);
        frame.go(next);
    }

    #[inline(always)]
    fn pop<V: Drop, I: Drop>(&self, frame: &mut Frame<V, I>, next: usize)
        requires { IsAt self.now (state_of frame.old) Op.Pop next }
        ensures { MakesMove self.now frame.old frame.new }
    {
        let _ = frame.pop();
        frame.go(next);
    }

    #[inline(always)]
    fn rotate<V: Drop, I: Drop>(&self, frame: &mut Frame<V, I>, next: usize, depth: usize)
        requires { IsAt self.now (state_of frame.old) (Op.Rotate depth) next }
        ensures { MakesMove self.now frame.old frame.new }
    {
        frame.rotate(depth);
        frame.go(next);
    }

    #[inline(always)]
    pub(crate) fn unwind<V: Drop, I: Drop>(&self, frame: &mut Frame<V, I>, next: usize, depth: u16)
        requires { IsAt self.now (state_of frame.old) (Op.UnwindTo depth) next }
        ensures { MakesMove self.now frame.old frame.new }
    {
        frame.go(next);
    }

    #[inline(always)]
    pub(crate) fn jump<V: Drop, I: Drop>(&self, frame: &mut Frame<V, I>, next: usize, target: u32)
        requires { IsAt self.now (state_of frame.old) (Op.Jump target) next }
        ensures { MakesMove self.now frame.old frame.new }
    {
        frame.go(target as usize);
    }

    #[inline(always)]
    fn jump_if_true<H: Host>(
        &self,
        frame: &mut Frame<H::Value, H::Iterator>,
        host: &mut H,
        next: usize,
        target: u32,
    ) -> Result<(), Outcome<H::Value, H::Fault>>
        requires { IsAt self.now (state_of frame.old) (Op.JumpIfTrue target) next }
        ensures goes { OnOk result (MakesMove self.now frame.old frame.new) }
        ensures ends { IfErr result (MayEnd (program_code self.now.program) frame.old.machine) }
    {
        let op = Op::JumpIfTrue { target };
        let request = self.request(frame, &op);
        match frame.condition(host, &request) {
            Ok(true) => {
                frame.go(target as usize);
                Ok(())
            }
            Ok(false) => {
                frame.go(next);
                Ok(())
            }
            Err(fault) => raise(frame, host, fault),
        }
    }

    #[inline(always)]
    fn jump_if_false<H: Host>(
        &self,
        frame: &mut Frame<H::Value, H::Iterator>,
        host: &mut H,
        next: usize,
        target: u32,
    ) -> Result<(), Outcome<H::Value, H::Fault>>
        requires { IsAt self.now (state_of frame.old) (Op.JumpIfFalse target) next }
        ensures goes { OnOk result (MakesMove self.now frame.old frame.new) }
        ensures ends { IfErr result (MayEnd (program_code self.now.program) frame.old.machine) }
    {
        let op = Op::JumpIfFalse { target };
        let request = self.request(frame, &op);
        match frame.condition(host, &request) {
            Ok(false) => {
                frame.go(target as usize);
                Ok(())
            }
            Ok(true) => {
                frame.go(next);
                Ok(())
            }
            Err(fault) => raise(frame, host, fault),
        }
    }

    #[inline(always)]
    pub(crate) fn skip<H: Host>(
        &self,
        frame: &mut Frame<H::Value, H::Iterator>,
        host: &mut H,
        next: usize,
        target: u32,
    )
        requires { IsAt self.now (state_of frame.old) (Op.SkipIfNotUnit target) next }
        ensures { MakesMove self.now frame.old frame.new }
    {
        if host.is_unit(frame.top()) {
            frame.go(next);
        } else {
            frame.go(target as usize);
        }
    }

    #[inline(always)]
    fn switch<H: Host>(
        &self,
        frame: &mut Frame<H::Value, H::Iterator>,
        host: &mut H,
        next: usize,
        index: u32,
    ) -> Result<(), Outcome<H::Value, H::Fault>>
        requires { IsAt self.now (state_of frame.old) (Op.Switch index) next }
        ensures goes { OnOk result (MakesMove self.now frame.old frame.new) }
        ensures ends { IfErr result (MayEnd (program_code self.now.program) frame.old.machine) }
    {
        let switch = &self.program.switches()[index as usize];
        let op = Op::Switch(index);
        let request = self.request(frame, &op);
        match host.dispatch(&request, switch, frame.top()) {
            Ok(target) => {
                frame.go(target as usize);
                Ok(())
            }
            Err(fault) => raise(frame, host, fault),
        }
    }

    #[inline(always)]
    fn throw<H: Host>(
        &self,
        frame: &mut Frame<H::Value, H::Iterator>,
        host: &mut H,
        next: usize,
    ) -> Result<(), Outcome<H::Value, H::Fault>>
        requires { IsAt self.now (state_of frame.old) Op.Throw next }
        ensures goes { OnOk result (MakesMove self.now frame.old frame.new) }
        ensures ends { IfErr result (MayEnd (program_code self.now.program) frame.old.machine) }
    {
        let op = Op::Throw;
        let request = self.request(frame, &op);
        let value = frame.pop();
        let fault = host.thrown(&request, value);
        raise(frame, host, fault)
    }

    #[inline(always)]
    fn begin<H: Host>(
        &self,
        frame: &mut Frame<H::Value, H::Iterator>,
        host: &mut H,
        next: usize,
    ) -> Result<(), Outcome<H::Value, H::Fault>>
        requires { IsAt self.now (state_of frame.old) Op.IterInit next }
        ensures goes { OnOk result (MakesMove self.now frame.old frame.new) }
        ensures ends { IfErr result (MayEnd (program_code self.now.program) frame.old.machine) }
    {
        let op = Op::IterInit;
        let request = self.request(frame, &op);
        let value = frame.pop();
        match host.begin(&request, value) {
            Ok(iterator) => match frame.begin(iterator) {
                Ok(()) => {
                    frame.go(next);
                    Ok(())
                }
                Err(_) => Err(Outcome::OutOfMemory),
            },
            Err(fault) => raise(frame, host, fault),
        }
    }

    #[inline(always)]
    fn advance<H: Host>(
        &self,
        frame: &mut Frame<H::Value, H::Iterator>,
        host: &mut H,
        next: usize,
        exit: u32,
        counter: Option<u16>,
    ) -> Result<(), Outcome<H::Value, H::Fault>>
        requires { IsAt self.now (state_of frame.old) (Op.IterNext exit counter) next }
        ensures goes { OnOk result (MakesMove self.now frame.old frame.new) }
        ensures ends { IfErr result (MayEnd (program_code self.now.program) frame.old.machine) }
    {
        let op = Op::IterNext {
            exit,
            counter_slot: counter,
        };
        let request = self.request(frame, &op);
        match frame.advance(host, &request, counter) {
            Ok(Some(item)) => {
                frame.push(item);
                frame.go(next);
                Ok(())
            }
            Ok(None) => {
                frame.end();
                frame.go(exit as usize);
                Ok(())
            }
            Err(fault) => raise(frame, host, fault),
        }
    }

    #[inline(always)]
    fn end<V: Drop, I: Drop>(&self, frame: &mut Frame<V, I>, next: usize)
        requires { IsAt self.now (state_of frame.old) Op.IterDrop next }
        ensures { MakesMove self.now frame.old frame.new }
    {
        frame.end();
        frame.go(next);
    }

    #[inline(always)]
    fn arm<V: Drop, I: Drop, F: Drop>(
        &self,
        frame: &mut Frame<V, I>,
        next: usize,
        target: u32,
        name: Option<u32>,
    ) -> Result<(), Outcome<V, F>>
        requires { IsAt self.now (state_of frame.old) (Op.PushHandler target name) next }
        ensures goes { OnOk result (MakesMove self.now frame.old frame.new) }
        ensures ends { IfErr result (MayEnd (program_code self.now.program) frame.old.machine) }
    {
        match frame.arm(target, name) {
            Ok(()) => {
                frame.go(next);
                Ok(())
            }
            Err(_) => Err(Outcome::OutOfMemory),
        }
    }

    #[inline(always)]
    fn disarm<V: Drop, I: Drop>(&self, frame: &mut Frame<V, I>, next: usize)
        requires { IsAt self.now (state_of frame.old) Op.PopHandler next }
        ensures { MakesMove self.now frame.old frame.new }
    {
        frame.disarm();
        frame.go(next);
    }
}

/// Raises a fault: the innermost handler catches it that isn't spent, or it leaves the frame.
fn raise<H: Host>(
    frame: &mut Frame<H::Value, H::Iterator>,
    host: &mut H,
    fault: H::Fault,
) -> Result<(), Outcome<H::Value, H::Fault>>
    ensures lands { OnOk result (Lands frame.old.machine frame.new.machine) }
    ensures room { frame.new.room ≡ frame.old.room }
    ensures fault { IfErr result (IsFault frame.old.machine) }
{
    match frame.catch() {
        Some(name) => match host.caught(fault, name) {
            Ok(()) => Ok(()),
            Err(fault) => Err(Outcome::Uncatchable(fault)),
        },
        None => Err(Outcome::Faulted(fault)),
    }
}
