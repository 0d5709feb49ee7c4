//! States of scripts.
ghost use Rattle.std.specs.Prelude.{◌≡◌, ◌≢◌, ◌≤◌, ◌↔◌, [], Err, IfErr, IfOk, OnErr, OnOk, length, vec_len};
ghost use Rattle.std.specs.Arc.{arc_value};
ghost use Rattle.rhai_runtime.specs.Named.{LacksFunction, LacksName};
ghost use Rattle.rhai_engine.specs.Ends.{IsLate};

use crate::bounds::Bounds;
use crate::event::{BeginError, Event, Slice, Status, VariableError};
use crate::outside::Outside;
use crate::stage::{Calling, Stage, answered, begun, continued, failed, may_begin, resumed};
use grain::Program;
use grain_machine::{Host, Prepared, RunLimits};
use rhai_runtime::{Asked, Script};
use rhai_values::{Cause, Value};
use std::alloc::{AllocError, Global};
use std::marker::Model;
use std::mem;
use std::sync::Arc;

/// A program that is run in the process of a host, with its variables and the runs that are under way.
///
/// Programs can be shared by states, also of several threads. A state stays on its thread.
#[derive(Drop)]
pub struct State {
    alloc: Global,
    prepared: Arc<Prepared>,
    bounds: Bounds,
    script: Script<Outside>,
    /// The last run.
    last: Stage,
    /// The runs that wait while it is under way, the last that began at the end.
    outer: Vec<Calling>,
}

impl Model for State {
    ghost use Rattle.std.specs.Coded.{codes};
    ghost use Rattle.grain_base.specs.contracts.value.Dynamic as value;
    ghost use Rattle.grain_pools.specs.contracts.switch.Switch as switch;
    ghost use Rattle.rhai_engine.specs.contracts.event.Status as status;
    ghost use Rattle.rhai_engine.specs.Session.{Session};

    ghost Value = { Session };

    ghost coded = { Prim.hlevel (codes, value.the_row.coded, switch.the_row.coded, status.the_row.coded) };

    ghost use Rattle.rhai_engine.specs.Runs.{AreRunsOf, session};

    ghost view = { λ s. session
        s.prepared.value.program s.bounds.calls s.bounds.runs s.last s.outer.items };

    ghost invariant = { λ s. AreRunsOf s.prepared.value.program s.bounds.calls s.last s.outer.items };
}

impl State {
    ghost use Rattle.rhai_engine.specs.Session.{BeginsFunction, IsFull, IsStopped, KeepsProgram, Reports, TakesRun, with_run, idle};

    /// A state without variables, whose host has no functions. It takes time and memory by the program's pools.
    ///
    /// # Errors
    /// Out of memory, or [`Cause::Unsupported`] if a constant is a value of another host.
    pub fn new(alloc: Global, prepared: Arc<Prepared>, bounds: Bounds) -> Result<State, Cause>
        ensures { IfOk result (λ state. state
            ≡ idle (arc_value prepared).program bounds.calls bounds.runs) }
    {
        let outside = Outside::new(alloc, bounds.printed);
        let script = Script::new(alloc, prepared.verified().program(), outside, bounds.size)?;
        Ok(State {
            alloc,
            prepared,
            bounds,
            script,
            last: Stage::Empty,
            outer: Vec::new(alloc),
        })
    }

    /// The program.
    #[must_use]
    pub fn program(&self) -> &Program
        ensures { result.now ≡ self.now.program }
    {
        self.prepared.verified().program()
    }

    /// The program with its code decoded, to be shared with other states.
    #[must_use]
    pub fn prepared(&self) -> &Arc<Prepared>
        ensures { (arc_value result.now).program ≡ self.now.program }
    {
        &self.prepared
    }

    /// The status of the last run.
    #[must_use]
    pub fn status(&self) -> Status
        ensures { result ≡ self.now.status }
    {
        match &self.last {
            Stage::Empty => Status::Idle,
            Stage::Ready { .. } => Status::Ready,
            Stage::Asking(_) => Status::Calls,
        }
    }

    /// From now on the host does calls of this function with this many arguments, if neither the script nor the library has it.
    ///
    /// # Errors
    /// Out of memory; nothing has changed.
    pub fn register(&mut self, name: &str, params: usize) -> Result<(), AllocError>
        ensures { self.new ≡ self.old }
    {
        self.script.world_mut().register(name, params)
    }

    /// Begins a run of the top level. Named variables stay; local variables of earlier runs are gone.
    ///
    /// # Errors
    /// [`BeginError::Busy`] if a run is under way, or out of memory.
    pub fn begin(&mut self) -> Result<(), BeginError>
        ensures ok { OnOk result (self.new ≡ with_run self.old self.old.program.main) }
        ensures err { OnErr result (self.new ≡ self.old) }
        ensures idle { OnOk result (self.old.status ≡ Status.Idle) }
        ensures busy { (result ≡ Err BeginError.Busy) ↔ (self.old.status ≢ Status.Idle) }
    {
        if !matches!(&self.last, Stage::Empty) {
            return Err(BeginError::Busy);
        }
        let main = self.prepared.main();
        let chunk = main.chunk();
        let run = main.start(self.alloc)?;
        self.script.began();
        // If memory lacks for their names, variables can't be read when the run has ended.
        let _named = self.script.prepare_top(self.prepared.verified().program());
        self.last = Stage::Ready { chunk, run };
        Ok(())
    }

    /// Begins a run of the script's function with this name and number of parameters, which isn't declared for a type of `this`. If
    /// the last run waits for a call of the host, it waits on until this one has ended.
    ///
    /// # Errors
    /// Why no run begins: first a run that can be resumed, then as many that wait as may, then that there is no such function, then the
    /// arguments or the memory. No variable has changed.
    pub fn begin_call(&mut self, name: &str, arguments: Vec<Value>) -> Result<(), BeginError>
        ensures ok { OnOk result (BeginsFunction self.old self.new name.now (vec_len arguments)) }
        ensures err { OnErr result (self.new ≡ self.old) }
        ensures busy { (result ≡ Err BeginError.Busy) ↔ (self.old.status ≡ Status.Ready) }
        ensures room { OnOk result (length self.old.runs ≤ self.old.nested) }
        ensures full { (result ≡ Err BeginError.TooManyRuns) ↔ IsFull self.old }
        ensures none { (result ≡ Err BeginError.NoFunction)
            ↔ (TakesRun self.old × LacksFunction self.old.program name.now (vec_len arguments)) }
        ensures large { result ≡ Err BeginError.TooLarge → arguments.items ≢ [] }
    {
        match may_begin(&self.last, &self.outer, self.bounds.runs) {
            Ok(()) => self.begin_function(name, arguments),
            Err(error) => Err(error),
        }
    }

    /// Begins a run of a function, if no run is under way that can be resumed.
    fn begin_function(&mut self, name: &str, arguments: Vec<Value>) -> Result<(), BeginError>
        requires { self.old.status ≢ Status.Ready }
        ensures ok { OnOk result (BeginsFunction self.old self.new name.now (vec_len arguments)) }
        ensures err { OnErr result (self.new ≡ self.old) }
        ensures none { (result ≡ Err BeginError.NoFunction)
            ↔ LacksFunction self.old.program name.now (vec_len arguments) }
        ensures late { IfErr result (IsLate arguments.items) }
    {
        let mut arguments = arguments;
        let program = self.prepared.verified().program();
        let Some(function) = self.script.function(program, name, arguments.len()) else {
            return Err(BeginError::NoFunction);
        };
        let body = self.prepared.function(function);
        let chunk = body.chunk();
        let run = body.start(self.alloc)?;
        self.outer.reserve(1)?;
        match entered(&mut self.script, &self.last, arguments.as_mut_slice()) {
            Ok(()) => {}
            Err(error) => return Err(error),
        }
        let last = mem::replace(&mut self.last, Stage::Empty);
        self.last = begun(last, &mut self.outer, chunk, run);
        Ok(())
    }

    /// Resumes the last run for as many turns as the fuel allows. If it waits for a call, nothing changes. To pause and to resume takes
    /// constant time at any depth of calls.
    pub fn resume(&mut self, fuel: u64) -> Slice
        ensures keeps { KeepsProgram self.old self.new }
        ensures reports { Reports self.old self.new result.event }
        ensures turns { result.turns ≤ fuel }
    {
        let limits = RunLimits {
            fuel,
            depth: self.bounds.calls,
        };
        match mem::replace(&mut self.last, Stage::Empty) {
            Stage::Ready { chunk, run } => {
                let (stage, slice) = resumed(
                    self.alloc,
                    &self.prepared,
                    &mut self.script,
                    limits,
                    chunk,
                    run,
                );
                self.last = continued(&mut self.script, &mut self.outer, stage);
                slice
            }
            Stage::Asking(calling) => {
                self.last = Stage::Asking(calling);
                Slice {
                    event: Event::Calls,
                    turns: 0,
                }
            }
            Stage::Empty => Slice {
                event: Event::Idle,
                turns: 0,
            },
        }
    }

    /// The call for which the last run waits.
    #[must_use]
    pub fn asked(&self) -> Option<&Asked> {
        self.script.asked()
    }

    /// Replaces the receiver of the call for which the last run waits, and returns what it was. Without a receiver it does nothing.
    /// The call has one if its first argument is a variable or a part of one, which gets the receiver back when the call ends.
    pub fn replace_receiver(&mut self, value: Value) -> Option<Value>
        ensures { self.new ≡ self.old }
    {
        let asked = self.script.asked_mut()?;
        let receiver = asked.receiver()?;
        Some(mem::replace(receiver, value))
    }

    /// Answers the call for which the last run waits: the call returns this value. If the limits don't allow it, the call fails.
    pub fn answer(&mut self, value: Value) -> Event
        ensures keeps { KeepsProgram self.old self.new }
        ensures reports { Reports self.old self.new result }
    {
        match mem::replace(&mut self.last, Stage::Empty) {
            Stage::Asking(calling) => {
                let (stage, event) = answered(&self.prepared, &mut self.script, calling, value);
                self.last = continued(&mut self.script, &mut self.outer, stage);
                event
            }
            stage => {
                self.last = stage;
                Event::Idle
            }
        }
    }

    /// Has the call fail for which the last run waits. A handler of the script catches the cause, or the run fails. No script catches
    /// [`Reason::World`](rhai_values::Reason), a limit or a lack of memory.
    pub fn fail(&mut self, cause: Cause) -> Event
        ensures keeps { KeepsProgram self.old self.new }
        ensures reports { Reports self.old self.new result }
    {
        match mem::replace(&mut self.last, Stage::Empty) {
            Stage::Asking(calling) => {
                let fault = self.script.failed_call(cause);
                let (stage, event) = failed(&self.prepared, &mut self.script, calling, fault);
                self.last = continued(&mut self.script, &mut self.outer, stage);
                event
            }
            stage => {
                // It is dropped by a call, since its drop here would be a case for each cause in the proof.
                drop(cause);
                self.last = stage;
                Event::Idle
            }
        }
    }

    /// Ends the last run, if there is one, whether it waits or not. Values that it took out of variables go back there. If another
    /// run waits, that one is the last again.
    pub fn stop(&mut self)
        ensures keeps { KeepsProgram self.old self.new }
        ensures ended { IsStopped self.old self.new }
    {
        self.last = continued(&mut self.script, &mut self.outer, Stage::Empty);
    }

    /// Drops all runs, all variables and the output. The functions of the host stay.
    pub fn reset(&mut self)
        ensures { self.new ≡ idle self.old.program self.old.calls self.old.nested }
    {
        self.last = Stage::Empty;
        self.outer.clear();
        self.script.clear_variables();
        self.script.world_mut().clear();
    }

    /// The value of the variable of this name, if it has one. If scripts find none by the name, it is the value that a local variable
    /// of the top level had at the end of its last run.
    #[must_use]
    pub fn variable(&self, name: &str) -> Option<&Value> {
        match self.script.named_variable(name) {
            Some(value) => Some(value),
            None => self.script.top_variable(name),
        }
    }

    /// Gives the variable of this name its value, also while a run is under way.
    ///
    /// # Errors
    /// Why it doesn't: the variable is as it was.
    pub fn set_variable(&mut self, name: &str, value: Value) -> Result<(), VariableError>
        ensures same { self.new ≡ self.old }
        ensures none { (result ≡ Err VariableError.NoName) ↔ LacksName self.old.program name.now }
    {
        let program = self.prepared.verified().program();
        let Some(index) = self.script.name_index(program, name) else {
            return Err(VariableError::NoName);
        };
        if !self.bounds.size.allow(value.measure()) {
            return Err(VariableError::TooLarge);
        }
        self.script.set_variable(index, value)?;
        Ok(())
    }

    /// What was printed since it was cleared, each line with its line feed.
    #[must_use]
    pub fn printed(&self) -> &str {
        self.script.world().printed()
    }

    /// Drops what was printed.
    pub fn clear_printed(&mut self)
        ensures { self.new ≡ self.old }
    {
        self.script.world_mut().clear();
    }

    /// The addresses of the calls that the last fault ended which no handler caught, the innermost first, until a run continues.
    #[must_use]
    pub fn backtrace(&self) -> &[usize] {
        self.script.backtrace()
    }
}

/// The script gets the arguments of a function that begins. If no run waits, nothing of earlier ones is left.
fn entered(
    script: &mut Script<Outside>,
    last: &Stage,
    arguments: &mut [Value],
) -> Result<(), BeginError>
    ensures found { result ≢ Err BeginError.NoFunction }
    ensures late { IfErr result (IsLate arguments.old) }
{
    if let Stage::Empty = last {
        script.began();
    }
    match script.begin_function(arguments) {
        Ok(()) => Ok(()),
        Err(Cause::TooLarge) => Err(BeginError::TooLarge),
        Err(_) => Err(BeginError::OutOfMemory),
    }
}
