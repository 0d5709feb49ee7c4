//! Runs of a session, and the calls for which they wait.
ghost use Rattle.std.specs.Prelude.{◌≡◌, ◌≤◌, ◌↔◌, ◌⊎◌, Err, IsSome, IsTrue, MatchOption, None, OnErr, OnOk, Some, []};
ghost use Rattle.rhai_engine.specs.Session.{BeginsFunction, KeepsProgram, idle, with_run};
ghost use Rattle.rhai_runtime.specs.Named.{LacksFunction};
ghost use Rattle.rhai_session.specs.Kinds.{kind_of};
ghost use Rattle.rhai_session.specs.Shown.{EndsCall, IsKeptStep, IsResumed, IsStoppedOnce, ShowsCause, ShowsEvent, ShowsFault, ShowsNothing, ShowsValue, WaitsForHost, begun_of, shown_of};

use crate::event::{Answer, HostEvent, Refused};
use crate::failure::{FaultKind, RunFailure, kind_of};
use crate::report::report;
use crate::session::{Session, text_of};
use rhai_engine::{BeginError, Event, Status};
use rhai_flat::CValue;
use rhai_runtime::Fault;
use rhai_values::{Cause, Reason, Value};
use std::alloc::AllocError;
use std::slice;

impl Session {
    /// Begins a run of the top level.
    ///
    /// # Errors
    /// Why none begins; nothing has changed.
    pub fn begin(&mut self) -> Result<(), Refused>
        ensures refused { OnErr result (self.new ≡ self.old) }
        ensures ended { IsSome self.old.ended → result ≡ Err Refused.NotNow }
        ensures begun { OnOk result (self.new.state
            ≡ with_run self.old.state self.old.state.program.main) }
    {
        if self.ended.is_some() {
            return Err(Refused::NotNow);
        }
        let begun = self.state.begin();
        begun_or_refused(begun)
    }

    /// Begins a run of the function of this name with as many parameters as there are values in the rows.
    ///
    /// # Errors
    /// Why none begins; nothing has changed.
    pub fn begin_call(
        &mut self,
        name: &[u8],
        rows: &[CValue],
        texts: &[u8],
        count: usize,
    ) -> Result<(), Refused>
        ensures refused { OnErr result (self.new ≡ self.old) }
        ensures ended { IsSome self.old.ended → result ≡ Err Refused.NotNow }
        ensures begun { OnOk result
            (BeginsFunction self.old.state self.new.state name.now count) }
        ensures no_name { result ≡ Err Refused.NoName
            → LacksFunction self.old.state.program name.now count }
    {
        if self.ended.is_some() {
            return Err(Refused::NotNow);
        }
        let name = text_of(name)?;
        let arguments = self.values_of(rows, texts, count)?;
        let before = self.remember(&arguments)?;
        let begun = self.state.begin_call(name, arguments);
        if begun.is_err() {
            self.passed.truncate(before);
        }
        begun_or_refused(begun)
    }

    /// Resumes the last run for at most this many turns. The second result is how many it made.
    pub fn resume(&mut self, turns: u64) -> (HostEvent, u64)
        ensures keeps { KeepsProgram self.old.state self.new.state }
        ensures turns { result.1 ≤ turns }
        ensures shows { IsResumed self.old self.new result.0 result.1 }
    {
        if let Some(step) = self.ended.take() {
            return (step, 0);
        }
        let slice = self.state.resume(turns);
        (self.step_of(slice.event), slice.turns)
    }

    /// Keeps for [`resume`](Session::resume) how a run ended, if the end of its call ended it.
    fn keep_end(&mut self, event: Event)
        requires { self.old.ended ≡ None }
        ensures state { self.new.state ≡ self.old.state }
        ensures kept { IsKeptStep event self.new.ended self.new }
    {
        match self.step_of(event) {
            HostEvent::Paused => {}
            step => self.ended = Some(step),
        }
    }

    /// How far the run is after an event.
    fn step_of(&mut self, event: Event) -> HostEvent
        ensures state { self.new.state ≡ self.old.state }
        ensures ended { self.new.ended ≡ self.old.ended }
        ensures shows { ShowsEvent event result self.new }
    {
        self.clear_shown();
        match event {
            Event::Idle => HostEvent::Idle,
            Event::Paused => HostEvent::Paused,
            Event::Calls => HostEvent::Calls,
            Event::OutOfMemory => HostEvent::OutOfMemory,
            Event::Returned(value) => self.returned(&value),
            Event::Failed(fault) => self.failed(&fault),
        }
    }

    /// Shows a value. One that has no rows, since closures share a part of it, isn't shown.
    fn show_value(&mut self, value: &Value) -> Result<(), AllocError>
        requires { ShowsNothing self.old }
        ensures kept { (self.new.state ≡ self.old.state) × (self.new.ended ≡ self.old.ended) }
        ensures shows { OnOk result (ShowsValue value.now self.new) }
    {
        match self.shown.write(value) {
            Ok(()) => {
                self.count = 1;
                Ok(())
            }
            Err(Cause::OutOfMemory) => Err(AllocError),
            Err(_) => Ok(()),
        }
    }

    /// Shows the value that was thrown, if the cause is one.
    fn show_cause(&mut self, cause: &Cause) -> Result<(), AllocError>
        requires { ShowsNothing self.old }
        ensures kept { (self.new.state ≡ self.old.state) × (self.new.ended ≡ self.old.ended) }
        ensures shows { OnOk result (ShowsCause cause.now self.new) }
    {
        match cause {
            Cause::Thrown(value) => self.show_value(value),
            _ => Ok(()),
        }
    }

    /// Shows the value that a run returned.
    fn returned(&mut self, value: &Value) -> HostEvent
        requires { ShowsNothing self.old }
        ensures kept { (self.new.state ≡ self.old.state) × (self.new.ended ≡ self.old.ended) }
        ensures shows { ((result ≡ HostEvent.Returned) × ShowsValue value.now self.new)
            ⊎ (result ≡ HostEvent.OutOfMemory) }
    {
        match self.show_value(value) {
            Ok(()) => HostEvent::Returned,
            Err(_) => HostEvent::OutOfMemory,
        }
    }

    /// Shows why a run failed.
    fn show_fault(&mut self, kind: FaultKind, fault: &Fault) -> Result<(), AllocError>
        requires kind { kind_of fault.now.cause ≡ Some kind }
        requires cleared { ShowsNothing self.old }
        ensures kept { (self.new.state ≡ self.old.state) × (self.new.ended ≡ self.old.ended) }
        ensures shows { OnOk result (ShowsFault fault.now self.new) }
    {
        self.show_cause(&fault.cause)?;
        self.fault = report(self.alloc, &self.state, fault)?;
        self.failure = Some(RunFailure {
            kind,
            at: fault.at,
            position: fault.position(self.state.program()),
        });
        Ok(())
    }

    fn failed(&mut self, fault: &Fault) -> HostEvent
        requires { ShowsNothing self.old }
        ensures kept { (self.new.state ≡ self.old.state) × (self.new.ended ≡ self.old.ended) }
        ensures shows { ((result ≡ HostEvent.Failed) × ShowsFault fault.now self.new)
            ⊎ (result ≡ HostEvent.OutOfMemory) }
    {
        let Some(kind) = kind_of(&fault.cause) else {
            return HostEvent::OutOfMemory;
        };
        match self.show_fault(kind, fault) {
            Ok(()) => HostEvent::Failed,
            Err(_) => HostEvent::OutOfMemory,
        }
    }

    /// Whether the last run waits for a call of the host.
    fn is_asked(&self) -> bool
        ensures { IsTrue result ↔ WaitsForHost self.now }
    {
        self.ended.is_none() && self.state.status() == Status::Calls
    }

    /// The function for which the last run waits. It is empty if none does.
    #[must_use]
    pub fn asked_name(&self) -> &str {
        match self.state.asked() {
            Some(asked) => asked.name(),
            None => "",
        }
    }

    /// Shows the arguments of the call for which the last run waits, or else what was shown last.
    ///
    /// # Errors
    /// An argument has no rows, or out of memory. Nothing is shown.
    pub fn show_arguments(&mut self) -> Result<(), Refused>
        ensures { (self.new.state ≡ self.old.state) × (self.new.ended ≡ self.old.ended) }
    {
        let Some(asked) = self.state.asked() else {
            return Ok(());
        };
        self.shown.clear();
        self.count = 0;
        for argument in asked.arguments() {
            self.shown.write(argument)?;
        }
        self.count = asked.arguments().len();
        Ok(())
    }

    /// Replaces the first argument of the call for which the last run waits, if it was taken out of a variable: when the call has
    /// ended, the variable has this value.
    ///
    /// # Errors
    /// No run waits for a call with such an argument, the rows are not one value, or out of memory; nothing has changed.
    pub fn replace_receiver(&mut self, rows: &[CValue], texts: &[u8]) -> Result<(), Refused>
        ensures kept { self.new ≡ self.old }
        ensures asked { OnOk result (WaitsForHost self.old) }
    {
        if !self.is_asked() {
            return Err(Refused::NotNow);
        }
        let value = self.value_of(rows, texts)?;
        let before = self.remember(slice::from_ref(&value))?;
        match self.state.replace_receiver(value) {
            Some(_) => Ok(()),
            None => {
                self.passed.truncate(before);
                Err(Refused::NotNow)
            }
        }
    }

    /// Ends the call for which the last run waits by the value that the rows are.
    ///
    /// # Errors
    /// No run waits, the rows are not one value, or out of memory; nothing has changed.
    pub fn answer(&mut self, answer: Answer, rows: &[CValue], texts: &[u8]) -> Result<(), Refused>
        ensures keeps { KeepsProgram self.old.state self.new.state }
        ensures refused { OnErr result (self.new ≡ self.old) }
        ensures asked { (result ≡ Err Refused.NotNow) ↔ (WaitsForHost self.old → ⊥) }
        ensures ended { OnOk result (EndsCall self.old self.new) }
    {
        if !self.is_asked() {
            return Err(Refused::NotNow);
        }
        let value = self.value_of(rows, texts)?;
        let _before = self.remember(slice::from_ref(&value))?;
        let event = match answer {
            Answer::Return => self.state.answer(value),
            Answer::Throw => self.state.fail(Cause::Thrown(value)),
        };
        self.keep_end(event);
        Ok(())
    }

    /// Ends the call for which the last run waits by a fault that no script catches.
    ///
    /// # Errors
    /// No run waits, the text is not UTF-8, or out of memory; nothing has changed.
    pub fn fail(&mut self, why: &[u8]) -> Result<(), Refused>
        ensures keeps { KeepsProgram self.old.state self.new.state }
        ensures refused { OnErr result (self.new ≡ self.old) }
        ensures asked { (result ≡ Err Refused.NotNow) ↔ (WaitsForHost self.old → ⊥) }
        ensures ended { OnOk result (EndsCall self.old self.new) }
    {
        if !self.is_asked() {
            return Err(Refused::NotNow);
        }
        let why = String::from_str(self.alloc, text_of(why)?)?;
        let event = self.state.fail(Cause::Detailed(Reason::World, why));
        self.keep_end(event);
        Ok(())
    }

    /// Ends the last run, whatever it waits for.
    pub fn stop(&mut self)
        ensures keeps { KeepsProgram self.old.state self.new.state }
        ensures stopped { IsStoppedOnce self.old self.new }
    {
        self.clear_shown();
        if self.ended.take().is_none() {
            self.state.stop();
        }
    }

    /// Ends all runs, and drops all variables and what was printed.
    pub fn reset(&mut self)
        ensures { self.new ≡ shown_of
            (idle self.old.state.program self.old.state.calls self.old.state.nested) None [] [] 0 [] None }
    {
        self.clear_shown();
        self.ended = None;
        self.fault.clear();
        self.failure = None;
        self.state.reset();
    }
}

/// Why a run doesn't begin.
fn begun_or_refused(begun: Result<(), BeginError>) -> Result<(), Refused>
    ensures { result ≡ begun_of begun }
{
    match begun {
        Ok(()) => Ok(()),
        Err(BeginError::NoFunction) => Err(Refused::NoName),
        Err(BeginError::TooManyRuns | BeginError::Busy) => Err(Refused::NotNow),
        Err(BeginError::TooLarge) => Err(Refused::BadValue),
        Err(BeginError::OutOfMemory) => Err(Refused::OutOfMemory),
    }
}
