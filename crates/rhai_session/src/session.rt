//! A session, its variables and its output.
ghost use Rattle.std.specs.Prelude.{◌≡◌, Err, None, IfErr, IfOk, OnOk, [], length};
ghost use Rattle.std.specs.Arc.{arc_value};
ghost use Rattle.grain_format.specs.Reading.{Decides};
ghost use Rattle.grain_file.specs.ProgramFile.{Bounds as FileBounds, IsFile, IsWithin, kept, refusal_of};
ghost use Rattle.rhai_engine.specs.Session.{idle};
ghost use Rattle.rhai_runtime.specs.Named.{LacksName};
ghost use Rattle.rhai_session.specs.Shown.{IsOfValue, shown_of};

use crate::event::{HostEvent, Refused};
use crate::failure::RunFailure;
use grain_file::{WriteError, write};
use grain_machine::Prepared;
use rhai_engine::{Bounds, State, VariableError};
use rhai_flat::{BadValue, CValue, FlatValues, read_one, read_values};
use rhai_values::{Cause, Foreign, Value};
use std::alloc::Global;
use std::marker::Model;
use std::rc::Rc;
use std::sync::Arc;
use std::{slice, str};

/// A state of a script, and what its host is shown: values as rows, and texts.
#[derive(Drop)]
pub struct Session {
    pub(crate) alloc: Global,
    pub(crate) bounds: Bounds,
    pub(crate) state: State,
    /// The values that the host is shown.
    pub(crate) shown: FlatValues,
    /// How many values these are.
    pub(crate) count: usize,
    /// The last fault, with the calls that it ended, a line each.
    pub(crate) fault: String,
    /// Why and where that was.
    pub(crate) failure: Option<RunFailure>,
    /// The values of the host's own that were passed and may be in use still.
    pub(crate) passed: Vec<Rc<Foreign>>,
    /// How the last run ended, if a call of the host ended it and the host hasn't resumed since.
    pub(crate) ended: Option<HostEvent>,
}

impl Model for Session {
    ghost use Rattle.std.specs.Coded.{codes};
    ghost use Rattle.std.specs.Prelude.{string_bytes};
    ghost use Rattle.grain_flat_file.specs.contracts.records.CValue as row;
    ghost use Rattle.rhai_engine.specs.contracts.state.State as engine;
    ghost use Rattle.rhai_session.specs.contracts.event.HostEvent as event;
    ghost use Rattle.rhai_session.specs.contracts.failure.RunFailure as why;
    ghost use Rattle.rhai_session.specs.Shown.{Shown, shown_of};

    ghost Value = { Shown };

    ghost coded = { Prim.hlevel (codes, engine.the_row.coded, row.the_row.coded, event.the_row.coded, why.the_row.coded) };

    ghost view = { λ s. shown_of s.state s.ended
        s.shown.rows.items s.shown.texts.items s.count (string_bytes s.fault) s.failure };
}

impl Session {
    /// A session of a program, without variables and runs.
    ///
    /// # Errors
    /// As [`State::new`].
    pub fn new(alloc: Global, prepared: Arc<Prepared>, bounds: Bounds) -> Result<Session, Cause>
        ensures { IfOk result (λ made. made
            ≡ shown_of (idle (arc_value prepared).program bounds.calls bounds.runs) None [] [] 0 [] None) }
    {
        let state = State::new(alloc, prepared, bounds)?;
        Ok(Session {
            alloc,
            bounds,
            state,
            shown: FlatValues::new(alloc),
            count: 0,
            fault: String::new(alloc),
            failure: None,
            passed: Vec::new(alloc),
            ended: None,
        })
    }

    /// Another session of the same program, which both share, with these bounds.
    ///
    /// # Errors
    /// As [`State::new`].
    pub fn another(&self, bounds: Bounds) -> Result<Session, Cause>
        ensures same { IfOk result (λ made. made.state.program ≡ self.now.state.program) }
        ensures new { IfOk result (λ made. made
            ≡ shown_of (idle made.state.program bounds.calls bounds.runs) None [] [] 0 [] None) }
    {
        Session::new(self.alloc, self.state.prepared().clone()?, bounds)
    }

    /// The program file of its program.
    ///
    /// # Errors
    /// As [`write`].
    pub fn file(&self) -> Result<Vec<u8>, WriteError>
        ensures file { IfOk result (λ v. (limits : FileBounds)
            → IsWithin limits (kept self.now.state.program)
            → IsFile limits v.items (kept self.now.state.program)) }
        ensures decides { Decides result (refusal_of (kept self.now.state.program)) }
    {
        write(self.alloc, self.state.program())
    }

    /// Registers a function of the host by its name and number of parameters.
    ///
    /// # Errors
    /// The name isn't UTF-8, or out of memory.
    pub fn register(&mut self, name: &[u8], params: usize) -> Result<(), Refused>
        ensures { self.new ≡ self.old }
    {
        self.state.register(text_of(name)?, params)?;
        Ok(())
    }

    /// Sets the variable of this name to the value that the rows are.
    ///
    /// # Errors
    /// The program hasn't this name, the rows aren't one value within the limits, or out of memory.
    pub fn set_variable(
        &mut self,
        name: &[u8],
        rows: &[CValue],
        texts: &[u8],
    ) -> Result<(), Refused>
        ensures same { self.new ≡ self.old }
        ensures no_name { result ≡ Err Refused.NoName → LacksName self.old.state.program name.now }
    {
        let name = text_of(name)?;
        let value = self.value_of(rows, texts)?;
        let before = self.remember(slice::from_ref(&value))?;
        let set = self.state.set_variable(name, value);
        if set.is_err() {
            self.passed.truncate(before);
        }
        match set {
            Ok(()) => Ok(()),
            Err(VariableError::NoName) => Err(Refused::NoName),
            Err(VariableError::TooLarge) => Err(Refused::BadValue),
            Err(VariableError::OutOfMemory) => Err(Refused::OutOfMemory),
        }
    }

    /// Shows the value of the variable of this name.
    ///
    /// # Errors
    /// No variable has this name, its value has no rows, or out of memory.
    pub fn show_variable(&mut self, name: &[u8]) -> Result<(), Refused>
        ensures kept { (self.new.state ≡ self.old.state) × (self.new.ended ≡ self.old.ended) }
        ensures one { OnOk result (self.new.count ≡ 1) }
    {
        let name = text_of(name)?;
        self.clear_shown();
        let Some(value) = self.state.variable(name) else {
            return Err(Refused::NoName);
        };
        self.shown.write(value)?;
        self.count = 1;
        Ok(())
    }

    /// The rows of the values that the host is shown.
    #[must_use]
    pub fn rows(&self) -> &[CValue]
        ensures { result.now ≡ self.now.rows }
    {
        self.shown.rows()
    }

    /// The bytes of their texts.
    #[must_use]
    pub fn texts(&self) -> &[u8]
        ensures { result.now ≡ self.now.texts }
    {
        self.shown.texts()
    }

    /// How many values the host is shown.
    #[must_use]
    pub fn count(&self) -> usize
        ensures { result ≡ self.now.count }
    {
        self.count
    }

    /// What was printed since it was cleared.
    #[must_use]
    pub fn printed(&self) -> &str {
        self.state.printed()
    }

    /// Forgets what was printed.
    pub fn clear_printed(&mut self)
        ensures { self.new ≡ self.old }
    {
        self.state.clear_printed();
    }

    /// The last fault with the calls that it ended, a line each. It is empty if there was none.
    #[must_use]
    pub fn fault(&self) -> &str
        ensures { result.now ≡ self.now.fault }
    {
        self.fault.as_str()
    }

    /// Why and where the last fault was, if there was one.
    #[must_use]
    pub fn failure(&self) -> Option<RunFailure>
        ensures { result ≡ self.now.failure }
    {
        self.failure
    }

    pub(crate) fn clear_shown(&mut self)
        ensures { self.new
            ≡ shown_of self.old.state self.old.ended [] [] 0 self.old.fault self.old.failure }
    {
        self.shown.clear();
        self.count = 0;
    }

    /// The values that rows are.
    pub(crate) fn values_of(
        &self,
        rows: &[CValue],
        texts: &[u8],
        count: usize,
    ) -> Result<Vec<Value>, BadValue>
        ensures { IfOk result (λ values. length values.items ≡ count) }
    {
        read_values(self.alloc, rows, texts, count, self.bounds.size)
    }

    /// The one value that rows are.
    pub(crate) fn value_of(&self, rows: &[CValue], texts: &[u8]) -> Result<Value, Refused>
        ensures { IfErr result IsOfValue }
    {
        Ok(read_one(self.alloc, rows, texts, self.bounds.size)?)
    }
}

/// The text that bytes are.
pub(crate) fn text_of(bytes: &[u8]) -> Result<&str, Refused>
    ensures text { IfOk result (λ text. text.now ≡ bytes.now) }
    ensures refused { IfErr result (λ why. why ≡ Refused.BadValue) }
{
    match str::from_utf8(bytes) {
        Ok(text) => Ok(text),
        Err(_) => Err(Refused::BadValue),
    }
}
