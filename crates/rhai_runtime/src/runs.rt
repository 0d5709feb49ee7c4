//! Runs of a script, one after the other, or one while another waits for a call of the embedding program.
ghost use Rattle.std.specs.Prelude.{◌≡◌, ◌≢◌, ◌↔◌, [], Err, IfSome, None, true};
ghost use Rattle.grain.specs.Lookups.{is_text};
ghost use Rattle.rhai_runtime.specs.Named.{IsFunctionNamed, LacksFunction, LacksName};

use crate::asked::{Asked, OuterRun};
use crate::named::{first_function, first_name, is_function_named, is_text};
use crate::script::Script;
use crate::world::World;
use grain::Program;
use grain_machine::Host;
use rhai_values::{Cause, Value, Variables};
use std::alloc::AllocError;
use std::mem;

impl<W: World + Drop> Script<W> {
    /// The function of the program that has this name and number of parameters, and is declared for no type of `this`. If there are
    /// several, it is one of them.
    ///
    /// It takes time by the logarithm of the number of names. Only where it finds none, it goes over all functions.
    #[must_use]
    pub fn function(&self, program: &Program, name: &str, params: usize) -> Option<usize>
        ensures found { IfSome result (IsFunctionNamed program.now name.now params) }
        ensures none { (result ≡ None) ↔ LacksFunction program.now name.now params }
    {
        if let Some(index) = self.table.function_named(program, name, params)
            && is_function_named(program, index, name, params)
        {
            return Some(index);
        }
        first_function(program, name, params)
    }

    /// An index of a name of the program.
    ///
    /// It takes time by the logarithm of the number of names. Only where it finds none, it goes over all names.
    #[must_use]
    pub fn name_index(&self, program: &Program, name: &str) -> Option<u32>
        ensures found { IfSome result (λ index. is_text program.now.names name.now index ≡ true) }
        ensures none { (result ≡ None) ↔ LacksName program.now name.now }
    {
        if let Some(index) = self.table.index_of(name)
            && is_text(program, index, name)
        {
            return Some(index);
        }
        first_name(program, name)
    }

    /// The value of the variable of this name: one that code finds by its name, and in no slot.
    #[must_use]
    pub fn named_variable(&self, name: &str) -> Option<&Value> {
        self.variables.named(self.table.index_of(name)?)
    }

    /// A run of the top level is to begin: the variables of the last one are forgotten.
    ///
    /// # Errors
    /// Out of memory. Nothing is forgotten.
    pub fn prepare_top(&mut self, program: &Program) -> Result<(), AllocError> {
        self.top.learn(self.alloc, program)?;
        self.top.clear();
        Ok(())
    }

    /// The value that a local variable of the top level had at the end of its last run.
    #[must_use]
    pub fn top_variable(&self, name: &str) -> Option<&Value> {
        self.top.value(self.table.index_of(name)?)
    }

    /// Keeps the local variables of the top level, whose run ends. If memory runs out it keeps none.
    fn keep_top(&mut self) {
        if self.variables.slot(0).is_none() {
            return;
        }
        match self.top_values() {
            Ok(values) => self.top.keep(values),
            Err(_) => self.top.clear(),
        }
    }

    /// The values of the first variables of the frame, as many as the top level declares.
    fn top_values(&self) -> Result<Vec<Value>, Cause> {
        let mut values = Vec::new(self.alloc);
        for slot in 0..=u16::MAX {
            if values.len() == self.top.len() || self.variables.slot(slot).is_none() {
                break;
            }
            values.push(self.variables.local(slot)?.clone()?)?;
        }
        Ok(values)
    }

    /// Drops all variables. The caller must drop all runs.
    pub fn clear_variables(&mut self) {
        self.begin_run();
        self.top.clear();
        self.variables = Variables::new(self.alloc);
    }

    /// A run begins: nothing of earlier ones is left but the named variables, and what closures share.
    pub(crate) fn begin_run(&mut self) {
        // A run that was dropped may have taken values out of named variables.
        for _run in 0..=self.outer.len() {
            self.end_run();
        }
        self.end_fault();
    }

    /// A run of a function begins that the embedding program calls: its frame gets the arguments. The caller calls
    /// [`Host::began`](grain_machine::Host::began) before, unless a run waits: that one keeps its variables, and the call for
    /// which it waits. [`end_run`](Script::end_run) must follow when the function's run has ended or is dropped.
    ///
    /// # Errors
    /// The limits don't allow an argument, or out of memory. Nothing has changed.
    pub fn begin_function(&mut self, arguments: &mut [Value]) -> Result<(), Cause>
        ensures { result ≡ Err Cause.TooLarge → arguments.old ≢ [] }
    {
        for argument in arguments.iter() {
            self.allowed(argument)?;
        }
        if self.outer.reserve(1).is_err() || self.variables.begin(arguments, self.at).is_err() {
            return Err(Cause::OutOfMemory);
        }
        let asked = if self.is_waiting {
            Some(mem::replace(&mut self.call, Asked::new(self.alloc)))
        } else {
            None
        };
        self.is_waiting = false;
        let entered = self.entered;
        self.outer.push_reserved(OuterRun { asked, entered });
        Ok(())
    }

    /// The last run has ended, or is dropped. Its frames are dropped, and values that it took out of variables go back there. If
    /// another run waits, that one is the last again. The [`backtrace`](Script::backtrace) stays.
    pub fn end_run(&mut self) {
        // The receiver goes back also if the limits refuse it.
        let _returned = self.return_receiver();
        match self.outer.pop() {
            Some(OuterRun { asked, entered }) => {
                self.leave(entered);
                if let Some(call) = self.variables.end() {
                    self.at = call.at;
                }
                if let Some(call) = asked {
                    self.call = call;
                    self.is_waiting = true;
                }
            }
            None => {
                self.leave(0);
                self.keep_top();
                self.variables.begin_run();
            }
        }
        self.pending = None;
        self.is_settled = self.limits.allow(Value::Unit.measure());
        self.is_failing = false;
    }

    /// Leaves the functions that were entered, but this many.
    fn leave(&mut self, kept: usize) {
        for _call in kept..self.entered {
            self.left();
        }
    }
}
