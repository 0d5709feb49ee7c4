//! Answers to calls that the embedding program does while the run waits.
ghost use Rattle.std.specs.Prelude.{◌≡◌, None, IfErr, IfOk};
ghost use Rattle.std.specs.Option.{option_copied};
ghost use Rattle.rhai_runtime.specs.Asked.{asked_of};

use crate::asked::Asked;
use crate::script::Script;
use crate::world::World;
use rhai_chains::{Fault, OpError};
use rhai_values::{Cause, Value};

impl<W: World + Drop> Script<W> {
    /// The call for which the run waits, if it does.
    #[must_use]
    pub fn asked(&self) -> Option<&Asked>
        ensures { option_copied result ≡ asked_of self.now }
    {
        if self.is_waiting {
            Some(&self.call)
        } else {
            None
        }
    }

    /// The call for which the run waits, if it does, to change its receiver.
    pub fn asked_mut(&mut self) -> Option<&mut Asked> {
        if self.is_waiting {
            Some(&mut self.call)
        } else {
            None
        }
    }

    /// Ends the call for which the run waits, with the value for [`answer`](grain_machine::Runnable::answer). Its receiver goes back
    /// where it was taken from.
    ///
    /// # Errors
    /// The fault of the call, for [`fail`](grain_machine::Runnable::fail): the limits don't allow the value or the receiver, or
    /// the receiver can't go back.
    pub fn answered(&mut self, value: Value) -> Result<Value, Fault>
        ensures value { IfOk result (λ given. given ≡ value) }
        ensures at { IfErr result (λ fault. fault.at ≡ self.old.at) }
        ensures ended { asked_of self.new ≡ None }
    {
        let returned = self.return_receiver();
        let allowed = self.allowed(&value);
        match (returned, allowed) {
            (Ok(()), Ok(())) => {
                self.end_fault();
                Ok(value)
            }
            (Err(cause), _) | (Ok(()), Err(cause)) => Err(self.failed(
                self.at,
                OpError::from(cause),
            )),
        }
    }

    /// The fault of the call for which the run waits, for [`fail`](grain_machine::Runnable::fail). Its receiver goes back where it was
    /// taken from. If it can't, that is the cause.
    pub fn failed_call(&mut self, cause: Cause) -> Fault
        ensures at { result.at ≡ self.old.at }
        ensures ended { asked_of self.new ≡ None }
    {
        let cause = match self.return_receiver() {
            Ok(()) => cause,
            Err(cause) => cause,
        };
        self.failed(self.at, OpError::from(cause))
    }

    /// Puts the receiver back where it was taken from.
    pub(crate) fn return_receiver(&mut self) -> Result<(), Cause>
        ensures at { self.new.at ≡ self.old.at }
        ensures ended { asked_of self.new ≡ None }
    {
        if !self.is_waiting {
            return Ok(());
        }
        let returned = self.give_back_receiver();
        self.call.clear();
        self.is_waiting = false;
        returned
    }

    /// Puts the first argument of the call back into the variable that it was taken from, if it was.
    fn give_back_receiver(&mut self) -> Result<(), Cause>
        ensures { self.new.at ≡ self.old.at }
    {
        let Some(lent) = self.call.lent.take() else {
            return Ok(());
        };
        let Some(receiver) = self.call.arguments.first_mut() else {
            return Ok(());
        };
        let receiver = receiver.take();
        let allowed = self.allowed(&receiver);
        self.variables.give_back(receiver, Some(lent))?;
        allowed
    }
}
