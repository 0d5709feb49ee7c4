//! The script: what operations do.
ghost use Rattle.std.specs.Prelude.{◌≡◌, IfOk};
ghost use Rattle.grain_machine.specs.Reply.{NamesFunction};
ghost use Rattle.rhai_runtime.specs.Asked.{asked_of};

use crate::asked::{Asked, OuterRun};
use crate::top::Top;
use crate::world::World;
use grain::Program;
use grain_base::Token;
use grain_code::Op;
use grain_machine::{Reply, Request};
use rhai_chains::{Context, NameTable, OpError, assign_to};
use rhai_operators::{assign_number, of_numbers};
use rhai_values::{Cause, Reason, SizeLimits, This, Value, Variable, Variables};
use std::alloc::{AllocError, Global};
use std::rc::Rc;

/// The state of a script that runs.
///
/// docs/LANGUAGE.md says what scripts can do. These are this host's own:
///
/// - A caught fault is bound to a named variable: what was thrown, or an object map of the cause ([`Cause::into_value`]).
/// - A limit that was reached, memory that ran out and a fault of the world are caught by no handler.
/// - Values are shared until they are changed. A variable that closures share is one place for all of them.
/// - It does nothing with modules and syntax that wasn't compiled.
#[derive(Drop)]
pub struct Script<W> {
    pub(crate) alloc: Global,
    pub(crate) world: W,
    pub(crate) table: NameTable,
    pub(crate) limits: SizeLimits,
    pub(crate) variables: Variables,
    /// What went wrong if the machine takes no fault, raised at the next operation.
    pub(crate) pending: Option<Cause>,
    /// Whether nothing is pending, and the limits allow plain values.
    pub(crate) is_settled: bool,
    /// The address of the operation that was done last, in the chunk that runs.
    pub(crate) at: usize,
    /// Whether a fault came that no handler has caught yet.
    pub(crate) is_failing: bool,
    /// The addresses of the calls that this fault ended, the innermost first.
    ended_calls: Vec<usize>,
    /// Whether the run waits for a call that the embedding program does.
    pub(crate) is_waiting: bool,
    /// That call. If the run doesn't wait, it is the memory for the next one, without arguments.
    pub(crate) call: Asked,
    /// How many functions were entered and not left.
    pub(crate) entered: usize,
    /// The runs that wait while the last one is under way, the last that began at the end.
    pub(crate) outer: Vec<OuterRun>,
    /// What the last run of the top level left.
    pub(crate) top: Top,
}

impl<W: World + Drop> Script<W> {
    /// Limits for scripts of strangers: sixteen million values and bytes in one value, nested at most 64 deep.
    pub const DEFAULT_LIMITS: SizeLimits = SizeLimits {
        size: 16_000_000,
        depth: 64,
    };

    /// A script that has no variables, to run this program. It takes time and memory by the program's pools.
    ///
    /// # Errors
    /// Out of memory, or [`Cause::Unsupported`] if a constant is a value of another host.
    pub fn new(
        alloc: Global,
        program: &Program,
        world: W,
        limits: SizeLimits,
    ) -> Result<Script<W>, Cause> {
        Ok(Script {
            alloc,
            world,
            table: NameTable::of(alloc, program)?,
            limits,
            variables: Variables::new(alloc),
            pending: None,
            is_settled: limits.allow(Value::Unit.measure()),
            at: 0,
            is_failing: false,
            ended_calls: Vec::new(alloc),
            is_waiting: false,
            call: Asked::new(alloc),
            entered: 0,
            outer: Vec::new(alloc),
            top: Top::new(alloc),
        })
    }

    /// Gives the variable of the name at an index its value: one that code finds by its name, and in no slot.
    ///
    /// # Errors
    /// Out of memory; the variable is as it was.
    pub fn set_variable(&mut self, name: u32, value: Value) -> Result<(), AllocError> {
        self.variables.set_named(name, value)
    }

    /// The world of the script.
    pub fn world(&self) -> &W {
        &self.world
    }

    /// The world of the script, to be changed.
    pub fn world_mut(&mut self) -> &mut W {
        &mut self.world
    }

    /// The addresses of the calls that the last fault ended which no handler caught, the innermost first, until a function is
    /// called again. Calls for which there was no memory are left out.
    pub fn backtrace(&self) -> &[usize] {
        self.ended_calls.as_slice()
    }

    /// Whether a fault came that no handler has caught yet.
    pub(crate) fn is_failing(&self) -> bool {
        self.is_failing
    }

    /// A fault comes: the calls that end until it is caught are its backtrace.
    #[cold]
    pub(crate) fn begin_fault(&mut self)
        ensures { asked_of self.new ≡ asked_of self.old }
    {
        self.is_failing = true;
        self.ended_calls.clear();
    }

    /// The fault is no longer under way: a handler caught it, or another run has begun.
    pub(crate) fn end_fault(&mut self)
        ensures { asked_of self.new ≡ asked_of self.old }
    {
        self.is_failing = false;
        self.ended_calls.clear();
    }

    pub(crate) fn context<'a>(&'a self, program: &'a Program) -> Context<'a> {
        Context {
            alloc: self.alloc,
            limits: self.limits,
            program,
            table: &self.table,
        }
    }

    /// What a frequent operation on plain values gives. `None` of all others, and of one that fails: then nothing was done.
    #[inline(always)]
    pub(crate) fn plain_answer(
        &mut self,
        request: &Request<'_>,
        operands: &[Value],
    ) -> Option<Value> {
        if !self.is_settled {
            return None;
        }
        match request.op {
            Op::LoadLocal(slot) => self.variables.value(*slot)?.plain(),
            Op::Const(index) => self.table.constant(*index)?.plain(),
            Op::Call {
                op: Some(token),
                ..
            } => {
                let operator = request.program.tokens().get(*token as usize)?;
                of_numbers(operator, operands)
            }
            Op::Chain(index) => self.plain_chain(request.program, *index, operands),
            _ => None,
        }
    }

    #[inline(always)]
    fn plain_chain(&mut self, program: &Program, index: u32, operands: &[Value]) -> Option<Value> {
        let chain = program.chains().get(index as usize)?;
        if let Some(value) = self.item(program, chain, operands) {
            return Some(value);
        }
        self.entry(program, chain, operands)
    }

    /// Does a frequent operation on plain values that gives none. `false` of all others, and of one that fails: then nothing was done.
    #[inline(always)]
    pub(crate) fn plain_act(&mut self, request: &Request<'_>, operands: &[Value]) -> bool {
        if !self.is_settled {
            return false;
        }
        match request.op {
            Op::Tick | Op::Checkpoint | Op::Statement { .. } => true,
            Op::AssignLocal {
                slot,
                op: Some(op),
                ..
            } => self.plain_op_assign(request.program, *slot, *op, operands),
            Op::StoreLocal { slot, .. } | Op::StoreShared(slot) | Op::AssignLocal { slot, .. } => {
                self.plain_assign(*slot, operands)
            }
            Op::DeclareLocal { .. } => self.plain_declare(operands),
            _ => false,
        }
    }

    #[inline(always)]
    fn plain_op_assign(
        &mut self,
        program: &Program,
        slot: u16,
        op: u32,
        operands: &[Value],
    ) -> bool {
        let Some(assign_op) = program.assign_ops().get(op as usize) else {
            return false;
        };
        let Some(value) = operands.first() else {
            return false;
        };
        match self.variables.value_mut(slot) {
            Some(place) => assign_number(&assign_op.op_assign, place, value),
            None => false,
        }
    }

    #[inline(always)]
    fn plain_assign(&mut self, slot: u16, operands: &[Value]) -> bool {
        let Some(value) = operands.first() else {
            return false;
        };
        match self.variables.value_mut(slot) {
            Some(place) => place.replace_plain(value),
            None => false,
        }
    }

    #[inline(always)]
    fn plain_declare(&mut self, operands: &[Value]) -> bool {
        let Some(value) = operands.first() else {
            return false;
        };
        match value.plain() {
            Some(value) => self.variables.declare_reserved(value),
            None => false,
        }
    }

    /// What an operation gives.
    #[inline]
    pub(crate) fn answer(
        &mut self,
        request: &Request<'_>,
        operands: &mut [Value],
    ) -> Result<Reply<Value>, OpError>
        ensures { IfOk result (NamesFunction request.now.program.now) }
    {
        let program = request.program;
        let value = match request.op {
            Op::LoadLocal(slot) => self.variables.local(*slot)?.clone()?,
            Op::Const(index) => match self.table.constant(*index) {
                Some(value) => value.clone()?,
                None => return Err(OpError::from(Cause::Unsupported)),
            },
            Op::Call {
                name,
                op: Some(token),
                ..
            } => return Ok(self.operator(program, *name, *token, operands)?),
            Op::Call { name, op: None, .. } => {
                if let Some(reply) = self.held_by_first(program, *name, operands)? {
                    return Ok(reply);
                }
                return Ok(self.call(program, *name, operands)?);
            }
            Op::Chain(index) => match program.chains().get(*index as usize) {
                Some(chain) => return self.chain(program, chain, operands),
                None => return Err(OpError::from(Cause::Unsupported)),
            },
            Op::CallFnPtr {
                is_method,
                receiver,
                ..
            } => return Ok(self.call_pointer(program, *is_method, receiver, operands)?),
            Op::CallRef { name, receiver, .. } => {
                return Ok(self.call_on(program, *name, receiver, operands)?);
            }
            op => self.load_or_make(program, op, operands)?,
        };
        Ok(Reply::Value(value))
    }

    /// The value, if the limits allow one as large.
    pub(crate) fn allowed(&self, value: &Value) -> Result<(), Cause> {
        if self.limits.allow(value.measure()) {
            Ok(())
        } else {
            Err(Cause::TooLarge)
        }
    }

    /// What went wrong before, if it couldn't be raised.
    #[inline]
    pub(crate) fn raise_pending(&mut self) -> Result<(), Cause> {
        match self.pending.take() {
            Some(cause) => {
                self.is_settled = self.limits.allow(Value::Unit.measure());
                Err(cause)
            }
            None => Ok(()),
        }
    }

    /// What an operation gives that reads a variable, or makes a value of its operands.
    fn load_or_make(
        &mut self,
        program: &Program,
        op: &Op,
        operands: &mut [Value],
    ) -> Result<Value, Cause> {
        match op {
            Op::LoadNamed(name) => match self.variables.named(*name) {
                Some(value) => Ok(value.clone()?),
                None => Err(self.no_variable(program, *name)),
            },
            Op::LoadShared(slot) => Ok(self.variables.raw(*slot)?.clone()?),
            Op::LoadSharedNamed(name) => match self.variables.raw_named(*name) {
                Some(value) => Ok(value.clone()?),
                None => Err(self.no_variable(program, *name)),
            },
            Op::LoadThis | Op::LoadThisShared => match self.variables.this() {
                Some(value) => Ok(value.clone()?),
                None => Err(Cause::NoThis),
            },
            Op::MakeClosure(name) => match program.names().get(*name) {
                Some(name) => Value::pointer(self.alloc, name),
                None => Err(Cause::Unsupported),
            },
            op => made(self.alloc, op, operands),
        }
    }

    pub(crate) fn no_variable(&self, program: &Program, name: u32) -> Cause {
        let name = program.names().get(name).unwrap_or("");
        match String::from_str(self.alloc, name) {
            Ok(name) => Cause::Detailed(Reason::NoVariable, name),
            Err(_) => Cause::OutOfMemory,
        }
    }

    /// A function that was entered has ended: its variables go, and `this` goes back to where it was taken from.
    pub(crate) fn ended(&mut self) {
        let Some(call) = self.variables.end() else {
            return;
        };
        self.at = call.at;
        if self.is_failing {
            // Without memory for it the backtrace lacks this call.
            let _noted = self.ended_calls.push(call.at);
        }
        if call.has_this {
            self.give_this_back();
        }
    }

    #[inline(never)]
    fn give_this_back(&mut self) {
        let Some(This { value, lent }) = self.variables.take_this() else {
            return;
        };
        if let Err(cause) = self.variables.give_back(value, lent) {
            self.pending = Some(cause);
            self.is_settled = false;
        }
    }

    /// Does an operation that gives no value.
    pub(crate) fn act(
        &mut self,
        request: &Request<'_>,
        operands: &mut [Value],
    ) -> Result<(), Cause> {
        let program = request.program;
        match request.op {
            Op::Tick | Op::Checkpoint | Op::Statement { .. } => Ok(()),
            Op::DeclareLocal { .. } => self.variables.declare(only(operands)?),
            Op::StoreLocal { slot, .. } | Op::StoreShared(slot) => {
                self.variables.set_local(*slot, only(operands)?)
            }
            Op::AssignLocal { slot, op, .. } => {
                self.assign(program, Variable::Local(*slot), *op, only(operands)?)
            }
            Op::AssignNamed { name, op } => {
                self.assign(program, Variable::Named(*name), *op, only(operands)?)
            }
            Op::AssignThis { op } => { self.assign(program, Variable::This, *op, only(operands)?) }
            Op::InterpolateAppend => match operands.split_first_mut() {
                Some((text, rest)) => self.interpolate(text, rest.first()),
                None => Err(Cause::Unsupported),
            },
            Op::Share(slot) => self.variables.share(*slot),
            Op::ShareNamed(name) => self.variables.share_named(*name),
            Op::RequireThis => match self.variables.this() {
                Some(_) => Ok(()),
                None => Err(Cause::NoThis),
            },
            _ => Err(Cause::Unsupported),
        }
    }

    /// Assigns to a variable, by way of an op-assignment if there is one.
    #[inline]
    fn assign(
        &mut self,
        program: &Program,
        variable: Variable,
        op: Option<u32>,
        value: Value,
    ) -> Result<(), Cause> {
        if op.is_none() {
            *self.variable_mut(program, variable)? = value;
            return Ok(());
        }
        let mut place = self.variable_mut(program, variable)?.take();
        let result = assign_to(&self.context(program), &mut place, op, value);
        let allowed = self.allowed(&place);
        *self.variable_mut(program, variable)? = place;
        allowed?;
        result
    }

    /// Appends what a value shows to a text.
    fn interpolate(&self, text: &mut Value, value: Option<&Value>) -> Result<(), Cause> {
        let Value::Text(text) = text else {
            return Err(Cause::WrongType("string"));
        };
        let Some(value) = value else {
            return Err(Cause::Unsupported);
        };
        let shown = format!(in self.alloc; "{value}")?;
        if text.len().saturating_add(shown.len()) > self.limits.size {
            return Err(Cause::TooLarge);
        }
        Rc::make_mut(text)?.push_str(shown.as_str())?;
        Ok(())
    }
}

/// What an operation makes of its operands.
fn made(alloc: Global, op: &Op, operands: &mut [Value]) -> Result<Value, Cause> {
    match op {
        Op::InterpolateStart => Ok(Value::text(alloc, String::new(alloc))?),
        Op::InterpolateEnd | Op::CheckSize { .. } => only(operands),
        Op::MakeArray(_) => Value::array_from(alloc, operands),
        Op::MakeMap(_) => Value::map_from(alloc, operands),
        Op::MakeFnPtr => match only(operands)? {
            Value::Text(name) => pointer_to(alloc, name.as_str()),
            _ => Err(Cause::WrongType("string")),
        },
        Op::IsShared => Ok(Value::Bool(matches!(only(operands)?, Value::Shared(_)))),
        Op::Curry(_) => Value::curried(alloc, operands),
        _ => Err(Cause::Unsupported),
    }
}

/// The pointer that a script makes of a name, which is one that a function or an operator can have. A name with `$` is one of the
/// compiler's own, such as that of a closure, and no function that a script finds.
fn pointer_to(alloc: Global, name: &str) -> Result<Value, Cause> {
    if !is_name(name) && Token::of_syntax(name).is_none() {
        return Err(Cause::no_function(alloc, name, None, &[]));
    }
    Value::pointer(alloc, name)
}

/// Whether a text is letters, digits and underscores, with no digit first and at least one letter.
fn is_name(text: &str) -> bool {
    let begins_well = match text.chars().next() {
        Some(first) => first == '_' || first.is_ascii_alphabetic(),
        None => false,
    };
    begins_well
        && text.chars().any(|c| c.is_ascii_alphabetic())
        && text.chars().all(|c| c == '_' || c.is_ascii_alphanumeric())
}

/// The first operand, taken from its place.
#[inline]
fn only(operands: &mut [Value]) -> Result<Value, Cause> {
    match operands.first_mut() {
        Some(value) => Ok(value.take()),
        None => Err(Cause::Unsupported),
    }
}
