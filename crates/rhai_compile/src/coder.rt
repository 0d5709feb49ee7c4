//! The code of expressions. The rules take the function that writes the code of an expression as a parameter, so that each is
//! proved by itself and only `expr` calls itself.
ghost use Rattle.std.specs.Prelude.{◌≡◌, ◌+◌, ◌-◌, ◌≤◌, OnOk, length};
ghost use Rattle.rhai_emit.specs.Loops.{count};
ghost use Rattle.rhai_compile.specs.Writes.{Writes};
ghost use Rattle.rhai_emit.specs.Rules.{IsWritten, Stands, AddsPlaces};
ghost use Rattle.rhai_emit.specs.Places.{both, entries_places, form_places, here, list_places, operation_places, operations_places, expr_places};

use grain::Op;
use grain_base::pos::Site;
use rhai_emit::{Emitter, len_of};
use rhai_errors::{CompileError, Problem};
use rhai_lexer::Operator;
use rhai_syntax::{Entry, Expr, Form, Literal, Operation};

/// The rules, at a depth.
#[derive(Clone, Copy)]
pub(crate) struct Coder<F> {
    /// How deep expressions may still nest.
    pub(crate) depth: usize,
    /// Writes the code of an expression.
    pub(crate) writes: F,
}

/// Writes the code of an expression, whose value is wanted or not.
pub(crate) fn expr(
    emitter: &mut Emitter,
    from: &Expr,
    depth: usize,
    is_wanted: bool,
) -> Result<(), CompileError>
    requires { Stands emitter.old }
    ensures written { OnOk result (IsWritten emitter.old emitter.new (emitter.old.code.operands + count is_wanted)) }
    ensures placed { OnOk result (AddsPlaces emitter.old emitter.new (expr_places from.now)) }
{
    if depth == 0 {
        return Err(CompileError::new(from.place, Problem::TooDeep));
    }
    let coder = Coder {
        depth: depth - 1,
        writes: expr,
    };
    match coder.form(emitter, from, is_wanted) {
        Ok(()) => Ok(()),
        Err(error) => Err(placed(error, from.place)),
    }
}

/// An error at this place, if it has none and is about the text.
pub(crate) fn placed(error: CompileError, place: Site) -> CompileError {
    match error.problem {
        Problem::TooMany(_) if !error.place.is_some() => CompileError::new(place, error.problem),
        _ => error,
    }
}

impl<F: Fn(&mut Emitter, &Expr, usize, bool) -> Result<(), CompileError>> Coder<F> {
    /// Writes the code of an expression, one level deeper.
    pub(crate) fn expr(
        &self,
        emitter: &mut Emitter,
        from: &Expr,
        is_wanted: bool,
    ) -> Result<(), CompileError>
        requires rules { Writes (F.pre self.now.writes) (F.post self.now.writes) self.now.depth }
        requires stands { Stands emitter.old }
        ensures written { OnOk result (IsWritten emitter.old emitter.new (emitter.old.code.operands + count is_wanted)) }
        ensures placed { OnOk result (AddsPlaces emitter.old emitter.new (expr_places from.now)) }
    {
        (self.writes)(emitter, from, self.depth, is_wanted)
    }

    /// Writes the code of expressions, all of whose values are wanted.
    pub(crate) fn all(&self, emitter: &mut Emitter, list: &[Expr]) -> Result<(), CompileError>
        requires rules { Writes (F.pre self.now.writes) (F.post self.now.writes) self.now.depth }
        requires stands { Stands emitter.old }
        ensures written { OnOk result (IsWritten emitter.old emitter.new (emitter.old.code.operands + length list.now)) }
        ensures placed { OnOk result (AddsPlaces emitter.old emitter.new (list_places list.now)) }
    {
        for item in list {
            self.expr(emitter, item, true)?;
        }
        Ok(())
    }

    fn form(&self, emitter: &mut Emitter, from: &Expr, is_wanted: bool) -> Result<(), CompileError>
        requires rules { Writes (F.pre self.now.writes) (F.post self.now.writes) self.now.depth }
        requires stands { Stands emitter.old }
        ensures written { OnOk result (IsWritten emitter.old emitter.new (emitter.old.code.operands + count is_wanted)) }
        ensures placed { OnOk result (AddsPlaces emitter.old emitter.new (expr_places from.now)) }
    {
        let place = from.place;
        match &from.form {
            Form::Literal(_)
            | Form::Name(_)
            | Form::Qualified(_, _)
            | Form::This
            | Form::Interpolated(_)
            | Form::Array(_)
            | Form::Map(_)
            | Form::Prefixed(_, _)
            | Form::Operations(_, _)
            | Form::Call(_, _)
            | Form::Access(_, _)
            | Form::Closure(_) => {
                self.value(emitter, place, &from.form)?;
                emitter.given(place, is_wanted)
            }
            form => self.statement(emitter, place, form, is_wanted),
        }
    }

    /// What gives a value.
    fn value(&self, emitter: &mut Emitter, place: Site, form: &Form) -> Result<(), CompileError>
        requires rules { Writes (F.pre self.now.writes) (F.post self.now.writes) self.now.depth }
        requires stands { Stands emitter.old }
        ensures written { OnOk result (IsWritten emitter.old emitter.new (emitter.old.code.operands + 1)) }
        ensures placed { OnOk result (AddsPlaces emitter.old emitter.new
            (both (here place) (form_places form.now))) }
    {
        match form {
            Form::Literal(literal) => emitter.literal(place, *literal),
            Form::Name(name) => emitter.load(place, *name),
            Form::This => emitter.put(place, Op::LoadThis, 0, 1),
            Form::Interpolated(pieces) => self.interpolated(emitter, place, pieces),
            Form::Array(items) => self.array(emitter, place, items),
            Form::Map(entries) => self.map(emitter, place, entries),
            Form::Prefixed(operator, operand) => self.prefixed(emitter, place, *operator, operand),
            Form::Operations(first, rest) => self.operations(emitter, first, rest),
            Form::Call(name, arguments) => self.call(emitter, place, *name, arguments),
            Form::Access(root, steps) => self.access(emitter, place, root, steps),
            Form::Closure(index) => emitter.closure(place, *index),
            Form::Qualified(space, name) => emitter.qualified(place, *space, *name),
            _ => emitter.put(place, Op::Unit, 0, 1),
        }
    }

    fn interpolated(
        &self,
        emitter: &mut Emitter,
        place: Site,
        pieces: &[Expr],
    ) -> Result<(), CompileError>
        requires rules { Writes (F.pre self.now.writes) (F.post self.now.writes) self.now.depth }
        requires stands { Stands emitter.old }
        ensures written { OnOk result (IsWritten emitter.old emitter.new (emitter.old.code.operands + 1)) }
        ensures placed { OnOk result (AddsPlaces emitter.old emitter.new
            (both (here place) (list_places pieces.now))) }
    {
        emitter.put(place, Op::InterpolateStart, 0, 1)?;
        for piece in pieces {
            self.expr(emitter, piece, true)?;
            emitter.put(piece.place, Op::InterpolateAppend, 1, 0)?;
        }
        emitter.put(place, Op::InterpolateEnd, 1, 1)
    }

    fn array(&self, emitter: &mut Emitter, place: Site, items: &[Expr]) -> Result<(), CompileError>
        requires rules { Writes (F.pre self.now.writes) (F.post self.now.writes) self.now.depth }
        requires stands { Stands emitter.old }
        ensures written { OnOk result (IsWritten emitter.old emitter.new (emitter.old.code.operands + 1)) }
        ensures placed { OnOk result (AddsPlaces emitter.old emitter.new
            (both (here place) (list_places items.now))) }
    {
        self.all(emitter, items)?;
        let len = len_of(place, items.len())?;
        emitter.put(place, Op::MakeArray(len), items.len(), 1)
    }

    fn map(&self, emitter: &mut Emitter, place: Site, entries: &[Entry]) -> Result<(), CompileError>
        requires rules { Writes (F.pre self.now.writes) (F.post self.now.writes) self.now.depth }
        requires stands { Stands emitter.old }
        ensures written { OnOk result (IsWritten emitter.old emitter.new (emitter.old.code.operands + 1)) }
        ensures placed { OnOk result (AddsPlaces emitter.old emitter.new
            (both (here place) (entries_places entries.now))) }
    {
        emitter.put(place, Op::Unit, 0, 1)?;
        for entry in entries {
            emitter.literal(entry.value.place, Literal::Text(entry.name))?;
            self.expr(emitter, &entry.value, true)?;
        }
        let len = len_of(place, entries.len())?;
        emitter.put(place, Op::MakeMap(len), 2 * usize::from(len) + 1, 1)
    }

    fn prefixed(
        &self,
        emitter: &mut Emitter,
        place: Site,
        operator: Operator,
        operand: &Expr,
    ) -> Result<(), CompileError>
        requires rules { Writes (F.pre self.now.writes) (F.post self.now.writes) self.now.depth }
        requires stands { Stands emitter.old }
        ensures written { OnOk result (IsWritten emitter.old emitter.new (emitter.old.code.operands + 1)) }
        ensures placed { OnOk result (AddsPlaces emitter.old emitter.new
            (both (here place) (expr_places operand.now))) }
    {
        self.expr(emitter, operand, true)?;
        emitter.operate(place, operator, 1)
    }

    /// Operators between operands, done from left to right.
    fn operations(
        &self,
        emitter: &mut Emitter,
        first: &Expr,
        rest: &[Operation],
    ) -> Result<(), CompileError>
        requires rules { Writes (F.pre self.now.writes) (F.post self.now.writes) self.now.depth }
        requires stands { Stands emitter.old }
        ensures written { OnOk result (IsWritten emitter.old emitter.new (emitter.old.code.operands + 1)) }
        ensures placed { OnOk result (AddsPlaces emitter.old emitter.new
            (both (expr_places first.now) (operations_places rest.now))) }
    {
        self.expr(emitter, first, true)?;
        for operation in rest {
            self.operation(emitter, operation)?;
        }
        Ok(())
    }

    /// An operator and its right operand, after the left one.
    fn operation(&self, emitter: &mut Emitter, operation: &Operation) -> Result<(), CompileError>
        requires rules { Writes (F.pre self.now.writes) (F.post self.now.writes) self.now.depth }
        requires stands { Stands emitter.old }
        requires room { emitter.old.code.level.floor + 1 ≤ emitter.old.code.operands }
        ensures written { OnOk result (IsWritten emitter.old emitter.new (emitter.old.code.operands)) }
        ensures placed { OnOk result (AddsPlaces emitter.old emitter.new
            (operation_places operation.now)) }
    {
        match operation.operator {
            Operator::And => self.junction(emitter, operation, false),
            Operator::Or => self.junction(emitter, operation, true),
            Operator::Coalesce => self.coalesce(emitter, operation),
            Operator::In | Operator::NotIn => self.membership(emitter, operation),
            operator => {
                self.expr(emitter, &operation.right, true)?;
                emitter.operate(operation.place, operator, 2)
            }
        }
    }

    /// `in` and `!in` call `contains` of the right operand.
    fn membership(&self, emitter: &mut Emitter, operation: &Operation) -> Result<(), CompileError>
        requires rules { Writes (F.pre self.now.writes) (F.post self.now.writes) self.now.depth }
        requires stands { Stands emitter.old }
        requires room { emitter.old.code.level.floor + 1 ≤ emitter.old.code.operands }
        ensures written { OnOk result (IsWritten emitter.old emitter.new (emitter.old.code.operands)) }
        ensures placed { OnOk result (AddsPlaces emitter.old emitter.new
            (operation_places operation.now)) }
    {
        let place = operation.place;
        self.expr(emitter, &operation.right, true)?;
        emitter.put(place, Op::Rotate(1), 2, 2)?;
        let contains = emitter.pools.name("contains")?;
        emitter.call(place, contains, 2)?;
        if operation.operator == Operator::NotIn {
            emitter.operate(place, Operator::Bang, 1)?;
        }
        Ok(())
    }

    /// `&&` and `||`. The value is that of the left operand where that is `is_short`.
    fn junction(
        &self,
        emitter: &mut Emitter,
        operation: &Operation,
        is_short: bool,
    ) -> Result<(), CompileError>
        requires rules { Writes (F.pre self.now.writes) (F.post self.now.writes) self.now.depth }
        requires stands { Stands emitter.old }
        requires room { emitter.old.code.level.floor + 1 ≤ emitter.old.code.operands }
        ensures written { OnOk result (IsWritten emitter.old emitter.new (emitter.old.code.operands)) }
        ensures placed { OnOk result (AddsPlaces emitter.old emitter.new
            (operation_places operation.now)) }
    {
        let place = operation.place;
        let height = emitter.code.operands() - 1;
        let end = emitter.code.label(height + 1)?;
        let short = emitter.code.label(height)?;
        emitter.jump_where(place, is_short, short)?;
        self.expr(emitter, &operation.right, true)?;
        emitter.jump_where(operation.right.place, is_short, short)?;
        emitter.put(place, Op::Bool(!is_short), 0, 1)?;
        emitter.code.jump(place, end, height)?;
        emitter.code.bind(short)?;
        emitter.put(place, Op::Bool(is_short), 0, 1)?;
        emitter.code.bind(end)
    }

    /// `??`
    fn coalesce(&self, emitter: &mut Emitter, operation: &Operation) -> Result<(), CompileError>
        requires rules { Writes (F.pre self.now.writes) (F.post self.now.writes) self.now.depth }
        requires stands { Stands emitter.old }
        requires room { emitter.old.code.level.floor + 1 ≤ emitter.old.code.operands }
        ensures written { OnOk result (IsWritten emitter.old emitter.new (emitter.old.code.operands)) }
        ensures placed { OnOk result (AddsPlaces emitter.old emitter.new
            (operation_places operation.now)) }
    {
        let place = operation.place;
        let height = emitter.code.operands();
        let end = emitter.code.label(height)?;
        emitter
            .code
            .branch(place, Op::SkipIfNotUnit { target: end }, end, 0)?;
        emitter.put(place, Op::Pop, 1, 0)?;
        self.expr(emitter, &operation.right, true)?;
        emitter.code.bind(end)
    }
}
