//! Operands: what is between operators.

use crate::ast::{Access, Binding, Entry, Expr, Form, Function, Literal, Part};
use crate::cursor::Cursor;
use crate::grammar::{ALONE, Grammar, add_param};
use grain_base::Float;
use grain_base::pos::Site;
use rhai_errors::{CompileError, Problem, Thing};
use rhai_lexer::{Kind, Mark, Operator};
use std::collections::HashSet;

impl<F: Fn(&mut Cursor, usize, u8) -> Result<Expr, CompileError>> Grammar<F> {
    /// An operand with the operators before it and the steps after it.
    pub(crate) fn operand(&self, cursor: &mut Cursor) -> Result<Expr, CompileError>
        requires { (c : _) (least : _) → F.pre self.now.reads c self.now.depth least }
    {
        let place = cursor.place();
        match cursor.peek().kind {
            Kind::Operator(operator) => self.operated(cursor, place, operator),
            Kind::Mark(mark) => self.marked(cursor, place, mark),
            _ => {
                let root = self.plain(cursor, place)?;
                self.stepped(cursor, root)
            }
        }
    }

    /// What begins with an operator.
    fn operated(
        &self,
        cursor: &mut Cursor,
        place: Site,
        operator: Operator,
    ) -> Result<Expr, CompileError>
        requires { (c : _) (least : _) → F.pre self.now.reads c self.now.depth least }
    {
        cursor.go();
        match operator {
            Operator::Pipe | Operator::Or => {
                let closure = self.closure(cursor, place, operator)?;
                self.stepped(cursor, closure)
            }
            Operator::Plus => self.expr(cursor, ALONE),
            Operator::Minus | Operator::Bang => {
                let operand = self.expr(cursor, ALONE)?;
                prefixed(cursor, place, operator, operand)
            }
            _ => Err(CompileError::new(place, Problem::Expected(Thing::Expression))),
        }
    }

    /// A function without a name.
    fn closure(
        &self,
        cursor: &mut Cursor,
        place: Site,
        operator: Operator,
    ) -> Result<Expr, CompileError>
        requires { (c : _) (least : _) → F.pre self.now.reads c self.now.depth least }
    {
        let mut params = Vec::new(cursor.alloc);
        if operator == Operator::Pipe {
            read_params(cursor, &mut params)?;
        }
        let uses = cursor.count_uses();
        let mut body = Vec::new(cursor.alloc);
        body.push(self.statement(cursor)?)?;
        let uses = cursor.used_since(uses)?;
        let index = cursor.functions.len();
        let name = cursor.made_up_name()?;
        let function = Function {
            place,
            name,
            params,
            this_type: None,
            is_private: true,
            is_closure: true,
            body,
            uses,
        };
        cursor.functions.push(function)?;
        Ok(cursor.expr(place, Form::Closure(index)))
    }

    /// What begins with a keyword or a bracket.
    fn marked(&self, cursor: &mut Cursor, place: Site, mark: Mark) -> Result<Expr, CompileError>
        requires { (c : _) (least : _) → F.pre self.now.reads c self.now.depth least }
    {
        match mark {
            Mark::LeftParen
            | Mark::LeftBracket
            | Mark::MapBrace
            | Mark::This
            | Mark::True
            | Mark::False => {
                let root = self.bracketed(cursor, place, mark)?;
                self.stepped(cursor, root)
            }
            _ => self.compound(cursor, place, mark),
        }
    }

    fn bracketed(&self, cursor: &mut Cursor, place: Site, mark: Mark) -> Result<Expr, CompileError>
        requires { (c : _) (least : _) → F.pre self.now.reads c self.now.depth least }
    {
        cursor.go();
        match mark {
            Mark::LeftParen => self.parenthesized(cursor, place),
            Mark::LeftBracket => {
                let items = self.list(cursor, Mark::RightBracket, Thing::RightBracket, place)?;
                Ok(cursor.expr(place, Form::Array(items)))
            }
            Mark::MapBrace => {
                let entries = self.entries(cursor, place)?;
                Ok(cursor.expr(place, Form::Map(entries)))
            }
            Mark::True => Ok(cursor.expr(place, Form::Literal(Literal::Bool(true)))),
            Mark::False => Ok(cursor.expr(place, Form::Literal(Literal::Bool(false)))),
            _ => Ok(cursor.expr(place, Form::This)),
        }
    }

    /// What is in parentheses, after the first of them.
    fn parenthesized(&self, cursor: &mut Cursor, place: Site) -> Result<Expr, CompileError>
        requires { (c : _) (least : _) → F.pre self.now.reads c self.now.depth least }
    {
        if cursor.eat(Mark::RightParen) {
            return Ok(cursor.expr(place, Form::Literal(Literal::Unit)));
        }
        let inner = self.expr(cursor, 0)?;
        cursor.close(Mark::RightParen, Thing::RightParen, place)?;
        Ok(inner)
    }

    /// The properties of a map, up to its brace.
    fn entries(&self, cursor: &mut Cursor, opened: Site) -> Result<Vec<Entry>, CompileError>
        requires { (c : _) (least : _) → F.pre self.now.reads c self.now.depth least }
    {
        let mut entries = Vec::new(cursor.alloc);
        let mut seen = HashSet::new(cursor.alloc);
        for _turn in 0..cursor.left() {
            if cursor.eat(Mark::RightBrace) {
                return Ok(entries);
            }
            entries.push(self.entry(cursor, &mut seen)?)?;
            if !cursor.eat(Mark::Comma) {
                cursor.close(Mark::RightBrace, Thing::RightBrace, opened)?;
                return Ok(entries);
            }
        }
        Err(cursor.fault(Problem::Unclosed(Thing::RightBrace, opened)))
    }

    /// A property of a map, whose name none of those before it has.
    fn entry(&self, cursor: &mut Cursor, seen: &mut HashSet<u32>) -> Result<Entry, CompileError>
        requires { (c : _) (least : _) → F.pre self.now.reads c self.now.depth least }
    {
        let name = new_property(cursor, seen)?;
        cursor.expect(Mark::Colon, Thing::Colon)?;
        let value = self.expr(cursor, 0)?;
        Ok(Entry { name, value })
    }

    /// A name, a call, a text or a character.
    fn plain(&self, cursor: &mut Cursor, place: Site) -> Result<Expr, CompileError>
        requires { (c : _) (least : _) → F.pre self.now.reads c self.now.depth least }
    {
        match cursor.peek().kind {
            Kind::Int(value) => literal(cursor, place, Literal::Int(value)),
            Kind::Float(value) => literal(cursor, place, Literal::Float(value)),
            Kind::Char(value) => literal(cursor, place, Literal::Char(value)),
            Kind::Text(text) => literal(cursor, place, Literal::Text(text)),
            Kind::FirstPiece(text) => self.interpolated(cursor, place, text),
            Kind::Name(name) => self.named(cursor, place, name),
            _ => Err(cursor.expected(Thing::Expression)),
        }
    }

    /// A variable, or a call of a function by its name.
    fn named(&self, cursor: &mut Cursor, place: Site, name: u32) -> Result<Expr, CompileError>
        requires { (c : _) (least : _) → F.pre self.now.reads c self.now.depth least }
    {
        cursor.go();
        let opened = cursor.place();
        if cursor.eat(Mark::LeftParen) {
            let arguments = self.list(cursor, Mark::RightParen, Thing::RightParen, opened)?;
            let form = match cursor.pointed_to(name, &arguments) {
                Some(linked) => Form::Name(linked),
                None => Form::Call(cursor.called(name, arguments.len()), arguments),
            };
            return Ok(cursor.expr(place, form));
        }
        if cursor.eat(Mark::DoubleColon) {
            return self.qualified(cursor, place, name);
        }
        cursor.check_scope_call()?;
        cursor.uses(name)?;
        Ok(cursor.expr(place, Form::Name(name)))
    }

    /// A function or a constant of a module, behind the name of the module and `::`.
    fn qualified(&self, cursor: &mut Cursor, place: Site, space: u32) -> Result<Expr, CompileError>
        requires { (c : _) (least : _) → F.pre self.now.reads c self.now.depth least }
    {
        let name = cursor.name(Thing::Name)?;
        let opened = cursor.place();
        if cursor.eat(Mark::LeftParen) {
            let arguments = self.list(cursor, Mark::RightParen, Thing::RightParen, opened)?;
            return cursor.module_call(place, space, name, arguments);
        }
        cursor.module_constant(place, space, name)
    }

    /// A string with interpolations, at its first piece.
    fn interpolated(
        &self,
        cursor: &mut Cursor,
        place: Site,
        first: u32,
    ) -> Result<Expr, CompileError>
        requires { (c : _) (least : _) → F.pre self.now.reads c self.now.depth least }
    {
        let mut pieces = Vec::new(cursor.alloc);
        let mut next = Some(first);
        for _turn in 0..cursor.left() {
            let Some(text) = next else {
                break;
            };
            pieces.push(literal(cursor, place, Literal::Text(text))?)?;
            pieces.push(self.inserted(cursor)?)?;
            next = match cursor.peek().kind {
                Kind::NextPiece(text) => Some(text),
                Kind::LastPiece(text) => {
                    pieces.push(literal(cursor, place, Literal::Text(text))?)?;
                    return Ok(cursor.expr(place, Form::Interpolated(pieces)));
                }
                _ => None,
            };
        }
        Err(cursor.fault(Problem::Unclosed(Thing::RightBrace, place)))
    }

    /// The statements that are interpolated.
    fn inserted(&self, cursor: &mut Cursor) -> Result<Expr, CompileError>
        requires { (c : _) (least : _) → F.pre self.now.reads c self.now.depth least }
    {
        let place = cursor.place();
        let statements = self.statements(cursor)?;
        Ok(cursor.expr(place, Form::Block(statements)))
    }

    /// The steps after a value.
    fn stepped(&self, cursor: &mut Cursor, root: Expr) -> Result<Expr, CompileError>
        requires { (c : _) (least : _) → F.pre self.now.reads c self.now.depth least }
    {
        let steps = self.steps(cursor)?;
        if steps.is_empty() {
            return Ok(root);
        }
        let place = root.place;
        let root = cursor.boxed(root)?;
        Ok(cursor.expr(place, Form::Access(root, steps)))
    }

    fn steps(&self, cursor: &mut Cursor) -> Result<Vec<Access>, CompileError>
        requires { (c : _) (least : _) → F.pre self.now.reads c self.now.depth least }
    {
        let mut steps = Vec::new(cursor.alloc);
        for _turn in 0..cursor.left() {
            let Some(step) = self.step(cursor)? else {
                break;
            };
            steps.push(step)?;
        }
        Ok(steps)
    }

    fn step(&self, cursor: &mut Cursor) -> Result<Option<Access>, CompileError>
        requires { (c : _) (least : _) → F.pre self.now.reads c self.now.depth least }
    {
        let mark = match cursor.peek().kind {
            Kind::Mark(mark) => mark,
            _ => return Ok(None),
        };
        let is_index = match mark {
            Mark::LeftBracket | Mark::QuestionBracket => true,
            Mark::Dot | Mark::QuestionDot => false,
            _ => return Ok(None),
        };
        if !is_index {
            cursor.go();
        }
        let place = cursor.place();
        let part = if is_index {
            self.index(cursor)?
        } else {
            self.member(cursor)?
        };
        let is_optional = mark == Mark::QuestionBracket || mark == Mark::QuestionDot;
        Ok(Some(Access {
            place,
            is_optional,
            part,
        }))
    }

    fn index(&self, cursor: &mut Cursor) -> Result<Part, CompileError>
        requires { (c : _) (least : _) → F.pre self.now.reads c self.now.depth least }
    {
        let opened = cursor.place();
        cursor.go();
        let index = self.expr(cursor, 0)?;
        cursor.close(Mark::RightBracket, Thing::RightBracket, opened)?;
        Ok(Part::Index(index))
    }

    /// A property or a method, after its point.
    fn member(&self, cursor: &mut Cursor) -> Result<Part, CompileError>
        requires { (c : _) (least : _) → F.pre self.now.reads c self.now.depth least }
    {
        let name = cursor.name(Thing::MemberName)?;
        let opened = cursor.place();
        if cursor.eat(Mark::LeftParen) {
            let arguments = self.list(cursor, Mark::RightParen, Thing::RightParen, opened)?;
            return Ok(Part::Method(cursor.called(name, arguments.len()), arguments));
        }
        Ok(Part::Property(name))
    }
}

/// The name of a property that is next, which isn't among those that were seen.
fn new_property(cursor: &mut Cursor, seen: &mut HashSet<u32>) -> Result<u32, CompileError> {
    let place = cursor.place();
    let name = cursor.property_text()?;
    if !seen.insert(name)? {
        return Err(CompileError::new(place, Problem::Repeated(Thing::Property)));
    }
    Ok(name)
}

/// A literal, which is the next lexeme.
fn literal(cursor: &mut Cursor, place: Site, literal: Literal) -> Result<Expr, CompileError> {
    cursor.go();
    Ok(cursor.expr(place, Form::Literal(literal)))
}

/// An operator before its operand. The negative of a number that is written out is a literal.
fn prefixed(
    cursor: &mut Cursor,
    place: Site,
    operator: Operator,
    operand: Expr,
) -> Result<Expr, CompileError> {
    if let Some(literal) = negative(operator, &operand.form) {
        return Ok(cursor.expr(place, Form::Literal(literal)));
    }
    let operand = cursor.boxed(operand)?;
    Ok(cursor.expr(place, Form::Prefixed(operator, operand)))
}

/// The number that a minus before a number makes.
fn negative(operator: Operator, operand: &Form) -> Option<Literal> {
    match (operator, operand) {
        (Operator::Minus, Form::Literal(Literal::Int(value))) => match value.checked_neg() {
            Some(value) => Some(Literal::Int(value)),
            None => None,
        },
        (Operator::Minus, Form::Literal(Literal::Float(value))) => {
            Some(Literal::Float(negated(*value)))
        }
        _ => None,
    }
}

/// The negative of a number. That of zero has another sign, and so other bits.
pub(crate) fn negated(value: Float) -> Float {
    Float::of(-value.number())
}

/// The parameters of a closure, up to the `|` after them.
fn read_params(cursor: &mut Cursor, params: &mut Vec<Binding>) -> Result<(), CompileError> {
    for _turn in 0..cursor.left() {
        if cursor.eat_pipe() {
            return Ok(());
        }
        add_param(cursor, params)?;
        if !cursor.eat(Mark::Comma) && !cursor.is_at_pipe() {
            break;
        }
    }
    Err(cursor.fault(Problem::Expected(Thing::Pipe)))
}
