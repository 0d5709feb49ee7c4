//! Expressions by the precedence of their operators. The rules take the function that reads an expression as a parameter, so that
//! each is proved by itself and only `expr` calls itself.

ghost use Rattle.std.specs.Prelude.{IfOk};
ghost use Rattle.std.specs.List.{All};
ghost use Rattle.rhai_errors.specs.Places.{HasPlaces};

use crate::ast::{Binding, Expr, Form, Function, Operation, Syntax};
use crate::cursor::Cursor;
use grain_base::pos::Site;
use rhai_errors::{CompileError, Problem, Thing};
use rhai_lexer::{Kind, Mark, Operator, split_into_lexemes, split_more};
use std::alloc::{AllocError, Global};

/// How deep expressions may nest, which bounds the call stack.
pub const MAX_DEPTH: usize = 100;

/// How many parameters a function may have: no call has more arguments. So each is compared with few others.
const MAX_PARAMS: usize = 255;

/// A precedence above those of all operators between operands.
pub(crate) const ALONE: u8 = 255;

/// As [`ALONE`], where a statement begins: `try` may only be there.
pub(crate) const STATEMENT: u8 = 254;

/// The rules, at a depth.
#[derive(Clone, Copy)]
pub(crate) struct Grammar<F> {
    /// How deep expressions may still nest.
    pub(crate) depth: usize,
    /// Reads an expression.
    pub(crate) reads: F,
}

/// Reads an expression, with the operators after it that have at least this precedence.
pub(crate) fn expr(cursor: &mut Cursor, depth: usize, least: u8) -> Result<Expr, CompileError> {
    if depth == 0 {
        return Err(cursor.fault(Problem::TooDeep));
    }
    Grammar {
        depth: depth - 1,
        reads: expr,
    }
    .level(cursor, least)
}

/// The syntax tree of a source text, in time linear in its length. Its height is bounded by [`MAX_DEPTH`].
///
/// # Errors
/// The first thing that is wrong with the text, or the allocator refused.
pub fn parse(alloc: Global, source: &str) -> Result<Syntax, CompileError> {
    let mut cursor = Cursor::of_main(alloc, split_into_lexemes(alloc, source)?);
    let body = whole_program(&mut cursor)?;
    Ok(cursor.end(body))
}

/// The syntax tree of a program with one more text, in time linear in the length of the text: with that of a module of this
/// name, or else with the functions of a text whose statements outside of functions are left out. Its lines are numbered after
/// this many others, so that a line determines its text. Its imports follow those of the program so far.
///
/// # Errors
/// The first thing that is wrong with the text, or the allocator refused.
pub fn parse_more(
    alloc: Global,
    source: &str,
    program: Syntax,
    module: Option<String>,
    lines: u32,
) -> Result<Syntax, CompileError> {
    let Syntax {
        names,
        texts,
        functions,
        body,
        interface,
    } = program;
    let lexemes = split_more(alloc, source, (names, texts), lines)?;
    let mut cursor = Cursor::new(alloc, lexemes, (functions, interface), module);
    let _statements = whole_program(&mut cursor)?;
    Ok(cursor.end(body))
}

/// What is wrong with the syntax of a source text, as reading finds it: nothing if [`parse`] reads the text. After an error it
/// goes on with the next statement, and it stops after [`MAX_FLAWS`]. If a lexeme is wrong, that is the only error. Each place
/// that an error names lies in the text.
///
/// # Errors
/// The allocator refused.
pub fn flaws(alloc: Global, source: &str) -> Result<Vec<CompileError>, AllocError>
    ensures { IfOk result (λ flaws. All (HasPlaces source.now) flaws.items) }
{
    let mut flaws = flaws_found(alloc, source)?;
    place_flaws(&mut flaws, source);
    Ok(flaws)
}

/// Each flaw, without places that don't lie in the text.
fn place_flaws(flaws: &mut [CompileError], source: &str)
    ensures { All (HasPlaces source.now) flaws.new }
{
    for flaw in flaws.iter_mut() {
        *flaw = flaw.within(source);
    }
}

/// What is wrong, with places that nothing is proved of.
fn flaws_found(alloc: Global, source: &str) -> Result<Vec<CompileError>, AllocError> {
    let lexemes = match split_into_lexemes(alloc, source) {
        Ok(lexemes) => lexemes,
        Err(error) => return Ok(vec![in alloc; error]?),
    };
    let mut cursor = Cursor::of_main(alloc, lexemes);
    match whole_program(&mut cursor) {
        Ok(_) => Ok(Vec::new(alloc)),
        Err(error) => cursor.into_flaws(error),
    }
}

/// The functions and the statements of a whole text, in which nothing is wrong.
fn whole_program(cursor: &mut Cursor) -> Result<Vec<Expr>, CompileError> {
    cursor.look_ahead()?;
    let body = program(cursor);
    cursor.check_flaws()?;
    body
}

/// The functions and the statements of a whole text.
fn program(cursor: &mut Cursor) -> Result<Vec<Expr>, CompileError> {
    let mut body = Vec::new(cursor.alloc);
    for _turn in 0..cursor.left() {
        if cursor.is_at(Mark::End) {
            return Ok(body);
        }
        if !cursor.eat(Mark::Semicolon) {
            let first = cursor.left();
            match part_of_program(cursor, &mut body) {
                Ok(()) => {}
                Err(error) => cursor.recover(first, error)?,
            }
        }
    }
    Err(cursor.fault(Problem::Expected(Thing::EndOfText)))
}

/// A function or a statement outside of functions.
fn part_of_program(cursor: &mut Cursor, body: &mut Vec<Expr>) -> Result<(), CompileError> {
    let grammar = Grammar {
        depth: MAX_DEPTH,
        reads: expr,
    };
    if let Some(statement) = grammar.outermost(cursor)? {
        body.push(statement)?;
    }
    Ok(())
}

impl<F: Fn(&mut Cursor, usize, u8) -> Result<Expr, CompileError>> Grammar<F> {
    /// Reads an expression, one level deeper.
    pub(crate) fn expr(&self, cursor: &mut Cursor, least: u8) -> Result<Expr, CompileError>
        requires { (c : _) (least : _) → F.pre self.now.reads c self.now.depth least }
    {
        (self.reads)(cursor, self.depth, least)
    }

    pub(crate) fn boxed(&self, cursor: &mut Cursor, least: u8) -> Result<Box<Expr>, CompileError>
        requires { (c : _) (least : _) → F.pre self.now.reads c self.now.depth least }
    {
        let expr = self.expr(cursor, least)?;
        cursor.boxed(expr)
    }

    /// An operand, and the operators after it that have at least this precedence.
    fn level(&self, cursor: &mut Cursor, least: u8) -> Result<Expr, CompileError>
        requires { (c : _) (least : _) → F.pre self.now.reads c self.now.depth least }
    {
        if least != STATEMENT && cursor.is_at(Mark::Try) {
            return Err(cursor.fault(Problem::TryAsValue));
        }
        let first = self.operand(cursor)?;
        let operations = self.operations(cursor, least)?;
        if operations.is_empty() {
            return Ok(first);
        }
        let place = first.place;
        let first = cursor.boxed(first)?;
        Ok(cursor.expr(place, Form::Operations(first, operations)))
    }

    fn operations(&self, cursor: &mut Cursor, least: u8) -> Result<Vec<Operation>, CompileError>
        requires { (c : _) (least : _) → F.pre self.now.reads c self.now.depth least }
    {
        let mut operations = Vec::new(cursor.alloc);
        for _turn in 0..cursor.left() {
            let Some(operator) = cursor.operator(least) else {
                break;
            };
            operations.push(self.operation(cursor, operator)?)?;
        }
        Ok(operations)
    }

    fn operation(&self, cursor: &mut Cursor, operator: Operator) -> Result<Operation, CompileError>
        requires { (c : _) (least : _) → F.pre self.now.reads c self.now.depth least }
    {
        let place = cursor.place();
        cursor.go();
        let right = self.expr(cursor, operator.binds_right())?;
        Ok(Operation {
            operator,
            place,
            right,
        })
    }

    /// Expressions with commas between them, up to the mark that closes them.
    pub(crate) fn list(
        &self,
        cursor: &mut Cursor,
        close: Mark,
        thing: Thing,
        opened: Site,
    ) -> Result<Vec<Expr>, CompileError>
        requires { (c : _) (least : _) → F.pre self.now.reads c self.now.depth least }
    {
        let mut list = Vec::new(cursor.alloc);
        for _turn in 0..cursor.left() {
            if cursor.eat(close) {
                return Ok(list);
            }
            list.push(self.expr(cursor, 0)?)?;
            if !cursor.eat(Mark::Comma) {
                cursor.close(close, thing, opened)?;
                return Ok(list);
            }
        }
        Err(cursor.fault(Problem::Unclosed(thing, opened)))
    }

    /// A function, which isn't one of the statements. That of a module is the program's own: its host sees those of the main
    /// text alone.
    pub(crate) fn function(&self, cursor: &mut Cursor) -> Result<(), CompileError>
        requires { (c : _) (least : _) → F.pre self.now.reads c self.now.depth least }
    {
        let place = cursor.place();
        let is_private = cursor.eat(Mark::Private);
        cursor.expect(Mark::Fn, Thing::Fn)?;
        let this_type = this_type(cursor)?;
        let name = cursor.function_name()?;
        let name = cursor.name_in_program(name)?;
        let opened = cursor.place();
        cursor.expect(Mark::LeftParen, Thing::LeftParen)?;
        let params = params(cursor, opened)?;
        let body = self.block(cursor)?;
        if cursor.is_module() && !is_private && this_type.is_none() {
            let _ = cursor.interface.functions.insert((name, params.len()))?;
        }
        let function = Function {
            place,
            name,
            params,
            this_type,
            is_private: is_private || cursor.is_module(),
            is_closure: false,
            body,
            uses: Vec::new(cursor.alloc),
        };
        cursor.functions.push(function)?;
        Ok(())
    }
}

/// The type of `this` and a point, if these come next: `int.` as in `fn int.double()`.
fn this_type(cursor: &mut Cursor) -> Result<Option<u32>, CompileError> {
    let name = match (cursor.peek().kind, cursor.ahead(1).kind) {
        (Kind::Name(name), Kind::Mark(Mark::Dot)) => name,
        (Kind::Text(text), Kind::Mark(Mark::Dot)) => cursor.name_of_text(text)?,
        _ => return Ok(None),
    };
    cursor.go();
    cursor.go();
    Ok(Some(name))
}

/// Names of parameters with commas between them, up to the parenthesis that closes them.
fn params(cursor: &mut Cursor, opened: Site) -> Result<Vec<Binding>, CompileError> {
    let unclosed = Problem::Unclosed(Thing::RightParen, opened);
    let mut params = Vec::new(cursor.alloc);
    for _turn in 0..cursor.left() {
        if cursor.eat(Mark::RightParen) {
            return Ok(params);
        }
        add_param(cursor, &mut params)?;
        if !cursor.eat(Mark::Comma) {
            cursor.close(Mark::RightParen, Thing::RightParen, opened)?;
            return Ok(params);
        }
    }
    Err(cursor.fault(unclosed))
}

pub(crate) fn add_param(
    cursor: &mut Cursor,
    params: &mut Vec<Binding>,
) -> Result<(), CompileError> {
    let param = cursor.binding(Thing::ParameterName)?;
    if params.len() >= MAX_PARAMS {
        return Err(CompileError::new(param.place, Problem::TooMany(Thing::Arguments)));
    }
    if declares(params, param.name) {
        return Err(CompileError::new(param.place, Problem::Repeated(Thing::Parameter)));
    }
    params.push(param)?;
    Ok(())
}

/// Whether one of the parameters has this name.
fn declares(params: &[Binding], name: u32) -> bool {
    for param in params {
        if param.name == name {
            return true;
        }
    }
    false
}
