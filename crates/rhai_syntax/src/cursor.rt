//! A walk over lexemes, and what has been read so far.

use crate::ast::{Binding, Expr, Form, Function, Interface, Syntax};
use crate::links::Links;
use grain_base::pos::Site;
use rhai_errors::{CompileError, Problem, Thing};
use rhai_lexer::{Kind, Lexeme, Lexemes, Mark, Names, Operator};
use std::alloc::{AllocError, Global};
use std::collections::HashSet;

/// A walk over lexemes.
#[derive(Drop)]
pub(crate) struct Cursor {
    pub(crate) alloc: Global,
    lexemes: Vec<Lexeme>,
    at: usize,
    pub(crate) names: Names,
    pub(crate) texts: Names,
    pub(crate) functions: Vec<Function>,
    /// What the texts so far have for each other.
    pub(crate) interface: Interface,
    /// What is known of this text before it is read.
    pub(crate) links: Links,
    /// How many expressions were read that aren't made of literals and operators alone.
    pub(crate) computed: usize,
    /// The names of variables, in the order in which they were read.
    uses: Vec<u32>,
    /// How many `throw` without a value were read.
    pub(crate) rethrows: usize,
    /// What is wrong so far.
    pub(crate) flaws: Vec<CompileError>,
}

impl Cursor {
    /// At the start of a text, with the functions of those before it.
    pub(crate) fn new(
        alloc: Global,
        lexemes: Lexemes,
        before: (Vec<Function>, Interface),
        module: Option<String>,
    ) -> Cursor {
        let Lexemes { list, names, texts } = lexemes;
        let (functions, interface) = before;
        Cursor {
            alloc,
            lexemes: list,
            at: 0,
            names,
            texts,
            functions,
            interface,
            links: Links::new(alloc, module),
            computed: 0,
            uses: Vec::new(alloc),
            rethrows: 0,
            flaws: Vec::new(alloc),
        }
    }

    /// At the start of a text that is a whole program.
    pub(crate) fn of_main(alloc: Global, lexemes: Lexemes) -> Cursor {
        Cursor::new(
            alloc,
            lexemes,
            (Vec::new(alloc), Interface::new(alloc)),
            None,
        )
    }

    /// What was read, with the statements of the main text.
    pub(crate) fn end(self, body: Vec<Expr>) -> Syntax {
        let Cursor {
            names,
            texts,
            functions,
            interface,
            ..
        } = self;
        Syntax {
            names,
            texts,
            functions,
            body,
            interface,
        }
    }

    /// How many lexemes are left.
    pub(crate) fn left(&self) -> usize {
        self.lexemes.len().saturating_sub(self.at)
    }

    /// The lexeme this far after the next one.
    pub(crate) fn ahead(&self, ahead: usize) -> Lexeme {
        match self.lexemes.get(self.at.saturating_add(ahead)) {
            Some(lexeme) => *lexeme,
            None => Lexeme {
                kind: Kind::Mark(Mark::End),
                place: Site::NONE,
            },
        }
    }

    /// The lexeme this far before the next one.
    pub(crate) fn behind(&self, behind: usize) -> Lexeme {
        match self.lexemes.get(self.at.saturating_sub(behind)) {
            Some(lexeme) => *lexeme,
            None => self.peek(),
        }
    }

    /// The next lexeme.
    pub(crate) fn peek(&self) -> Lexeme {
        self.ahead(0)
    }

    pub(crate) fn place(&self) -> Site {
        self.peek().place
    }

    /// Goes past the next lexeme.
    pub(crate) fn go(&mut self) {
        if self.left() > 1 {
            self.at = self.at.saturating_add(1);
        }
    }

    pub(crate) fn is_at(&self, mark: Mark) -> bool {
        match self.peek().kind {
            Kind::Mark(found) => found == mark,
            _ => false,
        }
    }

    /// Goes past the mark, if it comes next.
    pub(crate) fn eat(&mut self, mark: Mark) -> bool {
        let is_there = self.is_at(mark);
        if is_there {
            self.go();
        }
        is_there
    }

    /// Goes past the mark.
    pub(crate) fn expect(&mut self, mark: Mark, thing: Thing) -> Result<(), CompileError> {
        if self.eat(mark) {
            Ok(())
        } else {
            Err(self.expected(thing))
        }
    }

    /// Goes past the mark that closes the bracket that was opened at the place.
    pub(crate) fn close(
        &mut self,
        mark: Mark,
        thing: Thing,
        opened: Site,
    ) -> Result<(), CompileError> {
        if self.eat(mark) {
            Ok(())
        } else {
            Err(self.fault(Problem::Unclosed(thing, opened)))
        }
    }

    /// Goes past the name of a variable, which is no name that is reserved for a function, and returns it with its place.
    pub(crate) fn binding(&mut self, thing: Thing) -> Result<Binding, CompileError> {
        let place = self.place();
        let name = self.name(thing)?;
        if names_no_variable(self.names.get(name)) {
            return Err(CompileError::new(place, Problem::ReservedName));
        }
        Ok(Binding { name, place })
    }

    /// Goes past the name of a function that is declared.
    pub(crate) fn function_name(&mut self) -> Result<u32, CompileError> {
        let place = self.place();
        let name = self.name(Thing::FunctionName)?;
        if names_no_declared_function(self.names.get(name)) {
            return Err(CompileError::new(place, Problem::ReservedName));
        }
        Ok(name)
    }

    /// Goes past a name.
    pub(crate) fn name(&mut self, thing: Thing) -> Result<u32, CompileError> {
        match self.peek().kind {
            Kind::Name(name) => {
                self.go();
                Ok(name)
            }
            _ => Err(self.expected(thing)),
        }
    }

    /// Something else is expected at the next lexeme, which may be reserved.
    pub(crate) fn expected(&self, thing: Thing) -> CompileError {
        match self.peek().kind {
            Kind::Mark(Mark::Reserved(word)) => self.fault(Problem::Reserved(word)),
            _ => self.fault(Problem::Expected(thing)),
        }
    }

    /// The problem, at the next lexeme.
    pub(crate) fn fault(&self, problem: Problem) -> CompileError {
        CompileError::new(self.place(), problem)
    }

    /// Whether statements end here.
    pub(crate) fn is_at_end_of_block(&self) -> bool {
        match self.peek().kind {
            Kind::Mark(Mark::RightBrace | Mark::End) => true,
            Kind::NextPiece(_) | Kind::LastPiece(_) => true,
            _ => false,
        }
    }

    /// Whether no value can begin here.
    pub(crate) fn is_at_end_of_value(&self) -> bool {
        match self.peek().kind {
            Kind::Mark(Mark::Semicolon | Mark::Comma | Mark::RightParen | Mark::RightBracket) => {
                true
            }
            _ => self.is_at_end_of_block(),
        }
    }

    /// The operator that comes next, if it is between operands and has at least this precedence.
    pub(crate) fn operator(&self, least: u8) -> Option<Operator> {
        match self.peek().kind {
            Kind::Operator(operator) if operator.binds() >= least && operator.binds() > 0 => {
                Some(operator)
            }
            _ => None,
        }
    }

    /// Whether `=` comes next.
    pub(crate) fn is_at_assign(&self) -> bool {
        match self.peek().kind {
            Kind::Assign(None) => true,
            _ => false,
        }
    }

    /// A condition isn't followed by `=`.
    pub(crate) fn check_condition(&self) -> Result<(), CompileError> {
        if self.is_at_assign() {
            return Err(self.fault(Problem::AssignedCondition));
        }
        Ok(())
    }

    /// The end of a condition of an arm at this place, and the arrow after it. The case `_` has no condition.
    pub(crate) fn end_condition(&mut self, place: Site, has_any: bool) -> Result<(), CompileError> {
        self.check_condition()?;
        if has_any {
            return Err(CompileError::new(place, Problem::DefaultCondition));
        }
        self.expect(Mark::Arrow, Thing::Arrow)
    }

    /// A name isn't followed by `!(`.
    pub(crate) fn check_scope_call(&self) -> Result<(), CompileError> {
        match (self.peek().kind, self.ahead(1).kind) {
            (Kind::Operator(Operator::Bang), Kind::Mark(Mark::LeftParen)) => {
                Err(self.fault(Problem::Unsupported(Thing::ScopeCall)))
            }
            _ => Ok(()),
        }
    }

    /// Goes past `()`, if it comes next.
    pub(crate) fn eat_unit(&mut self) -> bool {
        match (self.peek().kind, self.ahead(1).kind) {
            (Kind::Mark(Mark::LeftParen), Kind::Mark(Mark::RightParen)) => {}
            _ => return false,
        }
        self.go();
        self.go();
        true
    }

    /// Whether `|` comes next.
    pub(crate) fn is_at_pipe(&self) -> bool {
        match self.peek().kind {
            Kind::Operator(operator) => operator == Operator::Pipe,
            _ => false,
        }
    }

    /// Goes past `|`, if it comes next.
    pub(crate) fn eat_pipe(&mut self) -> bool {
        let is_there = self.is_at_pipe();
        if is_there {
            self.go();
        }
        is_there
    }

    /// Goes past the name of a property, and returns it as a text.
    pub(crate) fn property_text(&mut self) -> Result<u32, CompileError> {
        let text = match self.peek().kind {
            Kind::Text(text) => text,
            Kind::Name(name) => {
                let name = String::from_str(self.alloc, self.names.get(name))?;
                self.texts.index(name)?
            }
            _ => return Err(self.expected(Thing::PropertyName)),
        };
        self.go();
        Ok(text)
    }

    /// The name that has this text.
    pub(crate) fn name_of_text(&mut self, text: u32) -> Result<u32, CompileError> {
        let name = String::from_str(self.alloc, self.texts.get(text))?;
        self.names.index(name)
    }

    /// A variable is used.
    pub(crate) fn uses(&mut self, name: u32) -> Result<(), CompileError> {
        self.uses.push(name)?;
        Ok(())
    }

    /// How many uses of variables there were.
    pub(crate) fn count_uses(&self) -> usize {
        self.uses.len()
    }

    /// The variables that were used since there were this many uses, each once. They count once each from now on.
    pub(crate) fn used_since(&mut self, count: usize) -> Result<Vec<u32>, CompileError> {
        let mut used = Vec::new(self.alloc);
        let mut seen = HashSet::new(self.alloc);
        for name in self.uses.get(count..).unwrap_or_default() {
            if seen.insert(*name)? {
                used.push(*name)?;
            }
        }
        self.uses.truncate(count);
        for name in &used {
            self.uses.push(*name)?;
        }
        Ok(used)
    }

    /// A name for the next function that has none, which no source text can contain.
    pub(crate) fn made_up_name(&mut self) -> Result<u32, CompileError> {
        let number = self.functions.len();
        let name = format!(in self.alloc; "anon${number}")?;
        self.names.index(name)
    }

    pub(crate) fn boxed(&self, expr: Expr) -> Result<Box<Expr>, CompileError> {
        Ok(Box::new(self.alloc, expr)?)
    }

    /// The expression of a form that begins at the place.
    pub(crate) fn expr(&mut self, place: Site, form: Form) -> Expr {
        if !is_made_of_parts(&form) {
            self.computed = self.computed.saturating_add(1);
        }
        Expr { place, form }
    }

    /// Adds a function that no text declares, nor calls by its name.
    pub(crate) fn add_hidden_function(
        &mut self,
        place: Site,
        name: u32,
        body: Vec<Expr>,
    ) -> Result<(), AllocError> {
        self.functions.push(Function {
            place,
            name,
            params: Vec::new(self.alloc),
            this_type: None,
            is_private: true,
            is_closure: false,
            body,
            uses: Vec::new(self.alloc),
        })?;
        Ok(())
    }
}

/// Whether it is a literal, or has a value that depends on the expressions in it alone.
fn is_made_of_parts(form: &Form) -> bool {
    match form {
        Form::Literal(_) | Form::Array(_) | Form::Map(_) => true,
        Form::Prefixed(_, _) | Form::Operations(_, _) => true,
        _ => false,
    }
}

/// Whether no variable may have the name, since it is reserved for a function.
fn names_no_variable(name: &str) -> bool {
    match name {
        "print" | "debug" => true,
        name => names_no_declared_function(name),
    }
}

/// Whether no function that is declared may have the name, since a call of it has a meaning of its own.
fn names_no_declared_function(name: &str) -> bool {
    match name {
        "Fn" | "call" | "curry" | "eval" | "type_of" => true,
        "is_def_fn" | "is_def_var" | "is_shared" => true,
        _ => false,
    }
}
