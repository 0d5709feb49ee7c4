//! Statements, and expressions that have blocks.

use crate::ast::{Access, Arm, Binding, Branch, Case, Catch, Expr, Form, Literal, Part};
use crate::cursor::Cursor;
use crate::grammar::{Grammar, STATEMENT};
use crate::operand::negated;
use grain_base::pos::Site;
use rhai_errors::{CompileError, Problem, Thing};
use rhai_lexer::{Kind, Mark, Operator};

impl<F: Fn(&mut Cursor, usize, u8) -> Result<Expr, CompileError>> Grammar<F> {
    /// Statements in braces.
    pub(crate) fn block(&self, cursor: &mut Cursor) -> Result<Vec<Expr>, CompileError>
        requires { (c : _) (least : _) → F.pre self.now.reads c self.now.depth least }
    {
        let opened = cursor.place();
        cursor.expect(Mark::LeftBrace, Thing::LeftBrace)?;
        let statements = self.statements(cursor)?;
        cursor.close(Mark::RightBrace, Thing::RightBrace, opened)?;
        Ok(statements)
    }

    /// Statements, up to the end of their block.
    pub(crate) fn statements(&self, cursor: &mut Cursor) -> Result<Vec<Expr>, CompileError>
        requires { (c : _) (least : _) → F.pre self.now.reads c self.now.depth least }
    {
        let mut statements = Vec::new(cursor.alloc);
        for _turn in 0..cursor.left() {
            if cursor.is_at_end_of_block() {
                break;
            }
            if !cursor.eat(Mark::Semicolon) {
                let first = cursor.left();
                match self.ended_statement(cursor) {
                    Ok(statement) => statements.push(statement)?,
                    Err(error) => cursor.recover(first, error)?,
                }
            }
        }
        Ok(statements)
    }

    /// A statement with the semicolon after it, which it needs unless it ends with a block.
    pub(crate) fn ended_statement(&self, cursor: &mut Cursor) -> Result<Expr, CompileError>
        requires { (c : _) (least : _) → F.pre self.now.reads c self.now.depth least }
    {
        let statement = self.statement(cursor)?;
        if cursor.eat(Mark::Semicolon)
            || ends_itself(&statement.form)
            || cursor.is_at_end_of_block()
        {
            Ok(statement)
        } else {
            Err(cursor.expected(Thing::Semicolon))
        }
    }

    pub(crate) fn statement(&self, cursor: &mut Cursor) -> Result<Expr, CompileError>
        requires { (c : _) (least : _) → F.pre self.now.reads c self.now.depth least }
    {
        let place = cursor.place();
        match cursor.peek().kind {
            Kind::Mark(Mark::Let) => self.declaration(cursor, place, false),
            Kind::Mark(Mark::Const) => self.declaration(cursor, place, true),
            Kind::Mark(Mark::Fn | Mark::Private) => Err(cursor.fault(Problem::Expected(
                Thing::Statement,
            ))),
            Kind::Mark(Mark::Import) => Err(cursor.fault(Problem::NotAtTop(Thing::Import))),
            Kind::Mark(Mark::Export) => Err(cursor.fault(Problem::NotAtTop(Thing::Export))),
            Kind::Mark(mark) if begins_block(mark) => self.expr(cursor, STATEMENT),
            Kind::Mark(mark) if leaves(mark) => self.leaving(cursor, place, mark),
            _ => self.assignment(cursor, place),
        }
    }

    /// A variable or a constant.
    fn declaration(
        &self,
        cursor: &mut Cursor,
        place: Site,
        is_const: bool,
    ) -> Result<Expr, CompileError>
        requires { (c : _) (least : _) → F.pre self.now.reads c self.now.depth least }
    {
        cursor.go();
        let name = cursor.binding(Thing::VariableName)?;
        let value = if cursor.is_at_assign() {
            cursor.go();
            Some(self.boxed(cursor, 0)?)
        } else {
            None
        };
        Ok(cursor.expr(place, Form::Let(name, is_const, value)))
    }

    /// What leaves a loop or a function.
    fn leaving(&self, cursor: &mut Cursor, place: Site, mark: Mark) -> Result<Expr, CompileError>
        requires { (c : _) (least : _) → F.pre self.now.reads c self.now.depth least }
    {
        cursor.go();
        if mark == Mark::Continue {
            return Ok(cursor.expr(place, Form::Continue));
        }
        let value = if cursor.is_at_end_of_value() {
            None
        } else {
            Some(self.boxed(cursor, 0)?)
        };
        if mark == Mark::Throw && value.is_none() {
            cursor.rethrows = cursor.rethrows.saturating_add(1);
        }
        let form = match mark {
            Mark::Return => Form::Return(value),
            Mark::Throw => Form::Throw(value),
            _ => Form::Break(value),
        };
        Ok(cursor.expr(place, form))
    }

    /// An expression, or an assignment to one.
    fn assignment(&self, cursor: &mut Cursor, place: Site) -> Result<Expr, CompileError>
        requires { (c : _) (least : _) → F.pre self.now.reads c self.now.depth least }
    {
        let target = self.expr(cursor, 0)?;
        match cursor.peek().kind {
            Kind::Assign(operator) => self.assigned(cursor, place, target, operator),
            _ => Ok(target),
        }
    }

    /// The assignment to an expression, at its operator.
    fn assigned(
        &self,
        cursor: &mut Cursor,
        place: Site,
        target: Expr,
        operator: Option<Operator>,
    ) -> Result<Expr, CompileError>
        requires { (c : _) (least : _) → F.pre self.now.reads c self.now.depth least }
    {
        if !can_be_assigned(&target.form) {
            return Err(CompileError::new(place, Problem::NotAssignable));
        }
        let target = cursor.boxed(target)?;
        let at = cursor.place();
        cursor.go();
        let value = self.boxed(cursor, 0)?;
        Ok(cursor.expr(at, Form::Assign(target, operator, value)))
    }

    /// What has a block.
    pub(crate) fn compound(
        &self,
        cursor: &mut Cursor,
        place: Site,
        mark: Mark,
    ) -> Result<Expr, CompileError>
        requires { (c : _) (least : _) → F.pre self.now.reads c self.now.depth least }
    {
        match mark {
            Mark::LeftBrace => {
                let statements = self.block(cursor)?;
                Ok(cursor.expr(place, Form::Block(statements)))
            }
            Mark::If => self.choice(cursor, place),
            Mark::Switch => self.switch(cursor, place),
            Mark::Try => self.tried(cursor, place),
            Mark::While | Mark::Loop | Mark::Do => self.repeated(cursor, place, mark),
            Mark::For => self.walk(cursor, place),
            Mark::Reserved(word) => Err(CompileError::new(place, Problem::Reserved(word))),
            _ => Err(CompileError::new(place, Problem::Expected(Thing::Expression))),
        }
    }

    fn choice(&self, cursor: &mut Cursor, place: Site) -> Result<Expr, CompileError>
        requires { (c : _) (least : _) → F.pre self.now.reads c self.now.depth least }
    {
        let mut branches = Vec::new(cursor.alloc);
        for _turn in 0..cursor.left() {
            if !cursor.eat(Mark::If) {
                break;
            }
            branches.push(self.branch(cursor)?)?;
            if !cursor.eat(Mark::Else) {
                let otherwise = Vec::new(cursor.alloc);
                return Ok(cursor.expr(place, Form::If(branches, otherwise)));
            }
        }
        let otherwise = self.block(cursor)?;
        Ok(cursor.expr(place, Form::If(branches, otherwise)))
    }

    fn branch(&self, cursor: &mut Cursor) -> Result<Branch, CompileError>
        requires { (c : _) (least : _) → F.pre self.now.reads c self.now.depth least }
    {
        let condition = self.expr(cursor, 0)?;
        cursor.check_condition()?;
        let body = self.block(cursor)?;
        Ok(Branch { condition, body })
    }

    fn repeated(&self, cursor: &mut Cursor, place: Site, mark: Mark) -> Result<Expr, CompileError>
        requires { (c : _) (least : _) → F.pre self.now.reads c self.now.depth least }
    {
        cursor.go();
        let form = match mark {
            Mark::While => {
                let condition = self.boxed(cursor, 0)?;
                cursor.check_condition()?;
                Form::While(condition, self.block(cursor)?)
            }
            Mark::Do => self.done(cursor)?,
            _ => Form::Loop(self.block(cursor)?),
        };
        Ok(cursor.expr(place, form))
    }

    /// A loop with its condition after it.
    fn done(&self, cursor: &mut Cursor) -> Result<Form, CompileError>
        requires { (c : _) (least : _) → F.pre self.now.reads c self.now.depth least }
    {
        let body = self.block(cursor)?;
        let goes_on = cursor.eat(Mark::While);
        if !goes_on {
            cursor.expect(Mark::Until, Thing::WhileOrUntil)?;
        }
        Ok(Form::Do(body, self.boxed(cursor, 0)?, goes_on))
    }

    /// A loop over the items of a value.
    fn walk(&self, cursor: &mut Cursor, place: Site) -> Result<Expr, CompileError>
        requires { (c : _) (least : _) → F.pre self.now.reads c self.now.depth least }
    {
        cursor.go();
        let (name, counter) = walked_names(cursor)?;
        let items = match cursor.peek().kind {
            Kind::Operator(Operator::In) => {
                cursor.go();
                self.boxed(cursor, 0)?
            }
            _ => return Err(cursor.fault(Problem::Expected(Thing::In))),
        };
        let body = self.block(cursor)?;
        Ok(cursor.expr(place, Form::For(name, counter, items, body)))
    }

    fn tried(&self, cursor: &mut Cursor, place: Site) -> Result<Expr, CompileError>
        requires { (c : _) (least : _) → F.pre self.now.reads c self.now.depth least }
    {
        cursor.go();
        let body = self.block(cursor)?;
        cursor.expect(Mark::Catch, Thing::Catch)?;
        let name = if cursor.eat(Mark::LeftParen) {
            let name = cursor.binding(Thing::VariableName)?;
            cursor.expect(Mark::RightParen, Thing::RightParen)?;
            Some(name)
        } else {
            None
        };
        let before = cursor.rethrows;
        let catching = self.block(cursor)?;
        let rethrows = cursor.rethrows > before;
        Ok(cursor.expr(place, Form::Try(body, Catch { name, rethrows }, catching)))
    }

    fn switch(&self, cursor: &mut Cursor, place: Site) -> Result<Expr, CompileError>
        requires { (c : _) (least : _) → F.pre self.now.reads c self.now.depth least }
    {
        cursor.go();
        let subject = self.boxed(cursor, 0)?;
        let opened = cursor.place();
        cursor.expect(Mark::LeftBrace, Thing::LeftBrace)?;
        let arms = self.arms(cursor, opened)?;
        Ok(cursor.expr(place, Form::Switch(subject, arms)))
    }

    /// The arms of a switch, up to its brace.
    fn arms(&self, cursor: &mut Cursor, opened: Site) -> Result<Vec<Arm>, CompileError>
        requires { (c : _) (least : _) → F.pre self.now.reads c self.now.depth least }
    {
        let mut arms: Vec<Arm> = Vec::new(cursor.alloc);
        for _turn in 0..cursor.left() {
            if cursor.eat(Mark::RightBrace) {
                return Ok(arms);
            }
            check_no_default(cursor, &arms)?;
            let arm = self.arm(cursor)?;
            let is_closed = ends_itself(&arm.body.form);
            arms.push(arm)?;
            if !cursor.eat(Mark::Comma) && !is_closed {
                cursor.expect(Mark::RightBrace, Thing::CommaOrBrace)?;
                return Ok(arms);
            }
        }
        Err(cursor.fault(Problem::Unclosed(Thing::RightBrace, opened)))
    }

    fn arm(&self, cursor: &mut Cursor) -> Result<Arm, CompileError>
        requires { (c : _) (least : _) → F.pre self.now.reads c self.now.depth least }
    {
        let place = cursor.place();
        let cases = cases(cursor)?;
        let condition = self.case_condition(cursor, place, has_any(&cases))?;
        let body = self.statement(cursor)?;
        Ok(Arm {
            place,
            cases,
            condition,
            body,
        })
    }

    /// The condition of an arm, if it has one, and the arrow. An arm at this place that has the case `_` has none.
    fn case_condition(
        &self,
        cursor: &mut Cursor,
        place: Site,
        has_any: bool,
    ) -> Result<Option<Expr>, CompileError>
        requires { (c : _) (least : _) → F.pre self.now.reads c self.now.depth least }
    {
        if !cursor.eat(Mark::If) {
            cursor.expect(Mark::Arrow, Thing::Arrow)?;
            return Ok(None);
        }
        let condition = self.expr(cursor, 0)?;
        cursor.end_condition(place, has_any)?;
        Ok(Some(condition))
    }
}

/// The next arm doesn't follow that of the case `_`, unless it repeats that case.
fn check_no_default(cursor: &Cursor, arms: &[Arm]) -> Result<(), CompileError> {
    match arms.last() {
        Some(arm) if has_any(&arm.cases) && !cursor.is_at(Mark::Underscore) => {
            Err(CompileError::new(arm.place, Problem::DefaultNotLast))
        }
        _ => Ok(()),
    }
}

/// Whether one of the cases is `_`.
fn has_any(cases: &[Case]) -> bool {
    for case in cases {
        match case {
            Case::Any => return true,
            _ => {}
        }
    }
    false
}

/// Cases with `|` between them.
fn cases(cursor: &mut Cursor) -> Result<Vec<Case>, CompileError> {
    let mut cases = Vec::new(cursor.alloc);
    for _turn in 0..cursor.left() {
        cases.push(case(cursor)?)?;
        if !cursor.eat_pipe() {
            break;
        }
    }
    Ok(cases)
}

fn case(cursor: &mut Cursor) -> Result<Case, CompileError> {
    if cursor.eat(Mark::Underscore) {
        return Ok(Case::Any);
    }
    if cursor.eat_unit() {
        return Ok(Case::Value(Literal::Unit));
    }
    let from = case_literal(cursor)?;
    let is_inclusive = match cursor.peek().kind {
        Kind::Operator(Operator::Range) => false,
        Kind::Operator(Operator::RangeInclusive) => true,
        _ => return Ok(Case::Value(from)),
    };
    cursor.go();
    let to = case_literal(cursor)?;
    match (from, to) {
        (Literal::Int(from), Literal::Int(to)) => Ok(Case::Range(from, to, is_inclusive)),
        _ => Err(cursor.fault(Problem::Expected(Thing::IntegerRange))),
    }
}

fn case_literal(cursor: &mut Cursor) -> Result<Literal, CompileError> {
    let is_negative = match cursor.peek().kind {
        Kind::Operator(Operator::Minus) => true,
        _ => false,
    };
    if is_negative {
        cursor.go();
    }
    let literal = match (cursor.peek().kind, is_negative) {
        (Kind::Int(value), true) => Literal::Int(value.checked_neg().unwrap_or(i64::MIN)),
        (Kind::Int(value), false) => Literal::Int(value),
        (Kind::Float(value), true) => Literal::Float(negated(value)),
        (Kind::Float(value), false) => Literal::Float(value),
        (Kind::Char(value), false) => Literal::Char(value),
        (Kind::Text(text), false) => Literal::Text(text),
        (Kind::Mark(Mark::True), false) => Literal::Bool(true),
        (Kind::Mark(Mark::False), false) => Literal::Bool(false),
        _ => return Err(cursor.fault(Problem::Expected(Thing::CaseLiteral))),
    };
    cursor.go();
    Ok(literal)
}

/// The variable of a loop over items, and its counter.
fn walked_names(cursor: &mut Cursor) -> Result<(Binding, Option<Binding>), CompileError> {
    if !cursor.eat(Mark::LeftParen) {
        return Ok((walked_name(cursor)?, None));
    }
    let name = walked_name(cursor)?;
    cursor.expect(Mark::Comma, Thing::Comma)?;
    let counter = walked_name(cursor)?;
    cursor.expect(Mark::RightParen, Thing::RightParen)?;
    if counter.name == name.name {
        return Err(CompileError::new(counter.place, Problem::Repeated(Thing::Variable)));
    }
    Ok((name, Some(counter)))
}

fn walked_name(cursor: &mut Cursor) -> Result<Binding, CompileError> {
    let place = cursor.place();
    if cursor.eat(Mark::Underscore) {
        let name = String::from_str(cursor.alloc, "_")?;
        let name = cursor.names.index(name)?;
        return Ok(Binding { name, place });
    }
    cursor.binding(Thing::VariableName)
}

/// Whether a statement with this form needs no semicolon after it.
fn ends_itself(form: &Form) -> bool {
    match form {
        Form::Block(_) | Form::If(_, _) | Form::Switch(_, _) | Form::While(_, _) => true,
        Form::Loop(_) | Form::For(_, _, _, _) | Form::Try(_, _, _) => true,
        _ => false,
    }
}

fn can_be_assigned(form: &Form) -> bool {
    match form {
        Form::Access(root, steps) => is_variable(&root.form) && ends_in_part(steps),
        form => is_variable(form),
    }
}

fn is_variable(form: &Form) -> bool {
    match form {
        Form::Name(_) | Form::This => true,
        _ => false,
    }
}

/// Whether steps end in a part of a value.
fn ends_in_part(steps: &[Access]) -> bool {
    match steps.last() {
        Some(step) => match &step.part {
            Part::Index(_) | Part::Property(_) => true,
            Part::Method(_, _) => false,
        },
        None => false,
    }
}

fn begins_block(mark: Mark) -> bool {
    match mark {
        Mark::If | Mark::Switch | Mark::While | Mark::Loop | Mark::Do | Mark::For => true,
        Mark::Try | Mark::LeftBrace => true,
        _ => false,
    }
}

fn leaves(mark: Mark) -> bool {
    match mark {
        Mark::Return | Mark::Throw | Mark::Break | Mark::Continue => true,
        _ => false,
    }
}
