//! What is outside of blocks: functions, imports, exports, and statements.

use crate::ast::{Binding, Expr, Form, Import, Literal};
use crate::cursor::Cursor;
use crate::grammar::Grammar;
use grain_base::pos::Site;
use rhai_errors::{CompileError, Problem, Thing};
use rhai_lexer::{Kind, Mark};

impl<F: Fn(&mut Cursor, usize, u8) -> Result<Expr, CompileError>> Grammar<F> {
    /// A function, or a statement outside of functions. Of a module no statement is left.
    pub(crate) fn outermost(&self, cursor: &mut Cursor) -> Result<Option<Expr>, CompileError>
        requires { (c : _) (least : _) → F.pre self.now.reads c self.now.depth least }
    {
        let place = cursor.place();
        match cursor.peek().kind {
            Kind::Mark(Mark::Fn | Mark::Private) => {
                self.function(cursor)?;
                Ok(None)
            }
            Kind::Mark(Mark::Import) => Ok(Some(import(cursor, place)?)),
            Kind::Mark(Mark::Export) => Ok(Some(self.export(cursor, place)?)),
            Kind::Mark(Mark::Let | Mark::Const) => Ok(Some(self.global(cursor, false)?)),
            _ if cursor.is_module() => Err(cursor.fault(Problem::ModuleStatement)),
            _ => Ok(Some(self.ended_statement(cursor)?)),
        }
    }

    /// A variable or a constant outside of blocks.
    fn global(&self, cursor: &mut Cursor, is_exported: bool) -> Result<Expr, CompileError>
        requires { (c : _) (least : _) → F.pre self.now.reads c self.now.depth least }
    {
        let is_const = cursor.is_at(Mark::Const);
        let place = cursor.place();
        cursor.go();
        let name = cursor.binding(Thing::VariableName)?;
        let before = cursor.computed;
        let value = self.initial(cursor, place)?;
        let global = Global {
            place,
            name,
            is_const,
            is_made_of_literals: cursor.computed == before,
        };
        if cursor.is_module() {
            module_global(cursor, global, is_exported, value)
        } else {
            script_global(cursor, global, value)
        }
    }

    /// What a variable is declared with: unit, if nothing is said. It goes past the semicolon.
    fn initial(&self, cursor: &mut Cursor, place: Site) -> Result<Expr, CompileError>
        requires { (c : _) (least : _) → F.pre self.now.reads c self.now.depth least }
    {
        if !cursor.is_at_assign() {
            end_statement(cursor)?;
            return Ok(unit(cursor, place));
        }
        cursor.go();
        let value = self.expr(cursor, 0)?;
        end_statement(cursor)?;
        Ok(value)
    }

    /// `export`. The main text exports to nobody, but has what it exports.
    fn export(&self, cursor: &mut Cursor, place: Site) -> Result<Expr, CompileError>
        requires { (c : _) (least : _) → F.pre self.now.reads c self.now.depth least }
    {
        cursor.go();
        if cursor.is_at(Mark::Let) || cursor.is_at(Mark::Const) {
            return self.global(cursor, true);
        }
        let at = cursor.place();
        let name = cursor.name(Thing::VariableName)?;
        let shown = cursor.alias()?.unwrap_or(name);
        end_statement(cursor)?;
        let mut statements = Vec::new(cursor.alloc);
        if cursor.is_module() {
            cursor.export_value(at, name, shown)?;
        } else {
            statements.push(cursor.expr(at, Form::Name(name)))?;
        }
        statements.push(unit(cursor, at))?;
        Ok(cursor.expr(place, Form::Block(statements)))
    }
}

/// A variable or a constant outside of blocks, without its value.
#[derive(Clone, Copy)]
struct Global {
    /// Where its statement begins.
    place: Site,
    name: Binding,
    is_const: bool,
    /// Whether its value has literals alone.
    is_made_of_literals: bool,
}

/// A variable or a constant of a module: others may import it, and no statement is left of it.
fn module_global(
    cursor: &mut Cursor,
    global: Global,
    is_exported: bool,
    value: Expr,
) -> Result<Expr, CompileError> {
    if !global.is_made_of_literals {
        return Err(CompileError::new(value.place, Problem::ComputedExport));
    }
    let Binding { name, place } = global.name;
    cursor.link_value(name, global.is_const, value)?;
    if is_exported {
        cursor.export_value(place, name, name)?;
    }
    Ok(unit(cursor, global.place))
}

/// A variable or a constant of the main text.
fn script_global(cursor: &mut Cursor, global: Global, value: Expr) -> Result<Expr, CompileError> {
    let value = if global.is_const && global.is_made_of_literals {
        cursor.link_constant(global.name.name, value)?
    } else {
        value
    };
    let value = cursor.boxed(value)?;
    Ok(cursor.expr(
        global.place,
        Form::Let(global.name, global.is_const, Some(value)),
    ))
}

/// `import`, whose value is unit.
fn import(cursor: &mut Cursor, place: Site) -> Result<Expr, CompileError> {
    cursor.go();
    let at = cursor.place();
    let Kind::Text(module) = cursor.peek().kind else {
        return Err(cursor.expected(Thing::ModuleText));
    };
    cursor.go();
    let _alias = cursor.alias()?;
    end_statement(cursor)?;
    cursor.interface.imports.push(Import { place: at, module })?;
    Ok(unit(cursor, place))
}

/// Goes past the semicolon, which only the last statement of a text lacks.
fn end_statement(cursor: &mut Cursor) -> Result<(), CompileError> {
    if cursor.eat(Mark::Semicolon) || cursor.is_at_end_of_block() {
        Ok(())
    } else {
        Err(cursor.expected(Thing::Semicolon))
    }
}

/// Unit, as an expression.
fn unit(cursor: &mut Cursor, place: Site) -> Expr {
    cursor.expr(place, Form::Literal(Literal::Unit))
}
