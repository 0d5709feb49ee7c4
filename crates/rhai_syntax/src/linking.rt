//! How the texts of a program are linked by names. A text is scanned once before it is parsed, since a function may be called, and
//! an import used, before it is declared.

use crate::ast::{Constant, Expr, Form, Literal, ModuleCall};
use crate::cursor::Cursor;
use crate::recovery::depth_behind;
use grain_base::pos::Site;
use rhai_errors::{CompileError, Problem, Thing};
use rhai_lexer::{Kind, Mark};
use std::alloc::AllocError;

/// The namespace of the constants of the top level.
const GLOBAL: &'static str = "global";

/// The word between a module and the name that the text gives it.
const AS: &'static str = "as";

impl Cursor {
    /// Whether the text is a module.
    pub(crate) fn is_module(&self) -> bool {
        self.links.module.is_some()
    }

    /// Scans the whole text, in one pass, for what it declares and imports outside of blocks.
    pub(crate) fn look_ahead(&mut self) -> Result<(), CompileError> {
        let mut depth: usize = 0;
        for index in 0..self.left() {
            let lexeme = self.ahead(index);
            depth = depth_behind(depth, lexeme);
            match lexeme.kind {
                Kind::Mark(Mark::Fn) if depth == 0 => self.foresee_function(index)?,
                Kind::Mark(Mark::Import) if depth == 0 => self.foresee_import(index)?,
                Kind::Mark(Mark::Let | Mark::Const) if depth == 0 => {
                    self.foresee_declaration(index)?;
                }
                Kind::Mark(Mark::DoubleColon) => self.foresee_global(index)?,
                _ => {}
            }
        }
        Ok(())
    }

    /// The name this far after the next lexeme, if there is one.
    fn name_ahead(&self, ahead: usize) -> Option<u32> {
        match self.ahead(ahead).kind {
            Kind::Name(name) => Some(name),
            _ => None,
        }
    }

    /// A function of a module is declared.
    fn foresee_function(&mut self, index: usize) -> Result<(), CompileError> {
        if !self.is_module() {
            return Ok(());
        }
        let at = match self.ahead(index.saturating_add(2)).kind {
            Kind::Mark(Mark::Dot) => index.saturating_add(3),
            _ => index.saturating_add(1),
        };
        let Some(name) = self.name_ahead(at) else {
            return Ok(());
        };
        let count = self.count_params(at.saturating_add(1));
        let linked = self.name_in_program(name)?;
        let _ = self.links.own.insert((name, count), linked)?;
        let _ = self.links.own_names.insert(name, linked)?;
        Ok(())
    }

    /// How many names there are between parentheses.
    fn count_params(&self, from: usize) -> usize {
        let mut count: usize = 0;
        for ahead in from..self.left() {
            match self.ahead(ahead).kind {
                Kind::Name(_) => count = count.saturating_add(1),
                Kind::Mark(Mark::LeftParen | Mark::Comma) => {}
                _ => break,
            }
        }
        count
    }

    /// A module is imported.
    fn foresee_import(&mut self, index: usize) -> Result<(), CompileError> {
        let Kind::Text(module) = self.ahead(index.saturating_add(1)).kind else {
            return Ok(());
        };
        let Some(word) = self.name_ahead(index.saturating_add(2)) else {
            return Ok(());
        };
        let at = index.saturating_add(3);
        if self.names.get(word) == AS
            && let Some(alias) = self.name_ahead(at)
            && self.links.aliases.insert(alias, module)?.is_some()
        {
            return Err(CompileError::new(self.ahead(at).place, Problem::Repeated(Thing::Alias)));
        }
        Ok(())
    }

    /// A variable or a constant is declared.
    fn foresee_declaration(&mut self, index: usize) -> Result<(), AllocError> {
        if let Some(name) = self.name_ahead(index.saturating_add(1))
            && !self.links.declared.insert(name)?
        {
            let _ = self.links.repeated.insert(name)?;
        }
        Ok(())
    }

    /// A constant of the top level is read, maybe by a function.
    fn foresee_global(&mut self, index: usize) -> Result<(), AllocError> {
        if let Some(before) = index.checked_sub(1)
            && let Some(space) = self.name_ahead(before)
            && self.names.get(space) == GLOBAL
            && let Some(name) = self.name_ahead(index.saturating_add(1))
        {
            let _ = self.links.globals.insert(name)?;
        }
        Ok(())
    }

    /// The name that a function of this text has in the program. No text can contain the name of a function of a module.
    pub(crate) fn name_in_program(&mut self, name: u32) -> Result<u32, CompileError> {
        let Some(module) = &self.links.module else {
            return Ok(name);
        };
        let name = self.names.get(name);
        let joined = format!(in self.alloc; "{module}::{name}")?;
        self.names.index(joined)
    }

    /// The name in the program of a constant, or of the function that computes it. No text can contain it.
    fn constant_in_program(&mut self, name: u32) -> Result<u32, CompileError> {
        let name = self.names.get(name);
        let joined = match &self.links.module {
            Some(module) => format!(in self.alloc; "{module}::const {name}")?,
            None => format!(in self.alloc; "const {name}")?,
        };
        self.names.index(joined)
    }

    /// The name in the program of the function that a call of this name with this many arguments reaches: in a module its own
    /// function, if it has one.
    pub(crate) fn called(&self, name: u32, count: usize) -> u32 {
        match self.links.own.get(&(name, count)) {
            Some(linked) => *linked,
            None => name,
        }
    }

    /// In a module `Fn("name")` is a pointer to its own function of this name, if it has one: the name of that function in the
    /// program.
    pub(crate) fn pointed_to(&self, name: u32, arguments: &[Expr]) -> Option<u32> {
        let [argument] = arguments else {
            return None;
        };
        let Form::Literal(Literal::Text(text)) = &argument.form else {
            return None;
        };
        if self.names.get(name) != "Fn" {
            return None;
        }
        let name = self.names.find(self.texts.get(*text))?;
        self.links.own_names.get(&name).copied()
    }

    /// The name in the program of a function or constant that a module has for others. The module is given by the name that
    /// this text has for it, which is at the place.
    fn member_in_program(
        &mut self,
        place: Site,
        alias: u32,
        name: u32,
    ) -> Result<u32, CompileError> {
        let Some(module) = self.links.aliases.get(&alias) else {
            return Err(CompileError::new(place, Problem::UnknownModule));
        };
        let module = self.texts.get(*module);
        let name = self.names.get(name);
        let joined = format!(in self.alloc; "{module}::{name}")?;
        self.names.index(joined)
    }

    /// A call of a function of a module. It is tested later whether the module has it.
    pub(crate) fn module_call(
        &mut self,
        place: Site,
        alias: u32,
        name: u32,
        arguments: Vec<Expr>,
    ) -> Result<Expr, CompileError> {
        let name = self.member_in_program(place, alias, name)?;
        let argc = arguments.len();
        self.interface.calls.push(ModuleCall { place, name, argc })?;
        Ok(self.expr(place, Form::Call(name, arguments)))
    }

    /// A constant of a module, or of the top level of this text.
    pub(crate) fn module_constant(
        &mut self,
        place: Site,
        space: u32,
        name: u32,
    ) -> Result<Expr, CompileError> {
        let is_global = self.names.get(space) == GLOBAL;
        let name = if !is_global {
            self.member_in_program(place, space, name)?
        } else if self.is_module() {
            self.constant_in_program(name)?
        } else {
            name
        };
        Ok(self.expr(place, Form::Qualified(space, name)))
    }

    /// Whether a constant of the main text is read as `global::NAME`, and is declared once.
    fn is_global(&self, name: u32) -> bool {
        self.links.globals.contains(&name) && !self.links.repeated.contains(&name)
    }

    /// Makes a function of no parameters, which computes a constant out of literals, and returns its name.
    fn computing(&mut self, name: u32, value: Expr) -> Result<u32, CompileError> {
        let name = self.constant_in_program(name)?;
        let place = value.place;
        let mut body = Vec::new(self.alloc);
        body.push(value)?;
        self.add_hidden_function(place, name, body)?;
        Ok(name)
    }

    /// A constant of the main text. If functions read it and it isn't a literal, a function computes it.
    pub(crate) fn link_constant(&mut self, name: u32, value: Expr) -> Result<Expr, CompileError> {
        match &value.form {
            Form::Literal(_) => return Ok(value),
            _ if !self.is_global(name) => return Ok(value),
            _ => {}
        }
        let place = value.place;
        let function = self.computing(name, value)?;
        let _ = self
            .interface
            .constants
            .insert(name, Constant::Computed(function))?;
        let arguments = Vec::new(self.alloc);
        Ok(self.expr(place, Form::Call(function, arguments)))
    }

    /// A variable or constant of a module.
    pub(crate) fn link_value(
        &mut self,
        name: u32,
        is_const: bool,
        value: Expr,
    ) -> Result<(), CompileError> {
        let constant = self.constant(name, value)?;
        if is_const {
            let linked = self.constant_in_program(name)?;
            let _ = self.interface.constants.insert(linked, constant)?;
        }
        let _ = self.links.values.insert(name, constant)?;
        Ok(())
    }

    /// The constant of an exported value: a literal, or the function that computes it.
    fn constant(&mut self, name: u32, value: Expr) -> Result<Constant, CompileError> {
        if let Form::Literal(literal) = &value.form {
            return Ok(Constant::Literal(*literal));
        }
        Ok(Constant::Computed(self.computing(name, value)?))
    }

    /// A module exports a variable or constant under a name.
    ///
    /// # Errors
    /// No such variable or constant is declared yet, or the allocator refused.
    pub(crate) fn export_value(
        &mut self,
        place: Site,
        name: u32,
        shown: u32,
    ) -> Result<(), CompileError> {
        let Some(constant) = self.links.values.get(&name).copied() else {
            return Err(CompileError::new(place, Problem::UnknownVariable(Site::NONE)));
        };
        let linked = self.name_in_program(shown)?;
        let _ = self.interface.constants.insert(linked, constant)?;
        Ok(())
    }

    /// Skips `as` and a name, if these come next, and returns the name.
    pub(crate) fn alias(&mut self) -> Result<Option<u32>, CompileError> {
        match self.name_ahead(0) {
            Some(word) if self.names.get(word) == AS => {
                self.go();
                Ok(Some(self.name(Thing::Name)?))
            }
            _ => Ok(None),
        }
    }
}
