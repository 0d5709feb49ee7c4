//! Going on after an error, so that one look at a text shows more than its first error.

use crate::cursor::Cursor;
use rhai_errors::{CompileError, Problem};
use rhai_lexer::{Kind, Lexeme, Mark};
use std::alloc::AllocError;
use std::mem;

/// How many errors of a text are looked for.
pub const MAX_FLAWS: usize = 20;

impl Cursor {
    /// Notes what is wrong with the statement that began when this many lexemes were left, and goes to its end.
    ///
    /// It returns the error where nothing else can be said: if memory ran out, if enough was said, and at the end of the
    /// text, if an error may only be what follows of another one.
    pub(crate) fn recover(
        &mut self,
        first: usize,
        error: CompileError,
    ) -> Result<(), CompileError> {
        let is_last = self.is_at(Mark::End);
        if error.problem == Problem::OutOfMemory || self.flaws.len() >= MAX_FLAWS {
            return Err(error);
        }
        if is_last && !self.flaws.is_empty() {
            return Err(error);
        }
        self.flaws.push(error)?;
        if is_last || self.flaws.len() >= MAX_FLAWS {
            return Err(error);
        }
        self.go_to_end_of_statement(first);
        Ok(())
    }

    /// Nothing is wrong so far.
    pub(crate) fn check_flaws(&self) -> Result<(), CompileError> {
        match self.flaws.first() {
            Some(error) => Err(*error),
            None => Ok(()),
        }
    }

    /// What is wrong: what was noted, or else this error, at which reading ended.
    pub(crate) fn into_flaws(
        mut self,
        error: CompileError,
    ) -> Result<Vec<CompileError>, AllocError> {
        if error.problem == Problem::OutOfMemory {
            return Err(AllocError);
        }
        let mut flaws = mem::replace(&mut self.flaws, Vec::new(self.alloc));
        if flaws.is_empty() {
            flaws.push(error)?;
        }
        Ok(flaws)
    }

    /// Goes behind the statement that began when this many lexemes were left, at least by one lexeme. Braces in it are passed
    /// with what they enclose, and the brace that closes the block around it isn't.
    fn go_to_end_of_statement(&mut self, first: usize) {
        let seen = first.saturating_sub(self.left());
        let mut depth = self.open_braces(seen);
        for turn in 0..self.left() {
            let lexeme = self.peek();
            if depth == 0 && closes(lexeme) && (turn > 0 || seen > 0) {
                return;
            }
            depth = depth_behind(depth, lexeme);
            self.go();
            if depth == 0
                && (is_semicolon(lexeme) || closes(lexeme) && self.may_begin_statement())
            {
                return;
            }
        }
    }

    /// How many braces are open behind the last lexemes, of which there are this many.
    fn open_braces(&self, seen: usize) -> usize {
        let mut depth = 0usize;
        for back in 0..seen {
            depth = depth_behind(depth, self.behind(seen - back));
        }
        depth
    }

    /// Whether a statement may begin with the next lexeme, which is none that goes on with one.
    fn may_begin_statement(&self) -> bool {
        match self.peek().kind {
            Kind::Name(_) => true,
            Kind::Mark(
                Mark::Let
                | Mark::Const
                | Mark::Fn
                | Mark::Private
                | Mark::If
                | Mark::For
                | Mark::Return
                | Mark::Import
                | Mark::Export,
            ) => true,
            Kind::Mark(
                Mark::Loop | Mark::Do | Mark::Switch | Mark::Try | Mark::Throw | Mark::End,
            ) => true,
            Kind::Mark(Mark::RightBrace | Mark::Break | Mark::Continue | Mark::This) => true,
            _ => false,
        }
    }
}

/// How many braces are open behind a lexeme.
pub(crate) fn depth_behind(depth: usize, lexeme: Lexeme) -> usize {
    match lexeme.kind {
        Kind::Mark(Mark::LeftBrace | Mark::MapBrace) | Kind::FirstPiece(_) => {
            depth.saturating_add(1)
        }
        Kind::Mark(Mark::RightBrace) | Kind::LastPiece(_) => depth.saturating_sub(1),
        _ => depth,
    }
}

/// Whether a lexeme closes a block.
fn closes(lexeme: Lexeme) -> bool {
    match lexeme.kind {
        Kind::Mark(Mark::RightBrace | Mark::End) => true,
        Kind::NextPiece(_) | Kind::LastPiece(_) => true,
        _ => false,
    }
}

fn is_semicolon(lexeme: Lexeme) -> bool {
    match lexeme.kind {
        Kind::Mark(mark) => mark == Mark::Semicolon,
        _ => false,
    }
}
