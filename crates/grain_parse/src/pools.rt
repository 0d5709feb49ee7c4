//! The pools of a program while its text is read. What is written in place gets an entry, unless there is the same already.
ghost use Rattle.std.specs.Prelude.{◌≡◌, ◌+◌, IfOk, IfSome, string_bytes};
ghost use Rattle.std.specs.Bool.{OnTrue};
ghost use Rattle.grain_base.specs.Tokens.{token_parts};
ghost use Rattle.grain_base.specs.View.{content};
ghost use Rattle.grain_parse.specs.Drafted.{HasNoEntry};
ghost use Rattle.grain_parse.specs.Entries.{AreSameAssignOps, Enters, HasEntryAt, IsMadeOf, ReadsAssignOpEntry, ReadsAssignOpIndex, ReadsConstantIndex, ReadsNameIndex, ReadsOperatorIndex};

use crate::values::{MAX_DEPTH, read_value};
use grain_base::{Dynamic, Token};
use grain_lexer::{LineCursor, LineProblem, LineStop, is_same, read_text_or_word, read_token};
use grain_pools::{AssignOp, Chain, Switch};
use grain_print::token_spelled;
use std::alloc::Global;

/// The pools that instructions point into.
#[derive(Drop)]
pub(crate) struct Pools {
    pub alloc: Global,
    pub names: Vec<String>,
    pub consts: Vec<Dynamic>,
    pub tokens: Vec<Token>,
    pub assign_ops: Vec<AssignOp>,
    pub chains: Vec<Chain>,
    pub switches: Vec<Switch>,
}

/// The index of the last entry of a pool of this length.
fn last(count: usize) -> Result<u32, LineStop>
    ensures { IfOk result (λ last. last + 1 ≡ count) }
{
    match count.checked_sub(1) {
        Some(last) => index_of(last),
        None => Err(LineStop::Fault(LineProblem::TooWide)),
    }
}

/// The index at a place.
fn index_of(place: usize) -> Result<u32, LineStop>
    ensures { IfOk result (λ index. index ≡ place) }
{
    match u32::try_from(place) {
        Ok(index) => Ok(index),
        Err(_) => Err(LineStop::Fault(LineProblem::TooWide)),
    }
}

/// Whether a value holds no other, so that one entry serves all that are equal to it.
fn is_plain(value: &Dynamic) -> bool {
    match value {
        Dynamic::Array(_)
        | Dynamic::Map(_)
        | Dynamic::FnPtr(_)
        | Dynamic::Shared(_)
        | Dynamic::Host(_) => false,
        _ => true,
    }
}

/// The place of this name.
fn place_of_name(names: &[String], name: &str) -> Option<usize>
    ensures { IfSome result (HasEntryAt (λ other. string_bytes other ≡ name.now) names.now) }
{
    names.iter().position(|other| other.as_str() == name)
}

/// The place of a constant that is the same, neither under a mark that it is shared nor holding another value.
fn place_of_constant(consts: &[Dynamic], value: &Dynamic) -> Option<usize>
    ensures { IfSome result (HasEntryAt (λ other. content other ≡ content value.now) consts.now) }
{
    consts
        .iter()
        .position(|constant| is_plain(constant) && *constant == *value)
}

/// The place of this operator.
fn place_of_token(tokens: &[Token], token: &Token) -> Option<usize>
    ensures { IfSome result (HasEntryAt
        (λ other. token_parts other ≡ token_parts token.now) tokens.now) }
{
    tokens.iter().position(|other| is_same(other, token))
}

/// Whether two op-assignments are the same.
fn is_same_assign_op(one: &AssignOp, other: &AssignOp) -> bool
    ensures { OnTrue result (AreSameAssignOps one.now other.now) }
{
    is_same(&one.op_assign, &other.op_assign)
        && one.op_assign_name == other.op_assign_name
        && is_same(&one.op, &other.op)
        && one.op_name == other.op_name
}

/// The place of this op-assignment.
fn place_of_assign_op(assign_ops: &[AssignOp], assign_op: &AssignOp) -> Option<usize>
    ensures { IfSome result (HasEntryAt
        (λ other. AreSameAssignOps other assign_op.now) assign_ops.now) }
{
    assign_ops
        .iter()
        .position(|other| is_same_assign_op(other, assign_op))
}

impl Pools {
    /// Pools without entries.
    pub fn new(alloc: Global) -> Pools
        ensures { HasNoEntry result }
    {
        Pools {
            alloc,
            names: Vec::new(alloc),
            consts: Vec::new(alloc),
            tokens: Vec::new(alloc),
            assign_ops: Vec::new(alloc),
            chains: Vec::new(alloc),
            switches: Vec::new(alloc),
        }
    }

    /// The index of a name, which gets an entry if it has none.
    fn name_index(&mut self, name: String) -> Result<u32, LineStop>
        ensures entered { IfOk result (Enters (λ other. string_bytes other ≡ string_bytes name)
            self.old.names.items self.new.names.items) }
        ensures assign_ops { self.new.assign_ops ≡ self.old.assign_ops }
    {
        match place_of_name(&self.names, name.as_str()) {
            Some(place) => index_of(place),
            None => {
                self.names.push(name)?;
                last(self.names.len())
            }
        }
    }

    /// The index of a constant, which gets an entry unless it is plain and there is the same.
    pub fn constant_index(&mut self, value: Dynamic) -> Result<u32, LineStop>
        ensures { IfOk result (Enters (λ other. content other ≡ content value)
            self.old.consts.items self.new.consts.items) }
    {
        match place_of_constant(&self.consts, &value) {
            Some(place) => index_of(place),
            None => {
                self.consts.push(value)?;
                last(self.consts.len())
            }
        }
    }

    /// The index of an operator, which gets an entry if it has none.
    fn token_index(&mut self, token: Token) -> Result<u32, LineStop>
        ensures { IfOk result (Enters (λ other. token_parts other ≡ token_parts token)
            self.old.tokens.items self.new.tokens.items) }
    {
        match place_of_token(&self.tokens, &token) {
            Some(place) => index_of(place),
            None => {
                self.tokens.push(token)?;
                last(self.tokens.len())
            }
        }
    }

    /// The index of an op-assignment, which gets an entry if it has none.
    fn assign_op_index(&mut self, assign_op: AssignOp) -> Result<u32, LineStop>
        ensures entered { IfOk result (Enters (λ other. AreSameAssignOps other assign_op)
            self.old.assign_ops.items self.new.assign_ops.items) }
        ensures names { self.new.names ≡ self.old.names }
    {
        match place_of_assign_op(&self.assign_ops, &assign_op) {
            Some(place) => index_of(place),
            None => {
                self.assign_ops.push(assign_op)?;
                last(self.assign_ops.len())
            }
        }
    }

    /// Reads a name: its index, or the name itself.
    pub fn read_name(&mut self, cursor: &mut LineCursor<'_>) -> Result<u32, LineStop>
        ensures { IfOk result (λ index. ReadsNameIndex cursor.old.left.now
            self.old.names.items self.new.names.items index cursor.new.left.now) }
    {
        if let Some(index) = cursor.index()? {
            return Ok(index);
        }
        let name = read_text_or_word(cursor)?;
        self.name_index(name)
    }

    /// Reads a constant: its index, or the value itself.
    pub fn read_constant(&mut self, cursor: &mut LineCursor<'_>) -> Result<u32, LineStop>
        ensures { IfOk result (λ index. ReadsConstantIndex cursor.old.left.now
            self.old.consts.items self.new.consts.items index cursor.new.left.now) }
    {
        if let Some(index) = cursor.index()? {
            return Ok(index);
        }
        let value = read_value(cursor, MAX_DEPTH)?;
        self.constant_index(value)
    }

    /// Reads an operator: its index, or the operator itself.
    pub fn read_operator(&mut self, cursor: &mut LineCursor<'_>) -> Result<u32, LineStop>
        ensures { IfOk result (λ index. ReadsOperatorIndex cursor.old.left.now
            self.old.tokens.items self.new.tokens.items index cursor.new.left.now) }
    {
        if let Some(index) = cursor.index()? {
            return Ok(index);
        }
        let token = read_token(cursor)?;
        self.token_index(token)
    }

    /// Reads an op-assignment: its index, or its operator, as `+=`, which applies the plain one under their own names.
    pub fn read_assign_op(&mut self, cursor: &mut LineCursor<'_>) -> Result<u32, LineStop>
        ensures { IfOk result (λ index. ReadsAssignOpIndex cursor.old.left.now self.new.names.items
            self.old.assign_ops.items self.new.assign_ops.items index cursor.new.left.now) }
    {
        if let Some(index) = cursor.index()? {
            return Ok(index);
        }
        let start = cursor.left;
        let spelling = cursor.spelling()?;
        match self.plain_assign_op(spelling)? {
            Some(assign_op) => self.assign_op_index(assign_op),
            None => {
                cursor.left = start;
                Err(LineStop::Fault(LineProblem::NotAssignOp))
            }
        }
    }

    /// The op-assignment of this spelling.
    fn plain_assign_op(&mut self, spelling: &str) -> Result<Option<AssignOp>, LineStop>
        ensures made { IfOk result (λ found. IfSome found
            (IsMadeOf spelling.now self.new.names.items)) }
        ensures assign_ops { self.new.assign_ops ≡ self.old.assign_ops }
    {
        let Some(op_assign) = token_spelled(spelling) else {
            return Ok(None);
        };
        let Some(op) = op_assign.base_operator() else {
            return Ok(None);
        };
        let op_assign_name = self.name_index(String::from_str(self.alloc, spelling)?)?;
        let op_name = self.name_index(String::from_str(self.alloc, op.syntax())?)?;
        Ok(Some(AssignOp {
            op_assign,
            op_assign_name,
            op,
            op_name,
        }))
    }

    /// Reads an entry of the op-assignments: the operator and its name, the operator that it applies and the name of that.
    pub fn read_assign_op_entry(
        &mut self,
        cursor: &mut LineCursor<'_>,
    ) -> Result<AssignOp, LineStop>
        ensures { IfOk result (λ entry. ReadsAssignOpEntry cursor.old.left.now
            self.old.names.items self.new.names.items entry cursor.new.left.now) }
    {
        let op_assign = read_token(cursor)?;
        let op_assign_name = self.read_name(cursor)?;
        let op = read_token(cursor)?;
        let op_name = self.read_name(cursor)?;
        Ok(AssignOp {
            op_assign,
            op_assign_name,
            op,
            op_name,
        })
    }
}
