//! Single operations.
ghost use Rattle.std.specs.Prelude.{◌≡◌, ◌+◌, ◌-◌, ◌≤◌, IfOk, OnOk, Some, slice_get};
ghost use Rattle.grain_rules.specs.Flow.{Falls};
ghost use Rattle.grain_rules.specs.Rows.{flow_of};
ghost use Rattle.grain_builder.specs.Fitting.{HasEffect};
ghost use Rattle.grain_builder.specs.Unfinished.{spot};
ghost use Rattle.rhai_emit.specs.Loops.{count};
ghost use Rattle.rhai_emit.specs.Rules.{IsWritten, AddsPlaces};
ghost use Rattle.rhai_emit.specs.Places.{here};

use crate::emitter::Emitter;
use crate::operators::token;
use grain_base::pos::Site;
use grain_code::{Field, Op, Pool};
use rhai_errors::{CompileError, Problem, Thing};
use rhai_lexer::Operator;
use rhai_syntax::Literal;

/// Code has an index into a pool as two bytes.
const MAX_INDEX: u32 = 65535;

impl Emitter {
    /// One more operation that falls through, and takes and gives this many operands.
    ///
    /// # Errors
    /// There are more operands than a chunk can declare, an index is larger than code can have, or the allocator refused.
    pub fn put(
        &mut self,
        place: Site,
        op: Op,
        takes: usize,
        gives: usize,
    ) -> Result<(), CompileError>
        requires falls { flow_of op ≡ Falls }
        requires does { HasEffect op self.old.code.operands takes gives }
        requires room { self.old.code.level.floor + takes ≤ self.old.code.operands }
        ensures written { OnOk result (IsWritten self.old self.new (self.old.code.operands - takes + gives)) }
        ensures placed { OnOk result (AddsPlaces self.old self.new (here place)) }
    {
        check_indices(place, &op)?;
        self.code.put(place, op, takes, gives)
    }

    /// Jumps to a label if the condition on top is that truth value.
    pub fn jump_where(&mut self, place: Site, is_so: bool, target: u32) -> Result<(), CompileError>
        requires room { self.old.code.level.floor + 1 ≤ self.old.code.operands }
        requires there { slice_get self.old.code.labels target
            ≡ Some (spot (self.old.code.operands - 1) self.old.code.level) }
        ensures written { OnOk result (IsWritten self.old self.new (self.old.code.operands - 1)) }
        ensures placed { OnOk result (AddsPlaces self.old self.new (here place)) }
    {
        if is_so {
            self.code
                .branch(place, Op::JumpIfTrue { target }, target, 1)
        } else {
            self.code
                .branch(place, Op::JumpIfFalse { target }, target, 1)
        }
    }

    /// The value that was given last is dropped if it isn't wanted.
    pub fn given(&mut self, place: Site, is_wanted: bool) -> Result<(), CompileError>
        requires { self.old.code.level.floor + 1 ≤ self.old.code.operands }
        ensures written { OnOk result (IsWritten self.old self.new (self.old.code.operands - 1 + count is_wanted)) }
        ensures placed { OnOk result (AddsPlaces self.old self.new (here place)) }
    {
        if is_wanted {
            return Ok(());
        }
        self.put(place, Op::Pop, 1, 0)
    }

    /// What gives nothing gives unit if a value is wanted.
    pub fn nothing(&mut self, place: Site, is_wanted: bool) -> Result<(), CompileError>
        requires { self.old.code.level.floor ≤ self.old.code.operands }
        ensures written { OnOk result (IsWritten self.old self.new (self.old.code.operands + count is_wanted)) }
        ensures placed { OnOk result (AddsPlaces self.old self.new (here place)) }
    {
        if is_wanted {
            return self.put(place, Op::Unit, 0, 1);
        }
        Ok(())
    }

    /// The value of a literal.
    pub fn literal(&mut self, place: Site, literal: Literal) -> Result<(), CompileError>
        requires { self.old.code.level.floor ≤ self.old.code.operands }
        ensures written { OnOk result (IsWritten self.old self.new (self.old.code.operands + 1)) }
        ensures placed { OnOk result (AddsPlaces self.old self.new (here place)) }
    {
        match literal {
            Literal::Unit => self.put(place, Op::Unit, 0, 1),
            Literal::Bool(value) => self.put(place, Op::Bool(value), 0, 1),
            literal => {
                let constant = self.pools.constant(literal)?;
                self.put(place, Op::Const(constant), 0, 1)
            }
        }
    }

    /// Calls the function of an operator.
    pub fn operate(&mut self, place: Site, operator: Operator, argc: u8) -> Result<(), CompileError>
        requires { self.old.code.level.floor + argc ≤ self.old.code.operands }
        ensures written { OnOk result (IsWritten self.old self.new (self.old.code.operands - argc + 1)) }
        ensures placed { OnOk result (AddsPlaces self.old self.new (here place)) }
    {
        let name = self.pools.name(token(operator).syntax())?;
        let token = self.pools.token(operator)?;
        let call = Op::Call {
            name,
            argc,
            op: Some(token),
            capture_parent_scope: false,
        };
        self.put(place, call, usize::from(argc), 1)
    }

    /// Calls a function by its name.
    pub fn call(&mut self, place: Site, name: u32, argc: u8) -> Result<(), CompileError>
        requires { self.old.code.level.floor + argc ≤ self.old.code.operands }
        ensures written { OnOk result (IsWritten self.old self.new (self.old.code.operands - argc + 1)) }
        ensures placed { OnOk result (AddsPlaces self.old self.new (here place)) }
    {
        let call = Op::Call {
            name,
            argc,
            op: None,
            capture_parent_scope: false,
        };
        self.put(place, call, usize::from(argc), 1)
    }
}

/// Each index of the operation is one that code can have.
fn check_indices(place: Site, op: &Op) -> Result<(), CompileError> {
    for field in op.fields().as_slice() {
        if let Field::Index(pool, index) = *field {
            check_index(place, pool, index)?;
        }
    }
    Ok(())
}

/// An index that code can have.
pub(crate) fn check_index(place: Site, pool: Pool, index: u32) -> Result<(), CompileError> {
    if index > MAX_INDEX {
        return Err(CompileError::new(place, Problem::TooMany(entries_of(pool))));
    }
    Ok(())
}

/// What a pool has.
fn entries_of(pool: Pool) -> Thing {
    match pool {
        Pool::Constants => Thing::Constants,
        Pool::Names => Thing::Names,
        Pool::Operators | Pool::OpAssignments => Thing::Operators,
        Pool::Chains => Thing::Chains,
        Pool::Switches => Thing::Switches,
        Pool::Fragments | Pool::SyntaxSites => Thing::Operations,
    }
}

/// A count of arguments as code has it.
pub fn argc_of(place: Site, count: usize) -> Result<u8, CompileError>
    ensures { IfOk result (λ n. n ≡ count) }
{
    match u8::try_from(count) {
        Ok(argc) => Ok(argc),
        Err(_) => Err(CompileError::new(place, Problem::TooMany(Thing::Arguments))),
    }
}

/// A count of items as code has it.
pub fn len_of(place: Site, count: usize) -> Result<u16, CompileError>
    ensures { IfOk result (λ n. n ≡ count) }
{
    match u16::try_from(count) {
        Ok(len) => Ok(len),
        Err(_) => Err(CompileError::new(place, Problem::TooMany(Thing::Items))),
    }
}

/// This many operands, and a value if one is wanted.
pub fn height_with(height: usize, is_wanted: bool) -> usize
    requires { height ≤ 65535 }
    ensures { result ≡ height + count is_wanted }
{
    if is_wanted { height + 1 } else { height }
}
