//! The texts of operations.
ghost use Rattle.std.specs.Prelude.{◌∷◌, [], OnOk, IfErr};
ghost use Rattle.grain_pools.specs.LookedUp.{FindsAll, NamesMissing, LooksUp, assign_op_at_sought, assigned_sought, constant, name};
ghost use Rattle.grain_code.specs.OperationTexts.{called_sought, op_sought};

use crate::op::Op;
use grain_pools::Lookups;
use grain_pools::text::{
    DisassembleError, find_constant, find_name, find_token, write_assign_op_at, write_chain_at,
    write_switch_at,
};
use std::alloc::Global;

impl Op {
    /// The text of the operation: its debug text, and what its indices lead to (docs/FORMAT.md, "Texts"). It takes time by
    /// its length, and for putting the cases of a switch in order.
    ///
    /// # Errors
    ///
    /// [`DisassembleError::Missing`] for the first index that finds nothing, in the order of the text; there is no pool of
    /// sites of custom syntax. [`DisassembleError::OutOfMemory`] if an allocation failed.
    pub fn disassemble<L: Lookups>(
        &self,
        alloc: Global,
        lookups: &L,
    ) -> Result<String, DisassembleError>
        ensures ok { OnOk result (FindsAll (L.pools lookups.now) (op_sought self.now)) }
        ensures missing { IfErr result
            (NamesMissing (L.pools lookups.now) (op_sought self.now)) }
    {
        let mut out = String::new(alloc);
        write_op(&mut out, lookups, self)?;
        Ok(out)
    }
}

fn write_op<L: Lookups>(out: &mut String, lookups: &L, op: &Op) -> Result<(), DisassembleError>
    ensures { LooksUp (L.pools lookups.now) (op_sought op.now) result }
{
    match *op {
        Op::Const(index) => write_constant(out, lookups, op, index),
        Op::LoadNamed(name)
        | Op::ShareNamed(name)
        | Op::LoadSharedNamed(name)
        | Op::MakeClosure(name)
        | Op::CallRef { name, .. }
        | Op::Import { alias: name } => write_named(out, lookups, op, name),
        Op::AssignNamed {
            name,
            op: assign_op,
        }
        | Op::AssignLocal {
            var_name: name,
            op: assign_op,
            ..
        } => {
            write_named(out, lookups, op, name)?;
            write_assigned(out, lookups, assign_op)
        }
        Op::DeclareLocal {
            name,
            is_const,
            is_global,
        } => write_declared(out, lookups, op, name, is_const, is_global),
        Op::Call {
            name,
            op: operator,
            ..
        } => {
            write_named(out, lookups, op, name)?;
            write_operator(out, lookups, operator)
        }
        Op::Switch(index) => write_switch_at(out, lookups, index),
        Op::AssignThis { op: Some(index) } => write_assigned_this(out, lookups, op, index),
        Op::Chain(index) => write_chain_at(out, lookups, index),
        Op::ExportLocal { alias, .. } => write_exported(out, lookups, op, alias),
        Op::ExportNamed { name, alias } => write_exported_name(out, lookups, op, name, alias),
        Op::CustomSyntax(index) => Err(DisassembleError::Missing {
            what: "custom syntax site",
            index,
        }),
        _ => {
            write!(out, "{op:?}")?;
            Ok(())
        }
    }
}

/// Writes the operation and the constant at the index.
fn write_constant<L: Lookups>(
    out: &mut String,
    lookups: &L,
    op: &Op,
    index: u32,
) -> Result<(), DisassembleError>
    ensures { LooksUp (L.pools lookups.now) (λ _. constant index ∷ []) result }
{
    let value = find_constant(lookups, index)?;
    write!(out, "{op:?} = {value}")?;
    Ok(())
}

/// Writes the operation and the name at the index.
fn write_named<L: Lookups>(
    out: &mut String,
    lookups: &L,
    op: &Op,
    index: u32,
) -> Result<(), DisassembleError>
    ensures { LooksUp (L.pools lookups.now) (λ _. name index ∷ []) result }
{
    let name = find_name(lookups, index)?;
    write!(out, "{op:?} : {name}")?;
    Ok(())
}

/// Writes the operation, how it declares a variable, and the variable's name at the index.
fn write_declared<L: Lookups>(
    out: &mut String,
    lookups: &L,
    op: &Op,
    index: u32,
    is_const: bool,
    is_global: bool,
) -> Result<(), DisassembleError>
    ensures { LooksUp (L.pools lookups.now) (λ _. name index ∷ []) result }
{
    let keyword = if is_const { "const" } else { "let" };
    let reach = if is_global { " (global)" } else { "" };
    let name = find_name(lookups, index)?;
    write!(out, "{op:?} : {keyword} {name}{reach}")?;
    Ok(())
}

/// Writes the operation and the name at the index under which it exports.
fn write_exported<L: Lookups>(
    out: &mut String,
    lookups: &L,
    op: &Op,
    index: u32,
) -> Result<(), DisassembleError>
    ensures { LooksUp (L.pools lookups.now) (λ _. name index ∷ []) result }
{
    let alias = find_name(lookups, index)?;
    write!(out, "{op:?} : as {alias}")?;
    Ok(())
}

/// Writes the operation, the name of what it exports, and the name under which it does.
fn write_exported_name<L: Lookups>(
    out: &mut String,
    lookups: &L,
    op: &Op,
    index: u32,
    alias: u32,
) -> Result<(), DisassembleError>
    ensures { LooksUp (L.pools lookups.now) (λ _. name index ∷ name alias ∷ []) result }
{
    let name = find_name(lookups, index)?;
    let alias = find_name(lookups, alias)?;
    write!(out, "{op:?} : {name} as {alias}")?;
    Ok(())
}

/// Writes the op-assignment that an assignment goes through, if it does.
fn write_assigned<L: Lookups>(
    out: &mut String,
    lookups: &L,
    assign_op: Option<u32>,
) -> Result<(), DisassembleError>
    ensures { LooksUp (L.pools lookups.now) (assigned_sought assign_op) result }
{
    match assign_op {
        None => Ok(()),
        Some(index) => {
            out.push(' ')?;
            write_assign_op_at(out, lookups, index)
        }
    }
}

/// Writes the operator that a call stands for, if it does.
fn write_operator<L: Lookups>(
    out: &mut String,
    lookups: &L,
    operator: Option<u32>,
) -> Result<(), DisassembleError>
    ensures { LooksUp (L.pools lookups.now) (called_sought operator) result }
{
    match operator {
        None => Ok(()),
        Some(index) => {
            let token = find_token(lookups, index)?;
            write!(out, " ({token:?})")?;
            Ok(())
        }
    }
}

/// Writes an assignment to the bound `this` through the op-assignment at the index, whose text is quoted.
fn write_assigned_this<L: Lookups>(
    out: &mut String,
    lookups: &L,
    op: &Op,
    index: u32,
) -> Result<(), DisassembleError>
    ensures { LooksUp (L.pools lookups.now) (assign_op_at_sought index) result }
{
    let mut text = String::new(*out.allocator());
    write_assign_op_at(&mut text, lookups, index)?;
    write!(out, "{op:?} : this {text:?}")?;
    Ok(())
}
