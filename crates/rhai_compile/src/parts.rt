//! The parts of a program, made from pools.
ghost use Rattle.std.specs.Prelude.{◌≡◌, ℕ, IfOk, map};
ghost use Rattle.std.specs.HashMap.{values};
ghost use Rattle.std.specs.List.{All, Contains};
ghost use Rattle.grain_rules.specs.Accepted.{ConstantPasses};
ghost use Rattle.grain_rules.specs.Code.{switch_targets};
ghost use Rattle.grain_builder.specs.Assembled.{targets_of};
ghost use Rattle.grain_builder.specs.Finished.{LeadAmong};
ghost use Rattle.rhai_compile.specs.Capabilities.{every_capability};

use grain::{
    AssignOp, Chain, Dynamic, Parts, Positions, Strings, StringsError, Switch, SwitchRange, Token,
};
use grain_base::pos::Site;
use grain_builder::TableTargets;
use rhai_emit::{Leading, Options, PoolBuilder, Spanning, Table, token};
use rhai_errors::{CompileError, Problem, Thing};
use rhai_lexer::{Names, Operator};
use rhai_syntax::Literal;
use std::alloc::{AllocError, Global};
use std::collections::HashMap;

/// The value of a literal.
fn value(alloc: Global, texts: &Names, literal: Literal) -> Result<Dynamic, AllocError>
    ensures { IfOk result (λ v. ConstantPasses every_capability v) }
{
    match literal {
        Literal::Unit => Ok(Dynamic::Unit),
        Literal::Bool(value) => Ok(Dynamic::Bool(value)),
        Literal::Int(value) => Ok(Dynamic::Int(value)),
        Literal::Float(value) => Ok(Dynamic::Float(value)),
        Literal::Char(value) => Ok(Dynamic::Char(value)),
        Literal::Text(text) => Ok(Dynamic::Str(String::from_str(alloc, texts.get(text))?)),
    }
}

fn constants(pools: &PoolBuilder) -> Result<Vec<Dynamic>, CompileError>
    ensures { IfOk result (λ v. All (ConstantPasses every_capability) v.items) }
{
    let mut consts = Vec::new(pools.alloc);
    for literal in &pools.consts {
        consts.push(value(pools.alloc, &pools.texts, *literal)?)?;
    }
    Ok(consts)
}

fn assign_op(pools: &mut PoolBuilder, operator: Operator) -> Result<AssignOp, CompileError> {
    let op = token(operator);
    let op_assign = op.op_assignment().unwrap_or(Token::Equals);
    Ok(AssignOp {
        op_assign_name: pools.name(op_assign.syntax())?,
        op_assign,
        op_name: pools.name(op.syntax())?,
        op,
    })
}

fn assign_ops(pools: &mut PoolBuilder) -> Result<Vec<AssignOp>, CompileError> {
    let mut found = Vec::new(pools.alloc);
    for index in 0..pools.assign_ops.len() {
        if let Some(operator) = pools.assign_ops.get(index).copied() {
            found.push(assign_op(pools, operator)?)?;
        }
    }
    Ok(found)
}

fn strings(alloc: Global, names: &Names) -> Result<Strings, CompileError> {
    let mut list = Vec::new(alloc);
    for name in names.list() {
        list.push(name.as_str())?;
    }
    match Strings::new(alloc, &list) {
        Ok(strings) => Ok(strings),
        Err(StringsError::TooLong) => {
            Err(CompileError::new(Site::NONE, Problem::TooMany(Thing::Names)))
        }
        Err(StringsError::OutOfMemory) => {
            Err(CompileError::new(Site::NONE, Problem::OutOfMemory))
        }
    }
}

/// The target of a case or a range at its place among these.
fn target_at(targets: &TableTargets, place: usize) -> u32
    ensures { Contains (targets_of targets.now) result }
{
    if place < targets.cases.len() {
        targets.cases[place]
    } else {
        targets.default
    }
}

/// The cases of a switch with these targets.
fn cases(
    pools: &PoolBuilder,
    leading: &[Leading],
    targets: &TableTargets,
) -> Result<HashMap<Dynamic, (u32, u32)>, CompileError>
    ensures { IfOk result (λ m. All (λ v. Contains (targets_of targets.now) v.0) (values m)) }
{
    let mut cases = HashMap::new(pools.alloc);
    for (place, one) in leading.iter().enumerate() {
        let subject = value(pools.alloc, &pools.texts, one.value)?;
        let _ = cases.insert(subject, (target_at(targets, place), one.constant))?;
    }
    Ok(cases)
}

/// The ranges of a switch with these targets, of which there are as many before theirs as there are cases.
fn ranges(
    alloc: Global,
    spans: &[Spanning],
    before: usize,
    targets: &TableTargets,
) -> Result<Vec<SwitchRange>, AllocError>
    ensures { IfOk result (λ v. All (λ r. Contains (targets_of targets.now) r.target) v.items) }
{
    let mut ranges = Vec::new(alloc);
    for (place, range) in spans.iter().enumerate() {
        ranges.push(SwitchRange {
            from: range.from,
            to: range.to,
            inclusive: range.is_inclusive,
            target: target_at(targets, before.saturating_add(place)),
        })?;
    }
    Ok(ranges)
}

/// A switch with these targets.
fn switch(
    pools: &PoolBuilder,
    table: &Table,
    targets: &TableTargets,
) -> Result<Switch, CompileError>
    ensures { IfOk result
        (λ s. (l : ℕ) → Contains (switch_targets s) l → Contains (targets_of targets.now) l) }
{
    let cases = cases(pools, &table.values, targets)?;
    let ranges = ranges(pools.alloc, &table.ranges, table.values.len(), targets)?;
    Ok(Switch {
        cases: Some(cases),
        ranges,
        default: targets.default,
    })
}

fn switches(pools: &PoolBuilder, targets: &[TableTargets]) -> Result<Vec<Switch>, CompileError>
    ensures { IfOk result
        (λ v. LeadAmong (map switch_targets v.items) (map targets_of targets.now)) }
{
    let mut switches = Vec::new(pools.alloc);
    for (place, targets) in targets.iter().enumerate() {
        let Some(table) = pools.switches.get(place) else {
            break;
        };
        switches.push(switch(pools, table, targets)?)?;
    }
    Ok(switches)
}

/// All that a program has except for code, chunks and positions.
pub(crate) fn parts(
    mut pools: PoolBuilder,
    options: Options,
    chains: Vec<Chain>,
    targets: &[TableTargets],
) -> Result<Parts, CompileError>
    ensures constants { IfOk result (λ p. All (ConstantPasses every_capability) p.consts.items) }
    ensures chains { IfOk result (λ p. p.chains.items ≡ chains.items) }
    ensures switches { IfOk result
        (λ p. LeadAmong (map switch_targets p.switches.items) (map targets_of targets.now)) }
{
    let alloc = pools.alloc;
    let assign_ops = assign_ops(&mut pools)?;
    let mut tokens = Vec::new(alloc);
    for operator in &pools.tokens {
        tokens.push(token(*operator))?;
    }
    let switches = switches(&pools, targets)?;
    Ok(Parts {
        positions: Positions::Stripped,
        debug_id: options.debug_id,
        residuals: 0,
        consts: constants(&pools)?,
        names: strings(alloc, &pools.names)?,
        tokens,
        assign_ops,
        chains,
        switches,
        source: None,
    })
}
