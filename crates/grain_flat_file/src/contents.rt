//! The flat form of a program.
ghost use Rattle.std.specs.Prelude.{◌≡◌, IfOk};
ghost use Rattle.grain.specs.Sidecars.{IsSidecar};
ghost use Rattle.grain_flat_file.specs.Contents.{AreContents, AreLists, ArePools, IsFlatFormOf};

use crate::begins::{Begins, begins_by_rows};
use crate::copies::{Copies, Numbers, copies_of, numbers_of};
use crate::functions::{FunctionLists, function_lists};
use crate::pools::{ChainLists, SwitchLists, chain_lists, constant_rows, switch_lists};
use crate::recalled::Recalled;
use crate::records::{CContents, CONTENTS_SIZE, COpAssignment};
use crate::unflat::Unflat;
use crate::values::{ConstantLists, ValueLists, assigned_names, constant_lists, operator_lists};
use grain::{Program, Sidecar};
use grain_bytecode::StripError;
use grain_flat::{CConstant, CPools, CProgram};
use std::alloc::Global;
use std::marker::Model;

/// What a program has, as numbers and lists.
#[derive(Drop)]
pub(crate) struct Lists {
    pub(crate) numbers: Numbers,
    pub(crate) copies: Copies,
    pub(crate) functions: FunctionLists,
    pub(crate) asked: Vec<CConstant>,
    pub(crate) chains: ChainLists,
    pub(crate) switches: SwitchLists,
    pub(crate) constants: ConstantLists,
    pub(crate) operators: ValueLists,
    pub(crate) assigned: Vec<COpAssignment>,
    pub(crate) positions: Sidecar,
    pub(crate) begins: Begins,
}

/// The flat form of a program.
///
/// Contracts see the program, which isn't kept itself.
#[derive(Drop)]
pub struct FlatFile {
    recalled: Recalled,
    lists: Lists,
}

impl Model for FlatFile {
    ghost use Rattle.grain.specs.Program.{Program};
    ghost use Rattle.grain_flat_file.specs.Contents.{AreLists};
    ghost use Rattle.grain.specs.contracts.program.Program as whole;

    ghost Value = { Program };

    ghost coded = { whole.the_row.coded };

    ghost view = { λ f. f.recalled.program };

    ghost invariant = { λ f. AreLists f.recalled.program f.lists };
}

/// The positions of a program, apart from it.
fn positions_of(program: &Program) -> Result<Sidecar, Unflat>
    ensures { IfOk result (IsSidecar program.now) }
{
    match program.sidecar() {
        Ok(positions) => Ok(positions),
        Err(StripError::AddressTooWide { .. }) => Err(Unflat::TooLong),
        Err(StripError::OutOfMemory) => Err(Unflat::OutOfMemory),
    }
}

/// What a program has, as numbers and lists.
fn lists_of(alloc: Global, program: &Program) -> Result<Lists, Unflat>
    ensures { IfOk result (AreLists program.now) }
{
    let copies = copies_of(alloc, program)?;
    let functions = function_lists(alloc, program)?;
    let asked = constant_rows(alloc, program.consts())?;
    let chains = chain_lists(alloc, program.chains())?;
    let switches = switch_lists(alloc, program.switches())?;
    let constants = constant_lists(alloc, program.consts())?;
    let operators = operator_lists(alloc, program.tokens(), program.assign_ops())?;
    let assigned = assigned_names(alloc, program.assign_ops())?;
    let positions = positions_of(program)?;
    let begins = begins_by_rows(alloc, &chains.rows, &switches.rows, &functions.rows)?;
    Ok(Lists {
        numbers: numbers_of(program),
        copies,
        functions,
        asked,
        chains,
        switches,
        constants,
        operators,
        assigned,
        positions,
        begins,
    })
}

impl FlatFile {
    /// The flat form of a program, which is dropped when that is made. Time and memory are linear in what the program has.
    ///
    /// # Errors
    /// `TooLong` if a list has more entries than a row can count. `OutOfMemory` if an allocation failed.
    pub fn new(alloc: Global, program: Program) -> Result<FlatFile, Unflat>
        ensures { IfOk result (λ file. file ≡ program) }
    {
        let lists = lists_of(alloc, &program)?;
        let recalled = Recalled::of(&program);
        Ok(FlatFile { recalled, lists })
    }

    /// The pools.
    fn pools(&self) -> CPools<'_>
        ensures { ArePools self.now result }
    {
        CPools {
            constants: &self.lists.asked,
            names: &self.lists.copies.names,
            starts: &self.lists.copies.starts,
            operators: self.lists.numbers.operators,
            op_assignments: self.lists.numbers.op_assignments,
            fragments: self.lists.numbers.fragments,
            functions: self.lists.numbers.functions,
            chains: &self.lists.chains.rows,
            steps: &self.lists.chains.steps,
            switches: &self.lists.switches.rows,
            cases: &self.lists.switches.cases,
            ranges: &self.lists.switches.targets,
        }
    }

    /// The code, the chunks and the pools.
    fn flat_form(&self) -> CProgram<'_>
        ensures { IsFlatFormOf self.now result }
    {
        CProgram {
            code: &self.lists.copies.code,
            chunks: &self.lists.functions.chunks,
            pools: self.pools(),
        }
    }

    /// All that the program has.
    pub fn contents(&self) -> CContents<'_>
        ensures { AreContents self.now result }
    {
        CContents {
            size: CONTENTS_SIZE,
            program: self.flat_form(),
            caps: self.lists.numbers.caps,
            has_source: self.lists.numbers.has_source,
            has_positions: self.lists.numbers.has_positions,
            id_low: self.lists.numbers.id_low,
            id_high: self.lists.numbers.id_high,
            source: &self.lists.copies.source,
            functions: &self.lists.functions.rows,
            parameters: &self.lists.functions.parameters,
            constants: &self.lists.constants.begins,
            values: &self.lists.constants.values.rows,
            texts: &self.lists.constants.values.texts,
            operators: &self.lists.operators.rows,
            operator_texts: &self.lists.operators.texts,
            op_assignments: &self.lists.assigned,
            positions: self.lists.numbers.positions,
            step_flags: &self.lists.chains.flags,
            ranges: &self.lists.switches.ranges,
            table: &self.lists.positions.positions,
            stream: &self.lists.positions.chains,
            chain_steps: &self.lists.begins.chain_steps,
            switch_cases: &self.lists.begins.switch_cases,
            switch_ranges: &self.lists.begins.switch_ranges,
            function_parameters: &self.lists.begins.function_parameters,
        }
    }
}
