//! Files in the making. This module alone has the order of the parts of a program's file.
ghost use Rattle.std.specs.Prelude.{◌≡◌, ◌≤◌, ◌<◌, ◌++◌, ◌^◌, ◌/◌, ◌%◌, [], ℕ, IfSome, None, Option, OnOk, Some, length, map, option_map, slice_get};
ghost use Rattle.std.specs.List.{concat};
ghost use Rattle.grain.specs.Program.{listed_positions};
ghost use Rattle.grain_base.specs.Place.{place_of};
ghost use Rattle.grain_format.specs.Form.{IsSound, forms, spelled, value_form, value_refusal};
ghost use Rattle.grain_format.specs.Formats.{any_number, both, optional, text};
ghost use Rattle.grain_format.specs.Lists.{CountedFit, counted_spelling};
ghost use Rattle.grain_format.specs.Names.{names_format};
ghost use Rattle.grain_format.specs.Reading.{Decides};
ghost use Rattle.grain_format.specs.Refusals.{counted_refusal};
ghost use Rattle.grain_format.specs.Switches.{FitsAlone, switch_parts, switch_refusal, switch_spelling};
ghost use Rattle.grain_format.specs.Texts.{counted_bytes};
ghost use Rattle.grain_file.specs.ProgramFile.{Bounds, IsWithin, code_format, file_format, halves, kept, no_bounds, pools_format, positions_format, refusal_of, rest_format};

use crate::items::Marks;
use grain::Program;
use grain_base::{Dynamic, Flags};
use grain_bytecode::Positions;
use grain_format::{
    FileField, Part, Unkept, WriteError, put_bytes, put_number, put_switch, put_value,
};
use grain_pools::{Strings, Switch};
use std::alloc::{AllocError, Global};

/// A file in the making: its bytes so far, and the marks of its parts. All bytes are marked after each part.
#[derive(Drop)]
pub(crate) struct Draft<M> {
    pub(crate) bytes: Vec<u8>,
    pub(crate) marks: M,
}

fn low_half(id: u128) -> u64
    ensures { result ≡ id % 2 ^ 64 }
{
    (id % (1 << 64)) as u64
}

fn high_half(id: u128) -> u64
    ensures { result ≡ id / 2 ^ 64 }
{
    (id / (1 << 64)) as u64
}

impl<M: Marks> Draft<M> {
    /// A file of which nothing is written.
    pub(crate) fn new(alloc: Global, marks: M) -> Draft<M>
        requires { M.Reach marks 0 }
        ensures marked { M.Reach result.marks (length result.bytes.items) }
        ensures empty { result.bytes.items ≡ [] }
    {
        Draft {
            bytes: Vec::new(alloc),
            marks,
        }
    }

    /// Marks the bytes after the last mark as this part.
    fn mark(&mut self, part: Part) -> Result<(), AllocError>
        requires { (from : ℕ) × M.Reach self.old.marks from
            × (from ≤ length self.old.bytes.items) }
        ensures marked { OnOk result (M.Reach self.new.marks (length self.new.bytes.items)) }
        ensures same { OnOk result (self.new.bytes.items ≡ self.old.bytes.items) }
    {
        let end = self.bytes.len();
        self.marks.mark(part, end)
    }

    /// Appends what a file begins with: these bytes.
    pub(crate) fn header(&mut self, header: &[u8]) -> Result<(), AllocError>
        requires { M.Reach self.old.marks (length self.old.bytes.items) }
        ensures marked { OnOk result (M.Reach self.new.marks (length self.new.bytes.items)) }
        ensures spelled { OnOk result (self.new.bytes.items
            ≡ self.old.bytes.items ++ header.now) }
    {
        self.bytes.extend_from_slice(header)?;
        self.mark(Part::Header)
    }

    /// Appends a value.
    fn field<T: FileField>(&mut self, value: &T, part: Part) -> Result<(), WriteError>
        requires { M.Reach self.old.marks (length self.old.bytes.items) }
        ensures marked { OnOk result (M.Reach self.new.marks (length self.new.bytes.items)) }
        ensures spelled { OnOk result (self.new.bytes.items
            ≡ self.old.bytes.items ++ T.format.spelling (T.view value.now)) }
        ensures fits { OnOk result (T.format.Fits (T.view value.now)) }
        ensures decides { Decides result (T.format.refusal (T.view value.now)) }
    {
        value.write(&mut self.bytes)?;
        self.mark(part)?;
        Ok(())
    }

    /// Appends a number, as the one that a list begins with. Bytes before it that aren't marked yet are of its part.
    fn count(&mut self, count: usize, part: Part) -> Result<(), AllocError>
        requires { (from : ℕ) × M.Reach self.old.marks from
            × (from ≤ length self.old.bytes.items) }
        ensures marked { OnOk result (M.Reach self.new.marks (length self.new.bytes.items)) }
        ensures spelled { OnOk result (self.new.bytes.items
            ≡ self.old.bytes.items ++ any_number.spelling count) }
    {
        put_number(&mut self.bytes, count as u64)?;
        self.mark(part)
    }

    /// Appends how many bytes there are, and these.
    pub(crate) fn blob(&mut self, bytes: &[u8], part: Part) -> Result<(), AllocError>
        requires { M.Reach self.old.marks (length self.old.bytes.items) }
        ensures marked { OnOk result (M.Reach self.new.marks (length self.new.bytes.items)) }
        ensures spelled { OnOk result (self.new.bytes.items
            ≡ self.old.bytes.items ++ counted_bytes bytes.now) }
        ensures fits { OnOk result (length bytes.now < 2 ^ 64) }
    {
        put_bytes(&mut self.bytes, bytes)?;
        self.mark(part)
    }

    /// Appends the number of a program.
    pub(crate) fn id(&mut self, id: u128) -> Result<(), AllocError>
        requires { M.Reach self.old.marks (length self.old.bytes.items) }
        ensures marked { OnOk result (M.Reach self.new.marks (length self.new.bytes.items)) }
        ensures spelled { OnOk result (self.new.bytes.items
            ≡ self.old.bytes.items ++ (both any_number any_number).spelling (halves id)) }
        ensures fits { OnOk result ((both any_number any_number).Fits (halves id)) }
    {
        put_number(&mut self.bytes, low_half(id))?;
        put_number(&mut self.bytes, high_half(id))?;
        self.mark(Part::Id)
    }

    /// Appends a value of the constants.
    fn constant(&mut self, value: &Dynamic, part: Part) -> Result<(), WriteError>
        requires { M.Reach self.old.marks (length self.old.bytes.items) }
        ensures marked { OnOk result (M.Reach self.new.marks (length self.new.bytes.items)) }
        ensures spelled { OnOk result (self.new.bytes.items
            ≡ self.old.bytes.items ++ spelled (value_form value.now)) }
        ensures sound { OnOk result (IsSound (value_form value.now)) }
        ensures decides { Decides result (value_refusal (value_form value.now)) }
    {
        put_value(&mut self.bytes, value)?;
        self.mark(part)?;
        Ok(())
    }

    /// Appends a switch.
    fn switch(
        &mut self,
        alloc: Global,
        switch: &Switch,
        constants: &[Dynamic],
        part: Part,
    ) -> Result<(), WriteError>
        requires { M.Reach self.old.marks (length self.old.bytes.items) }
        ensures marked { OnOk result (M.Reach self.new.marks (length self.new.bytes.items)) }
        ensures spelled { OnOk result (self.new.bytes.items ≡ self.old.bytes.items
            ++ switch_spelling (switch_parts constants.now switch.now)) }
        ensures fits { OnOk result
            (FitsAlone (forms constants.now) (switch_parts constants.now switch.now)) }
        ensures decides { Decides result (switch_refusal (switch_parts constants.now switch.now)) }
    {
        put_switch(alloc, &mut self.bytes, switch, constants)?;
        self.mark(part)?;
        Ok(())
    }

    /// Appends how many items there are, and each. Bytes before them that aren't marked yet are of the list's part.
    fn list<T: FileField>(&mut self, items: &[T], list: Part) -> Result<(), WriteError>
        requires { (from : ℕ) × M.Reach self.old.marks from
            × (from ≤ length self.old.bytes.items) }
        ensures marked { OnOk result (M.Reach self.new.marks (length self.new.bytes.items)) }
        ensures spelled { OnOk result (self.new.bytes.items ≡ self.old.bytes.items
            ++ counted_spelling T.format.spelling (map T.view items.now)) }
        ensures fits { OnOk result (CountedFit T.format.Fits (map T.view items.now)) }
        ensures decides { Decides result
            (counted_refusal T.format.refusal (map T.view items.now)) }
    {
        self.count(items.len(), list)?;
        for (index, item) in items.iter().enumerate() {
            self.field(item, list.item(index))?;
        }
        Ok(())
    }

    /// Appends how many names there are, and each.
    fn names(&mut self, names: &Strings) -> Result<(), AllocError>
        requires { M.Reach self.old.marks (length self.old.bytes.items) }
        ensures marked { OnOk result (M.Reach self.new.marks (length self.new.bytes.items)) }
        ensures spelled { OnOk result (self.new.bytes.items
            ≡ self.old.bytes.items ++ names_format.spelling names.now) }
        ensures fits { OnOk result (names_format.Fits names.now) }
        ensures kept { names_format.refusal names.now ≡ None }
    {
        // For the prover: the starts have 32 bits, so the names have fewer than 2^32 bytes.
        let _len = total_len(names);
        self.count(names.len(), Part::Names)?;
        let mut index = 0usize;
        for name in names.iter() {
            self.blob(name.as_bytes(), Part::Name(index))?;
            index = index.saturating_add(1);
        }
        Ok(())
    }

    /// Appends how many constants there are, and each.
    fn constants(&mut self, constants: &[Dynamic]) -> Result<(), WriteError>
        requires { M.Reach self.old.marks (length self.old.bytes.items) }
        ensures marked { OnOk result (M.Reach self.new.marks (length self.new.bytes.items)) }
        ensures spelled { OnOk result (self.new.bytes.items ≡ self.old.bytes.items
            ++ counted_spelling spelled (forms constants.now)) }
        ensures sound { OnOk result (CountedFit IsSound (forms constants.now)) }
        ensures decides { Decides result (counted_refusal value_refusal (forms constants.now)) }
    {
        self.count(constants.len(), Part::Constants)?;
        for (index, value) in constants.iter().enumerate() {
            self.constant(value, Part::Constant(index))?;
        }
        Ok(())
    }

    /// Appends how many switches there are, and each.
    fn switches(
        &mut self,
        alloc: Global,
        switches: &[Switch],
        constants: &[Dynamic],
    ) -> Result<(), WriteError>
        requires { M.Reach self.old.marks (length self.old.bytes.items) }
        ensures marked { OnOk result (M.Reach self.new.marks (length self.new.bytes.items)) }
        ensures spelled { OnOk result (self.new.bytes.items ≡ self.old.bytes.items
            ++ counted_spelling switch_spelling (map (switch_parts constants.now) switches.now)) }
        ensures fits { OnOk result (CountedFit (FitsAlone (forms constants.now))
            (map (switch_parts constants.now) switches.now)) }
        ensures decides { Decides result
            (counted_refusal switch_refusal (map (switch_parts constants.now) switches.now)) }
    {
        self.count(switches.len(), Part::Switches)?;
        for (index, switch) in switches.iter().enumerate() {
            self.switch(alloc, switch, constants, Part::Switch(index))?;
        }
        Ok(())
    }

    /// Appends the capabilities, the number of the program, the code, the main chunk and the functions.
    #[tactic(auto, unfolding(crate::specs::ProgramFile::code_format))]
    fn code(&mut self, program: &Program) -> Result<(), WriteError>
        requires { M.Reach self.old.marks (length self.old.bytes.items) }
        ensures marked { OnOk result (M.Reach self.new.marks (length self.new.bytes.items)) }
        ensures spelled { OnOk result
            (self.new.bytes.items ≡ self.old.bytes.items ++ code_format.spelling (kept program.now).0) }
        ensures fits { OnOk result (code_format.Fits (kept program.now).0) }
        ensures decides { Decides result (code_format.refusal (kept program.now).0) }
    {
        self.field(&program.caps().bits(), Part::Capabilities)?;
        self.id(program.debug_id())?;
        self.blob(program.code(), Part::Code)?;
        self.field(&program.main(), Part::MainChunk)?;
        self.list(program.functions(), Part::Functions)?;
        Ok(())
    }

    /// Appends the names, constants, operators, op-assignments, chains and switches.
    #[tactic(auto, unfolding(crate::specs::ProgramFile::pools_format))]
    fn pools(&mut self, alloc: Global, program: &Program) -> Result<(), WriteError>
        requires { M.Reach self.old.marks (length self.old.bytes.items) }
        ensures marked { OnOk result (M.Reach self.new.marks (length self.new.bytes.items)) }
        ensures spelled { OnOk result ((bounds : Bounds) → self.new.bytes.items
            ≡ self.old.bytes.items ++ (pools_format bounds).spelling (kept program.now).1.0) }
        ensures fits { OnOk result ((bounds : Bounds) → IsWithin bounds (kept program.now)
            → (pools_format bounds).Fits (kept program.now).1.0) }
        ensures decides { Decides result ((pools_format no_bounds).refusal (kept program.now).1.0) }
    {
        self.names(program.names())?;
        self.constants(program.consts())?;
        self.list(program.tokens(), Part::Operators)?;
        self.list(program.assign_ops(), Part::OpAssignments)?;
        self.list(program.chains(), Part::Chains)?;
        self.switches(alloc, program.switches(), program.consts())?;
        Ok(())
    }

    /// Appends the name of the source and the positions.
    #[tactic(auto, unfolding(crate::specs::ProgramFile::rest_format))]
    fn rest(&mut self, program: &Program) -> Result<(), WriteError>
        requires { M.Reach self.old.marks (length self.old.bytes.items) }
        ensures marked { OnOk result (M.Reach self.new.marks (length self.new.bytes.items)) }
        ensures spelled { OnOk result
            (self.new.bytes.items ≡ self.old.bytes.items ++ rest_format.spelling (kept program.now).1.1) }
        ensures fits { OnOk result (rest_format.Fits (kept program.now).1.1) }
        ensures decides { Decides result (rest_format.refusal (kept program.now).1.1) }
    {
        self.source(program.source())?;
        self.positions(program.positions())?;
        if program.residual_count() != 0 {
            return Err(WriteError::Unkept(Unkept::Residuals));
        }
        Ok(())
    }

    /// Appends the name of the source, if there is one.
    fn source(&mut self, source: Option<&str>) -> Result<(), AllocError>
        requires { M.Reach self.old.marks (length self.old.bytes.items) }
        ensures marked { OnOk result (M.Reach self.new.marks (length self.new.bytes.items)) }
        ensures spelled { OnOk result (self.new.bytes.items ≡ self.old.bytes.items
            ++ (optional text).spelling (option_map (λ s. s.now) source.entry)) }
        ensures fits { OnOk result ((optional text).Fits (option_map (λ s. s.now) source.entry)) }
    {
        put_source(&mut self.bytes, source)?;
        self.mark(Part::SourceName)
    }

    /// Appends the positions, if they are known.
    fn positions(&mut self, positions: &Positions) -> Result<(), WriteError>
        requires { M.Reach self.old.marks (length self.old.bytes.items) }
        ensures marked { OnOk result (M.Reach self.new.marks (length self.new.bytes.items)) }
        ensures spelled { OnOk result (self.new.bytes.items ≡ self.old.bytes.items
            ++ positions_format.spelling
            (option_map (λ list. map place_of list) (listed_positions positions.now))) }
        ensures fits { OnOk result (positions_format.Fits
            (option_map (λ list. map place_of list) (listed_positions positions.now))) }
        ensures decides { Decides result (positions_format.refusal
            (option_map (λ list. map place_of list) (listed_positions positions.now))) }
    {
        match positions {
            Positions::Stripped => {
                self.bytes.push(0)?;
                self.mark(Part::Positions)?;
                Ok(())
            }
            Positions::Dense(list) => {
                self.bytes.push(1)?;
                self.list(list, Part::Positions)?;
                Ok(())
            }
        }
    }

    /// Appends the whole file of a program.
    #[tactic(auto, unfolding(crate::specs::ProgramFile::file_format, crate::specs::ProgramFile::versioned_format, crate::specs::ProgramFile::body_format))]
    pub(crate) fn program(&mut self, alloc: Global, program: &Program) -> Result<(), WriteError>
        requires { M.Reach self.old.marks (length self.old.bytes.items) }
        ensures marked { OnOk result (M.Reach self.new.marks (length self.new.bytes.items)) }
        ensures spelled { OnOk result ((bounds : Bounds) → self.new.bytes.items
            ≡ self.old.bytes.items ++ (file_format bounds).spelling (kept program.now)) }
        ensures fits { OnOk result ((bounds : Bounds) → IsWithin bounds (kept program.now)
            → (file_format bounds).Fits (kept program.now)) }
        ensures decides { Decides result (refusal_of (kept program.now)) }
    {
        self.header(b"\x00grn\x02\x00")?;
        self.code(program)?;
        self.pools(alloc, program)?;
        self.rest(program)?;
        Ok(())
    }
}

/// Appends the name of the source, if there is one.
fn put_source(out: &mut Vec<u8>, source: Option<&str>) -> Result<(), AllocError>
    ensures spelled { OnOk result (out.new.items ≡ out.old.items
        ++ (optional text).spelling (option_map (λ s. s.now) source.entry)) }
    ensures fits { OnOk result ((optional text).Fits (option_map (λ s. s.now) source.entry)) }
{
    match source {
        None => {
            out.push(0)?;
            Ok(())
        }
        Some(text) => {
            out.push(1)?;
            put_bytes(out, text.as_bytes())?;
            Ok(())
        }
    }
}

/// How many bytes the names have, which is where the last one ends.
fn total_len(names: &Strings) -> Option<u32>
    ensures value { result ≡ Some (length (concat names.now)) }
    ensures small { IfSome result (λ len. len < 2 ^ 32) }
{
    start_at(names.starts(), names.len())
}

/// The start at the index.
fn start_at(starts: &[u32], at: usize) -> Option<u32>
    ensures value { result ≡ slice_get starts.now at }
    ensures small { IfSome result (λ start. start < 2 ^ 32) }
{
    let start = starts.get(at)?;
    Some(*start)
}
