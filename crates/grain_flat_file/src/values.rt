//! Values as rows, each before what is in it.
ghost use Rattle.std.specs.Prelude.{◌≡◌, ◌+◌, ◌∷◌, ◌++◌, [], IfOk, OnOk, length, map, pos};
ghost use Rattle.std.specs.List.{flat_map};
ghost use Rattle.grain_base.specs.Tokens.{token_parts};
ghost use Rattle.grain_format.specs.Form.{entry_forms, form_entries_of, forms, forms_of, pointer_form, value_form};
ghost use Rattle.grain_format.specs.Form as form;
ghost use Rattle.grain_flat_file.specs.Values.{AreConstantLists, AreOperatorLists, assigned_names, assigned_rows, assigned_texts, entry_rows, entry_texts, has_bytes, operator_rows, operator_texts, placed_row, placed_rows, row_bytes, value_begins, value_row, value_rows, value_texts};

use crate::pools::count_of;
use crate::records::{COpAssignment, CValue};
use crate::tags::{
    ARRAY, BLOB, CHARACTER, FALSE, FLOAT, FN_PTR, HOST, INTEGER, MAP, OPERATOR, RANGE,
    RANGE_INCLUSIVE, SHARED, TEXT, TRUE, UNIT,
};
use crate::unflat::Unflat;
use grain_base::{Dynamic, Float, FnPtr, Token};
use grain_pools::AssignOp;
use std::alloc::{AllocError, Global};
use std::collections::BTreeMap;

/// Values as rows.
#[derive(Drop)]
pub(crate) struct ValueLists {
    /// The values.
    pub(crate) rows: Vec<CValue>,
    /// The bytes of their texts and blobs.
    pub(crate) texts: Vec<u8>,
}

impl ValueLists {
    /// Of no values, with room for this many rows and bytes.
    pub(crate) fn new(alloc: Global, rows: usize, bytes: usize) -> Result<ValueLists, AllocError>
        ensures { IfOk result (λ lists. (lists.rows.items ≡ []) × (lists.texts.items ≡ [])) }
    {
        let rows = Vec::with_capacity(alloc, rows)?;
        let texts = Vec::with_capacity(alloc, bytes)?;
        Ok(ValueLists { rows, texts })
    }

    /// Adds a row.
    fn push(&mut self, tag: u32, count: usize, number: i64) -> Result<(), Unflat>
        ensures rows { OnOk result
            (self.new.rows.items ≡ self.old.rows.items ++ value_row tag count number ∷ []) }
        ensures texts { self.new.texts ≡ self.old.texts }
    {
        let count = count_of(count)?;
        self.rows.push(CValue { tag, count, number })?;
        Ok(())
    }

    /// Adds a text or a blob.
    fn push_bytes(&mut self, tag: u32, bytes: &[u8]) -> Result<(), Unflat>
        ensures rows { OnOk result (self.new.rows.items
            ≡ self.old.rows.items ++ value_row tag (length bytes.now) (pos 0) ∷ []) }
        ensures texts { OnOk result (self.new.texts.items ≡ self.old.texts.items ++ bytes.now) }
    {
        self.push(tag, bytes.len(), 0)?;
        self.texts.extend_from_slice(bytes)?;
        Ok(())
    }

    /// Adds a range.
    fn push_range(&mut self, tag: u32, from: i64, to: i64) -> Result<(), Unflat>
        ensures rows { OnOk result (self.new.rows.items ≡ self.old.rows.items
            ++ value_row tag 0 (pos 0) ∷ value_row INTEGER 0 from ∷ value_row INTEGER 0 to ∷ []) }
        ensures texts { self.new.texts ≡ self.old.texts }
    {
        self.push(tag, 0, 0)?;
        self.push(INTEGER, 0, from)?;
        self.push(INTEGER, 0, to)
    }

    /// Adds a floating-point number.
    #[tactic(auto, using(crate::proofs::FloatNumbers::number_of_bits))]
    fn push_float(&mut self, number: Float) -> Result<(), Unflat>
        ensures rows { OnOk result
            (self.new.rows.items ≡ self.old.rows.items ++ value_rows (form.float number.bits)) }
        ensures texts { self.new.texts ≡ self.old.texts }
    {
        self.push(FLOAT, 0, number.bits.cast_signed())
    }

    /// Adds a value.
    #[cycle(add_value)]
    pub(crate) fn add(&mut self, value: &Dynamic) -> Result<(), Unflat>
        ensures rows { OnOk result
            (self.new.rows.items ≡ self.old.rows.items ++ value_rows (value_form value.now)) }
        ensures texts { OnOk result
            (self.new.texts.items ≡ self.old.texts.items ++ value_texts (value_form value.now)) }
    {
        match value {
            Dynamic::Unit => self.push(UNIT, 0, 0),
            Dynamic::Bool(x) => self.push(if *x { TRUE } else { FALSE }, 0, 0),
            Dynamic::Int(z) => self.push(INTEGER, 0, *z),
            Dynamic::Char(c) => self.push(CHARACTER, 0, i64::from(*c as u32)),
            Dynamic::Str(text) => self.push_bytes(TEXT, text.as_bytes()),
            Dynamic::Range(from, to) => self.push_range(RANGE, *from, *to),
            Dynamic::RangeInclusive(from, to) => self.push_range(RANGE_INCLUSIVE, *from, *to),
            Dynamic::Array(items) => self.add_array(items),
            Dynamic::Blob(bytes) => self.push_bytes(BLOB, bytes),
            Dynamic::Map(entries) => self.add_map(entries),
            Dynamic::FnPtr(pointer) => self.add_pointer(pointer),
            Dynamic::Shared(inner) => self.add_shared(inner),
            Dynamic::Host(_) => self.push(HOST, 0, 0),
            Dynamic::Float(x) => self.push_float(*x),
        }
    }

    /// Adds a shared value.
    #[cycle(add_value)]
    fn add_shared(&mut self, inner: &Box<Dynamic>) -> Result<(), Unflat>
        ensures rows { OnOk result (self.new.rows.items ≡ self.old.rows.items
            ++ value_rows (form.shared (value_form inner.now.value))) }
        ensures texts { OnOk result (self.new.texts.items ≡ self.old.texts.items
            ++ value_texts (form.shared (value_form inner.now.value))) }
    {
        self.push(SHARED, 0, 0)?;
        self.add(inner)
    }

    /// Adds an array.
    #[cycle(add_value)]
    fn add_array(&mut self, values: &Vec<Dynamic>) -> Result<(), Unflat>
        ensures rows { OnOk result (self.new.rows.items ≡ self.old.rows.items
            ++ value_rows (form.array (forms_of (forms values.now.items)))) }
        ensures texts { OnOk result (self.new.texts.items ≡ self.old.texts.items
            ++ value_texts (form.array (forms_of (forms values.now.items)))) }
    {
        self.push(ARRAY, values.len(), 0)?;
        self.add_all(values)?;
        Ok(())
    }

    /// Adds a function pointer.
    #[cycle(add_value)]
    fn add_pointer(&mut self, pointer: &FnPtr) -> Result<(), Unflat>
        ensures rows { OnOk result (self.new.rows.items
            ≡ self.old.rows.items ++ value_rows (pointer_form pointer.now)) }
        ensures texts { OnOk result (self.new.texts.items
            ≡ self.old.texts.items ++ value_texts (pointer_form pointer.now)) }
    {
        let FnPtr { name, curry } = pointer;
        self.push(FN_PTR, curry.len(), 0)?;
        self.push_bytes(TEXT, name.as_bytes())?;
        self.add_all(curry)?;
        Ok(())
    }

    /// Adds values, one after another.
    #[cycle(add_value)]
    pub(crate) fn add_all(&mut self, values: &[Dynamic]) -> Result<(), Unflat>
        ensures rows { OnOk result (self.new.rows.items
            ≡ self.old.rows.items ++ flat_map value_rows (forms values.now)) }
        ensures texts { OnOk result (self.new.texts.items
            ≡ self.old.texts.items ++ flat_map value_texts (forms values.now)) }
    {
        for value in values {
            self.add(value)?;
        }
        Ok(())
    }

    /// Adds a map.
    #[cycle(add_value)]
    fn add_map(&mut self, entries: &BTreeMap<String, Dynamic>) -> Result<(), Unflat>
        ensures rows { OnOk result (self.new.rows.items ≡ self.old.rows.items
            ++ value_rows (form.object_map (form_entries_of (entry_forms entries.now.entries)))) }
        ensures texts { OnOk result (self.new.texts.items ≡ self.old.texts.items
            ++ value_texts (form.object_map (form_entries_of (entry_forms entries.now.entries)))) }
    {
        self.push(MAP, entries.len(), 0)?;
        self.add_entries(entries)?;
        Ok(())
    }

    /// Adds the entries of a map.
    #[cycle(add_value)]
    fn add_entries(&mut self, entries: &BTreeMap<String, Dynamic>) -> Result<(), Unflat>
        ensures rows { OnOk result (self.new.rows.items ≡ self.old.rows.items
            ++ flat_map entry_rows (entry_forms entries.now.entries)) }
        ensures texts { OnOk result (self.new.texts.items ≡ self.old.texts.items
            ++ flat_map entry_texts (entry_forms entries.now.entries)) }
    {
        for (key, value) in entries.iter() {
            self.push_bytes(TEXT, key.as_bytes())?;
            self.add(value)?;
        }
        Ok(())
    }

    /// Adds an operator.
    fn add_operator(&mut self, token: &Token) -> Result<(), Unflat>
        ensures rows { OnOk result (self.new.rows.items
            ≡ self.old.rows.items ++ operator_rows (token_parts token.now)) }
        ensures texts { OnOk result (self.new.texts.items
            ≡ self.old.texts.items ++ operator_texts (token_parts token.now)) }
    {
        match token.number() {
            Ok(number) => self.push(OPERATOR, 0, i64::from(number)),
            Err(text) => self.push_bytes(TEXT, text.as_bytes()),
        }
    }
}

/// Whether bytes belong to a row.
fn has_bytes(tag: u32) -> bool
    ensures { result ≡ has_bytes tag }
{
    tag == TEXT || tag == BLOB
}

/// A row that says where its bytes begin, and where the next one's do.
fn placed_row(from: usize, row: &CValue) -> Result<(CValue, usize), Unflat>
    ensures row { IfOk result (λ p. p.0 ≡ placed_row from row.now) }
    ensures next { IfOk result (λ p. p.1 ≡ from + row_bytes row.now) }
{
    if !has_bytes(row.tag) {
        return Ok((*row, from));
    }
    let Ok(number) = i64::try_from(from) else {
        return Err(Unflat::TooLong);
    };
    let Some(next) = from.checked_add(row.count as usize) else {
        return Err(Unflat::TooLong);
    };
    let placed = CValue {
        tag: row.tag,
        count: row.count,
        number,
    };
    Ok((placed, next))
}

/// Has the rows say where their bytes begin.
fn place(rows: &mut [CValue]) -> Result<(), Unflat>
    ensures { OnOk result (rows.new ≡ placed_rows 0 rows.old) }
{
    let mut from = 0;
    for row in rows.iter_mut() {
        let (placed, next) = placed_row(from, row)?;
        *row = placed;
        from = next;
    }
    Ok(())
}

/// Constants as rows.
#[derive(Drop)]
pub(crate) struct ConstantLists {
    /// Where each constant begins.
    pub(crate) begins: Vec<u32>,
    /// The constants, one after another.
    pub(crate) values: ValueLists,
}

/// How many bytes the texts and blobs among the constants have, without what is inside of others.
fn count_bytes(constants: &[Dynamic]) -> usize {
    let mut count: usize = 0;
    for constant in constants {
        let more = match constant {
            Dynamic::Str(text) => text.len(),
            Dynamic::Blob(bytes) => bytes.len(),
            _ => 0,
        };
        count = count.saturating_add(more);
    }
    count
}

/// The constants as rows, and where each begins.
fn list_constants(alloc: Global, constants: &[Dynamic]) -> Result<ConstantLists, Unflat>
    ensures begins { IfOk result (λ lists. lists.begins.items ≡ value_begins 0 (forms constants.now)) }
    ensures rows { IfOk result (λ lists.
        lists.values.rows.items ≡ flat_map value_rows (forms constants.now)) }
    ensures texts { IfOk result (λ lists.
        lists.values.texts.items ≡ flat_map value_texts (forms constants.now)) }
{
    let mut begins = Vec::with_capacity(alloc, constants.len())?;
    let mut values = ValueLists::new(alloc, constants.len(), count_bytes(constants))?;
    for constant in constants {
        let begin = count_of(values.rows.len())?;
        begins.push(begin)?;
        values.add(constant)?;
    }
    Ok(ConstantLists { begins, values })
}

/// The constants as rows, which say where their bytes are.
pub(crate) fn constant_lists(alloc: Global, constants: &[Dynamic]) -> Result<ConstantLists, Unflat>
    ensures { IfOk result (AreConstantLists (forms constants.now)) }
{
    let mut lists = list_constants(alloc, constants)?;
    place(&mut lists.values.rows)?;
    Ok(lists)
}

/// Adds the operators of op-assignments.
fn add_assigned(lists: &mut ValueLists, assigned: &[AssignOp]) -> Result<(), Unflat>
    ensures rows { OnOk result (lists.new.rows.items
        ≡ lists.old.rows.items ++ flat_map assigned_rows assigned.now) }
    ensures texts { OnOk result (lists.new.texts.items
        ≡ lists.old.texts.items ++ flat_map assigned_texts assigned.now) }
{
    for op in assigned {
        lists.add_operator(&op.op_assign)?;
        lists.add_operator(&op.op)?;
    }
    Ok(())
}

/// Adds operators.
fn add_operators(lists: &mut ValueLists, operators: &[Token]) -> Result<(), Unflat>
    ensures rows { OnOk result (lists.new.rows.items
        ≡ lists.old.rows.items ++ flat_map (λ t. operator_rows (token_parts t)) operators.now) }
    ensures texts { OnOk result (lists.new.texts.items
        ≡ lists.old.texts.items ++ flat_map (λ t. operator_texts (token_parts t)) operators.now) }
{
    for operator in operators {
        lists.add_operator(operator)?;
    }
    Ok(())
}

/// The operators as rows, and then those of the op-assignments.
pub(crate) fn operator_lists(
    alloc: Global,
    operators: &[Token],
    assigned: &[AssignOp],
) -> Result<ValueLists, Unflat>
    ensures { IfOk result (AreOperatorLists operators.now assigned.now) }
{
    let mut lists = ValueLists::new(alloc, operators.len(), 0)?;
    add_operators(&mut lists, operators)?;
    add_assigned(&mut lists, assigned)?;
    place(&mut lists.rows)?;
    Ok(lists)
}

/// What the op-assignments name.
pub(crate) fn assigned_names(
    alloc: Global,
    assigned: &[AssignOp],
) -> Result<Vec<COpAssignment>, AllocError>
    ensures { IfOk result (λ rows. rows.items ≡ map assigned_names assigned.now) }
{
    assigned
        .iter()
        .map(|op| COpAssignment {
            op_assign_name: op.op_assign_name,
            op_name: op.op_name,
        })
        .collect(alloc)
}
