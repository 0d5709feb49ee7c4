//! Values as rows.
ghost use lib.Ieee.{binary64};
ghost use Rattle.std.specs.Prelude.{◌≡◌, ◌∷◌, [], ◌++◌, false, true, OnOk, OnErr, length, pos, to_bits};
ghost use Rattle.grain_format.specs.Form as form;
ghost use Rattle.std.specs.List.{flat_map};
ghost use Rattle.grain_flat_file.specs.Values.{counted_row, entry_rows, entry_texts, has_bytes, value_row, value_rows, value_texts};
ghost use Rattle.rhai_flat.specs.Forms.{flat_entries, flat_form, flat_forms, flat_list, flat_object, flat_pointer, foreign_form, range_form};
ghost use Rattle.rhai_flat.specs.Rows.{IsAppended};

use grain_base::Float;
use grain_flat_file::CValue;
use grain_flat_file::tags::{
    ARRAY, BLOB, CHARACTER, FALSE, FLOAT, FN_PTR, INTEGER, MAP, RANGE, RANGE_INCLUSIVE, SHARED,
    TEXT, TRUE, UNIT,
};
use rhai_values::{Cause, Foreign, Interval, List, Object, Pointer, Value};
use std::alloc::Global;
use std::collections::BTreeMap;

/// Values in flat form, one after another.
///
/// Each value is a row, followed by the rows of what is in it. The bytes of texts and blobs are in the order of their rows,
/// without gaps.
#[derive(Drop)]
pub struct FlatValues {
    rows: Vec<CValue>,
    texts: Vec<u8>,
}

impl FlatValues {
    /// No values.
    #[must_use]
    pub fn new(alloc: Global) -> FlatValues
        ensures { (result.rows.items ≡ []) × (result.texts.items ≡ []) }
    {
        FlatValues {
            rows: Vec::new(alloc),
            texts: Vec::new(alloc),
        }
    }

    /// The rows of all values.
    #[must_use]
    pub fn rows(&self) -> &[CValue]
        ensures { result.now ≡ self.now.rows.items }
    {
        self.rows.as_slice()
    }

    /// The bytes of all texts and blobs.
    #[must_use]
    pub fn texts(&self) -> &[u8]
        ensures { result.now ≡ self.now.texts.items }
    {
        self.texts.as_slice()
    }

    /// Drops all values. The memory is kept for others.
    pub fn clear(&mut self)
        ensures { (self.new.rows.items ≡ []) × (self.new.texts.items ≡ []) }
    {
        self.rows.clear();
        self.texts.clear();
    }

    /// Appends a value. It takes time and memory by the size of the value, and recurses by its depth.
    ///
    /// # Errors
    /// - [`Cause::Unsupported`]: a shared variable is in it. Its index means nothing outside the run.
    /// - [`Cause::TooLarge`]: an array, a map, a text or a blob in it has 2 ^ 32 items, entries or bytes, or more.
    /// - [`Cause::OutOfMemory`].
    ///
    /// Then nothing is appended.
    pub fn write(&mut self, value: &Value) -> Result<(), Cause>
        ensures { OnOk result (IsAppended self.old self.new
            (value_rows (flat_form value.now)) (value_texts (flat_form value.now))) }
    {
        let rows = self.rows.len();
        let bytes = self.texts.len();
        match self.add(value) {
            Ok(()) => Ok(()),
            Err(cause) => {
                self.rows.truncate(rows);
                self.texts.truncate(bytes);
                Err(cause)
            }
        }
    }

    /// Appends a row.
    fn push(&mut self, tag: u32, count: usize, number: i64) -> Result<(), Cause>
        ensures rows { OnOk result
            (self.new.rows.items ≡ self.old.rows.items ++ value_row tag count number ∷ []) }
        ensures texts { self.new.texts ≡ self.old.texts }
    {
        let Ok(count) = u32::try_from(count) else {
            return Err(Cause::TooLarge);
        };
        self.rows.push(CValue { tag, count, number })?;
        Ok(())
    }

    /// Appends a row that has no bytes.
    fn push_plain(&mut self, tag: u32, count: usize, number: i64) -> Result<(), Cause>
        requires { has_bytes tag ≡ false }
        ensures { OnOk result
            (IsAppended self.old self.new (value_row tag count number ∷ []) []) }
    {
        self.push(tag, count, number)
    }

    /// Appends a text or a blob.
    fn push_bytes(&mut self, tag: u32, bytes: &[u8]) -> Result<(), Cause>
        requires { has_bytes tag ≡ true }
        ensures { OnOk result
            (IsAppended self.old self.new (counted_row tag (length bytes.now) ∷ []) bytes.now) }
    {
        let Ok(from) = i64::try_from(self.texts.len()) else {
            return Err(Cause::TooLarge);
        };
        self.push(tag, bytes.len(), from)?;
        self.texts.extend_from_slice(bytes)?;
        Ok(())
    }

    /// Appends a range.
    fn push_range(&mut self, range: &Interval) -> Result<(), Cause>
        ensures { OnOk result (IsAppended self.old self.new
            (value_rows (range_form range.now.inclusive range.now))
            (value_texts (range_form range.now.inclusive range.now))) }
    {
        let tag = if range.inclusive {
            RANGE_INCLUSIVE
        } else {
            RANGE
        };
        self.push_plain(tag, 0, 0)?;
        self.push_plain(INTEGER, 0, range.from)?;
        self.push_plain(INTEGER, 0, range.to)
    }

    /// Appends a floating-point number.
    #[tactic(auto, using(grain_flat_file::proofs::FloatNumbers::number_of_bits))]
    fn push_float(&mut self, number: f64) -> Result<(), Cause>
        ensures { OnOk result (IsAppended self.old self.new
            (value_rows (form.float (to_bits binary64 number))) []) }
    {
        self.push_plain(FLOAT, 0, Float::of(number).bits.cast_signed())
    }

    /// Appends a value of the host.
    fn push_foreign(&mut self, foreign: &Foreign) -> Result<(), Cause>
        ensures { OnOk result (IsAppended self.old self.new
            (value_rows (foreign_form foreign.now)) (value_texts (foreign_form foreign.now))) }
    {
        self.push_plain(SHARED, 0, 0)?;
        self.push_plain(RANGE, 0, 0)?;
        self.push_plain(INTEGER, 0, foreign.kind)?;
        self.push_plain(INTEGER, 0, foreign.number)
    }

    /// Appends a value.
    #[cycle(add_value)]
    fn add(&mut self, value: &Value) -> Result<(), Cause>
        ensures { OnOk result (IsAppended self.old self.new
            (value_rows (flat_form value.now)) (value_texts (flat_form value.now))) }
    {
        match value {
            Value::Unit => self.push_plain(UNIT, 0, 0),
            Value::Bool(x) => self.push_plain(if *x { TRUE } else { FALSE }, 0, 0),
            Value::Int(z) => self.push_plain(INTEGER, 0, *z),
            Value::Char(c) => self.push_plain(CHARACTER, 0, i64::from(*c as u32)),
            Value::Text(text) => self.push_bytes(TEXT, text.as_str().as_bytes()),
            Value::Range(range) => self.push_range(range),
            Value::Array(list) => self.add_array(list),
            Value::Blob(bytes) => self.push_bytes(BLOB, bytes),
            Value::Map(object) => self.add_map(object),
            Value::Pointer(pointer) => self.add_pointer(pointer),
            Value::Foreign(foreign) => self.push_foreign(foreign),
            Value::Float(x) => self.push_float(*x),
            Value::Shared(_) => Err(Cause::Unsupported),
        }
    }

    /// Appends an array.
    #[cycle(add_value)]
    fn add_array(&mut self, list: &List) -> Result<(), Cause>
        ensures { OnOk result (IsAppended self.old self.new
            (value_rows (flat_list list.now)) (value_texts (flat_list list.now))) }
    {
        self.push_plain(ARRAY, list.items().len(), 0)?;
        self.add_all(list.items())?;
        Ok(())
    }

    /// Appends a function pointer.
    #[cycle(add_value)]
    fn add_pointer(&mut self, pointer: &Pointer) -> Result<(), Cause>
        ensures { OnOk result (IsAppended self.old self.new
            (value_rows (flat_pointer pointer.now)) (value_texts (flat_pointer pointer.now))) }
    {
        self.push_plain(FN_PTR, pointer.bound().len(), 0)?;
        self.push_bytes(TEXT, pointer.name().as_bytes())?;
        self.add_all(pointer.bound())?;
        Ok(())
    }

    /// Appends values, one after another.
    #[cycle(add_value)]
    fn add_all(&mut self, values: &[Value]) -> Result<(), Cause>
        ensures { OnOk result (IsAppended self.old self.new
            (flat_map value_rows (flat_forms values.now)) (flat_map value_texts (flat_forms values.now))) }
    {
        for value in values {
            self.add(value)?;
        }
        Ok(())
    }

    /// Appends a map.
    #[cycle(add_value)]
    fn add_map(&mut self, object: &Object) -> Result<(), Cause>
        ensures { OnOk result (IsAppended self.old self.new
            (value_rows (flat_object object.now)) (value_texts (flat_object object.now))) }
    {
        self.push_plain(MAP, object.entries().len(), 0)?;
        self.add_entries(object.entries())?;
        Ok(())
    }

    /// Appends the entries of a map.
    #[cycle(add_value)]
    fn add_entries(&mut self, entries: &BTreeMap<String, Value>) -> Result<(), Cause>
        ensures { OnOk result (IsAppended self.old self.new
            (flat_map entry_rows (flat_entries entries.now.entries))
            (flat_map entry_texts (flat_entries entries.now.entries))) }
    {
        for (key, value) in entries {
            self.push_bytes(TEXT, key.as_bytes())?;
            self.add(value)?;
        }
        Ok(())
    }
}
