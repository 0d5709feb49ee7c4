//! Values: a tag, and what it holds.
ghost use Rattle.std.specs.Prelude.{◌≡◌, ◌<◌, ◌++◌, ◌^◌, List, Option, None, Some, OnOk, IfOk, IfErr, length, option_map, string_bytes};
ghost use Rattle.std.specs.List.{AllByRecursion};
ghost use Rattle.grain_format.specs.Reading.{Decides, Gives};
ghost use Rattle.grain_format.specs.Lists.{CountedFit, counted_at, counted_spelling};
ghost use Rattle.grain_format.specs.Refusals.{counted_refusal};
ghost use Rattle.grain_format.specs.Form.{KeysAscend, EntryFits, IsSound, array, blob, character, comes_after, form_entries_of, entry_forms, entry_spelled, value_form, forms, forms_of, fn_ptr, last_key, object_map, pointer_form, shared, spelled, text, value_refusal};
ghost use Rattle.grain_format.specs.FormSound.{entry_refusal};
ghost use Rattle.grain_format.specs.FormAt.{behind_tag, character_at, counted_entries_at, pointer_at, value_at};

use crate::cursor::Cursor;
use crate::error::{FieldFault, Stop, Unkept, WriteError};
use crate::integer::{put_integer, read_integer};
use crate::lists::reserve;
use crate::number::{put_bytes, put_number, put_string};
use grain_base::{Dynamic, Float, FnPtr};
use std::alloc::AllocError;
use std::collections::BTreeMap;

/// Reads a character, as its number.
fn read_character(cursor: &mut Cursor<'_>) -> Result<char, Stop>
    ensures { Gives (λ c. c) result cursor.new.left.now (character_at cursor.old.left.now) }
{
    let start = cursor.left;
    let n = cursor.number_32()?;
    match char::from_u32(n) {
        Some(c) => Ok(c),
        None => {
            cursor.left = start;
            Err(Stop::FieldFault(FieldFault::NotCharacter))
        }
    }
}

/// A function pointer of these parts.
fn make_pointer(name: String, curry: Vec<Dynamic>) -> FnPtr
    ensures { pointer_form result ≡ fn_ptr (string_bytes name) (forms_of (forms curry.items)) }
{
    FnPtr { name, curry }
}

/// Reads a value, in which values are nested so deep at most.
#[cycle(value)]
#[tactic(auto, unfolding(crate::specs::FormAt::value_at))]
pub(crate) fn read_value(cursor: &mut Cursor<'_>, depth: u32) -> Result<Dynamic, Stop>
    ensures { Gives value_form result cursor.new.left.now (value_at depth cursor.old.left.now) }
{
    let Some(less) = depth.checked_sub(1) else {
        return Err(Stop::FieldFault(FieldFault::TooDeep));
    };
    let Some((tag, rest)) = cursor.left.split_first() else {
        return Err(Stop::FieldFault(FieldFault::Truncated));
    };
    if *tag > 13 {
        return Err(Stop::FieldFault(FieldFault::UnknownTag));
    }
    cursor.left = rest;
    read_behind(cursor, *tag, less)
}

/// Reads what stands behind a tag.
#[cycle(value)]
#[tactic(auto, unfolding(crate::specs::FormAt::behind_tag))]
fn read_behind(cursor: &mut Cursor<'_>, tag: u8, depth: u32) -> Result<Dynamic, Stop>
    requires { tag < 14 }
    ensures { Gives value_form result cursor.new.left.now
        (behind_tag (value_at depth) tag cursor.old.left.now) }
{
    match tag {
        0 => Ok(Dynamic::Unit),
        1 => Ok(Dynamic::Bool(false)),
        2 => Ok(Dynamic::Bool(true)),
        3 => {
            let z = read_integer(cursor)?;
            Ok(Dynamic::Int(z))
        }
        4 => {
            let c = read_character(cursor)?;
            Ok(Dynamic::Char(c))
        }
        5 => {
            let text = cursor.text()?;
            Ok(Dynamic::Str(String::from_str(cursor.alloc, text)?))
        }
        6 => {
            let from = read_integer(cursor)?;
            let to = read_integer(cursor)?;
            Ok(Dynamic::Range(from, to))
        }
        7 => {
            let from = read_integer(cursor)?;
            let to = read_integer(cursor)?;
            Ok(Dynamic::RangeInclusive(from, to))
        }
        8 => {
            let items = read_values(cursor, depth)?;
            Ok(Dynamic::Array(items))
        }
        9 => {
            let bytes = cursor.bytes()?;
            Ok(Dynamic::Blob(Vec::from_slice(cursor.alloc, bytes)?))
        }
        10 => {
            let entries = read_entries(cursor, depth)?;
            Ok(Dynamic::Map(entries))
        }
        11 => {
            let pointer = read_pointer(cursor, depth)?;
            Ok(Dynamic::FnPtr(pointer))
        }
        12 => {
            let inner = read_value(cursor, depth)?;
            Ok(Dynamic::Shared(Box::new(cursor.alloc, inner)?))
        }
        _ => {
            let bits = cursor.number()?;
            Ok(Dynamic::Float(Float { bits }))
        }
    }
}

/// Reads a name, and the values that are bound.
#[cycle(value)]
fn read_pointer(cursor: &mut Cursor<'_>, depth: u32) -> Result<FnPtr, Stop>
    ensures { Gives pointer_form result cursor.new.left.now
        (pointer_at (value_at depth) cursor.old.left.now) }
{
    let name = cursor.text()?;
    let name = String::from_str(cursor.alloc, name)?;
    let curry = read_values(cursor, depth)?;
    Ok(make_pointer(name, curry))
}

/// Reads how many values there are, and each, in which values are nested at most `depth` deep.
///
/// Time and memory are linear in the bytes that it reads; time is m log m for an object map of m entries. The call stack grows
/// with the depth. For a count nothing is reserved beyond the number of bytes that are left.
///
/// # Errors
/// A `FieldFault` if the bytes at the cursor are no such values: `Truncated`, `TooWide`, `NotShortest`, `NotText`, `NotCharacter`,
/// `UnknownTag`, `KeyOrder` or `TooDeep`. `OutOfMemory` if an allocation failed.
#[cycle(value)]
pub fn read_values(cursor: &mut Cursor<'_>, depth: u32) -> Result<Vec<Dynamic>, Stop>
    ensures { Gives (λ v. forms v.items) result cursor.new.left.now
        (counted_at (value_at depth) cursor.old.left.now) }
{
    let list = cursor.part;
    let count = cursor.number()?;
    let mut values = Vec::with_capacity(cursor.alloc, reserve(count, cursor.left.len()))?;
    'values: for index in 0..count {
        cursor.part = list.item(index as usize);
        let value = read_value(cursor, depth)?;
        values.push(value)?;
    }
    Ok(values)
}

/// Reads how many entries there are, and each.
#[cycle(value)]
fn read_entries(cursor: &mut Cursor<'_>, depth: u32) -> Result<BTreeMap<String, Dynamic>, Stop>
    ensures { Gives (λ m. entry_forms m.entries) result cursor.new.left.now
        (counted_entries_at (value_at depth) cursor.old.left.now) }
{
    let count = cursor.number()?;
    let mut entries = BTreeMap::new(cursor.alloc);
    'entries: for _ in 0..count {
        let start = cursor.left;
        let key = cursor.text()?;
        if !comes_after(&entries, key) {
            cursor.left = start;
            return Err(Stop::FieldFault(FieldFault::KeyOrder));
        }
        let value = read_value(cursor, depth)?;
        let key = String::from_str(cursor.alloc, key)?;
        entries.insert(key, value)?;
    }
    Ok(entries)
}

/// Whether a key comes after those of the entries.
fn comes_after(entries: &BTreeMap<String, Dynamic>, key: &str) -> bool
    ensures { result ≡ comes_after (last_key (entry_forms entries.now.entries)) key.now }
{
    match entries.last_key_value() {
        None => true,
        Some((last, _)) => last.as_str().cmp(key).is_lt(),
    }
}

/// Appends a value. Time and memory are linear in the bytes that it appends. The call stack grows with the depth of the value.
///
/// # Errors
/// `Unkept` if a value of the host is in it. `OutOfMemory` if an allocation failed.
#[cycle(put_value)]
pub fn put_value(out: &mut Vec<u8>, value: &Dynamic) -> Result<(), WriteError>
    ensures spelled { OnOk result (out.new.items ≡ out.old.items ++ spelled (value_form value.now)) }
    ensures sound { OnOk result (IsSound (value_form value.now)) }
    ensures decides { Decides result (value_refusal (value_form value.now)) }
{
    match value {
        Dynamic::Unit => {
            out.push(0)?;
            Ok(())
        }
        Dynamic::Bool(x) => {
            out.push(if *x { 2 } else { 1 })?;
            Ok(())
        }
        Dynamic::Int(z) => {
            out.push(3)?;
            put_integer(out, *z)?;
            Ok(())
        }
        Dynamic::Char(c) => {
            put_character(out, *c)?;
            Ok(())
        }
        Dynamic::Str(text) => {
            put_text(out, text)?;
            Ok(())
        }
        Dynamic::Range(from, to) => {
            out.push(6)?;
            put_integer(out, *from)?;
            put_integer(out, *to)?;
            Ok(())
        }
        Dynamic::RangeInclusive(from, to) => {
            out.push(7)?;
            put_integer(out, *from)?;
            put_integer(out, *to)?;
            Ok(())
        }
        Dynamic::Array(items) => {
            put_array(out, items)?;
            Ok(())
        }
        Dynamic::Blob(bytes) => {
            put_blob(out, bytes)?;
            Ok(())
        }
        Dynamic::Map(entries) => {
            put_map(out, entries)?;
            Ok(())
        }
        Dynamic::FnPtr(pointer) => {
            put_pointer(out, pointer)?;
            Ok(())
        }
        Dynamic::Shared(inner) => {
            put_shared(out, inner)?;
            Ok(())
        }
        Dynamic::Host(_) => Err(WriteError::Unkept(Unkept::HostValue)),
        Dynamic::Float(x) => {
            out.push(13)?;
            put_number(out, x.bits)?;
            Ok(())
        }
    }
}

fn put_character(out: &mut Vec<u8>, c: char) -> Result<(), AllocError>
    ensures spelled { OnOk result (out.new.items ≡ out.old.items ++ spelled (character c)) }
    ensures sound { OnOk result (IsSound (character c)) }
{
    out.push(4)?;
    put_number(out, u64::from(c as u32))?;
    Ok(())
}

fn put_text(out: &mut Vec<u8>, string: &String) -> Result<(), AllocError>
    ensures spelled { OnOk result
        (out.new.items ≡ out.old.items ++ spelled (text (string_bytes string.now))) }
    ensures sound { OnOk result (IsSound (text (string_bytes string.now))) }
{
    out.push(5)?;
    put_string(out, string)?;
    Ok(())
}

fn put_blob(out: &mut Vec<u8>, bytes: &Vec<u8>) -> Result<(), AllocError>
    ensures spelled { OnOk result
        (out.new.items ≡ out.old.items ++ spelled (blob bytes.now.items)) }
    ensures sound { OnOk result (IsSound (blob bytes.now.items)) }
{
    out.push(9)?;
    put_bytes(out, bytes.as_slice())?;
    Ok(())
}

/// Appends a shared value.
#[cycle(put_value)]
fn put_shared(out: &mut Vec<u8>, inner: &Box<Dynamic>) -> Result<(), WriteError>
    ensures spelled { OnOk result (out.new.items
        ≡ out.old.items ++ spelled (shared (value_form inner.now.value))) }
    ensures sound { OnOk result (IsSound (shared (value_form inner.now.value))) }
    ensures decides { Decides result (value_refusal (shared (value_form inner.now.value))) }
{
    out.push(12)?;
    put_value(out, inner)?;
    Ok(())
}

/// Appends an array: how many values there are, and each.
#[cycle(put_value)]
fn put_array(out: &mut Vec<u8>, values: &Vec<Dynamic>) -> Result<(), WriteError>
    ensures spelled { OnOk result (out.new.items
        ≡ out.old.items ++ spelled (array (forms_of (forms values.now.items)))) }
    ensures sound { OnOk result (IsSound (array (forms_of (forms values.now.items)))) }
    ensures decides { Decides result
        (value_refusal (array (forms_of (forms values.now.items)))) }
{
    out.push(8)?;
    put_values(out, values)?;
    Ok(())
}

/// Appends a function pointer: its name, and the values that are bound.
#[cycle(put_value)]
fn put_pointer(out: &mut Vec<u8>, pointer: &FnPtr) -> Result<(), WriteError>
    ensures spelled { OnOk result
        (out.new.items ≡ out.old.items ++ spelled (pointer_form pointer.now)) }
    ensures sound { OnOk result (IsSound (pointer_form pointer.now)) }
    ensures decides { Decides result (value_refusal (pointer_form pointer.now)) }
{
    let FnPtr { name, curry } = pointer;
    out.push(11)?;
    put_string(out, name)?;
    put_values(out, curry)?;
    Ok(())
}

/// Appends how many values there are, and each.
#[cycle(put_value)]
fn put_values(out: &mut Vec<u8>, values: &[Dynamic]) -> Result<(), WriteError>
    ensures spelled { OnOk result (out.new.items
        ≡ out.old.items ++ counted_spelling spelled (forms values.now)) }
    ensures sound { OnOk result (CountedFit IsSound (forms values.now)) }
    ensures decides { Decides result (counted_refusal value_refusal (forms values.now)) }
{
    put_number(out, values.len() as u64)?;
    for value in values {
        put_value(out, value)?;
    }
    Ok(())
}

/// Appends a map: how many entries there are, and each.
#[cycle(put_value)]
fn put_map(out: &mut Vec<u8>, entries: &BTreeMap<String, Dynamic>) -> Result<(), WriteError>
    ensures spelled { OnOk result (out.new.items
        ≡ out.old.items ++ spelled (object_map (form_entries_of (entry_forms entries.now.entries)))) }
    ensures sound { OnOk result
        (IsSound (object_map (form_entries_of (entry_forms entries.now.entries)))) }
    ensures decides { Decides result
        (value_refusal (object_map (form_entries_of (entry_forms entries.now.entries)))) }
{
    out.push(10)?;
    put_entries(out, entries)?;
    Ok(())
}

/// Appends how many entries there are, and each.
#[cycle(put_value)]
fn put_entries(out: &mut Vec<u8>, entries: &BTreeMap<String, Dynamic>) -> Result<(), WriteError>
    ensures spelled { OnOk result (out.new.items ≡ out.old.items
        ++ counted_spelling entry_spelled (entry_forms entries.now.entries)) }
    ensures count { OnOk result (length (entry_forms entries.now.entries) < 2 ^ 64) }
    ensures sound { OnOk result
        (AllByRecursion (EntryFits IsSound) (entry_forms entries.now.entries)) }
    ensures ascend { OnOk result (KeysAscend None (entry_forms entries.now.entries)) }
    ensures decides { Decides result
        (counted_refusal entry_refusal (entry_forms entries.now.entries)) }
{
    put_number(out, entries.len() as u64)?;
    for (key, value) in entries.iter() {
        put_string(out, key)?;
        put_value(out, value)?;
    }
    Ok(())
}
