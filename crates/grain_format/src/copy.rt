//! Copies of values.
ghost use Rattle.std.specs.Prelude.{◌≡◌, IfOk, OnOk, string_bytes};
ghost use Rattle.std.specs.BTreeMap.{insert_entry};
ghost use Rattle.std.specs.String.{string_cmp};
ghost use Rattle.grain_base.specs.View.{content, entries_content, items_content, pointer_content};

use grain_base::{Dynamic, FnPtr, HostValue};
use std::alloc::{AllocError, Global};
use std::collections::BTreeMap;

/// A value of the same content. It takes the call stack by the depth of the value.
#[cycle(copy)]
pub(crate) fn copy(alloc: Global, value: &Dynamic) -> Result<Dynamic, AllocError>
    ensures { IfOk result (λ v. content v ≡ content value.now) }
{
    Ok(match value {
        Dynamic::Unit => Dynamic::Unit,
        Dynamic::Bool(x) => Dynamic::Bool(*x),
        Dynamic::Int(z) => Dynamic::Int(*z),
        Dynamic::Char(c) => Dynamic::Char(*c),
        Dynamic::Str(text) => Dynamic::Str(String::from_str(alloc, text)?),
        Dynamic::Range(from, to) => Dynamic::Range(*from, *to),
        Dynamic::RangeInclusive(from, to) => Dynamic::RangeInclusive(*from, *to),
        Dynamic::Array(items) => Dynamic::Array(copy_items(alloc, items)?),
        Dynamic::Blob(bytes) => Dynamic::Blob(Vec::from_slice(alloc, bytes)?),
        Dynamic::Map(entries) => Dynamic::Map(copy_entries(alloc, entries)?),
        Dynamic::FnPtr(pointer) => Dynamic::FnPtr(copy_pointer(alloc, pointer)?),
        Dynamic::Shared(inner) => copy(alloc, inner)?,
        Dynamic::Host(host) => Dynamic::Host(copy_host(alloc, host)?),
        Dynamic::Float(x) => Dynamic::Float(*x),
    })
}

/// Gives a key its value.
fn put(
    entries: &mut BTreeMap<String, Dynamic>,
    key: String,
    value: Dynamic,
) -> Result<(), AllocError>
    ensures { OnOk result (entries.new.entries
        ≡ insert_entry string_cmp entries.old.entries key value) }
{
    entries.insert(key, value)?;
    Ok(())
}

fn copy_host(alloc: Global, host: &HostValue) -> Result<HostValue, AllocError>
    ensures { IfOk result (λ h. (string_bytes h.type_name ≡ string_bytes host.now.type_name) × (h.id ≡ host.now.id)) }
{
    let type_name = String::from_str(alloc, &host.type_name)?;
    Ok(HostValue {
        type_name,
        id: host.id,
    })
}

#[cycle(copy)]
fn copy_pointer(alloc: Global, pointer: &FnPtr) -> Result<FnPtr, AllocError>
    ensures { IfOk result (λ p. pointer_content p ≡ pointer_content pointer.now) }
{
    let name = String::from_str(alloc, &pointer.name)?;
    let curry = copy_items(alloc, &pointer.curry)?;
    Ok(FnPtr { name, curry })
}

#[cycle(copy)]
fn copy_items(alloc: Global, items: &[Dynamic]) -> Result<Vec<Dynamic>, AllocError>
    ensures { IfOk result (λ v. items_content v.items ≡ items_content items.now) }
{
    let mut copies = Vec::with_capacity(alloc, items.len())?;
    for item in items {
        copies.push(copy(alloc, item)?)?;
    }
    Ok(copies)
}

#[cycle(copy)]
fn copy_entries(
    alloc: Global,
    entries: &BTreeMap<String, Dynamic>,
) -> Result<BTreeMap<String, Dynamic>, AllocError>
    ensures { IfOk result (λ m. entries_content m.entries ≡ entries_content entries.now.entries) }
{
    let mut copies = BTreeMap::new(alloc);
    for (key, value) in entries.iter() {
        let value = copy(alloc, value)?;
        let key = String::from_str(alloc, key)?;
        put(&mut copies, key, value)?;
    }
    Ok(copies)
}
