//! Constants: values of each kind that a file keeps, nested in one another.
//!
//! The seed of a constant decides its value, so that the case of a switch is made as a second one of the same seed.

use crate::chance::Chance;
use grain::{Dynamic, Float, FnPtr};
use std::alloc::{AllocError, Global};
use std::collections::BTreeMap;

/// How deep values are nested around the innermost one, at most.
const LAYERS: u32 = 4;

/// A value that holds no other.
#[derive(Clone, Copy)]
enum Leaf {
    Unit,
    Bool,
    Int,
    Char,
    Text,
    Range,
    RangeInclusive,
    Blob,
    Float,
}

static LEAVES: [Leaf; 9] = [
    Leaf::Unit,
    Leaf::Bool,
    Leaf::Int,
    Leaf::Char,
    Leaf::Text,
    Leaf::Range,
    Leaf::RangeInclusive,
    Leaf::Blob,
    Leaf::Float,
];

/// A value that holds others.
#[derive(Clone, Copy)]
enum Layer {
    Array,
    Map,
    Pointer,
    Shared,
}

static LAYER_KINDS: [Layer; 4] = [Layer::Array, Layer::Map, Layer::Pointer, Layer::Shared];

static TEXTS: [&str; 6] = ["", "x", "length", "a\nb", "é\u{1f600}", "\""];

static CHARS: [char; 5] = ['a', '\n', '\'', 'é', '\u{1f600}'];

static INTEGERS: [i64; 7] = [0, 1, -1, 42, 1000, i64::MIN, i64::MAX];

/// Bits of floats: zeros, fractions, numbers with exponents, infinities and two NaN.
static FLOAT_BITS: [u64; 9] = [
    0x0000_0000_0000_0000,
    0x8000_0000_0000_0000,
    0x3ff8_0000_0000_0000,
    0xc024_0000_0000_0000,
    0x7fef_ffff_ffff_ffff,
    0x0000_0000_0000_0001,
    0x7ff0_0000_0000_0000,
    0x7ff8_0000_0000_0000,
    0xfff8_0000_0000_0001,
];

/// A float of the table, or one of any bits.
fn float(chance: &mut Chance) -> Float {
    match chance.pick(&FLOAT_BITS) {
        Some(bits) if chance.one_in(2) => Float { bits },
        _ => Float {
            bits: chance.word(),
        },
    }
}

fn text(alloc: Global, chance: &mut Chance) -> Result<String, AllocError> {
    String::from_str(alloc, chance.pick(&TEXTS).unwrap_or_default())
}

fn integer(chance: &mut Chance) -> i64 {
    match chance.pick(&INTEGERS) {
        Some(value) if chance.one_in(2) => value,
        _ => i64::from(chance.below(1000)),
    }
}

fn blob(alloc: Global, chance: &mut Chance) -> Result<Vec<u8>, AllocError> {
    let mut bytes = Vec::new(alloc);
    for _turn in 0..chance.below(5) {
        bytes.push(chance.byte(u8::MAX))?;
    }
    Ok(bytes)
}

/// A value that holds no other.
fn simple(alloc: Global, chance: &mut Chance) -> Result<Dynamic, AllocError> {
    match chance.pick(&LEAVES).unwrap_or(Leaf::Unit) {
        Leaf::Unit => Ok(Dynamic::Unit),
        Leaf::Bool => Ok(Dynamic::Bool(chance.one_in(2))),
        Leaf::Int => Ok(Dynamic::Int(integer(chance))),
        Leaf::Char => Ok(Dynamic::Char(chance.pick(&CHARS).unwrap_or('a'))),
        Leaf::Text => Ok(Dynamic::Str(text(alloc, chance)?)),
        Leaf::Range => {
            let from = integer(chance);
            Ok(Dynamic::Range(from, integer(chance)))
        }
        Leaf::RangeInclusive => {
            let from = integer(chance);
            Ok(Dynamic::RangeInclusive(from, integer(chance)))
        }
        Leaf::Blob => Ok(Dynamic::Blob(blob(alloc, chance)?)),
        Leaf::Float => Ok(Dynamic::Float(float(chance))),
    }
}

/// The value and another one as a list.
fn with_another(
    alloc: Global,
    chance: &mut Chance,
    value: Dynamic,
) -> Result<Vec<Dynamic>, AllocError> {
    let mut items = Vec::new(alloc);
    items.push(simple(alloc, chance)?)?;
    items.push(value)?;
    Ok(items)
}

/// The value and another one as an object map.
fn entries(
    alloc: Global,
    chance: &mut Chance,
    value: Dynamic,
) -> Result<BTreeMap<String, Dynamic>, AllocError> {
    let mut entries = BTreeMap::new(alloc);
    let key = text(alloc, chance)?;
    let _ = entries.insert(key, simple(alloc, chance)?)?;
    let key = text(alloc, chance)?;
    let _ = entries.insert(key, value)?;
    Ok(entries)
}

/// A value that holds this one.
fn around(alloc: Global, chance: &mut Chance, value: Dynamic) -> Result<Dynamic, AllocError> {
    match chance.pick(&LAYER_KINDS).unwrap_or(Layer::Array) {
        Layer::Array => Ok(Dynamic::Array(with_another(alloc, chance, value)?)),
        Layer::Map => Ok(Dynamic::Map(entries(alloc, chance, value)?)),
        Layer::Pointer => {
            let name = text(alloc, chance)?;
            let curry = with_another(alloc, chance, value)?;
            Ok(Dynamic::FnPtr(FnPtr { name, curry }))
        }
        Layer::Shared => Ok(Dynamic::Shared(Box::new(alloc, value)?)),
    }
}

/// The constant of a seed. Half of them hold others.
pub fn constant(alloc: Global, seed: u64) -> Result<Dynamic, AllocError> {
    let mut chance = Chance::new(seed);
    let mut value = simple(alloc, &mut chance)?;
    if chance.one_in(2) {
        for _layer in 0..chance.below(LAYERS) {
            value = around(alloc, &mut chance, value)?;
        }
    }
    Ok(value)
}
