//! Values of scripts, as constants of a program and cases of a switch hold them.
//!
//! A value has the content that is left of it once every shared mark is taken off, at every depth. Two values are equal
//! if they have one content, and what a hash is fed is read off the content alone.
ghost use Rattle.std.specs.Prelude.{◌≡◌, false, fold};
ghost use Rattle.grain_base.specs.Content.{same, same_items, same_entries, hashable, hashable_items, hashable_entries, hash_writes, counted_items_writes, counted_entries_writes};
ghost use Rattle.grain_base.specs.View.{is_shared, content, pointer_content, items_content, entries_content};

mod text;

use crate::float::Float;
use std::collections::BTreeMap;
use std::hash::{Hash, Hasher};

/// A function by its name, with the first arguments of its calls.
#[derive(Drop)]
#[cycle(value)]
pub struct FnPtr {
    /// The name of the function.
    pub name: String,
    /// The arguments that are bound already, in order.
    pub curry: Vec<Dynamic>,
}

/// A value of a type that only the host knows.
#[derive(PartialEq, Eq, Hash, Drop)]
pub struct HostValue {
    /// The name of the type.
    pub type_name: String,
    /// Which value of the type it is.
    pub id: u64,
}

/// A value.
///
/// Two values are equal if they have the same kind and the same content. A shared value has the kind and the content
/// of what it holds, at every depth, and equal values have equal hashes.
///
/// The size of a value counts it and each value in it, at every depth, each shared mark, and each byte of its texts and
/// blobs. To compare two values takes time by both sizes at most, to hash one by its own. No memory is taken but the call
/// stack, by the depth.
#[derive(Drop)]
#[cycle(value)]
pub enum Dynamic {
    /// The value of what gives none.
    Unit,
    /// A truth value.
    Bool(bool),
    /// An integer.
    Int(i64),
    /// A character.
    Char(char),
    /// A text.
    Str(String),
    /// The integers from the first up to the second, without it.
    Range(i64, i64),
    /// The integers from the first up to the second, with it.
    RangeInclusive(i64, i64),
    /// Values in order.
    Array(Vec<Dynamic>),
    /// Bytes in order.
    Blob(Vec<u8>),
    /// An object map: values by the names of its properties.
    Map(BTreeMap<String, Dynamic>),
    /// A function by its name.
    FnPtr(FnPtr),
    /// A value that several variables hold.
    Shared(Box<Dynamic>),
    /// A value that only the host can look into.
    Host(HostValue),
    /// A floating-point number.
    Float(Float),
}

impl Dynamic {
    /// Whether the value can be a case of a switch: whether no value of the host is in it, at any depth.
    ///
    /// It looks at each value in it once at most, and takes no memory but the call stack, by the depth.
    #[cycle(hashable)]
    #[must_use]
    pub fn is_hashable(&self) -> bool
        ensures { result ≡ hashable (content self.now) }
    {
        match self {
            Dynamic::Array(items) => are_hashable(items),
            Dynamic::Map(entries) => are_entries_hashable(entries),
            Dynamic::FnPtr(pointer) => are_hashable(&pointer.curry),
            Dynamic::Shared(inner) => inner.is_hashable(),
            Dynamic::Host(_) => false,
            Dynamic::Unit
            | Dynamic::Bool(_)
            | Dynamic::Int(_)
            | Dynamic::Char(_)
            | Dynamic::Str(_)
            | Dynamic::Range(_, _)
            | Dynamic::RangeInclusive(_, _)
            | Dynamic::Blob(_)
            | Dynamic::Float(_) => true,
        }
    }

    /// The value without the shared marks around it. It takes time linear in their number.
    ///
    /// It is public so that a caller who compares often takes the marks off once, as [`PartialEq`] and `Switch::dispatch` do:
    /// marks nested on both sides then cost their sum and not their product.
    #[must_use]
    pub fn unshared(&self) -> &Dynamic
        ensures same_content { content result.now ≡ content self.now }
        ensures bare { is_shared result.now ≡ false }
    {
        let mut value = self;
        while let Dynamic::Shared(inner) = value {
            value = inner;
        }
        value
    }
}

#[cycle(hashable)]
fn are_hashable(items: &[Dynamic]) -> bool
    ensures { result ≡ hashable_items (items_content items.now) }
{
    for item in items {
        if !item.is_hashable() {
            return false;
        }
    }
    true
}

#[cycle(hashable)]
fn are_entries_hashable(entries: &BTreeMap<String, Dynamic>) -> bool
    ensures { result ≡ hashable_entries (entries_content entries.now.entries) }
{
    for (_, value) in entries {
        if !value.is_hashable() {
            return false;
        }
    }
    true
}

impl PartialEq for Dynamic {
    ghost use Rattle.grain_base.specs.Content.{same};
    ghost use Rattle.grain_base.specs.View.{content};
    ghost use Rattle.grain_base.specs.ContentLaws.{same_equivalence};
    ghost use Rattle.std.specs.Cmp.{on_per, partial_equiv_from_equiv};

    ghost eq = { λ v w. same (content v) (content w) };

    ghost laws = { on_per content (partial_equiv_from_equiv same_equivalence) };

    fn eq(&self, other: &Dynamic) -> bool {
        are_equal(self, other)
    }
}

impl Eq for Dynamic {
    ghost use Rattle.grain_base.specs.View.{content};
    ghost use Rattle.grain_base.specs.ContentLaws.{same_equivalence};
    ghost use Rattle.std.specs.Cmp.{on_equiv};

    ghost laws = { on_equiv content same_equivalence };
}

impl PartialEq for FnPtr {
    ghost use Rattle.grain_base.specs.Content.{same};
    ghost use Rattle.grain_base.specs.View.{pointer_content};
    ghost use Rattle.grain_base.specs.ContentLaws.{same_equivalence};
    ghost use Rattle.std.specs.Cmp.{on_per, partial_equiv_from_equiv};

    ghost eq = { λ v w. same (pointer_content v) (pointer_content w) };

    ghost laws = { on_per pointer_content (partial_equiv_from_equiv same_equivalence) };

    fn eq(&self, other: &FnPtr) -> bool {
        are_pointers_equal(self, other)
    }
}

impl Eq for FnPtr {
    ghost use Rattle.grain_base.specs.View.{pointer_content};
    ghost use Rattle.grain_base.specs.ContentLaws.{same_equivalence};
    ghost use Rattle.std.specs.Cmp.{on_equiv};

    ghost laws = { on_equiv pointer_content same_equivalence };
}

#[cycle(equal)]
fn are_equal(left: &Dynamic, right: &Dynamic) -> bool
    ensures { result ≡ same (content left.now) (content right.now) }
{
    match left {
        Dynamic::Shared(inner) => are_equal(inner, right),
        _ => are_bare_equal(left, right.unshared()),
    }
}

/// Whether two values with no shared mark around them are equal.
#[cycle(equal)]
fn are_bare_equal(left: &Dynamic, right: &Dynamic) -> bool
    requires bare_left { is_shared left.now ≡ false }
    requires bare_right { is_shared right.now ≡ false }
    ensures { result ≡ same (content left.now) (content right.now) }
{
    match (left, right) {
        (Dynamic::Unit, Dynamic::Unit) => true,
        (Dynamic::Bool(x), Dynamic::Bool(y)) => x == y,
        (Dynamic::Int(x), Dynamic::Int(y)) => x == y,
        (Dynamic::Char(x), Dynamic::Char(y)) => x == y,
        (Dynamic::Str(x), Dynamic::Str(y)) => x == y,
        (Dynamic::Range(a, b), Dynamic::Range(c, d)) => a == c && b == d,
        (Dynamic::RangeInclusive(a, b), Dynamic::RangeInclusive(c, d)) => a == c && b == d,
        (Dynamic::Array(xs), Dynamic::Array(ys)) => are_items_equal(xs, ys),
        (Dynamic::Blob(x), Dynamic::Blob(y)) => x == y,
        (Dynamic::Map(xs), Dynamic::Map(ys)) => are_entries_equal(xs, ys),
        (Dynamic::FnPtr(x), Dynamic::FnPtr(y)) => are_pointers_equal(x, y),
        (Dynamic::Host(x), Dynamic::Host(y)) => x == y,
        (Dynamic::Float(x), Dynamic::Float(y)) => x == y,
        _ => false,
    }
}

#[cycle(equal)]
fn are_pointers_equal(left: &FnPtr, right: &FnPtr) -> bool
    ensures { result ≡ same (pointer_content left.now) (pointer_content right.now) }
{
    left.name == right.name && are_items_equal(&left.curry, &right.curry)
}

#[cycle(equal)]
fn are_items_equal(left: &[Dynamic], right: &[Dynamic]) -> bool
    ensures { result ≡ same_items (items_content left.now) (items_content right.now) }
{
    if left.len() != right.len() {
        return false;
    }
    for (x, y) in left.iter().zip(right.iter()) {
        if !are_equal(x, y) {
            return false;
        }
    }
    true
}

#[cycle(equal)]
fn are_entries_equal(left: &BTreeMap<String, Dynamic>, right: &BTreeMap<String, Dynamic>) -> bool
    ensures { result
        ≡ same_entries (entries_content left.now.entries) (entries_content right.now.entries) }
{
    if left.len() != right.len() {
        return false;
    }
    for ((key, x), (other_key, y)) in left.iter().zip(right.iter()) {
        if key != other_key || !are_equal(x, y) {
            return false;
        }
    }
    true
}

impl Hash for Dynamic {
    ghost use Rattle.std.specs.Prelude.{◌≡◌};
    ghost use Rattle.grain_base.specs.Content.{hash_writes};
    ghost use Rattle.grain_base.specs.View.{content};
    ghost use Rattle.grain_base.specs.ContentLaws.{hash_writes_Alike};

    ghost hash_input = { λ v. hash_writes (content v) };

    ghost respects_eq = { λ v w h. hash_writes_Alike.fed (content v) (content w) h };

    fn hash<H: Hasher>(&self, state: &mut H) {
        feed(self, state);
    }
}

impl Hash for FnPtr {
    ghost use Rattle.std.specs.Prelude.{◌≡◌};
    ghost use Rattle.grain_base.specs.Content.{hash_writes};
    ghost use Rattle.grain_base.specs.View.{pointer_content};
    ghost use Rattle.grain_base.specs.ContentLaws.{hash_writes_Alike};

    ghost hash_input = { λ v. hash_writes (pointer_content v) };

    ghost respects_eq = { λ v w h. hash_writes_Alike.fed (pointer_content v) (pointer_content w) h };

    fn hash<H: Hasher>(&self, state: &mut H) {
        feed_pointer(self, state);
    }
}

/// Feeds a number for the kind, and then the content. The numbers serve the hash alone.
#[cycle(feed)]
fn feed<H: Hasher>(value: &Dynamic, state: &mut H)
    ensures { state.new ≡ fold H.write state.old (hash_writes (content value.now)) }
{
    match value {
        Dynamic::Unit => state.write_u8(0),
        Dynamic::Bool(x) => {
            state.write_u8(1);
            x.hash(state);
        }
        Dynamic::Int(x) => {
            state.write_u8(2);
            x.hash(state);
        }
        Dynamic::Char(x) => {
            state.write_u8(3);
            x.hash(state);
        }
        Dynamic::Str(text) => {
            state.write_u8(4);
            text.hash(state);
        }
        Dynamic::Range(from, to) => {
            state.write_u8(5);
            from.hash(state);
            to.hash(state);
        }
        Dynamic::RangeInclusive(from, to) => {
            state.write_u8(6);
            from.hash(state);
            to.hash(state);
        }
        Dynamic::Array(items) => {
            state.write_u8(7);
            feed_items(items, state);
        }
        Dynamic::Blob(bytes) => {
            state.write_u8(8);
            bytes.hash(state);
        }
        Dynamic::Map(entries) => {
            state.write_u8(9);
            feed_entries(entries, state);
        }
        Dynamic::FnPtr(pointer) => feed_pointer(pointer, state),
        Dynamic::Shared(inner) => feed(inner, state),
        Dynamic::Host(value) => {
            state.write_u8(11);
            value.hash(state);
        }
        Dynamic::Float(x) => {
            state.write_u8(12);
            x.hash(state);
        }
    }
}

#[cycle(feed)]
fn feed_pointer<H: Hasher>(pointer: &FnPtr, state: &mut H)
    ensures { state.new ≡ fold H.write state.old (hash_writes (pointer_content pointer.now)) }
{
    state.write_u8(10);
    pointer.name.hash(state);
    feed_items(&pointer.curry, state);
}

#[cycle(feed)]
fn feed_items<H: Hasher>(items: &[Dynamic], state: &mut H)
    ensures { state.new ≡ fold H.write state.old (counted_items_writes (items_content items.now)) }
{
    items.len().hash(state);
    for item in items {
        feed(item, state);
    }
}

#[cycle(feed)]
#[tactic(auto, using(crate::proofs::Parts::entry_count_is))]
fn feed_entries<H: Hasher>(entries: &BTreeMap<String, Dynamic>, state: &mut H)
    ensures { state.new
        ≡ fold H.write state.old (counted_entries_writes (entries_content entries.now.entries)) }
{
    entries.len().hash(state);
    for (key, value) in entries {
        key.hash(state);
        feed(value, state);
    }
}
