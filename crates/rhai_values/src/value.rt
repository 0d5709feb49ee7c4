//! Values, and what they hold: arrays, object maps and function pointers, which hold values again.
ghost use Rattle.std.specs.Prelude.{◌≡◌, [], OnOk, string_bytes};
ghost use Rattle.std.specs.BTreeMap.{insert_entry};
ghost use Rattle.std.specs.String.{string_cmp};

use crate::interval::Interval;
use crate::measure::Measure;
use crate::text::Text;
use std::alloc::{AllocError, AllocFailed, Global};
use std::collections::BTreeMap;
use std::mem;
use std::rc::Rc;

/// A value of a script.
#[derive(Clone, Drop)]
#[cycle(value)]
pub enum Value {
    /// The value of what gives none.
    Unit,
    /// A truth value.
    Bool(bool),
    /// An integer.
    Int(i64),
    /// A floating-point number.
    Float(f64),
    /// A character.
    Char(char),
    /// A text.
    Text(Rc<Text>),
    /// Integers from one to another.
    Range(Rc<Interval>),
    /// Values in order.
    Array(Rc<List>),
    /// Bytes in order.
    Blob(Rc<Vec<u8>>),
    /// An object map: values by name.
    Map(Rc<Object>),
    /// A function by its name, with arguments that are bound already.
    Pointer(Rc<Pointer>),
    /// A value of the host's own.
    Foreign(Rc<Foreign>),
    /// A variable that closures share: its index among the shared ones of the script, with how many values refer to it. It lies in
    /// local variables and among bound arguments alone.
    Shared(Rc<usize>),
}

impl Value {
    /// A text. It looks at each character once.
    ///
    /// # Errors
    /// Out of memory.
    pub fn text(alloc: Global, text: String) -> Result<Value, AllocError> {
        Ok(Value::Text(Rc::new(alloc, Text::of(text))?))
    }

    /// The characters of a text, in order.
    ///
    /// # Errors
    /// Out of memory.
    pub fn characters(alloc: Global, text: &str) -> Result<Vec<Value>, AllocError> {
        let mut characters = Vec::new(alloc);
        for character in text.chars() {
            characters.push(Value::Char(character))?;
        }
        Ok(characters)
    }

    /// The integers from one to another, with that one if it is inclusive.
    ///
    /// # Errors
    /// Out of memory.
    pub fn range(alloc: Global, from: i64, to: i64, inclusive: bool) -> Result<Value, AllocError> {
        let interval = Interval {
            from,
            to,
            inclusive,
        };
        Ok(Value::Range(Rc::new(alloc, interval)?))
    }

    /// An array of these items.
    ///
    /// # Errors
    /// Out of memory.
    pub fn array(alloc: Global, items: Vec<Value>) -> Result<Value, AllocError> {
        Ok(Value::Array(Rc::new(alloc, List::of(items))?))
    }

    /// Takes the value out of its place, and leaves unit there.
    #[must_use]
    pub fn take(&mut self) -> Value {
        mem::replace(self, Value::Unit)
    }

    /// How large it is, in constant time.
    #[must_use]
    pub fn measure(&self) -> Measure {
        match self {
            Value::Text(text) => Measure {
                size: text.len().saturating_add(1),
                depth: 0,
            },
            Value::Blob(bytes) => Measure {
                size: bytes.len().saturating_add(1),
                depth: 0,
            },
            Value::Array(list) => list.measure(),
            Value::Map(object) => object.measure(),
            Value::Pointer(pointer) => pointer.measure(),
            Value::Unit
            | Value::Bool(_)
            | Value::Int(_)
            | Value::Float(_)
            | Value::Char(_)
            | Value::Range(_)
            | Value::Foreign(_)
            | Value::Shared(_) => Measure { size: 1, depth: 0 },
        }
    }

    /// The name of its type, as `type_of` gives it.
    #[must_use]
    pub fn type_name(&self) -> &'static str {
        match self {
            Value::Unit => "()",
            Value::Bool(_) => "bool",
            Value::Int(_) => "i64",
            Value::Float(_) => "f64",
            Value::Char(_) => "char",
            Value::Text(_) => "string",
            Value::Range(range) => { if range.inclusive { "range=" } else { "range" } }
            Value::Array(_) => "array",
            Value::Blob(_) => "blob",
            Value::Map(_) => "map",
            Value::Pointer(_) => "Fn",
            Value::Foreign(_) => "foreign",
            Value::Shared(_) => "shared",
        }
    }
}

/// A value of the host's own. Scripts pass it on and compare it, and can't make one. The host knows its meaning.
#[derive(Clone, Copy, Debug, PartialEq, Eq, Drop)]
pub struct Foreign {
    /// Of which kind it is.
    pub kind: i64,
    /// Which one of its kind it is.
    pub number: i64,
}

/// The items of an array, with how large they are together.
#[derive(Clone, Drop)]
#[cycle(value)]
pub struct List {
    pub(crate) items: Vec<Value>,
    size: usize,
    depth: usize,
}

impl List {
    /// These items. It looks at each once.
    #[must_use]
    pub fn of(items: Vec<Value>) -> List
        ensures { result.items ≡ items }
    {
        let mut size = 1usize;
        let mut depth = 1usize;
        for item in &items {
            let measure = item.measure();
            size = size.saturating_add(measure.size);
            depth = depth.max(measure.depth.saturating_add(1));
        }
        List { items, size, depth }
    }

    /// The items, in order.
    #[must_use]
    pub fn items(&self) -> &[Value]
        ensures { result.now ≡ self.now.items.items }
    {
        self.items.as_slice()
    }

    /// How many items there are.
    #[must_use]
    pub fn len(&self) -> usize {
        self.items.len()
    }

    /// Whether there are no items.
    #[must_use]
    pub fn is_empty(&self) -> bool {
        self.items.is_empty()
    }

    /// How large it is, in constant time.
    #[must_use]
    pub fn measure(&self) -> Measure {
        Measure {
            size: self.size,
            depth: self.depth,
        }
    }

    fn grow(&mut self, measure: Measure) {
        self.size = self.size.saturating_add(measure.size);
        self.depth = self.depth.max(measure.depth.saturating_add(1));
    }

    fn shrink(&mut self, measure: Measure) {
        self.size = self.size.saturating_sub(measure.size);
    }

    /// Appends an item.
    ///
    /// # Errors
    /// Out of memory.
    pub fn push(&mut self, value: Value) -> Result<(), AllocFailed<Value>> {
        let measure = value.measure();
        self.items.push(value)?;
        self.grow(measure);
        Ok(())
    }

    /// Takes the last item off.
    pub fn pop(&mut self) -> Option<Value> {
        let value = self.items.pop()?;
        self.shrink(value.measure());
        Some(value)
    }

    /// Inserts an item before the one at a place, or behind all if no item is there.
    ///
    /// # Errors
    /// Out of memory.
    pub fn insert(&mut self, place: usize, value: Value) -> Result<(), AllocFailed<Value>> {
        let measure = value.measure();
        let place = place.min(self.items.len());
        self.items.insert(place, value)?;
        self.grow(measure);
        Ok(())
    }

    /// Takes the item at a place out, if there is one.
    pub fn remove(&mut self, place: usize) -> Option<Value> {
        if place >= self.items.len() {
            return None;
        }
        let value = self.items.remove(place);
        self.shrink(value.measure());
        Some(value)
    }

    /// Puts a value in place of the one at a place, and gives that one back; `None` if there is none.
    pub fn replace(&mut self, place: usize, value: Value) -> Option<Value> {
        let measure = value.measure();
        let old = mem::replace(self.items.get_mut(place)?, value);
        self.shrink(old.measure());
        self.grow(measure);
        Some(old)
    }

    /// Drops all items from this place on.
    pub fn truncate(&mut self, len: usize) {
        self.items.truncate(len);
        self.size = size_of_all(self.items.as_slice());
    }

    /// Reverses the order of the items.
    pub fn reverse(&mut self) {
        self.items.reverse();
    }

    /// Appends copies of these items.
    ///
    /// # Errors
    /// Out of memory: some of them may have been appended.
    pub fn extend(&mut self, others: &[Value]) -> Result<(), AllocError> {
        for other in others {
            self.push(other.clone()?)?;
        }
        Ok(())
    }
}

/// How large these are together, and the array around them.
fn size_of_all(items: &[Value]) -> usize {
    let mut size = 1usize;
    for item in items {
        size = size.saturating_add(item.measure().size);
    }
    size
}

/// The values of an object map by their names, with how large they are together.
#[derive(Clone, Drop)]
#[cycle(value)]
pub struct Object {
    pub(crate) entries: BTreeMap<String, Value>,
    size: usize,
    depth: usize,
}

impl Object {
    /// An object map without values.
    #[must_use]
    pub fn new(alloc: Global) -> Object
        ensures { result.entries.entries ≡ [] }
    {
        Object {
            entries: BTreeMap::new(alloc),
            size: 1,
            depth: 1,
        }
    }

    /// The values by their names, in ascending order of these.
    #[must_use]
    pub fn entries(&self) -> &BTreeMap<String, Value>
        ensures { result.now ≡ self.now.entries }
    {
        &self.entries
    }

    /// How many values there are.
    #[must_use]
    pub fn len(&self) -> usize {
        self.entries.len()
    }

    /// Whether there are no values.
    #[must_use]
    pub fn is_empty(&self) -> bool {
        self.entries.is_empty()
    }

    /// How large it is, in constant time.
    #[must_use]
    pub fn measure(&self) -> Measure {
        Measure {
            size: self.size,
            depth: self.depth,
        }
    }

    /// The value of a name, if there is one.
    #[must_use]
    pub fn get(&self, name: &str) -> Option<&Value> {
        self.entries.get(name)
    }

    fn grow(&mut self, measure: Measure)
        ensures { self.new.entries ≡ self.old.entries }
    {
        self.size = self.size.saturating_add(measure.size);
        self.depth = self.depth.max(measure.depth.saturating_add(1));
    }

    /// Gives the name this value, and gives its old one back, if there was one.
    ///
    /// # Errors
    /// Out of memory.
    pub fn insert(
        &mut self,
        name: String,
        value: Value,
    ) -> Result<Option<Value>, AllocFailed<(String, Value)>>
        ensures { OnOk result (self.new.entries.entries
            ≡ insert_entry string_cmp self.old.entries.entries name value) }
    {
        let measure = value.measure();
        let len = name.len();
        let old = self.entries.insert(name, value)?;
        self.grow(measure);
        match &old {
            Some(old) => self.size = self.size.saturating_sub(old.measure().size),
            None => self.size = self.size.saturating_add(len),
        }
        Ok(old)
    }

    /// Puts a value in place of the one that the name has, and gives that one back; `None` if it has none.
    pub fn replace(&mut self, name: &str, value: Value) -> Option<Value> {
        let measure = value.measure();
        let old = mem::replace(self.entries.get_mut(name)?, value);
        self.size = self.size.saturating_sub(old.measure().size);
        self.grow(measure);
        Some(old)
    }

    /// Takes the value of a name out, if there is one.
    pub fn remove(&mut self, name: &str) -> Option<Value> {
        let value = self.entries.remove(name)?;
        let size = value.measure().size.saturating_add(name.len());
        self.size = self.size.saturating_sub(size);
        Some(value)
    }

    /// Drops all values.
    pub fn clear(&mut self) {
        self.entries.clear();
        self.size = 1;
        self.depth = 1;
    }

    /// Gives copies of all values of the other one to their names.
    ///
    /// # Errors
    /// Out of memory: some of them may have been given.
    pub fn extend(&mut self, other: &Object) -> Result<(), AllocError> {
        for (name, value) in &other.entries {
            let _ = self.insert(name.clone()?, value.clone()?)?;
        }
        Ok(())
    }
}

/// A function by its name, with the first arguments of its calls.
#[derive(Clone, Drop)]
#[cycle(value)]
pub struct Pointer {
    name: String,
    pub(crate) bound: Vec<Value>,
    size: usize,
    depth: usize,
}

impl Pointer {
    /// The function of this name, with these arguments bound. It looks at each of them once.
    #[must_use]
    pub fn new(name: String, bound: Vec<Value>) -> Pointer
        ensures { (result.name ≡ name) × (result.bound ≡ bound) }
    {
        let mut size = name.len().saturating_add(1);
        let mut depth = 0usize;
        for value in &bound {
            let measure = value.measure();
            size = size.saturating_add(measure.size);
            depth = depth.max(measure.depth.saturating_add(1));
        }
        Pointer {
            name,
            bound,
            size,
            depth,
        }
    }

    /// The name of the function.
    #[must_use]
    pub fn name(&self) -> &str
        ensures { result.now ≡ string_bytes self.now.name }
    {
        self.name.as_str()
    }

    /// The arguments that are bound already, in order.
    #[must_use]
    pub fn bound(&self) -> &[Value]
        ensures { result.now ≡ self.now.bound.items }
    {
        self.bound.as_slice()
    }

    /// How large it is, in constant time.
    #[must_use]
    pub fn measure(&self) -> Measure {
        Measure {
            size: self.size,
            depth: self.depth,
        }
    }
}
