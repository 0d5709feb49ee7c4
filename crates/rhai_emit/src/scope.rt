//! Variables by their slots, and the loop that can be left.
ghost use Rattle.std.specs.Prelude.{◌≡◌, None};

use grain_base::pos::Site;
use rhai_errors::{CompileError, Problem, Thing};
use rhai_syntax::Binding;
use std::alloc::Global;
use std::collections::HashMap;

/// A local variable. Its slot is its place among them.
#[derive(Clone, Copy, Drop)]
pub struct Local {
    /// Its name.
    pub name: u32,
    /// Where it is declared.
    pub place: Site,
    /// Whether it is a constant.
    pub is_const: bool,
}

impl Local {
    /// A variable that can be assigned to.
    pub fn variable(binding: Binding) -> Local {
        Local {
            name: binding.name,
            place: binding.place,
            is_const: false,
        }
    }
}

/// Where a variable was found.
#[derive(Clone, Copy, Drop)]
pub struct Found {
    /// Its slot.
    pub slot: u16,
    /// Whether it is a constant.
    pub is_const: bool,
}

/// A loop, as it is where its body begins.
#[derive(Clone, Copy, Drop)]
pub struct Loop {
    /// The label where it goes on.
    pub next: u32,
    /// The label where it ends.
    pub end: u32,
    /// Whether its value is wanted.
    pub is_wanted: bool,
    /// Whether it has an iterator.
    pub walks: bool,
    /// How many operands there are where its body begins.
    pub height: usize,
    /// How many handlers are armed around it.
    pub handlers: usize,
    /// How many local variables there are where its body begins.
    pub locals: usize,
}

/// What can be named where code is made.
#[derive(Drop)]
pub struct Scope {
    /// The local variables, by their slots.
    pub(crate) locals: Vec<Local>,
    /// The slot of the variable that was declared last with a name.
    latest: HashMap<u32, u16>,
    /// By its slot, the variable of the same name that a variable hides.
    hidden: Vec<Option<u16>>,
    /// The innermost loop around the code.
    pub around: Option<Loop>,
    /// The slot of the fault that the innermost `catch` of this chunk can raise again.
    pub caught: Option<u16>,
}

impl Scope {
    /// No variables and no loops.
    pub fn new(alloc: Global) -> Scope
        ensures { result.around ≡ None }
    {
        Scope {
            locals: Vec::new(alloc),
            latest: HashMap::new(alloc),
            hidden: Vec::new(alloc),
            around: None,
            caught: None,
        }
    }

    /// How many local variables there are.
    pub fn len(&self) -> usize {
        self.locals.len()
    }

    /// A variable is declared, and has the next slot.
    pub fn declare(&mut self, local: Local) -> Result<u16, CompileError>
        ensures { self.new.around ≡ self.old.around }
    {
        let slot = slot_of(self.locals.len())?;
        let hidden = self.latest.insert(local.name, slot)?;
        self.hidden.push(hidden)?;
        self.locals.push(local)?;
        Ok(slot)
    }

    /// The variables down to this many are dropped. Each that one of them hid is the last of its name again.
    pub fn cut(&mut self, count: usize)
        ensures { self.new.around ≡ self.old.around }
    {
        'variables: for _turn in count..self.locals.len() {
            self.drop_last();
        }
    }

    /// The variable that was declared last is dropped.
    fn drop_last(&mut self)
        ensures { self.new.around ≡ self.old.around }
    {
        let (Some(local), Some(hidden)) = (self.locals.pop(), self.hidden.pop()) else {
            return;
        };
        match hidden {
            Some(hidden) => self.show_again(local.name, hidden),
            None => {
                let _slot = self.latest.remove(&local.name);
            }
        }
    }

    /// The variable in a slot is the last of its name again.
    fn show_again(&mut self, name: u32, slot: u16)
        ensures { self.new.around ≡ self.old.around }
    {
        if let Some(latest) = self.latest.get_mut(&name) {
            *latest = slot;
        }
    }

    /// The variable that was declared last with this name.
    pub fn find(&self, name: u32) -> Option<Found> {
        let slot = *self.latest.get(&name)?;
        let local = self.locals.get(usize::from(slot))?;
        Some(Found {
            slot,
            is_const: local.is_const,
        })
    }
}

/// A count of variables as a slot.
pub fn slot_of(count: usize) -> Result<u16, CompileError> {
    match u16::try_from(count) {
        Ok(slot) => Ok(slot),
        Err(_) => Err(CompileError::new(Site::NONE, Problem::TooMany(Thing::Variables))),
    }
}
