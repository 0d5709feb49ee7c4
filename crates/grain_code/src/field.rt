//! The fields of an instruction, as they are written after its tag (docs/FORMAT.md, "Fields").

ghost use Rattle.std.specs.Prelude.{◌≡◌};
ghost use Rattle.grain_code.specs.Assembly.{name_of};
ghost use Rattle.grain_code.specs.Fields.{field_list};

/// The pools of a program that an index can go into.
#[derive(Clone, Copy, Debug, PartialEq, Eq)]
pub enum Pool {
    /// Values.
    Constants,
    /// Names.
    Names,
    /// Operators.
    Operators,
    /// Op-assignments.
    OpAssignments,
    /// Fragments of syntax that weren't compiled.
    Fragments,
    /// Chains.
    Chains,
    /// Switches.
    Switches,
    /// Sites of custom syntax.
    SyntaxSites,
}

impl Pool {
    /// What an error calls the pool.
    #[must_use]
    pub fn name(self) -> &'static str
        ensures { result.now ≡ name_of self }
    {
        match self {
            Pool::Constants => "constants",
            Pool::Names => "names",
            Pool::Operators => "operators",
            Pool::OpAssignments => "op-assignments",
            Pool::Fragments => "fragments",
            Pool::Chains => "chains",
            Pool::Switches => "switches",
            Pool::SyntaxSites => "custom syntax sites",
        }
    }
}

/// A field of an instruction and its value, as contracts on code speak of them.
#[derive(Clone, Copy, Debug, PartialEq, Eq)]
pub enum Field {
    /// An index into a pool, of two bytes.
    Index(Pool, u32),
    /// A slot, a depth, a length, or an index within a literal, of two bytes.
    Slot(u16),
    /// A count of arguments or of operands, of one byte.
    Count(u8),
    /// A jump target, of four bytes.
    Target(u32),
}

/// The fields of an instruction, in order.
#[derive(Clone, Copy, Debug, PartialEq, Eq)]
pub enum Fields {
    /// It has none.
    None,
    /// It has one.
    One([Field; 1]),
    /// It has two.
    Two([Field; 2]),
    /// It has three.
    Three([Field; 3]),
}

impl Fields {
    /// The fields as a list.
    #[must_use]
    pub fn as_slice(&self) -> &[Field]
        ensures { result.now ≡ field_list self.now }
    {
        match self {
            Fields::None => &[],
            Fields::One(fields) => fields,
            Fields::Two(fields) => fields,
            Fields::Three(fields) => fields,
        }
    }
}
