//! The parts of a file.

use std::fmt;

/// A part of a program file or of a sidecar file (docs/FORMAT.md). The items of a list are numbered from 0.
#[derive(Clone, Copy, Debug, PartialEq, Eq)]
pub enum Part {
    /// The magic, the version and the kind.
    Header,
    /// The capabilities.
    Capabilities,
    /// The number of the program.
    Id,
    /// The code.
    Code,
    /// The main chunk.
    MainChunk,
    /// How many functions there are; as a list, all of them.
    Functions,
    /// A function.
    Function(usize),
    /// How many names there are; as a list, all of them.
    Names,
    /// A name.
    Name(usize),
    /// How many constants there are; as a list, all of them.
    Constants,
    /// A constant.
    Constant(usize),
    /// How many operators there are; as a list, all of them.
    Operators,
    /// An operator.
    Operator(usize),
    /// How many op-assignments there are; as a list, all of them.
    OpAssignments,
    /// An op-assignment.
    OpAssignment(usize),
    /// How many chains there are; as a list, all of them.
    Chains,
    /// A chain.
    Chain(usize),
    /// How many switches there are; as a list, all of them.
    Switches,
    /// A switch.
    Switch(usize),
    /// The name of the source, or that there is none.
    SourceName,
    /// How many positions there are, or that there are none; as a list, all of them.
    Positions,
    /// The position of a byte of the code.
    Position(usize),
    /// The address table of a sidecar.
    AddressTable,
    /// The chain stream of a sidecar.
    ChainStream,
    /// What follows the last part. In a file that is nothing.
    Rest,
}

impl Part {
    /// What the part is called, without its number: `functions`, `function`.
    #[must_use]
    pub fn name(self) -> &'static str {
        match self {
            Part::Header => "header",
            Part::Capabilities => "capabilities",
            Part::Id => "id",
            Part::Code => "code",
            Part::MainChunk => "main chunk",
            Part::Functions => "functions",
            Part::Function(_) => "function",
            Part::Names => "names",
            Part::Name(_) => "name",
            Part::Constants => "constants",
            Part::Constant(_) => "constant",
            Part::Operators => "operators",
            Part::Operator(_) => "operator",
            Part::OpAssignments => "op-assignments",
            Part::OpAssignment(_) => "op-assignment",
            Part::Chains => "chains",
            Part::Chain(_) => "chain",
            Part::Switches => "switches",
            Part::Switch(_) => "switch",
            Part::SourceName => "source name",
            Part::Positions => "positions",
            Part::Position(_) => "position",
            Part::AddressTable => "address table",
            Part::ChainStream => "chain stream",
            Part::Rest => "rest",
        }
    }

    /// The number of an item.
    #[must_use]
    pub fn index(self) -> Option<usize> {
        match self {
            Part::Function(index)
            | Part::Name(index)
            | Part::Constant(index)
            | Part::Operator(index)
            | Part::OpAssignment(index)
            | Part::Chain(index)
            | Part::Switch(index)
            | Part::Position(index) => Some(index),
            _ => None,
        }
    }

    /// The list that an item is of. Any other part is given back.
    #[must_use]
    pub fn list(self) -> Part {
        match self {
            Part::Function(_) => Part::Functions,
            Part::Name(_) => Part::Names,
            Part::Constant(_) => Part::Constants,
            Part::Operator(_) => Part::Operators,
            Part::OpAssignment(_) => Part::OpAssignments,
            Part::Chain(_) => Part::Chains,
            Part::Switch(_) => Part::Switches,
            Part::Position(_) => Part::Positions,
            part => part,
        }
    }

    /// The item of a list. Any other part is given back: what it has inside isn't named.
    #[must_use]
    pub fn item(self, index: usize) -> Part {
        match self {
            Part::Functions => Part::Function(index),
            Part::Names => Part::Name(index),
            Part::Constants => Part::Constant(index),
            Part::Operators => Part::Operator(index),
            Part::OpAssignments => Part::OpAssignment(index),
            Part::Chains => Part::Chain(index),
            Part::Switches => Part::Switch(index),
            Part::Positions => Part::Position(index),
            part => part,
        }
    }
}

/// As in "the functions" and "function 2".
impl fmt::Display for Part {
    fn fmt<W: fmt::Write>(&self, f: &mut fmt::Formatter<W>) -> fmt::Result {
        let name = self.name();
        match self.index() {
            Some(index) => write!(f, "{name} {index}"),
            None => write!(f, "the {name}"),
        }
    }
}
