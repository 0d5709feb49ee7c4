//! What a program may require of its host.

use bitflags::{Flag, Flags};

/// A set of capabilities, one bit for each; no capability has the highest bit. Each call takes constant time.
// It has no model: `Flags` lends constants, and the kit refuses a borrowed constant of a type that has one.
#[derive(Clone, Copy, Debug, PartialEq, Eq)]
pub struct Caps(u16);

impl Caps {
    /// The program has functions of its own.
    pub const FUNCTION: Caps = Caps(0x0001);

    /// The program makes arrays, or has one as a constant.
    pub const ARRAY: Caps = Caps(0x0002);

    /// The program has a blob as a constant.
    pub const BLOB: Caps = Caps(0x0004);

    /// The program makes object maps, or has one as a constant.
    pub const MAP: Caps = Caps(0x0008);

    /// The program makes or calls function pointers.
    pub const FN_PTR: Caps = Caps(0x0010);

    /// The program binds arguments to function pointers.
    pub const CURRYING: Caps = Caps(0x0020);

    /// The program shares variables between closures.
    pub const SHARING: Caps = Caps(0x0040);

    /// The program reads or writes the receiver of a method.
    pub const THIS: Caps = Caps(0x0080);

    /// The program indexes into values.
    pub const INDEXING: Caps = Caps(0x0100);

    /// The program reads or writes properties of values.
    pub const PROPERTY: Caps = Caps(0x0200);

    /// The program calls methods of values.
    pub const METHOD: Caps = Caps(0x0400);

    /// The program names variables or functions of a module.
    pub const MODULE: Caps = Caps(0x0800);

    /// The program exports variables.
    pub const EXPORT: Caps = Caps(0x1000);

    /// The program imports modules.
    pub const IMPORT: Caps = Caps(0x2000);

    /// The program uses syntax that the host has added.
    pub const CUSTOM_SYNTAX: Caps = Caps(0x4000);

    const FLAGS: &'static [Flag<Caps>] = &[
        Flag {
            name: "FUNCTION",
            value: Caps::FUNCTION,
        },
        Flag {
            name: "ARRAY",
            value: Caps::ARRAY,
        },
        Flag {
            name: "BLOB",
            value: Caps::BLOB,
        },
        Flag {
            name: "MAP",
            value: Caps::MAP,
        },
        Flag {
            name: "FN_PTR",
            value: Caps::FN_PTR,
        },
        Flag {
            name: "CURRYING",
            value: Caps::CURRYING,
        },
        Flag {
            name: "SHARING",
            value: Caps::SHARING,
        },
        Flag {
            name: "THIS",
            value: Caps::THIS,
        },
        Flag {
            name: "INDEXING",
            value: Caps::INDEXING,
        },
        Flag {
            name: "PROPERTY",
            value: Caps::PROPERTY,
        },
        Flag {
            name: "METHOD",
            value: Caps::METHOD,
        },
        Flag {
            name: "MODULE",
            value: Caps::MODULE,
        },
        Flag {
            name: "EXPORT",
            value: Caps::EXPORT,
        },
        Flag {
            name: "IMPORT",
            value: Caps::IMPORT,
        },
        Flag {
            name: "CUSTOM_SYNTAX",
            value: Caps::CUSTOM_SYNTAX,
        },
    ];
}

impl Flags for Caps {
    ghost use Rattle.std.specs.Prelude.{⊤};
    ghost use Rattle.grain_base.specs.CapBits.{caps_table, set_of};

    type Bits = u16;

    ghost exact = { ⊤ };

    ghost table = { caps_table };

    ghost set_of = { set_of };

    fn flags<'a>() -> &'a [Flag<Caps>] {
        Caps::FLAGS
    }

    fn bits(&self) -> u16 {
        self.0
    }

    fn from_bits_retain(bits: u16) -> Caps {
        Caps(bits)
    }
}
