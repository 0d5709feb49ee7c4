//! What crosses to C.

use grain_flat::CProgram;

/// A function of a program. Its chunk is the one behind that of the function before it; the first follows the main chunk.
#[repr(C)]
#[derive(Clone, Copy)]
pub struct CFunction {
    /// The index of its name.
    pub name: u32,
    /// How many parameters it has. The indices of their names stand in [`CContents::parameters`], one function after another.
    pub parameters: u32,
    /// Whether only its own script may call it.
    pub is_private: bool,
    /// Whether it is declared for receivers of one type.
    pub is_typed: bool,
    /// The index of the name of that type, else 0.
    pub this_type: u32,
}

/// An op-assignment.
#[repr(C)]
#[derive(Clone, Copy)]
pub struct COpAssignment {
    /// The index of the name of its operator, as `+=`.
    pub op_assign_name: u32,
    /// The index of the name of the operator that it applies, as `+`.
    pub op_name: u32,
}

/// A range of a switch.
#[repr(C)]
#[derive(Clone, Copy)]
pub struct CRange {
    /// The first integer.
    pub from: i64,
    /// The last integer if the range is inclusive, else the first one past it.
    pub to: i64,
    /// Whether the range has that last integer.
    pub is_inclusive: bool,
    /// Where it leads.
    pub target: u32,
}

/// A value, or the beginning of one: what is in it follows.
#[repr(C)]
#[derive(Clone, Copy)]
pub struct CValue {
    /// What it is, by a number of [`crate::tags`].
    pub tag: u32,
    /// How many bytes a text or a blob has, how many values an array has, how many entries a map, and how many values are bound
    /// to a function pointer; else 0.
    pub count: u32,
    /// An integer, the number of a character or an operator, the 64 bits of a floating-point number, or where the bytes of a text or
    /// a blob begin in [`CContents::texts`]; else 0.
    pub number: i64,
}

/// All that a program file has, in flat form.
#[repr(C)]
#[derive(Clone, Copy)]
pub struct CContents<'a> {
    /// The size of this record in bytes. A later interface adds fields at its end alone.
    pub size: usize,
    /// The code, the chunks, the main one first, and the pools.
    pub program: CProgram<'a>,
    /// The capabilities that the program declares.
    pub caps: u16,
    /// Whether the file names its source.
    pub has_source: bool,
    /// Whether the file has positions of its code.
    pub has_positions: bool,
    /// The low half of the number of the program.
    pub id_low: u64,
    /// The high half.
    pub id_high: u64,
    /// What the source is called.
    pub source: &'a [u8],
    /// The functions.
    pub functions: &'a [CFunction],
    /// The indices of the names of the parameters of all functions.
    pub parameters: &'a [u32],
    /// Where each constant begins among the values.
    pub constants: &'a [u32],
    /// The constants, one after another.
    pub values: &'a [CValue],
    /// The bytes of the texts and blobs among the values.
    pub texts: &'a [u8],
    /// The operators, each a value, and then of each op-assignment its operator and the one that it stands for.
    pub operators: &'a [CValue],
    /// The bytes of the texts among the operators.
    pub operator_texts: &'a [u8],
    /// The op-assignments.
    pub op_assignments: &'a [COpAssignment],
    /// How many bytes of the code the file has positions of, from the first on.
    pub positions: usize,
    /// The flags of the steps of all chains.
    pub step_flags: &'a [u8],
    /// The ranges of all switches.
    pub ranges: &'a [CRange],
    /// The address table of the positions of the code.
    pub table: &'a [u8],
    /// The stream of the positions of the chains.
    pub stream: &'a [u8],
    /// Where the steps of each chain begin among those of all.
    pub chain_steps: &'a [u32],
    /// Where the cases of each switch begin among those of all.
    pub switch_cases: &'a [u32],
    /// Where the ranges of each switch begin among those of all.
    pub switch_ranges: &'a [u32],
    /// Where the parameters of each function begin among those of all.
    pub function_parameters: &'a [u32],
}

/// The size of [`CContents`] in bytes.
pub const CONTENTS_SIZE: usize = size_of::<CContents<'static>>();

/// What a host bounds of the files that it reads.
#[repr(C)]
#[derive(Clone, Copy)]
pub struct CLimits {
    /// How many bytes a file has at most.
    pub size: usize,
    /// How many cases a switch has at most.
    pub cases: usize,
    /// How deep values are nested at most.
    pub depth: u32,
}

/// Why bytes are no file.
#[repr(C)]
#[derive(Clone, Copy)]
pub struct CReadError {
    /// What is wrong, by a number of [`crate::causes`].
    pub cause: u32,
    /// The part that the byte is in, by a number of [`crate::parts`].
    pub part: u32,
    /// The index of an item of a list, if the part is one.
    pub index: u64,
    /// The place of the byte; if the file is too large, how many it has.
    pub at: u64,
    /// How many bytes it may have, if it has more.
    pub limit: u64,
}
