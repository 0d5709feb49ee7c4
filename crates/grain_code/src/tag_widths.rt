//! How many bytes instructions take, by their tags, so that code is split without decoding it.

ghost use Rattle.std.specs.Prelude.{◌≡◌, ◌≢◌, ◌+◌, ◌<◌, ◌≤◌, IfSome, IfNone, Some, length, slice_get};
ghost use Rattle.grain_code.specs.InstructionTable.{form, width_of};
ghost use Rattle.grain_code.specs.Split.{StandsAt, NoneStandsAt};
ghost use Rattle.grain_code.specs.declared.op.Op.{Op};

use crate::tag_table::tag_row;

/// What the first byte of an instruction says: its tag, and how many bytes instructions with that tag take
/// (docs/FORMAT.md, "Instructions").
#[derive(Clone, Copy, Debug, PartialEq, Eq)]
pub struct Head {
    /// The first byte.
    pub tag: u8,
    /// How many bytes, or 0 if no instruction has the tag.
    pub width: u8,
}

impl Head {
    /// The head at an address, or `None` past the end of the code.
    ///
    /// The width is 0 if no instruction has the tag; whether an instruction is there it doesn't say. It takes no
    /// memory, and constant time.
    #[inline(always)]
    #[must_use]
    pub fn at(code: &[u8], at: usize) -> Option<Head>
        ensures tag { IfSome result (λ h. slice_get code.now at ≡ Some h.tag) }
        ensures width { IfSome result (λ h. (op : Op) → (form op).0 ≡ h.tag
            → h.width ≡ width_of op) }
        ensures untaken { IfSome result (λ h. ((op : Op) → (form op).0 ≢ h.tag) → h.width ≡ 0) }
        ensures none { IfNone result (length code.now ≤ at) }
    {
        if at >= code.len() {
            return None;
        }
        let tag = code[at];
        let width = tag_row(tag).width;
        Some(Head { tag, width })
    }
}

/// How many bytes the instruction at an address takes, or `None` if there is none.
///
/// The tag and the length of the code decide, whatever the fields hold. It takes constant time.
#[inline(always)]
#[must_use]
pub fn width(code: &[u8], at: usize) -> Option<usize>
    ensures found { IfSome result (λ n. (op : Op) × StandsAt code.now at op × (n ≡ width_of op)) }
    ensures fits { IfSome result (λ n. (0 < n) × (at + n ≤ length code.now)) }
    ensures none { IfNone result (NoneStandsAt code.now at) }
{
    if at >= code.len() {
        return None;
    }
    let width = tag_row(code[at]).width as usize;
    if width == 0 || at + width > code.len() {
        return None;
    }
    Some(width)
}

/// How many bytes the instruction at an address takes, if one is known to be.
#[inline(always)]
pub(crate) fn standing_width(code: &[u8], at: usize) -> usize
    requires { (op : Op) × StandsAt code.now at op }
    ensures width { (op : Op) → StandsAt code.now at op → result ≡ width_of op }
    ensures fits { (0 < result) × (at + result ≤ length code.now) }
{
    tag_row(code[at]).width as usize
}
