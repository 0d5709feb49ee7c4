//! Which instructions have no index, by their tags.
//!
//! Most instructions have none. Their width is all that the test of code needs, so it skips them without decoding.
ghost use Rattle.std.specs.Prelude.{◌≡◌, ◌<◌, ◌≤◌, ◌+◌, IfSome, length};
ghost use Rattle.grain_code.specs.InstructionTable.{width_of};
ghost use Rattle.grain_code.specs.Split.{StandsAt};
ghost use Rattle.grain_code.specs.declared.op.Op.{Op};
ghost use Rattle.grain_rules.specs.Indices.{Indexed};
ghost use Rattle.grain_rules.specs.Setting.{Setting};

use grain_code::tag_row;

/// How many bytes the instruction at an address takes, if one is there that is known to have no index, so that it
/// needn't be decoded.
#[inline(always)]
pub(crate) fn unindexed_width(code: &[u8], at: usize) -> Option<usize>
    ensures found { IfSome result (λ n. (op : Op) × StandsAt code.now at op × (n ≡ width_of op)
        × ((s : Setting) → Indexed s op)) }
    ensures fits { IfSome result (λ n. (0 < n) × (at + n ≤ length code.now)) }
{
    if at >= code.len() {
        return None;
    }
    let row = tag_row(code[at]);
    let width = row.width as usize;
    if row.has_index || at + width > code.len() {
        return None;
    }
    Some(width)
}
