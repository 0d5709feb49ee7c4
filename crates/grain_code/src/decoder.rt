//! Written by tools/from_table.py from the instruction table. Don't edit it.
//!
//! Decoding: what a tag and the bytes after it are. The width of the tag says how many bytes belong to it. One function for
//! each number of bytes then has an arm for each tag.
ghost use Rattle.std.specs.Prelude.{◌≡◌, IfSome, IfNone, [], ◌∷◌};
ghost use Rattle.std.specs.Int.{w16, from_le_bytes};
ghost use Rattle.grain_code.specs.InstructionTable.{Instr};
ghost use Rattle.grain_code.specs.declared.op.Op.{Op};

use crate::op::{Op, Receiver};
use crate::tag;

/// An index into a pool.
#[inline(always)]
fn index(low: u8, high: u8) -> u32
    ensures { result ≡ from_le_bytes w16 (low ∷ high ∷ []) }
{
    u32::from(u16::from_le_bytes([low, high]))
}

/// A slot, a depth or a length.
#[inline(always)]
fn slot(low: u8, high: u8) -> u16
    ensures { result ≡ from_le_bytes w16 (low ∷ high ∷ []) }
{
    u16::from_le_bytes([low, high])
}

/// The instruction of a tag without fields.
#[inline(always)]
fn bare(tag: u8) -> Option<Op>
    ensures found { IfSome result (λ op. Instr (tag ∷ []) op) }
    ensures none { IfNone result ((op : Op) → Instr (tag ∷ []) op → ⊥) }
{
    match tag {
        tag::UNIT => Some(Op::Unit),
        tag::FALSE => Some(Op::Bool(false)),
        tag::TRUE => Some(Op::Bool(true)),
        tag::POP => Some(Op::Pop),
        tag::TICK => Some(Op::Tick),
        tag::RETURN => Some(Op::Return),
        tag::THROW => Some(Op::Throw),
        tag::ITER_INIT => Some(Op::IterInit),
        tag::ITER_DROP => Some(Op::IterDrop),
        tag::POP_HANDLER => Some(Op::PopHandler),
        tag::INTERPOLATE_START => Some(Op::InterpolateStart),
        tag::INTERPOLATE_APPEND => Some(Op::InterpolateAppend),
        tag::INTERPOLATE_END => Some(Op::InterpolateEnd),
        tag::MAKE_FN_PTR => Some(Op::MakeFnPtr),
        tag::IS_SHARED => Some(Op::IsShared),
        tag::CHECKPOINT => Some(Op::Checkpoint),
        tag::LOAD_THIS => Some(Op::LoadThis),
        tag::LOAD_THIS_SHARED => Some(Op::LoadThisShared),
        tag::REQUIRE_THIS => Some(Op::RequireThis),
        tag::ASSIGN_THIS => Some(Op::AssignThis { op: None }),
        _ => None,
    }
}

/// The instruction of a tag and one byte.
#[inline(always)]
fn with_one(tag: u8, a: u8) -> Option<Op>
    ensures found { IfSome result (λ op. Instr (tag ∷ a ∷ []) op) }
    ensures none { IfNone result ((op : Op) → Instr (tag ∷ a ∷ []) op → ⊥) }
{
    match tag {
        tag::CURRY => Some(Op::Curry(a)),
        tag::CALL_FN_PTR => Some(Op::CallFnPtr {
            argc: a,
            is_method: false,
            capture_parent_scope: false,
            receiver: None,
        }),
        tag::CALL_FN_PTR_METHOD => Some(Op::CallFnPtr {
            argc: a,
            is_method: true,
            capture_parent_scope: false,
            receiver: None,
        }),
        tag::ROTATE => Some(Op::Rotate(a)),
        tag::CALL_FN_PTR_ON_THIS => Some(Op::CallFnPtr {
            argc: a,
            is_method: true,
            capture_parent_scope: false,
            receiver: Some(Receiver::This),
        }),
        tag::CALL_FN_PTR_CAPTURE => Some(Op::CallFnPtr {
            argc: a,
            is_method: false,
            capture_parent_scope: true,
            receiver: None,
        }),
        _ => None,
    }
}

/// The instruction of a tag and two bytes.
#[inline(always)]
fn with_two(tag: u8, a: u8, b: u8) -> Option<Op>
    ensures found { IfSome result (λ op. Instr (tag ∷ a ∷ b ∷ []) op) }
    ensures none { IfNone result ((op : Op) → Instr (tag ∷ a ∷ b ∷ []) op → ⊥) }
{
    match tag {
        tag::LOAD_CONST => Some(Op::Const(index(a, b))),
        tag::LOAD_LOCAL => Some(Op::LoadLocal(slot(a, b))),
        tag::STORE_LOCAL => Some(Op::StoreLocal {
            slot: slot(a, b),
            is_const: false,
        }),
        tag::DECLARE_LOCAL => Some(Op::DeclareLocal {
            name: index(a, b),
            is_const: false,
            is_global: false,
        }),
        tag::DECLARE_CONST => Some(Op::DeclareLocal {
            name: index(a, b),
            is_const: true,
            is_global: false,
        }),
        tag::UNWIND_TO => Some(Op::UnwindTo(slot(a, b))),
        tag::EVAL_AST => Some(Op::EvalAst {
            residual: index(a, b),
            rewind_scope: true,
        }),
        tag::EVAL_AST_KEEP => Some(Op::EvalAst {
            residual: index(a, b),
            rewind_scope: false,
        }),
        tag::CHAIN => Some(Op::Chain(index(a, b))),
        tag::MAKE_ARRAY => Some(Op::MakeArray(slot(a, b))),
        tag::SWITCH => Some(Op::Switch(index(a, b))),
        tag::LOAD_NAMED => Some(Op::LoadNamed(index(a, b))),
        tag::ASSIGN_NAMED => Some(Op::AssignNamed {
            name: index(a, b),
            op: None,
        }),
        tag::STORE_SHARED => Some(Op::StoreShared(slot(a, b))),
        tag::SHARE => Some(Op::Share(slot(a, b))),
        tag::SHARE_NAMED => Some(Op::ShareNamed(index(a, b))),
        tag::LOAD_SHARED => Some(Op::LoadShared(slot(a, b))),
        tag::MAKE_CLOSURE => Some(Op::MakeClosure(index(a, b))),
        tag::CHECK_ARRAY_SIZE => Some(Op::CheckSize {
            index: slot(a, b),
            is_map: false,
        }),
        tag::CHECK_MAP_SIZE => Some(Op::CheckSize {
            index: slot(a, b),
            is_map: true,
        }),
        tag::MAKE_MAP => Some(Op::MakeMap(slot(a, b))),
        tag::LOAD_SHARED_NAMED => Some(Op::LoadSharedNamed(index(a, b))),
        tag::ASSIGN_THIS_OP => Some(Op::AssignThis {
            op: Some(index(a, b)),
        }),
        tag::STATEMENT => Some(Op::Statement { depth: slot(a, b) }),
        tag::STORE_CONST => Some(Op::StoreLocal {
            slot: slot(a, b),
            is_const: true,
        }),
        tag::CUSTOM_SYNTAX => Some(Op::CustomSyntax(index(a, b))),
        tag::DECLARE_GLOBAL_CONST => Some(Op::DeclareLocal {
            name: index(a, b),
            is_const: true,
            is_global: true,
        }),
        tag::IMPORT => Some(Op::Import { alias: index(a, b) }),
        _ => None,
    }
}

/// The instruction of a tag and three bytes.
#[inline(always)]
fn with_three(tag: u8, a: u8, b: u8, c: u8) -> Option<Op>
    ensures found { IfSome result (λ op. Instr (tag ∷ a ∷ b ∷ c ∷ []) op) }
    ensures none { IfNone result ((op : Op) → Instr (tag ∷ a ∷ b ∷ c ∷ []) op → ⊥) }
{
    match tag {
        tag::CALL => Some(Op::Call {
            name: index(a, b),
            argc: c,
            op: None,
            capture_parent_scope: false,
        }),
        tag::CALL_THIS_REF => Some(Op::CallRef {
            name: index(a, b),
            argc: c,
            receiver: Receiver::This,
            capture_parent_scope: false,
        }),
        tag::CALL_FN_PTR_ON_LOCAL => Some(Op::CallFnPtr {
            argc: a,
            is_method: true,
            capture_parent_scope: false,
            receiver: Some(Receiver::Local(slot(b, c))),
        }),
        tag::CALL_FN_PTR_ON_NAMED => Some(Op::CallFnPtr {
            argc: a,
            is_method: true,
            capture_parent_scope: false,
            receiver: Some(Receiver::Named(index(b, c))),
        }),
        _ => None,
    }
}

/// The instruction of a tag and four bytes.
#[inline(always)]
fn with_four(tag: u8, a: u8, b: u8, c: u8, d: u8) -> Option<Op>
    ensures found { IfSome result (λ op. Instr (tag ∷ a ∷ b ∷ c ∷ d ∷ []) op) }
    ensures none { IfNone result ((op : Op) → Instr (tag ∷ a ∷ b ∷ c ∷ d ∷ []) op → ⊥) }
{
    let target = u32::from_le_bytes([a, b, c, d]);
    match tag {
        tag::ASSIGN_LOCAL => Some(Op::AssignLocal {
            slot: slot(a, b),
            var_name: index(c, d),
            op: None,
        }),
        tag::JUMP => Some(Op::Jump(target)),
        tag::JUMP_IF_TRUE => Some(Op::JumpIfTrue { target }),
        tag::JUMP_IF_FALSE => Some(Op::JumpIfFalse { target }),
        tag::ASSIGN_NAMED_OP => Some(Op::AssignNamed {
            name: index(a, b),
            op: Some(index(c, d)),
        }),
        tag::ITER_NEXT => Some(Op::IterNext {
            exit: target,
            counter_slot: None,
        }),
        tag::PUSH_HANDLER => Some(Op::PushHandler {
            target,
            catch_var: None,
        }),
        tag::SKIP_IF_NOT_UNIT => Some(Op::SkipIfNotUnit { target }),
        tag::EXPORT_LOCAL => Some(Op::ExportLocal {
            slot: slot(a, b),
            alias: index(c, d),
        }),
        tag::EXPORT_NAMED => Some(Op::ExportNamed {
            name: index(a, b),
            alias: index(c, d),
        }),
        _ => None,
    }
}

/// The instruction of a tag and five bytes.
#[inline(always)]
fn with_five(tag: u8, a: u8, b: u8, c: u8, d: u8, e: u8) -> Option<Op>
    ensures found { IfSome result (λ op. Instr (tag ∷ a ∷ b ∷ c ∷ d ∷ e ∷ []) op) }
    ensures none { IfNone result ((op : Op) → Instr (tag ∷ a ∷ b ∷ c ∷ d ∷ e ∷ []) op → ⊥) }
{
    match tag {
        tag::CALL_OP => Some(Op::Call {
            name: index(a, b),
            argc: c,
            op: Some(index(d, e)),
            capture_parent_scope: false,
        }),
        tag::CALL_LOCAL_REF => Some(Op::CallRef {
            name: index(a, b),
            argc: c,
            receiver: Receiver::Local(slot(d, e)),
            capture_parent_scope: false,
        }),
        tag::CALL_NAMED_REF => Some(Op::CallRef {
            name: index(a, b),
            argc: c,
            receiver: Receiver::Named(index(d, e)),
            capture_parent_scope: false,
        }),
        _ => None,
    }
}

/// The instruction of a tag and six bytes.
#[inline(always)]
fn with_six(tag: u8, a: u8, b: u8, c: u8, d: u8, e: u8, f: u8) -> Option<Op>
    ensures found { IfSome result (λ op. Instr (tag ∷ a ∷ b ∷ c ∷ d ∷ e ∷ f ∷ []) op) }
    ensures none { IfNone result ((op : Op) → Instr (tag ∷ a ∷ b ∷ c ∷ d ∷ e ∷ f ∷ []) op → ⊥) }
{
    let target = u32::from_le_bytes([a, b, c, d]);
    match tag {
        tag::ASSIGN_LOCAL_OP => Some(Op::AssignLocal {
            slot: slot(a, b),
            var_name: index(c, d),
            op: Some(index(e, f)),
        }),
        tag::ITER_NEXT_INDEXED => Some(Op::IterNext {
            exit: target,
            counter_slot: Some(slot(e, f)),
        }),
        tag::PUSH_HANDLER_VAR => Some(Op::PushHandler {
            target,
            catch_var: Some(index(e, f)),
        }),
        _ => None,
    }
}

/// The instruction of a tag and the bytes of its fields, or `None` if they are none.
#[inline(always)]
pub(crate) fn op_of(tag: u8, fields: &[u8]) -> Option<Op>
    ensures found { IfSome result (λ op. Instr (tag ∷ fields.now) op) }
    ensures none { IfNone result ((op : Op) → Instr (tag ∷ fields.now) op → ⊥) }
{
    match fields {
        [] => bare(tag),
        [a] => with_one(tag, *a),
        [a, b] => with_two(tag, *a, *b),
        [a, b, c] => with_three(tag, *a, *b, *c),
        [a, b, c, d] => with_four(tag, *a, *b, *c, *d),
        [a, b, c, d, e] => with_five(tag, *a, *b, *c, *d, *e),
        [a, b, c, d, e, f] => with_six(tag, *a, *b, *c, *d, *e, *f),
        _ => None,
    }
}
