//! Written by tools/from_table.py from the instruction table. Don't edit it.
//!
//! The tag of an operation and its fields.
ghost use Rattle.std.specs.Prelude.{◌≡◌};
ghost use Rattle.grain_code.specs.Fields.{field_list};
ghost use Rattle.grain_code.specs.InstructionTable.{form};

use crate::field::{Field, Fields, Pool};
use crate::op::{Op, Receiver};
use crate::tag;

/// The tag of an operation and its fields: the instruction table (docs/FORMAT.md, "Instructions").
#[must_use]
pub fn layout(op: &Op) -> (u8, Fields)
    ensures { (result.0, field_list result.1) ≡ form op.now }
{
    match *op {
        Op::Const(c) => (
            tag::LOAD_CONST,
            Fields::One([Field::Index(Pool::Constants, c)]),
        ),
        Op::Unit => (tag::UNIT, Fields::None),
        Op::Bool(false) => (tag::FALSE, Fields::None),
        Op::Bool(true) => (tag::TRUE, Fields::None),
        Op::LoadLocal(s) => (tag::LOAD_LOCAL, Fields::One([Field::Slot(s)])),
        Op::StoreLocal {
            slot: s,
            is_const: false,
        } => (tag::STORE_LOCAL, Fields::One([Field::Slot(s)])),
        Op::AssignLocal {
            slot: s,
            var_name: n,
            op: None,
        } => (
            tag::ASSIGN_LOCAL,
            Fields::Two([Field::Slot(s), Field::Index(Pool::Names, n)]),
        ),
        Op::AssignLocal {
            slot: s,
            var_name: n,
            op: Some(o),
        } => (
            tag::ASSIGN_LOCAL_OP,
            Fields::Three([
                Field::Slot(s),
                Field::Index(Pool::Names, n),
                Field::Index(Pool::OpAssignments, o),
            ]),
        ),
        Op::DeclareLocal {
            name: n,
            is_const: false,
            ..
        } => (
            tag::DECLARE_LOCAL,
            Fields::One([Field::Index(Pool::Names, n)]),
        ),
        Op::DeclareLocal {
            name: n,
            is_const: true,
            is_global: false,
        } => (
            tag::DECLARE_CONST,
            Fields::One([Field::Index(Pool::Names, n)]),
        ),
        Op::Pop => (tag::POP, Fields::None),
        Op::Jump(j) => (tag::JUMP, Fields::One([Field::Target(j)])),
        Op::JumpIfTrue { target: j } => (tag::JUMP_IF_TRUE, Fields::One([Field::Target(j)])),
        Op::JumpIfFalse { target: j } => (tag::JUMP_IF_FALSE, Fields::One([Field::Target(j)])),
        Op::Call {
            name: n,
            argc: a,
            op: None,
            ..
        } => (
            tag::CALL,
            Fields::Two([Field::Index(Pool::Names, n), Field::Count(a)]),
        ),
        Op::Call {
            name: n,
            argc: a,
            op: Some(t),
            ..
        } => (
            tag::CALL_OP,
            Fields::Three([
                Field::Index(Pool::Names, n),
                Field::Count(a),
                Field::Index(Pool::Operators, t),
            ]),
        ),
        Op::UnwindTo(s) => (tag::UNWIND_TO, Fields::One([Field::Slot(s)])),
        Op::Tick => (tag::TICK, Fields::None),
        Op::Return => (tag::RETURN, Fields::None),
        Op::EvalAst {
            residual: f,
            rewind_scope: true,
        } => (
            tag::EVAL_AST,
            Fields::One([Field::Index(Pool::Fragments, f)]),
        ),
        Op::EvalAst {
            residual: f,
            rewind_scope: false,
        } => (
            tag::EVAL_AST_KEEP,
            Fields::One([Field::Index(Pool::Fragments, f)]),
        ),
        Op::Chain(h) => (tag::CHAIN, Fields::One([Field::Index(Pool::Chains, h)])),
        Op::MakeArray(s) => (tag::MAKE_ARRAY, Fields::One([Field::Slot(s)])),
        Op::Switch(w) => (tag::SWITCH, Fields::One([Field::Index(Pool::Switches, w)])),
        Op::LoadNamed(n) => (tag::LOAD_NAMED, Fields::One([Field::Index(Pool::Names, n)])),
        Op::AssignNamed { name: n, op: None } => (
            tag::ASSIGN_NAMED,
            Fields::One([Field::Index(Pool::Names, n)]),
        ),
        Op::AssignNamed {
            name: n,
            op: Some(o),
        } => (
            tag::ASSIGN_NAMED_OP,
            Fields::Two([
                Field::Index(Pool::Names, n),
                Field::Index(Pool::OpAssignments, o),
            ]),
        ),
        Op::Throw => (tag::THROW, Fields::None),
        Op::IterInit => (tag::ITER_INIT, Fields::None),
        Op::IterNext {
            exit: j,
            counter_slot: None,
        } => (tag::ITER_NEXT, Fields::One([Field::Target(j)])),
        Op::IterDrop => (tag::ITER_DROP, Fields::None),
        Op::StoreShared(s) => (tag::STORE_SHARED, Fields::One([Field::Slot(s)])),
        Op::IterNext {
            exit: j,
            counter_slot: Some(s),
        } => (
            tag::ITER_NEXT_INDEXED,
            Fields::Two([Field::Target(j), Field::Slot(s)]),
        ),
        Op::PopHandler => (tag::POP_HANDLER, Fields::None),
        Op::PushHandler {
            target: j,
            catch_var: None,
        } => (tag::PUSH_HANDLER, Fields::One([Field::Target(j)])),
        Op::PushHandler {
            target: j,
            catch_var: Some(n),
        } => (
            tag::PUSH_HANDLER_VAR,
            Fields::Two([Field::Target(j), Field::Index(Pool::Names, n)]),
        ),
        Op::InterpolateStart => (tag::INTERPOLATE_START, Fields::None),
        Op::InterpolateAppend => (tag::INTERPOLATE_APPEND, Fields::None),
        Op::InterpolateEnd => (tag::INTERPOLATE_END, Fields::None),
        Op::MakeFnPtr => (tag::MAKE_FN_PTR, Fields::None),
        Op::Curry(a) => (tag::CURRY, Fields::One([Field::Count(a)])),
        Op::CallFnPtr {
            argc: a,
            is_method: false,
            capture_parent_scope: false,
            receiver: None,
        } => (tag::CALL_FN_PTR, Fields::One([Field::Count(a)])),
        Op::CallFnPtr {
            argc: a,
            is_method: true,
            receiver: None,
            ..
        } => (tag::CALL_FN_PTR_METHOD, Fields::One([Field::Count(a)])),
        Op::Share(s) => (tag::SHARE, Fields::One([Field::Slot(s)])),
        Op::ShareNamed(n) => (
            tag::SHARE_NAMED,
            Fields::One([Field::Index(Pool::Names, n)]),
        ),
        Op::LoadShared(s) => (tag::LOAD_SHARED, Fields::One([Field::Slot(s)])),
        Op::MakeClosure(n) => (
            tag::MAKE_CLOSURE,
            Fields::One([Field::Index(Pool::Names, n)]),
        ),
        Op::IsShared => (tag::IS_SHARED, Fields::None),
        Op::Checkpoint => (tag::CHECKPOINT, Fields::None),
        Op::CheckSize {
            index: s,
            is_map: false,
        } => (tag::CHECK_ARRAY_SIZE, Fields::One([Field::Slot(s)])),
        Op::CheckSize {
            index: s,
            is_map: true,
        } => (tag::CHECK_MAP_SIZE, Fields::One([Field::Slot(s)])),
        Op::MakeMap(s) => (tag::MAKE_MAP, Fields::One([Field::Slot(s)])),
        Op::CallRef {
            name: n,
            argc: a,
            receiver: Receiver::Local(s),
            ..
        } => (
            tag::CALL_LOCAL_REF,
            Fields::Three([
                Field::Index(Pool::Names, n),
                Field::Count(a),
                Field::Slot(s),
            ]),
        ),
        Op::Rotate(a) => (tag::ROTATE, Fields::One([Field::Count(a)])),
        Op::CallRef {
            name: n,
            argc: a,
            receiver: Receiver::Named(n2),
            ..
        } => (
            tag::CALL_NAMED_REF,
            Fields::Three([
                Field::Index(Pool::Names, n),
                Field::Count(a),
                Field::Index(Pool::Names, n2),
            ]),
        ),
        Op::LoadSharedNamed(n) => (
            tag::LOAD_SHARED_NAMED,
            Fields::One([Field::Index(Pool::Names, n)]),
        ),
        Op::LoadThis => (tag::LOAD_THIS, Fields::None),
        Op::LoadThisShared => (tag::LOAD_THIS_SHARED, Fields::None),
        Op::RequireThis => (tag::REQUIRE_THIS, Fields::None),
        Op::AssignThis { op: None } => (tag::ASSIGN_THIS, Fields::None),
        Op::AssignThis { op: Some(o) } => (
            tag::ASSIGN_THIS_OP,
            Fields::One([Field::Index(Pool::OpAssignments, o)]),
        ),
        Op::CallRef {
            name: n,
            argc: a,
            receiver: Receiver::This,
            ..
        } => (
            tag::CALL_THIS_REF,
            Fields::Two([Field::Index(Pool::Names, n), Field::Count(a)]),
        ),
        Op::CallFnPtr {
            argc: a,
            receiver: Some(Receiver::Local(s)),
            ..
        } => (
            tag::CALL_FN_PTR_ON_LOCAL,
            Fields::Two([Field::Count(a), Field::Slot(s)]),
        ),
        Op::CallFnPtr {
            argc: a,
            receiver: Some(Receiver::Named(n)),
            ..
        } => (
            tag::CALL_FN_PTR_ON_NAMED,
            Fields::Two([Field::Count(a), Field::Index(Pool::Names, n)]),
        ),
        Op::CallFnPtr {
            argc: a,
            receiver: Some(Receiver::This),
            ..
        } => (tag::CALL_FN_PTR_ON_THIS, Fields::One([Field::Count(a)])),
        Op::SkipIfNotUnit { target: j } => (tag::SKIP_IF_NOT_UNIT, Fields::One([Field::Target(j)])),
        Op::Statement { depth: s } => (tag::STATEMENT, Fields::One([Field::Slot(s)])),
        Op::StoreLocal {
            slot: s,
            is_const: true,
        } => (tag::STORE_CONST, Fields::One([Field::Slot(s)])),
        Op::CallFnPtr {
            argc: a,
            is_method: false,
            capture_parent_scope: true,
            receiver: None,
        } => (tag::CALL_FN_PTR_CAPTURE, Fields::One([Field::Count(a)])),
        Op::CustomSyntax(y) => (
            tag::CUSTOM_SYNTAX,
            Fields::One([Field::Index(Pool::SyntaxSites, y)]),
        ),
        Op::DeclareLocal {
            name: n,
            is_const: true,
            is_global: true,
        } => (
            tag::DECLARE_GLOBAL_CONST,
            Fields::One([Field::Index(Pool::Names, n)]),
        ),
        Op::ExportLocal { slot: s, alias: n } => (
            tag::EXPORT_LOCAL,
            Fields::Two([Field::Slot(s), Field::Index(Pool::Names, n)]),
        ),
        Op::ExportNamed { name: n, alias: n2 } => (
            tag::EXPORT_NAMED,
            Fields::Two([Field::Index(Pool::Names, n), Field::Index(Pool::Names, n2)]),
        ),
        Op::Import { alias: n } => (tag::IMPORT, Fields::One([Field::Index(Pool::Names, n)])),
    }
}
