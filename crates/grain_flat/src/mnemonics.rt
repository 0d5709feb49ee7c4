//! What instructions are called, by the names of docs/FORMAT.md, so that each text of C is one that a reader can look up there.
ghost use Rattle.std.specs.Prelude.{◌≡◌, ◌<◌, ◌≤◌, length};
ghost use Rattle.grain_flat.specs.InstructionTexts.{mnemonic};

use grain_code::{Op, Receiver};

/// What an operation is called: its tag's name in docs/FORMAT.md ("Instructions").
pub(crate) fn mnemonic(op: &Op) -> &'static str
    ensures name { result.now ≡ mnemonic op.now }
    ensures some { 0 < length result.now }
    ensures short { length result.now ≤ 20 }
{
    match *op {
        Op::Const(_) => "LOAD_CONST",
        Op::Unit => "UNIT",
        Op::Bool(false) => "FALSE",
        Op::Bool(true) => "TRUE",
        Op::LoadLocal(_) => "LOAD_LOCAL",
        Op::StoreLocal {
            is_const: false,
            ..
        } => "STORE_LOCAL",
        Op::AssignLocal { op: None, .. } => "ASSIGN_LOCAL",
        Op::AssignLocal { op: Some(_), .. } => "ASSIGN_LOCAL_OP",
        Op::DeclareLocal {
            is_const: false,
            ..
        } => "DECLARE_LOCAL",
        Op::DeclareLocal {
            is_const: true,
            is_global: false,
            ..
        } => "DECLARE_CONST",
        Op::Pop => "POP",
        Op::Jump(_) => "JUMP",
        Op::JumpIfTrue { .. } => "JUMP_IF_TRUE",
        Op::JumpIfFalse { .. } => "JUMP_IF_FALSE",
        Op::Call { op: None, .. } => "CALL",
        Op::Call { op: Some(_), .. } => "CALL_OP",
        Op::UnwindTo(_) => "UNWIND_TO",
        Op::Tick => "TICK",
        Op::Return => "RETURN",
        Op::EvalAst {
            rewind_scope: true,
            ..
        } => "EVAL_AST",
        Op::EvalAst {
            rewind_scope: false,
            ..
        } => "EVAL_AST_KEEP",
        Op::Chain(_) => "CHAIN",
        Op::MakeArray(_) => "MAKE_ARRAY",
        Op::Switch(_) => "SWITCH",
        Op::LoadNamed(_) => "LOAD_NAMED",
        Op::AssignNamed { op: None, .. } => "ASSIGN_NAMED",
        Op::AssignNamed { op: Some(_), .. } => "ASSIGN_NAMED_OP",
        Op::Throw => "THROW",
        Op::IterInit => "ITER_INIT",
        Op::IterNext {
            counter_slot: None,
            ..
        } => "ITER_NEXT",
        Op::IterDrop => "ITER_DROP",
        Op::StoreShared(_) => "STORE_SHARED",
        Op::IterNext {
            counter_slot: Some(_),
            ..
        } => "ITER_NEXT_INDEXED",
        Op::PopHandler => "POP_HANDLER",
        Op::PushHandler {
            catch_var: None,
            ..
        } => "PUSH_HANDLER",
        Op::PushHandler {
            catch_var: Some(_),
            ..
        } => "PUSH_HANDLER_VAR",
        Op::InterpolateStart => "INTERPOLATE_START",
        Op::InterpolateAppend => "INTERPOLATE_APPEND",
        Op::InterpolateEnd => "INTERPOLATE_END",
        Op::MakeFnPtr => "MAKE_FN_PTR",
        Op::Curry(_) => "CURRY",
        Op::CallFnPtr {
            is_method: false,
            capture_parent_scope: false,
            receiver: None,
            ..
        } => "CALL_FN_PTR",
        Op::CallFnPtr {
            is_method: true,
            receiver: None,
            ..
        } => "CALL_FN_PTR_METHOD",
        Op::Share(_) => "SHARE",
        Op::ShareNamed(_) => "SHARE_NAMED",
        Op::LoadShared(_) => "LOAD_SHARED",
        Op::MakeClosure(_) => "MAKE_CLOSURE",
        Op::IsShared => "IS_SHARED",
        Op::Checkpoint => "CHECKPOINT",
        Op::CheckSize { is_map: false, .. } => "CHECK_ARRAY_SIZE",
        Op::CheckSize { is_map: true, .. } => "CHECK_MAP_SIZE",
        Op::MakeMap(_) => "MAKE_MAP",
        Op::CallRef {
            receiver: Receiver::Local(_),
            ..
        } => "CALL_LOCAL_REF",
        Op::Rotate(_) => "ROTATE",
        Op::CallRef {
            receiver: Receiver::Named(_),
            ..
        } => "CALL_NAMED_REF",
        Op::LoadSharedNamed(_) => "LOAD_SHARED_NAMED",
        Op::LoadThis => "LOAD_THIS",
        Op::LoadThisShared => "LOAD_THIS_SHARED",
        Op::RequireThis => "REQUIRE_THIS",
        Op::AssignThis { op: None } => "ASSIGN_THIS",
        Op::AssignThis { op: Some(_) } => "ASSIGN_THIS_OP",
        Op::CallRef {
            receiver: Receiver::This,
            ..
        } => "CALL_THIS_REF",
        Op::CallFnPtr {
            receiver: Some(Receiver::Local(_)),
            ..
        } => "CALL_FN_PTR_ON_LOCAL",
        Op::CallFnPtr {
            receiver: Some(Receiver::Named(_)),
            ..
        } => "CALL_FN_PTR_ON_NAMED",
        Op::CallFnPtr {
            receiver: Some(Receiver::This),
            ..
        } => "CALL_FN_PTR_ON_THIS",
        Op::SkipIfNotUnit { .. } => "SKIP_IF_NOT_UNIT",
        Op::Statement { .. } => "STATEMENT",
        Op::StoreLocal { is_const: true, .. } => "STORE_CONST",
        Op::CallFnPtr {
            is_method: false,
            capture_parent_scope: true,
            receiver: None,
            ..
        } => "CALL_FN_PTR_CAPTURE",
        Op::CustomSyntax(_) => "CUSTOM_SYNTAX",
        Op::DeclareLocal {
            is_const: true,
            is_global: true,
            ..
        } => "DECLARE_GLOBAL_CONST",
        Op::ExportLocal { .. } => "EXPORT_LOCAL",
        Op::ExportNamed { .. } => "EXPORT_NAMED",
        Op::Import { .. } => "IMPORT",
    }
}
