//! What instructions are called, and which operands they have.

/// What an operand of an instruction is (docs/FORMAT.md, "Fields").
#[derive(Clone, Copy, Debug, PartialEq, Eq)]
pub enum Operand {
    /// The index of a constant.
    Constant,
    /// The index of a name.
    Name,
    /// The index of an operator.
    Operator,
    /// The index of an op-assignment.
    OpAssignment,
    /// The index of a fragment of syntax.
    Fragment,
    /// The index of a chain.
    Chain,
    /// The index of a switch.
    Switch,
    /// The index of a site of custom syntax.
    SyntaxSite,
    /// A slot, a depth, a length, or an index within a literal.
    Slot,
    /// A count of arguments or of operands.
    Count,
    /// An address in the code.
    Target,
}

/// How an instruction is written.
#[derive(Clone, Copy, Debug)]
pub struct TextForm {
    /// What it is called: its constant of the instruction table in lower case. It is empty of a byte that begins no
    /// instruction.
    pub mnemonic: &'static str,
    /// Its operands, in order.
    pub operands: &'static [Operand],
}

const NONE: TextForm = TextForm {
    mnemonic: "",
    operands: &[],
};

macro_rules! form {
    ($mnemonic:literal $($operand:ident)*) => {
        TextForm {
            mnemonic: $mnemonic,
            operands: &[$(Operand::$operand,)*],
        }
    };
}

/// The form of each tag, by the tag.
static FORMS: [TextForm; 80] = [
    NONE,
    form!("load_const" Constant),
    form!("unit"),
    form!("false"),
    form!("true"),
    form!("load_local" Slot),
    form!("store_local" Slot),
    form!("assign_local" Slot Name),
    form!("assign_local_op" Slot Name OpAssignment),
    form!("declare_local" Name),
    form!("declare_const" Name),
    form!("pop"),
    form!("jump" Target),
    form!("jump_if_true" Target),
    form!("jump_if_false" Target),
    form!("call" Name Count),
    form!("call_op" Name Count Operator),
    form!("unwind_to" Slot),
    form!("tick"),
    form!("return"),
    form!("eval_ast" Fragment),
    form!("eval_ast_keep" Fragment),
    form!("chain" Chain),
    form!("make_array" Slot),
    form!("switch" Switch),
    form!("load_named" Name),
    form!("assign_named" Name),
    form!("assign_named_op" Name OpAssignment),
    form!("throw"),
    form!("iter_init"),
    form!("iter_next" Target),
    form!("iter_drop"),
    form!("store_shared" Slot),
    form!("iter_next_indexed" Target Slot),
    form!("pop_handler"),
    form!("push_handler" Target),
    form!("push_handler_var" Target Name),
    form!("interpolate_start"),
    form!("interpolate_append"),
    form!("interpolate_end"),
    form!("make_fn_ptr"),
    form!("curry" Count),
    form!("call_fn_ptr" Count),
    form!("call_fn_ptr_method" Count),
    form!("share" Slot),
    form!("share_named" Name),
    form!("load_shared" Slot),
    form!("make_closure" Name),
    form!("is_shared"),
    form!("checkpoint"),
    form!("check_array_size" Slot),
    form!("check_map_size" Slot),
    form!("make_map" Slot),
    form!("call_local_ref" Name Count Slot),
    form!("rotate" Count),
    form!("call_named_ref" Name Count Name),
    form!("load_shared_named" Name),
    form!("load_this"),
    form!("load_this_shared"),
    form!("require_this"),
    form!("assign_this"),
    form!("assign_this_op" OpAssignment),
    form!("call_this_ref" Name Count),
    form!("call_fn_ptr_on_local" Count Slot),
    form!("call_fn_ptr_on_named" Count Name),
    form!("call_fn_ptr_on_this" Count),
    form!("skip_if_not_unit" Target),
    NONE,
    NONE,
    NONE,
    NONE,
    form!("statement" Slot),
    form!("store_const" Slot),
    form!("call_fn_ptr_capture" Count),
    form!("custom_syntax" SyntaxSite),
    form!("declare_global_const" Name),
    NONE,
    form!("export_local" Slot Name),
    form!("export_named" Name Name),
    form!("import" Name),
];

/// The form of the instructions that begin with a tag. It takes constant time.
#[must_use]
pub fn form_of(tag: u8) -> Option<&'static TextForm> {
    match FORMS.get(tag as usize) {
        Some(form) if !form.mnemonic.is_empty() => Some(form),
        _ => None,
    }
}

/// The tag of the instruction of this name, and its form.
#[must_use]
pub fn form_named(mnemonic: &str) -> Option<(u8, &'static TextForm)> {
    let mut tag = 0u8;
    for form in &FORMS {
        if !mnemonic.is_empty() && form.mnemonic == mnemonic {
            return Some((tag, form));
        }
        tag = tag.saturating_add(1);
    }
    None
}
