//! The first byte of each instruction (docs/FORMAT.md, "Instructions"). A byte that isn't listed begins none.

/// Pushes a constant. Fields: constant.
pub const LOAD_CONST: u8 = 0x01;

/// Pushes unit.
pub const UNIT: u8 = 0x02;

/// Pushes false.
pub const FALSE: u8 = 0x03;

/// Pushes true.
pub const TRUE: u8 = 0x04;

/// Pushes a local slot. Fields: slot.
pub const LOAD_LOCAL: u8 = 0x05;

/// Pops into a local slot. Fields: slot.
pub const STORE_LOCAL: u8 = 0x06;

/// Pops and assigns to a local slot. Fields: slot, name.
pub const ASSIGN_LOCAL: u8 = 0x07;

/// Pops and assigns to a local slot through an operator. Fields: slot, name, op-assignment.
pub const ASSIGN_LOCAL_OP: u8 = 0x08;

/// Pops and declares a variable. Fields: name.
pub const DECLARE_LOCAL: u8 = 0x09;

/// Pops and declares a constant. Fields: name.
pub const DECLARE_CONST: u8 = 0x0a;

/// Drops the top operand.
pub const POP: u8 = 0x0b;

/// Jumps to the target. Fields: target.
pub const JUMP: u8 = 0x0c;

/// Pops a condition and jumps where it holds. Fields: target.
pub const JUMP_IF_TRUE: u8 = 0x0d;

/// Pops a condition and jumps where it doesn't hold. Fields: target.
pub const JUMP_IF_FALSE: u8 = 0x0e;

/// Calls a function. Fields: name, argument count.
pub const CALL: u8 = 0x0f;

/// Calls a function that stands for an operator. Fields: name, argument count, operator.
pub const CALL_OP: u8 = 0x10;

/// Drops local variables down to this many. Fields: depth.
pub const UNWIND_TO: u8 = 0x11;

/// Counts an operation.
pub const TICK: u8 = 0x12;

/// Ends the run.
pub const RETURN: u8 = 0x13;

/// Runs a fragment, and drops what it declares. Fields: fragment.
pub const EVAL_AST: u8 = 0x14;

/// Runs a fragment, and keeps what it declares. Fields: fragment.
pub const EVAL_AST_KEEP: u8 = 0x15;

/// Walks a chain. Fields: chain.
pub const CHAIN: u8 = 0x16;

/// Makes an array of this many values. Fields: length.
pub const MAKE_ARRAY: u8 = 0x17;

/// Jumps where a switch leads. Fields: switch.
pub const SWITCH: u8 = 0x18;

/// Pushes the variable of a name. Fields: name.
pub const LOAD_NAMED: u8 = 0x19;

/// Pops and assigns to the variable of a name. Fields: name.
pub const ASSIGN_NAMED: u8 = 0x1a;

/// Pops and assigns to the variable of a name through an operator. Fields: name, op-assignment.
pub const ASSIGN_NAMED_OP: u8 = 0x1b;

/// Pops a value and raises it.
pub const THROW: u8 = 0x1c;

/// Pops a value and begins to go over it.
pub const ITER_INIT: u8 = 0x1d;

/// Pushes the next item, or exits. Fields: exit target.
pub const ITER_NEXT: u8 = 0x1e;

/// Drops the innermost iterator.
pub const ITER_DROP: u8 = 0x1f;

/// Pops into a slot, through its share. Fields: slot.
pub const STORE_SHARED: u8 = 0x20;

/// Pushes the next item and counts it, or exits. Fields: exit target, slot.
pub const ITER_NEXT_INDEXED: u8 = 0x21;

/// Disarms the innermost handler.
pub const POP_HANDLER: u8 = 0x22;

/// Arms a handler. Fields: catch target.
pub const PUSH_HANDLER: u8 = 0x23;

/// Arms a handler that binds the fault to a name. Fields: catch target, name.
pub const PUSH_HANDLER_VAR: u8 = 0x24;

/// Pushes the text that an interpolation starts with.
pub const INTERPOLATE_START: u8 = 0x25;

/// Adds the text of a value.
pub const INTERPOLATE_APPEND: u8 = 0x26;

/// Ends the text of an interpolation.
pub const INTERPOLATE_END: u8 = 0x27;

/// Makes a function pointer of a text.
pub const MAKE_FN_PTR: u8 = 0x28;

/// Curries arguments to a function pointer. Fields: argument count.
pub const CURRY: u8 = 0x29;

/// Calls a function pointer. Fields: argument count.
pub const CALL_FN_PTR: u8 = 0x2a;

/// Calls a function pointer in method position. Fields: argument count.
pub const CALL_FN_PTR_METHOD: u8 = 0x2b;

/// Makes a slot shared. Fields: slot.
pub const SHARE: u8 = 0x2c;

/// Makes the variable of a name shared. Fields: name.
pub const SHARE_NAMED: u8 = 0x2d;

/// Pushes a slot, shared if it is. Fields: slot.
pub const LOAD_SHARED: u8 = 0x2e;

/// Pushes a pointer to a closure's function. Fields: name.
pub const MAKE_CLOSURE: u8 = 0x2f;

/// Says whether a value is shared.
pub const IS_SHARED: u8 = 0x30;

/// Notes how far the scope reaches.
pub const CHECKPOINT: u8 = 0x31;

/// Tests the size of an array literal. Fields: index of the element.
pub const CHECK_ARRAY_SIZE: u8 = 0x32;

/// Tests the size of a map literal. Fields: index of the element.
pub const CHECK_MAP_SIZE: u8 = 0x33;

/// Makes a map of this many keys and values. Fields: length.
pub const MAKE_MAP: u8 = 0x34;

/// Calls a function on a local slot by reference. Fields: name, argument count, slot.
pub const CALL_LOCAL_REF: u8 = 0x35;

/// Moves the top operand below this many others. Fields: count.
pub const ROTATE: u8 = 0x36;

/// Calls a function on a variable by reference. Fields: name, argument count, the variable's name.
pub const CALL_NAMED_REF: u8 = 0x37;

/// Pushes the variable of a name, shared if it is. Fields: name.
pub const LOAD_SHARED_NAMED: u8 = 0x38;

/// Pushes `this`.
pub const LOAD_THIS: u8 = 0x39;

/// Pushes `this`, shared if it is.
pub const LOAD_THIS_SHARED: u8 = 0x3a;

/// Raises a fault if `this` isn't bound.
pub const REQUIRE_THIS: u8 = 0x3b;

/// Pops and assigns to `this`.
pub const ASSIGN_THIS: u8 = 0x3c;

/// Pops and assigns to `this` through an operator. Fields: op-assignment.
pub const ASSIGN_THIS_OP: u8 = 0x3d;

/// Calls a function on `this` by reference. Fields: name, argument count.
pub const CALL_THIS_REF: u8 = 0x3e;

/// Calls a function pointer on a local slot. Fields: argument count, slot.
pub const CALL_FN_PTR_ON_LOCAL: u8 = 0x3f;

/// Calls a function pointer on a variable. Fields: argument count, name.
pub const CALL_FN_PTR_ON_NAMED: u8 = 0x40;

/// Calls a function pointer on `this`. Fields: argument count.
pub const CALL_FN_PTR_ON_THIS: u8 = 0x41;

/// Jumps if the top operand isn't unit. Fields: target.
pub const SKIP_IF_NOT_UNIT: u8 = 0x42;

/// Begins a statement. Fields: depth.
pub const STATEMENT: u8 = 0x47;

/// Pops into a local slot as a constant. Fields: slot.
pub const STORE_CONST: u8 = 0x48;

/// Calls a function pointer that sees the caller's scope. Fields: argument count.
pub const CALL_FN_PTR_CAPTURE: u8 = 0x49;

/// Runs a site of custom syntax. Fields: site.
pub const CUSTOM_SYNTAX: u8 = 0x4a;

/// Pops and declares a constant at the outermost level. Fields: name.
pub const DECLARE_GLOBAL_CONST: u8 = 0x4b;

/// Exports a slot. Fields: slot, name.
pub const EXPORT_LOCAL: u8 = 0x4d;

/// Exports the variable of a name. Fields: name, the name under which it is exported.
pub const EXPORT_NAMED: u8 = 0x4e;

/// Imports a module under a name. Fields: name.
pub const IMPORT: u8 = 0x4f;
