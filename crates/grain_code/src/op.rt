//! Instructions as values.
//!
//! A jump target is the index of an operation before assembling, and an address in bytes once the code is assembled.
//! A name, a constant or a similar thing is an index into the pool of the program that holds such things.

/// Where a call that passes a variable by reference finds that variable.
#[derive(Clone, Copy, Debug, PartialEq, Eq)]
pub enum Receiver {
    /// The local variable of this slot.
    Local(u16),
    /// The variable of this name, whose value was pushed as the first argument.
    Named(u32),
    /// The bound `this`, whose value was pushed as the first argument.
    This,
}

/// One instruction.
///
/// The instruction table of docs/FORMAT.md gives each its tag, its fields and what it does to the operand stack. A few
/// values can't be distinguished once they are written: what is decoded is the canonical form (docs/FORMAT.md, "Canonical
/// form").
#[derive(Clone, Copy, Debug, PartialEq, Eq)]
pub enum Op {
    /// Pushes a constant of the pool.
    Const(u32),
    /// Pushes the unit value.
    Unit,
    /// Pushes a truth value.
    Bool(bool),
    /// Pushes the value of a local slot.
    LoadLocal(u16),
    /// Exports a local slot under a name.
    ExportLocal {
        /// The slot.
        slot: u16,
        /// The index of the name under which it is exported.
        alias: u32,
    },
    /// Pops a value into a local slot that is there already.
    StoreLocal {
        /// The slot.
        slot: u16,
        /// Whether the value becomes a constant.
        is_const: bool,
    },
    /// Pushes the value of the variable of a name, qualified or not. It is for variables that no slot reaches, as those that
    /// the caller had before the script ran.
    LoadNamed(u32),
    /// Exports the variable of a name under another.
    ExportNamed {
        /// The index of the variable's name.
        name: u32,
        /// The index of the name under which it is exported.
        alias: u32,
    },
    /// Pops a value and assigns it to the variable of a name.
    AssignNamed {
        /// The index of the variable's name.
        name: u32,
        /// The op-assignment to go through, or none for a plain assignment.
        op: Option<u32>,
    },
    /// Pops a value and assigns it to a local slot. It is more than a store: `x += y` may change `x` in place, which a load, a
    /// sum and a store can't.
    AssignLocal {
        /// The slot.
        slot: u16,
        /// The index of the variable's name, for messages.
        var_name: u32,
        /// The op-assignment to go through, or none for a plain assignment.
        op: Option<u32>,
    },
    /// Pops a value and declares it as the next local variable. Slots are counted, so one declaration too many would have all
    /// later ones name other variables.
    DeclareLocal {
        /// The index of the variable's name.
        name: u32,
        /// Whether it is a constant.
        is_const: bool,
        /// Whether it is declared at the outermost level. Only a constant's is written.
        is_global: bool,
    },
    /// Drops the top of the operand stack.
    Pop,
    /// Jumps to the target.
    Jump(u32),
    /// Pops a condition, and jumps to the target if it holds.
    JumpIfTrue {
        /// Where to jump.
        target: u32,
    },
    /// Pops a condition, and jumps to the target if it doesn't hold.
    JumpIfFalse {
        /// Where to jump.
        target: u32,
    },
    /// Looks at the top of the operand stack, and jumps to the target if it isn't unit. The value stays on both ways, so
    /// that `??` has it as its result.
    SkipIfNotUnit {
        /// Where to jump.
        target: u32,
    },
    /// Pops the arguments, calls a function and pushes what it returns.
    Call {
        /// The index of the function's name, qualified or not.
        name: u32,
        /// How many arguments there are.
        argc: u8,
        /// The operator that the call stands for, if it does.
        op: Option<u32>,
        /// Whether the callee sees the caller's scope. The code doesn't say so.
        capture_parent_scope: bool,
    },
    /// Calls a function whose first argument is a variable, passed by reference if it can be. Of a local nothing was
    /// pushed, so that it needs an operand less.
    CallRef {
        /// The index of the function's name, qualified or not.
        name: u32,
        /// How many arguments there are, the variable among them.
        argc: u8,
        /// The variable.
        receiver: Receiver,
        /// Whether the callee sees the caller's scope. The code doesn't say so.
        capture_parent_scope: bool,
    },
    /// Moves the top of the operand stack below this many others, as a receiver that was read last goes below its arguments.
    Rotate(u8),
    /// Looks at the top of the operand stack, and jumps where a switch leads it. The value stays below what the arms push,
    /// and each way out of them has to pop it.
    Switch(u32),
    /// Makes a local slot a shared value, so that a closure and the code around it see each other's changes.
    Share(u16),
    /// Makes the variable of a name a shared value.
    ShareNamed(u32),
    /// Pushes a local slot, shared if it is. [`Op::LoadLocal`] would push what the share holds, and a closure that is given
    /// that has a copy.
    LoadShared(u16),
    /// Pushes the variable of a name, shared if it is.
    LoadSharedNamed(u32),
    /// Pushes a function pointer to the function of a name, with the scope that it closes over.
    MakeClosure(u32),
    /// Pops a text and pushes a function pointer to the function of that name.
    MakeFnPtr,
    /// Pops a value and pushes whether it is shared.
    IsShared,
    /// Pops a function pointer and this many arguments, and pushes the pointer with these curried.
    Curry(u8),
    /// Calls a function pointer that lies below its arguments, so that it needs an operand more than they are.
    CallFnPtr {
        /// How many arguments there are.
        argc: u8,
        /// Whether it is called in method position. Always so with a receiver.
        is_method: bool,
        /// Whether the callee sees the caller's scope. Never so in method position.
        capture_parent_scope: bool,
        /// The variable that the call is made on, if it is one.
        receiver: Option<Receiver>,
    },
    /// Walks a chain of the pool: index, property and method steps from a root.
    Chain(u32),
    /// Pops this many values and pushes an array of them.
    MakeArray(u16),
    /// Pops this many keys and values over a map, and pushes the map with these.
    MakeMap(u16),
    /// Tests the size that an array or a map literal has reached, at this element. It is an instruction of its own since the
    /// limit is reported at the element that passed it, and an instruction has one position.
    CheckSize {
        /// The index of the element within its literal.
        index: u16,
        /// Whether the literal is a map.
        is_map: bool,
    },
    /// Pushes the empty text that an interpolation starts with.
    InterpolateStart,
    /// Pops a value and adds its text to the one below. Each piece has an instruction, since the limit is reported at the piece
    /// that passed it.
    InterpolateAppend,
    /// Ends the text of an interpolation.
    InterpolateEnd,
    /// Drops local variables down to this many. Without it a loop would leave those of each round.
    UnwindTo(u16),
    /// Counts an operation against the limit, where a loop begins and each time it goes round. Without it nothing would stop
    /// a loop that never ends.
    Tick,
    /// Notes how far the scope reaches, to which a fault drops it that jumps past an [`Op::UnwindTo`].
    Checkpoint,
    /// Begins a statement at this depth.
    Statement {
        /// How deep the block of the statement is.
        depth: u16,
    },
    /// Pops a value and raises it as a fault.
    Throw,
    /// Pops a value and begins to go over it. Iterators have a stack of their own, since they are no values of the language.
    IterInit,
    /// Pushes the next item of the innermost iterator, or drops the iterator and jumps to the exit.
    IterNext {
        /// Where to jump when no item is left.
        exit: u32,
        /// The slot that counts the items, if one does.
        counter_slot: Option<u16>,
    },
    /// Drops the innermost iterator. A loop that is left early has to, since it doesn't reach its [`Op::IterNext`] again.
    IterDrop,
    /// Arms a handler for faults. It notes how high the stacks are, to which a catch cuts them: what a fault leaves on top
    /// depends on where it came.
    PushHandler {
        /// Where a fault that is caught jumps.
        target: u32,
        /// The index of the name that the fault is bound to, if it is.
        catch_var: Option<u32>,
    },
    /// Disarms the innermost handler. One that stayed would catch the faults of what follows.
    PopHandler,
    /// Pops a value into a local slot, through the share if the slot is one, so that closures that were made in a loop see
    /// its next item.
    StoreShared(u16),
    /// Ends the run of the chunk.
    Return,
    /// Pushes the bound `this`.
    LoadThis,
    /// Pushes the bound `this`, shared if it is.
    LoadThisShared,
    /// Raises a fault if `this` isn't bound, before what is assigned to it is computed: else that could fault first, by
    /// another name.
    RequireThis,
    /// Pops a value and assigns it to the bound `this`.
    AssignThis {
        /// The op-assignment to go through, or none for a plain assignment.
        op: Option<u32>,
    },
    /// Runs a fragment of syntax that wasn't compiled, and pushes its value, so that all of the language runs, compiled or
    /// not.
    EvalAst {
        /// The index of the fragment.
        residual: u32,
        /// Whether the variables that it declares are dropped again.
        rewind_scope: bool,
    },
    /// Runs a site of custom syntax, and pushes its value.
    CustomSyntax(u32),
    /// Pops the path of a module and imports it under a name.
    Import {
        /// The index of the name.
        alias: u32,
    },
}
