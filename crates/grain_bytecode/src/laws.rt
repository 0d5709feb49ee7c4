//! Laws of the definitions that contracts cite.
//!
//! Each function does nothing: its contract is the law.

ghost use Rattle.std.specs.Prelude.{◌≡◌, ◌≢◌, ℕ, ◌<◌, ◌≤◌, ◌++◌, ◌↔◌, true, List, length, take, drop, Option, None, Some, slice_get};
ghost use Rattle.std.specs.Int.RustNames.{bit_and};
ghost use Rattle.std.specs.List.{Contains, concat, list_all};
ghost use Rattle.std.specs.Str.{is_utf8};
ghost use Rattle.bitflags.specs.Sets.{known_bits};
ghost use Rattle.grain_base.specs.Content.{Content};
ghost use Rattle.grain_base.specs.declared.pos.Site.{Site};
ghost use Rattle.grain_pools.specs.Chain.{TakesOperand, last_operand};
ghost use Rattle.grain_bytecode.specs.ChainStream.{Stream};
ghost use Rattle.grain_pools.specs.Dispatch.{AreWithin, Arms, dispatched, resolved, arm_targets};
ghost use Rattle.grain_pools.specs.Names.{first_flaw, names_in, starts_of};
ghost use Rattle.grain_bytecode.specs.Positions.{Arrived};
ghost use Rattle.grain_pools.specs.Qualified.{IsLastCut, last_cut, separator};
ghost use Rattle.grain_pools.specs.StepBits.{flags_table};
ghost use Rattle.grain_code.specs.InstructionTable.{Instr, canon};
ghost use Rattle.grain_code.specs.Split.{Split, IsSplitBoundary, FrontEnds, StandsAt};
ghost use Rattle.grain_code.specs.Disassembly.{IsDisassembly};
ghost use Rattle.grain_code.specs.Assembly.{IsAssembly, CanAssemble, with_indices};
ghost use Rattle.grain_pools.specs.declared.chain.Step.{Step};
ghost use Rattle.grain_code.specs.declared.op.Op.{Op};

/// The canonical form of a canonical form is that form, and each instruction is its own canonical form.
pub fn canonical_forms_stay()
    ensures twice { (op : Op) → canon (canon op) ≡ canon op }
    ensures own { (bytes : List ℕ) (op : Op) → Instr bytes op → canon op ≡ op }
{}

/// Each instruction has one spelling.
pub fn spellings_are_unique()
    ensures { (bytes other : List ℕ) (op : Op) → Instr bytes op → Instr other op → bytes ≡ other }
{}

/// No instruction begins another, and bytes are one instruction at most.
pub fn no_instruction_begins_another()
    ensures { (bytes other x y : List ℕ) (op op' : Op) → Instr bytes op → Instr other op'
        → bytes ++ x ≡ other ++ y → (bytes ≡ other) × (op ≡ op') }
{}

/// At most one instruction is at an address.
pub fn one_instruction_stands()
    ensures { (code : List ℕ) (at : ℕ) (op op' : Op) → StandsAt code at op → StandsAt code at op'
        → op ≡ op' }
{}

/// Code splits in one way, and its longest front that splits ends in one place.
pub fn code_splits_in_one_way()
    ensures starts { (code starts starts' : List ℕ) → Split code starts → Split code starts'
        → starts ≡ starts' }
    ensures front { (code : List ℕ) (at at' : ℕ) → at ≤ length code → at' ≤ length code
        → FrontEnds code at → FrontEnds code at' → at ≡ at' }
{}

/// Code that splits is cut by a boundary into two that do.
pub fn boundaries_cut_code()
    ensures { (code starts : List ℕ) (at : ℕ) → Split code starts → IsSplitBoundary code starts at
        → ((front : List ℕ) × Split (take at code) front)
        × ((back : List ℕ) × Split (drop at code) back) }
{}

/// Reading code arrives at one list of addresses, so an address table and code give one list of places.
pub fn code_is_read_in_one_way()
    ensures { (code arrived other : List ℕ) → Arrived code arrived → Arrived code other
        → arrived ≡ other }
{}

/// What is disassembled from assembled code can be assembled again, its targets mapped back by the offsets, and gives
/// the same code and offsets.
pub fn disassembled_code_assembles_again()
    ensures can { (ops : List Op) (code offsets : List ℕ) (items : List (ℕ × Op))
        → CanAssemble ops → IsAssembly ops code offsets → IsDisassembly 0 code items
        → CanAssemble (with_indices offsets items) }
    ensures same { (ops : List Op) (code offsets : List ℕ) (items : List (ℕ × Op))
        (again table : List ℕ) → CanAssemble ops → IsAssembly ops code offsets
        → IsDisassembly 0 code items
        → IsAssembly (with_indices offsets items) again table → (again ≡ code) × (table ≡ offsets) }
{}

/// The bytes of a stream of chain positions have one list of slots.
pub fn streams_have_one_list()
    ensures { (bytes : List ℕ) (slots other : List (Option Site)) → Stream bytes slots
        → Stream bytes other → slots ≡ other }
{}

/// A switch leads to one of its targets.
pub fn dispatch_answers_a_target()
    ensures { (t : Arms) (subject : Content) → Contains (arm_targets t) (dispatched t subject) }
{}

/// A switch whose targets are replaced by offsets leads to the offset of where it led.
pub fn dispatch_follows_its_offsets()
    ensures { (offsets : List ℕ) (t : Arms) (subject : Content) → AreWithin (length offsets) t
        → slice_get offsets (dispatched t subject)
        ≡ Some (dispatched (resolved offsets t) subject) }
{}

/// The last operand of a step is the last place at which it takes one; if there is none, it takes none.
pub fn last_operand_is_the_last()
    ensures last { (step : Step) (last : ℕ) → last_operand step ≡ Some last
        → TakesOperand step last × ((place : ℕ) → TakesOperand step place → place ≤ last) }
    ensures none { (step : Step) → last_operand step ≡ None
        → (place : ℕ) → TakesOperand step place → ⊥ }
{}

/// The flag of a step has the lowest bit: a number is a set of flags exactly where it is below 2.
pub fn flags_have_the_lowest_bit()
    ensures all { known_bits flags_table ≡ 1 }
    ensures known { (bits : ℕ) → (bit_and bits (known_bits flags_table) ≡ bits) ↔ (bits < 2) }
{}

/// A name is cut at the last separator, if it has one.
pub fn name_is_cut_last()
    ensures cut { (name before after : List ℕ) → (last_cut name ≡ Some (before, after))
        ↔ IsLastCut name before after }
    ensures uncut { (name : List ℕ) → (last_cut name ≡ None)
        ↔ ((before after : List ℕ) → name ≢ before ++ separator ++ after) }
{}

/// Names are cut from their bytes by their starts again.
pub fn table_is_read_again()
    ensures names { (names : List (List ℕ)) → names_in (concat names) (starts_of 0 names) ≡ names }
    ensures flawless { (names : List (List ℕ)) → list_all is_utf8 names ≡ true
        → first_flaw (concat names) (starts_of 0 names) ≡ None }
{}
