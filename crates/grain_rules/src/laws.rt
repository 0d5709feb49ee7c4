//! Laws of the definitions that contracts cite.
//!
//! Each function does nothing: its contract is the law.
ghost use Rattle.std.specs.Prelude.{◌≡◌, ◌<◌, ◌≤◌, ◌↔◌, ◌⊎◌, ℕ, List, [], Option, Some, get_or, length, map, option_map};
ghost use Rattle.std.specs.Prelude.{slice_get, slice_index};
ghost use Rattle.std.specs.List.{Contains};
ghost use Rattle.grain_base.specs.Content.{Content};
ghost use Rattle.grain_code.specs.Assembly.{CanAssemble, IsAssembly};
ghost use Rattle.grain_pools.specs.Chain.{TakesOperand};
ghost use Rattle.grain_pools.specs.Dispatch.{Arms, dispatched, arm_targets};
ghost use Rattle.grain_code.specs.Span.{Span, body};
ghost use Rattle.grain_code.specs.Split.{AreInstructions};
ghost use Rattle.grain_pools.specs.declared.chain.Chain.{Chain};
ghost use Rattle.grain_pools.specs.declared.chain.Step.{Step};
ghost use Rattle.grain_code.specs.declared.op.Op.{Op};
ghost use Rattle.grain_code.specs.declared.op.Op.TheVariants as ops;
ghost use Rattle.grain_rules.specs.Code.{Bytecode, Code, coded};
ghost use Rattle.grain_rules.specs.Accepted.{ChunkPasses, Input, IsAccepted};
ghost use Rattle.grain_rules.specs.ByIndex.{IsCut, LeadWithin, code_by_index, span_moved, placed};
ghost use Rattle.grain_rules.specs.Counts.{Counts};
ghost use Rattle.grain_rules.specs.Effects.{Edge, after_jump};
ghost use Rattle.grain_rules.specs.Depths.{IsDepthTyping, depths_of};
ghost use Rattle.grain_rules.specs.Facts.{chain_facts};
ghost use Rattle.grain_rules.specs.Indices.{Indexed, IsWithinPools};
ghost use Rattle.grain_rules.specs.Machine.{Catches, Finds, IsKept, IsKeptRun, IsOnKeptRun};
ghost use Rattle.grain_rules.specs.Machine.{IsRunKeptAtQuiet, Machine, Moves, MovesKeptAtQuiet, counts};
ghost use Rattle.grain_rules.specs.EdgeSteps.{IsArmed, IsEdgeCatch, IsEdgeStep, armed_counts};
ghost use Rattle.grain_rules.specs.Setting.{Setting};
ghost use Rattle.grain_rules.specs.Typing.{HasTyping, IsDeepest, IsInChunk, IsTyping, Passes, Reached};

/// In a chunk that has a typing, counts are reached exactly where a kept run has them, with handlers of these bases, and
/// each state of a kept run passes.
pub fn walks_and_runs()
    ensures same { (code : Code) (chunk : Span) (d : ℕ) → HasTyping code chunk d
        → (at : ℕ) (c : Counts) → Reached code chunk at c
        ↔ ((m : Machine) × IsOnKeptRun code chunk m
        × (m.address ≡ at) × (counts m ≡ c)) }
    ensures passes { (code : Code) (chunk : Span) (d : ℕ) → HasTyping code chunk d
        → (m : Machine) → IsOnKeptRun code chunk m
        → (op : Op) × Passes code chunk m.address (counts m) op }
{}

/// A typing covers each state of a kept run with its very counts, and no state has more operands than the typing's bound.
pub fn typings_cover_runs()
    ensures { (code : Code) (chunk : Span) (d : ℕ) (typing : ℕ → Option Counts)
        → IsTyping code chunk d typing → (m : Machine) → IsOnKeptRun code chunk m
        → (typing m.address ≡ Some (counts m)) × (m.operands ≤ d) }
{}

/// In a chunk that has a typing, a run is kept if its faults at quiet operations are.
pub fn faults_elsewhere_are_kept()
    ensures { (code : Code) (chunk : Span) (d : ℕ) → HasTyping code chunk d
        → (earlier : List Machine) (m : Machine) → IsRunKeptAtQuiet code chunk m earlier
        → IsKeptRun code chunk m earlier }
{}

/// In a chunk that has a typing, a move from a state of a kept run is one of a kept run if its fault at a quiet operation
/// is kept.
pub fn moves_elsewhere_are_kept()
    ensures { (code : Code) (chunk : Span) (d : ℕ) → HasTyping code chunk d
        → (m n : Machine) → IsOnKeptRun code chunk m → MovesKeptAtQuiet code chunk m n
        → Moves code chunk m n }
{}

/// In a chunk that has a typing, every written edge from a state of a kept run is one step of it, or two: the catch edge
/// is an arming, and then a fault at the next instruction that finds the stacks whole.
pub fn edges_are_steps()
    ensures { (code : Code) (chunk : Span) (d : ℕ) → HasTyping code chunk d
        → (m : Machine) (op : Op) (b : ℕ) (c : Counts) → IsOnKeptRun code chunk m
        → Finds code chunk m op → Edge code op m.address (counts m) b c
        → IsEdgeStep code chunk m b c ⊎ IsEdgeCatch code chunk m b c }
{}

/// In a chunk that has a typing, a kept fault lands where the catch edge of the instruction leads that armed its handler.
pub fn faults_land_on_catch_edges()
    ensures { (code : Code) (chunk : Span) (d : ℕ) → HasTyping code chunk d
        → (m n : Machine) → IsOnKeptRun code chunk m
        → (fault : Catches code chunk m n) → IsKept fault
        → (armed : IsArmed code chunk fault.handler fault.outer)
        × (n.address ≡ fault.handler.target)
        × (counts n ≡ after_jump code.setting armed.op
        (armed_counts fault.handler fault.outer)) }
{}

/// A typing whose lists of bases are replaced by their lengths is a typing by depth, so that whoever needs less than
/// these bases finds it in each chunk that is accepted.
pub fn typings_are_typings_by_depth()
    ensures { (code : Code) (chunk : Span) (m : ℕ) (typing : ℕ → Option Counts)
        → IsTyping code chunk m typing
        → IsDepthTyping code chunk m (λ at. option_map depths_of (typing at)) }
{}

/// The body of a chunk that passes is whole instructions, so that disassembling it reaches its end.
pub fn bodies_are_instructions()
    ensures { (code : Bytecode) (chunk : Span) → ChunkPasses code chunk
        → (ops : List Op) × AreInstructions (body chunk code.bytes) ops }
{}

/// Whatever the subject, a switch that a kept run meets leads to a start in the chunk that the typing covers.
pub fn switches_lead_inside()
    ensures { (code : Bytecode) (chunk : Span) (m : ℕ) (typing : ℕ → Option Counts)
        → IsTyping (coded code) chunk m typing
        → (x : Machine) → IsOnKeptRun (coded code) chunk x
        → (w : ℕ) → Finds (coded code) chunk x (ops.Switch w)
        → (arms : Arms) (subject : Content) → get_or code.switches w [] ≡ arm_targets arms
        → IsInChunk (coded code) chunk (dispatched arms subject)
        × ((c : Counts) × (typing (dispatched arms subject) ≡ Some c)) }
{}

/// If all indices of an operation are in bounds, those into pools are. So the rule that steps stay within the operands
/// of their chain only refuses more.
pub fn indices_in_bounds_lie_in_pools()
    ensures { (s : Setting) (op : Op) → Indexed s op → IsWithinPools s op }
{}

/// Each place at which a step takes an operand, in a chain that an instruction of an accepted program names, is below the
/// chain's `operands`.
pub fn steps_stay_within_operands()
    ensures { (input : Input) → IsAccepted input
        → (all : List Op) → AreInstructions input.code.bytes all
        → (x : ℕ) → Contains all (ops.Chain x)
        → (chains : List Chain) → input.code.setting.facts.chains ≡ map chain_facts chains
        → (chain : Chain) → slice_get chains x ≡ Some chain
        → (step : Step) → Contains chain.steps.items step
        → (place : ℕ) → TakesOperand step place → place < chain.operands }
{}

/// A cut of operations has a typing by index exactly where the chunk that is assembled of it has one by address; what is
/// reached at an index is what is reached at its offset, and nothing is reached anywhere else; so the greatest operand
/// counts are the same.
pub fn indices_are_addresses()
    ensures typed { (s : Setting) (all : List Op) (switches : List (List ℕ)) (code offsets : List ℕ)
        → IsAssembly all code offsets → CanAssemble all → LeadWithin (length all) switches
        → (cut : Span) (m : ℕ) → IsCut (length all) cut
        → HasTyping (code_by_index s all switches) cut m
        ↔ HasTyping (placed s (slice_index offsets) code switches)
        (span_moved (slice_index offsets) cut) m }
    ensures reached { (s : Setting) (all : List Op) (switches : List (List ℕ))
        (code offsets : List ℕ)
        → IsAssembly all code offsets → CanAssemble all → LeadWithin (length all) switches
        → (cut : Span) (i : ℕ) (c : Counts) → IsCut (length all) cut → i ≤ length all
        → Reached (code_by_index s all switches) cut i c
        ↔ Reached (placed s (slice_index offsets) code switches)
        (span_moved (slice_index offsets) cut) (slice_index offsets i) c }
    ensures nowhere { (s : Setting) (all : List Op) (switches : List (List ℕ))
        (code offsets : List ℕ)
        → IsAssembly all code offsets → CanAssemble all → LeadWithin (length all) switches
        → (cut : Span) (b : ℕ) (c : Counts) → IsCut (length all) cut
        → Reached (placed s (slice_index offsets) code switches)
        (span_moved (slice_index offsets) cut) b c
        → (i : ℕ) × (i ≤ length all) × (slice_index offsets i ≡ b) }
    ensures deepest { (s : Setting) (all : List Op) (switches : List (List ℕ))
        (code offsets : List ℕ)
        → IsAssembly all code offsets → CanAssemble all → LeadWithin (length all) switches
        → (cut : Span) (n : ℕ) → IsCut (length all) cut
        → IsDeepest (code_by_index s all switches) cut n
        ↔ IsDeepest (placed s (slice_index offsets) code switches)
        (span_moved (slice_index offsets) cut) n }
{}
