//! Laws of what a program needs.
//!
//! Each function does nothing: its contract is the law.
ghost use Rattle.std.specs.Prelude.{◌≡◌, ◌<◌, ℕ, List, Option, Some};
ghost use Rattle.grain_code.specs.Span.{Span};
ghost use Rattle.grain_code.specs.declared.op.Op.{Op};
ghost use Rattle.grain_rules.specs.Accepted.{ChunkPasses, Input, IsAccepted};
ghost use Rattle.grain_rules.specs.Code.{Bytecode, coded};
ghost use Rattle.grain_rules.specs.Machine.{Finds, IsOnKeptRun, Machine};
ghost use Rattle.grain_needs.specs.Capabilities.{Suffice, input_under};
ghost use Rattle.grain_needs.specs.Slots.{AreSlots, named_slot};

/// In a chunk that passes, each slot that an instruction names which a kept run meets is below the chunk's number of slots.
pub fn runs_stay_within_slots()
    ensures { (code : Bytecode) (chunk : Span) → ChunkPasses code chunk
        → (chains : List (Option ℕ)) (n : ℕ) → AreSlots chains code.bytes chunk n
        → (m : Machine) → IsOnKeptRun (coded code) chunk m
        → (op : Op) → Finds (coded code) chunk m op
        → (slot : ℕ) → named_slot chains op ≡ Some slot → slot < n }
{}

/// What is accepted for a host with some capabilities is accepted for each host whose capabilities suffice.
pub fn sufficient_capabilities_accept()
    ensures { (i : Input) → IsAccepted i
        → (caps : ℕ) → Suffice i caps → IsAccepted (input_under caps i) }
{}
