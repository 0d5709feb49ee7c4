//! The least capabilities that a program has to declare.
//!
//! They cover code that no run reaches too: only the walk of the verifier knows what is reached, and this is read without a walk.
ghost use Rattle.std.specs.Prelude.{◌≡◌, ◌≢◌, [], ℕ, List, IfSome, Some};
ghost use Rattle.std.specs.List.{All};
ghost use Rattle.grain_base.specs.CapBits.{FUNCTION};
ghost use Rattle.grain_code.specs.Disassembly.{IsDisassembly};
ghost use Rattle.grain_code.specs.Span.{Span};
ghost use Rattle.grain_code.specs.declared.op.Op.{Op};
ghost use Rattle.grain_rules.specs.Accepted.{AllowsConst, ConstantPasses, input_beside};
ghost use Rattle.grain_rules.specs.Capabilities.{Allows};
ghost use Rattle.grain_rules.specs.ConstCaps.{const_caps};
ghost use Rattle.grain_rules.specs.Rows.{caps_of};
ghost use Rattle.grain_rules.specs.Setting.{Setting};
ghost use Rattle.grain_needs.specs.Capabilities.{AreLeast};
ghost use Rattle.grain_needs.specs.Capabilities.{Suffice};

use grain_base::{Caps, Dynamic, Flags};
use grain_code::{Function, Op, disassemble};
use grain_rules::{Effect, Read, asked_beside, constant_caps};

/// These capabilities, and those that a constant needs.
fn joined(all: Caps, value: &Dynamic) -> Caps
    ensures kept { (needed : ℕ) → Allows all.0 needed → Allows result.0 needed }
    ensures suffice { ConstantPasses result.0 value.now }
    ensures least { (others : ℕ) → Allows others all.0 → ConstantPasses others value.now
        → Allows others result.0 }
{
    match constant_caps(value) {
        Some(needed) => all.union(needed),
        None => all,
    }
}

/// The capabilities that the constants need.
fn caps_of_constants(consts: &[Dynamic]) -> Caps
    ensures suffice { All (ConstantPasses result.0) consts.now }
    ensures least { (others : ℕ) → All (ConstantPasses others) consts.now → Allows others result.0 }
{
    let mut all = Caps::empty();
    for value in consts {
        all = joined(all, value);
    }
    all
}

/// The capabilities that an instruction needs with these pools.
fn caps_of_op<P: Read>(op: &Op, pools: &P) -> Caps
    ensures { (s : Setting) → s.facts ≡ P.facts pools.now → result.0 ≡ caps_of s op.now }
{
    asked_beside(pools, Effect::of(op, pools).asks)
}

/// The capabilities that the instructions of the code need with these pools, up to the first thing that is no instruction.
fn caps_of_code<P: Read>(code: &[u8], pools: &P) -> Caps
    ensures suffice { (s : Setting) → s.facts ≡ P.facts pools.now
        → (items : List (ℕ × Op)) → IsDisassembly 0 code.now items
        → All (λ (item : ℕ × Op). Allows result.0 (caps_of s item.1)) items }
    ensures least { (s : Setting) → s.facts ≡ P.facts pools.now → (others : ℕ)
        → ((items : List (ℕ × Op)) → IsDisassembly 0 code.now items
        → All (λ (item : ℕ × Op). Allows others (caps_of s item.1)) items)
        → Allows others result.0 }
{
    let mut all = Caps::empty();
    for (_, op) in disassemble(code) {
        all = all.union(caps_of_op(&op, pools));
    }
    all
}

/// The capabilities that having these functions needs.
fn caps_of_functions(functions: &[Function]) -> Caps
    ensures suffice { functions.now ≢ [] → Allows result.0 FUNCTION }
    ensures least { (others : ℕ) → (functions.now ≢ [] → Allows others FUNCTION)
        → Allows others result.0 }
{
    if functions.is_empty() {
        Caps::empty()
    } else {
        Caps::FUNCTION
    }
}

/// The least capabilities that suffice for the constants, the functions and the instructions of a program.
///
/// Each of them is needed by a constant, by an instruction, whether a run reaches it or not, or since there are functions. A program
/// that is accepted for a host with other capabilities is accepted for one with these
/// ([`sufficient_capabilities_accept`](crate::laws::sufficient_capabilities_accept)). It reads constants and code once, and takes no memory
/// but the call stack, by the depth of the constants.
#[must_use]
pub fn least_caps<P: Read>(
    consts: &[Dynamic],
    code: &[u8],
    functions: &[Function],
    pools: &P,
) -> Caps
    ensures { (caps : ℕ) (leads : List (List ℕ)) (chunks : List Span) → AreLeast
        (input_beside caps consts.now code.now functions.now chunks (P.facts pools.now) leads) result.0 }
{
    caps_of_constants(consts)
        .union(caps_of_functions(functions))
        .union(caps_of_code(code, pools))
}
