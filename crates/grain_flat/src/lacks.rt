//! A program that declares capabilities which the host lacks, as a refusal that crosses to C.
ghost use Rattle.std.specs.Prelude.{◌≡◌, ◌<◌, ℕ, IfNone, IfSome, codes, length};
ghost use Rattle.grain_flat.specs.Lacks.{TellsLack, lack_record, lack_text};

use crate::flaws::{DECLARED_CAPS, WHOLE_PROGRAM};
use crate::line::{Line, hex_digits, put};
use crate::records::CRefusal;
use arrayvec::ArrayVec;
use grain_base::{Caps, Flags};

/// The refusal of a program that declares these capabilities, which the host lacks.
pub fn lack_record(missing: Caps, host: Caps) -> CRefusal
    ensures { result ≡ lack_record missing.0 host.0 }
{
    CRefusal {
        flaw: DECLARED_CAPS,
        chunk: WHOLE_PROGRAM,
        at: 0,
        first: u64::from(missing.bits()),
        second: u64::from(host.bits()),
    }
}

/// The capabilities that the host lacks by a record, if it says so.
pub fn lack_of(refusal: &CRefusal) -> Option<u16>
    ensures some { IfSome result (TellsLack refusal.now) }
    ensures none { IfNone result ((missing : ℕ) → TellsLack refusal.now missing → ⊥) }
{
    match (refusal.flaw, refusal.at, refusal.first, refusal.second) {
        (DECLARED_CAPS, 0, missing, host) => {
            let _host = u16::try_from(host).ok()?;
            u16::try_from(missing).ok()
        }
        _ => None,
    }
}

/// The text of such a refusal.
pub fn lack_text(missing: u16) -> Line
    ensures text { result.items ≡ lack_text missing }
    ensures some { 0 < length result.items }
{
    let mut line = ArrayVec::new();
    put(&mut line, b"declared-caps missing=".as_slice());
    put(&mut line, hex_digits(missing).as_slice());
    line
}
