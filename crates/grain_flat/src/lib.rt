//! Verification of pools in the flat form in which programs in C and Rust hand them over (docs/FORMAT.md), and
//! instructions and refusals as records of C.
//!
//! A flat form stands for many programs: what verification doesn't look at isn't in it. The verdict on it is that on all
//! of them. The exports of the static library stand in `grain_c`.
#![tactic(auto)]

mod asking;
mod explaining;
mod fields;
mod flat;
pub mod flaws;
mod judge;
pub mod kinds;
mod lacks;
mod line;
mod listing;
pub mod lists;
mod mnemonics;
mod printing;
mod records;
mod refusals;
mod row_reads;
mod rows;
mod scratch;
pub mod shapes;
mod slots;
mod tightening;
mod verdicts;
mod work;

pub use explaining::{ExplanationRows, explain_chunk, rows_of};
pub use fields::fields_of;
pub use flat::{is_flat, pools_flaw};
pub use judge::Rejection;
pub use lacks::{lack_of, lack_record, lack_text};
pub use line::Line;
pub use listing::{fill, list_entries, list_sites};
pub use printing::{instruction_text, refusal_text};
pub use records::{
    CBase, CCase, CChain, CChunk, CConstant, CEntry, CExplanation, CField, CInstruction, CPlace,
    CPools, CPoolsFlaw, CProgram, CRefusal, CReport, CRow, CStep, CSwitch,
};
pub use refusals::refusal_record;
pub use scratch::FlatScratch;
pub use slots::write_slots;
pub use tightening::tighten;
pub use verdicts::verdict;
pub use work::is_within;
