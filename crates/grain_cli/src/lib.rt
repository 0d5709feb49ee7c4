//! What the subcommands of `grain` share: arguments, files, outputs, failures, and reports of refusals (docs/COMMAND.md).
//!
//! A subcommand is a table of [`arguments`]. It reads [`files`], of which [`loading`] bounds the work, and writes to an
//! [`Output`](output::Output), which [`overlaps`] keeps apart from its inputs. It ends with a [`Failure`](failure::Failure) if it can't.
#![tactic(auto)]

pub mod arguments;
pub mod excerpt;
pub mod failure;
pub mod files;
pub mod json_lines;
pub mod loading;
pub mod output;
pub mod overlaps;
pub mod places;
pub mod refusal_object;
