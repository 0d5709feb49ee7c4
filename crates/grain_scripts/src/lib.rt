//! Scripts for the subcommands of `grain`: they are read with their modules, compiled for a host with certain variables, and looked
//! through for functions that nobody has (docs/COMMAND.md).
#![tactic(auto)]

pub mod modules;
pub mod scripts;
pub mod sources;
pub mod unknown;
pub mod variables;
