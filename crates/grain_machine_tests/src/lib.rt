//! The tests of `grain_machine`, which call it as a host does, one of `rhai_runtime`, and those of `rhai_flat`: a test that changes
//! has no crate proved again but this one.
#![tactic(auto)]

#[cfg(test)]
mod calls;
#[cfg(test)]
mod flat_values;
#[cfg(test)]
mod runs;
#[cfg(test)]
mod samples;
#[cfg(test)]
mod scripts;
#[cfg(test)]
mod slices;
