//! The tests of `rhai_engine`, which run compiled scripts as a host does. A test is proved, and one that has a state is expensive: what else
//! a state does, such as to stop, to reset, to print within its bound and to take a receiver back, hosts/c/states.c tests.
#![tactic(auto)]

#[cfg(test)]
mod calls;
#[cfg(test)]
mod example;
#[cfg(test)]
mod host;
#[cfg(test)]
mod outside;
