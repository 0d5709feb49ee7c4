//! Values of a script that runs, and its variables.
//!
//! Values are small to copy, and shared until they are changed.
//!
//! Numbers, characters and truth values lie in the value itself. Texts, arrays and maps are counted and shared: a copy costs
//! one count, and the first change to a shared one copies one level of it.
//!
//! Each array and map knows how much is in it and how deep, so a limit on both costs no walk. Each text knows how many characters
//! it has.
//!
//! The variables in which values lie are local ones in slots, named ones, those that closures share, and `this`. A function that is
//! called sees its own local variables and all named ones. Its `this` is taken out of a variable of the caller, and goes back there
//! when it ends, so that no value is copied for it.
#![tactic(auto)]

mod caught;
mod cause;
mod compare;
mod constant;
mod frames;
mod interval;
mod making;
mod measure;
mod path;
mod places;
mod plain;
mod shares;
mod show;
mod text;
mod value;
mod variables;
mod walk;

pub use cause::{Cause, Reason};
pub use compare::{are_equal, as_floats, order};
pub use constant::{constant_of, value_of};
pub use frames::{Call, Lent, This, Variable};
pub use interval::Interval;
pub use making::copies;
pub use measure::{Measure, SizeLimits};
pub use path::{Key, swapped};
pub use places::place_of;
pub use text::Text;
pub use value::{Foreign, List, Object, Pointer, Value};
pub use variables::Variables;
pub use walk::Walk;
