//! JSON that is written while it is made: a [`JsonStream`] owns its output, and holds one piece of the text at a time.
#![tactic(auto)]

mod json_stream;

pub use json_stream::JsonStream;
