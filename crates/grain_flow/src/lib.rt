//! Pictures of control flow: the graph of an explained chunk, as SVG and as DOT.
//!
//! [`Graph::of`] makes the graph, [`write_svg`] draws it, [`write_dot`] writes it for Graphviz. Whatever the program brings is escaped.
#![tactic(auto)]

mod canvas;
mod dot;
mod edges;
mod graph;
mod labels;
mod lanes;
mod picture;

pub use dot::write_dot;
pub use edges::{Edge, EdgeKind};
pub use graph::{Graph, Node, Standing};
pub use picture::write_svg;
