//! A graph as text for Graphviz.

use crate::edges::{Edge, EdgeKind};
use crate::graph::{Graph, Node, Standing};
use grain_code::Op;
use std::alloc::{AllocError, Global};
use std::io;
use std::io::Write;

/// Appends text in quotes, in which a quote and a backslash are escaped.
fn push_quoted(piece: &str, out: &mut String) -> Result<(), AllocError> {
    out.push('"')?;
    for c in piece.chars() {
        if c == '"' || c == '\\' {
            out.push('\\')?;
        }
        out.push(c)?;
    }
    out.push('"')
}

/// How a node is drawn other than usual.
fn style_of(standing: Standing) -> &'static str {
    match standing {
        Standing::Reached => "",
        Standing::Guarded => ", color=blue",
        Standing::Flaw => ", color=red, fontcolor=red",
        Standing::NotVisited | Standing::Unreachable => ", color=gray, fontcolor=gray",
    }
}

/// What a node says: its address, its text and the state there.
fn node_text(alloc: Global, node: &Node) -> Result<String, AllocError> {
    let at = node.at;
    let label = &node.label;
    if node.counts.is_empty() {
        return format!(in alloc; "{at}  {label}");
    }
    let counts = &node.counts;
    let bases = &node.bases;
    format!(in alloc; "{at}  {label}  ({counts}; {bases})")
}

/// Appends what a node says.
fn push_label(node: &Node, out: &mut String) -> Result<(), AllocError> {
    let text = node_text(*out.allocator(), node)?;
    push_quoted(&text, out)
}

/// Appends a node.
fn push_node(node: &Node, out: &mut String) -> Result<(), AllocError> {
    let at = node.at;
    write!(out, "  n{at} [label=")?;
    push_label(node, out)?;
    let style = style_of(node.standing);
    write!(out, "{style}];\n")
}

/// How an edge is drawn other than usual.
fn edge_style(edge: &Edge) -> &'static str {
    match (edge.is_on_path, edge.kind) {
        (true, EdgeKind::Catches) => " [color=red, style=dashed]",
        (true, EdgeKind::Falls | EdgeKind::Jumps) => " [color=red]",
        (false, EdgeKind::Catches) => " [color=blue, style=dashed]",
        (false, EdgeKind::Falls | EdgeKind::Jumps) => "",
    }
}

/// Writes a node.
fn write_node<W: Write>(
    alloc: Global,
    graph: &Graph<'_>,
    item: &(usize, Op),
    out: &mut W,
) -> io::Result<()> {
    let node = graph.node(alloc, item)?;
    let mut text = String::new(alloc);
    push_node(&node, &mut text)?;
    out.write_all(text.as_bytes())
}

/// Writes an edge.
fn write_edge<W: Write>(
    alloc: Global,
    graph: &Graph<'_>,
    edge: &Edge,
    out: &mut W,
) -> io::Result<()> {
    let (Some(start), Some(end)) = (graph.address(edge.from), graph.address(edge.to)) else {
        return Ok(());
    };
    let style = edge_style(edge);
    let text = format!(in alloc; "  n{start} -> n{end}{style};\n")?;
    out.write_all(text.as_bytes())
}

/// Appends what is wrong with the code, as what stands below the picture.
fn push_wrong(graph: &Graph<'_>, out: &mut String) -> Result<(), AllocError> {
    let wrong = &graph.wrong;
    let rule = graph.rule;
    let said = format!(in *out.allocator(); "{wrong} The rule: {rule}")?;
    push_quoted(&said, out)
}

/// Appends what comes before the nodes.
fn push_front(graph: &Graph<'_>, out: &mut String) -> Result<(), AllocError> {
    out.push_str("digraph ")?;
    push_quoted(&graph.title, out)?;
    out.push_str(" {\n  node [shape=box, fontname=monospace];\n")?;
    if graph.is_refused() {
        out.push_str("  labelloc=b;\n  fontcolor=red;\n  label=")?;
        push_wrong(graph, out)?;
        out.push_str(";\n")?;
    }
    Ok(())
}

/// Writes what comes before the nodes.
fn write_front<W: Write>(alloc: Global, graph: &Graph<'_>, out: &mut W) -> io::Result<()> {
    let mut text = String::new(alloc);
    push_front(graph, &mut text)?;
    out.write_all(text.as_bytes())
}

/// Writes the graph as text for Graphviz. Its nodes are called `n` and their address. It takes time by the length of the text, and memory
/// for the text of one node.
///
/// # Errors
/// The output can't be written, or memory was refused.
pub fn write_dot<W: Write>(alloc: Global, graph: &Graph<'_>, out: &mut W) -> io::Result<()> {
    write_front(alloc, graph, out)?;
    for item in graph.items {
        write_node(alloc, graph, item, out)?;
    }
    for edge in &graph.edges {
        write_edge(alloc, graph, edge, out)?;
    }
    out.write_all(b"}\n".as_slice())
}
