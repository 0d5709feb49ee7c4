//! The picture of a graph, as SVG.

use crate::canvas::{
    Area, Colour, Fill, Font, Pen, begin, push_box, push_down, push_jump, push_left, push_right,
    push_title,
};
use crate::edges::{Edge, EdgeKind};
use crate::graph::{Graph, Node, Standing};
use crate::labels::columns;
use crate::lanes::Lanes;
use grain_code::Op;
use std::alloc::{AllocError, Global};
use std::io;
use std::io::Write;

/// From the middle of one row to that of the next.
const ROW: usize = 34;

/// From the top of the picture to the middle of the first row.
const TOP: usize = 95;

/// Half the height of a box.
const HALF: usize = 12;

/// From one lane to the next.
const LANE: usize = 16;

/// How wide a letter of an instruction is at most.
const LETTER: usize = 8;

/// From one line of sentences to the next.
const LINE: usize = 19;

/// How narrow a picture is at least.
const NARROWEST: usize = 560;

/// Where the columns of a picture are, in pixels from its left side.
#[derive(Clone, Copy)]
struct Columns {
    left: usize,
    instruction: usize,
    counts: usize,
    bases: usize,
    width: usize,
}

/// The words of usual texts.
const USUAL: Font = Font {
    size: 13,
    colour: Colour::Ink,
    is_bold: false,
    is_mono: true,
};

/// The words above columns.
const HEADING: Font = Font {
    size: 12,
    colour: Colour::Faint,
    is_bold: false,
    is_mono: false,
};

/// How wide a column is whose longest text has this many letters, with what is between it and the next.
fn column(letters: usize) -> usize {
    letters.saturating_mul(LETTER).saturating_add(30)
}

/// What is said in the place of counts.
fn said_of(node: &Node) -> &str {
    match node.standing {
        Standing::NotVisited => "not visited",
        Standing::Unreachable => "unreachable",
        Standing::Reached | Standing::Guarded | Standing::Flaw => &node.counts,
    }
}

/// How many letters the longest text of each column has.
#[derive(Clone, Copy)]
struct Letters {
    labels: usize,
    counts: usize,
    bases: usize,
}

impl Letters {
    /// The same with a node more.
    fn with(self, node: &Node) -> Letters {
        Letters {
            labels: self.labels.max(columns(&node.label)),
            counts: self.counts.max(columns(said_of(node))),
            bases: self.bases.max(columns(&node.bases)),
        }
    }

    /// Those of a graph, whose nodes are made for this.
    fn of(alloc: Global, graph: &Graph<'_>) -> Result<Letters, AllocError> {
        let mut letters = Letters {
            labels: 10,
            counts: 15,
            bases: 20,
        };
        for item in graph.items {
            let node = graph.node(alloc, item)?;
            letters = letters.with(&node);
        }
        Ok(letters)
    }
}

impl Columns {
    fn of(graph: &Graph<'_>, letters: Letters, lanes: usize) -> Columns {
        let left = lanes
            .saturating_add(1)
            .saturating_mul(LANE)
            .saturating_add(30);
        let instruction = left.saturating_add(86);
        let counts = instruction.saturating_add(column(letters.labels));
        let bases = counts.saturating_add(column(letters.counts));
        let width = bases.saturating_add(column(letters.bases));
        let title = left.saturating_add(columns(&graph.title).saturating_mul(9));
        Columns {
            left,
            instruction,
            counts,
            bases,
            width: width.max(title).max(NARROWEST),
        }
    }
}

/// The middle of a row.
fn middle(row: usize) -> usize {
    row.saturating_mul(ROW).saturating_add(TOP)
}

/// Appends what is above the instructions.
fn push_headings(graph: &Graph<'_>, at: Columns, out: &mut String) -> Result<(), AllocError> {
    let colour = if graph.is_refused() {
        Colour::Red
    } else {
        Colour::Ink
    };
    let title = Font {
        size: 15,
        colour,
        is_bold: true,
        is_mono: false,
    };
    let left = at.left.saturating_sub(10);
    push_left(left, 30, title, &graph.title, out)?;
    push_right(at.left.saturating_add(46), 64, HEADING, "address", out)?;
    push_left(at.instruction, 64, HEADING, "instruction", out)?;
    push_left(at.counts, 64, HEADING, "operands, iterators", out)?;
    push_left(at.bases, 64, HEADING, "bases of armed handlers", out)
}

/// How the box of an instruction is filled, and the colour of its words.
fn colours_of(standing: Standing) -> (Fill, Colour) {
    match standing {
        Standing::Reached => (Fill::White, Colour::Ink),
        Standing::Guarded => (Fill::Blue, Colour::Ink),
        Standing::Flaw => (Fill::Red, Colour::Red),
        Standing::NotVisited | Standing::Unreachable => (Fill::Grey, Colour::Faint),
    }
}

/// Appends an instruction in its row.
fn push_node(node: &Node, row: usize, at: Columns, out: &mut String) -> Result<(), AllocError> {
    let (fill, colour) = colours_of(node.standing);
    let middle = middle(row);
    let area = Area {
        x: at.left.saturating_sub(10),
        y: middle.saturating_sub(HALF),
        width: at.width.saturating_sub(at.left).saturating_sub(10),
        height: HALF.saturating_mul(2),
    };
    let base = middle.saturating_add(5);
    let font = Font { colour, ..USUAL };
    let address = node.at;
    let address = format!(in *out.allocator(); "{address}")?;
    out.push_str("<g>")?;
    push_title(&node.whole, out)?;
    push_box(area, fill, out)?;
    push_right(at.left.saturating_add(46), base, font, &address, out)?;
    push_left(at.instruction, base, font, &node.label, out)?;
    push_left(at.counts, base, font, said_of(node), out)?;
    push_left(at.bases, base, font, &node.bases, out)?;
    out.push_str("</g>\n")
}

/// How an edge is drawn.
fn pen_of(edge: &Edge) -> Pen {
    let is_dashed = edge.kind == EdgeKind::Catches;
    let colour = match (edge.is_on_path, is_dashed) {
        (true, _) => Colour::Red,
        (false, true) => Colour::Blue,
        (false, false) => Colour::Ink,
    };
    Pen { colour, is_dashed }
}

/// Appends an arrow of an edge.
fn push_edge(edge: &Edge, lanes: &Lanes, at: Columns, out: &mut String) -> Result<(), AllocError> {
    let start = middle(edge.from);
    let end = middle(edge.to);
    let pen = pen_of(edge);
    if edge.kind == EdgeKind::Falls {
        let x = at.left.saturating_add(66);
        let from = start.saturating_add(HALF);
        return push_down(x, from, end.saturating_sub(HALF), pen, out);
    }
    let (from, to) = if edge.to > edge.from {
        (start.saturating_add(4), end.saturating_sub(6))
    } else {
        (start.saturating_sub(4), end.saturating_add(6))
    };
    let side = at.left.saturating_sub(10);
    let shift = lanes.at(edge.from).saturating_add(1).saturating_mul(LANE);
    push_jump(side, side.saturating_sub(shift), from, to, pen, out)
}

/// Writes an instruction in its row.
fn write_node<W: Write>(
    alloc: Global,
    graph: &Graph<'_>,
    item: &(usize, Op),
    row: usize,
    at: Columns,
    out: &mut W,
) -> io::Result<()> {
    let node = graph.node(alloc, item)?;
    let mut text = String::new(alloc);
    push_node(&node, row, at, &mut text)?;
    out.write_all(text.as_bytes())
}

/// Writes an arrow of an edge.
fn write_edge<W: Write>(
    alloc: Global,
    edge: &Edge,
    lanes: &Lanes,
    at: Columns,
    out: &mut W,
) -> io::Result<()> {
    let mut text = String::new(alloc);
    push_edge(edge, lanes, at, &mut text)?;
    out.write_all(text.as_bytes())
}

/// Writes the edges that are on a path to the flaw, or all others.
fn write_edges<W: Write>(
    alloc: Global,
    graph: &Graph<'_>,
    lanes: &Lanes,
    at: Columns,
    on_path: bool,
    out: &mut W,
) -> io::Result<()> {
    for edge in &graph.edges {
        if edge.is_on_path == on_path {
            write_edge(alloc, edge, lanes, at, out)?;
        }
    }
    Ok(())
}

/// Appends the words in lines of this many letters at most, except for a longer word.
fn wrap(
    alloc: Global,
    words: &str,
    width: usize,
    lines: &mut Vec<String>,
) -> Result<(), AllocError> {
    let mut line = String::new(alloc);
    for word in words.split(' ') {
        let length = line.len().saturating_add(word.len()).saturating_add(1);
        if length > width && !line.is_empty() {
            lines.push(line)?;
            line = String::new(alloc);
        }
        if !line.is_empty() {
            line.push(' ')?;
        }
        line.push_str(word)?;
    }
    if !line.is_empty() {
        lines.push(line)?;
    }
    Ok(())
}

/// What is said below the instructions: what is wrong, and the rule that it breaks.
fn lines_of(alloc: Global, graph: &Graph<'_>, width: usize) -> Result<Vec<String>, AllocError> {
    let mut lines = Vec::new(alloc);
    if graph.is_refused() {
        wrap(alloc, &graph.wrong, width, &mut lines)?;
        let rule = graph.rule;
        let rule = format!(in alloc; "The rule: {rule}")?;
        wrap(alloc, &rule, width, &mut lines)?;
    }
    Ok(lines)
}

/// Appends sentences below the instructions.
fn push_lines(lines: &[String], x: usize, top: usize, out: &mut String) -> Result<(), AllocError> {
    let font = Font {
        size: 13,
        colour: Colour::Red,
        is_bold: false,
        is_mono: false,
    };
    for (place, line) in lines.iter().enumerate() {
        let y = place.saturating_mul(LINE).saturating_add(top);
        push_left(x, y, font, line, out)?;
    }
    Ok(())
}

/// Writes what is above the instructions.
fn write_front<W: Write>(
    alloc: Global,
    graph: &Graph<'_>,
    at: Columns,
    height: usize,
    out: &mut W,
) -> io::Result<()> {
    let mut text = String::new(alloc);
    begin(at.width, height, &graph.title, &mut text)?;
    push_headings(graph, at, &mut text)?;
    out.write_all(text.as_bytes())
}

/// Writes what is below the instructions.
fn write_back<W: Write>(
    alloc: Global,
    lines: &[String],
    x: usize,
    top: usize,
    out: &mut W,
) -> io::Result<()> {
    let mut text = String::new(alloc);
    push_lines(lines, x, top, &mut text)?;
    text.push_str("</svg>\n")?;
    out.write_all(text.as_bytes())
}

/// Writes a picture of the graph as SVG. Addresses run down the page, each with its instruction and the state there. Jumps are at the
/// left, those of handlers dashed and blue, and the path to a flaw is red. It takes time by the square of the jumps, and memory for the
/// lanes of these and the text of one node.
///
/// # Errors
/// The output can't be written, or memory was refused.
pub fn write_svg<W: Write>(alloc: Global, graph: &Graph<'_>, out: &mut W) -> io::Result<()> {
    let lanes = Lanes::of(alloc, graph.items.len(), &graph.edges)?;
    let letters = Letters::of(alloc, graph)?;
    let at = Columns::of(graph, letters, lanes.count());
    let width = at.width.saturating_sub(at.left).wrapping_div(7);
    let lines = lines_of(alloc, graph, width)?;
    let below = middle(graph.items.len());
    let height = lines.len().saturating_mul(LINE).saturating_add(below);
    write_front(alloc, graph, at, height, out)?;
    for (row, item) in graph.items.iter().enumerate() {
        write_node(alloc, graph, item, row, at, out)?;
    }
    write_edges(alloc, graph, &lanes, at, false, out)?;
    write_edges(alloc, graph, &lanes, at, true, out)?;
    write_back(alloc, &lines, at.left.saturating_sub(10), below, out)
}
