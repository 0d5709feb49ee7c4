//! Shapes of an SVG picture.

use std::alloc::AllocError;

/// The colours of a picture.
#[derive(Clone, Copy, PartialEq, Eq)]
pub enum Colour {
    /// What is usual.
    Ink,
    /// What matters less.
    Faint,
    /// The flaw, and the path to it.
    Red,
    /// Handlers.
    Blue,
}

/// What a box is filled with and framed by.
#[derive(Clone, Copy)]
pub enum Fill {
    /// An instruction.
    White,
    /// One that isn't reached.
    Grey,
    /// One within handlers.
    Blue,
    /// The flaw.
    Red,
}

/// How a text is written.
#[derive(Clone, Copy)]
pub struct Font {
    /// Its size in pixels.
    pub size: usize,
    /// Its colour.
    pub colour: Colour,
    /// Whether it is bold.
    pub is_bold: bool,
    /// Whether its letters have one width.
    pub is_mono: bool,
}

/// How an arrow is drawn.
#[derive(Clone, Copy)]
pub struct Pen {
    /// Its colour.
    pub colour: Colour,
    /// Whether it is dashed.
    pub is_dashed: bool,
}

/// A box, in pixels.
#[derive(Clone, Copy)]
pub struct Area {
    /// How far its left side is from that of the picture.
    pub x: usize,
    /// How far its upper side is from that of the picture.
    pub y: usize,
    /// How wide it is.
    pub width: usize,
    /// How high it is.
    pub height: usize,
}

impl Colour {
    fn code(self) -> &'static str {
        match self {
            Colour::Ink => "#222222",
            Colour::Faint => "#767676",
            Colour::Red => "#b03a2e",
            Colour::Blue => "#1f5d99",
        }
    }
}

impl Fill {
    fn codes(self) -> (&'static str, &'static str) {
        match self {
            Fill::White => ("#ffffff", "#d8d8d0"),
            Fill::Grey => ("#f3f3ee", "#e4e4dc"),
            Fill::Blue => ("#e6eff8", "#bcd0e4"),
            Fill::Red => ("#fbeae7", "#b03a2e"),
        }
    }
}

/// Whether XML may have a character, also as a reference.
fn is_character(c: char) -> bool {
    matches!(c, '\t' | '\n' | '\r' | ' '..='\u{fffd}' | '\u{10000}'..='\u{10ffff}')
}

/// Appends text to XML, with a reference for each character that means something there, and `?` for one that XML can't have.
fn push_escaped(piece: &str, out: &mut String) -> Result<(), AllocError> {
    for c in piece.chars() {
        match c {
            '&' => out.push_str("&amp;")?,
            '<' => out.push_str("&lt;")?,
            '>' => out.push_str("&gt;")?,
            '"' => out.push_str("&quot;")?,
            c if is_character(c) => out.push(c)?,
            _ => out.push('?')?,
        }
    }
    Ok(())
}

/// Appends a tip, which a viewer shows where the pointer is.
pub fn push_title(piece: &str, out: &mut String) -> Result<(), AllocError> {
    out.push_str("<title>")?;
    push_escaped(piece, out)?;
    out.push_str("</title>\n")
}

/// Begins a picture.
pub fn begin(width: usize, height: usize, title: &str, out: &mut String) -> Result<(), AllocError> {
    write!(
        out,
        "<svg xmlns=\"http://www.w3.org/2000/svg\" width=\"{width}\" height=\"{height}\""
    )?;
    write!(out, " viewBox=\"0 0 {width} {height}\"")?;
    out.push_str(" font-family=\"Helvetica, Arial, sans-serif\">\n")?;
    push_title(title, out)?;
    write!(
        out,
        "<rect width=\"{width}\" height=\"{height}\" fill=\"#fcfcf9\"/>\n"
    )
}

/// Appends a box.
pub fn push_box(area: Area, fill: Fill, out: &mut String) -> Result<(), AllocError> {
    let Area {
        x,
        y,
        width,
        height,
    } = area;
    let (inner, frame) = fill.codes();
    write!(
        out,
        "<rect x=\"{x}\" y=\"{y}\" width=\"{width}\" height=\"{height}\" rx=\"4\""
    )?;
    write!(out, " fill=\"{inner}\" stroke=\"{frame}\"/>\n")
}

/// Appends a text that begins at a point, or ends there.
fn push_text(
    x: usize,
    y: usize,
    anchor: &str,
    font: Font,
    words: &str,
    out: &mut String,
) -> Result<(), AllocError> {
    let size = font.size;
    let colour = font.colour.code();
    write!(out, "<text x=\"{x}\" y=\"{y}\" font-size=\"{size}\"")?;
    write!(out, " fill=\"{colour}\" text-anchor=\"{anchor}\"")?;
    if font.is_mono {
        out.push_str(" font-family=\"Menlo, Consolas, DejaVu Sans Mono, monospace\"")?;
    }
    if font.is_bold {
        out.push_str(" font-weight=\"bold\"")?;
    }
    out.push_str(" xml:space=\"preserve\">")?;
    push_escaped(words, out)?;
    out.push_str("</text>\n")
}

/// Appends a text that begins at a point.
pub fn push_left(
    x: usize,
    y: usize,
    font: Font,
    words: &str,
    out: &mut String,
) -> Result<(), AllocError> {
    push_text(x, y, "start", font, words, out)
}

/// Appends a text that ends at a point.
pub fn push_right(
    x: usize,
    y: usize,
    font: Font,
    words: &str,
    out: &mut String,
) -> Result<(), AllocError> {
    push_text(x, y, "end", font, words, out)
}

/// Appends what a pen draws along a path.
fn push_path(pen: Pen, path: &str, head: &str, out: &mut String) -> Result<(), AllocError> {
    let colour = pen.colour.code();
    let width = if pen.colour == Colour::Red {
        "2"
    } else {
        "1.4"
    };
    write!(
        out,
        "<path d=\"{path}\" fill=\"none\" stroke=\"{colour}\" stroke-width=\"{width}\""
    )?;
    if pen.is_dashed {
        out.push_str(" stroke-dasharray=\"6 4\"")?;
    }
    write!(out, "/>\n<polygon points=\"{head}\" fill=\"{colour}\"/>\n")
}

/// Appends an arrow down.
pub fn push_down(
    x: usize,
    from: usize,
    to: usize,
    pen: Pen,
    out: &mut String,
) -> Result<(), AllocError> {
    let alloc = *out.allocator();
    let neck = to.saturating_sub(7);
    let wings = to.saturating_sub(8);
    let left = x.saturating_sub(4);
    let right = x.saturating_add(4);
    let path = format!(in alloc; "M{x} {from} L{x} {neck}")?;
    let head = format!(in alloc; "{x},{to} {left},{wings} {right},{wings}")?;
    push_path(pen, &path, &head, out)
}

/// Appends an arrow from the left side of one box, along a lane, to that of another.
pub fn push_jump(
    side: usize,
    lane: usize,
    from: usize,
    to: usize,
    pen: Pen,
    out: &mut String,
) -> Result<(), AllocError> {
    let alloc = *out.allocator();
    let neck = side.saturating_sub(7);
    let wings = side.saturating_sub(8);
    let above = to.saturating_sub(4);
    let below = to.saturating_add(4);
    let path = format!(in alloc; "M{side} {from} L{lane} {from} L{lane} {to} L{neck} {to}")?;
    let head = format!(in alloc; "{side},{to} {wings},{above} {wings},{below}")?;
    push_path(pen, &path, &head, out)
}
