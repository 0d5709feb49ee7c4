//! Labels and their addresses, which are found before anything else is read.
ghost use Rattle.std.specs.Prelude.{◌≡◌, ◌+◌, ◌<◌, IfErr, IfOk, length, min, sum_by};
ghost use Rattle.grain_parse.specs.Addresses.{ReadsAddress};
ghost use Rattle.grain_parse.specs.Widths.{operand_width};

use crate::error::Flaw;
use crate::sections::{Section, read_directive, section_named};
use grain_lexer::{LineCursor, LineProblem, LineStop};
use grain_print::{Operand, TextForm, form_named};
use std::alloc::{AllocError, Global};
use std::collections::HashMap;

/// Labels with their addresses.
#[derive(Drop)]
pub(crate) struct Labels {
    addresses: HashMap<String, u32>,
}

/// How many bytes an operand has.
fn operand_width(operand: Operand) -> u32
    ensures { result ≡ operand_width operand }
{
    match operand {
        Operand::Count => 1,
        Operand::Target => 4,
        Operand::Constant
        | Operand::Name
        | Operand::Operator
        | Operand::OpAssignment
        | Operand::Fragment
        | Operand::Chain
        | Operand::Switch
        | Operand::SyntaxSite
        | Operand::Slot => 2,
    }
}

/// How many bytes an instruction has: its tag, and its operands.
fn width_of(form: &TextForm) -> u32
    ensures { result ≡ min (1 + sum_by operand_width form.now.operands.now) u32.MAX }
{
    let mut width = 1u32;
    for operand in form.operands {
        width = width.saturating_add(operand_width(*operand));
    }
    width
}

/// Gives a label its address, and says whether it had none.
fn put(
    addresses: &mut HashMap<String, u32>,
    label: String,
    address: u32,
) -> Result<bool, AllocError> {
    let old = addresses.insert(label, address)?;
    Ok(old.is_none())
}

/// Where a line of code leads: a label, or how many bytes it has.
enum Item<'a> {
    Label(&'a str),
    Bytes(u32),
}

/// A label, which no address is taken for.
fn label_of<'a>(
    cursor: &mut LineCursor<'a>,
    start: &'a [u8],
    word: &'a str,
) -> Result<Item<'a>, LineStop> {
    match start {
        [b'0'..=b'9', ..] => {
            cursor.left = start;
            Err(LineStop::Fault(LineProblem::LabelNumber))
        }
        _ => Ok(Item::Label(word)),
    }
}

fn read_item<'a>(cursor: &mut LineCursor<'a>) -> Result<Item<'a>, LineStop> {
    cursor.blanks();
    let start = cursor.left;
    let word = cursor.word()?;
    if cursor.eat(b':') {
        return label_of(cursor, start, word);
    }
    if word == "byte" {
        return Ok(Item::Bytes(1));
    }
    match form_named(word) {
        Some((_, form)) => Ok(Item::Bytes(width_of(form))),
        None => {
            cursor.left = start;
            Err(LineStop::Fault(LineProblem::Mnemonic))
        }
    }
}

impl Labels {
    /// Reads a line of code, and moves the address past it.
    fn read_line(
        &mut self,
        cursor: &mut LineCursor<'_>,
        address: &mut u32,
    ) -> Result<(), LineStop> {
        let start = cursor.left;
        match read_item(cursor)? {
            Item::Bytes(width) => match address.checked_add(width) {
                Some(next) => {
                    *address = next;
                    Ok(())
                }
                None => Err(LineStop::Fault(LineProblem::TooWide)),
            },
            Item::Label(label) => {
                let label = String::from_str(cursor.alloc, label)?;
                if put(&mut self.addresses, label, *address)? {
                    Ok(())
                } else {
                    cursor.left = start;
                    Err(LineStop::Fault(LineProblem::LabelTwice))
                }
            }
        }
    }

    /// Reads a line, and says in which section the next one is.
    fn visit(
        &mut self,
        cursor: &mut LineCursor<'_>,
        section: Section,
        address: &mut u32,
    ) -> Result<Section, LineStop> {
        if cursor.is_done() {
            return Ok(section);
        }
        if let Some(directive) = read_directive(cursor)? {
            return Ok(section_named(directive).unwrap_or(section));
        }
        if section == Section::Code {
            self.read_line(cursor, address)?;
        }
        Ok(section)
    }

    /// The labels of a text. It goes over the lines once.
    pub fn of(alloc: Global, lines: &[&str]) -> Result<Labels, Flaw>
        ensures { IfErr result (λ flaw. flaw.line < length lines.now) }
    {
        let mut labels = Labels {
            addresses: HashMap::new(alloc),
        };
        let mut section = Section::Code;
        let mut address = 0u32;
        for (line, text) in lines.iter().enumerate() {
            let mut cursor = LineCursor {
                alloc,
                left: text.as_bytes(),
            };
            match labels.visit(&mut cursor, section, &mut address) {
                Ok(next) => section = next,
                Err(stop) => {
                    let left = cursor.left.len();
                    return Err(Flaw { line, left, stop });
                }
            }
        }
        Ok(labels)
    }

    /// Reads an address: a number, or a label.
    pub fn read_address(&self, cursor: &mut LineCursor<'_>) -> Result<u32, LineStop>
        ensures { IfOk result (λ address.
            ReadsAddress self.now cursor.old.left.now address cursor.new.left.now) }
    {
        cursor.blanks();
        if let [b'0'..=b'9', ..] = cursor.left {
            return cursor.number_32();
        }
        let start = cursor.left;
        let label = cursor.word()?;
        match self.addresses.get(label) {
            Some(address) => Ok(*address),
            None => {
                cursor.left = start;
                Err(LineStop::Fault(LineProblem::UnknownLabel))
            }
        }
    }
}
