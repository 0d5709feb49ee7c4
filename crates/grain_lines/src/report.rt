//! The verdicts on the lines of an input that comes buffer by buffer, and the count of its cases.
//!
//! It holds one line and not the input, so that a run over a long input takes memory by its longest line.

ghost use Rattle.std.specs.Prelude.{◌≡◌, ◌≢◌, [], ◌∷◌, ◌++◌, List, ℕ, filter, OnOk, OnErr};
ghost use Rattle.std.specs.Prelude.{string_bytes};
ghost use Rattle.std.specs.Io.KnownBytes.{Appends};
ghost use Rattle.std.specs.Str.Lines.{strip_carriage_return};
ghost use Rattle.grain_lines.specs.Stream.{SendsFront};
ghost use Rattle.grain_lines.specs.Words.{Lacks};
ghost use Rattle.grain_lines.specs.Lines.{is_case};
ghost use Rattle.grain_lines.specs.Report.{Answers, AnswersBytes, Written, none_written};

use crate::case::case_of;
use crate::lines::{is_case, without_return};
use crate::outcome::Summary;
use crate::stream::{Failed, Sink, send};
use crate::verdict::write_verdict_with;
use crate::words::split_at_byte;
use grain_verify::Scratch;
use std::alloc::{AllocError, Global};
use std::marker::Model;

/// The verdicts that haven't been sent yet, and the count of all cases.
#[derive(Drop)]
struct Verdicts {
    /// The memory in which programs are verified.
    scratch: Scratch,
    text: String,
    summary: Summary,
}

impl Model for Verdicts {
    ghost Value = { Written };

    ghost view = { λ v. record { text = string_bytes v.text; summary = v.summary } };
}

impl Verdicts {
    fn new(alloc: Global) -> Self
        ensures { result ≡ none_written }
    {
        Verdicts {
            scratch: Scratch::new(alloc),
            text: String::new(alloc),
            summary: Summary { cases: 0, bad: 0 },
        }
    }

    /// Answers the line by a verdict and a line feed and counts it, if it is a case.
    fn answer(&mut self, alloc: Global, line: &[u8]) -> Result<(), AllocError>
        ensures { OnOk result (Answers (filter is_case (line.now ∷ [])) self.old self.new) }
    {
        if !is_case(line) {
            return Ok(());
        }
        let case = case_of(alloc, line)?;
        write_verdict_with(alloc, &mut self.scratch, &mut self.text, &case)?;
        self.text.push_str("\n")?;
        self.summary.count(case.is_none());
        Ok(())
    }
}

/// Takes the bytes of an input, and processes each line once it is complete.
#[derive(Drop)]
pub(crate) struct Report {
    alloc: Global,
    /// What has been read of a line that isn't complete yet.
    carry: Vec<u8>,
    verdicts: Verdicts,
}

impl Report {
    /// A report before the first byte of an input.
    pub(crate) fn new(alloc: Global) -> Self
        ensures carry { result.carry.items ≡ [] }
        ensures verdicts { result.verdicts ≡ none_written }
    {
        Report {
            alloc,
            carry: Vec::new(alloc),
            verdicts: Verdicts::new(alloc),
        }
    }

    /// Answers the line of which this piece is the end. Only a line that came in several pieces is
    /// copied.
    fn end_line(&mut self, piece: &[u8]) -> Result<(), AllocError>
        ensures carry { OnOk result (self.new.carry.items ≡ []) }
        ensures answers { OnOk result (Answers
            (filter is_case (strip_carriage_return (self.old.carry.items ++ piece.now) ∷ []))
            self.old.verdicts self.new.verdicts) }
    {
        if self.carry.is_empty() {
            return self.verdicts.answer(self.alloc, without_return(piece));
        }
        self.carry.extend_from_slice(piece)?;
        let line = without_return(&self.carry);
        self.verdicts.answer(self.alloc, line)?;
        self.carry.clear();
        Ok(())
    }

    /// Takes the next bytes of the input, and processes the lines that are complete now.
    ///
    /// # Errors
    /// [`AllocError`] if memory was refused.
    pub(crate) fn feed(&mut self, bytes: &[u8]) -> Result<(), AllocError>
        requires { Lacks 10 self.old.carry.items }
        ensures { OnOk result (AnswersBytes self.old.carry.items bytes.now self.new.carry.items
            self.old.verdicts self.new.verdicts) }
    {
        let mut rest = bytes;
        'cutting: while let Some((piece, more)) = split_at_byte(rest, b'\n') {
            self.end_line(piece)?;
            rest = more;
        }
        self.carry.extend_from_slice(rest)?;
        Ok(())
    }

    /// Answers what has been read of the last line. The input has ended.
    ///
    /// # Errors
    /// [`AllocError`] if memory was refused.
    pub(crate) fn finish(&mut self) -> Result<(), AllocError>
        ensures { OnOk result (Answers (filter is_case (self.old.carry.items ∷ []))
            self.old.verdicts self.new.verdicts) }
    {
        self.verdicts.answer(self.alloc, &self.carry)
    }

    /// Writes the verdicts that haven't been sent yet.
    ///
    /// # Errors
    /// [`Failed`] if a write failed or took none of some bytes. A beginning of them was written.
    pub(crate) fn send_to<K: Sink>(&mut self, writer: &mut K) -> Result<(), Failed>
        ensures ok { OnOk result
            (Appends (K.taken writer.old) (K.taken writer.new) self.old.verdicts.text) }
        ensures unmarked { OnOk result (K.mark writer.new ≡ K.mark writer.old) }
        ensures err { OnErr result
            (SendsFront (K.taken writer.old) (K.taken writer.new) self.old.verdicts.text) }
        ensures marked { OnErr result (K.mark writer.new ≢ K.mark writer.old) }
        ensures text { OnOk result (self.new.verdicts.text ≡ []) }
        ensures summary { self.new.verdicts.summary ≡ self.old.verdicts.summary }
        ensures carry { self.new.carry ≡ self.old.carry }
    {
        send(writer, self.verdicts.text.as_bytes())?;
        self.verdicts.text.clear();
        Ok(())
    }

    /// The count of the cases that have been answered.
    pub(crate) fn summary(&self) -> Summary
        ensures { result ≡ self.now.verdicts.summary }
    {
        self.verdicts.summary
    }
}
