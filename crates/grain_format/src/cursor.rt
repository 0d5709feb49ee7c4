//! A cursor over bytes. What reads a field moves it behind the field; if something is wrong, it stays at what is at fault.
ghost use Rattle.std.specs.Prelude.{◌≡◌, ◌<◌, ◌^◌, IfOk};
ghost use Rattle.grain_format.specs.Reading.{Gives};
ghost use Rattle.grain_format.specs.Numbers.{number_at, below_at};
ghost use Rattle.grain_format.specs.Texts.{byte_at, bytes_at, expected_at, tag_at, text_at};

use crate::error::{FieldFault, Stop};
use crate::number::groups;
use crate::parts::Part;
use std::alloc::Global;
use std::str;

/// What is left of the bytes.
#[derive(Drop)]
pub struct Cursor<'a> {
    /// What takes the memory for what is read.
    pub alloc: Global,
    /// The bytes that weren't read yet.
    pub left: &'a [u8],
    /// The part that is read, for what is reported of a fault.
    pub part: Part,
}

impl<'a> Cursor<'a> {
    /// A cursor at the first byte.
    pub fn new(alloc: Global, bytes: &'a [u8]) -> Cursor<'a>
        ensures { result.left.now ≡ bytes.now }
    {
        Cursor {
            alloc,
            left: bytes,
            part: Part::Header,
        }
    }

    /// Reads a byte.
    ///
    /// # Errors
    /// `Truncated` if no byte is left.
    #[tactic(auto, unfolding(crate::specs::Texts::byte_at))]
    pub fn byte(&mut self) -> Result<u8, Stop>
        ensures { Gives (λ b. b) result self.new.left.now (byte_at self.old.left.now) }
    {
        match self.left.split_first() {
            Some((byte, rest)) => {
                self.left = rest;
                Ok(*byte)
            }
            None => Err(Stop::FieldFault(FieldFault::Truncated)),
        }
    }

    /// Reads a byte that has to be there.
    ///
    /// # Errors
    /// The fault if another byte is there, and `Truncated` if none is left.
    #[tactic(auto, unfolding(crate::specs::Texts::expected_at))]
    pub fn expect(&mut self, byte: u8, fault: FieldFault) -> Result<(), Stop>
        ensures { Gives (λ u. u) result self.new.left.now
            (expected_at byte fault self.old.left.now) }
    {
        match self.left.split_first() {
            Some((b, rest)) if *b == byte => {
                self.left = rest;
                Ok(())
            }
            Some(_) => Err(Stop::FieldFault(fault)),
            None => Err(Stop::FieldFault(FieldFault::Truncated)),
        }
    }

    /// Reads a byte below a limit.
    ///
    /// # Errors
    /// `UnknownTag` if the byte isn't below it, and `Truncated` if none is left.
    #[tactic(auto, unfolding(crate::specs::Texts::tag_at))]
    pub fn tag(&mut self, limit: u8) -> Result<u8, Stop>
        ensures given { Gives (λ b. b) result self.new.left.now (tag_at limit self.old.left.now) }
        ensures below { IfOk result (λ b. b < limit) }
    {
        match self.left.split_first() {
            Some((b, rest)) if *b < limit => {
                self.left = rest;
                Ok(*b)
            }
            Some(_) => Err(Stop::FieldFault(FieldFault::UnknownTag)),
            None => Err(Stop::FieldFault(FieldFault::Truncated)),
        }
    }

    /// Reads a number.
    ///
    /// # Errors
    /// `Truncated` if the bytes end within it, `TooWide` if it hasn't 64 bits, and `NotShortest` if it has a shorter
    /// spelling.
    #[tactic(auto, unfolding(crate::specs::Numbers::number_at))]
    pub fn number(&mut self) -> Result<u64, Stop>
        ensures { Gives (λ n. n) result self.new.left.now (number_at self.old.left.now) }
    {
        match groups(self.left, 9) {
            Ok((n, rest)) => {
                self.left = rest;
                Ok(n)
            }
            Err(fault) => Err(Stop::FieldFault(fault)),
        }
    }

    /// Reads a number of 32 bits.
    ///
    /// # Errors
    /// As [`number`](Cursor::number), and `TooWide` if it hasn't 32 bits.
    #[tactic(auto, unfolding(crate::specs::Numbers::below_at))]
    pub fn number_32(&mut self) -> Result<u32, Stop>
        ensures { Gives (λ n. n) result self.new.left.now (below_at (2 ^ 32) self.old.left.now) }
    {
        let start = self.left;
        let n = self.number()?;
        match u32::try_from(n) {
            Ok(n) => Ok(n),
            Err(_) => {
                self.left = start;
                Err(Stop::FieldFault(FieldFault::TooWide))
            }
        }
    }

    /// Reads a number of 16 bits.
    ///
    /// # Errors
    /// As [`number`](Cursor::number), and `TooWide` if it hasn't 16 bits.
    #[tactic(auto, unfolding(crate::specs::Numbers::below_at))]
    pub fn number_16(&mut self) -> Result<u16, Stop>
        ensures { Gives (λ n. n) result self.new.left.now (below_at (2 ^ 16) self.old.left.now) }
    {
        let start = self.left;
        let n = self.number()?;
        match u16::try_from(n) {
            Ok(n) => Ok(n),
            Err(_) => {
                self.left = start;
                Err(Stop::FieldFault(FieldFault::TooWide))
            }
        }
    }

    /// Reads how many bytes follow, and these, which stay where they lie.
    ///
    /// # Errors
    /// As [`number`](Cursor::number), and `Truncated` if fewer bytes are left.
    #[tactic(auto, unfolding(crate::specs::Texts::bytes_at))]
    pub fn bytes(&mut self) -> Result<&'a [u8], Stop>
        ensures { Gives (λ s. s.now) result self.new.left.now (bytes_at self.old.left.now) }
    {
        let len = self.number()?;
        if (self.left.len() as u64) < len {
            return Err(Stop::FieldFault(FieldFault::Truncated));
        }
        let (bytes, rest) = self.left.split_at(len as usize);
        self.left = rest;
        Ok(bytes)
    }

    /// Reads how many bytes a text has, and these, which stay where they lie. Time is linear in their number.
    ///
    /// # Errors
    /// As [`bytes`](Cursor::bytes), and `NotText` if they are not UTF-8.
    #[tactic(auto, unfolding(crate::specs::Texts::text_at))]
    pub fn text(&mut self) -> Result<&'a str, Stop>
        ensures { Gives (λ s. s.now) result self.new.left.now (text_at self.old.left.now) }
    {
        let start = self.left;
        let bytes = self.bytes()?;
        match str::from_utf8(bytes) {
            Ok(text) => Ok(text),
            Err(_) => {
                self.left = start;
                Err(Stop::FieldFault(FieldFault::NotText))
            }
        }
    }
}
