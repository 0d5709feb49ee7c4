//! A stream of JSON.

ghost use Rattle.std.specs.Prelude.{◌≡◌, [], ◌∷◌, ◌++◌, false, true, IfOk, OnOk};
ghost use Rattle.std.specs.Io.KnownBytes.{Appends, Keeps};
ghost use Rattle.json.specs.Print.{print};
ghost use Rattle.json.specs.Token.{begin_array, begin_object, end_array, end_object, key};
ghost use Rattle.grain_stream.specs.Stream.{AddsToken, comma_after, is_after_value, output_of};

use json::Writer;
use std::alloc::{AllocError, Global};
use std::io::Write;
use std::{io, mem};

/// Writes JSON to an output that it owns. It places the commas, and leaves the nesting to its caller. It takes memory for the longest
/// piece, whatever the length of the whole text is. Nothing more is to be written after an error.
#[derive(Drop)]
pub struct JsonStream<W> {
    out: W,
    /// Memory for a piece.
    room: Vec<u8>,
    after_value: bool,
}

impl<W> JsonStream<W> {
    /// A stream that has written nothing.
    pub fn new(alloc: Global, out: W) -> JsonStream<W>
        ensures output { output_of result ≡ out }
        ensures place { is_after_value result ≡ false }
    {
        JsonStream {
            out,
            room: Vec::new(alloc),
            after_value: false,
        }
    }

    /// The output, to which all is written.
    pub fn into_inner(self) -> W
        ensures { result ≡ output_of self }
    {
        let JsonStream { out, .. } = self;
        out
    }

    /// A writer in the memory for a piece, after a comma if one is wanted.
    fn start(&mut self, comma: bool) -> Result<Writer, AllocError>
        ensures before { IfOk result (λ w. w.before ≡ comma_after comma) }
        ensures tokens { IfOk result (λ w. w.tokens ≡ []) }
        ensures output { output_of self.new ≡ output_of self.old }
        ensures place { is_after_value self.new ≡ is_after_value self.old }
    {
        let empty = Vec::new(*self.room.allocator());
        let mut room = mem::replace(&mut self.room, empty);
        room.clear();
        if comma {
            room.push(b',')?;
        }
        Ok(Writer::new(room))
    }

    /// A writer of the next piece: one or more values, or members of an object. [`add`](JsonStream::add) writes what it has.
    ///
    /// # Errors
    /// [`AllocError`] if memory was refused.
    pub fn piece(&mut self) -> Result<Writer, AllocError>
        ensures before { IfOk result (λ w. w.before ≡ comma_after (is_after_value self.old)) }
        ensures tokens { IfOk result (λ w. w.tokens ≡ []) }
        ensures output { output_of self.new ≡ output_of self.old }
        ensures place { is_after_value self.new ≡ is_after_value self.old }
    {
        self.start(self.after_value)
    }
}

impl<W: Write> JsonStream<W> {
    /// Writes what a writer has, and keeps its memory.
    fn send(&mut self, piece: Writer, after_value: bool) -> io::Result<()>
        ensures text { OnOk result (Appends (W.contents (output_of self.old))
            (W.contents (output_of self.new)) (piece.before ++ print piece.tokens)) }
        ensures place { OnOk result (is_after_value self.new ≡ after_value) }
    {
        let text = piece.into_inner();
        self.out.write_all(&text)?;
        self.room = text;
        self.after_value = after_value;
        Ok(())
    }

    /// Writes a piece, which ends with a value.
    ///
    /// # Errors
    /// The output can't be written.
    pub fn add(&mut self, piece: Writer) -> io::Result<()>
        ensures text { OnOk result (Appends (W.contents (output_of self.old))
            (W.contents (output_of self.new)) (piece.before ++ print piece.tokens)) }
        ensures place { OnOk result (is_after_value self.new ≡ true) }
    {
        self.send(piece, true)
    }

    /// Begins an object.
    ///
    /// # Errors
    /// The output can't be written, or memory was refused.
    pub fn begin_object(&mut self) -> io::Result<()>
        ensures { AddsToken result W.contents self.old self.new begin_object }
    {
        let mut json = self.start(self.after_value)?;
        json.begin_object()?;
        self.send(json, false)
    }

    /// Ends an object.
    ///
    /// # Errors
    /// As [`begin_object`](JsonStream::begin_object).
    pub fn end_object(&mut self) -> io::Result<()>
        ensures { AddsToken result W.contents self.old self.new end_object }
    {
        let mut json = self.start(false)?;
        json.end_object()?;
        self.send(json, true)
    }

    /// Begins an array.
    ///
    /// # Errors
    /// As [`begin_object`](JsonStream::begin_object).
    pub fn begin_array(&mut self) -> io::Result<()>
        ensures { AddsToken result W.contents self.old self.new begin_array }
    {
        let mut json = self.start(self.after_value)?;
        json.begin_array()?;
        self.send(json, false)
    }

    /// Ends an array.
    ///
    /// # Errors
    /// As [`begin_object`](JsonStream::begin_object).
    pub fn end_array(&mut self) -> io::Result<()>
        ensures { AddsToken result W.contents self.old self.new end_array }
    {
        let mut json = self.start(false)?;
        json.end_array()?;
        self.send(json, true)
    }

    /// Begins a member of an object.
    ///
    /// # Errors
    /// As [`begin_object`](JsonStream::begin_object).
    pub fn key(&mut self, name: &str) -> io::Result<()>
        ensures { AddsToken result W.contents self.old self.new (key name.now) }
    {
        let mut json = self.start(self.after_value)?;
        json.key(name)?;
        self.send(json, false)
    }

    /// Ends the line after a whole value. What follows is another text.
    ///
    /// # Errors
    /// The output can't be written.
    pub fn end_line(&mut self) -> io::Result<()>
        ensures text { OnOk result (Appends (W.contents (output_of self.old))
            (W.contents (output_of self.new)) (10 ∷ [])) }
        ensures place { is_after_value self.new ≡ false }
    {
        self.after_value = false;
        self.out.write_all(b"\n".as_slice())
    }

    /// Flushes the output.
    ///
    /// # Errors
    /// The output can't be flushed.
    pub fn flush(&mut self) -> io::Result<()>
        ensures text { Keeps (W.contents (output_of self.old)) (W.contents (output_of self.new)) }
        ensures place { is_after_value self.new ≡ is_after_value self.old }
    {
        self.out.flush()
    }
}
