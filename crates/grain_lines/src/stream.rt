//! What a run reads from and writes to.
//!
//! Two traits of our own, and not those of `std`: their ghost members say what was read and written before a failure.

ghost use Rattle.std.specs.Prelude.{◌≡◌, ◌≢◌, ℕ, ◌+◌, ◌%◌, ◌^◌, List, Option, None, OnOk, OnErr};
ghost use Rattle.std.specs.Io.{ReadsAtMost, WritesAtMost};
ghost use Rattle.std.specs.Io.KnownBytes.{Appends, ReadConsumes, WriteAppends};
ghost use Rattle.grain_lines.specs.Stream.{IsFailedWrite, SendsFront};

use std::io;

/// A read or a write failed. It doesn't say why.
#[derive(Clone, Copy, Debug, PartialEq, Eq)]
pub struct Failed;

/// Gives bytes.
pub trait Source {
    // The bytes yet to come, or nothing if the source doesn't say.
    ghost remaining: { Self → Option (List ℕ) };

    // Changes with each failure and with nothing else.
    ghost mark: { Self → ℕ };

    /// Reads into the front of the buffer, and returns how many bytes. 0 for a buffer with room is
    /// the end.
    ///
    /// # Errors
    /// [`Failed`] if nothing could be read. The bytes yet to come stay, and what the buffer then
    /// holds is open.
    fn read(&mut self, buf: &mut [u8]) -> Result<usize, Failed>
        ensures bound { ReadsAtMost result buf.new }
        ensures bytes { ReadConsumes (remaining self.old) (remaining self.new) result buf.new }
        ensures unmarked { OnOk result (mark self.new ≡ mark self.old) }
        ensures marked { OnErr result (mark self.new ≢ mark self.old) };
}

/// Takes bytes.
pub trait Sink {
    // The bytes taken, or nothing if the sink doesn't say.
    ghost taken: { Self → Option (List ℕ) };

    // Changes with each failure, a write of none of some bytes too, and with nothing else.
    ghost mark: { Self → ℕ };

    /// Takes bytes from the front, and returns how many. 0 of some bytes is a failure too.
    ///
    /// # Errors
    /// [`Failed`] if nothing could be written. The bytes taken stay.
    fn write(&mut self, bytes: &[u8]) -> Result<usize, Failed>
        ensures bound { WritesAtMost result bytes.now }
        ensures bytes { WriteAppends (taken self.old) (taken self.new) result bytes.now }
        ensures unmarked { ¬ IsFailedWrite result bytes.now → mark self.new ≡ mark self.old }
        ensures marked { IsFailedWrite result bytes.now → mark self.new ≢ mark self.old };
}

/// The count of failures after one more of them, modulo 2^64.
fn one_more(failures: u64) -> u64
    ensures counted { result ≡ (failures + 1) % 2 ^ 64 }
    ensures changed { result ≢ failures }
{
    failures.wrapping_add(1)
}

/// One of std's readers as a source that doesn't say what its bytes are.
///
/// Its mark is how many reads failed, modulo 2^64.
#[derive(Drop)]
pub struct OverRead<R> {
    reader: R,
    failures: u64,
}

impl<R> OverRead<R> {
    ghost use Rattle.grain_lines.specs.Wrappers.{failed_reads, reader_of};

    /// A source over the reader, none of whose reads has failed yet.
    pub fn new(reader: R) -> Self
        ensures reader { reader_of result ≡ reader }
        ensures failures { failed_reads result ≡ 0 }
    {
        OverRead {
            reader,
            failures: 0,
        }
    }
}

impl<R: io::Read> Source for OverRead<R> {
    ghost use Rattle.grain_lines.specs.Wrappers.{failed_reads, reader_of};

    ghost remaining = { λ _. None };

    ghost mark = { λ source. failed_reads source };

    fn read(&mut self, buf: &mut [u8]) -> Result<usize, Failed>
        ensures bound { ReadsAtMost result buf.new }
        ensures bytes { ReadConsumes None None result buf.new }
        ensures unmarked { OnOk result (failed_reads self.new ≡ failed_reads self.old) }
        ensures marked { OnErr result (failed_reads self.new ≢ failed_reads self.old) }

        // It promises more than the trait requires: it counts the failures, and is a read of the reader's own bytes, though as a
        // `Source` it has none.
        ensures counted { OnErr result
            (failed_reads self.new ≡ (failed_reads self.old + 1) % 2 ^ 64) }
        ensures reads { ReadConsumes (R.remaining (reader_of self.old))
            (R.remaining (reader_of self.new)) result buf.new }
    {
        match self.reader.read(buf) {
            Ok(count) => Ok(count),
            Err(_) => {
                self.failures = one_more(self.failures);
                Err(Failed)
            }
        }
    }
}

/// One of std's writers as a sink that doesn't say what its bytes are.
///
/// Its mark is how many writes failed, modulo 2^64.
#[derive(Drop)]
pub struct OverWrite<W> {
    writer: W,
    failures: u64,
}

impl<W> OverWrite<W> {
    ghost use Rattle.grain_lines.specs.Wrappers.{failed_writes, writer_of};

    /// A sink over the writer, none of whose writes has failed yet.
    pub fn new(writer: W) -> Self
        ensures writer { writer_of result ≡ writer }
        ensures failures { failed_writes result ≡ 0 }
    {
        OverWrite {
            writer,
            failures: 0,
        }
    }
}

impl<W: io::Write> Sink for OverWrite<W> {
    ghost use Rattle.grain_lines.specs.Wrappers.{failed_writes, writer_of};

    ghost taken = { λ _. None };

    ghost mark = { λ sink. failed_writes sink };

    fn write(&mut self, bytes: &[u8]) -> Result<usize, Failed>
        ensures bound { WritesAtMost result bytes.now }
        ensures bytes { WriteAppends None None result bytes.now }
        ensures unmarked { ¬ IsFailedWrite result bytes.now →
            failed_writes self.new ≡ failed_writes self.old }
        ensures marked { IsFailedWrite result bytes.now →
            failed_writes self.new ≢ failed_writes self.old }

        // It counts the failures, and is a write to the writer's own bytes.
        ensures counted { IsFailedWrite result bytes.now →
            failed_writes self.new ≡ (failed_writes self.old + 1) % 2 ^ 64 }
        ensures writes { WriteAppends (W.contents (writer_of self.old))
            (W.contents (writer_of self.new)) result bytes.now }
    {
        match self.writer.write(bytes) {
            Ok(0) if !bytes.is_empty() => {
                self.failures = one_more(self.failures);
                Ok(0)
            }
            Ok(count) => Ok(count),
            Err(_) => {
                self.failures = one_more(self.failures);
                Err(Failed)
            }
        }
    }
}

/// Writes all the bytes, in as many writes as it takes.
///
/// # Errors
/// [`Failed`] if a write failed or took none of some bytes. It writes nothing more after that.
pub(crate) fn send<K: Sink>(writer: &mut K, bytes: &[u8]) -> Result<(), Failed>
    ensures ok { OnOk result (Appends (K.taken writer.old) (K.taken writer.new) bytes.now) }
    ensures unmarked { OnOk result (K.mark writer.new ≡ K.mark writer.old) }
    ensures err { OnErr result (SendsFront (K.taken writer.old) (K.taken writer.new) bytes.now) }
    ensures marked { OnErr result (K.mark writer.new ≢ K.mark writer.old) }
{
    let mut rest = bytes;
    'sending: while !rest.is_empty() {
        let count = writer.write(rest)?;
        if count == 0 {
            return Err(Failed);
        }
        rest = &rest[count..];
    }
    Ok(())
}
