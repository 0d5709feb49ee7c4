//! Outputs. A file is written under another name, and replaces the old one once it is whole: a write that
//! fails leaves the old file. Small writes are gathered.

use crate::failure::Failure;
use std::alloc::{AllocError, Global};
use std::fs::{File, Metadata, OpenOptions};
use std::io::{ErrorKind, IsTerminal, Stdout, Write};
use std::{fs, io};

/// The path that means standard input or output.
pub const STANDARD: &str = "-";

/// How many names a new file tries.
const TRIES: usize = 1000;

/// How many bytes of small writes are gathered at most.
const MOST_HELD: usize = 8192;

/// A file that is written, and what it replaces.
#[derive(Drop)]
struct Replacing {
    file: File,
    /// Its path until it is whole.
    temporary: String,
    /// The path of the file that it replaces.
    place: String,
}

/// Where a result goes.
#[derive(Drop)]
enum Target {
    /// To standard output.
    Standard(Stdout),
    /// Into what is there: a device, a pipe.
    There(File),
    /// Into a new file.
    New(Replacing),
}

/// What is written to a file or to standard output, as a writer. [`end`](Output::end) writes the last bytes.
#[derive(Drop)]
pub struct Output {
    target: Target,
    /// Bytes of small writes that the target doesn't have yet.
    held: Vec<u8>,
    /// What the file is called in messages.
    path: String,
}

/// Whether a path means standard output.
pub fn is_standard(path: Option<&str>) -> bool {
    match path {
        Some(path) => path == STANDARD,
        None => true,
    }
}

/// The folder of a path, with its slash; empty for one in the current folder.
pub fn folder_of(path: &str) -> &str {
    match path.rfind('/') {
        Some(slash) => path.get(..slash.saturating_add(1)).unwrap_or_default(),
        None => "",
    }
}

/// A name in the folder of a file that is tried for a new one.
fn temporary_name(alloc: Global, path: &str, number: usize) -> Result<String, AllocError> {
    let folder = folder_of(path);
    format!(in alloc; "{folder}.grain-{number}.tmp")
}

/// A new file in the folder of another, and its name.
fn create_temporary(rt: &HostRuntime, path: &str) -> io::Result<(File, String)> {
    for number in 0..TRIES {
        let name = temporary_name(rt.alloc(), path, number)?;
        match File::create_new(rt, name.as_str()) {
            Ok(file) => return Ok((file, name)),
            Err(error) if error.kind() == ErrorKind::AlreadyExists => {}
            Err(error) => return Err(error),
        }
    }
    Err(io::Error::from(ErrorKind::AlreadyExists))
}

/// A new file that replaces the one at a path, or is the first there.
fn new_target(rt: &HostRuntime, path: &str) -> io::Result<Target> {
    let (file, temporary) = create_temporary(rt, path)?;
    let place = String::from_str(rt.alloc(), path)?;
    Ok(Target::New(Replacing {
        file,
        temporary,
        place,
    }))
}

/// A new file that replaces a regular one, and has its permissions. One that must not be written isn't replaced.
fn beside(rt: &HostRuntime, path: &str, found: &Metadata) -> io::Result<Target> {
    let _writable = OpenOptions::new().write(true).open(rt, path)?;
    let place = fs::canonicalize(rt, path)?;
    let target = new_target(rt, place.to_string_lossy())?;
    if let Target::New(new) = &target {
        let set = new.file.set_permissions(found.permissions());
        if set.is_err() {
            let _removed = fs::remove_file(rt, new.temporary.as_str());
            set?;
        }
    }
    Ok(target)
}

/// What is there, opened for writing.
fn there(rt: &HostRuntime, path: &str) -> io::Result<Target> {
    Ok(Target::There(File::create(rt, path)?))
}

/// Whether a path is one of the system's, which may be a file that is open already.
fn is_of_system(path: &str) -> bool {
    path.starts_with("/dev/") || path.starts_with("/proc/")
}

/// The target of a path.
fn target_of(rt: &HostRuntime, path: &str) -> io::Result<Target> {
    if is_of_system(path) {
        return there(rt, path);
    }
    match fs::metadata(rt, path) {
        Ok(found) if found.is_file() => beside(rt, path, &found),
        Ok(_) => there(rt, path),
        Err(error) if error.kind() == ErrorKind::NotFound => {
            // A link to no file stays a link.
            if fs::symlink_metadata(rt, path).is_ok() {
                there(rt, path)
            } else {
                new_target(rt, path)
            }
        }
        Err(error) => Err(error),
    }
}

/// Writes bytes to standard output.
pub fn write_standard(rt: &HostRuntime, bytes: &[u8]) -> Result<(), Failure> {
    let mut out = rt.stdout();
    match out.write_all(bytes) {
        Ok(()) => out.flush().map_err(Failure::of_output),
        Err(error) => Err(Failure::of_output(error)),
    }
}

/// Renames a new file to its path, once it is on the disk.
fn put(rt: &HostRuntime, new: &Replacing) -> io::Result<()> {
    new.file.sync_all()?;
    fs::rename(rt, new.temporary.as_str(), new.place.as_str())
}

impl Target {
    /// Writes bytes at once.
    fn put(&mut self, bytes: &[u8]) -> io::Result<()> {
        match self {
            Target::Standard(out) => out.write_all(bytes),
            Target::There(file) => file.write_all(bytes),
            Target::New(new) => new.file.write_all(bytes),
        }
    }

    /// Flushes what was written.
    fn flush(&mut self) -> io::Result<()> {
        match self {
            Target::Standard(out) => out.flush(),
            Target::There(file) => file.flush(),
            Target::New(new) => new.file.flush(),
        }
    }
}

impl Write for Output {
    fn write(&mut self, bytes: &[u8]) -> io::Result<usize> {
        if bytes.len() > MOST_HELD.saturating_sub(self.held.len()) {
            self.pass_on()?;
        }
        if bytes.len() > MOST_HELD {
            self.target.put(bytes)?;
        } else {
            self.held.extend_from_slice(bytes)?;
        }
        Ok(bytes.len())
    }

    fn flush(&mut self) -> io::Result<()> {
        self.pass_on()?;
        self.target.flush()
    }
}

impl Output {
    /// Writes the bytes that are held.
    fn pass_on(&mut self) -> io::Result<()> {
        self.target.put(&self.held)?;
        self.held.clear();
        Ok(())
    }

    /// What is written to a file, or to standard output if none is given.
    ///
    /// # Errors
    /// The file can't be written.
    pub fn open(rt: &HostRuntime, path: Option<&str>) -> Result<Output, Failure> {
        let alloc = rt.alloc();
        let Some(path) = path.filter(|path| *path != STANDARD) else {
            return Ok(Output {
                target: Target::Standard(rt.stdout()),
                held: Vec::new(alloc),
                path: String::new(alloc),
            });
        };
        match target_of(rt, path) {
            Ok(target) => Ok(Output {
                target,
                held: Vec::new(alloc),
                path: String::from_str(alloc, path)?,
            }),
            Err(error) => Err(Failure::of(alloc, path, error)),
        }
    }

    /// The same of a binary file, which no terminal shows.
    ///
    /// # Errors
    /// The file can't be written, or would go to a terminal.
    pub fn open_binary(rt: &HostRuntime, path: Option<&str>) -> Result<Output, Failure> {
        if is_standard(path) && rt.stdout().is_terminal() {
            return Err(Failure::Terminal);
        }
        Output::open(rt, path)
    }

    /// The failure of an error of this output.
    pub fn failure(&self, alloc: Global, error: io::Error) -> Failure {
        match (&self.target, error.kind()) {
            (_, ErrorKind::OutOfMemory) => Failure::OutOfMemory,
            (Target::Standard(_), _) => Failure::Output(error),
            (Target::There(_) | Target::New(_), _) => Failure::of(alloc, &self.path, error),
        }
    }

    /// What was done, and whether the last bytes could be written.
    fn flushed(&mut self, alloc: Global, done: io::Result<()>) -> Result<(), Failure> {
        let done = match done {
            Ok(()) => self.flush(),
            Err(error) => Err(error),
        };
        match done {
            Ok(()) => Ok(()),
            Err(error) => Err(self.failure(alloc, error)),
        }
    }

    /// Ends the output, to which something was written. If everything was, a new file replaces the old one. Otherwise it is removed.
    ///
    /// # Errors
    /// That of what was done, or the file can't be written.
    pub fn end(self, rt: &HostRuntime, done: io::Result<()>) -> Result<(), Failure> {
        let mut output = self;
        let done = output.flushed(rt.alloc(), done);
        output.close(rt, done)
    }

    /// Puts the new file in the place of the old one, if everything was written. Otherwise it is removed.
    fn close(self, rt: &HostRuntime, done: Result<(), Failure>) -> Result<(), Failure> {
        let Output { target, path, .. } = self;
        let Target::New(new) = target else {
            return done;
        };
        let put = match done {
            Ok(()) => match put(rt, &new) {
                Ok(()) => return Ok(()),
                Err(error) => Err(Failure::of(rt.alloc(), path.as_str(), error)),
            },
            Err(failure) => Err(failure),
        };
        // If it can't be removed either, the first error is reported.
        let _removed = fs::remove_file(rt, new.temporary.as_str());
        put
    }
}

/// Writes a whole output.
fn write_whole(rt: &HostRuntime, output: Output, bytes: &[u8]) -> Result<(), Failure> {
    let mut output = output;
    let done = output.write_all(bytes);
    output.end(rt, done)
}

/// Writes the bytes of a text to a file, or to standard output if none is given.
pub fn write_text(rt: &HostRuntime, path: Option<&str>, text: &[u8]) -> Result<(), Failure> {
    write_whole(rt, Output::open(rt, path)?, text)
}

/// Writes a binary file, or to standard output if none is given and that is no terminal.
pub fn write_binary(rt: &HostRuntime, path: Option<&str>, bytes: &[u8]) -> Result<(), Failure> {
    write_whole(rt, Output::open_binary(rt, path)?, bytes)
}

/// Writes two binary files, each to its path. Both are whole before either replaces an old one.
pub fn write_both(
    rt: &HostRuntime,
    (path, bytes): (&str, &[u8]),
    (other_path, other_bytes): (Option<&str>, &[u8]),
) -> Result<(), Failure> {
    let mut one = Output::open_binary(rt, Some(path))?;
    let mut other = match Output::open_binary(rt, other_path) {
        Ok(other) => other,
        Err(failure) => return one.close(rt, Err(failure)),
    };
    let written = one.write_all(bytes);
    let done = match one.flushed(rt.alloc(), written) {
        Ok(()) => {
            let written = other.write_all(other_bytes);
            other.flushed(rt.alloc(), written)
        }
        Err(failure) => Err(failure),
    };
    let done = one.close(rt, done);
    other.close(rt, done)
}
