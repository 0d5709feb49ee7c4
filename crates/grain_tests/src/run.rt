//! Runs over bytes, with reads and writes that fail.

ghost use Rattle.std.specs.Prelude.{◌≤◌, Some, take};
ghost use Rattle.grain_tests.specs.declared.run.TheConstants.{ROOM};

use crate::samples::{assert_same, made};
use grain_lines::{Failed, RunError, Sink, Source, Summary, run, status};
use std::alloc::{AllocError, Global};

/// Gives its bytes, at most a number of them a call, and fails once a number of them was given.
#[derive(Drop)]
struct Given<'a> {
    left: &'a [u8],
    each: usize,
    before_failure: usize,
    failures: u64,
    calls_after: u64,
}

impl<'a> Given<'a> {
    fn new(bytes: &'a [u8], each: usize, before_failure: usize) -> Self {
        Given {
            left: bytes,
            each,
            before_failure,
            failures: 0,
            calls_after: 0,
        }
    }
}

impl Source for Given<'_> {
    ghost remaining = { λ source. Some source.left.now };

    ghost mark = { λ source. source.failures };

    fn read(&mut self, buf: &mut [u8]) -> Result<usize, Failed> {
        if self.failures != 0 {
            self.calls_after = self.calls_after.saturating_add(1);
        }
        if self.before_failure == 0 {
            self.failures = self.failures.wrapping_add(1);
            return Err(Failed);
        }
        let most = self.each.max(1).min(self.before_failure);
        let count = self.left.len().min(buf.len()).min(most);
        let (front, rest) = self.left.split_at(count);
        buf[..count].copy_from_slice(front);
        self.left = rest;
        self.before_failure -= count;
        Ok(count)
    }
}

/// How many bytes the tests write at most.
const ROOM: usize = 128;

/// Takes bytes, at most a number of them a call, and fails once a number of them was taken. It allocates nothing.
#[derive(Drop)]
struct Taken {
    room: [u8; ROOM],
    len: usize,
    each: usize,
    before_failure: usize,
    fails_by_none: bool,
    failures: u64,
    calls_after: u64,
    ghost within: { len ≤ ROOM },
}

impl Taken {
    fn new(each: usize, before_failure: usize) -> Self {
        Taken {
            room: [0; ROOM],
            len: 0,
            each,
            before_failure,
            fails_by_none: false,
            failures: 0,
            calls_after: 0,
        }
    }

    fn bytes(&self) -> &[u8] {
        &self.room[..self.len]
    }
}

impl Sink for Taken {
    ghost taken = { λ sink. Some (take sink.len sink.room) };

    ghost mark = { λ sink. sink.failures };

    fn write(&mut self, bytes: &[u8]) -> Result<usize, Failed> {
        if self.failures != 0 {
            self.calls_after = self.calls_after.saturating_add(1);
        }
        if bytes.is_empty() {
            return Ok(0);
        }
        let most = self.each.min(self.before_failure).min(ROOM - self.len);
        if most == 0 {
            self.failures = self.failures.wrapping_add(1);
            return if self.fails_by_none {
                Ok(0)
            } else {
                Err(Failed)
            };
        }
        let count = bytes.len().min(most);
        let end = self.len + count;
        self.room[self.len..end].copy_from_slice(&bytes[..count]);
        self.len = end;
        self.before_failure -= count;
        Ok(count)
    }
}

const INPUT: &[u8] = b"code 0213\ncode 020bff02\n";

const TEXT: &[u8] = b"whole 2\nundecodable at=2\n";

/// An input, its verdict text, its cases, the bad ones among them, and the status.
type Row = (&'static [u8], &'static [u8], u64, u64, u8);

const ROWS: [Row; 6] = [
    (INPUT, TEXT, 2, 0, 0),
    (b"code 1213\ncode 020B", b"whole 2\nwhole 2\n", 2, 0, 0),
    (b" code  0213 \r\n\r\n\n# c\n#\xff\n", b"whole 2\n", 1, 0, 0),
    (
        b"   \n #\n\xff\ncode 02\xff13\n",
        b"bad case\nbad case\nbad case\nbad case\n",
        4,
        4,
        2,
    ),
    (
        b"code 0213\r\ncode 0213\r\r\ncode\r 0213\ncode 0213\r",
        b"whole 2\nbad case\nbad case\nbad case\n",
        4,
        3,
        2,
    ),
    (b"", b"", 0, 0, 0),
];

/// What came of a run: its outcome, its status, and whether this text was written.
type Ended = (Result<Summary, RunError>, u8, bool);

fn ended(outcome: Result<Summary, RunError>, writer: &Taken, text: &[u8]) -> Ended {
    let code = status(&outcome);
    (outcome, code, writer.bytes() == text)
}

/// What a run over the input writes, with at most this number of bytes a call.
fn run_over(alloc: Global, input: &[u8], each: usize, text: &[u8]) -> Ended {
    let mut reader = Given::new(input, each, usize::MAX);
    let mut writer = Taken::new(each, usize::MAX);
    let outcome = run(alloc, &mut reader, &mut writer);
    ended(outcome, &writer, text)
}

#[test]
fn answers_lines(rt: HostRuntime) {
    for (input, text, cases, bad, wanted) in ROWS {
        for each in [1, 7, 100000] {
            let found = run_over(rt.alloc(), input, each, text);
            assert_same(&rt, found, (Ok(Summary { cases, bad }), wanted, true));
        }
    }
}

/// The texts of a summary and of what a run may fail of.
fn shown(alloc: Global, summary: Summary) -> Result<String, AllocError> {
    let errors = [RunError::Read, RunError::Write, RunError::OutOfMemory];
    format!(in alloc; "{summary:?} {errors:?} {Failed:?}")
}

#[test]
fn shows_what_came_of_a_run(rt: HostRuntime) {
    assert_same(
        &rt,
        made(&rt, shown(rt.alloc(), Summary { cases: 2, bad: 1 })).as_str(),
        "Summary { cases: 2, bad: 1 } [Read, Write, OutOfMemory] Failed",
    );
}

/// What a run writes whose writer fails after this number of bytes, and how often it was called after that.
fn run_to_a_failing_writer(alloc: Global, taken: usize, fails_by_none: bool) -> (Ended, u64) {
    let mut reader = Given::new(INPUT, 100, usize::MAX);
    let mut writer = Taken::new(1, taken);
    writer.fails_by_none = fails_by_none;
    let outcome = run(alloc, &mut reader, &mut writer);
    let text = TEXT.get(..taken).unwrap_or_default();
    (ended(outcome, &writer, text), writer.calls_after)
}

#[test]
fn a_write_fails(rt: HostRuntime) {
    for taken in 0..25usize {
        for by_none in [false, true] {
            let found = run_to_a_failing_writer(rt.alloc(), taken, by_none);
            let wanted = ((Err(RunError::Write), 4, true), 0);
            assert_same(&rt, (taken, found), (taken, wanted));
        }
    }
}

/// What a run writes whose reader fails after this number of bytes, and how often it was called after that.
fn run_from_a_failing_reader(alloc: Global, given: usize) -> (Ended, u64) {
    let mut reader = Given::new(INPUT, 3, given);
    let mut writer = Taken::new(1, usize::MAX);
    let outcome = run(alloc, &mut reader, &mut writer);
    let written = match given {
        0..10 => 0,
        10..24 => 8,
        _ => 25,
    };
    (
        ended(outcome, &writer, &TEXT[..written]),
        reader.calls_after,
    )
}

#[test]
fn a_read_fails(rt: HostRuntime) {
    for given in 0..25usize {
        let found = run_from_a_failing_reader(rt.alloc(), given);
        let wanted = ((Err(RunError::Read), 3, true), 0);
        assert_same(&rt, (given, found), (given, wanted));
    }
}
