//! A reader and a writer over memory that may take few bytes a call, or fail.

ghost use Rattle.std.specs.Io.{ReadsAtMost};

use std::alloc::Global;
use std::io;
use std::io::{ErrorKind, Read, Write};

/// How readers and writers behave.
#[derive(Clone, Copy)]
pub struct Limits {
    /// The most bytes that a call reads or writes, from 1.
    pub step: usize,
    /// Whether the words cannot be read.
    pub words_fail: bool,
    /// Whether the reader fails at its end.
    pub read_fails: bool,
    /// Whether a reader is given up after 5 reads.
    pub few_reads: bool,
    /// The bytes that `out` takes before it fails.
    pub out: usize,
    /// The bytes that `err` takes before it fails.
    pub err: usize,
}

impl Limits {
    /// No limits.
    pub fn none() -> Limits {
        Limits {
            step: usize::MAX,
            words_fail: false,
            read_fails: false,
            few_reads: false,
            out: usize::MAX,
            err: usize::MAX,
        }
    }
}

/// What a reader does behind its bytes.
#[derive(Clone, Copy)]
pub enum Behind {
    /// It is at its end.
    Ends,
    /// Each read fails.
    Fails,
    /// It gives `x` without end.
    GoesOn,
}

/// A reader of bytes.
#[derive(Drop)]
pub struct Feed<'a> {
    rest: &'a [u8],
    step: usize,
    behind: Behind,
}

impl<'a> Feed<'a> {
    /// A reader of these bytes that gives at most so many a call, from 1.
    pub fn new(bytes: &'a [u8], step: usize, behind: Behind) -> Feed<'a> {
        Feed {
            rest: bytes,
            step,
            behind,
        }
    }

    /// What a call behind the bytes gives.
    fn read_behind(&self, buf: &mut [u8]) -> io::Result<usize>
        ensures { ReadsAtMost result buf.new }
    {
        match self.behind {
            Behind::Ends => Ok(0),
            Behind::Fails => Err(io::Error::from(ErrorKind::Other)),
            Behind::GoesOn => {
                let count = buf.len().min(self.step);
                buf[..count].fill(b'x');
                Ok(count)
            },
        }
    }
}

impl Read for Feed<'_> {
    fn read(&mut self, buf: &mut [u8]) -> io::Result<usize> {
        if self.rest.is_empty() {
            return self.read_behind(buf);
        }
        let count = buf.len().min(self.step).min(self.rest.len());
        let (front, back) = self.rest.split_at(count);
        buf[..count].copy_from_slice(front);
        self.rest = back;
        Ok(count)
    }
}

/// A writer that keeps what it takes.
#[derive(Drop)]
pub struct Sheet {
    bytes: Vec<u8>,
    step: usize,
    room: usize,
}

impl Sheet {
    /// A writer that takes so many bytes a call, and fails after so many.
    pub fn new(alloc: Global, step: usize, room: usize) -> Sheet {
        let bytes = Vec::new(alloc);
        Sheet { bytes, step, room }
    }

    /// What was written.
    pub fn into_bytes(self) -> Vec<u8> {
        self.bytes
    }
}

impl Write for Sheet {
    fn write(&mut self, buf: &[u8]) -> io::Result<usize> {
        if self.room == 0 {
            return Err(io::Error::from(ErrorKind::Other));
        }
        let count = buf.len().min(self.step).min(self.room);
        self.bytes.extend_from_slice(&buf[..count])?;
        self.room -= count;
        Ok(count)
    }

    fn flush(&mut self) -> io::Result<()> {
        Ok(())
    }
}
