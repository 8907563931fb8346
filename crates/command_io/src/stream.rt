//! Streams of bytes that know whether a call on them has failed.

ghost use Rattle.std.specs.Prelude.{◌≡◌, ◌<◌, ◌≤◌, ℕ, List, Option, Ok, Some, OnOk, IfSome, length, take, flat_map};
ghost use Rattle.std.specs.Io.{StartsWith};
ghost use Rattle.std.specs.IoError.{error_kind};
ghost use Rattle.std.specs.Io.KnownBytes.{Consumes};
ghost use Rattle.command_io.specs.Stream.{EndsAt, Flushes, IsLineRead, LiesReady, Stream, Puts, ReadsAll, ReadsLine};
ghost use Rattle.command_io.specs.Stream as spec;

use crate::bounded::Counted;
use std::alloc::Global;
use std::io;
use std::io::{BufRead, BufReader, ErrorKind, Read, Write};

/// Why a source was not read to its end.
#[derive(Clone, Copy, PartialEq, Eq)]
pub enum SourceFault {
    /// A read failed.
    Failed,
    /// There is no memory.
    Memory,
}

/// What is read to its end.
pub trait Source {
    /// The bytes that are left, where they are known, and whether a read has failed.
    ghost seen: { Self → Stream };

    /// How often a reader was asked for them, and how often it may be.
    ghost reads: { Self → ℕ };

    ghost most: { ℕ };

    /// All bytes that are left.
    ///
    /// # Errors
    ///
    /// A read that failed, or want of memory. What was read until then is dropped.
    fn read_all(&mut self, alloc: Global) -> Result<Vec<u8>, SourceFault>
        ensures { ReadsAll (seen self.old) (seen self.new) result };

    /// Whatever is done with it, its reader is asked no more often.
    ghost bounded: { (source : Self) → reads source ≤ most };
}

/// A source whose lines are read as they come.
pub trait LineSource: Source {
    /// How many more times a line may be asked for, before the source is given up as one that failed.
    ghost turns_left: { Self → ℕ };

    /// The bytes that were read already and not yet taken, which are the next.
    ghost ahead: { Self → List ℕ };

    /// Puts the next line in the place of what `line` holds, without its newline, which the last may lack, and answers
    /// whether there was one: at the end there is none.
    ///
    /// # Errors
    ///
    /// A read that failed, or want of memory. What was read of the line until then is lost.
    fn read_line(&mut self, line: &mut Vec<u8>) -> Result<bool, SourceFault>
        ensures reads { ReadsLine (Self.seen self.old) (Self.seen self.new) line.new.items result }
        ensures fewer { OnOk result (turns_left self.new < turns_left self.old) };

    /// The next line, where it lies read already, with its newline, so that it can be had without waiting. It is not taken.
    fn ready_line(&self) -> Option<&[u8]>
        ensures known { IfSome result (λ line. LiesReady (Self.seen self.now) line.now) }
        ensures first { IfSome result (λ line. line.now ≡ take (length line.now) (ahead self.now)) }
        ensures ends { IfSome result (λ line. EndsAt (ahead self.now) (length line.now)) }
        ensures turn { IfSome result (λ line. 0 < turns_left self.now) };

    /// Takes the next line, which lies read already and has so many bytes without its newline.
    fn pass_line(&mut self, count: usize)
        requires ends { EndsAt (ahead self.old) count }
        requires turn { 0 < turns_left self.old }
        requires short { count < usize.MAX }
        ensures takes { IsLineRead (Self.seen self.old) (Self.seen self.new)
            (Ok (Some (take count (ahead self.old)))) }
        ensures fewer { turns_left self.new < turns_left self.old };
}

/// A reader that reads ahead of what is taken of it.
pub trait ReadAhead: BufRead {
    ghost bytes_ahead: { Self → List ℕ };

    /// The bytes that were read and not yet taken, which are the next.
    fn ahead(&self) -> &[u8]
        ensures front { IfSome (Self.remaining self.now) (λ bytes. StartsWith bytes result.now) }
        ensures value { result.now ≡ bytes_ahead self.now };

    /// Takes so many of them.
    fn take_ahead(&mut self, count: usize)
        requires { count ≤ length (bytes_ahead self.old) }
        ensures { Consumes (Self.remaining self.old) (Self.remaining self.new)
            (take count (bytes_ahead self.old)) };
}

impl<R: Read> ReadAhead for BufReader<R> {
    ghost use Rattle.std.specs.Io.Buffered.{reader_buffer};

    ghost bytes_ahead = { reader_buffer };

    fn ahead(&self) -> &[u8] {
        self.buffer()
    }

    fn take_ahead(&mut self, count: usize) {
        self.consume(count);
    }
}

/// What is written to.
pub trait Sink {
    /// The bytes that it holds, where they are known, and whether a write has failed.
    ghost seen: { Self → Stream };

    /// Writes a text, and answers whether it was written whole. Where a write fails, a beginning of it was written.
    fn put(&mut self, text: &[u8]) -> bool
        ensures { Puts (seen self.old) (seen self.new) text.now result };

    /// Hands on what was written, and answers whether that could be done.
    fn flush(&mut self) -> bool
        ensures { Flushes (seen self.old) (seen self.new) result };
}

/// A reader, whether a read has failed, and how many more times it may be asked for a line.
#[derive(Drop)]
pub struct Input<R> {
    reader: R,
    failed: bool,
    turns: u64,
}

impl<R: Counted> Input<R> {
    ghost use Rattle.std.specs.Prelude.{false};

    /// A reader, of which no read has failed.
    pub fn new(reader: R) -> Input<R>
        ensures { result ≡ record { reader = reader; failed = false; turns = u64.MAX } }
    {
        Input {
            reader,
            failed: false,
            turns: u64::MAX,
        }
    }
}

/// Why a call on a reader failed: want of memory is told by its kind, and every other error is a read that failed.
fn source_fault(error: &io::Error) -> SourceFault
    ensures { spec.TellsKind (error_kind error.now) result }
{
    if error.kind() == ErrorKind::OutOfMemory {
        return SourceFault::Memory;
    }
    SourceFault::Failed
}

impl<R: Counted> Source for Input<R> {
    ghost seen = { λ s. record { bytes = R.remaining s.reader; failed = s.failed } };

    ghost reads = { λ s. R.reads s.reader };

    ghost most = { R.most };

    ghost bounded = { λ s. R.bounded s.reader };

    fn read_all(&mut self, alloc: Global) -> Result<Vec<u8>, SourceFault> {
        let mut bytes = Vec::new(alloc);
        match self.reader.read_to_end(&mut bytes) {
            Ok(_) => Ok(bytes),
            Err(error) => match source_fault(&error) {
                SourceFault::Failed => {
                    self.failed = true;
                    Err(SourceFault::Failed)
                },
                SourceFault::Memory => Err(SourceFault::Memory),
            },
        }
    }
}

/// Takes the newline off the end of some bytes, and answers whether there was one.
fn cut_newline(bytes: &mut Vec<u8>) -> bool
    ensures { spec.CutsNewline bytes.old.items bytes.new.items result }
{
    let length = bytes.len();
    if length == 0 {
        return false;
    }
    if bytes[length - 1] != b'\n' {
        return false;
    }
    bytes.truncate(length - 1);
    true
}

/// Puts the next line of a reader in the place of what `line` holds, without its newline; at the end there is none.
fn next_line<R: BufRead>(reader: &mut R, line: &mut Vec<u8>) -> Result<bool, SourceFault>
    ensures { spec.ReadsNext (R.remaining reader.old) (R.remaining reader.new) line.new.items result }
{
    line.clear();
    let read = reader.read_until(b'\n', line);
    // a line with its newline is whole, whatever came after it
    if cut_newline(line) {
        return Ok(true);
    }
    match read {
        Ok(0) => Ok(false),
        Ok(_) => Ok(true),
        Err(error) => Err(source_fault(&error)),
    }
}

/// How many bytes the first line has, where its newline is there.
fn line_length(bytes: &[u8]) -> Option<usize>
    ensures { IfSome result (EndsAt bytes.now) }
{
    for (length, byte) in bytes.iter().enumerate() {
        if *byte == b'\n' {
            return Some(length);
        }
    }
    None
}

impl<R: ReadAhead + Counted> LineSource for Input<R> {
    ghost turns_left = { λ s. s.turns };

    ghost ahead = { λ s. R.bytes_ahead s.reader };

    fn read_line(&mut self, line: &mut Vec<u8>) -> Result<bool, SourceFault> {
        if self.turns == 0 {
            self.failed = true;
            return Err(SourceFault::Failed);
        }
        self.turns -= 1;
        match next_line(&mut self.reader, line) {
            Ok(found) => Ok(found),
            Err(SourceFault::Failed) => {
                self.failed = true;
                Err(SourceFault::Failed)
            },
            Err(SourceFault::Memory) => Err(SourceFault::Memory),
        }
    }

    fn ready_line(&self) -> Option<&[u8]> {
        if self.turns == 0 {
            return None;
        }
        let ahead = self.reader.ahead();
        match line_length(ahead) {
            Some(length) => Some(&ahead[..length]),
            None => None,
        }
    }

    fn pass_line(&mut self, count: usize) {
        self.turns -= 1;
        self.reader.take_ahead(count + 1);
    }
}

/// A writer, and whether a write has failed.
#[derive(Drop)]
pub struct Output<W> {
    writer: W,
    failed: bool,
}

impl<W> Output<W> {
    ghost use Rattle.std.specs.Prelude.{false};

    /// A writer, of which no write has failed.
    pub fn new(writer: W) -> Output<W>
        ensures { result ≡ record { writer = writer; failed = false } }
    {
        Output {
            writer,
            failed: false,
        }
    }

    /// The writer.
    pub fn into_writer(self) -> W
        ensures { result ≡ self.writer }
    {
        self.writer
    }
}

/// Writes a beginning of a text by one call, and answers its length; a call that was interrupted wrote nothing.
fn write_some<W: Write>(writer: &mut W, text: &[u8]) -> Option<usize>
    ensures { spec.WritesSome (W.contents writer.old) (W.contents writer.new) text.now result }
{
    match writer.write(text) {
        Ok(0) => None,
        Ok(count) => Some(count),
        Err(error) => {
            if error.kind() == ErrorKind::Interrupted {
                Some(0)
            } else {
                None
            }
        },
    }
}

/// Writes a text until a write fails, and answers whether it was written whole.
fn write_whole<W: Write>(writer: &mut W, text: &[u8]) -> bool
    ensures { spec.Writes (W.contents writer.old) (W.contents writer.new) text.now result }
{
    let mut rest = text;
    for _ in 0..u64::MAX {
        if rest.is_empty() {
            return true;
        }
        match write_some(writer, rest) {
            Some(count) => rest = &rest[count..],
            None => return false,
        }
    }
    false
}

impl<W: Write> Sink for Output<W> {
    ghost seen = { λ s. record { bytes = W.contents s.writer; failed = s.failed } };

    fn put(&mut self, text: &[u8]) -> bool {
        let written = write_whole(&mut self.writer, text);
        if !written {
            self.failed = true;
        }
        written
    }

    fn flush(&mut self) -> bool {
        match self.writer.flush() {
            Ok(()) => true,
            Err(_) => {
                self.failed = true;
                false
            },
        }
    }
}

/// Writes a text and hands it on at once, and answers whether both could be done.
pub fn put_now<S: Sink>(sink: &mut S, text: &[u8]) -> bool
    ensures { Puts (S.seen sink.old) (S.seen sink.new) text.now result }
{
    sink.put(text) && sink.flush()
}

/// Writes texts one after the other, and answers whether all were written.
pub fn put_parts<S: Sink>(sink: &mut S, parts: &[&str]) -> bool
    ensures { Puts (S.seen sink.old) (S.seen sink.new)
        (flat_map (λ part. part.now) parts.now) result }
{
    for part in parts {
        if !sink.put(part.as_bytes()) {
            return false;
        }
    }
    true
}
