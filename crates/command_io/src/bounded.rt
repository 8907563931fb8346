//! Readers that are asked for bytes so many times at most, and no more.

ghost use Rattle.std.specs.Prelude.{◌≡◌, ◌<◌, ◌≤◌, ◌+◌, ℕ, IsErr};
ghost use Rattle.std.specs.Io.Buffered.{reader_inner};
ghost use Rattle.std.specs.Io.KnownBytes.{ReadConsumes};
ghost use Rattle.std.specs.Io.{ReadsAtMost};

use std::io;
use std::io::{BufReader, ErrorKind, Read};

/// A reader of whose answers something may be known.
pub trait Answering: Read {
    ghost use Rattle.std.specs.Prelude.{ℕ, List, Result};
    ghost use Rattle.std.specs.Io.{ReadsAtMost};
    ghost use Rattle.std.specs.Io.KnownBytes.{ReadConsumes};
    ghost use Rattle.std.specs.declared.io.Error.{Error};

    /// What is known of one answer: the reader before and after it, the answer, and what stands in the buffer then.
    ghost answers: { Self → Self → Result ℕ Error → List ℕ → Type 0 };

    /// Asks once for bytes.
    fn ask(&mut self, buf: &mut [u8]) -> io::Result<usize>
        ensures bound { ReadsAtMost result buf.new }
        ensures bytes { ReadConsumes (Self.remaining self.old) (Self.remaining self.new) result buf.new }
        ensures answers { answers self.old self.new result buf.new };
}

impl<R: Read> Answering for R {
    // of a reader as such nothing more is known
    ghost answers = { λ _ _ _ _. Unit {0} };

    fn ask(&mut self, buf: &mut [u8]) -> io::Result<usize> {
        self.read(buf)
    }
}

/// How often the program asks a reader for bytes before it gives it up.
pub const MOST_READS: u64 = 1_073_741_824;

/// A reader of which it is known how often it was asked for bytes.
pub trait Counted: Read {
    /// How often it was asked.
    ghost reads: { Self → ℕ };

    /// How often it may be.
    ghost most: { ℕ };

    /// Whatever was done with it, it was asked no more often.
    ghost bounded: { (reader : Self) → reads reader ≤ most };
}

/// A reader, and how often it was asked for bytes. After `MOST` times it is asked no more: then each read fails.
#[derive(Drop)]
pub struct Bounded<R, const MOST: u64> {
    reader: R,
    reads: u64,
    ghost within: { reads ≤ MOST },
}

impl<R, const MOST: u64> Bounded<R, MOST> {
    /// A reader that was not asked yet.
    pub fn new(reader: R) -> Bounded<R, MOST>
        ensures reader { result.reader ≡ reader }
        ensures reads { result.reads ≡ 0 }
    {
        Bounded { reader, reads: 0 }
    }
}

impl<R: Answering, const MOST: u64> Read for Bounded<R, MOST> {
    ghost remaining = { λ b. R.remaining b.reader };

    fn read(&mut self, buf: &mut [u8]) -> io::Result<usize>
        ensures bound { ReadsAtMost result buf.new }
        ensures bytes { ReadConsumes (R.remaining self.old.reader) (R.remaining self.new.reader)
            result buf.new }
        // one that may be asked is asked once, and its answer handed on
        ensures own { self.old.reads < MOST
            → R.answers self.old.reader self.new.reader result buf.new }
        // it is counted, whatever it answers
        ensures reads { self.old.reads < MOST → self.new.reads ≡ self.old.reads + 1 }
        // one that may not is not asked
        ensures kept { self.old.reads ≡ MOST → self.new ≡ self.old }
        ensures fails { self.old.reads ≡ MOST → IsErr result }
    {
        if self.reads == MOST {
            return Err(io::Error::from(ErrorKind::Other));
        }
        self.reads += 1;
        self.reader.ask(buf)
    }
}

impl<R: Answering, const MOST: u64> Counted for Bounded<R, MOST> {
    ghost reads = { λ b. b.reads };

    ghost most = { MOST };

    ghost bounded = { λ b. b.within };
}

impl<R: Counted> Counted for BufReader<R> {
    ghost reads = { λ b. R.reads (reader_inner b) };

    ghost most = { R.most };

    ghost bounded = { λ b. R.bounded (reader_inner b) };
}
