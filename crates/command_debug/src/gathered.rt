//! Answers that are gathered, to be written together.

ghost use Rattle.std.specs.Prelude.{◌≡◌, ◌+◌, ◌<◌, ◌≤◌, ◌∷◌, ◌++◌, [], Ok, OnErr, OnOk, codes, drop, length};
ghost use Rattle.command_debug.specs.Answers.{Adds, move_line};

use itoa::write_digits;
use std::alloc::{AllocError, Global};
use std::marker::Model;

/// How many bytes are kept for the numbers of a place's line and for what stands between them.
const WIDTH: usize = 64;

/// The most bytes of a line that tells of a move.
const MOST_OF_MOVE: usize = 96;

/// The line of a place among so many, in which only the number of the place is written anew.
#[derive(Drop)]
struct PlaceLine {
    /// The number of a place, and how its line ends, to the last byte.
    bytes: [u8; WIDTH],
    /// Where the number of a place ends.
    end: usize,
    /// How many places there are.
    last: usize,
}

impl Model for PlaceLine {
    ghost use Rattle.std.specs.Prelude.{ℕ, drop, ◌≡◌, ◌≤◌};
    ghost use Rattle.command_debug.specs.Answers.{place_end};

    ghost Value = { ℕ };

    ghost view = { λ l. l.last };

    ghost invariant = { λ l. (20 ≤ l.end) × (l.end ≤ 64) × (drop l.end l.bytes ≡ place_end l.last) };
}

/// Puts a byte before an end, and answers where it stands.
fn put_before(bytes: &mut [u8], end: usize, byte: u8) -> usize
    requires { (0 < end) × (end ≤ length bytes.old) }
    ensures start { result + 1 ≡ end }
    ensures written { drop result bytes.new ≡ byte ∷ drop end bytes.old }
{
    bytes[end - 1] = byte;
    end - 1
}

impl PlaceLine {
    /// The line of a place among so many.
    fn new(last: usize) -> PlaceLine
        ensures { result ≡ last }
    {
        let mut bytes = [0; WIDTH];
        let end = put_before(&mut bytes, WIDTH, b'\n');
        let end = write_digits(last as u64, &mut bytes, end);
        let end = put_before(&mut bytes, end, b' ');
        let end = put_before(&mut bytes, end, b'f');
        let end = put_before(&mut bytes, end, b'o');
        let end = put_before(&mut bytes, end, b' ');
        PlaceLine { bytes, end, last }
    }

    /// Makes it the line of a place among so many.
    fn make(&mut self, last: usize)
        ensures { self.new ≡ last }
    {
        if self.last != last {
            *self = PlaceLine::new(last);
        }
    }

    /// Adds the line of a place to a text; without memory nothing is added.
    fn add(&mut self, text: &mut Vec<u8>, place: usize) -> Result<(), AllocError>
        ensures same { self.new ≡ self.old }
        ensures adds { OnOk result
            (Adds text.old.items text.new.items (move_line self.old (Ok place))) }
        ensures kept { OnErr result (text.new.items ≡ text.old.items) }
    {
        text.reserve(MOST_OF_MOVE)?;
        let start = write_digits(place as u64, &mut self.bytes, self.end);
        text.extend_from_slice(b"place ")?;
        text.extend_from_slice(&self.bytes[start..])
    }
}

/// Answers that are gathered, which contracts see as their bytes.
#[derive(Drop)]
pub(crate) struct Gathered {
    text: Vec<u8>,
    place_line: PlaceLine,
}

impl Model for Gathered {
    ghost use Rattle.std.specs.Prelude.{ℕ, List};

    ghost Value = { List ℕ };

    ghost view = { λ g. g.text.items };
}

impl Gathered {
    /// No answers.
    pub fn new(alloc: Global) -> Gathered
        ensures { result ≡ [] }
    {
        Gathered {
            text: Vec::new(alloc),
            place_line: PlaceLine::new(0),
        }
    }

    /// How many bytes they have.
    pub fn len(&self) -> usize
        ensures { result ≡ length self.now }
    {
        self.text.len()
    }

    /// Their bytes.
    pub fn as_slice(&self) -> &[u8]
        ensures { result.now ≡ self.now }
    {
        self.text.as_slice()
    }

    /// Lets them go.
    pub fn clear(&mut self)
        ensures { self.new ≡ [] }
    {
        self.text.clear();
    }

    /// Adds words; without memory nothing is added.
    pub fn add(&mut self, words: &[u8]) -> Result<(), AllocError>
        ensures adds { OnOk result (Adds self.old self.new words.now) }
        ensures kept { OnErr result (self.new ≡ self.old) }
    {
        self.text.extend_from_slice(words)
    }

    /// Adds the line of a place among so many; without memory nothing is added.
    pub fn add_place(&mut self, place: usize, last: usize) -> Result<(), AllocError>
        ensures adds { OnOk result (Adds self.old self.new (move_line last (Ok place))) }
        ensures kept { OnErr result (self.new ≡ self.old) }
    {
        self.place_line.make(last);
        self.place_line.add(&mut self.text, place)
    }

    /// Adds the line of a refusal by its name; without memory nothing is added.
    pub fn add_refusal(&mut self, name: &str) -> Result<(), AllocError>
        requires { length name.now ≤ 64 }
        ensures adds { OnOk result
            (Adds self.old self.new (codes "debug " ++ (name.now ++ codes "\n"))) }
        ensures kept { OnErr result (self.new ≡ self.old) }
    {
        self.text.reserve(MOST_OF_MOVE)?;
        self.text.extend_from_slice(b"debug ")?;
        self.text.extend_from_slice(name.as_bytes())?;
        self.text.extend_from_slice(b"\n")
    }
}
