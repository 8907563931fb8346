//! What a case asks for, and what came of it.

use crate::streams::{Behind, Feed, Limits};
use std::alloc::Global;
use std::collections::BTreeMap;

/// The name of the file whose lines stand without one.
pub const CONTEXTS: &str = "contexts.json";

/// The files of a case, by their names.
pub type Files = BTreeMap<String, Vec<u8>>;

/// A file whose reader does not give it to its end.
#[derive(Clone, Copy)]
pub struct Spoiled<'a> {
    /// The name of the file; `-` is the input.
    pub name: &'a str,
    /// How many bytes the reader gives.
    pub length: usize,
    /// What it does behind them.
    pub behind: Behind,
}

impl<'a> Spoiled<'a> {
    /// A file that has no name, and so none.
    pub fn none() -> Spoiled<'a> {
        Spoiled {
            name: "",
            length: 0,
            behind: Behind::Ends,
        }
    }

    /// A reader of a file.
    pub fn feed(&self, name: &str, bytes: &'a [u8], limits: Limits) -> Feed<'a> {
        if name == self.name {
            let bytes = bytes.get(..self.length).unwrap_or(bytes);
            return Feed::new(bytes, limits.step, self.behind);
        }
        if limits.read_fails {
            return Feed::new(bytes, limits.step, Behind::Fails);
        }
        Feed::new(bytes, limits.step, Behind::Ends)
    }
}

/// What a case asks for.
#[derive(Clone, Copy)]
pub struct Asked<'a> {
    /// Whether the words are those of a verb, and not of the command line.
    pub is_verb: bool,
    /// The words, of which the first names the program.
    pub words: &'a [String],
    pub files: &'a Files,
    pub input: &'a [u8],
    pub limits: Limits,
    pub spoiled: Spoiled<'a>,
}

/// What came of it.
#[derive(Drop)]
pub struct Found {
    pub out: Vec<u8>,
    pub err: Vec<u8>,
    pub status: u8,
}
