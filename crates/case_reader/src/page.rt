//! The page of a verb: what the verb is asked, and what it writes for an answer.
//!
//! Nothing that a verb does with its page can fail. A fault is written in the place of what it is a fault of; a page that had
//! no memory for a text knows that it is short.

use crate::asked::{CONTEXTS, Files, Found};
use std::alloc::Global;
use std::fmt::Display;
use std::mem;

/// A page.
#[derive(Drop)]
pub struct Page<'a> {
    pub alloc: Global,
    /// The words of the verb, of which the first is its name.
    pub words: &'a [String],
    pub files: &'a Files,
    pub input: &'a [u8],
    text: String,
    is_short: bool,
}

/// The first word of a line, and what follows it.
pub fn parted(line: &str) -> (&str, &str) {
    line.split_once(' ').unwrap_or((line, ""))
}

impl<'a> Page<'a> {
    /// A page with nothing on it.
    pub fn new(alloc: Global, words: &'a [String], files: &'a Files, input: &'a [u8]) -> Page<'a> {
        Page {
            alloc,
            words,
            files,
            input,
            text: String::new(alloc),
            is_short: false,
        }
    }

    /// Another page for the same verb, with nothing on it.
    pub fn scratch(&self) -> Page<'a> {
        Page::new(self.alloc, self.words, self.files, self.input)
    }

    /// The word at a place, or a text of no bytes.
    pub fn word(&self, place: usize) -> &'a str {
        match self.words.get(place) {
            Some(word) => word.as_str(),
            None => "",
        }
    }

    /// The number that is the word at a place, or 0.
    pub fn number(&self, place: usize) -> u64 {
        self.word(place).parse::<u64>().unwrap_or(0)
    }

    /// The file of contexts.
    pub fn file(&self) -> &'a [u8] {
        match self.files.get(CONTEXTS) {
            Some(file) => file.as_slice(),
            None => b"",
        }
    }

    /// The lines of the input, each with its newline.
    pub fn lines(&mut self) -> Vec<&'a [u8]> {
        let input = self.input;
        let mut lines = Vec::new(self.alloc);
        for line in input.split_inclusive(|byte| *byte == b'\n') {
            self.note(lines.push(line));
        }
        lines
    }

    /// What is written.
    pub fn text(&self) -> &str {
        self.text.as_str()
    }

    /// Notes whether there was memory.
    pub fn note<F: Drop>(&mut self, done: Result<(), F>) {
        if done.is_err() {
            self.is_short = true;
        }
    }

    /// Writes a format, for `write!` and `writeln!`.
    pub fn write_fmt<D: Display + Drop>(&mut self, text: D) {
        let done = self.text.write_fmt(text);
        self.note(done);
    }

    /// Writes a text.
    pub fn put(&mut self, text: &str) {
        let done = self.text.push_str(text);
        self.note(done);
    }

    /// Writes what was made, or the fault.
    pub fn print<T: Display + Drop, F: Display + Drop>(&mut self, made: Result<T, F>) {
        match made {
            Ok(made) => write!(self, "{made}"),
            Err(fault) => write!(self, "{fault}"),
        }
    }

    /// What was made, or none where the fault is written.
    pub fn have<T, F: Display + Drop>(&mut self, made: Result<T, F>) -> Option<T> {
        match made {
            Ok(made) => Some(made),
            Err(fault) => {
                write!(self, "{fault}");
                None
            },
        }
    }

    /// Folds what a sweep wrote, the places, each with its answer behind it, one a line: one line stays for as many places in
    /// a row as have the same answer.
    pub fn fold(&mut self) {
        let lines = mem::replace(&mut self.text, String::new(self.alloc));
        let lines = lines.as_str();
        let mut goes_on = false;
        for (line, next) in lines.split('\n').zip(lines.split('\n').skip(1)) {
            goes_on = self.fold_line(goes_on, line, next);
        }
    }

    /// Writes what stays of a line of a sweep: its place where its answer is new, and the answer where the next line has
    /// another. It answers whether the next line has the same.
    fn fold_line(&mut self, goes_on: bool, line: &str, next: &str) -> bool {
        let (place, answer) = parted(line);
        if !goes_on {
            write!(self, "{place} to ");
        }
        let (_, next_answer) = parted(next);
        if answer == next_answer {
            return true;
        }
        writeln!(self, "{place}: {answer}");
        false
    }

    /// The answer, which ends with a newline.
    pub fn into_found(mut self) -> Found {
        if !self.text.ends_with('\n') {
            self.put("\n");
        }
        Found {
            out: self.text.into_bytes(),
            err: Vec::new(self.alloc),
            status: u8::from(self.is_short),
        }
    }
}
