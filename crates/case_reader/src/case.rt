//! The cases of a file: their marks are read, and where what came of one is not what it wants, that is told.

use crate::asked::{Asked, CONTEXTS, Files, Found, Spoiled};
use crate::page::parted;
use crate::streams::{Behind, Limits};
use std::alloc::{AllocError, Global};
use std::collections::BTreeMap;
use std::io::Write;
use std::{io, str};

/// How many cases agree, and how many differ.
#[derive(Clone, Copy)]
pub struct Told {
    pub agree: u64,
    pub differ: u64,
}

impl Told {
    /// One case more.
    fn count(&mut self, agrees: bool) {
        if agrees {
            self.agree = self.agree.saturating_add(1);
        } else {
            self.differ = self.differ.saturating_add(1);
        }
    }
}

/// What the text of a line is.
#[derive(Clone, Copy)]
enum LineKind {
    Prose,
    Name,
    Words,
    Verb,
    File,
    FileName,
    Input,
    Out,
    Err,
    Status,
    Named,
}

/// What a mark begins, and whether its text is a line.
fn kind_of(mark: &str) -> (LineKind, bool) {
    match mark {
        "#" => (LineKind::Name, false),
        "$" => (LineKind::Words, false),
        "?" => (LineKind::Verb, false),
        "|" => (LineKind::File, true),
        "/" => (LineKind::FileName, false),
        "<" => (LineKind::Input, true),
        ">" => (LineKind::Out, true),
        "!" => (LineKind::Err, true),
        "=" => (LineKind::Status, false),
        ":" => (LineKind::Named, false),
        _ => (LineKind::Prose, false),
    }
}

/// A case as it is read.
#[derive(Drop)]
pub struct Case {
    name: Vec<u8>,
    /// The words, of which the first names the program, or none.
    words: Vec<String>,
    /// Whether the words are those of a verb.
    is_verb: bool,
    files: Files,
    /// The name of the file whose lines are read, and whether what it has is of an earlier case.
    file_name: String,
    is_file_old: bool,
    input: Vec<u8>,
    out: Vec<u8>,
    err: Vec<u8>,
    status: u8,
    limits: Limits,
    /// The name of the file whose reader never ends, or of none.
    endless: String,
    texts: Files,
    /// The text of the line that is being read, what it is, and what stands behind the place of an edit.
    kind: LineKind,
    text: Vec<u8>,
    behind: Vec<u8>,
    /// Whether a newline ends it.
    is_ended: bool,
}

/// Adds the text of that name.
fn add_named(text: &mut Vec<u8>, texts: &Files, name: &str) -> Result<(), AllocError> {
    match texts.get(name) {
        Some(named) => text.extend_from_slice(named.as_slice()),
        None => text.extend_from_slice(b"(no such text)"),
    }
}

/// Adds a part so many times, one by one.
fn add_each(text: &mut Vec<u8>, part: &[u8], count: u32) -> Result<(), AllocError> {
    for _ in 0..count {
        text.extend_from_slice(part)?;
    }
    Ok(())
}

/// Adds a part so many times: if they are many in blocks, since an unproved program takes its time for each call.
fn add_times(
    alloc: Global,
    text: &mut Vec<u8>,
    part: &[u8],
    count: &str,
) -> Result<(), AllocError> {
    let count = count.parse::<u32>().unwrap_or(0);
    if count < 1024 {
        return add_each(text, part, count);
    }
    let block = part.repeat(alloc, 1024)?;
    add_each(text, block.as_slice(), count / 1024)?;
    add_each(text, part, count % 1024)
}

/// Adds the bytes that hexadecimal words name, each as often as stands behind its star.
fn add_bytes(alloc: Global, text: &mut Vec<u8>, line: &str) -> Result<(), AllocError> {
    for word in line.split_whitespace() {
        let (byte, count) = word.split_once('*').unwrap_or((word, "1"));
        let byte = u8::from_str_radix(byte, 16).unwrap_or(b'?');
        add_times(alloc, text, &[byte], count)?;
    }
    Ok(())
}

/// Keeps a text by its name, in the place of what had the name.
fn keep(files: &mut Files, alloc: Global, name: &str, text: &[u8]) -> Result<(), AllocError> {
    let text = Vec::from_slice(alloc, text)?;
    let name = String::from_str(alloc, name)?;
    drop(files.insert(name, text)?);
    Ok(())
}

/// Begins the file of a name anew, which is the name from now on.
fn begin_file(
    files: &mut Files,
    alloc: Global,
    file_name: &mut String,
    name: &str,
) -> Result<(), AllocError> {
    file_name.clear();
    file_name.push_str(name)?;
    keep(files, alloc, name, b"")
}

/// Adds a word.
fn add_word(words: &mut Vec<String>, alloc: Global, word: &str) -> Result<(), AllocError> {
    let word = String::from_str(alloc, word)?;
    Ok(words.push(word)?)
}

/// Adds the words of a line: the first line is parted at its spaces, a further one is one word.
fn add_words(words: &mut Vec<String>, alloc: Global, line: &str) -> Result<(), AllocError> {
    if !words.is_empty() {
        return add_word(words, alloc, line);
    }
    add_word(words, alloc, "actrun")?;
    for word in line.split(' ') {
        if !word.is_empty() {
            add_word(words, alloc, word)?;
        }
    }
    Ok(())
}

impl Case {
    /// A case of which nothing is known but an empty file of contexts.
    pub fn new(alloc: Global) -> Result<Case, AllocError> {
        let mut case = Case::empty(alloc);
        case.begin()?;
        keep(&mut case.files, alloc, CONTEXTS, b"")?;
        Ok(case)
    }

    /// A case of which nothing is known.
    fn empty(alloc: Global) -> Case {
        Case {
            name: Vec::new(alloc),
            words: Vec::new(alloc),
            is_verb: false,
            files: BTreeMap::new(alloc),
            file_name: String::new(alloc),
            is_file_old: true,
            input: Vec::new(alloc),
            out: Vec::new(alloc),
            err: Vec::new(alloc),
            status: 0,
            limits: Limits::none(),
            endless: String::new(alloc),
            texts: BTreeMap::new(alloc),
            kind: LineKind::Prose,
            text: Vec::new(alloc),
            behind: Vec::new(alloc),
            is_ended: false,
        }
    }

    /// Forgets all but the name, the files and the named texts.
    pub fn begin(&mut self) -> Result<(), AllocError> {
        self.words.clear();
        self.is_verb = false;
        self.file_name.clear();
        self.is_file_old = true;
        self.input.clear();
        self.out.clear();
        self.err.clear();
        self.status = 0;
        self.limits = Limits::none();
        self.endless.clear();
        self.file_name.push_str(CONTEXTS)
    }

    /// Ends the case, and answers whether something is asked or wanted.
    pub fn end(&mut self, alloc: Global) -> Result<bool, AllocError> {
        self.start(alloc, "", "")?;
        Ok(self.is_asked())
    }

    /// Whether something is asked or wanted.
    fn is_asked(&self) -> bool {
        !self.words.is_empty() || !self.out.is_empty() || !self.err.is_empty() || self.status != 0
    }

    /// Takes the text for what it is.
    fn take_text(&mut self, alloc: Global) -> Result<(), AllocError> {
        let text = self.text.as_slice();
        let line = str::from_utf8(text).unwrap_or("");
        match self.kind {
            LineKind::Prose => Ok(()),
            LineKind::Name => {
                self.name.clear();
                self.name.extend_from_slice(text)
            },
            LineKind::Words => add_words(&mut self.words, alloc, line),
            LineKind::Verb => {
                self.is_verb = true;
                add_words(&mut self.words, alloc, line)
            },
            LineKind::File => self.take_file_line(alloc),
            LineKind::FileName => self.take_file_name(alloc),
            LineKind::Input => self.input.extend_from_slice(text),
            LineKind::Out => self.out.extend_from_slice(text),
            LineKind::Err => self.err.extend_from_slice(text),
            LineKind::Status => {
                self.status = line.parse::<u8>().unwrap_or(u8::MAX);
                Ok(())
            },
            LineKind::Named => {
                let (name, named) = parted(line);
                keep(&mut self.texts, alloc, name, named.as_bytes())
            },
        }
    }

    /// Takes the text as a line of a file, which begins anew where it is of an earlier case.
    fn take_file_line(&mut self, alloc: Global) -> Result<(), AllocError> {
        let name = self.file_name.as_str();
        if self.is_file_old {
            keep(&mut self.files, alloc, name, b"")?;
        }
        self.is_file_old = false;
        match self.files.get_mut(name) {
            Some(file) => file.extend_from_slice(self.text.as_slice()),
            None => Ok(()),
        }
    }

    /// Takes the text as the name of a file, which begins anew.
    fn take_file_name(&mut self, alloc: Global) -> Result<(), AllocError> {
        let name = str::from_utf8(self.text.as_slice()).unwrap_or("");
        self.is_file_old = false;
        begin_file(&mut self.files, alloc, &mut self.file_name, name)
    }

    /// Takes the text that was read, and begins another.
    fn start(&mut self, alloc: Global, mark: &str, text: &str) -> Result<(), AllocError> {
        self.text.extend_from_slice(self.behind.as_slice())?;
        self.behind.clear();
        if self.is_ended {
            self.text.push(b'\n')?;
        }
        self.take_text(alloc)?;
        self.text.clear();
        let (kind, is_ended) = kind_of(mark);
        self.kind = kind;
        self.is_ended = is_ended;
        self.text.extend_from_slice(text.as_bytes())
    }

    /// Takes the first such part out of the text; what follows stands in its place.
    fn cut(&mut self, part: &str) -> Result<(), AllocError> {
        self.text.extend_from_slice(self.behind.as_slice())?;
        self.behind.clear();
        let text = str::from_utf8(self.text.as_slice()).unwrap_or("");
        let Some((front, back)) = text.split_once(part) else {
            self.text.clear();
            return self.text.extend_from_slice(b"(no such part)");
        };
        let length = front.len();
        self.behind.extend_from_slice(back.as_bytes())?;
        self.text.truncate(length);
        Ok(())
    }

    /// Takes the named texts as lines of the input.
    fn take_named(&mut self, alloc: Global, names: &str) -> Result<(), AllocError> {
        for name in names.split_whitespace() {
            self.start(alloc, "<", "")?;
            add_named(&mut self.text, &self.texts, name)?;
        }
        Ok(())
    }

    /// Takes a limit.
    fn limit(&mut self, text: &str) -> Result<(), AllocError> {
        let (what, word) = parted(text);
        let number = word.parse::<usize>().unwrap_or(usize::MAX);
        match what {
            "words" => self.limits.words_fail = true,
            "in" => self.limits.read_fails = true,
            "endless" => return self.endless.push_str(word),
            "few" => self.limits.few_reads = true,
            "out" => self.limits.out = number,
            "err" => self.limits.err = number,
            "step" => self.limits.step = number,
            _ => {},
        }
        Ok(())
    }

    /// Reads a line of a file of cases, which is not empty.
    pub fn read_line(&mut self, alloc: Global, line: &str) -> Result<(), AllocError> {
        let (mark, text) = parted(line);
        match mark {
            "+" => self.text.extend_from_slice(text.as_bytes()),
            "&" => add_named(&mut self.text, &self.texts, text),
            "*" => {
                let (count, part) = parted(text);
                add_times(alloc, &mut self.text, part.as_bytes(), count)
            },
            "@" => add_bytes(alloc, &mut self.text, text),
            "-" => self.cut(text),
            "~" => self.take_named(alloc, text),
            "\\" => {
                self.is_ended = false;
                Ok(())
            },
            "%" => self.limit(text),
            _ => self.start(alloc, mark, text),
        }
    }

    /// What the case asks for.
    pub fn asked(&self) -> Asked<'_> {
        Asked {
            is_verb: self.is_verb,
            words: self.words.as_slice(),
            files: &self.files,
            input: self.input.as_slice(),
            limits: self.limits,
            spoiled: Spoiled {
                name: self.endless.as_str(),
                length: usize::MAX,
                behind: Behind::GoesOn,
            },
        }
    }

    /// Counts the case, of which this came, and tells where it differs.
    pub fn judge<O: Write>(&self, found: &Found, told: &mut Told, out: &mut O) -> io::Result<()> {
        let agrees = self.agrees(found);
        told.count(agrees);
        if agrees {
            return Ok(());
        }
        self.tell(found, out)
    }

    /// Whether this is what is wanted.
    fn agrees(&self, found: &Found) -> bool {
        found.out.as_slice() == self.out.as_slice()
            && found.err.as_slice() == self.err.as_slice()
            && found.status == self.status
    }

    /// Tells what was wanted and what was found.
    fn tell<O: Write>(&self, found: &Found, out: &mut O) -> io::Result<()> {
        out.write_all(b"differs: ")?;
        out.write_all(self.name.as_slice())?;
        for word in self.words.as_slice() {
            write!(out, "\n  {word}")?;
        }
        writeln!(out, "\nwanted, status {}:", self.status)?;
        write_both(out, self.out.as_slice(), self.err.as_slice())?;
        writeln!(out, "found, status {}:", found.status)?;
        write_both(out, found.out.as_slice(), found.err.as_slice())?;
        writeln!(out)
    }
}

/// Writes what is on both writers of a case.
fn write_both<O: Write>(out: &mut O, first: &[u8], second: &[u8]) -> io::Result<()> {
    out.write_all(first)?;
    out.write_all(second)
}
