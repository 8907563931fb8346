//! The sweeps over commands: what one leaves of each beginning of a file, and where a reader or a writer fails at each place.
//!
//!   cut FILE COMMAND..       the file's first 0 bytes, 1, and so on, to its end; `-` is the input
//!   ends FILE COMMAND..      likewise, where `told` stands for what is on `out`
//!   broken FILE COMMAND..    as `ends`, where the reader of the file fails behind the bytes
//!   writers STEP COMMAND..   `out` takes so many bytes a call, and fails after 0 calls, 1, and so on, until all is written
//!   kept STEP                the same of the record that the input is, as `run` writes it
//!
//! What is told is one line: the status, then the lines of `out`, each behind `>`, and those of `err`, each behind `!`. Of `out` the
//! last two tell `part`, a beginning of what is written without a limit, or `whole`.

use crate::record_sweeps::put_lines;
use crate::verbs::run;
use case_reader::loads::record_in;
use case_reader::streams::{Behind, Limits, Sheet};
use case_reader::{Asked, Found, Page, Spoiled};
use command_io::stream::{Output, Sink};
use command_run::machine::Machine;
use command_run::record_file::text_of_record;
use std::sync::Wait;
use std::thread::Threads;

/// Does what a verb of these asks.
pub fn perform<R: Machine + Threads + Wait + Sync>(rt: &R, page: &mut Page<'_>) {
    match page.word(0) {
        "cut" | "ends" => ends(rt, page, Behind::Ends),
        "broken" => ends(rt, page, Behind::Fails),
        "writers" => writers(rt, page),
        _ => kept(page),
    }
    page.fold();
}

/// The command that the words of a verb name behind its first two, of which the second stands for the program's name.
fn asked_of<'a>(page: &Page<'a>) -> Asked<'a> {
    Asked {
        is_verb: false,
        words: page.words.get(1..).unwrap_or(&[]),
        files: page.files,
        input: page.input,
        limits: Limits::none(),
        spoiled: Spoiled::none(),
    }
}

/// The length of a file.
fn length_of(page: &Page<'_>, name: &str) -> usize {
    if name == "-" {
        return page.input.len();
    }
    match page.files.get(name) {
        Some(file) => file.len(),
        None => 0,
    }
}

/// Writes what came of a command: whether something stands on `out`, or what.
fn put_found(page: &mut Page<'_>, found: &Found) {
    write!(page, "{}", found.status);
    if page.word(0) == "cut" {
        put_lines(page, ">", found.out.as_slice());
    } else if !found.out.is_empty() {
        page.put(" told");
    }
    put_lines(page, "!", found.err.as_slice());
    page.put("\n");
}

/// Each beginning of a file.
fn ends<R: Machine + Threads + Wait + Sync>(rt: &R, page: &mut Page<'_>, behind: Behind) {
    let name = page.word(1);
    let mut asked = asked_of(page);
    for length in 0..=length_of(page, name) {
        asked.spoiled = Spoiled {
            name,
            length,
            behind,
        };
        let found = run(rt, page.alloc, &asked);
        write!(page, "{length} ");
        put_found(page, &found);
    }
}

/// How much of a text was written.
fn share_of(written: &[u8], whole: &[u8]) -> &'static str {
    if written == whole {
        return "whole";
    }
    if whole.starts_with(written) {
        return "part";
    }
    "other"
}

/// Writes what came of a writer that fails after so many calls.
fn put_share(page: &mut Page<'_>, calls: usize, found: &Found, whole: &[u8]) {
    let share = share_of(found.out.as_slice(), whole);
    write!(page, "{calls} {} {share}", found.status);
    put_lines(page, "!", found.err.as_slice());
    page.put("\n");
}

/// A writer of a command that fails after each number of calls.
fn writers<R: Machine + Threads + Wait + Sync>(rt: &R, page: &mut Page<'_>) {
    let step = page.number(1) as usize;
    let mut asked = asked_of(page);
    let whole = run(rt, page.alloc, &asked).out;
    asked.limits.step = step;
    for calls in 0..=whole.len() {
        asked.limits.out = calls.saturating_mul(step);
        let found = run(rt, page.alloc, &asked);
        put_share(page, calls, &found, whole.as_slice());
        if asked.limits.out >= whole.len() {
            return;
        }
    }
}

/// A writer of a record that fails after each number of calls.
fn kept(page: &mut Page<'_>) {
    let step = page.number(1) as usize;
    let whole = page.input;
    let Some((plan, entries)) = record_in(page) else {
        return;
    };
    let Some(text) = page.have(text_of_record(page.alloc, &plan, entries.as_slice())) else {
        return;
    };
    for calls in 0..=whole.len() {
        let room = calls.saturating_mul(step);
        let mut sheet = Output::new(Sheet::new(page.alloc, step, room));
        let written = sheet.put(text.as_bytes());
        let found = Found {
            out: sheet.into_writer().into_bytes(),
            err: Vec::new(page.alloc),
            status: u8::from(!written),
        };
        put_share(page, calls, &found, whole);
        if room >= whole.len() {
            return;
        }
    }
}
