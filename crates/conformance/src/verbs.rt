//! What a case asks for: a command, by the words of the command line, or a verb.

use crate::{command_sweeps, program_calls, record_sweeps};
use case_boards::compare;
use case_reader::streams::{Feed, Sheet};
use case_reader::{Asked, Found, Page};
use command_io::bounded::{Bounded, MOST_READS};
use command_io::error::FAILED;
use command_io::stream::{Input, Output};
use command_run::machine::Machine;
use command_words::folder::Folder;
use command_words::words;
use command_words::words::Streams;
use std::alloc::Global;
use std::io;
use std::io::{BufReader, ErrorKind};
use std::sync::Wait;
use std::thread::Threads;

/// The folder of a case, and where its programs run. A reader is given up after so many reads.
#[derive(Drop)]
struct Shelf<'a, R, const MOST: u64> {
    asked: &'a Asked<'a>,
    rt: &'a R,
}

impl<'a, R: Machine + Threads + Wait + Sync, const MOST: u64> Folder for Shelf<'a, R, MOST> {
    type File = Input<Bounded<Feed<'a>, MOST>>;

    type Machine = R;

    fn open(&self, name: &str) -> Option<Input<Bounded<Feed<'a>, MOST>>> {
        let Asked {
            files,
            limits,
            spoiled,
            ..
        } = *self.asked;
        match files.get(name) {
            Some(file) => {
                let feed = spoiled.feed(name, file.as_slice(), limits);
                Some(Input::new(Bounded::new(feed)))
            },
            None => None,
        }
    }

    fn machine(&self) -> &R {
        self.rt
    }
}

/// The record that is played, if one is.
fn record_of<'a>(asked: &Asked<'a>) -> &'a [u8] {
    let mut words = asked.words.iter().skip(1);
    let command = words.next().map(String::as_str).unwrap_or("");
    let file = words.next().map(String::as_str).unwrap_or("");
    match command {
        "table" | "apply" | "insist" | "replies" | "run" | "moves" | "places" | "settled" => {
            asked.input
        },
        "debug" | "replay" => match asked.files.get(file) {
            Some(file) => file.as_slice(),
            None => b"",
        },
        _ => b"",
    }
}

/// Does what is asked, and tells on `err` where the record that is played comes to two things on the two boards.
pub fn perform<R: Machine + Threads + Wait + Sync>(
    rt: &R,
    alloc: Global,
    asked: &Asked<'_>,
) -> Found {
    let mut found = answered(rt, alloc, asked);
    let words = asked.words.get(1..).unwrap_or(&[]);
    let mut page = Page::new(alloc, words, asked.files, record_of(asked));
    compare(&mut page);
    if found.err.extend_from_slice(page.text().as_bytes()).is_err() {
        found.status = FAILED;
    }
    found
}

/// Does what is asked. A verb writes its answer to `out`, faults too; its status is 0.
fn answered<R: Machine + Threads + Wait + Sync>(rt: &R, alloc: Global, asked: &Asked<'_>) -> Found {
    if !asked.is_verb {
        return run(rt, alloc, asked);
    }
    let words = asked.words.get(1..).unwrap_or(&[]);
    let mut page = Page::new(alloc, words, asked.files, asked.input);
    match page.word(0) {
        "program" => program_calls::program(rt, &mut page),
        "cut" | "ends" | "broken" | "writers" | "kept" => command_sweeps::perform(rt, &mut page),
        "garbled" | "lines" | "raised" | "places" => record_sweeps::perform(&mut page),
        _ => answer(rt, &mut page),
    }
    page.into_found()
}

/// Does what a verb of the libraries asks.
fn answer<R: Threads + Wait + Sync>(rt: &R, page: &mut Page<'_>) {
    let is_known = case_workflows::perform(page)
        || case_reader::perform(page)
        || case_boards::perform(page)
        || case_hosts::perform(rt, page);
    if !is_known {
        page.put("no such verb");
    }
}

/// Runs the command that the words ask for, or none where they are no UTF-8.
pub fn run<R: Machine + Threads + Wait + Sync>(rt: &R, alloc: Global, asked: &Asked<'_>) -> Found {
    if asked.limits.few_reads {
        return run_within::<R, 5>(rt, alloc, asked);
    }
    run_within::<R, MOST_READS>(rt, alloc, asked)
}

/// Runs a command by its words, where a reader is given up after so many reads.
fn run_within<R: Machine + Threads + Wait + Sync, const MOST: u64>(
    rt: &R,
    alloc: Global,
    asked: &Asked<'_>,
) -> Found {
    let limits = asked.limits;
    let folder: Shelf<'_, R, MOST> = Shelf { asked, rt };
    let reader: Bounded<_, MOST> = Bounded::new(asked.spoiled.feed("-", asked.input, limits));
    let Ok(reader) = BufReader::new(alloc, reader) else {
        return Found {
            out: Vec::new(alloc),
            err: Vec::new(alloc),
            status: FAILED,
        };
    };
    let mut streams = Streams {
        input: Input::new(reader),
        out: Output::new(Sheet::new(alloc, limits.step, limits.out)),
        err: Output::new(Sheet::new(alloc, limits.step, limits.err)),
    };
    let status = if limits.words_fail {
        let line = Err(io::Error::from(ErrorKind::InvalidData));
        words::run_line(alloc, line, &folder, &mut streams)
    } else {
        words::run(alloc, asked.words, &folder, &mut streams)
    };
    let Streams { out, err, .. } = streams;
    Found {
        out: out.into_writer().into_bytes(),
        err: err.into_writer().into_bytes(),
        status,
    }
}
