//! The sweeps over the record that is the input: what `table` tells of it after each change of one kind.
//!
//!   garbled BYTE   each byte in turn made that byte, in hexadecimal
//!   lines CHANGE   each line in turn `doubled`, `dropped`, or `swapped` with the next
//!   raised         each digit from 0 to 8 behind a colon in turn one greater
//!
//! What is told is one line: the status, then the lines of `out`, each behind `>`, and those of `err`, each behind `!`. The
//! sweep over its places stands in `debug_sweeps`.

use crate::debug_sweeps::places;
use case_reader::Page;
use case_reader::streams::{Behind, Feed, Limits, Sheet};
use command_io::bounded::{Bounded, MOST_READS};
use command_io::stream::{Input, Output};
use command_print::table::table;
use std::str;

/// No line.
const NOTHING: &[u8] = b"";

/// Does what a verb of these asks.
pub fn perform(page: &mut Page<'_>) {
    match page.word(0) {
        "garbled" => garbled(page),
        "lines" => lines(page),
        "raised" => raised(page),
        _ => places(page),
    }
}

/// Writes the lines of a text, each behind a sign.
pub fn put_lines(page: &mut Page<'_>, sign: &str, text: &[u8]) {
    for line in str::from_utf8(text).unwrap_or("(no UTF-8)").lines() {
        write!(page, " {sign} {line}");
    }
}

/// Writes what `table` tells of a record.
pub fn put_told(page: &mut Page<'_>, record: &[u8]) {
    let limits = Limits::none();
    let reader: Bounded<_, MOST_READS> = Bounded::new(Feed::new(record, limits.step, Behind::Ends));
    let mut input = Input::new(reader);
    let mut out = Output::new(Sheet::new(page.alloc, limits.step, limits.out));
    let mut err = Output::new(Sheet::new(page.alloc, limits.step, limits.err));
    let status = table(page.alloc, &mut input, &mut out, &mut err);
    write!(page, "{status}");
    put_lines(page, ">", out.into_writer().into_bytes().as_slice());
    put_lines(page, "!", err.into_writer().into_bytes().as_slice());
}

/// Writes a place of a sweep: what `table` tells of a record.
fn put_row(page: &mut Page<'_>, place: usize, record: &[u8]) {
    write!(page, "{place} ");
    put_told(page, record);
    page.put("\n");
}

/// The input with each byte in turn made that which the verb names.
fn garbled(page: &mut Page<'_>) {
    let byte = u8::from_str_radix(page.word(1), 16).unwrap_or(b'?');
    if let Some(mut text) = page.have(Vec::from_slice(page.alloc, page.input)) {
        for place in 0..text.len() {
            let whole = text[place];
            text[place] = byte;
            put_row(page, place, text.as_slice());
            text[place] = whole;
        }
    }
    page.fold();
}

/// The input with each digit behind a colon in turn raised.
fn raised(page: &mut Page<'_>) {
    if let Some(mut text) = page.have(Vec::from_slice(page.alloc, page.input)) {
        for place in 1..text.len() {
            let digit = text[place];
            if text[place - 1] == b':' && matches!(digit, b'0'..=b'8') {
                text[place] = digit.saturating_add(1);
                put_row(page, place, text.as_slice());
                text[place] = digit;
            }
        }
    }
    page.fold();
}

/// The input with each line in turn changed.
fn lines(page: &mut Page<'_>) {
    let lines = page.lines();
    for place in 0..lines.len() {
        let text = changed(page, lines.as_slice(), place);
        put_row(page, place, text.as_slice());
    }
    page.fold();
}

/// A record with its line at a place changed.
fn changed(page: &mut Page<'_>, lines: &[&[u8]], place: usize) -> Vec<u8> {
    let mut text = Vec::new(page.alloc);
    for (number, line) in lines.iter().enumerate() {
        let next = lines
            .get(number.saturating_add(1))
            .copied()
            .unwrap_or(NOTHING);
        let (first, second) = match (page.word(1), number.checked_sub(place)) {
            ("doubled", Some(0)) => (*line, *line),
            ("dropped", Some(0)) => (NOTHING, NOTHING),
            ("swapped", Some(0)) => (next, *line),
            ("swapped", Some(1)) => (NOTHING, NOTHING),
            _ => (*line, NOTHING),
        };
        page.note(text.extend_from_slice(first));
        page.note(text.extend_from_slice(second));
    }
    text
}
