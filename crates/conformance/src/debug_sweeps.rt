//! The sweep over the places of the record that the input is, under the debugger.
//!
//!   places   each place on from the start, then back again, and on once more: whether its board is that which `table` tells
//!            of the lines up to there, or why the record is not opened
//!
//! What is told of a place is whether it was reached `on` or `back`, and `as table`, or both boards where they differ. The
//! debugger goes over the plain board, and over the flat one, which have to come to the same.

use crate::record_sweeps::{put_lines, put_told};
use case_boards::put_difference;
use case_reader::Page;
use case_reader::boards::shown;
use case_reader::loads::record_in;
use debugger::{DebugFault, Debugger};
use flat_board::FlatBoard;
use flow_model::{Duplicate, Entry, Sequence};
use status_table::{PlainBoard, Reversible};
use std::alloc::AllocError;

/// Does what the verb asks.
pub fn places(page: &mut Page<'_>) {
    if let Some((plan, entries)) = record_in(page) {
        let twins = entries.copy(page.alloc);
        let plain = swept(page, PlainBoard::new(page.alloc, &plan), Ok(entries));
        let flat = swept(page, FlatBoard::new(page.alloc, &plan), twins);
        page.put(plain.text());
        put_difference(page, plain.text(), flat.text());
    }
}

/// The places to which a debugger over a board comes.
fn swept<'a, M: Reversible>(
    page: &Page<'a>,
    made: Result<M, AllocError>,
    entries: Result<Sequence<Entry>, AllocError>,
) -> Page<'a> {
    let mut swept = page.scratch();
    if let Some(table) = swept.have(made) {
        if let Some(entries) = swept.have(entries) {
            let opened = Debugger::open(page.alloc, table, entries.into_vec());
            put_places(&mut swept, opened);
        }
    }
    swept
}

/// Writes the places that a debugger comes to, or why there is none.
fn put_places<M: Reversible>(page: &mut Page<'_>, opened: Result<Debugger<M>, DebugFault>) {
    match opened {
        Ok(mut debugger) => {
            put_row(page, &debugger, "on");
            walk(page, &mut debugger);
            page.fold();
        },
        Err(DebugFault::BadRecord(entry, fault)) => write!(page, "BadRecord {entry} {fault}"),
        Err(fault) => write!(page, "{fault}"),
    }
}

/// The beginning of the input that is so many lines.
fn first_lines<'a>(page: &mut Page<'a>, count: usize) -> &'a [u8] {
    let mut length = 0usize;
    for line in page.lines().iter().take(count) {
        length = length.saturating_add(line.len());
    }
    page.input.get(..length).unwrap_or(page.input)
}

/// Writes a place of the sweep: whether its board is that of `table`.
fn put_row<M: Reversible>(page: &mut Page<'_>, debugger: &Debugger<M>, way: &str) {
    let place = debugger.place();
    let board = shown(page, debugger.board());
    let mut told = page.scratch();
    told.put("0");
    put_lines(&mut told, ">", board.text().as_bytes());
    let mut wanted = page.scratch();
    put_told(&mut wanted, first_lines(page, place.saturating_add(1)));
    write!(page, "{place} {way}, ");
    if told.text() == wanted.text() {
        page.put("as table\n");
    } else {
        writeln!(page, "{} and not {}", told.text(), wanted.text());
    }
}

/// Goes through all places, on, back and on.
fn walk<M: Reversible>(page: &mut Page<'_>, debugger: &mut Debugger<M>) {
    go_on(page, debugger);
    for _ in 0..debugger.last_place() {
        let is_done = debugger.back().is_ok();
        put_row(page, debugger, if is_done { "back" } else { "no back" });
    }
    go_on(page, debugger);
}

/// Goes on through all places.
fn go_on<M: Reversible>(page: &mut Page<'_>, debugger: &mut Debugger<M>) {
    for _ in 0..debugger.last_place() {
        let is_done = debugger.step().is_ok();
        put_row(page, debugger, if is_done { "on" } else { "no step" });
    }
}
