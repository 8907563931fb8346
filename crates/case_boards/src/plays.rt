//! The verbs of records that are played: the replies to their entries, the board after them, and the moves that are open then.
//!
//!   apply [WORKER]  the reply to each entry of the record, reported by that worker, and the board after them
//!   insist BOARD CALL  the same on the board, `plain` or `flat`, by the call, `apply` or `undo` (`apply_with_undo`), where an
//!                   entry that is refused for want of memory is played again
//!   replies         the same with the members that each reply names
//!   run             how far the record can be played, and a copy of the board after it
//!   moves           the moves that are open after the entries of the record, one a line, or `none`
//!
//! A reply is followed by `, admitted MEMBER`, `, displaced MEMBER` and `, stopped MEMBER`, where it names one and members
//! are told. A refusal that changes the board is told as such.

use crate::group_calls;
use case_reader::Page;
use case_reader::boards::{put_board, shown};
use case_reader::loads::record_in;
use case_reader::members::{put_members, put_moves};
use case_reader::replies::put_reply;
use flat_board::FlatBoard;
use flow_model::{CheckedPlan, Duplicate, Entry, Reply, Sequence};
use status_table::{EventFault, PlainBoard, Reversible, Table, run_entries};
use std::alloc::AllocError;

/// Does what a verb of these asks, and answers whether it is one.
pub fn perform(page: &mut Page<'_>) -> bool {
    match page.word(0) {
        "apply" | "replies" => apply(page),
        "insist" => insist(page),
        "run" => run(page),
        "moves" => moves(page),
        "groups" => group_calls::groups(page),
        _ => return false,
    }
    true
}

/// The entries of the record that the input is, and a table for its plan.
fn tabled(page: &mut Page<'_>) -> Option<(PlainBoard, Sequence<Entry>)> {
    let (plan, entries) = record_in(page)?;
    let table = page.have(PlainBoard::new(page.alloc, &plan))?;
    Some((table, entries))
}

/// A copy of an entry, reported by the worker that the verb names.
pub fn reported(page: &mut Page<'_>, entry: &Entry) -> Option<Entry> {
    let worker = page.word(1).parse::<u8>().unwrap_or(entry.worker);
    let event = page.have(entry.event.copy(page.alloc))?;
    Some(Entry { worker, event })
}

/// The replies to entries, one a line, and the board after them.
fn apply(page: &mut Page<'_>) {
    if let Some((mut table, entries)) = tabled(page) {
        for entry in entries.as_slice() {
            play(page, &mut table, entry);
        }
        put_board(page, table.view());
    }
}

/// The replies to entries and the board after them, on the board that the verb names. An entry is played again where there
/// was no memory for it.
fn insist(page: &mut Page<'_>) {
    if let Some((plan, entries)) = record_in(page) {
        if page.word(1) == "flat" {
            let made = FlatBoard::new(page.alloc, &plan);
            insist_on(page, made, entries.as_slice());
        } else {
            let made = PlainBoard::new(page.alloc, &plan);
            insist_on(page, made, entries.as_slice());
        }
    }
}

/// The replies to entries and the board after them, on a board that was made.
fn insist_on<M: Reversible>(page: &mut Page<'_>, made: Result<M, AllocError>, entries: &[Entry]) {
    if let Some(mut table) = page.have(made) {
        for entry in entries {
            if !play(page, &mut table, entry) {
                play(page, &mut table, entry);
            }
        }
        put_board(page, table.view());
    }
}

/// What comes of an entry, by the call that the verb names.
fn answer_to<M: Reversible>(
    page: &Page<'_>,
    table: &mut M,
    entry: Entry,
) -> Result<Reply, EventFault> {
    if page.word(2) == "undo" {
        let (reply, _undo) = table.apply_with_undo(entry)?;
        return Ok(reply);
    }
    table.apply(entry)
}

/// Plays a copy of an entry and writes the reply. It answers whether there was memory.
fn play<M: Reversible>(page: &mut Page<'_>, table: &mut M, entry: &Entry) -> bool {
    let before = shown(page, table.view());
    let Some(entry) = reported(page, entry) else {
        return false;
    };
    match answer_to(page, table, entry) {
        Ok(reply) => {
            put_reply(page, &reply);
            if page.word(0) == "replies" {
                put_members(page, &reply);
            }
            page.put("\n");
            true
        },
        Err(fault) => {
            write!(page, "refused {fault}");
            if shown(page, table.view()).text() != before.text() {
                page.put(", and the board is changed");
            }
            page.put("\n");
            !fault.is_memory()
        },
    }
}

/// How far entries can be played, and the board after them.
fn run(page: &mut Page<'_>) {
    if let Some((mut table, entries)) = tabled(page) {
        match run_entries(page.alloc, &mut table, entries.as_slice()) {
            Ok(()) => page.put("played\n"),
            Err((place, fault)) => writeln!(page, "refused entry {place} {fault}"),
        }
        put_board(page, table.view());
    }
}

/// The board that `run_entries` makes of a history, or the entry at which it stops.
pub fn run_again<'a>(page: &Page<'a>, plan: &CheckedPlan, history: &[Entry]) -> Page<'a> {
    let mut shown = page.scratch();
    if let Some(mut table) = shown.have(PlainBoard::new(page.alloc, plan)) {
        match run_entries(page.alloc, &mut table, history) {
            Ok(()) => put_board(&mut shown, table.view()),
            Err((place, fault)) => write!(&mut shown, "{place} {fault}"),
        }
    }
    shown
}

/// The moves after entries, all of which are played that can be.
fn moves(page: &mut Page<'_>) {
    if let Some((mut table, entries)) = tabled(page) {
        for entry in entries.as_slice() {
            if let Some(entry) = reported(page, entry) {
                drop(table.apply(entry));
            }
        }
        if let Some(moves) = page.have(table.moves()) {
            put_moves(page, moves.as_slice());
        }
    }
}
