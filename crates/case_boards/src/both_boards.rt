//! Records that are played on both boards of the table.
//!
//! Whatever a case plays of a record, by a command or by a verb, the record is played besides on the plain board and on the
//! flat one: on, back to the start, and on and back again without replies; then on, and every other entry without its reply. At
//! each place the text of the board and the moves that are open, and of each entry the reply with its members or the
//! refusal, have to be the same; where they differ, both are told on `err`.

ghost use Rattle.std.specs.Prelude.{◌≡◌};

use crate::plays::reported;
use case_reader::Page;
use case_reader::members::{put_members, put_moves};
use case_reader::replies::put_reply;
use flat_board::FlatBoard;
use flow_model::{Entry, Reply};
use plan_text::{board_text, load_record};
use status_table::{EventFault, PlainBoard, Reversible, Table};
use std::alloc::AllocError;

/// Plays the record that the input is, if it is one, and writes where the boards differ.
pub fn compare(page: &mut Page<'_>) {
    let Ok((plan, entries)) = load_record(page.alloc, page.input) else {
        return;
    };
    let plain = told_by(page, PlainBoard::new(page.alloc, &plan), entries.as_slice());
    let flat = told_by(page, FlatBoard::new(page.alloc, &plan), entries.as_slice());
    put_difference(page, plain.text(), flat.text());
}

/// Writes the first lines that differ of what the plain board and the flat one told.
pub fn put_difference(page: &mut Page<'_>, plain: &str, flat: &str) {
    if plain == flat {
        return;
    }
    for (line, other) in plain.split('\n').zip(flat.split('\n')) {
        if line != other {
            return put_lines(page, line, other);
        }
    }
    page.put("one board tells more than the other\n");
}

/// Writes a line of each board.
fn put_lines(page: &mut Page<'_>, plain: &str, flat: &str) {
    writeln!(page, "the plain board: {plain}");
    writeln!(page, "the flat board: {flat}");
}

/// All that a board tells of entries.
fn told_by<'a, M: Reversible>(
    page: &Page<'a>,
    made: Result<M, AllocError>,
    entries: &[Entry],
) -> Page<'a> {
    let mut told = page.scratch();
    if let Some(mut table) = told.have(made) {
        go_and_return(&mut told, &mut table, entries);
        return_unasked(&mut told, &mut table, entries);
        go(&mut told, &mut table, entries);
    }
    told
}

/// Writes what a board tells at a place: its text, and the moves that are open.
fn put_place<T: Table>(page: &mut Page<'_>, table: &T) {
    page.print(board_text(page.alloc, table.lend()));
    if let Some(moves) = page.have(table.moves()) {
        put_moves(page, moves.as_slice());
    }
}

/// Writes what comes of an entry.
fn put_answer(page: &mut Page<'_>, answer: Result<Reply, EventFault>) {
    match answer {
        Ok(reply) => {
            put_reply(page, &reply);
            put_members(page, &reply);
        },
        Err(fault) => write!(page, "refused {fault}"),
    }
    page.put("\n");
}

/// Goes over entries, and back by what takes each back.
fn go_and_return<M: Reversible>(page: &mut Page<'_>, table: &mut M, entries: &[Entry])
    ensures plan { M.plan table.new ≡ M.plan table.old }
    ensures board { M.board table.new ≡ M.board table.old }
{
    put_place(page, table);
    let [entry, others @ ..] = entries else {
        return;
    };
    let Some(entry) = reported(page, entry) else {
        return;
    };
    match table.apply_with_undo(entry) {
        Ok((reply, undo)) => {
            put_answer(page, Ok(reply));
            go_and_return(page, table, others);
            table.revert(undo);
            put_place(page, table);
        },
        Err(fault) => {
            put_answer(page, Err(fault));
            go_and_return(page, table, others);
        },
    }
}

/// Writes what comes of an entry without its reply.
fn put_done(page: &mut Page<'_>, done: Result<(), EventFault>) {
    match done {
        Ok(()) => page.put("done\n"),
        Err(fault) => writeln!(page, "refused {fault}"),
    }
}

/// Goes over entries without their replies, and back by what takes each back.
fn return_unasked<M: Reversible>(page: &mut Page<'_>, table: &mut M, entries: &[Entry])
    ensures plan { M.plan table.new ≡ M.plan table.old }
    ensures board { M.board table.new ≡ M.board table.old }
{
    let [entry, others @ ..] = entries else {
        return;
    };
    let Some(entry) = reported(page, entry) else {
        return;
    };
    match table.advance_with_undo(entry) {
        Ok(undo) => {
            put_done(page, Ok(()));
            put_place(page, table);
            return_unasked(page, table, others);
            table.revert(undo);
            put_place(page, table);
        },
        Err(fault) => {
            put_done(page, Err(fault));
            return_unasked(page, table, others);
        },
    }
}

/// Goes over entries, over every other one without its reply.
fn go<T: Table>(page: &mut Page<'_>, table: &mut T, entries: &[Entry]) {
    let mut asks = true;
    for entry in entries {
        if let Some(entry) = reported(page, entry) {
            if asks {
                let answer = table.apply(entry);
                put_answer(page, answer);
            } else {
                let done = table.advance(entry);
                put_done(page, done);
            }
            put_place(page, table);
        }
        asks = !asks;
    }
}
