//! `actrun table`: the board after a record.

ghost use Rattle.flow_model.specs.Lines.{lines_of};
ghost use Rattle.command_print.specs.Play as spec;
ghost use Rattle.command_print.specs.Play.{HasPlayed, table as board_of};
ghost use Rattle.command_print.specs.Table.{OneBoardAnswer, SomeBoardAnswer, TableTells};

use crate::play::record_played;
use command_io::error::CommandError;
use command_io::room::show_room;
use command_io::stream::{Sink, Source};
use command_io::tell::{refuse_source, tell};
use flat_board::FlatBoard;
use plan_text::board_text;
use std::alloc::Global;

/// The plan of a record in play after its lines. Its text is let go.
fn text_played(alloc: Global, text: Vec<u8>) -> Result<FlatBoard, CommandError>
    ensures { HasPlayed (board_of (lines_of text.items)) result }
{
    record_played(alloc, text.as_slice())
}

/// The text of the board after a record, whose own text is let go before that is made.
fn shown_board(alloc: Global, text: Vec<u8>) -> Result<String, CommandError>
    ensures { spec.Shows (spec.table_text text.items) result }
{
    let played = text_played(alloc, text)?;
    Ok(board_text(alloc, played.board())?)
}

/// Reads a record to its end and writes the text of the board after it to `out`; or writes why there is none to `err`,
/// in one line. The answer is the exit status.
pub fn table<I: Source, O: Sink, E: Sink>(
    alloc: Global,
    input: &mut I,
    out: &mut O,
    err: &mut E,
) -> u8
    ensures { TableTells (I.seen input.old) (I.seen input.new)
        (O.seen out.old) (O.seen out.new) (E.seen err.old) (E.seen err.new) result }
{
    show_room(alloc);
    match input.read_all(alloc) {
        Ok(text) => tell(shown_board(alloc, text), out, err),
        Err(fault) => refuse_source(err, fault),
    }
}

/// To each text of a record there is an answer, and no other.
pub fn one_board_answer()
    ensures some { SomeBoardAnswer }
    ensures one { OneBoardAnswer }
{}
