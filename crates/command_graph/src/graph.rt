//! `actrun graph`: a plan or the board after a record, as a graph.

ghost use Rattle.command_io.specs.Records.{GivesPrinted, GivesPlay};
ghost use Rattle.command_graph.specs.Graph.{GivesBoard, GivesDrawn, GraphTells, ShowsGraph};

use crate::dot::{board_graph, plan_graph};
use command_io::error::{CommandError, DONE};
use command_io::records::{load_error, play_record};
use command_io::runs::runs_status;
use command_io::stream::{Sink, Source};
use command_io::tell::{refuse_source, tell_printed};
use flat_board::FlatBoard;
use flow_model::{CheckedPlan, Entry};
use plan_text::load_record;
use std::alloc::Global;

/// The plan in play after entries.
fn played(alloc: Global, plan: &CheckedPlan, entries: &[Entry]) -> Result<FlatBoard, CommandError>
    ensures { GivesPlay plan.now entries.now result }
{
    let mut board = FlatBoard::new(alloc, plan)?;
    play_record(alloc, &mut board, entries)?;
    Ok(board)
}

/// The graph of the board after entries, and the status of that board.
fn board_drawn(
    alloc: Global,
    plan: &CheckedPlan,
    entries: &[Entry],
) -> Result<(Vec<u8>, u8), CommandError>
    ensures { GivesBoard plan.now entries.now result }
{
    let play = played(alloc, plan, entries)?;
    let graph = board_graph(alloc, plan.plan(), play.board())?;
    Ok((graph, runs_status(play.board())))
}

/// The graph of a plan, alone where there are no entries.
fn drawn(
    alloc: Global,
    plan: &CheckedPlan,
    entries: &[Entry],
) -> Result<(Vec<u8>, u8), CommandError>
    ensures { GivesDrawn plan.now entries.now result }
{
    if !entries.is_empty() {
        return board_drawn(alloc, plan, entries);
    }
    Ok((plan_graph(alloc, plan.plan())?, DONE))
}

/// The graph of a text, and the status that goes with it.
fn text_drawn(alloc: Global, text: &[u8]) -> Result<(Vec<u8>, u8), CommandError>
    ensures { GivesPrinted ShowsGraph text.now result }
{
    match load_record(alloc, text) {
        Ok((plan, entries)) => drawn(alloc, &plan, entries.as_slice()),
        Err(fault) => Err(load_error(fault)),
    }
}

/// Reads a text to its end, and writes a graph in DOT to `out`: of a text of one line, which is a plan, that of the plan; of
/// a record that of the board after its entries. Or it writes why there is none to `err`, in one line. The answer is the exit
/// status: of a plan 0; of a board 0 where all runs succeeded, 4 where some run is not closed, and else 1.
pub fn graph<I: Source, O: Sink, E: Sink>(
    alloc: Global,
    input: &mut I,
    out: &mut O,
    err: &mut E,
) -> u8
    ensures { GraphTells (I.seen input.old) (I.seen input.new)
        (O.seen out.old) (O.seen out.new) (E.seen err.old) (E.seen err.new) result }
{
    match input.read_all(alloc) {
        Ok(text) => tell_printed(text_drawn(alloc, text.as_slice()), out, err),
        Err(fault) => refuse_source(err, fault),
    }
}
