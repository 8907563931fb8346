//! `actrun timeline`: a record, as a picture.

ghost use Rattle.std.specs.Prelude.{◌≡◌, ◌+◌, IfOk};
ghost use Rattle.command_io.specs.Records.{GivesPrinted};
ghost use Rattle.command_io.specs.Runs.{runs_status as board_status};
ghost use Rattle.command_timeline.specs.Timeline as spec;
ghost use Rattle.command_timeline.specs.Timeline.{GivesDrawn, GivesNoted, ShowsTimeline, TimelineTells};

use board_timeline::{Track, new_track, picture, play_noted, timeline_shapes};
use command_io::error::CommandError;
use command_io::records::{load_error, stop_error};
use command_io::runs::runs_status;
use command_io::stream::{Sink, Source};
use command_io::tell::{refuse_source, tell_printed};
use flat_board::FlatBoard;
use flow_model::{CheckedPlan, Entry, Plan};
use plan_text::load_record;
use std::alloc::{AllocError, Global};

/// The plan in play after entries, and what was noted of them.
#[tactic(auto, using(command_io::proofs::Stopped::has_line))]
fn noted(
    alloc: Global,
    plan: &CheckedPlan,
    entries: &[Entry],
) -> Result<(FlatBoard, Track), CommandError>
    ensures { GivesNoted plan.now entries.now result }
{
    let mut board = FlatBoard::new(alloc, plan)?;
    let mut track = new_track(alloc, plan.plan())?;
    match play_noted(alloc, &mut board, plan.plan(), &mut track, entries) {
        Ok(()) => Ok((board, track)),
        Err((place, fault)) => Err(stop_error(place, fault)),
    }
}

/// The picture of what was noted of a record of so many lines.
fn timeline_text(
    alloc: Global,
    plan: &Plan,
    track: &Track,
    lines: u64,
) -> Result<Vec<u8>, AllocError>
    ensures { IfOk result (λ text. text.items ≡ spec.timeline_text plan.now track.now lines) }
{
    let sheet = timeline_shapes(alloc, plan, track, lines)?;
    picture(alloc, sheet.width, sheet.height, sheet.shapes.as_slice())
}

/// The status that tells how the runs of a board ended. The board is let go.
fn left_status(board: FlatBoard) -> u8
    ensures { result ≡ board_status board.board }
{
    runs_status(board.board())
}

/// The picture of a plan and entries, and the status of the board after them.
fn drawn(
    alloc: Global,
    plan: &CheckedPlan,
    entries: &[Entry],
) -> Result<(Vec<u8>, u8), CommandError>
    ensures { GivesDrawn plan.now entries.now result }
{
    let (board, track) = noted(alloc, plan, entries)?;
    let status = left_status(board);
    let lines = entries.len() as u64 + 1;
    let text = timeline_text(alloc, plan.plan(), &track, lines)?;
    Ok((text, status))
}

/// The picture of a text, and the status that goes with it.
fn text_drawn(alloc: Global, text: &[u8]) -> Result<(Vec<u8>, u8), CommandError>
    ensures { GivesPrinted ShowsTimeline text.now result }
{
    match load_record(alloc, text) {
        Ok((plan, entries)) => drawn(alloc, &plan, entries.as_slice()),
        Err(fault) => Err(load_error(fault)),
    }
}

/// Reads a record to its end, and writes a picture in SVG of how each run, job and leg stood along its lines to `out`; or it
/// writes why there is none to `err`, in one line. The answer is the exit status: of a picture 0 where all runs succeeded, 4
/// where some run is not closed, and else 1.
pub fn timeline<I: Source, O: Sink, E: Sink>(
    alloc: Global,
    input: &mut I,
    out: &mut O,
    err: &mut E,
) -> u8
    ensures { TimelineTells (I.seen input.old) (I.seen input.new)
        (O.seen out.old) (O.seen out.new) (E.seen err.old) (E.seen err.new) result }
{
    match input.read_all(alloc) {
        Ok(text) => tell_printed(text_drawn(alloc, text.as_slice()), out, err),
        Err(fault) => refuse_source(err, fault),
    }
}
