//! `actrun replay`: the board after a record, which is played again.

ghost use Rattle.std.specs.Prelude.{◌≡◌, ◌++◌, OnOk, string_bytes};
ghost use Rattle.flow_model.specs.Rules.{IsPlan};
ghost use Rattle.command_io.specs.Records.{GivesPrinted};
ghost use Rattle.command_print.specs.Replay.{GivesBoard, GivesBoth, GivesBothOf, ReplayTells, SettledTells, ShowsReplay, ShowsSettled, settled_line};

use crate::looked::record_looked;
use board_settled::replay_record;
use command_io::error::CommandError;
use command_io::records::{load_error, stop_error};
use command_io::room::show_room;
use command_io::runs::runs_status;
use command_io::stream::{Sink, Source};
use command_io::tell::{refuse_source, tell_printed};
use flat_board::FlatBoard;
use flow_model::{CheckedPlan, Entry};
use plan_text::{board_text, load_record};
use status_table::board_laws::legal_lists_are_short;
use std::alloc::{AllocError, Global};
use step_host::PlayBoard;

/// The plan of a record in play after its entries. Its text is let go.
fn replayed(alloc: Global, text: Vec<u8>) -> Result<FlatBoard, CommandError>
    ensures { GivesBoard text.items result }
{
    record_looked(alloc, text.as_slice())
}

/// The text of the board after a record, and the exit status that tells how its runs ended.
fn shown_replay(alloc: Global, text: Vec<u8>) -> Result<(Vec<u8>, u8), CommandError>
    ensures { GivesPrinted ShowsReplay text.items result }
{
    let play = replayed(alloc, text)?;
    let shown = board_text(alloc, play.board())?;
    Ok((shown.into_bytes(), runs_status(play.board())))
}

/// The board after entries, and whether it is all of what is settled; or which entry is refused.
#[tactic(auto, using(crate::proofs::Settled::has_settled_line, crate::proofs::Settled::stopped_settled))]
fn checked(
    alloc: Global,
    plan: &CheckedPlan,
    entries: &[Entry],
) -> Result<(PlayBoard, bool), CommandError>
    requires { IsPlan plan.now }
    ensures { GivesBoth plan.now entries.now result }
{
    legal_lists_are_short();
    match replay_record(alloc, plan, entries) {
        Ok(both) => Ok(both),
        Err((place, fault)) => Err(stop_error(place, fault)),
    }
}

/// The board after the entries of a record, and whether it is all of what is settled.
fn replayed_and_checked(alloc: Global, text: &[u8]) -> Result<(PlayBoard, bool), CommandError>
    ensures { GivesBothOf text.now result }
{
    match load_record(alloc, text) {
        Ok((plan, entries)) => checked(alloc, &plan, entries.as_slice()),
        Err(fault) => Err(load_error(fault)),
    }
}

/// Adds the line that tells whether a board is settled.
fn add_settled(shown: &mut String, yes: bool) -> Result<(), AllocError>
    ensures { OnOk result (string_bytes shown.new ≡ string_bytes shown.old ++ settled_line yes) }
{
    shown.push_str(if yes { "settled yes\n" } else { "settled no\n" })
}

/// The text of the board after a record and whether it is settled, with the exit status that tells how its runs ended.
fn shown_settled(alloc: Global, text: &[u8]) -> Result<(Vec<u8>, u8), CommandError>
    ensures { GivesPrinted ShowsSettled text.now result }
{
    let (play, yes) = replayed_and_checked(alloc, text)?;
    let mut shown = board_text(alloc, play.board())?;
    add_settled(&mut shown, yes)?;
    Ok((shown.into_bytes(), runs_status(play.board())))
}

/// Reads a record to its end, plays its entries again, each call answered as the record answers it, and writes the text of
/// the board after them to `out`; or writes why there is none to `err`, in one line. The answer is the exit status: of a
/// board 0 where all runs succeeded, 4 where some run is not closed, and else 1.
pub fn replay<I: Source, O: Sink, E: Sink>(
    alloc: Global,
    input: &mut I,
    out: &mut O,
    err: &mut E,
) -> u8
    ensures { ReplayTells (I.seen input.old) (I.seen input.new)
        (O.seen out.old) (O.seen out.new) (E.seen err.old) (E.seen err.new) result }
{
    show_room(alloc);
    match input.read_all(alloc) {
        Ok(text) => tell_printed(shown_replay(alloc, text), out, err),
        Err(fault) => refuse_source(err, fault),
    }
}

/// As `replay`, but after the board one line more tells whether it is all of what its plan comes to whatever the order of
/// events, by the answers of the record: `settled yes` or `settled no`.
pub fn replay_settled<I: Source, O: Sink, E: Sink>(
    alloc: Global,
    input: &mut I,
    out: &mut O,
    err: &mut E,
) -> u8
    ensures { SettledTells (I.seen input.old) (I.seen input.new)
        (O.seen out.old) (O.seen out.new) (E.seen err.old) (E.seen err.new) result }
{
    match input.read_all(alloc) {
        Ok(text) => tell_printed(shown_settled(alloc, text.as_slice()), out, err),
        Err(fault) => refuse_source(err, fault),
    }
}
