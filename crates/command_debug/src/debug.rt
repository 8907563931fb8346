//! `actrun debug`: a record under the debugger, which is asked line by line.

ghost use Rattle.std.specs.Prelude.{◌≡◌};
ghost use Rattle.flow_model.specs.Rules.{IsPlan};
ghost use Rattle.command_debug.specs.Requests.{OneRequest};
ghost use Rattle.command_debug.specs.Debug as spec;
ghost use Rattle.command_debug.specs.Debug.{DebugTells};

use crate::kept::text_kept;
use crate::session::hold;
use command_io::error::CommandError;
use command_io::records::{load_error, stop_error};
use command_io::room::show_room;
use command_io::stream::{LineSource, Sink, Source, SourceFault};
use command_io::tell::refuse;
use debugger::{DebugFault, Debugger, Entries};
use flat_board::FlatBoard;
use flow_model::CheckedPlan;
use status_table::board_laws::legal_lists_are_short;
use std::alloc::Global;

/// Why entries are not under the debugger, which refuses their record as that.
fn open_error(fault: DebugFault) -> CommandError
    requires { spec.HasOpenLine fault }
    ensures { result ≡ spec.open_error fault }
{
    match fault {
        DebugFault::BadRecord(place, refusal) => stop_error(place, refusal),
        DebugFault::AtStart
        | DebugFault::AtEnd
        | DebugFault::NoPlace
        | DebugFault::NoBreak
        | DebugFault::Memory => CommandError::Memory,
    }
}

/// Entries under the debugger, on the board of their plan on which all is new.
#[tactic(auto, using(crate::proofs::Debugged::has_open_line, crate::proofs::Debugged::stopped))]
fn entries_opened(
    alloc: Global,
    plan: CheckedPlan,
    entries: Entries,
) -> Result<Debugger<FlatBoard>, CommandError>
    requires { IsPlan plan }
    ensures { spec.GivesSession plan entries result }
{
    legal_lists_are_short();
    let start = FlatBoard::from_plan(alloc, plan)?;
    match Debugger::open_kept(alloc, start, entries) {
        Ok(debugger) => Ok(debugger),
        Err(fault) => Err(open_error(fault)),
    }
}

/// A record under the debugger. Its text is let go before its entries are played.
fn record_opened(alloc: Global, text: Vec<u8>) -> Result<Debugger<FlatBoard>, CommandError>
    ensures { spec.OpensRecord text.items result }
{
    match text_kept(alloc, text) {
        Ok((plan, entries)) => entries_opened(alloc, plan, entries),
        Err(fault) => Err(load_error(fault)),
    }
}

/// Reads a record to its end, and puts it under the debugger.
fn file_opened<R: Source>(alloc: Global, file: &mut R) -> Result<Debugger<FlatBoard>, CommandError>
    ensures { spec.OpensFile (R.seen file.old) (R.seen file.new) result }
{
    match file.read_all(alloc) {
        Ok(text) => record_opened(alloc, text),
        Err(SourceFault::Failed) => Err(CommandError::Io),
        Err(SourceFault::Memory) => Err(CommandError::Memory),
    }
}

/// Reads a record to its end; then reads the input line by line, and writes what the debugger answers to each line to `out`
/// before it waits for the next; answers to lines that lie read already are written together. Or it writes to `err`, in one
/// line, why the record is not played, before it reads of the input, or why it stopped; what was answered until then stands,
/// or, where a write fails, a beginning of it. The answer is the exit status.
pub fn debug<R: Source, I: LineSource, O: Sink, E: Sink>(
    alloc: Global,
    file: &mut R,
    input: &mut I,
    out: &mut O,
    err: &mut E,
) -> u8
    ensures { DebugTells (R.seen file.old) (R.seen file.new) (I.seen input.old) (I.seen input.new)
        (O.seen out.old) (O.seen out.new) (E.seen err.old) (E.seen err.new) result }
{
    show_room(alloc);
    match file_opened(alloc, file) {
        Ok(debugger) => hold(alloc, debugger, input, out, err),
        Err(error) => refuse(err, &error),
    }
}

/// A record and lines come to one text at most.
pub fn one_told()
    ensures { spec.OneTold }
{}

/// A line asks for one thing at most.
pub fn one_request()
    ensures { OneRequest }
{}
