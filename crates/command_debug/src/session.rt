//! A session: the input is read line by line, and each line is answered before the next is waited for.
//!
//! Where further lines lie read already, answers are gathered and written together.

ghost use Rattle.std.specs.Prelude.{◌≡◌, ◌<◌, true, false, [], IfOk, OnOk};
ghost use Rattle.command_io.specs.Stream.{Puts};
ghost use Rattle.command_debug.specs.Session as spec;

use crate::answers::add_line;
use crate::gathered::Gathered;
use command_io::error::{CommandError, DONE};
use command_io::stream::{LineSource, Sink, SourceFault, put_now};
use command_io::tell::refuse;
use debugger::Debugger;
use flat_board::FlatBoard;
use status_table::Reversible;
use std::alloc::{AllocError, Global};

/// Why a session stops before the input ends.
#[derive(Clone, Copy)]
pub(crate) enum Halt {
    /// A read of the input failed.
    Unread,
    /// A write of an answer failed.
    Unwritten,
    /// There is no memory.
    Memory,
}

/// How many bytes of answers are gathered before they are written.
const MOST_GATHERED: usize = 8192;

/// Puts the next line of the input in the place of what `line` holds; at the end of the input there is none.
fn line_asked<I: LineSource>(input: &mut I, line: &mut Vec<u8>) -> Result<bool, Halt>
    ensures reads { spec.AsksLine (I.seen input.old) (I.seen input.new) line.new.items result }
    ensures fewer { OnOk result (I.turns_left input.new < I.turns_left input.old) }
{
    match input.read_line(line) {
        Ok(found) => Ok(found),
        Err(SourceFault::Failed) => Err(Halt::Unread),
        Err(SourceFault::Memory) => Err(Halt::Memory),
    }
}

/// Does what a line asks for, and gathers what is told of it after the answers before.
fn answer<M: Reversible>(
    alloc: Global,
    debugger: &mut Debugger<M>,
    line: &[u8],
    gathered: &mut Gathered,
) -> Result<(), Halt>
    ensures { spec.Answers debugger.old line.now debugger.new
        gathered.old gathered.new result }
{
    match add_line(alloc, gathered, debugger, line) {
        Ok(()) => Ok(()),
        Err(AllocError) => Err(Halt::Memory),
    }
}

/// Answers the next line where it lies ready and few answers are gathered, and tells whether that is so.
fn answer_ready<M: Reversible, I: LineSource>(
    alloc: Global,
    debugger: &mut Debugger<M>,
    input: &mut I,
    gathered: &mut Gathered,
) -> Result<bool, Halt>
    ensures answers { spec.AnswersReady debugger.old (I.seen input.old)
        debugger.new (I.seen input.new)
        gathered.old gathered.new result }
    ensures fewer { IfOk result (λ found. found ≡ true
        → I.turns_left input.new < I.turns_left input.old) }
    ensures same { IfOk result (λ found. found ≡ false → input.new ≡ input.old) }
{
    if gathered.len() >= MOST_GATHERED {
        return Ok(false);
    }
    let Some(line) = input.ready_line() else {
        return Ok(false);
    };
    let count = line.len();
    answer(alloc, debugger, line, gathered)?;
    input.pass_line(count);
    Ok(true)
}

/// Waits for the next line and answers it; at the end of the input there is none. No answer waits with the program.
fn answer_waited<M: Reversible, I: LineSource>(
    alloc: Global,
    debugger: &mut Debugger<M>,
    input: &mut I,
    line: &mut Vec<u8>,
    gathered: &mut Gathered,
) -> Result<bool, Halt>
    requires { gathered.old ≡ [] }
    ensures answers { spec.AnswersWaited debugger.old (I.seen input.old)
        debugger.new (I.seen input.new)
        gathered.old gathered.new result }
    ensures fewer { OnOk result (I.turns_left input.new < I.turns_left input.old) }
{
    if !line_asked(input, line)? {
        return Ok(false);
    }
    answer(alloc, debugger, line.as_slice(), gathered)?;
    Ok(true)
}

/// Writes the answers that are gathered, if there are any, and answers whether that could be done.
fn write_gathered<O: Sink>(out: &mut O, gathered: &[u8]) -> bool
    ensures { Puts (O.seen out.old) (O.seen out.new) gathered.now result }
{
    gathered.is_empty() || put_now(out, gathered)
}

/// Writes the answers that are gathered, so that none is left.
fn hand_on<O: Sink>(out: &mut O, gathered: &mut Gathered) -> Result<(), Halt>
    ensures hands { spec.HandsOn (O.seen out.old) (O.seen out.new)
        gathered.old gathered.new result }
    ensures none { OnOk result (gathered.new ≡ []) }
{
    if !write_gathered(out, gathered.as_slice()) {
        return Err(Halt::Unwritten);
    }
    gathered.clear();
    Ok(())
}

/// Answers the next line, if there is one. Where it has to be waited for, or where many answers are gathered, these are
/// written first.
fn answer_next<M: Reversible, I: LineSource, O: Sink>(
    debugger: &mut Debugger<M>,
    input: &mut I,
    out: &mut O,
    line: &mut Vec<u8>,
    gathered: &mut Gathered,
) -> Result<bool, Halt>
    ensures answers { spec.AnswersNext debugger.old (I.seen input.old) (O.seen out.old)
        debugger.new (I.seen input.new) (O.seen out.new)
        gathered.old gathered.new result }
    ensures fewer { IfOk result (λ found. found ≡ true
        → I.turns_left input.new < I.turns_left input.old) }
{
    let alloc = *line.allocator();
    if answer_ready(alloc, debugger, input, gathered)? {
        return Ok(true);
    }
    hand_on(out, gathered)?;
    answer_waited(alloc, debugger, input, line, gathered)
}

/// Answers the lines of the input one after the other, to its end. The last answers stay gathered, to be written after.
fn gather_all<M: Reversible, I: LineSource, O: Sink>(
    alloc: Global,
    debugger: &mut Debugger<M>,
    input: &mut I,
    out: &mut O,
    gathered: &mut Gathered,
) -> Result<(), Halt>
    requires { gathered.old ≡ [] }
    ensures { spec.Gathers debugger.old (I.seen input.old) (I.seen input.new)
        (O.seen out.old) (O.seen out.new) gathered.new result }
{
    let mut line = Vec::new(alloc);
    while answer_next(debugger, input, out, &mut line, gathered)? {}
    Ok(())
}

/// Answers the lines of the input one after the other, to its end. Where it stops before, the answers until then are written.
fn answer_all<M: Reversible, I: LineSource, O: Sink>(
    alloc: Global,
    debugger: &mut Debugger<M>,
    input: &mut I,
    out: &mut O,
) -> Result<(), Halt>
    ensures { spec.Holds debugger.old (I.seen input.old) (I.seen input.new)
        (O.seen out.old) (O.seen out.new) result }
{
    let mut gathered = Gathered::new(alloc);
    let ended = gather_all(alloc, debugger, input, out, &mut gathered);
    if let Err(Halt::Unwritten) = ended {
        return Err(Halt::Unwritten);
    }
    if write_gathered(out, gathered.as_slice()) {
        ended
    } else {
        Err(Halt::Unwritten)
    }
}

/// Tells why a session stopped, if it did, and gives the exit status.
fn finish<E: Sink>(err: &mut E, held: Result<(), Halt>) -> u8
    ensures { spec.Finishes held (E.seen err.old) (E.seen err.new) result }
{
    match held {
        Ok(()) => DONE,
        Err(Halt::Unread) => refuse(err, &CommandError::Io),
        Err(Halt::Unwritten) => refuse(err, &CommandError::Io),
        Err(Halt::Memory) => refuse(err, &CommandError::Memory),
    }
}

/// Holds a session with a record under the debugger, and gives the exit status.
pub(crate) fn hold<I: LineSource, O: Sink, E: Sink>(
    alloc: Global,
    debugger: Debugger<FlatBoard>,
    input: &mut I,
    out: &mut O,
    err: &mut E,
) -> u8
    ensures { spec.SessionTells debugger (I.seen input.old) (I.seen input.new)
        (O.seen out.old) (O.seen out.new) (E.seen err.old) (E.seen err.new) result }
{
    let mut debugger = debugger;
    let held = answer_all(alloc, &mut debugger, input, out);
    finish(err, held)
}
