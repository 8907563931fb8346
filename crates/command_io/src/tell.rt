//! What a command leaves of its answer: a text on `out`, or one line on `err`, and an exit status.

ghost use Rattle.std.specs.Prelude.{◌≡◌, Ok};
ghost use Rattle.command_io.specs.Tell.{Says, Tells, TellsBy, answer_seen, printed_status, printed_text};
ghost use Rattle.command_io.specs.CommandError.{line, source_error, error_status};

use crate::error::{CommandError, DONE, say};
use crate::stream::{Sink, SourceFault};

/// Says an error in one line, and gives its exit status. Where the line cannot be written, the status tells.
pub fn refuse<E: Sink>(err: &mut E, error: &CommandError) -> u8
    ensures line { Says (E.seen err.old) (E.seen err.new) (line error.now) }
    ensures status { result ≡ error_status error.now }
{
    say(err, error);
    error.status()
}

/// Says why a source was not read to its end, and gives the exit status.
pub fn refuse_source<E: Sink>(err: &mut E, fault: SourceFault) -> u8
    ensures line { Says (E.seen err.old) (E.seen err.new) (line (source_error fault)) }
    ensures status { result ≡ error_status (source_error fault) }
{
    match fault {
        SourceFault::Failed => refuse(err, &CommandError::Io),
        SourceFault::Memory => refuse(err, &CommandError::Memory),
    }
}

/// Writes a text to `out` and gives `done`, or, where that fails, says so on `err` and gives that exit status.
pub fn put_text<O: Sink, E: Sink>(text: &[u8], done: u8, out: &mut O, err: &mut E) -> u8
    ensures { TellsBy done (Ok text.now)
        (O.seen out.old) (O.seen out.new) (E.seen err.old) (E.seen err.new) result }
{
    if out.put(text) {
        return done;
    }
    refuse(err, &CommandError::Io)
}

/// Writes the text of an answer to `out`, or the line of its error to `err`, and gives the exit status: that of a text
/// is 0.
pub fn tell<O: Sink, E: Sink>(answer: Result<String, CommandError>, out: &mut O, err: &mut E) -> u8
    ensures { Tells (answer_seen answer)
        (O.seen out.old) (O.seen out.new) (E.seen err.old) (E.seen err.new) result }
{
    match answer {
        Ok(text) => put_text(text.as_bytes(), DONE, out, err),
        Err(error) => refuse(err, &error),
    }
}

/// Writes the text of an answer to `out` and gives its exit status, or the line of its error to `err`.
pub fn tell_printed<O: Sink, E: Sink>(
    answer: Result<(Vec<u8>, u8), CommandError>,
    out: &mut O,
    err: &mut E,
) -> u8
    ensures { TellsBy (printed_status answer) (printed_text answer)
        (O.seen out.old) (O.seen out.new) (E.seen err.old) (E.seen err.new) result }
{
    match answer {
        Ok((text, done)) => put_text(text.as_slice(), done, out, err),
        Err(error) => refuse(err, &error),
    }
}
