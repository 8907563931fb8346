//! Why a play stopped before its end.

ghost use Rattle.command_io.specs.PlayStop.{SaysStop};

use crate::error::{CommandError, FAILED, REFUSED, say_name};
use crate::stream::Sink;
use crate::tell::refuse;

/// Why a play stopped before its end.
#[derive(Clone, Copy)]
pub enum PlayStop {
    /// There are not so many workers.
    Workers,
    /// The host gave no answer.
    Host,
    /// What was played differs.
    Mismatch,
    /// There is no memory.
    Memory,
}

/// Says why a play was stopped, and gives its exit status.
pub fn refuse_stop<E: Sink>(err: &mut E, stop: PlayStop) -> u8
    ensures { SaysStop stop (E.seen err.old) (E.seen err.new) result }
{
    match stop {
        PlayStop::Workers => {
            say_name(err, "pool", "Workers");
            REFUSED
        },
        PlayStop::Host => {
            say_name(err, "pool", "Host");
            FAILED
        },
        PlayStop::Mismatch => {
            say_name(err, "pool", "Mismatch");
            REFUSED
        },
        PlayStop::Memory => refuse(err, &CommandError::Memory),
    }
}
