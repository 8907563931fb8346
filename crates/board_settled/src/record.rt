//! Whether a record leads to all of what is settled.

ghost use Rattle.std.specs.Prelude.{◌≡◌, IfErr, IfOk, Some};
ghost use Rattle.board_settled.specs.Words.{IsRefusedAt, TellsSettled, after};

use crate::check::is_settled;
use flow_model::{CheckedPlan, Entry};
use status_table::EventFault;
use std::alloc::Global;
use step_host::{PlayBoard, ReplayHost};

/// The board after a list of entries, and whether it is all of what is settled of its plan, by the answers that the list itself
/// records: each call is answered by the answer that the list has for its step of its leg, and by none where it has none. The
/// list is played once.
///
/// # Errors
///
/// The place of the first entry that is refused, from 0, with its refusal; or `EventFault::Memory`.
pub fn replay_record(
    alloc: Global,
    plan: &CheckedPlan,
    entries: &[Entry],
) -> Result<(PlayBoard, bool), (usize, EventFault)>
    ensures board { IfOk result (λ both. after plan.now entries.now ≡ Some both.0.board) }
    ensures tells { IfOk result (λ both. TellsSettled plan.now entries.now both.1) }
    ensures refused { IfErr result (IsRefusedAt plan.now entries.now) }
{
    let (host, table) = ReplayHost::with_board(alloc, plan, entries)?;
    match is_settled(alloc, plan, table.board(), &host) {
        Ok(yes) => Ok((table, yes)),
        Err(_) => Err((0, EventFault::Memory)),
    }
}
