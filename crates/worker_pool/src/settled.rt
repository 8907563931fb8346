//! Whether the board after a record is what its plan comes to whatever the order.

ghost use Rattle.std.specs.Prelude.{◌≡◌, ◌≤◌, IfOk, length, take};
ghost use Rattle.worker_pool.specs.Checks.{ChecksSettled, IsUnplayed};

use crate::fault::PoolFault;
use crate::stop::PoolStop;
use board_settled::replay_record;
use flow_model::{CheckedPlan, Duplicate, Entry};
use status_table::EventFault;
use std::alloc::{AllocError, Global};

/// The entries before a place.
fn entries_before(alloc: Global, entries: &[Entry], place: usize) -> Result<Vec<Entry>, AllocError>
    requires { place ≤ length entries.now }
    ensures { IfOk result (λ made. made.items ≡ take place entries.now) }
{
    let (before, _) = entries.split_at(place);
    let mut made = Vec::new(alloc);
    for entry in before {
        made.push(entry.copy(alloc)?)?;
    }
    Ok(made)
}

/// Why entries are not played that the table refuses at a place.
fn unplayed(alloc: Global, entries: &[Entry], place: usize, fault: EventFault) -> PoolFault
    ensures { IsUnplayed entries.now place fault result }
{
    // an entry that is refused stands in the list
    if fault.is_memory() || entries.len() < place {
        return PoolStop::Memory.after(Vec::new(alloc));
    }
    match entries_before(alloc, entries, place) {
        Ok(before) => PoolStop::Mismatch.after(before),
        Err(_) => PoolStop::Memory.after(Vec::new(alloc)),
    }
}

/// Whether the board after a list of entries is all of what is settled of its plan by the answers that the list gives: each run
/// is Closed, each job judged and each leg Ended as it comes to whatever the order, with all its steps and outputs. Where
/// nothing in the plan rests on the order of events it is, once all runs are Closed.
///
/// # Errors
///
/// `PoolFault::Mismatch` at the first entry that the table refuses, with the entries before, and `PoolFault::Memory` without any.
pub fn settled_check(
    alloc: Global,
    plan: &CheckedPlan,
    entries: &[Entry],
) -> Result<bool, PoolFault>
    ensures { ChecksSettled plan.now entries.now result }
{
    match replay_record(alloc, plan, entries) {
        Ok((board, yes)) => {
            drop(board);
            Ok(yes)
        },
        Err((place, fault)) => Err(unplayed(alloc, entries, place, fault)),
    }
}
