//! What a record leaves: the board after its entries, and what is noted of all that its plan has.

ghost use Rattle.std.specs.Prelude.{◌≡◌, ◌+◌, ◌<◌, ◌^◌, IfErr, OnOk, length};
ghost use Rattle.why_facts.specs.Notes.{all_noted};
ghost use Rattle.why_notes.specs.Account as spec;
ghost use Rattle.why_notes.specs.Changes.{changes};

use crate::changes::add_changes;
use flat_board::FlatBoard;
use flow_model::{Board, CheckedPlan, Duplicate, Entry, Plan};
use status_table::{EventFault, Table};
use std::alloc::{AllocError, Global};
use why_facts::notes::{Notes, note_changes};

/// What a record leaves, lent.
#[derive(Clone, Copy)]
pub struct SeenAccount<'a> {
    pub plan: &'a Plan,
    pub board: &'a Board,
    pub notes: &'a Notes,
}

/// An entry, and the number of its line.
#[derive(Clone, Copy)]
struct Line<'a> {
    number: u64,
    entry: &'a Entry,
}

/// Notes what the entry of a line makes so, where it is accepted.
fn note_line(
    alloc: Global,
    plan: &Plan,
    table: &FlatBoard,
    notes: &mut Notes,
    line: &Line<'_>,
) -> Result<(), AllocError>
    requires { table.now.plan ≡ plan.now }
    ensures { OnOk result (notes.new ≡ all_noted line.now.number notes.old
        (changes plan.now table.now.board line.now.entry.now.event)) }
{
    let mut changes = Vec::new(alloc);
    add_changes(alloc, &mut changes, plan, table, &line.entry.event)?;
    note_changes(notes, line.number, changes.as_slice())
}

/// Notes the entry of a line, and plays it.
fn play_noted(
    alloc: Global,
    plan: &CheckedPlan,
    table: &mut FlatBoard,
    notes: &mut Notes,
    line: &Line<'_>,
) -> Result<(), EventFault>
    requires { table.old.plan ≡ plan.now }
    ensures plan { table.new.plan ≡ plan.now }
    ensures plays { spec.PlaysNoted line.now.number plan.now table.old.board notes.old line.now.entry.now
        result table.new.board notes.new }
{
    note_line(alloc, plan.plan(), table, notes, line)?;
    let entry = line.entry.copy(alloc)?;
    table.advance(entry)
}

/// Plays entries, of which the first stands at line 2, up to the first that is refused.
fn play_all(
    alloc: Global,
    plan: &CheckedPlan,
    table: &mut FlatBoard,
    notes: &mut Notes,
    entries: &[Entry],
) -> Result<(), (usize, EventFault)>
    requires { table.old.plan ≡ plan.now }
    ensures plan { table.new.plan ≡ plan.now }
    ensures runs { spec.RunsNoted plan.now table.old.board notes.old entries.now
        result table.new.board notes.new }
    ensures within { IfErr result (λ stop. stop.0 < length entries.now) }
{
    for (place, entry) in entries.iter().enumerate() {
        let line = Line {
            number: place as u64 + 2,
            entry,
        };
        if let Err(fault) = play_noted(alloc, plan, table, notes, &line) {
            return Err((place, fault));
        }
    }
    Ok(())
}

/// What a record leaves, whose plan is its first line.
///
/// # Errors
///
/// The place of the first entry that is refused, from 0, with its refusal; or `EventFault::Memory`.
pub fn account(
    alloc: Global,
    plan: &CheckedPlan,
    entries: &[Entry],
) -> Result<(FlatBoard, Notes), (usize, EventFault)>
    ensures accounts { spec.Accounts plan.now entries.now result }
    ensures line { IfErr result (λ stop. stop.0 + 2 < 2 ^ 64) }
{
    let Ok(mut table) = FlatBoard::new(alloc, plan) else {
        return Err((0, EventFault::Memory));
    };
    let Ok(mut notes) = Notes::new(alloc, plan.plan()) else {
        return Err((0, EventFault::Memory));
    };
    match play_all(alloc, plan, &mut table, &mut notes, entries) {
        Ok(()) => Ok((table, notes)),
        Err(stop) => Err(stop),
    }
}
