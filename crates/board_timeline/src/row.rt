//! A row of the picture: what was noted of a run, a job or a leg.

ghost use Rattle.std.specs.Prelude.{◌≡◌, ◌++◌, OnOk};
ghost use Rattle.board_timeline.specs.Rows as spec;

use crate::phase::{Moment, Phase};
use flow_model::Sequence;
use std::alloc::{AllocError, Global};

/// What was noted of a run, a job or a leg.
#[derive(Drop)]
pub struct Row {
    /// When it came to stand otherwise, and how, in ascending order. Before the first it was `Fresh`.
    pub moments: Sequence<Moment>,
    /// The line of the last of them, or that of the plan.
    pub since: u64,
    /// The line at which it was told to stop first.
    pub told: Option<u64>,
    /// The line at which it was displaced.
    pub displaced: Option<u64>,
}

/// A row on which nothing was noted.
fn new_row(alloc: Global) -> Row
    ensures { result ≡ spec.new_row }
{
    Row {
        moments: Sequence::empty(alloc),
        since: 1,
        told: None,
        displaced: None,
    }
}

/// Adds new rows.
#[tactic(auto, using(crate::proofs::NewRows::more_rows))]
pub(crate) fn add_rows(alloc: Global, rows: &mut Vec<Row>, count: usize) -> Result<(), AllocError>
    ensures { OnOk result (rows.new.items ≡ rows.old.items ++ spec.new_rows count) }
{
    for _row in 0..count {
        rows.push(new_row(alloc))?;
    }
    Ok(())
}

/// Notes how something stands after the entry of a line; what is noted of a line stays.
fn see_row(row: &mut Row, line: u64, phase: Phase) -> Result<(), AllocError>
    ensures { OnOk result (row.new ≡ spec.row_seen line phase row.old) }
{
    if row.since == line {
        return Ok(());
    }
    row.moments.push(Moment { line, phase })?;
    row.since = line;
    Ok(())
}

/// Notes with the entry of a line that what the row with this number is about stands so.
pub(crate) fn see(
    rows: &mut Sequence<Row>,
    number: u64,
    line: u64,
    phase: Phase,
) -> Result<(), AllocError>
    ensures { OnOk result (rows.new ≡ spec.seen line phase number rows.old) }
{
    if let Some(row) = rows.get_mut(number as usize) {
        see_row(row, line, phase)?;
    }
    Ok(())
}

/// Notes that the member with this number was told to stop, unless that was noted before.
pub(crate) fn tell(rows: &mut Sequence<Row>, number: u64, line: u64)
    ensures { rows.new ≡ spec.told line number rows.old }
{
    if let Some(row) = rows.get_mut(number as usize) {
        if row.told.is_none() {
            row.told = Some(line);
        }
    }
}

/// Notes that the member with this number was displaced.
pub(crate) fn displace(rows: &mut Sequence<Row>, number: u64, line: u64)
    ensures { rows.new ≡ spec.displaced line number rows.old }
{
    if let Some(row) = rows.get_mut(number as usize) {
        row.displaced = Some(line);
    }
}
