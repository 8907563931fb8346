//! Where the runs and legs of a board stand, which stays so from entry to entry.

ghost use Rattle.std.specs.Prelude.{◌≡◌, ◌+◌, IfOk, slice_get};
ghost use Rattle.plan_text.specs.Changes.{after_jobs as after_jobs_of};
ghost use Rattle.command_print.specs.Touched as spec;

use board_decisions::place::LegPlace;
use board_decisions::places::leg_places;
use flow_model::{Board, Job, Run};
use std::alloc::{AllocError, Global};

/// The numbers of the first job and the first leg after each run, and the places of all legs by their numbers.
#[derive(Drop)]
pub(crate) struct Index {
    pub(crate) next: Vec<(u64, u64)>,
    pub(crate) legs: Vec<LegPlace>,
}

/// The place of the leg with a number, if there is one.
pub(crate) fn place_of(index: &Index, number: u64) -> Option<LegPlace>
    ensures { result ≡ slice_get index.now.legs.items number }
{
    index.legs.as_slice().get(number as usize).copied()
}

/// The number after so many others. No memory holds more legs or jobs than a `u64` counts.
pub(crate) fn after_all(number: u64, count: usize) -> Result<u64, AllocError>
    ensures { IfOk result (λ next. next ≡ number + count) }
{
    match number.checked_add(count as u64) {
        Some(next) => Ok(next),
        None => Err(AllocError),
    }
}

/// The numbers of the first job and the first leg after some jobs.
fn after_jobs(first: (u64, u64), jobs: &[Job]) -> Result<(u64, u64), AllocError>
    ensures { IfOk result (λ next. next ≡ after_jobs_of first jobs.now) }
{
    let mut leg = first.1;
    for job in jobs {
        leg = after_all(leg, job.legs.len())?;
    }
    Ok((after_all(first.0, jobs.len())?, leg))
}

/// The numbers of the first job and the first leg after each run.
fn next_numbers(alloc: Global, runs: &[Run]) -> Result<Vec<(u64, u64)>, AllocError>
    ensures { IfOk result (λ all. all.items ≡ spec.next_numbers (0, 0) runs.now) }
{
    let mut all = Vec::new(alloc);
    let mut next = (0, 0);
    for run in runs {
        next = after_jobs(next, run.jobs.as_slice())?;
        all.push(next)?;
    }
    Ok(all)
}

/// The index of a board, and of each board of its shape.
pub(crate) fn index_of(alloc: Global, board: &Board) -> Result<Index, AllocError>
    ensures { IfOk result (λ index. spec.IsIndexOf index board.now) }
{
    let runs = board.runs.as_slice();
    let next = next_numbers(alloc, runs)?;
    let legs = leg_places(alloc, runs)?;
    Ok(Index { next, legs })
}
