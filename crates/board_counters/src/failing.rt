//! Which legs have a done step that counts as a failure, so that no step is looked at again.

ghost use Rattle.std.specs.Prelude.{◌≡◌, IfOk, map};
ghost use Rattle.board_counters.specs.Words.{leg_there};
ghost use Rattle.board_counters.specs.Failing as spec;

use board_decisions::derived::is_any_step_failed;
use board_decisions::place::{LegPlace, leg_there};
use flow_model::{Board, Job, Leg, Run, Sequence};
use std::alloc::{AllocError, Global};

/// Whether a step failed, of each leg of a job.
fn legs_failing(alloc: Global, legs: &[Leg]) -> Result<Sequence<bool>, AllocError>
    ensures { IfOk result (λ made. made ≡ map spec.leg_failing legs.now) }
{
    let mut made = Vec::with_capacity(alloc, legs.len())?;
    for leg in legs {
        made.push(is_any_step_failed(leg.steps.as_slice()))?;
    }
    Ok(Sequence::new(made))
}

/// Whether a done step counts as a failure, of each leg of some jobs.
fn jobs_failing(alloc: Global, jobs: &[Job]) -> Result<Sequence<Sequence<bool>>, AllocError>
    ensures { IfOk result (λ made. made ≡ map spec.job_failing jobs.now) }
{
    let mut made = Vec::with_capacity(alloc, jobs.len())?;
    for job in jobs {
        made.push(legs_failing(alloc, job.legs.as_slice())?)?;
    }
    Ok(Sequence::new(made))
}

/// Which legs of some runs have a failed step.
pub(crate) type Failing = Sequence<Sequence<Sequence<bool>>>;

/// Whether a done step counts as a failure, of each leg of some runs.
pub(crate) fn runs_failing(alloc: Global, runs: &[Run]) -> Result<Failing, AllocError>
    ensures { IfOk result (λ made. made ≡ map spec.run_failing runs.now) }
{
    let mut made = Vec::with_capacity(alloc, runs.len())?;
    for run in runs {
        made.push(jobs_failing(alloc, run.jobs.as_slice())?)?;
    }
    Ok(Sequence::new(made))
}

/// The truth that is kept of the leg at a place.
#[inline(always)]
pub(crate) fn failing_at(failing: &Failing, place: LegPlace) -> bool
    ensures { result ≡ spec.failing_at failing.now place }
{
    let Some(row) = failing.as_slice().get(place.run) else {
        return false;
    };
    let Some(legs) = row.as_slice().get(place.job) else {
        return false;
    };
    match legs.as_slice().get(place.leg) {
        Some(holds) => *holds,
        None => false,
    }
}

/// Sets the truth that is kept of the leg at a place.
fn set_failing(failing: &mut Failing, place: LegPlace, holds: bool)
    ensures { failing.new ≡ spec.failing_set place holds failing.old }
{
    if let Some(row) = failing.get_mut(place.run) {
        if let Some(legs) = row.get_mut(place.job) {
            if let Some(before) = legs.get_mut(place.leg) {
                *before = holds;
            }
        }
    }
}

/// Notes a step of the leg at a place that was done.
#[inline(always)]
pub(crate) fn note_done(failing: &mut Failing, place: LegPlace, failed: bool)
    ensures { failing.new ≡ spec.failing_noted place failed failing.old }
{
    if failed {
        set_failing(failing, place, true);
    }
}

/// Whether a step of the leg at a place failed.
fn has_failed_step(board: &Board, place: LegPlace) -> bool
    ensures { result ≡ spec.leg_failed (leg_there board.now place) }
{
    match leg_there(board, place) {
        Some(leg) => is_any_step_failed(leg.steps.as_slice()),
        None => false,
    }
}

/// Notes that the last step of the leg at a place was taken off: where none failed, none does.
pub(crate) fn note_taken(failing: &mut Failing, board: &Board, place: LegPlace)
    ensures { failing.new ≡ spec.failing_taken place (leg_there board.now place) failing.old }
{
    if failing_at(failing, place) {
        set_failing(failing, place, has_failed_step(board, place));
    }
}
