//! What is kept beside a board and stays, whatever is changed of it: where its jobs and legs stand, which steps are called
//! as far as their texts tell it alone, and which jobs need which.

ghost use Rattle.std.specs.Prelude.{◌≡◌, None, IfOk, slice_get};
ghost use Rattle.board_counters.specs.Lasting as spec;

use crate::dependents::{Dependents, all_dependents};
use board_decisions::kept::{Called, Calls};
use board_decisions::place::{JobPlace, LegPlace};
use board_decisions::places::{job_places, leg_places};
use board_decisions::unasked::{calls_of, has_own_env};
use flow_model::{Board, JobPlan, Plan, RunPlan, Sequence};
use std::alloc::{AllocError, Global};

/// What stays, whatever is changed of a board.
#[derive(Drop)]
pub(crate) struct Lasting {
    /// The places of the jobs, in the order of their numbers.
    pub(crate) jobs: Sequence<JobPlace>,
    /// The places of the legs, in the order of theirs.
    pub(crate) legs: Sequence<LegPlace>,
    /// Whether each step of each job is called, as far as that is known without its leg.
    pub(crate) calls: Told,
    /// The places of the jobs that need each job.
    pub(crate) dependents: Sequence<Dependents>,
}

/// What is told of each step of a job of a workflow.
fn told_of_job(alloc: Global, run: &RunPlan, job: &JobPlan) -> Result<Sequence<Calls>, AllocError>
    ensures { IfOk result (λ calls. spec.TellsSteps run.now job.now calls) }
{
    let own_env = has_own_env(run, job);
    let steps = job.steps.as_slice();
    let mut calls = Vec::with_capacity(alloc, steps.len())?;
    for step in steps {
        calls.push(calls_of(alloc, own_env, step))?;
    }
    Ok(Sequence::new(calls))
}

/// What is told of the steps of each job of a workflow.
fn told_of_run(alloc: Global, run: &RunPlan) -> Result<Sequence<Sequence<Calls>>, AllocError>
    ensures { IfOk result (λ calls. spec.TellsJobs run.now calls) }
{
    let jobs = run.jobs.as_slice();
    let mut calls = Vec::with_capacity(alloc, jobs.len())?;
    for job in jobs {
        calls.push(told_of_job(alloc, run, job)?)?;
    }
    Ok(Sequence::new(calls))
}

/// What is told of the steps of some workflows.
pub(crate) type Told = Sequence<Sequence<Sequence<Calls>>>;

/// What is told of the steps of each job of some workflows.
fn told_of_runs(alloc: Global, runs: &[RunPlan]) -> Result<Told, AllocError>
    ensures { IfOk result (λ calls. spec.TellsRuns runs.now calls) }
{
    let mut calls = Vec::with_capacity(alloc, runs.len())?;
    for run in runs {
        calls.push(told_of_run(alloc, run)?)?;
    }
    Ok(Sequence::new(calls))
}

/// What stays of a board of a plan.
pub(crate) fn lasting_of(alloc: Global, plan: &Plan, board: &Board) -> Result<Lasting, AllocError>
    ensures { IfOk result (λ made. spec.IsLasting plan.now board.now made) }
{
    let runs = board.runs.as_slice();
    let jobs = Sequence::new(job_places(alloc, runs)?);
    let legs = Sequence::new(leg_places(alloc, runs)?);
    let calls = told_of_runs(alloc, plan.runs.as_slice())?;
    let dependents = all_dependents(alloc, plan.runs.as_slice(), runs)?;
    Ok(Lasting {
        jobs,
        legs,
        calls,
        dependents,
    })
}

/// What stands at a number, if there is one.
#[inline(always)]
pub(crate) fn place_at<P: Copy>(places: &Sequence<P>, number: usize) -> Option<P>
    ensures { result ≡ slice_get places.now number }
{
    match places.as_slice().get(number) {
        Some(place) => Some(*place),
        None => None,
    }
}

/// What is told of a step of which nothing is known.
#[inline(always)]
fn nothing_told() -> Calls
    ensures { result ≡ spec.or_unknown None }
{
    Calls {
        success: Called::Unknown,
        failure: Called::Unknown,
        cancelled: Called::Unknown,
    }
}

/// What is told of a step of the job at a place.
#[inline(always)]
pub(crate) fn calls_at(calls: &Told, place: JobPlace, step: usize) -> Calls
    ensures { result ≡ spec.calls_at calls.now place step }
{
    let Some(row) = calls.as_slice().get(place.run) else {
        return nothing_told();
    };
    let Some(steps) = row.as_slice().get(place.job) else {
        return nothing_told();
    };
    match steps.as_slice().get(step) {
        Some(calls) => *calls,
        None => nothing_told(),
    }
}
