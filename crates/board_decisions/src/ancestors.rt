//! The status of a job, by the results of its ancestors.
//!
//! Needs point backwards, so one pass from the front over what each job needs finds how the ancestors of each ended.

ghost use Rattle.std.specs.Prelude.{◌≡◌, ◌<◌, true, IfOk, length};
ghost use Rattle.board_decisions.specs.Ancestors as spec;
ghost use Rattle.board_decisions.specs.Derived as derived;
ghost use Rattle.board_decisions.specs.Derived.{job_results};
ghost use Rattle.board_decisions.specs.Seen.{job_seen};

use crate::derived::{is_failure, is_success, job_result};
use crate::place::SeenJob;
use expr_value::Status;
use flow_model::{JobPlan, Outcome, Run};
use std::alloc::{AllocError, Global};

/// How the ancestors of a job ended, as far as its status asks.
#[derive(Clone, Copy)]
pub(crate) struct Lineage {
    /// Whether one of them failed.
    pub(crate) failed: bool,
    /// Whether one of them did not succeed.
    pub(crate) unsuccessful: bool,
}

/// The result of each job of a run.
fn results_of(alloc: Global, run: &Run) -> Result<Vec<Outcome>, AllocError>
    ensures { IfOk result (λ results. results.items ≡ job_results run.now) }
{
    let jobs = run.jobs.as_slice();
    let mut results = Vec::with_capacity(alloc, jobs.len())?;
    for job in jobs {
        results.push(job_result(run, job))?;
    }
    Ok(results)
}

/// How a result counts for whoever needs the job.
fn lineage_by(how: Outcome) -> Lineage
    ensures { result ≡ spec.lineage_by how }
{
    Lineage {
        failed: is_failure(how),
        unsuccessful: !is_success(how),
    }
}

/// How no ancestor counts.
fn no_lineage() -> Lineage
    ensures { result ≡ spec.no_lineage }
{
    Lineage {
        failed: false,
        unsuccessful: false,
    }
}

/// How two count together.
fn both(one: Lineage, other: Lineage) -> Lineage
    ensures { result ≡ spec.both one other }
{
    Lineage {
        failed: one.failed || other.failed,
        unsuccessful: one.unsuccessful || other.unsuccessful,
    }
}

/// How the job at a place counts for whoever needs it: by its result and by its ancestors; one that is not there does not.
fn lineage_at(results: &[Outcome], lineages: &[Lineage], place: usize) -> Lineage
    ensures { result ≡ spec.lineage_at results.now lineages.now place }
{
    let own = match results.get(place) {
        Some(how) => lineage_by(*how),
        None => no_lineage(),
    };
    match lineages.get(place) {
        Some(ancestors) => both(own, *ancestors),
        None => own,
    }
}

/// How the ancestors of a job ended, by the jobs that it needs and their ancestors.
#[tactic(auto, using(crate::proofs::Lineages::one_needed))]
fn lineage_of(first: u64, job: &JobPlan, results: &[Outcome], lineages: &[Lineage]) -> Lineage
    ensures { result ≡ spec.lineage_of first results.now lineages.now job.now }
{
    let needs = job.needs.as_slice();
    let mut all = no_lineage();
    for need in needs {
        let place = need.saturating_sub(first) as usize;
        all = both(all, lineage_at(results, lineages, place));
    }
    all
}

/// How the ancestors of the job at a place ended, by the results of the run's jobs.
fn lineage_in(
    alloc: Global,
    first: u64,
    jobs: &[JobPlan],
    results: &[Outcome],
    place: usize,
) -> Result<Lineage, AllocError>
    requires back { spec.NeedsPointBack first jobs.now }
    requires within { place < length jobs.now }
    ensures { IfOk result (λ found. found ≡ spec.lineage_in first jobs.now results.now place) }
{
    let mut lineages = Vec::with_capacity(alloc, place)?;
    for job in jobs {
        let lineage = lineage_of(first, job, results, lineages.as_slice());
        if lineages.len() == place {
            return Ok(lineage);
        }
        lineages.push(lineage)?;
    }
    Ok(no_lineage())
}

/// The status of a job, whose run's first job has the number `first`.
pub fn job_status(alloc: Global, first: u64, at: &SeenJob) -> Result<Status, AllocError>
    requires { spec.StandsAfterNeeds first (job_seen at.now) }
    ensures { IfOk result (λ status. status ≡ derived.job_status first (job_seen at.now)) }
{
    if at.run.stop {
        return Ok(Status::Cancelled);
    }
    let results = results_of(alloc, at.run)?;
    let jobs = at.run_plan.jobs.as_slice();
    let lineage = lineage_in(alloc, first, jobs, results.as_slice(), at.place.job)?;
    if lineage.failed {
        Ok(Status::Failure)
    } else if lineage.unsuccessful {
        Ok(Status::Other)
    } else {
        Ok(Status::Success)
    }
}

/// The status of a job, whose run's first job has the number `first`. Where it is known that each job of the run succeeded
/// so far, no ancestor is looked for.
pub fn job_status_kept(
    alloc: Global,
    first: u64,
    at: &SeenJob,
    succeeded: bool,
) -> Result<Status, AllocError>
    requires stands { spec.StandsAfterNeeds first (job_seen at.now) }
    requires kept { succeeded ≡ true → derived.all_succeed (job_seen at.now).run ≡ true }
    ensures { IfOk result (λ status. status ≡ derived.job_status first (job_seen at.now)) }
{
    if succeeded && !at.run.stop {
        return Ok(Status::Success);
    }
    job_status(alloc, first, at)
}
