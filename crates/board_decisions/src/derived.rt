//! What follows from a board: what has ended, the results of jobs, what is to stop, and the statuses of legs.

ghost use Rattle.std.specs.Prelude.{◌≡◌, map, count_by};
ghost use Rattle.std.specs.List.{list_any};
ghost use Rattle.board_decisions.specs.Derived as spec;

use flow_model::{DoneStep, Job, JobPlan, JobState, Leg, LegState, Outcome, Run, RunState};

/// Whether a run has ended.
pub fn is_closed(state: RunState) -> bool
    ensures { result ≡ spec.is_closed state }
{
    matches!(state, RunState::Closed(_))
}

/// Whether a job was shut in place of being opened.
fn is_shut(state: JobState) -> bool
    ensures { result ≡ spec.is_shut state }
{
    matches!(state, JobState::Shut(_))
}

/// Whether no worker took a leg, and it has not ended.
pub fn is_untaken(state: LegState) -> bool
    ensures { result ≡ spec.is_untaken state }
{
    matches!(
        state,
        LegState::Fresh | LegState::Waiting | LegState::Admitted
    )
}

/// Whether a leg has ended by itself.
pub fn is_ended(state: LegState) -> bool
    ensures { result ≡ spec.is_ended state }
{
    matches!(state, LegState::Ended { .. })
}

/// Whether a leg has asked and has not ended.
pub fn is_under_way(state: LegState) -> bool
    ensures { result ≡ spec.is_under_way state }
{
    matches!(
        state,
        LegState::Waiting | LegState::Admitted | LegState::Running { .. }
    )
}

/// Whether a result is a success.
pub fn is_success(outcome: Outcome) -> bool
    ensures { result ≡ spec.is_success outcome }
{
    matches!(outcome, Outcome::Success)
}

/// Whether a result is a failure.
pub fn is_failure(outcome: Outcome) -> bool
    ensures { result ≡ spec.is_failure outcome }
{
    matches!(outcome, Outcome::Failure)
}

/// Whether a result is that of what was cancelled.
pub fn is_cancelled(outcome: Outcome) -> bool
    ensures { result ≡ spec.is_cancelled outcome }
{
    matches!(outcome, Outcome::Cancelled)
}

/// Whether a leg ended with a failure that is not tolerated.
pub fn has_failed(state: LegState) -> bool
    ensures { result ≡ spec.has_failed state }
{
    matches!(
        state,
        LegState::Ended {
            result: Outcome::Failure,
            tolerated: false,
        }
    )
}

/// Whether a leg ended cancelled.
pub fn was_cancelled(state: LegState) -> bool
    ensures { result ≡ spec.was_cancelled state }
{
    matches!(
        state,
        LegState::Ended {
            result: Outcome::Cancelled,
            tolerated: _,
        }
    )
}

/// Whether a leg has ended: it is Ended, its job Shut or its run Closed.
fn leg_has_ended(run: &Run, job: &Job, leg: &Leg) -> bool
    ensures { result ≡ spec.leg_has_ended run.now job.now leg.now }
{
    is_closed(run.state) || is_shut(job.state) || is_ended(leg.state)
}

/// Whether all legs of a job have ended.
pub fn job_has_ended(run: &Run, job: &Job) -> bool
    ensures { result ≡ spec.job_has_ended run.now job.now }
{
    job.legs
        .as_slice()
        .iter()
        .all(|leg| leg_has_ended(run, job, leg))
}

/// Whether all jobs of a run have ended.
pub fn jobs_have_ended(run: &Run) -> bool
    ensures { result ≡ spec.jobs_have_ended run.now }
{
    run.jobs
        .as_slice()
        .iter()
        .all(|job| job_has_ended(run, job))
}

/// Whether a leg ended with a failure that is not tolerated.
pub(crate) fn is_any_failed(legs: &[Leg]) -> bool
    ensures { result ≡ list_any (λ leg. spec.has_failed leg.state) legs.now }
{
    legs.iter().any(|leg| has_failed(leg.state))
}

/// Whether a leg ended cancelled.
fn is_any_cancelled(legs: &[Leg]) -> bool
    ensures { result ≡ list_any (λ leg. spec.was_cancelled leg.state) legs.now }
{
    legs.iter().any(|leg| was_cancelled(leg.state))
}

/// What the ends of its legs make of a job: a failure before cancelled ones.
pub fn legs_result(legs: &[Leg]) -> Outcome
    ensures { result ≡ spec.legs_result legs.now }
{
    if is_any_failed(legs) {
        Outcome::Failure
    } else if is_any_cancelled(legs) {
        Outcome::Cancelled
    } else {
        Outcome::Success
    }
}

/// The result of a job.
pub fn job_result(run: &Run, job: &Job) -> Outcome
    ensures { result ≡ spec.job_result run.now job.now }
{
    match (job.state, run.state) {
        (JobState::Shut(how), _) => how,
        (JobState::Open, _) => legs_result(job.legs.as_slice()),
        (JobState::Unjudged, RunState::Closed(how)) => how,
        (JobState::Unjudged, RunState::New | RunState::Waiting | RunState::Going) => {
            legs_result(job.legs.as_slice())
        },
    }
}

/// Whether a job of a run failed.
fn is_any_job_failed(run: &Run) -> bool
    ensures { result ≡ spec.is_any_job_failed run.now }
{
    run.jobs
        .as_slice()
        .iter()
        .any(|job| is_failure(job_result(run, job)))
}

/// Whether a job of a run was cancelled.
fn is_any_job_cancelled(run: &Run) -> bool
    ensures { result ≡ spec.is_any_job_cancelled run.now }
{
    run.jobs
        .as_slice()
        .iter()
        .any(|job| is_cancelled(job_result(run, job)))
}

/// The result with which a run that is Going is closed.
pub fn run_result(run: &Run) -> Outcome
    ensures { result ≡ spec.run_result run.now }
{
    if is_any_job_failed(run) {
        Outcome::Failure
    } else if run.stop || is_any_job_cancelled(run) {
        Outcome::Cancelled
    } else {
        Outcome::Success
    }
}

/// Whether a done step counts as a failure.
pub fn is_any_step_failed(steps: &[DoneStep]) -> bool
    ensures { result ≡ list_any (λ step. spec.is_failure step.conclusion) steps.now }
{
    steps.iter().any(|step| is_failure(step.conclusion))
}

/// How many legs are under way.
fn count_under_way(legs: &[Leg]) -> usize
    ensures { result ≡ count_by (λ leg. spec.is_under_way leg.state) legs.now }
{
    let mut count = 0;
    for leg in legs {
        if is_under_way(leg.state) {
            count += 1;
        }
    }
    count
}

/// Whether a job has as many legs under way as it may have at once.
pub fn is_full(plan: &JobPlan, job: &Job) -> bool
    ensures { result ≡ spec.is_full plan.now job.now }
{
    match plan.max_parallel {
        None => false,
        Some(most) => most <= count_under_way(job.legs.as_slice()) as u64,
    }
}

/// Whether the job at a place of a run has ended.
fn has_ended_at(run: &Run, place: usize) -> bool
    ensures { result ≡ spec.holds_at (map (spec.job_has_ended run.now) run.now.jobs) place }
{
    match run.jobs.as_slice().get(place) {
        Some(job) => job_has_ended(run, job),
        None => false,
    }
}

/// Whether all that a job needs has ended.
pub fn needs_have_ended(first: u64, run: &Run, plan: &JobPlan) -> bool
    ensures { result ≡ spec.needs_have_ended first run.now plan.now }
{
    let needs = plan.needs.as_slice();
    for need in needs {
        if !has_ended_at(run, need.saturating_sub(first) as usize) {
            return false;
        }
    }
    true
}
