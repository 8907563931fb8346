//! The jobs and legs that are looked for.

ghost use Rattle.std.specs.Prelude.{◌≡◌};
ghost use Rattle.why_causes.specs.Causes as spec;

use board_decisions::derived::{
    has_failed, is_ended, is_under_way, job_has_ended, job_result, legs_result, was_cancelled,
};
use flow_model::{Job, JobState, Leg, LegState, Outcome, Run};

/// What is looked for among jobs and legs.
#[derive(Clone, Copy)]
pub(crate) enum Sought {
    /// What has not ended.
    Unended,
    /// What takes a slot.
    UnderWay,
    /// That with which a job or a run comes to this result.
    Counting(Outcome),
}

fn is_judged(state: JobState) -> bool
    ensures { result ≡ spec.is_judged state }
{
    !matches!(state, JobState::Unjudged)
}

/// Whether a result makes another so.
fn counts(whole: Outcome, part: Outcome) -> bool
    ensures { result ≡ spec.counts whole part }
{
    match whole {
        Outcome::Success => false,
        Outcome::Failure => matches!(part, Outcome::Failure),
        Outcome::Cancelled => matches!(part, Outcome::Cancelled),
        Outcome::Skipped => false,
    }
}

/// Whether a job of a run is looked for.
pub(crate) fn job_sought(wanted: Sought, run: &Run, job: &Job) -> bool
    ensures { result ≡ spec.job_sought wanted run.now job.now }
{
    match wanted {
        Sought::Unended => !job_has_ended(run, job),
        Sought::UnderWay => false,
        Sought::Counting(how) => is_judged(job.state) && counts(how, job_result(run, job)),
    }
}

fn was_tolerated(state: LegState) -> bool
    ensures { result ≡ spec.was_tolerated state }
{
    matches!(
        state,
        LegState::Ended {
            tolerated: true,
            ..
        }
    )
}

/// Whether a leg is one with which a job comes to a result.
fn leg_counts(how: Outcome, state: LegState) -> bool
    ensures { result ≡ spec.leg_counts how state }
{
    match how {
        Outcome::Success => was_tolerated(state),
        Outcome::Failure => has_failed(state),
        Outcome::Cancelled => was_cancelled(state),
        Outcome::Skipped => false,
    }
}

/// Whether a leg is looked for.
pub(crate) fn leg_sought(wanted: Sought, leg: &Leg) -> bool
    ensures { result ≡ spec.leg_sought wanted leg.now }
{
    match wanted {
        Sought::Unended => !is_ended(leg.state),
        Sought::UnderWay => is_under_way(leg.state),
        Sought::Counting(how) => leg_counts(how, leg.state),
    }
}

/// The legs of a job that was opened which make it so.
pub(crate) fn opened_sought(run: &Run, job: &Job) -> Sought
    ensures { result ≡ spec.opened_sought run.now job.now }
{
    if job_has_ended(run, job) {
        Sought::Counting(legs_result(job.legs.as_slice()))
    } else {
        Sought::Unended
    }
}
