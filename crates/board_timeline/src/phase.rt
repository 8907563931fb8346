//! How runs, jobs and legs stand.

ghost use Rattle.std.specs.Prelude.{◌≡◌};
ghost use Rattle.std.specs.List.{list_all};
ghost use Rattle.board_decisions.specs.Derived as derived;
ghost use Rattle.board_timeline.specs.Phases as spec;

use board_decisions::derived::{is_ended, legs_result};
use flow_model::{DoneStep, Job, JobState, Leg, LegState, Outcome, RunState};

/// How a run, a job or a leg stands.
#[derive(Clone, Copy)]
pub enum Phase {
    /// A run that was not opened, a job that was not judged, or a leg that has not asked.
    Fresh,
    /// A run or a leg that waits for its group.
    Waiting,
    /// A leg that is admitted, and that no worker took.
    Admitted,
    /// A run that is going, or a job that is open and has legs that have not ended.
    Going,
    /// A leg with its worker, none of whose steps was begun.
    Taken,
    /// A leg in the call of the step at this place.
    Calling(u64),
    /// A leg with its worker, whose last step that was done is the one at this place.
    Done {
        step: u64,
        outcome: Outcome,
        conclusion: Outcome,
    },
    /// A job that was shut.
    Shut(Outcome),
    /// A run that is closed, a leg that has ended, or an open job whose legs have.
    Ended {
        how: Outcome,
        tolerated: bool,
    },
}

/// A line of the record with whose entry something came to stand so.
#[derive(Clone, Copy)]
pub struct Moment {
    pub line: u64,
    pub phase: Phase,
}

/// How a run stands.
pub(crate) fn run_phase(state: RunState) -> Phase
    ensures { result ≡ spec.run_phase state }
{
    match state {
        RunState::New => Phase::Fresh,
        RunState::Waiting => Phase::Waiting,
        RunState::Going => Phase::Going,
        RunState::Closed(how) => Phase::Ended {
            how,
            tolerated: false,
        },
    }
}

/// Whether all of some legs have ended.
fn are_ended(legs: &[Leg]) -> bool
    ensures { result ≡ list_all (λ leg. derived.is_ended leg.state) legs.now }
{
    legs.iter().all(|leg| is_ended(leg.state))
}

/// How a job stands that was opened.
fn open_phase(legs: &[Leg]) -> Phase
    ensures { result ≡ spec.open_phase legs.now }
{
    if are_ended(legs) {
        Phase::Ended {
            how: legs_result(legs),
            tolerated: false,
        }
    } else {
        Phase::Going
    }
}

/// How a job stands.
pub(crate) fn job_phase(job: &Job) -> Phase
    ensures { result ≡ spec.job_phase job.now }
{
    match job.state {
        JobState::Unjudged => Phase::Fresh,
        JobState::Open => open_phase(job.legs.as_slice()),
        JobState::Shut(how) => Phase::Shut(how),
    }
}

/// How a leg stands that is with its worker, between two steps.
fn idle_phase(steps: &[DoneStep]) -> Phase
    ensures { result ≡ spec.idle_phase steps.now }
{
    let last = steps.len().saturating_sub(1);
    match steps.get(last) {
        Some(done) => Phase::Done {
            step: last as u64,
            outcome: done.outcome,
            conclusion: done.conclusion,
        },
        None => Phase::Taken,
    }
}

/// How a leg stands.
pub(crate) fn leg_phase(leg: &Leg) -> Phase
    ensures { result ≡ spec.leg_phase leg.now }
{
    match leg.state {
        LegState::Fresh => Phase::Fresh,
        LegState::Waiting => Phase::Waiting,
        LegState::Admitted => Phase::Admitted,
        LegState::Running { in_call: true, .. } => Phase::Calling(leg.steps.len() as u64),
        LegState::Running { in_call: false, .. } => idle_phase(leg.steps.as_slice()),
        LegState::Ended { result, tolerated } => Phase::Ended {
            how: result,
            tolerated,
        },
    }
}

/// Whether something has ended.
pub(crate) fn is_over(phase: Phase) -> bool
    ensures { result ≡ spec.is_over phase }
{
    matches!(phase, Phase::Ended { .. })
}
