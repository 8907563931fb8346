//! How the jobs of a run that is Going stand: whether they have ended by themselves, and their results.

ghost use Rattle.std.specs.Prelude.{◌≡◌, map};
ghost use Rattle.board_counters.specs.Words.{tally_of, turned};
ghost use Rattle.board_counters.specs.Standing as spec;

use crate::tally::{Tally, turned};
use board_decisions::derived::{is_cancelled, is_failure, is_success};
use flow_model::{Job, JobState, Outcome, Run};

/// How a job stands.
#[derive(Clone, Copy)]
pub(crate) struct JobStanding {
    /// Whether it has ended by itself: it is Shut, or all its legs are Ended.
    pub(crate) is_settled: bool,
    /// Its result, where its run is Going.
    pub(crate) result: Outcome,
    /// Whether it was not judged.
    pub(crate) is_unjudged: bool,
    /// Whether it is Open, and a leg of it is Fresh.
    pub(crate) may_ask: bool,
    /// Whether it is Open, and a leg of it has failed where another is not Ended.
    pub(crate) may_drop: bool,
}

/// What is counted of the jobs of a run.
#[derive(Clone, Copy)]
pub(crate) enum JobCounter {
    /// Those that have not ended by themselves.
    Open,
    /// Those that failed.
    Failed,
    /// Those that were cancelled.
    Cancelled,
    /// Those whose result is not success.
    Unsuccessful,
    /// Those that were not judged.
    Unjudged,
    /// Those a leg of which may ask.
    Asking,
    /// Those a leg of which may be dropped since another has failed.
    Dropping,
}

/// How many jobs a run has, and how many of them stand so.
#[derive(Clone, Copy)]
pub struct RunTally {
    /// All of them.
    pub jobs: usize,
    /// Those that have not ended by themselves.
    pub pending: usize,
    /// Those that failed.
    pub failed: usize,
    /// Those that were cancelled.
    pub cancelled: usize,
    /// Those whose result is not success.
    pub unsuccessful: usize,
    /// Those that were not judged.
    pub unjudged: usize,
    /// Those a leg of which may ask.
    pub asking: usize,
    /// Those a leg of which may be dropped since another has failed.
    pub dropping: usize,
}

impl RunTally {
    /// The result of a run whose jobs stand so, by whether it is told to stop.
    pub(crate) fn result(self, stop: bool) -> Outcome
        ensures { result ≡ spec.told_result stop self }
    {
        if self.failed > 0 {
            Outcome::Failure
        } else if stop || self.cancelled > 0 {
            Outcome::Cancelled
        } else {
            Outcome::Success
        }
    }
}

/// What the ends of legs come to: a failure before cancelled ones.
fn tally_result(tally: Tally) -> Outcome
    ensures { result ≡ spec.tally_result tally }
{
    if tally.failed > 0 {
        Outcome::Failure
    } else if tally.cancelled > 0 {
        Outcome::Cancelled
    } else {
        Outcome::Success
    }
}

/// Whether a leg of those that are tallied is Fresh: more are not Ended than take a slot.
fn has_fresh(tally: Tally) -> bool
    ensures { result ≡ spec.has_fresh tally }
{
    tally.used < tally.pending
}

/// Whether one has failed, and one is not Ended.
fn has_left(tally: Tally) -> bool
    ensures { result ≡ spec.has_left tally }
{
    tally.failed > 0 && tally.pending > 0
}

/// What a job in a state comes to, with a tally.
fn result_with(state: JobState, tally: Tally) -> Outcome
    ensures { result ≡ spec.result_with state tally }
{
    match state {
        JobState::Shut(how) => how,
        JobState::Open | JobState::Unjudged => tally_result(tally),
    }
}

/// How a job stands in a state, with a tally.
pub(crate) fn standing_by(state: JobState, tally: Tally) -> JobStanding
    ensures { result ≡ spec.standing_by state tally }
{
    let is_open = matches!(state, JobState::Open);
    JobStanding {
        is_settled: matches!(state, JobState::Shut(_)) || tally.pending == 0,
        result: result_with(state, tally),
        is_unjudged: matches!(state, JobState::Unjudged),
        may_ask: is_open && has_fresh(tally),
        may_drop: is_open && has_left(tally),
    }
}

/// How a job stands, whose legs are tallied.
#[tactic(auto, using(crate::proofs::Standings::by_state))]
fn standing_of(job: &Job, tally: Tally) -> JobStanding
    requires { tally ≡ tally_of job.now }
    ensures { result ≡ spec.standing_of job.now }
{
    standing_by(job.state, tally)
}

/// How a job stands that is not there.
pub(crate) fn no_standing() -> JobStanding
    ensures { result ≡ spec.no_standing }
{
    JobStanding {
        is_settled: false,
        result: Outcome::Success,
        is_unjudged: false,
        may_ask: false,
        may_drop: false,
    }
}

/// Whether a job that stands so is counted.
fn counts(counter: JobCounter, standing: JobStanding) -> bool
    ensures { result ≡ spec.counts_job counter standing }
{
    match counter {
        JobCounter::Open => !standing.is_settled,
        JobCounter::Failed => is_failure(standing.result),
        JobCounter::Cancelled => is_cancelled(standing.result),
        JobCounter::Unsuccessful => !is_success(standing.result),
        JobCounter::Unjudged => standing.is_unjudged,
        JobCounter::Asking => standing.may_ask,
        JobCounter::Dropping => standing.may_drop,
    }
}

/// How many of the jobs of a run, whose legs are tallied, are counted.
fn count(counter: JobCounter, run: &Run, tallies: &[Tally]) -> usize
    requires { tallies.now ≡ map tally_of run.now.jobs }
    ensures { result ≡ spec.counted_jobs counter run.now.jobs }
{
    let mut count = 0;
    for (place, job) in run.jobs.as_slice().iter().enumerate() {
        let Some(tally) = tallies.get(place) else {
            return count;
        };
        if counts(counter, standing_of(job, *tally)) {
            count += 1;
        }
    }
    count
}

/// How the jobs of a run stand, whose legs are tallied.
pub(crate) fn tally_run(run: &Run, tallies: &[Tally]) -> RunTally
    requires { tallies.now ≡ map tally_of run.now.jobs }
    ensures { result ≡ spec.run_tally run.now }
{
    RunTally {
        jobs: run.jobs.len(),
        pending: count(JobCounter::Open, run, tallies),
        failed: count(JobCounter::Failed, run, tallies),
        cancelled: count(JobCounter::Cancelled, run, tallies),
        unsuccessful: count(JobCounter::Unsuccessful, run, tallies),
        unjudged: count(JobCounter::Unjudged, run, tallies),
        asking: count(JobCounter::Asking, run, tallies),
        dropping: count(JobCounter::Dropping, run, tallies),
    }
}

/// One count, where one job stood so, and now stands so.
fn turned_by(
    counter: JobCounter,
    all: usize,
    count: usize,
    was: JobStanding,
    is: JobStanding,
) -> usize
    ensures { result ≡ turned all count (spec.counts_job counter was) (spec.counts_job counter is) }
{
    turned(all, count, counts(counter, was), counts(counter, is))
}

/// The counts where one job stood so, and now stands so.
pub(crate) fn run_moved(tally: RunTally, was: JobStanding, is: JobStanding) -> RunTally
    ensures { result ≡ spec.run_moved was is tally }
{
    let all = tally.jobs;
    RunTally {
        jobs: all,
        pending: turned_by(JobCounter::Open, all, tally.pending, was, is),
        failed: turned_by(JobCounter::Failed, all, tally.failed, was, is),
        cancelled: turned_by(JobCounter::Cancelled, all, tally.cancelled, was, is),
        unsuccessful: turned_by(JobCounter::Unsuccessful, all, tally.unsuccessful, was, is),
        unjudged: turned_by(JobCounter::Unjudged, all, tally.unjudged, was, is),
        asking: turned_by(JobCounter::Asking, all, tally.asking, was, is),
        dropping: turned_by(JobCounter::Dropping, all, tally.dropping, was, is),
    }
}
