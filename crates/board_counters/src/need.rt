//! How many of the jobs that a job needs are open.

ghost use Rattle.std.specs.Prelude.{◌≡◌, IfOk, map};
ghost use Rattle.board_counters.specs.Words.{changed, holds_at, needs_turned};
ghost use Rattle.board_counters.specs.Counters as spec;

use crate::tally::{Tally, turned};
use flow_model::{Job, JobPlan, JobState, Run, Sequence};
use std::alloc::{AllocError, Global};

/// How many jobs a job names that it needs, and how many of
/// these have not ended by themselves.
#[derive(Clone, Copy)]
pub(crate) struct Need {
    pub(crate) all: usize,
    pub(crate) pending: usize,
}

/// Whether a job that is tallied has ended by itself.
fn is_settled(job: &Job, tally: Tally) -> bool
    requires { tally ≡ spec.tally_of job.now }
    ensures { result ≡ spec.is_settled job.now }
{
    matches!(job.state, JobState::Shut(_)) || tally.pending == 0
}

/// Whether the job at a place of a run whose jobs are tallied has; beyond the end there is none.
fn is_settled_at(run: &Run, tallies: &[Tally], place: usize) -> bool
    requires { tallies.now ≡ map spec.tally_of run.now.jobs }
    ensures { result ≡ holds_at (spec.settled_jobs run.now) place }
{
    let Some(job) = run.jobs.as_slice().get(place) else {
        return false;
    };
    let Some(tally) = tallies.get(place) else {
        return false;
    };
    is_settled(job, *tally)
}

/// How many of some needs are of jobs of a run that have not, where its first has this number.
fn count_open(first: u64, run: &Run, tallies: &[Tally], needs: &[u64]) -> usize
    requires { tallies.now ≡ map spec.tally_of run.now.jobs }
    ensures { result ≡ spec.open_among first (spec.settled_jobs run.now) needs.now }
{
    let mut count = 0;
    for need in needs {
        if !is_settled_at(run, tallies, need.saturating_sub(first) as usize) {
            count += 1;
        }
    }
    count
}

/// What a job of a run needs, where the run's first has this number.
fn need_of(first: u64, run: &Run, tallies: &[Tally], plan: &JobPlan) -> Need
    requires { tallies.now ≡ map spec.tally_of run.now.jobs }
    ensures { result ≡ spec.need_of first (spec.settled_jobs run.now) plan.now }
{
    let needs = plan.needs.as_slice();
    Need {
        all: needs.len(),
        pending: count_open(first, run, tallies, needs),
    }
}

/// The number of the first of a run's jobs.
pub(crate) fn first_number(plans: &[JobPlan]) -> u64
    ensures { result ≡ spec.first_number plans.now }
{
    match plans {
        [] => 0,
        [first, ..] => first.number,
    }
}

/// What each job of a run needs.
pub(crate) fn needs_of(
    alloc: Global,
    run: &Run,
    tallies: &[Tally],
    plans: &[JobPlan],
) -> Result<Sequence<Need>, AllocError>
    requires { tallies.now ≡ map spec.tally_of run.now.jobs }
    ensures { IfOk result (λ needs. needs
        ≡ map (spec.need_of (spec.first_number plans.now) (spec.settled_jobs run.now)) plans.now) }
{
    let first = first_number(plans);
    let mut needs = Vec::with_capacity(alloc, plans.len())?;
    for plan in plans {
        needs.push(need_of(first, run, tallies, plan))?;
    }
    Ok(Sequence::new(needs))
}

/// Turns the need of the job at a place of a run: one of the jobs that it names was open or not, and now is or is not.
fn turn_need(needs: &mut Sequence<Need>, place: usize, was: bool, is: bool)
    ensures { needs.new ≡ changed needs.old place (spec.need_turned was is) }
{
    if let Some(need) = needs.get_mut(place) {
        need.pending = turned(need.all, need.pending, was, is);
    }
}

/// Turns the needs of the jobs at some places, one after the other.
pub(crate) fn turn_needs(needs: &mut Sequence<Need>, places: &[usize], was: bool, is: bool)
    ensures { needs.new ≡ needs_turned was is places.now needs.old }
{
    for place in places {
        turn_need(needs, *place, was, is);
    }
}
