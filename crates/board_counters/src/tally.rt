//! The legs of a job, counted by how they stand.

ghost use Rattle.std.specs.Prelude.{◌≡◌, true};
ghost use Rattle.board_counters.specs.Counters as spec;
ghost use Rattle.board_counters.specs.Words.{Tally as TallyOf};

use board_decisions::derived::{has_failed, is_ended, is_under_way, was_cancelled};
use flow_model::{Job, Leg, LegState};

/// What is counted of the legs of a job.
#[derive(Clone, Copy)]
pub(crate) enum Counter {
    /// Those that are not Ended.
    Open,
    /// Those that take one of the slots that `max_parallel` gives the job.
    Used,
    /// Those that are Ended with a failure that is not tolerated.
    Failed,
    /// Those that are Ended cancelled.
    Cancelled,
}

/// How many legs a job has, and how many of them are counted so.
#[derive(Clone, Copy)]
pub struct Tally {
    /// All of them.
    pub legs: usize,
    /// Those that are not Ended.
    pub pending: usize,
    /// Those that take a slot.
    pub used: usize,
    /// Those that are Ended with a failure that is not tolerated.
    pub failed: usize,
    /// Those that are Ended cancelled.
    pub cancelled: usize,
}

/// Whether a leg in a state is counted.
fn counts(counter: Counter, state: LegState) -> bool
    ensures { result ≡ spec.counts counter state }
{
    match counter {
        Counter::Open => !is_ended(state),
        Counter::Used => is_under_way(state),
        Counter::Failed => has_failed(state),
        Counter::Cancelled => was_cancelled(state),
    }
}

/// How many of some legs are counted.
fn count(counter: Counter, legs: &[Leg]) -> usize
    ensures { result ≡ spec.counted counter legs.now }
{
    let mut count = 0;
    for leg in legs {
        if counts(counter, leg.state) {
            count += 1;
        }
    }
    count
}

/// How the legs of a job stand.
pub(crate) fn tally_of(job: &Job) -> Tally
    ensures { result ≡ spec.tally_of job.now }
{
    let legs = job.legs.as_slice();
    Tally {
        legs: legs.len(),
        pending: count(Counter::Open, legs),
        used: count(Counter::Used, legs),
        failed: count(Counter::Failed, legs),
        cancelled: count(Counter::Cancelled, legs),
    }
}

/// A count of some of so many, where one of these was counted or not, and now is or is not.
pub(crate) fn turned(all: usize, count: usize, was: bool, is: bool) -> usize
    ensures { result ≡ spec.turned all count was is }
{
    match (was, is) {
        (false, false) => count,
        (false, true) => if count < all { count + 1 } else { count },
        (true, false) => count.saturating_sub(1),
        (true, true) => count,
    }
}

/// A count of legs, where one came from a state to another.
fn turned_by(counter: Counter, all: usize, count: usize, was: LegState, is: LegState) -> usize
    ensures { result ≡ spec.turned all count (spec.counts counter was) (spec.counts counter is) }
{
    turned(all, count, counts(counter, was), counts(counter, is))
}

/// Whether a leg is counted alike in two states: it runs in both.
#[inline(always)]
pub(crate) fn are_alike(was: LegState, is: LegState) -> bool
    ensures { (tally : TallyOf) → result ≡ true → spec.moved was is tally ≡ tally }
{
    matches!(was, LegState::Running { .. }) && matches!(is, LegState::Running { .. })
}

/// The counts where one leg came from a state to another.
pub(crate) fn moved(tally: Tally, was: LegState, is: LegState) -> Tally
    ensures { result ≡ spec.moved was is tally }
{
    Tally {
        legs: tally.legs,
        pending: turned_by(Counter::Open, tally.legs, tally.pending, was, is),
        used: turned_by(Counter::Used, tally.legs, tally.used, was, is),
        failed: turned_by(Counter::Failed, tally.legs, tally.failed, was, is),
        cancelled: turned_by(Counter::Cancelled, tally.legs, tally.cancelled, was, is),
    }
}
