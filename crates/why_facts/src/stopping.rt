//! Why a leg is to stop.

ghost use Rattle.std.specs.Prelude.{◌≡◌, false};
ghost use Rattle.board_decisions.specs.Seen.{leg_seen};
ghost use Rattle.why_facts.specs.Stops as spec;

use crate::fact::StopCause;
use board_decisions::derived::has_failed;
use board_decisions::place::SeenLeg;
use flow_model::Leg;

/// Whether the leg with a number is one of a job's, of which the first has the number `first`, and failed.
fn failed_of(first: u64, legs: &[Leg], number: u64) -> bool
    ensures { result ≡ spec.failed_of first legs.now number }
{
    if number < first {
        return false;
    }
    match legs.get((number - first) as usize) {
        Some(leg) => has_failed(leg.state),
        None => false,
    }
}

/// The first of a job's legs that failed, of the legs in the order in which they ended.
fn first_failed(first: u64, legs: &[Leg], ends: &[u64]) -> Option<u64>
    ensures { result ≡ spec.first_failed first legs.now ends.now }
{
    for number in ends {
        if failed_of(first, legs, *number) {
            return Some(*number);
        }
    }
    None
}

/// Why a leg is to stop that was not told to.
fn untold_cause(fast: bool, failed: Option<u64>) -> StopCause
    ensures { result ≡ spec.stop_by false fast failed }
{
    match (fast, failed) {
        (true, Some(number)) => StopCause::FailFast(number),
        (true, None) => StopCause::RunTold,
        (false, _) => StopCause::RunTold,
    }
}

/// Why the leg with a number is to stop, where it is.
pub fn cause_of_stop(number: u64, at: &SeenLeg) -> StopCause
    ensures { result ≡ spec.cause_of_stop number (leg_seen at.now) }
{
    if at.leg.stop {
        return StopCause::Told;
    }
    let first = number.saturating_sub(at.place.leg as u64);
    let failed = first_failed(first, at.job.legs.as_slice(), at.board.ends.as_slice());
    untold_cause(at.job_plan.fail_fast, failed)
}
