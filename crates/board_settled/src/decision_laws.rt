//! Laws of what the texts of a plan decide of jobs and steps in play, each the contract of a function that does nothing.

ghost use Rattle.std.specs.Prelude.{◌≡◌, ℕ, Some};
ghost use Rattle.board_settled.specs.Words.{Board, InPlay, JobAt, NoCallAfterFailure, OnlyFailuresArePassedOver, Plan, SaysOf, first_of, job_at, job_status};

use plan_values::waits_for_success;

/// The status by which a job is judged says how its ancestors
/// ended: the jobs that it needs, and their ancestors.
#[tactic(auto, using(board_decisions::proofs::Backwards::status_says, status_table::proofs::Sound::stands_after_needs))]
pub fn statuses_tell_of_ancestors()
    ensures { (p : Plan) (b : Board) (j : ℕ) (at : JobAt)
        → InPlay p b → job_at p b j ≡ Some at
        → SaysOf (first_of j at) at (job_status (first_of j at) at) }
{}

/// After a step of a leg that counts as a failure, a step whose
/// condition names no status function is never in a call.
pub fn no_call_after_failure()
    ensures { NoCallAfterFailure }
{
    waits_for_success();
}

/// The conclusion of a step that is done differs from its outcome only where the outcome is failure and its
/// continue-on-error holds.
#[tactic(auto, using(crate::proofs::Decided::only_failures_are_passed_over))]
pub fn only_failures_are_passed_over()
    ensures { OnlyFailuresArePassedOver }
{}
