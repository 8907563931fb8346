//! What holds of a tree of facts, beside its lines.

ghost use Rattle.why_causes.specs.Endings.{EndingsAreNamed};
ghost use Rattle.why_causes.specs.Obstacles.{ObstaclesAreNamed};
ghost use Rattle.why_causes.specs.Once.{NothingIsAskedTwice};
ghost use Rattle.why_causes.specs.Reasons.{ReasonsAreNamed};

use flow_model::laws::{needs_point_back, rules_hold};

/// In a tree each run, job and leg, and that a run was told to stop, is answered once at most.
#[tactic(auto, using(crate::proofs::AskedOnce::nothing_is_asked_twice))]
pub fn nothing_is_asked_twice()
    ensures { NothingIsAskedTwice }
{}

/// Below a job or a run that the table refuses, since needs or jobs have not ended, stand exactly those; below a leg for which no
/// slot is free, exactly the legs that take the slots. Such are named there only then. Below a job that was opened stand all its
/// legs that have not ended, or that bring it to its result, and nothing else; one at least, where it had no success.
#[tactic(auto, using(crate::proofs::OpenedJobs::obstacles_are_named))]
pub fn obstacles_are_named()
    ensures { ObstaclesAreNamed }
{}

/// Below a run that its Close ended without success stand all its jobs with that result and no others, and that it was told to
/// stop, where that cancelled it; one of these at least. Below a skipped job whose condition waits for success stand all
/// ancestors without success that are met first, and no others; one at least, where it is told to have waited in vain. Below a
/// job that was cancelled in place of being opened stands that its run was told to stop.
pub fn endings_are_named()
    ensures { EndingsAreNamed }
{
    rules_hold();
    needs_point_back();
}

/// Below a run or a leg that waits stands who held its group when it came to wait. Below a leg that has ended stand the first of
/// its steps that counts as a failure, or the cause for which it was to stop; below one that has not, its call, its job, or who takes
/// the slots; below a step that was skipped, the first failure before it or the cause for which its leg was to stop. Beside these
/// only that a run or a leg was told to stop is named there.
pub fn reasons_are_named()
    ensures { ReasonsAreNamed }
{
    rules_hold();
}
