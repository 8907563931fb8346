//! Laws of the contexts of a job and a leg in play, each the contract of a function that does nothing.

ghost use Rattle.board_settled.specs.Words.{LastLegWins, NeedsAreDirect, StepsAreDone};

/// Of the legs of a job that ended with an output of that name, the one that ended last gives it.
#[tactic(auto, using(crate::proofs::Named::last_leg_wins))]
pub fn last_leg_wins()
    ensures { LastLegWins }
{}

/// The context `needs` has exactly the jobs that a job needs itself.
pub fn needs_are_direct()
    ensures { NeedsAreDirect }
{}

/// The context `steps` has exactly the steps of a leg that are done and have an id.
pub fn steps_are_done()
    ensures { StepsAreDone }
{}
