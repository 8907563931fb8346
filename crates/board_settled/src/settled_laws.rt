//! What holds of every board beside what is settled, each
//! the contract of a function that does nothing.

ghost use Rattle.board_settled.specs.Words.{FinishesAsSettled, OnlyEndsDiffer, PlaysAsSettled};

use flow_model::laws::{needs_point_back, rules_hold};

/// On the board after a list of entries without Cancel, of a plan that breaks no rule and in which
/// nothing rests on the order of events, each step that is done, each leg that is Ended, each job that
/// was judged and each run that is Closed is as settled, where each call has one answer. Where each run
/// is Closed, the board is all of what is settled.
#[tactic(auto, using(crate::proofs::Agreeing::plays_as_settled, crate::proofs::Agreeing::finishes_as_settled))]
pub fn boards_agree_with_what_is_settled()
    ensures agrees { PlaysAsSettled }
    ensures finishes { FinishesAsSettled }
{
    needs_point_back();
    rules_hold();
}

/// Two such lists that end all runs leave the same board, but for the order in which legs ended.
pub fn order_changes_only_the_ends()
    ensures { OnlyEndsDiffer }
{
    needs_point_back();
    rules_hold();
}
