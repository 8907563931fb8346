//! What holds of the board after every legal list of entries, each the contract of a function that does nothing.

ghost use Rattle.std.specs.Prelude.{◌≡◌, List, Some};
ghost use Rattle.board_settled.specs.Words.{Board, EndOnce, Entry, HasShape, IsPlan, Lawful, Plan, Stays, after, after_from};

use flow_model::laws::rules_hold;

/// A legal list of entries leaves a board of its plan's shape,
/// on which each leg that ended stands once among the ends.
pub fn legal_lists_keep_order()
    ensures shape { (p : Plan) (es : List Entry) (b : Board) → after p es ≡ Some b → HasShape p b }
    ensures ends { (p : Plan) (es : List Entry) (b : Board) → after p es ≡ Some b → EndOnce b }
{}

/// On the board after a legal list a group name has one holder and one waiter at most, and no waiter without
/// a holder; no leg waits for its own run; no more legs of a job are under way than it may have; and a leg
/// that is not Fresh is of an Open job, whose needs have ended.
pub fn legal_lists_are_lawful()
    ensures { (p : Plan) → IsPlan p → (es : List Entry) (b : Board)
        → after p es ≡ Some b → Lawful p b }
{
    rules_hold();
}

/// What has ended on the board after a legal list is as it was after each list that goes on from there.
#[tactic(auto, using(crate::proofs::Grouped::legal_stays))]
pub fn what_has_ended_stays()
    ensures { (p : Plan) → IsPlan p → (es more : List Entry) (b c : Board)
        → after p es ≡ Some b → after_from p b more ≡ Some c → Stays b c }
{
    rules_hold();
}
