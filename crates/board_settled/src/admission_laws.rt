//! Laws that join the table to the groups as they are kept by names.

ghost use Rattle.std.specs.Prelude.{◌≡◌, ℕ, List, Some};
ghost use Rattle.board_settled.specs.Words.{Answer, AsksAsEntered, Board, ClosesAsLeft, DropsAsLeft, EntersFromOutside, Entry, FinishesAsLeft, IsPlan, KeptAsShown, OpensAsEntered, Plan, StaysShown, after, groups_after};
ghost use Rattle.flow_model.specs.declared.event.Event.TheVariants as event;

use flow_model::laws::rules_hold;

/// Where a lawful board shows what the groups keep, it does
/// after a run is opened or a leg asks, which enters its group.
pub fn entering_is_shown()
    ensures open { OpensAsEntered }
    ensures ask { AsksAsEntered }
{}

/// Where a lawful board shows what the groups keep, it does after a run is closed, or a leg dropped or
/// finished, which releases what it held or leaves its wait.
pub fn leaving_is_shown()
    ensures close { ClosesAsLeft }
    ensures drop { DropsAsLeft }
    ensures finish { FinishesAsLeft }
{}

/// The other events ask nothing of the groups.
#[tactic(auto, using(status_table::proofs::Still::judge_shows, status_table::proofs::Still::take_shows, status_table::proofs::Still::begin_shows, status_table::proofs::Still::end_shows, status_table::proofs::Still::cancel_shows))]
pub fn others_ask_nothing()
    ensures judge { (j : ℕ) → StaysShown (event.Judge j) }
    ensures take { (l : ℕ) → StaysShown (event.Take l) }
    ensures begin { (l : ℕ) → StaysShown (event.Begin l) }
    ensures end { (l : ℕ) (a : Answer) → StaysShown (event.End l a) }
    ensures cancel { (r : ℕ) → StaysShown (event.Cancel r) }
{}

/// Where the groups begin with nobody, and are entered and left as the entries of a
/// legal list of a plan that breaks no rule ask, the board after the list shows what
/// they keep: who holds each name, and who waits for it. No member stands in two places
/// then, and a run that may be opened next, or a leg that may ask, is in no group.
pub fn legal_lists_are_shown()
    ensures kept { (p : Plan) → IsPlan p → (es : List Entry) (b : Board) → after p es ≡ Some b
        → KeptAsShown (groups_after p es) b }
    ensures enters { (p : Plan) → IsPlan p → (es : List Entry) (b : Board) → after p es ≡ Some b
        → EntersFromOutside p b (groups_after p es) }
{
    rules_hold();
}
