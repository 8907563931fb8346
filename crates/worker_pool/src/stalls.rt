//! Why nothing goes on where not all is done, as the contract of a function that does nothing.

ghost use Rattle.std.specs.Prelude.{◌≡◌, List, Some, true, false};
ghost use Rattle.flow_model.specs.Rules.{IsPlan};
ghost use Rattle.flow_model.specs.declared.board.Board.{Board};
ghost use Rattle.flow_model.specs.declared.event.Entry.{Entry};
ghost use Rattle.flow_model.specs.declared.plan.Plan.{Plan};
ghost use Rattle.status_table.specs.Moves.{stalled};
ghost use Rattle.status_table.specs.Runs.{after};
ghost use Rattle.worker_pool.specs.Stalls.{HasNoJobGroup, WaitsForAnotherRun};

use flow_model::laws::rules_hold;

/// After a legal list of entries of a plan that breaks no rule, nothing goes on before all is done only where a leg
/// waits for a group that another Going run holds. So where no job of the plan has a group, something always goes on
/// until all is done.
pub fn stalled_only_by_groups()
    ensures waits { (p : Plan) → IsPlan p → (es : List Entry) (b : Board)
        → after p es ≡ Some b → stalled p b ≡ true → WaitsForAnotherRun p b }
    ensures never { (p : Plan) → IsPlan p → HasNoJobGroup p → (es : List Entry) (b : Board)
        → after p es ≡ Some b → stalled p b ≡ false }
{
    rules_hold();
}
