//! How long a legal list of entries of a plan that breaks no rule
//! can be, as the contract of a function that does nothing.

ghost use Rattle.std.specs.Prelude.{◌≡◌, ◌≤◌, List, Some, length};
ghost use Rattle.flow_model.specs.Rules.{IsPlan};
ghost use Rattle.flow_model.specs.declared.board.Board.{Board};
ghost use Rattle.flow_model.specs.declared.event.Entry.{Entry};
ghost use Rattle.flow_model.specs.declared.plan.Plan.{Plan};
ghost use Rattle.status_table.specs.Runs.{after};

use flow_model::laws::rules_hold;

/// A legal list has at most 2,113,728 entries: 3 for each of 64
/// runs, 1 for each of 4,096 jobs, and 515 for each of 4,096 legs.
pub fn legal_lists_are_short()
    ensures { (p : Plan) → IsPlan p → (es : List Entry) (b : Board)
        → after p es ≡ Some b → length es ≤ 2113728 }
{
    rules_hold();
}
