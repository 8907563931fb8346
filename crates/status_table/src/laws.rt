//! Where jobs and legs stand, as the contract of a function that does nothing.

ghost use Rattle.std.specs.Prelude.{◌≡◌, ℕ, Some};
ghost use Rattle.board_decisions.specs.Numbered.{HasAsMany, IsNumberedIn, IsPlannedAt, JobsAreNumbered, LegsAreNumbered};
ghost use Rattle.board_decisions.specs.Place.{JobAt, LegAt, job_at, leg_at};
ghost use Rattle.flow_model.specs.declared.board.Board.{Board};
ghost use Rattle.flow_model.specs.declared.plan.Plan.{Plan};
ghost use Rattle.status_table.specs.InPlay.{InPlay};
ghost use Rattle.status_table.specs.Shape.{HasShape};

/// Jobs and legs stand where their numbers say: number n is that of item n of all of them, on the board and
/// in the plan, and a job's plan has it too.
pub fn numbers_are_places()
    ensures jobs { (b : Board) → JobsAreNumbered b }
    ensures legs { (b : Board) → LegsAreNumbered b }
    ensures planned { (p : Plan) (b : Board) (j : ℕ) (at : JobAt)
        → InPlay p b → job_at p b j ≡ Some at → IsNumberedIn p j at }
    ensures planned_legs { (p : Plan) (b : Board) (l : ℕ) (at : LegAt)
        → HasShape p b → leg_at p b l ≡ Some at → IsPlannedAt p l at }
    ensures as_many { (p : Plan) (b : Board) → HasShape p b → HasAsMany p b }
{}
