//! What a board of the table promises besides, whose entries can be taken back.

ghost use Rattle.std.specs.Prelude.{◌≡◌, IfOk};
ghost use Rattle.flow_model.specs.declared.board.Board.{Board};
ghost use Rattle.flow_model.specs.declared.plan.Plan.{Plan};
ghost use Rattle.status_table.specs.Answers.{AnswersEntry};
ghost use Rattle.status_table.specs.InPlay.{InPlay};
ghost use Rattle.status_table.specs.Reversible.{answer_of, done_of};
ghost use Rattle.status_table.specs.Runs.{Plays};
ghost use Rattle.status_table.specs.Stays.{Stays};

use crate::fault::EventFault;
use crate::table::Table;
use flow_model::{Entry, Reply};

/// A plan in play whose entries can be taken back, the last one first.
pub trait Reversible: Table + Drop {
    /// What takes one entry back. It stands for two boards: the one
    /// that it fits, which the entry led to, and the one before it.
    type Undo: Drop + Send;

    /// Whether an undo takes this board of a plan back.
    ghost fits: { Self.Undo → Plan → Board → Type 0 };

    /// The board to which it takes that one back.
    ghost before: { Self.Undo → Board → Board };

    /// Plays one entry, as `apply` does, and gives what takes it back.
    ///
    /// # Errors
    ///
    /// The row's refusal, or `EventFault::Memory`. Nothing is changed then.
    fn apply_with_undo(&mut self, entry: Entry) -> Result<(Reply, Self::Undo), EventFault>
        ensures plan_stays { Self.plan self.new ≡ Self.plan self.old }
        ensures answers { AnswersEntry (Self.plan self.old) (Self.board self.old)
            entry (answer_of result) (Self.board self.new) }
        ensures in_play { InPlay (Self.plan self.new) (Self.board self.new) }
        ensures ended_stays { Stays (Self.board self.old) (Self.board self.new) }
        ensures fits { IfOk result (λ both. fits both.1 (Self.plan self.new) (Self.board self.new)) }
        ensures before { IfOk result (λ both. before both.1 (Self.board self.new) ≡ Self.board self.old) };

    /// Plays one entry, as `advance` does, and gives what takes it back.
    ///
    /// # Errors
    ///
    /// The row's refusal, or `EventFault::Memory`. Nothing is changed then.
    fn advance_with_undo(&mut self, entry: Entry) -> Result<Self::Undo, EventFault>
        ensures plan_stays { Self.plan self.new ≡ Self.plan self.old }
        ensures plays { Plays (Self.plan self.old) (Self.board self.old)
            entry (done_of result) (Self.board self.new) }
        ensures in_play { InPlay (Self.plan self.new) (Self.board self.new) }
        ensures ended_stays { Stays (Self.board self.old) (Self.board self.new) }
        ensures fits { IfOk result (λ undo. fits undo (Self.plan self.new) (Self.board self.new)) }
        ensures before { IfOk result (λ undo. before undo (Self.board self.new) ≡ Self.board self.old) };

    /// Takes back the entry to whose board the undo belongs. It takes no memory.
    fn revert(&mut self, undo: Self::Undo)
        requires { fits undo (Self.plan self.old) (Self.board self.old) }
        ensures plan_stays { Self.plan self.new ≡ Self.plan self.old }
        ensures before { Self.board self.new ≡ before undo (Self.board self.old) }
        ensures in_play { InPlay (Self.plan self.new) (Self.board self.new) };
}
