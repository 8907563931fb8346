//! What every board of the table promises.

ghost use Rattle.std.specs.Prelude.{◌≡◌, IfOk};
ghost use Rattle.flow_model.specs.declared.plan.Plan.{Plan};
ghost use Rattle.flow_model.specs.declared.board.Board.{Board};
ghost use Rattle.status_table.specs.Answers.{AnswersEntry};
ghost use Rattle.status_table.specs.InPlay.{InPlay};
ghost use Rattle.status_table.specs.Moves as spec;
ghost use Rattle.status_table.specs.Runs.{Plays};
ghost use Rattle.status_table.specs.Stays.{Stays};

use crate::fault::EventFault;
use flow_model::{Board, Entry, Event, Reply, Sequence};
use std::alloc::AllocError;

/// A plan in play.
pub trait Table {
    /// The plan.
    ghost plan: { Self → Plan };

    /// How far it is.
    ghost board: { Self → Board };

    /// Plays one entry. Its reply and the board are the row of the table, and what has ended stays as it is.
    ///
    /// # Errors
    ///
    /// The row's refusal, or `EventFault::Memory`. Nothing is changed then.
    fn apply(&mut self, entry: Entry) -> Result<Reply, EventFault>
        ensures plan_stays { plan self.new ≡ plan self.old }
        ensures answers { AnswersEntry (plan self.old) (board self.old)
            entry result (board self.new) }
        ensures in_play { InPlay (plan self.new) (board self.new) }
        ensures ended_stays { Stays (board self.old) (board self.new) };

    /// Plays one entry as `apply` does, where nobody asks for its reply.
    ///
    /// # Errors
    ///
    /// The row's refusal, or `EventFault::Memory`. Nothing is changed then.
    fn advance(&mut self, entry: Entry) -> Result<(), EventFault>
        ensures plan_stays { plan self.new ≡ plan self.old }
        ensures plays { Plays (plan self.old) (board self.old) entry result (board self.new) }
        ensures in_play { InPlay (plan self.new) (board self.new) }
        ensures ended_stays { Stays (board self.old) (board self.new) };

    /// The board, without a copy.
    fn lend(&self) -> &Board
        ensures board { result.now ≡ board self.now }
        ensures in_play { InPlay (plan self.now) (board self.now) };

    /// A copy of the board.
    fn view(&self) -> Result<Board, AllocError>
        ensures copy { IfOk result (λ b. b ≡ board self.now) }
        ensures in_play { InPlay (plan self.now) (board self.now) };

    /// The events of a clerk that the table accepts now: Close, Open,
    /// Judge, Drop and Ask, in this order, each by ascending number.
    ///
    /// # Errors
    ///
    /// `AllocError` where there is no memory for them.
    fn moves(&self) -> Result<Sequence<Event>, AllocError>
        ensures { IfOk result (λ es. es ≡ spec.moves (plan self.now) (board self.now)) };

    /// The first of these events, if there is one.
    ///
    /// # Errors
    ///
    /// `AllocError` where there is no memory to find it.
    fn first_move(&self) -> Result<Option<Event>, AllocError>
        ensures { IfOk result (λ first. first ≡ spec.first_move (plan self.now) (board self.now)) };
}
