//! The plain body of the table: the board itself, changed in place.

ghost use Rattle.std.specs.Prelude.{◌≡◌, IfOk};
ghost use Rattle.flow_model.specs.declared.board.Board.{Board};
ghost use Rattle.status_table.specs.Answers.{Answers};
ghost use Rattle.status_table.specs.InPlay.{InPlay};
ghost use Rattle.status_table.specs.Moves.{moves};
ghost use Rattle.status_table.specs.Row.{event_row};
ghost use Rattle.status_table.specs.Runs.{new_play};
ghost use Rattle.status_table.specs.Shape.{HasFewLegs};

use crate::events::{CallEnd, ask, begin, cancel, close, discard, end, finish, judge, open, take};
use crate::fault::EventFault;
use crate::moves::find_moves;
use crate::new_board::make_board;
use crate::reversible::Reversible;
use crate::table::Table;
use flow_model::{Board, CheckedPlan, Duplicate, Entry, Event, Plan, Reply, Sequence};
use std::alloc::{AllocError, Global};
use std::marker::Model;

/// A plan in play, and how far it is.
#[derive(Drop)]
pub struct PlainBoard {
    plan: CheckedPlan,
    board: Board,
    alloc: Global,
}

impl Model for PlainBoard {
    ghost use Rattle.std.specs.Coded.{codes};
    ghost use Rattle.flow_model.specs.Plain.{coded_plain};
    ghost use Rattle.status_table.specs.Play.{Play};

    ghost Value = { Play };

    ghost coded = { Prim.hlevel (codes, coded_plain) };

    ghost view = { λ p. record { plan = p.plan; board = p.board } };

    ghost use Rattle.status_table.specs.InPlay.{InPlay};

    ghost invariant = { λ p. InPlay p.plan p.board };
}

impl PlainBoard {
    /// A copy of the plan with its board on which all is new. It keeps the allocator.
    pub fn new(alloc: Global, plan: &CheckedPlan) -> Result<PlainBoard, AllocError>
        ensures { IfOk result (λ made. made ≡ new_play plan.now) }
    {
        PlainBoard::from_plan(alloc, plan.copy(alloc)?)
    }

    /// The plan, without a copy, with its board on which all is new. It keeps the allocator.
    pub fn from_plan(alloc: Global, plan: CheckedPlan) -> Result<PlainBoard, AllocError>
        ensures { IfOk result (λ made. made ≡ new_play plan) }
    {
        let board = make_board(alloc, plan.plan())?;
        Ok(PlainBoard { plan, board, alloc })
    }

    /// The clerk's events that the table accepts.
    fn clerk_moves(&self) -> Result<Vec<Event>, AllocError>
        ensures { IfOk result (λ all. all.items ≡ moves self.now.plan self.now.board) }
    {
        find_moves(self.alloc, self.plan.plan(), &self.board)
    }
}

/// Plays an event that a worker from 0 to 15 reports.
fn apply_event(
    alloc: Global,
    plan: &Plan,
    board: &mut Board,
    worker: u8,
    event: Event,
) -> Result<Reply, EventFault>
    requires in_play { InPlay plan.now board.old }
    requires few { HasFewLegs board.old }
    ensures { Answers (event_row plan.now board.old worker event) board.old result board.new }
{
    match event {
        Event::Open { run } => open(alloc, plan, board, run),
        Event::Judge { job } => judge(alloc, plan, board, job),
        Event::Ask { leg } => ask(alloc, plan, board, leg),
        Event::Drop { leg } => discard(alloc, plan, board, leg),
        Event::Take { leg } => take(alloc, plan, board, worker, leg),
        Event::Begin { leg } => begin(alloc, plan, board, worker, leg),
        Event::End { leg, answer } => end(alloc, plan, board, worker, CallEnd { leg, answer }),
        Event::Finish { leg } => finish(alloc, plan, board, worker, leg),
        Event::Close { run } => close(plan, board, run),
        Event::Cancel { run } => cancel(plan, board, run),
    }
}

impl Table for PlainBoard {
    ghost plan = { λ p. p.plan };

    ghost board = { λ p. p.board };

    fn apply(&mut self, entry: Entry) -> Result<Reply, EventFault> {
        let plan = self.plan.plan();
        if entry.worker > 15 {
            return Err(EventFault::NoSuch);
        }
        apply_event(self.alloc, plan, &mut self.board, entry.worker, entry.event)
    }

    fn advance(&mut self, entry: Entry) -> Result<(), EventFault> {
        self.apply(entry)?;
        Ok(())
    }

    fn lend(&self) -> &Board {
        &self.board
    }

    fn view(&self) -> Result<Board, AllocError> {
        self.board.copy(self.alloc)
    }

    fn moves(&self) -> Result<Sequence<Event>, AllocError> {
        Ok(Sequence::new(self.clerk_moves()?))
    }

    fn first_move(&self) -> Result<Option<Event>, AllocError> {
        Ok(self.clerk_moves()?.into_iter().next())
    }
}

impl Reversible for PlainBoard {
    /// The board before, which is moved back.
    type Undo = Board;

    ghost use Rattle.status_table.specs.InPlay.{InPlay};

    ghost fits = { λ undo plan board. InPlay plan undo };

    ghost before = { λ undo board. undo };

    fn apply_with_undo(&mut self, entry: Entry) -> Result<(Reply, Board), EventFault> {
        let before = self.view()?;
        let reply = self.apply(entry)?;
        Ok((reply, before))
    }

    fn advance_with_undo(&mut self, entry: Entry) -> Result<Board, EventFault> {
        let before = self.view()?;
        self.advance(entry)?;
        Ok(before)
    }

    fn revert(&mut self, undo: Board) {
        self.board = undo;
    }
}
