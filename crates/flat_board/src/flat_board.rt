//! The flat body of the table: the board changed in place, with counters and an index of groups beside it.

ghost use Rattle.std.specs.Prelude.{◌≡◌, Ok, IfOk};
ghost use Rattle.flat_board.specs.Words.{InPlay, IsGroup, IsName, IsNamed, new_play};
ghost use Rattle.status_table.specs.Groups as spec;

use crate::grouped_board::GroupedBoard;
use crate::groups::{holder, leg_stand, next_after, run_stand, waiter};
use crate::moves::{find_first, find_moves};
use crate::undo::Undo;
use board_counters::Tracked;
use flow_model::{Board, CheckedPlan, Duplicate, Entry, Event, Leg, Member, Reply, Run, Sequence};
use group_admission::Groups;
use status_table::{EventFault, Reversible, Table};
use std::alloc::{AllocError, Global};
use std::marker::Model;

/// A plan in play, and how far it is, with what is counted of that and the groups by their names.
#[derive(Drop)]
pub struct FlatBoard {
    play: GroupedBoard,
}

impl Model for FlatBoard {
    ghost use Rattle.flat_board.specs.Words.{Play, coded_plain, codes};

    ghost Value = { Play };

    ghost coded = { Prim.hlevel (codes, coded_plain) };

    ghost use Rattle.flat_board.specs.Words.{IsSound, play_of};

    ghost view = { λ f. play_of f.play.state };

    ghost invariant = { λ f. IsSound f.play };
}

impl FlatBoard {
    /// A copy of the plan with its board on which all is new. It keeps the allocator.
    pub fn new(alloc: Global, plan: &CheckedPlan) -> Result<FlatBoard, AllocError>
        ensures { IfOk result (λ made. made ≡ new_play plan.now) }
    {
        FlatBoard::from_plan(alloc, plan.copy(alloc)?)
    }

    /// The plan, without a copy, with its board on which all is new. It keeps the allocator.
    pub fn from_plan(alloc: Global, plan: CheckedPlan) -> Result<FlatBoard, AllocError>
        ensures { IfOk result (λ made. made ≡ new_play plan) }
    {
        let state = Tracked::new(alloc, plan)?;
        let _plan = state.counted().plan();
        let groups = Groups::new(alloc);
        let play = GroupedBoard {
            state,
            groups,
            alloc,
        };
        Ok(FlatBoard { play })
    }

    /// The board, as `lend` gives it; its groups have names as `holder` and `next_after_leg` want them.
    pub fn board(&self) -> &Board
        ensures board { result.now ≡ self.now.board }
        ensures in_play { InPlay self.now.plan self.now.board }
        ensures named { IsNamed self.now.board }
    {
        self.play.state.counted().board()
    }

    /// The member that holds the name of a group.
    pub fn holder(&self, name: &str) -> Option<Member>
        requires { IsName name.now }
        ensures { result ≡ spec.holder self.now.board name.now }
    {
        holder(&self.play.groups, name)
    }

    /// The member that waits for the name of a group.
    pub fn waiter(&self, name: &str) -> Option<Member>
        requires { IsName name.now }
        ensures { result ≡ spec.waiter self.now.board name.now }
    {
        waiter(&self.play.groups, name)
    }

    /// Who goes on in the group of a leg when that leaves it.
    pub fn next_after_leg(&self, leg: &Leg) -> Option<Member>
        requires { IsGroup leg.now.group }
        ensures { result ≡ spec.next_after self.now.board (spec.leg_standing leg.now) }
    {
        next_after(&self.play.groups, leg_stand(leg.state), &leg.group)
    }

    /// Who goes on in the group of a run when that leaves it.
    pub fn next_after_run(&self, run: &Run) -> Option<Member>
        requires { IsGroup run.now.group }
        ensures { result ≡ spec.next_after self.now.board (spec.run_standing run.now) }
    {
        next_after(&self.play.groups, run_stand(run.state), &run.group)
    }
}

impl Table for FlatBoard {
    ghost plan = { λ f. f.plan };

    ghost board = { λ f. f.board };

    #[tactic(auto, using(crate::proofs::Playing::stays_same))]
    fn apply(&mut self, entry: Entry) -> Result<Reply, EventFault> {
        let _board = self.board();
        if entry.worker > 15 {
            return Err(EventFault::NoSuch);
        }
        self.play.play_asked(entry)
    }

    #[tactic(auto, using(crate::proofs::Playing::stays_same))]
    fn advance(&mut self, entry: Entry) -> Result<(), EventFault> {
        let _board = self.board();
        if entry.worker > 15 {
            return Err(EventFault::NoSuch);
        }
        self.play.advance_event(entry)
    }

    fn lend(&self) -> &Board {
        self.board()
    }

    fn view(&self) -> Result<Board, AllocError> {
        self.board().copy(self.play.alloc)
    }

    fn moves(&self) -> Result<Sequence<Event>, AllocError> {
        let events = find_moves(self.play.alloc, self.play.state.counted())?;
        Ok(Sequence::new(events))
    }

    fn first_move(&self) -> Result<Option<Event>, AllocError> {
        find_first(self.play.alloc, self.play.state.counted())
    }
}

impl Reversible for FlatBoard {
    type Undo = Undo;

    ghost use Rattle.flat_board.specs.Words.{Fits, board_before};

    ghost fits = { Fits };

    ghost before = { board_before };

    #[tactic(auto, using(crate::proofs::Playing::stays_same))]
    fn apply_with_undo(&mut self, entry: Entry) -> Result<(Reply, Undo), EventFault> {
        let _board = self.board();
        if entry.worker > 15 {
            return Err(EventFault::NoSuch);
        }
        self.play.play_with_undo(entry)
    }

    #[tactic(auto, using(crate::proofs::Playing::stays_same))]
    fn advance_with_undo(&mut self, entry: Entry) -> Result<Undo, EventFault> {
        let _board = self.board();
        if entry.worker > 15 {
            return Err(EventFault::NoSuch);
        }
        self.play.advance_with_undo(entry)
    }

    fn revert(&mut self, undo: Undo) {
        self.play.groups.names_ascend();
        self.play.take_back(undo);
    }
}
