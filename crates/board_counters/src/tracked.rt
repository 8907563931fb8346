//! A plan in play with its counters, and what takes back what was changed since it last began.

ghost use Rattle.std.specs.Prelude.{◌≡◌, ◌≤◌, ◌+◌, ◌-◌, ◌++◌, ◌∷◌, [], None, IfOk, IfSome, OnOk, OnErr};
ghost use Rattle.board_counters.specs.Changes as spec;
ghost use Rattle.board_counters.specs.Words.{Board as BoardOf, HasRoomFor, leg_after, only_before, small_vec_len, undone, with_leg, with_run};
ghost use Rattle.status_table.specs.Row as row;

use crate::change::RunChange;
use crate::counted::Counted;
use crate::undo::{Change, Changes, OnlyChange};
use board_decisions::place::{JobPlace, LegPlace};
use flow_model::{CheckedPlan, DoneStep, JobState, LegState};
use smallvec::SmallVec;
use status_table::change::LegChange;
use std::alloc::{AllocError, Global};
use std::marker::Model;
use std::mem;

/// Keeps what takes a change back, where there is room for it.
fn keep(changes: &mut Changes, change: Change)
    requires { HasRoomFor changes.old 1 }
    ensures items { changes.new.items ≡ changes.old.items ++ change ∷ [] }
    ensures room { changes.old.capacity - small_vec_len changes.old
        ≤ (changes.new.capacity - small_vec_len changes.new) + 1 }
{
    changes.push_reserved(change);
}

/// Takes changes back, the last one first. It takes no memory.
fn take_all_back(counted: &mut Counted, alloc: Global, changes: Changes)
    ensures plan { counted.new.plan ≡ counted.old.plan }
    ensures board { counted.new.board ≡ undone changes.items counted.old.board }
{
    let mut left = changes;
    while let Some(change) = left.pop() {
        counted.take_back(alloc, change);
    }
}

/// What puts a leg back, where that is its state alone.
fn state_back(place: LegPlace, how: &LegChange) -> Option<OnlyChange>
    ensures { IfSome result (λ only. (b : BoardOf)
        → with_leg b place (leg_after how.now) ≡ only_before only b) }
{
    match how {
        LegChange::State(state) => Some(OnlyChange::State(*state, place)),
        LegChange::Group(..) | LegChange::Outputs(..) | LegChange::Stop(_) => None,
    }
}

/// The only one of some changes, where that is a leg's state or a step that is done.
fn only_of(changes: &[Change]) -> Option<OnlyChange>
    ensures { IfSome result (λ only. (b : BoardOf) → undone changes.now b ≡ only_before only b) }
{
    match changes {
        [Change::Leg(place, how)] => state_back(*place, how),
        [Change::Step(place, state)] => Some(OnlyChange::Step(*state, *place)),
        [Change::Job(..) | Change::Run(..) | Change::End] => None,
        [] | [_, _, ..] => None,
    }
}

/// A plan in play with its counters, and what takes back each change since the last `begin`.
#[derive(Drop)]
pub struct Tracked {
    counted: Counted,
    changes: Changes,
}

impl Model for Tracked {
    ghost use Rattle.std.specs.Prelude.{◌-◌};
    ghost use Rattle.board_counters.specs.Words.{Track, coded_plain, codes, small_vec_len};

    ghost Value = { Track };

    ghost coded = { Prim.hlevel (codes, coded_plain) };

    ghost use Rattle.board_counters.specs.Words.{undone};

    ghost view = { λ t. record {
      plan = t.counted.plan;
      board = t.counted.board;
      back = undone t.changes.items t.counted.board;
      room = t.changes.capacity - small_vec_len t.changes;
    } };
}

impl Tracked {
    ghost use Rattle.board_counters.specs.Words.{Board, new_play, play_of};
    ghost use Rattle.std.specs.Prelude.{ℕ};

    /// The plan with its board on which all is new.
    pub fn new(alloc: Global, plan: CheckedPlan) -> Result<Tracked, AllocError>
        ensures { IfOk result (λ made. play_of made ≡ new_play plan) }
    {
        let counted = Counted::new(alloc, plan)?;
        let changes = SmallVec::new(alloc);
        Ok(Tracked { counted, changes })
    }

    /// The plan, its board and what is counted.
    #[inline(always)]
    pub fn counted(&self) -> &Counted
        ensures { result.now ≡ play_of self.now }
    {
        &self.counted
    }

    /// Begins anew: from here on it leads back to this board. There is room for so many changes, unless memory
    /// runs out.
    pub fn begin(&mut self, room: usize) -> Result<(), AllocError>
        ensures plan { self.new.plan ≡ self.old.plan }
        ensures board { self.new.board ≡ self.old.board }
        ensures back { self.new.back ≡ self.old.board }
        ensures room { OnOk result (room ≤ self.new.room) }
    {
        self.changes.clear();
        self.changes.reserve_exact(room)?;
        Ok(())
    }

    /// What takes back all changes since it began, and it begins anew. It takes no memory.
    pub fn take_changes(&mut self, alloc: Global) -> Changes
        ensures plan { self.new.plan ≡ self.old.plan }
        ensures board { self.new.board ≡ self.old.board }
        ensures back { undone result.items self.new.board ≡ self.old.back }
    {
        mem::replace(&mut self.changes, SmallVec::new(alloc))
    }

    /// What takes back the only change since it began, where that is a leg's state or a step that is done; it begins
    /// anew then, and keeps its memory. Else nothing is changed.
    pub fn take_only(&mut self) -> Option<OnlyChange>
        ensures plan { self.new.plan ≡ self.old.plan }
        ensures board { self.new.board ≡ self.old.board }
        ensures back { IfSome result (λ only. only_before only self.new.board ≡ self.old.back) }
        ensures none { result ≡ None → self.new.back ≡ self.old.back }
    {
        let only = only_of(self.changes.as_slice())?;
        self.changes.clear();
        Some(only)
    }

    /// Takes the only change of an entry back. It takes no memory.
    pub fn revert_only(&mut self, alloc: Global, only: OnlyChange)
        ensures plan { self.new.plan ≡ self.old.plan }
        ensures board { self.new.board ≡ only_before only self.old.board }
    {
        match only {
            OnlyChange::State(state, place) => {
                let _was = self.counted.set_leg_state(place, state);
            },
            OnlyChange::Step(state, place) => self.counted.take_done(alloc, place, state),
        }
    }

    /// Takes changes back, the last one first. It takes no memory.
    pub fn revert(&mut self, alloc: Global, changes: Changes)
        ensures plan { self.new.plan ≡ self.old.plan }
        ensures board { self.new.board ≡ undone changes.items self.old.board }
    {
        take_all_back(&mut self.counted, alloc, changes);
    }

    /// Changes the leg at a place, where there is one.
    #[tactic(auto, using(crate::proofs::Undone::undone_last))]
    pub fn change_leg(&mut self, place: LegPlace, how: LegChange)
        requires { 1 ≤ self.old.room }
        ensures plan { self.new.plan ≡ self.old.plan }
        ensures board { self.new.board ≡ with_leg self.old.board place (leg_after how) }
        ensures back { self.new.back ≡ self.old.back }
        ensures room { self.old.room ≤ self.new.room + 1 }
    {
        let change = self.counted.change_leg(place, how);
        keep(&mut self.changes, change);
    }

    /// Puts a job into a state.
    #[tactic(auto, using(crate::proofs::Undone::undone_last))]
    pub fn set_job(&mut self, place: JobPlace, state: JobState)
        requires { 1 ≤ self.old.room }
        ensures plan { self.new.plan ≡ self.old.plan }
        ensures board { self.new.board ≡ row.job_state_set self.old.board place state }
        ensures back { self.new.back ≡ self.old.back }
    {
        let change = self.counted.set_job(place, state);
        keep(&mut self.changes, change);
    }

    /// Makes room for so many steps in the leg at a place, where there is one and none of its steps is done. Nothing is
    /// changed.
    pub fn make_room(
        &mut self,
        alloc: Global,
        place: LegPlace,
        steps: usize,
    ) -> Result<(), AllocError>
        ensures { self.new ≡ self.old }
    {
        self.counted.make_room(alloc, place, steps)
    }

    /// Adds a done step to a leg, which is idle again; where memory runs out, nothing is changed.
    #[tactic(auto, using(crate::proofs::Undone::undone_last))]
    pub fn add_done(
        &mut self,
        place: LegPlace,
        worker: u8,
        done: DoneStep,
    ) -> Result<(), AllocError>
        requires { 1 ≤ self.old.room }
        ensures plan { self.new.plan ≡ self.old.plan }
        ensures ok { OnOk result
            (self.new.board ≡ row.step_done self.old.board place worker done) }
        ensures err { OnErr result (self.new.board ≡ self.old.board) }
        ensures back { OnOk result (self.new.back ≡ self.old.back) }
    {
        let was = self.counted.add_done(place, worker, done)?;
        keep(&mut self.changes, Change::Step(place, was));
        Ok(())
    }

    /// Puts the leg at a place, where there is one, into a state, as the only change of an entry, and gives what takes that
    /// back. It is for the caller to keep it: where all leads back to is another board from here on.
    #[inline(always)]
    pub fn set_state_alone(&mut self, place: LegPlace, to: LegState) -> OnlyChange
        ensures plan { self.new.plan ≡ self.old.plan }
        ensures board { self.new.board ≡ row.leg_state_set self.old.board place to }
        ensures back { only_before result self.new.board ≡ self.old.board }
    {
        OnlyChange::State(self.counted.set_leg_state(place, to), place)
    }

    /// Adds a done step to the leg at a place, where there is one, which is idle again, as the only change of an entry, and
    /// gives what takes that back, likewise; where memory runs out, nothing is changed.
    #[inline(always)]
    pub fn add_done_alone(
        &mut self,
        place: LegPlace,
        worker: u8,
        done: DoneStep,
    ) -> Result<OnlyChange, AllocError>
        ensures plan { self.new.plan ≡ self.old.plan }
        ensures ok { OnOk result
            (self.new.board ≡ row.step_done self.old.board place worker done) }
        ensures err { OnErr result (self.new.board ≡ self.old.board) }
        ensures back { IfOk result (λ only. only_before only self.new.board ≡ self.old.board) }
    {
        let was = self.counted.add_done(place, worker, done)?;
        Ok(OnlyChange::Step(was, place))
    }

    /// Changes a run, but not its jobs.
    #[tactic(auto, using(crate::proofs::Undone::undone_last))]
    pub fn change_run(&mut self, number: u64, how: RunChange)
        requires { 1 ≤ self.old.room }
        ensures plan { self.new.plan ≡ self.old.plan }
        ensures board { self.new.board ≡ with_run self.old.board number (spec.run_after how) }
        ensures back { self.new.back ≡ self.old.back }
        ensures room { self.old.room ≤ self.new.room + 1 }
    {
        let change = self.counted.change_run(number as usize, how);
        keep(&mut self.changes, change);
    }

    /// Notes a leg as the last that ended; where memory runs out, nothing is changed.
    #[tactic(auto, using(crate::proofs::Undone::undone_last))]
    pub fn push_end(&mut self, number: u64) -> Result<(), AllocError>
        requires { 1 ≤ self.old.room }
        ensures plan { self.new.plan ≡ self.old.plan }
        ensures ok { OnOk result (self.new.board ≡ spec.noted_last self.old.board number) }
        ensures err { OnErr result (self.new.board ≡ self.old.board) }
        ensures back { OnOk result (self.new.back ≡ self.old.back) }
        ensures room { OnOk result (self.old.room ≤ self.new.room + 1) }
    {
        let change = self.counted.push_end(number)?;
        keep(&mut self.changes, change);
        Ok(())
    }

    /// Takes back that a leg was noted, where nothing else is to be taken back any more. It takes no memory.
    pub fn pop_end(&mut self, alloc: Global)
        ensures plan { self.new.plan ≡ self.old.plan }
        ensures board { (b : Board) (l : ℕ)
            → self.old.board ≡ spec.noted_last b l → self.new.board ≡ b }
    {
        self.counted.pop_end(alloc);
    }
}
