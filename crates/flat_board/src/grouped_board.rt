//! A plan in play with its groups beside it, and entries played on both.

ghost use Rattle.std.specs.Prelude.{◌≡◌, ◌≤◌, IfOk, OnOk};
ghost use Rattle.flat_board.specs.Words.{Follows, FollowsUnasked, IsSound, RestoresGroups, answer_of, board_before, cell_of, done_of, most_changes};

use crate::undo::{CellBack, Undo, make_back};
use board_counters::Tracked;
use flow_model::{Entry, Event, Reply};
use group_admission::Groups;
use status_table::EventFault;
use std::alloc::Global;

/// A plan in play that can be taken back, the groups by their names, and the allocator: all that an event needs.
#[derive(Drop)]
pub(crate) struct GroupedBoard {
    pub(crate) state: Tracked,
    pub(crate) groups: Groups,
    pub(crate) alloc: Global,
}

/// How many changes of a board an event makes at most.
fn most_changes(event: &Event) -> usize
    ensures { result ≡ most_changes event.now }
{
    match event {
        Event::Open { .. } | Event::Ask { .. } => 4,
        Event::Drop { .. } | Event::Finish { .. } => 3,
        Event::Close { .. } => 2,
        Event::Judge { .. } | Event::Take { .. } | Event::Begin { .. } => 1,
        Event::End { .. } | Event::Cancel { .. } => 1,
    }
}

/// What was done, without what takes it back.
#[inline(always)]
fn done(played: Result<Undo, EventFault>) -> Result<(), EventFault>
    ensures { result ≡ done_of played }
{
    match played {
        Ok(_) => Ok(()),
        Err(fault) => Err(fault),
    }
}

impl GroupedBoard {
    /// Plays an event that a worker from 0 to 15 reports.
    fn apply_event(&mut self, entry: Entry) -> Result<(Reply, Option<CellBack>), EventFault>
        requires sound { IsSound self.old }
        requires room { most_changes entry.event ≤ self.old.state.room }
        ensures follows { Follows self.old self.new entry.worker entry.event (answer_of result) }
        ensures back { OnOk result (self.new.state.back ≡ self.old.state.back) }
        ensures cell { IfOk result (λ both. RestoresGroups both.1 self.old self.new) }
    {
        let Entry { worker, event } = entry;
        match event {
            Event::Open { run } => self.open(run),
            Event::Judge { job } => Ok((self.judge(job)?, None)),
            Event::Ask { leg } => self.ask(leg),
            Event::Drop { leg } => self.discard(leg),
            Event::Take { leg } => Ok((self.take(worker, leg)?, None)),
            Event::Begin { leg } => Ok((self.begin(worker, leg)?, None)),
            Event::End { leg, answer } => Ok((self.end(worker, leg, answer)?, None)),
            Event::Finish { leg } => self.finish(worker, leg),
            Event::Close { run } => self.close(run),
            Event::Cancel { run } => Ok((self.cancel(run)?, None)),
        }
    }

    /// Plays an event, and gives what was held of the name that it asked for.
    fn play_event(&mut self, entry: Entry) -> Result<(Reply, Option<CellBack>), EventFault>
        requires { IsSound self.old }
        ensures follows { Follows self.old self.new entry.worker entry.event (answer_of result) }
        ensures back { OnOk result (self.new.state.back ≡ self.old.state.board) }
        ensures cell { IfOk result (λ both. RestoresGroups both.1 self.old self.new) }
    {
        self.state.begin(most_changes(&entry.event))?;
        self.apply_event(entry)
    }

    /// Plays an event, and gives its reply alone.
    pub(crate) fn play_asked(&mut self, entry: Entry) -> Result<Reply, EventFault>
        requires { IsSound self.old }
        ensures follows { Follows self.old self.new entry.worker entry.event result }
    {
        let (reply, _) = self.play_event(entry)?;
        Ok(reply)
    }

    /// Plays an event, and lets its reply go. It stands apart, so that what plays most events has no room for a
    /// reply.
    #[inline(never)]
    fn play_unasked(&mut self, entry: Entry) -> Result<(), EventFault>
        requires { IsSound self.old }
        ensures follows { FollowsUnasked self.old self.new entry.worker entry.event result }
    {
        self.play_asked(entry)?;
        Ok(())
    }

    /// Plays an event whose reply nobody asks for.
    pub(crate) fn advance_event(&mut self, entry: Entry) -> Result<(), EventFault>
        requires { IsSound self.old }
        ensures follows { FollowsUnasked self.old self.new entry.worker entry.event result }
    {
        let Entry { worker, event } = entry;
        match event {
            Event::Begin { leg } => done(self.begin_unasked(worker, leg)),
            Event::End { leg, answer } => done(self.end_unasked(worker, leg, answer)),
            other => self.play_unasked(Entry {
                worker,
                event: other,
            }),
        }
    }

    /// Plays an event, and gives what takes it back.
    pub(crate) fn play_with_undo(&mut self, entry: Entry) -> Result<(Reply, Undo), EventFault>
        requires { IsSound self.old }
        ensures follows { Follows self.old self.new entry.worker entry.event (answer_of result) }
        ensures back { IfOk result
            (λ both. board_before both.1 self.new.state.board ≡ self.old.state.board) }
        ensures cell { IfOk result (λ both. RestoresGroups (cell_of both.1) self.old self.new) }
    {
        let back = make_back(self.alloc)?;
        let (reply, cell) = self.play_event(entry)?;
        Ok((reply, self.undo_of(back, cell)))
    }

    /// Plays an event whose reply nobody asks for, and gives what takes it back.
    pub(crate) fn advance_with_undo(&mut self, entry: Entry) -> Result<Undo, EventFault>
        requires { IsSound self.old }
        ensures follows { FollowsUnasked self.old self.new entry.worker entry.event (done_of result) }
        ensures back { IfOk result
            (λ undo. board_before undo self.new.state.board ≡ self.old.state.board) }
        ensures cell { IfOk result (λ undo. RestoresGroups (cell_of undo) self.old self.new) }
    {
        let Entry { worker, event } = entry;
        match event {
            Event::Begin { leg } => self.begin_unasked(worker, leg),
            Event::End { leg, answer } => self.end_unasked(worker, leg, answer),
            other => {
                let (_, undo) = self.play_with_undo(Entry {
                    worker,
                    event: other,
                })?;
                Ok(undo)
            },
        }
    }
}
