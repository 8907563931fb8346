//! The events of the table, each as a change of a board with its counters and its index of groups.
//!
//! Each function looks for a refusal first, makes what room it needs, and only then changes the board.

ghost use Rattle.std.specs.Prelude.{◌≡◌, ◌≤◌, Some};
ghost use Rattle.flat_board.specs.Words.{Answered, Decides, InPlay, KeptAsShown, MovedBy, NamesKnown, content, job_at, job_seen};
ghost use Rattle.flow_model.specs.declared.event.Event.TheVariants as event;
ghost use Rattle.status_table.specs.Row as spec;

use crate::found::{find_job, find_leg, is_full, is_stopping, keep};
use crate::grouped_board::GroupedBoard;
use crate::groups::{Asker, leave, leave_leg, leg_stand, next_after, run_stand};
use crate::members::{close_run, drop_leg, pass_on, set_ended, stop_run};
use crate::undo::CellBack;
use board_counters::Counted;
use board_decisions::ancestors::job_status_kept;
use board_decisions::decisions::{job_condition, leg_entrance, leg_outputs, run_entrance};
use board_decisions::derived::is_closed;
use board_decisions::place::{SeenJob, find_run};
use flow_model::{Answer, JobState, LegState, Member, Outcome, Reply, RunState, What};
use status_table::EventFault;
use status_table::change::LegChange;
use status_table::events::{
    Begun, beginning, ended_step, ending, failed_step, finishing_kept, judged_state, may_ask,
    may_drop, reply, skipped_step,
};
use status_table::groups::{moved, told};
use std::alloc::Global;

/// The state into which a job is judged, or why it is not.
fn judgement(
    alloc: Global,
    state: &Counted,
    number: u64,
    at: &SeenJob,
) -> Result<JobState, EventFault>
    requires play { InPlay state.now.plan state.now.board }
    requires found { job_at state.now.plan state.now.board number ≡ Some (job_seen at.now) }
    ensures { Decides (spec.judgement number (job_seen at.now)) result }
{
    match (at.run.state, at.job.state) {
        (RunState::Going, JobState::Unjudged) => {},
        (RunState::Going, JobState::Open | JobState::Shut(_)) => return Err(EventFault::WrongState),
        (RunState::New | RunState::Waiting, _) => return Err(EventFault::WrongState),
        (RunState::Closed(_), _) => return Err(EventFault::WrongState),
    }
    if !state.have_needs_ended(at.place) {
        return Err(EventFault::NeedsOpen);
    }
    let first = number.saturating_sub(at.place.job as u64);
    let succeeded = state.do_jobs_succeed(at.place.run);
    let status = job_status_kept(alloc, first, at, succeeded)?;
    Ok(judged_state(at.run.stop, job_condition(alloc, at, status))?)
}

impl GroupedBoard {
    /// Starts a run that is new.
    #[tactic(auto, using(crate::proofs::Reached::opens_outside))]
    pub(crate) fn open(&mut self, number: u64) -> Result<(Reply, Option<CellBack>), EventFault>
        requires kept { KeptAsShown (content self.old.groups) self.old.state.board }
        requires room { 4 ≤ self.old.state.room }
        ensures { MovedBy self.old self.new 0 (event.Open number) result }
    {
        let play = self.state.counted();
        let Some(at) = find_run(play.plan(), play.board(), number as usize) else {
            return Err(EventFault::NoSuch);
        };
        match (at.run.state, at.run.stop) {
            (RunState::New, false) => {},
            (RunState::New, true) => return Err(EventFault::Stopping),
            (RunState::Waiting | RunState::Going, _) => return Err(EventFault::WrongState),
            (RunState::Closed(_), _) => return Err(EventFault::WrongState),
        }
        let group = run_entrance(self.alloc, &at);
        self.enter_run(number, group)
    }

    /// Opens or shuts a job whose needs have ended.
    pub(crate) fn judge(&mut self, number: u64) -> Result<Reply, EventFault>
        requires play { InPlay self.old.state.plan self.old.state.board }
        requires room { 1 ≤ self.old.state.room }
        ensures { Answered self.old self.new 0 (event.Judge number) result }
    {
        let play = self.state.counted();
        let Some(at) = find_job(play, number) else {
            return Err(EventFault::NoSuch);
        };
        let to = judgement(self.alloc, play, number, &at)?;
        let place = at.place;
        self.state.set_job(place, to);
        Ok(moved())
    }

    /// A leg asks to be admitted.
    pub(crate) fn ask(&mut self, number: u64) -> Result<(Reply, Option<CellBack>), EventFault>
        requires kept { KeptAsShown (content self.old.groups) self.old.state.board }
        requires room { 4 ≤ self.old.state.room }
        ensures { MovedBy self.old self.new 0 (event.Ask number) result }
    {
        let Some(leg) = find_leg(self.state.counted(), number) else {
            return Err(EventFault::NoSuch);
        };
        if !may_ask(&leg.at) {
            return Err(EventFault::WrongState);
        }
        if is_full(&leg) {
            return Err(EventFault::SlotsFull);
        }
        if is_stopping(self.alloc, &leg)? {
            return Err(EventFault::Stopping);
        }
        let run = leg.at.place.run as u64;
        let group = leg_entrance(self.alloc, &leg.at);
        self.enter_leg(Asker { leg: number, run }, group)
    }

    /// Drops a leg that is to stop before a worker took it.
    pub(crate) fn discard(&mut self, number: u64) -> Result<(Reply, Option<CellBack>), EventFault>
        requires kept { KeptAsShown (content self.old.groups) self.old.state.board }
        requires names { NamesKnown self.old.groups self.old.state.board }
        requires room { 3 ≤ self.old.state.room }
        ensures { MovedBy self.old self.new 0 (event.Drop number) result }
    {
        let Some(leg) = find_leg(self.state.counted(), number) else {
            return Err(EventFault::NoSuch);
        };
        if !may_drop(&leg.at) {
            return Err(EventFault::WrongState);
        }
        if !is_stopping(self.alloc, &leg)? {
            return Err(EventFault::NotStopping);
        }
        let place = leg.at.place;
        let stand = leg_stand(leg.at.leg.state);
        let next = next_after(&self.groups, stand, &leg.at.leg.group);
        drop_leg(&mut self.state, number, Outcome::Cancelled)?;
        let cell = leave_leg(
            &mut self.groups,
            self.state.counted().board(),
            place,
            number,
        );
        pass_on(&mut self.state, next);
        Ok((told(next, None, None), cell))
    }

    /// Gives a leg that is admitted to a worker.
    pub(crate) fn take(&mut self, worker: u8, number: u64) -> Result<Reply, EventFault>
        requires { 1 ≤ self.old.state.room }
        ensures { Answered self.old self.new worker (event.Take number) result }
    {
        let Some(leg) = find_leg(self.state.counted(), number) else {
            return Err(EventFault::NoSuch);
        };
        match leg.at.leg.state {
            LegState::Admitted => {},
            LegState::Fresh | LegState::Waiting => return Err(EventFault::WrongState),
            LegState::Running { .. } | LegState::Ended { .. } => return Err(EventFault::WrongState),
        }
        if is_stopping(self.alloc, &leg)? {
            return Err(EventFault::Stopping);
        }
        let place = leg.at.place;
        // a list that grows step by step would end up with up to twice the room
        let steps = leg.at.job_plan.steps.len();
        self.state.make_room(self.alloc, place, steps)?;
        self.state.change_leg(
            place,
            LegChange::State(LegState::Running {
                worker,
                in_call: false,
            }),
        );
        Ok(moved())
    }

    /// Begins the next step of a leg: its call, that it is skipped, or that it failed.
    pub(crate) fn begin(&mut self, worker: u8, number: u64) -> Result<Reply, EventFault>
        requires { 1 ≤ self.old.state.room }
        ensures { Answered self.old self.new worker (event.Begin number) result }
    {
        let Some(leg) = find_leg(self.state.counted(), number) else {
            return Err(EventFault::NoSuch);
        };
        let place = leg.at.place;
        match beginning(self.alloc, worker, number, &leg.at)? {
            Begun::Call(call) => {
                self.state.change_leg(
                    place,
                    LegChange::State(LegState::Running {
                        worker,
                        in_call: true,
                    }),
                );
                Ok(reply(What::Call(call)))
            },
            Begun::Skips => {
                self.state
                    .add_done(place, worker, skipped_step(self.alloc))?;
                Ok(reply(What::Skipped))
            },
            Begun::Faults(fault) => {
                let done = failed_step(self.alloc, &leg.at)?;
                self.state.add_done(place, worker, done)?;
                Ok(reply(What::Faulted(fault)))
            },
        }
    }

    /// Ends the step of a leg that is in a call.
    pub(crate) fn end(
        &mut self,
        worker: u8,
        number: u64,
        answer: Answer,
    ) -> Result<Reply, EventFault>
        requires { 1 ≤ self.old.state.room }
        ensures { Answered self.old self.new worker (event.End number answer) result }
    {
        let Some(leg) = find_leg(self.state.counted(), number) else {
            return Err(EventFault::NoSuch);
        };
        let place = leg.at.place;
        let (outcome, conclusion) = ending(self.alloc, worker, &leg.at, &answer)?;
        let done = ended_step(self.alloc, outcome, conclusion, answer);
        self.state.add_done(place, worker, done)?;
        Ok(moved())
    }

    /// Ends a leg whose steps are done.
    pub(crate) fn finish(
        &mut self,
        worker: u8,
        number: u64,
    ) -> Result<(Reply, Option<CellBack>), EventFault>
        requires kept { KeptAsShown (content self.old.groups) self.old.state.board }
        requires names { NamesKnown self.old.groups self.old.state.board }
        requires room { 3 ≤ self.old.state.room }
        ensures { MovedBy self.old self.new worker (event.Finish number) result }
    {
        let play = self.state.counted();
        let Some(leg) = find_leg(play, number) else {
            return Err(EventFault::NoSuch);
        };
        let place = leg.at.place;
        let to = finishing_kept(self.alloc, worker, &leg.at, keep(play, &leg))?;
        let outputs = leg_outputs(self.alloc, &leg.at)?;
        let stand = leg_stand(leg.at.leg.state);
        let next = next_after(&self.groups, stand, &leg.at.leg.group);
        set_ended(&mut self.state, place, number, to, outputs)?;
        let cell = leave_leg(
            &mut self.groups,
            self.state.counted().board(),
            place,
            number,
        );
        pass_on(&mut self.state, next);
        Ok((told(next, None, None), cell))
    }

    /// Ends a run whose jobs have ended, or that never went.
    pub(crate) fn close(&mut self, number: u64) -> Result<(Reply, Option<CellBack>), EventFault>
        requires kept { KeptAsShown (content self.old.groups) self.old.state.board }
        requires names { NamesKnown self.old.groups self.old.state.board }
        requires room { 2 ≤ self.old.state.room }
        ensures { MovedBy self.old self.new 0 (event.Close number) result }
    {
        let play = self.state.counted();
        let Some(at) = find_run(play.plan(), play.board(), number as usize) else {
            return Err(EventFault::NoSuch);
        };
        let how = match at.run.state {
            RunState::New | RunState::Waiting => {
                if !at.run.stop {
                    return Err(EventFault::NotStopping);
                }
                Outcome::Cancelled
            },
            RunState::Going => {
                if !play.have_jobs_ended(number as usize) {
                    return Err(EventFault::NeedsOpen);
                }
                play.run_result(number as usize, at.run.stop)
            },
            RunState::Closed(_) => return Err(EventFault::WrongState),
        };
        let stand = run_stand(at.run.state);
        let next = next_after(&self.groups, stand, &at.run.group);
        let cell = leave(&mut self.groups, Member::Run(number), &at.run.group);
        close_run(&mut self.state, number, how);
        pass_on(&mut self.state, next);
        Ok((told(next, None, None), cell))
    }

    /// Tells a run to stop.
    pub(crate) fn cancel(&mut self, number: u64) -> Result<Reply, EventFault>
        requires { 1 ≤ self.old.state.room }
        ensures { Answered self.old self.new 0 (event.Cancel number) result }
    {
        let play = self.state.counted();
        let Some(at) = find_run(play.plan(), play.board(), number as usize) else {
            return Err(EventFault::NoSuch);
        };
        if is_closed(at.run.state) || at.run.stop {
            return Err(EventFault::WrongState);
        }
        stop_run(&mut self.state, number);
        Ok(moved())
    }
}
