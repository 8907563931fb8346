//! The steps of legs where nobody asks for a reply: those that begin and end at once, and the others.
//!
//! Most steps begin with no text to be evaluated, and end by an exit that leaves nothing behind. What takes these back is
//! known as they are played, and is given by itself.

ghost use Rattle.std.specs.Prelude.{◌≡◌, ◌≤◌, OnOk};
ghost use Rattle.flat_board.specs.Words.{Leads, Led, begin_row};
ghost use Rattle.flow_model.specs.declared.event.Event.TheVariants as event;

use crate::found::{find_leg, keep};
use crate::grouped_board::GroupedBoard;
use crate::undo::{Undo, make_back};
use flow_model::{Answer, LegState, Outcome};
use status_table::EventFault;
use status_table::change::LegChange;
use status_table::events::{ended_step, failed_step, skipped_step};
use status_table::unasked::{Begins, beginning_unasked, is_begun_at_once, is_ended_at_once};

impl GroupedBoard {
    /// Begins the next step of a leg, whose texts may have to be evaluated.
    fn begin_by_texts(&mut self, worker: u8, number: u64) -> Result<(), EventFault>
        requires { 1 ≤ self.old.state.room }
        ensures plan { self.new.state.plan ≡ self.old.state.plan }
        ensures leads { Leads (begin_row self.old.state.plan self.old.state.board worker number)
            self.old.state.board result self.new.state.board }
        ensures groups { self.new.groups ≡ self.old.groups }
        ensures back { OnOk result (self.new.state.back ≡ self.old.state.back) }
    {
        let play = self.state.counted();
        let Some(leg) = find_leg(play, number) else {
            return Err(EventFault::NoSuch);
        };
        let place = leg.at.place;
        match beginning_unasked(self.alloc, worker, number, &leg.at, keep(play, &leg))? {
            Begins::Calls => {
                let in_call = true;
                self.state.change_leg(
                    place,
                    LegChange::State(LegState::Running { worker, in_call }),
                );
            },
            Begins::Skips => self
                .state
                .add_done(place, worker, skipped_step(self.alloc))?,
            Begins::Faults => {
                let done = failed_step(self.alloc, &leg.at)?;
                self.state.add_done(place, worker, done)?;
            },
        }
        Ok(())
    }

    /// Begins the next step of a leg, and gives what takes that back.
    fn begin_slowly(&mut self, worker: u8, number: u64) -> Result<Undo, EventFault>
        ensures { Led self.old self.new worker (event.Begin number) result }
    {
        let back = make_back(self.alloc)?;
        self.state.begin(1)?;
        self.begin_by_texts(worker, number)?;
        Ok(self.undo_of(back, None))
    }

    /// Begins the next step of a leg, whose call nobody asks for, and gives what takes it back.
    #[inline(always)]
    pub(crate) fn begin_unasked(&mut self, worker: u8, number: u64) -> Result<Undo, EventFault>
        ensures { Led self.old self.new worker (event.Begin number) result }
    {
        let play = self.state.counted();
        let Some(leg) = find_leg(play, number) else {
            return Err(EventFault::NoSuch);
        };
        if !is_begun_at_once(worker, &leg.at, keep(play, &leg)) {
            return self.begin_slowly(worker, number);
        }
        let place = leg.at.place;
        let in_call = true;
        Ok(Undo::Only(
            self.state
                .set_state_alone(place, LegState::Running { worker, in_call }),
        ))
    }

    /// Ends the step of a leg, whose texts may have to be evaluated, and gives what takes it back.
    fn end_slowly(&mut self, worker: u8, number: u64, answer: Answer) -> Result<Undo, EventFault>
        ensures { Led self.old self.new worker (event.End number answer) result }
    {
        let back = make_back(self.alloc)?;
        self.state.begin(1)?;
        self.end(worker, number, answer)?;
        Ok(self.undo_of(back, None))
    }

    /// Ends the step of a leg that is in a call, and gives what takes it back.
    #[inline(always)]
    pub(crate) fn end_unasked(
        &mut self,
        worker: u8,
        number: u64,
        answer: Answer,
    ) -> Result<Undo, EventFault>
        ensures { Led self.old self.new worker (event.End number answer) result }
    {
        let Some(leg) = find_leg(self.state.counted(), number) else {
            return Err(EventFault::NoSuch);
        };
        if !is_ended_at_once(worker, &leg.at, &answer) {
            return self.end_slowly(worker, number, answer);
        }
        let place = leg.at.place;
        let done = ended_step(self.alloc, Outcome::Success, Outcome::Success, answer);
        Ok(Undo::Only(self.state.add_done_alone(place, worker, done)?))
    }
}
