//! A plan in play with its counters, which each change of the board keeps.

ghost use Rattle.std.specs.Prelude.{◌≡◌, true, ℕ, None, Some, IfOk, OnOk, OnErr, slice_get};
ghost use Rattle.board_counters.specs.Words.{job_there, leg_after, leg_there, needs_none, needs_there, run_legs as run_legs_of, run_tally as run_tally_of, run_tally_there, tally_of as tally_of_job, tally_there, with_leg, with_run};
ghost use Rattle.board_counters.specs.Changes as spec;

use crate::change::{
    RunChange, exchange_leg_at, exchange_run_at, exchange_state_at, job_state_there, make_room,
    push_step_at, state_in, stop_in, take_step_at, without_last,
};
use crate::counts::{Counts, LegTurn, count_all, recount_job, recount_leg, standing_at};
use crate::failing::{Failing, failing_at, note_done, note_taken, runs_failing};
use crate::lasting::{Lasting, calls_at, lasting_of, place_at};
use crate::need::Need;
use crate::standing::RunTally;
use crate::stopping::{RunLegs, retell, run_legs_at};
use crate::tally::{Tally, are_alike};
use crate::undo::Change;
use board_decisions::derived::is_failure;
use board_decisions::kept::Calls;
use board_decisions::place::{JobPlace, LegPlace, leg_there};
use flow_model::laws::needs_point_back;
use flow_model::{Board, CheckedPlan, DoneStep, JobState, LegState, Outcome, Plan, Sequence};
use status_table::change::{LegChange, set_job_state};
use status_table::new_board::make_board;
use std::alloc::{AllocError, Global};
use std::marker::Model;

/// The state of the leg at a place.
#[inline(always)]
fn state_there(board: &Board, place: LegPlace) -> LegState
    ensures { result ≡ spec.state_there board.now place }
{
    match leg_there(board, place) {
        Some(leg) => leg.state,
        None => LegState::Fresh,
    }
}

/// How the legs of a job stand that has none.
#[inline(always)]
fn no_legs() -> Tally
    ensures { result ≡ tally_there None }
{
    Tally {
        legs: 0,
        pending: 0,
        used: 0,
        failed: 0,
        cancelled: 0,
    }
}

/// How the jobs of the run at a place stand; of a run that is not there one is open.
fn run_tally_at(runs: &[RunTally], place: usize) -> RunTally
    ensures { result ≡ run_tally_there (slice_get runs.now place) }
{
    match runs.get(place) {
        Some(tally) => *tally,
        None => RunTally {
            jobs: 0,
            pending: 1,
            failed: 0,
            cancelled: 0,
            unsuccessful: 0,
            unjudged: 0,
            asking: 0,
            dropping: 0,
        },
    }
}

/// The job of a leg, by their places.
#[inline(always)]
pub fn job_of(place: LegPlace) -> JobPlace
    ensures { result ≡ spec.job_of place }
{
    JobPlace {
        run: place.run,
        job: place.job,
    }
}

/// Whether the job at a place needs none that is open.
fn needs_none_at(needs: &[Sequence<Need>], place: JobPlace) -> bool
    ensures { result ≡ needs_none (needs_there needs.now place) }
{
    let Some(row) = needs.get(place.run) else {
        return false;
    };
    match row.as_slice().get(place.job) {
        Some(need) => need.pending == 0,
        None => false,
    }
}

/// Counts again after the leg at a place, where there is one, came from a state to another.
#[inline(always)]
fn recount_to(counts: &mut Counts, board: &Board, lasting: &Lasting, turn: LegTurn)
    requires { spec.CameTo turn.was turn.is (spec.state_there board.now turn.place) }
    ensures { spec.LegRecounted turn.place turn.was (spec.state_there board.now turn.place)
        (slice_get board.now.runs turn.place.run) lasting.now.dependents counts.old counts.new }
{
    if are_alike(turn.was, turn.is) {
        return;
    }
    let there = LegTurn {
        place: turn.place,
        was: turn.was,
        is: state_there(board, turn.place),
    };
    recount_leg(counts, board, lasting, there);
}

/// A plan, how far it is, and what is counted of that.
///
/// A job's legs are tallied as they change, and so are the jobs of a run; when one of these ends, it is counted off the
/// needs of those that need it. The legs of a run that are told to stop are counted too.
#[derive(Drop)]
pub struct Counted {
    plan: CheckedPlan,
    board: Board,
    counts: Counts,
    /// Whether a done step of each leg counts as a failure.
    failing: Failing,
    /// What stays, whatever is changed.
    lasting: Lasting,
}

impl Model for Counted {
    ghost use Rattle.board_counters.specs.Words.{Play, coded_plain, codes};

    ghost Value = { Play };

    ghost coded = { Prim.hlevel (codes, coded_plain) };

    ghost view = { λ c. record { plan = c.plan; board = c.board } };

    ghost use Rattle.board_counters.specs.Words.{IsCounted};

    ghost invariant = { λ c. IsCounted c.plan c.board c.counts c.failing c.lasting };
}

impl Counted {
    ghost use Rattle.board_counters.specs.Words.{AreCallsOf, Board, InPlay, IsPlan, Job, JobAt, JobPlan, Leg as LegOf, Run as RunOf, RunPlan, SoundPlan, StepPlan, all_succeed, any_failed, board_before, is_going, job_at, job_place, jobs_have_ended, leg_place, needs_have_ended, new_play, run_result};
    ghost use Rattle.status_table.specs.Row as row;

    /// The plan with its board on which all is new.
    pub fn new(alloc: Global, plan: CheckedPlan) -> Result<Counted, AllocError>
        ensures { IfOk result (λ made. made ≡ new_play plan) }
    {
        let board = make_board(alloc, plan.plan())?;
        let runs = board.runs.as_slice();
        let counts = count_all(alloc, plan.plan().runs.as_slice(), runs)?;
        let failing = runs_failing(alloc, runs)?;
        let lasting = lasting_of(alloc, plan.plan(), &board)?;
        Ok(Counted {
            plan,
            board,
            counts,
            failing,
            lasting,
        })
    }

    /// The plan, which breaks no rule.
    #[inline(always)]
    pub fn plan(&self) -> &Plan
        ensures same { result.now ≡ self.now.plan }
        ensures sound { IsPlan result.now }
        ensures rules { SoundPlan result.now }
    {
        self.plan.plan()
    }

    /// The board.
    #[inline(always)]
    pub fn board(&self) -> &Board
        ensures { result.now ≡ self.now.board }
    {
        &self.board
    }

    /// The place of the job with a number.
    #[tactic(auto, using(board_decisions::proofs::Placed::job_placed))]
    pub fn job_place(&self, number: u64) -> Option<JobPlace>
        ensures { result ≡ job_place self.now.board number }
    {
        place_at(&self.lasting.jobs, number as usize)
    }

    /// The place of the leg with a number.
    #[inline(always)]
    #[tactic(auto, using(board_decisions::proofs::Placed::leg_placed))]
    pub fn leg_place(&self, number: u64) -> Option<LegPlace>
        ensures { result ≡ leg_place self.now.board number }
    {
        place_at(&self.lasting.legs, number as usize)
    }

    /// How the legs of the job at a place stand.
    #[inline(always)]
    pub fn tally(&self, place: JobPlace) -> Tally
        ensures { (job : Job)
            → job_there self.now.board place ≡ Some job → result ≡ tally_of_job job }
    {
        let Some(row) = self.counts.tallies.as_slice().get(place.run) else {
            return no_legs();
        };
        match row.as_slice().get(place.job) {
            Some(tally) => *tally,
            None => no_legs(),
        }
    }

    /// How the jobs of the run at a place stand.
    #[tactic(auto, using(crate::proofs::Standings::told_tally))]
    pub fn run_tally(&self, place: usize) -> RunTally
        ensures { (run : RunOf)
            → slice_get self.now.board.runs place ≡ Some run → result ≡ run_tally_of run }
    {
        run_tally_at(self.counts.runs.as_slice(), place)
    }

    /// How many legs the jobs of the run at a place have, and how many of them are told to stop.
    #[tactic(auto, using(crate::proofs::Stops::told_legs))]
    pub fn run_legs(&self, place: usize) -> RunLegs
        ensures { (run : RunOf)
            → slice_get self.now.board.runs place ≡ Some run → result ≡ run_legs_of run }
    {
        run_legs_at(self.counts.legs.as_slice(), place)
    }

    /// Whether a step of the job at a place is called, as far as that is known without its leg.
    #[inline(always)]
    pub fn calls(&self, place: JobPlace, step: usize) -> Calls
        ensures { (run : RunPlan) (job : JobPlan) (planned : StepPlan)
            → slice_get self.now.plan.runs place.run ≡ Some run
            → slice_get run.jobs place.job ≡ Some job
            → slice_get job.steps step ≡ Some planned → AreCallsOf run job planned result }
    {
        calls_at(&self.lasting.calls, place, step)
    }

    /// Whether a done step of the leg at a place counts as a failure.
    #[inline(always)]
    #[tactic(auto, using(crate::proofs::Failings::failing_there))]
    pub fn has_failed_step(&self, place: LegPlace) -> bool
        ensures { (leg : LegOf) → leg_there self.now.board place ≡ Some leg
            → result ≡ any_failed leg.steps }
    {
        failing_at(&self.failing, place)
    }

    /// Changes the leg at a place, where there is one, and gives what takes that back.
    #[tactic(auto, using(crate::proofs::Undone::leg_back))]
    pub fn change_leg(&mut self, place: LegPlace, how: LegChange) -> Change
        ensures plan { self.new.plan ≡ self.old.plan }
        ensures board { self.new.board ≡ with_leg self.old.board place (leg_after how) }
        ensures back { board_before result self.new.board ≡ self.old.board }
    {
        let is = state_in(&how);
        let is_told = stop_in(&how);
        let how = exchange_leg_at(&mut self.board, place, how);
        let was = state_in(&how);
        let turn = LegTurn { place, was, is };
        recount_leg(&mut self.counts, &self.board, &self.lasting, turn);
        retell(&mut self.counts.legs, place.run, stop_in(&how), is_told);
        Change::Leg(place, how)
    }

    /// Puts the leg at a place, where there is one, into a state, and gives that in which it was.
    #[inline(always)]
    #[tactic(auto, using(crate::proofs::Undone::state_back))]
    pub fn set_leg_state(&mut self, place: LegPlace, to: LegState) -> LegState
        ensures plan { self.new.plan ≡ self.old.plan }
        ensures board { self.new.board ≡ row.leg_state_set self.old.board place to }
        ensures back { row.leg_state_set self.new.board place result ≡ self.old.board }
    {
        let was = exchange_state_at(&mut self.board, place, to);
        let turn = LegTurn { place, was, is: to };
        recount_to(&mut self.counts, &self.board, &self.lasting, turn);
        was
    }

    /// Puts a job into a state, and gives what takes that back.
    #[tactic(auto, using(crate::proofs::Undone::job_back))]
    pub fn set_job(&mut self, place: JobPlace, state: JobState) -> Change
        ensures plan { self.new.plan ≡ self.old.plan }
        ensures board { self.new.board ≡ row.job_state_set self.old.board place state }
        ensures back { board_before result self.new.board ≡ self.old.board }
    {
        let was = job_state_there(&self.board, place);
        let before = standing_at(&self.board, self.counts.tallies.as_slice(), place);
        set_job_state(&mut self.board, place, state);
        let after = standing_at(&self.board, self.counts.tallies.as_slice(), place);
        recount_job(&mut self.counts, &self.lasting, place, before, after);
        Change::Job(place, was)
    }

    /// Makes room for so many steps in the leg at a place, where there is one and none of its steps is done. Nothing is
    /// changed.
    pub fn make_room(
        &mut self,
        alloc: Global,
        place: LegPlace,
        steps: usize,
    ) -> Result<(), AllocError>
        ensures { self.new ≡ self.old }
    {
        make_room(alloc, &mut self.board, place, steps)
    }

    /// Adds a done step to the leg at a place, where there is one, which is idle again, and gives the state in which it was;
    /// where memory runs out, nothing is changed.
    #[inline(always)]
    #[tactic(auto, using(crate::proofs::Undone::step_back))]
    pub fn add_done(
        &mut self,
        place: LegPlace,
        worker: u8,
        done: DoneStep,
    ) -> Result<LegState, AllocError>
        ensures plan { self.new.plan ≡ self.old.plan }
        ensures ok { OnOk result
            (self.new.board ≡ row.step_done self.old.board place worker done) }
        ensures err { OnErr result (self.new.board ≡ self.old.board) }
        ensures back { IfOk result
            (λ was. with_leg self.new.board place (spec.step_taken was) ≡ self.old.board) }
    {
        let failed = is_failure(done.conclusion);
        let was = push_step_at(&mut self.board, place, worker, done)?;
        note_done(&mut self.failing, place, failed);
        let in_call = false;
        let is = LegState::Running { worker, in_call };
        let turn = LegTurn { place, was, is };
        recount_to(&mut self.counts, &self.board, &self.lasting, turn);
        Ok(was)
    }

    /// Takes the last step of a leg off, and puts the leg into a state. It takes no memory.
    pub(crate) fn take_done(&mut self, alloc: Global, place: LegPlace, state: LegState)
        ensures plan { self.new.plan ≡ self.old.plan }
        ensures board { self.new.board ≡ with_leg self.old.board place (spec.step_taken state) }
    {
        let was = state_there(&self.board, place);
        take_step_at(alloc, &mut self.board, place, state);
        note_taken(&mut self.failing, &self.board, place);
        let turn = LegTurn {
            place,
            was,
            is: state,
        };
        recount_to(&mut self.counts, &self.board, &self.lasting, turn);
    }

    /// Changes the run at a place, where there is one, but not its jobs, and gives what takes that back.
    #[tactic(auto, using(crate::proofs::Undone::run_back))]
    pub fn change_run(&mut self, place: usize, how: RunChange) -> Change
        ensures plan { self.new.plan ≡ self.old.plan }
        ensures board { self.new.board ≡ with_run self.old.board place (spec.run_after how) }
        ensures back { board_before result self.new.board ≡ self.old.board }
    {
        let how = exchange_run_at(&mut self.board, place, how);
        Change::Run(place, how)
    }

    /// Notes a leg as the last that ended, and gives what takes that back; where memory runs out, nothing is
    /// changed.
    pub fn push_end(&mut self, number: u64) -> Result<Change, AllocError>
        ensures plan { self.new.plan ≡ self.old.plan }
        ensures ok { OnOk result (self.new.board ≡ spec.noted_last self.old.board number) }
        ensures err { OnErr result (self.new.board ≡ self.old.board) }
        ensures back { IfOk result (λ change. board_before change self.new.board ≡ self.old.board) }
    {
        self.board.ends.push(number)?;
        Ok(Change::End)
    }

    /// Takes the last end off. It takes no memory.
    pub fn pop_end(&mut self, alloc: Global)
        ensures plan { self.new.plan ≡ self.old.plan }
        ensures board { self.new.board ≡ spec.unnoted self.old.board }
    {
        without_last(alloc, &mut self.board.ends);
    }

    /// Takes a change back. It takes no memory.
    pub fn take_back(&mut self, alloc: Global, change: Change)
        ensures plan { self.new.plan ≡ self.old.plan }
        ensures board { self.new.board ≡ board_before change self.old.board }
    {
        match change {
            Change::Leg(place, how) => drop(self.change_leg(place, how)),
            Change::Step(place, state) => self.take_done(alloc, place, state),
            Change::Job(place, state) => drop(self.set_job(place, state)),
            Change::Run(place, how) => drop(self.change_run(place, how)),
            Change::End => self.pop_end(alloc),
        }
    }

    /// Whether what the job at a place needs has ended, where its run is Going.
    pub fn have_needs_ended(&self, place: JobPlace) -> bool
        ensures { (n : ℕ) (at : JobAt) → InPlay self.now.plan self.now.board
            → job_at self.now.plan self.now.board n ≡ Some at → at.place ≡ place
            → is_going at.run.state ≡ true
            → result ≡ needs_have_ended (row.first_of n at) at.run at.plan }
    {
        needs_point_back();
        needs_none_at(self.counts.needs.as_slice(), place)
    }

    /// Whether all jobs of a run have ended, where it is Going.
    pub fn have_jobs_ended(&self, place: usize) -> bool
        ensures { (run : RunOf) → slice_get self.now.board.runs place ≡ Some run
            → is_going run.state ≡ true → result ≡ jobs_have_ended run }
    {
        self.run_tally(place).pending == 0
    }

    /// Whether each job of a run counts as a success so far, where it is Going.
    pub fn do_jobs_succeed(&self, place: usize) -> bool
        ensures { (run : RunOf) → slice_get self.now.board.runs place ≡ Some run
            → is_going run.state ≡ true → result ≡ all_succeed run }
    {
        self.run_tally(place).unsuccessful == 0
    }

    /// The result with which a run is closed that is Going, by whether it is told to stop.
    pub fn run_result(&self, place: usize, stop: bool) -> Outcome
        ensures { (run : RunOf) → slice_get self.now.board.runs place ≡ Some run
            → is_going run.state ≡ true → stop ≡ run.stop → result ≡ run_result run }
    {
        self.run_tally(place).result(stop)
    }
}
