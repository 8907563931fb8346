//! Changes of a board in place, each of which gives what was there before.

ghost use Rattle.std.specs.Prelude.{◌≡◌, IfOk, OnErr, OnOk, slice_get};
ghost use Rattle.board_counters.specs.Words.{job_there, leg_after, leg_state_set, leg_there, option_copied, step_done, with_leg, with_run};
ghost use Rattle.board_counters.specs.Changes as spec;

use board_decisions::place::{JobPlace, LegPlace, item_at};
use flow_model::{Board, DoneStep, Job, JobState, Leg, LegState, Run, RunState, Sequence, Text};
use status_table::change::LegChange;
use std::alloc::{AllocError, Global};
use std::mem;

/// What happens to a run at once.
#[derive(Drop)]
pub enum RunChange {
    /// It comes into a state.
    State(RunState),
    /// It comes into a state, and into a group or none.
    Group(RunState, Option<Text>),
    /// Whether it is told to stop.
    Stop(bool),
}

/// The state into which a leg comes. One whose stop flag is set stays in its own, for which this one stands.
pub(crate) fn state_in(how: &LegChange) -> LegState
    ensures { result ≡ spec.state_in how.now }
{
    match how {
        LegChange::State(state) => *state,
        LegChange::Group(state, _) => *state,
        LegChange::Outputs(state, _) => *state,
        LegChange::Stop(_) => LegState::Fresh,
    }
}

/// The stop flag that is set in a leg. Where another change leaves it as it is, one stands for it that stays unset.
pub(crate) fn stop_in(how: &LegChange) -> bool
    ensures { result ≡ spec.stop_in how.now }
{
    match how {
        LegChange::State(_) | LegChange::Group(..) | LegChange::Outputs(..) => false,
        LegChange::Stop(stop) => *stop,
    }
}

/// Changes a leg, and gives what was there.
fn exchange_leg(leg: &mut Leg, how: LegChange) -> LegChange
    ensures leg { leg.new ≡ leg_after how leg.old }
    ensures was { result ≡ spec.leg_before how leg.old }
{
    match how {
        LegChange::State(state) => LegChange::State(mem::replace(&mut leg.state, state)),
        LegChange::Group(state, group) => LegChange::Group(
            mem::replace(&mut leg.state, state),
            mem::replace(&mut leg.group, group),
        ),
        LegChange::Outputs(state, outputs) => LegChange::Outputs(
            mem::replace(&mut leg.state, state),
            mem::replace(&mut leg.outputs, outputs),
        ),
        LegChange::Stop(stop) => LegChange::Stop(mem::replace(&mut leg.stop, stop)),
    }
}

/// Changes the leg at a place, where there is one, and gives what was there.
pub(crate) fn exchange_leg_at(board: &mut Board, place: LegPlace, how: LegChange) -> LegChange
    ensures board { board.new ≡ with_leg board.old place (leg_after how) }
    ensures was { result ≡ spec.leg_was how (leg_there board.old place) }
{
    if let Some(run) = board.runs.get_mut(place.run) {
        if let Some(job) = run.jobs.get_mut(place.job) {
            if let Some(leg) = job.legs.get_mut(place.leg) {
                return exchange_leg(leg, how);
            }
        }
    }
    how
}

/// Puts the leg at a place, where there is one, into a state, and gives that in which it was.
#[inline(always)]
pub(crate) fn exchange_state_at(board: &mut Board, place: LegPlace, state: LegState) -> LegState
    ensures board { board.new ≡ leg_state_set board.old place state }
    ensures was { result ≡ spec.state_there board.old place }
{
    if let Some(run) = board.runs.get_mut(place.run) {
        if let Some(job) = run.jobs.get_mut(place.job) {
            if let Some(leg) = job.legs.get_mut(place.leg) {
                return mem::replace(&mut leg.state, state);
            }
        }
    }
    LegState::Fresh
}

/// Adds a done step to the leg at a place, where there is one, which is idle again, and gives the state in which it was;
/// where memory runs out, nothing is changed.
#[inline(always)]
#[tactic(auto, using(crate::proofs::Lists::set_same))]
pub(crate) fn push_step_at(
    board: &mut Board,
    place: LegPlace,
    worker: u8,
    done: DoneStep,
) -> Result<LegState, AllocError>
    ensures ok { OnOk result (board.new ≡ step_done board.old place worker done) }
    ensures err { OnErr result (board.new ≡ board.old) }
    ensures was { IfOk result (λ was. was ≡ spec.state_there board.old place) }
{
    if let Some(run) = board.runs.get_mut(place.run) {
        if let Some(job) = run.jobs.get_mut(place.job) {
            if let Some(leg) = job.legs.get_mut(place.leg) {
                leg.steps.push(done)?;
                let in_call = false;
                return Ok(mem::replace(&mut leg.state, LegState::Running { worker, in_call }));
            }
        }
    }
    Ok(LegState::Fresh)
}

/// Changes a run, but not its jobs, and gives what was there.
fn exchange_run(run: &mut Run, how: RunChange) -> RunChange
    ensures run { run.new ≡ spec.run_after how run.old }
    ensures was { result ≡ spec.run_before how run.old }
{
    match how {
        RunChange::State(state) => RunChange::State(mem::replace(&mut run.state, state)),
        RunChange::Group(state, group) => RunChange::Group(
            mem::replace(&mut run.state, state),
            mem::replace(&mut run.group, group),
        ),
        RunChange::Stop(stop) => RunChange::Stop(mem::replace(&mut run.stop, stop)),
    }
}

/// Changes the run at a place, where there is one, and gives what was there.
pub(crate) fn exchange_run_at(board: &mut Board, place: usize, how: RunChange) -> RunChange
    ensures board { board.new ≡ with_run board.old place (spec.run_after how) }
    ensures was { result ≡ spec.run_was how (slice_get board.old.runs place) }
{
    if let Some(run) = board.runs.get_mut(place) {
        return exchange_run(run, how);
    }
    how
}

/// The job at a place, if there is one.
fn find_job_at(board: &Board, place: JobPlace) -> Option<&Job>
    ensures { option_copied result ≡ job_there board.now place }
{
    let run = item_at(&board.runs, place.run)?;
    item_at(&run.jobs, place.job)
}

/// The state of the job at a place.
pub(crate) fn job_state_there(board: &Board, place: JobPlace) -> JobState
    ensures { result ≡ spec.job_state_there board.now place }
{
    match find_job_at(board, place) {
        Some(job) => job.state,
        None => JobState::Unjudged,
    }
}

/// All items but the last. It takes no memory.
pub(crate) fn without_last<T: Drop>(alloc: Global, items: &mut Sequence<T>)
    ensures { items.new ≡ spec.front items.old }
{
    let mut left = mem::replace(items, Sequence::empty(alloc)).into_vec();
    drop(left.pop());
    *items = Sequence::new(left);
}

/// A leg is in a state, and its last step is not done.
fn take_step(alloc: Global, leg: &mut Leg, state: LegState)
    ensures { leg.new ≡ spec.step_taken state leg.old }
{
    leg.state = state;
    without_last(alloc, &mut leg.steps);
}

/// Takes the last step off the leg at a place, where there is one, and puts it into a state. It takes no memory.
pub(crate) fn take_step_at(alloc: Global, board: &mut Board, place: LegPlace, state: LegState)
    ensures { board.new ≡ with_leg board.old place (spec.step_taken state) }
{
    if let Some(run) = board.runs.get_mut(place.run) {
        if let Some(job) = run.jobs.get_mut(place.job) {
            if let Some(leg) = job.legs.get_mut(place.leg) {
                take_step(alloc, leg, state);
            }
        }
    }
}

/// Makes room for so many steps in a leg of which none is done. Nothing is changed.
fn make_leg_room(alloc: Global, leg: &mut Leg, steps: usize) -> Result<(), AllocError>
    ensures { leg.new ≡ leg.old }
{
    if leg.steps.is_empty() {
        leg.steps = Sequence::new(Vec::with_capacity(alloc, steps)?);
    }
    Ok(())
}

/// Makes room for so many steps in the leg at a place, where there is one.
#[tactic(auto, using(crate::proofs::Lists::set_same))]
pub(crate) fn make_room(
    alloc: Global,
    board: &mut Board,
    place: LegPlace,
    steps: usize,
) -> Result<(), AllocError>
    ensures { board.new ≡ board.old }
{
    if let Some(run) = board.runs.get_mut(place.run) {
        if let Some(job) = run.jobs.get_mut(place.job) {
            if let Some(leg) = job.legs.get_mut(place.leg) {
                return make_leg_room(alloc, leg, steps);
            }
        }
    }
    Ok(())
}
