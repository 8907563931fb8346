//! Changes of a board in place.

ghost use Rattle.std.specs.Prelude.{◌≡◌, OnOk, OnErr};
ghost use Rattle.status_table.specs.Change.{with_leg, with_numbered_leg, with_run};
ghost use Rattle.status_table.specs.Row as row;
ghost use Rattle.status_table.specs.Seen.{leg_after};

use board_decisions::place::{JobPlace, LegPlace, find_leg_place};
use flow_model::{Board, DoneStep, JobState, Leg, LegState, Mapping, RunState, Text};
use std::alloc::AllocError;

/// Puts a run into a state.
pub(crate) fn set_run_state(board: &mut Board, place: usize, state: RunState)
    ensures { board.new ≡ with_run board.old place (λ run. record run { state = state }) }
{
    if let Some(run) = board.runs.get_mut(place) {
        run.state = state;
    }
}

/// Puts a job into a state.
pub fn set_job_state(board: &mut Board, place: JobPlace, state: JobState)
    ensures { board.new ≡ row.job_state_set board.old place state }
{
    if let Some(run) = board.runs.get_mut(place.run) {
        if let Some(job) = run.jobs.get_mut(place.job) {
            job.state = state;
        }
    }
}

/// What happens to a leg at once.
#[derive(Drop)]
pub enum LegChange {
    /// It comes into a state.
    State(LegState),
    /// It comes into a state, and into a group or none.
    Group(LegState, Option<Text>),
    /// It comes into a state, and has these outputs.
    Outputs(LegState, Mapping<Text>),
    /// Whether it is told to stop.
    Stop(bool),
}

/// Changes a leg.
fn change(leg: &mut Leg, change: LegChange)
    ensures { leg.new ≡ leg_after change leg.old }
{
    match change {
        LegChange::State(state) => leg.state = state,
        LegChange::Group(state, group) => {
            leg.state = state;
            leg.group = group;
        },
        LegChange::Outputs(state, outputs) => {
            leg.state = state;
            leg.outputs = outputs;
        },
        LegChange::Stop(stop) => leg.stop = stop,
    }
}

/// Changes the leg at a place, where there is one.
pub fn change_at(board: &mut Board, place: LegPlace, how: LegChange)
    ensures { board.new ≡ with_leg board.old place (leg_after how) }
{
    if let Some(run) = board.runs.get_mut(place.run) {
        if let Some(job) = run.jobs.get_mut(place.job) {
            if let Some(leg) = job.legs.get_mut(place.leg) {
                change(leg, how);
            }
        }
    }
}

/// Changes the leg with a number, where there is one.
pub(crate) fn change_leg(board: &mut Board, number: u64, how: LegChange)
    ensures { board.new ≡ with_numbered_leg board.old number (leg_after how) }
{
    if let Some(place) = find_leg_place(board.runs.as_slice(), number as usize) {
        change_at(board, place, how);
    }
}

/// Puts a leg into a state.
pub(crate) fn set_leg_state(board: &mut Board, place: LegPlace, state: LegState)
    ensures { board.new ≡ row.leg_state_set board.old place state }
{
    change_at(board, place, LegChange::State(state));
}

/// Adds a done step to a leg, which is idle again; where memory runs out, nothing is changed.
pub fn add_step(
    board: &mut Board,
    place: LegPlace,
    worker: u8,
    done: DoneStep,
) -> Result<(), AllocError>
    ensures ok { OnOk result (board.new ≡ row.step_done board.old place worker done) }
    ensures err { OnErr result (board.new ≡ board.old) }
{
    if let Some(run) = board.runs.get_mut(place.run) {
        if let Some(job) = run.jobs.get_mut(place.job) {
            if let Some(leg) = job.legs.get_mut(place.leg) {
                leg.steps.push(done)?;
                leg.state = LegState::Running {
                    worker,
                    in_call: false,
                };
            }
        }
    }
    Ok(())
}

/// Puts a leg into the state in which it ends, last of all; where memory runs out, nothing is changed.
pub(crate) fn set_ended(
    board: &mut Board,
    place: LegPlace,
    number: u64,
    state: LegState,
    outputs: Mapping<Text>,
) -> Result<(), AllocError>
    ensures ok { OnOk result (board.new ≡ row.leg_ended board.old place number state outputs) }
    ensures err { OnErr result (board.new ≡ board.old) }
{
    board.ends.push(number)?;
    change_at(board, place, LegChange::Outputs(state, outputs));
    Ok(())
}
