//! Jobs and legs that a clerk passes over: those of a run in which nothing may happen, by what is counted of them.

ghost use Rattle.std.specs.Prelude.{◌≡◌, ◌+◌, ◌<◌, ℕ, Some, false, slice_get};
ghost use Rattle.flat_board.specs.Idle as spec;
ghost use Rattle.flow_model.specs.declared.event.Event.TheVariants as event;
ghost use Rattle.flat_board.specs.Words.{accepts, event_of};

use board_counters::Counted;
use board_decisions::place::item_at;
use flow_model::{Run, RunState};
use status_table::moves::MoveKind;

/// Whether no job of the run at a place may be judged.
fn is_all_judged(state: &Counted, place: usize, run: &Run) -> bool
    requires { slice_get state.now.board.runs place ≡ Some run.now }
    ensures { result ≡ spec.is_all_judged run.now }
{
    !matches!(run.state, RunState::Going) || state.run_tally(place).unjudged == 0
}

/// Whether no leg of the run at a place, which is Going, is to stop and has no worker.
fn is_none_stopping(state: &Counted, place: usize, run: &Run) -> bool
    requires { slice_get state.now.board.runs place ≡ Some run.now }
    ensures { result ≡ spec.is_none_stopping run.now }
{
    !run.stop && state.run_legs(place).told == 0 && state.run_tally(place).dropping == 0
}

/// Whether a clerk's event of a kind is refused to each leg of the run at a place.
fn is_run_idle(state: &Counted, kind: MoveKind, place: usize, run: &Run) -> bool
    requires { slice_get state.now.board.runs place ≡ Some run.now }
    ensures { result ≡ spec.is_run_idle kind run.now }
{
    let is_going = matches!(run.state, RunState::Going);
    match kind {
        MoveKind::Close | MoveKind::Open | MoveKind::Judge => false,
        MoveKind::Drop => !is_going || is_none_stopping(state, place, run),
        MoveKind::Ask => !is_going || state.run_tally(place).asking == 0,
    }
}

/// How many jobs, from a number on, are refused to be judged for sure: where that number is the first of a run's jobs, all of
/// them, if none may be.
#[tactic(auto, using(crate::proofs::PassedOver::idle_jobs))]
fn count_idle_jobs(state: &Counted, number: u64) -> usize
    ensures { (i : ℕ) → i < result
        → accepts state.now.plan state.now.board (event.Judge (number + i)) ≡ false }
{
    let Some(place) = state.job_place(number) else {
        return 0;
    };
    match item_at(&state.board().runs, place.run) {
        Some(run) if place.job == 0 && is_all_judged(state, place.run, run) => run.jobs.len(),
        _ => 0,
    }
}

/// How many events of a kind, from a number on, are refused for sure: where that number is the first of a run's legs, those of
/// all of them, if nothing may happen to any.
#[tactic(auto, using(crate::proofs::PassedOver::idle_run))]
fn count_idle_legs(state: &Counted, kind: MoveKind, number: u64) -> usize
    ensures { (i : ℕ) → i < result
        → accepts state.now.plan state.now.board (event_of kind (number + i)) ≡ false }
{
    let Some(place) = state.leg_place(number) else {
        return 0;
    };
    if place.job != 0 || place.leg != 0 {
        return 0;
    }
    match item_at(&state.board().runs, place.run) {
        Some(run) if is_run_idle(state, kind, place.run, run) => state.run_legs(place.run).all,
        _ => 0,
    }
}

/// How many events of a kind, from a number on, are refused for sure: where that number is the first of a run's jobs or legs, those
/// of all of them, if nothing may happen to any.
pub(crate) fn count_idle(state: &Counted, kind: MoveKind, number: u64) -> usize
    ensures { (i : ℕ) → i < result
        → accepts state.now.plan state.now.board (event_of kind (number + i)) ≡ false }
{
    match kind {
        MoveKind::Close | MoveKind::Open => 0,
        MoveKind::Judge => count_idle_jobs(state, number),
        MoveKind::Drop | MoveKind::Ask => count_idle_legs(state, kind, number),
    }
}
