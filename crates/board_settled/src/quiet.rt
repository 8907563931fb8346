//! A copy of a board on which no run is told to stop, and the legs ended in the order of their numbers.

ghost use Rattle.std.specs.Prelude.{◌≡◌, ◌≤◌, IfOk, length, map};
ghost use Rattle.board_settled.specs.Words.{board_legs, filter, numbers};
ghost use Rattle.board_settled.specs.Quiet as spec;

use board_decisions::place::numbered_leg;
use flow_model::{Board, Duplicate, LegState, Run, Sequence};
use status_table::moves::count_legs;
use std::alloc::{AllocError, Global};

/// A copy of a run that was not told to stop.
fn quiet_run(alloc: Global, run: &Run) -> Result<Run, AllocError>
    ensures { IfOk result (λ made. made ≡ spec.quiet_run run.now) }
{
    let mut made = run.copy(alloc)?;
    made.stop = false;
    Ok(made)
}

/// Copies of runs that were not told to stop.
fn quiet_runs(alloc: Global, runs: &[Run]) -> Result<Sequence<Run>, AllocError>
    ensures { IfOk result (λ made. made ≡ map spec.quiet_run runs.now) }
{
    let mut made = Sequence::empty(alloc);
    for run in runs {
        made.push(quiet_run(alloc, run)?)?;
    }
    Ok(made)
}

/// Whether the leg with a number is Ended.
fn has_ended_at(board: &Board, number: usize) -> bool
    ensures { result ≡ spec.has_ended_at board.now number }
{
    match numbered_leg(board, number) {
        Some(leg) => matches!(leg.state, LegState::Ended { .. }),
        None => false,
    }
}

/// The numbers below a count whose legs are Ended.
#[tactic(auto, using(crate::proofs::Outputs::filter_more))]
fn ended_below(alloc: Global, board: &Board, count: usize) -> Result<Sequence<u64>, AllocError>
    ensures { IfOk result (λ made. made
        ≡ filter (spec.has_ended_at board.now) (numbers count)) }
{
    let mut made = Sequence::empty(alloc);
    for number in 0..count {
        if has_ended_at(board, number) {
            made.push(number as u64)?;
        }
    }
    Ok(made)
}

/// A copy of a board on which no run is told to stop, and the legs that are Ended stand among the ends in the order of
/// their numbers.
pub(crate) fn quiet_board(alloc: Global, board: &Board) -> Result<Board, AllocError>
    requires { length (board_legs board.now) ≤ 4096 }
    ensures runs { IfOk result (λ made. made.runs ≡ map spec.quiet_run board.now.runs) }
    ensures ends { IfOk result (λ made. made.ends ≡ spec.ended_in_order made) }
{
    let runs = board.runs.as_slice();
    let count = count_legs(runs);
    let mut made = Board {
        runs: quiet_runs(alloc, runs)?,
        ends: Sequence::empty(alloc),
    };
    made.ends = ended_below(alloc, &made, count)?;
    Ok(made)
}
