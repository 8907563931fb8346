//! How the runs of a board ended, as an exit status.

ghost use Rattle.std.specs.Prelude.{◌≡◌};
ghost use Rattle.std.specs.List.{list_all};
ghost use Rattle.board_decisions.specs.Derived.{is_closed};
ghost use Rattle.command_io.specs.Runs as spec;

use crate::error::{DONE, UNCLOSED, UNSUCCESSFUL};
use board_decisions::derived::is_closed;
use flow_model::{Board, Outcome, Run, RunState};

/// Whether a run is closed with success.
fn has_succeeded(state: RunState) -> bool
    ensures { result ≡ spec.has_succeeded state }
{
    match state {
        RunState::New => false,
        RunState::Waiting => false,
        RunState::Going => false,
        RunState::Closed(outcome) => match outcome {
            Outcome::Success => true,
            Outcome::Failure => false,
            Outcome::Cancelled => false,
            Outcome::Skipped => false,
        },
    }
}

/// Whether all runs are closed.
fn are_closed(runs: &[Run]) -> bool
    ensures { result ≡ list_all (λ run. is_closed run.state) runs.now }
{
    runs.iter().all(|run| is_closed(run.state))
}

/// Whether all runs are closed with success.
fn have_succeeded(runs: &[Run]) -> bool
    ensures { result ≡ list_all (λ run. spec.has_succeeded run.state) runs.now }
{
    runs.iter().all(|run| has_succeeded(run.state))
}

/// The exit status that tells how the runs of a board ended.
pub fn runs_status(board: &Board) -> u8
    ensures { result ≡ spec.runs_status board.now }
{
    if !are_closed(board.runs.as_slice()) {
        return UNCLOSED;
    }
    if have_succeeded(board.runs.as_slice()) {
        return DONE;
    }
    UNSUCCESSFUL
}
