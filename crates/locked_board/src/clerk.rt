//! What a clerk answers, and what it looks for where it has nothing to do.

ghost use Rattle.std.specs.Prelude.{◌≡◌};
ghost use Rattle.std.specs.List.{flat_map, list_any};
ghost use Rattle.flow_model.specs.Numbers.{board_legs};
ghost use Rattle.status_table.specs.Moves as spec;

use board_decisions::derived::is_closed;
use flow_model::{Board, Event, Job, Leg, LegState, Reply, Run};

/// What a clerk did.
#[derive(Drop)]
pub enum Clerk {
    /// It posted this event.
    Moved(Event, Reply),
    /// All runs are closed.
    Done,
    /// It can do nothing before a worker reports: a leg is admitted or running.
    Idle,
    /// Nothing can go on, and yet some run is not closed.
    Stalled,
}

/// Whether all runs are closed.
pub fn is_finished(board: &Board) -> bool
    ensures { result ≡ spec.finished board.now }
{
    let runs = board.runs.as_slice();
    for run in runs {
        if !is_closed(run.state) {
            return false;
        }
    }
    true
}

/// Whether a leg in this state has a worker, or may be taken by one.
fn is_active(state: LegState) -> bool
    ensures { result ≡ spec.is_active state }
{
    matches!(state, LegState::Admitted | LegState::Running { .. })
}

/// Whether one of some legs is such.
fn any_leg(legs: &[Leg]) -> bool
    ensures { result ≡ list_any (λ leg. spec.is_active leg.state) legs.now }
{
    for leg in legs {
        if is_active(leg.state) {
            return true;
        }
    }
    false
}

/// Whether one of the legs of some jobs is.
fn any_of_jobs(jobs: &[Job]) -> bool
    ensures { result ≡ list_any (λ leg. spec.is_active leg.state)
        (flat_map (λ job. job.legs) jobs.now) }
{
    for job in jobs {
        if any_leg(job.legs.as_slice()) {
            return true;
        }
    }
    false
}

/// Whether one of the legs of some runs is.
fn any_of_runs(runs: &[Run]) -> bool
    ensures { result ≡ list_any (λ leg. spec.is_active leg.state)
        (flat_map (λ job. job.legs) (flat_map (λ run. run.jobs) runs.now)) }
{
    for run in runs {
        if any_of_jobs(run.jobs.as_slice()) {
            return true;
        }
    }
    false
}

/// Whether a leg has a worker, or may be taken by one.
pub fn any_active(board: &Board) -> bool
    ensures { result ≡ list_any (λ leg. spec.is_active leg.state) (board_legs board.now) }
{
    any_of_runs(board.runs.as_slice())
}
