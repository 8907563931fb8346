//! The legs of a board by their numbers.

ghost use Rattle.std.specs.Prelude.{◌≡◌, ◌≤◌, ◌+◌, None, Some, IfOk, IfErr, length, slice_get};
ghost use Rattle.std.specs.List.{flat_map, position_from};
ghost use Rattle.std.specs.Option.{option_copied};
ghost use Rattle.flow_model.specs.Numbers.{board_legs};
ghost use Rattle.worker_pool.specs.Alone as spec;
ghost use Rattle.worker_pool.specs.Lowest.{IsFirstAdmitted};

use board_decisions::place::numbered_leg;
use flow_model::{Board, Job, Leg, LegState};
use status_table::laws::numbers_are_places;

/// The leg at a place among all legs, which is its number.
pub(crate) fn leg_at(board: &Board, place: usize) -> Option<&Leg>
    ensures { option_copied result ≡ slice_get (board_legs board.now) place }
{
    numbers_are_places();
    numbered_leg(board, place)
}

/// Whether a leg may be taken.
fn is_admitted(state: LegState) -> bool
    ensures { result ≡ spec.is_admitted state }
{
    match state {
        LegState::Fresh => false,
        LegState::Waiting => false,
        LegState::Admitted => true,
        LegState::Running { .. } => false,
        LegState::Ended { .. } => false,
    }
}

/// The number of the first of some legs that may be taken, where the first of them has this number.
fn first_leg(legs: &[Leg], before: u64) -> Option<u64>
    requires few { before + length legs.now ≤ 4096 }
    ensures { result ≡ position_from (λ leg. spec.is_admitted leg.state) before legs.now }
{
    let mut number = before;
    for leg in legs {
        if is_admitted(leg.state) {
            return Some(number);
        }
        number += 1;
    }
    None
}

/// The first Admitted leg of some jobs; where there is none, the number after their last leg.
fn first_of_jobs(jobs: &[Job], before: u64) -> Result<u64, u64>
    requires few { before + length (flat_map (λ job. job.legs) jobs.now) ≤ 4096 }
    ensures found { IfOk result (λ number.
        position_from (λ leg. spec.is_admitted leg.state) before (flat_map (λ job. job.legs) jobs.now)
        ≡ Some number) }
    ensures none { IfErr result (λ next.
        position_from (λ leg. spec.is_admitted leg.state) before (flat_map (λ job. job.legs) jobs.now)
        ≡ None) }
    ensures next { IfErr result (λ next.
        next ≡ before + length (flat_map (λ job. job.legs) jobs.now)) }
{
    let mut number = before;
    for job in jobs {
        let legs = job.legs.as_slice();
        match first_leg(legs, number) {
            Some(found) => return Ok(found),
            None => number += legs.len() as u64,
        }
    }
    Err(number)
}

/// The first Admitted leg of a board.
fn first_of_board(board: &Board) -> Option<u64>
    requires few { length (board_legs board.now) ≤ 4096 }
    ensures { result ≡ position_from (λ leg. spec.is_admitted leg.state) 0 (board_legs board.now) }
{
    let runs = board.runs.as_slice();
    let mut number = 0;
    for run in runs {
        match first_of_jobs(run.jobs.as_slice(), number) {
            Ok(found) => return Some(found),
            Err(next) => number = next,
        }
    }
    None
}

/// The number of the first leg that may be taken. The legs are gone over once, since each that is looked for by its
/// number would be counted for from the first job on.
#[tactic(auto, using(crate::proofs::Firsts::lowest_first))]
pub(crate) fn lowest_admitted(board: &Board) -> Option<u64>
    requires few { length (board_legs board.now) ≤ 4096 }
    ensures { IsFirstAdmitted board.now result }
{
    first_of_board(board)
}
