//! How many legs the jobs of a run have together, and how many of them are told to stop.

ghost use Rattle.std.specs.Prelude.{◌≡◌, ◌≤◌, IfOk, map, slice_get, sum_by};
ghost use Rattle.board_counters.specs.Words.{changed};
ghost use Rattle.board_counters.specs.Stopping as spec;

use crate::tally::turned;
use flow_model::{Run, Sequence};
use status_table::moves::count_legs_of;
use std::alloc::{AllocError, Global};

/// How many legs the jobs of a run have, and how many of them are told to stop.
#[derive(Clone, Copy)]
pub struct RunLegs {
    /// All of them.
    pub all: usize,
    /// Those that are told to stop.
    pub told: usize,
}

/// How many legs the jobs of each of some runs have, none of which is told to stop.
#[tactic(auto, using(crate::proofs::Stops::one_within))]
pub(crate) fn legs_of_each(alloc: Global, runs: &[Run]) -> Result<Sequence<RunLegs>, AllocError>
    requires { sum_by (λ run. spec.legs_of_jobs run.jobs) runs.now ≤ 4096 }
    ensures { IfOk result (λ made. made ≡ map spec.untold_legs runs.now) }
{
    let mut made = Vec::with_capacity(alloc, runs.len())?;
    for run in runs {
        let all = count_legs_of(run.jobs.as_slice());
        made.push(RunLegs { all, told: 0 })?;
    }
    Ok(Sequence::new(made))
}

/// What is counted of the run at a place; one that is not there has no legs.
pub(crate) fn run_legs_at(legs: &[RunLegs], place: usize) -> RunLegs
    ensures { result ≡ spec.run_legs_there (slice_get legs.now place) }
{
    match legs.get(place) {
        Some(counted) => *counted,
        None => RunLegs { all: 0, told: 0 },
    }
}

/// Counts again in the run at a place, where a leg was told to stop or not, and now is or is not.
pub(crate) fn retell(legs: &mut Sequence<RunLegs>, place: usize, was: bool, is: bool)
    ensures { legs.new ≡ changed legs.old place (spec.told_turned was is) }
{
    if let Some(counted) = legs.get_mut(place) {
        counted.told = turned(counted.all, counted.told, was, is);
    }
}
