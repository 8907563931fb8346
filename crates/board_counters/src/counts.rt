//! What is counted beside a board, and how it is counted again after a change.

ghost use Rattle.std.specs.Prelude.{◌≡◌, ◌≤◌, IfOk, map, slice_get, sum_by};
ghost use Rattle.board_counters.specs.Changes as spec;
ghost use Rattle.board_counters.specs.Words.{changed, dependents_at as places_that_need, legs_of_jobs, needs_of as needs_of_runs, run_moved as run_moved_of, run_tally as run_tally_of, standing_read, tally_of as tally_of_job, untold_legs};

use crate::counted::job_of;
use crate::dependents::{Dependents, dependents_at};
use crate::lasting::Lasting;
use crate::need::{Need, needs_of, turn_needs};
use crate::standing::{JobStanding, RunTally, no_standing, run_moved, standing_by, tally_run};
use crate::stopping::{RunLegs, legs_of_each};
use crate::tally::{Tally, are_alike, moved, tally_of};
use board_decisions::place::{JobPlace, LegPlace};
use flow_model::{Board, Job, LegState, Run, RunPlan, Sequence};
use std::alloc::{AllocError, Global};

/// What is counted beside a board.
#[derive(Drop)]
pub(crate) struct Counts {
    /// How the legs of each job of each run stand.
    pub(crate) tallies: Sequence<Sequence<Tally>>,
    /// How the jobs of each run stand.
    pub(crate) runs: Sequence<RunTally>,
    /// How many legs the jobs of each run have, and how many are told to stop.
    pub(crate) legs: Sequence<RunLegs>,
    /// How many of the jobs that each job of each run needs are open.
    pub(crate) needs: Sequence<Sequence<Need>>,
}

/// How the legs of each of some jobs stand.
fn tally_jobs(alloc: Global, jobs: &[Job]) -> Result<Sequence<Tally>, AllocError>
    ensures { IfOk result (λ tallies. tallies ≡ map tally_of_job jobs.now) }
{
    let mut tallies = Vec::with_capacity(alloc, jobs.len())?;
    for job in jobs {
        tallies.push(tally_of(job))?;
    }
    Ok(Sequence::new(tallies))
}

/// How the legs of each job stand, of each of some runs.
fn tally_runs(alloc: Global, runs: &[Run]) -> Result<Sequence<Sequence<Tally>>, AllocError>
    ensures { IfOk result
        (λ tallies. tallies ≡ map (λ run. map tally_of_job run.jobs) runs.now) }
{
    let mut tallies = Vec::with_capacity(alloc, runs.len())?;
    for run in runs {
        tallies.push(tally_jobs(alloc, run.jobs.as_slice())?)?;
    }
    Ok(Sequence::new(tallies))
}

/// What each job of each run needs.
fn needs_of_each(
    alloc: Global,
    plans: &[RunPlan],
    runs: &[Run],
    tallies: &[Sequence<Tally>],
) -> Result<Sequence<Sequence<Need>>, AllocError>
    requires { tallies.now ≡ map (λ run. map tally_of_job run.jobs) runs.now }
    ensures { IfOk result (λ needs. needs ≡ needs_of_runs plans.now runs.now) }
{
    let mut needs = Vec::with_capacity(alloc, plans.len())?;
    for (place, plan) in plans.iter().enumerate() {
        let Some(run) = runs.get(place) else {
            return Ok(Sequence::new(needs));
        };
        let Some(row) = tallies.get(place) else {
            return Ok(Sequence::new(needs));
        };
        let made = needs_of(alloc, run, row.as_slice(), plan.jobs.as_slice())?;
        needs.push(made)?;
    }
    Ok(Sequence::new(needs))
}

/// How the jobs of each of some runs stand, whose legs are tallied.
fn tally_each_run(
    alloc: Global,
    runs: &[Run],
    tallies: &[Sequence<Tally>],
) -> Result<Sequence<RunTally>, AllocError>
    requires { tallies.now ≡ map (λ run. map tally_of_job run.jobs) runs.now }
    ensures { IfOk result (λ made. made ≡ map run_tally_of runs.now) }
{
    let mut made = Vec::with_capacity(alloc, runs.len())?;
    for (place, run) in runs.iter().enumerate() {
        let Some(row) = tallies.get(place) else {
            return Ok(Sequence::new(made));
        };
        made.push(tally_run(run, row.as_slice()))?;
    }
    Ok(Sequence::new(made))
}

/// What is counted beside runs of these plans, no leg of which is told to stop.
pub(crate) fn count_all(
    alloc: Global,
    plans: &[RunPlan],
    runs: &[Run],
) -> Result<Counts, AllocError>
    requires { sum_by (λ run. legs_of_jobs run.jobs) runs.now ≤ 4096 }
    ensures tallies { IfOk result
        (λ made. made.tallies ≡ map (λ run. map tally_of_job run.jobs) runs.now) }
    ensures runs { IfOk result (λ made. made.runs ≡ map run_tally_of runs.now) }
    ensures legs { IfOk result (λ made. made.legs ≡ map untold_legs runs.now) }
    ensures needs { IfOk result (λ made. made.needs ≡ needs_of_runs plans.now runs.now) }
{
    let tallies = tally_runs(alloc, runs)?;
    let stand = tally_each_run(alloc, runs, tallies.as_slice())?;
    let legs = legs_of_each(alloc, runs)?;
    let needs = needs_of_each(alloc, plans, runs, tallies.as_slice())?;
    Ok(Counts {
        tallies,
        runs: stand,
        legs,
        needs,
    })
}

/// How the job at a place of a board stands, by these tallies.
pub(crate) fn standing_at(
    board: &Board,
    tallies: &[Sequence<Tally>],
    place: JobPlace,
) -> JobStanding
    ensures { result ≡ standing_read (slice_get board.now.runs place.run)
        (slice_get tallies.now place.run) place.job }
{
    let Some(run) = board.runs.as_slice().get(place.run) else {
        return no_standing();
    };
    let Some(row) = tallies.get(place.run) else {
        return no_standing();
    };
    let Some(job) = run.jobs.as_slice().get(place.job) else {
        return no_standing();
    };
    match row.as_slice().get(place.job) {
        Some(tally) => standing_by(job.state, *tally),
        None => no_standing(),
    }
}

/// Tallies the job of a leg that came from a state to another.
fn retally(tallies: &mut Sequence<Sequence<Tally>>, place: LegPlace, was: LegState, is: LegState)
    ensures { tallies.new ≡ spec.retallied place was is tallies.old }
{
    if let Some(row) = tallies.get_mut(place.run) {
        if let Some(tally) = row.get_mut(place.job) {
            *tally = moved(*tally, was, is);
        }
    }
}

/// Turns the needs of the jobs that need the one at a place, which was open or not, and now is or is not.
fn turn_run(
    needs: &mut Sequence<Sequence<Need>>,
    dependents: &Sequence<Dependents>,
    place: JobPlace,
    was: bool,
    is: bool,
)
    ensures { needs.new ≡ changed needs.old place.run
        (spec.needs_turned was is (places_that_need dependents.now place)) }
{
    if let Some(row) = needs.get_mut(place.run) {
        turn_needs(row, dependents_at(dependents, place), was, is);
    }
}

/// Turns the needs of the jobs that need the one at a place where that was settled and is not now, or the other way about.
fn turn_if(
    was: bool,
    is: bool,
    needs: &mut Sequence<Sequence<Need>>,
    dependents: &Sequence<Dependents>,
    place: JobPlace,
)
    ensures { needs.new ≡ spec.resettled was is place.run
        (places_that_need dependents.now place) needs.old }
{
    match (was, is) {
        (false, false) => {},
        (true, true) => {},
        (false, true) => turn_run(needs, dependents, place, true, false),
        (true, false) => turn_run(needs, dependents, place, false, true),
    }
}

/// Counts the jobs of the run at a place again, one of which stood so, and now stands so.
fn recount_jobs(runs: &mut Sequence<RunTally>, place: usize, was: JobStanding, is: JobStanding)
    ensures { runs.new ≡ changed runs.old place (run_moved_of was is) }
{
    if let Some(tally) = runs.get_mut(place) {
        *tally = run_moved(*tally, was, is);
    }
}

/// Counts again after the job at a place stood so, and now stands otherwise.
pub(crate) fn recount_job(
    counts: &mut Counts,
    lasting: &Lasting,
    place: JobPlace,
    was: JobStanding,
    is: JobStanding,
)
    ensures tallies { counts.new.tallies ≡ counts.old.tallies }
    ensures legs { counts.new.legs ≡ counts.old.legs }
    ensures runs { counts.new.runs ≡ changed counts.old.runs place.run (run_moved_of was is) }
    ensures needs { counts.new.needs ≡ spec.resettled was.is_settled is.is_settled place.run
        (places_that_need lasting.now.dependents place) counts.old.needs }
{
    recount_jobs(&mut counts.runs, place.run, was, is);
    turn_if(
        was.is_settled,
        is.is_settled,
        &mut counts.needs,
        &lasting.dependents,
        place,
    );
}

/// The leg at a place that came from a state to another.
#[derive(Clone, Copy)]
pub(crate) struct LegTurn {
    pub(crate) place: LegPlace,
    pub(crate) was: LegState,
    pub(crate) is: LegState,
}

/// Counts again after a leg came from a state to another; the states of jobs are as they were.
pub(crate) fn recount_leg(counts: &mut Counts, board: &Board, lasting: &Lasting, turn: LegTurn)
    ensures { spec.LegRecounted turn.place turn.was turn.is
        (slice_get board.now.runs turn.place.run) lasting.now.dependents counts.old counts.new }
{
    if are_alike(turn.was, turn.is) {
        return;
    }
    let job = job_of(turn.place);
    let before = standing_at(board, counts.tallies.as_slice(), job);
    retally(&mut counts.tallies, turn.place, turn.was, turn.is);
    let after = standing_at(board, counts.tallies.as_slice(), job);
    recount_job(counts, lasting, job, before, after);
}
