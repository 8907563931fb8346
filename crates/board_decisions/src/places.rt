//! The places of all jobs and of all legs, in the order of their numbers.

ghost use Rattle.std.specs.Prelude.{◌≡◌, ◌++◌, IfOk, OnOk, map};
ghost use Rattle.board_decisions.specs.Places as spec;
ghost use Rattle.board_decisions.specs.Places.{numbers};

use crate::place::{JobPlace, LegPlace};
use flow_model::{Job, Run};
use std::alloc::{AllocError, Global};

/// Adds the places of a job's legs.
#[tactic(auto, using(crate::proofs::Placed::number_more))]
fn add_legs(
    places: &mut Vec<LegPlace>,
    run: usize,
    job: usize,
    count: usize,
) -> Result<(), AllocError>
    ensures { OnOk result
        (places.new.items ≡ places.old.items ++ map (spec.leg_of run job) (numbers count)) }
{
    for leg in 0..count {
        places.push(LegPlace { run, job, leg })?;
    }
    Ok(())
}

/// Adds those of the legs of a run's jobs.
fn add_jobs(places: &mut Vec<LegPlace>, run: usize, jobs: &[Job]) -> Result<(), AllocError>
    ensures { OnOk result
        (places.new.items ≡ places.old.items ++ spec.legs_from run 0 (spec.sizes jobs.now)) }
{
    for (place, job) in jobs.iter().enumerate() {
        add_legs(places, run, place, job.legs.len())?;
    }
    Ok(())
}

/// The places of the legs of all runs.
pub fn leg_places(alloc: Global, runs: &[Run]) -> Result<Vec<LegPlace>, AllocError>
    ensures { IfOk result
        (λ places. places.items ≡ spec.all_legs_from 0 (spec.run_sizes runs.now)) }
{
    let mut places = Vec::new(alloc);
    for (place, run) in runs.iter().enumerate() {
        add_jobs(&mut places, place, run.jobs.as_slice())?;
    }
    Ok(places)
}

/// Adds the places of a run's jobs.
#[tactic(auto, using(crate::proofs::Placed::number_more))]
fn add_run_jobs(places: &mut Vec<JobPlace>, run: usize, count: usize) -> Result<(), AllocError>
    ensures { OnOk result
        (places.new.items ≡ places.old.items ++ map (spec.job_in run) (numbers count)) }
{
    for job in 0..count {
        places.push(JobPlace { run, job })?;
    }
    Ok(())
}

/// The places of the jobs of all runs.
pub fn job_places(alloc: Global, runs: &[Run]) -> Result<Vec<JobPlace>, AllocError>
    ensures { IfOk result
        (λ places. places.items ≡ spec.all_jobs_from 0 (spec.run_sizes runs.now)) }
{
    let mut places = Vec::new(alloc);
    for (place, run) in runs.iter().enumerate() {
        add_run_jobs(&mut places, place, run.jobs.len())?;
    }
    Ok(places)
}
