//! The jobs of a plan by their stages.

ghost use Rattle.std.specs.Prelude.{◌≡◌, ◌<◌, ◌+◌, ◌^◌, ◌++◌, IfOk, OnOk, length, get_or};
ghost use Rattle.plan_assembler.specs.Stages.{stage_after as stage_after_of};
ghost use Rattle.plan_assembler.specs.Staging as spec;
ghost use Rattle.plan_assembler.specs.Staging.{AreBounded, AreStageLists};

use flow_model::{CheckedPlan, JobPlan, Plan, Sequence};
use std::alloc::{AllocError, Global};

/// The stage that was found for a job.
fn found_at(found: &[usize], job: u64) -> usize
    ensures { result ≡ get_or found.now job 0 }
{
    match found.get(job as usize) {
        Some(stage) => *stage,
        None => 0,
    }
}

/// The stage after those that were found for the needs.
fn next_stage(needs: &Sequence<u64>, found: &[usize]) -> usize
    requires bounded { AreBounded found.now }
    requires fits { length found.now + 1 < 2 ^ 64 }
    ensures { result ≡ spec.next_stage found.now needs.now }
{
    let needs = needs.as_slice();
    let mut stage = 0;
    for need in needs {
        let after = found_at(found, *need) + 1;
        if stage < after {
            stage = after;
        }
    }
    stage
}

/// Adds the stage of a job.
fn push_job(found: &mut Vec<usize>, needs: &Sequence<u64>) -> Result<(), AllocError>
    requires { AreBounded found.old.items }
    ensures ok { OnOk result (found.new.items ≡ spec.with_stage found.old.items needs.now) }
    ensures bounded { OnOk result (AreBounded found.new.items) }
{
    let stage = next_stage(needs, found.as_slice());
    found.push(stage)?;
    Ok(())
}

/// Adds the stages of the jobs of a run.
fn push_jobs(found: &mut Vec<usize>, jobs: &Sequence<JobPlan>) -> Result<(), AllocError>
    requires { AreBounded found.old.items }
    ensures ok { let needs = spec.needs_of jobs.now in
        OnOk result (found.new.items ≡ spec.stages_from found.old.items needs) }
    ensures bounded { OnOk result (AreBounded found.new.items) }
{
    let jobs = jobs.as_slice();
    for job in jobs {
        push_job(found, &job.needs)?;
    }
    Ok(())
}

/// The stages of all jobs of a plan, by their numbers.
fn plan_stages(alloc: Global, plan: &Plan) -> Result<Vec<usize>, AllocError>
    ensures found { IfOk result (λ found. found.items ≡ spec.plan_stages plan.now) }
    ensures bounded { IfOk result (λ found. AreBounded found.items) }
{
    let runs = plan.runs.as_slice();
    let mut found = Vec::new(alloc);
    for run in runs {
        push_jobs(&mut found, &run.jobs)?;
    }
    Ok(found)
}

/// Adds the jobs of a run.
fn push_run(
    list: &mut Vec<(u64, u64)>,
    run: u64,
    jobs: &Sequence<JobPlan>,
) -> Result<(), AllocError>
    ensures { OnOk result (list.new.items ≡ list.old.items ++ spec.numbered run jobs.now) }
{
    let jobs = jobs.as_slice();
    for job in jobs {
        list.push((run, job.number))?;
    }
    Ok(())
}

/// Each job of a plan as its run and its number.
fn run_jobs(alloc: Global, plan: &Plan) -> Result<Vec<(u64, u64)>, AllocError>
    ensures { IfOk result (λ list. list.items ≡ spec.run_jobs 0 plan.now.runs) }
{
    let runs = plan.runs.as_slice();
    let mut list = Vec::new(alloc);
    for (run, item) in runs.iter().enumerate() {
        push_run(&mut list, run as u64, &item.jobs)?;
    }
    Ok(list)
}

/// The jobs of a stage.
fn in_stage(
    alloc: Global,
    found: &[usize],
    jobs: &[(u64, u64)],
    stage: usize,
) -> Result<Sequence<(u64, u64)>, AllocError>
    ensures { IfOk result (λ list. list ≡ spec.in_stage found.now jobs.now stage) }
{
    let mut list = Vec::new(alloc);
    for job in jobs {
        if found_at(found, job.1) == stage {
            list.push(*job)?;
        }
    }
    Ok(Sequence::new(list))
}

/// How many stages there are: one more than the greatest.
fn count_stages(found: &[usize]) -> usize
    requires bounded { AreBounded found.now }
    requires fits { length found.now + 1 < 2 ^ 64 }
    ensures { result ≡ stage_after_of found.now }
{
    let mut count = 0;
    for stage in found {
        let after = *stage + 1;
        if count < after {
            count = after;
        }
    }
    count
}

/// The jobs of each stage, of which there are so many.
fn lists(
    alloc: Global,
    found: &[usize],
    jobs: &[(u64, u64)],
    count: usize,
) -> Result<Sequence<Sequence<(u64, u64)>>, AllocError>
    ensures { IfOk result (λ lists. lists ≡ spec.stage_lists count 0 found.now jobs.now) }
{
    let mut lists = Vec::new(alloc);
    for stage in 0..count {
        lists.push(in_stage(alloc, found, jobs, stage)?)?;
    }
    Ok(Sequence::new(lists))
}

/// The jobs of a plan by their stages, from the first on: each as its run and its number.
pub fn stages(
    alloc: Global,
    plan: &CheckedPlan,
) -> Result<Sequence<Sequence<(u64, u64)>>, AllocError>
    ensures { IfOk result (AreStageLists plan.now) }
{
    let plan = plan.plan();
    let found = plan_stages(alloc, plan)?;
    let jobs = run_jobs(alloc, plan)?;
    let count = count_stages(found.as_slice());
    lists(alloc, found.as_slice(), jobs.as_slice(), count)
}
