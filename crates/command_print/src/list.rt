//! `actrun list`: the jobs of workflows by their stages.

ghost use Rattle.std.specs.Prelude.{◌≡◌, IfOk, OnOk, flat_map, map, slice_get, string_bytes};
ghost use Rattle.plan_text.specs.BoardText.{Adds};
ghost use Rattle.plan_assembler.specs.declared.choice.Choice.TheVariants.{All};
ghost use Rattle.command_io.specs.Files.{file_seen, no_contexts as no_contexts_of};
ghost use Rattle.command_print.specs.List as spec;
ghost use Rattle.command_print.specs.List.{ListTells, OneListing};
ghost use Rattle.command_print.specs.Planning.{ComesTo, ComesToNone, Finds};

use crate::planning::plan_of;
use command_io::error::CommandError;
use command_io::files::{Content, NamedSource, no_contexts, read_files};
use command_io::stream::{Sink, Source};
use command_io::tell::{refuse_source, tell};
use flow_model::{CheckedPlan, JobPlan, Plan, Sequence};
use plan_assembler::Choice;
use plan_assembler::laws::{one_plan, one_staging};
use plan_assembler::staging::stages;
use std::alloc::{AllocError, Global};
use std::fmt::Write;

/// The id of the job with this number.
fn id_in(jobs: &[JobPlan], number: u64) -> &str
    ensures { result.now ≡ spec.id_in jobs.now number }
{
    for job in jobs {
        if job.number == number {
            return job.id.as_str();
        }
    }
    ""
}

/// The id of the job with this number in a run.
fn id_of(plan: &Plan, run: u64, number: u64) -> &str
    ensures { result.now ≡ spec.id_of (slice_get plan.now.runs run) number }
{
    match plan.runs.as_slice().get(run as usize) {
        Some(run) => id_in(run.jobs.as_slice(), number),
        None => "",
    }
}

/// Adds the line of a job, which is its run and its number.
fn add_job(text: &mut String, plan: &Plan, job: (u64, u64)) -> Result<(), AllocError>
    ensures { OnOk result (Adds text.old text.new (spec.job_line plan.now job)) }
{
    let (run, number) = job;
    let id = id_of(plan, run, number);
    write!(text, "job {number} run {run} {id}\n")
}

/// Adds the lines of jobs.
fn add_jobs(text: &mut String, plan: &Plan, jobs: &[(u64, u64)]) -> Result<(), AllocError>
    ensures { OnOk result (Adds text.old text.new (flat_map (spec.job_line plan.now) jobs.now)) }
{
    for job in jobs {
        add_job(text, plan, *job)?;
    }
    Ok(())
}

/// Adds the line of a stage, and those of its jobs.
fn add_stage(
    text: &mut String,
    plan: &Plan,
    stage: usize,
    jobs: &[(u64, u64)],
) -> Result<(), AllocError>
    ensures { OnOk result (Adds text.old text.new (spec.stage_lines plan.now stage jobs.now)) }
{
    write!(text, "stage {stage}\n")?;
    add_jobs(text, plan, jobs)
}

/// The lines of the stages of a plan, each with the lines of its jobs after it.
fn lines_of(
    alloc: Global,
    plan: &Plan,
    stages: &[Sequence<(u64, u64)>],
) -> Result<String, AllocError>
    ensures { IfOk result (λ text. string_bytes text ≡ spec.listing plan.now 0 stages.now) }
{
    let mut text = String::new(alloc);
    for (stage, jobs) in stages.iter().enumerate() {
        add_stage(&mut text, plan, stage, jobs.as_slice())?;
    }
    Ok(text)
}

/// The list of the jobs of a plan.
fn listed(alloc: Global, plan: &CheckedPlan) -> Result<String, AllocError>
    ensures { IfOk result (λ text. spec.IsListing plan.now (string_bytes text)) }
{
    let stages = stages(alloc, plan)?;
    lines_of(alloc, plan.plan(), stages.as_slice())
}

/// The plan of all workflows, which are handed no contexts.
pub(crate) fn plan_of_all(alloc: Global, flows: &[Content]) -> Result<CheckedPlan, CommandError>
    ensures { Finds (ComesTo All no_contexts_of flows.now)
        (ComesToNone All no_contexts_of flows.now) result }
{
    let contexts = no_contexts(alloc)?;
    plan_of(alloc, &Choice::All, &contexts, flows)
}

/// The list of the jobs of the workflows that files stand for.
fn answer(alloc: Global, flows: &[Content]) -> Result<String, CommandError>
    ensures { spec.GivesList flows.now result }
{
    let plan = plan_of_all(alloc, flows)?;
    Ok(listed(alloc, &plan)?)
}

/// Reads the files of workflows to their ends, and writes the jobs of the plan of all of them to `out`: for each stage the
/// line `stage S`, and after it for each of its jobs the line `job N run R ID`; or writes why there is no plan to `err`, in
/// one line. The answer is the exit status.
pub fn list<S: Source, O: Sink, E: Sink>(
    alloc: Global,
    flows: &mut [NamedSource<S>],
    out: &mut O,
    err: &mut E,
) -> u8
    ensures { ListTells (map (file_seen S.seen) flows.old) (map (file_seen S.seen) flows.new)
        (O.seen out.old) (O.seen out.new) (E.seen err.old) (E.seen err.new) result }
{
    match read_files(alloc, flows) {
        Ok(contents) => tell(answer(alloc, contents.as_slice()), out, err),
        Err(fault) => refuse_source(err, fault),
    }
}

/// Equal files result in one list at most.
pub fn one_listing()
    ensures { OneListing }
{
    one_plan();
    one_staging();
}
