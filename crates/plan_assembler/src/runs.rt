//! The runs of a plan.

ghost use Rattle.std.specs.Prelude.{◌≡◌, ◌<◌, ◌≤◌, ◌+◌, ◌^◌, true, [], ◌∷◌, IfOk, length};
ghost use Rattle.std.specs.List.{list_all};
ghost use Rattle.plan_assembler.specs.Index.{Indexes};
ghost use Rattle.plan_assembler.specs.Layout as layout;
ghost use Rattle.plan_assembler.specs.Plans as spec;
ghost use Rattle.plan_assembler.specs.Refusals.{FindsOrder, MakesRun, MakesRuns, MakesTaken, NeedsPass, PushesRun};

use crate::choice::Choice;
use crate::fault::{FaultPlace, PlanFault, at_place};
use crate::index::index_of;
use crate::jobs::{Numbering, jobs_of};
use crate::layout::{are_needs_known, find_order, graph_of, is_job, is_one_of, job_at};
use crate::texts::workflow_texts;
use flow_model::{Duplicate, Flow, FlowJob, JobPlan, Roots, RunPlan, Sequence, Text, Workflow};
use indexmap::IndexMap;
use std::alloc::{AllocError, Global};

/// How many jobs stand at a place: one or none.
fn count_at(jobs: &Sequence<FlowJob>, place: usize) -> usize
    ensures count { result ≡ length (layout.at_places jobs.now (place ∷ [])) }
    ensures few { result ≤ 1 }
{
    match job_at(jobs, place) {
        Some(_) => 1,
        None => 0,
    }
}

/// How many jobs stand at these places.
fn count_jobs(jobs: &Sequence<FlowJob>, order: &Sequence<usize>) -> usize
    ensures { result ≡ length (layout.at_places jobs.now order.now) }
{
    let places = order.as_slice();
    let mut count = 0;
    for place in places {
        count += count_at(jobs, *place);
    }
    count
}

/// Whether the job at a place, if there is one, has at most 256 steps.
fn has_few_steps(jobs: &Sequence<FlowJob>, place: usize) -> bool
    ensures { result ≡ list_all layout.has_few_steps (layout.at_places jobs.now (place ∷ [])) }
{
    match job_at(jobs, place) {
        Some(job) => job.steps.len() <= 256,
        None => true,
    }
}

/// Whether each job at these places has at most 256 steps.
fn have_few_steps(jobs: &Sequence<FlowJob>, order: &Sequence<usize>) -> bool
    ensures { result ≡ list_all layout.has_few_steps (layout.at_places jobs.now order.now) }
{
    let places = order.as_slice();
    for place in places {
        if !has_few_steps(jobs, *place) {
            return false;
        }
    }
    true
}

/// Whether there are at most 256 jobs, each of at most 256 steps.
fn are_few(jobs: &Sequence<FlowJob>, order: &Sequence<usize>) -> bool
    ensures { result ≡ layout.are_few (layout.at_places jobs.now order.now) }
{
    count_jobs(jobs, order) <= 256 && have_few_steps(jobs, order)
}

/// The order of the jobs of a run.
#[tactic(auto, using(crate::proofs::Answering::memory_answered))]
fn tested_order(
    alloc: Global,
    choice: &Choice,
    index: &IndexMap<String, usize>,
    jobs: &Sequence<FlowJob>,
) -> Result<Sequence<usize>, PlanFault>
    requires indexed { Indexes (layout.ids_of jobs.now) index.now }
    requires taken { layout.has_target choice.now jobs.now ≡ true }
    ensures order { FindsOrder choice.now jobs.now result }
    ensures long { IfOk result (λ order. length order < 2 ^ 63) }
{
    if !are_needs_known(index, jobs) {
        return Err(PlanFault::UnknownNeed);
    }
    let graph = graph_of(alloc, index, jobs)?;
    match find_order(alloc, choice, index, jobs, &graph)? {
        Some(order) => Ok(order),
        None => Err(PlanFault::Cycle),
    }
}

/// What runs are made of: what is chosen of a workflow, and the contexts that its run is handed.
#[derive(Clone, Copy)]
struct Source<'a> {
    choice: &'a Choice,
    workflow: &'a Workflow,
    roots: &'a Roots,
}

/// The jobs of a run, after the tests of how many they are and of the workflow's own texts.
fn tested_jobs(
    alloc: Global,
    workflow: &Workflow,
    run: u64,
    numbering: &Numbering<'_>,
) -> Result<Sequence<JobPlan>, PlanFault>
    requires indexed { Indexes (layout.ids_of workflow.now.jobs) numbering.now.index.now }
    requires fits { numbering.now.first + length numbering.now.order.now < 2 ^ 64 }
    ensures { MakesTaken workflow.now numbering.now.order.now run numbering.now.first result }
{
    if !are_few(&workflow.jobs, numbering.order) {
        return Err(PlanFault::TooMany);
    }
    match workflow_texts(alloc, workflow) {
        Ok(()) => jobs_of(alloc, numbering, &workflow.jobs),
        Err(fault) => Err(at_place(FaultPlace::Run(run), fault)),
    }
}

/// The event that a choice names.
fn event_of(alloc: Global, choice: &Choice) -> Result<Option<Text>, AllocError>
    ensures { IfOk result (λ event. event ≡ layout.event_of choice.now) }
{
    match choice {
        Choice::Event(name) => Ok(Some(name.copy(alloc)?)),
        Choice::Job(_) => Ok(None),
        Choice::All => Ok(None),
    }
}

/// A run of a workflow.
fn run_with(
    alloc: Global,
    source: &Source<'_>,
    jobs: Sequence<JobPlan>,
) -> Result<RunPlan, AllocError>
    ensures { IfOk result (λ plan. plan
        ≡ spec.run_with source.now.roots.now source.now.choice.now source.now.workflow.now jobs) }
{
    let event = event_of(alloc, source.choice)?;
    let env = source.workflow.env.copy(alloc)?;
    let flow = source.workflow.name.copy(alloc)?;
    let group = source.workflow.group.copy(alloc)?;
    let roots = source.roots.copy(alloc)?;
    Ok(RunPlan {
        env,
        event,
        flow,
        group,
        jobs,
        roots,
    })
}

/// The run of a workflow, whose jobs are numbered so.
#[tactic(auto, using(crate::proofs::Answering::memory_answered))]
fn run_in_order(
    alloc: Global,
    source: &Source<'_>,
    run: u64,
    numbering: &Numbering<'_>,
) -> Result<RunPlan, PlanFault>
    requires indexed { Indexes (layout.ids_of source.now.workflow.now.jobs) numbering.now.index.now }
    requires needs { NeedsPass source.now.choice.now source.now.workflow.now.jobs numbering.now.order.now }
    requires fits { numbering.now.first + length numbering.now.order.now < 2 ^ 64 }
    ensures { MakesRun source.now.roots.now source.now.choice.now source.now.workflow.now
        run numbering.now.first result }
{
    match tested_jobs(alloc, source.workflow, run, numbering) {
        Ok(jobs) => Ok(run_with(alloc, source, jobs)?),
        Err(fault) => Err(fault),
    }
}

/// The run of a workflow, whose jobs are numbered from `first` on.
#[tactic(auto, using(crate::proofs::Answering::memory_answered))]
fn run_of(alloc: Global, source: &Source<'_>, run: u64, first: u64) -> Result<RunPlan, PlanFault>
    requires taken { layout.has_target source.now.choice.now source.now.workflow.now.jobs ≡ true }
    requires room { first ≤ 16384 }
    ensures { MakesRun source.now.roots.now source.now.choice.now source.now.workflow.now run first result }
{
    let index = index_of(alloc, &source.workflow.jobs)?;
    match tested_order(alloc, source.choice, &index, &source.workflow.jobs) {
        Ok(order) => {
            let numbering = Numbering {
                index: &index,
                order: &order,
                first,
            };
            run_in_order(alloc, source, run, &numbering)
        },
        Err(fault) => Err(fault),
    }
}

/// Whether a workflow makes a run.
pub(crate) fn is_taken(choice: &Choice, workflow: &Workflow) -> bool
    ensures taken { result ≡ layout.is_taken choice.now workflow.now }
    ensures target { result ≡ true → layout.has_target choice.now workflow.now.jobs ≡ true }
{
    match choice {
        Choice::Event(name) => is_one_of(&workflow.events, name),
        Choice::Job(id) => is_job(&workflow.jobs, id),
        Choice::All => true,
    }
}

/// Adds the run of a workflow, if the choice takes it, and gives the number of the job after its
/// jobs.
#[tactic(auto, using(crate::proofs::Answering::memory_answered))]
fn push_run(
    alloc: Global,
    source: &Source<'_>,
    first: u64,
    runs: &mut Vec<RunPlan>,
) -> Result<u64, PlanFault>
    requires { first ≤ 16384 }
    ensures { PushesRun source.now.roots.now source.now.choice.now source.now.workflow.now first
        runs.old.items runs.new.items result }
{
    if !is_taken(source.choice, source.workflow) {
        return Ok(first);
    }
    match run_of(alloc, source, runs.len() as u64, first) {
        Ok(run) => {
            let next = first + run.jobs.len() as u64;
            runs.push(run)?;
            Ok(next)
        },
        Err(fault) => Err(fault),
    }
}

/// The runs of all workflows that the choice takes.
pub(crate) fn runs_of(
    alloc: Global,
    choice: &Choice,
    flows: &Sequence<Flow>,
    roots: &Roots,
) -> Result<Sequence<RunPlan>, PlanFault>
    requires { length (layout.taken choice.now flows.now) ≤ 64 }
    ensures { MakesRuns roots.now choice.now (layout.taken choice.now flows.now) result }
{
    let from = flows.as_slice();
    let mut runs = Vec::new(alloc);
    let mut first = 0;
    for flow in from {
        let source = Source {
            choice,
            workflow: flow.workflow(),
            roots,
        };
        match push_run(alloc, &source, first, &mut runs) {
            Ok(next) => first = next,
            Err(fault) => return Err(fault),
        }
    }
    Ok(Sequence::new(runs))
}
