//! The jobs of a run, each with its legs, its needs and its number.

ghost use Rattle.std.specs.Prelude.{◌≡◌, ◌<◌, ◌+◌, ◌^◌, [], ◌∷◌, IfOk, length, unwrap_or};
ghost use Rattle.plan_assembler.specs.Index.{Indexes};
ghost use Rattle.plan_assembler.specs.Layout as layout;
ghost use Rattle.plan_assembler.specs.Order as order_spec;
ghost use Rattle.plan_assembler.specs.Plans as spec;
ghost use Rattle.plan_assembler.specs.Refusals.{FindsLegs, IsMatrixFault, TestsJob};
ghost use Rattle.plan_assembler.specs.Refusals.{MakesJob, MakesJobs, PushesJob};

use crate::fault::{FaultPlace, PlanFault, at_place};
use crate::layout::{job_at, places_of};
use crate::order::numbers_of;
use crate::texts::job_texts;
use flow_model::{Combo, Duplicate, FlowJob, JobPlan, Mapping, Matrix, Sequence, Text};
use indexmap::IndexMap;
use matrix_expand::{MatrixFault, expand};
use std::alloc::{AllocError, Global};

/// One leg, without values.
fn one_leg(alloc: Global) -> Result<Sequence<Combo>, AllocError>
    ensures { IfOk result (λ legs. legs ≡ [] ∷ []) }
{
    let mut legs = Sequence::empty(alloc);
    legs.push(Mapping::empty(alloc))?;
    Ok(legs)
}

/// The legs of a job with this matrix.
fn legs_of(alloc: Global, matrix: &Option<Matrix>) -> Result<Sequence<Combo>, MatrixFault>
    ensures { FindsLegs matrix.now result }
{
    match matrix {
        Some(matrix) => expand(alloc, matrix),
        None => Ok(one_leg(alloc)?),
    }
}

/// The fault of the matrix of the job with this number.
#[tactic(auto, unfolding(crate::specs::Refusals::Answered))]
fn no_legs(number: u64, fault: MatrixFault) -> PlanFault
    ensures { IsMatrixFault number fault result }
{
    match fault {
        MatrixFault::EmptyVariable | MatrixFault::NoCombination | MatrixFault::TooMany => {
            PlanFault::Matrix(number, fault)
        },
        MatrixFault::Memory => PlanFault::Memory,
    }
}

/// The legs of a job with this number, whose texts can be read.
fn tested_legs(alloc: Global, number: u64, job: &FlowJob) -> Result<Sequence<Combo>, PlanFault>
    ensures { TestsJob number job.now result }
{
    match legs_of(alloc, &job.matrix) {
        Ok(legs) => match job_texts(alloc, job) {
            Ok(()) => Ok(legs),
            Err(fault) => Err(at_place(FaultPlace::Job(number), fault)),
        },
        Err(fault) => Err(no_legs(number, fault)),
    }
}

/// How the jobs of a run are numbered: by their places in its order, of which the first has the number `first`.
#[derive(Clone, Copy)]
pub(crate) struct Numbering<'a> {
    /// The places of the workflow's jobs, by their ids.
    pub(crate) index: &'a IndexMap<String, usize>,
    /// The places of the run's jobs, in the order of the plan.
    pub(crate) order: &'a Sequence<usize>,
    /// The number of the first of them.
    pub(crate) first: u64,
}

/// The numbers of what a job needs.
fn needs_of(
    alloc: Global,
    numbering: &Numbering<'_>,
    jobs: &Sequence<FlowJob>,
    needs: &Sequence<Text>,
) -> Result<Sequence<u64>, AllocError>
    requires indexed { Indexes (layout.ids_of jobs.now) numbering.now.index.now }
    requires fits { numbering.now.first + length numbering.now.order.now < 2 ^ 64 }
    ensures { let places = layout.need_places jobs.now needs.now in
        IfOk result
        (λ numbers. numbers ≡ order_spec.numbers_of numbering.now.first numbering.now.order.now places) }
{
    let places = places_of(alloc, numbering.index, jobs, needs)?;
    let count = jobs.as_slice().len() + 1;
    numbers_of(alloc, numbering.first, numbering.order, &places, count)
}

/// A job's name, or its id where it has none.
fn name_of(alloc: Global, job: &FlowJob) -> Result<Text, AllocError>
    ensures { IfOk result (λ name. name ≡ unwrap_or job.now.name job.now.id) }
{
    match &job.name {
        Some(name) => name.copy(alloc),
        None => job.id.copy(alloc),
    }
}

/// A job of a plan, of the parts of a job.
fn plan_of(
    job: FlowJob,
    name: Text,
    legs: Sequence<Combo>,
    needs: Sequence<u64>,
    number: u64,
) -> JobPlan
    ensures { name ≡ unwrap_or job.name job.id → result ≡ spec.job_with job legs needs number }
{
    JobPlan {
        condition: job.condition,
        env: job.env,
        fail_fast: job.fail_fast,
        group: job.group,
        id: job.id,
        legs,
        max_parallel: job.max_parallel,
        name,
        needs,
        number,
        outputs: job.outputs,
        steps: job.steps,
        tolerate: job.tolerate,
    }
}

/// A job of a plan.
fn job_with(
    alloc: Global,
    job: &FlowJob,
    legs: Sequence<Combo>,
    needs: Sequence<u64>,
    number: u64,
) -> Result<JobPlan, AllocError>
    ensures { IfOk result (λ plan. plan ≡ spec.job_with job.now legs needs number) }
{
    let name = name_of(alloc, job)?;
    Ok(plan_of(job.copy(alloc)?, name, legs, needs, number))
}

/// The job of a plan with this number, which passes its tests.
#[tactic(auto, using(crate::proofs::Answering::memory_answered))]
fn tested_job(
    alloc: Global,
    numbering: &Numbering<'_>,
    jobs: &Sequence<FlowJob>,
    number: u64,
    job: &FlowJob,
) -> Result<JobPlan, PlanFault>
    requires indexed { Indexes (layout.ids_of jobs.now) numbering.now.index.now }
    requires fits { numbering.now.first + length numbering.now.order.now < 2 ^ 64 }
    ensures { MakesJob jobs.now numbering.now.order.now numbering.now.first number job.now result }
{
    let legs = tested_legs(alloc, number, job)?;
    let needs = needs_of(alloc, numbering, jobs, &job.needs)?;
    Ok(job_with(alloc, job, legs, needs, number)?)
}

/// Adds the job that stands at a place, if one does.
#[tactic(auto, using(crate::proofs::Answering::memory_answered))]
fn push_job(
    alloc: Global,
    numbering: &Numbering<'_>,
    jobs: &Sequence<FlowJob>,
    place: usize,
    plans: &mut Vec<JobPlan>,
) -> Result<(), PlanFault>
    requires indexed { Indexes (layout.ids_of jobs.now) numbering.now.index.now }
    requires fits { numbering.now.first + length numbering.now.order.now < 2 ^ 64 }
    requires room { numbering.now.first + length plans.old.items < 2 ^ 64 }
    ensures { PushesJob jobs.now numbering.now.order.now numbering.now.first place
        plans.old.items plans.new.items result }
{
    match job_at(jobs, place) {
        Some(job) => {
            let number = numbering.first + plans.len() as u64;
            match tested_job(alloc, numbering, jobs, number, job) {
                Ok(plan) => {
                    plans.push(plan)?;
                    Ok(())
                },
                Err(fault) => Err(fault),
            }
        },
        None => Ok(()),
    }
}

/// The jobs of a run, as they are numbered.
pub(crate) fn jobs_of(
    alloc: Global,
    numbering: &Numbering<'_>,
    jobs: &Sequence<FlowJob>,
) -> Result<Sequence<JobPlan>, PlanFault>
    requires indexed { Indexes (layout.ids_of jobs.now) numbering.now.index.now }
    requires fits { numbering.now.first + length numbering.now.order.now < 2 ^ 64 }
    ensures { MakesJobs jobs.now numbering.now.order.now numbering.now.first result }
{
    let places = numbering.order.as_slice();
    let mut plans = Vec::new(alloc);
    for place in places {
        if let Err(fault) = push_job(alloc, numbering, jobs, *place, &mut plans) {
            return Err(fault);
        }
    }
    Ok(Sequence::new(plans))
}
