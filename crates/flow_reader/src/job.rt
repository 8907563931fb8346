//! The jobs of a workflow.

ghost use Rattle.std.specs.Prelude.{◌≡◌, ◌==◌, ℕ, List, IfOk, length};
ghost use Rattle.serde_json.specs.View.{view, members_view};
ghost use Rattle.flow_reader.specs.Checked.{Gives, members_checked};
ghost use Rattle.flow_reader.specs.Defaults.{filled_steps};
ghost use Rattle.flow_reader.specs.Workflow.{job_from, job_with, job_parts_of, job_of, job_at, some_jobs};

use crate::defaults::{Defaults, fill_each};
use crate::fault::FlowFault;
use crate::maps::{Env, Outputs};
use crate::parts::{Required, read_object};
use crate::reading::FromJson;
use crate::refusal::{at, bad_id, wrong_shape};
use crate::step::Steps;
use crate::strategy::Strategy;
use crate::texts::{Condition, Needs};
use flow_model::{Flag, FlowJob, Group, Sequence, StepPlan, Text, is_id};
use serde_json::Value;
use std::alloc::{AllocError, Global};
use std::collections::BTreeMap;
use std::marker::Model;

/// What a job says of its values, its defaults, its outputs and its steps.
type JobSteps = (Env, (Defaults, (Outputs, (Required<Steps>, ()))));

/// What a job says besides.
type JobHead = (
    Option<Text>,
    (
        Needs,
        (Condition, (Strategy, (Option<Group>, (Flag, JobSteps)))),
    ),
);

/// The keys of a job: those that are left out, and the others.
type JobParts = ((), ((), ((), JobHead)));

/// What an object says of a job.
#[tactic(auto, unfolding(crate::specs::Workflow::job_parts_of))]
fn read_parts(alloc: Global, json: &Value) -> Result<JobParts, FlowFault>
    ensures { Gives result (job_parts_of (view json.now)) }
{
    let keys = [
        "container",
        "services",
        "uses",
        "name",
        "needs",
        "if",
        "strategy",
        "concurrency",
        "continue-on-error",
        "env",
        "defaults",
        "outputs",
        "steps",
    ];
    read_object::<JobParts>(alloc, json, &keys)
}

/// What a job says besides its steps and the defaults of their scripts.
type JobRest = (
    Option<Text>,
    (
        Needs,
        (
            Condition,
            (Strategy, (Option<Group>, (Flag, (Env, Outputs)))),
        ),
    ),
);

/// The defaults of a job, its steps, which do not have them yet, and its other parts.
fn split_steps(parts: JobParts) -> (Defaults, (Sequence<StepPlan>, JobRest))
    ensures { (id : List ℕ)
        → job_with id (filled_steps result.0 result.1.0) result.1.1 ≡ job_from id parts }
{
    let (_, (_, (_, (name, (needs, (condition, (strategy, (group, (tolerate, others))))))))) =
        parts;
    let (env, (defaults, (outputs, (steps, ())))) = others;
    let rest = (group, (tolerate, (env, outputs)));
    let rest = (name, (needs, (condition, (strategy, rest))));
    (defaults, (steps.part.steps, rest))
}

/// The job that has these steps and parts.
fn job_with(id: Text, steps: Sequence<StepPlan>, rest: JobRest) -> FlowJob
    ensures { result ≡ job_with id steps rest }
{
    let (name, (needs, (condition, (strategy, (group, (tolerate, (env, outputs))))))) = rest;
    FlowJob {
        condition: condition.text,
        env: env.pairs,
        fail_fast: strategy.fail_fast,
        group,
        id,
        matrix: strategy.matrix,
        max_parallel: strategy.max_parallel,
        name,
        needs: needs.ids,
        outputs: outputs.pairs,
        steps,
        tolerate,
    }
}

/// The job that has these parts.
fn job_from(alloc: Global, id: Text, parts: JobParts) -> Result<FlowJob, AllocError>
    ensures { IfOk result (λ job. job ≡ job_from id parts) }
{
    let (defaults, (mut steps, rest)) = split_steps(parts);
    fill_each(alloc, &defaults, &mut steps)?;
    Ok(job_with(id, steps, rest))
}

/// The job that has this id.
#[tactic(auto, unfolding(crate::specs::Workflow::job_of), using(crate::proofs::Faults::stands_made, crate::proofs::Faults::stands_memory, crate::proofs::Faults::ok_made))]
fn read_job(alloc: Global, id: &str, json: &Value) -> Result<FlowJob, FlowFault>
    ensures { Gives result (job_of id.now (view json.now)) }
{
    let id = Text::from_str(alloc, id)?;
    let parts = read_parts(alloc, json)?;
    Ok(job_from(alloc, id, parts)?)
}

/// The job at an id.
#[tactic(auto, unfolding(crate::specs::Workflow::job_at), using(crate::proofs::Faults::stands_bad, crate::proofs::Faults::stands_under, crate::proofs::Faults::ok_under))]
fn read_job_at(alloc: Global, id: &str, json: &Value) -> Result<FlowJob, FlowFault>
    ensures { Gives result (job_at id.now (view json.now)) }
{
    if !is_id(id) {
        return Err(bad_id(alloc, id));
    }
    match read_job(alloc, id, json) {
        Ok(job) => Ok(job),
        Err(fault) => Err(at(alloc, id, fault)),
    }
}

/// The jobs, in the order of their ids.
#[tactic(auto, using(crate::proofs::Faults::stands_memory))]
fn read_each(
    alloc: Global,
    members: &BTreeMap<String, Value>,
) -> Result<Sequence<FlowJob>, FlowFault>
    ensures { Gives result (members_checked job_at (members_view members.now.entries)) }
{
    let mut read = Sequence::empty(alloc);
    for (id, json) in members.iter() {
        read.push(read_job_at(alloc, id.as_str(), json)?)?;
    }
    Ok(read)
}

/// Whether an object has no member.
fn has_none(members: &BTreeMap<String, Value>) -> bool
    ensures { result ≡ (length members.now.entries == 0) }
{
    members.len() == 0
}

/// At least one job.
#[tactic(auto, unfolding(crate::specs::Workflow::some_jobs), using(crate::proofs::Faults::stands_bad))]
fn read_some(
    alloc: Global,
    members: &BTreeMap<String, Value>,
) -> Result<Sequence<FlowJob>, FlowFault>
    ensures { Gives result (some_jobs (members_view members.now.entries)) }
{
    if has_none(members) {
        return Err(wrong_shape(alloc));
    }
    read_each(alloc, members)
}

/// The jobs of a workflow.
#[derive(Drop)]
pub(crate) struct Jobs {
    pub(crate) jobs: Sequence<FlowJob>,
}

impl Model for Jobs {
    ghost use Rattle.std.specs.Prelude.{List};
    ghost use Rattle.std.specs.Coded.{codes};
    ghost use Rattle.flow_model.specs.Plain.{coded_plain};
    ghost use Rattle.flow_model.specs.declared.flow.FlowJob.{FlowJob};

    ghost Value = { List FlowJob };

    ghost coded = { Prim.hlevel (codes, coded_plain) };

    ghost view = { λ j. j.jobs };
}

impl FromJson for Jobs {
    ghost use Rattle.flow_reader.specs.Workflow.{jobs_of};

    ghost reading = { jobs_of };

    #[tactic(auto, unfolding(crate::specs::Workflow::jobs_of, crate::specs::Checked::of_members), using(crate::proofs::Faults::stands_bad))]
    fn from_json(alloc: Global, json: &Value) -> Result<Jobs, FlowFault> {
        match json.as_object() {
            Some(members) => {
                let jobs = read_some(alloc, members)?;
                Ok(Jobs { jobs })
            },
            None => Err(wrong_shape(alloc)),
        }
    }
}
