//! The workflow that a JSON value stands for.

ghost use Rattle.std.specs.Prelude.{◌≡◌, [], Some, IfOk, unwrap_or};
ghost use Rattle.serde_json.specs.View.{view};
ghost use Rattle.flow_reader.specs.Checked.{Gives};
ghost use Rattle.flow_reader.specs.Defaults.{filled_workflow};
ghost use Rattle.flow_reader.specs.Workflow.{workflow_of, workflow_parts_of, workflow_from};

use crate::defaults::{Defaults, Fill};
use crate::fault::FlowFault;
use crate::job::Jobs;
use crate::maps::Env;
use crate::members::keys_of;
use crate::parts::{Part, Required, read_object};
use crate::reading::{FromJson, within};
use crate::refusal::missing;
use crate::texts::read_texts;
use flow_model::{Group, Sequence, Text, Workflow};
use serde_json::Value;
use std::alloc::{AllocError, Global};
use std::marker::Model;

/// The names of the events that start a workflow.
#[derive(Drop)]
pub(crate) struct Events {
    pub(crate) names: Sequence<Text>,
}

impl Model for Events {
    ghost use Rattle.std.specs.Prelude.{List, ℕ};

    ghost Value = { List (List ℕ) };

    ghost view = { λ e. e.names };
}

impl FromJson for Events {
    ghost use Rattle.flow_reader.specs.Workflow.{events_of};

    ghost reading = { events_of };

    #[tactic(auto, unfolding(crate::specs::Workflow::events_of), using(crate::proofs::Faults::stands_memory))]
    fn from_json(alloc: Global, json: &Value) -> Result<Events, FlowFault> {
        match json.as_object() {
            Some(members) => {
                let names = keys_of(alloc, members)?;
                Ok(Events { names })
            },
            None => {
                let names = read_texts(alloc, json)?;
                Ok(Events { names })
            },
        }
    }
}

/// What stands at the key, or else at `true`, which converters from YAML 1.1 write for `on`.
impl Part for Events {
    ghost use Rattle.flow_reader.specs.Workflow.{triggers_in};

    ghost part = { triggers_in };

    #[tactic(auto, unfolding(crate::specs::Workflow::triggers_at), using(crate::proofs::Faults::stands_bad))]
    fn read_at(alloc: Global, object: &Value, key: &str) -> Result<Events, FlowFault> {
        if let Some(json) = object.get(key) {
            return within(alloc, key, json);
        }
        match object.get("true") {
            Some(json) => within(alloc, "true", json),
            None => Err(missing(alloc, key)),
        }
    }
}

/// The keys of a workflow besides its name.
type BodyParts = (
    Events,
    (Env, (Defaults, (Option<Group>, (Required<Jobs>, ())))),
);

/// The keys of a workflow.
type WorkflowParts = (Option<Text>, BodyParts);

/// What an object says of a workflow.
#[tactic(auto, unfolding(crate::specs::Workflow::workflow_parts_of))]
fn read_parts(alloc: Global, json: &Value) -> Result<WorkflowParts, FlowFault>
    ensures { Gives result (workflow_parts_of (view json.now)) }
{
    let keys = ["name", "on", "env", "defaults", "concurrency", "jobs"];
    read_object::<WorkflowParts>(alloc, json, &keys)
}

/// The name that is given, or else the path.
fn name_or(alloc: Global, name: Option<Text>, path: &str) -> Result<Text, AllocError>
    ensures { IfOk result (λ found. found ≡ unwrap_or name path.now) }
{
    match name {
        Some(name) => Ok(name),
        None => Text::from_str(alloc, path),
    }
}

/// The defaults of a workflow, and the workflow whose jobs do not have them yet.
fn spelled_workflow(name: Text, others: BodyParts) -> (Defaults, Workflow)
    ensures { filled_workflow result.0 result.1 ≡ workflow_from [] (Some name, others) }
{
    let (events, (env, (defaults, (group, (jobs, ()))))) = others;
    let workflow = Workflow {
        env: env.pairs,
        events: events.names,
        group,
        jobs: jobs.part.jobs,
        name,
    };
    (defaults, workflow)
}

/// The workflow of this name that has these other parts.
fn named_workflow(alloc: Global, name: Text, others: BodyParts) -> Result<Workflow, AllocError>
    ensures { IfOk result (λ workflow. workflow ≡ workflow_from [] (Some name, others)) }
{
    let (defaults, mut workflow) = spelled_workflow(name, others);
    workflow.fill(alloc, &defaults)?;
    Ok(workflow)
}

/// The workflow that has these parts.
fn workflow_from(alloc: Global, path: &str, parts: WorkflowParts) -> Result<Workflow, AllocError>
    ensures { IfOk result (λ workflow. workflow ≡ workflow_from path.now parts) }
{
    let (name, others) = parts;
    named_workflow(alloc, name_or(alloc, name, path)?, others)
}

/// The workflow that a value stands for, where the file is this one.
#[tactic(auto, unfolding(crate::specs::Workflow::workflow_of), using(crate::proofs::Faults::stands_made, crate::proofs::Faults::stands_memory, crate::proofs::Faults::ok_made))]
pub(crate) fn read_workflow(alloc: Global, path: &str, json: &Value) -> Result<Workflow, FlowFault>
    ensures { Gives result (workflow_of path.now (view json.now)) }
{
    let parts = read_parts(alloc, json)?;
    Ok(workflow_from(alloc, path, parts)?)
}
