//! A workflow, as it is read from its text (GitHub Docs, workflow syntax).
//!
//! What it says of needs, conditions and matrices is as it was written: which jobs there are, which legs they have and
//! whether their texts can be evaluated is for the planner to say.

use crate::duplicate::{Copies, Duplicate};
use crate::mapping::Mapping;
use crate::plan::{Flag, Group, Matrix, StepPlan};
use crate::sequence::Sequence;
use crate::text::Text;
use crate::value::Value;
use std::alloc::{AllocError, Global};
use std::marker::Model;

/// What a workflow says.
#[derive(Drop)]
pub struct Workflow {
    /// The workflow's `env`: names to texts, numbers, truth values or null.
    pub env: Mapping<Value>,
    /// The names of the events that start it, in the order of the text.
    pub events: Sequence<Text>,
    /// The workflow's concurrency group.
    pub group: Option<Group>,
    /// The jobs, at least one, in the byte order of their ids.
    pub jobs: Sequence<FlowJob>,
    /// The workflow's name.
    pub name: Text,
}

/// A job of a workflow.
#[derive(Drop)]
pub struct FlowJob {
    /// The text of `if`; a blank one is none.
    pub condition: Option<Text>,
    pub env: Mapping<Value>,
    /// Whether a failed leg cancels the others (`strategy.fail-fast`).
    pub fail_fast: bool,
    pub group: Option<Group>,
    pub id: Text,
    pub matrix: Option<Matrix>,
    /// How many legs may be under way at once, from 1; all where there is none.
    pub max_parallel: Option<u64>,
    /// Its name, if it has one besides its id.
    pub name: Option<Text>,
    /// The ids that it needs, each once.
    pub needs: Sequence<Text>,
    /// Names to the texts that give them their values.
    pub outputs: Mapping<Text>,
    /// The steps, each with the shell and the directory that it has by itself, by its job or by the workflow.
    pub steps: Sequence<StepPlan>,
    /// The job's `continue-on-error`.
    pub tolerate: Flag,
}

/// A workflow that keeps the rules of its parts.
#[derive(Drop)]
pub struct Flow {
    workflow: Workflow,
}

impl Model for Flow {
    ghost use Rattle.flow_model.specs.declared.flow.Workflow.{Workflow};
    ghost use Rattle.flow_model.specs.Flow.{IsWorkflow};
    ghost use Rattle.flow_model.specs.Plain.{coded_plain};
    ghost use Rattle.std.specs.Coded.{codes};

    ghost Value = { Workflow };

    ghost coded = { Prim.hlevel (codes, coded_plain) };

    ghost view = { λ f. f.workflow };

    ghost invariant = { λ f. IsWorkflow f.workflow };
}

impl Flow {
    ghost use Rattle.std.specs.Prelude.{◌≡◌};
    ghost use Rattle.flow_model.specs.Flow.{IsWorkflow};

    /// A workflow that keeps the rules.
    pub fn new(workflow: Workflow) -> Flow
        requires { IsWorkflow workflow }
        ensures { result ≡ workflow }
    {
        Flow { workflow }
    }

    /// What the workflow says. It keeps the rules.
    pub fn workflow(&self) -> &Workflow
        ensures same { result.now ≡ self.now }
        ensures rules { IsWorkflow result.now }
    {
        &self.workflow
    }
}

impl Duplicate for Flow {
    fn copy(&self, alloc: Global) -> Result<Flow, AllocError> {
        let workflow = self.workflow.copy(alloc)?;
        Ok(Flow { workflow })
    }
}

impl Duplicate for Workflow {
    fn copy(&self, alloc: Global) -> Result<Workflow, AllocError> {
        let parts = (
            (&self.env, &self.events),
            (&self.group, (&self.jobs, &self.name)),
        );
        let ((env, events), (group, (jobs, name))) = parts.copies(alloc)?;
        Ok(Workflow {
            env,
            events,
            group,
            jobs,
            name,
        })
    }
}

impl Duplicate for FlowJob {
    fn copy(&self, alloc: Global) -> Result<FlowJob, AllocError> {
        let parts = ((&self.condition, &self.env), (&self.group, &self.id));
        let others = ((&self.matrix, &self.name), (&self.needs, &self.outputs));
        let parts = ((parts, others), (&self.steps, &self.tolerate));
        let ((parts, others), (steps, tolerate)) = parts.copies(alloc)?;
        let ((condition, env), (group, id)) = parts;
        let ((matrix, name), (needs, outputs)) = others;
        Ok(FlowJob {
            condition,
            env,
            fail_fast: self.fail_fast,
            group,
            id,
            matrix,
            max_parallel: self.max_parallel,
            name,
            needs,
            outputs,
            steps,
            tolerate,
        })
    }
}
