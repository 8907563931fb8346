//! Reading the texts of a workflow that are evaluated.

ghost use Rattle.plan_assembler.specs.Texts as spec;
ghost use Rattle.plan_assembler.specs.Texts.{Reads};

use expr_reader::{ExprFault, read_condition, read_template};
use flow_model::{
    Flag, FlowJob, Group, Mapping, Node, Sequence, StepPlan, Text, Value, Work, Workflow,
};
use std::alloc::Global;

/// Reads a template.
fn template(alloc: Global, text: &Text) -> Result<(), ExprFault>
    ensures { Reads (spec.of_template text.now) result }
{
    read_template(alloc, text.as_str())?;
    Ok(())
}

/// Reads a template, if there is one.
fn optional_template(alloc: Global, text: &Option<Text>) -> Result<(), ExprFault>
    ensures { Reads (spec.if_there spec.of_template text.now) result }
{
    match text {
        Some(text) => template(alloc, text),
        None => Ok(()),
    }
}

/// Reads a condition, if there is one.
fn condition(alloc: Global, text: &Option<Text>) -> Result<(), ExprFault>
    ensures { Reads (spec.if_there spec.of_condition text.now) result }
{
    match text {
        Some(text) => {
            read_condition(alloc, text.as_str())?;
            Ok(())
        },
        None => Ok(()),
    }
}

/// Reads a value of an environment.
fn value(alloc: Global, value: &Value) -> Result<(), ExprFault>
    ensures { Reads (spec.of_value value.now) result }
{
    match value.node() {
        Node::Text(text) => template(alloc, text),
        Node::Null => Ok(()),
        Node::Truth(_) => Ok(()),
        Node::Whole(_) => Ok(()),
        Node::List(_) => Ok(()),
        Node::Map(_) => Ok(()),
    }
}

/// Reads an environment.
fn env(alloc: Global, env: &Mapping<Value>) -> Result<(), ExprFault>
    ensures { Reads (spec.of_env env.now) result }
{
    for (_name, item) in env.iter() {
        value(alloc, item)?;
    }
    Ok(())
}

/// Reads the outputs of a job.
fn outputs(alloc: Global, outputs: &Mapping<Text>) -> Result<(), ExprFault>
    ensures { Reads (spec.of_outputs outputs.now) result }
{
    for (_name, item) in outputs.iter() {
        template(alloc, item)?;
    }
    Ok(())
}

/// Reads a flag.
fn flag(alloc: Global, flag: &Flag) -> Result<(), ExprFault>
    ensures { Reads (spec.of_flag flag.now) result }
{
    match flag {
        Flag::Truth(_) => Ok(()),
        Flag::Text(text) => template(alloc, text),
    }
}

/// Reads a concurrency group, if there is one.
fn group(alloc: Global, group: &Option<Group>) -> Result<(), ExprFault>
    ensures { Reads (spec.if_there spec.of_group group.now) result }
{
    match group {
        Some(group) => {
            flag(alloc, &group.cancel)?;
            template(alloc, &group.name)
        },
        None => Ok(()),
    }
}

/// Reads what a step does.
fn work(alloc: Global, work: &Work) -> Result<(), ExprFault>
    ensures { Reads (spec.of_work work.now) result }
{
    match work {
        Work::Run { dir, run, shell: _ } => {
            optional_template(alloc, dir)?;
            template(alloc, run)
        },
        Work::Uses { uses: _, given } => env(alloc, given),
    }
}

/// Reads a step.
fn step(alloc: Global, step: &StepPlan) -> Result<(), ExprFault>
    ensures { Reads (spec.of_step step.now) result }
{
    condition(alloc, &step.condition)?;
    env(alloc, &step.env)?;
    flag(alloc, &step.tolerate)?;
    work(alloc, &step.work)
}

/// Reads steps.
fn steps(alloc: Global, steps: &Sequence<StepPlan>) -> Result<(), ExprFault>
    ensures { Reads (spec.of_each spec.of_step steps.now) result }
{
    let steps = steps.as_slice();
    for item in steps {
        if let Err(fault) = step(alloc, item) {
            return Err(fault);
        }
    }
    Ok(())
}

/// Reads the texts of a job and of its steps.
pub(crate) fn job_texts(alloc: Global, job: &FlowJob) -> Result<(), ExprFault>
    ensures { Reads (spec.of_job job.now) result }
{
    condition(alloc, &job.condition)?;
    env(alloc, &job.env)?;
    group(alloc, &job.group)?;
    outputs(alloc, &job.outputs)?;
    flag(alloc, &job.tolerate)?;
    steps(alloc, &job.steps)
}

/// Reads the texts of a workflow, without its jobs.
pub(crate) fn workflow_texts(alloc: Global, workflow: &Workflow) -> Result<(), ExprFault>
    ensures { Reads (spec.of_workflow workflow.now) result }
{
    env(alloc, &workflow.env)?;
    group(alloc, &workflow.group)
}
