//! Which text of a step has no value.

ghost use Rattle.std.specs.Prelude.{◌≡◌, [], IfOk, Ok};
ghost use Rattle.board_decisions.specs.Decisions as spec;
ghost use Rattle.board_decisions.specs.Scenes.{leg_scene};
ghost use Rattle.board_decisions.specs.Seen.{leg_seen};
ghost use Rattle.why_notes.specs.Conditions as causes;
ghost use Rattle.expr_value.specs.Answer.{Gives};
ghost use Rattle.plan_values.specs.Known.{IsKnownOf, known_env};

use board_decisions::decisions::{know_job_over, know_set, know_step_over, leg_result, status_of};
use board_decisions::place::SeenLeg;
use board_decisions::scene::LegScene;
use expr_value::Status;
use flow_model::{Mapping, StepPlan, Text, ValueFault, faulted};
use plan_values::{Known, TextPlace, condition_at, env_at};
use std::alloc::{AllocError, Global};
use why_facts::fact::StepText;

/// The status of a leg.
pub(crate) fn leg_status(alloc: Global, at: &SeenLeg) -> Result<Status, AllocError>
    ensures { IfOk result (λ status. status ≡ spec.leg_status (leg_seen at.now)) }
{
    let how = leg_result(alloc, at)?;
    Ok(status_of(how))
}

/// The variables of the workflow.
#[tactic(auto, unfolding(board_decisions::specs::Decisions::flow_env))]
fn flow_env(alloc: Global, at: &SeenLeg, known: &mut Known) -> Result<Mapping<Text>, ValueFault>
    requires known { IsKnownOf (leg_scene at.now) known.old }
    requires env { known_env known.old ≡ [] }
    ensures value { Gives (λ env. env) result (spec.flow_env (leg_seen at.now)) }
    ensures env { known_env known.new ≡ [] }
    ensures known { IsKnownOf (leg_scene at.now) known.new }
{
    env_at(
        alloc,
        &LegScene { at },
        known,
        TextPlace::WorkflowEnv,
        &at.run_plan.env,
    )
}

/// The text that has no value, where the variables of a step are known.
fn text_after_step(
    alloc: Global,
    at: &SeenLeg,
    known: &mut Known,
    step: &StepPlan,
) -> Result<StepText, AllocError>
    requires { IsKnownOf (leg_scene at.now) known.old }
    ensures { IfOk result (λ text. text ≡ causes.text_after_step (leg_seen at.now) step.now
        (Ok (known_env known.old))) }
{
    let status = leg_status(alloc, at)?;
    match condition_at(
        alloc,
        &LegScene { at },
        known,
        TextPlace::StepCondition,
        &step.condition,
        status,
    ) {
        Ok(_) => Ok(StepText::Work),
        Err(ValueFault::Memory) => Err(AllocError),
        Err(faulted!()) => Ok(StepText::Condition),
    }
}

/// The first text of a step without a value, where the variables of the job are known.
fn text_after_job(
    alloc: Global,
    at: &SeenLeg,
    known: &mut Known,
    step: &StepPlan,
) -> Result<StepText, AllocError>
    requires { IsKnownOf (leg_scene at.now) known.old }
    ensures { IfOk result (λ text. text ≡ causes.text_after_job (leg_seen at.now) step.now
        (Ok (known_env known.old))) }
{
    know_set(alloc, at, known)?;
    match know_step_over(alloc, at, known, step) {
        Ok(()) => text_after_step(alloc, at, known, step),
        Err(ValueFault::Memory) => Err(AllocError),
        Err(faulted!()) => Ok(StepText::StepEnv),
    }
}

/// The first text of a step without a value, where the variables of the workflow have their values.
fn text_after_flow(
    alloc: Global,
    at: &SeenLeg,
    known: &mut Known,
    step: &StepPlan,
    flow: Mapping<Text>,
) -> Result<StepText, AllocError>
    requires known { IsKnownOf (leg_scene at.now) known.old }
    requires env { known_env known.old ≡ [] }
    ensures { IfOk result
        (λ text. text ≡ causes.text_after_flow (leg_seen at.now) step.now (Ok flow)) }
{
    match know_job_over(alloc, at, known, flow) {
        Ok(()) => text_after_job(alloc, at, known, step),
        Err(ValueFault::Memory) => Err(AllocError),
        Err(faulted!()) => Ok(StepText::JobEnv),
    }
}

/// The first text of a step that has no value, where one of them has none.
pub(crate) fn faulted_text(
    alloc: Global,
    at: &SeenLeg,
    step: &StepPlan,
) -> Result<StepText, AllocError>
    ensures { IfOk result (λ text. text ≡ causes.faulted_text (leg_seen at.now) step.now) }
{
    let mut known = Known::empty(alloc);
    match flow_env(alloc, at, &mut known) {
        Ok(flow) => text_after_flow(alloc, at, &mut known, step, flow),
        Err(ValueFault::Memory) => Err(AllocError),
        Err(faulted!()) => Ok(StepText::FlowEnv),
    }
}
