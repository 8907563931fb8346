//! Whether a step is called, where nobody asks for its call. Of a step of whose texts none is evaluated that is known, but for
//! how its leg counts, as soon as its condition was read.

ghost use Rattle.std.specs.Prelude.{◌≡◌, ℕ, true, Some, Ok, length, slice_get};
ghost use Rattle.board_decisions.specs.Calls.{AreCallsOf, Tells, called_as as called_as_of};
ghost use Rattle.board_decisions.specs.Decisions as spec;
ghost use Rattle.board_decisions.specs.Kept.{IsKeptOf};
ghost use Rattle.board_decisions.specs.Own.{HasOwnEnv};
ghost use Rattle.board_decisions.specs.Seen.{leg_seen};
ghost use Rattle.expr_value.specs.Answer.{Gives};
ghost use Rattle.expr_value.specs.Context.{Contexts};
ghost use Rattle.flow_model.specs.declared.plan.JobPlan.{JobPlan as JobPlanOf};
ghost use Rattle.flow_model.specs.declared.plan.RunPlan.{RunPlan as RunPlanOf};
ghost use Rattle.flow_model.specs.declared.plan.StepPlan.{StepPlan as StepPlanOf};
ghost use Rattle.plan_values.specs.Own.{HasNoFault};
ghost use Rattle.plan_values.specs.Texts.{condition_value};

use crate::anywhere::holds_anywhere;
use crate::decisions::{leg_result_kept, result_at_once, step_decision};
use crate::kept::{Called, Calls, LegKept};
use crate::place::SeenLeg;
use expr_value::Status;
use flow_model::{JobPlan, Outcome, RunPlan, StepCall, StepPlan, Text, ValueFault, Work};
use plan_values::{is_own_env, is_own_text};
use std::alloc::Global;

/// Whether nothing of a working directory is evaluated.
#[tactic(auto, using(crate::proofs::OwnSteps::no_directory, crate::proofs::OwnSteps::some_directory))]
fn is_own_directory(dir: &Option<Text>) -> bool
    ensures { (c : Contexts) → result ≡ true → HasNoFault (spec.directory_value c dir.now) }
{
    match dir {
        Some(dir) => is_own_text(dir.as_str()),
        None => true,
    }
}

/// Whether nothing of what a step asks for is evaluated.
#[tactic(auto, using(crate::proofs::OwnSteps::own_script, crate::proofs::OwnSteps::own_action))]
fn is_own_work(work: &Work) -> bool
    ensures { (c : Contexts) → result ≡ true → HasNoFault (spec.work_value c work.now) }
{
    match work {
        Work::Run { dir, run, shell: _ } => is_own_text(run.as_str()) && is_own_directory(dir),
        Work::Uses { uses: _, given } => is_own_env(given),
    }
}

/// Whether no text of the variables of a workflow and a job is evaluated.
pub fn has_own_env(run: &RunPlan, job: &JobPlan) -> bool
    ensures { result ≡ true → HasOwnEnv run.now job.now }
{
    is_own_env(&run.env) && is_own_env(&job.env)
}

/// What is told of a step of which nothing is known.
fn unknown_calls() -> Calls
    ensures { (run : RunPlanOf) (job : JobPlanOf) (step : StepPlanOf) → AreCallsOf run job step result }
{
    Calls {
        success: Called::Unknown,
        failure: Called::Unknown,
        cancelled: Called::Unknown,
    }
}

/// Whether a condition holds under a status, as far as that is known without its contexts.
fn called_under(alloc: Global, condition: &Option<Text>, status: Status) -> Called
    ensures { (c : Contexts) → Tells result (condition_value c status condition.now) }
{
    match holds_anywhere(alloc, condition, status) {
        Some(true) => Called::Yes,
        Some(false) => Called::No,
        None => Called::Unknown,
    }
}

/// Whether a step is called, as far as that is known without its leg: where none of its texts but the condition is
/// evaluated, nor of those of the variables of its workflow and its job.
pub fn calls_of(alloc: Global, has_own_env: bool, step: &StepPlan) -> Calls
    ensures { (run : RunPlanOf) (job : JobPlanOf)
        → (has_own_env ≡ true → HasOwnEnv run job) → AreCallsOf run job step.now result }
{
    if !has_own_env || !is_own_env(&step.env) || !is_own_work(&step.work) {
        return unknown_calls();
    }
    Calls {
        success: called_under(alloc, &step.condition, Status::Success),
        failure: called_under(alloc, &step.condition, Status::Failure),
        cancelled: called_under(alloc, &step.condition, Status::Cancelled),
    }
}

/// What is told of a step, by how its leg counts.
#[inline(always)]
fn called_as(calls: Calls, how: Outcome) -> Called
    ensures { result ≡ called_as_of calls how }
{
    match how {
        Outcome::Success => calls.success,
        Outcome::Failure => calls.failure,
        Outcome::Cancelled => calls.cancelled,
        Outcome::Skipped => Called::Unknown,
    }
}

/// Whether the next step of a leg is called, where that is known by what is kept of the leg, and nothing has to be evaluated.
#[inline(always)]
pub fn is_called_at_once(at: &SeenLeg, kept: LegKept) -> bool
    requires { IsKeptOf kept (leg_seen at.now) }
    ensures { (l : ℕ) (step : StepPlanOf) → result ≡ true
        → slice_get (leg_seen at.now).job_plan.steps (length (leg_seen at.now).leg.steps) ≡ Some step
        → spec.is_called (spec.step_decision l (leg_seen at.now) step) ≡ Ok true }
{
    match result_at_once(at, kept) {
        Some(how) => matches!(called_as(kept.calls, how), Called::Yes),
        None => false,
    }
}

/// Whether there is a call.
fn is_called(decision: Result<Option<StepCall>, ValueFault>) -> Result<bool, ValueFault>
    ensures { result ≡ spec.is_called decision }
{
    match decision {
        Ok(Some(_call)) => Ok(true),
        Ok(None) => Ok(false),
        Err(fault) => Err(fault),
    }
}

/// Whether the next step of a leg is called, by what is kept of the leg.
pub fn is_step_called(
    alloc: Global,
    number: u64,
    at: &SeenLeg,
    step: &StepPlan,
    kept: LegKept,
) -> Result<bool, ValueFault>
    requires kept { IsKeptOf kept (leg_seen at.now) }
    requires next { slice_get (leg_seen at.now).job_plan.steps (length (leg_seen at.now).leg.steps)
        ≡ Some step.now }
    ensures { Gives (λ called. called) result
        (spec.is_called (spec.step_decision number (leg_seen at.now) step.now)) }
{
    let how = leg_result_kept(alloc, at, kept)?;
    match called_as(kept.calls, how) {
        Called::Yes => Ok(true),
        Called::No => Ok(false),
        Called::Unknown => is_called(step_decision(alloc, number, at, step)),
    }
}
