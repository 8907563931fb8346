//! What is decided by the texts of a plan: conditions, environments, the texts of a call, flags and outputs.

ghost use Rattle.std.specs.Prelude.{◌≡◌, [], not, Some, IfOk, IfSome, OnOk, Result, if◌then◌else◌, length, string_bytes};
ghost use Rattle.board_decisions.specs.Decisions as spec;
ghost use Rattle.board_decisions.specs.Kept.{IsKeptOf};
ghost use Rattle.board_decisions.specs.Scenes.{leg_scene};
ghost use Rattle.board_decisions.specs.Seen.{job_seen, leg_seen, run_seen};
ghost use Rattle.expr_value.specs.Answer.{Gives};
ghost use Rattle.expr_value.specs.declared.status.Status.TheVariants as status;
ghost use Rattle.flow_model.specs.declared.event.Outcome.TheVariants as outcome;
ghost use Rattle.flow_model.specs.declared.reply.ValueFault.{ValueFault as ValueFaultOf};
ghost use Rattle.plan_values.specs.Known.{IsKnownOf, known_env};
ghost use Rattle.plan_values.specs.Texts.{condition_value};
ghost use Rattle.plan_values.specs.Values.{Env, Values, contexts_at, with_env};
ghost use Rattle.plan_values.specs.declared.place.TextPlace.TheVariants as place;

use crate::contexts::job_of;
use crate::derived::{is_any_failed, is_any_step_failed};
use crate::entrance::Entrance;
use crate::kept::LegKept;
use crate::place::{SeenJob, SeenLeg, SeenRun};
use crate::scene::{JobScene, LegScene, RunScene};
use expr_reader::fold;
use expr_value::Status;
use flow_model::{
    CallWork, Duplicate, Flag, Group, Mapping, Outcome, StepCall, StepPlan, Text, ValueFault, Work,
    faulted,
};
use plan_values::{
    Known, Scene, TextPlace, condition_at, env_at, env_over_at, flag_at, outputs_at, text_at,
};
use std::alloc::{AllocError, Global};

/// Whether a job's condition holds under a status.
#[tactic(auto, unfolding(crate::specs::Decisions::job_condition))]
pub fn job_condition(alloc: Global, at: &SeenJob, status: Status) -> Result<bool, ValueFault>
    ensures { Gives (λ holds. holds) result (spec.job_condition (job_seen at.now) status) }
{
    let mut known = Known::empty(alloc);
    let condition = &at.plan.condition;
    condition_at(
        alloc,
        &JobScene { at },
        &mut known,
        TextPlace::JobCondition,
        condition,
        status,
    )
}

/// Whether a job's condition does not give true as that of a cancelled one; a fault does not.
fn ends_cancelled(alloc: Global, job: &SeenJob) -> Result<bool, AllocError>
    ensures { IfOk result (λ ends. ends ≡ not (spec.is_true
        (spec.job_condition (job_seen job.now) status.Cancelled))) }
{
    match job_condition(alloc, job, Status::Cancelled) {
        Ok(holds) => Ok(!holds),
        Err(ValueFault::Memory) => Err(AllocError),
        Err(faulted!()) => Ok(true),
    }
}

/// Whether a leg is to stop whatever its job's condition.
fn stops_anyway(at: &SeenLeg) -> bool
    ensures { result ≡ spec.stops_anyway (leg_seen at.now) }
{
    at.leg.stop || (at.job_plan.fail_fast && is_any_failed(at.job.legs.as_slice()))
}

/// Whether a leg is to stop, of which it is known whether it is whatever its job's condition.
pub fn is_stopping_given(alloc: Global, at: &SeenLeg, anyway: bool) -> Result<bool, AllocError>
    requires { anyway ≡ spec.stops_anyway (leg_seen at.now) }
    ensures { IfOk result (λ stops. stops ≡ spec.is_stopping (leg_seen at.now)) }
{
    if anyway {
        return Ok(true);
    }
    if !at.run.stop {
        return Ok(false);
    }
    ends_cancelled(alloc, &job_of(at))
}

/// Whether a leg is to stop.
pub fn is_stopping(alloc: Global, at: &SeenLeg) -> Result<bool, AllocError>
    ensures { IfOk result (λ stops. stops ≡ spec.is_stopping (leg_seen at.now)) }
{
    is_stopping_given(alloc, at, stops_anyway(at))
}

/// How a leg counts that is to stop, or is not, and of which a done step counts as a failure, or none does.
fn counted(stops: bool, failed: bool) -> Outcome
    ensures { result ≡ (if stops then outcome.Cancelled
        else (if failed then outcome.Failure else outcome.Success)) }
{
    if stops {
        Outcome::Cancelled
    } else if failed {
        Outcome::Failure
    } else {
        Outcome::Success
    }
}

/// How a leg counts so far, by what is kept of it.
pub fn leg_result_kept(alloc: Global, at: &SeenLeg, kept: LegKept) -> Result<Outcome, AllocError>
    requires { IsKeptOf kept (leg_seen at.now) }
    ensures { IfOk result (λ how. how ≡ spec.leg_result (leg_seen at.now)) }
{
    let stops = is_stopping_given(alloc, at, kept.stops_anyway)?;
    Ok(counted(stops, kept.has_failed_step))
}

/// How a leg counts so far, by what is kept of it, where nothing has to be evaluated.
#[inline(always)]
pub(crate) fn result_at_once(at: &SeenLeg, kept: LegKept) -> Option<Outcome>
    requires { IsKeptOf kept (leg_seen at.now) }
    ensures { IfSome result (λ how. spec.leg_result (leg_seen at.now) ≡ how) }
{
    if kept.stops_anyway {
        return Some(Outcome::Cancelled);
    }
    if at.run.stop {
        return None;
    }
    Some(counted(false, kept.has_failed_step))
}

/// How a leg counts so far.
pub fn leg_result(alloc: Global, at: &SeenLeg) -> Result<Outcome, AllocError>
    ensures { IfOk result (λ how. how ≡ spec.leg_result (leg_seen at.now)) }
{
    let stops = is_stopping(alloc, at)?;
    Ok(counted(stops, is_any_step_failed(at.leg.steps.as_slice())))
}

/// A result as a status.
pub fn status_of(how: Outcome) -> Status
    ensures { result ≡ spec.status_of how }
{
    match how {
        Outcome::Success => Status::Success,
        Outcome::Failure => Status::Failure,
        Outcome::Cancelled => Status::Cancelled,
        Outcome::Skipped => Status::Other,
    }
}

/// Lets texts see the variables of the job over others.
pub fn know_job_over(
    alloc: Global,
    at: &SeenLeg,
    known: &mut Known,
    below: Mapping<Text>,
) -> Result<(), ValueFault>
    requires known { IsKnownOf (leg_scene at.now) known.old }
    requires env { known_env known.old ≡ [] }
    ensures value { Gives (λ _. known_env known.new) result
        (spec.job_variables_over (spec.seen_from (leg_seen at.now)) at.now.job_plan.now below) }
    ensures known { IsKnownOf (leg_scene at.now) known.new }
{
    let env = &at.job_plan.env;
    let made = env_over_at(
        alloc,
        &LegScene { at },
        known,
        TextPlace::JobEnv,
        env,
        below,
    )?;
    known.set_env(made);
    Ok(())
}

/// Lets texts see the variables of the workflow and the job.
#[tactic(auto, unfolding(crate::specs::Decisions::job_env, crate::specs::Decisions::flow_env))]
fn know_job_env(alloc: Global, at: &SeenLeg, known: &mut Known) -> Result<(), ValueFault>
    requires known { IsKnownOf (leg_scene at.now) known.old }
    requires env { known_env known.old ≡ [] }
    ensures value { Gives (λ _. known_env known.new) result (spec.job_env (leg_seen at.now)) }
    ensures known { IsKnownOf (leg_scene at.now) known.new }
{
    let flow = env_at(
        alloc,
        &LegScene { at },
        known,
        TextPlace::WorkflowEnv,
        &at.run_plan.env,
    )?;
    know_job_over(alloc, at, known, flow)
}

/// Lets texts see what the done steps of a leg set over the variables that they see.
pub fn know_set(alloc: Global, at: &SeenLeg, known: &mut Known) -> Result<(), AllocError>
    requires { IsKnownOf (leg_scene at.now) known.old }
    ensures value { OnOk result
        (known_env known.new ≡ spec.set_over (leg_seen at.now).leg.steps (known_env known.old)) }
    ensures known { IsKnownOf (leg_scene at.now) known.new }
{
    let steps = at.leg.steps.as_slice();
    for done in steps {
        known.lay_env(alloc, &done.env)?;
    }
    Ok(())
}

/// Lets texts see the variables of the workflow and the job, and what the done steps of the leg set.
#[tactic(auto, unfolding(crate::specs::Decisions::leg_env, crate::specs::Decisions::job_env))]
fn know_leg_env(alloc: Global, at: &SeenLeg, known: &mut Known) -> Result<(), ValueFault>
    requires known { IsKnownOf (leg_scene at.now) known.old }
    requires env { known_env known.old ≡ [] }
    ensures value { Gives (λ _. known_env known.new) result (spec.leg_env (leg_seen at.now)) }
    ensures known { IsKnownOf (leg_scene at.now) known.new }
{
    know_job_env(alloc, at, known)?;
    know_set(alloc, at, known)?;
    Ok(())
}

/// Lets texts see the variables of a step over those that they see.
pub fn know_step_over(
    alloc: Global,
    at: &SeenLeg,
    known: &mut Known,
    step: &StepPlan,
) -> Result<(), ValueFault>
    requires { IsKnownOf (leg_scene at.now) known.old }
    ensures value { Gives (λ _. known_env known.new) result (spec.step_variables_over
        (spec.seen_from (leg_seen at.now)) step.now (known_env known.old)) }
    ensures known { IsKnownOf (leg_scene at.now) known.new }
{
    let own = env_at(
        alloc,
        &LegScene { at },
        known,
        TextPlace::StepEnv,
        &step.env,
    )?;
    known.lay_own_env(alloc, own)?;
    Ok(())
}

/// Lets texts see the variables of the workflow and the job, what the done steps of the leg set, and the variables of a
/// step.
#[tactic(auto, unfolding(crate::specs::Decisions::step_env, crate::specs::Decisions::leg_env))]
fn know_step_env(
    alloc: Global,
    at: &SeenLeg,
    known: &mut Known,
    step: &StepPlan,
) -> Result<(), ValueFault>
    requires known { IsKnownOf (leg_scene at.now) known.old }
    requires env { known_env known.old ≡ [] }
    ensures value { Gives (λ _. known_env known.new) result
        (spec.step_env (leg_seen at.now) step.now) }
    ensures known { IsKnownOf (leg_scene at.now) known.new }
{
    know_leg_env(alloc, at, known)?;
    know_step_over(alloc, at, known, step)
}

/// Lets texts see the variables that were evaluated, or none where there was a fault.
fn known_or_none(
    alloc: Global,
    known: &mut Known,
    evaluated: Result<(), ValueFault>,
) -> Result<(), AllocError>
    ensures env { (value : Result Env ValueFaultOf) → Gives (λ _. known_env known.old) evaluated value
        → OnOk result (known_env known.new ≡ spec.or_none value) }
    ensures known { (values : Values) → IsKnownOf values known.old → IsKnownOf values known.new }
{
    match evaluated {
        Ok(()) => Ok(()),
        Err(ValueFault::Memory) => Err(AllocError),
        Err(faulted!()) => {
            known.set_env(Mapping::empty(alloc));
            Ok(())
        },
    }
}

/// The text of a working directory, where there is one.
fn directory_value(
    alloc: Global,
    at: &SeenLeg,
    known: &mut Known,
    dir: &Option<Text>,
) -> Result<Option<Text>, ValueFault>
    requires { IsKnownOf (leg_scene at.now) known.old }
    ensures value { Gives (λ dir. dir) result (spec.directory_value
        (contexts_at place.StepText (with_env (known_env known.old) (leg_scene at.now)))
        dir.now) }
    ensures env { known_env known.new ≡ known_env known.old }
    ensures known { IsKnownOf (leg_scene at.now) known.new }
{
    match dir {
        Some(dir) => Ok(Some(text_at(
            alloc,
            &LegScene { at },
            known,
            TextPlace::StepText,
            dir.as_str(),
        )?)),
        None => Ok(None),
    }
}

/// What the call of a step asks for.
#[tactic(auto, unfolding(crate::specs::Decisions::work_value))]
fn work_value(
    alloc: Global,
    at: &SeenLeg,
    known: &mut Known,
    work: &Work,
) -> Result<CallWork, ValueFault>
    requires { IsKnownOf (leg_scene at.now) known.old }
    ensures value { Gives (λ asked. asked) result (spec.work_value
        (contexts_at place.StepText (with_env (known_env known.old) (leg_scene at.now)))
        work.now) }
    ensures env { known_env known.new ≡ known_env known.old }
    ensures known { IsKnownOf (leg_scene at.now) known.new }
{
    match work {
        Work::Run { dir, run, shell } => {
            let text = text_at(
                alloc,
                &LegScene { at },
                known,
                TextPlace::StepText,
                run.as_str(),
            )?;
            let dir = directory_value(alloc, at, known, dir)?;
            Ok(CallWork::Script {
                text,
                shell: *shell,
                dir,
            })
        },
        Work::Uses { uses, given } => {
            let given = env_at(alloc, &LegScene { at }, known, TextPlace::StepText, given)?;
            let uses = uses.copy(alloc)?;
            Ok(CallWork::Uses { uses, given })
        },
    }
}

/// The call of a step, whose variables are known; it takes them.
fn call_value(
    alloc: Global,
    number: u64,
    at: &SeenLeg,
    known: &mut Known,
    step: &StepPlan,
) -> Result<StepCall, ValueFault>
    requires { IsKnownOf (leg_scene at.now) known.old }
    ensures value { Gives (λ call. Some call) result
        (spec.call_of (spec.seen_from (leg_seen at.now)) number (length at.now.leg.now.steps)
        step.now (known_env known.old)) }
    ensures known { IsKnownOf (leg_scene at.now) known.new }
{
    let work = work_value(alloc, at, known, &step.work)?;
    let env = known.take_env(alloc);
    Ok(StepCall {
        leg: number,
        step: at.leg.steps.len() as u64,
        work,
        env,
    })
}

/// Whether a step is called: whether its condition holds with the status of the leg.
fn step_condition(
    alloc: Global,
    at: &SeenLeg,
    known: &mut Known,
    step: &StepPlan,
) -> Result<bool, ValueFault>
    requires { IsKnownOf (leg_scene at.now) known.old }
    ensures value { Gives (λ holds. holds) result (condition_value
        (contexts_at place.StepCondition (with_env (known_env known.old) (leg_scene at.now)))
        (spec.leg_status (leg_seen at.now)) step.now.condition) }
    ensures env { known_env known.new ≡ known_env known.old }
    ensures known { IsKnownOf (leg_scene at.now) known.new }
{
    let status = status_of(leg_result(alloc, at)?);
    condition_at(
        alloc,
        &LegScene { at },
        known,
        TextPlace::StepCondition,
        &step.condition,
        status,
    )
}

/// The call of a step, or none where it is skipped: its variables
/// first, then its condition, then the texts of the call.
#[tactic(auto, unfolding(crate::specs::Decisions::step_decision, crate::specs::Decisions::step_call, crate::specs::Decisions::step_env))]
fn decide_step(
    alloc: Global,
    number: u64,
    at: &SeenLeg,
    known: &mut Known,
    step: &StepPlan,
) -> Result<Option<StepCall>, ValueFault>
    requires known { IsKnownOf (leg_scene at.now) known.old }
    requires env { known_env known.old ≡ [] }
    ensures { Gives (λ call. call) result
        (spec.step_decision number (leg_seen at.now) step.now) }
{
    know_step_env(alloc, at, known, step)?;
    if !step_condition(alloc, at, known, step)? {
        return Ok(None);
    }
    Ok(Some(call_value(alloc, number, at, known, step)?))
}

/// The call of a step, or none where it is skipped. Its texts share what is made of the contexts.
pub fn step_decision(
    alloc: Global,
    number: u64,
    at: &SeenLeg,
    step: &StepPlan,
) -> Result<Option<StepCall>, ValueFault>
    ensures { Gives (λ call. call) result
        (spec.step_decision number (leg_seen at.now) step.now) }
{
    decide_step(alloc, number, at, &mut Known::empty(alloc), step)
}

/// Whether a failure of a step may be passed over.
#[tactic(auto, unfolding(crate::specs::Decisions::step_tolerates, crate::specs::Decisions::step_passes, crate::specs::Decisions::step_env, plan_values::specs::Texts::flag_value))]
pub fn step_tolerates(alloc: Global, at: &SeenLeg, step: &StepPlan) -> Result<bool, AllocError>
    ensures { IfOk result
        (λ tolerates. tolerates ≡ spec.step_tolerates (leg_seen at.now) step.now) }
{
    if let Flag::Truth(holds) = &step.tolerate {
        return Ok(*holds);
    }
    let mut known = Known::empty(alloc);
    let evaluated = know_step_env(alloc, at, &mut known, step);
    known_or_none(alloc, &mut known, evaluated)?;
    flag_at(
        alloc,
        &LegScene { at },
        &mut known,
        TextPlace::StepText,
        &step.tolerate,
    )
}

/// Whether a failure of a leg may be passed over.
#[tactic(auto, unfolding(crate::specs::Decisions::job_tolerates))]
pub fn job_tolerates(alloc: Global, at: &SeenLeg) -> Result<bool, AllocError>
    ensures { IfOk result (λ tolerates. tolerates ≡ spec.job_tolerates (leg_seen at.now)) }
{
    let tolerate = &at.job_plan.tolerate;
    flag_at(
        alloc,
        &LegScene { at },
        &mut Known::empty(alloc),
        TextPlace::JobGroup,
        tolerate,
    )
}

/// The outputs that a leg gives its job.
#[tactic(auto, unfolding(crate::specs::Decisions::leg_outputs, crate::specs::Decisions::outputs_of_leg, crate::specs::Decisions::leg_env, plan_values::specs::Outputs::outputs_value))]
pub fn leg_outputs(alloc: Global, at: &SeenLeg) -> Result<Mapping<Text>, AllocError>
    ensures { IfOk result (λ outputs. outputs ≡ spec.leg_outputs (leg_seen at.now)) }
{
    if at.job_plan.outputs.is_empty() {
        return Ok(Mapping::empty(alloc));
    }
    let mut known = Known::empty(alloc);
    let evaluated = know_leg_env(alloc, at, &mut known);
    known_or_none(alloc, &mut known, evaluated)?;
    outputs_at(
        alloc,
        &LegScene { at },
        &mut known,
        TextPlace::StepEnv,
        &at.job_plan.outputs,
    )
}

/// A group by its name and its cancel flag; an empty name is no group.
fn entrance(name: String, cancel: bool) -> Option<Entrance>
    ensures { result ≡ spec.entrance (string_bytes name) cancel }
{
    if name.is_empty() {
        return None;
    }
    Some(Entrance {
        name: Text::new(name),
        cancel,
    })
}

/// How a group is entered: its flag has no faults, and so it may be looked at before its name.
fn entrance_known<S: Scene>(
    alloc: Global,
    scene: &S,
    known: &mut Known,
    place: TextPlace,
    group: &Group,
) -> Result<Option<Entrance>, ValueFault>
    requires { IsKnownOf (S.values scene.now) known.old }
    ensures { Gives (λ group. group) result (spec.entrance_value
        (contexts_at place (with_env (known_env known.old) (S.values scene.now)))
        (Some group.now)) }
{
    let cancel = flag_at(alloc, scene, known, place, &group.cancel)?;
    let text = text_at(alloc, scene, known, place, group.name.as_str())?;
    let name = fold(alloc, text.as_str())?;
    Ok(entrance(name, cancel))
}

/// How a group is entered, if there is one.
fn entrance_at<S: Scene>(
    alloc: Global,
    scene: &S,
    place: TextPlace,
    group: &Option<Group>,
) -> Result<Option<Entrance>, ValueFault>
    ensures { Gives (λ group. group) result
        (spec.entrance_value (contexts_at place (with_env [] (S.values scene.now))) group.now) }
{
    match group {
        Some(group) => entrance_known(alloc, scene, &mut Known::empty(alloc), place, group),
        None => Ok(None),
    }
}

/// How a run enters its workflow's group, if there is one.
#[tactic(auto, unfolding(crate::specs::Decisions::run_entrance))]
pub fn run_entrance(alloc: Global, at: &SeenRun) -> Result<Option<Entrance>, ValueFault>
    ensures { Gives (λ group. group) result (spec.run_entrance (run_seen at.now)) }
{
    entrance_at(
        alloc,
        &RunScene { at },
        TextPlace::WorkflowGroup,
        &at.plan.group,
    )
}

/// How a leg enters its job's group, if there is one.
#[tactic(auto, unfolding(crate::specs::Decisions::leg_entrance))]
pub fn leg_entrance(alloc: Global, at: &SeenLeg) -> Result<Option<Entrance>, ValueFault>
    ensures { Gives (λ group. group) result (spec.leg_entrance (leg_seen at.now)) }
{
    entrance_at(
        alloc,
        &LegScene { at },
        TextPlace::JobGroup,
        &at.job_plan.group,
    )
}
