//! The events of the table, each as a change of a board.
//!
//! Each function looks for a refusal first, makes what room it needs, and only then changes the board.

ghost use Rattle.std.specs.Prelude.{◌≡◌, ℕ, [], Bool, Option, Some, Result, Ok, IfOk};
ghost use Rattle.std.specs.Option.{option_copied};
ghost use Rattle.board_decisions.specs.Ancestors.{StandsAfterNeeds};
ghost use Rattle.board_decisions.specs.Decisions.{step_decision as step_decision_of};
ghost use Rattle.board_decisions.specs.Kept.{IsKeptOf};
ghost use Rattle.board_decisions.specs.Seen.{job_seen, leg_seen};
ghost use Rattle.expr_value.specs.Answer.{Gives};
ghost use Rattle.flow_model.specs.declared.reply.StepCall.{StepCall as StepCallOf};
ghost use Rattle.flow_model.specs.declared.reply.ValueFault.{ValueFault as ValueFaultOf};
ghost use Rattle.status_table.specs.Answers.{Answers, Decides, DecidesAs};
ghost use Rattle.status_table.specs.InPlay.{InPlay};
ghost use Rattle.status_table.specs.Row as spec;
ghost use Rattle.status_table.specs.Seen.{begun_seen, DecidesEnding};
ghost use Rattle.status_table.specs.Seen as seen;
ghost use Rattle.status_table.specs.Shape.{HasFewLegs};

use crate::change::{add_step, set_ended, set_job_state, set_leg_state};
use crate::fault::EventFault;
use crate::groups::{enter_leg, enter_run, moved, next_after_leg, next_after_run, told};
use crate::members::{close_run, drop_leg, pass_on, stop_run};
use board_decisions::ancestors::job_status;
use board_decisions::decisions::{
    is_stopping, job_condition, job_tolerates, leg_entrance, leg_outputs, leg_result,
    leg_result_kept, run_entrance, step_decision, step_tolerates,
};
use board_decisions::derived::{
    is_closed, is_failure, is_full, is_untaken, jobs_have_ended, needs_have_ended, run_result,
};
use board_decisions::kept::LegKept;
use board_decisions::place::{SeenJob, SeenLeg, find_job, find_leg, find_run};
use flow_model::{
    Answer, Board, DoneStep, JobState, LegState, Mapping, Outcome, Plan, Reply, RunState, StepCall,
    StepPlan, ValueFault, What, faulted,
};
use std::alloc::{AllocError, Global};

/// A reply that tells of nothing but what happened.
pub fn reply(what: What) -> Reply
    ensures { result ≡ spec.reply what }
{
    Reply {
        what,
        admitted: None,
        displaced: None,
        stopped: None,
    }
}

/// Starts a run that is new.
pub(crate) fn open(
    alloc: Global,
    plan: &Plan,
    board: &mut Board,
    number: u64,
) -> Result<Reply, EventFault>
    requires { HasFewLegs board.old }
    ensures { Answers (spec.open_row plan.now board.old number) board.old result board.new }
{
    let Some(at) = find_run(plan, board, number as usize) else {
        return Err(EventFault::NoSuch);
    };
    match (at.run.state, at.run.stop) {
        (RunState::New, false) => {},
        (RunState::New, true) => return Err(EventFault::Stopping),
        (RunState::Waiting, _) => return Err(EventFault::WrongState),
        (RunState::Going, _) => return Err(EventFault::WrongState),
        (RunState::Closed(_), _) => return Err(EventFault::WrongState),
    }
    let group = run_entrance(alloc, &at);
    enter_run(board, number, group)
}

/// The state into which a job is judged by its condition.
pub fn judged_state(stop: bool, holds: Result<bool, ValueFault>) -> Result<JobState, AllocError>
    ensures { (value : Result Bool ValueFaultOf) → Gives (λ holds. holds) holds value
        → IfOk result (λ state. state ≡ spec.judged_state stop value) }
{
    match holds {
        Ok(true) => Ok(JobState::Open),
        Ok(false) => Ok(JobState::Shut(shut_result(stop))),
        Err(ValueFault::Memory) => Err(AllocError),
        Err(faulted!()) => Ok(JobState::Shut(Outcome::Failure)),
    }
}

/// What a job is shut with where its condition is not true.
fn shut_result(stop: bool) -> Outcome
    ensures { result ≡ spec.shut_result stop }
{
    if stop {
        Outcome::Cancelled
    } else {
        Outcome::Skipped
    }
}

/// The state into which a job is judged, or why it is not.
fn judgement(alloc: Global, number: u64, at: &SeenJob) -> Result<JobState, EventFault>
    requires { StandsAfterNeeds (spec.first_of number (job_seen at.now)) (job_seen at.now) }
    ensures { Decides (spec.judgement number (job_seen at.now)) result }
{
    match (at.run.state, at.job.state) {
        (RunState::Going, JobState::Unjudged) => {},
        (RunState::Going, JobState::Open) => return Err(EventFault::WrongState),
        (RunState::Going, JobState::Shut(_)) => return Err(EventFault::WrongState),
        (RunState::New, _) => return Err(EventFault::WrongState),
        (RunState::Waiting, _) => return Err(EventFault::WrongState),
        (RunState::Closed(_), _) => return Err(EventFault::WrongState),
    }
    let first = number.saturating_sub(at.place.job as u64);
    if !needs_have_ended(first, at.run, at.plan) {
        return Err(EventFault::NeedsOpen);
    }
    let status = job_status(alloc, first, at)?;
    Ok(judged_state(at.run.stop, job_condition(alloc, at, status))?)
}

/// Opens or shuts a job whose needs have ended.
pub(crate) fn judge(
    alloc: Global,
    plan: &Plan,
    board: &mut Board,
    number: u64,
) -> Result<Reply, EventFault>
    requires { InPlay plan.now board.old }
    ensures { Answers (spec.judge_row plan.now board.old number) board.old result board.new }
{
    let Some(at) = find_job(plan, board, number as usize) else {
        return Err(EventFault::NoSuch);
    };
    let state = judgement(alloc, number, &at)?;
    let place = at.place;
    set_job_state(board, place, state);
    Ok(moved())
}

/// Whether a leg may ask to be admitted.
pub fn may_ask(at: &SeenLeg) -> bool
    ensures { result ≡ spec.may_ask (leg_seen at.now) }
{
    matches!(at.run.state, RunState::Going)
        && matches!(at.job.state, JobState::Open)
        && matches!(at.leg.state, LegState::Fresh)
}

/// A leg asks to be admitted.
pub(crate) fn ask(
    alloc: Global,
    plan: &Plan,
    board: &mut Board,
    number: u64,
) -> Result<Reply, EventFault>
    requires { HasFewLegs board.old }
    ensures { Answers (spec.ask_row plan.now board.old number) board.old result board.new }
{
    let Some(at) = find_leg(plan, board, number as usize) else {
        return Err(EventFault::NoSuch);
    };
    if !may_ask(&at) {
        return Err(EventFault::WrongState);
    }
    if is_full(at.job_plan, at.job) {
        return Err(EventFault::SlotsFull);
    }
    if is_stopping(alloc, &at)? {
        return Err(EventFault::Stopping);
    }
    let own = at.place.run as u64;
    let group = leg_entrance(alloc, &at);
    enter_leg(board, number, own, group)
}

/// Whether a leg may be dropped.
pub fn may_drop(at: &SeenLeg) -> bool
    ensures { result ≡ spec.may_drop (leg_seen at.now) }
{
    matches!(at.run.state, RunState::Going)
        && matches!(at.job.state, JobState::Open)
        && is_untaken(at.leg.state)
}

/// Drops a leg that is to stop before a worker took it.
pub(crate) fn discard(
    alloc: Global,
    plan: &Plan,
    board: &mut Board,
    number: u64,
) -> Result<Reply, EventFault>
    requires { HasFewLegs board.old }
    ensures { Answers (spec.drop_row plan.now board.old number) board.old result board.new }
{
    let Some(at) = find_leg(plan, board, number as usize) else {
        return Err(EventFault::NoSuch);
    };
    if !may_drop(&at) {
        return Err(EventFault::WrongState);
    }
    if !is_stopping(alloc, &at)? {
        return Err(EventFault::NotStopping);
    }
    let next = next_after_leg(board, at.leg);
    drop_leg(board, number, Outcome::Cancelled)?;
    pass_on(board, next);
    Ok(told(next, None, None))
}

/// Gives a leg that is admitted to a worker.
pub(crate) fn take(
    alloc: Global,
    plan: &Plan,
    board: &mut Board,
    worker: u8,
    number: u64,
) -> Result<Reply, EventFault>
    ensures { Answers (spec.take_row plan.now board.old worker number) board.old result board.new }
{
    let Some(at) = find_leg(plan, board, number as usize) else {
        return Err(EventFault::NoSuch);
    };
    match at.leg.state {
        LegState::Admitted => {},
        LegState::Fresh => return Err(EventFault::WrongState),
        LegState::Waiting => return Err(EventFault::WrongState),
        LegState::Running { .. } => return Err(EventFault::WrongState),
        LegState::Ended { .. } => return Err(EventFault::WrongState),
    }
    if is_stopping(alloc, &at)? {
        return Err(EventFault::Stopping);
    }
    let place = at.place;
    set_leg_state(
        board,
        place,
        LegState::Running {
            worker,
            in_call: false,
        },
    );
    Ok(moved())
}

/// Ends a run whose jobs have ended, or that never went.
pub(crate) fn close(plan: &Plan, board: &mut Board, number: u64) -> Result<Reply, EventFault>
    requires { HasFewLegs board.old }
    ensures { Answers (spec.close_row plan.now board.old number) board.old result board.new }
{
    let Some(at) = find_run(plan, board, number as usize) else {
        return Err(EventFault::NoSuch);
    };
    let how = match at.run.state {
        RunState::New | RunState::Waiting => {
            if !at.run.stop {
                return Err(EventFault::NotStopping);
            }
            Outcome::Cancelled
        },
        RunState::Going => {
            if !jobs_have_ended(at.run) {
                return Err(EventFault::NeedsOpen);
            }
            run_result(at.run)
        },
        RunState::Closed(_) => return Err(EventFault::WrongState),
    };
    let next = next_after_run(board, at.run);
    close_run(board, number, how);
    pass_on(board, next);
    Ok(told(next, None, None))
}

/// Tells a run to stop.
pub(crate) fn cancel(plan: &Plan, board: &mut Board, number: u64) -> Result<Reply, EventFault>
    ensures { Answers (spec.cancel_row plan.now board.old number) board.old result board.new }
{
    let Some(at) = find_run(plan, board, number as usize) else {
        return Err(EventFault::NoSuch);
    };
    if is_closed(at.run.state) || at.run.stop {
        return Err(EventFault::WrongState);
    }
    stop_run(board, number);
    Ok(moved())
}

/// The worker of a leg that is running, if it is idle.
#[inline(always)]
fn idle_owner(state: LegState) -> Option<u8>
    ensures { result ≡ spec.idle_owner state }
{
    match state {
        LegState::Running {
            worker,
            in_call: false,
        } => Some(worker),
        LegState::Running {
            worker: _,
            in_call: true,
        } => None,
        LegState::Fresh => None,
        LegState::Waiting => None,
        LegState::Admitted => None,
        LegState::Ended { .. } => None,
    }
}

/// The worker of a leg that is running, if it is in a call.
#[inline(always)]
pub(crate) fn calling_owner(state: LegState) -> Option<u8>
    ensures { result ≡ spec.calling_owner state }
{
    match state {
        LegState::Running {
            worker,
            in_call: true,
        } => Some(worker),
        LegState::Running {
            worker: _,
            in_call: false,
        } => None,
        LegState::Fresh => None,
        LegState::Waiting => None,
        LegState::Admitted => None,
        LegState::Ended { .. } => None,
    }
}

/// The next step of a leg, if there is one left.
#[inline(always)]
fn next_step<'a>(at: &SeenLeg<'a>) -> Option<&'a StepPlan>
    ensures { option_copied result ≡ spec.next_step (leg_seen at.now) }
{
    at.job_plan.steps.as_slice().get(at.leg.steps.len())
}

/// What beginning a step comes to.
#[derive(Drop)]
pub enum Begun {
    Call(StepCall),
    Skips,
    Faults(ValueFault),
}

/// What is decided of a step; want of memory is apart.
fn told_begun(decision: Result<Option<StepCall>, ValueFault>) -> Result<Begun, EventFault>
    ensures { (value : Result (Option StepCallOf) ValueFaultOf)
        → Gives (λ call. call) decision value
        → DecidesAs begun_seen (Ok (spec.decided value)) result }
{
    match decision {
        Ok(Some(call)) => Ok(Begun::Call(call)),
        Ok(None) => Ok(Begun::Skips),
        Err(ValueFault::Memory) => Err(EventFault::Memory),
        Err(fault @ faulted!()) => Ok(Begun::Faults(fault)),
    }
}

/// The step that a worker begins of a leg, or why it begins none.
#[inline(always)]
pub(crate) fn step_to_begin<'a>(worker: u8, at: &SeenLeg<'a>) -> Result<&'a StepPlan, EventFault>
    ensures decides { (l : ℕ) → DecidesAs
        (λ step. spec.decided (step_decision_of l (leg_seen at.now) step.now))
        (spec.beginning worker l (leg_seen at.now)) result }
    ensures next { IfOk result (λ step. spec.next_step (leg_seen at.now) ≡ Some step.now) }
{
    let Some(owner) = idle_owner(at.leg.state) else {
        return Err(EventFault::WrongState);
    };
    let Some(step) = next_step(at) else {
        return Err(EventFault::WrongState);
    };
    if worker != owner {
        return Err(EventFault::OtherWorker);
    }
    Ok(step)
}

/// What beginning the next step of a leg comes to, or why it is not begun.
pub fn beginning(alloc: Global, worker: u8, number: u64, at: &SeenLeg) -> Result<Begun, EventFault>
    ensures { DecidesAs begun_seen (spec.beginning worker number (leg_seen at.now)) result }
{
    let step = step_to_begin(worker, at)?;
    told_begun(step_decision(alloc, number, at, step))
}

/// A step that was skipped.
pub fn skipped_step(alloc: Global) -> DoneStep
    ensures { result ≡ spec.skipped_step }
{
    DoneStep {
        outcome: Outcome::Skipped,
        conclusion: Outcome::Skipped,
        outputs: Mapping::empty(alloc),
        env: Mapping::empty(alloc),
    }
}

/// A step that failed before its call.
pub fn failed_step(alloc: Global, at: &SeenLeg) -> Result<DoneStep, AllocError>
    ensures { IfOk result (λ done. done ≡ spec.failed_step (leg_seen at.now)) }
{
    let conclusion = failure_of(alloc, at)?;
    Ok(DoneStep {
        outcome: Outcome::Failure,
        conclusion,
        outputs: Mapping::empty(alloc),
        env: Mapping::empty(alloc),
    })
}

/// Begins the next step of a leg: its call, that it is skipped, or that it failed.
pub(crate) fn begin(
    alloc: Global,
    plan: &Plan,
    board: &mut Board,
    worker: u8,
    number: u64,
) -> Result<Reply, EventFault>
    ensures { Answers (spec.begin_row plan.now board.old worker number) board.old result board.new }
{
    let Some(at) = find_leg(plan, board, number as usize) else {
        return Err(EventFault::NoSuch);
    };
    let place = at.place;
    match beginning(alloc, worker, number, &at)? {
        Begun::Call(call) => {
            set_leg_state(
                board,
                place,
                LegState::Running {
                    worker,
                    in_call: true,
                },
            );
            Ok(reply(What::Call(call)))
        },
        Begun::Skips => {
            add_step(board, place, worker, skipped_step(alloc))?;
            Ok(reply(What::Skipped))
        },
        Begun::Faults(fault) => {
            let done = failed_step(alloc, &at)?;
            add_step(board, place, worker, done)?;
            Ok(reply(What::Faulted(fault)))
        },
    }
}

/// The outcome of a step: success exactly for an exit with code 0.
fn outcome_of(answer: &Answer) -> Outcome
    ensures { result ≡ spec.outcome_of answer.now }
{
    match answer {
        Answer::Exit {
            code,
            outputs: _,
            env: _,
        } => if *code == 0 {
            Outcome::Success
        } else {
            Outcome::Failure
        },
        Answer::NotStarted => Outcome::Failure,
        Answer::BadOutput => Outcome::Failure,
    }
}

/// A step that is done by an answer, with its outcome and its conclusion: it keeps the outputs and the variables of an
/// exit, whatever its code.
#[inline(always)]
pub fn ended_step(alloc: Global, outcome: Outcome, conclusion: Outcome, answer: Answer) -> DoneStep
    ensures { result ≡ seen.ended_step (outcome, conclusion) answer }
{
    let (outputs, env) = match answer {
        Answer::Exit {
            code: _,
            outputs,
            env,
        } => (outputs, env),
        Answer::NotStarted => (Mapping::empty(alloc), Mapping::empty(alloc)),
        Answer::BadOutput => (Mapping::empty(alloc), Mapping::empty(alloc)),
    };
    DoneStep {
        outcome,
        conclusion,
        outputs,
        env,
    }
}

/// How a failure counts for the next step of a leg: one that may be passed over counts as a success.
fn failure_of(alloc: Global, at: &SeenLeg) -> Result<Outcome, AllocError>
    ensures { IfOk result (λ how. how
        ≡ spec.failure_of (leg_seen at.now) (spec.next_step (leg_seen at.now))) }
{
    let Some(step) = next_step(at) else {
        return Ok(Outcome::Failure);
    };
    if step_tolerates(alloc, at, step)? {
        Ok(Outcome::Success)
    } else {
        Ok(Outcome::Failure)
    }
}

/// How an outcome counts for the next step of a leg.
fn conclusion_of(alloc: Global, at: &SeenLeg, outcome: Outcome) -> Result<Outcome, AllocError>
    ensures { IfOk result (λ how. how ≡ spec.conclusion_of (leg_seen at.now) outcome) }
{
    match outcome {
        Outcome::Success => Ok(Outcome::Success),
        Outcome::Failure => failure_of(alloc, at),
        Outcome::Cancelled => Ok(Outcome::Cancelled),
        Outcome::Skipped => Ok(Outcome::Skipped),
    }
}

/// The outcome and conclusion of the step that an answer ends, or why it does not.
pub fn ending(
    alloc: Global,
    worker: u8,
    at: &SeenLeg,
    answer: &Answer,
) -> Result<(Outcome, Outcome), EventFault>
    ensures { DecidesEnding worker (leg_seen at.now) answer.now result }
{
    let Some(owner) = calling_owner(at.leg.state) else {
        return Err(EventFault::WrongState);
    };
    if worker != owner {
        return Err(EventFault::OtherWorker);
    }
    if !answer.well_formed() {
        return Err(EventFault::BadAnswer);
    }
    let outcome = outcome_of(answer);
    let conclusion = conclusion_of(alloc, at, outcome)?;
    Ok((outcome, conclusion))
}

/// The end of the call of a leg, which is answered so.
#[derive(Drop)]
pub(crate) struct CallEnd {
    pub(crate) leg: u64,
    pub(crate) answer: Answer,
}

/// Ends the step of a leg that is in a call.
pub(crate) fn end(
    alloc: Global,
    plan: &Plan,
    board: &mut Board,
    worker: u8,
    call: CallEnd,
) -> Result<Reply, EventFault>
    ensures { Answers (spec.end_row plan.now board.old worker call.leg call.answer)
        board.old result board.new }
{
    let Some(at) = find_leg(plan, board, call.leg as usize) else {
        return Err(EventFault::NoSuch);
    };
    let place = at.place;
    let (outcome, conclusion) = ending(alloc, worker, &at, &call.answer)?;
    let done = ended_step(alloc, outcome, conclusion, call.answer);
    add_step(board, place, worker, done)?;
    Ok(moved())
}

/// Whether a worker may end a leg, or why not.
fn may_finish(worker: u8, at: &SeenLeg) -> Result<(), EventFault>
    ensures { seen.MayFinish worker (leg_seen at.now) result }
{
    let Some(owner) = idle_owner(at.leg.state) else {
        return Err(EventFault::WrongState);
    };
    if worker != owner {
        return Err(EventFault::OtherWorker);
    }
    if at.leg.steps.len() < at.job_plan.steps.len() {
        return Err(EventFault::StepsLeft);
    }
    Ok(())
}

/// The state in which a leg ends that counts so.
fn ended_state(alloc: Global, at: &SeenLeg, how: Outcome) -> Result<LegState, AllocError>
    ensures { IfOk result (λ state. state ≡ spec.ended_state (leg_seen at.now) how) }
{
    let tolerated = is_failure(how) && job_tolerates(alloc, at)?;
    Ok(LegState::Ended {
        result: how,
        tolerated,
    })
}

/// The state in which a leg ends, or why it does not.
pub fn finishing(alloc: Global, worker: u8, at: &SeenLeg) -> Result<LegState, EventFault>
    ensures { Decides (spec.finishing worker (leg_seen at.now)) result }
{
    if let Err(fault) = may_finish(worker, at) {
        return Err(fault);
    }
    let how = leg_result(alloc, at)?;
    Ok(ended_state(alloc, at, how)?)
}

/// The state in which a worker ends a leg, or why it may not, by what is kept of the leg.
pub fn finishing_kept(
    alloc: Global,
    worker: u8,
    at: &SeenLeg,
    kept: LegKept,
) -> Result<LegState, EventFault>
    requires { IsKeptOf kept (leg_seen at.now) }
    ensures { Decides (spec.finishing worker (leg_seen at.now)) result }
{
    if let Err(fault) = may_finish(worker, at) {
        return Err(fault);
    }
    let how = leg_result_kept(alloc, at, kept)?;
    Ok(ended_state(alloc, at, how)?)
}

/// Ends a leg whose steps are done.
pub(crate) fn finish(
    alloc: Global,
    plan: &Plan,
    board: &mut Board,
    worker: u8,
    number: u64,
) -> Result<Reply, EventFault>
    requires { HasFewLegs board.old }
    ensures { Answers (spec.finish_row plan.now board.old worker number)
        board.old result board.new }
{
    let Some(at) = find_leg(plan, board, number as usize) else {
        return Err(EventFault::NoSuch);
    };
    let place = at.place;
    let state = finishing(alloc, worker, &at)?;
    let outputs = leg_outputs(alloc, &at)?;
    let next = next_after_leg(board, at.leg);
    set_ended(board, place, number, state, outputs)?;
    pass_on(board, next);
    Ok(told(next, None, None))
}
