//! A leg that is played by itself, and held against one on a board.

ghost use Rattle.std.specs.Prelude.{◌≡◌, ◌↔◌, [], IfOk, IsTrue, Some, option_map};
ghost use Rattle.board_settled.specs.Words.{ByAnswers, IsAlone, IsIdle, LegIsSettled, StepPlan as StepPlanOf, answered_step, job_seen, leg_seen, leg_settled, next_step, outcome_of};
ghost use Rattle.board_settled.specs.Alone as spec;

use crate::same::are_same_steps;
use board_decisions::decisions::{job_tolerates, leg_outputs, leg_result};
use board_decisions::derived::is_failure;
use board_decisions::place::{LegPlace, SeenJob, SeenLeg};
use flow_model::{
    Answer, DoneStep, Leg, LegState, Mapping, Outcome, Sequence, StepCall, is_same_mapping,
};
use status_table::events::{Begun, beginning, ended_step, failed_step, skipped_step};
use std::alloc::{AllocError, Global};
use step_host::{HostFault, StepHost};

/// Whether a step succeeds that is answered so.
fn succeeds(answer: &Answer) -> bool
    ensures { outcome_of answer.now ≡ spec.success_if result }
{
    match answer {
        Answer::Exit {
            code,
            outputs: _,
            env: _,
        } => *code == 0,
        Answer::NotStarted => false,
        Answer::BadOutput => false,
    }
}

/// The next step of a leg that an answer ends.
fn answered(alloc: Global, at: &SeenLeg, answer: Answer) -> Result<DoneStep, AllocError>
    ensures { IfOk result (λ done. done ≡ answered_step (leg_seen at.now) answer) }
{
    if succeeds(&answer) {
        return Ok(ended_step(alloc, Outcome::Success, Outcome::Success, answer));
    }
    let failed = failed_step(alloc, at)?;
    Ok(ended_step(alloc, Outcome::Failure, failed.conclusion, answer))
}

/// The next step of a leg by its call, or none where there is no answer to it.
fn called<H: StepHost>(
    alloc: Global,
    host: &H,
    at: &SeenLeg,
    call: &StepCall,
) -> Result<Option<DoneStep>, AllocError>
    ensures { IfOk result (λ next. ByAnswers (H.admits host.now) (H.declines host.now)
        (λ answers. next ≡ option_map (answered_step (leg_seen at.now)) (answers call.now))) }
{
    match host.play(call) {
        Ok(answer) => Ok(Some(answered(alloc, at, answer)?)),
        Err(HostFault::NoAnswer) => Ok(None),
        Err(HostFault::Memory) => Err(AllocError),
    }
}

/// The next step of a leg that is idle and has one left, or none where there is no answer to its call.
fn next_done<H: StepHost>(
    alloc: Global,
    host: &H,
    number: u64,
    at: &SeenLeg,
) -> Result<Option<DoneStep>, AllocError>
    requires { IsIdle at.now.leg.now }
    ensures { IfOk result (λ next. (step : StepPlanOf) → next_step (leg_seen at.now) ≡ Some step
        → ByAnswers (H.admits host.now) (H.declines host.now)
        (λ answers. next ≡ spec.next_comes answers number (leg_seen at.now) step)) }
{
    match beginning(alloc, 0, number, at) {
        Ok(Begun::Call(call)) => called(alloc, host, at, &call),
        Ok(Begun::Skips) => Ok(Some(skipped_step(alloc))),
        Ok(Begun::Faults(_)) => Ok(Some(failed_step(alloc, at)?)),
        Err(_) => Err(AllocError),
    }
}

/// Where a leg is played by itself: a place of a job, with the leg's number.
#[derive(Clone, Copy)]
pub(crate) struct LegSpot<'a> {
    pub(crate) number: u64,
    pub(crate) at: &'a SeenJob<'a>,
    pub(crate) place: usize,
}

/// A leg of which no step is done, with a worker.
fn idle_leg(alloc: Global) -> Leg
    ensures idle { IsIdle result }
    ensures steps { result.steps ≡ [] }
{
    Leg {
        state: LegState::Running {
            worker: 0,
            in_call: false,
        },
        stop: false,
        group: None,
        steps: Sequence::empty(alloc),
        outputs: Mapping::empty(alloc),
    }
}

/// The leg of a spot with all its steps done, each by what was settled before; or none where there is no answer to a call.
fn play_steps<H: StepHost>(
    alloc: Global,
    host: &H,
    spot: &LegSpot<'_>,
) -> Result<Option<Leg>, AllocError>
    requires { IsAlone (job_seen spot.now.at.now) }
    ensures { let planned = spec.planned spot.now.number (job_seen spot.now.at.now) spot.now.place in
        IfOk result (λ made. ByAnswers (H.admits host.now) (H.declines host.now)
        (λ answers. spec.StepsCome answers planned made)) }
{
    let at = spot.at;
    let mut leg = idle_leg(alloc);
    for _done in 0..at.plan.steps.len() {
        let seen = SeenLeg {
            board: at.board,
            place: LegPlace {
                run: at.place.run,
                job: at.place.job,
                leg: spot.place,
            },
            run_plan: at.run_plan,
            job_plan: at.plan,
            run: at.run,
            job: at.job,
            leg: &leg,
        };
        match next_done(alloc, host, spot.number, &seen)? {
            Some(done) => leg.steps.push(done)?,
            None => return Ok(None),
        }
    }
    Ok(Some(leg))
}

/// Whether a leg is Ended as one at a spot does all of whose steps are done, with the same steps.
fn ends_as(alloc: Global, spot: &LegSpot<'_>, played: &Leg, leg: &Leg) -> Result<bool, AllocError>
    ensures { IfOk result (λ yes. IsTrue yes
        ↔ spec.EndsAs (spec.leg_on (job_seen spot.now.at.now) spot.now.place played.now) leg.now) }
{
    let at = spot.at;
    let seen = SeenLeg {
        board: at.board,
        place: LegPlace {
            run: at.place.run,
            job: at.place.job,
            leg: spot.place,
        },
        run_plan: at.run_plan,
        job_plan: at.plan,
        run: at.run,
        job: at.job,
        leg: played,
    };
    let how = leg_result(alloc, &seen)?;
    let passed = is_failure(how) && job_tolerates(alloc, &seen)?;
    let outputs = leg_outputs(alloc, &seen)?;
    Ok(
        leg.state
            == LegState::Ended {
                result: how,
                tolerated: passed,
            }
            && are_same_steps(played.steps.as_slice(), leg.steps.as_slice())
            && is_same_mapping(&outputs, &leg.outputs),
    )
}

/// Whether the leg of a spot is Ended as settled.
pub(crate) fn is_leg_settled<H: StepHost>(
    alloc: Global,
    host: &H,
    spot: &LegSpot<'_>,
    leg: &Leg,
) -> Result<bool, AllocError>
    requires { IsAlone (job_seen spot.now.at.now) }
    ensures { let planned = spec.planned spot.now.number (job_seen spot.now.at.now) spot.now.place in
        IfOk result (λ yes. ByAnswers (H.admits host.now) (H.declines host.now)
        (λ answers. IsTrue yes ↔ LegIsSettled (leg_settled answers planned) leg.now)) }
{
    let Some(played) = play_steps(alloc, host, spot)? else {
        return Ok(false);
    };
    ends_as(alloc, spot, &played, leg)
}
