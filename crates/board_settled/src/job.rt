//! A job that is held against what is settled.

ghost use Rattle.std.specs.Prelude.{◌≡◌, ◌↔◌, IfOk, IsTrue, List, false, length};
ghost use Rattle.board_settled.specs.Words.{AllZip, ByAnswers, IsAlone, JobIsSettled, LegIsSettled, SettledJob, StandsAfterNeeds, job_condition as condition_of, job_seen, job_settled, job_status as status_of, judged_state as judged_of, legs_settled, needs_value};
ghost use Rattle.board_settled.specs.Alone as spec;

use crate::leg::{LegSpot, is_leg_settled};
use board_decisions::ancestors::job_status;
use board_decisions::decisions::job_condition;
use board_decisions::place::SeenJob;
use flow_model::{Job, JobState, Leg, Outcome, Sequence};
use status_table::events::judged_state;
use std::alloc::{AllocError, Global};
use step_host::StepHost;

/// Whether the legs of a job are all Ended as settled, the first of which has this number.
fn are_legs_settled<H: StepHost>(
    alloc: Global,
    host: &H,
    first: u64,
    at: &SeenJob,
    legs: &[Leg],
) -> Result<bool, AllocError>
    requires alone { IsAlone (job_seen at.now) }
    requires size { length legs.now ≡ length at.now.plan.now.legs }
    ensures { IfOk result (λ yes. ByAnswers (H.admits host.now) (H.declines host.now)
        (λ answers. IsTrue yes ↔ AllZip LegIsSettled (legs_settled answers at.now.run_plan.now
        at.now.plan.now (needs_value (job_seen at.now)) first) legs.now)) }
{
    for (place, leg) in legs.iter().enumerate() {
        let Some(number) = first.checked_add(place as u64) else {
            return Err(AllocError);
        };
        let spot = LegSpot { number, at, place };
        if !is_leg_settled(alloc, host, &spot, leg)? {
            return Ok(false);
        }
    }
    Ok(true)
}

/// Whether a job was opened, and its legs are all Ended as settled. Each of them is looked at as if it were alone.
fn is_open_settled<H: StepHost>(
    alloc: Global,
    host: &H,
    first: u64,
    at: &SeenJob,
) -> Result<bool, AllocError>
    requires goes { at.now.run.now.stop ≡ false }
    requires size { length at.now.job.now.legs ≡ length at.now.plan.now.legs }
    ensures { IfOk result (λ yes. ByAnswers (H.admits host.now) (H.declines host.now)
        (λ answers. IsTrue yes ↔ spec.IsOpened (legs_settled answers at.now.run_plan.now
        at.now.plan.now (needs_value (job_seen at.now)) first) at.now.job.now)) }
{
    if at.job.state != JobState::Open {
        return Ok(false);
    }
    let nobody = Job {
        state: JobState::Open,
        legs: Sequence::empty(alloc),
    };
    let alone = SeenJob {
        board: at.board,
        place: at.place,
        run_plan: at.run_plan,
        plan: at.plan,
        run: at.run,
        job: &nobody,
    };
    are_legs_settled(alloc, host, first, &alone, at.job.legs.as_slice())
}

/// The state into which a job is judged by what ended before it. The first job of its run has this number.
fn judged(alloc: Global, first: u64, at: &SeenJob) -> Result<JobState, AllocError>
    requires stands { StandsAfterNeeds first (job_seen at.now) }
    ensures { IfOk result (λ state. state
        ≡ judged_of false (condition_of (job_seen at.now) (status_of first (job_seen at.now)))) }
{
    let status = job_status(alloc, first, at)?;
    judged_state(false, job_condition(alloc, at, status))
}

/// Whether a job was judged as settled, and each of its legs, where it was opened, is Ended as settled. The first job of
/// its run and its own first leg have these numbers.
pub(crate) fn is_job_settled<H: StepHost>(
    alloc: Global,
    host: &H,
    first_job: u64,
    first_leg: u64,
    at: &SeenJob,
) -> Result<bool, AllocError>
    requires stands { StandsAfterNeeds first_job (job_seen at.now) }
    requires goes { at.now.run.now.stop ≡ false }
    requires size { length at.now.job.now.legs ≡ length at.now.plan.now.legs }
    ensures { IfOk result (λ yes. ByAnswers (H.admits host.now) (H.declines host.now)
        (λ answers. (before : List SettledJob)
        → spec.SeesSettled first_job before (job_seen at.now)
        → IsTrue yes ↔ JobIsSettled (job_settled answers at.now.run_plan.now first_leg before at.now.plan.now)
        at.now.job.now.legs at.now.job.now.state)) }
{
    match judged(alloc, first_job, at)? {
        JobState::Open => is_open_settled(alloc, host, first_leg, at),
        JobState::Shut(how) => Ok(at.job.state == JobState::Shut(how)),
        JobState::Unjudged => Ok(false),
    }
}
