//! A run that is held against what is settled.

ghost use Rattle.std.specs.Prelude.{IfOk, IfSome};
ghost use Rattle.board_settled.specs.Words.{ByAnswers, job_seen, run_seen, run_settled};
ghost use Rattle.board_settled.specs.Runs as spec;

use crate::job::is_job_settled;
use board_decisions::derived::run_result;
use board_decisions::place::{JobPlace, SeenJob, SeenRun, item_at};
use flow_model::RunState;
use flow_model::laws::needs_point_back;
use std::alloc::{AllocError, Global};
use step_host::StepHost;

/// The job at a place of a run, which has this number.
fn job_of<'a>(at: &SeenRun<'a>, number: usize, place: usize) -> Option<SeenJob<'a>>
    ensures { IfSome result (λ job. spec.IsJobOf number place (run_seen at.now) (job_seen job)) }
{
    let plan = item_at(&at.plan.jobs, place)?;
    let job = item_at(&at.run.jobs, place)?;
    Some(SeenJob {
        board: at.board,
        place: JobPlace {
            run: number,
            job: place,
        },
        run_plan: at.plan,
        plan,
        run: at.run,
        job,
    })
}

/// Whether a run is Closed as settled, with all its jobs: the number of the first leg after its own, or none. The run and
/// its own first leg have these numbers.
pub(crate) fn is_run_settled<H: StepHost>(
    alloc: Global,
    host: &H,
    number: usize,
    first: u64,
    at: &SeenRun,
) -> Result<Option<u64>, AllocError>
    requires { spec.RunStands number (run_seen at.now) }
    ensures { IfOk result (λ next. ByAnswers (H.admits host.now) (H.declines host.now)
        (λ answers. spec.RunComes first at.now.plan.now (run_settled answers first at.now.plan.now)
        at.now.run.now next)) }
{
    needs_point_back();
    let mut next = first;
    for place in 0..at.run.jobs.len() {
        let Some(job) = job_of(at, number, place) else {
            return Err(AllocError);
        };
        let first_job = job.plan.number.saturating_sub(place as u64);
        if !is_job_settled(alloc, host, first_job, next, &job)? {
            return Ok(None);
        }
        let Some(more) = next.checked_add(job.job.legs.len() as u64) else {
            return Err(AllocError);
        };
        next = more;
    }
    if at.run.state != RunState::Closed(run_result(at.run)) {
        return Ok(None);
    }
    Ok(Some(next))
}
