//! Where runs, jobs and legs stand, and what stands there.

ghost use Rattle.std.specs.Prelude.{◌≡◌, option_map, slice_get};
ghost use Rattle.std.specs.Option.{option_copied};
ghost use Rattle.board_decisions.specs.Numbered.{leg_there as leg_there_of, numbered_leg as numbered_leg_of};
ghost use Rattle.board_decisions.specs.Place as spec;
ghost use Rattle.board_decisions.specs.Seen.{run_seen, job_seen, leg_seen};

use flow_model::{Board, Job, JobPlan, Leg, Plan, Run, RunPlan, Sequence};

/// A job by its run's place and its own in the run.
#[derive(Clone, Copy)]
pub struct JobPlace {
    pub run: usize,
    pub job: usize,
}

/// A leg by its run's place, its job's in the run, and its own in the job.
#[derive(Clone, Copy)]
pub struct LegPlace {
    pub run: usize,
    pub job: usize,
    pub leg: usize,
}

/// A run in play, with its plan.
#[derive(Clone, Copy)]
pub struct SeenRun<'a> {
    pub board: &'a Board,
    pub plan: &'a RunPlan,
    pub run: &'a Run,
}

/// A job in play, with its plan and run.
#[derive(Clone, Copy)]
pub struct SeenJob<'a> {
    pub board: &'a Board,
    pub place: JobPlace,
    pub run_plan: &'a RunPlan,
    pub plan: &'a JobPlan,
    pub run: &'a Run,
    pub job: &'a Job,
}

/// A leg in play, with its job and run.
#[derive(Clone, Copy)]
pub struct SeenLeg<'a> {
    pub board: &'a Board,
    pub place: LegPlace,
    pub run_plan: &'a RunPlan,
    pub job_plan: &'a JobPlan,
    pub run: &'a Run,
    pub job: &'a Job,
    pub leg: &'a Leg,
}

/// The item at a place of a list, if there is one.
#[inline(always)]
pub fn item_at<T>(items: &Sequence<T>, place: usize) -> Option<&T>
    ensures { option_copied result ≡ slice_get items.now place }
{
    items.as_slice().get(place)
}

/// The place of the job with a number.
fn find_job_place(runs: &[Run], number: usize) -> Option<JobPlace>
    ensures { result ≡ spec.job_place_from 0 runs.now number }
{
    let mut left = number;
    for (place, run) in runs.iter().enumerate() {
        let count = run.jobs.len();
        if left < count {
            return Some(JobPlace {
                run: place,
                job: left,
            });
        }
        left -= count;
    }
    None
}

/// The place of the leg with a number in a run's jobs; else what is left of the number.
fn find_leg_in_jobs(run: usize, jobs: &[Job], number: usize) -> Result<LegPlace, usize>
    ensures { result ≡ spec.leg_in_jobs run 0 jobs.now number }
{
    let mut left = number;
    for (place, job) in jobs.iter().enumerate() {
        let count = job.legs.len();
        if left < count {
            return Ok(LegPlace {
                run,
                job: place,
                leg: left,
            });
        }
        left -= count;
    }
    Err(left)
}

/// The place of the leg with a number.
pub fn find_leg_place(runs: &[Run], number: usize) -> Option<LegPlace>
    ensures { result ≡ spec.leg_place_from 0 runs.now number }
{
    let mut left = number;
    for (place, run) in runs.iter().enumerate() {
        match find_leg_in_jobs(place, run.jobs.as_slice(), left) {
            Ok(found) => return Some(found),
            Err(rest) => left = rest,
        }
    }
    None
}

/// The leg at a place, if there is one.
pub fn leg_there(board: &Board, place: LegPlace) -> Option<&Leg>
    ensures { option_copied result ≡ leg_there_of board.now place }
{
    let run = item_at(&board.runs, place.run)?;
    let job = item_at(&run.jobs, place.job)?;
    item_at(&job.legs, place.leg)
}

/// The leg with a number, if there is one.
pub fn numbered_leg(board: &Board, number: usize) -> Option<&Leg>
    ensures { option_copied result ≡ numbered_leg_of board.now number }
{
    let place = find_leg_place(board.runs.as_slice(), number)?;
    leg_there(board, place)
}

/// The run with a number.
#[inline(always)]
pub fn find_run<'a>(plan: &'a Plan, board: &'a Board, number: usize) -> Option<SeenRun<'a>>
    ensures { option_map run_seen result ≡ spec.run_at plan.now board.now number }
{
    let plan = item_at(&plan.runs, number)?;
    let run = item_at(&board.runs, number)?;
    Some(SeenRun { board, plan, run })
}

/// The job at a place, whose run is given.
#[inline(always)]
pub fn job_in_run<'a>(
    board: &'a Board,
    run_plan: &'a RunPlan,
    run: &'a Run,
    place: JobPlace,
) -> Option<SeenJob<'a>>
    ensures { option_map job_seen result ≡ spec.job_in_run board.now run_plan.now run.now place }
{
    let plan = item_at(&run_plan.jobs, place.job)?;
    let job = item_at(&run.jobs, place.job)?;
    Some(SeenJob {
        board,
        place,
        run_plan,
        plan,
        run,
        job,
    })
}

/// The job at a place.
#[inline(always)]
fn find_placed<'a>(plan: &'a Plan, board: &'a Board, place: JobPlace) -> Option<SeenJob<'a>>
    ensures { option_map job_seen result ≡ spec.job_placed plan.now board.now place }
{
    let at = find_run(plan, board, place.run)?;
    job_in_run(board, at.plan, at.run, place)
}

/// The job with a number.
pub fn find_job<'a>(plan: &'a Plan, board: &'a Board, number: usize) -> Option<SeenJob<'a>>
    ensures { option_map job_seen result ≡ spec.job_at plan.now board.now number }
{
    let place = find_job_place(board.runs.as_slice(), number)?;
    find_placed(plan, board, place)
}

/// The leg at a place.
#[inline(always)]
pub fn find_placed_leg<'a>(plan: &'a Plan, board: &'a Board, place: LegPlace) -> Option<SeenLeg<'a>>
    ensures { option_map leg_seen result ≡ spec.leg_placed plan.now board.now place }
{
    let in_run = JobPlace {
        run: place.run,
        job: place.job,
    };
    let at = find_placed(plan, board, in_run)?;
    let leg = item_at(&at.job.legs, place.leg)?;
    Some(SeenLeg {
        board,
        place,
        run_plan: at.run_plan,
        job_plan: at.plan,
        run: at.run,
        job: at.job,
        leg,
    })
}

/// The leg with a number.
pub fn find_leg<'a>(plan: &'a Plan, board: &'a Board, number: usize) -> Option<SeenLeg<'a>>
    ensures { option_map leg_seen result ≡ spec.leg_at plan.now board.now number }
{
    let place = find_leg_place(board.runs.as_slice(), number)?;
    find_placed_leg(plan, board, place)
}
