//! What is asked where nothing is named: all that did not end in success.

ghost use Rattle.std.specs.Prelude.{◌≡◌, ◌+◌, ◌||◌, IfOk, OnOk, length, option_map};
ghost use Rattle.why_causes.specs.Causes.{asked};
ghost use Rattle.why_causes.specs.Causes as causes;
ghost use Rattle.board_decisions.specs.Place.{leg_at};
ghost use Rattle.board_decisions.specs.Derived as derived;
ghost use Rattle.why_facts.specs.Adds.{Adds};
ghost use Rattle.why_notes.specs.Account.{account_seen};
ghost use Rattle.command_why.specs.Roots as spec;

use board_decisions::derived::{job_has_ended, job_result};
use board_decisions::place::{find_job, find_leg, find_run};
use flow_model::{Job, JobState, Leg, LegState, Outcome, Run, RunState};
use std::alloc::{AllocError, Global};
use why_causes::question::Question;
use why_notes::account::SeenAccount;

/// The number that stands this many places after another. No memory holds as many as a `u64` counts.
fn later(number: u64, places: usize) -> Result<u64, AllocError>
    ensures { IfOk result (λ next. next ≡ number + places) }
{
    match number.checked_add(places as u64) {
        Some(next) => Ok(next),
        None => Err(AllocError),
    }
}

/// Whether a run did not succeed.
fn run_is_asked(run: &Run) -> bool
    ensures { result ≡ spec.run_is_asked run.now }
{
    !matches!(run.state, RunState::Closed(Outcome::Success))
}

/// Whether a job is asked about unless it succeeded.
fn is_in_play(run: &Run, job: &Job) -> bool
    ensures { result
        ≡ (causes.is_judged job.now.state || derived.is_going run.now.state) }
{
    !matches!(job.state, JobState::Unjudged) || matches!(run.state, RunState::Going)
}

/// Whether a job did not succeed.
fn job_is_asked(run: &Run, job: &Job) -> bool
    ensures { result ≡ spec.job_is_asked run.now job.now }
{
    is_in_play(run, job)
        && !(job_has_ended(run, job) && matches!(job_result(run, job), Outcome::Success))
}

/// Whether a leg of an open job did not succeed.
fn leg_is_asked(job: &Job, leg: &Leg) -> bool
    ensures { result ≡ spec.leg_is_asked job.now leg.now }
{
    matches!(job.state, JobState::Open)
        && !matches!(
            leg.state,
            LegState::Ended {
                result: Outcome::Success,
                ..
            }
        )
}

/// Adds the runs that did not succeed.
fn add_runs(out: &mut Vec<Question>, runs: &[Run]) -> Result<(), AllocError>
    ensures { OnOk result (Adds out.old.items out.new.items
        (asked Question.Run 0 spec.run_is_asked runs.now)) }
{
    for (place, run) in runs.iter().enumerate() {
        if run_is_asked(run) {
            out.push(Question::Run(place as u64))?;
        }
    }
    Ok(())
}

/// Adds the jobs of a run that did not succeed, of which the first has this number, and gives the number after them.
fn add_run_jobs(out: &mut Vec<Question>, first: u64, run: &Run) -> Result<u64, AllocError>
    ensures asked { OnOk result (Adds out.old.items out.new.items
        (asked Question.Job first (spec.job_is_asked run.now) run.now.jobs)) }
    ensures next { IfOk result (λ next. next ≡ first + length run.now.jobs) }
{
    let mut number = first;
    let jobs = run.jobs.as_slice();
    for job in jobs {
        if job_is_asked(run, job) {
            out.push(Question::Job(number))?;
        }
        number = later(number, 1)?;
    }
    Ok(number)
}

/// Adds the jobs of runs that did not succeed.
fn add_jobs(out: &mut Vec<Question>, runs: &[Run]) -> Result<(), AllocError>
    ensures { OnOk result (Adds out.old.items out.new.items (spec.jobs_left 0 runs.now)) }
{
    let mut next = 0;
    for run in runs {
        next = add_run_jobs(out, next, run)?;
    }
    Ok(())
}

/// Adds the legs of a job that did not succeed, of which the first has this number, and gives the number after them.
fn add_job_legs(out: &mut Vec<Question>, first: u64, job: &Job) -> Result<u64, AllocError>
    ensures asked { OnOk result (Adds out.old.items out.new.items
        (asked Question.Leg first (spec.leg_is_asked job.now) job.now.legs)) }
    ensures next { IfOk result (λ next. next ≡ first + length job.now.legs) }
{
    let mut number = first;
    let legs = job.legs.as_slice();
    for leg in legs {
        if leg_is_asked(job, leg) {
            out.push(Question::Leg(number))?;
        }
        number = later(number, 1)?;
    }
    Ok(number)
}

/// Adds the legs of jobs that did not succeed, and gives the number after them.
fn add_jobs_legs(out: &mut Vec<Question>, first: u64, jobs: &[Job]) -> Result<u64, AllocError>
    ensures asked { OnOk result (Adds out.old.items out.new.items (spec.legs_left first jobs.now)) }
    ensures next { IfOk result (λ next. next ≡ first + spec.legs_count jobs.now) }
{
    let mut next = first;
    for job in jobs {
        next = add_job_legs(out, next, job)?;
    }
    Ok(next)
}

/// Adds the legs of runs that did not succeed.
fn add_legs(out: &mut Vec<Question>, runs: &[Run]) -> Result<(), AllocError>
    ensures { OnOk result (Adds out.old.items out.new.items (spec.run_legs_left 0 runs.now)) }
{
    let mut next = 0;
    for run in runs {
        next = add_jobs_legs(out, next, run.jobs.as_slice())?;
    }
    Ok(())
}

/// All that did not end in success.
fn all_left(alloc: Global, runs: &[Run]) -> Result<Vec<Question>, AllocError>
    ensures { IfOk result (λ roots. roots.items ≡ spec.all_left runs.now) }
{
    let mut out = Vec::new(alloc);
    add_runs(&mut out, runs)?;
    add_jobs(&mut out, runs)?;
    add_legs(&mut out, runs)?;
    Ok(out)
}

/// Whether a leg is there, and its job has a step at this place.
fn has_step(account: &SeenAccount, leg: u64, step: u64) -> bool
    ensures { result ≡ spec.has_step step
        (leg_at account.now.plan.now account.now.board.now leg) }
{
    match find_leg(account.plan, account.board, leg as usize) {
        Some(at) => step < at.job_plan.steps.len() as u64,
        None => false,
    }
}

/// Whether what is named is there.
fn is_there(account: &SeenAccount, question: Question) -> bool
    ensures { result ≡ spec.is_there (account_seen account.now) question }
{
    let (plan, board) = (account.plan, account.board);
    match question {
        Question::Run(number) => find_run(plan, board, number as usize).is_some(),
        Question::Job(number) => find_job(plan, board, number as usize).is_some(),
        Question::Leg(number) => find_leg(plan, board, number as usize).is_some(),
        Question::Step { leg, step } => has_step(account, leg, step),
        Question::Stop(_) => false,
    }
}

/// The roots of the tree that answers, or none where what is named is not there.
pub(crate) fn roots(
    alloc: Global,
    account: &SeenAccount,
    asked: Option<Question>,
) -> Result<Option<Vec<Question>>, AllocError>
    ensures { IfOk result (λ found. option_map (λ roots. roots.items) found
        ≡ spec.roots (account_seen account.now) asked) }
{
    let Some(question) = asked else {
        return Ok(Some(all_left(alloc, account.board.runs.as_slice())?));
    };
    if !is_there(account, question) {
        return Ok(None);
    }
    Ok(Some(vec![in alloc; question]?))
}
