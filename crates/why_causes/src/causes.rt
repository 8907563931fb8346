//! Which facts made a fact so.

ghost use Rattle.std.specs.Prelude.{◌≡◌, ◌&&◌, ◌∷◌, [], OnOk, map};
ghost use Rattle.std.specs.Option.{option_copied};
ghost use Rattle.why_causes.specs.Causes as spec;
ghost use Rattle.board_decisions.specs.Contexts as contexts;
ghost use Rattle.board_decisions.specs.Derived as derived;
ghost use Rattle.board_decisions.specs.Place.{job_at, leg_at, run_at};
ghost use Rattle.board_decisions.specs.Seen.{job_seen, leg_seen, run_seen};
ghost use Rattle.why_facts.specs.Adds.{Adds};
ghost use Rattle.why_notes.specs.Account.{account_seen};

use crate::numbers::next_number;
use crate::question::{Question, about};
use crate::sought::{Sought, job_sought, leg_sought, opened_sought};
use board_decisions::decisions::is_stopping;
use board_decisions::derived::{is_full, job_has_ended};
use board_decisions::place::{SeenJob, SeenLeg, SeenRun, find_job, find_leg, find_run, item_at};
use flow_model::{DoneStep, JobPlan, JobState, Leg, LegState, Member, Outcome, Run, RunState};
use std::alloc::{AllocError, Global};
use why_facts::ancestors;
use why_facts::fact::{JobFact, MemberFact, StepFact, StopCause};
use why_facts::failures::first_failure;
use why_facts::notes::{JobNote, JobNotes, LegNotes, MemberNote, RunNotes, StepNote};
use why_facts::stopping::cause_of_stop;
use why_notes::account::SeenAccount;

/// Adds a question.
fn add(out: &mut Vec<Question>, question: Question) -> Result<(), AllocError>
    ensures { OnOk result (Adds out.old.items out.new.items (question ∷ [])) }
{
    out.push(question)?;
    Ok(())
}

/// Adds the question who told a run or a leg to stop, where it was told to.
fn add_stop(out: &mut Vec<Question>, who: Member, stop: bool) -> Result<(), AllocError>
    ensures { OnOk result (Adds out.old.items out.new.items (spec.stop_asked who stop)) }
{
    if stop {
        return add(out, Question::Stop(who));
    }
    Ok(())
}

/// Adds why a leg is to stop.
fn add_cause(
    out: &mut Vec<Question>,
    run: u64,
    leg: u64,
    cause: StopCause,
) -> Result<(), AllocError>
    ensures { OnOk result (Adds out.old.items out.new.items (spec.cause_asked run leg cause)) }
{
    match cause {
        StopCause::Told => add(out, Question::Stop(Member::Leg(leg))),
        StopCause::FailFast(failed) => add(out, Question::Leg(failed)),
        StopCause::RunTold => add(out, Question::Stop(Member::Run(run))),
    }
}

// ---- a run

/// Adds the jobs of a run that are looked for, of which the first has this number.
fn add_sought_jobs(
    out: &mut Vec<Question>,
    first: u64,
    wanted: Sought,
    run: &Run,
) -> Result<(), AllocError>
    ensures { OnOk result (Adds out.old.items out.new.items
        (spec.asked Question.Job first (spec.job_sought wanted run.now) run.now.jobs)) }
{
    let mut number = first;
    let jobs = run.jobs.as_slice();
    for job in jobs {
        if job_sought(wanted, run, job) {
            out.push(Question::Job(number))?;
        }
        number = next_number(number)?;
    }
    Ok(())
}

/// The number of the first of some jobs.
fn first_job(jobs: &[JobPlan]) -> u64
    ensures { result ≡ spec.first_job jobs.now }
{
    match jobs.get(0) {
        Some(job) => job.number,
        None => 0,
    }
}

/// Adds the jobs of a run that are looked for.
fn add_jobs(out: &mut Vec<Question>, at: &SeenRun, wanted: Sought) -> Result<(), AllocError>
    ensures { OnOk result
        (Adds out.old.items out.new.items (spec.jobs_asked (run_seen at.now) wanted)) }
{
    let first = first_job(at.plan.jobs.as_slice());
    add_sought_jobs(out, first, wanted, at.run)
}

/// Adds what made a run close so.
fn add_closed(
    out: &mut Vec<Question>,
    number: u64,
    at: &SeenRun,
    how: Outcome,
) -> Result<(), AllocError>
    ensures { OnOk result
        (Adds out.old.items out.new.items (spec.closed_asked number (run_seen at.now) how)) }
{
    let stopped = at.run.stop && matches!(how, Outcome::Cancelled);
    add_stop(out, Member::Run(number), stopped)?;
    add_jobs(out, at, Sought::Counting(how))
}

/// Adds what a run that is Going still waits for.
fn add_going(out: &mut Vec<Question>, number: u64, at: &SeenRun) -> Result<(), AllocError>
    ensures { OnOk result
        (Adds out.old.items out.new.items (spec.going_asked number (run_seen at.now))) }
{
    add_stop(out, Member::Run(number), at.run.stop)?;
    add_jobs(out, at, Sought::Unended)
}

/// Adds behind whom a run or a leg waits, and who told it to stop, where it was told to.
fn add_waits(
    out: &mut Vec<Question>,
    holds: Member,
    who: Member,
    stop: bool,
) -> Result<(), AllocError>
    ensures { OnOk result
        (Adds out.old.items out.new.items (spec.about holds ∷ spec.stop_asked who stop)) }
{
    add(out, about(holds))?;
    add_stop(out, who, stop)
}

/// Adds what made a run so, by what became of it last.
fn add_run_fact(
    out: &mut Vec<Question>,
    number: u64,
    at: &SeenRun,
    fact: MemberFact,
) -> Result<(), AllocError>
    ensures { OnOk result
        (Adds out.old.items out.new.items (spec.run_fact_asked number (run_seen at.now) fact)) }
{
    match fact {
        MemberFact::Admitted => add_going(out, number, at),
        MemberFact::Follows(_) => add_going(out, number, at),
        MemberFact::Waits(holds) => add_waits(out, holds, Member::Run(number), at.run.stop),
        MemberFact::Closed(how) => add_closed(out, number, at, how),
        MemberFact::Displaced(_)
        | MemberFact::OwnRun
        | MemberFact::NoGroup(_)
        | MemberFact::Taken
        | MemberFact::Finished(_)
        | MemberFact::Stopped(_) => Ok(()),
    }
}

/// What became of a run last.
pub fn run_last(notes: Option<&RunNotes>) -> Option<MemberNote>
    ensures { result ≡ spec.run_last (option_copied notes.entry) }
{
    match notes {
        Some(notes) => notes.last,
        None => None,
    }
}

fn add_run(out: &mut Vec<Question>, account: &SeenAccount, number: u64) -> Result<(), AllocError>
    ensures { OnOk result (Adds out.old.items out.new.items
        (spec.run_asked (account_seen account.now) number
        (run_at account.now.plan.now account.now.board.now number))) }
{
    let Some(at) = find_run(account.plan, account.board, number as usize) else {
        return Ok(());
    };
    match run_last(item_at(&account.notes.runs, number as usize)) {
        Some(note) => add_run_fact(out, number, &at, note.fact),
        None => add_stop(out, Member::Run(number), at.run.stop),
    }
}

// ---- a job

/// Whether the job at a place of a run has ended.
fn has_ended_at(run: &Run, place: usize) -> bool
    ensures { result ≡ derived.holds_at (map (derived.job_has_ended run.now) run.now.jobs) place }
{
    match run.jobs.as_slice().get(place) {
        Some(job) => job_has_ended(run, job),
        None => false,
    }
}

/// Adds the needs of a job that have not ended.
fn add_needs(
    out: &mut Vec<Question>,
    first: u64,
    run: &Run,
    needs: &[u64],
) -> Result<(), AllocError>
    ensures { OnOk result
        (Adds out.old.items out.new.items (spec.needs_asked first run.now needs.now)) }
{
    for need in needs {
        if !has_ended_at(run, need.saturating_sub(first) as usize) {
            out.push(Question::Job(*need))?;
        }
    }
    Ok(())
}

/// The number of the first job of the run that a job is in.
fn first_number(at: &SeenJob) -> u64
    ensures { result ≡ contexts.first_number (job_seen at.now) }
{
    at.plan.number.saturating_sub(at.place.job as u64)
}

/// Adds what a job still waits for that was not judged.
fn add_unjudged(out: &mut Vec<Question>, at: &SeenJob) -> Result<(), AllocError>
    ensures { OnOk result (Adds out.old.items out.new.items
        (spec.job_state_asked (job_seen at.now) None JobState.Unjudged)) }
{
    match at.run.state {
        RunState::Going => add_needs(out, first_number(at), at.run, at.plan.needs.as_slice()),
        RunState::New | RunState::Waiting | RunState::Closed(_) => {
            add(out, Question::Run(at.place.run as u64))
        },
    }
}

/// Adds the legs of a job that are looked for, of which the first has this number.
fn add_legs(
    out: &mut Vec<Question>,
    first: u64,
    wanted: Sought,
    legs: &[Leg],
) -> Result<(), AllocError>
    ensures { OnOk result (Adds out.old.items out.new.items
        (spec.asked Question.Leg first (spec.leg_sought wanted) legs.now)) }
{
    let mut number = first;
    for leg in legs {
        if leg_sought(wanted, leg) {
            out.push(Question::Leg(number))?;
        }
        number = next_number(number)?;
    }
    Ok(())
}

/// The number of the first leg of a job.
fn first_leg(notes: Option<&JobNotes>) -> u64
    ensures { result ≡ spec.first_leg (option_copied notes.entry) }
{
    match notes {
        Some(notes) => notes.first_leg,
        None => 0,
    }
}

/// What became of a job.
pub fn job_last(notes: Option<&JobNotes>) -> Option<JobNote>
    ensures { result ≡ spec.job_last (option_copied notes.entry) }
{
    match notes {
        Some(notes) => notes.last,
        None => None,
    }
}

/// Adds jobs by their numbers.
fn add_numbered(out: &mut Vec<Question>, numbers: &[u64]) -> Result<(), AllocError>
    ensures { OnOk result
        (Adds out.old.items out.new.items (map Question.Job numbers.now)) }
{
    for number in numbers {
        out.push(Question::Job(*number))?;
    }
    Ok(())
}

/// Adds the ancestors of a job that had no success and are met first.
fn add_unsuccessful(
    alloc: Global,
    out: &mut Vec<Question>,
    first: u64,
    at: &SeenJob,
) -> Result<(), AllocError>
    ensures { OnOk result (Adds out.old.items out.new.items
        (spec.unsuccessful_asked first (job_seen at.now))) }
{
    let mut numbers = Vec::new(alloc);
    ancestors::add_unsuccessful(alloc, &mut numbers, first, at)?;
    add_numbered(out, numbers.as_slice())
}

/// Adds what made a job so that was shut.
fn add_shut(
    alloc: Global,
    out: &mut Vec<Question>,
    at: &SeenJob,
    note: Option<JobNote>,
) -> Result<(), AllocError>
    ensures { OnOk result (Adds out.old.items out.new.items
        (spec.shut_asked (contexts.first_number (job_seen at.now)) (job_seen at.now) note)) }
{
    let Some(note) = note else {
        return Ok(());
    };
    match note.fact {
        JobFact::RunStopped => add(out, Question::Stop(Member::Run(at.place.run as u64))),
        JobFact::Unsuccessful => add_unsuccessful(alloc, out, first_number(at), at),
        JobFact::Opened | JobFact::Untrue | JobFact::Faulted(_) => Ok(()),
    }
}

fn add_job(
    alloc: Global,
    out: &mut Vec<Question>,
    account: &SeenAccount,
    number: u64,
) -> Result<(), AllocError>
    ensures { OnOk result (Adds out.old.items out.new.items
        (spec.job_asked (account_seen account.now) number
        (job_at account.now.plan.now account.now.board.now number))) }
{
    let Some(at) = find_job(account.plan, account.board, number as usize) else {
        return Ok(());
    };
    let notes = item_at(&account.notes.jobs, number as usize);
    match at.job.state {
        JobState::Unjudged => add_unjudged(out, &at),
        JobState::Open => {
            let wanted = opened_sought(at.run, at.job);
            add_legs(out, first_leg(notes), wanted, at.job.legs.as_slice())
        },
        JobState::Shut(_) => add_shut(alloc, out, &at, job_last(notes)),
    }
}

// ---- a leg

/// Whether the job of a leg is open in a run that is Going.
fn is_in_open_job(at: &SeenLeg) -> bool
    ensures { result ≡ (derived.is_going at.now.run.now.state && derived.is_open at.now.job.now.state) }
{
    matches!(
        (at.run.state, at.job.state),
        (RunState::Going, JobState::Open)
    )
}

/// Adds why a leg is to stop, where it is.
fn add_stopping(
    alloc: Global,
    out: &mut Vec<Question>,
    number: u64,
    at: &SeenLeg,
) -> Result<(), AllocError>
    ensures { OnOk result
        (Adds out.old.items out.new.items (spec.stopping_asked number (leg_seen at.now))) }
{
    if is_stopping(alloc, at)? {
        return add_cause(out, at.place.run as u64, number, cause_of_stop(number, at));
    }
    Ok(())
}

/// Adds the legs that take all the slots of a leg's job, where they do.
fn add_slots(out: &mut Vec<Question>, number: u64, at: &SeenLeg) -> Result<(), AllocError>
    ensures { OnOk result
        (Adds out.old.items out.new.items (spec.slots_asked number (leg_seen at.now))) }
{
    if is_full(at.job_plan, at.job) {
        let first = number.saturating_sub(at.place.leg as u64);
        return add_legs(out, first, Sought::UnderWay, at.job.legs.as_slice());
    }
    Ok(())
}

/// Adds why a leg has not asked.
fn add_fresh(
    alloc: Global,
    out: &mut Vec<Question>,
    number: u64,
    at: &SeenLeg,
) -> Result<(), AllocError>
    ensures { OnOk result
        (Adds out.old.items out.new.items (spec.fresh_asked number (leg_seen at.now))) }
{
    if !is_in_open_job(at) {
        return add(out, Question::Job(at.job_plan.number));
    }
    add_stopping(alloc, out, number, at)?;
    add_slots(out, number, at)
}

/// Adds the first step that counts as a failure, if there is one.
fn add_failure(out: &mut Vec<Question>, leg: u64, steps: &[DoneStep]) -> Result<(), AllocError>
    ensures { OnOk result
        (Adds out.old.items out.new.items (spec.failure_asked leg steps.now)) }
{
    match first_failure(steps) {
        Some(step) => add(out, Question::Step { leg, step }),
        None => Ok(()),
    }
}

/// Adds what made a leg end so that was played to its end.
fn add_finished(
    out: &mut Vec<Question>,
    number: u64,
    at: &SeenLeg,
    how: Outcome,
) -> Result<(), AllocError>
    ensures { OnOk result
        (Adds out.old.items out.new.items (spec.finished_asked number (leg_seen at.now) how)) }
{
    match how {
        Outcome::Failure => add_failure(out, number, at.leg.steps.as_slice()),
        Outcome::Success | Outcome::Cancelled | Outcome::Skipped => Ok(()),
    }
}

fn is_in_call(state: LegState) -> bool
    ensures { result ≡ spec.is_in_call state }
{
    matches!(state, LegState::Running { in_call: true, .. })
}

/// Adds the step that is called, if one is.
fn add_call(out: &mut Vec<Question>, leg: u64, at: &Leg) -> Result<(), AllocError>
    ensures { OnOk result (Adds out.old.items out.new.items (spec.call_asked leg at.now)) }
{
    if is_in_call(at.state) {
        let step = at.steps.len() as u64;
        return add(out, Question::Step { leg, step });
    }
    Ok(())
}

/// Adds the step that a running leg calls, and who told the leg to stop, where it was told to.
fn add_taken(out: &mut Vec<Question>, leg: u64, at: &Leg) -> Result<(), AllocError>
    ensures { OnOk result (Adds out.old.items out.new.items (spec.taken_asked leg at.now)) }
{
    add_call(out, leg, at)?;
    add_stop(out, Member::Leg(leg), at.stop)
}

/// Adds what made a leg so, by what became of it last.
fn add_leg_fact(
    out: &mut Vec<Question>,
    number: u64,
    at: &SeenLeg,
    fact: MemberFact,
) -> Result<(), AllocError>
    ensures { OnOk result
        (Adds out.old.items out.new.items (spec.leg_fact_asked number (leg_seen at.now) fact)) }
{
    match fact {
        MemberFact::Waits(holds) => add_waits(out, holds, Member::Leg(number), at.leg.stop),
        MemberFact::Admitted => add_stop(out, Member::Leg(number), at.leg.stop),
        MemberFact::Follows(_) => add_stop(out, Member::Leg(number), at.leg.stop),
        MemberFact::Taken => add_taken(out, number, at.leg),
        MemberFact::Finished(how) => add_finished(out, number, at, how),
        MemberFact::Stopped(cause) => add_cause(out, at.place.run as u64, number, cause),
        MemberFact::Displaced(_)
        | MemberFact::OwnRun
        | MemberFact::NoGroup(_)
        | MemberFact::Closed(_) => Ok(()),
    }
}

/// What became of a leg last.
pub fn leg_last(notes: Option<&LegNotes>) -> Option<MemberNote>
    ensures { result ≡ spec.leg_last (option_copied notes.entry) }
{
    match notes {
        Some(notes) => notes.last,
        None => None,
    }
}

fn add_leg(
    alloc: Global,
    out: &mut Vec<Question>,
    account: &SeenAccount,
    number: u64,
) -> Result<(), AllocError>
    ensures { OnOk result (Adds out.old.items out.new.items
        (spec.leg_asked (account_seen account.now) number
        (leg_at account.now.plan.now account.now.board.now number))) }
{
    let Some(at) = find_leg(account.plan, account.board, number as usize) else {
        return Ok(());
    };
    match leg_last(item_at(&account.notes.legs, number as usize)) {
        Some(note) => add_leg_fact(out, number, &at, note.fact),
        None => add_fresh(alloc, out, number, &at),
    }
}

// ---- a step

/// Adds what made a step so that is done.
fn add_step_fact(
    out: &mut Vec<Question>,
    run: u64,
    leg: u64,
    fact: StepFact,
) -> Result<(), AllocError>
    ensures { OnOk result (Adds out.old.items out.new.items (spec.step_fact_asked run leg fact)) }
{
    match fact {
        StepFact::Stopping(cause) => add_cause(out, run, leg, cause),
        StepFact::AfterFailure(step) => add(out, Question::Step { leg, step }),
        StepFact::Exited(_)
        | StepFact::NotStarted
        | StepFact::BadOutput
        | StepFact::Untrue
        | StepFact::Faulted(_, _) => Ok(()),
    }
}

/// Adds the leg of a step that is neither done nor in its call.
fn add_undone(out: &mut Vec<Question>, leg: u64, step: u64, at: &SeenLeg) -> Result<(), AllocError>
    ensures { OnOk result
        (Adds out.old.items out.new.items (spec.undone_asked leg step (leg_seen at.now))) }
{
    if is_in_call(at.leg.state) && step == at.leg.steps.len() as u64 {
        return Ok(());
    }
    add(out, Question::Leg(leg))
}

/// What became of a step.
pub fn step_last(notes: Option<&LegNotes>, step: usize) -> Option<StepNote>
    ensures { result ≡ spec.step_last (option_copied notes.entry) step }
{
    match notes {
        Some(notes) => notes.steps.as_slice().get(step).copied(),
        None => None,
    }
}

fn add_step(
    out: &mut Vec<Question>,
    account: &SeenAccount,
    leg: u64,
    step: u64,
) -> Result<(), AllocError>
    ensures { OnOk result (Adds out.old.items out.new.items
        (spec.step_found_asked (account_seen account.now) leg step
        (leg_at account.now.plan.now account.now.board.now leg))) }
{
    let Some(at) = find_leg(account.plan, account.board, leg as usize) else {
        return Ok(());
    };
    match step_last(item_at(&account.notes.legs, leg as usize), step as usize) {
        Some(note) => add_step_fact(out, at.place.run as u64, leg, note.fact),
        None => add_undone(out, leg, step, &at),
    }
}

// ---- all

/// Adds what made a fact so.
pub fn add_causes(
    alloc: Global,
    out: &mut Vec<Question>,
    account: &SeenAccount,
    question: Question,
) -> Result<(), AllocError>
    ensures { OnOk result
        (Adds out.old.items out.new.items (spec.causes (account_seen account.now) question)) }
{
    match question {
        Question::Run(number) => add_run(out, account, number),
        Question::Job(number) => add_job(alloc, out, account, number),
        Question::Leg(number) => add_leg(alloc, out, account, number),
        Question::Step { leg, step } => add_step(out, account, leg, step),
        Question::Stop(_) => Ok(()),
    }
}
