//! How runs, jobs, legs and steps are, as data.

ghost use Rattle.std.specs.Prelude.{◌≡◌};
ghost use Rattle.std.specs.Option.{option_copied};
ghost use Rattle.board_decisions.specs.Place.{job_at, leg_at, run_at};
ghost use Rattle.board_decisions.specs.Seen.{job_seen, leg_seen};
ghost use Rattle.why_causes.specs.Causes as causes;
ghost use Rattle.why_notes.specs.Account.{account_seen};
ghost use Rattle.command_why.specs.Summary as spec;

use crate::lines::stop_of;
use crate::steps::{call_line, is_called};
use board_decisions::derived::{job_has_ended, job_result};
use board_decisions::place::{SeenJob, SeenLeg, find_job, find_leg, find_run, item_at};
use flow_model::{DoneStep, Job, JobState, LegState, Outcome, Run, RunState};
use why_causes::causes::{job_last, leg_last, run_last, step_last};
use why_causes::question::Question;
use why_facts::fact::{JobFact, MemberFact, StepFact, Teller};
use why_facts::notes::{JobNote, MemberNote, StepNote, StopNote};
use why_notes::account::SeenAccount;

/// How far a run, a job, a leg or a step is.
#[derive(Clone, Copy)]
pub(crate) enum Phase {
    /// Nothing of it has begun.
    Queued,
    /// It waits for its group.
    Waiting,
    InProgress,
    /// It has ended with this result.
    Completed(Outcome),
    /// It has no phase.
    Unknown,
}

/// What made it so.
#[derive(Clone, Copy)]
pub(crate) enum Reason {
    /// Nothing is noted.
    Nothing,
    Member(MemberFact),
    Job(JobFact),
    /// All legs of the job have ended.
    LegsEnded,
    Step(StepFact),
    Stop(Teller),
}

/// How a run, a job, a leg or a step is.
#[derive(Clone, Copy)]
pub(crate) struct Summary {
    pub(crate) phase: Phase,
    /// Whether its failure counts as a success.
    pub(crate) tolerated: bool,
    /// The line at which it became so, if that is noted.
    pub(crate) line: Option<u64>,
    pub(crate) reason: Reason,
}

/// A phase of which nothing more is noted.
fn bare(phase: Phase) -> Summary
    ensures { result ≡ spec.bare phase }
{
    Summary {
        phase,
        tolerated: false,
        line: None,
        reason: Reason::Nothing,
    }
}

// ---- runs

fn run_phase(state: RunState) -> Phase
    ensures { result ≡ spec.run_phase state }
{
    match state {
        RunState::New => Phase::Queued,
        RunState::Waiting => Phase::Waiting,
        RunState::Going => Phase::InProgress,
        RunState::Closed(how) => Phase::Completed(how),
    }
}

/// A run or a leg, by what became of it last.
fn member_summary(phase: Phase, tolerated: bool, note: Option<MemberNote>) -> Summary
    ensures { result ≡ spec.member_summary phase tolerated note }
{
    match note {
        Some(note) => Summary {
            phase,
            tolerated,
            line: Some(note.line),
            reason: Reason::Member(note.fact),
        },
        None => Summary {
            phase,
            tolerated,
            line: None,
            reason: Reason::Nothing,
        },
    }
}

fn run_summary(account: &SeenAccount, number: u64) -> Summary
    ensures { result ≡ spec.run_summary (account_seen account.now) number
        (run_at account.now.plan.now account.now.board.now number) }
{
    match find_run(account.plan, account.board, number as usize) {
        Some(at) => {
            let last = run_last(item_at(&account.notes.runs, number as usize));
            member_summary(run_phase(at.run.state), false, last)
        },
        None => bare(Phase::Unknown),
    }
}

// ---- jobs

/// A job whose legs have not all ended.
fn open_phase(state: JobState) -> Phase
    ensures { result ≡ spec.open_phase state }
{
    match state {
        JobState::Unjudged => Phase::Queued,
        JobState::Open => Phase::InProgress,
        JobState::Shut(how) => Phase::Completed(how),
    }
}

fn job_phase(run: &Run, job: &Job) -> Phase
    ensures { result ≡ spec.job_phase run.now job.now }
{
    if job_has_ended(run, job) {
        return Phase::Completed(job_result(run, job));
    }
    open_phase(job.state)
}

/// A job by what became of it.
fn job_noted(phase: Phase, note: Option<JobNote>) -> Summary
    ensures { result ≡ spec.job_noted phase note }
{
    match note {
        Some(note) => Summary {
            phase,
            tolerated: false,
            line: Some(note.line),
            reason: Reason::Job(note.fact),
        },
        None => bare(phase),
    }
}

/// A job of which that is noted; the legs of one that is open made its result.
fn job_found(at: &SeenJob, note: Option<JobNote>) -> Summary
    ensures { result ≡ spec.job_found (job_seen at.now) note }
{
    let phase = job_phase(at.run, at.job);
    match at.job.state {
        JobState::Unjudged => job_noted(phase, note),
        JobState::Open => {
            if job_has_ended(at.run, at.job) {
                return Summary {
                    phase,
                    tolerated: false,
                    line: None,
                    reason: Reason::LegsEnded,
                };
            }
            job_noted(phase, note)
        },
        JobState::Shut(_) => job_noted(phase, note),
    }
}

fn job_summary(account: &SeenAccount, number: u64) -> Summary
    ensures { result ≡ spec.job_summary (account_seen account.now) number
        (job_at account.now.plan.now account.now.board.now number) }
{
    match find_job(account.plan, account.board, number as usize) {
        Some(at) => {
            let last = job_last(item_at(&account.notes.jobs, number as usize));
            job_found(&at, last)
        },
        None => bare(Phase::Unknown),
    }
}

// ---- legs

/// The phase of a leg; one that never asked ends with its job.
fn leg_phase(at: &SeenLeg) -> Phase
    ensures { result ≡ spec.leg_phase (leg_seen at.now) }
{
    match at.leg.state {
        LegState::Fresh => {
            if job_has_ended(at.run, at.job) {
                return Phase::Completed(job_result(at.run, at.job));
            }
            Phase::Queued
        },
        LegState::Waiting => Phase::Waiting,
        LegState::Admitted => Phase::Queued,
        LegState::Running { .. } => Phase::InProgress,
        LegState::Ended { result: how, .. } => Phase::Completed(how),
    }
}

/// Whether a leg ended with a failure that is tolerated.
fn was_tolerated(state: LegState) -> bool
    ensures { result ≡ causes.was_tolerated state }
{
    matches!(
        state,
        LegState::Ended {
            tolerated: true,
            ..
        }
    )
}

fn leg_summary(account: &SeenAccount, number: u64) -> Summary
    ensures { result ≡ spec.leg_summary (account_seen account.now) number
        (leg_at account.now.plan.now account.now.board.now number) }
{
    match find_leg(account.plan, account.board, number as usize) {
        Some(at) => {
            let last = leg_last(item_at(&account.notes.legs, number as usize));
            member_summary(leg_phase(&at), was_tolerated(at.leg.state), last)
        },
        None => bare(Phase::Unknown),
    }
}

// ---- steps

/// The phase of a step that is not done, by that of its leg.
fn waiting_phase(leg: Phase) -> Phase
    ensures { result ≡ spec.waiting_phase leg }
{
    match leg {
        Phase::Queued | Phase::Waiting | Phase::InProgress => Phase::Queued,
        Phase::Completed(_) => Phase::Completed(Outcome::Skipped),
        Phase::Unknown => Phase::Unknown,
    }
}

/// A step that is not done, which is called or not.
fn undone_summary(called: bool, leg: Phase, call: Option<u64>) -> Summary
    ensures { result ≡ spec.undone_summary called leg call }
{
    if called {
        return Summary {
            phase: Phase::InProgress,
            tolerated: false,
            line: call,
            reason: Reason::Nothing,
        };
    }
    bare(waiting_phase(leg))
}

/// The outcome of a step that is done.
fn done_phase(done: Option<&DoneStep>) -> Phase
    ensures { result ≡ spec.done_phase (option_copied done.entry) }
{
    match done {
        Some(done) => Phase::Completed(done.outcome),
        None => Phase::Unknown,
    }
}

/// Whether a step failed, and that counts as a success.
fn is_passed(done: Option<&DoneStep>) -> bool
    ensures { result ≡ spec.is_passed (option_copied done.entry) }
{
    match done {
        Some(done) => {
            matches!(done.outcome, Outcome::Failure) && matches!(done.conclusion, Outcome::Success)
        },
        None => false,
    }
}

/// A step by what became of it.
fn step_noted(at: &SeenLeg, step: u64, call: Option<u64>, note: Option<StepNote>) -> Summary
    ensures { result ≡ spec.step_noted (leg_seen at.now) step call note }
{
    match note {
        Some(note) => Summary {
            phase: done_phase(item_at(&at.leg.steps, step as usize)),
            tolerated: is_passed(item_at(&at.leg.steps, step as usize)),
            line: Some(note.line),
            reason: Reason::Step(note.fact),
        },
        None => undone_summary(is_called(step, at.leg), leg_phase(at), call),
    }
}

fn step_summary(account: &SeenAccount, leg: u64, step: u64) -> Summary
    ensures { result ≡ spec.step_summary (account_seen account.now) leg step
        (leg_at account.now.plan.now account.now.board.now leg) }
{
    match find_leg(account.plan, account.board, leg as usize) {
        Some(at) => {
            let notes = item_at(&account.notes.legs, leg as usize);
            step_noted(&at, step, call_line(notes), step_last(notes, step as usize))
        },
        None => bare(Phase::Unknown),
    }
}

// ---- all

/// That a run or a leg was told to stop.
fn stop_summary(note: Option<StopNote>) -> Summary
    ensures { result ≡ spec.stop_summary note }
{
    match note {
        Some(note) => Summary {
            phase: Phase::Unknown,
            tolerated: false,
            line: Some(note.line),
            reason: Reason::Stop(note.teller),
        },
        None => bare(Phase::Unknown),
    }
}

/// How all that may be asked about is.
pub(crate) fn summarize(account: &SeenAccount, question: Question) -> Summary
    ensures { result ≡ spec.summary (account_seen account.now) question }
{
    match question {
        Question::Run(number) => run_summary(account, number),
        Question::Job(number) => job_summary(account, number),
        Question::Leg(number) => leg_summary(account, number),
        Question::Step { leg, step } => step_summary(account, leg, step),
        Question::Stop(who) => stop_summary(stop_of(account, who)),
    }
}
