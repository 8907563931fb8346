//! What is noted of each run, job and leg: what became of it last, and at which line of the record.

ghost use Rattle.std.specs.Prelude.{◌≡◌, [], IfOk, OnOk, Some};
ghost use Rattle.why_facts.specs.Notes as spec;

use crate::fact::{Change, JobFact, MemberFact, StepFact, Teller};
use flow_model::{Combo, JobPlan, Member, Plan, RunPlan, Sequence};
use std::alloc::{AllocError, Global};

/// What became of a run or a leg at a line of the record.
#[derive(Clone, Copy)]
pub struct MemberNote {
    pub line: u64,
    pub fact: MemberFact,
}

/// What became of a job at a line.
#[derive(Clone, Copy)]
pub struct JobNote {
    pub line: u64,
    pub fact: JobFact,
}

/// What became of a step at a line.
#[derive(Clone, Copy)]
pub struct StepNote {
    pub line: u64,
    pub fact: StepFact,
}

/// Who told a run or a leg to stop, and at which line.
#[derive(Clone, Copy)]
pub struct StopNote {
    pub line: u64,
    pub teller: Teller,
}

/// What is noted of a run.
#[derive(Clone, Copy)]
pub struct RunNotes {
    /// What became of it last.
    pub last: Option<MemberNote>,
    /// Who told it to stop first.
    pub stop: Option<StopNote>,
}

/// What is noted of a job.
#[derive(Clone, Copy)]
pub struct JobNotes {
    pub last: Option<JobNote>,
    /// The number of its first leg.
    pub first_leg: u64,
}

/// What is noted of a leg.
#[derive(Drop)]
pub struct LegNotes {
    /// What became of it last.
    pub last: Option<MemberNote>,
    /// Who told it to stop first.
    pub stop: Option<StopNote>,
    /// The line at which its last call began.
    pub call: Option<u64>,
    /// What became of its steps that are done.
    pub steps: Sequence<StepNote>,
}

/// What is noted of all that a plan has, by their numbers.
#[derive(Drop)]
pub struct Notes {
    pub runs: Sequence<RunNotes>,
    pub jobs: Sequence<JobNotes>,
    pub legs: Sequence<LegNotes>,
}

// ---- at the start

/// Adds legs of which nothing is noted.
fn add_legs(alloc: Global, notes: &mut Notes, legs: &[Combo]) -> Result<(), AllocError>
    ensures { OnOk result (notes.new ≡ spec.legs_added notes.old legs.now) }
{
    for leg in legs {
        let _combo = leg;
        notes.legs.push(LegNotes {
            last: None,
            stop: None,
            call: None,
            steps: Sequence::empty(alloc),
        })?;
    }
    Ok(())
}

/// Adds a job, and its legs.
fn add_job(alloc: Global, notes: &mut Notes, job: &JobPlan) -> Result<(), AllocError>
    ensures { OnOk result (notes.new ≡ spec.job_added notes.old job.now) }
{
    let first_leg = notes.legs.len() as u64;
    notes.jobs.push(JobNotes {
        last: None,
        first_leg,
    })?;
    add_legs(alloc, notes, job.legs.as_slice())
}

/// Adds jobs.
fn add_jobs(alloc: Global, notes: &mut Notes, jobs: &[JobPlan]) -> Result<(), AllocError>
    ensures { OnOk result (notes.new ≡ spec.jobs_added notes.old jobs.now) }
{
    for job in jobs {
        add_job(alloc, notes, job)?;
    }
    Ok(())
}

/// Adds a run, and its jobs.
fn add_run(alloc: Global, notes: &mut Notes, run: &RunPlan) -> Result<(), AllocError>
    ensures { OnOk result (notes.new ≡ spec.run_added notes.old run.now) }
{
    notes.runs.push(RunNotes {
        last: None,
        stop: None,
    })?;
    add_jobs(alloc, notes, run.jobs.as_slice())
}

/// Adds runs.
fn add_runs(alloc: Global, notes: &mut Notes, runs: &[RunPlan]) -> Result<(), AllocError>
    ensures { OnOk result (notes.new ≡ spec.runs_added notes.old runs.now) }
{
    for run in runs {
        add_run(alloc, notes, run)?;
    }
    Ok(())
}

impl Notes {
    /// Nothing is noted of a plan.
    pub fn new(alloc: Global, plan: &Plan) -> Result<Notes, AllocError>
        ensures { IfOk result (λ notes. notes ≡ spec.new_notes plan.now) }
    {
        let mut notes = Notes {
            runs: Sequence::empty(alloc),
            jobs: Sequence::empty(alloc),
            legs: Sequence::empty(alloc),
        };
        add_runs(alloc, &mut notes, plan.runs.as_slice())?;
        Ok(notes)
    }
}

// ---- changes

/// Notes what became of a run or a leg.
fn note_member(notes: &mut Notes, who: Member, note: MemberNote)
    ensures { notes.new ≡ spec.member_noted notes.old who note }
{
    match who {
        Member::Run(number) => {
            if let Some(run) = notes.runs.get_mut(number as usize) {
                run.last = Some(note);
            }
        },
        Member::Leg(number) => {
            if let Some(leg) = notes.legs.get_mut(number as usize) {
                leg.last = Some(note);
            }
        },
    }
}

/// Notes what became of a job.
fn note_job(notes: &mut Notes, number: u64, note: JobNote)
    ensures { notes.new ≡ spec.job_noted notes.old number note }
{
    if let Some(job) = notes.jobs.get_mut(number as usize) {
        job.last = Some(note);
    }
}

/// Notes that the next step of a leg was called.
fn note_call(notes: &mut Notes, number: u64, line: u64)
    ensures { notes.new ≡ spec.call_noted notes.old number line }
{
    if let Some(leg) = notes.legs.get_mut(number as usize) {
        leg.call = Some(line);
    }
}

/// Notes what became of the next step of a leg.
fn note_step(notes: &mut Notes, number: u64, note: StepNote) -> Result<(), AllocError>
    ensures { OnOk result (notes.new ≡ spec.step_noted notes.old number note) }
{
    if let Some(leg) = notes.legs.get_mut(number as usize) {
        leg.steps.push(note)?;
    }
    Ok(())
}

/// The first of two that told to stop.
fn first_of(stop: Option<StopNote>, note: StopNote) -> Option<StopNote>
    ensures { result ≡ spec.first_of stop note }
{
    match stop {
        Some(first) => Some(first),
        None => Some(note),
    }
}

/// Notes who told a run or a leg to stop, unless somebody had.
fn note_stop(notes: &mut Notes, who: Member, note: StopNote)
    ensures { notes.new ≡ spec.stop_noted notes.old who note }
{
    match who {
        Member::Run(number) => {
            if let Some(run) = notes.runs.get_mut(number as usize) {
                run.stop = first_of(run.stop, note);
            }
        },
        Member::Leg(number) => {
            if let Some(leg) = notes.legs.get_mut(number as usize) {
                leg.stop = first_of(leg.stop, note);
            }
        },
    }
}

/// Notes a change at a line.
fn note_change(notes: &mut Notes, line: u64, change: Change) -> Result<(), AllocError>
    ensures { OnOk result (notes.new ≡ spec.noted line notes.old change) }
{
    match change {
        Change::Member { who, fact } => note_member(notes, who, MemberNote { line, fact }),
        Change::Job { job, fact } => note_job(notes, job, JobNote { line, fact }),
        Change::Called { leg } => note_call(notes, leg, line),
        Change::Step { leg, fact } => return note_step(notes, leg, StepNote { line, fact }),
        Change::Stop { who, teller } => note_stop(notes, who, StopNote { line, teller }),
    }
    Ok(())
}

/// Notes changes at a line, one after the other.
pub fn note_changes(notes: &mut Notes, line: u64, changes: &[Change]) -> Result<(), AllocError>
    ensures { OnOk result (notes.new ≡ spec.all_noted line notes.old changes.now) }
{
    for change in changes {
        note_change(notes, line, *change)?;
    }
    Ok(())
}
