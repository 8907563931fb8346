//! What is noted of the entries of a record.

ghost use Rattle.std.specs.Prelude.{◌≡◌, ◌&&◌, ◌++◌, IfOk, OnOk};
ghost use Rattle.std.specs.List.{flat_map};
ghost use Rattle.board_decisions.specs.Derived as derived;
ghost use Rattle.board_timeline.specs.Noted as spec;
ghost use Rattle.board_timeline.specs.Phases as phases;

use crate::phase::{is_over, job_phase, leg_phase, run_phase};
use crate::row::{Row, add_rows, displace, see, tell};
use board_decisions::derived::is_ended;
use board_decisions::place::{find_job, find_leg};
use flow_model::{Board, Event, Job, JobPlan, Leg, Member, Plan, Reply, RunPlan, Sequence};
use std::alloc::{AllocError, Global};

/// The rows of all runs, jobs and legs, each in the order of its numbers.
#[derive(Drop)]
pub struct Track {
    pub runs: Sequence<Row>,
    pub jobs: Sequence<Row>,
    pub legs: Sequence<Row>,
}

/// What an event is about.
#[derive(Clone, Copy)]
pub(crate) enum About {
    Run(u64),
    Job(u64),
    Leg(u64),
    /// The run is told to stop.
    Stop(u64),
}

/// What an event is about.
pub(crate) fn touched(event: &Event) -> About
    ensures { result ≡ spec.touched event.now }
{
    match event {
        Event::Open { run } => About::Run(*run),
        Event::Judge { job } => About::Job(*job),
        Event::Ask { leg } => About::Leg(*leg),
        Event::Drop { leg } => About::Leg(*leg),
        Event::Take { leg } => About::Leg(*leg),
        Event::Begin { leg } => About::Leg(*leg),
        Event::End { leg, .. } => About::Leg(*leg),
        Event::Finish { leg } => About::Leg(*leg),
        Event::Close { run } => About::Run(*run),
        Event::Cancel { run } => About::Stop(*run),
    }
}

/// Adds new rows for jobs.
fn add_job_rows(alloc: Global, rows: &mut Vec<Row>, runs: &[RunPlan]) -> Result<(), AllocError>
    ensures { OnOk result (rows.new.items ≡ rows.old.items ++ flat_map spec.job_rows runs.now) }
{
    for run in runs {
        add_rows(alloc, rows, run.jobs.len())?;
    }
    Ok(())
}

/// Adds new rows for the legs of jobs.
fn add_legs_of(alloc: Global, rows: &mut Vec<Row>, jobs: &[JobPlan]) -> Result<(), AllocError>
    ensures { OnOk result (rows.new.items ≡ rows.old.items ++ flat_map spec.legs_of jobs.now) }
{
    for job in jobs {
        add_rows(alloc, rows, job.legs.len())?;
    }
    Ok(())
}

/// Adds new rows for the legs of runs.
fn add_leg_rows(alloc: Global, rows: &mut Vec<Row>, runs: &[RunPlan]) -> Result<(), AllocError>
    ensures { OnOk result (rows.new.items ≡ rows.old.items ++ flat_map spec.leg_rows runs.now) }
{
    for run in runs {
        add_legs_of(alloc, rows, run.jobs.as_slice())?;
    }
    Ok(())
}

/// The rows of a plan on whose board all is new.
pub fn new_track(alloc: Global, plan: &Plan) -> Result<Track, AllocError>
    ensures { IfOk result (λ track. track ≡ spec.new_track plan.now) }
{
    let mut runs = Vec::new(alloc);
    add_rows(alloc, &mut runs, plan.runs.len())?;
    let mut jobs = Vec::new(alloc);
    add_job_rows(alloc, &mut jobs, plan.runs.as_slice())?;
    let mut legs = Vec::new(alloc);
    add_leg_rows(alloc, &mut legs, plan.runs.as_slice())?;
    Ok(Track {
        runs: Sequence::new(runs),
        jobs: Sequence::new(jobs),
        legs: Sequence::new(legs),
    })
}

/// Notes how a run stands.
fn look_at_run(track: &mut Track, board: &Board, line: u64, run: u64) -> Result<(), AllocError>
    ensures { OnOk result (track.new ≡ spec.run_noted board.now line run track.old) }
{
    match board.runs.as_slice().get(run as usize) {
        Some(seen) => see(&mut track.runs, run, line, run_phase(seen.state)),
        None => Ok(()),
    }
}

/// Notes how a job stands.
fn look_at_job(
    track: &mut Track,
    plan: &Plan,
    board: &Board,
    line: u64,
    job: u64,
) -> Result<(), AllocError>
    ensures { OnOk result (track.new ≡ spec.job_noted plan.now board.now line job track.old) }
{
    match find_job(plan, board, job as usize) {
        Some(seen) => see(&mut track.jobs, job, line, job_phase(seen.job)),
        None => Ok(()),
    }
}

/// Whether a leg has ended, and all legs of its job with it.
fn ends_job(leg: &Leg, job: &Job) -> bool
    ensures { result ≡ (derived.is_ended leg.now.state && phases.is_over (phases.job_phase job.now)) }
{
    is_ended(leg.state) && is_over(job_phase(job))
}

/// Notes how a leg stands, and how its job does where that has ended with it.
fn look_at_leg(
    track: &mut Track,
    plan: &Plan,
    board: &Board,
    line: u64,
    leg: u64,
) -> Result<(), AllocError>
    ensures { OnOk result (track.new ≡ spec.leg_noted plan.now board.now line leg track.old) }
{
    match find_leg(plan, board, leg as usize) {
        Some(seen) => {
            see(&mut track.legs, leg, line, leg_phase(seen.leg))?;
            if !ends_job(seen.leg, seen.job) {
                return Ok(());
            }
            see(
                &mut track.jobs,
                seen.job_plan.number,
                line,
                job_phase(seen.job),
            )
        },
        None => Ok(()),
    }
}

/// Notes what an event is about.
fn look(
    track: &mut Track,
    plan: &Plan,
    board: &Board,
    line: u64,
    about: About,
) -> Result<(), AllocError>
    ensures { OnOk result (track.new ≡ spec.about_noted plan.now board.now line about track.old) }
{
    match about {
        About::Run(run) => look_at_run(track, board, line, run),
        About::Job(job) => look_at_job(track, plan, board, line, job),
        About::Leg(leg) => look_at_leg(track, plan, board, line, leg),
        About::Stop(run) => {
            tell(&mut track.runs, run, line);
            Ok(())
        },
    }
}

/// Notes how a member stands that a reply names.
fn look_at_member(
    track: &mut Track,
    plan: &Plan,
    board: &Board,
    line: u64,
    member: Option<Member>,
) -> Result<(), AllocError>
    ensures { OnOk result (track.new ≡ spec.member_noted plan.now board.now line member track.old) }
{
    match member {
        Some(Member::Run(run)) => look_at_run(track, board, line, run),
        Some(Member::Leg(leg)) => look_at_leg(track, plan, board, line, leg),
        None => Ok(()),
    }
}

/// Notes that a member was told to stop.
fn tell_member(track: &mut Track, line: u64, member: Option<Member>)
    ensures { track.new ≡ spec.member_told line member track.old }
{
    match member {
        Some(Member::Run(run)) => tell(&mut track.runs, run, line),
        Some(Member::Leg(leg)) => tell(&mut track.legs, leg, line),
        None => {},
    }
}

/// Notes that a member was displaced.
fn displace_member(track: &mut Track, line: u64, member: Option<Member>)
    ensures { track.new ≡ spec.member_displaced line member track.old }
{
    match member {
        Some(Member::Run(run)) => displace(&mut track.runs, run, line),
        Some(Member::Leg(leg)) => displace(&mut track.legs, leg, line),
        None => {},
    }
}

/// What an entry did: what its event is about, and the reply to it.
#[derive(Drop)]
pub(crate) struct Deed {
    pub(crate) about: About,
    pub(crate) reply: Reply,
}

/// Notes what the entry of a line did, by the board after it.
pub(crate) fn note(
    track: &mut Track,
    plan: &Plan,
    board: &Board,
    line: u64,
    deed: &Deed,
) -> Result<(), AllocError>
    ensures { OnOk result
        (track.new ≡ spec.noted plan.now board.now line deed.now.about deed.now.reply track.old) }
{
    let reply = &deed.reply;
    look(track, plan, board, line, deed.about)?;
    look_at_member(track, plan, board, line, reply.admitted)?;
    look_at_member(track, plan, board, line, reply.displaced)?;
    displace_member(track, line, reply.displaced);
    tell_member(track, line, reply.stopped);
    Ok(())
}
