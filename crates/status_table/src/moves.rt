//! What a clerk may do on a board: those of its events that
//! the table accepts, found by the tests that the rows make.

ghost use Rattle.std.specs.Prelude.{◌≡◌, ◌≤◌, ◌++◌, IfOk, filter, length, sum_by};
ghost use Rattle.flow_model.specs.Numbers.{board_jobs, board_legs};
ghost use Rattle.flow_model.specs.declared.event.Event.TheVariants as event;
ghost use Rattle.status_table.specs.Kinds as spec;
ghost use Rattle.status_table.specs.Moves as rule;

use crate::events::{may_ask, may_drop};
use board_decisions::decisions::is_stopping;
use board_decisions::derived::{is_full, jobs_have_ended, needs_have_ended};
use board_decisions::place::{find_job, find_leg, find_run};
use flow_model::{Board, Event, Job, JobState, Plan, Run, RunState};
use std::alloc::{AllocError, Global};

/// The kinds of a clerk's events.
#[derive(Clone, Copy)]
pub enum MoveKind {
    Close,
    Open,
    Judge,
    Drop,
    Ask,
}

/// The event of a kind with a number.
pub fn event_of(kind: MoveKind, number: u64) -> Event
    ensures { result ≡ spec.event_of kind number }
{
    match kind {
        MoveKind::Close => Event::Close { run: number },
        MoveKind::Open => Event::Open { run: number },
        MoveKind::Judge => Event::Judge { job: number },
        MoveKind::Drop => Event::Drop { leg: number },
        MoveKind::Ask => Event::Ask { leg: number },
    }
}

/// Whether a run may be closed.
fn closes(plan: &Plan, board: &Board, number: u64) -> bool
    ensures { result ≡ rule.accepts plan.now board.now (event.Close number) }
{
    let Some(at) = find_run(plan, board, number as usize) else {
        return false;
    };
    match at.run.state {
        RunState::New => at.run.stop,
        RunState::Waiting => at.run.stop,
        RunState::Going => jobs_have_ended(at.run),
        RunState::Closed(_) => false,
    }
}

/// Whether a run may be opened.
#[tactic(auto, using(crate::proofs::Accepting::run_enters_accepted))]
pub fn opens(plan: &Plan, board: &Board, number: u64) -> bool
    ensures { result ≡ rule.accepts plan.now board.now (event.Open number) }
{
    let Some(at) = find_run(plan, board, number as usize) else {
        return false;
    };
    match at.run.state {
        RunState::New => !at.run.stop,
        RunState::Waiting => false,
        RunState::Going => false,
        RunState::Closed(_) => false,
    }
}

/// Whether a job may be judged.
fn judges(plan: &Plan, board: &Board, number: u64) -> bool
    ensures { result ≡ rule.accepts plan.now board.now (event.Judge number) }
{
    let Some(at) = find_job(plan, board, number as usize) else {
        return false;
    };
    match (at.run.state, at.job.state) {
        (RunState::Going, JobState::Unjudged) => {
            let first = number.saturating_sub(at.place.job as u64);
            needs_have_ended(first, at.run, at.plan)
        },
        (RunState::Going, JobState::Open) => false,
        (RunState::Going, JobState::Shut(_)) => false,
        (RunState::New, _) => false,
        (RunState::Waiting, _) => false,
        (RunState::Closed(_), _) => false,
    }
}

/// Whether a leg may be dropped.
fn drops(alloc: Global, plan: &Plan, board: &Board, number: u64) -> Result<bool, AllocError>
    ensures { IfOk result (λ yes. yes ≡ rule.accepts plan.now board.now (event.Drop number)) }
{
    let Some(at) = find_leg(plan, board, number as usize) else {
        return Ok(false);
    };
    if !may_drop(&at) {
        return Ok(false);
    }
    is_stopping(alloc, &at)
}

/// Whether a leg may ask.
#[tactic(auto, using(crate::proofs::Accepting::leg_enters_accepted))]
fn asks(alloc: Global, plan: &Plan, board: &Board, number: u64) -> Result<bool, AllocError>
    ensures { IfOk result (λ yes. yes ≡ rule.accepts plan.now board.now (event.Ask number)) }
{
    let Some(at) = find_leg(plan, board, number as usize) else {
        return Ok(false);
    };
    if !may_ask(&at) || is_full(at.job_plan, at.job) {
        return Ok(false);
    }
    let stops = is_stopping(alloc, &at)?;
    Ok(!stops)
}

/// Whether the table accepts a clerk's event.
fn accepts(
    alloc: Global,
    plan: &Plan,
    board: &Board,
    kind: MoveKind,
    number: u64,
) -> Result<bool, AllocError>
    ensures { IfOk result
        (λ yes. yes ≡ rule.accepts plan.now board.now (spec.event_of kind number)) }
{
    match kind {
        MoveKind::Close => Ok(closes(plan, board, number)),
        MoveKind::Open => Ok(opens(plan, board, number)),
        MoveKind::Judge => Ok(judges(plan, board, number)),
        MoveKind::Drop => drops(alloc, plan, board, number),
        MoveKind::Ask => asks(alloc, plan, board, number),
    }
}

/// The events of a kind with the numbers below a count.
#[derive(Clone, Copy)]
struct Candidates {
    kind: MoveKind,
    count: usize,
}

/// Those of some events that the table accepts, by ascending number, after others.
#[tactic(auto, using(crate::proofs::Accepting::one_more, crate::proofs::Accepting::none_more))]
fn add_moves(
    alloc: Global,
    plan: &Plan,
    board: &Board,
    candidates: Candidates,
    events: Vec<Event>,
) -> Result<Vec<Event>, AllocError>
    ensures { IfOk result (λ all. all.items ≡ events.items ++ filter
        (rule.accepts plan.now board.now) (spec.events_of candidates.kind candidates.count)) }
{
    let mut all = events;
    for number in 0..candidates.count {
        if accepts(alloc, plan, board, candidates.kind, number as u64)? {
            all.push(event_of(candidates.kind, number as u64))?;
        }
    }
    Ok(all)
}

/// How many jobs some runs have.
#[tactic(auto, using(crate::proofs::Accepting::first_within))]
pub fn count_jobs(runs: &[Run]) -> usize
    requires { sum_by (λ run. length run.jobs) runs.now ≤ 4096 }
    ensures { result ≡ sum_by (λ run. length run.jobs) runs.now }
{
    let mut count = 0;
    for run in runs {
        count += run.jobs.len();
    }
    count
}

/// How many legs some jobs have.
#[tactic(auto, using(crate::proofs::Accepting::first_within))]
pub fn count_legs_of(jobs: &[Job]) -> usize
    requires { sum_by (λ job. length job.legs) jobs.now ≤ 4096 }
    ensures { result ≡ sum_by (λ job. length job.legs) jobs.now }
{
    let mut count = 0;
    for job in jobs {
        count += job.legs.len();
    }
    count
}

/// How many legs some runs have.
#[tactic(auto, using(crate::proofs::Accepting::first_within))]
pub fn count_legs(runs: &[Run]) -> usize
    requires { sum_by (λ run. sum_by (λ job. length job.legs) run.jobs) runs.now ≤ 4096 }
    ensures { result ≡ sum_by (λ run. sum_by (λ job. length job.legs) run.jobs) runs.now }
{
    let mut count = 0;
    for run in runs {
        count += count_legs_of(run.jobs.as_slice());
    }
    count
}

/// The clerk's events that the table accepts on a board.
pub(crate) fn find_moves(
    alloc: Global,
    plan: &Plan,
    board: &Board,
) -> Result<Vec<Event>, AllocError>
    requires jobs { length (board_jobs board.now) ≤ 4096 }
    requires legs { length (board_legs board.now) ≤ 4096 }
    ensures { IfOk result (λ all. all.items ≡ rule.moves plan.now board.now) }
{
    let runs = board.runs.as_slice();
    let jobs = count_jobs(runs);
    let legs = count_legs(runs);
    let close = Candidates {
        kind: MoveKind::Close,
        count: runs.len(),
    };
    let open = Candidates {
        kind: MoveKind::Open,
        count: runs.len(),
    };
    let judge = Candidates {
        kind: MoveKind::Judge,
        count: jobs,
    };
    let discard = Candidates {
        kind: MoveKind::Drop,
        count: legs,
    };
    let ask = Candidates {
        kind: MoveKind::Ask,
        count: legs,
    };
    let closed = add_moves(alloc, plan, board, close, Vec::new(alloc))?;
    let opened = add_moves(alloc, plan, board, open, closed)?;
    let judged = add_moves(alloc, plan, board, judge, opened)?;
    let dropped = add_moves(alloc, plan, board, discard, judged)?;
    add_moves(alloc, plan, board, ask, dropped)
}
