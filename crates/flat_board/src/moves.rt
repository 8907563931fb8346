//! What a clerk may do: those of its events that the table accepts, by the counters.

ghost use Rattle.std.specs.Prelude.{◌≡◌, ◌++◌, IfOk, List, filter, length, slice_get};
ghost use Rattle.flat_board.specs.Words.{Event as EventOf, InPlay, board_jobs, board_legs};
ghost use Rattle.flow_model.specs.declared.event.Event.TheVariants as event;
ghost use Rattle.status_table.specs.Kinds as spec;
ghost use Rattle.status_table.specs.Moves as rule;

use crate::found::{find_job, find_leg, is_full, is_stopping};
use crate::idle::count_idle;
use board_counters::Counted;
use board_decisions::place::find_run;
use flow_model::{Event, JobState, RunState};
use status_table::events::{may_ask, may_drop};
use status_table::moves::{MoveKind, count_jobs, count_legs, event_of, opens};
use std::alloc::{AllocError, Global};

/// Whether a run may be closed.
fn closes(state: &Counted, number: u64) -> bool
    ensures { result ≡ rule.accepts state.now.plan state.now.board (event.Close number) }
{
    let Some(at) = find_run(state.plan(), state.board(), number as usize) else {
        return false;
    };
    match at.run.state {
        RunState::New | RunState::Waiting => at.run.stop,
        RunState::Going => state.have_jobs_ended(number as usize),
        RunState::Closed(_) => false,
    }
}

/// Whether a job may be judged.
fn judges(state: &Counted, number: u64) -> bool
    requires { InPlay state.now.plan state.now.board }
    ensures { result ≡ rule.accepts state.now.plan state.now.board (event.Judge number) }
{
    let Some(at) = find_job(state, number) else {
        return false;
    };
    match (at.run.state, at.job.state) {
        (RunState::Going, JobState::Unjudged) => state.have_needs_ended(at.place),
        (RunState::Going, JobState::Open | JobState::Shut(_)) => false,
        (RunState::New | RunState::Waiting | RunState::Closed(_), _) => false,
    }
}

/// Whether a leg may be dropped.
fn drops(alloc: Global, state: &Counted, number: u64) -> Result<bool, AllocError>
    ensures { IfOk result
        (λ yes. yes ≡ rule.accepts state.now.plan state.now.board (event.Drop number)) }
{
    let Some(leg) = find_leg(state, number) else {
        return Ok(false);
    };
    if !may_drop(&leg.at) {
        return Ok(false);
    }
    is_stopping(alloc, &leg)
}

/// Whether a leg may ask.
#[tactic(auto, using(status_table::proofs::Accepting::leg_enters_accepted))]
fn asks(alloc: Global, state: &Counted, number: u64) -> Result<bool, AllocError>
    ensures { IfOk result
        (λ yes. yes ≡ rule.accepts state.now.plan state.now.board (event.Ask number)) }
{
    let Some(leg) = find_leg(state, number) else {
        return Ok(false);
    };
    if !may_ask(&leg.at) || is_full(&leg) {
        return Ok(false);
    }
    let stops = is_stopping(alloc, &leg)?;
    Ok(!stops)
}

/// Whether the table accepts a clerk's event.
fn accepts(alloc: Global, state: &Counted, kind: MoveKind, number: u64) -> Result<bool, AllocError>
    requires { InPlay state.now.plan state.now.board }
    ensures { IfOk result
        (λ yes. yes ≡ rule.accepts state.now.plan state.now.board (spec.event_of kind number)) }
{
    match kind {
        MoveKind::Close => Ok(closes(state, number)),
        MoveKind::Open => Ok(opens(state.plan(), state.board(), number)),
        MoveKind::Judge => Ok(judges(state, number)),
        MoveKind::Drop => drops(alloc, state, number),
        MoveKind::Ask => asks(alloc, state, number),
    }
}

/// The events of a kind that the table accepts, by ascending number, after others.
#[tactic(auto, using(status_table::proofs::Accepting::one_more, status_table::proofs::Accepting::none_more))]
fn add_moves(
    alloc: Global,
    state: &Counted,
    kind: MoveKind,
    count: usize,
    events: Vec<Event>,
) -> Result<Vec<Event>, AllocError>
    requires { InPlay state.now.plan state.now.board }
    ensures { IfOk result (λ all. all.items ≡ events.items
        ++ filter (rule.accepts state.now.plan state.now.board) (spec.events_of kind count)) }
{
    let mut all = events;
    for number in 0..count {
        if accepts(alloc, state, kind, number as u64)? {
            all.push(event_of(kind, number as u64))?;
        }
    }
    Ok(all)
}

/// How many runs, jobs and legs a board has.
#[derive(Clone, Copy)]
struct Counts {
    runs: usize,
    jobs: usize,
    legs: usize,
}

/// Counts the runs, jobs and legs of a board.
#[tactic(auto, using(status_table::proofs::Accepting::jobs_counted, status_table::proofs::Accepting::legs_counted))]
fn count_all(state: &Counted) -> Counts
    requires { InPlay state.now.plan state.now.board }
    ensures runs { result.runs ≡ length state.now.board.runs }
    ensures jobs { result.jobs ≡ length (board_jobs state.now.board) }
    ensures legs { result.legs ≡ length (board_legs state.now.board) }
{
    let _plan = state.plan();
    let runs = state.board().runs.as_slice();
    Counts {
        runs: runs.len(),
        jobs: count_jobs(runs),
        legs: count_legs(runs),
    }
}

/// The clerk's events that the table accepts on a board.
pub(crate) fn find_moves(alloc: Global, state: &Counted) -> Result<Vec<Event>, AllocError>
    requires { InPlay state.now.plan state.now.board }
    ensures { IfOk result (λ all. all.items ≡ rule.moves state.now.plan state.now.board) }
{
    let counts = count_all(state);
    let closed = add_moves(alloc, state, MoveKind::Close, counts.runs, Vec::new(alloc))?;
    let opened = add_moves(alloc, state, MoveKind::Open, counts.runs, closed)?;
    let judged = add_moves(alloc, state, MoveKind::Judge, counts.jobs, opened)?;
    let dropped = add_moves(alloc, state, MoveKind::Drop, counts.legs, judged)?;
    add_moves(alloc, state, MoveKind::Ask, counts.legs, dropped)
}

/// The first event of a kind that the table accepts, by ascending number. Runs in which nothing may happen are passed over.
#[tactic(auto, using(crate::proofs::FirstMove::none_yet, crate::proofs::FirstMove::first_there, crate::proofs::FirstMove::none_through))]
fn first_of(
    alloc: Global,
    state: &Counted,
    kind: MoveKind,
    count: usize,
) -> Result<Option<Event>, AllocError>
    requires { InPlay state.now.plan state.now.board }
    ensures { IfOk result (λ first. first ≡ slice_get
        (filter (rule.accepts state.now.plan state.now.board) (spec.events_of kind count)) 0) }
{
    let mut number = 0;
    while number < count {
        let idle = count_idle(state, kind, number as u64).min(count - number);
        if idle > 0 {
            number += idle;
        } else {
            if accepts(alloc, state, kind, number as u64)? {
                return Ok(Some(event_of(kind, number as u64)));
            }
            number += 1;
        }
    }
    Ok(None)
}

/// The first of some events, or else the first of a kind that the table accepts.
#[tactic(auto, using(crate::proofs::FirstMove::first_stays, crate::proofs::FirstMove::first_later))]
fn first_or(
    alloc: Global,
    state: &Counted,
    first: Option<Event>,
    kind: MoveKind,
    count: usize,
) -> Result<Option<Event>, AllocError>
    requires { InPlay state.now.plan state.now.board }
    ensures { (before : List EventOf) → first ≡ slice_get before 0
        → IfOk result (λ found. found ≡ slice_get (before
        ++ filter (rule.accepts state.now.plan state.now.board) (spec.events_of kind count)) 0) }
{
    match first {
        Some(event) => Ok(Some(event)),
        None => first_of(alloc, state, kind, count),
    }
}

/// The first of the clerk's events that the table accepts on a board, if there is one.
pub(crate) fn find_first(alloc: Global, state: &Counted) -> Result<Option<Event>, AllocError>
    requires { InPlay state.now.plan state.now.board }
    ensures { IfOk result (λ first. first ≡ rule.first_move state.now.plan state.now.board) }
{
    let counts = count_all(state);
    let closes = first_of(alloc, state, MoveKind::Close, counts.runs)?;
    let opens = first_or(alloc, state, closes, MoveKind::Open, counts.runs)?;
    let judges = first_or(alloc, state, opens, MoveKind::Judge, counts.jobs)?;
    let drops = first_or(alloc, state, judges, MoveKind::Drop, counts.legs)?;
    first_or(alloc, state, drops, MoveKind::Ask, counts.legs)
}
