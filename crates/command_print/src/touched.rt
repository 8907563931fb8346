//! What an entry changes of a board, by whom it touches: only that is compared.

ghost use Rattle.std.specs.Prelude.{◌≡◌, ◌≢◌, ◌<◌, ◌≤◌, ℕ, Some, OnOk, map, slice_get};
ghost use Rattle.std.specs.Option.{option_copied};
ghost use Rattle.flow_model.specs.declared.event.Member.TheVariants as member;
ghost use Rattle.status_table.specs.Words.{board_legs};
ghost use Rattle.plan_text.specs.Changes.{AddsOf, TellsChanges, TellsJobs, TellsLegs, TellsRun, TellsRuns, after_jobs};
ghost use Rattle.command_print.specs.Touched as spec;
ghost use Rattle.command_print.specs.declared.touched.Touched.TheVariants as touch;

use crate::index::{Index, after_all, place_of};
use board_decisions::place::leg_there;
use flow_model::{Board, Event, Job, Leg, Member, Reply, Run};
use plan_text::{add_ends, add_job_line, add_leg, add_run_line};
use std::alloc::{AllocError, Global};

/// Who an event is for, and whom the reply to it names.
#[derive(Clone, Copy)]
pub(crate) struct Members {
    who: Member,
    admitted: Option<Member>,
    displaced: Option<Member>,
    stopped: Option<Member>,
}

/// What may differ after an entry, beside the lines of runs.
#[derive(Clone, Copy)]
pub(crate) enum Touched {
    /// The states of jobs.
    Jobs,
    /// The legs of these members.
    Legs(Members),
}

/// Who an event is for, and whom the reply to it names.
fn members_of(who: Member, reply: &Reply) -> Touched
    ensures { result ≡ touch.Legs (spec.members_of who reply.now) }
{
    Touched::Legs(Members {
        who,
        admitted: reply.admitted,
        displaced: reply.displaced,
        stopped: reply.stopped,
    })
}

/// What an event touches that has this reply.
pub(crate) fn touched_by(event: &Event, reply: &Reply) -> Touched
    ensures { result ≡ spec.touched_by event.now reply.now }
{
    match event {
        Event::Judge { .. } => Touched::Jobs,
        Event::Open { run } | Event::Close { run } => members_of(Member::Run(*run), reply),
        Event::Cancel { run } => members_of(Member::Run(*run), reply),
        Event::Ask { leg } | Event::Drop { leg } => members_of(Member::Leg(*leg), reply),
        Event::Take { leg } | Event::Begin { leg } => members_of(Member::Leg(*leg), reply),
        Event::End { leg, .. } | Event::Finish { leg } => members_of(Member::Leg(*leg), reply),
    }
}

/// Whether the reply to an event may name others than whom that is for.
pub(crate) fn names_others(event: &Event) -> bool
    ensures { result ≡ spec.names_others event.now }
{
    match event {
        Event::Open { .. } | Event::Ask { .. } | Event::Drop { .. } => true,
        Event::Finish { .. } | Event::Close { .. } => true,
        Event::Judge { .. } | Event::Take { .. } | Event::Begin { .. } => false,
        Event::End { .. } | Event::Cancel { .. } => false,
    }
}

/// The number of a leg, where the member is one from a number on and before another; else that other.
fn nearer(who: Member, from: u64, end: u64) -> u64
    requires { from ≤ end }
    ensures after { from ≤ result }
    ensures within { result ≤ end }
    ensures apart { (l : ℕ) → from ≤ l → l < result → who ≢ member.Leg l }
{
    match who {
        Member::Leg(leg) => if from <= leg && leg < end { leg } else { end },
        Member::Run(_) => end,
    }
}

/// So it is with a member, if there is one.
fn nearer_of(who: Option<Member>, from: u64, end: u64) -> u64
    requires { from ≤ end }
    ensures after { from ≤ result }
    ensures within { result ≤ end }
    ensures apart { (l : ℕ) → from ≤ l → l < result → who ≢ Some (member.Leg l) }
{
    match who {
        Some(who) => nearer(who, from, end),
        None => end,
    }
}

/// The next leg from a number on that is one of the members, or the end, where none is before that.
fn next_leg(members: &Members, from: u64, end: u64) -> u64
    requires { from ≤ end }
    ensures after { from ≤ result }
    ensures within { result ≤ end }
    ensures apart { (l : ℕ) → from ≤ l → l < result → spec.IsApart l members.now }
{
    let first = nearer(members.who, from, end);
    let second = nearer_of(members.admitted, from, first);
    let third = nearer_of(members.displaced, from, second);
    nearer_of(members.stopped, from, third)
}

/// A board and the one before it, which differ in what is touched alone, and where their legs stand.
#[derive(Clone, Copy)]
pub(crate) struct Boards<'a> {
    pub(crate) index: &'a Index,
    pub(crate) before: &'a Board,
    pub(crate) board: &'a Board,
}

/// The leg with a number, if there is one.
#[tactic(auto, using(crate::proofs::LegTexts::leg_there_of, crate::proofs::LegTexts::no_leg_of))]
fn leg_of<'a>(index: &Index, board: &'a Board, number: u64) -> Option<&'a Leg>
    requires { spec.IsIndexOf index.now board.now }
    ensures { option_copied result ≡ slice_get (board_legs board.now) number }
{
    match place_of(index, number) {
        Some(place) => leg_there(board, place),
        None => None,
    }
}

/// Adds what the leg with a number has otherwise than before.
#[tactic(auto, using(crate::proofs::LegTexts::found_none, crate::proofs::LegTexts::found_gone, crate::proofs::LegTexts::found_both))]
fn add_leg_of(
    alloc: Global,
    text: &mut String,
    boards: &Boards<'_>,
    number: u64,
) -> Result<(), AllocError>
    requires { spec.StandAlike boards.now.index.now boards.now.before.now boards.now.board.now }
    ensures { OnOk result (AddsOf (spec.TellsFound number
        (slice_get (board_legs boards.now.before.now) number)
        (slice_get (board_legs boards.now.board.now) number)) text.old text.new) }
{
    let Some(was) = leg_of(boards.index, boards.before, number) else {
        return Ok(());
    };
    match leg_of(boards.index, boards.board, number) {
        Some(leg) => add_leg(alloc, text, number, was, leg),
        None => Ok(()),
    }
}

/// Adds what the legs from one on up to another have otherwise than before, of which those of some members alone may differ.
fn add_legs(
    alloc: Global,
    text: &mut String,
    boards: &Boards<'_>,
    members: &Members,
    first: u64,
    end: u64,
) -> Result<(), AllocError>
    requires within { first ≤ end }
    requires alike { spec.StandAlike boards.now.index.now boards.now.before.now boards.now.board.now }
    requires others { spec.KeepsOthers members.now boards.now.before.now boards.now.board.now }
    ensures { OnOk result (AddsOf (TellsLegs first
        (spec.between first end (board_legs boards.now.before.now))
        (spec.between first end (board_legs boards.now.board.now))) text.old text.new) }
{
    let mut number = first;
    while number < end {
        number = next_leg(members, number, end);
        if number < end {
            add_leg_of(alloc, text, boards, number)?;
            number += 1;
        }
    }
    Ok(())
}

/// Adds the lines of jobs that are otherwise than before, whose legs are as before.
fn add_job_lines(
    text: &mut String,
    first: (u64, u64),
    before: &[Job],
    jobs: &[Job],
) -> Result<(), AllocError>
    requires { map (λ job. job.legs) jobs.now ≡ map (λ job. job.legs) before.now }
    ensures { OnOk result (AddsOf (TellsJobs first before.now jobs.now) text.old text.new) }
{
    for (place, job) in jobs.iter().enumerate() {
        let Some(was) = before.get(place) else {
            return Ok(());
        };
        add_job_line(text, after_all(first.0, place)?, was, job)?;
    }
    Ok(())
}

/// The number of a run, and those of its first job and leg and of the next after its last ones.
#[derive(Clone, Copy)]
struct Span {
    run: u64,
    first: (u64, u64),
    next: (u64, u64),
}

/// Adds what the jobs of a run with their legs have otherwise than before.
fn add_jobs(
    alloc: Global,
    text: &mut String,
    boards: &Boards<'_>,
    touched: &Touched,
    span: Span,
    was: &Run,
    run: &Run,
) -> Result<(), AllocError>
    requires alike { spec.StandAlike boards.now.index.now boards.now.before.now boards.now.board.now }
    requires others { spec.KeepsUntouched touched.now boards.now.before.now boards.now.board.now }
    requires stand { spec.RunsStand touched.now span.first boards.now.before.now boards.now.board.now
        was.now run.now }
    requires next { span.next ≡ after_jobs span.first run.now.jobs }
    ensures { OnOk result
        (AddsOf (TellsJobs span.first was.now.jobs run.now.jobs) text.old text.new) }
{
    match touched {
        Touched::Jobs => {
            add_job_lines(text, span.first, was.jobs.as_slice(), run.jobs.as_slice())
        },
        Touched::Legs(members) => {
            add_legs(alloc, text, boards, members, span.first.1, span.next.1)
        },
    }
}

/// Adds what a run with its jobs has otherwise than before.
fn add_run(
    alloc: Global,
    text: &mut String,
    boards: &Boards<'_>,
    touched: &Touched,
    span: Span,
    was: &Run,
    run: &Run,
) -> Result<(), AllocError>
    requires alike { spec.StandAlike boards.now.index.now boards.now.before.now boards.now.board.now }
    requires others { spec.KeepsUntouched touched.now boards.now.before.now boards.now.board.now }
    requires stand { spec.RunsStand touched.now span.first boards.now.before.now boards.now.board.now
        was.now run.now }
    requires next { span.next ≡ after_jobs span.first run.now.jobs }
    ensures { OnOk result (AddsOf (TellsRun (span.run, span.first) was.now run.now) text.old text.new) }
{
    add_run_line(alloc, text, span.run, was, run)?;
    add_jobs(alloc, text, boards, touched, span, was, run)
}

/// Adds what the runs with their jobs have otherwise than before.
fn add_runs(
    alloc: Global,
    text: &mut String,
    boards: &Boards<'_>,
    touched: &Touched,
) -> Result<(), AllocError>
    requires alike { spec.StandAlike boards.now.index.now boards.now.before.now boards.now.board.now }
    requires others { spec.KeepsUntouched touched.now boards.now.before.now boards.now.board.now }
    ensures { OnOk result (AddsOf
        (TellsRuns (0, (0, 0)) boards.now.before.now.runs boards.now.board.now.runs) text.old text.new) }
{
    let before = boards.before.runs.as_slice();
    let runs = boards.board.runs.as_slice();
    let mut first = (0, 0);
    for (place, next) in boards.index.next.as_slice().iter().enumerate() {
        let Some(was) = before.get(place) else {
            return Ok(());
        };
        let Some(run) = runs.get(place) else {
            return Ok(());
        };
        let span = Span {
            run: place as u64,
            first,
            next: *next,
        };
        add_run(alloc, text, boards, touched, span, was, run)?;
        first = *next;
    }
    Ok(())
}

/// Adds what a board has otherwise than the board before it, in the order of the board's text: the lines of the runs and
/// jobs that changed; of each leg that changed its line, the steps that it did not have, and its outputs; last the legs that
/// have ended since. Of jobs and legs only what is touched may differ, and that alone is compared.
pub(crate) fn add_changes(
    alloc: Global,
    text: &mut String,
    boards: &Boards<'_>,
    touched: &Touched,
) -> Result<(), AllocError>
    requires alike { spec.StandAlike boards.now.index.now boards.now.before.now boards.now.board.now }
    requires others { spec.KeepsUntouched touched.now boards.now.before.now boards.now.board.now }
    ensures { OnOk result
        (AddsOf (TellsChanges boards.now.before.now boards.now.board.now) text.old text.new) }
{
    add_runs(alloc, text, boards, touched)?;
    add_ends(
        text,
        boards.before.ends.as_slice(),
        boards.board.ends.as_slice(),
    )
}
