//! The ancestors of a job that had no success.

ghost use Rattle.std.specs.Prelude.{◌≡◌, ◌+◌, IfOk, OnOk, slice_get, true};
ghost use Rattle.why_facts.specs.Ancestors as spec;
ghost use Rattle.board_decisions.specs.Derived as derived;
ghost use Rattle.board_decisions.specs.Seen.{job_seen};
ghost use Rattle.why_facts.specs.Adds.{Adds};
ghost use Rattle.status_table.specs.Change.{changed};

use board_decisions::derived::job_result;
use board_decisions::place::SeenJob;
use flow_model::{JobPlan, Outcome, Run, Sequence};
use std::alloc::{AllocError, Global};

/// A mark for each job, none of them set.
fn unmarked(alloc: Global, jobs: &[JobPlan]) -> Result<Sequence<bool>, AllocError>
    ensures { IfOk result (λ marks. marks ≡ spec.unmarked jobs.now) }
{
    let marks = vec![in alloc; false; jobs.len()]?;
    Ok(Sequence::new(marks))
}

/// Sets the mark at a place, where there is one.
fn set_mark(marks: &mut Sequence<bool>, place: usize)
    ensures { marks.new ≡ changed marks.old place (λ mark. true) }
{
    if let Some(mark) = marks.get_mut(place) {
        *mark = true;
    }
}

/// Marks the jobs with these numbers.
fn mark_all(first: u64, marks: &mut Sequence<bool>, needs: &[u64])
    ensures { marks.new ≡ spec.marked first marks.old needs.now }
{
    for need in needs {
        set_mark(marks, need.saturating_sub(first) as usize);
    }
}

/// Marks what the job at a place needs.
fn mark_needs(first: u64, marks: &mut Sequence<bool>, jobs: &[JobPlan], place: usize)
    ensures { marks.new ≡ spec.needs_marked first marks.old (slice_get jobs.now place) }
{
    if let Some(job) = jobs.get(place) {
        mark_all(first, marks, job.needs.as_slice());
    }
}

/// Whether the job at a place had success.
fn succeeded_at(run: &Run, place: usize) -> bool
    ensures { result ≡ spec.succeeded_at run.now place }
{
    match run.jobs.as_slice().get(place) {
        Some(job) => matches!(job_result(run, job), Outcome::Success),
        None => false,
    }
}

/// The mark at a place; beyond the end there is none.
fn is_marked(marks: &Sequence<bool>, place: usize) -> bool
    ensures { result ≡ derived.holds_at marks.now place }
{
    match marks.as_slice().get(place) {
        Some(mark) => *mark,
        None => false,
    }
}

/// The number of the job at a place of a run whose first job has this number.
fn number_at(first: u64, place: usize) -> Result<u64, AllocError>
    ensures { IfOk result (λ number. number ≡ first + place) }
{
    match first.checked_add(place as u64) {
        Some(number) => Ok(number),
        None => Err(AllocError),
    }
}

/// Adds the number of the job at a place of a run, where it is marked and had no success.
fn add_at(
    out: &mut Vec<u64>,
    first: u64,
    run: &Run,
    marks: &Sequence<bool>,
    place: usize,
) -> Result<(), AllocError>
    ensures { OnOk result (Adds out.old.items out.new.items
        (spec.unsuccessful_at first run.now marks.now place)) }
{
    if is_marked(marks, place) && !succeeded_at(run, place) {
        out.push(number_at(first, place)?)?;
    }
    Ok(())
}

/// Hands the mark of the job at a place on to what it needs, where it had success.
fn hand_on(first: u64, jobs: &[JobPlan], run: &Run, marks: &mut Sequence<bool>, place: usize)
    ensures { marks.new ≡ spec.marks_after first jobs.now run.now marks.old place }
{
    if is_marked(marks, place) && succeeded_at(run, place) {
        mark_needs(first, marks, jobs, place);
    }
}

/// Adds of the jobs before a job the numbers of those that are marked and had no success; one that had success hands its
/// mark on.
fn add_marked(
    out: &mut Vec<u64>,
    first: u64,
    at: &SeenJob,
    marks: &mut Sequence<bool>,
) -> Result<(), AllocError>
    ensures { OnOk result (Adds out.old.items out.new.items (spec.unsuccessful first
        at.now.run_plan.now.jobs at.now.run.now at.now.place.job marks.old)) }
{
    let jobs = at.run_plan.jobs.as_slice();
    let mut left = at.place.job;
    while left > 0 {
        left -= 1;
        add_at(out, first, at.run, marks, left)?;
        hand_on(first, jobs, at.run, marks, left);
    }
    Ok(())
}

/// Adds the numbers of the ancestors of a job that had no success and are met first.
pub fn add_unsuccessful(
    alloc: Global,
    out: &mut Vec<u64>,
    first: u64,
    at: &SeenJob,
) -> Result<(), AllocError>
    ensures { OnOk result (Adds out.old.items out.new.items
        (spec.first_unsuccessful first (job_seen at.now))) }
{
    let jobs = at.run_plan.jobs.as_slice();
    let mut marks = unmarked(alloc, jobs)?;
    mark_all(first, &mut marks, at.plan.needs.as_slice());
    add_marked(out, first, at, &mut marks)
}
