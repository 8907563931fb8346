//! Which jobs of a run need which: each job has the places of those that need it, so that none but these is looked at
//! where it ends.

ghost use Rattle.std.specs.Prelude.{◌≡◌, ◌++◌, ◌∷◌, [], IfOk, OnOk, map};
ghost use Rattle.board_counters.specs.Words.{changed, run_sizes, sizes};
ghost use Rattle.board_counters.specs.Dependents as spec;

use crate::need::first_number;
use board_decisions::place::JobPlace;
use flow_model::{Job, JobPlan, Run, RunPlan, Sequence};
use std::alloc::{AllocError, Global};

/// The places of the jobs that need each of the jobs of a run.
pub(crate) type Dependents = Sequence<Sequence<usize>>;

/// No places, for each of some jobs.
fn nobody(alloc: Global, jobs: &[Job]) -> Result<Dependents, AllocError>
    ensures { IfOk result (λ made. made ≡ map (λ job. []) jobs.now) }
{
    let mut made = Vec::with_capacity(alloc, jobs.len())?;
    for _job in jobs {
        made.push(Sequence::empty(alloc))?;
    }
    Ok(Sequence::new(made))
}

/// Notes that the job at a place needs the one at another, where there is one.
fn note_need(lists: &mut Dependents, needed: usize, place: usize) -> Result<(), AllocError>
    ensures { OnOk result (lists.new ≡ changed lists.old needed (λ list. list ++ place ∷ [])) }
{
    if let Some(list) = lists.get_mut(needed) {
        list.push(place)?;
    }
    Ok(())
}

/// Notes what the job at a place needs, where the run's first has this number.
fn note_needs(
    lists: &mut Dependents,
    first: u64,
    place: usize,
    needs: &[u64],
) -> Result<(), AllocError>
    ensures { OnOk result (lists.new ≡ spec.noted first place needs.now lists.old) }
{
    for need in needs {
        note_need(lists, need.saturating_sub(first) as usize, place)?;
    }
    Ok(())
}

/// The places of the jobs that need each of a run's jobs.
fn run_dependents(alloc: Global, plans: &[JobPlan], jobs: &[Job]) -> Result<Dependents, AllocError>
    ensures { IfOk result (λ made. made ≡ spec.dependents_each plans.now 0 (sizes jobs.now)) }
{
    let first = first_number(plans);
    let mut lists = nobody(alloc, jobs)?;
    for (place, plan) in plans.iter().enumerate() {
        note_needs(&mut lists, first, place, plan.needs.as_slice())?;
    }
    Ok(lists)
}

/// The jobs that need each job, of each of some runs.
pub(crate) fn all_dependents(
    alloc: Global,
    plans: &[RunPlan],
    runs: &[Run],
) -> Result<Sequence<Dependents>, AllocError>
    ensures { IfOk result (λ made. made ≡ spec.all_dependents plans.now (run_sizes runs.now)) }
{
    let mut made = Vec::with_capacity(alloc, plans.len())?;
    for (place, plan) in plans.iter().enumerate() {
        let Some(run) = runs.get(place) else {
            return Ok(Sequence::new(made));
        };
        made.push(run_dependents(alloc, plan.jobs.as_slice(), run.jobs.as_slice())?)?;
    }
    Ok(Sequence::new(made))
}

/// The places of the jobs that need the one at a place.
pub(crate) fn dependents_at(all: &Sequence<Dependents>, place: JobPlace) -> &[usize]
    ensures { result.now ≡ spec.dependents_at all.now place }
{
    let Some(row) = all.as_slice().get(place.run) else {
        return &[];
    };
    match row.as_slice().get(place.job) {
        Some(places) => places.as_slice(),
        None => &[],
    }
}
