//! The jobs of a workflow's run, in the order of the plan.

ghost use Rattle.std.specs.Prelude.{◌≡◌, ◌<◌, ◌^◌, true, false, IfOk, IfSome, length, map, slice_get, Option};
ghost use Rattle.std.specs.Option.{option_copied};
ghost use Rattle.std.specs.List.{list_all};
ghost use Rattle.plan_assembler.specs.Graph.{IsGraph};
ghost use Rattle.plan_assembler.specs.Index.{Indexes};
ghost use Rattle.plan_assembler.specs.Layout as spec;
ghost use Rattle.plan_assembler.specs.Layout.{AreTaken};

use crate::choice::Choice;
use crate::chosen::{alike, chosen_for};
use crate::fault::PlanFault;
use crate::index::{index_of, is_id, place_of};
use crate::order::order_of;
use crate::stages::find_stages;
use flow_model::{FlowJob, Sequence, Text};
use indexmap::IndexMap;
use std::alloc::{AllocError, Global};

/// Whether a text is one of these.
pub(crate) fn is_one_of(texts: &Sequence<Text>, text: &Text) -> bool
    ensures { result ≡ spec.is_one_of texts.now text.now }
{
    let texts = texts.as_slice();
    for other in texts {
        if text.as_str() == other.as_str() {
            return true;
        }
    }
    false
}

/// Whether a job has this id.
pub(crate) fn is_job(jobs: &Sequence<FlowJob>, id: &Text) -> bool
    ensures { result ≡ spec.is_one_of (spec.ids_of jobs.now) id.now }
{
    let jobs = jobs.as_slice();
    for job in jobs {
        if id.as_str() == job.id.as_str() {
            return true;
        }
    }
    false
}

/// The job at a place, if one stands there.
pub(crate) fn job_at(jobs: &Sequence<FlowJob>, place: usize) -> Option<&FlowJob>
    ensures { option_copied result ≡ slice_get jobs.now place }
{
    jobs.as_slice().get(place)
}

/// Whether every need is a job.
fn is_known(
    index: &IndexMap<String, usize>,
    jobs: &Sequence<FlowJob>,
    needs: &Sequence<Text>,
) -> bool
    requires { Indexes (spec.ids_of jobs.now) index.now }
    ensures { result ≡ list_all (spec.is_one_of (spec.ids_of jobs.now)) needs.now }
{
    let needs = needs.as_slice();
    for need in needs {
        if !is_id(index, jobs, need) {
            return false;
        }
    }
    true
}

/// Whether every need of every job is a job.
pub(crate) fn are_needs_known(index: &IndexMap<String, usize>, jobs: &Sequence<FlowJob>) -> bool
    requires { Indexes (spec.ids_of jobs.now) index.now }
    ensures { result ≡ spec.are_needs_known jobs.now }
{
    let from = jobs.as_slice();
    for job in from {
        if !is_known(index, jobs, &job.needs) {
            return false;
        }
    }
    true
}

/// The places of what a job needs.
pub(crate) fn places_of(
    alloc: Global,
    index: &IndexMap<String, usize>,
    jobs: &Sequence<FlowJob>,
    needs: &Sequence<Text>,
) -> Result<Sequence<usize>, AllocError>
    requires { Indexes (spec.ids_of jobs.now) index.now }
    ensures { IfOk result (λ places. places ≡ spec.need_places jobs.now needs.now) }
{
    let needs = needs.as_slice();
    let mut places = Vec::with_capacity(alloc, needs.len())?;
    for need in needs {
        places.push(place_of(index, jobs, need))?;
    }
    Ok(Sequence::new(places))
}

/// What the jobs need, by their places.
pub(crate) fn graph_of(
    alloc: Global,
    index: &IndexMap<String, usize>,
    jobs: &Sequence<FlowJob>,
) -> Result<Sequence<Sequence<usize>>, AllocError>
    requires { Indexes (spec.ids_of jobs.now) index.now }
    ensures { IfOk result (λ graph. graph ≡ spec.graph_of jobs.now) }
{
    let from = jobs.as_slice();
    let mut graph = Vec::with_capacity(alloc, from.len())?;
    for job in from {
        graph.push(places_of(alloc, index, jobs, &job.needs)?)?;
    }
    Ok(Sequence::new(graph))
}

/// The places of the jobs that each job needs. A need that is no job has the place beyond all jobs.
pub fn graph(
    alloc: Global,
    jobs: &Sequence<FlowJob>,
) -> Result<Sequence<Sequence<usize>>, AllocError>
    ensures { IfOk result (λ graph. graph ≡ spec.graph_of jobs.now) }
{
    let index = index_of(alloc, jobs)?;
    graph_of(alloc, &index, jobs)
}

/// Every job is taken.
fn all_taken(alloc: Global, jobs: &Sequence<FlowJob>) -> Result<Sequence<bool>, AllocError>
    ensures { IfOk result (λ marks. marks ≡ map (λ _. true) jobs.now) }
{
    let marks = alike(alloc, true, jobs.len())?;
    Ok(Sequence::new(marks))
}

/// The jobs that a choice takes.
fn taken_jobs(
    alloc: Global,
    choice: &Choice,
    index: &IndexMap<String, usize>,
    jobs: &Sequence<FlowJob>,
    graph: &Sequence<Sequence<usize>>,
) -> Result<Sequence<bool>, AllocError>
    requires indexed { Indexes (spec.ids_of jobs.now) index.now }
    requires graph { graph.now ≡ spec.graph_of jobs.now }
    requires known { IsGraph graph.now }
    requires taken { spec.has_target choice.now jobs.now ≡ true }
    ensures { IfOk result (AreTaken choice.now jobs.now) }
{
    match choice {
        Choice::Event(_) => all_taken(alloc, jobs),
        Choice::Job(id) => chosen_for(alloc, graph, place_of(index, jobs, id)),
        Choice::All => all_taken(alloc, jobs),
    }
}

/// The places of the jobs of a run, in the order of the plan, or none where a job needs itself.
pub(crate) fn find_order(
    alloc: Global,
    choice: &Choice,
    index: &IndexMap<String, usize>,
    jobs: &Sequence<FlowJob>,
    graph: &Sequence<Sequence<usize>>,
) -> Result<Option<Sequence<usize>>, AllocError>
    requires indexed { Indexes (spec.ids_of jobs.now) index.now }
    requires graph { graph.now ≡ spec.graph_of jobs.now }
    requires known { IsGraph graph.now }
    requires taken { spec.has_target choice.now jobs.now ≡ true }
    ensures order { IfOk result (spec.Orders choice.now jobs.now) }
    ensures long { IfOk result (λ found. IfSome found (λ order. length order < 2 ^ 63)) }
{
    let Some(stages) = find_stages(alloc, graph)? else {
        return Ok(None);
    };
    let marks = taken_jobs(alloc, choice, index, jobs, graph)?;
    Ok(Some(order_of(alloc, &stages, &marks)?))
}
