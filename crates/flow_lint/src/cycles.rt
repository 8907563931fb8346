//! Jobs that need themselves.

ghost use Rattle.std.specs.Prelude.{ℕ, ◌≡◌, ◌++◌, true, false, IfOk, MatchOption, OnOk, [], get_or, length, map, option_map, replicate, set, string_bytes};
ghost use Rattle.plan_assembler.specs.Graph.{NeedsBy};
ghost use Rattle.plan_assembler.specs.Layout.{graph_of};
ghost use Rattle.flow_lint.specs.Cycles as spec;
ghost use Rattle.flow_lint.specs.Walks as walks;

use crate::node::job_path;
use crate::note::{Note, noted};
use flow_model::{FlowJob, Sequence};
use std::alloc::{AllocError, Global};

/// The id of the job at a place.
fn id_at(jobs: &[FlowJob], place: usize) -> &str
    ensures { result.now ≡ spec.id_at jobs.now place }
{
    match jobs.get(place) {
        Some(job) => job.id.as_str(),
        None => "",
    }
}

/// A mark for each job, none of them set.
fn unmarked(alloc: Global, graph: &Sequence<Sequence<usize>>) -> Result<Vec<bool>, AllocError>
    ensures { IfOk result (λ marks. marks.items ≡ replicate (length graph.now) false) }
{
    vec![in alloc; false; graph.len()]
}

/// Whether a place was left.
fn is_left(left: &[bool], place: usize) -> bool
    ensures { result ≡ walks.is_left left.now place }
{
    match left.get(place) {
        Some(mark) => *mark,
        None => true,
    }
}

/// Marks a place, unless it is beyond all.
fn mark(marks: &mut Vec<bool>, place: usize)
    ensures { marks.new.items ≡ set marks.old.items place true }
{
    if place < marks.len() {
        marks[place] = true;
    }
}

/// The places behind this one.
fn behind(places: &[usize], place: usize) -> Option<&[usize]>
    ensures { option_map (λ rest. rest.now) result ≡ walks.behind place places.now }
{
    for (at, other) in places.iter().enumerate() {
        if place == *other {
            return places.get(at.saturating_add(1)..);
        }
    }
    None
}

/// The first of some places that was not left.
fn first_open(left: &[bool], places: &[usize]) -> Option<usize>
    ensures { result ≡ walks.first_open left.now places.now }
{
    for place in places {
        if !is_left(left, *place) {
            return Some(*place);
        }
    }
    None
}

/// The first place that the job at a place needs and that was not left.
fn next_need(graph: &Sequence<Sequence<usize>>, left: &[bool], place: usize) -> Option<usize>
    ensures { result ≡ walks.first_open left.now (get_or graph.now place []) }
{
    match graph.as_slice().get(place) {
        Some(needs) => first_open(left, needs.as_slice()),
        None => None,
    }
}

/// A place that was not left.
fn next_job(left: &[bool]) -> Option<usize>
    ensures { MatchOption result
        ((place : ℕ) → walks.is_left left.now place ≡ true)
        (λ place. walks.is_left left.now place ≡ false) }
{
    for (place, mark) in left.iter().enumerate() {
        if !*mark {
            return Some(place);
        }
    }
    None
}

/// That jobs are needed, one after the other, and by the last of them this one.
fn add_needs(
    text: &mut String,
    jobs: &[FlowJob],
    ways: &[usize],
    place: usize,
) -> Result<(), AllocError>
    ensures { OnOk result (string_bytes text.new ≡ string_bytes text.old
        ++ spec.needs_text (map (spec.id_at jobs.now) ways.now) (spec.id_at jobs.now place)) }
{
    for way in ways {
        text.push_str(" needs `")?;
        text.push_str(id_at(jobs, *way))?;
        text.push_str("`, which")?;
    }
    text.push_str(" needs `")?;
    text.push_str(id_at(jobs, place))?;
    text.push_str("`")
}

/// What is to be known of a job that needs itself by way of others.
fn way_note(
    alloc: Global,
    jobs: &[FlowJob],
    ways: &[usize],
    place: usize,
) -> Result<Note, AllocError>
    requires { NeedsBy (graph_of jobs.now) place ways.now place }
    ensures { IfOk result (spec.IsCycle jobs.now) }
{
    let mut text = String::from_str(alloc, "this job")?;
    add_needs(&mut text, jobs, ways, place)?;
    text.push_str(": take one of the needs out")?;
    let path = job_path(alloc, id_at(jobs, place), "needs")?;
    noted(alloc, path.as_str(), text)
}

/// What is to be known of a job that needs itself: of the first that is met twice, from the first job on from need to need.
pub(crate) fn find_cycle(
    alloc: Global,
    jobs: &Sequence<FlowJob>,
) -> Result<Option<Note>, AllocError>
    ensures { IfOk result (spec.FindsCycle jobs.now) }
{
    let graph = plan_assembler::graph(alloc, jobs)?;
    let mut seen = unmarked(alloc, &graph)?;
    let mut left = unmarked(alloc, &graph)?;
    let mut way = Vec::new(alloc);
    let mut place = 0;
    loop {
        match next_need(&graph, left.as_slice(), place) {
            Some(next) => {
                way.push(place)?;
                if let Some(ways) = behind(way.as_slice(), next) {
                    return Ok(Some(way_note(alloc, jobs.as_slice(), ways, next)?));
                }
                mark(&mut seen, next);
                place = next;
            },
            None => {
                mark(&mut left, place);
                match way.pop() {
                    Some(back) => place = back,
                    None => match next_job(left.as_slice()) {
                        Some(other) => {
                            mark(&mut seen, other);
                            place = other;
                        },
                        None => return Ok(None),
                    },
                }
            },
        }
    }
}
