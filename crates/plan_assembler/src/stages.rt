//! The stages of jobs, by passes over them.

ghost use Rattle.std.specs.Prelude.{◌≡◌, ◌<◌, ◌+◌, ◌^◌, ℕ, true, false, None, IfOk, length, map, replicate};
ghost use Rattle.plan_assembler.specs.Graph.{IsGraph};
ghost use Rattle.plan_assembler.specs.Placing.{AllWait, IsPlacing, Places, Settles, count_open};
ghost use Rattle.plan_assembler.specs.Placing as spec;
ghost use Rattle.plan_assembler.specs.Stages.{Stages, stage_after};

use flow_model::Sequence;
use std::alloc::{AllocError, Global};

/// Whether a job has no stage yet.
fn is_open(found: &[Option<usize>], job: usize) -> bool
    ensures { result ≡ spec.is_open found.now job }
{
    match found.get(job) {
        Some(Some(_)) => false,
        Some(None) | None => true,
    }
}

/// Whether one of these needs has no stage yet.
fn waits(needs: &Sequence<usize>, found: &[Option<usize>]) -> bool
    ensures { result ≡ spec.waits found.now needs.now }
{
    let needs = needs.as_slice();
    for need in needs {
        if is_open(found, *need) {
            return true;
        }
    }
    false
}

/// The stage of a job, 0 while it has none.
fn stage_at(found: &[Option<usize>], job: usize) -> usize
    ensures { result ≡ spec.found_at found.now job }
{
    match found.get(job) {
        Some(Some(stage)) => *stage,
        Some(None) | None => 0,
    }
}

/// The stage after those of the needs.
fn stage_of(needs: &Sequence<usize>, found: &[Option<usize>]) -> usize
    requires { (k : ℕ) → spec.found_at found.now k + 1 < 2 ^ 64 }
    ensures { result ≡ stage_after (map (spec.found_at found.now) needs.now) }
{
    let needs = needs.as_slice();
    let mut stage = 0;
    for need in needs {
        let after = stage_at(found, *need) + 1;
        if stage < after {
            stage = after;
        }
    }
    stage
}

/// A job without a stage gets the one after those of its needs, once they all have theirs; whether
/// it did is told.
fn place(graph: &Sequence<Sequence<usize>>, found: &mut [Option<usize>], job: usize) -> bool
    requires placing { IsPlacing graph.now found.old }
    requires within { job < length graph.now }
    ensures placing { IsPlacing graph.now found.new }
    ensures place { Places graph.now found.old job found.new result }
{
    let graph = graph.as_slice();
    let needs = &graph[job];
    if !is_open(found, job) || waits(needs, found) {
        return false;
    }
    found[job] = Some(stage_of(needs, found));
    true
}

/// A pass over all jobs; whether one got its stage is told.
fn pass(graph: &Sequence<Sequence<usize>>, found: &mut [Option<usize>]) -> bool
    requires { IsPlacing graph.now found.old }
    ensures placing { IsPlacing graph.now found.new }
    ensures fewer { result ≡ true → count_open found.new < count_open found.old }
    ensures stuck { result ≡ false → AllWait graph.now found.new }
{
    let mut placed = false;
    for job in 0..graph.len() {
        if place(graph, found, job) {
            placed = true;
        }
    }
    placed
}

/// No stage for each of so many jobs.
fn none_found(alloc: Global, count: usize) -> Result<Vec<Option<usize>>, AllocError>
    ensures { IfOk result (λ found. found.items ≡ replicate count None) }
{
    vec![in alloc; None; count]
}

/// The stages that were found, or none where a job has none.
fn settled(alloc: Global, found: &[Option<usize>]) -> Result<Option<Sequence<usize>>, AllocError>
    ensures { IfOk result (Settles found.now) }
{
    let mut stages = Vec::with_capacity(alloc, found.len())?;
    for stage in found {
        match stage {
            Some(stage) => stages.push(*stage)?,
            None => return Ok(None),
        }
    }
    Ok(Some(Sequence::new(stages)))
}

/// The stages of all jobs, or none where a job needs itself, directly or not.
pub(crate) fn find_stages(
    alloc: Global,
    graph: &Sequence<Sequence<usize>>,
) -> Result<Option<Sequence<usize>>, AllocError>
    requires { IsGraph graph.now }
    ensures { IfOk result (Stages graph.now) }
{
    let mut found = none_found(alloc, graph.len())?;
    while pass(graph, found.as_mut_slice()) {}
    settled(alloc, found.as_slice())
}
