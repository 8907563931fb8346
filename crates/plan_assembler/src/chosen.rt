//! The jobs of a run for one job.

ghost use Rattle.std.specs.Prelude.{◌≡◌, ◌<◌, ℕ, true, false, IfOk, MatchOption, length, get_or, replicate};
ghost use Rattle.std.specs.List.{Contains};
ghost use Rattle.plan_assembler.specs.Chosen.{AreChosen, AreClosed, IsNext, Marking, count_unmarked};
ghost use Rattle.plan_assembler.specs.Graph.{IsGraph};

use flow_model::Sequence;
use std::alloc::{AllocError, Global};

/// So many marks, all alike.
pub(crate) fn alike(alloc: Global, mark: bool, count: usize) -> Result<Vec<bool>, AllocError>
    ensures { IfOk result (λ marks. marks.items ≡ replicate count mark) }
{
    vec![in alloc; mark; count]
}

/// Whether a job has a mark.
pub(crate) fn is_marked(marks: &[bool], job: usize) -> bool
    ensures { result ≡ get_or marks.now job false }
{
    match marks.get(job) {
        Some(mark) => *mark,
        None => false,
    }
}

/// One of the needs that has no mark, if there is one.
fn unmarked(needs: &Sequence<usize>, marks: &[bool]) -> Option<usize>
    ensures { MatchOption result
        ((i : ℕ) → i < length needs.now → get_or marks.now (get_or needs.now i 0) false ≡ true)
        (λ k. Contains needs.now k × (get_or marks.now k false ≡ false)) }
{
    let needs = needs.as_slice();
    for need in needs {
        if !is_marked(marks, *need) {
            return Some(*need);
        }
    }
    None
}

/// A job without a mark that one with a mark needs, if there is one.
fn next_needed(graph: &Sequence<Sequence<usize>>, marks: &[bool]) -> Option<usize>
    ensures { MatchOption result
        (AreClosed graph.now marks.now)
        (IsNext graph.now marks.now) }
{
    let graph = graph.as_slice();
    for (job, needs) in graph.iter().enumerate() {
        if is_marked(marks, job) {
            if let Some(need) = unmarked(needs, marks) {
                return Some(need);
            }
        }
    }
    None
}

/// The target gets a mark.
fn mark_first(graph: &Sequence<Sequence<usize>>, marks: &mut [bool], target: usize)
    requires none { marks.old ≡ replicate (length graph.now) false }
    requires within { target < length graph.now }
    ensures { Marking graph.now target marks.new }
{
    marks[target] = true;
}

/// A job that one with a mark needs gets one.
fn mark_next(graph: &Sequence<Sequence<usize>>, marks: &mut [bool], target: usize, need: usize)
    requires graph { IsGraph graph.now }
    requires marking { Marking graph.now target marks.old }
    requires next { IsNext graph.now marks.old need }
    ensures marking { Marking graph.now target marks.new }
    ensures fewer { count_unmarked marks.new < count_unmarked marks.old }
{
    marks[need] = true;
}

/// The target, and all that it needs, directly or not.
pub(crate) fn chosen_for(
    alloc: Global,
    graph: &Sequence<Sequence<usize>>,
    target: usize,
) -> Result<Sequence<bool>, AllocError>
    requires graph { IsGraph graph.now }
    requires within { target < length graph.now }
    ensures { IfOk result (AreChosen graph.now target) }
{
    let mut marks = alike(alloc, false, graph.len())?;
    mark_first(graph, marks.as_mut_slice(), target);
    while let Some(need) = next_needed(graph, marks.as_slice()) {
        mark_next(graph, marks.as_mut_slice(), target, need);
    }
    Ok(Sequence::new(marks))
}
