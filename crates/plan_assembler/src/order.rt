//! The order of a run's jobs, and the numbers of their needs.

ghost use Rattle.std.specs.Prelude.{◌≡◌, ◌<◌, ◌+◌, ◌^◌, ◌++◌, ◌≤◌, ℕ, false, IfOk, OnOk, length, get_or};
ghost use Rattle.std.specs.List.{All};
ghost use Rattle.plan_assembler.specs.Order as spec;
ghost use Rattle.plan_assembler.specs.Order.{AreMarks};

use crate::chosen::is_marked;
use flow_model::Sequence;
use std::alloc::{AllocError, Global};

/// Adds the places that have this stage.
fn push_stage(
    order: &mut Vec<usize>,
    stages: &Sequence<usize>,
    stage: usize,
) -> Result<(), AllocError>
    ensures { OnOk result (order.new.items ≡ order.old.items ++ spec.places_of stage 0 stages.now) }
{
    let stages = stages.as_slice();
    for (place, found) in stages.iter().enumerate() {
        if *found == stage {
            order.push(place)?;
        }
    }
    Ok(())
}

/// The greatest stage, or 0 where there is none.
fn greatest(stages: &Sequence<usize>) -> usize
    ensures { (j : ℕ) → get_or stages.now j 0 ≤ result }
{
    let stages = stages.as_slice();
    let mut greatest = 0;
    for stage in stages {
        if greatest < *stage {
            greatest = *stage;
        }
    }
    greatest
}

/// All places, by their stage.
fn by_stage(alloc: Global, stages: &Sequence<usize>) -> Result<Sequence<usize>, AllocError>
    ensures { IfOk result (λ order. order ≡ spec.by_stage (length stages.now) 0 stages.now) }
{
    let mut order = Vec::with_capacity(alloc, stages.len())?;
    let last = greatest(stages);
    for stage in 0..stages.len() {
        if last < stage {
            return Ok(Sequence::new(order));
        }
        push_stage(&mut order, stages, stage)?;
    }
    Ok(Sequence::new(order))
}

/// Whether a job is chosen.
fn is_chosen(chosen: &Sequence<bool>, job: usize) -> bool
    ensures { result ≡ get_or chosen.now job false }
{
    match chosen.as_slice().get(job) {
        Some(mark) => *mark,
        None => false,
    }
}

/// The chosen ones of these places.
fn kept(
    alloc: Global,
    places: &Sequence<usize>,
    chosen: &Sequence<bool>,
) -> Result<Sequence<usize>, AllocError>
    ensures kept { IfOk result (λ order. order ≡ spec.chosen_of chosen.now places.now) }
    ensures long { IfOk result (λ order. length order < 2 ^ 63) }
{
    let places = places.as_slice();
    let mut order = Vec::new(alloc);
    for place in places {
        if is_chosen(chosen, *place) {
            order.push(*place)?;
        }
    }
    Ok(Sequence::new(order))
}

/// The chosen jobs, by their stage and then by their id.
pub(crate) fn order_of(
    alloc: Global,
    stages: &Sequence<usize>,
    chosen: &Sequence<bool>,
) -> Result<Sequence<usize>, AllocError>
    ensures order { IfOk result (λ order. order ≡ spec.order_of stages.now chosen.now) }
    ensures long { IfOk result (λ order. length order < 2 ^ 63) }
{
    let places = by_stage(alloc, stages)?;
    kept(alloc, &places, chosen)
}

/// Marks at the places of needs.
fn mark_needs(alloc: Global, needs: &Sequence<usize>, count: usize) -> Result<Vec<bool>, AllocError>
    requires { All (λ need. need < count) needs.now }
    ensures { IfOk result (λ marks. AreMarks needs.now marks.items) }
{
    let needs = needs.as_slice();
    let mut marks = vec![in alloc; false; count]?;
    for need in needs {
        marks[*need] = true;
    }
    Ok(marks)
}

/// The numbers of those jobs that are needed, where the first job has the number `first`. There are
/// `count` places.
pub(crate) fn numbers_of(
    alloc: Global,
    first: u64,
    order: &Sequence<usize>,
    needs: &Sequence<usize>,
    count: usize,
) -> Result<Sequence<u64>, AllocError>
    requires fits { first + length order.now < 2 ^ 64 }
    requires within { All (λ need. need < count) needs.now }
    ensures { IfOk result (λ numbers. numbers ≡ spec.numbers_of first order.now needs.now) }
{
    let order = order.as_slice();
    let marks = mark_needs(alloc, needs, count)?;
    let marks = marks.as_slice();
    let mut numbers = Vec::new(alloc);
    for (place, job) in order.iter().enumerate() {
        if is_marked(marks, *job) {
            numbers.push(first + place as u64)?;
        }
    }
    Ok(Sequence::new(numbers))
}
