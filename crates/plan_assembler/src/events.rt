//! The names of the events that workflows name.

ghost use Rattle.std.specs.Prelude.{◌≡◌, [], IfOk, OnOk};
ghost use Rattle.std.specs.Cmp.Lexicographic.{slice_cmp};
ghost use Rattle.std.specs.List.Sorted.{IsStrictlySortedBy};
ghost use Rattle.std.specs.Ordering.{nat_cmp};
ghost use Rattle.flow_model.specs.Mapping.{keys_of};
ghost use Rattle.plan_assembler.specs.Events as spec;
ghost use Rattle.plan_assembler.specs.Events.{AreEvents};

use flow_model::{Flow, Mapping, Sequence, Text};
use std::alloc::{AllocError, Global};

/// Adds names.
fn add_names(
    alloc: Global,
    marked: &mut Mapping<()>,
    names: &Sequence<Text>,
) -> Result<(), AllocError>
    ensures { OnOk result (marked.new ≡ spec.with_names names.now marked.old) }
{
    let names = names.as_slice();
    for name in names {
        marked.set(alloc, name.as_str(), ())?;
    }
    Ok(())
}

/// The names of the events of workflows.
fn marked_events(alloc: Global, flows: &Sequence<Flow>) -> Result<Mapping<()>, AllocError>
    ensures { IfOk result (λ marked. marked ≡ spec.with_events flows.now []) }
{
    let flows = flows.as_slice();
    let mut marked = Mapping::empty(alloc);
    for flow in flows {
        let workflow = flow.workflow();
        add_names(alloc, &mut marked, &workflow.events)?;
    }
    Ok(marked)
}

/// The names, in byte order.
fn listed(alloc: Global, marked: &Mapping<()>) -> Result<Sequence<Text>, AllocError>
    ensures names { IfOk result (λ names. names ≡ keys_of marked.now) }
    ensures in_order { IfOk result (λ names. IsStrictlySortedBy (slice_cmp nat_cmp) names) }
{
    let from = marked.iter();
    let mut names = Vec::with_capacity(alloc, marked.len())?;
    for (name, _mark) in from {
        names.push(Text::from_str(alloc, name.as_str())?)?;
    }
    Ok(Sequence::new(names))
}

/// The names of the events that some workflow names, each once, in byte order.
pub(crate) fn events_of(alloc: Global, flows: &Sequence<Flow>) -> Result<Sequence<Text>, AllocError>
    ensures { IfOk result (AreEvents flows.now) }
{
    let marked = marked_events(alloc, flows)?;
    listed(alloc, &marked)
}
