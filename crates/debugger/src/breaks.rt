//! Breaks, and the set of those that are set.

ghost use Rattle.std.specs.Prelude.{◌≡◌, OnOk, OnErr};
ghost use Rattle.debugger.specs.Breaks as spec;

use flow_model::Event;
use std::alloc::AllocError;

/// Where `go` and `go_back` stop.
#[derive(Clone, Copy)]
pub enum Break {
    /// The entry is about the leg.
    Leg(u64),
    /// The entry is the Begin of this step, from 0, of the leg.
    Step(u64, u64),
    /// The leg became Ended by the entry.
    Ends(u64),
    /// Some leg became Ended with failure by the entry, tolerated or not.
    Failed,
}

/// Whether two breaks are one.
pub(crate) fn is_same(one: Break, other: Break) -> bool
    ensures { result ≡ spec.same_break one other }
{
    match (one, other) {
        (Break::Leg(leg), Break::Leg(twin)) => leg == twin,
        (Break::Step(leg, step), Break::Step(twin, other_step)) => {
            leg == twin && step == other_step
        },
        (Break::Ends(leg), Break::Ends(twin)) => leg == twin,
        (Break::Failed, Break::Failed) => true,
        (Break::Leg(_) | Break::Step(_, _) | Break::Ends(_) | Break::Failed, _) => false,
    }
}

/// Whether a break is set.
pub(crate) fn is_set(breaks: &[Break], wanted: Break) -> bool
    ensures { result ≡ spec.is_set wanted breaks.now }
{
    for one in breaks {
        if is_same(*one, wanted) {
            return true;
        }
    }
    false
}

/// Sets a break, if it is not set.
pub(crate) fn set(breaks: &mut Vec<Break>, added: Break) -> Result<(), AllocError>
    ensures ok { OnOk result (breaks.new.items ≡ spec.with_break added breaks.old.items) }
    ensures alone { OnOk result (spec.AddsAlone added breaks.old.items breaks.new.items) }
    ensures err { OnErr result (breaks.new.items ≡ breaks.old.items) }
{
    if is_set(breaks.as_slice(), added) {
        return Ok(());
    }
    breaks.push(added)?;
    Ok(())
}

/// Takes a break out of the set, and tells whether it was set.
pub(crate) fn clear(breaks: &mut Vec<Break>, cleared: Break) -> bool
    ensures was { result ≡ spec.is_set cleared breaks.old.items }
    ensures left { breaks.new.items ≡ spec.without_break cleared breaks.old.items }
    ensures alone { spec.ClearsAlone cleared breaks.old.items breaks.new.items }
{
    let was = is_set(breaks.as_slice(), cleared);
    breaks.retain(|one| !is_same(*one, cleared));
    was
}

/// Whether an event is about a leg.
pub(crate) fn is_about(event: &Event, leg: u64) -> bool
    ensures { result ≡ spec.is_about leg event.now }
{
    match event {
        Event::Ask { leg: other } => *other == leg,
        Event::Drop { leg: other } => *other == leg,
        Event::Take { leg: other } => *other == leg,
        Event::Begin { leg: other } => *other == leg,
        Event::End { leg: other, .. } => *other == leg,
        Event::Finish { leg: other } => *other == leg,
        Event::Open { .. } | Event::Judge { .. } => false,
        Event::Close { .. } | Event::Cancel { .. } => false,
    }
}
