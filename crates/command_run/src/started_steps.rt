//! The steps that were started, in the order in which they ended.

ghost use Rattle.std.specs.Prelude.{◌≡◌, ◌++◌, ℕ, IfOk, OnOk, flat_map, nat_eq};
ghost use Rattle.std.specs.HashMap.{get};
ghost use Rattle.step_host.specs.Counted.{begun_after, counted};
ghost use Rattle.command_run.specs.StepLogs as spec;

use flow_model::{Answer, Entry, Event};
use std::alloc::{AllocError, Global};
use std::collections::HashMap;

/// Whether a program was started.
fn was_started(answer: &Answer) -> bool
    ensures { result ≡ spec.was_started answer.now }
{
    match answer {
        Answer::Exit { .. } => true,
        Answer::NotStarted => false,
        Answer::BadOutput => true,
    }
}

/// How many steps of each leg are begun, by the legs' numbers.
type Begun = HashMap<u64, u64>;

/// How many steps of a leg are begun.
fn begun_of(begun: &Begun, leg: u64) -> u64
    ensures { result ≡ spec.begun_of (get nat_eq begun.now) leg }
{
    match begun.get(&leg) {
        Some(many) => *many,
        None => 0,
    }
}

/// Counts one more step of a leg.
fn count_step(begun: &mut Begun, leg: u64) -> Result<(), AllocError>
    ensures { OnOk result ((l : ℕ) → spec.begun_of (get nat_eq begun.new) l
        ≡ begun_after l (spec.begun_of (get nat_eq begun.old) l) (Event.Begin leg)) }
{
    let Some(many) = begun_of(begun, leg).checked_add(1) else {
        return Err(AllocError);
    };
    begun.insert(leg, many)?;
    Ok(())
}

/// Lists the step of a leg that was begun last, if a program was started for it.
fn list_step(
    begun: &Begun,
    leg: u64,
    answer: &Answer,
    steps: &mut Vec<(u64, u64)>,
) -> Result<(), AllocError>
    ensures { OnOk result (steps.new.items ≡ steps.old.items
        ++ spec.started_by (spec.begun_of (get nat_eq begun.now)) (Event.End leg answer.now)) }
{
    if was_started(answer) {
        let step = begun_of(begun, leg).saturating_sub(1);
        steps.push((leg, step))?;
    }
    Ok(())
}

/// Counts the step that an event begins, or lists the one that it ends, if a program was started for it.
fn follow(begun: &mut Begun, event: &Event, steps: &mut Vec<(u64, u64)>) -> Result<(), AllocError>
    ensures counts { OnOk result ((l : ℕ) → spec.begun_of (get nat_eq begun.new) l
        ≡ begun_after l (spec.begun_of (get nat_eq begun.old) l) event.now) }
    ensures lists { OnOk result (steps.new.items ≡ steps.old.items
        ++ spec.started_by (spec.begun_of (get nat_eq begun.old)) event.now) }
{
    match event {
        Event::Begin { leg } => count_step(begun, *leg),
        Event::End { leg, answer } => list_step(begun, *leg, answer, steps),
        Event::Open { .. } => Ok(()),
        Event::Judge { .. } => Ok(()),
        Event::Ask { .. } => Ok(()),
        Event::Drop { .. } => Ok(()),
        Event::Take { .. } => Ok(()),
        Event::Finish { .. } => Ok(()),
        Event::Close { .. } => Ok(()),
        Event::Cancel { .. } => Ok(()),
    }
}

/// The legs and numbers of the steps for which a program was started, in the order in which they ended. They are counted in
/// the entries: nothing is played again.
pub(crate) fn started_steps(alloc: Global, history: &[Entry]) -> Result<Vec<(u64, u64)>, AllocError>
    ensures { IfOk result (λ steps.
        steps.items ≡ flat_map spec.started_step (counted history.now)) }
{
    let mut begun = HashMap::new(alloc);
    let mut steps = Vec::new(alloc);
    for entry in history {
        follow(&mut begun, &entry.event, &mut steps)?;
    }
    Ok(steps)
}
