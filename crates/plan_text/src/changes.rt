//! What a run, a job or a leg of a board has otherwise than on the board before it, as lines of the board's text.

ghost use Rattle.std.specs.Prelude.{◌≡◌, ◌↔◌, IsTrue, OnOk};
ghost use Rattle.plan_text.specs.BoardText.{Adds, job_line, run_line};
ghost use Rattle.plan_text.specs.Changes as spec;

use crate::board::{
    write_ends, write_job_line, write_leg_line, write_run_line, write_step, write_texts_line,
};
use flow_model::{DoneStep, Job, Leg, Run, Text, is_same_mapping};
use std::alloc::{AllocError, Global};

/// Whether two groups are one, or both are absent.
fn is_same_group(one: &Option<Text>, other: &Option<Text>) -> bool
    ensures { IsTrue result ↔ (one.now ≡ other.now) }
{
    match (one, other) {
        (Some(one), Some(other)) => one.as_str() == other.as_str(),
        (None, None) => true,
        (Some(_), None) | (None, Some(_)) => false,
    }
}

/// Whether the line of a run is that of the run before it.
fn is_same_run(before: &Run, run: &Run) -> bool
    ensures { IsTrue result ↔ spec.IsSameRun before.now run.now }
{
    before.state == run.state && before.stop == run.stop && is_same_group(&before.group, &run.group)
}

/// Whether a leg is what it was: its line, how many steps are done, and its outputs.
fn is_same_leg(before: &Leg, leg: &Leg) -> bool
    ensures { IsTrue result ↔ spec.IsSameLeg before.now leg.now }
{
    before.state == leg.state
        && before.stop == leg.stop
        && before.steps.len() == leg.steps.len()
        && is_same_group(&before.group, &leg.group)
        && is_same_mapping(&before.outputs, &leg.outputs)
}

/// Adds the steps from a place on.
fn add_steps(
    alloc: Global,
    text: &mut String,
    first: usize,
    steps: &[DoneStep],
) -> Result<(), AllocError>
    ensures { OnOk result (Adds text.old text.new (spec.later_steps first steps.now)) }
{
    for place in first..steps.len() {
        write_step(alloc, text, place, &steps[place])?;
    }
    Ok(())
}

/// Adds the line of a leg, the steps that it did not have before, and its outputs.
fn add_leg_change(
    alloc: Global,
    text: &mut String,
    number: u64,
    before: &Leg,
    leg: &Leg,
) -> Result<(), AllocError>
    ensures { OnOk result (Adds text.old text.new (spec.leg_change number before.now leg.now)) }
{
    write_leg_line(alloc, text, number, leg)?;
    add_steps(alloc, text, before.steps.len(), leg.steps.as_slice())?;
    write_texts_line(alloc, text, "out ", &leg.outputs)
}

/// Adds what a leg has otherwise than before: its line, the steps that it did not have, and its outputs.
pub fn add_leg(
    alloc: Global,
    text: &mut String,
    number: u64,
    before: &Leg,
    leg: &Leg,
) -> Result<(), AllocError>
    ensures { OnOk result (spec.AddsOf (spec.TellsLeg number before.now leg.now) text.old text.new) }
{
    if is_same_leg(before, leg) {
        return Ok(());
    }
    add_leg_change(alloc, text, number, before, leg)
}

/// Adds the line of a job, if it is otherwise than before.
pub fn add_job_line(
    text: &mut String,
    number: u64,
    before: &Job,
    job: &Job,
) -> Result<(), AllocError>
    ensures { OnOk result (spec.AddsOf
        (spec.ToldUnless (before.now.state ≡ job.now.state) (job_line number job.now)) text.old text.new) }
{
    if before.state == job.state {
        return Ok(());
    }
    write_job_line(text, number, job)
}

/// Adds the line of a run, if it is otherwise than before.
pub fn add_run_line(
    alloc: Global,
    text: &mut String,
    number: u64,
    before: &Run,
    run: &Run,
) -> Result<(), AllocError>
    ensures { OnOk result (spec.AddsOf
        (spec.ToldUnless (spec.IsSameRun before.now run.now) (run_line number run.now)) text.old text.new) }
{
    if is_same_run(before, run) {
        return Ok(());
    }
    write_run_line(alloc, text, number, run)
}

/// Adds the line of the legs that have ended since, in their order, if there are any.
pub fn add_ends(text: &mut String, before: &[u64], ends: &[u64]) -> Result<(), AllocError>
    ensures { OnOk result (Adds text.old text.new (spec.later_ends before.now ends.now)) }
{
    let Some(later) = ends.get(before.len()..) else {
        return Ok(());
    };
    if later.is_empty() {
        return Ok(());
    }
    write_ends(text, later)
}
