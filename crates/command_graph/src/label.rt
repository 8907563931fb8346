//! The labels of runs and jobs.

ghost use Rattle.std.specs.Prelude.{◌≡◌, ◌+◌, IfOk, OnOk};
ghost use Rattle.command_graph.specs.Dot as spec;
ghost use Rattle.command_graph.specs.Quoted.{Adds};

use crate::standing::{Stand, leg_words, stand_word};
use crate::writing::{add, add_number};
use flow_model::{JobPlan, Leg, RunPlan};
use std::alloc::{AllocError, Global};

/// The number that stands this many places after another. No memory holds more legs than a `u64` counts.
pub(crate) fn later(number: u64, places: usize) -> Result<u64, AllocError>
    ensures { IfOk result (λ next. next ≡ number + places) }
{
    match number.checked_add(places as u64) {
        Some(next) => Ok(next),
        None => Err(AllocError),
    }
}

/// Adds how something stands, where there is a board.
fn add_stand(text: &mut Vec<u8>, stand: Option<Stand>) -> Result<(), AllocError>
    ensures { OnOk result (Adds text.old.items text.new.items (spec.stand_words stand)) }
{
    match stand {
        Some(stand) => add(text, &[": ", stand_word(stand)]),
        None => Ok(()),
    }
}

/// Adds how many legs a job has, where it is not one.
fn add_count(text: &mut Vec<u8>, count: usize) -> Result<(), AllocError>
    ensures { OnOk result (Adds text.old.items text.new.items (spec.count_words count)) }
{
    if count == 1 {
        return Ok(());
    }
    add_number(text, ", ", count as u64)?;
    add(text, &[" legs"])
}

/// Adds the line of a leg.
fn add_leg(text: &mut Vec<u8>, number: u64, leg: &Leg) -> Result<(), AllocError>
    ensures { OnOk result (Adds text.old.items text.new.items (spec.leg_line number leg.now)) }
{
    let (state, tolerated) = leg_words(leg.state);
    add_number(text, "\nleg ", number)?;
    add(text, &[": ", state, tolerated])
}

/// Adds the lines of legs.
fn add_legs(text: &mut Vec<u8>, first: u64, legs: &[Leg]) -> Result<(), AllocError>
    ensures { OnOk result (Adds text.old.items text.new.items (spec.leg_lines first legs.now)) }
{
    let mut number = first;
    for leg in legs {
        add_leg(text, number, leg)?;
        number = later(number, 1)?;
    }
    Ok(())
}

/// Adds what is said of the legs of a job.
fn add_states(text: &mut Vec<u8>, count: usize, first: u64, legs: &[Leg]) -> Result<(), AllocError>
    ensures { OnOk result
        (Adds text.old.items text.new.items (spec.legs_words count first legs.now)) }
{
    if legs.is_empty() {
        add_count(text, count)
    } else {
        add_legs(text, first, legs)
    }
}

/// The label of a job, of whose legs the first has this number.
pub(crate) fn job_label(
    alloc: Global,
    first: u64,
    job: &JobPlan,
    stand: Option<Stand>,
    legs: &[Leg],
) -> Result<Vec<u8>, AllocError>
    ensures { IfOk result (λ label. label.items ≡ spec.job_label first job.now stand legs.now) }
{
    let mut text = Vec::new(alloc);
    add(&mut text, &[job.name.as_str()])?;
    add_number(&mut text, "\njob ", job.number)?;
    add_stand(&mut text, stand)?;
    add_states(&mut text, job.legs.len(), first, legs)?;
    Ok(text)
}

/// The label of a run.
pub(crate) fn run_label(
    alloc: Global,
    number: u64,
    run: &RunPlan,
    stand: Option<Stand>,
) -> Result<Vec<u8>, AllocError>
    ensures { IfOk result (λ label. label.items ≡ spec.run_label number run.now stand) }
{
    let mut text = Vec::new(alloc);
    add(&mut text, &[run.flow.as_str()])?;
    add_number(&mut text, "\nrun ", number)?;
    add_stand(&mut text, stand)?;
    Ok(text)
}
