//! The names of runs, jobs, legs and steps.

ghost use Rattle.std.specs.Prelude.{OnOk, Some};
ghost use Rattle.std.specs.List.{flat_map};
ghost use Rattle.std.specs.Option.{option_copied};
ghost use Rattle.board_decisions.specs.Contexts.{pairs_in};
ghost use Rattle.board_decisions.specs.Place.{job_at, leg_at, run_at};
ghost use Rattle.board_decisions.specs.Seen.{leg_seen};
ghost use Rattle.why_facts.specs.Adds.{Adds};
ghost use Rattle.why_notes.specs.Account.{account_seen};
ghost use Rattle.command_why.specs.Names as spec;

use crate::writing::{add, add_first_line, add_number, add_shown};
use board_decisions::place::{SeenLeg, find_job, find_leg, find_run, item_at};
use expr_value::to_text;
use flow_model::{Combo, Member, StepPlan, Text, Value, Work};
use std::alloc::AllocError;
use why_notes::account::SeenAccount;

/// Adds a number and a name after it.
fn add_named(out: &mut Vec<u8>, kind: &str, number: u64, name: &str) -> Result<(), AllocError>
    ensures { OnOk result
        (Adds out.old.items out.new.items (spec.named kind.now number (spec.shown name.now))) }
{
    add_number(out, kind, number)?;
    add(out, &[" ("])?;
    add_shown(out, name)?;
    add(out, &[")"])
}

/// Adds the name of a run.
pub(crate) fn add_run_name(
    out: &mut Vec<u8>,
    account: &SeenAccount,
    number: u64,
) -> Result<(), AllocError>
    ensures { OnOk result (Adds out.old.items out.new.items (spec.run_name number
        (run_at account.now.plan.now account.now.board.now number))) }
{
    match find_run(account.plan, account.board, number as usize) {
        Some(at) => add_named(out, "run ", number, at.plan.flow.as_str()),
        None => add_number(out, "run ", number),
    }
}

/// Adds the name of a job.
pub(crate) fn add_job_name(
    out: &mut Vec<u8>,
    account: &SeenAccount,
    number: u64,
) -> Result<(), AllocError>
    ensures { OnOk result (Adds out.old.items out.new.items (spec.job_name number
        (job_at account.now.plan.now account.now.board.now number))) }
{
    match find_job(account.plan, account.board, number as usize) {
        Some(at) => add_named(out, "job ", number, at.plan.name.as_str()),
        None => add_number(out, "job ", number),
    }
}

/// Adds a variable of a combination with its value.
fn add_pair(out: &mut Vec<u8>, name: &str, value: &Value) -> Result<(), AllocError>
    ensures { OnOk result
        (Adds out.old.items out.new.items (spec.pair_words (name.now, value.now))) }
{
    let text = to_text(*out.allocator(), value)?;
    add(out, &[", "])?;
    add_shown(out, name)?;
    add(out, &[" "])?;
    add_shown(out, text.as_str())
}

/// Adds a combination.
fn add_combo(out: &mut Vec<u8>, combo: &Combo) -> Result<(), AllocError>
    ensures { OnOk result
        (Adds out.old.items out.new.items (flat_map spec.pair_words combo.now)) }
{
    for (name, value) in combo.iter() {
        add_pair(out, name.as_str(), value)?;
    }
    Ok(())
}

/// Adds the combination of a leg, if it has one.
fn add_combo_at(out: &mut Vec<u8>, combo: Option<&Combo>) -> Result<(), AllocError>
    ensures { OnOk result (Adds out.old.items out.new.items
        (flat_map spec.pair_words (pairs_in (option_copied combo.entry)))) }
{
    match combo {
        Some(combo) => add_combo(out, combo),
        None => Ok(()),
    }
}

/// Adds the name of a leg's job, and its combination.
fn add_leg_words(out: &mut Vec<u8>, at: &SeenLeg) -> Result<(), AllocError>
    ensures { OnOk result
        (Adds out.old.items out.new.items (spec.leg_words (leg_seen at.now))) }
{
    add_shown(out, at.job_plan.name.as_str())?;
    add_combo_at(out, item_at(&at.job_plan.legs, at.place.leg))
}

/// Adds the number of a leg and its name.
fn add_leg_named(out: &mut Vec<u8>, number: u64, at: &SeenLeg) -> Result<(), AllocError>
    ensures { OnOk result
        (Adds out.old.items out.new.items (spec.leg_name number (Some (leg_seen at.now)))) }
{
    add_number(out, "leg ", number)?;
    add(out, &[" ("])?;
    add_leg_words(out, at)?;
    add(out, &[")"])
}

/// Adds the name of a leg.
pub(crate) fn add_leg_name(
    out: &mut Vec<u8>,
    account: &SeenAccount,
    number: u64,
) -> Result<(), AllocError>
    ensures { OnOk result (Adds out.old.items out.new.items (spec.leg_name number
        (leg_at account.now.plan.now account.now.board.now number))) }
{
    match find_leg(account.plan, account.board, number as usize) {
        Some(at) => add_leg_named(out, number, &at),
        None => add_number(out, "leg ", number),
    }
}

/// Adds what a step does.
fn add_work(out: &mut Vec<u8>, work: &Work) -> Result<(), AllocError>
    ensures { OnOk result (Adds out.old.items out.new.items (spec.work_words work.now)) }
{
    match work {
        Work::Run { run, .. } => add_first_line(out, run.as_str()),
        Work::Uses { uses, .. } => add_shown(out, uses.as_str()),
    }
}

/// Adds the name of a step, or else what it does.
fn add_step_words(out: &mut Vec<u8>, name: &Option<Text>, work: &Work) -> Result<(), AllocError>
    ensures { OnOk result
        (Adds out.old.items out.new.items (spec.step_words name.now work.now)) }
{
    match name {
        Some(name) => add_shown(out, name.as_str()),
        None => add_work(out, work),
    }
}

/// Adds the number of a step and its name.
fn add_step_named(out: &mut Vec<u8>, number: u64, step: &StepPlan) -> Result<(), AllocError>
    ensures { OnOk result
        (Adds out.old.items out.new.items (spec.step_named number (Some step.now))) }
{
    add_number(out, "step ", number)?;
    add(out, &[" ("])?;
    add_step_words(out, &step.name, &step.work)?;
    add(out, &[")"])
}

/// Adds the name of the step of a leg, if there is such a step.
fn add_step_at(out: &mut Vec<u8>, number: u64, at: &SeenLeg) -> Result<(), AllocError>
    ensures { OnOk result
        (Adds out.old.items out.new.items (spec.step_name number (Some (leg_seen at.now)))) }
{
    match item_at(&at.job_plan.steps, number as usize) {
        Some(step) => add_step_named(out, number, step),
        None => add_number(out, "step ", number),
    }
}

/// Adds the name of a step.
pub(crate) fn add_step_name(
    out: &mut Vec<u8>,
    account: &SeenAccount,
    leg: u64,
    number: u64,
) -> Result<(), AllocError>
    ensures { OnOk result (Adds out.old.items out.new.items (spec.step_name number
        (leg_at account.now.plan.now account.now.board.now leg))) }
{
    match find_leg(account.plan, account.board, leg as usize) {
        Some(at) => add_step_at(out, number, &at),
        None => add_number(out, "step ", number),
    }
}

/// Adds the name of a run or a leg.
pub(crate) fn add_member_name(
    out: &mut Vec<u8>,
    account: &SeenAccount,
    who: Member,
) -> Result<(), AllocError>
    ensures { OnOk result (Adds out.old.items out.new.items
        (spec.member_name (account_seen account.now) who)) }
{
    match who {
        Member::Run(number) => add_run_name(out, account, number),
        Member::Leg(number) => add_leg_name(out, account, number),
    }
}
