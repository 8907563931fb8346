//! All that may be asked about: each run, job, leg and step.

ghost use Rattle.std.specs.Prelude.{◌≡◌, IfOk, OnOk};
ghost use Rattle.board_decisions.specs.Place.{leg_at};
ghost use Rattle.why_facts.specs.Adds.{Adds};
ghost use Rattle.why_notes.specs.Account.{account_seen};
ghost use Rattle.command_why.specs.Parts as spec;

use board_decisions::place::find_leg;
use flow_model::{Member, StepPlan};
use std::alloc::{AllocError, Global};
use why_causes::question::Question;
use why_facts::notes::{JobNotes, LegNotes, RunNotes, StopNote};
use why_notes::account::SeenAccount;

/// Adds that a run or a leg was told to stop, if it was.
fn add_stop(out: &mut Vec<Question>, who: Member, stop: Option<StopNote>) -> Result<(), AllocError>
    ensures { OnOk result (Adds out.old.items out.new.items (spec.stop_part who stop)) }
{
    if stop.is_some() {
        out.push(Question::Stop(who))?;
    }
    Ok(())
}

/// Adds a run.
fn add_run(out: &mut Vec<Question>, number: u64, run: &RunNotes) -> Result<(), AllocError>
    ensures { OnOk result (Adds out.old.items out.new.items (spec.run_part number run.now)) }
{
    out.push(Question::Run(number))?;
    add_stop(out, Member::Run(number), run.stop)
}

/// Adds all runs.
fn add_runs(out: &mut Vec<Question>, runs: &[RunNotes]) -> Result<(), AllocError>
    ensures { OnOk result (Adds out.old.items out.new.items (spec.run_parts 0 runs.now)) }
{
    for (number, run) in runs.iter().enumerate() {
        add_run(out, number as u64, run)?;
    }
    Ok(())
}

/// Adds all jobs.
fn add_jobs(out: &mut Vec<Question>, jobs: &[JobNotes]) -> Result<(), AllocError>
    ensures { OnOk result (Adds out.old.items out.new.items (spec.job_parts 0 jobs.now)) }
{
    for (number, _) in jobs.iter().enumerate() {
        out.push(Question::Job(number as u64))?;
    }
    Ok(())
}

/// Adds the steps of a leg.
fn add_steps(out: &mut Vec<Question>, leg: u64, steps: &[StepPlan]) -> Result<(), AllocError>
    ensures { OnOk result (Adds out.old.items out.new.items (spec.step_parts leg 0 steps.now)) }
{
    for (place, step) in steps.iter().enumerate() {
        let _plan = step;
        out.push(Question::Step {
            leg,
            step: place as u64,
        })?;
    }
    Ok(())
}

/// Adds the steps of the leg with a number, if it is there.
fn add_leg_steps(out: &mut Vec<Question>, account: &SeenAccount, leg: u64) -> Result<(), AllocError>
    ensures { OnOk result (Adds out.old.items out.new.items (spec.step_parts leg 0
        (spec.leg_steps (leg_at account.now.plan.now account.now.board.now leg)))) }
{
    match find_leg(account.plan, account.board, leg as usize) {
        Some(at) => add_steps(out, leg, at.job_plan.steps.as_slice()),
        None => Ok(()),
    }
}

/// Adds a leg and its steps.
fn add_leg(
    out: &mut Vec<Question>,
    account: &SeenAccount,
    number: u64,
    leg: &LegNotes,
) -> Result<(), AllocError>
    ensures { OnOk result (Adds out.old.items out.new.items
        (spec.leg_part (account_seen account.now) number leg.now)) }
{
    out.push(Question::Leg(number))?;
    add_stop(out, Member::Leg(number), leg.stop)?;
    add_leg_steps(out, account, number)
}

/// Adds all legs and their steps.
fn add_legs(
    out: &mut Vec<Question>,
    account: &SeenAccount,
    legs: &[LegNotes],
) -> Result<(), AllocError>
    ensures { OnOk result (Adds out.old.items out.new.items
        (spec.leg_parts (account_seen account.now) 0 legs.now)) }
{
    for (number, leg) in legs.iter().enumerate() {
        add_leg(out, account, number as u64, leg)?;
    }
    Ok(())
}

/// All runs, all jobs, and each leg before its steps.
pub(crate) fn parts(alloc: Global, account: &SeenAccount) -> Result<Vec<Question>, AllocError>
    ensures { IfOk result (λ parts. parts.items ≡ spec.parts (account_seen account.now)) }
{
    let mut out = Vec::new(alloc);
    add_runs(&mut out, account.notes.runs.as_slice())?;
    add_jobs(&mut out, account.notes.jobs.as_slice())?;
    add_legs(&mut out, account, account.notes.legs.as_slice())?;
    Ok(out)
}
