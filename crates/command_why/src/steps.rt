//! What is said of steps.

ghost use Rattle.std.specs.Prelude.{◌≡◌, ◌++◌, OnOk, codes, decimal};
ghost use Rattle.std.specs.Option.{option_copied};
ghost use Rattle.why_causes.specs.Causes.{is_called as is_called_of};
ghost use Rattle.board_decisions.specs.Place.{leg_at};
ghost use Rattle.board_decisions.specs.Seen.{leg_seen};
ghost use Rattle.why_facts.specs.Adds.{Adds};
ghost use Rattle.why_notes.specs.Account.{account_seen};
ghost use Rattle.command_why.specs.Words as spec;

use crate::words::{add_at, add_faulted, add_stopped, add_untrue};
use crate::writing::{add, add_number};
use board_decisions::place::{SeenLeg, find_leg, item_at};
use flow_model::{DoneStep, Leg, LegState, Outcome, StepPlan, ValueFault};
use std::alloc::AllocError;
use why_causes::causes::step_last;
use why_facts::fact::{StepFact, StepText};
use why_facts::notes::{LegNotes, StepNote};
use why_notes::account::SeenAccount;

/// That a failure is passed over.
fn passed_words(done: Option<&DoneStep>) -> &'static str
    ensures { result.now ≡ spec.passed_words (option_copied done.entry) }
{
    match done {
        Some(done) => match done.conclusion {
            Outcome::Success => ", which is passed over",
            Outcome::Failure => "",
            Outcome::Cancelled => "",
            Outcome::Skipped => "",
        },
        None => "",
    }
}

/// A text of a step.
fn text_words(text: StepText) -> &'static str
    ensures { result.now ≡ spec.text_words text }
{
    match text {
        StepText::FlowEnv => "a variable of its workflow",
        StepText::JobEnv => "a variable of its job",
        StepText::StepEnv => "a variable of its own",
        StepText::Condition => "its condition",
        StepText::Work => "a text of what it does",
    }
}

/// Adds that a step failed, and why.
fn add_failed(
    out: &mut Vec<u8>,
    line: u64,
    words: &str,
    done: Option<&DoneStep>,
) -> Result<(), AllocError>
    ensures { OnOk result (Adds out.old.items out.new.items
        ((codes " failed" ++ spec.at_line line)
        ++ (words.now ++ spec.passed_words (option_copied done.entry)))) }
{
    add(out, &[" failed"])?;
    add_at(out, line)?;
    add(out, &[words])?;
    add(out, &[passed_words(done)])
}

/// Adds that a step failed with a code.
fn add_code(
    out: &mut Vec<u8>,
    line: u64,
    code: u64,
    done: Option<&DoneStep>,
) -> Result<(), AllocError>
    ensures { OnOk result (Adds out.old.items out.new.items
        ((codes " failed" ++ spec.at_line line) ++ ((codes ": the program ended with " ++ decimal code)
        ++ spec.passed_words (option_copied done.entry)))) }
{
    add(out, &[" failed"])?;
    add_at(out, line)?;
    add_number(out, ": the program ended with ", code)?;
    add(out, &[passed_words(done)])
}

/// Adds what a program ended with.
fn add_exit(
    out: &mut Vec<u8>,
    line: u64,
    done: Option<&DoneStep>,
    code: i64,
) -> Result<(), AllocError>
    ensures { OnOk result (Adds out.old.items out.new.items
        (spec.exit_words line (option_copied done.entry) code)) }
{
    if code == 0 {
        add(out, &[" succeeded"])?;
        return add_at(out, line);
    }
    if code > 0 {
        return add_code(out, line, code as u64, done);
    }
    add_failed(out, line, "", done)
}

/// Adds the condition of a step, which is not true.
fn add_step_untrue(out: &mut Vec<u8>, line: u64, step: Option<&StepPlan>) -> Result<(), AllocError>
    ensures { OnOk result (Adds out.old.items out.new.items (codes " was skipped"
        ++ (spec.at_line line ++ (codes ": its condition is not true: "
        ++ spec.condition_words (spec.step_condition (option_copied step.entry)))))) }
{
    match step {
        Some(step) => add_untrue(out, line, &step.condition),
        None => add_untrue(out, line, &None),
    }
}

/// Adds which step counts as a failure.
fn add_counted(out: &mut Vec<u8>, failed: u64) -> Result<(), AllocError>
    ensures { OnOk result (Adds out.old.items out.new.items
        ((codes ": step " ++ decimal failed) ++ codes " counts as a failure")) }
{
    add_number(out, ": step ", failed)?;
    add(out, &[" counts as a failure"])
}

/// Adds that a step was skipped after a failure.
fn add_after_failure(out: &mut Vec<u8>, line: u64, failed: u64) -> Result<(), AllocError>
    ensures { OnOk result (Adds out.old.items out.new.items (codes " was skipped"
        ++ (spec.at_line line ++ ((codes ": step " ++ decimal failed) ++ codes " counts as a failure")))) }
{
    add(out, &[" was skipped"])?;
    add_at(out, line)?;
    add_counted(out, failed)
}

/// Adds that a step was not started.
fn add_unstarted(out: &mut Vec<u8>, line: u64, done: Option<&DoneStep>) -> Result<(), AllocError>
    ensures { OnOk result (Adds out.old.items out.new.items ((codes " failed" ++ spec.at_line line)
        ++ (codes ": it was not started" ++ spec.passed_words (option_copied done.entry)))) }
{
    add_failed(out, line, ": it was not started", done)
}

/// Adds that what a step gave could not be read.
fn add_unread(out: &mut Vec<u8>, line: u64, done: Option<&DoneStep>) -> Result<(), AllocError>
    ensures { OnOk result (Adds out.old.items out.new.items ((codes " failed" ++ spec.at_line line)
        ++ (codes ": what it gave could not be read"
        ++ spec.passed_words (option_copied done.entry)))) }
{
    add_failed(out, line, ": what it gave could not be read", done)
}

/// Adds that a step failed since a text of it has no value.
fn add_failed_text(
    out: &mut Vec<u8>,
    line: u64,
    text: StepText,
    fault: ValueFault,
) -> Result<(), AllocError>
    ensures { OnOk result (Adds out.old.items out.new.items
        (codes " failed" ++ spec.faulted_words line (spec.text_words text) fault)) }
{
    add(out, &[" failed"])?;
    add_faulted(out, line, text_words(text), fault)
}

/// Adds that a step failed since a text of it has no value, and whether that is passed over.
fn add_step_faulted(
    out: &mut Vec<u8>,
    line: u64,
    text: StepText,
    fault: ValueFault,
    done: Option<&DoneStep>,
) -> Result<(), AllocError>
    ensures { OnOk result (Adds out.old.items out.new.items
        ((codes " failed" ++ spec.faulted_words line (spec.text_words text) fault)
        ++ spec.passed_words (option_copied done.entry))) }
{
    add_failed_text(out, line, text, fault)?;
    add(out, &[passed_words(done)])
}

/// Adds what is said of a step that is done.
fn add_step_fact(
    out: &mut Vec<u8>,
    account: &SeenAccount,
    at: &SeenLeg,
    step: u64,
    note: StepNote,
) -> Result<(), AllocError>
    ensures { OnOk result (Adds out.old.items out.new.items (spec.step_fact_words
        (account_seen account.now) (leg_seen at.now) step note.line note.fact)) }
{
    let line = note.line;
    let done = item_at(&at.leg.steps, step as usize);
    match note.fact {
        StepFact::Exited(code) => add_exit(out, line, done, code),
        StepFact::NotStarted => add_unstarted(out, line, done),
        StepFact::BadOutput => add_unread(out, line, done),
        StepFact::Stopping(cause) => { add_stopped(out, account, " was skipped", line, cause) },
        StepFact::AfterFailure(failed) => add_after_failure(out, line, failed),
        StepFact::Untrue => {
            add_step_untrue(out, line, item_at(&at.job_plan.steps, step as usize))
        },
        StepFact::Faulted(text, fault) => add_step_faulted(out, line, text, fault, done),
    }
}

/// The line at which the last call of a leg began.
pub(crate) fn call_line(notes: Option<&LegNotes>) -> Option<u64>
    ensures { result ≡ spec.call_line (option_copied notes.entry) }
{
    match notes {
        Some(notes) => notes.call,
        None => None,
    }
}

/// Whether the next step of a leg, at this place, is in its call.
pub(crate) fn is_called(step: u64, leg: &Leg) -> bool
    ensures { result ≡ is_called_of step leg.now }
{
    matches!(leg.state, LegState::Running { in_call: true, .. }) && step == leg.steps.len() as u64
}

/// Adds what is said of a step that is not done.
fn add_undone(
    out: &mut Vec<u8>,
    at: &SeenLeg,
    step: u64,
    call: Option<u64>,
) -> Result<(), AllocError>
    ensures { OnOk result
        (Adds out.old.items out.new.items (spec.undone_words (leg_seen at.now) step call)) }
{
    if !is_called(step, at.leg) {
        return add(out, &[" has not begun"]);
    }
    match call {
        Some(line) => add_number(out, " runs since line ", line),
        None => add(out, &[" runs"]),
    }
}

/// Adds what is said of a step.
pub(crate) fn add_step_words(
    out: &mut Vec<u8>,
    account: &SeenAccount,
    leg: u64,
    step: u64,
) -> Result<(), AllocError>
    ensures { OnOk result (Adds out.old.items out.new.items
        (spec.step_found_words (account_seen account.now) leg step
        (leg_at account.now.plan.now account.now.board.now leg))) }
{
    let Some(at) = find_leg(account.plan, account.board, leg as usize) else {
        return Ok(());
    };
    let notes = item_at(&account.notes.legs, leg as usize);
    match step_last(notes, step as usize) {
        Some(note) => add_step_fact(out, account, &at, step, note),
        None => add_undone(out, &at, step, call_line(notes)),
    }
}
