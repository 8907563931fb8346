//! The lines of a tree.

ghost use Rattle.std.specs.Prelude.{◌≡◌, OnOk};
ghost use Rattle.std.specs.Option.{option_copied};
ghost use Rattle.why_facts.specs.Adds.{Adds};
ghost use Rattle.why_notes.specs.Account.{account_seen};
ghost use Rattle.command_why.specs.Words as spec;

use crate::names::{add_job_name, add_leg_name, add_member_name, add_run_name, add_step_name};
use crate::steps::add_step_words;
use crate::words::{add_job_words, add_leg_words, add_run_words};
use crate::writing::{add, add_number};
use board_decisions::place::item_at;
use flow_model::Member;
use std::alloc::AllocError;
use why_causes::question::Question;
use why_causes::tree::Line;
use why_facts::fact::Teller;
use why_facts::notes::{LegNotes, RunNotes, StopNote};
use why_notes::account::SeenAccount;

/// Adds the newer member that told to stop.
fn add_newer(out: &mut Vec<u8>, account: &SeenAccount, member: Member) -> Result<(), AllocError>
    ensures { OnOk result (Adds out.old.items out.new.items
        (spec.teller_words (account_seen account.now) (Teller.Newer member))) }
{
    add(out, &[" by "])?;
    add_member_name(out, account, member)?;
    add(out, &[", a newer member of its group"])
}

/// Adds who told to stop.
fn add_teller(out: &mut Vec<u8>, account: &SeenAccount, teller: Teller) -> Result<(), AllocError>
    ensures { OnOk result (Adds out.old.items out.new.items
        (spec.teller_words (account_seen account.now) teller)) }
{
    match teller {
        Teller::Cancel => add(out, &[" by cancel"]),
        Teller::Newer(member) => add_newer(out, account, member),
    }
}

/// Who told a run to stop.
fn run_stop(notes: Option<&RunNotes>) -> Option<StopNote>
    ensures { result ≡ spec.run_stop (option_copied notes.entry) }
{
    match notes {
        Some(notes) => notes.stop,
        None => None,
    }
}

/// Who told a leg to stop.
fn leg_stop(notes: Option<&LegNotes>) -> Option<StopNote>
    ensures { result ≡ spec.leg_stop (option_copied notes.entry) }
{
    match notes {
        Some(notes) => notes.stop,
        None => None,
    }
}

/// Who told a run or a leg to stop.
pub(crate) fn stop_of(account: &SeenAccount, who: Member) -> Option<StopNote>
    ensures { result ≡ spec.stop_of (account_seen account.now) who }
{
    match who {
        Member::Run(number) => run_stop(item_at(&account.notes.runs, number as usize)),
        Member::Leg(number) => leg_stop(item_at(&account.notes.legs, number as usize)),
    }
}

/// Adds that a run or a leg was told to stop.
fn add_stop(
    out: &mut Vec<u8>,
    account: &SeenAccount,
    stop: Option<StopNote>,
) -> Result<(), AllocError>
    ensures { OnOk result (Adds out.old.items out.new.items
        (spec.stop_words (account_seen account.now) stop)) }
{
    match stop {
        Some(note) => {
            add_number(out, " was told to stop at line ", note.line)?;
            add_teller(out, account, note.teller)
        },
        None => add(out, &[" was told to stop"]),
    }
}

/// Adds the name of what is asked about.
pub(crate) fn add_name(
    out: &mut Vec<u8>,
    account: &SeenAccount,
    question: Question,
) -> Result<(), AllocError>
    ensures { OnOk result (Adds out.old.items out.new.items
        (spec.question_name (account_seen account.now) question)) }
{
    match question {
        Question::Run(number) => add_run_name(out, account, number),
        Question::Job(number) => add_job_name(out, account, number),
        Question::Leg(number) => add_leg_name(out, account, number),
        Question::Step { leg, step } => add_step_name(out, account, leg, step),
        Question::Stop(who) => add_member_name(out, account, who),
    }
}

/// Adds what is said of it.
fn add_words(out: &mut Vec<u8>, account: &SeenAccount, question: Question) -> Result<(), AllocError>
    ensures { OnOk result (Adds out.old.items out.new.items
        (spec.question_words (account_seen account.now) question)) }
{
    match question {
        Question::Run(number) => add_run_words(out, account, number),
        Question::Job(number) => add_job_words(out, account, number),
        Question::Leg(number) => add_leg_words(out, account, number),
        Question::Step { leg, step } => add_step_words(out, account, leg, step),
        Question::Stop(who) => add_stop(out, account, stop_of(account, who)),
    }
}

/// What is said of what was said already.
fn above_words(question: Question) -> &'static str
    ensures { result.now ≡ spec.above_words question }
{
    match question {
        Question::Run(_) => " (above)",
        Question::Job(_) => " (above)",
        Question::Leg(_) => " (above)",
        Question::Step { .. } => " (above)",
        Question::Stop(_) => " was told to stop (above)",
    }
}

/// Adds what is said, unless it was said already.
pub(crate) fn add_said(
    out: &mut Vec<u8>,
    account: &SeenAccount,
    question: Question,
    above: bool,
) -> Result<(), AllocError>
    ensures { OnOk result (Adds out.old.items out.new.items
        (spec.said (account_seen account.now) question above)) }
{
    if above {
        return add(out, &[above_words(question)]);
    }
    add_words(out, account, question)
}

/// Adds two blanks for each step deeper.
fn add_indent(out: &mut Vec<u8>, depth: u64) -> Result<(), AllocError>
    ensures { OnOk result (Adds out.old.items out.new.items (spec.indent depth)) }
{
    let mut left = depth;
    while left > 0 {
        left -= 1;
        add(out, &["  "])?;
    }
    Ok(())
}

/// Adds a line of the tree.
fn add_line(out: &mut Vec<u8>, account: &SeenAccount, line: Line) -> Result<(), AllocError>
    ensures { OnOk result (Adds out.old.items out.new.items
        (spec.line_words (account_seen account.now) line)) }
{
    add_indent(out, line.depth)?;
    add_name(out, account, line.question)?;
    add_said(out, account, line.question, line.above)?;
    add(out, &["\n"])
}

/// Adds the lines of a tree.
pub(crate) fn add_lines(
    out: &mut Vec<u8>,
    account: &SeenAccount,
    lines: &[Line],
) -> Result<(), AllocError>
    ensures { OnOk result (Adds out.old.items out.new.items
        (spec.tree_text (account_seen account.now) lines.now)) }
{
    for line in lines {
        add_line(out, account, *line)?;
    }
    Ok(())
}
