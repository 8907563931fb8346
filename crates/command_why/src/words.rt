//! What is said of runs, jobs and legs.

ghost use Rattle.std.specs.Prelude.{◌≡◌, ◌++◌, OnOk, codes};
ghost use Rattle.why_facts.specs.Adds.{Adds};
ghost use Rattle.why_notes.specs.Account.{account_seen};
ghost use Rattle.flow_model.specs.Faults.{value_fault_name};
ghost use Rattle.command_why.specs.Names as names;
ghost use Rattle.board_decisions.specs.Place.{job_at, leg_at, run_at};
ghost use Rattle.board_decisions.specs.Seen.{job_seen, leg_seen, run_seen};
ghost use Rattle.command_why.specs.Words as spec;

use crate::names::{add_leg_name, add_member_name};
use crate::writing::{add, add_number, add_shown};
use board_decisions::derived::{job_has_ended, legs_result};
use board_decisions::place::{SeenJob, SeenLeg, SeenRun, find_job, find_leg, find_run, item_at};
use flow_model::{JobState, LegState, Member, Outcome, Text, ValueFault};
use std::alloc::AllocError;
use why_causes::causes::{job_last, leg_last, run_last};
use why_facts::fact::{JobFact, MemberFact, StopCause};
use why_facts::notes::{JobNote, MemberNote};
use why_notes::account::SeenAccount;

/// Adds at which line.
pub(crate) fn add_at(out: &mut Vec<u8>, line: u64) -> Result<(), AllocError>
    ensures { OnOk result (Adds out.old.items out.new.items (spec.at_line line)) }
{
    add_number(out, " at line ", line)
}

/// How a run or a job ended.
fn ended_words(how: Outcome) -> &'static str
    ensures { result.now ≡ spec.ended_words how }
{
    match how {
        Outcome::Success => " succeeded",
        Outcome::Failure => " failed",
        Outcome::Cancelled => " was cancelled",
        Outcome::Skipped => " was skipped",
    }
}

/// How a leg ended.
fn leg_ended_words(how: Outcome) -> &'static str
    ensures { result.now ≡ spec.leg_ended_words how }
{
    match how {
        Outcome::Success => " ended success",
        Outcome::Failure => " ended failure",
        Outcome::Cancelled => " ended cancelled",
        Outcome::Skipped => " ended skipped",
    }
}

/// Adds the name of a group, if it has one.
fn add_group(out: &mut Vec<u8>, group: &Option<Text>) -> Result<(), AllocError>
    ensures { OnOk result (Adds out.old.items out.new.items (spec.group_words group.now)) }
{
    match group {
        Some(name) => {
            add(out, &["the group "])?;
            add_shown(out, name.as_str())
        },
        None => add(out, &["its group"]),
    }
}

// ---- what becomes of a run or a leg in its group

/// Adds behind whom a run or a leg waits.
fn add_behind(out: &mut Vec<u8>, account: &SeenAccount, holds: Member) -> Result<(), AllocError>
    ensures { OnOk result (Adds out.old.items out.new.items
        (codes " behind " ++ names.member_name (account_seen account.now) holds)) }
{
    add(out, &[" behind "])?;
    add_member_name(out, account, holds)
}

/// Adds for which group it waits.
fn add_for(out: &mut Vec<u8>, group: &Option<Text>) -> Result<(), AllocError>
    ensures { OnOk result
        (Adds out.old.items out.new.items (codes " for " ++ spec.group_words group.now)) }
{
    add(out, &[" for "])?;
    add_group(out, group)
}

/// Adds for which group it waits, and behind whom.
fn add_queue(
    out: &mut Vec<u8>,
    account: &SeenAccount,
    group: &Option<Text>,
    holds: Member,
) -> Result<(), AllocError>
    ensures { OnOk result (Adds out.old.items out.new.items
        ((codes " for " ++ spec.group_words group.now)
        ++ (codes " behind " ++ names.member_name (account_seen account.now) holds))) }
{
    add_for(out, group)?;
    add_behind(out, account, holds)
}

/// Adds that a run or a leg waits.
fn add_waits(
    out: &mut Vec<u8>,
    account: &SeenAccount,
    line: u64,
    group: &Option<Text>,
    holds: Member,
) -> Result<(), AllocError>
    ensures { OnOk result (Adds out.old.items out.new.items
        (spec.waits_words (account_seen account.now) line group.now holds)) }
{
    add_number(out, " waits since line ", line)?;
    add_queue(out, account, group, holds)
}

/// Adds whom it follows.
fn add_follows(out: &mut Vec<u8>, account: &SeenAccount, before: Member) -> Result<(), AllocError>
    ensures { OnOk result (Adds out.old.items out.new.items
        (spec.follows_words (account_seen account.now) before)) }
{
    add(out, &[", when "])?;
    add_member_name(out, account, before)?;
    add(out, &[" left its group"])
}

/// Adds who took its place.
fn add_taken(out: &mut Vec<u8>, account: &SeenAccount, by: Member) -> Result<(), AllocError>
    ensures { OnOk result (Adds out.old.items out.new.items
        (codes ": " ++ (names.member_name (account_seen account.now) by
        ++ codes " took its place in the group"))) }
{
    add(out, &[": "])?;
    add_member_name(out, account, by)?;
    add(out, &[" took its place in the group"])
}

/// Adds that it lost its place, and to whom.
fn add_displaced(
    out: &mut Vec<u8>,
    account: &SeenAccount,
    words: &str,
    line: u64,
    by: Member,
) -> Result<(), AllocError>
    ensures { OnOk result (Adds out.old.items out.new.items
        (words.now ++ spec.displaced_words (account_seen account.now) line by)) }
{
    add(out, &[words])?;
    add_at(out, line)?;
    add_taken(out, account, by)
}

/// Adds words and more words after them.
fn add_both(out: &mut Vec<u8>, words: &str, more: &str) -> Result<(), AllocError>
    ensures { OnOk result (Adds out.old.items out.new.items (words.now ++ more.now)) }
{
    add(out, &[words, more])
}

/// Adds that it has no value, and by which fault.
fn add_no_value(out: &mut Vec<u8>, fault: ValueFault) -> Result<(), AllocError>
    ensures { OnOk result
        (Adds out.old.items out.new.items (codes " has no value: " ++ value_fault_name fault)) }
{
    add_both(out, " has no value: ", fault.name())
}

/// Adds which text has no value, and by which fault.
fn add_valueless(out: &mut Vec<u8>, what: &str, fault: ValueFault) -> Result<(), AllocError>
    ensures { OnOk result (Adds out.old.items out.new.items
        ((codes ": " ++ what.now) ++ (codes " has no value: " ++ value_fault_name fault))) }
{
    add_both(out, ": ", what)?;
    add_no_value(out, fault)
}

/// Adds that a text has no value.
pub(crate) fn add_faulted(
    out: &mut Vec<u8>,
    line: u64,
    what: &str,
    fault: ValueFault,
) -> Result<(), AllocError>
    ensures { OnOk result
        (Adds out.old.items out.new.items (spec.faulted_words line what.now fault)) }
{
    add_at(out, line)?;
    add_valueless(out, what, fault)
}

/// Adds words, at which line, and words after that.
fn add_ended(out: &mut Vec<u8>, words: &str, line: u64, after: &str) -> Result<(), AllocError>
    ensures { OnOk result (Adds out.old.items out.new.items
        (words.now ++ (spec.at_line line ++ after.now))) }
{
    add(out, &[words])?;
    add_at(out, line)?;
    add(out, &[after])
}

// ---- runs

/// Adds since when a run is going, and whom it followed.
fn add_went_after(
    out: &mut Vec<u8>,
    account: &SeenAccount,
    line: u64,
    before: Member,
) -> Result<(), AllocError>
    ensures { OnOk result (Adds out.old.items out.new.items ((codes " is going" ++ spec.since_line line)
        ++ spec.follows_words (account_seen account.now) before)) }
{
    add_number(out, " is going since line ", line)?;
    add_follows(out, account, before)
}

/// Adds what is said of a run, by what became of it last.
fn add_run_fact(
    out: &mut Vec<u8>,
    account: &SeenAccount,
    at: &SeenRun,
    note: MemberNote,
) -> Result<(), AllocError>
    ensures { OnOk result (Adds out.old.items out.new.items
        (spec.run_fact_words (account_seen account.now) (run_seen at.now) note.line note.fact)) }
{
    let line = note.line;
    match note.fact {
        MemberFact::Admitted => add_number(out, " is going since line ", line),
        MemberFact::Follows(before) => add_went_after(out, account, line, before),
        MemberFact::Waits(holds) => add_waits(out, account, line, &at.run.group, holds),
        MemberFact::Displaced(by) => { add_displaced(out, account, " was cancelled", line, by) },
        MemberFact::NoGroup(fault) => {
            add(out, &[" failed"])?;
            add_faulted(out, line, "the name of its group", fault)
        },
        MemberFact::Closed(how) => add_number_after(out, ended_words(how), line),
        MemberFact::OwnRun | MemberFact::Taken | MemberFact::Finished(_) | MemberFact::Stopped(_) =>
            Ok(()),
    }
}

/// Adds words, and at which line.
fn add_number_after(out: &mut Vec<u8>, words: &str, line: u64) -> Result<(), AllocError>
    ensures { OnOk result
        (Adds out.old.items out.new.items (words.now ++ spec.at_line line)) }
{
    add(out, &[words])?;
    add_at(out, line)
}

/// Adds what is said of a run.
pub(crate) fn add_run_words(
    out: &mut Vec<u8>,
    account: &SeenAccount,
    number: u64,
) -> Result<(), AllocError>
    ensures { OnOk result (Adds out.old.items out.new.items
        (spec.run_words (account_seen account.now) number
        (run_at account.now.plan.now account.now.board.now number))) }
{
    let Some(at) = find_run(account.plan, account.board, number as usize) else {
        return Ok(());
    };
    match run_last(item_at(&account.notes.runs, number as usize)) {
        Some(note) => add_run_fact(out, account, &at, note),
        None => add(out, &[" is new"]),
    }
}

// ---- jobs

/// Adds the text of a condition.
pub(crate) fn add_condition(out: &mut Vec<u8>, condition: &Option<Text>) -> Result<(), AllocError>
    ensures { OnOk result
        (Adds out.old.items out.new.items (spec.condition_words condition.now)) }
{
    match condition {
        Some(text) => add_shown(out, text.as_str()),
        None => add(out, &["success()"]),
    }
}

/// Why a condition waits for success.
fn waiting_words(condition: &Option<Text>) -> &'static str
    ensures { result.now ≡ spec.waiting_words condition.now }
{
    match condition {
        Some(_) => "its condition names no status function",
        None => "it has no condition",
    }
}

/// Adds that a condition is not true.
pub(crate) fn add_untrue(
    out: &mut Vec<u8>,
    line: u64,
    condition: &Option<Text>,
) -> Result<(), AllocError>
    ensures { OnOk result (Adds out.old.items out.new.items (codes " was skipped"
        ++ (spec.at_line line
        ++ (codes ": its condition is not true: " ++ spec.condition_words condition.now)))) }
{
    add_ended(out, " was skipped", line, ": its condition is not true: ")?;
    add_condition(out, condition)
}

/// Adds why a job waits for success, and for whose.
fn add_waiting(out: &mut Vec<u8>, condition: &Option<Text>) -> Result<(), AllocError>
    ensures { OnOk result (Adds out.old.items out.new.items
        (spec.waiting_words condition.now ++ codes ", so all that it needs has to succeed")) }
{
    add_both(
        out,
        waiting_words(condition),
        ", so all that it needs has to succeed",
    )
}

/// Adds that a job was skipped, which waited for success.
fn add_unsuccessful(
    out: &mut Vec<u8>,
    line: u64,
    condition: &Option<Text>,
) -> Result<(), AllocError>
    ensures { OnOk result (Adds out.old.items out.new.items (codes " was skipped"
        ++ (spec.at_line line ++ (codes ": " ++ (spec.waiting_words condition.now
        ++ codes ", so all that it needs has to succeed"))))) }
{
    add_ended(out, " was skipped", line, ": ")?;
    add_waiting(out, condition)
}

/// Adds what is said of a job, by what became of it.
fn add_job_fact(out: &mut Vec<u8>, at: &SeenJob, note: JobNote) -> Result<(), AllocError>
    ensures { OnOk result (Adds out.old.items out.new.items
        (spec.job_fact_words (job_seen at.now) note.line note.fact)) }
{
    let line = note.line;
    match note.fact {
        JobFact::Opened => add_number(out, " is open since line ", line),
        JobFact::RunStopped => {
            add_ended(out, " was cancelled", line, ": its run was told to stop")
        },
        JobFact::Unsuccessful => add_unsuccessful(out, line, &at.plan.condition),
        JobFact::Untrue => add_untrue(out, line, &at.plan.condition),
        JobFact::Faulted(fault) => {
            add(out, &[" failed"])?;
            add_faulted(out, line, "its condition", fault)
        },
    }
}

/// Adds what is said of a job by what is noted of it.
fn add_job_noted(out: &mut Vec<u8>, at: &SeenJob, note: Option<JobNote>) -> Result<(), AllocError>
    ensures { OnOk result
        (Adds out.old.items out.new.items (spec.job_noted_words (job_seen at.now) note)) }
{
    match note {
        Some(note) => add_job_fact(out, at, note),
        None => add(out, &[" was not judged"]),
    }
}

/// Adds what is said of a job.
pub(crate) fn add_job_words(
    out: &mut Vec<u8>,
    account: &SeenAccount,
    number: u64,
) -> Result<(), AllocError>
    ensures { OnOk result (Adds out.old.items out.new.items
        (spec.job_words (account_seen account.now) number
        (job_at account.now.plan.now account.now.board.now number))) }
{
    let Some(at) = find_job(account.plan, account.board, number as usize) else {
        return Ok(());
    };
    let note = job_last(item_at(&account.notes.jobs, number as usize));
    if matches!(at.job.state, JobState::Open) && job_has_ended(at.run, at.job) {
        return add(out, &[ended_words(legs_result(at.job.legs.as_slice()))]);
    }
    add_job_noted(out, &at, note)
}

// ---- legs

/// Adds why a leg is to stop.
pub(crate) fn add_cause(
    out: &mut Vec<u8>,
    account: &SeenAccount,
    cause: StopCause,
) -> Result<(), AllocError>
    ensures { OnOk result (Adds out.old.items out.new.items
        (spec.cause_words (account_seen account.now) cause)) }
{
    match cause {
        StopCause::Told => add(out, &["it was told to stop"]),
        StopCause::FailFast(leg) => {
            add_leg_name(out, account, leg)?;
            add(out, &[" failed, and the job fails fast"])
        },
        StopCause::RunTold => add(out, &["its run was told to stop"]),
    }
}

/// That a failure is tolerated.
fn tolerated_words(state: LegState) -> &'static str
    ensures { result.now ≡ spec.tolerated_words state }
{
    match state {
        LegState::Ended {
            tolerated: true,
            ..
        } => ", which is tolerated",
        LegState::Ended {
            tolerated: false,
            ..
        } => "",
        LegState::Fresh | LegState::Waiting | LegState::Admitted | LegState::Running { .. } => "",
    }
}

/// Adds which worker has a leg.
fn add_worker(out: &mut Vec<u8>, state: LegState) -> Result<(), AllocError>
    ensures { OnOk result (Adds out.old.items out.new.items (spec.worker_words state)) }
{
    match state {
        LegState::Running { worker, .. } => add_number(out, " by worker ", worker as u64),
        LegState::Fresh | LegState::Waiting | LegState::Admitted | LegState::Ended { .. } => Ok(()),
    }
}

/// Adds that a leg, or a step, was stopped.
pub(crate) fn add_stopped(
    out: &mut Vec<u8>,
    account: &SeenAccount,
    words: &str,
    line: u64,
    cause: StopCause,
) -> Result<(), AllocError>
    ensures { OnOk result (Adds out.old.items out.new.items (words.now
        ++ (spec.at_line line ++ (codes ": " ++ spec.cause_words (account_seen account.now) cause)))) }
{
    add_ended(out, words, line, ": ")?;
    add_cause(out, account, cause)
}

/// Adds since when a leg runs.
fn add_runs_since(out: &mut Vec<u8>, line: u64) -> Result<(), AllocError>
    ensures { OnOk result
        (Adds out.old.items out.new.items (codes " runs" ++ spec.since_line line)) }
{
    add_number(out, " runs since line ", line)
}

/// Adds since when a leg runs, and by which worker.
fn add_runs(out: &mut Vec<u8>, line: u64, state: LegState) -> Result<(), AllocError>
    ensures { OnOk result (Adds out.old.items out.new.items
        ((codes " runs" ++ spec.since_line line) ++ spec.worker_words state)) }
{
    add_runs_since(out, line)?;
    add_worker(out, state)
}

/// Adds what is said of a leg, by what became of it last.
fn add_leg_fact(
    out: &mut Vec<u8>,
    account: &SeenAccount,
    at: &SeenLeg,
    note: MemberNote,
) -> Result<(), AllocError>
    ensures { OnOk result (Adds out.old.items out.new.items
        (spec.leg_fact_words (account_seen account.now) (leg_seen at.now) note.line note.fact)) }
{
    let line = note.line;
    match note.fact {
        MemberFact::Admitted => add_number_after(out, " was admitted", line),
        MemberFact::Follows(before) => {
            add_number_after(out, " was admitted", line)?;
            add_follows(out, account, before)
        },
        MemberFact::Waits(holds) => add_waits(out, account, line, &at.leg.group, holds),
        MemberFact::Displaced(by) => { add_displaced(out, account, " ended cancelled", line, by) },
        MemberFact::OwnRun => {
            add_ended(
                out,
                " ended cancelled",
                line,
                ": its own run holds its group",
            )
        },
        MemberFact::NoGroup(fault) => {
            add(out, &[" ended failure"])?;
            add_faulted(out, line, "the name of its group", fault)
        },
        MemberFact::Taken => add_runs(out, line, at.leg.state),
        MemberFact::Finished(how) => {
            add_number_after(out, leg_ended_words(how), line)?;
            add(out, &[tolerated_words(at.leg.state)])
        },
        MemberFact::Stopped(cause) => {
            add_stopped(out, account, " ended cancelled", line, cause)
        },
        MemberFact::Closed(_) => Ok(()),
    }
}

/// Adds what is said of a leg.
pub(crate) fn add_leg_words(
    out: &mut Vec<u8>,
    account: &SeenAccount,
    number: u64,
) -> Result<(), AllocError>
    ensures { OnOk result (Adds out.old.items out.new.items
        (spec.leg_words (account_seen account.now) number
        (leg_at account.now.plan.now account.now.board.now number))) }
{
    let Some(at) = find_leg(account.plan, account.board, number as usize) else {
        return Ok(());
    };
    match leg_last(item_at(&account.notes.legs, number as usize)) {
        Some(note) => add_leg_fact(out, account, &at, note),
        None => add(out, &[" has not asked"]),
    }
}
