//! What is shown of the logs of the steps that were started.

ghost use Rattle.std.specs.Prelude.{◌≡◌, [], ◌∷◌, ◌==◌, ℕ, None, if◌then◌else◌, nat_eq, OnOk, string_bytes};
ghost use Rattle.std.specs.HashMap.{get};
ghost use Rattle.flow_commands.specs.Logs.{IsPlain};
ghost use Rattle.status_table.specs.Runs.{IsLegal};
ghost use Rattle.status_table.specs.Words.{lines_of};
ghost use Rattle.step_host.specs.Program.{log_file as log_name};
ghost use Rattle.command_run.specs.StepLogs as spec;

use crate::log_files::{LogKind, log_kind, next_text, open_log};
use crate::machine::Machine;
use crate::plan_masks::masks_of;
use crate::started_steps::started_steps;
use crate::workspace::Workspace;
use command_io::stream::{LineSource, Sink};
use flow_commands::{LogTeller, Masks, plain_line};
use flow_model::{CheckedPlan, Entry};
use std::alloc::{AllocError, Global};
use std::collections::HashMap;
use step_host::laws::records_are_counted;

/// The masks that the logs of each leg added, by the legs' numbers.
type Added = HashMap<u64, Masks>;

/// How many bytes of what is shown of a log are gathered before they are written.
const MOST_GATHERED: usize = 65_536;

/// Takes the masks that the logs of a leg added.
fn take_masks(alloc: Global, added: &mut Added, leg: u64) -> Masks
    ensures masks { result ≡ spec.added_by (get nat_eq added.old) leg }
    ensures others { (l : ℕ) → spec.added_by (get nat_eq added.new) l
        ≡ (if l == leg then [] else spec.added_by (get nat_eq added.old) l) }
{
    match added.remove(&leg) {
        Some(masks) => masks,
        None => Masks::empty(alloc),
    }
}

/// Keeps masks as those that the logs of a leg added.
fn keep_masks(added: &mut Added, leg: u64, masks: Masks) -> Result<(), AllocError>
    ensures { OnOk result ((l : ℕ) → spec.added_by (get nat_eq added.new) l
        ≡ (if l == leg then masks else spec.added_by (get nat_eq added.old) l)) }
{
    added.insert(leg, masks)?;
    Ok(())
}

/// Writes what is shown of the lines so far of a log where it is much, and answers whether it was written or is still gathered.
fn hand_on<O: Sink>(log: &mut LogTeller, out: &mut O) -> bool
    ensures { spec.HandsOn log.old log.new (O.seen out.old) (O.seen out.new) result }
{
    if log.shown().len() < MOST_GATHERED {
        return true;
    }
    if !out.put(log.shown().as_bytes()) {
        return false;
    }
    log.take_shown();
    true
}

/// Writes what is shown of the next line of a log, which is no command, piece by piece, or gathers it, and answers whether it was
/// written or is still gathered.
///
/// # Errors
///
/// There is no memory. A beginning may have been written.
fn put_plain<O: Sink>(
    given: &Masks,
    line: &str,
    log: &mut LogTeller,
    out: &mut O,
) -> Result<bool, AllocError>
    requires { IsPlain line.now }
    ensures { spec.PutsNext given.now log.old log.new (line.now ∷ [])
        (O.seen out.old) (O.seen out.new) result }
{
    let mut rest = line;
    while !rest.is_empty() {
        rest = log.show_some(given, rest)?;
        if !hand_on(log, out) {
            return Ok(false);
        }
    }
    log.end_line()?;
    Ok(true)
}

/// Writes what is shown of the next lines of a log, those of a text, or gathers it, and answers whether it was written or is still
/// gathered.
///
/// # Errors
///
/// There is no memory. A beginning may have been written.
fn put_next<O: Sink>(
    given: &Masks,
    text: &str,
    log: &mut LogTeller,
    out: &mut O,
) -> Result<bool, AllocError>
    ensures { spec.PutsNext given.now log.old log.new (lines_of text.now)
        (O.seen out.old) (O.seen out.new) result }
{
    if let Some(line) = plain_line(text) {
        return put_plain(given, line, log, out);
    }
    log.add_lines(given, text)?;
    Ok(hand_on(log, out))
}

/// Writes what is shown of the lines of a log, up to one that cannot be read or is no text, and answers whether it was written.
///
/// # Errors
///
/// There is no memory. A beginning may have been written.
fn put_lines<S: LineSource, O: Sink>(
    alloc: Global,
    given: &Masks,
    lines: &mut S,
    log: &mut LogTeller,
    out: &mut O,
) -> Result<bool, AllocError>
    requires shown { string_bytes log.old.shown ≡ [] }
    requires stop { log.old.stop ≡ None }
    ensures { spec.PutsLines (S.seen lines.old) given.now log.old.masks log.new.masks
        (O.seen out.old) (O.seen out.new) result }
{
    let mut line = Vec::new(alloc);
    while let Ok(text) = next_text(lines, &mut line)? {
        if !put_next(given, text, log, out)? {
            return Ok(false);
        }
    }
    Ok(out.put(log.shown().as_bytes()))
}

/// Writes what is shown of the log of a step that was text when it was read, and keeps the masks that it adds.
fn put_text<M: Machine, O: Sink>(
    workspace: &Workspace<'_, M>,
    given: &Masks,
    step: (u64, u64),
    added: &mut Added,
    out: &mut O,
) -> Result<bool, AllocError>
    requires { spec.FileIs M.logs M.Log.seen
        (log_name workspace.now.work.now step.0 step.1) LogKind.Text }
    ensures { spec.PutsLog
        (spec.in_folder (spec.files_of M.logs M.Log.seen) workspace.now.work.now step) given.now step.0
        (spec.added_by (get nat_eq added.old)) (spec.added_by (get nat_eq added.new))
        (O.seen out.old) (O.seen out.new) result }
{
    let Some(mut lines) = open_log(workspace, step)? else {
        return Ok(true);
    };
    let mut log = LogTeller::new(workspace.alloc, take_masks(workspace.alloc, added, step.0));
    if !put_lines(workspace.alloc, given, &mut lines, &mut log, out)? {
        return Ok(false);
    }
    keep_masks(added, step.0, log.into_masks())?;
    Ok(true)
}

/// Writes what is shown of the log of a step, and keeps the masks that it adds.
fn put_log<M: Machine, O: Sink>(
    workspace: &Workspace<'_, M>,
    given: &Masks,
    step: (u64, u64),
    added: &mut Added,
    out: &mut O,
) -> Result<bool, AllocError>
    ensures { spec.PutsLog
        (spec.in_folder (spec.files_of M.logs M.Log.seen) workspace.now.work.now step) given.now step.0
        (spec.added_by (get nat_eq added.old)) (spec.added_by (get nat_eq added.new))
        (O.seen out.old) (O.seen out.new) result }
{
    match log_kind(workspace, step)? {
        LogKind::Unread => Ok(true),
        LogKind::NoText => Ok(out.put(b"(output is not UTF-8)\n")),
        LogKind::Text => put_text(workspace, given, step, added, out),
    }
}

/// Writes what is shown of the logs of steps, one log after the other.
fn put_each<M: Machine, O: Sink>(
    workspace: &Workspace<'_, M>,
    given: &Masks,
    steps: &[(u64, u64)],
    out: &mut O,
) -> Result<bool, AllocError>
    ensures { spec.PutsLogs (spec.in_folder (spec.files_of M.logs M.Log.seen) workspace.now.work.now)
        given.now steps.now (O.seen out.old) (O.seen out.new) result }
{
    let mut added = HashMap::new(workspace.alloc);
    for step in steps {
        if !put_log(workspace, given, *step, &mut added, out)? {
            return Ok(false);
        }
    }
    Ok(true)
}

/// Writes what is shown of the logs of a history, one log after the other: of each no more is held than its longest line and what is
/// gathered. It answers whether all was written.
///
/// # Errors
///
/// There is no memory. A beginning may have been written.
pub(crate) fn put_logs<M: Machine, O: Sink>(
    workspace: &Workspace<'_, M>,
    plan: &CheckedPlan,
    history: &[Entry],
    out: &mut O,
) -> Result<bool, AllocError>
    requires { IsLegal plan.now history.now }
    ensures { spec.PutsShown (spec.in_folder (spec.files_of M.logs M.Log.seen) workspace.now.work.now)
        plan.now history.now (O.seen out.old) (O.seen out.new) result }
{
    records_are_counted();
    let masks = masks_of(workspace.alloc, plan.plan())?;
    let steps = started_steps(workspace.alloc, history)?;
    put_each(workspace, &masks, steps.as_slice(), out)
}
