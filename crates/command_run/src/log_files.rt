//! The files of the logs of steps, read line by line.

ghost use Rattle.std.specs.Prelude.{◌<◌, IfErr, IfOk, OnOk};
ghost use Rattle.std.specs.Str.{IsUtf8};
ghost use Rattle.step_host.specs.Program.{log_file as log_name};
ghost use Rattle.command_run.specs.StepLogs as spec;

use crate::machine::Machine;
use crate::workspace::Workspace;
use command_io::stream::{LineSource, SourceFault};
use std::alloc::{AllocError, Global};
use std::str;
use step_host::log_file;

/// What the file of a log holds.
#[derive(Clone, Copy, PartialEq, Eq)]
pub(crate) enum LogKind {
    /// It cannot be read.
    Unread,
    /// It is not UTF-8.
    NoText,
    /// It is text.
    Text,
}

/// The log of a step of a leg, if its file can be opened.
///
/// # Errors
///
/// There is no memory.
pub(crate) fn open_log<M: Machine>(
    workspace: &Workspace<'_, M>,
    step: (u64, u64),
) -> Result<Option<M::Log>, AllocError>
    ensures { IfOk result (λ found. M.logs found (log_name workspace.now.work.now step.0 step.1)) }
{
    let name = log_file(workspace.alloc, workspace.work, step.0, step.1)?;
    workspace.files.open_log(workspace.alloc, name.as_str())
}

/// Puts the next line of a log in the place of what `line` holds, with a newline, which the last may lack in the log, and answers
/// whether there was one.
fn next_line<S: LineSource>(log: &mut S, line: &mut Vec<u8>) -> Result<bool, SourceFault>
    ensures gets { spec.GetsNext (S.seen log.old) (S.seen log.new) line.new.items result }
    ensures fewer { OnOk result (S.turns_left log.new < S.turns_left log.old) }
{
    match log.read_line(line) {
        Ok(true) => match line.push(b'\n') {
            Ok(()) => Ok(true),
            Err(_) => Err(SourceFault::Memory),
        },
        Ok(false) => Ok(false),
        Err(fault) => Err(fault),
    }
}

/// Puts the next line of a log in the place of what `line` holds, with a newline, if there is one and it is text; else it answers
/// why there is none.
///
/// # Errors
///
/// There is no memory.
#[tactic(auto, using(crate::proofs::LogTexts::ends_no_text))]
pub(crate) fn next_text<'l, S: LineSource>(
    log: &mut S,
    line: &'l mut Vec<u8>,
) -> Result<Result<&'l str, LogKind>, AllocError>
    ensures line { IfOk result (λ next. IfOk next
        (λ text. spec.GetsLine (S.seen log.old) (S.seen log.new) text.now)) }
    ensures utf8 { IfOk result (λ next. IfOk next (λ text. IsUtf8 text.now)) }
    ensures ends { IfOk result (λ next. IfErr next (spec.EndsAs (S.seen log.old))) }
    ensures fewer { IfOk result (λ next. IfOk next
        (λ _. S.turns_left log.new < S.turns_left log.old)) }
{
    match next_line(log, line) {
        Ok(true) => match str::from_utf8(line.as_slice()) {
            Ok(text) => Ok(Ok(text)),
            Err(_) => Ok(Err(LogKind::NoText)),
        },
        Ok(false) => Ok(Err(LogKind::Text)),
        Err(SourceFault::Failed) => Ok(Err(LogKind::Unread)),
        Err(SourceFault::Memory) => Err(AllocError),
    }
}

/// What the lines are that are left of a log.
fn kind_of<S: LineSource>(alloc: Global, log: &mut S) -> Result<LogKind, AllocError>
    ensures { IfOk result (spec.IsOfKind (S.seen log.old)) }
{
    let mut line = Vec::new(alloc);
    loop {
        if let Err(kind) = next_text(log, &mut line)? {
            return Ok(kind);
        }
    }
}

/// What the file of the log of a step holds.
///
/// # Errors
///
/// There is no memory.
pub(crate) fn log_kind<M: Machine>(
    workspace: &Workspace<'_, M>,
    step: (u64, u64),
) -> Result<LogKind, AllocError>
    ensures { IfOk result (spec.FileIs M.logs M.Log.seen
        (log_name workspace.now.work.now step.0 step.1)) }
{
    match open_log(workspace, step)? {
        Some(mut log) => kind_of(workspace.alloc, &mut log),
        None => Ok(LogKind::Unread),
    }
}
