//! `actrun lint`: what a person should know of workflows' files, place by place.

ghost use Rattle.std.specs.Prelude.{◌≡◌, IfOk, OnOk, map, string_bytes};
ghost use Rattle.std.specs.List.{list_any};
ghost use Rattle.plan_text.specs.BoardText.{Adds};
ghost use Rattle.command_io.specs.Files.{file_seen};
ghost use Rattle.command_print.specs.Lint as spec;
ghost use Rattle.command_print.specs.Lint.{LintTells};

use crate::list::plan_of_all;
use crate::shown::add_line;
use command_io::error::{CommandError, DONE, REFUSED};
use command_io::files::{Content, NamedSource, read_files};
use command_io::stream::{Sink, Source};
use command_io::tell::{refuse_source, tell_printed};
use flow_lint::{Note, flow_note, hints, plan_note};
use flow_model::Sequence;
use std::alloc::{AllocError, Global};
use std::marker::Model;
use std::slice;

/// What is told of a file: its lines, and whether one of them says that the file is refused.
#[derive(Drop)]
struct Told {
    refused: bool,
    text: String,
}

impl Model for Told {
    ghost use Rattle.std.specs.Prelude.{Bool, List, ℕ, string_bytes};

    ghost Value = { Bool × List ℕ };

    ghost view = { λ t. (t.refused, string_bytes t.text) };
}

/// A place as it is shown.
fn shown_path(path: &str) -> &str
    ensures { result.now ≡ spec.shown_path path.now }
{
    if path.is_empty() { "." } else { path }
}

/// What is told of a note.
fn note_words(alloc: Global, file: &str, note: &Note) -> Result<String, AllocError>
    ensures { IfOk result (λ words. string_bytes words ≡ spec.note_words file.now note.now) }
{
    let path = shown_path(note.path.as_str());
    let sentence = note.sentence.as_str();
    format!(in alloc; "{file}: {path}: {sentence}")
}

/// Adds the line of a note.
fn add_note(alloc: Global, text: &mut String, file: &str, note: &Note) -> Result<(), AllocError>
    ensures { OnOk result (Adds text.old text.new (spec.note_line file.now note.now)) }
{
    let words = note_words(alloc, file, note)?;
    add_line(text, words.as_str())
}

/// Adds the lines of notes.
fn add_notes(alloc: Global, text: &mut String, file: &str, notes: &[Note]) -> Result<(), AllocError>
    ensures { OnOk result (Adds text.old text.new (spec.hint_lines file.now notes.now)) }
{
    for note in notes {
        add_note(alloc, text, file, note)?;
    }
    Ok(())
}

/// Adds what refuses nothing, but for the place of which something is told already.
fn add_hints(alloc: Global, text: &mut String, file: &Content, told: &str) -> Result<(), AllocError>
    ensures { OnOk result (spec.AddsHints file.now told.now text.old text.new) }
{
    let notes = hints(alloc, file.bytes(), told)?;
    add_notes(alloc, text, file.name(), notes.as_slice())
}

/// The name of that for which a file comes to no plan.
fn fault_text(alloc: Global, error: &CommandError) -> Result<String, AllocError>
    ensures { IfOk result (λ text. string_bytes text ≡ spec.fault_text error.now) }
{
    match error {
        CommandError::NoFlow(_, fault) => String::from_str(alloc, fault.name()),
        CommandError::NotPlanned(fault) => format!(in alloc; "{fault}"),
        CommandError::NoExpression(_)
        | CommandError::NoValue(_)
        | CommandError::NoContexts(_, _)
        | CommandError::NoPlan(_)
        | CommandError::NoEntry(_)
        | CommandError::Refused(_, _)
        | CommandError::Words
        | CommandError::Io
        | CommandError::Memory => Ok(String::new(alloc)),
    }
}

/// What is to be known of that for which a file comes to no plan.
fn note_of(alloc: Global, file: &Content, error: &CommandError) -> Result<Note, AllocError>
    ensures { IfOk result (spec.IsNoteOf file.now error.now) }
{
    match error {
        CommandError::NoFlow(_, fault) => flow_note(alloc, file.bytes(), fault),
        CommandError::NotPlanned(fault) => plan_note(alloc, file.name(), file.bytes(), *fault),
        CommandError::NoExpression(_)
        | CommandError::NoValue(_)
        | CommandError::NoContexts(_, _)
        | CommandError::NoPlan(_)
        | CommandError::NoEntry(_)
        | CommandError::Refused(_, _)
        | CommandError::Words
        | CommandError::Io
        | CommandError::Memory => Err(AllocError),
    }
}

/// What is told of that for which a file comes to no plan.
fn refusing_words(
    alloc: Global,
    file: &str,
    error: &CommandError,
    note: &Note,
) -> Result<String, AllocError>
    ensures { IfOk result (λ words.
        string_bytes words ≡ spec.refusing_words file.now (spec.fault_text error.now) note.now) }
{
    let fault = fault_text(alloc, error)?;
    let path = shown_path(note.path.as_str());
    let sentence = note.sentence.as_str();
    format!(in alloc; "{file}: {path}: refused, {fault}: {sentence}")
}

/// The line of that for which a file comes to no plan.
fn refusing_line(
    alloc: Global,
    file: &str,
    error: &CommandError,
    note: &Note,
) -> Result<String, AllocError>
    ensures { IfOk result (λ text.
        string_bytes text ≡ spec.refusing_line file.now (spec.fault_text error.now) note.now) }
{
    let words = refusing_words(alloc, file, error, note)?;
    let mut text = String::new(alloc);
    add_line(&mut text, words.as_str())?;
    Ok(text)
}

/// The lines of a file that comes to no plan, for this error.
fn refused(alloc: Global, file: &Content, error: &CommandError) -> Result<String, AllocError>
    ensures { IfOk result (λ text. spec.Refuses file.now error.now (string_bytes text)) }
{
    let note = note_of(alloc, file, error)?;
    let mut text = refusing_line(alloc, file.name(), error, &note)?;
    add_hints(alloc, &mut text, file, note.path.as_str())?;
    Ok(text)
}

/// The lines of a file that comes to a plan.
fn passed(alloc: Global, file: &Content) -> Result<String, AllocError>
    ensures { IfOk result (λ text. spec.Passes file.now (string_bytes text)) }
{
    let mut text = String::new(alloc);
    add_hints(alloc, &mut text, file, "")?;
    Ok(text)
}

/// Whether a file alone comes to a plan, or the error for which it comes to none.
fn judged(alloc: Global, file: &Content) -> Result<Option<CommandError>, CommandError>
    ensures { spec.Judges file.now result }
{
    match plan_of_all(alloc, slice::from_ref(file)) {
        Ok(_) => Ok(None),
        Err(CommandError::NoFlow(name, fault)) => Ok(Some(CommandError::NoFlow(name, fault))),
        Err(CommandError::NotPlanned(fault)) => Ok(Some(CommandError::NotPlanned(fault))),
        Err(_) => Err(CommandError::Memory),
    }
}

/// What is told of a file that is refused, or is not.
fn told_by(alloc: Global, file: &Content, error: &Option<CommandError>) -> Result<Told, AllocError>
    ensures { IfOk result (λ told. spec.IsToldOf file.now error.now told) }
{
    match error {
        Some(error) => {
            let text = refused(alloc, file, error)?;
            Ok(Told {
                refused: true,
                text,
            })
        },
        None => {
            let text = passed(alloc, file)?;
            Ok(Told {
                refused: false,
                text,
            })
        },
    }
}

/// What is told of a file.
#[tactic(auto, using(crate::proofs::Linted::told_by_judged))]
fn told_of(alloc: Global, file: &Content) -> Result<Told, CommandError>
    ensures { spec.FindsTold file.now result }
{
    let error = judged(alloc, file)?;
    Ok(told_by(alloc, file, &error)?)
}

/// What is told of files, one after the other.
fn told_each(alloc: Global, files: &[Content]) -> Result<Sequence<Told>, CommandError>
    ensures { spec.FindTold files.now result }
{
    let mut tolds = Vec::new(alloc);
    for file in files {
        let told = told_of(alloc, file)?;
        if tolds.push(told).is_err() {
            return Err(CommandError::Memory);
        }
    }
    Ok(Sequence::new(tolds))
}

impl Told {
    /// The lines.
    fn text(&self) -> &str
        ensures { result.now ≡ self.now.1 }
    {
        self.text.as_str()
    }

    /// Whether the file is refused.
    fn is_refused(&self) -> bool
        ensures { result ≡ self.now.0 }
    {
        self.refused
    }
}

/// All lines.
fn text_of(alloc: Global, tolds: &[Told]) -> Result<String, AllocError>
    ensures { IfOk result (λ text. string_bytes text ≡ spec.lint_text tolds.now) }
{
    let mut text = String::new(alloc);
    for told in tolds {
        text.push_str(told.text())?;
    }
    Ok(text)
}

/// Whether one of the files is refused.
fn is_any_refused(tolds: &[Told]) -> bool
    ensures { result ≡ list_any (λ told. told.0) tolds.now }
{
    for told in tolds {
        if told.is_refused() {
            return true;
        }
    }
    false
}

/// The exit status.
fn status_of(tolds: &[Told]) -> u8
    ensures { result ≡ spec.lint_status tolds.now }
{
    if is_any_refused(tolds) {
        return REFUSED;
    }
    DONE
}

/// What is told of files, and the exit status.
fn answer(alloc: Global, files: &[Content]) -> Result<(Vec<u8>, u8), CommandError>
    ensures { spec.GivesLint files.now result }
{
    let tolds = told_each(alloc, files)?;
    let text = text_of(alloc, tolds.as_slice())?;
    Ok((text.into_bytes(), status_of(tolds.as_slice())))
}

/// Reads the files of workflows to their ends, and writes to `out` what a person should know of each: first the line that
/// says at which place it is refused, where it alone comes to no plan, and why; then what refuses nothing. The answer is the
/// exit status: 2 where a file is refused, and else 0.
pub fn lint<S: Source, O: Sink, E: Sink>(
    alloc: Global,
    files: &mut [NamedSource<S>],
    out: &mut O,
    err: &mut E,
) -> u8
    ensures { LintTells (map (file_seen S.seen) files.old) (map (file_seen S.seen) files.new)
        (O.seen out.old) (O.seen out.new) (E.seen err.old) (E.seen err.new) result }
{
    match read_files(alloc, files) {
        Ok(contents) => tell_printed(answer(alloc, contents.as_slice()), out, err),
        Err(fault) => refuse_source(err, fault),
    }
}
