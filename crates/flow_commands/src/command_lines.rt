//! The commands in what a step prints (GitHub Docs, workflow commands).

ghost use Rattle.std.specs.Prelude.{◌≡◌, ◌∷◌, IfOk, List, ℕ, codes};
ghost use Rattle.flow_commands.specs.CommandTexts.{all_pairs, command_of, commands, headed, is_command as is_command_of, is_resuming as is_resuming_of, named, pair_of, read_from, stopped_by as stopped_by_of};
ghost use Rattle.flow_commands.specs.Splits.{fields_of, split_first as split_first_of};

use crate::escapes::{Escapes, decode};
use crate::line::Line;
use crate::splits::{after_front, first_line, from_text, split_first};
use expr_reader::fold;
use flow_model::{Duplicate, Sequence, Text};
use std::alloc::{AllocError, Global};

/// Whether this is the name of a command.
fn is_command(name: &str) -> bool
    ensures { result ≡ is_command_of name.now }
{
    name == "debug"
        || name == "notice"
        || name == "warning"
        || name == "error"
        || name == "group"
        || name == "endgroup"
        || name == "add-mask"
        || name == "stop-commands"
}

/// The key, in small letters, and the value of a field, if it has them.
fn read_pair(alloc: Global, field: &str) -> Result<Option<(Text, Text)>, AllocError>
    ensures { IfOk result (λ found. found ≡ pair_of field.now) }
{
    let Some((key, value)) = split_first(field, "=") else {
        return Ok(None);
    };
    if key.is_empty() {
        return Ok(None);
    }
    let key = fold(alloc, key)?;
    let value = decode(alloc, value, Escapes::Value)?;
    Ok(Some((Text::new(key), value)))
}

/// The pairs of the fields between commas, if each field is one.
fn read_pairs(alloc: Global, text: &str) -> Result<Option<Sequence<(Text, Text)>>, AllocError>
    ensures { IfOk result (λ found. found ≡ all_pairs (fields_of text.now)) }
{
    let mut pairs = Sequence::empty(alloc);
    let mut rest = text;
    while let Some((field, after)) = split_first(rest, ",") {
        let Some(pair) = read_pair(alloc, field)? else {
            return Ok(None);
        };
        pairs.push(pair)?;
        rest = after;
    }
    let Some(pair) = read_pair(alloc, rest)? else {
        return Ok(None);
    };
    pairs.push(pair)?;
    Ok(Some(pairs))
}

/// The command of a name, its pairs and a message, if the name is a command's.
fn read_named(
    alloc: Global,
    name: &str,
    pairs: Sequence<(Text, Text)>,
    message: &str,
) -> Result<Option<Line>, AllocError>
    ensures { IfOk result (λ found. found ≡ named name.now (Some pairs) message.now) }
{
    let name = fold(alloc, name)?;
    if !is_command(name.as_str()) {
        return Ok(None);
    }
    let message = decode(alloc, message, Escapes::Message)?;
    let name = Text::new(name);
    Ok(Some(Line::Command {
        name,
        pairs,
        message,
    }))
}

/// The command of what stands between the first `::` and the next, and of the message.
fn read_head(alloc: Global, head: &str, message: &str) -> Result<Option<Line>, AllocError>
    ensures { IfOk result (λ found.
        found ≡ headed (split_first_of (codes " ") head.now) head.now message.now) }
{
    let Some((name, fields)) = split_first(head, " ") else {
        return read_named(alloc, head, Sequence::empty(alloc), message);
    };
    let Some(pairs) = read_pairs(alloc, fields)? else {
        return Ok(None);
    };
    read_named(alloc, name, pairs, message)
}

/// The command that a line is, if it is one.
fn read_command(alloc: Global, line: &str) -> Result<Option<Line>, AllocError>
    ensures { IfOk result (λ found. found ≡ command_of line.now) }
{
    let Some(text) = after_front(from_text(line), "::") else {
        return Ok(None);
    };
    match split_first(text, "::") {
        Some((head, message)) => read_head(alloc, head, message),
        None => Ok(None),
    }
}

/// Whether a line is `::word::`.
fn is_resuming(word: &str, line: &str) -> bool
    ensures { result ≡ is_resuming_of word.now line.now }
{
    let Some(text) = after_front(from_text(line), "::") else {
        return false;
    };
    match after_front(text, word) {
        Some(rest) => rest == "::",
        None => false,
    }
}

/// The word that stops commands from a line on, if the line does that.
fn stopped_by(alloc: Global, line: &Line) -> Result<Option<Text>, AllocError>
    ensures { IfOk result (λ found. found ≡ stopped_by_of line.now) }
{
    match line {
        Line::Command { name, message, .. } => {
            if name.as_str() != "stop-commands" || message.is_empty() {
                return Ok(None);
            }
            Ok(Some(message.copy(alloc)?))
        },
        Line::Plain(_) | Line::Resume => Ok(None),
    }
}

/// A line where commands are read, and the word that stops them from it on.
fn read_open(alloc: Global, line: &str) -> Result<(Line, Option<Text>), AllocError>
    ensures { IfOk result (λ x. (lines : List (List ℕ))
        → read_from None (line.now ∷ lines) ≡ x.0 ∷ read_from x.1 lines) }
{
    let read = match read_command(alloc, line)? {
        Some(command) => command,
        None => Line::Plain(Text::from_str(alloc, line)?),
    };
    let stop = stopped_by(alloc, &read)?;
    Ok((read, stop))
}

/// A line where commands are stopped by a word, and the word that stops them from it on.
fn read_stopped(alloc: Global, line: &str, word: Text) -> Result<(Line, Option<Text>), AllocError>
    ensures { IfOk result (λ x. (lines : List (List ℕ))
        → read_from (Some word) (line.now ∷ lines) ≡ x.0 ∷ read_from x.1 lines) }
{
    if is_resuming(word.as_str(), line) {
        return Ok((Line::Resume, None));
    }
    let text = Text::from_str(alloc, line)?;
    Ok((Line::Plain(text), Some(word)))
}

/// The next line, and the word that stops commands from it on.
pub(crate) fn read_line(
    alloc: Global,
    line: &str,
    stop: Option<Text>,
) -> Result<(Line, Option<Text>), AllocError>
    ensures { IfOk result (λ x. (lines : List (List ℕ))
        → read_from stop (line.now ∷ lines) ≡ x.0 ∷ read_from x.1 lines) }
{
    match stop {
        Some(word) => read_stopped(alloc, line, word),
        None => read_open(alloc, line),
    }
}

/// The lines of what a step printed, with the commands among them: `::name::message` and
/// `::name key=value,key=value::message`. From a `stop-commands` with a message on, no line is a command until the line
/// `::message::`. Lines end at newlines, and the last may lack one.
///
/// # Errors
///
/// There is no memory.
pub fn read_commands(alloc: Global, text: &str) -> Result<Sequence<Line>, AllocError>
    ensures { IfOk result (λ found. found ≡ commands text.now) }
{
    let mut lines = Sequence::empty(alloc);
    let mut stop = None;
    let mut rest = text;
    while !rest.is_empty() {
        let (line, after) = first_line(rest);
        let (read, next) = read_line(alloc, line, stop)?;
        lines.push(read)?;
        stop = next;
        rest = after;
    }
    Ok(lines)
}
