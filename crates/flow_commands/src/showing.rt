//! What is shown of the lines that a step printed.

ghost use Rattle.std.specs.Prelude.{◌≡◌, ◌++◌, IfOk, OnOk};
ghost use Rattle.flow_commands.specs.Shown.{command_shown as command_shown_of, line_shown as line_shown_of, masked_line, masks_added, shown as shown_of};

use crate::line::Line;
use crate::masks::{Masks, mask_by_both};
use flow_model::{Duplicate, Sequence, Text};
use std::alloc::{AllocError, Global};

/// A title, a mark and a message, in one text.
fn titled(alloc: Global, title: &str, mark: &str, message: &str) -> Result<Text, AllocError>
    ensures { IfOk result (λ made. made ≡ title.now ++ (mark.now ++ message.now)) }
{
    let mut text = String::from_str(alloc, title)?;
    text.push_str(mark)?;
    text.push_str(message)?;
    Ok(Text::new(text))
}

/// What is shown of a command, if it is shown.
fn command_shown(alloc: Global, name: &str, message: &str) -> Result<Option<Text>, AllocError>
    ensures { IfOk result (λ found. found ≡ command_shown_of name.now message.now) }
{
    if name == "notice" || name == "warning" || name == "error" {
        return Ok(Some(titled(alloc, name, ": ", message)?));
    }
    if name == "group" {
        return Ok(Some(titled(alloc, "", "> ", message)?));
    }
    Ok(None)
}

/// What is shown of a line, if it is shown.
pub(crate) fn line_shown(alloc: Global, line: &Line) -> Result<Option<Text>, AllocError>
    ensures { IfOk result (λ found. found ≡ line_shown_of line.now) }
{
    match line {
        Line::Plain(text) => Ok(Some(text.copy(alloc)?)),
        Line::Command { name, message, .. } => {
            command_shown(alloc, name.as_str(), message.as_str())
        },
        Line::Resume => Ok(None),
    }
}

/// Adds the mask that a line adds to those of its leg, if it does.
pub(crate) fn add_own_mask(line: &Line, own: &mut Masks) -> Result<(), AllocError>
    ensures { OnOk result (own.new ≡ own.old ++ masks_added line.now) }
{
    match line {
        Line::Command { name, message, .. } => {
            if name.as_str() == "add-mask" {
                own.push(message.as_str())?;
            }
            Ok(())
        },
        Line::Plain(_) | Line::Resume => Ok(()),
    }
}

/// Adds what is shown of a line, masked, if it is shown.
fn show(
    alloc: Global,
    line: &Line,
    given: &Masks,
    own: &Masks,
    texts: &mut Sequence<Text>,
) -> Result<(), AllocError>
    ensures { OnOk result
        (texts.new ≡ texts.old ++ masked_line (given.now ++ own.now) (line_shown_of line.now)) }
{
    match line_shown(alloc, line)? {
        Some(text) => texts.push(mask_by_both(alloc, text.as_str(), given, own)?),
        None => Ok(()),
    }
}

/// The lines that are shown: those of `notice`, `warning` and `error` as `name: message`, that of `group` as
/// `> message`, plain lines as they are, and no others. Each is masked by the given masks and by the messages of the
/// `add-mask` commands before it.
///
/// # Errors
///
/// There is no memory.
pub fn shown(alloc: Global, lines: &[Line], masks: &Masks) -> Result<Sequence<Text>, AllocError>
    ensures { IfOk result (λ texts. texts ≡ shown_of masks.now lines.now) }
{
    let mut texts = Sequence::empty(alloc);
    let mut own = Masks::empty(alloc);
    for line in lines {
        show(alloc, line, masks, &own, &mut texts)?;
        add_own_mask(line, &mut own)?;
    }
    Ok(texts)
}
