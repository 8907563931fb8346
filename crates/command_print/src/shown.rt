//! Lines in which names from files stand.

ghost use Rattle.std.specs.Prelude.{OnOk};
ghost use Rattle.plan_text.specs.BoardText.{Adds};
ghost use Rattle.command_io.specs.Pictures as spec;

use command_io::pictured::picture;
use std::alloc::AllocError;

/// Adds a text as it is shown.
fn add_shown(text: &mut String, words: &str) -> Result<(), AllocError>
    ensures { OnOk result (Adds text.old text.new (spec.shown words.now)) }
{
    for c in words.chars() {
        text.push(picture(c))?;
    }
    Ok(())
}

/// Adds the line that tells a text.
pub(crate) fn add_line(text: &mut String, words: &str) -> Result<(), AllocError>
    ensures { OnOk result (Adds text.old text.new (spec.line_of words.now)) }
{
    add_shown(text, words)?;
    text.push_str("\n")
}
