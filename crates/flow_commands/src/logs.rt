//! What is shown of the logs of steps, line by line: what their programs printed.

ghost use Rattle.std.specs.Prelude.{◌≡◌, ◌<◌, [], ◌∷◌, ◌++◌, codes, ℕ, IfOk, IfSome, IsTrue, length, List, None, not, OnOk, string_bytes};
ghost use Rattle.flow_model.specs.Lines.{lines_of};
ghost use Rattle.flow_commands.specs.Logs.{IsPlain, has_colons, lines_text, told_with};
ghost use Rattle.flow_commands.specs.Mask.{masked};
ghost use Rattle.flow_commands.specs.Shown.{line_shown as line_shown_of, masked_line};

use crate::command_lines::read_line;
use crate::line::Line;
use crate::masks::{Masks, mask_first};
use crate::showing::{add_own_mask, line_shown};
use crate::splits::{after_front, first_line, from_text};
use flow_model::Text;
use std::alloc::{AllocError, Global};

/// A log whose lines are told as they come.
#[derive(Drop)]
pub struct LogTeller {
    alloc: Global,
    /// What is shown of the lines so far, but for what was taken.
    shown: String,
    /// The masks that earlier logs of the leg and the lines so far added.
    masks: Masks,
    /// The word that stops commands, if one does.
    stop: Option<Text>,
}

/// Whether a line is no command, and ends no `stop-commands`, wherever it stands.
fn is_plain(line: &str) -> bool
    ensures plain { IsTrue result → IsPlain line.now }
    ensures colons { result ≡ not (has_colons line.now) }
{
    match after_front(from_text(line), "::") {
        Some(_) => false,
        None => true,
    }
}

/// The line that a text is, without its newline, if it is one line that does not begin with `::`: no command, and no end of
/// `stop-commands`.
pub fn plain_line(text: &str) -> Option<&str>
    ensures line { IfSome result (λ line. lines_of text.now ≡ line.now ∷ []) }
    ensures plain { IfSome result (λ line. IsPlain line.now) }
    ensures none { result ≡ None → (line : List ℕ) → lines_of text.now ≡ line ∷ []
        → IsTrue (has_colons line) }
{
    if text.is_empty() {
        return None;
    }
    let (line, rest) = first_line(text);
    if rest.is_empty() && is_plain(line) {
        return Some(line);
    }
    None
}

impl LogTeller {
    /// A log of which no line was told, and the masks that earlier logs of its leg added.
    pub fn new(alloc: Global, masks: Masks) -> LogTeller
        ensures shown { string_bytes result.shown ≡ [] }
        ensures masks { result.masks ≡ masks }
        ensures stop { result.stop ≡ None }
    {
        LogTeller {
            alloc,
            shown: String::new(alloc),
            masks,
            stop: None,
        }
    }

    /// Adds the first of what is left of a line, masked, and answers what follows it.
    ///
    /// # Errors
    ///
    /// There is no memory.
    pub fn show_some<'t>(&mut self, given: &Masks, text: &'t str) -> Result<&'t str, AllocError>
        requires { 0 < length text.now }
        ensures shown { IfOk result (λ rest. string_bytes self.new.shown
            ++ masked (given.now ++ self.old.masks) rest.now
            ≡ string_bytes self.old.shown ++ masked (given.now ++ self.old.masks) text.now) }
        ensures shorter { IfOk result (λ rest. length rest.now < length text.now) }
        ensures masks { self.new.masks ≡ self.old.masks }
        ensures stop { self.new.stop ≡ self.old.stop }
    {
        mask_first(&mut self.shown, text, given, &self.masks)
    }

    /// Adds the newline of a line that was shown.
    ///
    /// # Errors
    ///
    /// There is no memory.
    pub fn end_line(&mut self) -> Result<(), AllocError>
        ensures shown { OnOk result
            (string_bytes self.new.shown ≡ string_bytes self.old.shown ++ codes "\n") }
        ensures masks { self.new.masks ≡ self.old.masks }
        ensures stop { self.new.stop ≡ self.old.stop }
    {
        self.shown.push_str("\n")
    }

    /// Adds a text, masked, and a newline.
    fn show_text(&mut self, given: &Masks, text: &str) -> Result<(), AllocError>
        ensures shown { OnOk result (string_bytes self.new.shown ≡ string_bytes self.old.shown
            ++ lines_text (masked_line (given.now ++ self.old.masks) (Some text.now))) }
        ensures masks { self.new.masks ≡ self.old.masks }
        ensures stop { self.new.stop ≡ self.old.stop }
    {
        let mut rest = text;
        while !rest.is_empty() {
            rest = self.show_some(given, rest)?;
        }
        self.end_line()
    }

    /// Adds what is shown of a line, masked, if it is shown.
    fn show(&mut self, given: &Masks, line: &Line) -> Result<(), AllocError>
        ensures shown { OnOk result (string_bytes self.new.shown ≡ string_bytes self.old.shown
            ++ lines_text (masked_line (given.now ++ self.old.masks) (line_shown_of line.now))) }
        ensures masks { self.new.masks ≡ self.old.masks }
        ensures stop { self.new.stop ≡ self.old.stop }
    {
        match line_shown(self.alloc, line)? {
            Some(text) => self.show_text(given, text.as_str()),
            None => Ok(()),
        }
    }

    /// Tells the next line, which may be a command.
    fn add_read(&mut self, given: &Masks, line: &str) -> Result<(), AllocError>
        ensures { OnOk result ((lines : List (List ℕ)) → told_with given.now self.old (line.now ∷ lines)
            ≡ told_with given.now self.new lines) }
    {
        let (read, stop) = read_line(self.alloc, line, self.stop.take())?;
        self.show(given, &read)?;
        add_own_mask(&read, &mut self.masks)?;
        self.stop = stop;
        Ok(())
    }

    /// Tells the next line.
    fn add_line(&mut self, given: &Masks, line: &str) -> Result<(), AllocError>
        ensures { OnOk result ((lines : List (List ℕ)) → told_with given.now self.old (line.now ∷ lines)
            ≡ told_with given.now self.new lines) }
    {
        if is_plain(line) {
            return self.show_text(given, line);
        }
        self.add_read(given, line)
    }

    /// Tells the next lines, those of a text: what is shown of each, by the masks that are given and those of its leg.
    ///
    /// # Errors
    ///
    /// There is no memory.
    pub fn add_lines(&mut self, given: &Masks, text: &str) -> Result<(), AllocError>
        ensures { OnOk result ((lines : List (List ℕ))
            → told_with given.now self.old (lines_of text.now ++ lines)
            ≡ told_with given.now self.new lines) }
    {
        let mut rest = text;
        while !rest.is_empty() {
            let (line, after) = first_line(rest);
            self.add_line(given, line)?;
            rest = after;
        }
        Ok(())
    }

    /// What is shown of the lines so far, but for what was taken.
    pub fn shown(&self) -> &str
        ensures { result.now ≡ string_bytes self.now.shown }
    {
        self.shown.as_str()
    }

    /// Takes what is shown of the lines so far.
    pub fn take_shown(&mut self)
        ensures shown { string_bytes self.new.shown ≡ [] }
        ensures masks { self.new.masks ≡ self.old.masks }
        ensures stop { self.new.stop ≡ self.old.stop }
    {
        self.shown.clear();
    }

    /// The masks of the leg.
    pub fn into_masks(self) -> Masks
        ensures { result ≡ self.masks }
    {
        self.masks
    }
}
