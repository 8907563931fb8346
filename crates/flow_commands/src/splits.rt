//! Texts split at marks, and into lines.

ghost use Rattle.std.specs.Prelude.{◌≡◌, ◌<◌, ◌∷◌, ◌++◌, length};
ghost use Rattle.std.specs.List.{prefix_len};
ghost use Rattle.std.specs.Option.{option_map};
ghost use Rattle.flow_model.specs.Lines.{lines_of};
ghost use Rattle.flow_commands.specs.Splits.{after_front as after_front_of, from_text as from_text_of, is_blank as is_blank_of, split_first as split_first_of};

/// What stands before the first place of a mark in a text, and what follows the mark there.
pub(crate) fn split_first<'t>(text: &'t str, mark: &str) -> Option<(&'t str, &'t str)>
    requires { 0 < length mark.now }
    ensures { option_map (λ x. (x.0.now, x.1.now)) result ≡ split_first_of mark.now text.now }
{
    text.split_once(mark)
}

/// The first line of a text, without its newline, and what follows it.
pub(crate) fn first_line(text: &str) -> (&str, &str)
    requires { 0 < length text.now }
    ensures lines { lines_of text.now ≡ result.0.now ∷ lines_of result.1.now }
    ensures shorter { length result.1.now < length text.now }
{
    match split_first(text, "\n") {
        Some((line, rest)) => (line, rest),
        None => (text, ""),
    }
}

/// What follows this front of a text, if it has it.
pub(crate) fn after_front<'t>(text: &'t str, front: &str) -> Option<&'t str>
    ensures { option_map (λ x. x.now) result ≡ after_front_of front.now text.now }
{
    text.strip_prefix(front)
}

/// A space or a tab.
fn is_blank(byte: u8) -> bool
    ensures { result ≡ is_blank_of byte }
{
    byte == b' ' || byte == b'\t'
}

/// How many spaces and tabs a text begins with.
fn blanks(text: &[u8]) -> usize
    ensures { result ≡ prefix_len is_blank_of text.now }
{
    text.iter().take_while(|byte| is_blank(**byte)).count()
}

/// The text from its first byte on that is no space and no tab.
#[tactic(auto, using(crate::proofs::Standing::blanks_boundary))]
pub(crate) fn from_text(text: &str) -> &str
    ensures { result.now ≡ from_text_of text.now }
{
    let (_, rest) = text.split_at(blanks(text.as_bytes()));
    rest
}
