//! The escapes in what a command says.

ghost use Rattle.std.specs.Prelude.{◌≡◌, ◌≤◌, IfOk, IfSome, IsTrue, length, take, codes};
ghost use Rattle.std.specs.Option.{option_map};
ghost use Rattle.std.specs.Str.{IsUtf8};
ghost use Rattle.flow_commands.specs.CommandTexts.{decoded, message_escape as message_escape_of, value_escape as value_escape_of};

use crate::replace::{Rule, begins, replace};
use flow_model::Text;
use std::alloc::{AllocError, Global};

/// Which escapes are decoded.
#[derive(Clone, Copy)]
pub(crate) enum Escapes {
    /// Those of a message.
    Message,
    /// Those of a value.
    Value,
}

/// What the escape of three bytes at the front stands for, in a message.
fn message_escape(text: &[u8]) -> Option<&'static str>
    ensures value { option_map (λ s. s.now) result ≡ message_escape_of text.now }
    ensures within { IfSome result (λ _. 3 ≤ length text.now) }
    ensures text { IfSome result (λ _. IsUtf8 (take 3 text.now)) }
{
    if begins(text, "%25") {
        return Some("%");
    }
    if begins(text, "%0D") {
        return Some("\r");
    }
    if begins(text, "%0A") {
        return Some("\n");
    }
    None
}

/// What the escape of three bytes at the front stands for, in a value.
fn value_escape(text: &[u8]) -> Option<&'static str>
    ensures value { option_map (λ s. s.now) result ≡ value_escape_of text.now }
    ensures within { IfSome result (λ _. 3 ≤ length text.now) }
    ensures text { IfSome result (λ _. IsUtf8 (take 3 text.now)) }
{
    if begins(text, "%3A") {
        return Some(":");
    }
    if begins(text, "%2C") {
        return Some(",");
    }
    message_escape(text)
}

impl Rule for Escapes {
    ghost use Rattle.flow_commands.specs.CommandTexts.{escape_of, three_by};

    ghost rule = { λ e t. three_by (escape_of e t) };

    fn at(&self, text: &[u8]) -> Option<(&'static str, usize)> {
        let put = match self {
            Escapes::Message => message_escape(text)?,
            Escapes::Value => value_escape(text)?,
        };
        Some((put, 3))
    }
}

/// The text with its escapes decoded, in one pass from the left.
pub(crate) fn decode(alloc: Global, text: &str, escapes: Escapes) -> Result<Text, AllocError>
    ensures { IfOk result (λ made. made ≡ decoded escapes text.now) }
{
    replace(alloc, text, &escapes)
}
