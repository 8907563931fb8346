//! A text that grows up to a limit.

ghost use Rattle.std.specs.Prelude.{◌≡◌, [], Some, OnOk, string_bytes};
ghost use Rattle.expr_value.specs.Answer.{Gives};
ghost use Rattle.expr_value.specs.Bounded.{grown, grown_value, FitsLimit};
ghost use Rattle.expr_value.specs.Limit.{limited as limited_of};
ghost use Rattle.flow_model.specs.Value.{view};

use flow_model::{Node, Text, ValueFault};
use std::alloc::{AllocError, Global};
use std::marker::Model;

/// The greatest text that an evaluation gives, in bytes.
pub(crate) const MOST_BYTES: usize = 1_048_576;

/// A text of at most so many bytes, or nothing once more were added. Contracts see it as that.
#[derive(Drop)]
pub(crate) struct Bounded {
    text: Option<String>,
}

impl Model for Bounded {
    ghost use Rattle.std.specs.Prelude.{List, ℕ, Option, option_map, string_bytes};
    ghost use Rattle.expr_value.specs.Bounded.{FitsLimit};

    ghost Value = { Option (List ℕ) };

    ghost view = { λ b. option_map string_bytes b.text };

    ghost invariant = { λ b. FitsLimit (option_map string_bytes b.text) };
}

impl Bounded {
    /// The empty text. It takes no memory.
    pub(crate) fn empty(alloc: Global) -> Bounded
        ensures { result ≡ Some [] }
    {
        Bounded {
            text: Some(String::new(alloc)),
        }
    }

    /// Adds a text, or, where that passes the limit, drops what it holds and takes no more.
    pub(crate) fn push_str(&mut self, text: &str) -> Result<(), AllocError>
        ensures { OnOk result (self.new ≡ grown self.old text.now) }
    {
        let Some(held) = &mut self.text else {
            return Ok(());
        };
        if text.len() <= MOST_BYTES - held.len() {
            held.push_str(text)?;
        } else {
            self.text = None;
        }
        Ok(())
    }

    /// The text as a value, or `TooLarge`.
    pub(crate) fn finish(self) -> Result<Node, ValueFault>
        ensures value { Gives view result (grown_value self) }
        ensures fits { FitsLimit self }
    {
        match self.text {
            Some(text) => Ok(Node::Text(Text::new(text))),
            None => Err(ValueFault::TooLarge),
        }
    }
}

/// A text as a value, or `TooLarge`.
pub(crate) fn limited(text: String) -> Result<Node, ValueFault>
    ensures { Gives view result (limited_of (string_bytes text)) }
{
    if text.len() <= MOST_BYTES {
        Ok(Node::Text(Text::new(text)))
    } else {
        Err(ValueFault::TooLarge)
    }
}
