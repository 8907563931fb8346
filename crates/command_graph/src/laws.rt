//! What follows from the definitions of a graph's text.

ghost use Rattle.command_graph.specs.Reading.{PlainTextsAreShown, QuotedTextsAreRead};

/// A text in quotes is read as that text.
#[tactic(auto, using(crate::proofs::ReadingLaws::quoted_texts_are_read, crate::proofs::ReadingLaws::plain_texts_are_shown))]
pub fn quoted_texts_are_read()
    ensures read { QuotedTextsAreRead }
    ensures plain { PlainTextsAreShown }
{}
