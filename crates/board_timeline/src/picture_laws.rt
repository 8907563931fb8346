//! What follows from the definitions of a picture's text.

ghost use Rattle.board_timeline.specs.Reading.{EscapedTextsAreRead, PlainTextsAreShown};

/// A text between tags is read as that text.
#[tactic(auto, using(crate::proofs::ReadingLaws::escaped_texts_are_read, crate::proofs::ReadingLaws::plain_texts_are_shown))]
pub fn escaped_texts_are_read()
    ensures read { EscapedTextsAreRead }
    ensures plain { PlainTextsAreShown }
{}
