//! What is told of a record is so, and became so at its line.

ghost use Rattle.why_causes.specs.Becomes.{ChangesBecomeSo};
ghost use Rattle.why_causes.specs.Made.{NotesAreMade};

/// What an accepted entry makes so was not so on the board before it, and is so on the board after it.
#[tactic(auto, using(crate::proofs::Becoming::changes_become_so))]
pub fn changes_become_so()
    ensures { ChangesBecomeSo }
{}

/// All that is noted in the account of a record was made so by the entry at the line that is noted, and is how all stands on
/// the board after the record.
pub fn notes_are_made()
    ensures { NotesAreMade }
{}
