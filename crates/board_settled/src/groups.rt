//! Laws of the names of groups on the board after a legal list of entries.

ghost use Rattle.board_settled.specs.Words.{NamesAreFolded, OneHolderWhateverTheCase};

use crate::admission_laws::legal_lists_are_shown;

/// A name that is held or waited for has no letter A to Z. So two names that are held, and are the same but for the case of
/// letters, are one.
pub fn names_are_folded()
    ensures folded { NamesAreFolded }
    ensures one { OneHolderWhateverTheCase }
{
    legal_lists_are_shown();
}
