//! Words and numbers, added to a text.

ghost use Rattle.std.specs.Prelude.{◌++◌, OnOk, decimal};
ghost use Rattle.std.specs.List.{flat_map};
ghost use Rattle.board_timeline.specs.Escaped.{Adds};

use itoa::Buffer;
use std::alloc::AllocError;

/// Adds pieces to a text, one after the other.
pub fn add(text: &mut Vec<u8>, pieces: &[&str]) -> Result<(), AllocError>
    ensures { OnOk result
        (Adds text.old.items text.new.items (flat_map (λ piece. piece.now) pieces.now)) }
{
    for piece in pieces {
        text.extend_from_slice(piece.as_bytes())?;
    }
    Ok(())
}

/// Adds words and a number after them.
pub fn add_number(text: &mut Vec<u8>, words: &str, number: u64) -> Result<(), AllocError>
    ensures { OnOk result (Adds text.old.items text.new.items (words.now ++ decimal number)) }
{
    let mut buffer = Buffer::new();
    let digits = buffer.format(number);
    add(text, &[words, digits])
}
