//! Texts in quotes.

ghost use Rattle.std.specs.Prelude.{◌≡◌, OnOk};
ghost use Rattle.command_graph.specs.Quoted as spec;
ghost use Rattle.command_graph.specs.Quoted.{Adds};

use crate::writing::add;
use std::alloc::AllocError;

/// How many bytes of a text stand in a row before it is folded.
const LONG: usize = 2048;

/// Adds a byte as it is spelled between quotes.
fn add_byte(text: &mut Vec<u8>, byte: u8) -> Result<(), AllocError>
    ensures { OnOk result (Adds text.old.items text.new.items (spec.spell byte)) }
{
    match byte {
        b'"' => text.extend_from_slice(b"\\\""),
        b'\\' => text.extend_from_slice(b"\\\\"),
        b'&' => text.extend_from_slice(b"&amp;"),
        b'\n' => text.extend_from_slice(b"\\n"),
        0..=31 => text.extend_from_slice(&[226, 144, 128 + byte]),
        _ => text.extend_from_slice(&[byte]),
    }
}

/// Whether a row of this many bytes is folded before a byte.
fn is_long(row: usize, byte: u8) -> bool
    ensures { result ≡ spec.is_long row byte }
{
    row >= LONG && (byte < 128 || byte >= 192)
}

/// Adds a text as it is spelled between quotes.
fn add_spelled(text: &mut Vec<u8>, words: &[u8]) -> Result<(), AllocError>
    ensures { OnOk result (Adds text.old.items text.new.items (spec.spelled 0 words.now)) }
{
    let mut row = 0;
    for byte in words {
        if is_long(row, *byte) {
            add(text, &["\\\n"])?;
            row = 0;
        }
        add_byte(text, *byte)?;
        row += 1;
    }
    Ok(())
}

/// Adds a text in quotes.
pub(crate) fn add_quoted(text: &mut Vec<u8>, words: &[u8]) -> Result<(), AllocError>
    ensures { OnOk result (Adds text.old.items text.new.items (spec.quoted words.now)) }
{
    add(text, &["\""])?;
    add_spelled(text, words)?;
    add(text, &["\""])
}
