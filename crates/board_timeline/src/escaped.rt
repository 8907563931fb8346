//! Texts between the tags of XML.

ghost use Rattle.std.specs.Prelude.{◌≡◌, OnOk};
ghost use Rattle.board_timeline.specs.Escaped as spec;
ghost use Rattle.board_timeline.specs.Escaped.{Adds};

use std::alloc::AllocError;

/// How many bytes of a character that XML forbids stand before a byte's end, from how many stood before it.
fn seen_after(seen: u8, byte: u8) -> u8
    ensures { result ≡ spec.seen_after seen byte }
{
    if byte == 239 {
        1
    } else if seen == 1 && byte == 191 {
        2
    } else {
        0
    }
}

/// Whether a byte ends a character that XML forbids.
fn is_forbidden(seen: u8, byte: u8) -> bool
    ensures { result ≡ spec.is_forbidden seen byte }
{
    seen == 2 && (byte == 190 || byte == 191)
}

/// Adds a byte that ends no such character, as it is spelled between tags.
fn add_byte(text: &mut Vec<u8>, byte: u8) -> Result<(), AllocError>
    ensures { OnOk result (Adds text.old.items text.new.items (spec.spell byte)) }
{
    match byte {
        b'<' => text.extend_from_slice(b"&lt;"),
        b'>' => text.extend_from_slice(b"&gt;"),
        b'&' => text.extend_from_slice(b"&amp;"),
        b'"' => text.extend_from_slice(b"&quot;"),
        b'\'' => text.extend_from_slice(b"&apos;"),
        0..=31 => text.extend_from_slice(&[226, 144, 128 + byte]),
        127 => text.extend_from_slice(&[226, 144, 161]),
        _ => text.extend_from_slice(&[byte]),
    }
}

/// Adds a byte as it is spelled after others.
fn add_next(text: &mut Vec<u8>, seen: u8, byte: u8) -> Result<(), AllocError>
    ensures { OnOk result (Adds text.old.items text.new.items (spec.spell_next seen byte)) }
{
    if is_forbidden(seen, byte) {
        text.extend_from_slice(&[189])
    } else {
        add_byte(text, byte)
    }
}

/// Adds a text as it is spelled between tags.
pub(crate) fn add_escaped(text: &mut Vec<u8>, words: &[u8]) -> Result<(), AllocError>
    ensures { OnOk result (Adds text.old.items text.new.items (spec.escaped words.now)) }
{
    let mut seen = 0;
    for byte in words {
        add_next(text, seen, *byte)?;
        seen = seen_after(seen, *byte);
    }
    Ok(())
}
