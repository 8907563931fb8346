//! Words, numbers and names from files, added to a text.

ghost use Rattle.std.specs.Prelude.{◌≡◌, ◌<◌, ◌++◌, OnOk, decimal};
ghost use Rattle.std.specs.Char.{digit_char};
ghost use Rattle.std.specs.List.{flat_map};
ghost use Rattle.json.specs.Print.{escape_byte, quoted};
ghost use Rattle.why_facts.specs.Adds.{Adds};
ghost use Rattle.command_why.specs.Names as spec;

use itoa::Buffer;
use std::alloc::AllocError;

/// Adds pieces to a text, one after the other.
pub(crate) fn add(out: &mut Vec<u8>, pieces: &[&str]) -> Result<(), AllocError>
    ensures { OnOk result
        (Adds out.old.items out.new.items (flat_map (λ piece. piece.now) pieces.now)) }
{
    for piece in pieces {
        out.extend_from_slice(piece.as_bytes())?;
    }
    Ok(())
}

/// Adds words and a number after them.
pub(crate) fn add_number(out: &mut Vec<u8>, words: &str, number: u64) -> Result<(), AllocError>
    ensures { OnOk result (Adds out.old.items out.new.items (words.now ++ decimal number)) }
{
    let mut buffer = Buffer::new();
    let digits = buffer.format(number);
    add(out, &[words, digits])
}

/// Adds a byte as it is shown.
fn add_byte(out: &mut Vec<u8>, byte: u8) -> Result<(), AllocError>
    ensures { OnOk result (Adds out.old.items out.new.items (spec.shown_byte byte)) }
{
    match byte {
        0..=31 => out.extend_from_slice(&[226, 144, 128 + byte]),
        127 => out.extend_from_slice(&[226, 144, 161]),
        _ => out.extend_from_slice(&[byte]),
    }
}

/// Adds a text from a file as it is shown.
pub(crate) fn add_shown(out: &mut Vec<u8>, text: &str) -> Result<(), AllocError>
    ensures { OnOk result (Adds out.old.items out.new.items (spec.shown text.now)) }
{
    let bytes = text.as_bytes();
    for byte in bytes {
        add_byte(out, *byte)?;
    }
    Ok(())
}

/// Adds the first line of a text from a file as it is shown.
pub(crate) fn add_first_line(out: &mut Vec<u8>, text: &str) -> Result<(), AllocError>
    ensures { OnOk result
        (Adds out.old.items out.new.items (spec.shown (spec.first_line text.now))) }
{
    let bytes = text.as_bytes();
    for byte in bytes {
        if *byte == b'\n' {
            return Ok(());
        }
        add_byte(out, *byte)?;
    }
    Ok(())
}

/// The digit of a number below 16, in small letters.
fn hex_digit(number: u8) -> u8
    requires { number < 16 }
    ensures { result ≡ digit_char number }
{
    if number < 10 {
        b'0' + number
    } else {
        b'a' + (number - 10)
    }
}

/// Adds a byte as it is in a JSON string.
#[tactic(auto, unfolding(json::specs::Print::escape_byte))]
fn add_escaped(out: &mut Vec<u8>, byte: u8) -> Result<(), AllocError>
    ensures { OnOk result (Adds out.old.items out.new.items (escape_byte byte)) }
{
    match byte {
        b'"' => out.extend_from_slice(b"\\\""),
        b'\\' => out.extend_from_slice(b"\\\\"),
        8 => out.extend_from_slice(b"\\b"),
        12 => out.extend_from_slice(b"\\f"),
        b'\n' => out.extend_from_slice(b"\\n"),
        b'\r' => out.extend_from_slice(b"\\r"),
        b'\t' => out.extend_from_slice(b"\\t"),
        0..=31 => out.extend_from_slice(&[
            b'\\',
            b'u',
            b'0',
            b'0',
            hex_digit(byte / 16),
            hex_digit(byte % 16),
        ]),
        _ => out.extend_from_slice(&[byte]),
    }
}

/// Adds a text as a JSON string.
pub(crate) fn add_quoted(out: &mut Vec<u8>, text: &[u8]) -> Result<(), AllocError>
    ensures { OnOk result (Adds out.old.items out.new.items (quoted text.now)) }
{
    add(out, &["\""])?;
    for byte in text {
        add_escaped(out, *byte)?;
    }
    add(out, &["\""])
}
