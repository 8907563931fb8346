//! Texts from outside as they are shown in a line.

ghost use Rattle.std.specs.Prelude.{◌≡◌};
ghost use Rattle.command_io.specs.Stream.{Puts};
ghost use Rattle.command_io.specs.Pictures as spec;

use crate::stream::Sink;

/// A character as it is shown: a control character by its picture.
pub fn picture(c: char) -> char
    ensures { result ≡ spec.picture c }
{
    match c {
        '\u{0}'..='\u{1f}' => char::from_u32(0x2400 + c as u32).unwrap(),
        '\u{7f}' => '\u{2421}',
        _ => c,
    }
}

/// Writes a character as it is shown, and answers whether it was written whole.
fn put_picture<S: Sink>(sink: &mut S, c: char) -> bool
    ensures { Puts (S.seen sink.old) (S.seen sink.new) (spec.shown_character c) result }
{
    let mut bytes = [0u8; 4];
    sink.put(picture(c).encode_utf8(&mut bytes).as_bytes())
}

/// Writes a text as it is shown, and answers whether it was written whole.
pub(crate) fn put_shown<S: Sink>(sink: &mut S, text: &str) -> bool
    ensures { Puts (S.seen sink.old) (S.seen sink.new) (spec.shown text.now) result }
{
    for c in text.chars() {
        if !put_picture(sink, c) {
            return false;
        }
    }
    true
}
