//! The bytes that tokens are made of.

ghost use Rattle.std.specs.Prelude.{◌≡◌, take, drop};
ghost use Rattle.std.specs.List.{prefix_len, suffix_len};
ghost use Rattle.std.specs.Str.{IsCharBoundary};
ghost use Rattle.expr_reader.specs.Bytes.{is_white, is_blank as is_blank_of, begins_name as begins_name_of, begins_number as begins_number_of};
ghost use Rattle.expr_reader.specs.Class.{in_class};
ghost use Rattle.expr_reader.specs.Template.{trimmed_end};

/// Bytes that go on in a run.
#[derive(Clone, Copy)]
pub(crate) enum Class {
    /// Spaces, tabs, carriage returns and newlines.
    White,
    /// Letters, digits, `_` and `-`.
    Name,
    /// Letters, digits, `_`, `.`, `+` and `-`.
    Number,
}

impl Class {
    fn contains(self, byte: u8) -> bool
        ensures { result ≡ in_class self byte }
    {
        match self {
            Class::White => matches!(byte, b' ' | b'\t' | b'\r' | b'\n'),
            Class::Name => byte.is_ascii_alphanumeric() || matches!(byte, b'_' | b'-'),
            Class::Number => byte.is_ascii_alphanumeric()
                || matches!(byte, b'_' | b'.' | b'+' | b'-'),
        }
    }
}

/// Whether the byte begins a name: a letter or `_`.
pub(crate) fn begins_name(byte: u8) -> bool
    ensures { result ≡ begins_name_of byte }
{
    byte.is_ascii_alphabetic() || byte == b'_'
}

/// Whether the byte begins a number: a digit or `-`.
pub(crate) fn begins_number(byte: u8) -> bool
    ensures { result ≡ begins_number_of byte }
{
    byte.is_ascii_digit() || byte == b'-'
}

// How many bytes at the front are of the class.
fn run_length(bytes: &[u8], class: Class) -> usize
    ensures { result ≡ prefix_len (in_class class) bytes.now }
{
    bytes
        .iter()
        .take_while(|byte| class.contains(**byte))
        .count()
}

/// The text's longest front of bytes of the class, and the rest.
#[tactic(auto, using(crate::proofs::Boundaries::run_boundary))]
pub(crate) fn split_run(text: &str, class: Class) -> (&str, &str)
    ensures front { result.0.now ≡ take (prefix_len (in_class class) text.now) text.now }
    ensures back { result.1.now ≡ drop (prefix_len (in_class class) text.now) text.now }
{
    let length = run_length(text.as_bytes(), class);
    text.split_at(length)
}

// How many bytes at the end are white.
fn white_end(bytes: &[u8]) -> usize
    ensures { result ≡ suffix_len is_white bytes.now }
{
    bytes
        .iter()
        .rev()
        .take_while(|byte| Class::White.contains(**byte))
        .count()
}

/// The text without the white space at its end.
#[tactic(auto, using(crate::proofs::Boundaries::white_end_boundary, crate::proofs::Boundaries::white_end_short))]
pub(crate) fn trim_end(text: &str) -> &str
    ensures { result.now ≡ trimmed_end text.now }
{
    let length = white_end(text.as_bytes());
    let (trimmed, _) = text.split_at(text.len() - length);
    trimmed
}

// Whether all bytes are white.
fn all_white(bytes: &[u8]) -> bool
    ensures { result ≡ is_blank_of bytes.now }
{
    bytes.iter().all(|byte| Class::White.contains(*byte))
}

/// Whether the text is nothing but spaces, tabs, carriage returns and newlines.
pub fn is_blank(text: &str) -> bool
    ensures { result ≡ is_blank_of text.now }
{
    all_white(text.as_bytes())
}
