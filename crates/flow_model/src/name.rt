//! The names of jobs, steps, outputs and variables.

ghost use Rattle.std.specs.Prelude.{◌≡◌};
ghost use Rattle.std.specs.List.{list_any};
ghost use Rattle.flow_model.specs.Name as spec;

/// A to Z and a to z.
fn is_letter(byte: u8) -> bool
    ensures { result ≡ spec.is_letter byte }
{
    matches!(byte, b'A'..=b'Z' | b'a'..=b'z')
}

/// A letter, a digit, `-` or `_`.
fn is_name_byte(byte: u8) -> bool
    ensures { result ≡ spec.is_name_byte byte }
{
    is_letter(byte) || matches!(byte, b'0'..=b'9') || byte == b'-' || byte == b'_'
}

/// Letters, digits, `-` and `_`.
fn are_name_bytes(bytes: &[u8]) -> bool
    ensures { result ≡ spec.are_name_bytes bytes.now }
{
    bytes.iter().all(|byte| is_name_byte(*byte))
}

/// Whether a text may be the id of a job or step: a letter or `_`, then letters, digits, `-` and `_`
/// (GitHub Docs, workflow syntax: `jobs.<job_id>`).
pub fn is_id(text: &str) -> bool
    ensures { result ≡ spec.is_id text.now }
{
    match text.as_bytes() {
        [] => false,
        [first, rest @ ..] => (is_letter(*first) || *first == b'_') && are_name_bytes(rest),
    }
}

/// Whether a text may name an output of an answer: 1 to 256 letters, digits, `-` and `_`.
pub(crate) fn is_output_name(text: &str) -> bool
    ensures { result ≡ spec.is_output_name text.now }
{
    1 <= text.len() && text.len() <= 256 && are_name_bytes(text.as_bytes())
}

/// Whether there is a zero byte.
pub fn has_zero(bytes: &[u8]) -> bool
    ensures { result ≡ list_any spec.is_zero bytes.now }
{
    bytes.iter().any(|byte| *byte == 0)
}
