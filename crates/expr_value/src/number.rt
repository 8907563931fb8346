//! A value as a number.

ghost use Rattle.std.specs.Prelude.{◌≡◌, ◌≤◌, true, length, take, drop, IfOk, IfSome};
ghost use Rattle.std.specs.List.{list_all, prefix_len};
ghost use Rattle.std.specs.Option.{option_map};
ghost use Rattle.expr_reader.specs.Bytes.{is_digit};
ghost use Rattle.expr_reader.specs.Number.{greatest, digits_value as digits_value_of};
ghost use Rattle.expr_value.specs.Convert.{number_of as number_of_kind};
ghost use Rattle.expr_value.specs.Number as number;
ghost use Rattle.expr_value.specs.Seen.{kind_seen};

use crate::digits::digits_length;
use crate::kind::ValueKind;
use flow_model::ValueFault;
use flow_model::within::GREATEST;

// The greatest whole number; the least is its opposite.
const MOST: u64 = GREATEST as u64;

// Nothing but digits.
fn all_digits(bytes: &[u8]) -> bool
    ensures { result ≡ list_all is_digit bytes.now }
{
    bytes.iter().all(|byte| byte.is_ascii_digit())
}

// One digit or more, and nothing else.
fn is_digits(bytes: &[u8]) -> bool
    ensures { result ≡ number.is_digits bytes.now }
{
    match bytes {
        [] => false,
        [_, ..] => all_digits(bytes),
    }
}

// 0, or digits that do not begin with 0.
fn is_integer(bytes: &[u8]) -> bool
    ensures { result ≡ number.is_integer bytes.now }
{
    match bytes {
        [] => false,
        [digit] => digit.is_ascii_digit(),
        [first, _, ..] => *first != b'0' && all_digits(bytes),
    }
}

// Digits, with + or - before them or nothing.
fn is_power(bytes: &[u8]) -> bool
    ensures { result ≡ number.is_power bytes.now }
{
    match bytes {
        [] => false,
        [first, digits @ ..] => {
            if *first == b'+' || *first == b'-' {
                is_digits(digits)
            } else {
                is_digits(bytes)
            }
        },
    }
}

// e or E and a power.
fn is_exponent(bytes: &[u8]) -> bool
    ensures { result ≡ number.is_exponent bytes.now }
{
    match bytes {
        [] => false,
        [first, power @ ..] => (*first == b'e' || *first == b'E') && is_power(power),
    }
}

// Digits, and then nothing or an exponent.
fn is_part(digits: &[u8], rest: &[u8]) -> bool
    ensures { result ≡ number.is_part digits.now rest.now }
{
    match rest {
        [] => is_digits(digits),
        [_, ..] => is_digits(digits) && is_exponent(rest),
    }
}

// The digits at the front, and the rest.
fn split_digits(bytes: &[u8]) -> (&[u8], &[u8])
    ensures front { result.0.now ≡ take (prefix_len is_digit bytes.now) bytes.now }
    ensures back { result.1.now ≡ drop (prefix_len is_digit bytes.now) bytes.now }
{
    bytes.split_at(digits_length(bytes))
}

// What may follow a number's integer: a fraction, an exponent, or both.
fn is_tail(bytes: &[u8]) -> bool
    ensures { result ≡ number.is_tail bytes.now }
{
    match bytes {
        [] => false,
        [first, fraction @ ..] => {
            if *first == b'.' {
                let (digits, rest) = split_digits(fraction);
                is_part(digits, rest)
            } else {
                is_exponent(bytes)
            }
        },
    }
}

// The value of digits, where it is in range.
#[tactic(auto, using(crate::proofs::DigitLemmas::digit_low, crate::proofs::DigitLemmas::value_over, crate::proofs::DigitLemmas::value_step, crate::proofs::DigitLemmas::value_end))]
fn digits_value(digits: &[u8]) -> Result<Option<u64>, ValueFault>
    requires { list_all is_digit digits.now ≡ true }
    ensures value { result ≡ number.in_range (digits_value_of 10 0 digits.now) }
    ensures range { IfOk result (λ number. IfSome number (λ n. n ≤ greatest)) }
{
    let mut value: u64 = 0;
    for digit in digits {
        value = value * 10 + u64::from(*digit - b'0');
        if value > MOST {
            return Err(ValueFault::NotWhole);
        }
    }
    Ok(Some(value))
}

// The number of the digits at its front and what follows them.
#[tactic(auto, using(crate::proofs::DigitLemmas::integer_digits))]
fn number_of_parts(digits: &[u8], rest: &[u8]) -> Result<Option<u64>, ValueFault>
    ensures value { result ≡ number.number_of_parts digits.now rest.now }
    ensures range { IfOk result (λ number. IfSome number (λ n. n ≤ greatest)) }
{
    match rest {
        [] => if is_integer(digits) {
            digits_value(digits)
        } else {
            Ok(None)
        },
        [_, ..] => if is_integer(digits) && is_tail(rest) {
            Err(ValueFault::NotWhole)
        } else {
            Ok(None)
        },
    }
}

// The number of a text without a sign.
fn unsigned_number(bytes: &[u8]) -> Result<Option<u64>, ValueFault>
    ensures value { result ≡ number.unsigned_number bytes.now }
    ensures range { IfOk result (λ number. IfSome number (λ n. n ≤ greatest)) }
{
    let (digits, rest) = split_digits(bytes);
    number_of_parts(digits, rest)
}

// A number with a minus, or without.
fn with_sign(minus: bool, size: Option<u64>) -> Option<i64>
    requires { IfSome size (λ n. n ≤ greatest) }
    ensures { result ≡ option_map (number.sign_of minus) size }
{
    match size {
        Some(size) => Some(if minus { -(size as i64) } else { size as i64 }),
        None => None,
    }
}

// The number of what follows the sign.
fn signed_number(minus: bool, bytes: &[u8]) -> Result<Option<i64>, ValueFault>
    ensures { result ≡ number.with_sign (number.sign_of minus) (number.unsigned_number bytes.now) }
{
    match unsigned_number(bytes) {
        Ok(size) => Ok(with_sign(minus, size)),
        Err(fault) => Err(fault),
    }
}

/// The number that a text writes (RFC 8259, "Numbers"). None is not-a-number; the empty text is 0.
///
/// # Errors
///
/// `NotWhole`: the number has a fraction or an exponent, or is out of range.
pub(crate) fn number_of_text(text: &str) -> Result<Option<i64>, ValueFault>
    ensures { result ≡ number.number_of_text text.now }
{
    match text.as_bytes() {
        [] => Ok(Some(0)),
        [b'-', digits @ ..] => signed_number(true, digits),
        bytes => signed_number(false, bytes),
    }
}

/// The number of a value of this kind. None is not-a-number.
///
/// # Errors
///
/// `NotWhole`: a text writes a number that is not whole, or out of range.
pub(crate) fn number_of(kind: ValueKind<'_>) -> Result<Option<i64>, ValueFault>
    ensures { result ≡ number_of_kind (kind_seen kind.entry) }
{
    match kind {
        ValueKind::Null => Ok(Some(0)),
        ValueKind::Truth(truth) => Ok(Some(if truth { 1 } else { 0 })),
        ValueKind::Whole(number) => Ok(Some(number)),
        ValueKind::Text(text) => number_of_text(text),
        ValueKind::List | ValueKind::Map => Ok(None),
    }
}
