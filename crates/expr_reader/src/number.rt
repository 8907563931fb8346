//! Whole numbers.

ghost use Rattle.std.specs.Prelude.{◌≡◌, ◌≤◌, IfSome};
ghost use Rattle.expr_reader.specs.Number.{greatest, digits_from, digits_number, decimal_number, after_zero as after_zero_of, number_of};

/// The greatest whole number; the least is its opposite.
const GREATEST: u64 = 9_007_199_254_740_991;

// The number of digits in a base, where it is in range.
#[tactic(auto, using(crate::proofs::Digits::product_fits, crate::proofs::Digits::digits_over, crate::proofs::Digits::digits_step, crate::proofs::Digits::digits_stop, crate::proofs::Digits::digits_end))]
fn digits_value(bytes: &[u8], base: u32) -> Option<u64>
    requires low { 2 ≤ base }
    requires high { base ≤ 36 }
    ensures value { result ≡ digits_from base 0 bytes.now }
    ensures range { IfSome result (λ n. n ≤ greatest) }
{
    let mut value: u64 = 0;
    for byte in bytes {
        let Some(digit) = char::from(*byte).to_digit(base) else {
            return None;
        };
        value = value * u64::from(base) + u64::from(digit);
        if value > GREATEST {
            return None;
        }
    }
    Some(value)
}

// The number of one digit or more.
fn digits_number(bytes: &[u8], base: u32) -> Option<u64>
    requires low { 2 ≤ base }
    requires high { base ≤ 36 }
    ensures value { result ≡ digits_number base bytes.now }
    ensures range { IfSome result (λ n. n ≤ greatest) }
{
    match bytes {
        [] => None,
        [_, ..] => digits_value(bytes, base),
    }
}

// A decimal number, with no 0 before other digits.
fn decimal_number(bytes: &[u8]) -> Option<u64>
    ensures value { result ≡ decimal_number bytes.now }
    ensures range { IfSome result (λ n. n ≤ greatest) }
{
    match bytes {
        [b'0', _, ..] => None,
        _ => digits_number(bytes, 10),
    }
}

// What may follow a 0: nothing, or `x` and hexadecimal digits.
fn after_zero(bytes: &[u8]) -> Option<u64>
    ensures value { result ≡ after_zero_of bytes.now }
    ensures range { IfSome result (λ n. n ≤ greatest) }
{
    match bytes {
        [] => Some(0),
        [b'x', digits @ ..] => digits_number(digits, 16),
        _ => None,
    }
}

/// The whole number that the bytes write, if they write one from -9007199254740991 to 9007199254740991.
pub(crate) fn whole_number(bytes: &[u8]) -> Option<i64>
    ensures { result ≡ number_of bytes.now }
{
    match bytes {
        [] => None,
        [b'-', digits @ ..] => decimal_number(digits).map(|number| -(number as i64)),
        [b'0', rest @ ..] => after_zero(rest).map(|number| number as i64),
        _ => decimal_number(bytes).map(|number| number as i64),
    }
}
