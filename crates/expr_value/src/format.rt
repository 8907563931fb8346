//! The function `format`.

ghost use Rattle.std.specs.Prelude.{◌≡◌, ◌≤◌, ◌<◌, ◌-◌, ◌^◌, [], ◌∷◌, codes, true, length, take, drop, map, Option, option_map, MatchOption};
ghost use Rattle.std.specs.List.{list_all, prefix_len, slice_get};
ghost use Rattle.expr_reader.specs.Bytes.{is_digit as is_digit_byte};
ghost use Rattle.expr_reader.specs.Number.{digits_value};
ghost use Rattle.expr_value.specs.Answer.{Gives};
ghost use Rattle.expr_value.specs.Format.{formatted, opened, closed};
ghost use Rattle.expr_value.specs.Formatting.{texts_of, is_plain as is_plain_byte, BeginsOther, Splits};
ghost use Rattle.expr_value.specs.Functions.{formatted_value};
ghost use Rattle.expr_value.specs.PlainKind.{kind_of};
ghost use Rattle.expr_value.specs.Seen.{kind_seen, item_seen};
ghost use Rattle.flow_model.specs.Value.{view};

use crate::bounded::Bounded;
use crate::digits::digits_length;
use crate::item::Item;
use crate::kind::ValueKind;
use crate::text::push_kind;
use flow_model::{Node, ValueFault};
use std::alloc::Global;

// Whether a byte stands for itself.
fn is_plain(byte: u8) -> bool
    ensures { result ≡ is_plain_byte byte }
{
    byte != b'{' && byte != b'}'
}

// The text after a brace at the front, if it stands there.
fn after_brace(text: &str, brace: char) -> Option<&str>
    requires { brace < 128 }
    ensures { MatchOption result
        (BeginsOther (brace ∷ []) text.now) (λ after. text.now ≡ brace ∷ after.now) }
{
    text.strip_prefix(brace)
}

// How many bytes stand before the first brace.
fn plain_length(bytes: &[u8]) -> usize
    ensures { result ≡ prefix_len is_plain_byte bytes.now }
{
    bytes.iter().take_while(|byte| is_plain(**byte)).count()
}

// The text before the first brace, and the rest.
#[tactic(auto, using(crate::proofs::Braces::plain_boundary))]
fn split_plain(text: &str) -> (&str, &str)
    ensures front { result.0.now ≡ take (prefix_len is_plain_byte text.now) text.now }
    ensures back { result.1.now ≡ drop (prefix_len is_plain_byte text.now) text.now }
{
    let length = plain_length(text.as_bytes());
    text.split_at(length)
}

// The digits at the front, and the rest.
#[tactic(auto, using(crate::proofs::Braces::digit_boundary))]
fn split_digits(text: &str) -> (&str, &str)
    ensures front { result.0.now ≡ take (prefix_len is_digit_byte text.now) text.now }
    ensures back { result.1.now ≡ drop (prefix_len is_digit_byte text.now) text.now }
{
    let length = digits_length(text.as_bytes());
    text.split_at(length)
}

// The number that digits write, if it fits.
fn number_of(digits: &str) -> Option<usize>
    requires some { 0 < length digits.now }
    requires digits { list_all is_digit_byte digits.now ≡ true }
    ensures { MatchOption result (2 ^ 64 ≤ digits_value 10 0 digits.now)
        (λ n. n ≡ digits_value 10 0 digits.now) }
{
    match digits.parse::<usize>() {
        Ok(number) => Some(number),
        Err(_) => None,
    }
}

// The kind of the argument at a number, if there is one.
fn argument_at<'a>(arguments: &'a [Item<'_>], digits: &str) -> Option<ValueKind<'a>>
    requires some { 0 < length digits.now }
    requires digits { list_all is_digit_byte digits.now ≡ true }
    ensures { option_map kind_seen result
        ≡ option_map kind_of
        (slice_get (map item_seen arguments.now) (digits_value 10 0 digits.now)) }
{
    let place = number_of(digits)?;
    let argument = arguments.get(place)?;
    Some(argument.kind())
}

// The argument whose number stands at the front, after an opening brace, and what follows it.
fn argument_piece<'a>(text: &'a str, arguments: &'a [Item<'_>]) -> Option<(ValueKind<'a>, &'a str)>
    requires { BeginsOther (codes "{") text.now }
    ensures { Splits (texts_of arguments.now) (opened (texts_of arguments.now) text.now)
        (length text.now) result }
{
    let (digits, rest) = split_digits(text);
    if digits.is_empty() {
        return None;
    }
    let Some(after) = after_brace(rest, '}') else {
        return None;
    };
    let Some(kind) = argument_at(arguments, digits) else {
        return None;
    };
    Some((kind, after))
}

// What follows an opening brace: another one, or the number of an argument.
fn opened_piece<'a>(text: &'a str, arguments: &'a [Item<'_>]) -> Option<(ValueKind<'a>, &'a str)>
    ensures { Splits (texts_of arguments.now) (opened (texts_of arguments.now) text.now)
        (length text.now) result }
{
    match after_brace(text, '{') {
        Some(after) => Some((ValueKind::Text("{"), after)),
        None => argument_piece(text, arguments),
    }
}

// What follows a closing brace: another one.
fn closed_piece<'a>(text: &'a str, arguments: &[Item<'_>]) -> Option<(ValueKind<'a>, &'a str)>
    ensures { Splits (texts_of arguments.now) (closed (texts_of arguments.now) text.now)
        (length text.now) result }
{
    match after_brace(text, '}') {
        Some(after) => Some((ValueKind::Text("}"), after)),
        None => None,
    }
}

// The text before the first brace.
fn plain_piece<'a>(text: &'a str, arguments: &[Item<'_>]) -> (ValueKind<'a>, &'a str)
    requires some { 0 < length text.now }
    requires no_opening { BeginsOther (codes "{") text.now }
    requires no_closing { BeginsOther (codes "}") text.now }
    ensures { Splits (texts_of arguments.now) (formatted (texts_of arguments.now) text.now)
        (length text.now - 1) (Some result) }
{
    let (plain, rest) = split_plain(text);
    (ValueKind::Text(plain), rest)
}

// What stands at the front, as a kind that has its text, and what follows it: a brace and what belongs to it, or the
// text before the first brace. None is no format.
fn piece<'a>(text: &'a str, arguments: &'a [Item<'_>]) -> Option<(ValueKind<'a>, &'a str)>
    requires { 0 < length text.now }
    ensures { Splits (texts_of arguments.now) (formatted (texts_of arguments.now) text.now)
        (length text.now - 1) result }
{
    if let Some(after) = after_brace(text, '{') {
        return opened_piece(after, arguments);
    }
    if let Some(after) = after_brace(text, '}') {
        return closed_piece(after, arguments);
    }
    Some(plain_piece(text, arguments))
}

/// A format text with its arguments.
pub(crate) fn format<'x>(
    alloc: Global,
    text: &'x str,
    arguments: &'x [Item<'_>],
) -> Result<Node, ValueFault>
    ensures { Gives view result (formatted_value (formatted (texts_of arguments.now) text.now)) }
{
    let mut bounded = Bounded::empty(alloc);
    let mut rest = text;
    'pieces: while !rest.is_empty() {
        let Some((kind, after)) = piece(rest, arguments) else {
            return Err(ValueFault::BadFormat);
        };
        push_kind(&mut bounded, alloc, kind)?;
        rest = after;
    }
    bounded.finish()
}
