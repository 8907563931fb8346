//! Texts in which something is replaced.

ghost use Rattle.std.specs.Prelude.{◌≡◌, ◌+◌, ◌<◌, ◌≤◌, ◌++◌, IfOk, IfSome, length, take, drop, List, ℕ, nat_eq, IsTrue, string_bytes};
ghost use Rattle.std.specs.List.{starts_with};
ghost use Rattle.std.specs.Option.{option_map};
ghost use Rattle.std.specs.Str.{IsUtf8};
ghost use Rattle.flow_commands.specs.Replace.{replaced};

use flow_model::Text;
use std::alloc::{AllocError, Global};

/// What is replaced in a text.
pub trait Rule {
    ghost use Rattle.flow_commands.specs.Replace as spec;

    ghost rule: { Self → spec.Rule };

    /// What stands at the front of a text and is replaced, if anything is: what it is replaced by, and how many bytes it
    /// has.
    fn at(&self, text: &[u8]) -> Option<(&'static str, usize)>
        ensures value { option_map (λ x. (x.0.now, x.1)) result ≡ rule self.now text.now }
        ensures some { IfSome result (λ x. 0 < x.1) }
        ensures within { IfSome result (λ x. x.1 ≤ length text.now) }
        ensures text { IfSome result (λ x. IsUtf8 (take x.1 text.now)) };
}

/// Whether a text begins with this one.
#[tactic(auto, using(crate::proofs::Standing::front_text))]
pub fn begins(text: &[u8], front: &str) -> bool
    ensures value { result ≡ starts_with nat_eq text.now front.now }
    ensures within { IsTrue result → length front.now ≤ length text.now }
    ensures text { IsTrue result → IsUtf8 (take (length front.now) text.now) }
{
    text.starts_with(front.as_bytes())
}

/// What follows the bytes before a place.
fn tail(bytes: &[u8], place: usize) -> &[u8]
    requires { place ≤ length bytes.now }
    ensures { result.now ≡ drop place bytes.now }
{
    &bytes[place..]
}

/// How many bytes a piece of a text has, if there are more: it ends at the first place from there where a text may be cut.
const MOST_PIECE: usize = 65_536;

/// The first piece of a text, and what follows it.
fn first_piece(text: &str) -> (&str, &str)
    requires { 0 < length text.now }
    ensures whole { text.now ≡ result.0.now ++ result.1.now }
    ensures shorter { length result.1.now < length text.now }
{
    for place in MOST_PIECE..text.len() {
        if text.is_char_boundary(place) {
            return text.split_at(place);
        }
    }
    (text, "")
}

/// The text before the first place where something is replaced, what it is replaced by, and what follows it. Where nothing is
/// replaced in the first piece, that is this piece, nothing, and what follows the piece.
fn first_place<'t, R: Rule>(text: &'t str, rule: &R) -> (&'t str, &'static str, &'t str)
    requires { 0 < length text.now }
    ensures parts { replaced (R.rule rule.now) text.now
        ≡ result.0.now ++ (result.1.now ++ replaced (R.rule rule.now) result.2.now) }
    ensures shorter { length result.2.now < length text.now }
{
    let (piece, after) = first_piece(text);
    for place in 0..piece.len() {
        if let Some((put, length)) = rule.at(tail(text.as_bytes(), place)) {
            let (front, back) = text.split_at(place);
            let (_, rest) = back.split_at(length);
            return (front, put, rest);
        }
    }
    (piece, "", after)
}

/// Adds the first piece of a text to what was made, and answers what follows it.
pub(crate) fn push_first<'t>(made: &mut String, text: &'t str) -> Result<&'t str, AllocError>
    requires { 0 < length text.now }
    ensures made { IfOk result
        (λ rest. string_bytes made.new ++ rest.now ≡ string_bytes made.old ++ text.now) }
    ensures shorter { IfOk result (λ rest. length rest.now < length text.now) }
{
    let (piece, rest) = first_piece(text);
    made.push_str(piece)?;
    Ok(rest)
}

/// Adds a text to what was made, up to the first place where something is replaced, and what it is replaced by, or the first
/// piece where nothing is. It answers what follows.
pub(crate) fn replace_first<'t, R: Rule>(
    made: &mut String,
    text: &'t str,
    rule: &R,
) -> Result<&'t str, AllocError>
    requires { 0 < length text.now }
    ensures made { IfOk result (λ rest. string_bytes made.new ++ replaced (R.rule rule.now) rest.now
        ≡ string_bytes made.old ++ replaced (R.rule rule.now) text.now) }
    ensures shorter { IfOk result (λ rest. length rest.now < length text.now) }
{
    let (front, put, rest) = first_place(text, rule);
    made.push_str(front)?;
    made.push_str(put)?;
    Ok(rest)
}

/// The text with all replaced that the rule replaces, in one pass from the left.
///
/// # Errors
///
/// There is no memory.
pub fn replace<R: Rule>(alloc: Global, text: &str, rule: &R) -> Result<Text, AllocError>
    ensures { IfOk result (λ made. made ≡ replaced (R.rule rule.now) text.now) }
{
    let mut made = String::new(alloc);
    let mut rest = text;
    while !rest.is_empty() {
        rest = replace_first(&mut made, rest, rule)?;
    }
    Ok(Text::new(made))
}
