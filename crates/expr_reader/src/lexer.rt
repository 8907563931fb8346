//! Reads the first token of a text.

ghost use Rattle.std.specs.Prelude.{◌≡◌, ◌∷◌, ◌<◌, Ok, MatchOption, slice_get, drop, IfOk, string_bytes};
ghost use Rattle.std.specs.Str.{IsUtf8, IsCharBoundary};
ghost use Rattle.expr_reader.specs.Bytes.{skip_white, is_byte, Stops};
ghost use Rattle.expr_reader.specs.Expr.{quoted as quoted_of};
ghost use Rattle.expr_reader.specs.Grammar.{constant};
ghost use Rattle.expr_reader.specs.Lexer as lexer;
ghost use Rattle.expr_reader.specs.Outcome.{Gives};
ghost use Rattle.expr_reader.specs.Stack.{token_of, lexed, some_lexed};

use crate::bytes::{Class, begins_name, begins_number, split_run};
use crate::fault::{Fault, Refusal};
use crate::names::named;
use crate::number::whole_number;
use crate::token::{Mark, Token};
use crate::tree::{Equality, Literal, Relation};
use std::alloc::Global;

// The text after this byte, if it begins with it.
#[tactic(auto, using(crate::proofs::Boundaries::first_boundary))]
fn strip_byte(text: &str, byte: u8) -> Option<&str>
    requires { byte < 128 }
    ensures { MatchOption result
        (Stops (is_byte byte) text.now) (λ rest. text.now ≡ byte ∷ rest.now) }
{
    match text.as_bytes() {
        [first, ..] if *first == byte => {
            let (_, rest) = text.split_at(1);
            Some(rest)
        }
        _ => None,
    }
}

// One token, or the other where `=` follows.
#[tactic(auto, using(crate::proofs::Lexing::paired_alone))]
fn paired(one: Token, two: Token, text: &str) -> (Token, &str)
    ensures { lexed result ≡ lexer.paired (token_of one) (token_of two) text.now }
{
    match strip_byte(text, b'=') {
        Some(rest) => (two, rest),
        None => (one, text),
    }
}

// A token where this byte follows.
#[tactic(auto, using(crate::proofs::Lexing::followed_by_none))]
fn followed(byte: u8, token: Token, text: &str) -> Result<(Token, &str), Refusal>
    requires { byte < 128 }
    ensures { Gives lexed result (lexer.followed byte (token_of token) text.now) }
{
    match strip_byte(text, byte) {
        Some(rest) => Ok((token, rest)),
        None => Err(Refusal::Fault(Fault::BadChar)),
    }
}

// A number.
fn number(text: &str) -> Result<(Token, &str), Refusal>
    ensures { Gives lexed result (lexer.number_at text.now) }
{
    let (run, rest) = split_run(text, Class::Number);
    match whole_number(run.as_bytes()) {
        Some(whole) => Ok((Token::Constant(Literal::Whole(whole)), rest)),
        None => Err(Refusal::Fault(Fault::BadNumber)),
    }
}

// Whether a parenthesis comes next.
fn begins_call(text: &str) -> bool
    ensures { result ≡ lexer.begins_call (skip_white text.now) }
{
    let (_, text) = split_run(text, Class::White);
    matches!(text.as_bytes(), [b'(', ..])
}

// A name.
fn word(alloc: Global, text: &str, dotted: bool) -> Result<(Token, &str), Refusal>
    ensures { Gives lexed result (lexer.word_at dotted text.now) }
{
    let (word, rest) = split_run(text, Class::Name);
    if dotted {
        let name = String::from_str(alloc, word)?;
        return Ok((Token::Name(name), rest));
    }
    match named(word) {
        Some(token) => Ok((token, rest)),
        None if begins_call(rest) => Err(Refusal::Fault(Fault::UnknownFunction)),
        None => Err(Refusal::Fault(Fault::UnknownName)),
    }
}

// The token of a text in quotes, before the rest.
fn quoted_token(text: Vec<u8>, rest: &str) -> (Token, &str)
    requires { IsUtf8 text.items }
    ensures { lexed result ≡ (constant (quoted_of text.items), rest.now) }
{
    let text = String::from_utf8(text).unwrap();
    (Token::Constant(Literal::Text(text)), rest)
}

// A text in quotes, from after its first quote on.
fn quoted(alloc: Global, inside: &str) -> Result<(Token, &str), Refusal>
    ensures { Gives lexed result (lexer.quoted_token (lexer.unquoted inside.now)) }
{
    let bytes = inside.as_bytes();
    let mut text = Vec::new(alloc);
    let mut after_quote = false;
    for (place, byte) in bytes.iter().enumerate() {
        if *byte != b'\'' {
            if after_quote {
                let (_, rest) = inside.split_at(place);
                return Ok(quoted_token(text, rest));
            }
        } else {
            after_quote = !after_quote;
            if after_quote {
                continue;
            }
        }
        text.push(*byte)?;
    }
    if after_quote {
        let (_, rest) = inside.split_at(inside.len());
        return Ok(quoted_token(text, rest));
    }
    Err(Refusal::Fault(Fault::UnclosedText))
}

// A token that begins with an operator's byte.
#[tactic(auto, using(crate::proofs::Lexing::no_operator_above, crate::proofs::Boundaries::first_boundary))]
fn operator(first: u8, text: &str) -> Result<(Token, &str), Refusal>
    requires { slice_get text.now 0 ≡ Some first }
    ensures { Gives lexed result (lexer.operator_at first (drop 1 text.now)) }
{
    if !first.is_ascii() {
        return Err(Refusal::Fault(Fault::BadChar));
    }
    let (_, rest) = text.split_at(1);
    ascii_operator(first, rest)
}

fn ascii_operator(first: u8, rest: &str) -> Result<(Token, &str), Refusal>
    ensures { Gives lexed result (lexer.operator_at first rest.now) }
{
    match first {
        b'(' => Ok((Token::Mark(Mark::Open), rest)),
        b')' => Ok((Token::Mark(Mark::Close), rest)),
        b'[' => Ok((Token::Mark(Mark::OpenIndex), rest)),
        b']' => Ok((Token::Mark(Mark::CloseIndex), rest)),
        b'.' => Ok((Token::Mark(Mark::Dot), rest)),
        b',' => Ok((Token::Mark(Mark::Comma), rest)),
        b'*' => Ok((Token::Mark(Mark::Star), rest)),
        b'!' => Ok(paired(
            Token::Mark(Mark::Not),
            Token::Equational(Equality::NotEqual),
            rest,
        )),
        b'<' => Ok(paired(
            Token::Relational(Relation::Less),
            Token::Relational(Relation::AtMost),
            rest,
        )),
        b'>' => Ok(paired(
            Token::Relational(Relation::Greater),
            Token::Relational(Relation::AtLeast),
            rest,
        )),
        b'=' => followed(b'=', Token::Equational(Equality::Equal), rest),
        b'&' => followed(b'&', Token::Mark(Mark::Both), rest),
        b'|' => followed(b'|', Token::Mark(Mark::Either), rest),
        _ => Err(Refusal::Fault(Fault::BadChar)),
    }
}

/// The token that the text begins with, after a dot or not, and the rest; or none at the end. The text has
/// no white space in front.
pub(crate) fn next_token(
    alloc: Global,
    text: &str,
    dotted: bool,
) -> Result<Option<(Token, &str)>, Refusal>
    ensures { Gives some_lexed result (lexer.next_at dotted text.now) }
{
    match text.as_bytes() {
        [] => Ok(None),
        [first, ..] => {
            let token = token_at(alloc, *first, text, dotted)?;
            Ok(Some(token))
        }
    }
}

// The token that a text begins with, by its first byte.
#[tactic(auto, using(crate::proofs::Boundaries::first_boundary, crate::proofs::Boundaries::first_and_rest))]
fn token_at(alloc: Global, first: u8, text: &str, dotted: bool) -> Result<(Token, &str), Refusal>
    requires { slice_get text.now 0 ≡ Some first }
    ensures { Gives lexed result (lexer.token_at dotted first (drop 1 text.now)) }
{
    if first == b'\'' {
        let (_, inside) = text.split_at(1);
        quoted(alloc, inside)
    } else if begins_number(first) {
        number(text)
    } else if begins_name(first) {
        word(alloc, text, dotted)
    } else {
        operator(first, text)
    }
}
