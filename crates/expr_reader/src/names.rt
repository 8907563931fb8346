//! What names mean.

ghost use Rattle.std.specs.Prelude.{◌≡◌};
ghost use Rattle.std.specs.Option.{option_map};
ghost use Rattle.std.specs.Str.{bytes_eq};
ghost use Rattle.expr_reader.specs.Fold.{fold};
ghost use Rattle.expr_reader.specs.Lexer.{context_named as context_of, function_named as function_of, literal_named as literal_of, named};
ghost use Rattle.expr_reader.specs.Stack.{token_of};

use crate::folding::same_text;
use crate::token::Token;
use crate::tree::{Context, Function, Literal};

// Whether a name is this one in small letters, ignoring case.
fn is_named(name: &str, small: &str) -> bool
    requires { fold small.now ≡ small.now }
    ensures { result ≡ bytes_eq (fold name.now) small.now }
{
    same_text(name, small)
}

fn context_named(name: &str) -> Option<Context>
    ensures { result ≡ context_of (fold name.now) }
{
    if is_named(name, "github") {
        Some(Context::Github)
    } else if is_named(name, "env") {
        Some(Context::Env)
    } else if is_named(name, "vars") {
        Some(Context::Vars)
    } else if is_named(name, "job") {
        Some(Context::Job)
    } else if is_named(name, "jobs") {
        Some(Context::Jobs)
    } else if is_named(name, "steps") {
        Some(Context::Steps)
    } else if is_named(name, "runner") {
        Some(Context::Runner)
    } else if is_named(name, "secrets") {
        Some(Context::Secrets)
    } else if is_named(name, "strategy") {
        Some(Context::Strategy)
    } else if is_named(name, "matrix") {
        Some(Context::Matrix)
    } else if is_named(name, "needs") {
        Some(Context::Needs)
    } else if is_named(name, "inputs") {
        Some(Context::Inputs)
    } else {
        None
    }
}

fn function_named(name: &str) -> Option<Function>
    ensures { result ≡ function_of (fold name.now) }
{
    if is_named(name, "contains") {
        Some(Function::Contains)
    } else if is_named(name, "startswith") {
        Some(Function::StartsWith)
    } else if is_named(name, "endswith") {
        Some(Function::EndsWith)
    } else if is_named(name, "format") {
        Some(Function::Format)
    } else if is_named(name, "join") {
        Some(Function::Join)
    } else if is_named(name, "tojson") {
        Some(Function::ToJson)
    } else if is_named(name, "fromjson") {
        Some(Function::FromJson)
    } else if is_named(name, "success") {
        Some(Function::Success)
    } else if is_named(name, "failure") {
        Some(Function::Failure)
    } else if is_named(name, "cancelled") {
        Some(Function::Cancelled)
    } else if is_named(name, "always") {
        Some(Function::Always)
    } else {
        None
    }
}

fn literal_named(name: &str) -> Option<Token>
    ensures { option_map token_of result ≡ literal_of name.now }
{
    match name {
        "null" => Some(Token::Constant(Literal::Null)),
        "true" => Some(Token::Constant(Literal::Truth(true))),
        "false" => Some(Token::Constant(Literal::Truth(false))),
        _ => None,
    }
}

/// The token that a name is where no dot stands before it: a context or a function, ignoring case, or a
/// literal.
pub(crate) fn named(name: &str) -> Option<Token>
    ensures { option_map token_of result ≡ named name.now }
{
    if let Some(context) = context_named(name) {
        return Some(Token::Root(context));
    }
    match function_named(name) {
        Some(function) => Some(Token::Callee(function)),
        None => literal_named(name),
    }
}
