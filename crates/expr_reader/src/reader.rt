//! Reads expressions.

ghost use Rattle.std.specs.Prelude.{◌≡◌, ℕ, ◌+◌, ◌^◌, ◌<◌, List, length, Err, IfOk, IfErr};
ghost use Rattle.expr_reader.specs.Expr.{Expr};
ghost use Rattle.expr_reader.specs.Faults.{fault_at, refused_at, Gives, IsRead, FaultStands};
ghost use Rattle.expr_reader.specs.Lexer.{next_at};
ghost use Rattle.expr_reader.specs.Machine.{limits, step, finish};
ghost use Rattle.expr_reader.specs.Reading.{placed as placed_at, read_tokens, read_text};
ghost use Rattle.expr_reader.specs.Spells.{Spells};
ghost use Rattle.expr_reader.specs.Stack.{state_of, token_of, some_lexed};
ghost use Rattle.expr_reader.specs.View.{view};

use crate::bytes::{Class, split_run};
use crate::fault::{ExprFault, Fault, Refusal};
use crate::lexer::next_token;
use crate::machine::Machine;
use crate::token::Token;
use crate::tree::Tree;
use std::alloc::Global;

/// The most bytes of an expression.
const LONGEST: usize = 20_000;

// The fault at its place.
fn at(refusal: Refusal, place: usize) -> ExprFault
    ensures { fault_at result ≡ refused_at refusal place }
{
    match refusal {
        Refusal::Memory => ExprFault::Memory(place),
        Refusal::Fault(fault) => placed(fault, place),
    }
}

fn placed(fault: Fault, place: usize) -> ExprFault
    ensures { fault_at result ≡ refused_at (Refusal.Fault fault) place }
{
    match fault {
        Fault::UnclosedText => ExprFault::UnclosedText(place),
        Fault::BadNumber => ExprFault::BadNumber(place),
        Fault::BadChar => ExprFault::BadChar(place),
        Fault::Unexpected => ExprFault::Unexpected(place),
        Fault::UnknownName => ExprFault::UnknownName(place),
        Fault::UnknownFunction => ExprFault::UnknownFunction(place),
        Fault::ArgumentCount => ExprFault::ArgumentCount(place),
        Fault::TooDeep => ExprFault::TooDeep(place),
        Fault::TooLong => ExprFault::TooLong(place),
        Fault::UnclosedTemplate => ExprFault::UnclosedTemplate(place),
        Fault::StatusHere => ExprFault::StatusHere(place),
    }
}

// The next token, where the text from its place on has no white space in front.
fn next_placed(
    alloc: Global,
    text: &str,
    dotted: bool,
    place: usize,
) -> Result<Option<(Token, &str)>, ExprFault>
    ensures { Gives some_lexed result (placed_at place (next_at dotted text.now)) }
{
    match next_token(alloc, text, dotted) {
        Ok(next) => Ok(next),
        Err(refusal) => Err(at(refusal, place)),
    }
}

// The machine with the token at a place taken.
fn advanced(
    alloc: Global,
    machine: Machine,
    token: Token,
    place: usize,
) -> Result<Machine, ExprFault>
    ensures { Gives state_of result
        (placed_at place (step limits (state_of machine) (token_of token))) }
{
    match machine.advance(alloc, token) {
        Ok(advanced) => Ok(advanced),
        Err(refusal) => Err(at(refusal, place)),
    }
}

// The machine's tree, where the text ends at a place.
fn finished(alloc: Global, machine: Machine, place: usize) -> Result<Tree, ExprFault>
    ensures { Gives view result (placed_at place (finish limits (state_of machine))) }
{
    match machine.finish(alloc) {
        Ok(tree) => Ok(tree),
        Err(refusal) => Err(at(refusal, place)),
    }
}

// What was made so far is of no use where a fault stands.
fn let_go<T: Drop, R>(_: T, fault: ExprFault) -> Result<R, ExprFault>
    ensures { result ≡ Err fault }
{
    Err(fault)
}

// The place of the first status function stays.
fn note_status(status: &mut Option<usize>, token: &Token, place: usize) {
    if status.is_none() && token.names_status() {
        *status = Some(place);
    }
}

// Reads an expression of any length, which begins at the place base. The place of the first status
// function goes to status, where none stands there yet.
fn read_tokens(
    alloc: Global,
    text: &str,
    base: usize,
    status: &mut Option<usize>,
) -> Result<Tree, ExprFault>
    requires { base + length text.now < 2 ^ 64 }
    ensures { Gives view result (read_tokens base text.now) }
{
    let mut machine = Machine::new(alloc);
    let mut rest = text;
    'tokens: loop {
        let (_, start) = split_run(rest, Class::White);
        let place = base + (text.len() - start.len());
        match next_placed(alloc, start, machine.is_dotted(), place) {
            Err(fault) => return let_go(machine, fault),
            Ok(None) => return finished(alloc, machine, place),
            Ok(Some((token, after))) => {
                note_status(status, &token, place);
                machine = advanced(alloc, machine, token, place)?;
                rest = after;
            }
        }
    }
}

/// Reads an expression, which begins at the place base of a longer text. The place of the first status
/// function goes to status, where none stands there yet.
pub(crate) fn read_at(
    alloc: Global,
    text: &str,
    base: usize,
    status: &mut Option<usize>,
) -> Result<Tree, ExprFault>
    requires { base + length text.now < 2 ^ 64 }
    ensures { Gives view result (read_text base text.now) }
{
    if text.len() > LONGEST {
        return Err(ExprFault::TooLong(base + LONGEST));
    }
    read_tokens(alloc, text, base, status)
}

/// Reads an expression, of at most 20,000 bytes and with a tree that is at most 50 deep.
///
/// GitHub Docs, "Evaluate expressions in workflows and actions". Numbers are whole, and names of contexts
/// and functions go by A to Z alone.
///
/// # Errors
///
/// A fault that stands in the text, with the number of bytes before its place; which one, where there
/// are several, is not promised. Or no memory was left.
pub fn read_expr(alloc: Global, text: &str) -> Result<Tree, ExprFault>
    // What is read is spelled so.
    ensures found { IfOk result (λ tree. Spells (view tree) text.now) }
    // What is spelled so is read, unless memory runs out.
    ensures only { (e : Expr) → Spells e text.now → IsRead result e }
    ensures stands { IfErr result (λ fault. FaultStands text.now fault) }
{
    read_alone(alloc, text)
}

// Reads an expression that stands in no longer text, whichever functions it names.
fn read_alone(alloc: Global, text: &str) -> Result<Tree, ExprFault>
    ensures found { IfOk result (λ tree. Spells (view tree) text.now) }
    ensures only { (e : Expr) → Spells e text.now → IsRead result e }
    ensures stands { IfErr result (λ fault. FaultStands text.now fault) }
{
    let mut status = None;
    read_at(alloc, text, 0, &mut status)
}

/// No text spells two expressions.
pub fn one_reading()
    ensures { (t u : Expr) (text : List ℕ) → Spells t text → Spells u text → t ≡ u }
{}
