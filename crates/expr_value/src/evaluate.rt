//! The values of expressions.

ghost use Rattle.std.specs.Prelude.{◌≡◌, IfOk, Ok, not};
ghost use Rattle.expr_reader.specs.View.{view as tree_view, constant_of};
ghost use Rattle.expr_value.specs.Answer.{Gives};
ghost use Rattle.expr_value.specs.Context.{context_value};
ghost use Rattle.expr_value.specs.Dereference.{one, outside as outside_of};
ghost use Rattle.expr_value.specs.Evaluate.{all_values, begun as begun_of, call_value, chain as chain_of, constant_value, indexed, is_truthy, then_value, truth_answer, value};
ghost use Rattle.expr_value.specs.Evaluating.{completed as completed_of, first_of, test_kinds, test_value};
ghost use Rattle.expr_value.specs.Functions.{called};
ghost use Rattle.expr_value.specs.Seen.{found_seen, item_seen, items_seen, kind_seen, tree_answers};
ghost use Rattle.flow_model.specs.Plain as plain;
ghost use Rattle.flow_model.specs.Value.{view};

use crate::call::call;
use crate::compare::{equality, related};
use crate::context::Context;
use crate::dereference::{Found, Step, outside, step_found};
use crate::filter::all_found;
use crate::item::Item;
use crate::kind::ValueKind;
use crate::status::Status;
use crate::truth::truth_of;
use expr_reader::{Equality, Function, Literal, Relation, Tree};
use flow_model::{Node, Text, ValueFault};
use std::alloc::{AllocError, Global};
use std::collections::BTreeMap;

// A node as the front of a chain.
fn begun<'a>(node: Node) -> Found<'a>
    ensures { found_seen result ≡ one (view node) }
{
    Found::One(Item::Made(node))
}

// The value of a literal.
fn literal_node(alloc: Global, literal: &Literal) -> Result<Node, AllocError>
    ensures { IfOk result (λ node. view node ≡ constant_value (constant_of literal.now)) }
{
    match literal {
        Literal::Null => Ok(Node::Null),
        Literal::Truth(truth) => Ok(Node::Truth(*truth)),
        Literal::Whole(number) => Ok(Node::Whole(*number)),
        Literal::Text(text) => Ok(Node::Text(Text::from_str(alloc, text.as_str())?)),
    }
}

// The value of a context, lent; one that is not given is an empty map.
fn context_found<'a, C: Context>(
    alloc: Global,
    contexts: &'a C,
    context: expr_reader::Context,
) -> Found<'a>
    ensures { found_seen result ≡ one (context_value (C.contexts contexts.now) context) }
{
    match contexts.root(context.name()) {
        Some(value) => Found::One(Item::Lent(value.node())),
        None => begun(Node::Map(BTreeMap::new(alloc))),
    }
}

// The value of a literal, as the front of a chain.
fn literal_found<'a>(alloc: Global, literal: &Literal) -> Result<Found<'a>, ValueFault>
    ensures { Gives found_seen result (Ok (one (constant_value (constant_of literal.now)))) }
{
    Ok(begun(literal_node(alloc, literal)?))
}

// The value of a call with the values of its arguments.
fn call_found<'a>(
    alloc: Global,
    function: Function,
    status: Status,
    values: &[Item<'_>],
) -> Result<Found<'a>, ValueFault>
    ensures { Gives found_seen result
        (begun_of (called function status (items_seen values.now))) }
{
    Ok(begun(call(alloc, function, status, values)?))
}

// How two values are compared.
#[derive(Clone, Copy)]
enum Test {
    Relation(Relation),
    Equality(Equality),
}

// A test, with the value on its left.
#[derive(Drop)]
struct LeftSide<'a> {
    test: Test,
    left: Item<'a>,
}

// Whether two values pass a test.
fn compared(test: Test, left: ValueKind<'_>, right: ValueKind<'_>) -> Result<bool, ValueFault>
    ensures { truth_answer result ≡ test_kinds test (kind_seen left.entry) (kind_seen right.entry) }
{
    match test {
        Test::Relation(relation) => related(relation, left, right),
        Test::Equality(test) => equality(test, left, right),
    }
}

// The value of a test of two values.
fn test_found<'a>(test: Test, left: &Item<'_>, right: &Item<'_>) -> Result<Found<'a>, ValueFault>
    ensures { Gives found_seen result
        (begun_of (test_value test (item_seen left.now) (item_seen right.now))) }
{
    Ok(begun(Node::Truth(compared(test, left.kind(), right.kind())?)))
}

// What may follow an operand, or stand round it.
#[derive(Clone, Copy)]
enum Last<'t> {
    /// `.name`
    Property(&'t str),
    /// `.*` or `[*]`
    Contents,
    /// `( )`: a filtered list is a list from there on.
    Group,
    /// `!` before it.
    Opposite,
}

// Whether what a chain has come to is true.
fn is_true(found: &Found<'_>) -> bool
    ensures { result ≡ is_truthy (outside_of (found_seen found.now)) }
{
    match found {
        Found::One(item) => truth_of(item.kind()),
        Found::Filtered(_) => true,
    }
}

// The value in parentheses.
fn grouped<'a>(alloc: Global, found: Found<'a>) -> Result<Found<'a>, ValueFault>
    ensures { Gives found_seen result (Ok (one (outside_of (found_seen found.entry)))) }
{
    Ok(Found::One(outside(alloc, found)?))
}

// An operand with what follows it, or stands round it.
fn completed<'a>(alloc: Global, found: Found<'a>, last: Last<'_>) -> Result<Found<'a>, ValueFault>
    ensures { Gives found_seen result (completed_of last.entry (Ok (found_seen found.entry))) }
{
    match last {
        Last::Property(name) => step_found(alloc, &found, Step::Property(name)),
        Last::Contents => all_found(alloc, &found),
        Last::Group => grouped(alloc, found),
        Last::Opposite => Ok(begun(Node::Truth(!is_true(&found)))),
    }
}

// The value of an expression, as a chain of dereferences may go on from it.
#[cycle(evaluate)]
fn chain<'a, C: Context>(
    alloc: Global,
    tree: &Tree,
    contexts: &'a C,
    status: Status,
) -> Result<Found<'a>, ValueFault>
    ensures { Gives found_seen result
        (chain_of (C.contexts contexts.now) status (tree_view tree.now)) }
{
    match tree {
        Tree::Literal(literal) => literal_found(alloc, literal),
        Tree::Context(context) => Ok(context_found(alloc, contexts, *context)),
        Tree::Call(function, arguments) => {
            called_with(alloc, *function, arguments.as_slice(), contexts, status)
        },
        Tree::Group(inner) => operand(alloc, inner, Last::Group, contexts, status),
        Tree::Property(base, name) => {
            operand(alloc, base, Last::Property(name.as_str()), contexts, status)
        },
        Tree::Index(base, index) => {
            let found = chain(alloc, base, contexts, status)?;
            indexed_by(alloc, found, index, contexts, status)
        },
        Tree::Wildcard(_, base) => operand(alloc, base, Last::Contents, contexts, status),
        Tree::Not(inner) => operand(alloc, inner, Last::Opposite, contexts, status),
        Tree::Relation(relation, left, right) => {
            let left = evaluate(alloc, left, contexts, status)?;
            let test = Test::Relation(*relation);
            tested(alloc, LeftSide { test, left }, right, contexts, status)
        },
        Tree::Equality(test, left, right) => {
            let left = evaluate(alloc, left, contexts, status)?;
            let test = Test::Equality(*test);
            tested(alloc, LeftSide { test, left }, right, contexts, status)
        },
        Tree::Both(parts) => decided(alloc, false, parts.as_slice(), contexts, status),
        Tree::Either(parts) => decided(alloc, true, parts.as_slice(), contexts, status),
    }
}

// The chain of an operand with what follows it, or stands round it.
#[cycle(evaluate)]
fn operand<'a, C: Context>(
    alloc: Global,
    inner: &Tree,
    last: Last<'_>,
    contexts: &'a C,
    status: Status,
) -> Result<Found<'a>, ValueFault>
    ensures { Gives found_seen result (completed_of last.entry
        (chain_of (C.contexts contexts.now) status (tree_view inner.now))) }
{
    let found = chain(alloc, inner, contexts, status)?;
    completed(alloc, found, last)
}

// The value of a call.
#[cycle(evaluate)]
fn called_with<'a, C: Context>(
    alloc: Global,
    function: Function,
    arguments: &[Tree],
    contexts: &'a C,
    status: Status,
) -> Result<Found<'a>, ValueFault>
    ensures { Gives found_seen result (begun_of (call_value function status
        (all_values (tree_answers (C.contexts contexts.now) status arguments.now)))) }
{
    let values = evaluate_all(alloc, arguments, contexts, status)?;
    call_found(alloc, function, status, values.as_slice())
}

// The chain after `[index]`, from what it has come to.
#[cycle(evaluate)]
fn indexed_by<'a, C: Context>(
    alloc: Global,
    found: Found<'a>,
    index: &Tree,
    contexts: &'a C,
    status: Status,
) -> Result<Found<'a>, ValueFault>
    ensures { Gives found_seen result
        (indexed (found_seen found.entry)
        (value (C.contexts contexts.now) status (tree_view index.now))) }
{
    let index = evaluate(alloc, index, contexts, status)?;
    step_found(alloc, &found, Step::Index(index.kind()))
}

// The value of a test, from the left side's.
#[cycle(evaluate)]
fn tested<'a, C: Context>(
    alloc: Global,
    side: LeftSide<'a>,
    right: &Tree,
    contexts: &'a C,
    status: Status,
) -> Result<Found<'a>, ValueFault>
    ensures { Gives found_seen result (begun_of (then_value
        (value (C.contexts contexts.now) status (tree_view right.now))
        (test_value side.entry.test (item_seen side.entry.left)))) }
{
    let right = evaluate(alloc, right, contexts, status)?;
    test_found(side.test, &side.left, &right)
}

/// The value of an expression.
#[cycle(evaluate)]
pub(crate) fn evaluate<'a, C: Context>(
    alloc: Global,
    tree: &Tree,
    contexts: &'a C,
    status: Status,
) -> Result<Item<'a>, ValueFault>
    ensures { Gives item_seen result
        (value (C.contexts contexts.now) status (tree_view tree.now)) }
{
    let found = chain(alloc, tree, contexts, status)?;
    outside(alloc, found)
}

// The values of all arguments, from the left.
#[cycle(evaluate)]
fn evaluate_all<'a, C: Context>(
    alloc: Global,
    trees: &[Tree],
    contexts: &'a C,
    status: Status,
) -> Result<Vec<Item<'a>>, ValueFault>
    ensures { Gives (λ values. items_seen values.items) result
        (all_values (tree_answers (C.contexts contexts.now) status trees.now)) }
{
    let mut values = Vec::new(alloc);
    for tree in trees {
        values.push(evaluate(alloc, tree, contexts, status)?)?;
    }
    Ok(values)
}

// The first part that is so true as is asked for, or the last one; what stands after it is not evaluated.
#[cycle(evaluate)]
fn decided<'a, C: Context>(
    alloc: Global,
    truth: bool,
    parts: &[Tree],
    contexts: &'a C,
    status: Status,
) -> Result<Found<'a>, ValueFault>
    ensures { Gives found_seen result (begun_of (first_of truth (plain.truth (not truth))
        (tree_answers (C.contexts contexts.now) status parts.now))) }
{
    let mut value = Item::Made(Node::Truth(!truth));
    for part in parts {
        if truth_of(value.kind()) == truth {
            return Ok(Found::One(value));
        }
        value = evaluate(alloc, part, contexts, status)?;
    }
    Ok(Found::One(value))
}
