//! Properties, items and filtered lists (GitHub Docs, "Evaluate expressions in workflows and actions": object
//! filters).

ghost use Rattle.std.specs.Prelude.{◌≡◌, ◌++◌, IfOk, Ok};
ghost use Rattle.expr_value.specs.Answer.{Gives};
ghost use Rattle.expr_value.specs.Convert.{text_of, number_of as number_of_kind};
ghost use Rattle.expr_value.specs.Dereference.{one, filtered, or_null as or_null_of, is_alike as is_alike_of, property_in, property_of as property_of_value, item_at, item_found, index_of as index_of_value, outside as outside_of};
ghost use Rattle.expr_value.specs.Seen.{found_seen, item_seen, items_seen, kind_seen, maybe_seen, members_seen, node_seen};
ghost use Rattle.expr_value.specs.Stepping.{place_in, places_in, step_found as step_found_of, step_seen};
ghost use Rattle.flow_model.specs.Value.{view, views};

use crate::compare::text_order;
use crate::item::{Item, item_copies};
use crate::kind::ValueKind;
use crate::number::number_of;
use crate::text::text_of_kind;
use flow_model::{Node, ValueFault, copy_node};
use std::alloc::{AllocError, Global};
use std::cmp::Ordering;
use std::collections::BTreeMap;

/// What a chain of dereferences has come to: one value, or a filtered list.
#[derive(Drop)]
pub(crate) enum Found<'a> {
    One(Item<'a>),
    Filtered(Vec<Item<'a>>),
}

// Two texts are the same ignoring case.
fn is_alike(name: &str, key: &str) -> bool
    ensures { result ≡ is_alike_of name.now key.now }
{
    matches!(text_order(name, key), Ordering::Equal)
}

// The property of exactly that name, else the first in key order that equals it ignoring case.
fn member<'n>(members: &'n BTreeMap<String, Node>, name: &str) -> Option<&'n Node>
    ensures { node_seen result
        ≡ property_in name.now (members_seen members.now.entries) }
{
    if let Some(node) = members.get(name) {
        return Some(node);
    }
    for (key, node) in members.iter() {
        if is_alike(name, key.as_str()) {
            return Some(node);
        }
    }
    None
}

// The property of a value, where it is a map that has it.
fn property_of<'n>(node: &'n Node, name: &str) -> Option<&'n Node>
    ensures { node_seen result ≡ property_of_value name.now (view node.now) }
{
    match node {
        Node::Null | Node::Truth(_) | Node::Whole(_) | Node::Text(_) | Node::List(_) => None,
        Node::Map(members) => member(members, name),
    }
}

// The item at a number, from 0.
fn item_of(nodes: &[Node], number: Option<i64>) -> Option<&Node>
    ensures { node_seen result ≡ item_at number (views nodes.now) }
{
    match number {
        Some(place) if place >= 0 => nodes.get(place as usize),
        _ => None,
    }
}

// What stands at an index in a list: the item at its number.
fn index_nodes<'n>(nodes: &'n [Node], index: ValueKind<'_>) -> Result<Option<&'n Node>, ValueFault>
    ensures { Gives node_seen result
        (item_found (number_of_kind (kind_seen index.entry)) (views nodes.now)) }
{
    let number = number_of(index)?;
    Ok(item_of(nodes, number))
}

// What stands at an index in a map: the property at its text, which is made only where the index is none.
fn index_members<'n>(
    alloc: Global,
    members: &'n BTreeMap<String, Node>,
    index: ValueKind<'_>,
) -> Result<Option<&'n Node>, ValueFault>
    ensures { Gives node_seen result
        (Ok (property_in (text_of (kind_seen index.entry)) (members_seen members.now.entries))) }
{
    if let ValueKind::Text(name) = index {
        return Ok(member(members, name));
    }
    let name = text_of_kind(alloc, index)?;
    Ok(member(members, name.as_str()))
}

// What stands at an index in a value: in a list at its number, in a map at its text.
fn index_of<'n>(
    alloc: Global,
    node: &'n Node,
    index: ValueKind<'_>,
) -> Result<Option<&'n Node>, ValueFault>
    ensures { Gives node_seen result (index_of_value (kind_seen index.entry) (view node.now)) }
{
    match node {
        Node::Null | Node::Truth(_) | Node::Whole(_) | Node::Text(_) => Ok(None),
        Node::List(nodes) => index_nodes(nodes.as_slice(), index),
        Node::Map(members) => index_members(alloc, members, index),
    }
}

/// One step of a chain: `.name` or `[index]`.
#[derive(Clone, Copy)]
pub(crate) enum Step<'s> {
    Property(&'s str),
    Index(ValueKind<'s>),
}

// What stands at a step from a value.
fn place_of<'n>(
    alloc: Global,
    node: &'n Node,
    step: Step<'_>,
) -> Result<Option<&'n Node>, ValueFault>
    ensures { Gives node_seen result (place_in (step_seen step.entry) (view node.now)) }
{
    match step {
        Step::Property(name) => Ok(property_of(node, name)),
        Step::Index(index) => index_of(alloc, node, index),
    }
}

// A node that may be there, as an item of its own.
fn made<'a>(alloc: Global, node: Option<&Node>) -> Result<Option<Item<'a>>, ValueFault>
    ensures { Gives maybe_seen result (Ok (node_seen node.entry)) }
{
    match node {
        Some(node) => Ok(Some(Item::Made(copy_node(alloc, node)?))),
        None => Ok(None),
    }
}

// A node that may be there, lent.
fn lent(node: Option<&Node>) -> Option<Item<'_>>
    ensures { maybe_seen result ≡ node_seen node.entry }
{
    match node {
        Some(node) => Some(Item::Lent(node)),
        None => None,
    }
}

// What stands at a step from a value that was made, as an item of its own.
fn made_place<'a>(
    alloc: Global,
    node: &Node,
    step: Step<'_>,
) -> Result<Option<Item<'a>>, ValueFault>
    ensures { Gives maybe_seen result (place_in (step_seen step.entry) (view node.now)) }
{
    let found = place_of(alloc, node, step)?;
    made(alloc, found)
}

// What stands at a step from an item.
fn item_place<'a>(
    alloc: Global,
    item: &Item<'a>,
    step: Step<'_>,
) -> Result<Option<Item<'a>>, ValueFault>
    ensures { Gives maybe_seen result (place_in (step_seen step.entry) (item_seen item.now)) }
{
    match item {
        Item::Lent(node) => Ok(lent(place_of(alloc, *node, step)?)),
        Item::Made(node) => made_place(alloc, node, step),
    }
}

// One value, or null.
fn or_null(item: Option<Item<'_>>) -> Found<'_>
    ensures { found_seen result ≡ one (or_null_of (maybe_seen item.entry)) }
{
    match item {
        Some(item) => Found::One(item),
        None => Found::One(Item::Made(Node::Null)),
    }
}

// A step from one value: what stands there, or null.
fn one_place<'a>(alloc: Global, item: &Item<'a>, step: Step<'_>) -> Result<Found<'a>, ValueFault>
    ensures { Gives found_seen result
        (step_found_of (step_seen step.entry) (one (item_seen item.now))) }
{
    Ok(or_null(item_place(alloc, item, step)?))
}

// What stands at a step from each item that has it.
fn places<'a>(
    alloc: Global,
    items: &[Item<'a>],
    step: Step<'_>,
) -> Result<Vec<Item<'a>>, ValueFault>
    ensures { Gives (λ found. items_seen found.items) result
        (places_in (step_seen step.entry) (items_seen items.now)) }
{
    let mut found = Vec::new(alloc);
    for item in items {
        if let Some(place) = item_place(alloc, item, step)? {
            found.push(place)?;
        }
    }
    Ok(found)
}

// A step from a filtered list.
fn filtered_places<'a>(
    alloc: Global,
    items: &[Item<'a>],
    step: Step<'_>,
) -> Result<Found<'a>, ValueFault>
    ensures { Gives found_seen result
        (step_found_of (step_seen step.entry) (filtered (items_seen items.now))) }
{
    Ok(Found::Filtered(places(alloc, items, step)?))
}

/// A step: what stands there in one value or null, or in each item of a filtered list that has it.
pub(crate) fn step_found<'a>(
    alloc: Global,
    found: &Found<'a>,
    step: Step<'_>,
) -> Result<Found<'a>, ValueFault>
    ensures { Gives found_seen result
        (step_found_of (step_seen step.entry) (found_seen found.now)) }
{
    match found {
        Found::One(item) => one_place(alloc, item, step),
        Found::Filtered(items) => filtered_places(alloc, items.as_slice(), step),
    }
}

// A filtered list as a list.
fn listed<'a>(alloc: Global, items: &[Item<'_>]) -> Result<Item<'a>, ValueFault>
    ensures { Gives item_seen result (Ok (outside_of (filtered (items_seen items.now)))) }
{
    Ok(Item::Made(Node::List(item_copies(alloc, items)?)))
}

/// What a chain is outside of it: a filtered list is a list.
pub(crate) fn outside<'a>(alloc: Global, found: Found<'a>) -> Result<Item<'a>, ValueFault>
    ensures { Gives item_seen result (Ok (outside_of (found_seen found.entry))) }
{
    match found {
        Found::One(item) => Ok(item),
        Found::Filtered(items) => listed(alloc, items.as_slice()),
    }
}
