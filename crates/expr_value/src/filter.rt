//! The contents of values, for `.*`.

ghost use Rattle.std.specs.Prelude.{◌≡◌, ◌++◌, IfOk, Ok, OnOk};
ghost use Rattle.std.specs.List.{flat_map};
ghost use Rattle.expr_value.specs.Answer.{Gives};
ghost use Rattle.expr_value.specs.Dereference.{contents, filtered, all_found as all_found_of};
ghost use Rattle.expr_value.specs.PlainKind.{items as items_of_list, values as values_of};
ghost use Rattle.expr_value.specs.Seen.{item_seen, items_seen, found_seen, members_seen};
ghost use Rattle.flow_model.specs.Value.{view, views};

use crate::dereference::Found;
use crate::item::Item;
use flow_model::{Node, ValueFault, copy_node};
use std::alloc::{AllocError, Global};
use std::collections::BTreeMap;
use std::slice;

// Adds the items of a list, lent.
fn push_nodes<'a>(nodes: &'a [Node], found: &mut Vec<Item<'a>>) -> Result<(), AllocError>
    ensures { OnOk result
        (items_seen found.new.items ≡ items_seen found.old.items ++ views nodes.now) }
{
    for node in nodes {
        found.push(Item::Lent(node))?;
    }
    Ok(())
}

// Adds the values of a map, lent.
fn push_values<'a>(
    members: &'a BTreeMap<String, Node>,
    found: &mut Vec<Item<'a>>,
) -> Result<(), AllocError>
    ensures { OnOk result (items_seen found.new.items
        ≡ items_seen found.old.items ++ values_of (members_seen members.now.entries)) }
{
    for (_key, node) in members.iter() {
        found.push(Item::Lent(node))?;
    }
    Ok(())
}

// Adds the contents of a node, lent.
fn push_lent<'a>(node: &'a Node, found: &mut Vec<Item<'a>>) -> Result<(), AllocError>
    ensures { OnOk result (items_seen found.new.items
        ≡ items_seen found.old.items ++ contents (view node.now)) }
{
    match node {
        Node::List(nodes) => push_nodes(nodes.as_slice(), found),
        Node::Map(members) => push_values(members, found),
        Node::Null | Node::Truth(_) | Node::Whole(_) | Node::Text(_) => Ok(()),
    }
}

// Adds copies of what items stand for.
fn push_copies(
    alloc: Global,
    items: &[Item<'_>],
    found: &mut Vec<Item<'_>>,
) -> Result<(), AllocError>
    ensures { OnOk result
        (items_seen found.new.items ≡ items_seen found.old.items ++ items_seen items.now) }
{
    for item in items {
        found.push(Item::Made(copy_node(alloc, item.node())?))?;
    }
    Ok(())
}

// Adds copies of the contents of a node.
fn push_made(alloc: Global, node: &Node, found: &mut Vec<Item<'_>>) -> Result<(), AllocError>
    ensures { OnOk result (items_seen found.new.items
        ≡ items_seen found.old.items ++ contents (view node.now)) }
{
    let mut lent = Vec::new(alloc);
    push_lent(node, &mut lent)?;
    push_copies(alloc, lent.as_slice(), found)
}

// Adds the contents of an item: what a context lends is lent on.
fn push_contents<'a>(
    alloc: Global,
    item: &Item<'a>,
    found: &mut Vec<Item<'a>>,
) -> Result<(), AllocError>
    ensures { OnOk result (items_seen found.new.items
        ≡ items_seen found.old.items ++ contents (item_seen item.now)) }
{
    match item {
        Item::Lent(node) => push_lent(*node, found),
        Item::Made(node) => push_made(alloc, node, found),
    }
}

// The contents of each item, one after the other.
fn all_contents<'a>(alloc: Global, items: &[Item<'a>]) -> Result<Vec<Item<'a>>, AllocError>
    ensures { IfOk result
        (λ found. items_seen found.items ≡ flat_map contents (items_seen items.now)) }
{
    let mut found = Vec::new(alloc);
    for item in items {
        push_contents(alloc, item, &mut found)?;
    }
    Ok(found)
}

// `.*` of values, as a filtered list.
fn filtered_contents<'a>(alloc: Global, items: &[Item<'a>]) -> Result<Found<'a>, ValueFault>
    ensures { Gives found_seen result
        (Ok (filtered (flat_map contents (items_seen items.now)))) }
{
    Ok(Found::Filtered(all_contents(alloc, items)?))
}

/// `.*`: the contents of one value, or of each item of a filtered list.
pub(crate) fn all_found<'a>(alloc: Global, found: &Found<'a>) -> Result<Found<'a>, ValueFault>
    ensures { Gives found_seen result (Ok (all_found_of (found_seen found.now))) }
{
    match found {
        Found::One(item) => filtered_contents(alloc, slice::from_ref(item)),
        Found::Filtered(items) => filtered_contents(alloc, items.as_slice()),
    }
}
