//! Equality of values.

ghost use Rattle.std.specs.Prelude.{◌≡◌};
ghost use Rattle.flow_model.specs.Mapping.{pairs_of};
ghost use Rattle.flow_model.specs.Plain as plain;
ghost use Rattle.flow_model.specs.Value.{view, views, viewed};
ghost use Rattle.matrix_expand.specs.Same as spec;

use flow_model::Node;
use std::collections::BTreeMap;

/// Whether two values are equal, all the way down and by kind.
#[cycle(same)]
pub(crate) fn is_same(left: &Node, right: &Node) -> bool
    ensures { result ≡ spec.is_same (view left.now) (view right.now) }
{
    match (left, right) {
        (Node::Null, Node::Null) => true,
        (Node::Truth(a), Node::Truth(b)) => same_truth(*a, *b),
        (Node::Whole(a), Node::Whole(b)) => *a == *b,
        (Node::Text(a), Node::Text(b)) => a.as_str() == b.as_str(),
        (Node::List(a), Node::List(b)) => same_items(a, b),
        (Node::Map(a), Node::Map(b)) => same_members(a, b),
        _ => false,
    }
}

/// Whether two truth values are equal.
fn same_truth(left: bool, right: bool) -> bool
    ensures { result ≡ spec.same_truth left right }
{
    if left { right } else { !right }
}

/// Whether two lists are equal, item by item.
#[cycle(same)]
fn same_items(left: &Vec<Node>, right: &Vec<Node>) -> bool
    ensures { result ≡ spec.same_items (plain.items_of (views left.now.items))
        (plain.items_of (views right.now.items)) }
{
    let mut others = right.iter();
    for node in left {
        match others.next() {
            Some(other) => {
                if !is_same(node, other) {
                    return false;
                }
            },
            None => return false,
        }
    }
    others.next().is_none()
}

/// Whether two maps are equal, key by key and value by value.
#[cycle(same)]
fn same_members(left: &BTreeMap<String, Node>, right: &BTreeMap<String, Node>) -> bool
    ensures { result ≡ spec.same_members (plain.members_of (viewed (pairs_of left.now.entries)))
        (plain.members_of (viewed (pairs_of right.now.entries))) }
{
    let mut others = right.iter();
    for (key, node) in left.iter() {
        match others.next() {
            Some((name, other)) => {
                if key.as_str() != name.as_str() || !is_same(node, other) {
                    return false;
                }
            },
            None => return false,
        }
    }
    others.next().is_none()
}
