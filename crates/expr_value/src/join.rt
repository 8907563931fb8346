//! The function `join`.

ghost use Rattle.std.specs.Prelude.{◌≡◌, OnOk};
ghost use Rattle.std.specs.List.{join_by};
ghost use Rattle.expr_value.specs.Answer.{Gives};
ghost use Rattle.expr_value.specs.Bounded.{grown};
ghost use Rattle.expr_value.specs.Convert.{text_of};
ghost use Rattle.expr_value.specs.Functions.{join as join_of, text_of_value};
ghost use Rattle.expr_value.specs.Joining.{item_text};
ghost use Rattle.expr_value.specs.Limit.{limited as limited_of};
ghost use Rattle.expr_value.specs.Seen.{kind_seen};
ghost use Rattle.flow_model.specs.Value.{view, views};

use crate::bounded::{Bounded, limited};
use crate::kind::{ValueKind, kind_of};
use crate::text::{push_kind, text_of_kind};
use flow_model::{Node, ValueFault};
use std::alloc::{AllocError, Global};

// Adds the text of an item, after the separator where it is not the first.
fn push_item(
    bounded: &mut Bounded,
    alloc: Global,
    separator: &str,
    first: bool,
    kind: ValueKind<'_>,
) -> Result<(), AllocError>
    ensures { OnOk result (bounded.new
        ≡ grown bounded.old (item_text separator.now first (text_of (kind_seen kind.entry)))) }
{
    if !first {
        bounded.push_str(separator)?;
    }
    push_kind(bounded, alloc, kind)
}

// The texts of the items of a list, with a separator between them.
fn join_nodes(alloc: Global, nodes: &[Node], separator: &str) -> Result<Node, ValueFault>
    ensures { Gives view result
        (limited_of (join_by text_of_value separator.now (views nodes.now))) }
{
    let mut bounded = Bounded::empty(alloc);
    let mut first = true;
    for node in nodes {
        push_item(&mut bounded, alloc, separator, first, kind_of(node))?;
        first = false;
    }
    bounded.finish()
}

// The text of what is no list.
fn join_kind(alloc: Global, kind: ValueKind<'_>) -> Result<Node, ValueFault>
    ensures { Gives view result (limited_of (text_of (kind_seen kind.entry))) }
{
    limited(text_of_kind(alloc, kind)?)
}

/// The texts of the items of a list, with a separator between them, or the text of what is no list.
pub(crate) fn join(alloc: Global, node: &Node, separator: &str) -> Result<Node, ValueFault>
    ensures { Gives view result (join_of (view node.now) separator.now) }
{
    match node {
        Node::List(nodes) => join_nodes(alloc, nodes.as_slice(), separator),
        Node::Null | Node::Truth(_) | Node::Whole(_) | Node::Text(_) | Node::Map(_) => {
            join_kind(alloc, kind_of(node))
        },
    }
}
