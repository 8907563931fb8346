//! The values that an evaluation hands on, without a copy of what a context holds.

ghost use Rattle.std.specs.Prelude.{◌≡◌, IfOk, Ok};
ghost use Rattle.expr_value.specs.Answer.{Gives};
ghost use Rattle.expr_value.specs.PlainKind.{kind_of as kind_of_value};
ghost use Rattle.expr_value.specs.Seen.{kind_seen, item_seen, items_seen};
ghost use Rattle.flow_model.specs.Value.{view, views};

use crate::kind::{ValueKind, kind_of};
use flow_model::{Node, Value, ValueFault, copy_node};
use std::alloc::{AllocError, Global};

/// A value that a context lends, or that the evaluation made.
#[derive(Drop)]
pub(crate) enum Item<'a> {
    Lent(&'a Node),
    Made(Node),
}

impl Item<'_> {
    /// The value's outermost level.
    pub(crate) fn node(&self) -> &Node
        ensures { view result.now ≡ item_seen self.now }
    {
        match self {
            Item::Lent(node) => node,
            Item::Made(node) => node,
        }
    }

    /// The value's kind.
    pub(crate) fn kind(&self) -> ValueKind<'_>
        ensures { kind_seen result ≡ kind_of_value (item_seen self.now) }
    {
        kind_of(self.node())
    }
}

/// Copies of what items stand for.
pub(crate) fn item_copies(alloc: Global, items: &[Item<'_>]) -> Result<Vec<Node>, AllocError>
    ensures { IfOk result (λ nodes. views nodes.items ≡ items_seen items.now) }
{
    let mut nodes = Vec::new(alloc);
    for item in items {
        nodes.push(copy_node(alloc, item.node())?)?;
    }
    Ok(nodes)
}

/// The value that an item stands for, apart from the contexts; what a context lends is copied.
pub(crate) fn into_value(alloc: Global, item: Item<'_>) -> Result<Value, ValueFault>
    ensures { Gives (λ value. value) result (Ok (item_seen item.entry)) }
{
    match item {
        Item::Lent(node) => Ok(Value::new(copy_node(alloc, node)?)),
        Item::Made(node) => Ok(Value::new(node)),
    }
}
