//! What the conversions of a value look at.

ghost use Rattle.std.specs.Prelude.{◌≡◌};
ghost use Rattle.expr_value.specs.PlainKind.{kind_of as kind_of_value, is_collection as is_collection_of};
ghost use Rattle.expr_value.specs.Seen.{kind_seen};
ghost use Rattle.flow_model.specs.Value.{view};

use flow_model::Node;

/// A value, but of a list or a map only that it is one.
#[derive(Clone, Copy)]
pub(crate) enum ValueKind<'a> {
    Null,
    Truth(bool),
    Whole(i64),
    Text(&'a str),
    List,
    Map,
}

/// The kind of what a node stands for.
pub(crate) fn kind_of(node: &Node) -> ValueKind<'_>
    ensures { kind_seen result ≡ kind_of_value (view node.now) }
{
    match node {
        Node::Null => ValueKind::Null,
        Node::Truth(truth) => ValueKind::Truth(*truth),
        Node::Whole(number) => ValueKind::Whole(*number),
        Node::Text(text) => ValueKind::Text(text.as_str()),
        Node::List(_) => ValueKind::List,
        Node::Map(_) => ValueKind::Map,
    }
}

/// Whether it is a list or a map.
pub(crate) fn is_collection(kind: ValueKind<'_>) -> bool
    ensures { result ≡ is_collection_of (kind_seen kind.entry) }
{
    match kind {
        ValueKind::Null | ValueKind::Truth(_) | ValueKind::Whole(_) | ValueKind::Text(_) => false,
        ValueKind::List | ValueKind::Map => true,
    }
}
