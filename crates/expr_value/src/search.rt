//! The functions `contains`, `startsWith` and `endsWith`.

ghost use Rattle.std.specs.Prelude.{◌≡◌, IfOk, string_bytes};
ghost use Rattle.std.specs.List.{list_any};
ghost use Rattle.expr_reader.specs.Fold.{fold};
ghost use Rattle.expr_value.specs.Convert.{text_of};
ghost use Rattle.expr_value.specs.Functions.{folds_pass as folds_pass_of, is_match as is_match_of};
ghost use Rattle.expr_value.specs.Searching.{contains_kind, finds as finds_of, stands_at as stands_at_of};
ghost use Rattle.expr_value.specs.Seen.{kind_seen, item_seen};
ghost use Rattle.flow_model.specs.Value.{view, views};

use crate::compare::equals;
use crate::item::Item;
use crate::kind::{ValueKind, is_collection, kind_of};
use crate::text::text_of_kind;
use flow_model::Node;
use std::alloc::{AllocError, Global};

/// Where a text is looked for in another.
#[derive(Clone, Copy)]
pub(crate) enum SearchPlace {
    Anywhere,
    Front,
    End,
}

// Whether a part stands at the place in a text.
fn stands_at(place: SearchPlace, text: &str, part: &str) -> bool
    ensures { result ≡ stands_at_of place text.now part.now }
{
    match place {
        SearchPlace::Anywhere => text.contains(part),
        SearchPlace::Front => text.starts_with(part),
        SearchPlace::End => text.ends_with(part),
    }
}

// The text of a kind, with A to Z replaced by a to z.
fn folded(alloc: Global, kind: ValueKind<'_>) -> Result<String, AllocError>
    ensures { IfOk result (λ text. string_bytes text ≡ fold (text_of (kind_seen kind.entry))) }
{
    let mut text = text_of_kind(alloc, kind)?;
    text.make_ascii_lowercase();
    Ok(text)
}

// Whether a part's text stands at the place in a text, ignoring case; not where either is a list or a map.
fn folds_pass(
    alloc: Global,
    place: SearchPlace,
    text: ValueKind<'_>,
    part: ValueKind<'_>,
) -> Result<bool, AllocError>
    ensures { IfOk result (λ b. b
        ≡ folds_pass_of (stands_at_of place) (kind_seen text.entry) (kind_seen part.entry)) }
{
    if is_collection(text) || is_collection(part) {
        return Ok(false);
    }
    let text = folded(alloc, text)?;
    let part = folded(alloc, part)?;
    Ok(stands_at(place, text.as_str(), part.as_str()))
}

// Whether an item equals a value; one for which `==` faults does not.
fn is_match(value: ValueKind<'_>, item: &Node) -> bool
    ensures { result ≡ is_match_of (kind_seen value.entry) (view item.now) }
{
    matches!(equals(kind_of(item), value), Ok(true))
}

// Whether some item of a list equals a value.
fn any_match(nodes: &[Node], value: ValueKind<'_>) -> bool
    ensures { result ≡ list_any (is_match_of (kind_seen value.entry)) (views nodes.now) }
{
    for node in nodes {
        if is_match(value, node) {
            return true;
        }
    }
    false
}

// Whether an item of a list equals a value, or its text stands in a text.
fn contains(alloc: Global, node: &Node, value: ValueKind<'_>) -> Result<bool, AllocError>
    ensures { IfOk result (λ b. b ≡ contains_kind (view node.now) (kind_seen value.entry)) }
{
    match node {
        Node::List(nodes) => Ok(any_match(nodes.as_slice(), value)),
        Node::Null | Node::Truth(_) | Node::Whole(_) | Node::Text(_) | Node::Map(_) => {
            folds_pass(alloc, SearchPlace::Anywhere, kind_of(node), value)
        },
    }
}

/// Whether a value's text stands at the place in a text, ignoring case, or, if it may stand anywhere, a value in a
/// list.
pub(crate) fn finds(
    alloc: Global,
    place: SearchPlace,
    item: &Item<'_>,
    value: &Item<'_>,
) -> Result<bool, AllocError>
    ensures { IfOk result
        (λ b. b ≡ finds_of place (item_seen item.now) (item_seen value.now)) }
{
    match place {
        SearchPlace::Anywhere => contains(alloc, item.node(), value.kind()),
        SearchPlace::Front | SearchPlace::End => folds_pass(
            alloc,
            place,
            item.kind(),
            value.kind(),
        ),
    }
}
