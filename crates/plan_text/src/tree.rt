//! The tree of an outline, and of a number.

ghost use Rattle.std.specs.Prelude.{◌≡◌, IfOk};
ghost use Rattle.json.specs.Json as spec;
ghost use Rattle.json.specs.Value.{value_view, members_view as members_outline};
ghost use Rattle.serde_json.specs.View.{view, members_view};
ghost use Rattle.plan_text.specs.Outline.{StandsFor, EachStandsFor, MembersStandFor};

use plan_documents::{Unread, refused};
use serde_json::{Map, Value};
use std::alloc::Global;

/// The tree of an outline.
#[cycle(tree_of)]
pub(crate) fn tree_of(alloc: Global, outline: &json::Value<'_>) -> Result<Value, Unread>
    ensures { IfOk result (λ tree. StandsFor (value_view outline.now) (view tree)) }
{
    match outline {
        json::Value::Null => Ok(Value::Null),
        json::Value::Bool(truth) => Ok(Value::Bool(*truth)),
        json::Value::Number(text) => number_tree(alloc, *text),
        json::Value::String(text) => Ok(Value::String(String::from_str(alloc, *text)?)),
        json::Value::Array(items) => Ok(Value::Array(item_trees(alloc, items.as_slice())?)),
        json::Value::Object(members) => {
            Ok(Value::Object(member_trees(alloc, members.as_slice())?))
        },
    }
}

#[cycle(tree_of)]
fn item_trees(alloc: Global, items: &[json::Value<'_>]) -> Result<Vec<Value>, Unread>
    ensures { IfOk result (λ trees. EachStandsFor value_view view items.now trees.items) }
{
    let mut trees = Vec::new(alloc);
    for item in items {
        trees.push(tree_of(alloc, item)?)?;
    }
    Ok(trees)
}

#[cycle(tree_of)]
fn member_trees(
    alloc: Global,
    members: &[(&str, json::Value<'_>)],
) -> Result<Map<String, Value>, Unread>
    ensures { IfOk result
        (λ trees. MembersStandFor (members_outline members.now) (members_view trees.entries)) }
{
    let mut trees = Map::new(alloc);
    for member in members {
        let tree = tree_of(alloc, &member.1)?;
        serde_json::put(&mut trees, alloc, member.0, tree)?;
    }
    Ok(trees)
}

/// The tree of the text of a number.
pub(crate) fn number_tree(alloc: Global, text: &str) -> Result<Value, Unread>
    ensures { IfOk result (λ tree. StandsFor (spec.number text.now) (view tree)) }
{
    if !json::is_number(text) {
        return Err(refused(alloc, ""));
    }
    match Value::from_str(alloc, text) {
        Ok(tree) => Ok(tree),
        Err(_) => Err(refused(alloc, "")),
    }
}
