//! A value to JSON and back, for all that reads or prints values.

ghost use Rattle.std.specs.Prelude.{◌≡◌, IfOk, IsTrue, Some};
ghost use Rattle.serde_json.specs.Data.{array, object};
ghost use Rattle.serde_json.specs.View.{view as json_view, items_view, members_view, number_view};
ghost use Rattle.flow_model.specs.Json.{json_of, value_of, whole_of, is_in_range, ReadsAs};
ghost use Rattle.flow_model.specs.Mapping.{pairs_of};
ghost use Rattle.flow_model.specs.Plain as plain;
ghost use Rattle.flow_model.specs.Value.{view, views, viewed};

use crate::duplicate::Duplicate;
use crate::mapping::Mapping;
use crate::text::Text;
use crate::value::{Node, Value, copy_node};
use crate::within::{GREATEST, is_whole};
use std::alloc::{AllocError, AllocFailed, Global};
use std::collections::BTreeMap;

/// Why a JSON value is no value. Whoever reads JSON tells it as a fault of its own.
#[derive(Clone, Copy)]
pub enum JsonFault {
    /// A number has a fraction or an exponent, or is out of range.
    NotWhole,
    /// There is no memory.
    Memory,
}

impl From<AllocError> for JsonFault {
    ghost use Rattle.flow_model.specs.declared.json.JsonFault.TheVariants.{Memory};

    ghost from_gives = { λ _ e. e ≡ Memory };

    fn from(_: AllocError) -> JsonFault {
        JsonFault::Memory
    }
}

impl<T: Drop> From<AllocFailed<T>> for JsonFault {
    ghost use Rattle.flow_model.specs.declared.json.JsonFault.TheVariants.{Memory};

    ghost from_gives = { λ _ e. e ≡ Memory };

    fn from(_: AllocFailed<T>) -> JsonFault {
        JsonFault::Memory
    }
}

/// The JSON of a value.
pub fn json_of(alloc: Global, value: &Value) -> Result<serde_json::Value, AllocError>
    ensures json { IfOk result (λ json. json_view json ≡ json_of value.now) }
    ensures back { IfOk result
        (λ json. IsTrue (is_in_range value.now) → value_of (json_view json) ≡ Some value.now) }
{
    let twin = value.copy(alloc)?;
    into_json(alloc, twin)
}

/// The JSON of a value that is taken apart: no text is copied.
pub fn into_json(alloc: Global, value: Value) -> Result<serde_json::Value, AllocError>
    ensures json { IfOk result (λ json. json_view json ≡ json_of value) }
    ensures back { IfOk result
        (λ json. IsTrue (is_in_range value) → value_of (json_view json) ≡ Some value) }
{
    node_into_json(alloc, value.into_node())
}

/// The JSON of what a node stands for.
pub fn json_of_node(alloc: Global, node: &Node) -> Result<serde_json::Value, AllocError>
    ensures { IfOk result (λ json. json_view json ≡ json_of (view node.now)) }
{
    let twin = copy_node(alloc, node)?;
    node_into_json(alloc, twin)
}

/// The value of a JSON value. It is `NotWhole` exactly where a number in it has a fraction or an
/// exponent, or is not in -9007199254740991..=9007199254740991.
pub fn value_of(alloc: Global, json: &serde_json::Value) -> Result<Value, JsonFault>
    ensures value { ReadsAs (λ v. v) result (value_of (json_view json.now)) }
    ensures in_range { IfOk result (λ value. IsTrue (is_in_range value)) }
    ensures back { IfOk result (λ value. json_of value ≡ json_view json.now) }
{
    let twin = json.clone()?;
    into_value(alloc, twin)
}

/// The value of a JSON value that is taken apart: no text is copied. It is `NotWhole` where `value_of` is.
pub fn into_value(alloc: Global, json: serde_json::Value) -> Result<Value, JsonFault>
    ensures value { ReadsAs (λ v. v) result (value_of (json_view json)) }
    ensures in_range { IfOk result (λ value. IsTrue (is_in_range value)) }
    ensures back { IfOk result (λ value. json_of value ≡ json_view json) }
{
    let node = json_into_node(alloc, json)?;
    Ok(Value::new(node))
}

/// The JSON of what a node stands for.
#[cycle(print)]
fn node_into_json(alloc: Global, node: Node) -> Result<serde_json::Value, AllocError>
    ensures { IfOk result (λ json. json_view json ≡ json_of (view node)) }
{
    match node {
        Node::Null => Ok(serde_json::Value::Null),
        Node::Truth(truth) => Ok(serde_json::Value::Bool(truth)),
        Node::Whole(number) => Ok(serde_json::Value::from(number)),
        Node::Text(text) => Ok(serde_json::Value::String(text.into_string())),
        Node::List(nodes) => nodes_into_json(alloc, nodes),
        Node::Map(members) => members_into_json(alloc, members),
    }
}

/// The JSON of a list of nodes.
#[cycle(print)]
fn nodes_into_json(alloc: Global, nodes: Vec<Node>) -> Result<serde_json::Value, AllocError>
    ensures { IfOk result
        (λ json. json_view json ≡ json_of (plain.list (plain.items_of (views nodes.items)))) }
{
    let mut items = Vec::with_capacity(alloc, nodes.len())?;
    for node in nodes {
        items.push(node_into_json(alloc, node)?)?;
    }
    Ok(serde_json::Value::Array(items))
}

/// The JSON of a map of nodes.
#[cycle(print)]
fn members_into_json(
    alloc: Global,
    members: BTreeMap<String, Node>,
) -> Result<serde_json::Value, AllocError>
    ensures { IfOk result (λ json. json_view json
        ≡ json_of (plain.map (plain.members_of (viewed (pairs_of members.entries))))) }
{
    let mut json = Mapping::empty(alloc);
    for (key, node) in members {
        json.insert(Text::new(key), node_into_json(alloc, node)?)?;
    }
    Ok(serde_json::Value::Object(json.into_map()))
}

/// The node of a JSON value.
#[cycle(read)]
fn json_into_node(alloc: Global, json: serde_json::Value) -> Result<Node, JsonFault>
    ensures { ReadsAs view result (value_of (json_view json)) }
{
    match json {
        serde_json::Value::Null => Ok(Node::Null),
        serde_json::Value::Bool(truth) => Ok(Node::Truth(truth)),
        serde_json::Value::Number(number) => Ok(Node::Whole(whole_of(&number)?)),
        serde_json::Value::String(text) => Ok(Node::Text(Text::new(text))),
        serde_json::Value::Array(items) => items_into_node(alloc, items),
        serde_json::Value::Object(members) => members_into_node(alloc, members),
    }
}

/// The whole number that a JSON number is. It is `NotWhole` exactly where the number has a fraction or
/// an exponent, or is not in -9007199254740991..=9007199254740991.
pub fn whole_of(number: &serde_json::Number) -> Result<i64, JsonFault>
    ensures { ReadsAs (λ z. z) result (whole_of (number_view number.now)) }
{
    if let Some(whole) = number.as_u64() {
        return if whole <= GREATEST as u64 {
            Ok(whole as i64)
        } else {
            Err(JsonFault::NotWhole)
        };
    }
    match number.as_i64() {
        Some(whole) if whole < 0 && is_whole(whole) => Ok(whole),
        _ => Err(JsonFault::NotWhole),
    }
}

/// The list of an array's items.
#[cycle(read)]
fn items_into_node(alloc: Global, items: Vec<serde_json::Value>) -> Result<Node, JsonFault>
    ensures { ReadsAs view result (value_of (array (items_view items.items))) }
{
    let mut nodes = Vec::with_capacity(alloc, items.len())?;
    for item in items {
        nodes.push(json_into_node(alloc, item)?)?;
    }
    Ok(Node::List(nodes))
}

/// The map of an object's members.
#[cycle(read)]
fn members_into_node(
    alloc: Global,
    members: BTreeMap<String, serde_json::Value>,
) -> Result<Node, JsonFault>
    ensures { ReadsAs view result (value_of (object (members_view members.entries))) }
{
    let mut nodes = Mapping::empty(alloc);
    for (key, member) in members {
        nodes.insert(Text::new(key), json_into_node(alloc, member)?)?;
    }
    Ok(Node::Map(nodes.into_map()))
}
