//! The rules of values: how deep they nest, and the range of their numbers.

ghost use Rattle.std.specs.Prelude.{◌≡◌, IfOk};
ghost use Rattle.std.specs.List.{list_all};
ghost use Rattle.flow_model.specs.Mapping.{pairs_of};
ghost use Rattle.flow_model.specs.Plain as plain;
ghost use Rattle.flow_model.specs.Rules as spec;
ghost use Rattle.flow_model.specs.Value.{view, views, viewed};

use crate::check::PairTest;
use crate::name::is_id;
use crate::text::Text;
use crate::texts::is_template;
use crate::value::{Node, Value};
use std::alloc::{AllocError, Global};
use std::collections::BTreeMap;

/// The greatest whole number; the least is its opposite.
pub const GREATEST: i64 = 9_007_199_254_740_991;

/// Whether a number is in the range of whole numbers.
pub(crate) fn is_whole(number: i64) -> bool
    ensures { result ≡ spec.is_whole number }
{
    -GREATEST <= number && number <= GREATEST
}

/// Whether a value nests at most `room` deep, and its numbers are in range.
#[cycle(within)]
pub fn is_within(node: &Node, room: u64) -> bool
    ensures { result ≡ spec.is_within room (view node.now) }
{
    match node {
        Node::Null => true,
        Node::Truth(_) => true,
        Node::Whole(number) => is_whole(*number),
        Node::Text(_) => true,
        Node::List(nodes) => 0 < room && are_within(nodes, room - 1),
        Node::Map(members) => 0 < room && are_members_within(members, room - 1),
    }
}

/// Whether the items of a list are so.
#[cycle(within)]
fn are_within(nodes: &Vec<Node>, room: u64) -> bool
    ensures { result ≡ spec.items_within room (plain.items_of (views nodes.now.items)) }
{
    for node in nodes {
        if !is_within(node, room) {
            return false;
        }
    }
    true
}

/// Whether the members of a map are so.
#[cycle(within)]
fn are_members_within(members: &BTreeMap<String, Node>, room: u64) -> bool
    ensures { result
        ≡ spec.members_within room (plain.members_of (viewed (pairs_of members.now.entries))) }
{
    for (_key, node) in members.iter() {
        if !is_within(node, room) {
            return false;
        }
    }
    true
}

/// Whether a value is a template, a number in range, a truth value or null.
fn is_scalar(alloc: Global, value: &Value) -> Result<bool, AllocError>
    ensures { IfOk result (λ passed. passed ≡ spec.is_scalar value.now) }
{
    match value.node() {
        Node::Null => Ok(true),
        Node::Truth(_) => Ok(true),
        Node::Whole(number) => Ok(is_whole(*number)),
        Node::Text(text) => is_template(alloc, text.as_str()),
        Node::List(_) => Ok(false),
        Node::Map(_) => Ok(false),
    }
}

/// Whether there is neither `=` nor a zero byte.
fn are_variable_bytes(bytes: &[u8]) -> bool
    ensures { result ≡ list_all spec.is_variable_byte bytes.now }
{
    bytes.iter().all(|byte| *byte != b'=' && *byte != 0)
}

/// Whether a text may name a variable of an environment: it is not empty, and has no `=` and no zero byte.
pub fn is_variable_name(name: &str) -> bool
    ensures { result ≡ spec.is_variable_name name.now }
{
    0 < name.len() && are_variable_bytes(name.as_bytes())
}

/// The variables of an environment.
pub(crate) struct Variable;

impl PairTest<Value> for Variable {
    ghost test = { spec.is_variable };

    fn passes(alloc: Global, key: &str, value: &Value) -> Result<bool, AllocError> {
        if is_variable_name(key) {
            is_scalar(alloc, value)
        } else {
            Ok(false)
        }
    }
}

/// The inputs of an action.
pub(crate) struct Input;

impl PairTest<Value> for Input {
    ghost test = { spec.is_input };

    fn passes(alloc: Global, _key: &str, value: &Value) -> Result<bool, AllocError> {
        is_scalar(alloc, value)
    }
}

/// The properties of a context, and the variables of a combination.
pub(crate) struct Property;

impl PairTest<Value> for Property {
    ghost test = { spec.is_property };

    fn passes(_alloc: Global, _key: &str, value: &Value) -> Result<bool, AllocError> {
        Ok(is_within(value.node(), 100))
    }
}

/// The outputs of a job.
pub(crate) struct JobOutput;

impl PairTest<Text> for JobOutput {
    ghost test = { spec.is_job_output };

    fn passes(alloc: Global, key: &str, value: &Text) -> Result<bool, AllocError> {
        if is_id(key) {
            is_template(alloc, value.as_str())
        } else {
            Ok(false)
        }
    }
}
