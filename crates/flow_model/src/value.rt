//! The values of contexts, matrix combinations and environments.

ghost use Rattle.std.specs.Prelude.{◌≡◌, ◌++◌, IfOk};
ghost use Rattle.flow_model.specs.Mapping.{pairs_of};
ghost use Rattle.flow_model.specs.Plain as plain;
ghost use Rattle.flow_model.specs.Value.{view, views, viewed};

use crate::duplicate::Duplicate;
use crate::mapping::Mapping;
use crate::text::Text;
use std::alloc::{AllocError, Global};
use std::collections::BTreeMap;
use std::marker::Model;

/// A value, level by level (RFC 8259, without fractions and exponents).
#[derive(Drop)]
pub enum Node {
    /// Nothing.
    Null,
    /// A truth value.
    Truth(bool),
    /// A whole number; in a plan from -9007199254740991 to 9007199254740991.
    Whole(i64),
    /// A text.
    Text(Text),
    /// A list.
    List(Vec<Node>),
    /// A map from texts, in the byte order of its keys.
    Map(BTreeMap<String, Node>),
}

/// A value, which contracts see as plain data.
#[derive(Drop)]
pub struct Value {
    node: Node,
}

impl Model for Value {
    ghost use Rattle.flow_model.specs.Plain.{Plain, coded_plain};

    ghost Value = { Plain };

    ghost coded = { coded_plain };

    ghost use Rattle.flow_model.specs.Value.{view as view_of_node};

    ghost view = { λ v. view_of_node v.node };
}

impl Value {
    /// Takes a node over, without a copy.
    pub fn new(node: Node) -> Value
        ensures { result ≡ view node }
    {
        Value { node }
    }

    /// The value's outermost level.
    pub fn node(&self) -> &Node
        ensures { view result.now ≡ self.now }
    {
        &self.node
    }

    /// Gives the node back.
    pub fn into_node(self) -> Node
        ensures { view result ≡ self }
    {
        self.node
    }
}

impl Duplicate for Value {
    fn copy(&self, alloc: Global) -> Result<Value, AllocError> {
        let node = copy_node(alloc, &self.node)?;
        Ok(Value { node })
    }
}

/// A node that stands for the same data.
#[cycle(copy)]
pub fn copy_node(alloc: Global, node: &Node) -> Result<Node, AllocError>
    ensures { IfOk result (λ twin. view twin ≡ view node.now) }
{
    match node {
        Node::Null => Ok(Node::Null),
        Node::Truth(truth) => Ok(Node::Truth(*truth)),
        Node::Whole(number) => Ok(Node::Whole(*number)),
        Node::Text(text) => Ok(Node::Text(text.copy(alloc)?)),
        Node::List(nodes) => copy_nodes(alloc, nodes),
        Node::Map(members) => copy_members(alloc, members),
    }
}

/// A list of nodes that stand for the same data.
#[cycle(copy)]
fn copy_nodes(alloc: Global, nodes: &Vec<Node>) -> Result<Node, AllocError>
    ensures { IfOk result
        (λ twin. view twin ≡ plain.list (plain.items_of (views nodes.now.items))) }
{
    let mut twins = Vec::with_capacity(alloc, nodes.len())?;
    for node in nodes {
        twins.push(copy_node(alloc, node)?)?;
    }
    Ok(Node::List(twins))
}

/// A map of members that stand for the same data.
#[cycle(copy)]
fn copy_members(alloc: Global, members: &BTreeMap<String, Node>) -> Result<Node, AllocError>
    ensures { IfOk result (λ twin. view twin
        ≡ plain.map (plain.members_of (viewed (pairs_of members.now.entries)))) }
{
    let mut twins = Mapping::empty(alloc);
    for (key, node) in members.iter() {
        twins.set(alloc, key.as_str(), copy_node(alloc, node)?)?;
    }
    Ok(Node::Map(twins.into_map()))
}
