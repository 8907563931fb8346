//! The places of a workflow's file, one after the other.

ghost use Rattle.std.specs.Prelude.{◌≡◌, [], ◌∷◌, ◌++◌, IfOk, IfSome, None, OnOk, codes, decimal};
ghost use Rattle.std.specs.List.{All};
ghost use Rattle.std.specs.Option.{option_to_list};
ghost use Rattle.serde_json.specs.Data.{array, object};
ghost use Rattle.serde_json.specs.Find.{at, get};
ghost use Rattle.serde_json.specs.View.{items_view, members_view, view};
ghost use Rattle.flow_lint.specs.Places as spec;
ghost use Rattle.flow_lint.specs.Nodes.{AreAll, Fits, GivesInner, Has, HasInner, HasItems, HasMembers, Keeps, place_of};

use crate::keys::{is_list, is_opened, kind_at};
use crate::kind::{Level, NodeKind};
use flow_model::Text;
use serde_json::Value;
use std::alloc::{AllocError, Global};
use std::collections::BTreeMap;

/// A place of a file.
#[derive(Drop)]
pub struct Node<'v> {
    /// Keys and numbers from the root, joined by dots.
    pub path: Text,
    /// The last of them.
    pub key: Text,
    /// What stands there.
    pub kind: NodeKind,
    /// What it stands in.
    pub around: NodeKind,
    /// What it belongs to.
    pub level: Level,
    /// The value that stands there.
    pub value: &'v Value,
}

/// A key or number behind a path.
pub fn below(alloc: Global, path: &str, key: &str) -> Result<Text, AllocError>
    ensures { IfOk result (λ text. text ≡ spec.below path.now key.now) }
{
    if path.is_empty() {
        return Text::from_str(alloc, key);
    }
    let mut text = String::from_str(alloc, path)?;
    text.push_str(".")?;
    text.push_str(key)?;
    Ok(Text::new(text))
}

/// The path of a key of a job.
pub fn job_path(alloc: Global, id: &str, key: &str) -> Result<Text, AllocError>
    ensures { IfOk result (λ path. path ≡ spec.below (spec.below (codes "jobs") id.now) key.now) }
{
    let job = below(alloc, "jobs", id)?;
    below(alloc, job.as_str(), key)
}

impl<'v> Node<'v> {
    /// The whole of a file.
    fn whole(alloc: Global, root: &'v Value) -> Node<'v>
        ensures fits { Fits (view root.now) result }
        ensures path { result.path ≡ [] }
        ensures place { place_of result ≡ spec.whole (view root.now) }
    {
        Node {
            path: Text::new(String::new(alloc)),
            key: Text::new(String::new(alloc)),
            kind: NodeKind::Workflow,
            around: NodeKind::Workflow,
            level: Level::Workflow,
            value: root,
        }
    }

    /// What stands in it behind a key or number.
    fn inner(&self, alloc: Global, key: Text, value: &'v Value) -> Result<Node<'v>, AllocError>
        ensures path { IfOk result (λ node. node.path ≡ spec.below self.now.path key) }
        ensures place { IfOk result (λ node.
            place_of node ≡ spec.inner (place_of self.now) key (view value.now)) }
    {
        let kind = kind_at(self.kind, key.as_str());
        Ok(Node {
            path: below(alloc, self.path.as_str(), key.as_str())?,
            key,
            kind,
            around: self.kind,
            level: kind.level(self.level),
            value,
        })
    }

    /// What stands in it at a key.
    fn member(
        &self,
        alloc: Global,
        _root: &Value,
        key: &str,
    ) -> Result<Option<Node<'v>>, AllocError>
        requires { Fits (view _root.now) self.now }
        ensures fits { IfOk result (λ found. IfSome found (Fits (view _root.now))) }
        ensures gives { IfOk result (GivesInner self.now key.now
            (get key.now (view self.now.value.now))) }
    {
        match self.value.get(key) {
            Some(value) => Ok(Some(self.inner(alloc, Text::from_str(alloc, key)?, value)?)),
            None => Ok(None),
        }
    }

    /// What stands in it at a number, from 0.
    fn item(
        &self,
        alloc: Global,
        _root: &Value,
        place: usize,
    ) -> Result<Option<Node<'v>>, AllocError>
        requires { Fits (view _root.now) self.now }
        ensures fits { IfOk result (λ found. IfSome found (Fits (view _root.now))) }
        ensures gives { IfOk result (GivesInner self.now (decimal place)
            (at place (view self.now.value.now))) }
    {
        match self.value.get(place) {
            Some(value) => Ok(Some(self.inner(alloc, number(alloc, place)?, value)?)),
            None => Ok(None),
        }
    }
}

/// A number as a text.
pub fn number(alloc: Global, place: usize) -> Result<Text, AllocError>
    ensures { IfOk result (λ text. text ≡ decimal place) }
{
    Ok(Text::new(format!(in alloc; "{place}")?))
}

/// Adds a place.
fn push_node<'v>(_root: &Value, nodes: &mut Vec<Node<'v>>, node: Node<'v>) -> Result<(), AllocError>
    requires nodes { All (Fits (view _root.now)) nodes.old.items }
    requires node { Fits (view _root.now) node }
    ensures fit { OnOk result (All (Fits (view _root.now)) nodes.new.items) }
    ensures items { OnOk result (nodes.new.items ≡ nodes.old.items ++ node.entry ∷ []) }
{
    nodes.push(node)?;
    Ok(())
}

/// Takes the last place.
fn pop_node<'v>(_root: &Value, nodes: &mut Vec<Node<'v>>) -> Option<Node<'v>>
    requires { All (Fits (view _root.now)) nodes.old.items }
    ensures rest { All (Fits (view _root.now)) nodes.new.items }
    ensures last { IfSome result (Fits (view _root.now)) }
    ensures items { nodes.old.items ≡ nodes.new.items ++ option_to_list result }
    ensures none { result ≡ None → nodes.old.items ≡ [] }
{
    nodes.pop()
}

/// Adds a place that was found.
fn push_found<'v>(
    root: &Value,
    nodes: &mut Vec<Node<'v>>,
    found: Option<Node<'v>>,
) -> Result<(), AllocError>
    requires nodes { All (Fits (view root.now)) nodes.old.items }
    requires found { IfSome found (Fits (view root.now)) }
    ensures fit { OnOk result (All (Fits (view root.now)) nodes.new.items) }
    ensures kept { OnOk result (Keeps nodes.old.items nodes.new.items) }
    ensures added { OnOk result (IfSome found.entry
        (λ node. Has nodes.new.items node.path (place_of node))) }
{
    match found {
        Some(node) => push_node(root, nodes, node),
        None => Ok(()),
    }
}

/// Adds the members of a place.
fn push_members<'v>(
    alloc: Global,
    root: &Value,
    node: &Node<'v>,
    members: &BTreeMap<String, Value>,
    nodes: &mut Vec<Node<'v>>,
) -> Result<(), AllocError>
    requires node { Fits (view root.now) node.now }
    requires members { view node.now.value.now ≡ object (members_view members.now.entries) }
    requires nodes { All (Fits (view root.now)) nodes.old.items }
    ensures fit { OnOk result (All (Fits (view root.now)) nodes.new.items) }
    ensures all { OnOk result (HasMembers node.now nodes.new.items) }
{
    for (key, _) in members.iter() {
        push_found(root, nodes, node.member(alloc, root, key.as_str())?)?;
    }
    Ok(())
}

/// Adds the items of a place.
fn push_items<'v>(
    alloc: Global,
    root: &Value,
    node: &Node<'v>,
    items: &Vec<Value>,
    nodes: &mut Vec<Node<'v>>,
) -> Result<(), AllocError>
    requires node { Fits (view root.now) node.now }
    requires items { view node.now.value.now ≡ array (items_view items.now.items) }
    requires nodes { All (Fits (view root.now)) nodes.old.items }
    ensures fit { OnOk result (All (Fits (view root.now)) nodes.new.items) }
    ensures all { OnOk result (HasItems node.now nodes.new.items) }
{
    for place in 0..items.len() {
        push_found(root, nodes, node.item(alloc, root, place)?)?;
    }
    Ok(())
}

/// Adds what stands in a place: the items of a list of steps or needs, or else the members of an object.
fn push_inner<'v>(
    alloc: Global,
    root: &Value,
    node: &Node<'v>,
    nodes: &mut Vec<Node<'v>>,
) -> Result<(), AllocError>
    requires node { Fits (view root.now) node.now }
    requires nodes { All (Fits (view root.now)) nodes.old.items }
    ensures fit { OnOk result (All (Fits (view root.now)) nodes.new.items) }
    ensures all { OnOk result (HasInner node.now nodes.new.items) }
{
    match node.value {
        Value::Object(members) => push_members(alloc, root, node, members, nodes),
        Value::Array(items) if is_list(node.kind) => push_items(alloc, root, node, items, nodes),
        Value::Array(_) | Value::Null | Value::Bool(_) | Value::Number(_) | Value::String(_) => Ok(
            (),
        ),
    }
}

/// What stands in a place, where it is looked at.
fn inner_nodes<'v>(
    alloc: Global,
    root: &Value,
    node: &Node<'v>,
) -> Result<Vec<Node<'v>>, AllocError>
    requires { Fits (view root.now) node.now }
    ensures fit { IfOk result (λ nodes. All (Fits (view root.now)) nodes.items) }
    ensures all { IfOk result (λ nodes. HasInner node.now nodes.items) }
{
    let mut nodes = Vec::new(alloc);
    if is_opened(node.kind) {
        push_inner(alloc, root, node, &mut nodes)?;
    }
    Ok(nodes)
}

/// Puts places before others, which are taken from the end.
fn push_turned<'v>(
    root: &Value,
    waiting: &mut Vec<Node<'v>>,
    mut nodes: Vec<Node<'v>>,
) -> Result<(), AllocError>
    requires waiting { All (Fits (view root.now)) waiting.old.items }
    requires nodes { All (Fits (view root.now)) nodes.items }
    ensures fit { OnOk result (All (Fits (view root.now)) waiting.new.items) }
    ensures kept { OnOk result (Keeps waiting.old.items waiting.new.items) }
    ensures added { OnOk result (Keeps nodes.entry.items waiting.new.items) }
{
    for _ in 0..u64::MAX {
        match pop_node(root, &mut nodes) {
            Some(node) => push_node(root, waiting, node)?,
            None => return Ok(()),
        }
    }
    Err(AllocError)
}

/// The places of a file that are looked at: each before what stands in it, keys in byte order.
pub fn nodes_of<'v>(alloc: Global, root: &'v Value) -> Result<Vec<Node<'v>>, AllocError>
    ensures fit { IfOk result (λ nodes. All (Fits (view root.now)) nodes.items) }
    ensures all { IfOk result (λ nodes. AreAll (view root.now) nodes.items) }
{
    let mut nodes = Vec::new(alloc);
    let mut waiting = Vec::new(alloc);
    push_node(root, &mut waiting, Node::whole(alloc, root))?;
    for _ in 0..u64::MAX {
        let Some(node) = pop_node(root, &mut waiting) else {
            return Ok(nodes);
        };
        push_turned(root, &mut waiting, inner_nodes(alloc, root, &node)?)?;
        push_node(root, &mut nodes, node)?;
    }
    Err(AllocError)
}
