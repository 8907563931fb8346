//! The place of a fault for which a file stands for no workflow.

ghost use Rattle.std.specs.Prelude.{◌≡◌, ◌↔◌, ◌≤◌, ℕ, [], IsTrue, Some, None, IfOk, IfSome, codes, decimal, option_map};
ghost use Rattle.std.specs.List.{All};
ghost use Rattle.serde_json.specs.Find.{as_str};
ghost use Rattle.serde_json.specs.View.{view};
ghost use Rattle.flow_lint.specs.FaultNodes.{FindsFlow, HasFlow};
ghost use Rattle.flow_lint.specs.Kinds.{WantsValue, WantsWhole, Wants};
ghost use Rattle.flow_lint.specs.Notes.{FlowPlace, IsFlowPlace, IsNowhere, IsSeen, IsSeenTwice, LeadsTo};
ghost use Rattle.flow_lint.specs.Places as places;
ghost use Rattle.flow_lint.specs.Places.{HasTwice, IsRepeated, Repeats, id_at};
ghost use Rattle.flow_lint.specs.Shows as spec;
ghost use Rattle.flow_lint.specs.Shows.{HasExpression, ShowsFlow};
ghost use Rattle.flow_lint.specs.Nodes.{AreAll, Fits, place_of};
ghost use Rattle.flow_lint.specs.declared.kind.NodeKind.TheVariants.{Steps};
ghost use Rattle.flow_reader.specs.Checked.{bad};
ghost use Rattle.flow_reader.specs.Parts.{shell_named};
ghost use Rattle.flow_reader.specs.declared.fault.FlowFault.TheVariants.{NotWhole, Missing, BadId, LeftOut, UnknownShell};

use crate::kind::NodeKind;
use crate::node::{Node, below, nodes_of, number};
use crate::note::{Note, noted};
use crate::sentences::{flow_sentence, json_sentence};
use expr_reader::has_marker;
use flow_model::{JsonFault, Text, is_id, is_variable_name, read_json, value_of};
use flow_reader::FlowFault;
use serde_json::Value;
use std::alloc::{AllocError, Global};

/// Whether a number in a part that is read is not held as whole.
fn shows_fraction(alloc: Global, node: &Node) -> Result<bool, AllocError>
    ensures { IfOk result (λ is. IsTrue is ↔ HasFlow NotWhole node.now) }
{
    match node.kind {
        NodeKind::Variable
        | NodeKind::Input
        | NodeKind::Values
        | NodeKind::Entries
        | NodeKind::MaxParallel => {
            match value_of(alloc, node.value) {
                Ok(_) => Ok(false),
                Err(JsonFault::NotWhole) => Ok(true),
                Err(JsonFault::Memory) => Err(AllocError),
            }
        },
        _ => Ok(false),
    }
}

/// Whether a key has to be there in what is of this kind.
fn wants(kind: NodeKind, key: &str) -> bool
    ensures { IsTrue result ↔ Wants kind key.now }
{
    match kind {
        NodeKind::Workflow => key == "on" || key == "jobs",
        NodeKind::Job => key == "steps",
        NodeKind::Group => key == "group",
        NodeKind::Step => key == "run",
        _ => false,
    }
}

/// The key that may stand in the place of another.
fn other_key(key: &str) -> &str
    ensures { result.now ≡ spec.other_key key.now }
{
    if key == "on" {
        "true"
    } else if key == "run" {
        "uses"
    } else {
        key
    }
}

/// Whether a key is missing at a place.
fn shows_missing(node: &Node, key: &str) -> bool
    ensures { IsTrue result ↔ HasFlow (Missing key.now) node.now }
{
    wants(node.kind, key)
        && node.value.is_object()
        && node.value.get(key).is_none()
        && node.value.get(other_key(key)).is_none()
}

/// Whether a name at a place is none.
fn shows_name(node: &Node, name: &str) -> bool
    ensures { IsTrue result ↔ HasFlow (BadId name.now) node.now }
{
    match node.kind {
        NodeKind::Job | NodeKind::Output => node.key.as_str() == name && !is_id(name),
        NodeKind::Variable => node.key.as_str() == name && !is_variable_name(name),
        NodeKind::Id => is_id_text(node, name) && !is_id(name),
        _ => false,
    }
}

/// Whether a value is this text.
fn is_text(value: &Value, text: &str) -> bool
    ensures { IsTrue result ↔ (as_str (view value.now) ≡ Some text.now) }
{
    match value.as_str() {
        Some(found) => found == text,
        None => false,
    }
}

/// Whether a place is `id`, with this text.
fn is_id_text(node: &Node, text: &str) -> bool
    ensures { IsTrue result
        ↔ ((node.now.key ≡ codes "id") × (as_str (view node.now.value.now) ≡ Some text.now)) }
{
    node.key.as_str() == "id" && is_text(node.value, text)
}

/// Whether an expression stands at a place.
fn is_expression(value: &Value) -> bool
    ensures { IsTrue result ↔ HasExpression (view value.now) }
{
    match value.as_str() {
        Some(text) => has_marker(text),
        None => false,
    }
}

/// Whether what stands at a key is left out.
fn shows_left_out(node: &Node, key: &str) -> bool
    ensures { IsTrue result ↔ HasFlow (LeftOut key.now) node.now }
{
    if node.key.as_str() != key {
        return false;
    }
    match node.kind {
        NodeKind::LeftOut => true,
        NodeKind::FailFast
        | NodeKind::MaxParallel
        | NodeKind::Matrix
        | NodeKind::Values
        | NodeKind::Entries => { is_expression(node.value) },
        _ => false,
    }
}

/// Whether a name is that of no shell.
fn is_no_shell(name: &str) -> bool
    ensures { IsTrue result ↔ (shell_named name.now ≡ bad UnknownShell) }
{
    name != "sh" && name != "bash"
}

/// Whether a shell at a place is not known.
fn shows_shell(node: &Node) -> bool
    ensures { IsTrue result ↔ HasFlow UnknownShell node.now }
{
    match node.value.as_str() {
        Some(name) => node.key.as_str() == "shell"
            && node.kind == NodeKind::Shell
            && is_no_shell(name),
        None => false,
    }
}

/// Whether a fault is to be seen at a place.
fn shows(alloc: Global, node: &Node, fault: &FlowFault) -> Result<bool, AllocError>
    ensures { IfOk result (λ is. IsTrue is ↔ HasFlow fault.now node.now) }
{
    match fault {
        FlowFault::NotWhole => shows_fraction(alloc, node),
        FlowFault::Missing(key) => Ok(shows_missing(node, key.as_str())),
        FlowFault::BadId(name) => Ok(shows_name(node, name.as_str())),
        FlowFault::LeftOut(key) => Ok(shows_left_out(node, key.as_str())),
        FlowFault::UnknownShell => Ok(shows_shell(node)),
        FlowFault::NotJson | FlowFault::WrongShape(_) | FlowFault::Memory => Ok(false),
    }
}

/// The first place at which a fault is to be seen.
fn find<'n, 'v>(
    alloc: Global,
    root: &Value,
    nodes: &'n [Node<'v>],
    fault: &FlowFault,
) -> Result<Option<&'n Node<'v>>, AllocError>
    requires fit { All (Fits (view root.now)) nodes.now }
    requires all { AreAll (view root.now) nodes.now }
    ensures { IfOk result (FindsFlow (view root.now) fault.now) }
{
    for node in nodes {
        if shows(alloc, node, fault)? {
            return Ok(Some(node));
        }
    }
    Ok(None)
}

/// The id of the step at a place of a list.
fn step_id(steps: &Value, place: usize) -> Option<&str>
    ensures { option_map (λ id. id.now) result ≡ id_at place (view steps.now) }
{
    steps.get(place)?.get("id")?.as_str()
}

/// Whether the step at a place of a list has this id.
fn has_id(steps: &Value, place: usize, name: &str) -> bool
    ensures { IsTrue result ↔ (id_at place (view steps.now) ≡ Some name.now) }
{
    match step_id(steps, place) {
        Some(id) => id == name,
        None => false,
    }
}

/// The place of the second step of a list that has this id.
fn repeated_at(steps: &Value, count: usize, name: &str) -> Option<usize>
    requires { (place : ℕ) → count ≤ place → id_at place (view steps.now) ≡ None }
    ensures found { IfSome result (Repeats (view steps.now) name.now) }
    ensures none { result ≡ None → (later : ℕ) → Repeats (view steps.now) name.now later → ⊥ }
{
    let mut first = None;
    for place in 0..count {
        if has_id(steps, place, name) {
            if first.is_some() {
                return Some(place);
            }
            first = Some(place);
        }
    }
    None
}

/// The second place of this id in the steps at a place, where a job has it twice.
fn repeated_in(node: &Node, name: &str) -> Option<usize>
    ensures kind { IfSome result (λ _. node.now.kind ≡ Steps) }
    ensures repeats { IfSome result (Repeats (view node.now.value.now) name.now) }
    ensures none { result ≡ None → HasTwice name.now (place_of node.now) → ⊥ }
{
    if node.kind != NodeKind::Steps {
        return None;
    }
    repeated_at(node.value, node.value.as_array()?.len(), name)
}

/// The path of the id of the step at a place of a list.
fn id_path(alloc: Global, steps: &str, place: usize) -> Result<Text, AllocError>
    ensures { IfOk result (λ path.
        path ≡ places.below (places.below steps.now (decimal place)) (codes "id")) }
{
    let step = below(alloc, steps, number(alloc, place)?.as_str())?;
    below(alloc, step.as_str(), "id")
}

/// The path of the second place of this id, in the steps at a place.
fn repeated_path(
    alloc: Global,
    _root: &Value,
    node: &Node,
    name: &str,
) -> Result<Option<Text>, AllocError>
    requires { Fits (view _root.now) node.now }
    ensures found { IfOk result (λ found. IfSome found (IsRepeated (view _root.now) name.now)) }
    ensures none { IfOk result (λ found. found ≡ None → HasTwice name.now (place_of node.now) → ⊥) }
{
    match repeated_in(node, name) {
        Some(place) => Ok(Some(id_path(alloc, node.path.as_str(), place)?)),
        None => Ok(None),
    }
}

/// The path of the second of two steps of a job that have this id.
fn find_repeated(
    alloc: Global,
    root: &Value,
    nodes: &[Node],
    name: &str,
) -> Result<Option<Text>, AllocError>
    requires fit { All (Fits (view root.now)) nodes.now }
    requires all { AreAll (view root.now) nodes.now }
    ensures found { IfOk result (λ found. IfSome found (IsRepeated (view root.now) name.now)) }
    ensures none { IfOk result (λ found. found ≡ None → IsNowhere (view root.now) (HasTwice name.now)) }
{
    for node in nodes {
        if let Some(path) = repeated_path(alloc, root, node, name)? {
            return Ok(Some(path));
        }
    }
    Ok(None)
}

/// The place of this path.
fn find_path<'n, 'v>(nodes: &'n [Node<'v>], path: &str) -> Option<&'n Node<'v>> {
    nodes.iter().find(|node| node.path.as_str() == path)
}

/// What is to be known of a fault that is to be seen at a place.
fn noted_there(
    alloc: Global,
    _root: &Value,
    node: &Node,
    fault: &FlowFault,
) -> Result<Note, AllocError>
    requires fits { Fits (view _root.now) node.now }
    requires shows { HasFlow fault.now node.now }
    ensures { IfOk result (λ note. LeadsTo (view _root.now) note.path (ShowsFlow fault.now)) }
{
    let sentence = flow_sentence(alloc, Some(node), fault)?;
    noted(alloc, node.path.as_str(), sentence)
}

/// What is to be known of a fault that is to be seen at no place.
fn noted_whole(alloc: Global, fault: &FlowFault) -> Result<Note, AllocError>
    ensures { IfOk result (λ note. note.path ≡ []) }
{
    noted(alloc, "", flow_sentence(alloc, None, fault)?)
}

/// What is to be known of a fault at the first place at which it is to be seen, or of the whole.
fn noted_at(
    alloc: Global,
    root: &Value,
    nodes: &[Node],
    fault: &FlowFault,
) -> Result<Note, AllocError>
    requires fit { All (Fits (view root.now)) nodes.now }
    requires all { AreAll (view root.now) nodes.now }
    ensures { IfOk result (λ note. IsSeen (view root.now) note.path (ShowsFlow fault.now)) }
{
    match find(alloc, root, nodes, fault)? {
        Some(node) => noted_there(alloc, root, node, fault),
        None => noted_whole(alloc, fault),
    }
}

/// What is to be known of an id that stands twice, or at no place that is found.
fn repeated_note(
    alloc: Global,
    root: &Value,
    nodes: &[Node],
    name: &str,
    fault: &FlowFault,
) -> Result<Note, AllocError>
    requires fit { All (Fits (view root.now)) nodes.now }
    requires all { AreAll (view root.now) nodes.now }
    requires none { IsNowhere (view root.now) (ShowsFlow (BadId name.now)) }
    ensures { IfOk result (λ note. IsSeenTwice (view root.now) name.now note.path) }
{
    match find_repeated(alloc, root, nodes, name)? {
        Some(path) => noted(alloc, path.as_str(), flow_sentence(alloc, None, fault)?),
        None => noted_whole(alloc, fault),
    }
}

/// What is to be known of a name that is none, or stands twice.
fn name_note(
    alloc: Global,
    root: &Value,
    nodes: &[Node],
    name: &str,
    fault: &FlowFault,
) -> Result<Note, AllocError>
    requires fit { All (Fits (view root.now)) nodes.now }
    requires all { AreAll (view root.now) nodes.now }
    requires fault { fault.now ≡ BadId name.now }
    ensures { IfOk result (λ note. FlowPlace (view root.now) (BadId name.now) note.path) }
{
    match find(alloc, root, nodes, fault)? {
        Some(node) => noted_there(alloc, root, node, fault),
        None => repeated_note(alloc, root, nodes, name, fault),
    }
}

/// What is to be known of a fault in a file.
fn noted_in(alloc: Global, root: &Value, fault: &FlowFault) -> Result<Note, AllocError>
    ensures { IfOk result (λ note. FlowPlace (view root.now) fault.now note.path) }
{
    let nodes = nodes_of(alloc, root)?;
    let nodes = nodes.as_slice();
    match fault {
        FlowFault::WrongShape(path) => {
            let node = find_path(nodes, path.as_str());
            noted(alloc, path.as_str(), flow_sentence(alloc, node, fault)?)
        },
        FlowFault::BadId(name) => name_note(alloc, root, nodes, name.as_str(), fault),
        FlowFault::NotJson
        | FlowFault::NotWhole
        | FlowFault::Missing(_)
        | FlowFault::LeftOut(_)
        | FlowFault::UnknownShell
        | FlowFault::Memory => noted_at(alloc, root, nodes, fault),
    }
}

/// What is to be known of bytes that are no JSON: line and column of where they go wrong.
fn unread(alloc: Global, bytes: &[u8]) -> Result<Note, AllocError> {
    match Value::from_slice(alloc, bytes) {
        Ok(_) => noted(alloc, "", json_sentence(alloc)?),
        Err(error) => {
            if error.is_memory() {
                return Err(AllocError);
            }
            let path = format!(in alloc; "line {} column {}", error.line(), error.column())?;
            noted(alloc, path.as_str(), json_sentence(alloc)?)
        },
    }
}

/// Where a fault stands for which a file stands for no workflow, and what to write there instead.
///
/// # Errors
///
/// Want of memory.
pub fn flow_note(alloc: Global, bytes: &[u8], fault: &FlowFault) -> Result<Note, AllocError>
    ensures { IfOk result (λ note. IsFlowPlace bytes.now fault.now note.path) }
{
    match read_json(alloc, bytes)? {
        Some(root) => noted_in(alloc, &root, fault),
        None => unread(alloc, bytes),
    }
}
