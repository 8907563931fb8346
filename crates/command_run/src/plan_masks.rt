//! The masks that the secrets of a plan are.

ghost use Rattle.std.specs.Prelude.{◌≡◌, ◌++◌, IfOk, OnOk};
ghost use Rattle.flow_model.specs.Mapping.{pairs_of};
ghost use Rattle.flow_model.specs.Plain as plain;
ghost use Rattle.flow_model.specs.Value.{view, views, viewed};
ghost use Rattle.command_run.specs.PlanMasks as spec;

use flow_commands::Masks;
use flow_model::{Mapping, Node, Plan, Text, Value};
use std::alloc::{AllocError, Global};
use std::collections::BTreeMap;

/// Adds the masks that a secret is: each text in it that has a byte.
#[cycle(texts)]
fn add_secret(secret: &Node, masks: &mut Masks) -> Result<(), AllocError>
    ensures { OnOk result (masks.new ≡ masks.old ++ spec.texts_in (view secret.now)) }
{
    match secret {
        Node::Text(text) => add_text(text, masks),
        Node::List(nodes) => add_items(nodes, masks),
        Node::Map(members) => add_members(members, masks),
        Node::Null | Node::Truth(_) | Node::Whole(_) => Ok(()),
    }
}

/// Adds the texts in the items of a list.
#[cycle(texts)]
fn add_items(nodes: &Vec<Node>, masks: &mut Masks) -> Result<(), AllocError>
    ensures { OnOk result (masks.new
        ≡ masks.old ++ spec.texts_in_items (plain.items_of (views nodes.now.items))) }
{
    for node in nodes {
        add_secret(node, masks)?;
    }
    Ok(())
}

/// Adds the texts in the values of a map.
#[cycle(texts)]
fn add_members(members: &BTreeMap<String, Node>, masks: &mut Masks) -> Result<(), AllocError>
    ensures { OnOk result (masks.new ≡ masks.old
        ++ spec.texts_in_members (plain.members_of (viewed (pairs_of members.now.entries)))) }
{
    for (_key, node) in members.iter() {
        add_secret(node, masks)?;
    }
    Ok(())
}

/// Adds a text, if it has a byte.
fn add_text(text: &Text, masks: &mut Masks) -> Result<(), AllocError>
    ensures { OnOk result (masks.new ≡ masks.old ++ spec.some_text text.now) }
{
    if text.is_empty() {
        return Ok(());
    }
    masks.push(text.as_str())
}

/// Adds the masks that secrets are.
fn add_secrets(secrets: &Mapping<Value>, masks: &mut Masks) -> Result<(), AllocError>
    ensures { OnOk result (masks.new ≡ masks.old ++ spec.secret_masks secrets.now) }
{
    let from = secrets.iter();
    for (_, secret) in from {
        add_secret(secret.node(), masks)?;
    }
    Ok(())
}

/// The masks that the secrets of a plan's runs are.
pub(crate) fn masks_of(alloc: Global, plan: &Plan) -> Result<Masks, AllocError>
    ensures { IfOk result (λ masks. masks ≡ spec.plan_masks plan.now) }
{
    let mut masks = Masks::empty(alloc);
    let runs = plan.runs.as_slice();
    for run in runs {
        add_secrets(&run.roots.secrets, &mut masks)?;
    }
    Ok(masks)
}
