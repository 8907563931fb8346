//! Workflows and contexts from bytes.

ghost use Rattle.std.specs.Prelude.{◌≡◌, Some, None, IfOk, codes};
ghost use Rattle.std.specs.Cmp.Lexicographic.{slice_cmp};
ghost use Rattle.std.specs.List.Sorted.{IsStrictlySortedBy};
ghost use Rattle.std.specs.Ordering.{nat_cmp};
ghost use Rattle.flow_model.specs.Rules.{roots_rules};
ghost use Rattle.serde_json.specs.Find.{get};
ghost use Rattle.serde_json.specs.View.{view, members_view};
ghost use Rattle.flow_reader.specs.Checked.{keys_in};
ghost use Rattle.flow_reader.specs.Load.{flow_read, roots_read, KeysAscend, Tells};
ghost use Rattle.flow_reader.specs.Parts.{roots_of};
ghost use Rattle.flow_reader.specs.Workflow.{workflow_of};

use crate::fault::FlowFault;
use crate::group::roots_from_json;
use crate::workflow::read_workflow;
use flow_model::{Flow, Roots, read_json};
use serde_json::Value;
use std::alloc::Global;
use std::collections::BTreeMap;

/// The keys of a map ascend.
fn keys_ascend(members: &BTreeMap<String, Value>)
    ensures { IsStrictlySortedBy (slice_cmp nat_cmp) (keys_in (members_view members.now.entries)) }
{
    let _members = members.iter();
}

/// The jobs of a value, where it has some, stand in the order of their ids.
fn jobs_ascend(json: &Value)
    ensures { KeysAscend (get (codes "jobs") (view json.now)) }
{
    if let Some(jobs) = json.get("jobs") {
        if let Some(members) = jobs.as_object() {
            keys_ascend(members);
        }
    }
}

/// The workflow that a value stands for.
#[tactic(auto, using(crate::proofs::Answered::tells_fault))]
fn flow_told(alloc: Global, path: &str, json: &Value) -> Result<Flow, FlowFault>
    ensures { Tells result (Some (workflow_of path.now (view json.now))) }
{
    jobs_ascend(json);
    match read_workflow(alloc, path, json) {
        Ok(workflow) => Ok(Flow::new(workflow)),
        Err(fault) => Err(fault),
    }
}

/// The workflow that the JSON text of a file stands for (GitHub Docs, workflow syntax). Where it gives itself no name, the
/// path is its name. Unknown keys are ignored, with all under them.
///
/// # Errors
///
/// - `NotJson` where the bytes are no JSON text (RFC 8259), nested to 127;
/// - any fault from `NotWhole` to `UnknownShell` only where they are JSON that stands for no workflow, and the fault stands
///   in it; which one, where there are several, is not promised;
/// - `Memory` where there is no memory.
pub fn read_flow(alloc: Global, path: &str, bytes: &[u8]) -> Result<Flow, FlowFault>
    ensures { Tells result (flow_read path.now bytes.now) }
{
    match read_json(alloc, bytes)? {
        Some(json) => flow_told(alloc, path, &json),
        None => Err(FlowFault::NotJson),
    }
}

/// The contexts that a value stands for.
#[tactic(auto, using(crate::proofs::Answered::tells_fault))]
fn roots_told(alloc: Global, json: &Value) -> Result<Roots, FlowFault>
    ensures tells { Tells result (Some (roots_of (view json.now))) }
    ensures rules { IfOk result (λ roots. roots_rules roots ≡ None) }
{
    match roots_from_json(alloc, json) {
        Ok(roots) => Ok(roots),
        Err(fault) => Err(fault),
    }
}

/// The contexts that an object gives: its keys `github`, `inputs`, `secrets` and `vars`, each a map of values that nest
/// at most 100 deep, and empty where it is missing. Other keys are ignored.
///
/// # Errors
///
/// - `NotJson` where the bytes are no JSON text (RFC 8259), nested to 127;
/// - `NotWhole` or `WrongShape` where they are JSON in which that fault stands;
/// - `Memory` where there is no memory.
pub fn read_roots(alloc: Global, bytes: &[u8]) -> Result<Roots, FlowFault>
    ensures tells { Tells result (roots_read bytes.now) }
    ensures rules { IfOk result (λ roots. roots_rules roots ≡ None) }
{
    match read_json(alloc, bytes)? {
        Some(json) => roots_told(alloc, &json),
        None => Err(FlowFault::NotJson),
    }
}
