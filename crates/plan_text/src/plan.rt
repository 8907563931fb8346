//! Plan documents: what is printed of a plan, and the plan that a text loads as.

ghost use Rattle.std.specs.Prelude.{◌≡◌, IfOk, Some, Ok, string_bytes};
ghost use Rattle.serde_json.specs.Data.{Data};
ghost use Rattle.serde_json.specs.View.{view};
ghost use Rattle.serde_json.specs.Written.{compact_text};
ghost use Rattle.flow_model.specs.JsonText.{json_read};
ghost use Rattle.flow_model.specs.Rules.{IsPlan, plan_rules};
ghost use Rattle.flow_model.specs.declared.plan.Plan.{Plan};
ghost use Rattle.plan_documents.specs.Document.{document, IsPlanDocument};
ghost use Rattle.plan_text.specs.Load.{IsTextOf, has_known_version, has_other_version, loaded, load, accepted, Gives};

use crate::fault::LoadFault;
use crate::plan_tokens::read_printed;
use flow_model::{Broken, CheckedPlan, Plan, read_json};
use plan_documents::{FromJson, ToJson, Unread};
use serde_json::Value;
use std::alloc::{AllocError, Global};

/// The compact text of a plan's document, with no newline.
pub fn print_plan(alloc: Global, plan: &CheckedPlan) -> Result<String, AllocError>
    ensures text { IfOk result (λ s. string_bytes s ≡ compact_text (document plan.now)) }
    ensures reads { IfOk result (λ s. json_read (string_bytes s) ≡ Some (document plan.now)) }
    // Loading it gives the same plan.
    ensures loads { IfOk result (λ s. load (string_bytes s) ≡ Ok plan.now) }
    // No document of this plan, in either version, is one of another.
    ensures alone { (other : Plan) (d : Data) → IsPlan other → IsPlanDocument plan.now d
        → IsPlanDocument other d → other ≡ plan.now }
{
    let json = plan.plan().to_json(alloc)?;
    json.to_string(alloc)
}

/// The plan that a text stands for: the text reads as a document of the plan, of version 1 or 2, in
/// any layout.
///
/// # Errors
///
/// - `NotJson` where the bytes are no JSON text (RFC 8259), nested to 127;
/// - `Version` where they are an object whose `version` is missing or neither 1 nor 2;
/// - `NotPlan` where they are no plan's document, or the plan breaks a rule, with the path of the first
///   part at fault;
/// - `Memory` where there is no memory.
pub fn load_plan(alloc: Global, bytes: &[u8]) -> Result<CheckedPlan, LoadFault>
    ensures found { IfOk result (λ p. IsTextOf IsPlanDocument bytes.now p) }
    ensures sound { IfOk result (λ p. IsPlan p) }
    ensures only { (p : Plan) → IsPlan p → IsTextOf IsPlanDocument bytes.now p
        → Gives result (Ok p) }
    ensures exact { Gives result (load bytes.now) }
{
    load_bytes(alloc, bytes)
}

fn load_bytes(alloc: Global, bytes: &[u8]) -> Result<CheckedPlan, LoadFault>
    ensures { Gives result (load bytes.now) }
{
    // most plans are spelled as they are printed, and then no tree of the whole is needed
    match read_printed(alloc, bytes) {
        Ok(plan) => Ok(plan),
        Err(Unread::Refused(_)) => load_tree(alloc, bytes),
        Err(Unread::Memory) => Err(LoadFault::Memory),
    }
}

fn load_tree(alloc: Global, bytes: &[u8]) -> Result<CheckedPlan, LoadFault>
    ensures { Gives result (load bytes.now) }
{
    match read_json(alloc, bytes)? {
        Some(json) => load_json(alloc, &json),
        None => Err(LoadFault::NotJson),
    }
}

fn load_json(alloc: Global, json: &Value) -> Result<CheckedPlan, LoadFault>
    ensures { Gives result (loaded (Some (view json.now))) }
{
    if has_other_version(json) {
        return Err(LoadFault::Version);
    }
    match Plan::from_json(alloc, json) {
        Ok(plan) => check(alloc, plan),
        Err(Unread::Refused(path)) => Err(LoadFault::NotPlan(path)),
        Err(Unread::Memory) => Err(LoadFault::Memory),
    }
}

fn check(alloc: Global, plan: Plan) -> Result<CheckedPlan, LoadFault>
    ensures { Gives result (accepted plan (plan_rules plan)) }
{
    match plan.check(alloc) {
        Ok(checked) => Ok(checked),
        Err(Broken::Rule(path)) => Err(LoadFault::NotPlan(path)),
        Err(Broken::Memory) => Err(LoadFault::Memory),
    }
}

fn has_other_version(json: &Value) -> bool
    ensures { result ≡ has_other_version (view json.now) }
{
    json.is_object() && !has_known_version(json)
}

fn has_known_version(json: &Value) -> bool
    ensures { result ≡ has_known_version (view json.now) }
{
    match json.get("version").and_then(Value::as_u64) {
        Some(version) => version == 1 || version == 2,
        None => false,
    }
}
