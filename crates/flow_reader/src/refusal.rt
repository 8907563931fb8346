//! The faults of a part, made at their places.

ghost use Rattle.std.specs.Prelude.{◌≡◌, [], IfOk};
ghost use Rattle.flow_reader.specs.Checked.{IsFault};
ghost use Rattle.flow_reader.specs.Fault.{at_key, joined};
ghost use Rattle.flow_reader.specs.declared.fault.FlowFault.TheVariants.{Missing, WrongShape, BadId, LeftOut};

use crate::fault::FlowFault;
use flow_model::Text;
use std::alloc::{AllocError, Global};

/// Something is missing at this key.
#[tactic(auto, using(crate::proofs::Faults::is_itself, crate::proofs::Faults::is_memory))]
pub(crate) fn missing(alloc: Global, key: &str) -> FlowFault
    ensures { IsFault (Missing key.now) result }
{
    match Text::from_str(alloc, key) {
        Ok(key) => FlowFault::Missing(key),
        Err(_) => FlowFault::Memory,
    }
}

/// The part has the wrong shape.
#[tactic(auto, using(crate::proofs::Faults::is_itself, crate::proofs::Faults::is_memory))]
pub(crate) fn wrong_shape(alloc: Global) -> FlowFault
    ensures { IsFault (WrongShape []) result }
{
    match Text::from_str(alloc, "") {
        Ok(path) => FlowFault::WrongShape(path),
        Err(_) => FlowFault::Memory,
    }
}

/// This is no id or name, or stands twice.
#[tactic(auto, using(crate::proofs::Faults::is_itself, crate::proofs::Faults::is_memory))]
pub(crate) fn bad_id(alloc: Global, name: &str) -> FlowFault
    ensures { IsFault (BadId name.now) result }
{
    match Text::from_str(alloc, name) {
        Ok(name) => FlowFault::BadId(name),
        Err(_) => FlowFault::Memory,
    }
}

/// What stands at this key is left out.
#[tactic(auto, using(crate::proofs::Faults::is_itself, crate::proofs::Faults::is_memory))]
pub(crate) fn left_out(alloc: Global, key: &str) -> FlowFault
    ensures { IsFault (LeftOut key.now) result }
{
    match Text::from_str(alloc, key) {
        Ok(key) => FlowFault::LeftOut(key),
        Err(_) => FlowFault::Memory,
    }
}

/// A fault in a part, seen from the whole that has the part at this key.
#[tactic(auto, using(crate::proofs::Faults::is_itself, crate::proofs::Faults::is_memory))]
pub(crate) fn at(alloc: Global, key: &str, fault: FlowFault) -> FlowFault
    ensures { IsFault (at_key key.now fault) result }
{
    match fault {
        FlowFault::WrongShape(path) => match join(alloc, key, path.as_str()) {
            Ok(path) => FlowFault::WrongShape(path),
            Err(_) => FlowFault::Memory,
        },
        FlowFault::Missing(key) => FlowFault::Missing(key),
        FlowFault::BadId(name) => FlowFault::BadId(name),
        FlowFault::LeftOut(key) => FlowFault::LeftOut(key),
        FlowFault::NotJson => FlowFault::NotJson,
        FlowFault::NotWhole => FlowFault::NotWhole,
        FlowFault::UnknownShell => FlowFault::UnknownShell,
        FlowFault::Memory => FlowFault::Memory,
    }
}

/// A key and the path within what stands there.
fn join(alloc: Global, key: &str, path: &str) -> Result<Text, AllocError>
    ensures { IfOk result (λ text. text ≡ joined key.now path.now) }
{
    let mut text = String::from_str(alloc, key)?;
    if !path.is_empty() {
        text.push_str(".")?;
        text.push_str(path)?;
    }
    Ok(Text::new(text))
}
