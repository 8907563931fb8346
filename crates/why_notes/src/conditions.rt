//! Whether a condition waits for success.

ghost use Rattle.std.specs.Prelude.{◌≡◌, IfOk, IfSome, List, None, Option};
ghost use Rattle.why_notes.specs.Conditions as spec;
ghost use Rattle.expr_reader.specs.Faults.{fault_at};
ghost use Rattle.expr_reader.specs.Template.{Piece};

use expr_reader::{ExprFault, names_status, read_condition};
use expr_value::Status;
use flow_model::Text;
use std::alloc::{AllocError, Global};

/// What is no condition does not wait.
fn unread_waits(fault: ExprFault) -> Result<bool, AllocError>
    ensures { (pieces : Option (List Piece)) → IfSome (fault_at fault) (λ x. pieces ≡ None)
        → IfOk result (λ waits. waits ≡ spec.read_waits pieces) }
{
    if fault.is_memory() {
        return Err(AllocError);
    }
    Ok(false)
}

/// Whether a condition waits for success.
fn waits_for_success(alloc: Global, condition: &Option<Text>) -> Result<bool, AllocError>
    ensures { IfOk result (λ waits. waits ≡ spec.waits_for_success condition.now) }
{
    match condition {
        Some(text) => match read_condition(alloc, text.as_str()) {
            Ok(template) => Ok(!names_status(&template)),
            Err(fault) => unread_waits(fault),
        },
        None => Ok(true),
    }
}

/// Whether a condition waits for success under a status that is none.
pub(crate) fn waits_in_vain(
    alloc: Global,
    condition: &Option<Text>,
    status: Status,
) -> Result<bool, AllocError>
    ensures { IfOk result (λ vain. vain ≡ spec.waits_in_vain condition.now status) }
{
    let waits = waits_for_success(alloc, condition)?;
    Ok(waits && !status.is_success())
}
