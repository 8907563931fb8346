//! The rules of texts that are evaluated: each is read, as a condition or as a template.

ghost use Rattle.std.specs.Prelude.{◌≡◌, IfOk, IfSome, List, Option, is_some};
ghost use Rattle.expr_reader.specs.Accepts.{is_template, is_condition};
ghost use Rattle.expr_reader.specs.Faults.{fault_at};
ghost use Rattle.expr_reader.specs.Template.{Piece};
ghost use Rattle.flow_model.specs.Found as found;
ghost use Rattle.flow_model.specs.Found.{Checks};
ghost use Rattle.flow_model.specs.Rules as spec;
ghost use Rattle.flow_model.specs.Sound.{TestsTell};

use crate::check::{Broken, rule};
use crate::plan::Flag;
use crate::text::Text;
use expr_reader::{
    ExprFault, condition_test, itself_reading, read_condition, read_template, stands_for_itself,
    template_test,
};
use std::alloc::{AllocError, Global};

/// A text that has a fault is not what it was read as, unless it is want of memory.
fn not_read(fault: ExprFault) -> Result<bool, AllocError>
    ensures { (pieces : Option (List Piece)) → IfSome (fault_at fault) (λ x. pieces ≡ None)
        → IfOk result (λ holds. holds ≡ is_some pieces) }
{
    if fault.is_memory() {
        return Err(AllocError);
    }
    Ok(false)
}

/// Whether a text is a template.
pub(crate) fn is_template(alloc: Global, text: &str) -> Result<bool, AllocError>
    ensures { IfOk result (λ holds. holds ≡ is_template text.now) }
{
    itself_reading();
    if stands_for_itself(text) {
        return Ok(true);
    }
    match read_template(alloc, text) {
        Ok(_) => Ok(true),
        Err(fault) => not_read(fault),
    }
}

/// Whether a text is a condition.
fn is_condition(alloc: Global, text: &str) -> Result<bool, AllocError>
    ensures { IfOk result (λ holds. holds ≡ is_condition text.now) }
{
    match read_condition(alloc, text) {
        Ok(_) => Ok(true),
        Err(fault) => not_read(fault),
    }
}

/// The tests of texts tell the templates and the conditions.
pub(crate) fn tests_tell()
    ensures { TestsTell }
{
    template_test();
    condition_test();
}

/// Checks that a text is a template.
pub(crate) fn check_template(alloc: Global, path: &str, text: &str) -> Result<(), Broken>
    ensures { Checks (found.rule path.now (is_template text.now)) result }
{
    let holds = is_template(alloc, text)?;
    rule(alloc, path, holds)
}

/// Checks that a text, if there is one, is a template.
pub(crate) fn check_optional_template(
    alloc: Global,
    path: &str,
    text: &Option<Text>,
) -> Result<(), Broken>
    ensures { Checks (found.rule path.now (spec.all_there is_template text.now)) result }
{
    match text {
        Some(text) => check_template(alloc, path, text.as_str()),
        None => Ok(()),
    }
}

/// Checks that the condition of a job or step, if there is one, is a condition.
pub(crate) fn check_condition(alloc: Global, text: &Option<Text>) -> Result<(), Broken>
    ensures { Checks (spec.condition_rule text.now) result }
{
    match text {
        Some(text) => {
            let holds = is_condition(alloc, text.as_str())?;
            rule(alloc, "condition", holds)
        },
        None => Ok(()),
    }
}

/// Checks that a flag is a truth value or a template.
pub(crate) fn check_flag(alloc: Global, path: &str, flag: &Flag) -> Result<(), Broken>
    ensures { Checks (found.rule path.now (spec.is_flag flag.now)) result }
{
    match flag {
        Flag::Truth(_) => Ok(()),
        Flag::Text(text) => check_template(alloc, path, text.as_str()),
    }
}
