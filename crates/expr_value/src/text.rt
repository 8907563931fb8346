//! A value as a text.

ghost use Rattle.std.specs.Prelude.{◌≡◌, IfOk, OnOk, string_bytes};
ghost use Rattle.expr_value.specs.Bounded.{grown};
ghost use Rattle.expr_value.specs.Convert.{text_of};
ghost use Rattle.expr_value.specs.PlainKind.{kind_of as kind_of_value};
ghost use Rattle.expr_value.specs.Seen.{kind_seen};

use crate::bounded::Bounded;
use crate::kind::{ValueKind, kind_of};
use flow_model::{Text, Value};
use std::alloc::{AllocError, Global};

/// The text of a kind, added at the end.
pub(crate) fn push_kind(
    bounded: &mut Bounded,
    alloc: Global,
    kind: ValueKind<'_>,
) -> Result<(), AllocError>
    ensures { OnOk result (bounded.new ≡ grown bounded.old (text_of (kind_seen kind.entry))) }
{
    match kind {
        ValueKind::Null => bounded.push_str(""),
        ValueKind::Truth(true) => bounded.push_str("true"),
        ValueKind::Truth(false) => bounded.push_str("false"),
        ValueKind::Whole(number) => {
            let digits = number.to_string(alloc)?;
            bounded.push_str(digits.as_str())
        },
        ValueKind::Text(text) => bounded.push_str(text),
        ValueKind::List => bounded.push_str("Array"),
        ValueKind::Map => bounded.push_str("Object"),
    }
}

/// The text of a kind, whatever its length.
pub(crate) fn text_of_kind(alloc: Global, kind: ValueKind<'_>) -> Result<String, AllocError>
    ensures { IfOk result (λ text. string_bytes text ≡ text_of (kind_seen kind.entry)) }
{
    match kind {
        ValueKind::Null => Ok(String::new(alloc)),
        ValueKind::Truth(true) => String::from_str(alloc, "true"),
        ValueKind::Truth(false) => String::from_str(alloc, "false"),
        ValueKind::Whole(number) => number.to_string(alloc),
        ValueKind::Text(text) => String::from_str(alloc, text),
        ValueKind::List => String::from_str(alloc, "Array"),
        ValueKind::Map => String::from_str(alloc, "Object"),
    }
}

/// The text of a value (GitHub Docs, "Evaluate expressions in workflows and actions": operators, type
/// conversions): nothing of null, `true` or `false`, a number in decimal, a text itself, `Array` of any list and
/// `Object` of any map. It has no limit.
///
/// # Errors
///
/// No memory was left.
pub fn to_text(alloc: Global, value: &Value) -> Result<Text, AllocError>
    ensures { IfOk result (λ text. text ≡ text_of (kind_of_value value.now)) }
{
    let text = text_of_kind(alloc, kind_of(value.node()))?;
    Ok(Text::new(text))
}
