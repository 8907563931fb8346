//! The conversions and the equality of values, for callers of this crate.

ghost use Rattle.std.specs.Prelude.{◌≡◌};
ghost use Rattle.expr_value.specs.Compare.{equals as equals_of};
ghost use Rattle.expr_value.specs.Convert.{truth_of as truth_of_kind};
ghost use Rattle.expr_value.specs.PlainKind.{kind_of as kind_of_value};

use crate::compare::equals;
use crate::kind::kind_of;
use crate::truth::truth_of;
use flow_model::{Value, ValueFault};

/// Whether the value is truthy: each is but null, `false`, 0 and the empty text.
///
/// GitHub Docs, "Evaluate expressions in workflows and actions": operators.
pub fn truthy(value: &Value) -> bool
    ensures { result ≡ truth_of_kind (kind_of_value value.now) }
{
    truth_of(kind_of(value.node()))
}

/// Whether `left == right`.
///
/// Values of one kind are equal as what they are, texts ignoring the case of A to Z. Values of two kinds are equal
/// where both are the same number: null is 0, false 0 and true 1, a text the number that it writes, the empty text 0;
/// any other text, a list and a map are no number, and so equal to nothing of another kind. GitHub Docs, "Evaluate
/// expressions in workflows and actions": operators.
///
/// # Errors
///
/// `NoIdentity`: both are lists, or both are maps. `NotWhole`: the kinds differ, and a text writes a number with a
/// fraction or an exponent, or one beyond 9007199254740991 on either side of 0.
pub fn loose_eq(left: &Value, right: &Value) -> Result<bool, ValueFault>
    ensures { result ≡ equals_of (kind_of_value left.now) (kind_of_value right.now) }
{
    equals(kind_of(left.node()), kind_of(right.node()))
}
