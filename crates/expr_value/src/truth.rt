//! A value as a truth value.

ghost use Rattle.std.specs.Prelude.{◌≡◌};
ghost use Rattle.expr_value.specs.Convert.{truth_of as truth_of_kind};
ghost use Rattle.expr_value.specs.Seen.{kind_seen};

use crate::kind::ValueKind;

/// Whether a value of this kind is truthy: false are null, 0 and the empty text, and false itself.
pub(crate) fn truth_of(kind: ValueKind<'_>) -> bool
    ensures { result ≡ truth_of_kind (kind_seen kind.entry) }
{
    match kind {
        ValueKind::Null => false,
        ValueKind::Truth(truth) => truth,
        ValueKind::Whole(number) => number != 0,
        ValueKind::Text(text) => !text.is_empty(),
        ValueKind::List | ValueKind::Map => true,
    }
}
