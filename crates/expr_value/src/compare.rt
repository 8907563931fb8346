//! Equality and the four relations.

ghost use Rattle.std.specs.Prelude.{◌≡◌};
ghost use Rattle.std.specs.Ordering.{is_eq};
ghost use Rattle.expr_value.specs.Compare as compare;
ghost use Rattle.expr_value.specs.Seen.{kind_seen};

use crate::kind::ValueKind;
use crate::number::number_of;
use expr_reader::{Equality, Relation};
use flow_model::ValueFault;
use std::cmp::Ordering;

/// The order of two texts, ignoring case.
pub(crate) fn text_order(left: &str, right: &str) -> Ordering
    ensures { result ≡ compare.text_order left.now right.now }
{
    left.bytes()
        .map(|byte| byte.to_ascii_lowercase())
        .cmp(right.bytes().map(|byte| byte.to_ascii_lowercase()))
}

// The order of two numbers, where both are numbers.
fn number_order(left: Option<i64>, right: Option<i64>) -> Option<Ordering>
    ensures { result ≡ compare.number_order left right }
{
    match (left, right) {
        (Some(left), Some(right)) => Some(left.cmp(&right)),
        (Some(_), None) | (None, _) => None,
    }
}

// The order of two values by number.
fn order_by_number(
    left: ValueKind<'_>,
    right: ValueKind<'_>,
) -> Result<Option<Ordering>, ValueFault>
    ensures { result ≡ compare.order_by_number (kind_seen left.entry) (kind_seen right.entry) }
{
    match number_of(left) {
        Ok(left) => match number_of(right) {
            Ok(right) => Ok(number_order(left, right)),
            Err(fault) => Err(fault),
        },
        Err(fault) => Err(fault),
    }
}

// Whether two values are equal by number.
fn equals_by_number(left: ValueKind<'_>, right: ValueKind<'_>) -> Result<bool, ValueFault>
    ensures { result
        ≡ compare.passes is_eq
        (compare.order_by_number (kind_seen left.entry) (kind_seen right.entry)) }
{
    match order_by_number(left, right) {
        Ok(Some(order)) => Ok(order.is_eq()),
        Ok(None) => Ok(false),
        Err(fault) => Err(fault),
    }
}

/// Whether `left == right`.
///
/// # Errors
///
/// `NoIdentity`: two lists or two maps are compared. `NotWhole`: a text that is compared by number writes one that
/// is not whole, or out of range.
pub(crate) fn equals(left: ValueKind<'_>, right: ValueKind<'_>) -> Result<bool, ValueFault>
    ensures { result ≡ compare.equals (kind_seen left.entry) (kind_seen right.entry) }
{
    match (left, right) {
        (ValueKind::Truth(left), ValueKind::Truth(right)) => Ok(left == right),
        (ValueKind::Text(left), ValueKind::Text(right)) => Ok(text_order(left, right).is_eq()),
        (ValueKind::List, ValueKind::List) | (ValueKind::Map, ValueKind::Map) => Err(
            ValueFault::NoIdentity,
        ),
        _ => equals_by_number(left, right),
    }
}

/// Whether `left == right`, or `left != right`.
///
/// # Errors
///
/// As of `equals`.
pub(crate) fn equality(
    equality: Equality,
    left: ValueKind<'_>,
    right: ValueKind<'_>,
) -> Result<bool, ValueFault>
    ensures { result
        ≡ compare.equality_of equality
        (compare.equals (kind_seen left.entry) (kind_seen right.entry)) }
{
    match equals(left, right) {
        Ok(same) => match equality {
            Equality::Equal => Ok(same),
            Equality::NotEqual => Ok(!same),
        },
        Err(fault) => Err(fault),
    }
}

// Whether a relation admits an order.
fn admits(relation: Relation, order: Ordering) -> bool
    ensures { result ≡ compare.admits relation order }
{
    match relation {
        Relation::Less => order.is_lt(),
        Relation::AtMost => order.is_le(),
        Relation::Greater => order.is_gt(),
        Relation::AtLeast => order.is_ge(),
    }
}

// Whether two values are so related by number.
fn related_by_number(
    relation: Relation,
    left: ValueKind<'_>,
    right: ValueKind<'_>,
) -> Result<bool, ValueFault>
    ensures { result ≡ compare.passes (compare.admits relation)
        (compare.order_by_number (kind_seen left.entry) (kind_seen right.entry)) }
{
    match order_by_number(left, right) {
        Ok(Some(order)) => Ok(admits(relation, order)),
        Ok(None) => Ok(false),
        Err(fault) => Err(fault),
    }
}

/// Whether `left < right`, or so by another relation.
///
/// # Errors
///
/// `NotWhole`: a text that is compared by number writes one that is not whole, or out of range.
pub(crate) fn related(
    relation: Relation,
    left: ValueKind<'_>,
    right: ValueKind<'_>,
) -> Result<bool, ValueFault>
    ensures { result ≡ compare.related relation (kind_seen left.entry) (kind_seen right.entry) }
{
    match (left, right) {
        (ValueKind::Text(left), ValueKind::Text(right)) => Ok(admits(
            relation,
            text_order(left, right),
        )),
        (ValueKind::List, ValueKind::List) | (ValueKind::Map, ValueKind::Map) => Ok(false),
        _ => related_by_number(relation, left, right),
    }
}
