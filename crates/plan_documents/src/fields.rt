//! The members of an object, read one after the other in the order of their keys.

ghost use Rattle.std.specs.Prelude.{map};
ghost use Rattle.serde_json.specs.View.{view};
ghost use Rattle.plan_documents.specs.Answer.{GivesIt};
ghost use Rattle.plan_documents.specs.Parts.{members_of, and_then};

use crate::reading::{FromJson, Unread, field, members_of, no_more, refused};
use serde_json::Value;
use std::alloc::Global;
use std::collections::btree_map::Iter;

/// Members of an object, up to its last: a part and the members after it, or none.
pub(crate) trait Fields {
    ghost use Rattle.std.specs.Prelude.{ℕ, List};
    ghost use Rattle.serde_json.specs.Data.{Members};
    ghost use Rattle.serde_json.specs.View.{members_view};
    ghost use Rattle.plan_documents.specs.Parts.{Reading};

    ghost reading: { List (List ℕ) → Members → Reading Self };

    /// The parts at these keys, and no others.
    fn read(
        alloc: Global,
        members: &mut Iter<'_, String, Value>,
        keys: &[&str],
    ) -> Result<Self, Unread>
    where
        Self: Sized,
        ensures { GivesIt result
            (reading (map (λ key. key.now) keys.now) (members_view members.old)) };
}

impl Fields for () {
    ghost use Rattle.plan_documents.specs.Parts.{no_more as no_more_of};

    ghost reading = { λ keys. no_more_of };

    fn read(
        alloc: Global,
        members: &mut Iter<'_, String, Value>,
        _: &[&str],
    ) -> Result<(), Unread> {
        no_more(alloc, members)
    }
}

impl<A: FromJson + Drop, R: Fields> Fields for (A, R) {
    ghost use Rattle.plan_documents.specs.Fields.{at_keys};

    ghost reading = { at_keys A.reading R.reading };

    fn read(
        alloc: Global,
        members: &mut Iter<'_, String, Value>,
        keys: &[&str],
    ) -> Result<(A, R), Unread> {
        let [key, others @ ..] = keys else {
            return Err(refused(alloc, ""));
        };
        let first = field(alloc, members, key)?;
        Ok((first, R::read(alloc, members, others)?))
    }
}

/// The parts of an object that has these keys and no others.
pub(crate) fn read_object<F: Fields>(
    alloc: Global,
    json: &Value,
    keys: &[&str],
) -> Result<F, Unread>
    ensures { GivesIt result
        (and_then (F.reading (map (λ key. key.now) keys.now)) (members_of (view json.now))) }
{
    let mut members = members_of(alloc, json)?;
    F::read(alloc, &mut members, keys)
}
