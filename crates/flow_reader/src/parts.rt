//! The parts of an object, looked up by their keys. Unknown keys are ignored, with all under them.

ghost use Rattle.std.specs.Prelude.{◌≡◌, [], ◌∷◌, MatchOption, map};
ghost use Rattle.serde_json.specs.View.{view};
ghost use Rattle.flow_reader.specs.Checked.{Gives, in_object, defaulted, spelled_in};

use crate::fault::FlowFault;
use crate::reading::{FromJson, is_expression, within};
use crate::refusal::{left_out, missing, wrong_shape};
use serde_json::Value;
use std::alloc::Global;
use std::marker::Model;

/// What an object has at a key.
pub(crate) trait Part {
    ghost use Rattle.std.specs.Prelude.{ℕ, List};
    ghost use Rattle.serde_json.specs.Data.{Data};
    ghost use Rattle.flow_reader.specs.Checked.{Checked};

    ghost part: { List ℕ → Data → Checked Self };

    fn read_at(alloc: Global, object: &Value, key: &str) -> Result<Self, FlowFault>
    where
        Self: Sized,
        ensures { Gives result (part key.now (view object.now)) };
}

/// A part that may be missing.
impl<T: FromJson> Part for Option<T> {
    ghost use Rattle.flow_reader.specs.Checked.{optional};

    ghost part = { optional T.reading };

    #[tactic(auto, unfolding(crate::specs::Checked::optional_at), using(crate::proofs::Faults::stands_made, crate::proofs::Faults::ok_made))]
    fn read_at(alloc: Global, object: &Value, key: &str) -> Result<Option<T>, FlowFault> {
        match object.get(key) {
            Some(json) => Ok(Some(within(alloc, key, json)?)),
            None => Ok(None),
        }
    }
}

/// A part that must not be missing.
#[derive(Drop)]
pub(crate) struct Required<T> {
    pub(crate) part: T,
}

impl<T> Model for Required<T> {
    ghost Value = { T };

    ghost view = { λ r. r.part };
}

impl<T: FromJson> Part for Required<T> {
    ghost use Rattle.flow_reader.specs.Checked.{required};

    ghost part = { required T.reading };

    #[tactic(auto, unfolding(crate::specs::Checked::required_at), using(crate::proofs::Faults::stands_bad))]
    fn read_at(alloc: Global, object: &Value, key: &str) -> Result<Required<T>, FlowFault> {
        match object.get(key) {
            Some(json) => {
                let part = within(alloc, key, json)?;
                Ok(Required { part })
            },
            None => Err(missing(alloc, key)),
        }
    }
}

/// A part that may be missing, and is left out where it is an expression.
#[derive(Drop)]
pub(crate) struct Spelled<T> {
    pub(crate) part: Option<T>,
}

impl<T> Model for Spelled<T> {
    ghost use Rattle.std.specs.Prelude.{Option};

    ghost Value = { Option T };

    ghost view = { λ s. s.part };
}

/// What is spelled out at a key.
#[tactic(auto, unfolding(crate::specs::Checked::spelled_in), using(crate::proofs::Faults::stands_bad))]
pub(crate) fn read_spelled<T: FromJson>(
    alloc: Global,
    key: &str,
    json: &Value,
) -> Result<T, FlowFault>
    ensures { Gives result (spelled_in T.reading key.now (view json.now)) }
{
    if is_expression(json) {
        Err(left_out(alloc, key))
    } else {
        within(alloc, key, json)
    }
}

impl<T: FromJson> Part for Spelled<T> {
    ghost use Rattle.flow_reader.specs.Checked.{spelled};

    ghost part = { spelled T.reading };

    #[tactic(auto, unfolding(crate::specs::Checked::spelled_at), using(crate::proofs::Faults::stands_made, crate::proofs::Faults::ok_made))]
    fn read_at(alloc: Global, object: &Value, key: &str) -> Result<Spelled<T>, FlowFault> {
        match object.get(key) {
            Some(json) => {
                let part = read_spelled(alloc, key, json)?;
                Ok(Spelled { part: Some(part) })
            },
            None => Ok(Spelled { part: None }),
        }
    }
}

/// A key that is left out, whatever stands there.
impl Part for () {
    ghost use Rattle.flow_reader.specs.Checked.{absent};

    ghost part = { absent };

    #[tactic(auto, unfolding(crate::specs::Checked::absent_at), using(crate::proofs::Faults::stands_bad))]
    fn read_at(alloc: Global, object: &Value, key: &str) -> Result<(), FlowFault> {
        match object.get(key) {
            Some(_) => Err(left_out(alloc, key)),
            None => Ok(()),
        }
    }
}

/// The part at a key, or its default where nothing stands there.
#[tactic(auto, unfolding(crate::specs::Checked::defaulted_at))]
pub(crate) fn read_or<T: FromJson + Drop>(
    alloc: Global,
    object: &Value,
    key: &str,
    default: T,
) -> Result<T, FlowFault>
    ensures { Gives result (defaulted default T.reading key.now (view object.now)) }
{
    match object.get(key) {
        Some(json) => within(alloc, key, json),
        None => Ok(default),
    }
}

/// Parts of an object, up to the last: a part and the parts after it, or none.
pub(crate) trait Parts {
    ghost use Rattle.std.specs.Prelude.{ℕ, List};
    ghost use Rattle.serde_json.specs.Data.{Data};
    ghost use Rattle.flow_reader.specs.Checked.{Checked};

    ghost parts: { List (List ℕ) → Data → Checked Self };

    /// The parts at these keys.
    fn read(alloc: Global, object: &Value, keys: &[&str]) -> Result<Self, FlowFault>
    where
        Self: Sized,
        ensures { Gives result (parts (map (λ key. key.now) keys.now) (view object.now)) };
}

/// The first key, and the others.
fn split_keys<'k, 's>(keys: &'k [&'s str]) -> Option<(&'s str, &'k [&'s str])>
    ensures { MatchOption result (map (λ key. key.now) keys.now ≡ [])
        (λ split. map (λ key. key.now) keys.now ≡ split.0.now ∷ map (λ key. key.now) split.1.now) }
{
    match keys {
        [] => None,
        [key, others @ ..] => Some((*key, others)),
    }
}

impl Parts for () {
    ghost use Rattle.flow_reader.specs.Checked.{no_more};

    ghost parts = { no_more };

    fn read(_: Global, _: &Value, _: &[&str]) -> Result<(), FlowFault> {
        Ok(())
    }
}

impl<A: Part + Drop, R: Parts> Parts for (A, R) {
    ghost use Rattle.flow_reader.specs.Checked.{at_keys};

    ghost parts = { at_keys A.part R.parts };

    #[tactic(auto, using(crate::proofs::Faults::stands_left, crate::proofs::Faults::stands_right, crate::proofs::Faults::stands_bad, crate::proofs::Faults::ok_both))]
    fn read(alloc: Global, object: &Value, keys: &[&str]) -> Result<(A, R), FlowFault> {
        let Some((key, others)) = split_keys(keys) else {
            return Err(wrong_shape(alloc));
        };
        let first = A::read_at(alloc, object, key)?;
        Ok((first, R::read(alloc, object, others)?))
    }
}

/// The parts of an object at these keys.
#[tactic(auto, unfolding(crate::specs::Checked::in_object), using(crate::proofs::Faults::stands_bad))]
pub(crate) fn read_object<P: Parts>(
    alloc: Global,
    json: &Value,
    keys: &[&str],
) -> Result<P, FlowFault>
    ensures { Gives result
        (in_object (P.parts (map (λ key. key.now) keys.now)) (view json.now)) }
{
    if json.as_object().is_none() {
        return Err(wrong_shape(alloc));
    }
    P::read(alloc, json, keys)
}
