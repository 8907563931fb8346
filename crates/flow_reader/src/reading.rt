//! How a part of a workflow is read from JSON.

ghost use Rattle.std.specs.Prelude.{◌≡◌, Ok, length, decimal, IfOk, string_bytes};
ghost use Rattle.serde_json.specs.Find.{get};
ghost use Rattle.serde_json.specs.View.{view, items_view, members_view};
ghost use Rattle.flow_reader.specs.Checked.{Gives, under, items_checked, list_of, is_expression};

use crate::fault::FlowFault;
use crate::refusal::{at, wrong_shape};
use expr_reader::has_marker;
use flow_model::{Sequence, Text};
use serde_json::Value;
use std::alloc::{AllocError, Global};
use std::fmt::Write;

/// A part that is read from a JSON value.
pub(crate) trait FromJson {
    ghost use Rattle.serde_json.specs.Data.{Data};
    ghost use Rattle.flow_reader.specs.Checked.{Checked};

    /// What a value stands for, or the faults in it.
    ghost reading: { Data → Checked Self };

    fn from_json(alloc: Global, json: &Value) -> Result<Self, FlowFault>
    where
        Self: Sized,
        ensures { Gives result (reading (view json.now)) };
}

/// The part that stands at a key or place.
#[tactic(auto, using(crate::proofs::Faults::stands_under, crate::proofs::Faults::ok_under))]
pub(crate) fn within<T: FromJson>(alloc: Global, key: &str, json: &Value) -> Result<T, FlowFault>
    ensures { Gives result (under key.now (T.reading (view json.now))) }
{
    match T::from_json(alloc, json) {
        Ok(part) => Ok(part),
        Err(fault) => Err(at(alloc, key, fault)),
    }
}

/// Whether a value is a text in which an expression begins.
#[tactic(auto, unfolding(crate::specs::Checked::is_expression))]
pub(crate) fn is_expression(json: &Value) -> bool
    ensures { result ≡ is_expression (view json.now) }
{
    match json.as_str() {
        Some(text) => has_marker(text),
        None => false,
    }
}

impl<T: FromJson + Drop> FromJson for Sequence<T> {
    ghost use Rattle.flow_reader.specs.Checked.{list_of};

    ghost reading = { list_of T.reading };

    #[tactic(auto, unfolding(crate::specs::Checked::list_of), using(crate::proofs::Faults::stands_bad))]
    fn from_json(alloc: Global, json: &Value) -> Result<Sequence<T>, FlowFault> {
        match json.as_array() {
            Some(items) => read_items(alloc, items.as_slice()),
            None => Err(wrong_shape(alloc)),
        }
    }
}

/// The item that stands at a place.
#[tactic(auto, using(crate::proofs::Faults::stands_memory))]
fn read_item<T: FromJson>(alloc: Global, place: usize, json: &Value) -> Result<T, FlowFault>
    ensures { Gives result (under (decimal place) (T.reading (view json.now))) }
{
    let key = place_text(alloc, place)?;
    within(alloc, key.as_str(), json)
}

/// The items of a list, each at its place.
#[tactic(auto, using(crate::proofs::Faults::stands_memory))]
fn read_items<T: FromJson + Drop>(alloc: Global, items: &[Value]) -> Result<Sequence<T>, FlowFault>
    ensures { Gives result (items_checked T.reading 0 (items_view items.now)) }
{
    let mut read = Sequence::empty(alloc);
    for (place, item) in items.iter().enumerate() {
        read.push(read_item(alloc, place, item)?)?;
    }
    Ok(read)
}

/// A place in decimal digits.
fn place_text(alloc: Global, place: usize) -> Result<String, AllocError>
    ensures { IfOk result (λ text. string_bytes text ≡ decimal place) }
{
    let mut text = String::new(alloc);
    write!(text, "{place}")?;
    Ok(text)
}
