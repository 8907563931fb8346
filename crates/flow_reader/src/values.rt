//! Numbers and values.

ghost use Rattle.std.specs.Prelude.{◌≡◌};
ghost use Rattle.serde_json.specs.View.{view, number_view};
ghost use Rattle.flow_model.specs.Json.{whole_of};
ghost use Rattle.flow_model.specs.Value.{view as view_of_node};
ghost use Rattle.flow_reader.specs.Checked.{Gives};
ghost use Rattle.flow_reader.specs.Parts.{limit_at, whole_at};

use crate::fault::FlowFault;
use crate::reading::FromJson;
use crate::refusal::wrong_shape;
use flow_model::{JsonFault, Node, Text, Value, is_within, value_of, whole_of};
use serde_json::Number;
use std::alloc::Global;
use std::marker::Model;

/// How many at once, from 1.
#[tactic(auto, using(crate::proofs::Faults::stands_bad, crate::proofs::Faults::stands_itself, crate::proofs::Faults::stands_memory))]
fn limit_of(alloc: Global, number: &Number) -> Result<u64, FlowFault>
    ensures { Gives result (limit_at (whole_of (number_view number.now))) }
{
    match whole_of(number) {
        Ok(whole) => {
            if whole < 1 {
                Err(wrong_shape(alloc))
            } else {
                Ok(whole as u64)
            }
        },
        Err(JsonFault::NotWhole) => Err(FlowFault::NotWhole),
        Err(JsonFault::Memory) => Err(FlowFault::Memory),
    }
}

impl FromJson for u64 {
    ghost use Rattle.flow_reader.specs.Parts.{limit_of as limit_of_data};

    ghost reading = { limit_of_data };

    #[tactic(auto, using(crate::proofs::Faults::stands_bad))]
    fn from_json(alloc: Global, json: &serde_json::Value) -> Result<u64, FlowFault> {
        match json.as_number() {
            Some(number) => limit_of(alloc, number),
            None => Err(wrong_shape(alloc)),
        }
    }
}

/// A value that is a text, a number, a truth value or null.
#[derive(Drop)]
pub(crate) struct Scalar {
    pub(crate) value: Value,
}

impl Model for Scalar {
    ghost use Rattle.flow_model.specs.Plain.{Plain, coded_plain};

    ghost Value = { Plain };

    ghost coded = { coded_plain };

    ghost view = { λ s. s.value };
}

/// A number as a value.
#[tactic(auto, using(crate::proofs::Faults::stands_itself, crate::proofs::Faults::stands_memory))]
fn scalar_of(number: &Number) -> Result<Scalar, FlowFault>
    ensures { Gives result (whole_at (whole_of (number_view number.now))) }
{
    match whole_of(number) {
        Ok(whole) => Ok(make_scalar(Node::Whole(whole))),
        Err(JsonFault::NotWhole) => Err(FlowFault::NotWhole),
        Err(JsonFault::Memory) => Err(FlowFault::Memory),
    }
}

/// A node as a scalar.
fn make_scalar(node: Node) -> Scalar
    ensures { result ≡ view_of_node node }
{
    let value = Value::new(node);
    Scalar { value }
}

impl FromJson for Scalar {
    ghost use Rattle.flow_reader.specs.Parts.{scalar_of as scalar_of_data};

    ghost reading = { scalar_of_data };

    #[tactic(auto, using(crate::proofs::Faults::stands_bad, crate::proofs::Faults::stands_memory))]
    fn from_json(alloc: Global, json: &serde_json::Value) -> Result<Scalar, FlowFault> {
        if let Some(text) = json.as_str() {
            let text = Text::from_str(alloc, text)?;
            return Ok(make_scalar(Node::Text(text)));
        }
        if let Some(number) = json.as_number() {
            return scalar_of(number);
        }
        if let Some(truth) = json.as_bool() {
            return Ok(make_scalar(Node::Truth(truth)));
        }
        if json.is_null() {
            Ok(make_scalar(Node::Null))
        } else {
            Err(wrong_shape(alloc))
        }
    }
}

/// A value of whole numbers in range, nested at most 100 deep.
impl FromJson for Value {
    ghost use Rattle.flow_reader.specs.Parts.{plain_of};

    ghost reading = { plain_of };

    #[tactic(auto, unfolding(crate::specs::Parts::plain_of), using(crate::proofs::Faults::stands_bad, crate::proofs::Faults::stands_itself, crate::proofs::Faults::stands_memory))]
    fn from_json(alloc: Global, json: &serde_json::Value) -> Result<Value, FlowFault> {
        match value_of(alloc, json) {
            Ok(value) => {
                if is_within(value.node(), 100) {
                    Ok(value)
                } else {
                    Err(wrong_shape(alloc))
                }
            },
            Err(JsonFault::NotWhole) => Err(FlowFault::NotWhole),
            Err(JsonFault::Memory) => Err(FlowFault::Memory),
        }
    }
}
