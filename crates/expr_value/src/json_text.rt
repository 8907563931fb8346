//! The functions `toJSON` and `fromJSON`.

ghost use Rattle.std.specs.Prelude.{◌≡◌, IfOk, string_bytes};
ghost use Rattle.serde_json.specs.Read.{read};
ghost use Rattle.serde_json.specs.View.{view as json_view};
ghost use Rattle.expr_value.specs.Answer.{Gives};
ghost use Rattle.expr_value.specs.Functions.{pretty_text, to_json as to_json_of, value_read, whole_value};
ghost use Rattle.expr_value.specs.Seen.{item_seen};
ghost use Rattle.flow_model.specs.Json.{json_of, value_of as value_of_data};
ghost use Rattle.flow_model.specs.Value.{view};

use crate::bounded::limited;
use crate::item::Item;
use flow_model::{JsonFault, Node, ValueFault, into_value, json_of_node};
use serde_json::Value;
use std::alloc::{AllocError, Global};

// The text of a value's JSON, on lines.
#[tactic(auto, using(crate::proofs::JsonTexts::pretty_exact))]
fn pretty(alloc: Global, item: &Item<'_>) -> Result<String, AllocError>
    ensures { IfOk result
        (λ text. string_bytes text ≡ pretty_text (json_of (item_seen item.now))) }
{
    let json = json_of_node(alloc, item.node())?;
    json.to_string_pretty(alloc)
}

/// The text of a value's JSON, on lines, each two spaces deeper for each bracket.
pub(crate) fn to_json(alloc: Global, item: &Item<'_>) -> Result<Node, ValueFault>
    ensures { Gives view result (to_json_of (item_seen item.now)) }
{
    limited(pretty(alloc, item)?)
}

// The value of a JSON value, which is taken apart.
fn value_of_json(alloc: Global, json: Value) -> Result<Node, ValueFault>
    ensures { Gives view result (whole_value (value_of_data (json_view json))) }
{
    match into_value(alloc, json) {
        Ok(value) => Ok(value.into_node()),
        Err(JsonFault::NotWhole) => Err(ValueFault::NotWhole),
        Err(JsonFault::Memory) => Err(ValueFault::Memory),
    }
}

/// The value of a text of JSON.
pub(crate) fn from_json(alloc: Global, text: &str) -> Result<Node, ValueFault>
    ensures { Gives view result (value_read (read text.now)) }
{
    match Value::from_str(alloc, text) {
        Ok(json) => value_of_json(alloc, json),
        Err(error) => {
            if error.is_memory() {
                Err(ValueFault::Memory)
            } else {
                Err(ValueFault::BadJson)
            }
        },
    }
}
