//! Maps: environments, inputs, outputs and contexts.

use crate::fault::FlowFault;
use crate::members::{ReadsMember, read_map};
use crate::parts::{Part, read_or};
use crate::reading::{FromJson, within};
use crate::refusal::bad_id;
use crate::values::Scalar;
use flow_model::{Mapping, Text, Value, is_id, is_variable_name};
use std::alloc::Global;
use std::marker::Model;

/// The variables of an environment.
struct Variables;

impl ReadsMember<Value> for Variables {
    ghost use Rattle.flow_reader.specs.Parts.{counts_each, variable_at};

    ghost counted = { counts_each };

    ghost member = { variable_at };

    fn counts(_: &str) -> bool {
        true
    }

    #[tactic(auto, unfolding(crate::specs::Parts::variable_at), using(crate::proofs::Faults::stands_bad))]
    fn read_member(alloc: Global, key: &str, json: &serde_json::Value) -> Result<Value, FlowFault> {
        if !is_variable_name(key) {
            return Err(bad_id(alloc, key));
        }
        let scalar: Scalar = within(alloc, key, json)?;
        Ok(scalar.value)
    }
}

/// An environment.
#[derive(Drop)]
pub(crate) struct Env {
    pub(crate) pairs: Mapping<Value>,
}

impl Model for Env {
    ghost use Rattle.std.specs.Prelude.{List, ℕ};
    ghost use Rattle.std.specs.Coded.{codes};
    ghost use Rattle.flow_model.specs.Plain.{Plain, coded_plain};

    ghost Value = { List (List ℕ × Plain) };

    ghost coded = { Prim.hlevel (codes, coded_plain) };

    ghost view = { λ e. e.pairs };
}

impl FromJson for Env {
    ghost use Rattle.flow_reader.specs.Parts.{env_of};

    ghost reading = { env_of };

    #[tactic(auto, unfolding(crate::specs::Parts::env_of))]
    fn from_json(alloc: Global, json: &serde_json::Value) -> Result<Env, FlowFault> {
        let pairs = read_map::<Value, Variables>(alloc, json)?;
        Ok(Env { pairs })
    }
}

/// An empty environment where it is missing.
impl Part for Env {
    ghost use Rattle.std.specs.Prelude.{[]};
    ghost use Rattle.flow_reader.specs.Checked.{defaulted};
    ghost use Rattle.flow_reader.specs.Parts.{env_of};

    ghost part = { defaulted [] env_of };

    fn read_at(alloc: Global, object: &serde_json::Value, key: &str) -> Result<Env, FlowFault> {
        let pairs = Mapping::empty(alloc);
        read_or(alloc, object, key, Env { pairs })
    }
}

/// The inputs of an action, whose names are free.
struct InputValues;

impl ReadsMember<Value> for InputValues {
    ghost use Rattle.flow_reader.specs.Parts.{counts_each, input_at};

    ghost counted = { counts_each };

    ghost member = { input_at };

    fn counts(_: &str) -> bool {
        true
    }

    fn read_member(alloc: Global, key: &str, json: &serde_json::Value) -> Result<Value, FlowFault> {
        let scalar: Scalar = within(alloc, key, json)?;
        Ok(scalar.value)
    }
}

/// The inputs of an action.
#[derive(Drop)]
pub(crate) struct Inputs {
    pub(crate) pairs: Mapping<Value>,
}

impl Model for Inputs {
    ghost use Rattle.std.specs.Prelude.{List, ℕ};
    ghost use Rattle.std.specs.Coded.{codes};
    ghost use Rattle.flow_model.specs.Plain.{Plain, coded_plain};

    ghost Value = { List (List ℕ × Plain) };

    ghost coded = { Prim.hlevel (codes, coded_plain) };

    ghost view = { λ i. i.pairs };
}

impl FromJson for Inputs {
    ghost use Rattle.flow_reader.specs.Parts.{inputs_of};

    ghost reading = { inputs_of };

    #[tactic(auto, unfolding(crate::specs::Parts::inputs_of))]
    fn from_json(alloc: Global, json: &serde_json::Value) -> Result<Inputs, FlowFault> {
        let pairs = read_map::<Value, InputValues>(alloc, json)?;
        Ok(Inputs { pairs })
    }
}

/// The outputs of a job, which are named like ids.
struct OutputTexts;

impl ReadsMember<Text> for OutputTexts {
    ghost use Rattle.flow_reader.specs.Parts.{counts_each, output_at};

    ghost counted = { counts_each };

    ghost member = { output_at };

    fn counts(_: &str) -> bool {
        true
    }

    #[tactic(auto, unfolding(crate::specs::Parts::output_at), using(crate::proofs::Faults::stands_bad))]
    fn read_member(alloc: Global, key: &str, json: &serde_json::Value) -> Result<Text, FlowFault> {
        if is_id(key) {
            within(alloc, key, json)
        } else {
            Err(bad_id(alloc, key))
        }
    }
}

/// The outputs of a job.
#[derive(Drop)]
pub(crate) struct Outputs {
    pub(crate) pairs: Mapping<Text>,
}

impl Model for Outputs {
    ghost use Rattle.std.specs.Prelude.{List, ℕ};

    ghost Value = { List (List ℕ × List ℕ) };

    ghost view = { λ o. o.pairs };
}

impl FromJson for Outputs {
    ghost use Rattle.flow_reader.specs.Parts.{outputs_of};

    ghost reading = { outputs_of };

    #[tactic(auto, unfolding(crate::specs::Parts::outputs_of))]
    fn from_json(alloc: Global, json: &serde_json::Value) -> Result<Outputs, FlowFault> {
        let pairs = read_map::<Text, OutputTexts>(alloc, json)?;
        Ok(Outputs { pairs })
    }
}

/// No outputs where they are missing.
impl Part for Outputs {
    ghost use Rattle.std.specs.Prelude.{[]};
    ghost use Rattle.flow_reader.specs.Checked.{defaulted};
    ghost use Rattle.flow_reader.specs.Parts.{outputs_of};

    ghost part = { defaulted [] outputs_of };

    fn read_at(alloc: Global, object: &serde_json::Value, key: &str) -> Result<Outputs, FlowFault> {
        let pairs = Mapping::empty(alloc);
        read_or(alloc, object, key, Outputs { pairs })
    }
}

/// Properties, whose names are free.
struct Properties;

impl ReadsMember<Value> for Properties {
    ghost use Rattle.flow_reader.specs.Parts.{counts_each, property_at};

    ghost counted = { counts_each };

    ghost member = { property_at };

    fn counts(_: &str) -> bool {
        true
    }

    fn read_member(alloc: Global, key: &str, json: &serde_json::Value) -> Result<Value, FlowFault> {
        within(alloc, key, json)
    }
}

/// A map of values: a context, or an entry of a matrix.
impl FromJson for Mapping<Value> {
    ghost use Rattle.flow_reader.specs.Parts.{properties_of};

    ghost reading = { properties_of };

    #[tactic(auto, unfolding(crate::specs::Parts::properties_of))]
    fn from_json(alloc: Global, json: &serde_json::Value) -> Result<Mapping<Value>, FlowFault> {
        read_map::<Value, Properties>(alloc, json)
    }
}

/// An empty map where it is missing.
impl Part for Mapping<Value> {
    ghost use Rattle.std.specs.Prelude.{[]};
    ghost use Rattle.flow_reader.specs.Checked.{defaulted};
    ghost use Rattle.flow_reader.specs.Parts.{properties_of};

    ghost part = { defaulted [] properties_of };

    fn read_at(
        alloc: Global,
        object: &serde_json::Value,
        key: &str,
    ) -> Result<Mapping<Value>, FlowFault> {
        let empty = Mapping::empty(alloc);
        read_or(alloc, object, key, empty)
    }
}
