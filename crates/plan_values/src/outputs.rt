//! The outputs of a job.

ghost use Rattle.std.specs.Prelude.{◌≡◌, IfOk, OnOk};
ghost use Rattle.plan_values.specs.Known.{IsKnownOf, known_env};
ghost use Rattle.plan_values.specs.Outputs.{outputs_value, with_output_set};
ghost use Rattle.plan_values.specs.Texts.{text_text};
ghost use Rattle.plan_values.specs.Values.{contexts_at, with_env};

use crate::known::Known;
use crate::place::TextPlace;
use crate::scene::Scene;
use crate::texts::text_at;
use flow_model::{Mapping, Text, ValueFault, faulted};
use std::alloc::{AllocError, Global};

// Sets one output among others; one that faults is left out.
fn set_output<S: Scene>(
    alloc: Global,
    scene: &S,
    known: &mut Known,
    place: TextPlace,
    name: &str,
    text: &Text,
    made: &mut Mapping<Text>,
) -> Result<(), AllocError>
    requires { IsKnownOf (S.values scene.now) known.old }
    ensures value { OnOk result (made.new ≡ with_output_set name.now (text_text
        (contexts_at place (with_env (known_env known.old) (S.values scene.now)))
        text.now) made.old) }
    ensures env { known_env known.new ≡ known_env known.old }
    ensures known { IsKnownOf (S.values scene.now) known.new }
{
    match text_at(alloc, scene, known, place, text.as_str()) {
        Ok(value) => made.set(alloc, name, value),
        Err(ValueFault::Memory) => Err(AllocError),
        Err(faulted!()) => Ok(()),
    }
}

/// The outputs of a job at a place: each name with the value of its text turned to text, in the order of the
/// names; one that faults is left out.
///
/// # Errors
///
/// No memory was left.
#[tactic(auto, using(crate::proofs::Onto::outputs_onto_none))]
pub fn outputs_at<S: Scene>(
    alloc: Global,
    scene: &S,
    known: &mut Known,
    place: TextPlace,
    outputs: &Mapping<Text>,
) -> Result<Mapping<Text>, AllocError>
    requires { IsKnownOf (S.values scene.now) known.old }
    ensures value { IfOk result (λ made. made ≡ outputs_value
        (contexts_at place (with_env (known_env known.old) (S.values scene.now))) outputs.now) }
    ensures env { known_env known.new ≡ known_env known.old }
    ensures known { IsKnownOf (S.values scene.now) known.new }
{
    let mut made = Mapping::empty(alloc);
    for (name, text) in outputs.iter() {
        set_output(alloc, scene, known, place, name.as_str(), text, &mut made)?;
    }
    Ok(made)
}
