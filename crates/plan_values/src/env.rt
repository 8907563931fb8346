//! Environments where they stand.

ghost use Rattle.std.specs.Prelude.{◌≡◌};
ghost use Rattle.expr_value.specs.Answer.{Gives};
ghost use Rattle.plan_values.specs.Env.{env_text, env_value, set_over_below};
ghost use Rattle.plan_values.specs.Known.{IsKnownOf, known_env};
ghost use Rattle.plan_values.specs.Values.{contexts_at, with_env};

use crate::known::Known;
use crate::place::TextPlace;
use crate::scene::Scene;
use crate::texts::text_at;
use expr_value::to_text;
use flow_model::{Mapping, Node, Text, Value, ValueFault};
use std::alloc::Global;

// The text of one value: a text is evaluated, any other value is turned to text.
#[tactic(auto, unfolding(crate::specs::Env::env_text))]
fn env_text_at<S: Scene>(
    alloc: Global,
    scene: &S,
    known: &mut Known,
    place: TextPlace,
    value: &Value,
) -> Result<Text, ValueFault>
    requires { IsKnownOf (S.values scene.now) known.old }
    ensures value { Gives (λ text. text) result
        (env_text (contexts_at place (with_env (known_env known.old) (S.values scene.now)))
        value.now) }
    ensures env { known_env known.new ≡ known_env known.old }
    ensures known { IsKnownOf (S.values scene.now) known.new }
{
    match value.node() {
        Node::Text(text) => text_at(alloc, scene, known, place, text.as_str()),
        Node::Null | Node::Truth(_) | Node::Whole(_) | Node::List(_) | Node::Map(_) => {
            Ok(to_text(alloc, value)?)
        },
    }
}

/// The variables of an `env` at a place, each name with the text of its value, set over others.
///
/// # Errors
///
/// The fault of the first name whose text has one, or `Memory`.
#[tactic(auto, using(crate::proofs::Onto::env_onto_below))]
pub fn env_over_at<S: Scene>(
    alloc: Global,
    scene: &S,
    known: &mut Known,
    place: TextPlace,
    env: &Mapping<Value>,
    below: Mapping<Text>,
) -> Result<Mapping<Text>, ValueFault>
    requires { IsKnownOf (S.values scene.now) known.old }
    ensures value { Gives (λ env. env) result (set_over_below
        (env_value (contexts_at place (with_env (known_env known.old) (S.values scene.now)))
        env.now) below) }
    ensures env { known_env known.new ≡ known_env known.old }
    ensures known { IsKnownOf (S.values scene.now) known.new }
{
    let mut made = below;
    for (name, value) in env.iter() {
        let text = env_text_at(alloc, scene, known, place, value)?;
        made.set(alloc, name.as_str(), text)?;
    }
    Ok(made)
}

/// The variables of an `env` at a place: each name with the text of its value, in the order of the names. The
/// inputs of an action, its `with`, are evaluated in the same way.
///
/// # Errors
///
/// The fault of the first name whose text has one, or `Memory`.
#[tactic(auto, using(crate::proofs::Onto::env_over_none))]
pub fn env_at<S: Scene>(
    alloc: Global,
    scene: &S,
    known: &mut Known,
    place: TextPlace,
    env: &Mapping<Value>,
) -> Result<Mapping<Text>, ValueFault>
    requires { IsKnownOf (S.values scene.now) known.old }
    ensures value { Gives (λ env. env) result
        (env_value (contexts_at place (with_env (known_env known.old) (S.values scene.now)))
        env.now) }
    ensures env { known_env known.new ≡ known_env known.old }
    ensures known { IsKnownOf (S.values scene.now) known.new }
{
    let _pairs = env.iter();
    env_over_at(alloc, scene, known, place, env, Mapping::empty(alloc))
}
