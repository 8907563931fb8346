//! What stands for itself: it is not evaluated, so that it has no fault wherever it stands.

ghost use Rattle.std.specs.Prelude.{◌≡◌, true};
ghost use Rattle.expr_reader.specs.Accepts.{stands_for_itself as stands_for_itself_of};
ghost use Rattle.expr_value.specs.Context.{Contexts};
ghost use Rattle.plan_values.specs.Env.{env_value};
ghost use Rattle.plan_values.specs.Own as spec;
ghost use Rattle.plan_values.specs.Own.{HasNoFault};
ghost use Rattle.plan_values.specs.Texts.{text_text};

use expr_reader::{itself_reading, stands_for_itself};
use flow_model::{Mapping, Node, Value};

/// Whether a value of an `env` is taken as it is: it is no text, or one that stands for itself.
fn is_own_value(value: &Value) -> bool
    ensures { result ≡ spec.is_own_value value.now }
{
    match value.node() {
        Node::Text(text) => stands_for_itself(text.as_str()),
        Node::Null | Node::Truth(_) | Node::Whole(_) | Node::List(_) | Node::Map(_) => true,
    }
}

/// Whether all values of an `env` are taken as they are.
fn has_own_values(env: &Mapping<Value>) -> bool
    ensures { result ≡ spec.has_own_values env.now }
{
    for (_name, value) in env.iter() {
        if !is_own_value(value) {
            return false;
        }
    }
    true
}

/// Whether a text stands for itself, and so has no fault.
#[tactic(auto, using(crate::proofs::OwnTexts::text_is_own))]
pub fn is_own_text(text: &str) -> bool
    ensures { (c : Contexts) → result ≡ true → HasNoFault (text_text c text.now) }
{
    itself_reading();
    stands_for_itself(text)
}

/// Whether nothing of an `env` is evaluated, so that it has no fault.
#[tactic(auto, using(crate::proofs::OwnTexts::env_is_own))]
pub fn is_own_env(env: &Mapping<Value>) -> bool
    ensures { (c : Contexts) → result ≡ true → HasNoFault (env_value c env.now) }
{
    itself_reading();
    has_own_values(env)
}
