//! Flags where they stand.

ghost use Rattle.std.specs.Prelude.{◌≡◌, IfOk};
ghost use Rattle.plan_values.specs.Known.{IsKnownOf, known_env};
ghost use Rattle.plan_values.specs.Texts.{answers_true, flag_value, says_true as says_true_of};
ghost use Rattle.plan_values.specs.Texts.{text_value};
ghost use Rattle.plan_values.specs.Values.{contexts_at, with_env};

use crate::known::Known;
use crate::place::TextPlace;
use crate::scene::Scene;
use crate::texts::value_at;
use expr_reader::same_text;
use flow_model::{Flag, Node, Value, ValueFault, faulted};
use std::alloc::{AllocError, Global};

// Whether a value is `true`, or a text equal to `true` ignoring case.
fn says_true(value: &Value) -> bool
    ensures { result ≡ says_true_of value.now }
{
    match value.node() {
        Node::Truth(truth) => *truth,
        Node::Text(text) => same_text(text.as_str(), "true"),
        Node::Null | Node::Whole(_) | Node::List(_) | Node::Map(_) => false,
    }
}

// Whether a text says true at a place.
fn text_says_true<S: Scene>(
    alloc: Global,
    scene: &S,
    known: &mut Known,
    place: TextPlace,
    text: &str,
) -> Result<bool, AllocError>
    requires { IsKnownOf (S.values scene.now) known.old }
    ensures value { IfOk result (λ holds. holds ≡ answers_true (text_value
        (contexts_at place (with_env (known_env known.old) (S.values scene.now))) text.now)) }
    ensures env { known_env known.new ≡ known_env known.old }
    ensures known { IsKnownOf (S.values scene.now) known.new }
{
    match value_at(alloc, scene, known, place, text) {
        Ok(value) => Ok(says_true(&value)),
        Err(ValueFault::Memory) => Err(AllocError),
        Err(faulted!()) => Ok(false),
    }
}

/// Whether a flag holds at a place: a truth value is itself; a text holds where its value is `true`, or a
/// text equal to `true` ignoring case, and does not where it faults (GitHub Docs, workflow syntax:
/// `continue-on-error`, `cancel-in-progress`).
///
/// # Errors
///
/// No memory was left.
#[tactic(auto, unfolding(crate::specs::Texts::flag_value))]
pub fn flag_at<S: Scene>(
    alloc: Global,
    scene: &S,
    known: &mut Known,
    place: TextPlace,
    flag: &Flag,
) -> Result<bool, AllocError>
    requires { IsKnownOf (S.values scene.now) known.old }
    ensures value { IfOk result (λ holds. holds ≡ flag_value
        (contexts_at place (with_env (known_env known.old) (S.values scene.now))) flag.now) }
    ensures env { known_env known.new ≡ known_env known.old }
    ensures known { IsKnownOf (S.values scene.now) known.new }
{
    match flag {
        Flag::Truth(truth) => Ok(*truth),
        Flag::Text(text) => text_says_true(alloc, scene, known, place, text.as_str()),
    }
}
