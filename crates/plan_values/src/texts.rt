//! Texts and conditions where they stand.

ghost use Rattle.std.specs.Prelude.{◌≡◌, IfOk, IfSome, List, Ok, Option, true};
ghost use Rattle.expr_reader.specs.Accepts.{stands_for_itself as stands_for_itself_of};
ghost use Rattle.expr_reader.specs.Faults.{fault_at};
ghost use Rattle.expr_reader.specs.Template.{Piece};
ghost use Rattle.expr_value.specs.Answer.{Gives};
ghost use Rattle.expr_value.specs.Context.{Contexts};
ghost use Rattle.expr_value.specs.declared.status.Status.{Status as StatusOf};
ghost use Rattle.flow_model.specs.Plain.{text as plain_text};
ghost use Rattle.plan_values.specs.Known.{IsKnownOf, known_env};
ghost use Rattle.plan_values.specs.Texts.{condition_value, read_holds, read_value, text_text, text_value};
ghost use Rattle.plan_values.specs.Values.{contexts_at, with_env};

use crate::evaluate::{condition_read_at, template_at};
use crate::known::Known;
use crate::place::TextPlace;
use crate::scene::Scene;
use expr_reader::{ExprFault, itself_reading, read_condition, read_template, stands_for_itself};
use expr_value::{Status, to_text};
use flow_model::{Node, Text, Value, ValueFault};
use std::alloc::{AllocError, Global};

// A text as a value.
fn value_of(alloc: Global, text: &str) -> Result<Value, AllocError>
    ensures { IfOk result (λ value. value ≡ plain_text text.now) }
{
    Ok(Value::new(Node::Text(Text::from_str(alloc, text)?)))
}

// The value of a text that stands for itself.
#[tactic(auto, using(crate::proofs::OwnTexts::own_value))]
fn own_value(alloc: Global, text: &str) -> Result<Value, AllocError>
    requires { stands_for_itself_of text.now ≡ true }
    ensures { (c : Contexts) → IfOk result (λ value. text_value c text.now ≡ Ok value) }
{
    itself_reading();
    value_of(alloc, text)
}

// The text of a text that stands for itself.
#[tactic(auto, using(crate::proofs::OwnTexts::own_text))]
fn own_text(alloc: Global, text: &str) -> Result<Text, AllocError>
    requires { stands_for_itself_of text.now ≡ true }
    ensures { (c : Contexts) → IfOk result (λ own. text_text c text.now ≡ Ok own) }
{
    itself_reading();
    Text::from_str(alloc, text)
}

// The value of what is no template.
fn unread_value(alloc: Global, fault: ExprFault) -> Result<Value, ValueFault>
    ensures { (c : Contexts) (pieces : Option (List Piece))
        → IfSome (fault_at fault) (λ x. pieces ≡ None)
        → Gives (λ value. value) result (read_value c pieces) }
{
    if fault.is_memory() {
        return Err(ValueFault::Memory);
    }
    Ok(value_of(alloc, "")?)
}

// Whether what is no condition holds.
fn unread_holds(fault: ExprFault) -> Result<bool, ValueFault>
    ensures { (c : Contexts) (s : StatusOf) (pieces : Option (List Piece))
        → IfSome (fault_at fault) (λ x. pieces ≡ None)
        → Gives (λ holds. holds) result (read_holds c s pieces) }
{
    if fault.is_memory() {
        return Err(ValueFault::Memory);
    }
    Ok(false)
}

// The value of a text at a place, by its template.
#[tactic(auto, unfolding(crate::specs::Texts::text_value))]
fn evaluated_at<S: Scene>(
    alloc: Global,
    scene: &S,
    known: &mut Known,
    place: TextPlace,
    text: &str,
) -> Result<Value, ValueFault>
    requires { IsKnownOf (S.values scene.now) known.old }
    ensures value { Gives (λ value. value) result
        (text_value (contexts_at place (with_env (known_env known.old) (S.values scene.now)))
        text.now) }
    ensures env { known_env known.new ≡ known_env known.old }
    ensures known { IsKnownOf (S.values scene.now) known.new }
{
    match read_template(alloc, text) {
        Ok(template) => template_at(alloc, scene, known, place, &template),
        Err(fault) => unread_value(alloc, fault),
    }
}

/// The value of a text at a place.
pub(crate) fn value_at<S: Scene>(
    alloc: Global,
    scene: &S,
    known: &mut Known,
    place: TextPlace,
    text: &str,
) -> Result<Value, ValueFault>
    requires { IsKnownOf (S.values scene.now) known.old }
    ensures value { Gives (λ value. value) result
        (text_value (contexts_at place (with_env (known_env known.old) (S.values scene.now)))
        text.now) }
    ensures env { known_env known.new ≡ known_env known.old }
    ensures known { IsKnownOf (S.values scene.now) known.new }
{
    if stands_for_itself(text) {
        return Ok(own_value(alloc, text)?);
    }
    evaluated_at(alloc, scene, known, place, text)
}

/// The value of a text at a place, turned to text: `run`, a working directory, a group's name.
///
/// # Errors
///
/// The first fault of its expressions, from the left (`eval_text`), or `Memory`.
#[tactic(auto, unfolding(crate::specs::Texts::text_text))]
pub fn text_at<S: Scene>(
    alloc: Global,
    scene: &S,
    known: &mut Known,
    place: TextPlace,
    text: &str,
) -> Result<Text, ValueFault>
    requires { IsKnownOf (S.values scene.now) known.old }
    ensures value { Gives (λ text. text) result
        (text_text (contexts_at place (with_env (known_env known.old) (S.values scene.now)))
        text.now) }
    ensures env { known_env known.new ≡ known_env known.old }
    ensures known { IsKnownOf (S.values scene.now) known.new }
{
    if stands_for_itself(text) {
        return Ok(own_text(alloc, text)?);
    }
    let value = evaluated_at(alloc, scene, known, place, text)?;
    Ok(to_text(alloc, &value)?)
}

/// Whether a condition holds at a place under a status; no
/// condition is `success()` (GitHub Docs, workflow syntax: `if`).
///
/// # Errors
///
/// The first fault of its expressions, from the left (`eval_condition`), or `Memory`.
#[tactic(auto, unfolding(crate::specs::Texts::condition_value))]
pub fn condition_at<S: Scene>(
    alloc: Global,
    scene: &S,
    known: &mut Known,
    place: TextPlace,
    condition: &Option<Text>,
    status: Status,
) -> Result<bool, ValueFault>
    requires { IsKnownOf (S.values scene.now) known.old }
    ensures value { Gives (λ holds. holds) result
        (condition_value (contexts_at place (with_env (known_env known.old) (S.values scene.now)))
        status condition.now) }
    ensures env { known_env known.new ≡ known_env known.old }
    ensures known { IsKnownOf (S.values scene.now) known.new }
{
    match condition {
        Some(text) => match read_condition(alloc, text.as_str()) {
            Ok(template) => condition_read_at(alloc, scene, known, place, &template, status),
            Err(fault) => unread_holds(fault),
        },
        None => Ok(status.is_success()),
    }
}
