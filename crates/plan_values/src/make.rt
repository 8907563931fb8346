//! The values of contexts, made where a text names them.

ghost use Rattle.std.specs.Prelude.{◌≡◌, IfOk, OnOk, OnErr};
ghost use Rattle.expr_reader.specs.TemplateView.{template_of};
ghost use Rattle.expr_value.specs.Named.{pieces_name_context};
ghost use Rattle.flow_model.specs.Plain.{text as plain_text};
ghost use Rattle.flow_model.specs.Value.{view};
ghost use Rattle.plan_values.specs.Known.{IsKnownOf, known_env, made_all, made_named, made_one};
ghost use Rattle.plan_values.specs.Places.{seen_at};
ghost use Rattle.plan_values.specs.Values.{with_env, env_context};

use crate::known::{Known, is_env};
use crate::place::TextPlace;
use crate::scene::Scene;
use expr_reader::{Context, Template};
use expr_value::template_names_context;
use flow_model::{Duplicate, Mapping, Node, Text, Value};
use std::alloc::{AllocError, Global};

// A text as a node.
fn text_node(alloc: Global, text: &Text) -> Result<Node, AllocError>
    ensures { IfOk result (λ node. view node ≡ plain_text text.now) }
{
    Ok(Node::Text(text.copy(alloc)?))
}

/// Variables as the context `env`: a map from their names to their texts.
pub fn env_value(alloc: Global, env: &Mapping<Text>) -> Result<Value, AllocError>
    ensures { IfOk result (λ value. value ≡ env_context env.now) }
{
    let mut members = Mapping::empty(alloc);
    for (name, text) in env.iter() {
        members.set(alloc, name.as_str(), text_node(alloc, text)?)?;
    }
    Ok(Value::new(Node::Map(members.into_map())))
}

// The value of a context.
fn context_value<S: Scene>(
    alloc: Global,
    scene: &S,
    known: &Known,
    context: Context,
) -> Result<Value, AllocError>
    ensures { IfOk result
        (λ value. value ≡ with_env (known_env known.now) (S.values scene.now) context) }
{
    if is_env(context) {
        return env_value(alloc, known.env());
    }
    scene.value(alloc, context)
}

// Makes the value of a context, unless it was made.
#[tactic(auto, unfolding(crate::specs::Known::made_one))]
fn make_one<S: Scene>(
    alloc: Global,
    scene: &S,
    known: &mut Known,
    context: Context,
) -> Result<(), AllocError>
    ensures ok { let values = with_env (known_env known.old) (S.values scene.now) in
        OnOk result (known.new ≡ made_one values context known.old) }
    ensures err { OnErr result (known.new ≡ known.old) }
{
    if known.value_made(context).is_some() {
        return Ok(());
    }
    let value = context_value(alloc, scene, known, context)?;
    known.keep(alloc, context, value)
}

// Makes the value of a context where the template names it, unless it was made.
#[tactic(auto, using(crate::proofs::Making::one_known, crate::proofs::Making::one_env))]
fn make_if_named<S: Scene>(
    alloc: Global,
    scene: &S,
    known: &mut Known,
    template: &Template,
    context: Context,
) -> Result<(), AllocError>
    requires { IsKnownOf (S.values scene.now) known.old }
    ensures ok { OnOk result
        (known.new ≡ made_named (λ x. pieces_name_context x (template_of template.now))
        (with_env (known_env known.old) (S.values scene.now)) context known.old) }
    ensures env { known_env known.new ≡ known_env known.old }
    ensures known { IsKnownOf (S.values scene.now) known.new }
{
    if template_names_context(template, context) {
        make_one(alloc, scene, known, context)?;
    }
    Ok(())
}

/// Makes the values of the contexts that the place sees and the template names, unless they were made.
pub(crate) fn make_named<S: Scene>(
    alloc: Global,
    scene: &S,
    known: &mut Known,
    place: TextPlace,
    template: &Template,
) -> Result<(), AllocError>
    requires { IsKnownOf (S.values scene.now) known.old }
    ensures ok { OnOk result
        (known.new ≡ made_all (λ x. pieces_name_context x (template_of template.now))
        (with_env (known_env known.old) (S.values scene.now)) (seen_at place) known.old) }
    ensures env { known_env known.new ≡ known_env known.old }
    ensures known { IsKnownOf (S.values scene.now) known.new }
{
    let contexts = place.contexts();
    for context in contexts {
        make_if_named(alloc, scene, known, template, *context)?;
    }
    Ok(())
}
