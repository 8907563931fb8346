//! Templates where they stand.

ghost use Rattle.std.specs.Prelude.{◌≡◌, false};
ghost use Rattle.expr_reader.specs.Template.{names_status as names_status_of};
ghost use Rattle.expr_reader.specs.TemplateView.{template_of};
ghost use Rattle.expr_value.specs.Answer.{Gives};
ghost use Rattle.expr_value.specs.Condition.{condition_holds};
ghost use Rattle.expr_value.specs.Template.{template_value};
ghost use Rattle.expr_value.specs.declared.status.Status.TheVariants.{Success};
ghost use Rattle.plan_values.specs.Known.{IsKnownOf, known_env};
ghost use Rattle.plan_values.specs.Values.{contexts_at, with_env};

use crate::known::Known;
use crate::make::make_named;
use crate::place::TextPlace;
use crate::scene::Scene;
use crate::sight::Sight;
use expr_reader::{Template, names_status};
use expr_value::{
    Status, condition_by_its_contexts, eval_condition, eval_text, template_by_its_contexts,
};
use flow_model::{Value, ValueFault};
use std::alloc::Global;

/// The value of a template at a place.
pub(crate) fn template_at<S: Scene>(
    alloc: Global,
    scene: &S,
    known: &mut Known,
    place: TextPlace,
    template: &Template,
) -> Result<Value, ValueFault>
    requires status { names_status_of (template_of template.now) ≡ false }
    requires known { IsKnownOf (S.values scene.now) known.old }
    ensures value { Gives (λ value. value) result
        (template_value (contexts_at place (with_env (known_env known.old) (S.values scene.now)))
        Success (template_of template.now)) }
    ensures env { known_env known.new ≡ known_env known.old }
    ensures known { IsKnownOf (S.values scene.now) known.new }
{
    make_named(alloc, scene, known, place, template)?;
    template_by_its_contexts();
    let sight = Sight {
        place,
        known: &*known,
    };
    eval_text(alloc, template, &sight)
}

/// Whether a condition that was read holds at a place. For one that is not evaluated nothing is made.
pub(crate) fn condition_read_at<S: Scene>(
    alloc: Global,
    scene: &S,
    known: &mut Known,
    place: TextPlace,
    template: &Template,
    status: Status,
) -> Result<bool, ValueFault>
    requires { IsKnownOf (S.values scene.now) known.old }
    ensures value { Gives (λ holds. holds) result
        (condition_holds (contexts_at place (with_env (known_env known.old) (S.values scene.now)))
        status (template_of template.now)) }
    ensures env { known_env known.new ≡ known_env known.old }
    ensures known { IsKnownOf (S.values scene.now) known.new }
{
    if !names_status(template) && !status.is_success() {
        return Ok(false);
    }
    make_named(alloc, scene, known, place, template)?;
    condition_by_its_contexts();
    let sight = Sight {
        place,
        known: &*known,
    };
    eval_condition(alloc, template, &sight, status)
}
