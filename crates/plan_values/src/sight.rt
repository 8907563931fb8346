//! The contexts that a place sees.

ghost use Rattle.std.specs.Prelude.{◌≡◌, if◌then◌else◌};
ghost use Rattle.std.specs.Cmp.Lexicographic.{slice_cmp};
ghost use Rattle.std.specs.Option.{option_copied};
ghost use Rattle.std.specs.Ordering.{is_eq, nat_cmp};
ghost use Rattle.expr_reader.specs.Names.{context_name};
ghost use Rattle.flow_model.specs.Mapping.{value_at};
ghost use Rattle.plan_values.specs.Known.{contexts_by, value_made};

use crate::known::Known;
use crate::place::TextPlace;
use expr_reader::Context;
use expr_value::Context as Contexts;
use flow_model::Value;

/// What a place sees of what was made.
#[derive(Drop)]
pub(crate) struct Sight<'a> {
    pub(crate) place: TextPlace,
    pub(crate) known: &'a Known,
}

// The value of a context that was made, if it has that name.
fn value_named<'a>(known: &'a Known, context: Context, name: &str) -> Option<&'a Value>
    ensures { option_copied result ≡ (if is_eq (slice_cmp nat_cmp name.now (context_name context))
        then value_made known.now context else None) }
{
    if name.cmp(context.name()).is_eq() {
        return known.value_made(context);
    }
    None
}

// The value under that name of one of some contexts that were made.
fn value_among<'a>(known: &'a Known, contexts: &[Context], name: &str) -> Option<&'a Value>
    ensures { option_copied result
        ≡ value_at name.now (contexts_by (value_made known.now) contexts.now) }
{
    for context in contexts {
        let value = value_named(known, *context, name);
        if value.is_some() {
            return value;
        }
    }
    None
}

impl<'a> Contexts for Sight<'a> {
    ghost use Rattle.plan_values.specs.Sight.{sight_contexts};

    ghost contexts = { sight_contexts };

    #[tactic(auto, unfolding(crate::specs::Known::contexts_made))]
    fn root(&self, name: &str) -> Option<&Value> {
        value_among(self.known, self.place.contexts(), name)
    }
}
