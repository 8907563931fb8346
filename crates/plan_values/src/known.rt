//! What is known of a scene while the texts of one event are evaluated.

ghost use Rattle.std.specs.Prelude.{◌≡◌, [], OnOk, OnErr};
ghost use Rattle.std.specs.Option.{option_copied};
ghost use Rattle.plan_values.specs.Env.{laid_over};
ghost use Rattle.plan_values.specs.Known.{IsKnownOf, known_env, value_made as value_made_of, with_value};
ghost use Rattle.plan_values.specs.Values.{Values, is_env as is_env_of};

use crate::levels::{lay_all_over, lay_over};
use expr_reader::Context;
use flow_model::{Mapping, Text, Value};
use std::alloc::{AllocError, Global};
use std::mem;

/// The variables that texts see as `env`, and the values of the contexts that were made of one scene.
#[derive(Drop)]
pub struct Known {
    // The variables.
    env: Mapping<Text>,
    // The variables as the context `env`, once a text has named it.
    env_value: Option<Value>,
    // The values of the other contexts that were made, by the contexts' names.
    made: Mapping<Value>,
}

impl Known {
    /// No variables, and nothing that was made. It takes no memory.
    #[tactic(auto, using(crate::proofs::Making::nothing_known))]
    pub fn empty(alloc: Global) -> Known
        ensures env { known_env result ≡ [] }
        ensures known { (values : Values) → IsKnownOf values result }
    {
        Known {
            env: Mapping::empty(alloc),
            env_value: None,
            made: Mapping::empty(alloc),
        }
    }

    /// The variables that texts see as `env`.
    pub fn env(&self) -> &Mapping<Text>
        ensures { result.now ≡ known_env self.now }
    {
        &self.env
    }

    /// Other variables from now on; what was made of the scene stays.
    #[tactic(auto, using(crate::proofs::Making::other_known))]
    pub fn set_env(&mut self, env: Mapping<Text>)
        ensures env { known_env self.new ≡ env }
        ensures known { (values : Values)
            → IsKnownOf values self.old → IsKnownOf values self.new }
    {
        self.env = env;
        self.env_value = None;
    }

    /// A level laid over the variables from now on; where memory runs out, there are none.
    #[tactic(auto, using(crate::proofs::Making::other_known, crate::proofs::LaidOver::none_over))]
    pub fn lay_env(&mut self, alloc: Global, above: &Mapping<Text>) -> Result<(), AllocError>
        ensures ok { OnOk result (known_env self.new ≡ laid_over above.now (known_env self.old)) }
        ensures err { OnErr result (known_env self.new ≡ []) }
        ensures known { (values : Values)
            → IsKnownOf values self.old → IsKnownOf values self.new }
    {
        if above.is_empty() {
            return Ok(());
        }
        let below = mem::replace(&mut self.env, Mapping::empty(alloc));
        self.env_value = None;
        self.env = lay_over(alloc, below, above)?;
        Ok(())
    }

    /// A level laid over the variables from now on, which is not needed any more and is not copied; where memory runs out,
    /// there are none.
    #[tactic(auto, using(crate::proofs::Making::other_known))]
    pub fn lay_own_env(&mut self, alloc: Global, above: Mapping<Text>) -> Result<(), AllocError>
        ensures ok { OnOk result (known_env self.new ≡ laid_over above (known_env self.old)) }
        ensures err { OnErr result (known_env self.new ≡ []) }
        ensures known { (values : Values)
            → IsKnownOf values self.old → IsKnownOf values self.new }
    {
        let below = mem::replace(&mut self.env, Mapping::empty(alloc));
        self.env_value = None;
        self.env = lay_all_over(below, above)?;
        Ok(())
    }

    /// Gives the variables away; from now on there are none.
    #[tactic(auto, using(crate::proofs::Making::other_known))]
    pub fn take_env(&mut self, alloc: Global) -> Mapping<Text>
        ensures env { result ≡ known_env self.old }
        ensures none { known_env self.new ≡ [] }
        ensures known { (values : Values)
            → IsKnownOf values self.old → IsKnownOf values self.new }
    {
        self.env_value = None;
        mem::replace(&mut self.env, Mapping::empty(alloc))
    }

    /// The value of a context, where it was made.
    #[tactic(auto, unfolding(crate::specs::Known::value_made))]
    pub(crate) fn value_made(&self, context: Context) -> Option<&Value>
        ensures { option_copied result ≡ value_made_of self.now context }
    {
        if is_env(context) {
            return self.env_value.as_ref();
        }
        self.made.get(context.name())
    }

    /// Keeps the value of a context; where memory runs out, nothing is changed.
    pub(crate) fn keep(
        &mut self,
        alloc: Global,
        context: Context,
        value: Value,
    ) -> Result<(), AllocError>
        ensures ok { OnOk result (self.new ≡ with_value context value self.old) }
        ensures err { OnErr result (self.new ≡ self.old) }
    {
        if is_env(context) {
            self.env_value = Some(value);
            return Ok(());
        }
        self.made.set(alloc, context.name(), value)
    }
}

// Whether the context is `env`.
pub(crate) fn is_env(context: Context) -> bool
    ensures { result ≡ is_env_of context }
{
    Context::Env.name().cmp(context.name()).is_eq()
}
