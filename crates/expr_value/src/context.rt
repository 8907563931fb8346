//! The contexts that an expression may name.

ghost use Rattle.std.specs.Prelude.{◌≡◌};
ghost use Rattle.std.specs.Option.{option_copied};
ghost use Rattle.expr_value.specs.Context.{Contexts};
ghost use Rattle.flow_model.specs.Mapping.{value_at};

use flow_model::{Mapping, Value};

/// A finite map of contexts, asked for one context at a time (GitHub Docs, "Contexts reference"). A context that it
/// does not give is an empty map.
pub trait Context {
    /// The contexts by their names in small letters.
    ghost contexts: { Self → Contexts };

    /// The context of that name, if the map gives it. Takes no memory.
    fn root(&self, name: &str) -> Option<&Value>
        ensures { option_copied result ≡ value_at name.now (contexts self.now) };
}

/// A map from names to values is one of contexts.
impl Context for Mapping<Value> {
    ghost contexts = { λ m. m };

    fn root(&self, name: &str) -> Option<&Value> {
        self.get(name)
    }
}
