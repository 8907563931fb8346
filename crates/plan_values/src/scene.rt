//! Where texts are evaluated.

ghost use Rattle.std.specs.Prelude.{◌≡◌, IfOk};
ghost use Rattle.plan_values.specs.Values.{Values};

use expr_reader::Context;
use flow_model::Value;
use std::alloc::{AllocError, Global};

/// What texts see: it has a value for each context, and makes it when it is asked.
pub trait Scene {
    /// The value of each context.
    ghost values: { Self → Values };

    /// The value of a context. It is never asked for `env`, which is the variables that `Known` has.
    fn value(&self, alloc: Global, context: Context) -> Result<Value, AllocError>
        ensures { IfOk result (λ made. made ≡ values self.now context) };
}
