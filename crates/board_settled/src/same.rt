//! Whether two steps that are done are the same.

ghost use Rattle.std.specs.Prelude.{◌≡◌, ◌↔◌, IsTrue};

use flow_model::{DoneStep, is_same_mapping};

/// Whether two steps that are done are the same.
fn is_same_step(one: &DoneStep, other: &DoneStep) -> bool
    ensures { IsTrue result ↔ (one.now ≡ other.now) }
{
    one.outcome == other.outcome
        && one.conclusion == other.conclusion
        && is_same_mapping(&one.outputs, &other.outputs)
        && is_same_mapping(&one.env, &other.env)
}

/// Whether two lists of steps that are done are the same.
pub(crate) fn are_same_steps(steps: &[DoneStep], others: &[DoneStep]) -> bool
    ensures { IsTrue result ↔ (steps.now ≡ others.now) }
{
    let mut rest = others;
    for step in steps {
        let Some((other, more)) = rest.split_first() else {
            return false;
        };
        if !is_same_step(step, other) {
            return false;
        }
        rest = more;
    }
    rest.is_empty()
}
