//! Levels of names laid over one another.

ghost use Rattle.std.specs.Prelude.{◌≡◌, IfOk};
ghost use Rattle.plan_values.specs.Env.{laid_over};

use flow_model::{Duplicate, Mapping, Text};
use std::alloc::{AllocError, Global};

/// The pairs of one level over those below it: of two values of one
/// name the upper level's stands. Memory apart, it has no error.
#[tactic(auto, unfolding(crate::specs::Env::laid_over))]
pub fn lay_over<V: Duplicate + Drop>(
    alloc: Global,
    below: Mapping<V>,
    above: &Mapping<V>,
) -> Result<Mapping<V>, AllocError>
    ensures { IfOk result (λ made. made ≡ laid_over above.now below) }
{
    let mut made = below;
    for (name, value) in above.iter() {
        made.set(alloc, name.as_str(), value.copy(alloc)?)?;
    }
    Ok(made)
}

/// The pairs of one level over those below it, as `lay_over`, without a copy.
#[tactic(auto, unfolding(crate::specs::Env::laid_over), using(crate::proofs::LaidOver::over_empty))]
pub(crate) fn lay_all_over<V: Drop>(
    below: Mapping<V>,
    above: Mapping<V>,
) -> Result<Mapping<V>, AllocError>
    ensures { IfOk result (λ made. made ≡ laid_over above below) }
{
    if below.is_empty() {
        let _pairs = above.iter();
        return Ok(above);
    }
    let mut made = below;
    for (name, value) in above.into_map() {
        made.insert(Text::new(name), value)?;
    }
    Ok(made)
}
