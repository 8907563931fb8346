//! How many choices a matrix has.

ghost use Rattle.std.specs.Prelude.{◌≡◌, ◌≤◌, ◌<◌, true, MatchOption};
ghost use Rattle.matrix_expand.specs.Expands as spec;

use flow_model::{Mapping, Sequence, Value};

/// The most choices that are looked at.
const MOST_CHOICES: usize = 65_536;

/// Whether each variable has a value.
pub(crate) fn have_values(variables: &Mapping<Sequence<Value>>) -> bool
    ensures { result ≡ spec.have_values variables.now }
{
    for (_name, values) in variables.iter() {
        if values.is_empty() {
            return false;
        }
    }
    true
}

/// How many choices there are, where they are at most 65,536.
pub(crate) fn size(variables: &Mapping<Sequence<Value>>) -> Option<usize>
    requires { spec.have_values variables.now ≡ true }
    ensures { MatchOption result (65536 < spec.size variables.now)
        (λ size. (size ≡ spec.size variables.now) × (size ≤ 65536)) }
{
    let mut total = 1usize;
    for (_name, values) in variables.iter() {
        match total.checked_mul(values.len()) {
            Some(next) if next <= MOST_CHOICES => total = next,
            _ => return None,
        }
    }
    Some(total)
}
