//! The steps that failed.

ghost use Rattle.std.specs.Prelude.{◌≡◌};
ghost use Rattle.board_decisions.specs.Derived as derived;
ghost use Rattle.status_table.specs.Groups.{first_place};

use board_decisions::derived::is_failure;
use flow_model::DoneStep;

/// The place of the first step that counts as a failure.
pub fn first_failure(steps: &[DoneStep]) -> Option<u64>
    ensures { result ≡ first_place 0 (λ step. derived.is_failure step.conclusion) steps.now }
{
    for (place, step) in steps.iter().enumerate() {
        if is_failure(step.conclusion) {
            return Some(place as u64);
        }
    }
    None
}
