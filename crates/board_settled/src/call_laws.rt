//! Laws of the call that a step makes, each a clause of a function that does nothing.

ghost use Rattle.board_settled.specs.Words.{CallsAreInOrder, CallsAreMostSpecific};

use plan_values::{env_has_its_names, levels_stay_in_order};

/// A call names each variable once, in the byte order of the names, and each input
/// likewise; and of the workflow's and the job's variables, what done steps set, and the
/// step's own it has the most specific. The maps of the plan and of the done steps are in
/// order, as each `Mapping` is.
pub fn calls_are_in_order()
    ensures order { CallsAreInOrder }
    ensures levels { CallsAreMostSpecific }
{
    env_has_its_names();
    levels_stay_in_order();
}
