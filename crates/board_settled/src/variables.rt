//! Laws of the variables that steps set for the steps after them (GitHub Docs, workflow commands: setting an environment
//! variable).

ghost use Rattle.board_settled.specs.Words.{LastToSetWins, NothingSetIsTheJobs};

use crate::call_laws::calls_are_in_order;
use crate::orders::{all_in_order, maps_are_in_order};
use flow_model::{DoneStep, Plan};

/// Of any plan and any steps that are done: the last that set a variable wins over the job and the workflow, and loses to
/// the next step itself.
pub fn last_to_set_wins(plan: &Plan, steps: &[DoneStep])
    ensures { LastToSetWins plan.now steps.now }
{
    maps_are_in_order(plan);
    all_in_order(steps);
    calls_are_in_order();
}

/// Where no step sets anything, a leg sees the variables of its job.
#[tactic(auto, using(crate::proofs::Named::nothing_set))]
pub fn nothing_set_is_the_jobs()
    ensures { NothingSetIsTheJobs }
{}
