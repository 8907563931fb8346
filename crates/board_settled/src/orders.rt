//! The maps of a plan name each key once, in the byte order of the keys.

ghost use Rattle.std.specs.Prelude.{ℕ};
ghost use Rattle.board_settled.specs.Words.{Board, CallInOrder, Each, IfCalled, PlanInOrder, WorkInOrder, row};
ghost use Rattle.flow_model.specs.declared.event.Event.TheVariants as event;

use crate::call_laws::calls_are_in_order;
use flow_model::{DoneStep, JobPlan, Plan, RunPlan, Sequence, StepPlan, Work};

/// The inputs of an action do.
fn work_in_order(work: &Work)
    ensures { WorkInOrder work.now }
{
    match work {
        Work::Run { .. } => {},
        Work::Uses { given, .. } => {
            given.iter();
        },
    }
}

/// What names each key of its maps once, in the byte order of the keys.
pub(crate) trait InOrder {
    ghost in_order: { Self → Type 0 };

    /// It goes over the maps once.
    fn look(&self)
        ensures { in_order self.now };
}

/// Each of some items does.
pub(crate) fn all_in_order<T: InOrder>(items: &[T])
    ensures { Each T.in_order items.now }
{
    for item in items {
        item.look();
    }
}

/// Each item of a sequence does.
fn each_in_order<T: InOrder>(items: &Sequence<T>)
    ensures { Each T.in_order items.now }
{
    all_in_order(items.as_slice());
}

impl InOrder for StepPlan {
    ghost use Rattle.board_settled.specs.Words.{StepInOrder};

    ghost in_order = { StepInOrder };

    fn look(&self) {
        self.env.iter();
        work_in_order(&self.work);
    }
}

impl InOrder for JobPlan {
    ghost use Rattle.board_settled.specs.Words.{JobInOrder};

    ghost in_order = { JobInOrder };

    fn look(&self) {
        self.env.iter();
        each_in_order(&self.steps);
    }
}

impl InOrder for RunPlan {
    ghost use Rattle.board_settled.specs.Words.{RunInOrder};

    ghost in_order = { RunInOrder };

    fn look(&self) {
        self.env.iter();
        each_in_order(&self.jobs);
    }
}

impl InOrder for DoneStep {
    ghost use Rattle.board_settled.specs.Words.{Ascends};

    ghost in_order = { λ done. Ascends done.env };

    fn look(&self) {
        self.env.iter();
    }
}

/// The variables of workflows, jobs and steps and the inputs of actions do, in every plan. It goes over the plan once.
pub fn maps_are_in_order(plan: &Plan)
    ensures { PlanInOrder plan.now }
{
    each_in_order(&plan.runs);
}

/// So each call that a legal Begin makes, of any plan, names each variable once, in the byte order of the names, and each input
/// likewise.
pub fn calls_of(plan: &Plan)
    ensures { (b : Board) (worker l : ℕ) → IfCalled CallInOrder (row plan.now b worker (event.Begin l)) }
{
    maps_are_in_order(plan);
    calls_are_in_order();
}
