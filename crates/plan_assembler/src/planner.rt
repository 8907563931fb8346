//! The planner: workflows with the contexts that their runs are handed.

ghost use Rattle.std.specs.Prelude.{◌≡◌, IfOk, None, length};
ghost use Rattle.std.specs.List.{AllByRecursion};
ghost use Rattle.flow_model.specs.Flow.{IsWorkflow};
ghost use Rattle.flow_model.specs.Rules.{roots_rules};
ghost use Rattle.plan_assembler.specs.Events.{AreEvents};
ghost use Rattle.plan_assembler.specs.Layout as layout;
ghost use Rattle.plan_assembler.specs.Refusals.{ChecksRuns, Plans, none_taken as none_taken_of};
ghost use Rattle.plan_assembler.specs.declared.choice.Choice.TheVariants.{All, Event, Job};

use crate::choice::Choice;
use crate::events::events_of;
use crate::fault::PlanFault;
use crate::runs::{is_taken, runs_of};
use flow_model::{Broken, CheckedPlan, Flow, Plan, Roots, RunPlan, Sequence, Text};
use std::alloc::{AllocError, Global};
use std::marker::Model;

/// Workflows, in the order in which they were handed in, with the contexts that their runs are handed, which keep the
/// rules of a plan.
#[derive(Drop)]
pub struct Planner {
    alloc: Global,
    flows: Sequence<Flow>,
    roots: Roots,
}

impl Model for Planner {
    ghost use Rattle.std.specs.Coded.{codes};
    ghost use Rattle.std.specs.Prelude.{◌≡◌, None};
    ghost use Rattle.flow_model.specs.Plain.{coded_plain};
    ghost use Rattle.flow_model.specs.Rules.{roots_rules};
    ghost use Rattle.plan_assembler.specs.Planning.{Planning};

    ghost Value = { Planning };

    ghost coded = { Prim.hlevel (codes, coded_plain) };

    ghost view = { λ p. record { flows = p.flows; roots = p.roots } };

    ghost invariant = { λ p. roots_rules p.roots ≡ None };
}

/// How many workflows a choice takes, each of which keeps the rules.
fn count_taken(choice: &Choice, flows: &Sequence<Flow>) -> usize
    ensures count { result ≡ length (layout.taken choice.now flows.now) }
    ensures rules { AllByRecursion IsWorkflow (layout.taken choice.now flows.now) }
{
    let from = flows.as_slice();
    let mut count = 0;
    for flow in from {
        let workflow = flow.workflow();
        if is_taken(choice, workflow) {
            count += 1;
        }
    }
    count
}

/// The fault where a choice takes no workflow.
fn none_taken(choice: &Choice) -> PlanFault
    ensures { result ≡ none_taken_of choice.now }
{
    match choice {
        Choice::Event(_) => PlanFault::NoWorkflow,
        Choice::Job(_) => PlanFault::UnknownJob,
        Choice::All => PlanFault::NoWorkflow,
    }
}

/// A plan whose rules all hold.
fn checked(alloc: Global, runs: Sequence<RunPlan>) -> Result<CheckedPlan, PlanFault>
    ensures { ChecksRuns runs result }
{
    let plan = Plan { runs };
    match plan.check(alloc) {
        Ok(plan) => Ok(plan),
        Err(Broken::Rule(_)) => Err(PlanFault::TooMany),
        Err(Broken::Memory) => Err(PlanFault::Memory),
    }
}

impl Planner {
    /// A planner for these workflows.
    pub fn new(alloc: Global, flows: Sequence<Flow>, roots: Roots) -> Planner
        requires { roots_rules roots ≡ None }
        ensures flows { result.flows ≡ flows }
        ensures roots { result.roots ≡ roots }
    {
        Planner {
            alloc,
            flows,
            roots,
        }
    }

    /// The plan that a choice comes to.
    #[tactic(auto, using(crate::proofs::Answering::memory_answered))]
    fn plan(&self, choice: &Choice) -> Result<CheckedPlan, PlanFault>
        ensures { Plans self.now.flows self.now.roots choice.now result }
    {
        let count = count_taken(choice, &self.flows);
        if count == 0 {
            return Err(none_taken(choice));
        }
        if 64 < count {
            return Err(PlanFault::TooMany);
        }
        match runs_of(self.alloc, choice, &self.flows, &self.roots) {
            Ok(runs) => checked(self.alloc, runs),
            Err(fault) => Err(fault),
        }
    }

    /// One run for each workflow that names this event.
    ///
    /// # Errors
    ///
    /// `NoWorkflow` where none does, or the first test that fails (specs/Refusals).
    #[tactic(auto, using(crate::proofs::Answering::memory_answered))]
    pub fn plan_event(&self, name: &str) -> Result<CheckedPlan, PlanFault>
        ensures { Plans self.now.flows self.now.roots (Event name.now) result }
    {
        let name = Text::from_str(self.alloc, name)?;
        self.plan(&Choice::Event(name))
    }

    /// One run for each workflow that has this job, with that job and all that it needs, directly or not.
    ///
    /// # Errors
    ///
    /// `UnknownJob` where none has it, or the first test that fails (specs/Refusals).
    #[tactic(auto, using(crate::proofs::Answering::memory_answered))]
    pub fn plan_job(&self, id: &str) -> Result<CheckedPlan, PlanFault>
        ensures { Plans self.now.flows self.now.roots (Job id.now) result }
    {
        let id = Text::from_str(self.alloc, id)?;
        self.plan(&Choice::Job(id))
    }

    /// One run for each workflow.
    ///
    /// # Errors
    ///
    /// `NoWorkflow` where there is none, or the first test that fails (specs/Refusals).
    pub fn plan_all(&self) -> Result<CheckedPlan, PlanFault>
        ensures { Plans self.now.flows self.now.roots All result }
    {
        self.plan(&Choice::All)
    }

    /// The names of the events that some workflow names, each once, in byte order.
    pub fn events(&self) -> Result<Sequence<Text>, AllocError>
        ensures { IfOk result (AreEvents self.now.flows) }
    {
        events_of(self.alloc, &self.flows)
    }
}
