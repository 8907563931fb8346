//! The plan that files come to: what is read of them, and what it is planned to.

ghost use Rattle.std.specs.Prelude.{◌≡◌, IfOk, None};
ghost use Rattle.flow_model.specs.Rules.{roots_rules};
ghost use Rattle.plan_assembler.specs.Refusals.{Plans};
ghost use Rattle.command_print.specs.Planning as spec;
ghost use Rattle.command_print.specs.Planning.{Finds};

use command_io::error::CommandError;
use command_io::files::Content;
use flow_model::{CheckedPlan, Flow, Roots, Sequence, Text};
use flow_reader::{FlowFault, read_flow, read_roots};
use plan_assembler::{Choice, PlanFault, Planner};
use std::alloc::Global;

/// The error of a fault in the file of that name.
fn flow_error(alloc: Global, file: &str, fault: FlowFault) -> CommandError
    ensures { spec.TellsFault file.now fault result }
{
    if matches!(fault, FlowFault::Memory) {
        return CommandError::Memory;
    }
    match Text::from_str(alloc, file) {
        Ok(name) => CommandError::NoFlow(name, fault),
        Err(_) => CommandError::Memory,
    }
}

/// The contexts that a file gives.
fn roots_of(alloc: Global, file: &Content) -> Result<Roots, CommandError>
    ensures gives { Finds (spec.GivesRoots file.now) (spec.GivesNoRoots file.now) result }
    ensures rules { IfOk result (λ roots. roots_rules roots ≡ None) }
{
    match read_roots(alloc, file.bytes()) {
        Ok(roots) => Ok(roots),
        Err(fault) => Err(flow_error(alloc, file.name(), fault)),
    }
}

/// The workflow that a file stands for.
fn flow_of(alloc: Global, file: &Content) -> Result<Flow, CommandError>
    ensures { Finds (spec.GivesFlow file.now) (spec.GivesNoFlow file.now) result }
{
    match read_flow(alloc, file.name(), file.bytes()) {
        Ok(flow) => Ok(flow),
        Err(fault) => Err(flow_error(alloc, file.name(), fault)),
    }
}

/// The workflows that files stand for.
fn flows_of(alloc: Global, files: &[Content]) -> Result<Sequence<Flow>, CommandError>
    ensures { Finds (spec.GiveFlows files.now) (spec.GiveNoFlows files.now) result }
{
    let mut flows = Vec::new(alloc);
    for file in files {
        let flow = flow_of(alloc, file)?;
        if flows.push(flow).is_err() {
            return Err(CommandError::Memory);
        }
    }
    Ok(Sequence::new(flows))
}

/// The plan that a choice comes to.
fn chosen(planner: &Planner, choice: &Choice) -> Result<CheckedPlan, PlanFault>
    ensures { Plans planner.now.flows planner.now.roots choice.now result }
{
    match choice {
        Choice::Event(name) => planner.plan_event(name.as_str()),
        Choice::Job(id) => planner.plan_job(id.as_str()),
        Choice::All => planner.plan_all(),
    }
}

/// The error of a fault of planning.
fn plan_error(fault: PlanFault) -> CommandError
    ensures { result ≡ spec.plan_error fault }
{
    match fault {
        PlanFault::Memory => CommandError::Memory,
        PlanFault::UnknownNeed
        | PlanFault::Cycle
        | PlanFault::UnknownJob
        | PlanFault::NoWorkflow
        | PlanFault::TooMany
        | PlanFault::Expr(_, _)
        | PlanFault::Matrix(_, _) => CommandError::NotPlanned(fault),
    }
}

/// The plan that a choice of workflows comes to.
fn planned(
    alloc: Global,
    choice: &Choice,
    roots: Roots,
    flows: Sequence<Flow>,
) -> Result<CheckedPlan, CommandError>
    requires { roots_rules roots ≡ None }
    ensures { Finds (spec.IsPlanned flows roots choice.now)
        (spec.IsUnplanned flows roots choice.now) result }
{
    let planner = Planner::new(alloc, flows, roots);
    match chosen(&planner, choice) {
        Ok(plan) => Ok(plan),
        Err(fault) => Err(plan_error(fault)),
    }
}

/// The plan that the workflows' files come to, with the contexts of a file.
pub(crate) fn plan_of(
    alloc: Global,
    choice: &Choice,
    contexts: &Content,
    files: &[Content],
) -> Result<CheckedPlan, CommandError>
    ensures { Finds (spec.ComesTo choice.now contexts.now files.now)
        (spec.ComesToNone choice.now contexts.now files.now) result }
{
    let roots = roots_of(alloc, contexts)?;
    let flows = flows_of(alloc, files)?;
    planned(alloc, choice, roots, flows)
}
