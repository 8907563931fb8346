//! `actrun plan`: the plan that workflows come to.

ghost use Rattle.std.specs.Prelude.{IfOk, map, string_bytes};
ghost use Rattle.command_io.specs.Files.{file_seen};
ghost use Rattle.command_print.specs.Plan as spec;
ghost use Rattle.command_print.specs.Plan.{OnePlanText, PlanTells};

use crate::planning::plan_of;
use command_io::error::CommandError;
use command_io::files::{Content, NamedSource, read_first};
use command_io::stream::{Sink, Source};
use command_io::tell::{refuse_source, tell};
use flow_model::CheckedPlan;
use plan_assembler::Choice;
use plan_assembler::laws::one_plan;
use plan_text::print_plan;
use std::alloc::{AllocError, Global};

/// The line of a plan: the compact text of its document, and a newline.
fn line_of(alloc: Global, plan: &CheckedPlan) -> Result<String, AllocError>
    ensures { IfOk result (λ line. spec.IsPlanLine plan.now (string_bytes line)) }
{
    let mut line = print_plan(alloc, plan)?;
    line.push_str("\n")?;
    Ok(line)
}

/// The line of the plan that files come to.
fn answer(
    alloc: Global,
    choice: &Choice,
    contexts: &Content,
    flows: &[Content],
) -> Result<String, CommandError>
    ensures { spec.GivesPlan choice.now contexts.now flows.now result }
{
    let plan = plan_of(alloc, choice, contexts, flows)?;
    Ok(line_of(alloc, &plan)?)
}

/// What `plan` is asked for beside the files of the workflows: a choice of these, and the file of contexts.
#[derive(Drop)]
pub struct AskedPlan<R> {
    pub choice: Choice,
    pub contexts: NamedSource<R>,
}

/// Reads the file of contexts and those of the workflows to their ends, and writes the plan that a choice of the workflows
/// comes to, as the compact text of its document and a newline, to `out`; or writes why there is none to `err`, in one
/// line. The path of a workflow is the name of its file. The answer is the exit status.
pub fn plan<R: Source, S: Source, O: Sink, E: Sink>(
    alloc: Global,
    asked: &mut AskedPlan<R>,
    flows: &mut [NamedSource<S>],
    out: &mut O,
    err: &mut E,
) -> u8
    ensures { PlanTells asked.old.choice
        (file_seen R.seen asked.old.contexts) (file_seen R.seen asked.new.contexts)
        (map (file_seen S.seen) flows.old) (map (file_seen S.seen) flows.new)
        (O.seen out.old) (O.seen out.new) (E.seen err.old) (E.seen err.new) result }
{
    match read_first(alloc, &mut asked.contexts, flows) {
        Ok((contexts, flows)) => {
            tell(
                answer(alloc, &asked.choice, &contexts, flows.as_slice()),
                out,
                err,
            )
        },
        Err(fault) => refuse_source(err, fault),
    }
}

/// Equal files result in one text at most.
pub fn one_plan_text()
    ensures { OnePlanText }
{
    one_plan();
}
