//! The choice that words make of workflows.

ghost use Rattle.std.specs.Prelude.{option_copied};
ghost use Rattle.plan_assembler.specs.declared.choice.Choice.TheVariants.{Event, Job};
ghost use Rattle.command_words.specs.Choosing as spec;

use command_io::error::CommandError;
use flow_model::Text;
use plan_assembler::Choice;
use std::alloc::Global;

/// The choice that the words make of workflows: those of an event, those with a job, or all, and not both of the first.
pub(crate) fn choice_of(
    alloc: Global,
    event: Option<&str>,
    job: Option<&str>,
) -> Result<Choice, CommandError>
    ensures { spec.Chooses (option_copied event.entry) (option_copied job.entry) result }
{
    match (event, job) {
        (Some(_), Some(_)) => Err(CommandError::Words),
        (Some(event), None) => event_of(alloc, event),
        (None, Some(job)) => job_of(alloc, job),
        (None, None) => Ok(Choice::All),
    }
}

/// The choice of the workflows of an event.
fn event_of(alloc: Global, event: &str) -> Result<Choice, CommandError>
    ensures { spec.FindsIt (Event event.now) result }
{
    Ok(Choice::Event(text_of(alloc, event)?))
}

/// The choice of the workflows with a job.
fn job_of(alloc: Global, job: &str) -> Result<Choice, CommandError>
    ensures { spec.FindsIt (Job job.now) result }
{
    Ok(Choice::Job(text_of(alloc, job)?))
}

/// A word as a text.
pub(crate) fn text_of(alloc: Global, word: &str) -> Result<Text, CommandError>
    ensures { spec.FindsIt word.now result }
{
    Ok(Text::from_str(alloc, word)?)
}
