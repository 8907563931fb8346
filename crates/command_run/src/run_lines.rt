//! The lines that tell how runs ended.

ghost use Rattle.std.specs.Prelude.{◌≡◌, ◌++◌, OnOk, string_bytes};
ghost use Rattle.command_run.specs.RunLines as spec;

use flow_model::{Run, RunState};
use std::alloc::AllocError;
use std::fmt::Write;

/// How a run ended, or that nothing goes on.
fn state_word(state: RunState) -> &'static str
    ensures { result.now ≡ spec.state_word state }
{
    match state {
        RunState::New => "stalled",
        RunState::Waiting => "stalled",
        RunState::Going => "stalled",
        RunState::Closed(outcome) => outcome.word(),
    }
}

/// Adds the line of a run.
fn add_run_line(text: &mut String, number: usize, state: RunState) -> Result<(), AllocError>
    ensures { OnOk result
        (string_bytes text.new ≡ string_bytes text.old ++ spec.run_line number state) }
{
    let word = state_word(state);
    write!(text, "run {number} {word}\n")
}

/// Adds the lines of all runs.
pub(crate) fn add_run_lines(text: &mut String, runs: &[Run]) -> Result<(), AllocError>
    ensures { OnOk result
        (string_bytes text.new ≡ string_bytes text.old ++ spec.run_lines 0 runs.now) }
{
    for (number, run) in runs.iter().enumerate() {
        add_run_line(text, number, run.state)?;
    }
    Ok(())
}
