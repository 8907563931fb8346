//! What is told of steps as they are played: a line for each that starts and ends.

ghost use Rattle.std.specs.Prelude.{◌≡◌, ◌++◌, IfOk, OnOk, codes, string_bytes};
ghost use Rattle.flow_commands.specs.Mask.{masked};
ghost use Rattle.command_run.specs.Progress as spec;

use crate::step_names::{NamedStep, StepNames};
use flow_commands::{Masks, mask};
use flow_model::{Answer, StepCall};
use std::alloc::{AllocError, Global};
use std::fmt::Write as _;
use std::io::{ErrorKind, Write};
use std::sync::atomic::{AtomicU64, Ordering};
use std::time::{Duration, Instant};
use step_host::{Refusal, Unstarted, Watch};

/// Who tells on standard error of the steps of a plan, where somebody asks for it. A line is one write, so that those of
/// several workers do not mix; one that cannot be written is left out.
#[derive(Drop)]
pub struct Progress {
    runtime: HostRuntime,
    alloc: Global,
    names: Option<StepNames>,
    masks: Masks,
    // how many steps have been played
    done: AtomicU64,
}

/// Adds the place of a step: its leg, the leg's job, its number from 0, and how many steps the leg has.
fn add_place(
    text: &mut String,
    leg: u64,
    job: &str,
    number: u64,
    count: usize,
) -> Result<(), AllocError>
    ensures { OnOk result (string_bytes text.new
        ≡ string_bytes text.old ++ spec.place leg job.now number count) }
{
    write!(text, "leg {leg} ({job}) step {number} of {count}")
}

/// Why no program was started.
fn add_reason(text: &mut String, why: Unstarted) -> Result<(), AllocError> {
    match why {
        Unstarted::NoStub => text.push_str("no program is named for its action"),
        Unstarted::NoFile => text.push_str("a file for it cannot be written"),
        Unstarted::NoFolder => text.push_str("its folder is not there"),
        Unstarted::NoProgram(kind) => add_kind(text, kind),
    }
}

/// Why a program cannot be started.
fn add_kind(text: &mut String, kind: ErrorKind) -> Result<(), AllocError> {
    write!(text, "its program cannot be started: {kind}")
}

/// Why an answer is bad output.
fn add_refusal(text: &mut String, why: Refusal) -> Result<(), AllocError> {
    match why {
        Refusal::NoEnd(kind) => write!(text, "its end cannot be waited for: {kind}"),
        Refusal::NoLog(kind) => write!(text, "what it printed cannot be kept: {kind}"),
        Refusal::NoOutputs(kind) => write!(text, "its file of outputs cannot be read: {kind}"),
        Refusal::NoVariables(kind) => write!(text, "its file of variables cannot be read: {kind}"),
        Refusal::Outputs(fault) => write!(text, "its file of outputs is refused: {fault}"),
        Refusal::Variables(fault) => write!(text, "its file of variables is refused: {fault}"),
        Refusal::Masked => text.push_str("one of its values exceeds 65,536 bytes once masked"),
    }
}

/// What was not started, and why.
fn add_unstarted(text: &mut String, name: &str, why: Unstarted) -> Result<(), AllocError> {
    write!(text, " not started: {name} (")?;
    add_reason(text, why)?;
    text.push_str(")")
}

/// Adds how long something took, in tenths of a second.
fn add_time(text: &mut String, time: Duration) -> Result<(), AllocError> {
    let (seconds, tenths) = (time.as_secs(), time.subsec_millis() / 100);
    write!(text, " in {seconds}.{tenths} s")
}

/// A line of a text, masked.
fn masked_line(alloc: Global, text: &str, masks: &Masks) -> Result<String, AllocError>
    ensures { IfOk result (λ line. string_bytes line ≡ masked masks.now text.now ++ codes "\n") }
{
    let text = mask(alloc, text, masks)?;
    let mut line = String::from_str(alloc, text.as_str())?;
    line.push_str("\n")?;
    Ok(line)
}

impl Progress {
    /// Who tells on the standard error of this program how the steps of those names are played, if there are any, with these
    /// masks.
    pub(crate) fn new(
        alloc: Global,
        runtime: HostRuntime,
        names: Option<StepNames>,
        masks: Masks,
    ) -> Progress {
        Progress {
            runtime,
            alloc,
            names,
            masks,
            done: AtomicU64::new(0),
        }
    }

    /// Writes a text as a line, masked.
    fn tell(&self, text: &str) {
        if let Ok(line) = masked_line(self.alloc, text, &self.masks) {
            drop(self.runtime.stderr().write_all(line.as_bytes()));
        }
    }

    /// Tells a text, if there was memory for it.
    fn tell_made(&self, made: Result<String, AllocError>) {
        if let Ok(text) = made {
            self.tell(text.as_str());
        }
    }

    /// The text of a line of a step, as far as its place.
    fn placed(&self, call: &StepCall, step: NamedStep<'_>) -> Result<String, AllocError> {
        let mut text = String::new(self.alloc);
        add_place(&mut text, call.leg, step.job, call.step, step.count)?;
        Ok(text)
    }

    /// Adds how many of all steps have been played, with this one.
    fn add_count(&self, text: &mut String, total: u64) -> Result<(), AllocError> {
        let done = self.done.fetch_add(1, Ordering::SeqCst).saturating_add(1);
        write!(text, ", {done} of {total} steps")
    }

    /// The line of a step that is started.
    fn started_text(&self, call: &StepCall, step: NamedStep<'_>) -> Result<String, AllocError> {
        let mut text = self.placed(call, step)?;
        text.push_str(" started: ")?;
        text.push_str(step.name)?;
        Ok(text)
    }

    /// The line of a step that is not.
    fn unstarted_text(
        &self,
        call: &StepCall,
        step: NamedStep<'_>,
        why: Unstarted,
    ) -> Result<String, AllocError> {
        let mut text = self.placed(call, step)?;
        add_unstarted(&mut text, step.name, why)?;
        self.add_count(&mut text, step.total)?;
        Ok(text)
    }

    /// The line of a step whose answer is bad output.
    fn refused_text(
        &self,
        call: &StepCall,
        step: NamedStep<'_>,
        why: Refusal,
    ) -> Result<String, AllocError> {
        let mut text = self.placed(call, step)?;
        text.push_str(" refused: ")?;
        add_refusal(&mut text, why)?;
        Ok(text)
    }

    /// Adds how a step ended.
    fn add_end(
        &self,
        text: &mut String,
        answer: &Answer,
        moment: Option<Instant>,
    ) -> Result<(), AllocError> {
        match answer {
            Answer::Exit { code, .. } => write!(text, " exit {code}")?,
            Answer::BadOutput => text.push_str(" bad output")?,
            Answer::NotStarted => text.push_str(" not started")?,
        }
        match self.since(moment) {
            Some(time) => add_time(text, time),
            None => Ok(()),
        }
    }

    /// How long ago a moment was, if there is a clock.
    fn since(&self, moment: Option<Instant>) -> Option<Duration> {
        moment?.elapsed(&self.runtime).ok()
    }

    /// The line of a step that has ended.
    fn ended_text(
        &self,
        call: &StepCall,
        step: NamedStep<'_>,
        answer: &Answer,
        moment: Option<Instant>,
    ) -> Result<String, AllocError> {
        let mut text = self.placed(call, step)?;
        self.add_end(&mut text, answer, moment)?;
        self.add_count(&mut text, step.total)?;
        Ok(text)
    }

    /// The step of a call, where somebody is to be told of it.
    fn asked(&self, call: &StepCall) -> Option<NamedStep<'_>> {
        self.names.as_ref()?.step(call.leg, call.step)
    }
}

impl Watch for Progress {
    type Moment = Option<Instant>;

    fn called(&self) -> Option<Instant> {
        self.names.as_ref()?;
        Instant::now(&self.runtime).ok()
    }

    fn started(&self, call: &StepCall) {
        if let Some(step) = self.asked(call) {
            self.tell_made(self.started_text(call, step));
        }
    }

    fn unstarted(&self, call: &StepCall, why: Unstarted) {
        if let Some(step) = self.asked(call) {
            self.tell_made(self.unstarted_text(call, step, why));
        }
    }

    fn refused(&self, call: &StepCall, why: Refusal) {
        if let Some(step) = self.asked(call) {
            self.tell_made(self.refused_text(call, step, why));
        }
    }

    fn ended(&self, call: &StepCall, answer: &Answer, moment: Option<Instant>) {
        if matches!(answer, Answer::NotStarted) {
            return;
        }
        if let Some(step) = self.asked(call) {
            self.tell_made(self.ended_text(call, step, answer, moment));
        }
    }
}
