//! Who is told of steps while they are played.

ghost use Rattle.std.specs.Prelude.{◌≡◌, IfOk, true};
ghost use Rattle.flow_model.specs.Answer.{is_well_formed};
ghost use Rattle.step_host.specs.Watch.{given};

use flow_commands::OutputFault;
use flow_model::{Answer, StepCall};
use std::io::ErrorKind;

/// Why no program was started for a call.
#[derive(Clone, Copy)]
pub enum Unstarted {
    /// No program is named for its action.
    NoStub,
    /// A file for it cannot be written in the work folder.
    NoFile,
    /// The folder in which it would start is not there.
    NoFolder,
    /// The program cannot be started, for this reason.
    NoProgram(ErrorKind),
}

/// Why the answer to a call is bad output.
#[derive(Clone, Copy)]
pub enum Refusal {
    /// The end of the program could not be waited for, for this reason.
    NoEnd(ErrorKind),
    /// What it printed could not be kept.
    NoLog(ErrorKind),
    /// The file of its outputs could not be read.
    NoOutputs(ErrorKind),
    /// The file of the variables that it sets could not be read.
    NoVariables(ErrorKind),
    /// The file of its outputs is not spelled as one.
    Outputs(OutputFault),
    /// The file of the variables that it sets is not spelled as one.
    Variables(OutputFault),
    /// The value of an output or of a variable is too long, once it is masked.
    Masked,
}

/// Who is told of steps while they are played. What is told has no part in what is answered, and may be told by several
/// threads at once.
pub trait Watch {
    /// What is kept of the moment at which a call was made.
    type Moment: Drop;

    /// A call is made.
    fn called(&self) -> Self::Moment;

    /// A program was started for a call.
    fn started(&self, call: &StepCall);

    /// None was, and why.
    fn unstarted(&self, call: &StepCall, why: Unstarted);

    /// The answer to a call is bad output, and why.
    fn refused(&self, call: &StepCall, why: Refusal);

    /// A call that was made at that moment has its answer.
    fn ended(&self, call: &StepCall, answer: &Answer, moment: Self::Moment);
}

/// The answer to a call. Where it is bad output for a reason, somebody is told why.
pub(crate) fn answered<W: Watch>(
    call: &StepCall,
    finished: Result<Answer, Refusal>,
    watch: &W,
) -> Answer
    ensures answer { result ≡ given finished }
    ensures well_formed { IfOk finished (λ a. is_well_formed a ≡ true) → is_well_formed result ≡ true }
{
    match finished {
        Ok(answer) => answer,
        Err(why) => {
            watch.refused(call, why);
            Answer::BadOutput
        },
    }
}

/// Nobody is told.
#[derive(Clone, Copy)]
pub(crate) struct Nobody;

impl Watch for Nobody {
    type Moment = ();

    fn called(&self) {}

    fn started(&self, _call: &StepCall) {}

    fn unstarted(&self, _call: &StepCall, _why: Unstarted) {}

    fn refused(&self, _call: &StepCall, _why: Refusal) {}

    fn ended(&self, _call: &StepCall, _answer: &Answer, _moment: ()) {}
}
