//! The places of a plan's texts.

ghost use Rattle.std.specs.Prelude.{◌≡◌};
ghost use Rattle.plan_values.specs.Places.{seen_at};

use expr_reader::Context;

/// Where in a plan a text stands, which decides what contexts it
/// sees (GitHub Docs, "Contexts reference": context availability).
#[derive(Clone, Copy)]
pub enum TextPlace {
    /// The name and the cancel flag of a workflow's group.
    WorkflowGroup,
    /// A job's condition.
    JobCondition,
    /// The name and the cancel flag of a job's group, and a job's continue-on-error.
    JobGroup,
    /// A workflow's `env`.
    WorkflowEnv,
    /// A job's `env`.
    JobEnv,
    /// A step's `env`, and a job's outputs, which see `env` of the workflow and the job, and what done steps set over it.
    StepEnv,
    /// A step's condition, which sees the step's own `env` too.
    StepCondition,
    /// A step's `run`, `with` and working directory, and its
    /// continue-on-error, which see the step's own `env` too.
    StepText,
}

impl TextPlace {
    /// The contexts that the place sees; the others are empty maps there.
    pub fn contexts(self) -> &'static [Context]
        ensures { result.now ≡ seen_at self }
    {
        use Context::{Env, Github, Inputs, Job, Matrix, Needs, Secrets, Steps, Strategy, Vars};
        match self {
            TextPlace::WorkflowGroup => &[Github, Inputs, Vars],
            TextPlace::JobCondition => &[Github, Inputs, Vars, Needs],
            TextPlace::JobGroup => &[Github, Inputs, Vars, Needs, Strategy, Matrix],
            TextPlace::WorkflowEnv => &[Github, Inputs, Vars, Secrets],
            TextPlace::JobEnv => &[Github, Inputs, Vars, Secrets, Needs, Strategy, Matrix],
            TextPlace::StepEnv | TextPlace::StepText => &[
                Github, Inputs, Vars, Secrets, Needs, Strategy, Matrix, Job, Steps, Env,
            ],
            TextPlace::StepCondition => &[
                Github, Inputs, Vars, Needs, Strategy, Matrix, Job, Steps, Env,
            ],
        }
    }
}
