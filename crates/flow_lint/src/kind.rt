//! What stands at the places of a workflow's file.

ghost use Rattle.std.specs.Prelude.{◌≡◌, ◌↔◌, IsTrue};
ghost use Rattle.flow_lint.specs.Kinds.{IsNeed, IsTemplate, level_in};

/// What a place belongs to.
#[derive(Clone, Copy, PartialEq, Eq)]
pub enum Level {
    /// The workflow itself.
    Workflow,
    /// A job.
    Job,
    /// A step.
    Step,
}

/// What stands at a place.
#[derive(Clone, Copy, PartialEq, Eq)]
pub enum NodeKind {
    /// The whole of a file.
    Workflow,
    /// All jobs.
    Jobs,
    /// One of them.
    Job,
    /// All steps of a job.
    Steps,
    /// One of them.
    Step,
    /// A text that is not evaluated.
    Plain,
    /// The id of a step.
    Id,
    /// All needs of a job.
    Needs,
    /// One of them.
    Need,
    /// What an `if` asks.
    Condition,
    /// A truth value, or a text that is evaluated to one.
    Flag,
    /// An environment.
    Env,
    /// One of its variables.
    Variable,
    /// All inputs of an action.
    With,
    /// One of them.
    Input,
    /// All outputs of a job.
    Outputs,
    /// One of them.
    Output,
    /// A concurrency group.
    Group,
    /// Its name.
    GroupName,
    /// What holds where nothing else is said.
    Defaults,
    /// The defaults of scripts.
    Scripts,
    /// The shell of a script.
    Shell,
    /// The directory of a script.
    Directory,
    /// The directory of all scripts of a job or workflow.
    SharedDirectory,
    /// A script.
    Run,
    /// How a job is parted into legs.
    Strategy,
    /// Whether its legs stop where one fails.
    FailFast,
    /// How many of them go at once.
    MaxParallel,
    /// The matrix of a job.
    Matrix,
    /// The values of a variable of a matrix.
    Values,
    /// The entries of `include` or `exclude`.
    Entries,
    /// The events that a workflow is run for.
    Triggers,
    /// One of them.
    Event,
    /// What is read and does nothing.
    Idle,
    /// What is refused wherever it stands.
    LeftOut,
    /// What stands at a key that is not known.
    Unknown,
}

impl NodeKind {
    /// The level of what stands at a place of this kind, where that around it has another.
    pub(crate) fn level(self, around: Level) -> Level
        ensures { result ≡ level_in self around }
    {
        match self {
            NodeKind::Job => Level::Job,
            NodeKind::Step => Level::Step,
            _ => around,
        }
    }

    /// Whether this is a text that is evaluated as a template.
    pub(crate) fn is_template(self) -> bool
        ensures { IsTrue result ↔ IsTemplate self }
    {
        matches!(
            self,
            NodeKind::Variable
                | NodeKind::Input
                | NodeKind::Output
                | NodeKind::Group
                | NodeKind::GroupName
                | NodeKind::Flag
                | NodeKind::Run
                | NodeKind::Directory
                | NodeKind::SharedDirectory
        )
    }

    /// Whether this is what a job needs: an id alone, or one of a list.
    pub(crate) fn is_need(self) -> bool
        ensures { IsTrue result ↔ IsNeed self }
    {
        matches!(self, NodeKind::Needs | NodeKind::Need)
    }
}
