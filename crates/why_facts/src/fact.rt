//! What an entry makes of runs, jobs, legs and steps, and by what.

use flow_model::{Member, Outcome, ValueFault};

/// Why a leg is to stop.
#[derive(Clone, Copy)]
pub enum StopCause {
    /// It was told to.
    Told,
    /// Its job fails fast, and the leg with this number was the first of it to fail.
    FailFast(u64),
    /// Its run was told to, and the condition of its job is not true for a cancelled run.
    RunTold,
}

/// Who told a run or a leg to stop.
#[derive(Clone, Copy)]
pub enum Teller {
    /// The event `cancel`.
    Cancel,
    /// A newer member of its group.
    Newer(Member),
}

/// What became of a run or a leg.
#[derive(Clone, Copy)]
pub enum MemberFact {
    /// It entered a group that nobody held, or none.
    Admitted,
    /// It waits for its group, which this member holds.
    Waits(Member),
    /// It waited, and this member, which held the group, left it.
    Follows(Member),
    /// It waited, and this member took its place.
    Displaced(Member),
    /// It is a leg whose own run holds the group.
    OwnRun,
    /// The text that names its group has no value.
    NoGroup(ValueFault),
    /// It is a run that was closed.
    Closed(Outcome),
    /// It is a leg that a worker took.
    Taken,
    /// It is a leg that was played to its end.
    Finished(Outcome),
    /// It is a leg that ended because it was to stop.
    Stopped(StopCause),
}

/// What became of a job that was judged.
#[derive(Clone, Copy)]
pub enum JobFact {
    /// Its condition is true.
    Opened,
    /// Its condition is not true, and its run was told to stop.
    RunStopped,
    /// It waits for the success of all that it needs, and some of that had no success.
    Unsuccessful,
    /// Its condition was evaluated, and is not true.
    Untrue,
    /// Its condition has no value.
    Faulted(ValueFault),
}

/// A text that a step needs before its call.
#[derive(Clone, Copy)]
pub enum StepText {
    FlowEnv,
    JobEnv,
    StepEnv,
    Condition,
    /// A text of what the step does.
    Work,
}

/// What became of a step that is done.
#[derive(Clone, Copy)]
pub enum StepFact {
    /// Its program ended with this code.
    Exited(i64),
    /// Its program was not started.
    NotStarted,
    /// What its program gave could not be read.
    BadOutput,
    /// It waits for success, and its leg is to stop.
    Stopping(StopCause),
    /// It waits for success, and the step at this place is the first that counts as a failure.
    AfterFailure(u64),
    /// Its condition was evaluated, and is not true.
    Untrue,
    /// This text has no value.
    Faulted(StepText, ValueFault),
}

/// One thing that an entry made so.
#[derive(Clone, Copy)]
pub enum Change {
    /// Of a run or a leg.
    Member { who: Member, fact: MemberFact },
    /// Of a job.
    Job { job: u64, fact: JobFact },
    /// The next step of a leg was called.
    Called { leg: u64 },
    /// Of the next step of a leg.
    Step { leg: u64, fact: StepFact },
    /// A run or a leg was told to stop.
    Stop { who: Member, teller: Teller },
}
