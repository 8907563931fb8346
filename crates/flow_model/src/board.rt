//! The board: how far each run, job, leg and step of a plan is.

use crate::duplicate::Duplicate;
use crate::event::Outcome;
use crate::mapping::Mapping;
use crate::sequence::Sequence;
use crate::text::Text;
use std::alloc::{AllocError, Global};

/// How far a plan is. Jobs are numbered through all runs, and legs through all jobs, as in the plan.
#[derive(Drop)]
pub struct Board {
    pub runs: Sequence<Run>,
    /// The numbers of the legs that are `Ended`, in the order in which they became so.
    pub ends: Sequence<u64>,
}

/// How far a run is.
#[derive(Drop)]
pub struct Run {
    pub state: RunState,
    /// Whether it was told to stop.
    pub stop: bool,
    /// The name, with A to Z as a to z, of the group that it waited for or held.
    pub group: Option<Text>,
    pub jobs: Sequence<Job>,
}

/// The states of a run.
#[derive(Clone, Copy, PartialEq, Eq)]
pub enum RunState {
    New,
    Waiting,
    Going,
    Closed(Outcome),
}

/// How far a job is.
#[derive(Drop)]
pub struct Job {
    pub state: JobState,
    pub legs: Sequence<Leg>,
}

/// The states of a job.
#[derive(Clone, Copy, PartialEq, Eq)]
pub enum JobState {
    Unjudged,
    Open,
    Shut(Outcome),
}

/// How far a leg is.
#[derive(Drop)]
pub struct Leg {
    pub state: LegState,
    /// Whether it was told to stop.
    pub stop: bool,
    /// The name, with A to Z as a to z, of the group that it waited for or held.
    pub group: Option<Text>,
    /// The steps that are done, in order.
    pub steps: Sequence<DoneStep>,
    /// The outputs that it gave its job.
    pub outputs: Mapping<Text>,
}

/// The states of a leg.
#[derive(Clone, Copy, PartialEq, Eq)]
pub enum LegState {
    Fresh,
    Waiting,
    Admitted,
    /// With a worker, idle or in the call of a step.
    Running { worker: u8, in_call: bool },
    /// A failure is tolerated where the job may continue on error.
    Ended { result: Outcome, tolerated: bool },
}

/// A step that is done (GitHub Docs, contexts: `steps`).
#[derive(Drop)]
pub struct DoneStep {
    /// How it ended.
    pub outcome: Outcome,
    /// How it counts, after `continue-on-error`.
    pub conclusion: Outcome,
    pub outputs: Mapping<Text>,
    /// The variables that it set for the steps after it.
    pub env: Mapping<Text>,
}

impl Duplicate for Board {
    fn copy(&self, alloc: Global) -> Result<Board, AllocError> {
        let runs = self.runs.copy(alloc)?;
        let ends = self.ends.copy(alloc)?;
        Ok(Board { runs, ends })
    }
}

impl Duplicate for Run {
    fn copy(&self, alloc: Global) -> Result<Run, AllocError> {
        let group = self.group.copy(alloc)?;
        let jobs = self.jobs.copy(alloc)?;
        Ok(Run {
            state: self.state,
            stop: self.stop,
            group,
            jobs,
        })
    }
}

impl Duplicate for Job {
    fn copy(&self, alloc: Global) -> Result<Job, AllocError> {
        let legs = self.legs.copy(alloc)?;
        Ok(Job {
            state: self.state,
            legs,
        })
    }
}

impl Duplicate for Leg {
    fn copy(&self, alloc: Global) -> Result<Leg, AllocError> {
        Ok(Leg {
            state: self.state,
            stop: self.stop,
            group: self.group.copy(alloc)?,
            steps: self.steps.copy(alloc)?,
            outputs: self.outputs.copy(alloc)?,
        })
    }
}

impl Duplicate for DoneStep {
    fn copy(&self, alloc: Global) -> Result<DoneStep, AllocError> {
        let outputs = self.outputs.copy(alloc)?;
        let env = self.env.copy(alloc)?;
        Ok(DoneStep {
            outcome: self.outcome,
            conclusion: self.conclusion,
            outputs,
            env,
        })
    }
}
