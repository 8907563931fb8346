//! A plan: the runs that a choice of workflows comes to, with all that playing them needs.
//!
//! The fields are the keys of the plan document. GitHub Docs, workflow syntax, says what each key of a
//! workflow means.

use crate::duplicate::{Copies, Duplicate};
use crate::mapping::Mapping;
use crate::sequence::Sequence;
use crate::text::Text;
use crate::value::Value;
use std::alloc::{AllocError, Global};

/// The runs of a plan, 1 to 64 of them.
#[derive(Drop)]
pub struct Plan {
    pub runs: Sequence<RunPlan>,
}

/// One workflow's run.
#[derive(Drop)]
pub struct RunPlan {
    /// The workflow's `env`: names to texts, numbers, truth values or null.
    pub env: Mapping<Value>,
    /// The name of the event that chose the workflow, if one did.
    pub event: Option<Text>,
    /// The workflow's name.
    pub flow: Text,
    /// The workflow's concurrency group.
    pub group: Option<Group>,
    /// The chosen jobs, 1 to 256 of them, each after all that it needs.
    pub jobs: Sequence<JobPlan>,
    /// The contexts that were handed in.
    pub roots: Roots,
}

/// A concurrency group (workflow syntax: `concurrency`).
#[derive(Drop)]
pub struct Group {
    /// Whether entering stops the holder (`cancel-in-progress`).
    pub cancel: Flag,
    /// The text that gives the group's name.
    pub name: Text,
}

/// A truth value that a workflow spells out, or as a text to be evaluated.
#[derive(Drop)]
pub enum Flag {
    Truth(bool),
    Text(Text),
}

/// The contexts that a run is handed, each a map of properties.
#[derive(Drop)]
pub struct Roots {
    pub github: Mapping<Value>,
    pub inputs: Mapping<Value>,
    pub secrets: Mapping<Value>,
    pub vars: Mapping<Value>,
}

/// One combination of a matrix: its variables' values.
pub type Combo = Mapping<Value>;

/// A job's matrix (workflow syntax: `strategy.matrix`).
#[derive(Drop)]
pub struct Matrix {
    /// The variables with the values that they take, in order.
    pub variables: Mapping<Sequence<Value>>,
    /// The combinations that are taken out: each in which all these values stand.
    pub exclude: Sequence<Combo>,
    /// The values that are added to combinations, or that make one of their own.
    pub include: Sequence<Combo>,
}

/// One job of a run, with a leg for each combination of its matrix.
#[derive(Drop)]
pub struct JobPlan {
    /// The text of `if`.
    pub condition: Option<Text>,
    pub env: Mapping<Value>,
    pub fail_fast: bool,
    pub group: Option<Group>,
    pub id: Text,
    /// The combinations, 1 to 256; a job without a matrix has one that is empty.
    pub legs: Sequence<Combo>,
    /// How many legs may be under way at once, from 1; all where there is none.
    pub max_parallel: Option<u64>,
    pub name: Text,
    /// The numbers of the jobs that it needs, in ascending order.
    pub needs: Sequence<u64>,
    /// Its place among all jobs of the plan, from 0.
    pub number: u64,
    /// Names to the texts that give them their values.
    pub outputs: Mapping<Text>,
    /// The steps, 0 to 256.
    pub steps: Sequence<StepPlan>,
    /// The job's `continue-on-error`.
    pub tolerate: Flag,
}

/// One step of a job.
#[derive(Drop)]
pub struct StepPlan {
    /// The text of `if`.
    pub condition: Option<Text>,
    pub env: Mapping<Value>,
    pub id: Option<Text>,
    pub name: Option<Text>,
    /// The step's `continue-on-error`.
    pub tolerate: Flag,
    pub work: Work,
}

/// What a step does.
#[derive(Drop)]
pub enum Work {
    /// A script.
    Run {
        /// The working directory.
        dir: Option<Text>,
        /// The script's text.
        run: Text,
        shell: Shell,
    },
    /// An action.
    Uses {
        /// The action's name.
        uses: Text,
        /// Its inputs, the step's `with`.
        given: Mapping<Value>,
    },
}

/// The shell of a script (workflow syntax: `shell`).
#[derive(Clone, Copy)]
pub enum Shell {
    /// None was named.
    Default,
    Sh,
    Bash,
}

impl Duplicate for Matrix {
    fn copy(&self, alloc: Global) -> Result<Matrix, AllocError> {
        let parts = (&self.variables, (&self.exclude, &self.include));
        let (variables, (exclude, include)) = parts.copies(alloc)?;
        Ok(Matrix {
            variables,
            exclude,
            include,
        })
    }
}

impl Duplicate for Plan {
    fn copy(&self, alloc: Global) -> Result<Plan, AllocError> {
        let runs = self.runs.copy(alloc)?;
        Ok(Plan { runs })
    }
}

impl Duplicate for RunPlan {
    fn copy(&self, alloc: Global) -> Result<RunPlan, AllocError> {
        let parts = ((&self.env, &self.event), (&self.flow, &self.group));
        let parts = (parts, (&self.jobs, &self.roots));
        let (((env, event), (flow, group)), (jobs, roots)) = parts.copies(alloc)?;
        Ok(RunPlan {
            env,
            event,
            flow,
            group,
            jobs,
            roots,
        })
    }
}

impl Duplicate for Group {
    fn copy(&self, alloc: Global) -> Result<Group, AllocError> {
        let cancel = self.cancel.copy(alloc)?;
        let name = self.name.copy(alloc)?;
        Ok(Group { cancel, name })
    }
}

impl Duplicate for Flag {
    fn copy(&self, alloc: Global) -> Result<Flag, AllocError> {
        match self {
            Flag::Truth(truth) => Ok(Flag::Truth(*truth)),
            Flag::Text(text) => Ok(Flag::Text(text.copy(alloc)?)),
        }
    }
}

impl Duplicate for Roots {
    fn copy(&self, alloc: Global) -> Result<Roots, AllocError> {
        let parts = ((&self.github, &self.inputs), (&self.secrets, &self.vars));
        let ((github, inputs), (secrets, vars)) = parts.copies(alloc)?;
        Ok(Roots {
            github,
            inputs,
            secrets,
            vars,
        })
    }
}

impl Duplicate for JobPlan {
    fn copy(&self, alloc: Global) -> Result<JobPlan, AllocError> {
        let parts = ((&self.condition, &self.env), (&self.group, &self.id));
        let others = ((&self.legs, &self.name), (&self.needs, &self.outputs));
        let parts = ((parts, others), (&self.steps, &self.tolerate));
        let ((parts, others), (steps, tolerate)) = parts.copies(alloc)?;
        let ((condition, env), (group, id)) = parts;
        let ((legs, name), (needs, outputs)) = others;
        Ok(JobPlan {
            condition,
            env,
            fail_fast: self.fail_fast,
            group,
            id,
            legs,
            max_parallel: self.max_parallel,
            name,
            needs,
            number: self.number,
            outputs,
            steps,
            tolerate,
        })
    }
}

impl Duplicate for StepPlan {
    fn copy(&self, alloc: Global) -> Result<StepPlan, AllocError> {
        let parts = ((&self.condition, &self.env), (&self.id, &self.name));
        let parts = (parts, (&self.tolerate, &self.work));
        let (((condition, env), (id, name)), (tolerate, work)) = parts.copies(alloc)?;
        Ok(StepPlan {
            condition,
            env,
            id,
            name,
            tolerate,
            work,
        })
    }
}

impl Duplicate for Work {
    fn copy(&self, alloc: Global) -> Result<Work, AllocError> {
        match self {
            Work::Run { dir, run, shell } => {
                let (dir, run) = (dir, run).copies(alloc)?;
                Ok(Work::Run {
                    dir,
                    run,
                    shell: *shell,
                })
            },
            Work::Uses { uses, given } => {
                let (uses, given) = (uses, given).copies(alloc)?;
                Ok(Work::Uses { uses, given })
            },
        }
    }
}
