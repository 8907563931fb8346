//! What a person calls the steps of a plan, by their legs.

use flow_model::{Duplicate, JobPlan, Plan, RunPlan, StepPlan, Text, Work};
use std::alloc::{AllocError, Global};

/// A job: its id, and what its steps are called.
#[derive(Drop)]
struct JobNames {
    id: Text,
    steps: Vec<Text>,
}

/// What the steps of a plan are called.
#[derive(Drop)]
pub struct StepNames {
    jobs: Vec<JobNames>,
    // the job of each leg, by its place among the jobs
    legs: Vec<usize>,
    // how many steps all legs have
    total: u64,
}

/// A step of a leg: the id of its job, what it is called, how many steps the leg has, and how many all legs have.
#[derive(Clone, Copy)]
pub(crate) struct NamedStep<'a> {
    pub(crate) job: &'a str,
    pub(crate) name: &'a str,
    pub(crate) count: usize,
    pub(crate) total: u64,
}

/// The first line of a text that has more than white space.
fn first_line(text: &str) -> &str {
    for line in text.lines() {
        if !line.trim().is_empty() {
            return line.trim();
        }
    }
    ""
}

/// What a step is called: its name, else the first line of its script or its action, as the workflow has them.
fn name_of(step: &StepPlan) -> &str {
    match &step.name {
        Some(name) => first_line(name.as_str()),
        None => match &step.work {
            Work::Run { run, .. } => first_line(run.as_str()),
            Work::Uses { uses, .. } => first_line(uses.as_str()),
        },
    }
}

/// What the steps of a job are called.
fn job_names(alloc: Global, job: &JobPlan) -> Result<JobNames, AllocError> {
    let mut steps = Vec::new(alloc);
    for step in job.steps.as_slice() {
        steps.push(Text::from_str(alloc, name_of(step))?)?;
    }
    let id = job.id.copy(alloc)?;
    Ok(JobNames { id, steps })
}

impl StepNames {
    /// Adds a job and its legs.
    fn add_job(&mut self, alloc: Global, job: &JobPlan) -> Result<(), AllocError> {
        let place = self.jobs.len();
        self.jobs.push(job_names(alloc, job)?)?;
        let steps = job.steps.len() as u64;
        for _ in job.legs.as_slice() {
            self.legs.push(place)?;
            self.total = self.total.saturating_add(steps);
        }
        Ok(())
    }

    /// Adds the jobs of a run.
    fn add_run(&mut self, alloc: Global, run: &RunPlan) -> Result<(), AllocError> {
        for job in run.jobs.as_slice() {
            self.add_job(alloc, job)?;
        }
        Ok(())
    }

    /// What the steps of a plan are called.
    pub(crate) fn of_plan(alloc: Global, plan: &Plan) -> Result<StepNames, AllocError> {
        let mut names = StepNames {
            jobs: Vec::new(alloc),
            legs: Vec::new(alloc),
            total: 0,
        };
        for run in plan.runs.as_slice() {
            names.add_run(alloc, run)?;
        }
        Ok(names)
    }

    /// The step of that number of a leg, if the plan has it.
    pub(crate) fn step(&self, leg: u64, step: u64) -> Option<NamedStep<'_>> {
        let place = *self.legs.get(usize::try_from(leg).ok()?)?;
        let job = self.jobs.get(place)?;
        let name = job.steps.get(usize::try_from(step).ok()?)?;
        Some(NamedStep {
            job: job.id.as_str(),
            name: name.as_str(),
            count: job.steps.len(),
            total: self.total,
        })
    }
}
