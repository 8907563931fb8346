//! The board on which all is new.

ghost use Rattle.std.specs.Prelude.{◌≡◌, IfOk, map};
ghost use Rattle.status_table.specs.Runs as spec;

use flow_model::{
    Board, Combo, Job, JobPlan, JobState, Leg, LegState, Mapping, Plan, Run, RunPlan, RunState,
    Sequence,
};
use std::alloc::{AllocError, Global};

/// What is played of a part of a plan.
trait Played<P> {
    /// How it starts.
    ghost started: { P → Self };

    fn start(alloc: Global, plan: &P) -> Result<Self, AllocError>
    where
        Self: Sized,
        ensures { IfOk result (λ made. made ≡ started plan.now) };
}

/// What is played of each of some parts, as it starts.
fn start_each<P, T: Played<P> + Drop>(alloc: Global, plans: &[P]) -> Result<Sequence<T>, AllocError>
    ensures { IfOk result (λ made. made ≡ map T.started plans.now) }
{
    let mut made = Vec::with_capacity(alloc, plans.len())?;
    for plan in plans {
        made.push(T::start(alloc, plan)?)?;
    }
    Ok(Sequence::new(made))
}

impl Played<Combo> for Leg {
    ghost started = { spec.new_leg };

    fn start(alloc: Global, _: &Combo) -> Result<Leg, AllocError> {
        let steps = Sequence::empty(alloc);
        let outputs = Mapping::empty(alloc);
        Ok(Leg {
            state: LegState::Fresh,
            stop: false,
            group: None,
            steps,
            outputs,
        })
    }
}

impl Played<JobPlan> for Job {
    ghost started = { spec.new_job };

    fn start(alloc: Global, plan: &JobPlan) -> Result<Job, AllocError> {
        let legs = start_each(alloc, plan.legs.as_slice())?;
        Ok(Job {
            state: JobState::Unjudged,
            legs,
        })
    }
}

impl Played<RunPlan> for Run {
    ghost started = { spec.new_run };

    fn start(alloc: Global, plan: &RunPlan) -> Result<Run, AllocError> {
        let jobs = start_each(alloc, plan.jobs.as_slice())?;
        Ok(Run {
            state: RunState::New,
            stop: false,
            group: None,
            jobs,
        })
    }
}

/// A board of a plan on which all is new.
pub fn make_board(alloc: Global, plan: &Plan) -> Result<Board, AllocError>
    ensures { IfOk result (λ board. board ≡ spec.new_board plan.now) }
{
    let runs = start_each(alloc, plan.runs.as_slice())?;
    let ends = Sequence::empty(alloc);
    Ok(Board { runs, ends })
}
