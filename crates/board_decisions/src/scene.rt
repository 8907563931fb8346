//! What the texts of a plan see: a run, a job or a leg in play.

ghost use Rattle.std.specs.Prelude.{◌≡◌, IfOk};
ghost use Rattle.board_decisions.specs.Decisions.{leg_values};
ghost use Rattle.board_decisions.specs.Seen.{leg_seen};
ghost use Rattle.flow_model.specs.Value.{view};

use crate::contexts::{job_context, leg_context, run_context};
use crate::decisions::leg_result;
use crate::place::{SeenJob, SeenLeg, SeenRun};
use expr_reader::Context;
use flow_model::{Node, Outcome, Value};
use plan_values::Scene;
use std::alloc::{AllocError, Global};

/// A run in play, for what its texts see.
#[derive(Clone, Copy)]
pub struct RunScene<'a> {
    pub at: &'a SeenRun<'a>,
}

impl<'a> Scene for RunScene<'a> {
    ghost use Rattle.board_decisions.specs.Scenes.{run_scene};

    ghost values = { λ s. run_scene s.at.now };

    fn value(&self, alloc: Global, context: Context) -> Result<Value, AllocError> {
        Ok(Value::new(run_context(alloc, self.at.plan, context)?))
    }
}

/// A job in play, for what its texts see.
#[derive(Clone, Copy)]
pub struct JobScene<'a> {
    pub at: &'a SeenJob<'a>,
}

impl<'a> Scene for JobScene<'a> {
    ghost use Rattle.board_decisions.specs.Scenes.{job_scene};

    ghost values = { λ s. job_scene s.at.now };

    fn value(&self, alloc: Global, context: Context) -> Result<Value, AllocError> {
        Ok(Value::new(job_context(alloc, self.at, context)?))
    }
}

/// A leg in play, for what its texts see.
#[derive(Clone, Copy)]
pub struct LegScene<'a> {
    pub at: &'a SeenLeg<'a>,
}

impl<'a> Scene for LegScene<'a> {
    ghost use Rattle.board_decisions.specs.Scenes.{leg_scene};

    ghost values = { λ s. leg_scene s.at.now };

    fn value(&self, alloc: Global, context: Context) -> Result<Value, AllocError> {
        Ok(Value::new(seen_context(alloc, self.at, context)?))
    }
}

/// The value of a context, seen from a leg.
#[tactic(auto, unfolding(crate::specs::Decisions::leg_values, crate::specs::Contexts::leg_values_by))]
fn seen_context(alloc: Global, at: &SeenLeg, context: Context) -> Result<Node, AllocError>
    ensures { IfOk result (λ node. view node ≡ leg_values (leg_seen at.now) context) }
{
    match context {
        Context::Job => {
            let how = leg_result(alloc, at)?;
            leg_context(alloc, how, at, Context::Job)
        },
        Context::Github
        | Context::Inputs
        | Context::Vars
        | Context::Secrets
        | Context::Needs
        | Context::Env
        | Context::Jobs
        | Context::Steps
        | Context::Runner
        | Context::Strategy
        | Context::Matrix => leg_context(alloc, Outcome::Success, at, context),
    }
}
