//! A job from its document: the longest of the objects.

ghost use Rattle.std.specs.Prelude.{◌≡◌};
ghost use Rattle.plan_documents.specs.Reading.{job_from};

use crate::fields::read_object;
use crate::reading::{FromJson, Unread};
use flow_model::{Combo, Flag, Group, JobPlan, Mapping, Sequence, StepPlan, Text};
use serde_json::Value;
use std::alloc::Global;

/// The keys of a job, in their order.
pub const JOB_KEYS: [&str; 13] = [
    "condition",
    "env",
    "fail_fast",
    "group",
    "id",
    "legs",
    "max_parallel",
    "name",
    "needs",
    "number",
    "outputs",
    "steps",
    "tolerate",
];

/// The parts of a job from `name` on, in the order of their keys.
pub type JobTail = (
    Text,
    (
        Sequence<u64>,
        (u64, (Mapping<Text>, (Sequence<StepPlan>, (Flag, ())))),
    ),
);

/// The parts of a job, in the order of their keys.
pub type JobParts = (
    Option<Text>,
    (
        Mapping<flow_model::Value>,
        (
            bool,
            (
                Option<Group>,
                (Text, (Sequence<Combo>, (Option<u64>, JobTail))),
            ),
        ),
    ),
);

/// The job that has these parts.
pub fn job_from(parts: JobParts) -> JobPlan
    ensures { result ≡ job_from parts }
{
    let (condition, (env, (fail_fast, (group, (id, (legs, (max_parallel, tail))))))) = parts;
    let (name, (needs, (number, (outputs, (steps, (tolerate, ())))))) = tail;
    JobPlan {
        condition,
        env,
        fail_fast,
        group,
        id,
        legs,
        max_parallel,
        name,
        needs,
        number,
        outputs,
        steps,
        tolerate,
    }
}

impl FromJson for JobPlan {
    ghost use Rattle.plan_documents.specs.Reading.{job_of};

    ghost reading = { job_of };

    #[tactic(auto, unfolding(crate::specs::Reading::job_tail))]
    fn from_json(alloc: Global, json: &Value) -> Result<JobPlan, Unread> {
        Ok(job_from(read_object::<JobParts>(alloc, json, &JOB_KEYS)?))
    }
}
