//! The document of a plan and of each of its parts, object by object.

use crate::version::Version;
use crate::writing::{ToJson, Word, object};
use flow_model::{Flag, Group, JobPlan, Plan, Roots, RunPlan, Shell, StepPlan, Work};
use serde_json::Value;
use std::alloc::{AllocError, Global};

impl ToJson for Flag {
    ghost use Rattle.plan_documents.specs.Document.{flag_data};

    ghost writing = { flag_data };

    fn to_json(&self, alloc: Global) -> Result<Value, AllocError> {
        match self {
            Flag::Truth(truth) => truth.to_json(alloc),
            Flag::Text(text) => text.to_json(alloc),
        }
    }
}

impl ToJson for Group {
    ghost use Rattle.plan_documents.specs.Document.{group_data};

    ghost writing = { group_data };

    fn to_json(&self, alloc: Global) -> Result<Value, AllocError> {
        let keys = ["cancel", "name"];
        let parts = (&self.cancel, (&self.name, ()));
        object(alloc, &keys, &parts)
    }
}

impl ToJson for Roots {
    ghost use Rattle.plan_documents.specs.Document.{roots_data};

    ghost writing = { roots_data };

    fn to_json(&self, alloc: Global) -> Result<Value, AllocError> {
        let keys = ["github", "inputs", "secrets", "vars"];
        let parts = (
            &self.github,
            (&self.inputs, (&self.secrets, (&self.vars, ()))),
        );
        object(alloc, &keys, &parts)
    }
}

impl ToJson for Shell {
    ghost use Rattle.plan_documents.specs.Document.{shell_data};

    ghost writing = { shell_data };

    fn to_json(&self, alloc: Global) -> Result<Value, AllocError> {
        let word = match self {
            Shell::Default => "default",
            Shell::Sh => "sh",
            Shell::Bash => "bash",
        };
        Word(word).to_json(alloc)
    }
}

impl ToJson for Work {
    ghost use Rattle.plan_documents.specs.Document.{work_data};

    ghost writing = { work_data };

    fn to_json(&self, alloc: Global) -> Result<Value, AllocError> {
        match self {
            Work::Run { dir, run, shell } => {
                let keys = ["dir", "kind", "run", "shell"];
                object(alloc, &keys, &(dir, (&Word("run"), (run, (shell, ())))))
            },
            Work::Uses { uses, given } => {
                let keys = ["kind", "uses", "with"];
                object(alloc, &keys, &(&Word("uses"), (uses, (given, ()))))
            },
        }
    }
}

impl ToJson for StepPlan {
    ghost use Rattle.plan_documents.specs.Document.{step_data};

    ghost writing = { step_data };

    fn to_json(&self, alloc: Global) -> Result<Value, AllocError> {
        let keys = ["condition", "env", "id", "name", "tolerate", "work"];
        let parts = (
            &self.condition,
            (
                &self.env,
                (&self.id, (&self.name, (&self.tolerate, (&self.work, ())))),
            ),
        );
        object(alloc, &keys, &parts)
    }
}

impl ToJson for JobPlan {
    ghost use Rattle.plan_documents.specs.Document.{job_data};

    ghost writing = { job_data };

    fn to_json(&self, alloc: Global) -> Result<Value, AllocError> {
        let keys = [
            "condition",
            "env",
            "fail_fast",
            "group",
            "id",
            "legs",
            "max_parallel",
            "name",
            "needs",
            "number",
            "outputs",
            "steps",
            "tolerate",
        ];
        let tail = (&self.outputs, (&self.steps, (&self.tolerate, ())));
        let tail = (&self.name, (&self.needs, (&self.number, tail)));
        let tail = (&self.id, (&self.legs, (&self.max_parallel, tail)));
        let parts = (
            &self.condition,
            (&self.env, (&self.fail_fast, (&self.group, tail))),
        );
        object(alloc, &keys, &parts)
    }
}

impl ToJson for RunPlan {
    ghost use Rattle.plan_documents.specs.Document.{run_data};

    ghost writing = { run_data };

    fn to_json(&self, alloc: Global) -> Result<Value, AllocError> {
        let keys = ["env", "event", "flow", "group", "jobs", "roots"];
        let parts = (
            &self.env,
            (
                &self.event,
                (&self.flow, (&self.group, (&self.jobs, (&self.roots, ())))),
            ),
        );
        object(alloc, &keys, &parts)
    }
}

impl ToJson for Plan {
    ghost use Rattle.plan_documents.specs.Document.{document};

    ghost writing = { document };

    fn to_json(&self, alloc: Global) -> Result<Value, AllocError> {
        let keys = ["runs", "version"];
        let parts = (&self.runs, (&Version::Two, ()));
        object(alloc, &keys, &parts)
    }
}
