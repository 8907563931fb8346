//! A plan from its document, object by object.

ghost use Rattle.serde_json.specs.View.{view};
ghost use Rattle.plan_documents.specs.Answer.{GivesIt};
ghost use Rattle.plan_documents.specs.Reading.{script_of, action_of};

use crate::fields::{Fields, read_object};
use crate::reading::{FromJson, Unread, expect_word, field, has_word, members_of, refused};
use crate::version::Version;
use flow_model::{Flag, Group, Plan, Roots, RunPlan, Sequence, Shell, StepPlan, Text, Work};
use serde_json::Value;
use std::alloc::Global;

impl FromJson for Flag {
    ghost use Rattle.plan_documents.specs.Reading.{flag_of};

    ghost reading = { flag_of };

    fn from_json(alloc: Global, json: &Value) -> Result<Flag, Unread> {
        match json {
            Value::Bool(truth) => Ok(Flag::Truth(*truth)),
            Value::String(text) => Ok(Flag::Text(Text::from_str(alloc, text.as_str())?)),
            _ => Err(refused(alloc, "")),
        }
    }
}

impl FromJson for Group {
    ghost use Rattle.plan_documents.specs.Reading.{group_of};

    ghost reading = { group_of };

    fn from_json(alloc: Global, json: &Value) -> Result<Group, Unread> {
        let (cancel, (name, ())) = read_object(alloc, json, &["cancel", "name"])?;
        Ok(Group { cancel, name })
    }
}

impl FromJson for Roots {
    ghost use Rattle.plan_documents.specs.Reading.{roots_of};

    ghost reading = { roots_of };

    fn from_json(alloc: Global, json: &Value) -> Result<Roots, Unread> {
        let keys = ["github", "inputs", "secrets", "vars"];
        let (github, (inputs, (secrets, (vars, ())))) = read_object(alloc, json, &keys)?;
        Ok(Roots {
            github,
            inputs,
            secrets,
            vars,
        })
    }
}

impl FromJson for Shell {
    ghost use Rattle.plan_documents.specs.Reading.{shell_of};

    ghost reading = { shell_of };

    fn from_json(alloc: Global, json: &Value) -> Result<Shell, Unread> {
        match json.as_str() {
            Some("default") => Ok(Shell::Default),
            Some("sh") => Ok(Shell::Sh),
            Some("bash") => Ok(Shell::Bash),
            _ => Err(refused(alloc, "")),
        }
    }
}

impl FromJson for Work {
    ghost use Rattle.plan_documents.specs.Reading.{work_of};

    ghost reading = { work_of };

    #[tactic(auto, unfolding(crate::specs::Reading::work_of))]
    fn from_json(alloc: Global, json: &Value) -> Result<Work, Unread> {
        if has_word(json, "kind", "uses") {
            read_action(alloc, json)
        } else {
            read_script(alloc, json)
        }
    }
}

fn read_script(alloc: Global, json: &Value) -> Result<Work, Unread>
    ensures { GivesIt result (script_of (view json.now)) }
{
    let mut members = members_of(alloc, json)?;
    let dir = field(alloc, &mut members, "dir")?;
    expect_word(alloc, &mut members, "kind", "run")?;
    let (run, (shell, ())) = Fields::read(alloc, &mut members, &["run", "shell"])?;
    Ok(Work::Run { dir, run, shell })
}

fn read_action(alloc: Global, json: &Value) -> Result<Work, Unread>
    ensures { GivesIt result (action_of (view json.now)) }
{
    let mut members = members_of(alloc, json)?;
    expect_word(alloc, &mut members, "kind", "uses")?;
    let (uses, (given, ())) = Fields::read(alloc, &mut members, &["uses", "with"])?;
    Ok(Work::Uses { uses, given })
}

impl FromJson for StepPlan {
    ghost use Rattle.plan_documents.specs.Reading.{step_of};

    ghost reading = { step_of };

    fn from_json(alloc: Global, json: &Value) -> Result<StepPlan, Unread> {
        let keys = ["condition", "env", "id", "name", "tolerate", "work"];
        let (condition, (env, (id, (name, (tolerate, (work, ())))))) = read_object(
            alloc, json, &keys,
        )?;
        Ok(StepPlan {
            condition,
            env,
            id,
            name,
            tolerate,
            work,
        })
    }
}

impl FromJson for RunPlan {
    ghost use Rattle.plan_documents.specs.Reading.{run_of};

    ghost reading = { run_of };

    fn from_json(alloc: Global, json: &Value) -> Result<RunPlan, Unread> {
        let keys = ["env", "event", "flow", "group", "jobs", "roots"];
        let (env, (event, (flow, (group, (jobs, (roots, ())))))) = read_object(alloc, json, &keys)?;
        Ok(RunPlan {
            env,
            event,
            flow,
            group,
            jobs,
            roots,
        })
    }
}

impl FromJson for Plan {
    ghost use Rattle.plan_documents.specs.Reading.{plan_of};

    ghost reading = { plan_of };

    fn from_json(alloc: Global, json: &Value) -> Result<Plan, Unread> {
        let keys = ["runs", "version"];
        let (runs, (_, ())): (Sequence<RunPlan>, (Version, ())) = read_object(alloc, json, &keys)?;
        Ok(Plan { runs })
    }
}
