//! The rules of each part of a plan.

ghost use Rattle.std.specs.Prelude.{◌≡◌, ◌+◌, ◌<◌, ◌≤◌, ◌^◌, MatchOption, OnOk, List, ℕ, codes, decimal, length, nat_le};
ghost use Rattle.std.specs.List.{list_any};
ghost use Rattle.std.specs.Str.{bytes_eq};
ghost use Rattle.flow_model.specs.Found as found;
ghost use Rattle.flow_model.specs.Found.{Checks};
ghost use Rattle.flow_model.specs.Name.{is_id as is_id_text};
ghost use Rattle.flow_model.specs.Rules as spec;

use crate::check::{
    Broken, Rules, at_place, check_list, check_map, check_pairs, check_under, rule, under,
};
use crate::name::is_id;
use crate::plan::{Combo, Group, JobPlan, Plan, Roots, RunPlan, StepPlan, Work};
use crate::text::Text;
use crate::texts::{check_condition, check_flag, check_optional_template, check_template};
use crate::value::Value;
use crate::within::{GREATEST, Input, JobOutput, Property, Variable};
use std::alloc::Global;

/// The rules of plan documents.
pub(crate) struct Document;

/// Checks a script and its directory.
fn check_script(alloc: Global, dir: &Option<Text>, run: &Text) -> Result<(), Broken>
    ensures { Checks (spec.script_rules dir.now run.now) result }
{
    check_optional_template(alloc, "dir", dir)?;
    check_template(alloc, "run", run.as_str())
}

impl Rules<Work> for Document {
    ghost rules = { spec.work_rules };

    fn check(alloc: Global, work: &Work) -> Result<(), Broken> {
        match work {
            Work::Run { dir, run, shell: _ } => check_script(alloc, dir, run),
            Work::Uses { uses: _, given } => check_map::<Value, Input>(alloc, "with", given),
        }
    }
}

/// Whether an id, if there is one, is spelled as ids are.
fn is_optional_id(id: &Option<Text>) -> bool
    ensures { result ≡ spec.all_there is_id_text id.now }
{
    match id {
        Some(id) => is_id(id.as_str()),
        None => true,
    }
}

impl Rules<StepPlan> for Document {
    ghost rules = { spec.step_rules };

    fn check(alloc: Global, step: &StepPlan) -> Result<(), Broken> {
        check_condition(alloc, &step.condition)?;
        check_map::<Value, Variable>(alloc, "env", &step.env)?;
        rule(alloc, "id", is_optional_id(&step.id))?;
        check_flag(alloc, "tolerate", &step.tolerate)?;
        check_under::<Work, Document>(alloc, "work", &step.work)
    }
}

/// Checks a concurrency group.
fn check_group(alloc: Global, group: &Group) -> Result<(), Broken>
    ensures { Checks (spec.group_rules group.now) result }
{
    check_flag(alloc, "cancel", &group.cancel)?;
    check_template(alloc, "name", group.name.as_str())
}

impl Rules<Option<Group>> for Document {
    ghost rules = { found.if_there spec.group_rules };

    fn check(alloc: Global, group: &Option<Group>) -> Result<(), Broken> {
        match group {
            Some(group) => check_group(alloc, group),
            None => Ok(()),
        }
    }
}

impl Rules<Combo> for Document {
    ghost rules = { spec.leg_rules };

    fn check(alloc: Global, combo: &Combo) -> Result<(), Broken> {
        check_pairs::<Value, Property>(alloc, combo)
    }
}

/// Whether one of the steps has this id.
fn is_step_id(id: &str, steps: &[StepPlan]) -> bool
    ensures { result ≡ list_any (bytes_eq id.now) (spec.step_ids steps.now) }
{
    for step in steps {
        if let Some(other) = &step.id {
            if id == other.as_str() {
                return true;
            }
        }
    }
    false
}

/// Whether no two steps have one id.
fn are_steps_distinct(steps: &[StepPlan]) -> bool
    ensures { result ≡ spec.are_distinct (spec.step_ids steps.now) }
{
    for (place, step) in steps.iter().enumerate() {
        if let Some(id) = &step.id {
            if is_step_id(id.as_str(), &steps[place + 1..]) {
                return false;
            }
        }
    }
    true
}

/// Checks the steps of a job.
fn check_steps(alloc: Global, steps: &[StepPlan]) -> Result<(), Broken>
    ensures { Checks (spec.steps_rules steps.now) result }
{
    rule(alloc, "steps", steps.len() <= 256)?;
    rule(alloc, "steps", are_steps_distinct(steps))?;
    check_list::<StepPlan, Document>(alloc, "steps", steps)
}

/// Whether a limit of the legs under way, if there is one, is in range.
fn is_limit(limit: Option<u64>) -> bool
    ensures { result ≡ spec.all_there spec.is_limit limit }
{
    match limit {
        Some(limit) => 1 <= limit && limit <= GREATEST as u64,
        None => true,
    }
}

/// Checks the legs of a job, and their limit.
fn check_legs(alloc: Global, job: &JobPlan) -> Result<(), Broken>
    ensures { Checks (spec.legs_rules job.now) result }
{
    let legs = job.legs.as_slice();
    rule(alloc, "legs", 1 <= legs.len() && legs.len() <= 256)?;
    check_list::<Combo, Document>(alloc, "legs", legs)?;
    rule(alloc, "max_parallel", is_limit(job.max_parallel))
}

/// Whether numbers ascend strictly, from `low` on and below `high`.
fn ascend_between(low: u64, high: u64, numbers: &[u64]) -> bool
    ensures { result ≡ spec.ascend_between low high numbers.now }
{
    let mut least = low;
    for number in numbers {
        if *number < least || *number >= high {
            return false;
        }
        least = *number + 1;
    }
    true
}

/// Checks a job of this number, where its run's first job has the number `first`.
fn check_job(alloc: Global, first: u64, number: u64, job: &JobPlan) -> Result<(), Broken>
    ensures { Checks (spec.job_rules first number job.now) result }
{
    check_condition(alloc, &job.condition)?;
    check_map::<Value, Variable>(alloc, "env", &job.env)?;
    check_under::<Option<Group>, Document>(alloc, "group", &job.group)?;
    rule(alloc, "id", is_id(job.id.as_str()))?;
    check_legs(alloc, job)?;
    rule(
        alloc,
        "needs",
        ascend_between(first, number, job.needs.as_slice()),
    )?;
    rule(alloc, "number", job.number == number)?;
    check_map::<Text, JobOutput>(alloc, "outputs", &job.outputs)?;
    check_steps(alloc, job.steps.as_slice())?;
    check_flag(alloc, "tolerate", &job.tolerate)
}

/// Checks the job at a place of its run, seen from the run's jobs.
fn check_job_at(alloc: Global, first: u64, place: usize, job: &JobPlan) -> Result<(), Broken>
    requires { first + place < 2 ^ 64 }
    ensures { Checks (spec.job_rules_at first place job.now) result }
{
    at_place(
        alloc,
        place,
        check_job(alloc, first, first + place as u64, job),
    )
}

/// Checks the jobs of a run.
fn check_jobs(alloc: Global, first: u64, jobs: &[JobPlan]) -> Result<(), Broken>
    requires { first + length jobs.now < 2 ^ 64 }
    ensures { Checks (spec.jobs_rules first 0 jobs.now) result }
{
    for (place, job) in jobs.iter().enumerate() {
        if let Err(broken) = check_job_at(alloc, first, place, job) {
            return Err(broken);
        }
    }
    Ok(())
}

/// Checks the jobs of a run, seen from the run.
fn check_jobs_of_run(alloc: Global, first: u64, jobs: &[JobPlan]) -> Result<(), Broken>
    requires { first + length jobs.now < 2 ^ 64 }
    ensures { Checks (found.under (codes "jobs") (spec.jobs_rules first 0 jobs.now)) result }
{
    under(alloc, "jobs", check_jobs(alloc, first, jobs))
}

/// Whether one of the jobs has this id.
fn is_job_id(id: &str, jobs: &[JobPlan]) -> bool
    ensures { result ≡ list_any (bytes_eq id.now) (spec.job_ids jobs.now) }
{
    for job in jobs {
        if id == job.id.as_str() {
            return true;
        }
    }
    false
}

/// Whether no two jobs have one id.
fn are_jobs_distinct(jobs: &[JobPlan]) -> bool
    ensures { result ≡ spec.are_distinct (spec.job_ids jobs.now) }
{
    for (place, job) in jobs.iter().enumerate() {
        if is_job_id(job.id.as_str(), &jobs[place + 1..]) {
            return false;
        }
    }
    true
}

impl Rules<Roots> for Document {
    ghost rules = { spec.roots_rules };

    fn check(alloc: Global, roots: &Roots) -> Result<(), Broken> {
        check_map::<Value, Property>(alloc, "github", &roots.github)?;
        check_map::<Value, Property>(alloc, "inputs", &roots.inputs)?;
        check_map::<Value, Property>(alloc, "secrets", &roots.secrets)?;
        check_map::<Value, Property>(alloc, "vars", &roots.vars)
    }
}

/// Checks a run whose first job has the number `first`.
fn check_run(alloc: Global, first: u64, run: &RunPlan) -> Result<(), Broken>
    requires { first ≤ 65536 }
    ensures checks { Checks (spec.run_rules first run.now) result }
    ensures few { OnOk result (length run.now.jobs ≤ 256) }
{
    let jobs = run.jobs.as_slice();
    check_map::<Value, Variable>(alloc, "env", &run.env)?;
    check_under::<Option<Group>, Document>(alloc, "group", &run.group)?;
    let few = 1 <= jobs.len() && jobs.len() <= 256;
    rule(alloc, "jobs", few)?;
    rule(alloc, "jobs", are_jobs_distinct(jobs))?;
    check_jobs_of_run(alloc, first, jobs)?;
    check_under::<Roots, Document>(alloc, "roots", &run.roots)
}

/// Checks the run at a place, seen from all runs.
fn check_run_at(alloc: Global, first: u64, place: usize, run: &RunPlan) -> Result<(), Broken>
    requires { first ≤ 65536 }
    ensures checks { Checks (found.under (decimal place) (spec.run_rules first run.now)) result }
    ensures few { OnOk result (length run.now.jobs ≤ 256) }
{
    at_place(alloc, place, check_run(alloc, first, run))
}

/// Checks all runs.
fn check_runs(alloc: Global, runs: &[RunPlan]) -> Result<(), Broken>
    requires { length runs.now ≤ 64 }
    ensures { Checks (spec.runs_rules 0 0 runs.now) result }
{
    let mut first = 0;
    for (place, run) in runs.iter().enumerate() {
        if let Err(broken) = check_run_at(alloc, first, place, run) {
            return Err(broken);
        }
        first += run.jobs.len() as u64;
    }
    Ok(())
}

/// What is left of a room after the legs of some jobs, if they fit.
fn room_after_jobs(jobs: &[JobPlan], room: usize) -> Option<usize>
    ensures { MatchOption result (room < spec.legs_of_jobs jobs.now)
        (λ left. left + spec.legs_of_jobs jobs.now ≡ room) }
{
    let mut left = room;
    for job in jobs {
        let count = job.legs.len();
        if left < count {
            return None;
        }
        left -= count;
    }
    Some(left)
}

/// Whether the runs have at most 4,096 legs.
fn are_few_legs(runs: &[RunPlan]) -> bool
    ensures { result ≡ nat_le (spec.legs_of_runs runs.now) 4096 }
{
    let mut left = 4096;
    for run in runs {
        match room_after_jobs(run.jobs.as_slice(), left) {
            Some(room) => left = room,
            None => return false,
        }
    }
    true
}

/// Checks all runs, seen from the plan.
fn check_runs_of_plan(alloc: Global, runs: &[RunPlan]) -> Result<(), Broken>
    requires { length runs.now ≤ 64 }
    ensures { Checks (found.under (codes "runs") (spec.runs_rules 0 0 runs.now)) result }
{
    under(alloc, "runs", check_runs(alloc, runs))
}

/// Checks the rules of a plan document.
pub(crate) fn check_plan(alloc: Global, plan: &Plan) -> Result<(), Broken>
    ensures { Checks (spec.plan_rules plan.now) result }
{
    let runs = plan.runs.as_slice();
    let few = 1 <= runs.len() && runs.len() <= 64;
    rule(alloc, "runs", few)?;
    check_runs_of_plan(alloc, runs)?;
    rule(alloc, "runs", are_few_legs(runs))
}
