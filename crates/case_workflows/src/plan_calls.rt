//! The verbs of plans that are made, of the workflows in the files that they name, with no contexts.
//!
//!   events FILE..               the events that the workflows name, one a line, or `none`
//!   planned all FILE..          the plan for all: a line `run R FLOW EVENT` for each run, and `job N ID legs K` for
//!   planned event NAME FILE..   each of its jobs; or its fault, with the run or job where it is; likewise for an event
//!   planned job ID FILE..       and for a job
//!   stages FILE..               the stages of the plan for all, one a line, with the run and the number of each job
//!   stages                      the same of the plan that the input is
//!
//! A file that is no workflow is told by its name and fault.

use crate::flow_calls;
use crate::flow_calls::put_fault;
use case_reader::Page;
use case_reader::loads::loaded;
use flow_model::{CheckedPlan, Duplicate, Flow, Mapping, Roots, RunPlan, Sequence, Text};
use flow_reader::read_flow;
use plan_assembler::staging::stages;
use plan_assembler::{FaultPlace, PlanFault, Planner};
use plan_text::load_plan;
use std::alloc::AllocError;

/// Does what a verb of these, of workflows or of expressions asks, and answers whether it is one.
pub fn perform(page: &mut Page<'_>) -> bool {
    match page.word(0) {
        "events" => events(page),
        "planned" => planned(page),
        "stages" => staged(page),
        _ => return flow_calls::perform(page),
    }
    true
}

/// A copy of the workflow of a file, or none where it is told why there is none.
fn flow(page: &mut Page<'_>, name: &str) -> Option<Flow> {
    let Some(file) = page.files.get(name) else {
        write!(page, "{name} no such file");
        return None;
    };
    match read_flow(page.alloc, name, file.as_slice()) {
        Ok(flow) => page.have(flow.copy(page.alloc)),
        Err(fault) => {
            write!(page, "{name} ");
            put_fault(page, &fault);
            None
        },
    }
}

/// A planner for the workflows that the words from a place on name, whose runs are handed no contexts.
fn planner(page: &mut Page<'_>, place: usize) -> Option<Planner> {
    let mut flows = Sequence::empty(page.alloc);
    for name in page.words.iter().skip(place) {
        let flow = flow(page, name.as_str())?;
        page.note(flows.push(flow));
    }
    let roots = Roots {
        github: Mapping::empty(page.alloc),
        inputs: Mapping::empty(page.alloc),
        secrets: Mapping::empty(page.alloc),
        vars: Mapping::empty(page.alloc),
    };
    Some(Planner::new(page.alloc, flows, roots))
}

/// Writes the events that the workflows name.
fn events(page: &mut Page<'_>) {
    if let Some(planner) = planner(page, 1) {
        put_events(page, planner.events());
    }
}

/// Writes events, one a line, or that there are none.
fn put_events(page: &mut Page<'_>, events: Result<Sequence<Text>, AllocError>) {
    if let Some(events) = page.have(events) {
        if events.is_empty() {
            page.put("none");
        }
        for event in events.as_slice() {
            writeln!(page, "{}", event.as_str());
        }
    }
}

/// The plan for all, of the workflows that the words from a place on name.
pub fn plan_all(page: &mut Page<'_>, place: usize) -> Option<CheckedPlan> {
    let planner = planner(page, place)?;
    have(page, planner.plan_all())
}

/// The plan for the event that the words name.
fn plan_event(page: &mut Page<'_>) -> Option<CheckedPlan> {
    let planner = planner(page, 3)?;
    have(page, planner.plan_event(page.word(2)))
}

/// The plan for the job that the words name.
fn plan_job(page: &mut Page<'_>) -> Option<CheckedPlan> {
    let planner = planner(page, 3)?;
    have(page, planner.plan_job(page.word(2)))
}

/// The plan that was made, or none where the fault is written, with the number of the run or job where it is.
fn have(page: &mut Page<'_>, plan: Result<CheckedPlan, PlanFault>) -> Option<CheckedPlan> {
    match plan {
        Ok(plan) => return Some(plan),
        Err(PlanFault::Expr(FaultPlace::Run(run), fault)) => write!(page, "Expr run {run} {fault}"),
        Err(PlanFault::Expr(FaultPlace::Job(job), fault)) => write!(page, "Expr job {job} {fault}"),
        Err(PlanFault::Matrix(job, fault)) => write!(page, "Matrix job {job} {fault}"),
        Err(fault) => page.put(fault.name()),
    }
    None
}

/// Writes the runs of the plan that the words ask for, each with its jobs.
fn planned(page: &mut Page<'_>) {
    let plan = match page.word(1) {
        "event" => plan_event(page),
        "job" => plan_job(page),
        _ => plan_all(page, 2),
    };
    if let Some(plan) = plan {
        for (number, run) in plan.plan().runs.as_slice().iter().enumerate() {
            put_run(page, number, run);
        }
    }
}

/// Writes a run and its jobs.
fn put_run(page: &mut Page<'_>, number: usize, run: &RunPlan) {
    let event = match &run.event {
        Some(name) => name.as_str(),
        None => "-",
    };
    writeln!(page, "run {number} {} {event}", run.flow.as_str());
    for job in run.jobs.as_slice() {
        let (id, legs) = (job.id.as_str(), job.legs.len());
        writeln!(page, "job {} {id} legs {legs}", job.number);
    }
}

/// Writes the stages of the plan for all, or of the plan that the input is.
fn staged(page: &mut Page<'_>) {
    let plan = match page.word(1) {
        "" => loaded(page, load_plan(page.alloc, page.input)),
        _ => plan_all(page, 1),
    };
    if let Some(plan) = plan {
        put_stages(page, &plan);
    }
}

/// Writes the stages of a plan.
fn put_stages(page: &mut Page<'_>, plan: &CheckedPlan) {
    if let Some(stages) = page.have(stages(page.alloc, plan)) {
        for (stage, jobs) in stages.as_slice().iter().enumerate() {
            put_stage(page, stage, jobs.as_slice());
        }
    }
}

/// Writes a stage: the run and the number of each of its jobs.
fn put_stage(page: &mut Page<'_>, stage: usize, jobs: &[(u64, u64)]) {
    write!(page, "{stage}:");
    for (run, job) in jobs {
        write!(page, " ({run}, {job})");
    }
    page.put("\n");
}
