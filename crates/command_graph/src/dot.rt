//! The graph of a plan.

ghost use Rattle.std.specs.Prelude.{[], ◌≡◌, ◌+◌, IfOk, OnOk, slice_get};
ghost use Rattle.std.specs.List.{flat_map};
ghost use Rattle.std.specs.Option.{option_copied};
ghost use Rattle.command_graph.specs.Dot as spec;
ghost use Rattle.command_graph.specs.Labels.{HasStrings, graph_strings};
ghost use Rattle.command_graph.specs.Quoted.{Adds};

use crate::label::{job_label, later, run_label};
use crate::quoted::add_quoted;
use crate::standing::{Stand, legs_at, stand_at, stand_colour, stand_of_run};
use crate::writing::{add, add_number};
use flow_model::{Board, JobPlan, Plan, Run, RunPlan};
use std::alloc::{AllocError, Global};

/// Ends the statement of a node, with its colour where there is a board.
fn end_node(text: &mut Vec<u8>, stand: Option<Stand>) -> Result<(), AllocError>
    ensures { OnOk result (Adds text.old.items text.new.items (spec.node_end stand)) }
{
    match stand {
        Some(stand) => add(text, &[" fillcolor=", stand_colour(stand), "];\n"]),
        None => add(text, &["];\n"]),
    }
}

/// Adds the node of a job.
fn add_node(
    text: &mut Vec<u8>,
    number: u64,
    label: &[u8],
    stand: Option<Stand>,
) -> Result<(), AllocError>
    ensures { OnOk result
        (Adds text.old.items text.new.items (spec.node_text number label.now stand)) }
{
    add_number(text, "\t\tj", number)?;
    add(text, &[" [label="])?;
    add_quoted(text, label)?;
    end_node(text, stand)
}

/// Adds the edge from a job that is needed.
fn add_edge(text: &mut Vec<u8>, number: u64, need: u64) -> Result<(), AllocError>
    ensures { OnOk result (Adds text.old.items text.new.items (spec.edge_text number need)) }
{
    add_number(text, "\t\tj", need)?;
    add_number(text, " -> j", number)?;
    add(text, &[";\n"])
}

/// Adds an edge from each job that a job needs.
fn add_edges(text: &mut Vec<u8>, number: u64, needs: &[u64]) -> Result<(), AllocError>
    ensures { OnOk result
        (Adds text.old.items text.new.items (flat_map (spec.edge_text number) needs.now)) }
{
    for need in needs {
        add_edge(text, number, *need)?;
    }
    Ok(())
}

/// Adds the job at a place of a run, of whose legs the first has this number.
fn add_job(
    text: &mut Vec<u8>,
    run: Option<&Run>,
    place: usize,
    first: u64,
    job: &JobPlan,
) -> Result<(), AllocError>
    ensures { OnOk result (Adds text.old.items text.new.items
        (spec.job_text (option_copied run.entry) place first job.now)) }
{
    let stand = stand_at(run, place);
    let label = job_label(*text.allocator(), first, job, stand, legs_at(run, place))?;
    add_node(text, job.number, label.as_slice(), stand)?;
    add_edges(text, job.number, job.needs.as_slice())
}

/// Adds the jobs of a run, and gives the number of the first leg after theirs.
fn add_jobs(
    text: &mut Vec<u8>,
    run: Option<&Run>,
    first: u64,
    jobs: &[JobPlan],
) -> Result<u64, AllocError>
    ensures text { OnOk result (Adds text.old.items text.new.items
        (spec.jobs_text (option_copied run.entry) 0 first jobs.now)) }
    ensures next { IfOk result (λ next. next ≡ first + spec.legs_count jobs.now) }
{
    let mut number = first;
    for (place, job) in jobs.iter().enumerate() {
        add_job(text, run, place, number, job)?;
        number = later(number, job.legs.len())?;
    }
    Ok(number)
}

/// Begins the cluster of a run.
fn begin_cluster(text: &mut Vec<u8>, number: u64, label: &[u8]) -> Result<(), AllocError>
    ensures { OnOk result
        (Adds text.old.items text.new.items (spec.cluster_begin number label.now)) }
{
    add_number(text, "\tsubgraph cluster_", number)?;
    add(text, &[" {\n\t\tlabel="])?;
    add_quoted(text, label)?;
    add(text, &[";\n"])
}

/// Begins the cluster of a run with its label.
fn begin_run(
    text: &mut Vec<u8>,
    state: Option<&Run>,
    number: u64,
    run: &RunPlan,
) -> Result<(), AllocError>
    ensures { OnOk result (Adds text.old.items text.new.items
        (spec.run_begin (option_copied state.entry) number run.now)) }
{
    let label = run_label(*text.allocator(), number, run, stand_of_run(state))?;
    begin_cluster(text, number, label.as_slice())
}

/// Adds the cluster of a run, and gives the number of the first leg after its legs.
fn add_cluster(
    text: &mut Vec<u8>,
    state: Option<&Run>,
    number: u64,
    first: u64,
    run: &RunPlan,
) -> Result<u64, AllocError>
    ensures text { OnOk result (Adds text.old.items text.new.items
        (spec.run_text (option_copied state.entry) number first run.now)) }
    ensures next { IfOk result (λ next. next ≡ first + spec.legs_count run.now.jobs) }
{
    begin_run(text, state, number, run)?;
    let next = add_jobs(text, state, first, run.jobs.as_slice())?;
    add(text, &["\t}\n"])?;
    Ok(next)
}

/// Adds the cluster of the run at a place, and gives the number of the first leg after its legs.
fn add_run(
    text: &mut Vec<u8>,
    states: &[Run],
    place: usize,
    first: u64,
    run: &RunPlan,
) -> Result<u64, AllocError>
    ensures text { OnOk result (Adds text.old.items text.new.items
        (spec.run_text (slice_get states.now place) place first run.now)) }
    ensures next { IfOk result (λ next. next ≡ first + spec.legs_count run.now.jobs) }
{
    add_cluster(text, states.get(place), place as u64, first, run)
}

/// Adds the clusters of runs.
fn add_runs(text: &mut Vec<u8>, states: &[Run], runs: &[RunPlan]) -> Result<(), AllocError>
    ensures { OnOk result
        (Adds text.old.items text.new.items (spec.runs_text states.now 0 0 runs.now)) }
{
    let mut next = 0;
    for (place, run) in runs.iter().enumerate() {
        next = add_run(text, states, place, next, run)?;
    }
    Ok(())
}

/// The graph of a plan whose board has these runs.
fn graph_text(alloc: Global, plan: &Plan, states: &[Run]) -> Result<Vec<u8>, AllocError>
    ensures { IfOk result (λ text. text.items ≡ spec.graph_text plan.now states.now) }
{
    let mut text = Vec::new(alloc);
    add(
        &mut text,
        &[
            "digraph plan {\n\trankdir=LR;\n\tfontname=Helvetica;\n",
            "\tnode [shape=box style=filled fillcolor=white fontname=Helvetica];\n",
        ],
    )?;
    add_runs(&mut text, states, plan.runs.as_slice())?;
    add(&mut text, &["}\n"])?;
    Ok(text)
}

/// The graph of a plan alone, in DOT. What stands in quotes is read as the labels, whatever texts the plan has.
pub fn plan_graph(alloc: Global, plan: &Plan) -> Result<Vec<u8>, AllocError>
    ensures text { IfOk result (λ text. text.items ≡ spec.plan_graph plan.now) }
    ensures strings { IfOk result (λ text. HasStrings (graph_strings plan.now []) text.items) }
{
    graph_text(alloc, plan, &[])
}

/// The graph of a plan in play, in DOT: each run, job and leg says how it stands, and jobs are coloured. What stands in quotes is
/// read as the labels, whatever texts the plan has.
pub fn board_graph(alloc: Global, plan: &Plan, board: &Board) -> Result<Vec<u8>, AllocError>
    ensures text { IfOk result (λ text. text.items ≡ spec.board_graph plan.now board.now) }
    ensures strings { IfOk result
        (λ text. HasStrings (graph_strings plan.now board.now.runs) text.items) }
{
    graph_text(alloc, plan, board.runs.as_slice())
}
