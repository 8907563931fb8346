//! The place of a fault for which a workflow comes to no plan.

ghost use Rattle.std.specs.Prelude.{◌≡◌, IsTrue, IfOk, IfSome, Some, codes};
ghost use Rattle.std.specs.List.{All};
ghost use Rattle.serde_json.specs.Find.{as_str, get};
ghost use Rattle.serde_json.specs.View.{view};
ghost use Rattle.flow_model.specs.JsonText.{json_read};
ghost use Rattle.flow_reader.specs.Load.{flow_read};
ghost use Rattle.flow_lint.specs.Cycles.{TellsCycle};
ghost use Rattle.flow_lint.specs.FaultNodes.{HasText};
ghost use Rattle.flow_lint.specs.Nodes.{AreAll, Fits, HasNeed};
ghost use Rattle.flow_lint.specs.Notes.{IsPlanNote, IsSeenOrWhole, JobsNote, OfFlow, OfJson, TellsNeed};
ghost use Rattle.flow_lint.specs.Shows.{ShowsText};

use crate::cycles::find_cycle;
use crate::kind::NodeKind;
use crate::node::{Node, job_path, nodes_of};
use crate::note::{Note, noted};
use crate::sentences::{json_sentence, many_sentence, matrix_sentence, text_sentence};
use crate::texts::read_text;
use crate::unknown::{need_sentence, unknown_need};
use expr_reader::ExprFault;
use flow_model::{FlowJob, Sequence, read_json};
use flow_reader::{FlowFault, read_flow};
use matrix_expand::{MatrixFault, expand};
use plan_assembler::PlanFault;
use serde_json::Value;
use std::alloc::{AllocError, Global};

/// Whether a fault of that name stands at that byte of the text at a place.
fn shows_text(alloc: Global, node: &Node, fault: ExprFault) -> Result<bool, AllocError>
    ensures { IfOk result (λ is. IsTrue is → HasText fault node.now) }
{
    match read_text(alloc, node) {
        Some(Err(found)) => {
            if found.is_memory() {
                return Err(AllocError);
            }
            Ok(found.name() == fault.name() && found.place() == fault.place())
        },
        Some(Ok(_)) => Ok(false),
        None => Ok(false),
    }
}

/// The first place of a text with this fault; of the directories that scripts share, or of the others.
fn find_text<'n, 'v>(
    alloc: Global,
    root: &Value,
    nodes: &'n [Node<'v>],
    fault: ExprFault,
    shared: bool,
) -> Result<Option<&'n Node<'v>>, AllocError>
    requires { All (Fits (view root.now)) nodes.now }
    ensures { IfOk result (λ found. IfSome found (λ node.
        Fits (view root.now) node.now × HasText fault node.now)) }
{
    for node in nodes {
        if (node.kind == NodeKind::SharedDirectory) == shared && shows_text(alloc, node, fault)? {
            return Ok(Some(node));
        }
    }
    Ok(None)
}

/// The first place of a text with this fault: that of a directory that scripts share is read for each of them.
fn find_unread<'n, 'v>(
    alloc: Global,
    root: &Value,
    nodes: &'n [Node<'v>],
    fault: ExprFault,
) -> Result<Option<&'n Node<'v>>, AllocError>
    requires { All (Fits (view root.now)) nodes.now }
    ensures { IfOk result (λ found. IfSome found (λ node.
        Fits (view root.now) node.now × HasText fault node.now)) }
{
    match find_text(alloc, root, nodes, fault, false)? {
        Some(node) => Ok(Some(node)),
        None => find_text(alloc, root, nodes, fault, true),
    }
}

/// What is to be known of a text that cannot be read, which was found at a place, or at none.
fn text_noted_at(
    alloc: Global,
    root: &Value,
    node: Option<&Node>,
    fault: ExprFault,
) -> Result<Note, AllocError>
    requires { IfSome node (λ node. Fits (view root.now) node.now × HasText fault node.now) }
    ensures { IfOk result (λ note. IsSeenOrWhole (view root.now) note.path (ShowsText fault)) }
{
    let path = match node {
        Some(node) => node.path.as_str(),
        None => "",
    };
    noted(alloc, path, text_sentence(alloc, fault)?)
}

/// What is to be known of a text that cannot be read, in a file's bytes.
fn text_note(alloc: Global, bytes: &[u8], fault: ExprFault) -> Result<Note, AllocError>
    ensures { IfOk result (λ note. OfJson (json_read bytes.now) (λ root.
        IsSeenOrWhole root note.path (ShowsText fault))) }
{
    match read_json(alloc, bytes)? {
        Some(root) => {
            let nodes = nodes_of(alloc, &root)?;
            let found = find_unread(alloc, &root, nodes.as_slice(), fault)?;
            text_noted_at(alloc, &root, found, fault)
        },
        None => noted(alloc, "", json_sentence(alloc)?),
    }
}

/// What is to be known of a place where a need stands that is no job.
fn need_noted(alloc: Global, root: &Value, node: &Node, id: &str) -> Result<Note, AllocError>
    requires fits { Fits (view root.now) node.now }
    requires need { HasNeed (get (codes "jobs") (view root.now)) node.now }
    requires id { as_str (view node.now.value.now) ≡ Some id.now }
    ensures { IfOk result (TellsNeed (view root.now)) }
{
    noted(alloc, node.path.as_str(), need_sentence(alloc, root, id)?)
}

/// What is to be known of the first of some places where a need stands that is no job.
fn need_noted_in(alloc: Global, root: &Value, nodes: &[Node]) -> Result<Note, AllocError>
    requires fit { All (Fits (view root.now)) nodes.now }
    requires all { AreAll (view root.now) nodes.now }
    ensures { IfOk result (TellsNeed (view root.now)) }
{
    for node in nodes {
        if let Some(id) = unknown_need(node, root) {
            return need_noted(alloc, root, node, id);
        }
    }
    noted(alloc, "", String::from_str(alloc, "a need is no job")?)
}

/// What is to be known of a need that is no job, in a file's bytes.
fn need_note(alloc: Global, bytes: &[u8]) -> Result<Note, AllocError>
    ensures { IfOk result (λ note. OfJson (json_read bytes.now) (λ root. TellsNeed root note)) }
{
    match read_json(alloc, bytes)? {
        Some(root) => {
            let nodes = nodes_of(alloc, &root)?;
            need_noted_in(alloc, &root, nodes.as_slice())
        },
        None => noted(alloc, "", json_sentence(alloc)?),
    }
}

/// What is to be known of jobs that need themselves.
fn cycle_note(alloc: Global, jobs: &Sequence<FlowJob>) -> Result<Note, AllocError>
    ensures { IfOk result (TellsCycle jobs.now) }
{
    match find_cycle(alloc, jobs)? {
        Some(note) => Ok(note),
        None => noted(
            alloc,
            "jobs",
            String::from_str(alloc, "a job needs itself")?,
        ),
    }
}

/// Whether the matrix of a job has no combinations.
fn is_without_legs(alloc: Global, job: &FlowJob) -> Result<bool, AllocError> {
    match &job.matrix {
        Some(matrix) => match expand(alloc, matrix) {
            Ok(_) => Ok(false),
            Err(MatrixFault::Memory) => Err(AllocError),
            Err(_) => Ok(true),
        },
        None => Ok(false),
    }
}

/// The first job whose matrix has no combinations.
fn find_matrix<'j>(alloc: Global, jobs: &'j [FlowJob]) -> Result<Option<&'j FlowJob>, AllocError> {
    for job in jobs {
        if is_without_legs(alloc, job)? {
            return Ok(Some(job));
        }
    }
    Ok(None)
}

/// What is to be known of a matrix that has no combinations.
fn matrix_note(alloc: Global, jobs: &[FlowJob], fault: MatrixFault) -> Result<Note, AllocError> {
    let sentence = matrix_sentence(alloc, fault)?;
    match find_matrix(alloc, jobs)? {
        Some(job) => {
            let path = job_path(alloc, job.id.as_str(), "strategy.matrix")?;
            noted(alloc, path.as_str(), sentence)
        },
        None => noted(alloc, "jobs", sentence),
    }
}

/// The first job of more than 256 steps.
fn find_long(jobs: &[FlowJob]) -> Option<&FlowJob> {
    jobs.iter().find(|job| 256 < job.steps.len())
}

/// What is to be known where there are more jobs, steps or legs than the limits allow.
fn many_note(alloc: Global, jobs: &[FlowJob]) -> Result<Note, AllocError> {
    let sentence = many_sentence(alloc)?;
    if 256 < jobs.len() {
        return noted(alloc, "jobs", sentence);
    }
    match find_long(jobs) {
        Some(job) => {
            let path = job_path(alloc, job.id.as_str(), "steps")?;
            noted(alloc, path.as_str(), sentence)
        },
        None => noted(alloc, "jobs", sentence),
    }
}

/// What is to be known of a fault among jobs.
fn jobs_note(alloc: Global, jobs: &Sequence<FlowJob>, fault: PlanFault) -> Result<Note, AllocError>
    ensures { IfOk result (JobsNote jobs.now fault) }
{
    match fault {
        PlanFault::Cycle => cycle_note(alloc, jobs),
        PlanFault::Matrix(_, fault) => matrix_note(alloc, jobs.as_slice(), fault),
        PlanFault::Expr(_, _)
        | PlanFault::UnknownNeed
        | PlanFault::UnknownJob
        | PlanFault::NoWorkflow
        | PlanFault::TooMany
        | PlanFault::Memory => many_note(alloc, jobs.as_slice()),
    }
}

/// What is to be known of a fault of a workflow, in a file's bytes.
fn flow_jobs_note(
    alloc: Global,
    name: &str,
    bytes: &[u8],
    fault: PlanFault,
) -> Result<Note, AllocError>
    ensures { IfOk result (λ note. OfFlow (flow_read name.now bytes.now) (λ workflow.
        JobsNote workflow.jobs fault note)) }
{
    match read_flow(alloc, name, bytes) {
        Ok(flow) => jobs_note(alloc, &flow.workflow().jobs, fault),
        Err(FlowFault::Memory) => Err(AllocError),
        Err(_) => noted(alloc, "jobs", many_sentence(alloc)?),
    }
}

/// Where a fault stands for which the workflow of a file of this name comes to no plan, and what to write there instead.
///
/// # Errors
///
/// Want of memory.
pub fn plan_note(
    alloc: Global,
    name: &str,
    bytes: &[u8],
    fault: PlanFault,
) -> Result<Note, AllocError>
    ensures { IfOk result (IsPlanNote name.now bytes.now fault) }
{
    match fault {
        PlanFault::Expr(_, fault) => text_note(alloc, bytes, fault),
        PlanFault::UnknownNeed => need_note(alloc, bytes),
        PlanFault::Cycle => flow_jobs_note(alloc, name, bytes, fault),
        PlanFault::UnknownJob
        | PlanFault::NoWorkflow
        | PlanFault::TooMany
        | PlanFault::Matrix(_, _)
        | PlanFault::Memory => flow_jobs_note(alloc, name, bytes, fault),
    }
}
