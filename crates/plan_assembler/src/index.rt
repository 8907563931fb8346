//! The places of a workflow's jobs, looked up by their ids.

ghost use Rattle.std.specs.Prelude.{◌≡◌, IfOk, OnOk};
ghost use Rattle.plan_assembler.specs.Index.{Indexes, Notes};
ghost use Rattle.plan_assembler.specs.Layout as layout;

use flow_model::{FlowJob, Sequence, Text};
use indexmap::IndexMap;
use std::alloc::{AllocError, Global};

/// Notes the place of an id that has none yet.
fn note(
    alloc: Global,
    index: &mut IndexMap<String, usize>,
    id: &Text,
    place: usize,
) -> Result<(), AllocError>
    ensures { OnOk result (Notes id.now place index.old index.new) }
{
    if index.contains_key(id.as_str()) {
        return Ok(());
    }
    let id = String::from_str(alloc, id.as_str())?;
    index.insert(id, place)?;
    Ok(())
}

/// The places of jobs by their ids.
pub(crate) fn index_of(
    alloc: Global,
    jobs: &Sequence<FlowJob>,
) -> Result<IndexMap<String, usize>, AllocError>
    ensures { IfOk result (Indexes (layout.ids_of jobs.now)) }
{
    let jobs = jobs.as_slice();
    let mut index = IndexMap::with_capacity(alloc, jobs.len())?;
    for (place, job) in jobs.iter().enumerate() {
        note(alloc, &mut index, &job.id, place)?;
    }
    Ok(index)
}

/// The place of the job with this id, which is beyond all of them where none has it.
pub(crate) fn place_of(
    index: &IndexMap<String, usize>,
    jobs: &Sequence<FlowJob>,
    id: &Text,
) -> usize
    requires { Indexes (layout.ids_of jobs.now) index.now }
    ensures { result ≡ layout.place_of (layout.ids_of jobs.now) id.now }
{
    match index.get(id.as_str()) {
        Some(place) => *place,
        None => jobs.len(),
    }
}

/// Whether a job has this id.
pub(crate) fn is_id(index: &IndexMap<String, usize>, jobs: &Sequence<FlowJob>, id: &Text) -> bool
    requires { Indexes (layout.ids_of jobs.now) index.now }
    ensures { result ≡ layout.is_one_of (layout.ids_of jobs.now) id.now }
{
    place_of(index, jobs, id) < jobs.len()
}
