//! Where a plan is executed.

use std::alloc::Global;

/// The files, the folder in which programs start, and the names of the files for the record and its
/// times, if they are named.
#[derive(Drop)]
pub(crate) struct Workspace<'p, F> {
    pub(crate) alloc: Global,
    pub(crate) files: &'p F,
    pub(crate) work: &'p str,
    pub(crate) record: Option<&'p str>,
    pub(crate) times: Option<&'p str>,
}
