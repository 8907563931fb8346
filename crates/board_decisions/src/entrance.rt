//! How a member enters a concurrency group.

use flow_model::{Member, Text};

/// Who enters a concurrency group.
#[derive(Clone, Copy)]
pub struct Entrant {
    pub who: Member,
    /// The run that a leg is one of; a run has none.
    pub own: Option<u64>,
}

/// The name of the group, in small letters and not empty, and whether its holder is told to stop.
#[derive(Drop)]
pub struct Entrance {
    pub name: Text,
    pub cancel: bool,
}
