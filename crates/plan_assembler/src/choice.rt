//! Which workflows make a run, and of which jobs.

use flow_model::Text;

/// What a plan is made for.
#[derive(Drop)]
pub enum Choice {
    /// The workflows that name this event, with all their jobs.
    Event(Text),
    /// The workflows that have a job of this id, with that job and all that it needs, directly or not.
    Job(Text),
    /// All workflows, with all their jobs.
    All,
}
