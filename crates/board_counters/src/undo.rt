//! What takes one change of a board back.

use crate::change::RunChange;
use board_decisions::place::{JobPlace, LegPlace};
use flow_model::{JobState, LegState};
use smallvec::SmallVec;
use status_table::change::LegChange;

/// What takes back the only change of an entry, where that is a leg's state or a step that is done. It has no memory of
/// its own. The state stands first: it fits beside the tag.
#[derive(Clone, Copy)]
pub enum OnlyChange {
    /// A leg comes into a state.
    State(LegState, LegPlace),
    /// The last step of a leg is taken off, and the leg comes into a state.
    Step(LegState, LegPlace),
}

/// What takes a change of a board back.
#[derive(Drop)]
pub enum Change {
    /// A leg is put back.
    Leg(LegPlace, LegChange),
    /// The last step of a leg is taken off, and the leg comes into a state.
    Step(LegPlace, LegState),
    /// A job comes into a state.
    Job(JobPlace, JobState),
    /// A run is put back, but for its jobs.
    Run(usize, RunChange),
    /// The last of the ends is taken off.
    End,
}

impl Default for Change {
    /// What stands where there is room for a change.
    fn default() -> Change {
        Change::End
    }
}

/// What takes the changes of one entry back, the last of them first. As many as an entry makes have room in place.
pub type Changes = SmallVec<Change, 4>;
