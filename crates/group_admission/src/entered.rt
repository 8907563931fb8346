//! What entering a group answers.

use flow_model::Member;

/// What became of a member that entered a group.
#[derive(Clone, Copy)]
pub enum Entered {
    /// It holds the group, or the name is empty and names none.
    Admitted,
    /// Another member holds the group, and this one waits for it.
    Waiting {
        /// The member that waited before, and no longer does.
        displaced: Option<Member>,
        /// The holder, where the cancel flag asks it to stop.
        stopped: Option<Member>,
    },
    /// The run that the leg is of holds the group; nothing is changed.
    OwnRun,
}
