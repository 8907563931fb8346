//! What a play comes to.

use flow_model::{Entry, Sequence};
use step_host::PlayBoard;

/// How a play ended.
#[derive(Clone, Copy)]
pub enum Ending {
    /// Every run is closed.
    Done,
    /// Something is left, but nothing goes on.
    Stalled,
}

/// A play that came to an end.
#[derive(Drop)]
pub struct Played {
    /// The entries that the table accepted, in their order.
    pub history: Sequence<Entry>,
    pub ending: Ending,
    /// The plan in play after them.
    pub left: PlayBoard,
}
