//! The right to put tickets and to take them.

ghost use Rattle.std.specs.Prelude.{◌≡◌, [], ◌<◌, length};
ghost use Rattle.crossbeam_queue.specs.Passes.{view};
ghost use Rattle.ready_queue.specs.Records.{all_put, all_taken};
ghost use Rattle.ready_queue.specs.Tally.{Counts};

use crate::record::Records;
use crate::tally::Tally;

/// The right of one thread to put tickets and to take them. Contracts see the records under it: what it
/// has put and taken itself, and what was done by the passes that were joined to it.
#[derive(Drop)]
pub struct Pass {
    pub(crate) seat: crossbeam_queue::Pass<u64, Records>,
    pub(crate) tally: Tally,
    ghost live: { 0 < length (view seat) },
    ghost counts: { Counts (length (all_put (view seat))) (length (all_taken (view seat))) tally },
}
