//! What comes of a list of entries that is played over the host of its own answers,
//! as the contract of a function that does nothing.

ghost use Rattle.worker_pool.specs.Own.{GivesBoards};

use step_host::{ReplayHost, StepHost};

/// Playing a list over the host that was made of it, over which it is lawful, gives the board after
/// the list, or there is no memory.
pub fn own_lists_are_replayed(host: &ReplayHost)
    ensures { GivesBoards (⟦<ReplayHost as StepHost>⟧.admits host.now)
        (⟦<ReplayHost as StepHost>⟧.declines host.now) }
{}
