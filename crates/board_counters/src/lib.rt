//! board_counters: a plan in play with what is counted beside its board, each change of which can be taken back.
//!
//! Beside the board `Counted` keeps, for each job, how its legs stand (`tally`) and how many of the jobs that it
//! needs are open (`need`), for each run how its jobs stand (`standing`) and how many of its legs are told to stop
//! (`stopping`), for each leg whether a done step failed (`failing`), and what stays whatever is changed (`lasting`): the places of the jobs and legs by their numbers, which jobs
//! need which (`dependents`), and of which no text of the variables is evaluated. Each of its changes (`change`) keeps these,
//! and gives what takes it back (`undo`). `Tracked` keeps what takes back the changes since it last began,
//! so that a caller of several changes says nothing of each: after any of them it still leads back to the same
//! board.
//!
//! What the counters are is in `specs/Counters.antt`, `Standing`, `Stopping` and `Failing`, what stays in `Lasting`, and to which board changes lead back in `specs/Undo.antt`.
//! The crate stands on `status_table` for what changes a board, and on `board_decisions` and `flow_model`.

#![tactic(auto)]

pub mod change;
pub mod counted;
mod counts;
mod dependents;
mod failing;
mod lasting;
mod need;
mod standing;
mod stopping;
pub mod tally;
pub mod tracked;
pub mod undo;

pub use change::RunChange;
pub use counted::Counted;
pub use standing::RunTally;
pub use stopping::RunLegs;
pub use tally::Tally;
pub use tracked::Tracked;
pub use undo::{Change, Changes, OnlyChange};
