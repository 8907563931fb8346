//! worker_pool: plays a plan to its end by one thread, or by a recorded list, and has what several workers do.
//!
//! What a player promises rests on the table of `status_table`: its history is a list of entries that the table accepts.
//! `play_alone` plays by one thread, and `play_entries` replays a list; both ask a host of `step_host` for the answers
//! to the calls. `stalls` has what keeps such a list from going on to the end, and `settles` what a play comes to
//! where nothing rests on the order of events; `settled_check` says of a record whether it came to that.

#![tactic(auto)]

pub mod agreement;
pub mod alone;
mod answers;
mod asking;
mod bell;
mod crew;
pub mod entries;
pub mod fault;
mod halt;
mod log;
mod logs;
mod lowest;
pub mod many;
pub mod own;
pub mod played;
mod playing;
mod review;
pub mod settled;
pub mod settles;
pub mod stalls;
mod stop;
mod worker;

pub use agreement::agree;
pub use alone::{play_alone, play_alone_recorded};
pub use entries::play_entries;
pub use fault::PoolFault;
pub use many::{play, play_recorded};
pub use played::{Ending, Played};
pub use settled::settled_check;
