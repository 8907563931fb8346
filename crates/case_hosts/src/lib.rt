//! case_hosts: the verbs of hosts and of plays over them, of a board under its lock, of tickets, and of programs' texts.
//!
//! `perform` does what a verb asks that stands at the head of `host_calls`, `pool_calls`, `board_calls`, `ticket_calls` or
//! `text_calls`. It stands on `worker_pool`, `step_host`, `locked_board`, `ready_queue` and `flow_commands`, on what is below
//! them, and on the other verbs; it promises no more than that it answers.

#![tactic(auto)]

mod board_calls;
mod held_calls;
mod host_calls;
mod pool_calls;
pub mod text_calls;
mod ticket_calls;
mod verbs;

pub use verbs::perform;
