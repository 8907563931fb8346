//! case_boards: the verbs of records that are played and of concurrency groups, and records that are played on both boards.
//!
//! `perform` does what a verb asks that stands at the head of `plays` or `group_calls`; `compare` plays a record on both boards
//! of the table. It stands on `status_table`, `flat_board` and `group_admission`, on `flow_model` and
//! `plan_text`, and on `case_reader`; it promises no more than that it answers.

#![tactic(auto)]

mod both_boards;
mod group_calls;
mod plays;

pub use both_boards::{compare, put_difference};
pub use plays::{perform, run_again};
