//! command_io: what all commands of the program read, write and refuse.
//!
//! A source is read to its end, a sink takes a text whole or a beginning of it, and both know whether a call on them has
//! failed. What keeps a command from its answer is an error, which is told in one line; `error` has all exit statuses
//! and `tell` what a command leaves of its answer. `files` reads files by name, `contexts` the contexts of a file,
//! `records` plays a record that is loaded or says why it is not played, `laws` that what was played can be loaded again,
//! `stop` why a play stopped, and `runs` how runs ended. `pictured` shows names in lines. `room` has what is let go handed out
//! again. The crate stands on the crates whose faults it tells: `expr_reader`, `flow_model`, `flow_reader`, `plan_assembler`,
//! `plan_text` and `status_table`.

#![tactic(auto)]

pub mod bounded;
pub mod contexts;
pub mod error;
pub mod files;
pub mod laws;
pub mod pictured;
pub mod records;
pub mod room;
pub mod runs;
pub mod stop;
pub mod stream;
pub mod tell;
