//! step_host: what the answer to a step's call comes from.
//!
//! A host means a relation, `admits`: which answers it admits for a call. The trait `StepHost` promises that an admitted
//! answer is well-formed, and that `play` answers only what is admitted; `DecidedHost`, that a call admits one answer at
//! most. What it means that a list of entries is lawful over a host, so that each call of a step is answered as the host
//! admits, is in `specs/Lawful.antt`, and what follows from that in `laws`.
//!
//! Two hosts are decided, and look at the leg and the step of a call alone: `ScriptHost` admits the answers of a list, and
//! `ReplayHost` those that a legal list of entries gave, which is lawful over it. `Masked` gives the answers of another host
//! with the values of their outputs and variables masked. `ProgramHost` starts a program for each step, and admits every
//! well-formed answer: how a program is started and what its end answers is said of values (`specs/Program.antt`).
//!
//! The readers and makers of the texts of programs are offered here too: `shell_words`, `read_output_file`, `read_env_file`,
//! `read_commands`, `shown` and `mask` (`flow_commands`).
//!
//! The crate stands on `status_table`, whose table says which call a step makes, on `flat_board`, the board on which plans
//! are played (`PlayBoard`), on `board_decisions` for where a leg stands, on `flow_commands`, which reads and makes the texts
//! of programs, on `flow_model`, and on `thiserror` for its errors.

#![tactic(auto)]

pub mod board;
mod command;
mod ending;
pub mod fault;
mod files;
pub mod host;
mod launch;
pub mod laws;
mod log;
pub mod masked;
pub mod program;
pub mod replay;
pub mod script;
pub mod watch;
pub mod watched;

pub use board::PlayBoard;
pub use fault::{HostFault, ScriptFault};
pub use files::{new_file, open_regular};
pub use flow_commands::{
    Masks, mask, read_commands, read_env_file, read_output_file, shell_words, shown,
};
pub use host::{DecidedHost, StepHost, WatchedHost};
pub use launch::log_file;
pub use masked::Masked;
pub use program::ProgramHost;
pub use replay::ReplayHost;
pub use script::ScriptHost;
pub use watch::{Refusal, Unstarted, Watch};
pub use watched::Watched;
