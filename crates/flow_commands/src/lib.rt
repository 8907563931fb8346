//! flow_commands: the texts that programs are started by and that they leave.
//!
//! They are read and made exactly as `specs/` says: the words of a shell (`shell_words`), what a file of outputs gives
//! (`read_output_file`) and a file of variables (`read_env_file`), the commands in what a step prints (`read_commands`), what
//! is shown of it (`shown`), masked texts (`mask`), in one pass however many masks there are (`Masks`), and what is shown of a
//! log, line by line (`LogTeller`). What these definitions mean as grammars is said in `laws`.
//!
//! The crate knows no board and no table. It stands on `flow_model` for texts and for which pairs an answer may have, on
//! `expr_reader`, which folds texts, and on `thiserror` for its error.

#![tactic(auto)]

pub mod command_lines;
mod escapes;
pub mod laws;
pub mod line;
pub mod logs;
mod mask_tree;
pub mod masks;
pub mod output_fault;
pub mod pair_file;
pub mod replace;
pub mod shell;
pub mod showing;
mod splits;

pub use command_lines::read_commands;
pub use line::Line;
pub use logs::{LogTeller, plain_line};
pub use masks::{Masks, mask};
pub use output_fault::OutputFault;
pub use pair_file::{read_env_file, read_output_file};
pub use shell::shell_words;
pub use showing::shown;
