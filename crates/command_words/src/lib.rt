//! command_words: the command line.
//!
//! `run_line` runs the command that the words of a command line ask for, and answers its exit status always: what it leaves
//! is what one of the commands tells, or the one line of an error. The crate alone stands on `clap`, which takes words
//! apart; the commands are those of `command_print`, `command_debug`, `command_graph`, `command_timeline`,
//! `command_why` and `command_run`.

#![tactic(auto)]

mod asked;
mod choice;
pub mod folder;
mod known;
mod question;
pub mod words;
