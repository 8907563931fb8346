//! command_debug: the command `debug`, a record under the debugger that is asked line by line.
//!
//! `debug` reads the input line by line, and writes what the debugger answers to each line before it waits for the next; or
//! it writes one line that says why the record is not played, or why it stopped. It answers an exit status always, and its
//! contract says what was told of the lines that were read, however it ended. `kept` reads the record and keeps each entry
//! small as it comes, `requests` reads exactly what a line asks, `answers` says what is told of it, `gathered` keeps that until
//! it is written, and `session` goes over the lines. The crate stands on `command_io`, which reads, tells and refuses, on
//! `plan_text`, which reads records and prints boards, on `debugger`, which goes through records, and on `itoa`, which prints
//! numbers.

#![tactic(auto)]

mod answers;
pub mod debug;
mod gathered;
mod kept;
mod requests;
mod session;
