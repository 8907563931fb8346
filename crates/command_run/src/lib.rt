//! command_run: the command `run`, which plays a plan by programs.
//!
//! `run` writes what the steps of a plan printed, as it is shown, and how the runs ended, or one line that says why there is
//! nothing to tell or why the play stopped; it answers an exit status always. Its contract says what is told of some
//! history that the table accepts. While a plan is played, its record grows in a file (`GrowingRecord`). The crate stands on
//! `command_io`, which reads, tells and refuses, on `plan_text`, which reads plans and prints records, on `step_host`, which
//! starts programs, on `flow_commands`, which shows what they printed, on `worker_pool`, which plays plans, on
//! `locked_board`, whose recorders are told of entries, and on `status_table`, whose words say what was played.

#![tactic(auto)]

pub mod environment;
pub mod growing;
pub mod growing_files;
mod log_files;
pub mod machine;
mod plan_masks;
mod playing;
pub mod progress;
pub mod record_file;
pub mod run;
mod run_lines;
mod started_steps;
mod step_logs;
pub mod step_names;
mod stubs;
mod whole_file;
mod workspace;
