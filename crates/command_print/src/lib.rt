//! command_print: the commands that read files and write one answer, each as one public function over sources and sinks, which
//! carries the theorem of what it writes.
//!
//! `table` writes the text of the board after the record that it reads, `eval` the value of an expression, `plan` the plan
//! that workflows come to, `list` the jobs of that plan by their stages, `lint` what is to be known of workflows' files,
//! `replay` the board of a record that is played again, `replay_changes` what each of its entries changes, or one line that says
//! why there is none; each answers an exit status always. The crate stands on `command_io`, which reads, tells and refuses, on
//! `plan_text`, which reads records and prints boards and plans, on `flat_board`, which plays records, on `board_decisions`,
//! which says where legs stand, on `expr_reader` and `expr_value`, which read expressions and evaluate them, on `flow_reader`
//! and `plan_assembler`, which read workflows and plan them, on `flow_lint`, which finds the places of their faults and what
//! else is to be known of them, and on `board_settled`, which says whether a record came to what is settled, by the answers that
//! `step_host` reads off it.

#![tactic(auto)]

pub mod changes;
pub mod eval;
mod index;
pub mod lint;
pub mod list;
mod looked;
pub mod plan;
mod planning;
mod play;
pub mod replay;
mod shown;
pub mod table;
mod touched;
