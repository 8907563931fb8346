//! board_settled: what a plan comes to whatever the order in which it is played, whether a board is all of that, and what else
//! holds of each plan in play.
//!
//! `specs/Settled.antt` says what is settled of a plan by the answers to its calls alone: jobs in the order of their numbers,
//! each leg by itself, its steps one after the other. No board is in it, no group and no order of events. `settled_laws` has
//! what holds of each board in play beside it.
//!
//! `is_settled` holds a board against it, run by run, job by job and leg by leg. Each leg is played by itself, on a copy of the
//! board on which no run is told to stop and the legs stand among the ends in the order of their numbers: where all before it
//! is settled, that copy shows the leg what is settled, and nothing else. `replay_record` does so by the answers of a record.
//!
//! The other laws say in words of their own what holds of a plan in play; each is the contract of a function that does
//! nothing. `legal_lists` has what holds of the board after every legal list of entries, and `decision_laws` what the texts of
//! a plan decide there (`specs/DecisionLaws.antt`). `contexts` has what the contexts `needs` and `steps` and the outputs of a
//! job give, name by name, where the definitions of `board_decisions` build them list by list (`specs/Contexts.antt`).
//! `admission_laws` has that a board shows what the map of `group_admission` keeps (`specs/Grouped.antt`), and `groups` what the
//! names of groups on a board are (`specs/Groups.antt`). `call_laws` has what holds of each call that a step makes
//! (`specs/CallLaws.antt`). `orders` has that the maps of any plan name their keys in order, so that what is said of the calls
//! of such plans is said of all. `variables` has what calls are given of what steps set (`specs/Variables.antt`).
//!
//! The crate stands on `board_decisions`, `plan_values` and `status_table` for what a place comes to, on `flat_board` and
//! `group_admission` for what the laws speak of, on `step_host` for the answers, on `flow_model`, and on `expr_reader` and
//! `expr_value`.

#![tactic(auto)]

pub mod admission_laws;
pub mod call_laws;
pub mod check;
pub mod contexts;
pub mod decision_laws;
pub mod groups;
mod job;
mod leg;
pub mod legal_lists;
pub mod orders;
mod quiet;
pub mod record;
mod run;
mod same;
pub mod settled_laws;
pub mod variables;

pub use check::is_settled;
pub use record::replay_record;
