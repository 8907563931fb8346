//! plan_assembler: the plan that a choice of workflows comes to.
//!
//! A `Planner` keeps workflows and the contexts that their runs are handed. `plan_event`,
//! `plan_job` and `plan_all` answer a plan that assembles (`Assembles`, specs/Plans) and breaks no
//! rule: one run for each workflow that the choice takes, with the jobs that it takes, by their stage
//! and then by their id. They refuse by the first test that fails, in the order of specs/Refusals.
//! `events` gives the names of events (specs/Events), and `graph` the places of the jobs that each job
//! needs (`graph_of`, specs/Layout). `staging::stages` gives the jobs of a plan by their stages
//! (specs/Staging). The stages of jobs are said by one equation (specs/Stages), and found by passes
//! over the jobs. What follows from the definitions alone stands in `laws`.
//!
//! It stands on `expr_reader`, which reads the texts that are evaluated, on `flow_model`, on
//! `matrix_expand` for the legs of a job, on `indexmap` for the places of ids, and on `thiserror`
//! for its errors.

#![tactic(auto)]

mod choice;
mod chosen;
mod events;
mod fault;
mod index;
mod jobs;
pub mod laws;
mod layout;
mod order;
mod planner;
mod runs;
mod stages;
pub mod staging;
mod texts;

pub use choice::Choice;
pub use fault::{FaultPlace, PlanFault};
pub use layout::graph;
pub use planner::Planner;
