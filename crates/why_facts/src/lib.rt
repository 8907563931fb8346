//! why_facts: what may become of runs, jobs, legs and steps, who or what is named as the cause, and what is noted of each.
//!
//! A fact (`fact`) is what became of something, and by what. The causes that take a search are found here: the first step that
//! counts as a failure (`failures`), why a leg is to stop (`stopping`), who is displaced and told to stop by whom (`queueing`), and
//! the ancestors of a job that had no success (`ancestors`). `notes` keeps of each run, job, leg and step what became of it last,
//! and at which line.
//!
//! The crate stands on `flow_model` and `board_decisions` for boards and plans, and on `status_table` for some words of its
//! definitions.

#![tactic(auto)]

pub mod ancestors;
pub mod fact;
pub mod failures;
pub mod notes;
pub mod queueing;
pub mod stopping;
