//! flow_reader: workflows and contexts, read from JSON text.
//!
//! It promises that what is read is the workflow that the text stands for, that a text is refused only where it stands
//! for none, and that the fault which is named stands in it. The table of keys is `specs/Workflow.antt`, level by level
//! and key by key (GitHub Docs, workflow syntax). What follows from the definitions alone stands in `laws`.
//!
//! It stands on `flow_model`, which has the workflow and its rules, on `expr_reader` for what an expression is, on
//! `serde_json`, which reads JSON (RFC 8259), and on `thiserror` for its errors.

#![tactic(auto)]

mod defaults;
mod fault;
mod group;
mod job;
pub mod laws;
mod load;
mod maps;
mod members;
mod parts;
mod reading;
mod refusal;
mod step;
mod strategy;
mod texts;
mod values;
mod workflow;

pub use fault::FlowFault;
pub use load::{read_flow, read_roots};
