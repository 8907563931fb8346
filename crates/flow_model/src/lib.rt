//! flow_model: the data of the product, as every other crate sees it.
//!
//! It has the values of a workflow, the plan with its rules, the board of a plan in play, the events
//! that change it and the replies to them, and three small containers that contracts see as plain
//! lists: a text, a sequence and a mapping.
//!
//! It promises that `Plan::check` accepts exactly the plans whose rules all hold, with each condition read as a
//! condition and each other text that is evaluated as a template, that a `CheckedPlan` is made there or copied from
//! one, that every `copy` is equal to what it was made from, and that JSON becomes a value, and a value JSON,
//! exactly. What follows from its definitions alone stands in `laws`: the rules of a plan in their own words, how
//! deep values nest, and the numbers of jobs.
//!
//! It stands on `expr_reader`, which reads the texts that are evaluated, on `serde_json`, on `memchr`, which finds
//! where a line ends, and on `thiserror` for its errors.

#![tactic(auto)]

pub mod board;
pub mod check;
pub mod duplicate;
pub mod event;
pub mod flow;
pub mod json;
mod json_text;
pub mod laws;
pub mod lines;
pub mod mapping;
mod mapping_iter;
mod name;
pub mod plan;
pub mod reply;
mod rules;
pub mod sequence;
pub mod text;
mod texts;
pub mod value;
pub mod within;

pub use board::{Board, DoneStep, Job, JobState, Leg, LegState, Run, RunState};
pub use check::{Broken, CheckedPlan};
pub use duplicate::Duplicate;
pub use event::{Answer, Entry, Event, Member, Outcome};
pub use flow::{Flow, FlowJob, Workflow};
pub use json::{JsonFault, into_json, into_value, json_of, json_of_node, value_of, whole_of};
pub use json_text::read_json;
pub use lines::first_line;
pub use mapping::{Mapping, is_same_mapping};
pub use mapping_iter::MappingIter;
pub use name::{has_zero, is_id};
pub use plan::{Combo, Flag, Group, JobPlan, Matrix, Plan, Roots, RunPlan, Shell, StepPlan, Work};
pub use reply::{CallWork, Reply, StepCall, ValueFault, What};
pub use sequence::Sequence;
pub use text::Text;
pub use value::{Node, Value, copy_node};
pub use within::{is_variable_name, is_within};
