//! case_workflows: the verbs of expressions, templates, conditions and values, of workflows that are read, of matrices, and of
//! plans that are made.
//!
//! `perform` does what a verb asks that stands at the head of `plan_calls`, `flow_calls`, `expressions` or `pattern_sweeps`. It
//! stands on `expr_reader` and `expr_value`, on `flow_reader`, `matrix_expand` and `plan_assembler`, on `flow_model` and
//! `plan_text` for plans that are loaded, on `serde_json` for the contexts, and on `case_reader`; it promises no more than that
//! it answers.

#![tactic(auto)]

mod expressions;
mod flow_calls;
mod pattern_sweeps;
mod plan_calls;
mod tree_text;

pub use plan_calls::{perform, plan_all};
