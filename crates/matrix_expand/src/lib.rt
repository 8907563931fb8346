//! matrix_expand: the combinations of a job's matrix (GitHub Docs, workflow syntax: `strategy.matrix`).
//!
//! It promises that `expand` answers exactly `combos` (specs/Combos): one combination for each choice of
//! a value of each variable, without those that an exclude names, each overlaid with the includes that
//! contradict none of its values, and after them the includes that contradict all of them; and that each
//! refusal comes exactly where its case of `Expands` (specs/Expands) says. What follows from the
//! definitions alone stands in `laws`.
//!
//! It stands on `flow_model`, and `thiserror` for its errors.

#![tactic(auto)]

mod choices;
mod expansion;
mod fault;
pub mod laws;
mod original;
mod overlay;
mod same;
mod sizes;

pub use expansion::expand;
pub use fault::MatrixFault;
