//! why_causes: why all is as it is after a record.
//!
//! `tree` answers questions about the account of a record (`why_notes`): a fact, and below it the facts that made it so
//! (`specs/Causes`, `specs/Tree`). `tree_laws` has that nothing is answered twice in a tree (`specs/Once`), that what is in the
//! way of others is named (`specs/Obstacles`), and so is what brought runs and jobs to their results (`specs/Endings`).
//!
//! `note_laws` has that what is told is so: what an accepted entry makes so (`why_notes`, `specs/Changes`) was not so on the
//! board before it, and is so on the board after it (`specs/Becomes`, over `specs/Stands`); and all that the account of a
//! record notes was made so by the entry at the line that is noted (`specs/Made`), and is how all stands on the board after the
//! record (`specs/Agrees`).
//!
//! The crate stands on `why_notes` and `why_facts` for what became of each run, job, leg and step, on `flow_model` and
//! `board_decisions` for boards, and on `expr_value` and `status_table` for some words of its definitions.

#![tactic(auto)]

pub mod causes;
pub mod note_laws;
mod numbers;
pub mod question;
mod sought;
pub mod tree;
pub mod tree_laws;
