//! command_why: the command `why`, which answers why something is as it is after a record.
//!
//! `why` reads a record to its end, plays it, and writes the tree that answers what is asked, in English or as objects of JSON
//! (`specs/Objects`), the objects of all parts (`specs/Parts`), or one line that says why there is none; it answers an exit
//! status always. The crate stands on `why_notes`, which plays records, on `why_facts` for what is noted of them, on
//! `why_causes`, which finds what made each fact so, on `board_decisions`, `flow_model` and `expr_value` for what it names, on
//! `command_io`, which reads, tells and refuses, on `plan_text`, which reads records, on `flat_board` and `status_table`, on
//! `json`, `serde_json` and `plan_documents` for words of objects, and on `itoa`, which prints numbers.

#![tactic(auto)]

mod lines;
mod names;
mod objects;
mod parts;
mod roots;
mod steps;
mod summary;
pub mod wanted;
pub mod why;
mod words;
mod writing;
