//! why_notes: what becomes of all that a plan has, along a record.
//!
//! `account` plays a record and notes of each run, job, leg and step what became of it last, at which line and by what:
//! what an entry makes so is defined in `specs/Changes`, on the board before it and by the definitions with which the row
//! of its event decides; `laws` has what holds of that.
//!
//! The crate stands on `why_facts` for the facts, their causes and what is noted of them, on `flow_model`, on
//! `board_decisions` and `plan_values` for what texts decide, on `expr_reader` and `expr_value` for what these speak of, on
//! `status_table` for the table, and on `flat_board`, which plays, tells who holds and who waits for a name, and says what a
//! name is.

#![tactic(auto)]

pub mod account;
mod changes;
mod conditions;
pub mod laws;
mod texts;
