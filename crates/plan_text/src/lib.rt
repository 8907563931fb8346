//! plan_text: plans, entries and records as JSON text, and the board as lines.
//!
//! It promises that a text is accepted exactly where it reads as the document of such a plan or
//! entry, that each fault comes exactly in its case, and that what it prints is the compact text of the
//! document and is read as the same plan or entry again. It stands on `plan_documents`, which says what
//! these documents are and reads and writes them as trees, on `flow_model`, which has the data and its
//! rules, on `serde_json`, which reads and prints JSON (RFC 8259), on `json`, which gives the tokens of
//! a text, on `itoa`, which prints numbers, and on `thiserror` for its error.

#![tactic(auto)]

mod board;
mod brief;
mod changes;
mod digits;
mod entry;
mod fault;
mod plan;
mod plan_tokens;
mod printed;
mod record;
mod same_text;
mod tokens;
mod tree;

pub use board::board_text;
pub use brief::Printed;
pub use changes::{add_ends, add_job_line, add_leg, add_run_line};
pub use entry::{print_entry, read_entry};
pub use fault::LoadFault;
pub use plan::{load_plan, print_plan};
pub use printed::read_first;
pub use record::{load_record, next_entry, print_record};
