//! plan_documents: the documents of plans and entries, as trees of JSON.
//!
//! It promises that a plan or an entry is written as exactly its document, of version 2 (`ToJson`), and
//! that a tree is read as the plan or the entry of whose document, in version 1 or 2, it is, or is
//! refused at the path of the first part that is not as it should be (`FromJson`). What the documents
//! are stands in `specs/Document.antt` and `specs/EntryDocument.antt`, how they are read in
//! `specs/Reading.antt`; that both agree is proved in `proofs/PlanLaws.antt` and `proofs/EntryLaws.antt`.
//! It knows no text. It stands on `flow_model`, which has the data and its rules, and on `serde_json`,
//! which has the trees.

#![tactic(auto)]

mod entry_reading;
mod entry_writing;
mod fields;
mod job_reading;
mod plan_reading;
mod plan_writing;
mod reading;
mod report;
mod version;
mod writing;

pub use entry_reading::{LAST_WORKER, entry};
pub use job_reading::{JOB_KEYS, JobParts, job_from};
pub use reading::{FromJson, Unread, refused};
pub use report::Report;
pub use version::Version;
pub use writing::ToJson;
