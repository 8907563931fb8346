//! flow_lint: what a person should know of a workflow's file: where it has the fault for which it comes to no plan, and what
//! refuses nothing.
//!
//! `nodes_of` lays out the places of a file in the byte order of its keys, each with the kind of what stands there, by the
//! keys that are known (`keys.rt`); its contract says that what each place says stands there in the file, and that no place
//! that is looked at is left out. A `Note` is what a person should know of one.
//!
//! `flow_note` and `plan_note` find a place of the fault, and say what to write there instead; the contract of each says that
//! the fault is to be seen at its place, that the whole file is told where none shows it (but for faults of texts), that a word
//! suggested is the nearest, and that a cycle told is one. `hints` tells of keys that are not known or do nothing, of contexts
//! that are empty where they are named, and of needs of no job, place by place.
//!
//! It stands on `flow_reader` and `plan_assembler`, whose faults it finds, on `matrix_expand` for the matrix that is at fault,
//! on `expr_reader` and `expr_value` for the texts, on `flow_model`, on `serde_json`, which reads the file, and on `strsim`, which
//! counts the changes between words.

#![tactic(auto)]

mod contexts;
mod cycles;
mod flow_place;
mod hint;
mod keys;
mod kind;
mod nearest;
mod node;
mod note;
mod plan_place;
mod sentences;
mod texts;
mod unknown;

pub use flow_place::flow_note;
pub use hint::hints;
pub use note::Note;
pub use plan_place::plan_note;
