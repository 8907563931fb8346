//! command_graph: the command `graph`, a plan or a record as a graph in DOT, which Graphviz draws.
//!
//! `graph` reads a text to its end and writes the graph of its plan, or that of the board after its entries, or one line
//! that says why there is none; it answers an exit status always.
//!
//! The text is the graph that `specs/Dot` defines: a cluster for each run, in it a node for each job and an edge from each job
//! that it needs, and of a board how each of them stands. What stands in quotes is read by DOT's rules as the labels of runs
//! and jobs, so that no name of a plan leaves its place (`specs/Labels`).
//!
//! The crate stands on `command_io`, which reads, tells and refuses, on `plan_text`, which reads records, on `flat_board`,
//! which plays them by the rules of `status_table`, on `flow_model`, which has plans and boards, and on `itoa`, which prints
//! numbers.

#![tactic(auto)]

mod dot;
pub mod graph;
mod label;
pub mod laws;
mod quoted;
mod standing;
mod writing;
