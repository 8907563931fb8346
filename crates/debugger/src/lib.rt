//! debugger: goes forwards and backwards through a recorded list of entries.
//!
//! `Debugger::open` plays a record on any `Reversible` board, or tells the first entry that the table refuses, and goes
//! back to the start. At place k a debugger shows the board after the first k entries (`specs/Places.antt`), however it
//! came there: one step on or back, to a place that is asked for, or to the nearest place, later or earlier, where a break
//! that is set holds (`specs/Session.antt`). When a break holds is said in `specs/Breaks.antt`, by the entry and the boards
//! before and after it.
//!
//! Inside, a `Walk` keeps the undos of the entries that were played, and so goes back without memory (`specs/Trail.antt`); a
//! `Brief` keeps an entry in 16 bytes, where it has no texts (`specs/Briefs.antt`); and a `Mark` keeps of each entry, in 16
//! more, what its breaks ask, so that no board is needed to find them (`specs/Marks.antt`). Whoever reads a record line by line
//! can keep each entry so as it comes, in `Entries`, and open those. The crate stands on `status_table`, and knows the board by
//! its two traits alone.

#![tactic(auto)]

pub mod breaks;
mod brief;
pub mod debugger;
mod deed;
pub mod entries;
pub mod fault;
mod looks;
mod marks;
mod playing;
mod short;
mod walk;

pub use breaks::Break;
pub use debugger::Debugger;
pub use entries::Entries;
pub use fault::DebugFault;
