//! flat_board: the table of events over counters and an index of groups, whose entries can be taken back.
//!
//! `FlatBoard` promises what each `Table` and each `Reversible` does. Beside the board with its counters
//! (`board_counters`) it keeps the concurrency groups by their names: so slots, needs, what is to stop at once, who
//! holds a name and who is next are read off, and not looked for; who holds a name, who waits for it and who is next it
//! tells callers too. `grouped_board` plays entries on both; `members` and `groups` are the changes of members and what
//! comes of entering and leaving a group; `events` are the rows of the table, and `moves` what a clerk may do, for which
//! runs in which nothing may happen are passed over (`idle`); `undo` is what takes an entry back, of the groups too: the
//! one name that an event asks for.
//!
//! No contract of a caller speaks of the counters. The crate stands on `board_counters`, on `status_table` for the
//! table and for what does not look at counters, on `group_admission` for the index, and on `board_decisions` and
//! `flow_model`.

#![tactic(auto)]

mod events;
mod flat_board;
mod found;
mod grouped_board;
mod groups;
mod idle;
mod members;
mod moves;
mod unasked;
mod undo;

pub use flat_board::FlatBoard;
pub use undo::{CellBack, EntryBack, Undo};
