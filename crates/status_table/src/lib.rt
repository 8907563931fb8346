//! status_table: the table of events, and the plain board that follows it.
//!
//! The table is a definition: `specs/Row.antt` says, event by event and case by case, what an event
//! does to a board, what is replied, and when it is refused. The trait `Table` promises that a
//! board answers each event by its row, that a refusal changes nothing, and that the plan was
//! accepted and the board has its shape; the trait `Reversible` promises besides that an entry can
//! be taken back. `PlainBoard` is the plain body of both, and `run_entries` plays a list of entries
//! on any table, up to the first that is refused. `laws` has where the numbers stand, and `board_laws`
//! how long a legal list can be; the other laws of the table are those of `board_settled`. Who holds a
//! concurrency group, who waits for it, and what comes of entering and leaving one, is in
//! `specs/Groups.antt`; what a clerk may do, in `specs/Moves.antt`; what is true of each board in
//! play, in `specs/Lawful.antt`; and what an event asks of the groups that `group_admission` keeps by
//! name, in `specs/Admissions.antt` and `specs/Grouped.antt`.
//!
//! What stands at a number, what follows from a board, and what the texts of the
//! plan decide are words of `board_decisions` (`Place`, `Derived`, `Ancestors`,
//! `Decisions`), on which the crate stands, with `flow_model` below it.

#![tactic(auto)]

pub mod board_laws;
pub mod change;
pub mod events;
pub mod fault;
pub mod groups;
pub mod laws;
pub mod members;
pub mod moves;
pub mod new_board;
pub mod plain_board;
pub mod reversible;
pub mod runs;
pub mod table;
pub mod unasked;

pub use fault::EventFault;
pub use plain_board::PlainBoard;
pub use reversible::Reversible;
pub use runs::run_entries;
pub use table::Table;
