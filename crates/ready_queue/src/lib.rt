//! ready_queue: a bounded queue of tickets, the numbers of legs that are ready, for several threads.
//!
//! Who puts or takes has a pass, which keeps in proofs alone what it has done. It is promised that a ticket
//! that is taken was put, that of one putter a pass takes in the order in which that one put, that after all
//! passes are joined what was put is, as a bag, what was taken and what is left, and that no call but `new`
//! takes memory. The words of its contracts stand in `specs/Passes.antt`: what a pass has done in
//! `specs/Records.antt`, the one history of all passes in `specs/History.antt`, the kinds of step in
//! `specs/Steps.antt`, laws above them in `specs/Laws.antt`. It stands on the array queue of
//! `crossbeam_queue`, under the rule of `specs/Rule.antt` and one that a caller may add (`specs/House.antt`).

#![tactic(auto)]

pub mod count;
pub mod house;
pub mod laws;
pub mod pass;
pub mod queue;
pub mod record;
mod rule;
mod tally;

pub use count::Count;
pub use house::{HouseRule, NoRule};
pub use pass::Pass;
pub use queue::{HouseQueue, Ticket, TicketQueue};
