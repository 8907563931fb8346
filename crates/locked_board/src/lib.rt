//! locked_board: a board and its history under one lock, lent to several workers.
//!
//! A `SharedBoard` lends what is `KeptBoard` under its lock: a board in play, over any `Reversible` table, and the list of the
//! entries that it accepted. Whenever the lock is free that history is legal for the board's plan, and the board is the one
//! after it (`specs/Course.antt`). What is posted adds one entry, of the worker whose `Share` is used, or is refused as its
//! row says and changes nothing. A worker that begins a step holds its call (`Held`), and ends it with an answer only while
//! it is the open call of its leg (`specs/OpenCalls.antt`, `specs/Ended.antt`). Each share counts its entries (`specs/Hand.antt`):
//! at the end the history has as many as all shares together. A `Recorder` is told of each entry as soon as it is accepted
//! (`History`). A clerk posts the first of the table's moves
//! (`specs/Clerk.antt`).
//!
//! What needs no lock is a `Journal`, which knows neither shares nor ledgers. The crate stands on `status_table`, and knows the
//! board by its two traits alone.

#![tactic(auto)]

mod calls;
pub mod clerk;
pub mod fault;
pub mod held;
pub mod history;
mod journal;
pub mod kept;
mod playing;
pub mod same;
pub mod share;
pub mod shared_board;

pub use clerk::Clerk;
pub use fault::PostFault;
pub use held::{Begun, Held};
pub use history::{History, Recorder};
pub use kept::KeptBoard;
pub use share::{Names, Share};
pub use shared_board::SharedBoard;
