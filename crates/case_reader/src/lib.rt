//! case_reader: cases as text, what each asks for, and where that comes to something else than what it wants.
//!
//! A file of cases is text. A line that begins with a mark and a space (or is the mark alone) says something, and every
//! other line is for the reader. A case is what stands between two empty lines.
//!
//!   # NAME      the name of the cases from here on
//!   $ WORDS     the words of the command line, parted by spaces; a further such line is one word
//!   ? WORDS     likewise those of a verb
//!   | TEXT      a line of the file `contexts.json`, which stays for the cases after this one
//!   / NAME      the `|` lines that follow in this case are lines of the file of that name, which begins anew
//!   < TEXT      a line of the input
//!   ~ NAMES     the named texts, each as a line of the input
//!   > TEXT      a line that is wanted on `out`
//!   ! TEXT      a line that is wanted on `err`
//!   = STATUS    the exit status that is wanted; without it 0
//!   : NAME TEXT a text with a name, which stays for the cases after this one
//!   % LIMIT     `words`: the words are no UTF-8; `in`: the readers fail at the end; `endless NAME`: that of this file gives `x`
//!               after it without end, `-` is the input; `few`: a reader is given up after 5 reads; `out N`, `err N`: that writer
//!               fails after N bytes; `step N`: readers and writers take N bytes a call
//!
//! These go on with the text of the line before them:
//!
//!   + TEXT      TEXT follows
//!   & NAME      the named text follows
//!   * N TEXT    TEXT follows N times
//!   @ HEX HEX   these bytes follow; HEX*N is a byte N times
//!   - TEXT      the first such part is taken out, and what follows stands in its place
//!   \           the line has no newline
//!
//! There are no escapes: a text goes to the end of its line. A `Case` takes the lines, says what is asked, and is handed what
//! came of that; a verb writes its answer on a `Page`.
//!
//! `perform` does what a verb of plans, entries and records as texts asks, at the head of `documents`. For the verbs of the
//! crates above, a plan or a record is loaded onto a page by `loads`; boards, replies, members and moves are written on it by
//! `boards`, `replies` and `members`. The crate stands on `flow_model` and `plan_text`, and promises no more than that it
//! answers.

#![tactic(auto)]

pub mod asked;
pub mod boards;
mod case;
mod documents;
pub mod loads;
pub mod members;
pub mod page;
pub mod replies;
pub mod samples;
pub mod streams;

pub use asked::{Asked, Files, Found, Spoiled};
pub use case::{Case, Told};
pub use documents::perform;
pub use page::{Page, parted};
