//! command_timeline: the command `timeline`, a record as a picture in SVG.
//!
//! `timeline` reads a record to its end, plays it, and writes the picture of how all stood along it, or one line that says why
//! there is none; it answers an exit status always. The crate stands on `command_io`, which reads, tells and refuses, on
//! `plan_text`, which reads records, on `flat_board`, which plays them by the rules of `status_table`, and on `board_timeline`,
//! which notes what they do and writes pictures.

#![tactic(auto)]

pub mod timeline;
