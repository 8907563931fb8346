//! board_timeline: how each run, job and leg stood along a record, and the picture in SVG that shows it.
//!
//! `play_noted` plays the entries of a record on any table and notes on a row for each run, job and leg at which lines it changed
//! how it stands, by what the board says of it after the entry of that line (`specs/Noted`); the lines of a row ascend and lie
//! within the record (`specs/Laws`). `timeline_shapes` makes of the rows the bars and labels that `specs/Layout` defines.
//!
//! `picture` writes bars and labels, each with a text, as the picture that `specs/Picture` defines. Its texts are read by the
//! rules of XML as those of its bars and labels, in their order and no others, so that no text leaves its place
//! (`specs/Texts`); characters that XML forbids are shown by others (`specs/Escaped`).
//!
//! The crate stands on `status_table` for entries, on `board_decisions`, which finds jobs and legs, on `flow_model` for plans,
//! boards and sequences, and on `itoa`, which prints numbers.

#![tactic(auto)]

mod bars;
mod canvas;
mod escaped;
mod frames;
mod layout;
mod legend;
mod noted;
mod phase;
pub mod picture_laws;
mod played;
mod row;
pub mod row_laws;
mod shape;
mod svg;
mod words;
mod writing;

pub use layout::{Sheet, timeline_shapes};
pub use noted::{Track, new_track};
pub use phase::{Moment, Phase};
pub use played::play_noted;
pub use row::Row;
pub use shape::{Font, Frame, Look, Shape, ShapeKind};
pub use svg::picture;
