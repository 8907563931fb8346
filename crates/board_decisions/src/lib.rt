//! board_decisions: what stands at a number of a board, what a board and its plan tell of each place, and what the texts of the
//! place decide there.
//!
//! Jobs are numbered through all runs, and legs through all jobs. `place` finds the run, job or leg with a number, with what
//! was planned for it; `places` lists where all of them stand, in the order of their numbers, so that whoever keeps such a
//! list finds each at once.
//!
//! `derived` says what follows from what stands at a place: what has ended, how jobs and runs count, and
//! when a job has as many legs under way as it may have; `ancestors` says the status by which a job
//! is judged. `decisions` says what the texts of a place come to: whether a job is opened, a
//! leg is to stop, a step is called or passed over, what a call asks for, what a leg gives its
//! job, and by which `entrance` a member enters a group; `unasked` whether a step is called, without its call.
//! `kept` is what whoever counts beside a board knows of a leg, so that it isn't looked for; `scene` is a place as its texts
//! see it.
//! Nothing here changes a board.
//!
//! All are defined in `specs/`: `Place` (what is found at a number), `Numbered` (that places are in the order of the numbers),
//! `Places`, `Derived`, `Ancestors`, `Contexts` (what the contexts of a place hold), `Decisions`, `Own` (steps of whose texts
//! none is evaluated) and `LegKept`. The crate stands on `flow_model` (plans and boards), on `plan_values` (a text's value where
//! it stands), and on `expr_reader` and `expr_value` for what these speak of.

#![tactic(auto)]

pub mod ancestors;
mod anywhere;
mod contexts;
pub mod decisions;
pub mod derived;
pub mod entrance;
pub mod kept;
mod nodes;
pub mod place;
pub mod places;
pub mod scene;
pub mod unasked;
