//! group_admission: the concurrency groups of a plan in play (GitHub Docs, workflow syntax:
//! `concurrency`): who holds a group's name, and who waits for it.
//!
//! `Groups` is a map from names, which are the same ignoring case, to one holder and at most one waiter. It
//! promises exactly what entering a name, releasing it and leaving a wait answer and change, that no other
//! name changes, that no member stands in two places, that leaving and looking take no memory, and that a name
//! that was entered stays known, so that it can be put back as it was held, without memory. The words of its
//! contracts stand in `specs/Content.antt` and `specs/Known.antt`, laws above them in `specs/Laws.antt`. It
//! stands on `flow_model` for members and texts, and on `expr_reader` for folding.

#![tactic(auto)]

mod cell;
mod cells;
pub mod entered;
pub mod groups;
pub mod held;
pub mod laws;
pub mod member;

pub use entered::Entered;
pub use groups::Groups;
pub use held::Held;
