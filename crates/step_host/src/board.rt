//! The board on which plans are played.

use flat_board::FlatBoard;

/// The board on which hosts and players play a plan. It is named here alone: each goes by what every `Table`, or every
/// `Reversible`, promises.
pub type PlayBoard = FlatBoard;
