//! What is looked at of a board for an entry: the leg that it begins a step of, and the leg that ended by it.
//!
//! A leg is found by the list of all places, which stays the same while a plan is played. Nothing else of the board is looked
//! at.

ghost use Rattle.std.specs.Prelude.{◌≡◌, slice_get};
ghost use Rattle.std.specs.Option.{option_copied};
ghost use Rattle.board_decisions.specs.Places.{leg_places};
ghost use Rattle.debugger.specs.Breaks as breaks;
ghost use Rattle.debugger.specs.Marks as spec;
ghost use Rattle.flow_model.specs.Numbers.{board_legs};

use board_decisions::place::{LegPlace, leg_there};
use flow_model::{Board, Event, Leg, LegState, Outcome};

/// The place of the leg with a number, if there is one.
fn place_at(places: &[LegPlace], number: u64) -> Option<LegPlace>
    ensures { result ≡ slice_get places.now number }
{
    places.get(number as usize).copied()
}

/// The leg with a number, if there is one.
fn numbered_leg<'a>(board: &'a Board, places: &[LegPlace], number: u64) -> Option<&'a Leg>
    requires { places.now ≡ leg_places board.now }
    ensures { option_copied result ≡ slice_get (board_legs board.now) number }
{
    match place_at(places, number) {
        Some(place) => leg_there(board, place),
        None => None,
    }
}

/// Whether a state is Ended with failure.
fn ended_failing(state: LegState) -> bool
    ensures { result ≡ breaks.ended_failing state }
{
    match state {
        LegState::Ended { result: how, .. } => matches!(how, Outcome::Failure),
        LegState::Fresh | LegState::Waiting | LegState::Admitted => false,
        LegState::Running { .. } => false,
    }
}

/// Whether the leg with a number has ended with failure.
pub(crate) fn has_failed(board: &Board, places: &[LegPlace], leg: u64) -> bool
    requires { places.now ≡ leg_places board.now }
    ensures { result ≡ spec.has_failed board.now leg }
{
    match numbered_leg(board, places, leg) {
        Some(leg) => ended_failing(leg.state),
        None => false,
    }
}

/// How many steps of the leg with a number are done, if there is such a leg.
pub(crate) fn steps_done(board: &Board, places: &[LegPlace], leg: u64) -> Option<u64>
    requires { places.now ≡ leg_places board.now }
    ensures { result ≡ breaks.steps_done board.now leg }
{
    match numbered_leg(board, places, leg) {
        Some(leg) => Some(leg.steps.len() as u64),
        None => None,
    }
}

/// The step that an event begins on a board, if it is a Begin.
pub(crate) fn begun_by(event: &Event, board: &Board, places: &[LegPlace]) -> Option<u64>
    requires { places.now ≡ leg_places board.now }
    ensures { result ≡ breaks.step_begun board.now event.now }
{
    match event {
        Event::Begin { leg } => steps_done(board, places, *leg),
        Event::Open { .. } | Event::Judge { .. } | Event::Ask { .. } | Event::Drop { .. } => None,
        Event::Take { .. } | Event::End { .. } | Event::Finish { .. } => None,
        Event::Close { .. } | Event::Cancel { .. } => None,
    }
}
