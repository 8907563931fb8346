//! What is kept of an entry, so that its breaks are found without a board.

ghost use Rattle.std.specs.Prelude.{◌≡◌, slice_get};
ghost use Rattle.board_decisions.specs.Places.{leg_places};
ghost use Rattle.debugger.specs.Marks as spec;

use crate::breaks::Break;
use crate::brief::Brief;
use crate::looks::has_failed;
use board_decisions::place::LegPlace;
use flow_model::Board;

/// What is kept of an entry: at most one leg becomes Ended by it, and none where it begins a step.
#[derive(Clone, Copy)]
pub(crate) enum Mark {
    /// It began no step, and no leg became Ended by it.
    Plain,
    /// It began this step, from 0, of the leg that it is about.
    Begun(u64),
    /// This leg became Ended by it, with failure or not.
    Ended { failed: bool, leg: u64 },
}

const _: () = prove!(size_of::<Mark>() == 16);

/// What is kept of an entry, by the step that it began, how many legs had ended before it, and the board after it, whose
/// legs stand at these places.
pub(crate) fn make_mark(
    begun: Option<u64>,
    count: usize,
    board: &Board,
    places: &[LegPlace],
) -> Mark
    requires { places.now ≡ leg_places board.now }
    ensures { result ≡ spec.mark_after begun (slice_get board.now.ends count) board.now }
{
    if let Some(step) = begun {
        return Mark::Begun(step);
    }
    match board.ends.as_slice().get(count) {
        Some(leg) => Mark::Ended {
            failed: has_failed(board, places, *leg),
            leg: *leg,
        },
        None => Mark::Plain,
    }
}

impl Mark {
    /// Whether a step was begun, and is that one.
    fn is_step(self, step: u64) -> bool
        ensures { result ≡ spec.begins step self }
    {
        match self {
            Mark::Begun(other) => other == step,
            Mark::Plain | Mark::Ended { .. } => false,
        }
    }

    /// Whether a leg became Ended, and is that one.
    fn is_end(self, leg: u64) -> bool
        ensures { result ≡ spec.ends_leg leg self }
    {
        match self {
            Mark::Ended { leg: other, .. } => other == leg,
            Mark::Plain | Mark::Begun(_) => false,
        }
    }

    /// Whether a leg became Ended with failure.
    fn is_failure(self) -> bool
        ensures { result ≡ spec.ends_failing self }
    {
        match self {
            Mark::Ended { failed, .. } => failed,
            Mark::Plain | Mark::Begun(_) => false,
        }
    }
}

/// Whether a break holds of an entry, by what is kept of it.
fn is_marked(wanted: Break, entry: &Brief, mark: Mark) -> bool
    ensures { result ≡ spec.is_marked wanted entry.now.event mark }
{
    match wanted {
        Break::Leg(leg) => entry.is_about(leg),
        Break::Step(leg, step) => entry.is_about(leg) && mark.is_step(step),
        Break::Ends(leg) => mark.is_end(leg),
        Break::Failed => mark.is_failure(),
    }
}

/// Whether one of some breaks does.
pub(crate) fn any_marked(breaks: &[Break], entry: &Brief, mark: &Mark) -> bool
    ensures { result ≡ spec.any_marked breaks.now entry.now.event mark.now }
{
    for wanted in breaks {
        if is_marked(*wanted, entry, *mark) {
            return true;
        }
    }
    false
}
