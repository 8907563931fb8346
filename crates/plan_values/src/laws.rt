//! Laws of the values, each the contract of a function that does nothing.

ghost use Rattle.plan_values.specs.Laws.{AlwaysHolds, TextIsItself, TruthIsItself, WaitsForSuccess};
ghost use Rattle.plan_values.specs.Laws.{EnvHasItsNames, LevelsStayInOrder, MostSpecificWins};
ghost use Rattle.plan_values.specs.Laws.{FaultTakesOutItsOutput, OutputStandsInItsPlace};
ghost use Rattle.plan_values.specs.Laws.{PlaceGivesWhatItSees};

use expr_reader::{condition_reading, itself_reading};

/// A place gives a context its value where it sees it, and an empty map where it does not.
pub fn place_gives_what_it_sees()
    ensures { PlaceGivesWhatItSees }
{}

/// A text that stands for itself (no expression stands in it,
/// and it is no longer than a template) is its own value.
pub fn text_is_itself()
    ensures { TextIsItself }
{
    itself_reading();
}

/// The condition `always()` holds, whatever the status.
pub fn always_holds()
    ensures { AlwaysHolds }
{
    condition_reading();
}

/// A condition that names no status function does not hold
/// where the status is not success, and neither does none.
pub fn waits_for_success()
    ensures { WaitsForSuccess }
{}

/// A flag that is a truth value is that.
pub fn truth_is_itself()
    ensures { TruthIsItself }
{}

/// An `env` gives exactly the variables that it names, in the order of their names and each once.
pub fn env_has_its_names()
    ensures { EnvHasItsNames }
{}

/// Of three levels the most specific one that has a name gives its value.
pub fn most_specific_wins()
    ensures { MostSpecificWins }
{}

/// Levels that are laid over one another have their names in order, each once.
pub fn levels_stay_in_order()
    ensures { LevelsStayInOrder }
{}

/// An output that faults takes out itself alone.
pub fn fault_takes_out_its_output()
    ensures { FaultTakesOutItsOutput }
{}

/// An output with a value stands between those before it and those after it.
pub fn output_stands_in_its_place()
    ensures { OutputStandsInItsPlace }
{}
