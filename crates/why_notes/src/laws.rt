//! What holds of what an entry makes so, beside the row of its event.

ghost use Rattle.why_notes.specs.Laws as spec;

/// The board of a record's account is the board after its entries.
#[tactic(auto, using(crate::proofs::Lawful::accounts_follow_the_table))]
pub fn accounts_follow_the_table()
    ensures { spec.AccountsFollowTheTable }
{}

/// What an accepted entry makes so names whom the reply of its row names.
pub fn changes_name_whom_the_row_names()
    ensures { spec.ChangesNameWhomTheRowNames }
{}

/// The reason that is told of each change is so on the board before the entry: who is admitted enters a group that nobody holds,
/// or none; the members that are named hold, leave or enter the group, as the row looks at them; of a job and of a step that is
/// skipped, its condition, its stop and the first step that counts as a failure are as told; the cause of a stop holds.
pub fn changes_name_the_right_members()
    ensures { spec.ChangesNameTheRightMembers }
{}

/// A job is judged into the state of what is told to have become of it.
#[tactic(auto, using(crate::proofs::Lawful::jobs_are_judged_as_told))]
pub fn jobs_are_judged_as_told()
    ensures { spec.JobsAreJudgedAsTold }
{}

/// The cause that is named why a leg is to stop makes it so: no cause that goes before it holds.
#[tactic(auto, using(crate::proofs::Stops::stops_are_caused))]
pub fn stops_are_caused()
    ensures { spec.StopsAreCaused }
{}
