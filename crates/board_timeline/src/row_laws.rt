//! What follows from the definitions of what is noted.

ghost use Rattle.board_timeline.specs.Laws.{MomentsAscend};

/// The moments of each row ascend, and lie within the record.
#[tactic(auto, using(crate::proofs::Ascending::moments_ascend))]
pub fn moments_ascend()
    ensures { MomentsAscend }
{}
