//! What may be asked about: runs, jobs, legs, steps, and that a run or a leg was told to stop.

ghost use Rattle.std.specs.Prelude.{◌≡◌};
ghost use Rattle.why_causes.specs.Causes as spec;

use flow_model::Member;

/// What is asked about.
#[derive(Clone, Copy)]
pub enum Question {
    Run(u64),
    Job(u64),
    Leg(u64),
    Step { leg: u64, step: u64 },
    /// That it was told to stop.
    Stop(Member),
}

/// The question about a run or a leg.
pub fn about(who: Member) -> Question
    ensures { result ≡ spec.about who }
{
    match who {
        Member::Run(number) => Question::Run(number),
        Member::Leg(number) => Question::Leg(number),
    }
}
