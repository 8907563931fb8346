//! Laws of the definitions, as contracts of functions that do nothing.

ghost use Rattle.plan_assembler.specs.Laws.{OneStaging, NeedsFall, NoStagesInCycles, OnePlan, LegsAloneAreLeft, RefusedHaveNone, OrderIsWhole, OrderAscends, JobWithNeeds, NeedsAreNamed};

/// The stages of jobs are the only ones.
pub fn one_staging()
    ensures { OneStaging }
{}

/// A job has a greater stage than all that it needs, directly or not.
pub fn needs_fall()
    ensures { NeedsFall }
{}

/// Where a job needs itself, directly or not, there are no stages.
pub fn no_stages_in_cycles()
    ensures { NoStagesInCycles }
{}

/// Workflows, contexts and a choice of them come to one plan at most.
pub fn one_plan()
    ensures { OnePlan }
{}

/// Once the tests before it have passed, only the count of legs can fail.
pub fn legs_alone_are_left()
    ensures { LegsAloneAreLeft }
{}

/// Where a choice is refused, the workflows come to no plan that breaks no rule.
pub fn refused_have_none()
    ensures { RefusedHaveNone }
{}

/// The order of a run has exactly the jobs that are taken.
pub fn order_is_whole()
    ensures { OrderIsWhole }
{}

/// The jobs of a run stand by their stage, and in a stage by their id.
pub fn order_ascends()
    ensures { OrderAscends }
{}

/// The run of a workflow for one job has exactly that job and what it needs, directly or not.
pub fn job_with_needs()
    ensures { JobWithNeeds }
{}

/// Each job of a run needs exactly those jobs of the run whose ids its workflow's job names.
pub fn needs_are_named()
    ensures { NeedsAreNamed }
{}
