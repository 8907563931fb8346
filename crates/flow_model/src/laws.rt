//! Laws of the definitions, as contracts of functions that do nothing.

ghost use Rattle.flow_model.specs.Laws.{DepthIsNesting, RulesHold, JobsFollowRuns, NeedsPointBack};

use crate::texts::tests_tell;

/// A value passes the test of its depth exactly where it nests no deeper, with all numbers in range.
pub fn depth_is_nesting()
    ensures { DepthIsNesting }
{}

/// A plan breaks no rule exactly where each rule holds in its own words.
pub fn rules_hold()
    ensures { RulesHold }
{
    tests_tell();
}

/// A run's jobs stand side by side among all jobs, after those of the runs before it.
pub fn jobs_follow_runs()
    ensures { JobsFollowRuns }
{}

/// In a plan that breaks no rule a job's number is its place, and it needs earlier jobs of its run alone.
pub fn needs_point_back()
    ensures { NeedsPointBack }
{
    tests_tell();
}
