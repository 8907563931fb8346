//! The keys that are known, level by level, and what stands at each.

ghost use Rattle.std.specs.Prelude.{◌≡◌, ◌↔◌, IsTrue, map};
ghost use Rattle.flow_lint.specs.Kinds.{IsList};
ghost use Rattle.flow_lint.specs.Keys as spec;

use crate::kind::NodeKind;

/// The keys of a workflow.
const WORKFLOW: [(&str, NodeKind); 9] = [
    ("name", NodeKind::Plain),
    ("on", NodeKind::Triggers),
    ("true", NodeKind::Triggers),
    ("env", NodeKind::Env),
    ("defaults", NodeKind::Defaults),
    ("concurrency", NodeKind::Group),
    ("jobs", NodeKind::Jobs),
    ("permissions", NodeKind::Idle),
    ("run-name", NodeKind::Idle),
];

/// The keys of a job.
const JOB: [(&str, NodeKind); 19] = [
    ("name", NodeKind::Plain),
    ("needs", NodeKind::Needs),
    ("if", NodeKind::Condition),
    ("strategy", NodeKind::Strategy),
    ("concurrency", NodeKind::Group),
    ("continue-on-error", NodeKind::Flag),
    ("env", NodeKind::Env),
    ("defaults", NodeKind::Defaults),
    ("outputs", NodeKind::Outputs),
    ("steps", NodeKind::Steps),
    ("container", NodeKind::LeftOut),
    ("services", NodeKind::LeftOut),
    ("uses", NodeKind::LeftOut),
    ("runs-on", NodeKind::Idle),
    ("permissions", NodeKind::Idle),
    ("environment", NodeKind::Idle),
    ("timeout-minutes", NodeKind::Idle),
    ("with", NodeKind::Idle),
    ("secrets", NodeKind::Idle),
];

/// The keys of a step.
const STEP: [(&str, NodeKind); 11] = [
    ("id", NodeKind::Id),
    ("name", NodeKind::Plain),
    ("if", NodeKind::Condition),
    ("env", NodeKind::Env),
    ("continue-on-error", NodeKind::Flag),
    ("working-directory", NodeKind::Directory),
    ("shell", NodeKind::Shell),
    ("run", NodeKind::Run),
    ("uses", NodeKind::Plain),
    ("with", NodeKind::With),
    ("timeout-minutes", NodeKind::Idle),
];

const STRATEGY: [(&str, NodeKind); 3] = [
    ("matrix", NodeKind::Matrix),
    ("fail-fast", NodeKind::FailFast),
    ("max-parallel", NodeKind::MaxParallel),
];

const DEFAULTS: [(&str, NodeKind); 1] = [("run", NodeKind::Scripts)];

const SCRIPTS: [(&str, NodeKind); 2] = [
    ("shell", NodeKind::Shell),
    ("working-directory", NodeKind::SharedDirectory),
];

const GROUP: [(&str, NodeKind); 2] = [
    ("group", NodeKind::GroupName),
    ("cancel-in-progress", NodeKind::Flag),
];

/// The keys of a matrix that are no variables.
const MATRIX: [(&str, NodeKind); 2] = [
    ("include", NodeKind::Entries),
    ("exclude", NodeKind::Entries),
];

/// The keys that are known within what is of this kind.
pub(crate) fn known_keys(kind: NodeKind) -> &'static [(&'static str, NodeKind)]
    ensures { map (λ entry. (entry.0.now, entry.1)) result.now ≡ spec.known_keys kind }
{
    match kind {
        NodeKind::Workflow => &WORKFLOW,
        NodeKind::Job => &JOB,
        NodeKind::Step => &STEP,
        NodeKind::Strategy => &STRATEGY,
        NodeKind::Defaults => &DEFAULTS,
        NodeKind::Scripts => &SCRIPTS,
        NodeKind::Group => &GROUP,
        NodeKind::Matrix => &MATRIX,
        _ => &[],
    }
}

/// What stands at a key that has no meaning of its own.
fn other_kind(kind: NodeKind) -> NodeKind
    ensures { result ≡ spec.other_kind kind }
{
    match kind {
        NodeKind::Jobs => NodeKind::Job,
        NodeKind::Steps => NodeKind::Step,
        NodeKind::Env => NodeKind::Variable,
        NodeKind::With => NodeKind::Input,
        NodeKind::Outputs => NodeKind::Output,
        NodeKind::Matrix => NodeKind::Values,
        NodeKind::Triggers => NodeKind::Event,
        NodeKind::Needs => NodeKind::Need,
        _ => NodeKind::Unknown,
    }
}

/// What stands at a key of what is of this kind.
pub(crate) fn kind_at(kind: NodeKind, key: &str) -> NodeKind
    ensures { result ≡ spec.kind_at kind key.now }
{
    for (name, found) in known_keys(kind) {
        if *name == key {
            return *found;
        }
    }
    other_kind(kind)
}

/// Whether what stands within is looked at.
pub(crate) fn is_opened(kind: NodeKind) -> bool
    ensures { IsTrue result ↔ spec.IsOpened kind }
{
    !known_keys(kind).is_empty() || other_kind(kind) != NodeKind::Unknown
}

/// Whether it is a list whose items are looked at.
pub(crate) fn is_list(kind: NodeKind) -> bool
    ensures { IsTrue result ↔ IsList kind }
{
    matches!(kind, NodeKind::Steps | NodeKind::Needs)
}
