//! Which contexts a text sees at its place.

ghost use Rattle.std.specs.Prelude.{◌↔◌, IsTrue};
ghost use Rattle.flow_lint.specs.Contexts.{IsOfStep, Sees, SeesSecrets};
ghost use Rattle.flow_lint.specs.Nodes.{place_of};

use crate::kind::{Level, NodeKind};
use crate::node::Node;
use expr_reader::Context;

/// Every context.
pub(crate) const EVERY_CONTEXT: [Context; 12] = [
    Context::Env,
    Context::Github,
    Context::Inputs,
    Context::Job,
    Context::Jobs,
    Context::Matrix,
    Context::Needs,
    Context::Runner,
    Context::Secrets,
    Context::Steps,
    Context::Strategy,
    Context::Vars,
];

/// Whether a text at a place stands in a step, or is seen as one that does.
fn is_of_step(node: &Node) -> bool
    ensures { IsTrue result ↔ IsOfStep (place_of node.now) }
{
    node.level == Level::Step || node.kind == NodeKind::SharedDirectory
}

/// Whether `secrets` is seen: in environments, in outputs, and in steps but for their conditions.
fn sees_secrets(node: &Node) -> bool
    ensures { IsTrue result ↔ SeesSecrets (place_of node.now) }
{
    match node.kind {
        NodeKind::Variable | NodeKind::Output => true,
        NodeKind::Condition => false,
        _ => is_of_step(node),
    }
}

/// Whether a text at a place sees a context that is not empty there.
pub(crate) fn sees(node: &Node, context: Context) -> bool
    ensures { IsTrue result ↔ Sees context (place_of node.now) }
{
    match context {
        Context::Github | Context::Inputs | Context::Vars => true,
        Context::Jobs | Context::Runner => false,
        Context::Secrets => sees_secrets(node),
        Context::Needs => node.level != Level::Workflow || is_of_step(node),
        Context::Strategy | Context::Matrix => {
            is_of_step(node) || node.level == Level::Job && node.kind != NodeKind::Condition
        },
        Context::Env | Context::Job | Context::Steps => {
            is_of_step(node) || node.kind == NodeKind::Output
        },
    }
}
