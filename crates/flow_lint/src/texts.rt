//! The texts of a file that are evaluated.

ghost use Rattle.std.specs.Prelude.{◌≡◌, true, IfErr, IfOk, IfSome, None, Some};
ghost use Rattle.expr_reader.specs.Accepts.{condition_read};
ghost use Rattle.expr_reader.specs.Bytes.{is_blank};
ghost use Rattle.expr_reader.specs.TemplateStands.{ConditionFaultStands};
ghost use Rattle.expr_reader.specs.TemplateView.{template_of};
ghost use Rattle.flow_lint.specs.Hints.{IsEvaluated, IsReadAs};
ghost use Rattle.flow_lint.specs.Nodes.{place_of};
ghost use Rattle.flow_lint.specs.Places.{IsUnread};

use crate::kind::NodeKind;
use crate::node::Node;
use expr_reader::{ExprFault, Template, is_blank, read_condition, read_template};
use std::alloc::Global;

/// The condition of a text, if it is not blank.
fn condition(alloc: Global, text: &str) -> Option<Result<Template, ExprFault>>
    ensures stands { IfSome result (λ read. IfErr read (ConditionFaultStands text.now)) }
    ensures reads { IfSome result (λ read. IfOk read (λ template.
        condition_read text.now ≡ Some (template_of template))) }
    ensures none { result ≡ None → is_blank text.now ≡ true }
{
    if is_blank(text) {
        return None;
    }
    Some(read_condition(alloc, text))
}

/// What is read of a place, where a text that is evaluated stands there.
pub fn read_text(alloc: Global, node: &Node) -> Option<Result<Template, ExprFault>>
    ensures stands { IfSome result (λ read. IfErr read (λ fault. IsUnread fault (place_of node.now))) }
    ensures reads { IfSome result (λ read. IfOk read (λ template.
        IsReadAs (template_of template) (place_of node.now))) }
    ensures none { result ≡ None → IsEvaluated (place_of node.now) → ⊥ }
{
    let Some(text) = node.value.as_str() else {
        return None;
    };
    if node.kind == NodeKind::Condition {
        return condition(alloc, text);
    }
    if node.kind.is_template() {
        return Some(read_template(alloc, text));
    }
    None
}
