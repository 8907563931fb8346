//! Conditions that hold, or do not, wherever they stand: those that name no context, as `always()` does not.

ghost use Rattle.std.specs.Prelude.{◌≡◌, false, true, IfSome, Ok, map};
ghost use Rattle.expr_reader.specs.Expr.{exprs_of};
ghost use Rattle.expr_reader.specs.TemplateView.{piece_of, template_of};
ghost use Rattle.expr_reader.specs.View.{view, views};
ghost use Rattle.expr_reader.specs.declared.tree.Context.{Context};
ghost use Rattle.expr_value.specs.Condition.{condition_holds};
ghost use Rattle.expr_value.specs.Context.{Contexts};
ghost use Rattle.expr_value.specs.Named.{any_names_context, expr_names_context, piece_names_context, pieces_name_context};
ghost use Rattle.plan_values.specs.Texts.{condition_value};

use expr_reader::{Piece, Template, Tree, read_condition};
use expr_value::{Status, condition_by_its_contexts, eval_condition};
use flow_model::{Mapping, Text, Value};
use std::alloc::Global;

/// Whether an expression names no context.
#[cycle(nameless)]
fn is_nameless(tree: &Tree) -> bool
    ensures { (x : Context) → result ≡ true → expr_names_context x (view tree.now) ≡ false }
{
    match tree {
        Tree::Literal(_) => true,
        Tree::Context(_) => false,
        Tree::Call(_, arguments) => are_nameless(arguments.as_slice()),
        Tree::Group(part) | Tree::Property(part, _) | Tree::Wildcard(_, part) | Tree::Not(part) => {
            is_nameless(part)
        },
        Tree::Index(base, index) => is_nameless(base) && is_nameless(index),
        Tree::Relation(_, left, right) | Tree::Equality(_, left, right) => {
            is_nameless(left) && is_nameless(right)
        },
        Tree::Both(parts) | Tree::Either(parts) => are_nameless(parts.as_slice()),
    }
}

/// Whether no expression of some names a context.
#[cycle(nameless)]
fn are_nameless(trees: &[Tree]) -> bool
    ensures { (x : Context) → result ≡ true
        → any_names_context x (exprs_of (views trees.now)) ≡ false }
{
    for tree in trees {
        if !is_nameless(tree) {
            return false;
        }
    }
    true
}

/// Whether a piece of a template names no context.
fn is_nameless_piece(piece: &Piece) -> bool
    ensures { (x : Context) → result ≡ true → piece_names_context x (piece_of piece.now) ≡ false }
{
    match piece {
        Piece::Text(_) => true,
        Piece::Expression(tree) => is_nameless(tree),
    }
}

/// Whether a template is one piece, as a condition in which no `${{` stands, and names no context.
fn is_one_nameless(pieces: &[Piece]) -> bool
    ensures { (x : Context) → result ≡ true
        → pieces_name_context x (map piece_of pieces.now) ≡ false }
{
    match pieces {
        [piece] => is_nameless_piece(piece),
        [] | [_, _, ..] => false,
    }
}

/// Whether a condition that was read holds, where it names no context and has a value.
fn read_holds_anywhere(alloc: Global, template: &Template, status: Status) -> Option<bool>
    ensures { (c : Contexts) → IfSome result
        (λ holds. condition_holds c status (template_of template.now) ≡ Ok holds) }
{
    if !is_one_nameless(template.pieces.as_slice()) {
        return None;
    }
    condition_by_its_contexts();
    let contexts: Mapping<Value> = Mapping::empty(alloc);
    match eval_condition(alloc, template, &contexts, status) {
        Ok(holds) => Some(holds),
        Err(_) => None,
    }
}

/// Whether the text of a condition holds, where it may be no more than calls of status functions. Most texts that name a
/// context end otherwise, and are not read here.
#[tactic(auto, unfolding(plan_values::specs::Texts::condition_value))]
fn text_holds_anywhere(alloc: Global, text: &str, status: Status) -> Option<bool>
    ensures { (c : Contexts) → IfSome result
        (λ holds. condition_value c status (Some text.now) ≡ Ok holds) }
{
    if !text.ends_with("()") {
        return None;
    }
    match read_condition(alloc, text) {
        Ok(template) => read_holds_anywhere(alloc, &template, status),
        Err(_) => None,
    }
}

/// Whether a condition holds whatever the contexts are: none does where the status is success. Nothing is told of one for
/// which they may count.
#[tactic(auto, unfolding(plan_values::specs::Texts::condition_value))]
pub(crate) fn holds_anywhere(
    alloc: Global,
    condition: &Option<Text>,
    status: Status,
) -> Option<bool>
    ensures { (c : Contexts) → IfSome result
        (λ holds. condition_value c status condition.now ≡ Ok holds) }
{
    match condition {
        Some(text) => text_holds_anywhere(alloc, text.as_str(), status),
        None => Some(status.is_success()),
    }
}
