//! Which expressions name a status function.

ghost use Rattle.std.specs.Prelude.{◌≡◌};
ghost use Rattle.expr_reader.specs.Expr.{exprs_of};
ghost use Rattle.expr_reader.specs.Template.{is_status as is_status_of, expr_names_status as expr_names_of, any_names_status as any_names_of, piece_names_status as piece_names_of, names_status as names_of};
ghost use Rattle.expr_reader.specs.TemplateView.{piece_of, template_of};
ghost use Rattle.expr_reader.specs.View.{view, views};

use crate::template::{Piece, Template};
use crate::tree::{Function, Tree};

/// Whether it is a status function.
pub(crate) fn is_status(function: Function) -> bool
    ensures { result ≡ is_status_of function }
{
    match function {
        Function::Success | Function::Failure | Function::Cancelled | Function::Always => true,
        Function::Contains
        | Function::StartsWith
        | Function::EndsWith
        | Function::Format
        | Function::Join
        | Function::ToJson
        | Function::FromJson => false,
    }
}

// Whether a tree calls a status function anywhere.
#[cycle(status)]
fn tree_names_status(tree: &Tree) -> bool
    ensures { result ≡ expr_names_of (view tree.now) }
{
    match tree {
        Tree::Literal(_) | Tree::Context(_) => false,
        Tree::Call(function, arguments) => is_status(*function)
            || any_names_status(arguments.as_slice()),
        Tree::Group(part) | Tree::Property(part, _) | Tree::Wildcard(_, part) | Tree::Not(part) =>
            tree_names_status(part),
        Tree::Index(left, right)
        | Tree::Relation(_, left, right)
        | Tree::Equality(_, left, right) => tree_names_status(left) || tree_names_status(right),
        Tree::Both(parts) | Tree::Either(parts) => any_names_status(parts.as_slice()),
    }
}

#[cycle(status)]
fn any_names_status(trees: &[Tree]) -> bool
    ensures { result ≡ any_names_of (exprs_of (views trees.now)) }
{
    for tree in trees {
        if tree_names_status(tree) {
            return true;
        }
    }
    false
}

// Whether a piece calls a status function anywhere.
fn piece_names_status(piece: &Piece) -> bool
    ensures { result ≡ piece_names_of (piece_of piece.now) }
{
    match piece {
        Piece::Text(_) => false,
        Piece::Expression(tree) => tree_names_status(tree),
    }
}

/// Whether a template calls a status function anywhere: `success`, `failure`, `cancelled` or `always`.
/// Takes no memory.
pub fn names_status(template: &Template) -> bool
    ensures { result ≡ names_of (template_of template.now) }
{
    let pieces = template.pieces.as_slice();
    for piece in pieces {
        if piece_names_status(piece) {
            return true;
        }
    }
    false
}
