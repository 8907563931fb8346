//! The contexts that expressions and templates name.

ghost use Rattle.std.specs.Prelude.{◌≡◌};
ghost use Rattle.expr_reader.specs.Expr.{exprs_of};
ghost use Rattle.expr_reader.specs.TemplateView.{piece_of, template_of};
ghost use Rattle.expr_reader.specs.View.{view, views};
ghost use Rattle.expr_value.specs.Named.{any_names_context as any_names_of, expr_names_context, is_same_context as is_same_of, piece_names_context as piece_names_of, pieces_name_context};

use expr_reader::{Context, Piece, Template, Tree};

// Whether two contexts have one name.
fn is_same_context(left: Context, right: Context) -> bool
    ensures { result ≡ is_same_of left right }
{
    left.name().cmp(right.name()).is_eq()
}

/// Whether an expression names a context anywhere. Takes no memory.
#[cycle(named)]
pub fn names_context(tree: &Tree, context: Context) -> bool
    ensures { result ≡ expr_names_context context (view tree.now) }
{
    match tree {
        Tree::Literal(_) => false,
        Tree::Context(named) => is_same_context(context, *named),
        Tree::Call(_, arguments) => any_names_context(arguments.as_slice(), context),
        Tree::Group(part) | Tree::Property(part, _) | Tree::Wildcard(_, part) | Tree::Not(part) => {
            names_context(part, context)
        },
        Tree::Index(base, index) => names_context(base, context) || names_context(index, context),
        Tree::Relation(_, left, right) | Tree::Equality(_, left, right) => {
            names_context(left, context) || names_context(right, context)
        },
        Tree::Both(parts) | Tree::Either(parts) => any_names_context(parts.as_slice(), context),
    }
}

// Whether one of the trees names a context anywhere.
#[cycle(named)]
fn any_names_context(trees: &[Tree], context: Context) -> bool
    ensures { result ≡ any_names_of context (exprs_of (views trees.now)) }
{
    for tree in trees {
        if names_context(tree, context) {
            return true;
        }
    }
    false
}

// Whether a piece names a context anywhere.
fn piece_names_context(piece: &Piece, context: Context) -> bool
    ensures { result ≡ piece_names_of context (piece_of piece.now) }
{
    match piece {
        Piece::Text(_) => false,
        Piece::Expression(tree) => names_context(tree, context),
    }
}

/// Whether a template names a context anywhere. Takes no memory.
pub fn template_names_context(template: &Template, context: Context) -> bool
    ensures { result ≡ pieces_name_context context (template_of template.now) }
{
    let pieces = template.pieces.as_slice();
    for piece in pieces {
        if piece_names_context(piece, context) {
            return true;
        }
    }
    false
}
