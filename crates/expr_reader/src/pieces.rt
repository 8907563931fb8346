//! Reads the pieces of a text.

ghost use Rattle.std.specs.Prelude.{◌≡◌, ◌≤◌, ◌<◌, length, true, ◌∷◌, ◌++◌, [], OnOk, IfOk, IfErr};
ghost use Rattle.expr_reader.specs.Faults.{Gives, OnlyMemory};
ghost use Rattle.expr_reader.specs.Template.{begins_mark as begins_mark_of, marked};
ghost use Rattle.expr_reader.specs.TemplateReading.{piece_at, read_pieces as read_pieces_of};
ghost use Rattle.expr_reader.specs.View.{view};
ghost use Rattle.expr_reader.specs.TemplateView.{piece_of, pieces_of_vec, template_of, piece_and_rest};

use crate::fault::ExprFault;
use crate::marks::{begins_mark, split_end, split_mark};
use crate::reader::read_at;
use crate::room::add;
use crate::template::{Piece, Template};
use crate::tree::Tree;
use std::alloc::Global;

// The piece that a text begins with, and the rest. The text's end has the place size.
fn next_piece<'a>(
    alloc: Global,
    text: &'a str,
    size: usize,
    status: &mut Option<usize>,
) -> Result<(Piece, &'a str), ExprFault>
    requires { length text.now ≤ size }
    ensures { Gives piece_and_rest result (piece_at size text.now) }
{
    if begins_mark(text.as_bytes()) {
        return marked_piece(alloc, text, size, status);
    }
    let (plain, rest) = split_mark(text);
    match String::from_str(alloc, plain) {
        Ok(plain) => Ok((Piece::Text(plain), rest)),
        Err(_) => Err(ExprFault::Memory(size - text.len())),
    }
}

// The expression that is marked at the front of a text.
fn marked_piece<'a>(
    alloc: Global,
    text: &'a str,
    size: usize,
    status: &mut Option<usize>,
) -> Result<(Piece, &'a str), ExprFault>
    requires short { length text.now ≤ size }
    requires mark { begins_mark_of text.now ≡ true }
    ensures { Gives piece_and_rest result (piece_at size text.now) }
{
    let (_, after) = text.split_at(3);
    match split_end(after) {
        Some((inside, rest)) => {
            let tree = read_at(alloc, inside, size - after.len(), status)?;
            Ok((Piece::Expression(tree), rest))
        }
        None => Err(ExprFault::UnclosedTemplate(size - text.len())),
    }
}

// Adds a piece, at a place.
#[tactic(auto, using(crate::proofs::PieceLoop::pieces_push))]
fn push(pieces: &mut Vec<Piece>, piece: Piece, place: usize) -> Result<(), ExprFault>
    ensures ok { OnOk result
        (pieces_of_vec pieces.new ≡ pieces_of_vec pieces.old ++ piece_of piece ∷ []) }
    ensures err { IfErr result OnlyMemory }
{
    match add(pieces, piece) {
        Ok(()) => Ok(()),
        Err(_) => Err(ExprFault::Memory(place)),
    }
}

/// The pieces of a text whose end has the place size. The place of the first status function goes to
/// status, where none stands there yet.
pub(crate) fn read_pieces(
    alloc: Global,
    text: &str,
    size: usize,
    status: &mut Option<usize>,
) -> Result<Vec<Piece>, ExprFault>
    requires { length text.now ≤ size }
    ensures { Gives pieces_of_vec result (read_pieces_of size text.now) }
{
    let mut pieces = Vec::new(alloc);
    let mut rest = text;
    'pieces: while !rest.is_empty() {
        let (piece, after) = next_piece(alloc, rest, size, status)?;
        push(&mut pieces, piece, size - rest.len())?;
        rest = after;
    }
    Ok(pieces)
}

/// The template of one expression, at a place.
pub(crate) fn single(alloc: Global, tree: Tree, place: usize) -> Result<Template, ExprFault>
    ensures ok { IfOk result (λ template. template_of template ≡ marked (view tree) ∷ []) }
    ensures err { IfErr result OnlyMemory }
{
    let mut pieces = Vec::new(alloc);
    push(&mut pieces, Piece::Expression(tree), place)?;
    Ok(Template { pieces })
}
