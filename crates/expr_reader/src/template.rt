//! Texts with expressions in them.

use crate::tree::Tree;

/// A piece of a template.
#[derive(Drop)]
pub enum Piece {
    /// Text that stands for itself.
    Text(String),
    /// An expression between `${{` and `}}`, or a whole condition.
    Expression(Tree),
}

/// A text with expressions in it. One of a single expression has that expression's value; any other is
/// the join of its pieces' texts.
#[derive(Drop)]
pub struct Template {
    /// The pieces, in the order of the text.
    pub pieces: Vec<Piece>,
}
