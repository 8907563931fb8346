//! The tokens of an expression's text.

ghost use Rattle.std.specs.Prelude.{◌≡◌};
ghost use Rattle.expr_reader.specs.Stack.{token_of};
ghost use Rattle.expr_reader.specs.Status.{token_names_status};

use crate::status::is_status;
use crate::tree::{Context, Equality, Function, Literal, Relation};

/// Brackets, separators and the operators that are no comparison.
#[derive(Clone, Copy)]
pub(crate) enum Mark {
    Open,
    Close,
    OpenIndex,
    CloseIndex,
    Dot,
    Comma,
    Star,
    Not,
    Both,
    Either,
}

/// A token of an expression.
#[derive(Drop)]
pub(crate) enum Token {
    Constant(Literal),
    Root(Context),
    Callee(Function),
    /// The name of a property, which stands after a dot.
    Name(String),
    Relational(Relation),
    Equational(Equality),
    Mark(Mark),
}

impl Token {
    /// Whether it names a status function.
    pub(crate) fn names_status(&self) -> bool
        ensures { result ≡ token_names_status (token_of self.now) }
    {
        match self {
            Token::Callee(function) => is_status(*function),
            Token::Constant(_)
            | Token::Root(_)
            | Token::Name(_)
            | Token::Relational(_)
            | Token::Equational(_)
            | Token::Mark(_) => false,
        }
    }
}
