//! expr_reader: reads the expression language of GitHub Actions: single expressions, templates and conditions.
//!
//! `read_expr` answers a tree exactly where the text spells one within the limits, and no text spells
//! two; `read_template` and `read_condition` do the same for texts with expressions in them. A fault that
//! is answered stands in the text; one of the grammar stands only where even without limits no tree
//! begins so. `fold` and `same_text` say what "ignoring case" means, `names_status` whether a template
//! calls a status function, `has_marker` whether a text holds `${{`, `is_blank` whether it is all white
//! space. What a text spells is defined in `specs/Spells.antt` and `specs/Template.antt`, over
//! `specs/Grammar.antt` and `specs/Spelling.antt`, and as functions in `specs/Accepts.antt`. The crate
//! stands on no other.

#![tactic(auto)]

mod bytes;
mod fault;
mod folding;
mod lexer;
mod machine;
mod marks;
mod names;
mod number;
mod operand;
mod pieces;
mod reader;
mod room;
mod status;
mod template;
mod templates;
mod token;
mod tree;

pub use bytes::is_blank;
pub use fault::ExprFault;
pub use folding::{fold, same_text};
pub use marks::has_marker;
pub use reader::{one_reading, read_expr};
pub use status::names_status;
pub use template::{Piece, Template};
pub use templates::{
    condition_reading, condition_test, itself_reading, marker_test, one_condition, one_template,
    read_condition, read_template, stands_for_itself, template_reading, template_test,
};
pub use tree::{Context, Equality, Function, Literal, Relation, Tree, Wildcard};
