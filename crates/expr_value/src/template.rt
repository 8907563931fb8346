//! The values of expressions, templates and conditions, as the crates above ask for them.

ghost use Rattle.std.specs.Prelude.{◌≡◌, false, Ok, map};
ghost use Rattle.expr_reader.specs.Template.{names_status as names_status_of};
ghost use Rattle.expr_reader.specs.TemplateView.{template_of, piece_of};
ghost use Rattle.expr_reader.specs.View.{view as tree_view};
ghost use Rattle.expr_value.specs.Answer.{Gives};
ghost use Rattle.expr_value.specs.Condition.{condition_holds, truth_value};
ghost use Rattle.expr_value.specs.Evaluate.{evaluated as evaluated_of, value};
ghost use Rattle.expr_value.specs.Joined.{grown_answer, is_too_large as is_too_large_of};
ghost use Rattle.expr_value.specs.Limit.{last_value as last_value_of};
ghost use Rattle.expr_value.specs.Seen.{kind_seen, item_seen};
ghost use Rattle.expr_value.specs.Template.{limited_text, pieces_text, piece_text, text_answer, template_value as template_value_of};
ghost use Rattle.expr_value.specs.declared.status.Status.{Status};
ghost use Rattle.flow_model.specs.Value.{view};

use crate::bounded::{Bounded, MOST_BYTES};
use crate::context::Context;
use crate::evaluate::evaluate;
use crate::item::{Item, into_value};
use crate::kind::ValueKind;
use crate::status::Status;
use crate::text::push_kind;
use crate::truth::truth_of;
use expr_reader::{Piece, Template, Tree, names_status};
use flow_model::{Node, Value, ValueFault};
use std::alloc::Global;

// Whether it is a text beyond the limit.
fn is_too_large(kind: ValueKind<'_>) -> bool
    ensures { result ≡ is_too_large_of (kind_seen kind.entry) }
{
    match kind {
        ValueKind::Text(text) => text.len() > MOST_BYTES,
        ValueKind::Null
        | ValueKind::Truth(_)
        | ValueKind::Whole(_)
        | ValueKind::List
        | ValueKind::Map => false,
    }
}

// A value that ends an evaluation: a text beyond the limit is TooLarge.
fn last_value(item: Item<'_>) -> Result<Item<'_>, ValueFault>
    ensures { Gives item_seen result (last_value_of (item_seen item.entry)) }
{
    if is_too_large(item.kind()) {
        return Err(ValueFault::TooLarge);
    }
    Ok(item)
}

// The value that an evaluation of an expression gives.
fn evaluated<'a, C: Context>(
    alloc: Global,
    tree: &Tree,
    contexts: &'a C,
    status: Status,
) -> Result<Item<'a>, ValueFault>
    ensures { Gives item_seen result
        (evaluated_of (C.contexts contexts.now) status (tree_view tree.now)) }
{
    let item = evaluate(alloc, tree, contexts, status)?;
    last_value(item)
}

// Adds the text of an item.
fn push_item(alloc: Global, item: &Item<'_>, text: &mut Bounded) -> Result<(), ValueFault>
    ensures { Gives (λ done. text.new) result
        (grown_answer text.old (text_answer (Ok (item_seen item.now)))) }
{
    push_kind(text, alloc, item.kind())?;
    Ok(())
}

// Adds the text of an expression's value.
fn push_value<C: Context>(
    alloc: Global,
    tree: &Tree,
    contexts: &C,
    status: Status,
    text: &mut Bounded,
) -> Result<(), ValueFault>
    ensures { Gives (λ done. text.new) result
        (grown_answer text.old
        (text_answer (value (C.contexts contexts.now) status (tree_view tree.now)))) }
{
    let item = evaluate(alloc, tree, contexts, status)?;
    push_item(alloc, &item, text)
}

// Adds a text that stands in a template.
fn push_plain(plain: &str, text: &mut Bounded) -> Result<(), ValueFault>
    ensures { Gives (λ done. text.new) result (grown_answer text.old (Ok plain.now)) }
{
    text.push_str(plain)?;
    Ok(())
}

// Adds the text of a piece.
fn push_piece<C: Context>(
    alloc: Global,
    piece: &Piece,
    contexts: &C,
    status: Status,
    text: &mut Bounded,
) -> Result<(), ValueFault>
    ensures { Gives (λ done. text.new) result
        (grown_answer text.old (piece_text (C.contexts contexts.now) status (piece_of piece.now))) }
{
    match piece {
        Piece::Text(plain) => push_plain(plain.as_str(), text),
        Piece::Expression(tree) => push_value(alloc, tree, contexts, status, text),
    }
}

// The join of the pieces' texts.
fn joined<C: Context>(
    alloc: Global,
    pieces: &[Piece],
    contexts: &C,
    status: Status,
) -> Result<Node, ValueFault>
    ensures { Gives view result
        (limited_text (pieces_text (C.contexts contexts.now) status (map piece_of pieces.now))) }
{
    let mut text = Bounded::empty(alloc);
    for piece in pieces {
        push_piece(alloc, piece, contexts, status, &mut text)?;
    }
    text.finish()
}

// The join of the pieces' texts, as an item.
fn joined_item<'a, C: Context>(
    alloc: Global,
    pieces: &[Piece],
    contexts: &C,
    status: Status,
) -> Result<Item<'a>, ValueFault>
    ensures { Gives item_seen result
        (limited_text (pieces_text (C.contexts contexts.now) status (map piece_of pieces.now))) }
{
    Ok(Item::Made(joined(alloc, pieces, contexts, status)?))
}

// The value of a template.
fn template_value<'a, C: Context>(
    alloc: Global,
    template: &Template,
    contexts: &'a C,
    status: Status,
) -> Result<Item<'a>, ValueFault>
    ensures { Gives item_seen result
        (template_value_of (C.contexts contexts.now) status (template_of template.now)) }
{
    let pieces = template.pieces.as_slice();
    match pieces {
        [Piece::Expression(tree)] => evaluated(alloc, tree, contexts, status),
        [] | [Piece::Text(_), ..] | [Piece::Expression(_), _, ..] => {
            joined_item(alloc, pieces, contexts, status)
        },
    }
}

// The value of a template, apart from the contexts.
fn owned_value<C: Context>(
    alloc: Global,
    template: &Template,
    contexts: &C,
    status: Status,
) -> Result<Value, ValueFault>
    ensures { Gives (λ value. value) result
        (template_value_of (C.contexts contexts.now) status (template_of template.now)) }
{
    let item = template_value(alloc, template, contexts, status)?;
    into_value(alloc, item)
}

/// The value of an expression over contexts and a status (GitHub Docs, "Evaluate expressions in workflows and
/// actions"). Parts are evaluated from the left, and what `&&` and `||` do not need is not evaluated.
///
/// # Errors
///
/// The first fault from the left: `NotWhole`, `NoIdentity`, `BadFormat`, `BadJson` or `TooLarge`, the last also where
/// the value is a text of more than 1,048,576 bytes; or `Memory`.
pub fn eval<C: Context>(
    alloc: Global,
    tree: &Tree,
    contexts: &C,
    status: Status,
) -> Result<Value, ValueFault>
    ensures { Gives (λ value. value) result
        (evaluated_of (C.contexts contexts.now) status (tree_view tree.now)) }
{
    let item = evaluated(alloc, tree, contexts, status)?;
    into_value(alloc, item)
}

/// The value of a template: of exactly one expression and nothing else that expression's value, else the join of the
/// texts of its pieces. The template names no status function, and has that value under every status.
///
/// # Errors
///
/// Those of `eval`, from the left; `TooLarge` where the join has more than 1,048,576 bytes.
pub fn eval_text<C: Context>(
    alloc: Global,
    template: &Template,
    contexts: &C,
) -> Result<Value, ValueFault>
    requires { names_status_of (template_of template.now) ≡ false }
    ensures { (s : Status) → Gives (λ value. value) result
        (template_value_of (C.contexts contexts.now) s (template_of template.now)) }
{
    owned_value(alloc, template, contexts, Status::Success)
}

// Whether the value of a template is true.
fn template_holds<C: Context>(
    alloc: Global,
    template: &Template,
    contexts: &C,
    status: Status,
) -> Result<bool, ValueFault>
    ensures { Gives (λ holds. holds) result
        (truth_value (template_value_of (C.contexts contexts.now) status (template_of template.now))) }
{
    let item = template_value(alloc, template, contexts, status)?;
    Ok(truth_of(item.kind()))
}

/// Whether a condition holds: the truth of its value. One that names no status function does not hold, and is not
/// evaluated, where the status is not success (GitHub Docs, "Evaluate expressions in workflows and actions": status
/// check functions).
///
/// # Errors
///
/// Those of `eval`.
pub fn eval_condition<C: Context>(
    alloc: Global,
    template: &Template,
    contexts: &C,
    status: Status,
) -> Result<bool, ValueFault>
    ensures { Gives (λ holds. holds) result
        (condition_holds (C.contexts contexts.now) status (template_of template.now)) }
{
    if !names_status(template) && !status.is_success() {
        return Ok(false);
    }
    template_holds(alloc, template, contexts, status)
}
