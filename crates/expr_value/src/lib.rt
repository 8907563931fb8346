//! expr_value: the values of expressions, templates and conditions.
//!
//! `eval` gives the value of an expression over a finite map of contexts and a status, or its first fault from the
//! left; `eval_text` the value of a template, `eval_condition` whether a condition holds. `to_text`, `truthy` and
//! `loose_eq` are the conversions and the equality that they use. All are defined in `specs/`: `Convert`, `Compare`,
//! `Functions`, `Dereference`, `Evaluate`, `Template` and `Condition`. The crate stands on `flow_model` (values) and
//! `expr_reader` (trees).

#![tactic(auto)]

mod bounded;
mod call;
mod compare;
mod context;
mod dereference;
mod digits;
mod evaluate;
mod evaluation_laws;
mod filter;
mod format;
mod function_laws;
mod item;
mod join;
mod json_text;
mod kind;
mod laws;
mod named;
mod number;
mod number_laws;
mod search;
mod status;
mod template;
mod text;
mod truth;
mod values;

pub use context::Context;
pub use evaluation_laws::{
    always_is_true, condition_by_its_contexts, condition_waits_for_success,
    expression_by_its_contexts, expression_without_status, template_by_its_contexts,
    template_without_status, values_have_ordered_keys,
};
pub use function_laws::{
    format_with_doubled_braces, format_with_one_place, format_with_places, format_without_braces,
    from_json_of_to_json,
};
pub use laws::{equality_is_symmetric, inequality_is_opposite, relations_mirror};
pub use named::{names_context, template_names_context};
pub use number_laws::{
    decimal_is_its_number, integer_has_its_value, other_number_is_not_whole,
    other_text_is_no_number,
};
pub use status::Status;
pub use template::{eval, eval_condition, eval_text};
pub use text::to_text;
pub use values::{loose_eq, truthy};
