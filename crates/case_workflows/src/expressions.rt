//! The verbs of expressions and values, over the contexts of the file.
//!
//!   tree TEXT          the expression that the text is, written out (`tree_text`), or its fault
//!   pieces TEXT        the pieces of the template, one a line, and whether it names a status function; or its fault
//!   condition TEXT     the same of the condition
//!   read KIND TEXT     `read` or the fault, of an `expression`, `template` or `condition`
//!   template TEXT      the value of the template as JSON, or its fault
//!   holds STATUS TEXT  whether the condition holds under `success`, `failure`, `cancelled` or `other`, or its fault
//!   value JSON         a copy of the value as JSON, then as a text, then as a truth value
//!   equal JSON JSON    whether the values are equal, or the fault
//!   fold TEXT TEXT     the first folded, and whether the two are the same ignoring case

use crate::pattern_sweeps;
use crate::tree_text::{put_pieces, put_tree};
use case_reader::Page;
use expr_reader::{
    ExprFault, Template, fold, names_status, read_condition, read_expr, read_template, same_text,
};
use expr_value::{Status, eval_condition, eval_text, loose_eq, to_text, truthy};
use flow_model::{Duplicate, Mapping, Node, Value, json_of, read_json, value_of};
use std::alloc::Global;

/// Does what a verb of these or of the sweeps asks, and answers whether it is one.
pub fn perform(page: &mut Page<'_>) -> bool {
    let (text, other) = (page.word(1), page.word(2));
    match page.word(0) {
        "tree" => put_expression(page, text),
        "pieces" => put_read(page, read_template(page.alloc, text)),
        "condition" => put_read(page, read_condition(page.alloc, text)),
        "read" => put_reading(page, text, other),
        "template" => template(page, text),
        "holds" => holds(page, text, other),
        "value" => value(page, text),
        "equal" => equal(page, text, other),
        "fold" => put_folded(page, text, other),
        _ => return pattern_sweeps::perform(page),
    }
    true
}

/// The fault of a text, if it has one.
pub fn fault_of(alloc: Global, kind: &str, text: &str) -> Option<ExprFault> {
    match kind {
        "expression" => read_expr(alloc, text).err(),
        "template" => read_template(alloc, text).err(),
        _ => read_condition(alloc, text).err(),
    }
}

/// Writes the fault of a text, or that it is read.
pub fn put_reading(page: &mut Page<'_>, kind: &str, text: &str) {
    match fault_of(page.alloc, kind, text) {
        Some(fault) => write!(page, "{fault}"),
        None => page.put("read"),
    }
}

/// Writes the tree of an expression, or its fault.
pub fn put_expression(page: &mut Page<'_>, text: &str) {
    if let Some(tree) = page.have(read_expr(page.alloc, text)) {
        put_tree(page, &tree);
    }
}

/// Writes the pieces of a template or condition and whether they name a status function, or its fault.
fn put_read(page: &mut Page<'_>, read: Result<Template, ExprFault>) {
    if let Some(template) = page.have(read) {
        put_pieces(page, &template);
        writeln!(page, "{}", names_status(&template));
    }
}

/// The document that a text is; of any other text null.
fn json_in(page: &mut Page<'_>, text: &[u8]) -> serde_json::Value {
    let json = page.have(read_json(page.alloc, text)).flatten();
    json.unwrap_or(serde_json::Value::Null)
}

/// The contexts that the file gives: those members of its object that have a value.
fn contexts(page: &mut Page<'_>) -> Mapping<Value> {
    let json = json_in(page, page.file());
    let mut contexts = Mapping::empty(page.alloc);
    if let Some(members) = json.as_object() {
        for (name, member) in members.iter() {
            if let Ok(value) = value_of(page.alloc, member) {
                page.note(contexts.set(page.alloc, name.as_str(), value));
            }
        }
    }
    contexts
}

/// The value that a text of JSON writes; of any other text null.
fn value_in(page: &mut Page<'_>, text: &str) -> Value {
    let json = json_in(page, text.as_bytes());
    value_of(page.alloc, &json).unwrap_or(Value::new(Node::Null))
}

/// Whether two values are equal, or the fault.
fn equal(page: &mut Page<'_>, left: &str, right: &str) {
    let left = value_in(page, left);
    let right = value_in(page, right);
    page.print(loose_eq(&left, &right));
}

/// A text folded, and whether it is another one ignoring case.
fn put_folded(page: &mut Page<'_>, text: &str, other: &str) {
    page.print(fold(page.alloc, text));
    write!(page, "\n{}", same_text(text, other));
}

/// The value of a template as JSON, or the fault of the text.
fn template(page: &mut Page<'_>, text: &str) {
    let contexts = contexts(page);
    match read_template(page.alloc, text) {
        Ok(template) => {
            if let Some(value) = page.have(eval_text(page.alloc, &template, &contexts)) {
                page.print(json_of(page.alloc, &value));
            }
        },
        Err(fault) => write!(page, "{fault}"),
    }
}

/// The status of that name.
fn status_of(name: &str) -> Status {
    match name {
        "success" => Status::Success,
        "failure" => Status::Failure,
        "cancelled" => Status::Cancelled,
        _ => Status::Other,
    }
}

/// Whether a condition holds under a status, or the fault of the text.
fn holds(page: &mut Page<'_>, status: &str, text: &str) {
    if let Some(condition) = page.have(read_condition(page.alloc, text)) {
        put_holds(page, status_of(status), &condition);
    }
}

/// Whether a condition holds under a status, over the contexts of the file.
fn put_holds(page: &mut Page<'_>, status: Status, condition: &Template) {
    let contexts = contexts(page);
    page.print(eval_condition(page.alloc, condition, &contexts, status));
}

/// A copy of a value as JSON, as a text and as a truth value.
fn value(page: &mut Page<'_>, json: &str) {
    let value = value_in(page, json);
    if let Some(twin) = page.have(value.copy(page.alloc)) {
        put_value(page, &twin);
    }
}

/// A value as JSON, as a text and as a truth value.
fn put_value(page: &mut Page<'_>, value: &Value) {
    page.print(json_of(page.alloc, value));
    if let Some(text) = page.have(to_text(page.alloc, value)) {
        write!(page, "\n{}\n{}", text.as_str(), truthy(value));
    }
}
