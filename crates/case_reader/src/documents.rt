//! The verbs of plans, entries and records as texts, which read the input.
//!
//!   plan            the text of the plan that the input is, printed
//!   entry           the text of the entry that it is, printed
//!   record          the text of the record that it is, printed
//!   copy            the same of copies, whose plan was checked anew
//!   sample board    a copy of a board with all that its lines can tell
//!   sample reply    a copy of a reply that calls an action
//!
//! What is refused is told by its fault, with its path or line.

use crate::boards::put_board;
use crate::loads::{loaded, record_in};
use crate::page::Page;
use crate::replies::put_reply;
use crate::samples;
use flow_model::{CheckedPlan, Duplicate};
use plan_text::{load_plan, print_entry, print_plan, print_record, read_entry};

/// Does what a verb of these asks, and answers whether it is one.
pub fn perform(page: &mut Page<'_>) -> bool {
    match page.word(0) {
        "plan" => plan(page),
        "entry" => entry(page),
        "record" => record(page),
        "copy" => copy(page),
        "sample" => sample(page),
        _ => return false,
    }
    true
}

/// The plan, printed.
fn plan(page: &mut Page<'_>) {
    if let Some(plan) = loaded(page, load_plan(page.alloc, page.input)) {
        page.print(print_plan(page.alloc, &plan));
    }
}

/// The entry, printed.
fn entry(page: &mut Page<'_>) {
    if let Some(entry) = loaded(page, read_entry(page.alloc, page.input)) {
        page.print(print_entry(page.alloc, &entry));
    }
}

/// The record, printed.
fn record(page: &mut Page<'_>) {
    if let Some((plan, entries)) = record_in(page) {
        page.print(print_record(page.alloc, &plan, entries.as_slice()));
    }
}

/// The sample that the words name.
fn sample(page: &mut Page<'_>) {
    if page.word(1) == "board" {
        return put_board(page, samples::board(page.alloc));
    }
    if let Some(reply) = page.have(samples::reply(page.alloc)) {
        put_reply(page, &reply);
    }
}

/// A copy of a plan, of which a copy is checked anew.
fn copied(page: &mut Page<'_>, plan: &CheckedPlan) -> Option<CheckedPlan> {
    let twin = page.have(plan.copy(page.alloc))?;
    let plan = page.have(twin.plan().copy(page.alloc))?;
    page.have(plan.check(page.alloc))
}

/// The record of copies.
fn copy(page: &mut Page<'_>) {
    if let Some((plan, entries)) = record_in(page) {
        if let Some(plan) = copied(page, &plan) {
            if let Some(entries) = page.have(entries.copy(page.alloc)) {
                page.print(print_record(page.alloc, &plan, entries.as_slice()));
            }
        }
    }
}
