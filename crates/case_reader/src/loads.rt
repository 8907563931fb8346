//! Plans, entries and records that a verb loads onto its page: what was loaded, or none where the fault is written.

use crate::page::Page;
use flow_model::{CheckedPlan, Entry, Sequence, first_line};
use plan_text::{LoadFault, load_plan, load_record};

/// What was loaded, or none where the fault is written, with its path or line.
pub fn loaded<T>(page: &mut Page<'_>, loaded: Result<T, LoadFault>) -> Option<T> {
    match loaded {
        Ok(loaded) => return Some(loaded),
        Err(LoadFault::NotPlan(path)) => write!(page, "NotPlan {}", path.as_str()),
        Err(LoadFault::NotEntry(line)) => write!(page, "NotEntry {line}"),
        Err(fault) => write!(page, "{fault}"),
    }
    None
}

/// The plan that the first line of the input is, and what follows it, or none where the fault is written.
pub fn plan_in<'a>(page: &mut Page<'a>) -> Option<(CheckedPlan, &'a [u8])> {
    let input = page.input;
    if input.is_empty() {
        page.put("NotJson");
        return None;
    }
    let (line, rest) = first_line(input);
    let plan = loaded(page, load_plan(page.alloc, line))?;
    Some((plan, rest))
}

/// The record that the input is, or none where the fault is written.
pub fn record_in(page: &mut Page<'_>) -> Option<(CheckedPlan, Sequence<Entry>)> {
    let made = load_record(page.alloc, page.input);
    loaded(page, made)
}
