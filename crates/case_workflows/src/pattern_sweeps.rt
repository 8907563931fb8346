//! The sweeps over expressions: what many texts of one pattern are read as. A `?` in a pattern is where something stands.
//!
//!   faults PATTERN      `read` or the fault, where each line of the file stands in turn
//!   pairs PATTERN       the trees of what is read, where each line of the file stands first and each second; last the
//!                       number of the others, each of which has a fault with a place in the text
//!   bytes               the same as `faults` for each text of one byte below 128
//!   nest PATTERN TEXT   how often the pattern can stand round the text, and the fault where it stands once more
//!   slices              how many pieces of the file's lines, from the first byte or to the last, as expressions, templates
//!                       and conditions, are read or have a fault with a place in them; those that have none are told

use crate::expressions::{fault_of, put_expression, put_reading};
use case_reader::Page;
use std::str;

/// Does what a verb of these asks, and answers whether it is one.
pub fn perform(page: &mut Page<'_>) -> bool {
    let lines = str::from_utf8(page.file()).unwrap_or("");
    let pattern = page.word(1);
    match page.word(0) {
        "faults" => faults(page, pattern, lines),
        "pairs" => pairs(page, pattern, lines),
        "bytes" => bytes(page),
        "nest" => nest(page, pattern, page.word(2)),
        "slices" => slices(page, lines),
        _ => return false,
    }
    true
}

/// Another page, with the pattern on it, the text in its first place.
fn filled<'a>(page: &Page<'a>, pattern: &str, text: &str) -> Page<'a> {
    let (front, back) = pattern.split_once('?').unwrap_or((pattern, ""));
    let mut filled = page.scratch();
    write!(&mut filled, "{front}{text}{back}");
    filled
}

/// Whether the fault of a text, if it has one, has a place in it.
fn has_place(page: &Page<'_>, kind: &str, text: &str) -> Option<bool> {
    let fault = fault_of(page.alloc, kind, text)?;
    Some(!fault.is_memory() && fault.place() <= text.len())
}

/// Writes a place of a sweep: what the expression is read as.
fn put_row(page: &mut Page<'_>, place: usize, text: &str) {
    write!(page, "{place} ");
    put_reading(page, "expression", text);
    page.put("\n");
}

/// Each line in the place of the pattern.
fn faults(page: &mut Page<'_>, pattern: &str, lines: &str) {
    for (place, line) in lines.lines().enumerate() {
        let text = filled(page, pattern, line);
        put_row(page, place, text.text());
    }
    page.fold();
}

/// Each byte alone.
fn bytes(page: &mut Page<'_>) {
    for byte in 0..128u8 {
        let mut text = page.scratch();
        write!(&mut text, "{}", char::from(byte));
        put_row(page, usize::from(byte), text.text());
    }
    page.fold();
}

/// Each pair of lines in the places of the pattern.
fn pairs(page: &mut Page<'_>, pattern: &str, lines: &str) {
    let mut others = 0u64;
    for first in lines.lines() {
        let pattern = filled(page, pattern, first);
        for second in lines.lines() {
            let text = filled(page, pattern.text(), second);
            if has_place(page, "expression", text.text()) == Some(true) {
                others = others.saturating_add(1);
            } else {
                write!(page, "{first} {second}: ");
                put_expression(page, text.text());
                page.put("\n");
            }
        }
    }
    writeln!(page, "{others} others");
}

/// The pattern round the text, ever more often.
fn nest(page: &mut Page<'_>, pattern: &str, text: &str) {
    let mut text = filled(page, "?", text);
    for times in 0..100 {
        if let Some(fault) = fault_of(page.alloc, "expression", text.text()) {
            return write!(page, "{} at {times} times", fault.name());
        }
        text = filled(page, pattern, text.text());
    }
    page.put("always read");
}

/// The pieces of the lines, as all kinds of text.
fn slices(page: &mut Page<'_>, lines: &str) {
    let mut answered = 0u64;
    for line in lines.lines() {
        for length in 0..line.len() {
            if let Some((front, back)) = line.split_at_checked(length) {
                let fronts = answers(page, front);
                let backs = answers(page, back);
                answered = answered.saturating_add(fronts).saturating_add(backs);
            }
        }
    }
    writeln!(page, "{answered} answered");
}

/// How many kinds of text answer a text; those that do not are told.
fn answers(page: &mut Page<'_>, text: &str) -> u64 {
    let mut answered = 0u64;
    for kind in ["expression", "template", "condition"] {
        if has_place(page, kind, text) == Some(false) {
            write!(page, "{kind} {text}: ");
            put_reading(page, kind, text);
            page.put("\n");
        } else {
            answered = answered.saturating_add(1);
        }
    }
    answered
}
