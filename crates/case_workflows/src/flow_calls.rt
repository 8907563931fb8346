//! The verbs of workflows that are read, of contexts and of matrices, over the input.
//!
//!   flows           `workflow` for each line that is one, or its fault
//!   flow cut        how many of the cuts, the first 0 bytes of the input, 1, and so on but not all, are workflows
//!   flow garbled    what the input is with each byte in turn made another: how often a workflow, how often each fault
//!   roots           the contexts that each line gives, or its fault
//!   legs            the combinations of the matrix that each line is, one a line, or its fault, or that of a workflow
//!                   with a job `a` of that matrix
//!
//! A fault is told by its name and the key, path or text that it names. Values are told as compact JSON.

use crate::expressions;
use case_reader::Page;
use flow_model::{Mapping, Matrix, Value, json_of};
use flow_reader::{FlowFault, read_flow, read_roots};
use matrix_expand::expand;
use std::alloc::Global;

/// The path of the workflows.
const PATH: &str = "flow.json";

/// What stands before and behind the matrix of the only job of a workflow.
const BEFORE: &[u8] = b"{\"jobs\":{\"a\":{\"steps\":[],\"strategy\":{\"matrix\":";

const BEHIND: &[u8] = b"}}},\"on\":\"push\"}";

/// What a byte is made.
const OTHERS: [u8; 6] = [0x00, b' ', b'"', b'{', b'0', 0xff];

/// What a text is told to be that is a workflow.
const WORKFLOWS: &str = "workflows";

/// What a text can be.
const READINGS: [&str; 9] = [
    WORKFLOWS,
    "NotJson",
    "NotWhole",
    "Missing",
    "WrongShape",
    "BadId",
    "LeftOut",
    "UnknownShell",
    "Memory",
];

/// Does what a verb of these or of expressions asks, and answers whether it is one.
pub fn perform(page: &mut Page<'_>) -> bool {
    match (page.word(0), page.word(1)) {
        ("flow", "cut") => cut(page),
        ("flow", _) => garbled(page),
        ("flows", _) => lines(page),
        ("roots", _) => lines(page),
        ("legs", _) => lines(page),
        _ => return expressions::perform(page),
    }
    true
}

/// Writes a fault, and what it names, if anything.
pub fn put_fault(page: &mut Page<'_>, fault: &FlowFault) {
    page.put(fault.name());
    match fault {
        FlowFault::Missing(text)
        | FlowFault::WrongShape(text)
        | FlowFault::BadId(text)
        | FlowFault::LeftOut(text)
            if !text.is_empty() => {
            write!(page, " {}", text.as_str());
        },
        _ => {},
    }
}

/// What was read, or none where the fault is written, in a line.
fn have<T>(page: &mut Page<'_>, read: Result<T, FlowFault>) -> Option<T> {
    match read {
        Ok(read) => Some(read),
        Err(fault) => {
            put_fault(page, &fault);
            page.put("\n");
            None
        },
    }
}

/// Writes what each line of the input is read as.
fn lines(page: &mut Page<'_>) {
    for line in page.lines().as_slice() {
        match page.word(0) {
            "flows" => {
                if have(page, read_flow(page.alloc, PATH, line)).is_some() {
                    page.put("workflow\n");
                }
            },
            "roots" => put_roots(page, line),
            _ => put_legs(page, line),
        }
    }
}

/// What a text is.
fn reading_of(alloc: Global, text: &[u8]) -> &'static str {
    match read_flow(alloc, PATH, text) {
        Ok(_) => WORKFLOWS,
        Err(fault) => fault.name(),
    }
}

/// How many beginnings of the input are workflows.
fn cut(page: &mut Page<'_>) {
    let input = page.input;
    let mut count = 0_usize;
    for end in 0..input.len() {
        if reading_of(page.alloc, &input[..end]) == WORKFLOWS {
            count = count.saturating_add(1);
        }
    }
    write!(page, "{count} of {} cuts are workflows", input.len());
}

/// What the input is with each byte in turn made each of the others.
fn garbled(page: &mut Page<'_>) {
    let mut readings = Vec::new(page.alloc);
    if let Some(mut text) = page.have(Vec::from_slice(page.alloc, page.input)) {
        for place in 0..text.len() {
            let whole = text[place];
            for other in OTHERS {
                text[place] = other;
                page.note(readings.push(reading_of(page.alloc, text.as_slice())));
            }
            text[place] = whole;
        }
    }
    put_counts(page, readings.as_slice());
}

/// Writes how many garbled texts there are, and what they are.
fn put_counts(page: &mut Page<'_>, readings: &[&str]) {
    write!(page, "{} garbled texts", readings.len());
    let mut sign = ':';
    for name in READINGS {
        let mut count = 0_usize;
        for reading in readings {
            if *reading == name {
                count = count.saturating_add(1);
            }
        }
        if count > 0 {
            write!(page, "{sign} {count} {name}");
            sign = ',';
        }
    }
}

/// Writes the contexts that a text gives, each behind its name, or its fault.
fn put_roots(page: &mut Page<'_>, text: &[u8]) {
    if let Some(roots) = have(page, read_roots(page.alloc, text)) {
        put_values(page, "github ", &roots.github);
        put_values(page, " inputs ", &roots.inputs);
        put_values(page, " secrets ", &roots.secrets);
        put_values(page, " vars ", &roots.vars);
        page.put("\n");
    }
}

/// Writes values as a JSON object, behind a text.
fn put_values(page: &mut Page<'_>, front: &str, values: &Mapping<Value>) {
    let mut members = Mapping::empty(page.alloc);
    for (name, value) in values.iter() {
        if let Some(json) = page.have(json_of(page.alloc, value)) {
            page.note(members.set(page.alloc, name.as_str(), json));
        }
    }
    let object = serde_json::Value::Object(members.into_map());
    write!(page, "{front}{object}");
}

/// Writes the combinations of a matrix, or the fault of the workflow whose only job has it.
fn put_legs(page: &mut Page<'_>, matrix: &[u8]) {
    let mut text = Vec::new(page.alloc);
    page.note(text.extend_from_slice(BEFORE));
    page.note(text.extend_from_slice(matrix));
    page.note(text.extend_from_slice(BEHIND));
    if let Some(flow) = have(page, read_flow(page.alloc, PATH, text.as_slice())) {
        for job in flow.workflow().jobs.as_slice() {
            match &job.matrix {
                Some(matrix) => put_combinations(page, matrix),
                None => writeln!(page, "no matrix"),
            }
        }
    }
}

/// Writes the combinations of a matrix, one a line, or its fault.
fn put_combinations(page: &mut Page<'_>, matrix: &Matrix) {
    match expand(page.alloc, matrix) {
        Ok(combinations) => {
            for combination in combinations.as_slice() {
                put_values(page, "", combination);
                page.put("\n");
            }
        },
        Err(fault) => writeln!(page, "{fault}"),
    }
}
