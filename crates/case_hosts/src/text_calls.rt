//! The verbs of the texts that programs are started by and that they leave.
//!
//!   shell SHELL FILE     the words that start a file by `default`, `sh` or `bash`, parted by spaces
//!   outputs              what the file of outputs that the input is gives, as the answer of an End, or its fault
//!   variables            the same of a file of variables
//!   outputs PART FROM TO, variables PART FROM TO     whether files of so many `names`, with a `name` of so many bytes, and with
//!                        a `value` of so many bytes are read
//!   commands             the lines of what a step printed, which the input is: `plain TEXT`, `resume`, or a command by its name,
//!                        its pairs, each behind a comma but the first, and its message
//!   shown MASK..         the lines that are shown of it
//!   masked MASK..        the input, masked; or, where the file has lines, the answer to step 0 of leg 0 that a masked host gives
//!                        over the script that they are

use crate::host_calls::script_of;
use case_reader::Page;
use flow_commands::{
    Line, Masks, mask, read_commands, read_env_file, read_output_file, shell_words, shown,
};
use flow_model::{Answer, CallWork, Entry, Event, Mapping, Shell, StepCall, Text};
use plan_text::print_entry;
use std::str;
use step_host::{Masked, StepHost};

/// Does what a verb of these asks, and answers whether it is one.
pub fn perform(page: &mut Page<'_>) -> bool {
    let text = str::from_utf8(page.input).unwrap_or("");
    match page.word(0) {
        "shell" => shell(page),
        "outputs" | "variables" if !page.word(1).is_empty() => sizes(page),
        "outputs" | "variables" => put_pairs_read(page),
        "commands" => {
            if let Some(lines) = page.have(read_commands(page.alloc, text)) {
                put_lines(page, lines.as_slice());
            }
        },
        "shown" => show(page, text),
        "masked" => masked(page, text),
        _ => return false,
    }
    true
}

/// The shell of that name.
fn shell_of(name: &str) -> Shell {
    match name {
        "sh" => Shell::Sh,
        "bash" => Shell::Bash,
        _ => Shell::Default,
    }
}

/// The words that start a file in a shell.
fn shell(page: &mut Page<'_>) {
    let (shell, file) = (shell_of(page.word(1)), page.word(2));
    if let Some(words) = page.have(shell_words(page.alloc, shell, file)) {
        for (place, word) in words.as_slice().iter().enumerate() {
            page.put(if place == 0 { "" } else { " " });
            page.put(word.as_str());
        }
    }
}

/// Writes an answer, as the End of leg 0 has it.
fn put_answer(page: &mut Page<'_>, answer: Answer) {
    let event = Event::End { leg: 0, answer };
    page.print(print_entry(page.alloc, &Entry { worker: 0, event }));
}

/// The outputs or the variables, as the verb says, that a file gives, or none where the fault is written.
fn pairs_read(page: &mut Page<'_>, file: &[u8]) -> Option<Mapping<Text>> {
    let read = if page.word(0) == "outputs" {
        read_output_file(page.alloc, file)
    } else {
        read_env_file(page.alloc, file)
    };
    page.have(read)
}

/// Writes the answer of a step that left the input as its file.
fn put_pairs_read(page: &mut Page<'_>) {
    if let Some(pairs) = pairs_read(page, page.input) {
        let none = Mapping::empty(page.alloc);
        let (outputs, env) = if page.word(0) == "outputs" {
            (pairs, none)
        } else {
            (none, pairs)
        };
        let code = 0;
        put_answer(page, Answer::Exit { code, outputs, env });
    }
}

/// Whether files of these sizes are read.
fn sizes(page: &mut Page<'_>) {
    let from = page.word(2).parse::<usize>().unwrap_or(0);
    for size in from..=page.word(3).parse::<usize>().unwrap_or(0) {
        let file = file_of(page, size);
        write!(page, "{size} ");
        if pairs_read(page, file.text().as_bytes()).is_some() {
            page.put("read");
        }
        page.put("\n");
    }
    page.fold();
}

/// A file of so many names, or of one pair whose name or value has so many bytes.
fn file_of<'a>(page: &Page<'a>, size: usize) -> Page<'a> {
    let mut file = page.scratch();
    let part = page.word(1);
    if part == "value" {
        file.put("n=");
    }
    for number in 0..size {
        if part == "names" {
            writeln!(&mut file, "n{number}=1");
        } else {
            file.put("x");
        }
    }
    if part == "name" {
        file.put("=1");
    }
    file
}

/// Writes what the lines are that a step printed.
fn put_lines(page: &mut Page<'_>, lines: &[Line]) {
    for line in lines {
        match line {
            Line::Plain(text) => writeln!(page, "plain {}", text.as_str()),
            Line::Command {
                name,
                pairs,
                message,
            } => {
                page.put(name.as_str());
                put_pairs(page, pairs.as_slice());
                writeln!(page, ": {}", message.as_str());
            },
            Line::Resume => page.put("resume\n"),
        }
    }
}

/// Writes the pairs of a command.
fn put_pairs(page: &mut Page<'_>, pairs: &[(Text, Text)]) {
    for (place, pair) in pairs.iter().enumerate() {
        page.put(if place == 0 { " " } else { "," });
        write!(page, "{}={}", pair.0.as_str(), pair.1.as_str());
    }
}

/// The masks that the words are.
fn masks(page: &mut Page<'_>) -> Masks {
    let mut masks = Masks::empty(page.alloc);
    for word in page.words.iter().skip(1) {
        page.note(masks.push(word.as_str()));
    }
    masks
}

/// The lines that are shown of what a step printed.
fn show(page: &mut Page<'_>, text: &str) {
    let masks = masks(page);
    if let Some(lines) = page.have(read_commands(page.alloc, text)) {
        if let Some(lines) = page.have(shown(page.alloc, lines.as_slice(), &masks)) {
            for line in lines.as_slice() {
                writeln!(page, "{}", line.as_str());
            }
        }
    }
}

/// The text, masked, or where there is none the answer of a masked host over the script in the file.
fn masked(page: &mut Page<'_>, text: &str) {
    let masks = masks(page);
    if !text.is_empty() {
        if let Some(text) = page.have(mask(page.alloc, text, &masks)) {
            page.put(text.as_str());
        }
    } else if let Some(host) = script_of(page, page.file()) {
        put_played(page, &Masked::new(page.alloc, host, masks));
    }
}

/// Writes what a host answers to what the words and the input ask for, as step 0 of leg 0, with no variables.
pub fn put_played<H: StepHost>(page: &mut Page<'_>, host: &H) {
    if let Some(work) = work(page) {
        let env = Mapping::empty(page.alloc);
        let (leg, step) = (0, 0);
        let call = StepCall {
            leg,
            step,
            work,
            env,
        };
        if let Some(answer) = page.have(host.play(&call)) {
            put_answer(page, answer);
        }
    }
}

/// The action that the words name, or else the script that the input is.
fn work(page: &mut Page<'_>) -> Option<CallWork> {
    if page.word(1) == "uses" {
        let uses = page.have(Text::from_str(page.alloc, page.word(2)))?;
        let given = Mapping::empty(page.alloc);
        return Some(CallWork::Uses { uses, given });
    }
    let text = str::from_utf8(page.input).unwrap_or("");
    let text = page.have(Text::from_str(page.alloc, text))?;
    let shell = shell_of(page.word(1));
    let dir = None;
    Some(CallWork::Script { text, shell, dir })
}
