//! The verbs of hosts, and of plays over them.
//!
//!   script          whether the lines of the input are a script: `script`, or its fault. A line has the number of a leg,
//!                   that of a step and the answer, as an entry has it
//!   recorded        whether the record that the input is gives a host: `recorded`, or the place and the fault of an entry
//!   alone           one thread plays the plan that is the first line of the input, over the script that the further lines
//!                   are: the history, and how it ended
//!   alone recorded  the same over the host of the record that the input is
//!   again           the record that the input is, played again over the script in the file: the board, or the fault, with
//!                   the number of entries before it
//!   settled         whether the board after the record that the input is is all of what is settled: `true` or `false`, or
//!                   the fault, with the number of entries before it

use crate::text_calls;
use case_reader::boards::put_board;
use case_reader::loads::{plan_in, record_in};
use case_reader::{Page, parted};
use flow_model::{Answer, CheckedPlan, Entry, Event};
use plan_text::{print_entry, read_entry};
use std::alloc::Global;
use std::str;
use step_host::{ReplayHost, ScriptHost, StepHost};
use worker_pool::{Ending, PoolFault, play_alone, play_entries, settled_check};

/// A line of a script.
type Line = (u64, u64, Answer);

/// Does what a verb of these or of programs' texts asks, and answers whether it is one.
pub fn perform(page: &mut Page<'_>) -> bool {
    match (page.word(0), page.word(1)) {
        ("script", _) => {
            if script_of(page, page.input).is_some() {
                page.put("script");
            }
        },
        ("recorded", _) => {
            if replayed(page).is_some() {
                page.put("recorded");
            }
        },
        ("alone", "recorded") => {
            if let Some((plan, host)) = replayed(page) {
                put_play(page, &plan, &host);
            }
        },
        ("alone", _) => alone(page),
        ("again", _) => again(page),
        ("settled", _) => settled(page),
        _ => return text_calls::perform(page),
    }
    true
}

/// The answer that an entry is which a text spells; of any other text a bad output.
fn answer_of(alloc: Global, text: &str) -> Answer {
    match read_entry(alloc, text.as_bytes()) {
        Ok(entry) => answer_in(entry.event),
        Err(_) => Answer::BadOutput,
    }
}

/// The answer of an End.
fn answer_in(event: Event) -> Answer {
    if let Event::End { answer, .. } = event {
        return answer;
    }
    Answer::BadOutput
}

/// The line of a script that a text is.
fn line_of(page: &Page<'_>, text: &str) -> Line {
    let (leg, rest) = parted(text);
    let (step, answer) = parted(rest);
    let (front, back) = ("{\"answer\":", ",\"event\":\"end\",\"leg\":0,\"worker\":0}");
    let mut entry = page.scratch();
    write!(&mut entry, "{front}{answer}{back}");
    (
        leg.parse::<u64>().unwrap_or(u64::MAX),
        step.parse::<u64>().unwrap_or(u64::MAX),
        answer_of(page.alloc, entry.text()),
    )
}

/// The host of a script, or none where the fault is written.
pub fn script_of(page: &mut Page<'_>, text: &[u8]) -> Option<ScriptHost> {
    let mut lines = Vec::new(page.alloc);
    for line in str::from_utf8(text).unwrap_or("").lines() {
        let line = line_of(page, line);
        page.note(lines.push(line));
    }
    page.have(ScriptHost::new(page.alloc, lines))
}

/// The plan of the record that the input is, and its host.
pub fn replayed(page: &mut Page<'_>) -> Option<(CheckedPlan, ReplayHost)> {
    let (plan, entries) = record_in(page)?;
    match ReplayHost::new(page.alloc, &plan, entries.as_slice()) {
        Ok(host) => Some((plan, host)),
        Err((place, fault)) => {
            write!(page, "{place} {fault}");
            None
        },
    }
}

/// A play by one thread, over a script.
fn alone(page: &mut Page<'_>) {
    if let Some((plan, script)) = plan_in(page) {
        if let Some(host) = script_of(page, script) {
            put_play(page, &plan, &host);
        }
    }
}

/// Plays by one thread, and writes the history and how it ended.
fn put_play<H: StepHost>(page: &mut Page<'_>, plan: &CheckedPlan, host: &H) {
    match play_alone(page.alloc, plan, host) {
        Ok(played) => {
            put_history(page, played.history.as_slice());
            put_ending(page, played.ending);
        },
        Err(fault) => put_stop(page, &fault),
    }
}

/// Writes how a play ended.
pub fn put_ending(page: &mut Page<'_>, ending: Ending) {
    match ending {
        Ending::Done => page.put("Done"),
        Ending::Stalled => page.put("Stalled"),
    }
}

/// Writes a history, one entry a line.
pub fn put_history(page: &mut Page<'_>, history: &[Entry]) {
    for entry in history {
        put_entry(page, entry);
    }
}

/// Writes a line with an entry.
pub fn put_entry(page: &mut Page<'_>, entry: &Entry) {
    page.print(print_entry(page.alloc, entry));
    page.put("\n");
}

/// Writes why a play stopped, after its history.
fn put_stop(page: &mut Page<'_>, fault: &PoolFault) {
    put_history(page, history_of(fault));
    put_fault(page, fault);
}

/// What was played until a play stopped.
pub fn history_of(fault: &PoolFault) -> &[Entry] {
    match fault {
        PoolFault::Workers => &[],
        PoolFault::Host { history, .. }
        | PoolFault::Mismatch { history }
        | PoolFault::Memory { history } => history.as_slice(),
    }
}

/// Writes why a play stopped.
pub fn put_fault(page: &mut Page<'_>, fault: &PoolFault) {
    if let PoolFault::Host {
        leg,
        step,
        fault: inner,
        ..
    } = fault
    {
        return write!(page, "Host {leg} {step} {inner}");
    }
    page.put(fault.name());
}

/// The record that the input is, played again over the script in the file.
fn again(page: &mut Page<'_>) {
    if let Some((plan, entries)) = record_in(page) {
        if let Some(host) = script_of(page, page.file()) {
            match play_entries(page.alloc, &plan, entries.as_slice(), &host) {
                Ok(board) => put_board(page, Ok(board)),
                Err(fault) => put_stop(page, &fault),
            }
        }
    }
}

/// Whether the board after the record that the input is is all of what is settled.
fn settled(page: &mut Page<'_>) {
    if let Some((plan, entries)) = record_in(page) {
        match settled_check(page.alloc, &plan, entries.as_slice()) {
            Ok(yes) => write!(page, "{yes}"),
            Err(fault) => put_stop(page, &fault),
        }
    }
}
