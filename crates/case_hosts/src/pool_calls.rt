//! The verbs of plays by several workers. What they play is another history each time, so a verb tells what is the same in all:
//! how the play ended, and the board after the history, with the number of legs that ended in the place of their order; of a
//! play that its host stopped, which legs are in a call.
//!
//!   pool WORKERS           the plan that is the first line of the input, over the script that the further lines are
//!   pool WORKERS recorded  the plan of the record that the input is, over the host of its answers
//!   meet WORKERS TURNS     the plan that the input is, over a host whose steps wait for each other, so many turns at most:
//!                          a step that has seen all others succeeds, and else fails
//!   rounds WORKERS TIMES FILE..  the plan for all, of the workflows in the files, so many times, over the script that the input
//!                          is, where a step that it does not name succeeds, and some steps take longer than others: how often
//!                          it came to what the first time came to, and that, without jobs and steps
//!   settles FILE..         the plan for all, of the workflows in the files, by 1, 2 and 16 workers, over the script that the
//!                          input is, as for `rounds`: for each whether it came to the board of the first, but for the order of
//!                          the ends; then how many legs ended, and whether the board is settled
//!   agree                  whether logs are what a history has of each worker: the entries of the history are the first lines of
//!                          the input, and those of each log follow a line `log`
//!
//! A play's history is played again over its own answers. Where that, or `run_entries`, leaves no board, or another one, it is told.

ghost use Rattle.std.specs.Prelude.{◌≡◌, true};
ghost use Rattle.flow_model.specs.Answer.{is_well_formed};

use crate::host_calls::{history_of, put_ending, put_fault, replayed, script_of};
use case_boards::run_again;
use case_reader::boards::put_board;
use case_reader::loads::{loaded, plan_in};
use case_reader::{Page, parted};
use case_workflows::plan_all;
use flow_model::{Answer, CheckedPlan, Entry, Mapping, StepCall};
use plan_text::{load_plan, read_entry};
use std::alloc::Global;
use std::sync::Wait;
use std::sync::atomic::{AtomicU64, Ordering};
use std::thread::Threads;
use std::{str, thread};
use step_host::{HostFault, ReplayHost, ScriptHost, StepHost};
use worker_pool::{agree, play, play_entries, settled_check};

/// A host whose steps wait for each other.
#[derive(Drop)]
struct Meet {
    /// How many steps have come.
    came: AtomicU64,
    /// How many there are, one for each leg.
    legs: u64,
    /// How often a step looks for the others.
    turns: u64,
    alloc: Global,
}

/// An answer, or a bad output where that may end no call.
fn checked(answer: Answer) -> Answer
    ensures { is_well_formed result ≡ true }
{
    if answer.well_formed() {
        return answer;
    }
    Answer::BadOutput
}

/// The answer of a step that ended with this code.
pub fn exit(alloc: Global, code: i64) -> Answer
    ensures { is_well_formed result ≡ true }
{
    checked(Answer::Exit {
        code,
        outputs: Mapping::empty(alloc),
        env: Mapping::empty(alloc),
    })
}

impl StepHost for Meet {
    ghost admits = { λ _ _ answer. is_well_formed answer ≡ true };

    ghost declines = { λ _ _. ⊥ };

    fn play(&self, _: &StepCall) -> Result<Answer, HostFault> {
        self.came.fetch_add(1, Ordering::SeqCst);
        for _ in 0..self.turns {
            if self.came.load(Ordering::SeqCst) >= self.legs {
                return Ok(exit(self.alloc, 0));
            }
            thread::yield_now();
        }
        Ok(exit(self.alloc, 1))
    }

    ghost admits_well_formed = { λ _ _ _ is. is };
}

/// A host that answers by a script, and else with exit 0. Some steps take longer than others.
#[derive(Drop)]
struct Uneven {
    script: ScriptHost,
    alloc: Global,
}

impl StepHost for Uneven {
    ghost admits = { λ _ _ answer. is_well_formed answer ≡ true };

    ghost declines = { λ _ _. ⊥ };

    fn play(&self, call: &StepCall) -> Result<Answer, HostFault> {
        for _ in 0..call.leg % 7 * 20 {
            thread::yield_now();
        }
        match self.script.play(call) {
            Ok(answer) => Ok(checked(answer)),
            Err(HostFault::NoAnswer) => Ok(exit(self.alloc, 0)),
            Err(HostFault::Memory) => Err(HostFault::Memory),
        }
    }

    ghost admits_well_formed = { λ _ _ _ is. is };
}

/// Does what a verb of these asks.
pub fn perform<R: Threads + Wait + Sync>(rt: &R, page: &mut Page<'_>) {
    match page.word(0) {
        "agree" => agreed(page),
        "meet" => play_meeting(rt, page),
        "rounds" => rounds(rt, page),
        "settles" => settles(rt, page),
        _ if page.word(2) == "recorded" => recorded(rt, page),
        _ => scripted(rt, page),
    }
}

/// Writes whether logs are what a history has of each worker.
fn agreed(page: &mut Page<'_>) {
    let input = page.input;
    let mut lists = Vec::new(page.alloc);
    for part in str::from_utf8(input).unwrap_or("").split("log\n") {
        let list = entries_in(page, part);
        page.note(lists.push(list));
    }
    if let Some((history, logs)) = lists.as_slice().split_first() {
        let agrees = agree(history.as_slice(), logs);
        write!(page, "{agrees}");
    }
}

/// The entries that the lines of a text are.
fn entries_in(page: &mut Page<'_>, text: &str) -> Vec<Entry> {
    let mut entries = Vec::new(page.alloc);
    for line in text.lines() {
        if let Some(entry) = loaded(page, read_entry(page.alloc, line.as_bytes())) {
            page.note(entries.push(entry));
        }
    }
    entries
}

/// A play over the answers of a record.
fn recorded<R: Threads + Wait + Sync>(rt: &R, page: &mut Page<'_>) {
    if let Some((plan, host)) = replayed(page) {
        put_play(rt, page, &plan, &host);
    }
}

/// Plays over a script, again and again.
fn rounds<R: Threads + Wait + Sync>(rt: &R, page: &mut Page<'_>) {
    if let Some(plan) = plan_all(page, 3) {
        if let Some(script) = script_of(page, page.input) {
            let alloc = page.alloc;
            put_rounds(rt, page, &plan, &Uneven { script, alloc });
        }
    }
}

/// Writes how often a play comes to what it comes to the first time, and that.
fn put_rounds<R: Threads + Wait + Sync>(
    rt: &R,
    page: &mut Page<'_>,
    plan: &CheckedPlan,
    host: &Uneven,
) {
    let first = outline(rt, page, plan, host);
    let mut times = 1u64;
    for _ in 1..page.number(2) {
        if outline(rt, page, plan, host).text() == first.text() {
            times = times.saturating_add(1);
        }
    }
    writeln!(page, "{times} times");
    page.put(first.text());
}

/// What a play comes to, without jobs and steps. As many legs in a row as ended alike are told in a line.
fn outline<'a, R: Threads + Wait + Sync>(
    rt: &R,
    page: &Page<'a>,
    plan: &CheckedPlan,
    host: &Uneven,
) -> Page<'a> {
    let mut whole = page.scratch();
    put_play(rt, &mut whole, plan, host);
    let mut legs = page.scratch();
    let mut outline = page.scratch();
    for line in whole.text().lines() {
        match parted(line) {
            ("leg", leg) => writeln!(&mut legs, "{leg}"),
            ("job" | "step", _) => {},
            _ => writeln!(&mut outline, "{line}"),
        }
    }
    legs.fold();
    outline.put(legs.text());
    outline
}

/// Plays the workflows in files by 1, 2 and 16 workers over a script.
fn settles<R: Threads + Wait + Sync>(rt: &R, page: &mut Page<'_>) {
    if let Some(plan) = plan_all(page, 1) {
        if let Some(script) = script_of(page, page.input) {
            let alloc = page.alloc;
            put_settled(rt, page, &plan, &Uneven { script, alloc });
        }
    }
}

/// Writes of plays by 1, 2 and 16 workers whether the board is that of the first but for the order of the ends, and of the first
/// how many legs ended and whether its board is all of what is settled.
fn put_settled<R: Threads + Wait + Sync>(
    rt: &R,
    page: &mut Page<'_>,
    plan: &CheckedPlan,
    host: &Uneven,
) {
    let first = board_by(rt, page, plan, host, 1);
    for workers in [1, 2, 16] {
        let other = board_by(rt, page, plan, host, workers);
        let same = other.text() == first.text();
        writeln!(page, "{workers} {same}");
    }
    put_summary(page, first.text());
}

/// Writes the lines that say how many legs ended, and whether the board is settled.
fn put_summary(page: &mut Page<'_>, told: &str) {
    for line in told.lines() {
        if line.ends_with(" ended") || line.starts_with("settled") {
            writeln!(page, "{line}");
        }
    }
}

/// The board by so many workers, without the order of the ends and with as many legs in a row as ended alike in a line, and
/// whether it is settled.
fn board_by<'a, R: Threads + Wait + Sync>(
    rt: &R,
    page: &Page<'a>,
    plan: &CheckedPlan,
    host: &Uneven,
    workers: u64,
) -> Page<'a> {
    let mut made = page.scratch();
    match play(rt, page.alloc, plan, host, workers) {
        Ok(played) => put_board_after(&mut made, plan, played.history.as_slice()),
        Err(fault) => put_fault(&mut made, &fault),
    }
    made
}

/// Writes the board after a history, and whether it is settled.
fn put_board_after(page: &mut Page<'_>, plan: &CheckedPlan, history: &[Entry]) {
    let shown = replay(page, plan, history);
    put_unordered(page, shown.text());
    match settled_check(page.alloc, plan, history) {
        Ok(yes) => writeln!(page, "settled {yes}"),
        Err(fault) => put_fault(page, &fault),
    }
}

/// A play over a script.
fn scripted<R: Threads + Wait + Sync>(rt: &R, page: &mut Page<'_>) {
    if let Some((plan, script)) = plan_in(page) {
        if let Some(host) = script_of(page, script) {
            put_play(rt, page, &plan, &host);
        }
    }
}

/// A play whose steps wait for each other.
fn play_meeting<R: Threads + Wait + Sync>(rt: &R, page: &mut Page<'_>) {
    if let Some(plan) = loaded(page, load_plan(page.alloc, page.input)) {
        let host = Meet {
            came: AtomicU64::new(0),
            legs: count_legs(&plan),
            turns: page.number(2),
            alloc: page.alloc,
        };
        put_play(rt, page, &plan, &host);
    }
}

/// How many legs a plan has.
fn count_legs(plan: &CheckedPlan) -> u64 {
    let mut count = 0u64;
    for run in plan.plan().runs.as_slice() {
        for job in run.jobs.as_slice() {
            count = count.saturating_add(job.legs.len() as u64);
        }
    }
    count
}

/// Plays by the number of workers that the words give, and writes how the play ended and the board after it; of a play that its
/// host stopped, whether the leg is in its call.
fn put_play<R: Threads + Wait + Sync, H: StepHost>(
    rt: &R,
    page: &mut Page<'_>,
    plan: &CheckedPlan,
    host: &H,
) {
    match play(rt, page.alloc, plan, host, page.number(1)) {
        Ok(played) => {
            put_ending(page, played.ending);
            let shown = shown_after(page, plan, played.history.as_slice());
            put_unordered(page, shown.text());
        },
        Err(fault) => {
            put_fault(page, &fault);
            let shown = shown_after(page, plan, history_of(&fault));
            put_calls(page, shown.text());
        },
    }
}

/// The board after a history, which is played again. An entry of a worker that there is not is told, and another board.
fn shown_after<'a>(page: &mut Page<'a>, plan: &CheckedPlan, history: &[Entry]) -> Page<'a> {
    page.put("\n");
    let workers = page.number(1);
    for entry in history {
        if u64::from(entry.worker) >= workers {
            writeln!(page, "worker {}", entry.worker);
        }
    }
    let shown = replay(page, plan, history);
    if run_again(page, plan, history).text() != shown.text() {
        page.put("another board\n");
    }
    shown
}

/// The board after a history that is played again over its own answers, or why there is none.
fn replay<'a>(page: &Page<'a>, plan: &CheckedPlan, history: &[Entry]) -> Page<'a> {
    let mut shown = page.scratch();
    match ReplayHost::new(page.alloc, plan, history) {
        Ok(host) => match play_entries(page.alloc, plan, history, &host) {
            Ok(board) => put_board(&mut shown, Ok(board)),
            Err(fault) => put_fault(&mut shown, &fault),
        },
        Err((place, fault)) => write!(&mut shown, "{place} {fault}"),
    }
    shown
}

/// Writes the lines of a board, with how many legs ended in the place of their order.
fn put_unordered(page: &mut Page<'_>, shown: &str) {
    for line in shown.lines() {
        match line.strip_prefix("ends") {
            Some(legs) => writeln!(page, "{} ended", legs.split_whitespace().count()),
            None => writeln!(page, "{line}"),
        }
    }
}

/// Writes which legs of a board are in a call.
fn put_calls(page: &mut Page<'_>, shown: &str) {
    for line in shown.lines() {
        if line.ends_with(" call") {
            let (leg, _) = line.split_once(" running").unwrap_or((line, ""));
            writeln!(page, "{leg} call");
        }
    }
}
