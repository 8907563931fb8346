//! The verbs of a board under its lock. The first line of the input is the plan, and each other one is
//!
//!   ENTRY          an entry, which the share of its worker posts, begins or ends
//!   clerk WORKER   the first of the clerk's moves, which the share of that worker posts
//!   abandon LEG    the call that is held of that leg is given up
//!   legs           each worker, in a thread of its own, takes the leg with its number, begins a step, ends it with exit 0 and
//!                  finishes the leg
//!
//!   posts WORKERS [LINES]   what comes of each line on a board of so many workers, then the history, and whether `run_entries`
//!                           makes the same board of it. So many lines are played on another board before, and the calls that are
//!                           held of that one are held then, too
//!   threads WORKERS         the same, with the history of each worker by itself: between workers it has no order
//!
//! A refusal is told by its fault; that of an End with the call and the answer that came back, which is held again.

ghost use Rattle.std.specs.Prelude.{◌≡◌, ◌≤◌, IsTrue, IfOk};
ghost use Rattle.locked_board.specs.Course.{IsPosted};
ghost use Rattle.status_table.specs.Runs.{new_board};

use crate::held_calls::{abandon, begin, end, give_up, hold, play_leg, take_held};
use crate::host_calls::{put_entry, put_history};
use case_boards::run_again;
use case_reader::boards::shown;
use case_reader::loads::{loaded, plan_in};
use case_reader::members::put_move;
use case_reader::replies::put_reply;
use case_reader::{Page, parted};
use flow_model::{CheckedPlan, Entry, Event, Reply};
use locked_board::{Clerk, Held, Names, PostFault, Share, SharedBoard};
use plan_text::read_entry;
use status_table::{Reversible, Table};
use std::alloc::{AllocError, Global};
use std::marker::Brand;
use std::sync::Wait;
use std::sync::ledger::Blank;
use std::thread::Threads;
use std::{str, thread};
use step_host::PlayBoard;

/// What is played on boards of a plan: lines, by so many workers.
#[derive(Clone, Copy)]
struct Script<'a> {
    plan: &'a CheckedPlan,
    lines: &'a [u8],
    workers: u8,
}

/// Lines, of which so many are played at most.
#[derive(Clone, Copy)]
struct Lines<'a> {
    text: &'a [u8],
    count: usize,
}

/// A board on which all is new, and the ledger of those who will share it.
struct Fresh<T> {
    table: T,
    blank: Blank,
}

/// A board under its lock, and by what it is waited for.
#[derive(Drop)]
pub struct Locked<'b, N: Names, T: Reversible + Send, R> {
    pub rt: &'b R,
    pub board: &'b SharedBoard<N, T, ()>,
}

/// Does what a verb of these asks.
pub fn perform<R: Threads + Wait + Sync>(rt: &R, page: &mut Page<'_>) {
    if let Some((plan, lines)) = plan_in(page) {
        let workers = page.number(1);
        if workers == 0 || workers > 16 {
            return page.put("Workers");
        }
        let script = Script {
            plan: &plan,
            lines,
            workers: workers as u8,
        };
        play(rt, page, script);
    }
}

/// Two boards of a plan on which all is new.
fn boards(alloc: Global, plan: &CheckedPlan) -> Result<(PlayBoard, PlayBoard), AllocError>
    ensures { IfOk result (λ two. (two.0.board ≡ new_board two.0.plan)
        × (two.1.board ≡ new_board two.1.plan)) }
{
    Ok((PlayBoard::new(alloc, plan)?, PlayBoard::new(alloc, plan)?))
}

/// Plays lines on boards of a plan, which so many workers share.
fn play<R: Threads + Wait + Sync>(rt: &R, page: &mut Page<'_>, script: Script<'_>)
    requires { (1 ≤ script.workers) × (script.workers ≤ 16) }
{
    match boards(page.alloc, script.plan) {
        Ok(tables) => {
            let blank = Blank::new(u64::from(script.workers));
            play_aside::<Brand, PlayBoard, R>(rt, page, script, tables, blank);
        },
        Err(fault) => write!(page, "{fault}"),
    }
}

/// Plays as many lines as the words say on a board, and then all lines on another.
fn play_aside<N: Names + Send + Sync, T: Reversible + Send + Drop, R: Threads + Wait + Sync>(
    rt: &R,
    page: &mut Page<'_>,
    script: Script<'_>,
    tables: (T, T),
    blank: Blank,
)
    requires fresh { T.board tables.0 ≡ new_board (T.plan tables.0) }
    requires other { T.board tables.1 ≡ new_board (T.plan tables.1) }
    requires name { blank.name ≡ N.name }
    requires parts { (blank.parts ≡ N.parts) × (blank.parts ≡ script.workers) }
    requires number { (1 ≤ script.workers) × (script.workers ≤ 16) }
{
    let (table, other) = tables;
    let mut held = Vec::new(page.alloc);
    match SharedBoard::<N, T, ()>::new(page.alloc, table, blank, script.workers) {
        Ok((board, mut shares)) => {
            let first = Lines {
                text: script.lines,
                count: page.number(2) as usize,
            };
            let mut aside = page.scratch();
            let locked = Locked { rt, board: &board };
            act_all(&locked, &mut aside, shares.as_mut_slice(), &mut held, first);
            let fresh = Fresh {
                table: other,
                blank: Blank::new(u64::from(script.workers)),
            };
            play_all::<Brand, T, R>(rt, page, script, fresh, &mut held);
            give_up(rt, &board, held);
            drop(board.close(shares));
        },
        Err(fault) => {
            held.destroy_empty();
            write!(page, "{fault}");
        },
    }
}

/// Plays all lines on a board, with the calls that are held, and tells its history.
fn play_all<N: Names + Send + Sync, T: Reversible + Send + Drop, R: Threads + Wait + Sync>(
    rt: &R,
    page: &mut Page<'_>,
    script: Script<'_>,
    fresh: Fresh<T>,
    held: &mut Vec<Held>,
)
    requires fresh { T.board fresh.table ≡ new_board (T.plan fresh.table) }
    requires name { fresh.blank.name ≡ N.name }
    requires parts { (fresh.blank.parts ≡ N.parts) × (fresh.blank.parts ≡ script.workers) }
    requires number { (1 ≤ script.workers) × (script.workers ≤ 16) }
{
    let Fresh { table, blank } = fresh;
    match SharedBoard::<N, T, ()>::new(page.alloc, table, blank, script.workers) {
        Ok((board, mut shares)) => {
            let all = Lines {
                text: script.lines,
                count: usize::MAX,
            };
            let locked = Locked { rt, board: &board };
            act_all(&locked, page, shares.as_mut_slice(), held, all);
            let (table, history) = board.close(shares);
            put_end(page, script.plan, &table, history.as_slice());
        },
        Err(fault) => write!(page, "{fault}"),
    }
}

/// Does what lines say, so many at most.
fn act_all<N: Names + Send + Sync, T: Reversible + Send + Drop, R: Threads + Wait + Sync>(
    locked: &Locked<'_, N, T, R>,
    page: &mut Page<'_>,
    shares: &mut [Share<N>],
    held: &mut Vec<Held>,
    lines: Lines<'_>,
) {
    let text = str::from_utf8(lines.text).unwrap_or("");
    for line in text.lines().take(lines.count) {
        act(locked, page, shares, held, line);
        page.put("\n");
    }
}

/// Does what a line says.
fn act<N: Names + Send + Sync, T: Reversible + Send + Drop, R: Threads + Wait + Sync>(
    locked: &Locked<'_, N, T, R>,
    page: &mut Page<'_>,
    shares: &mut [Share<N>],
    held: &mut Vec<Held>,
    line: &str,
) {
    let (verb, number) = parted(line);
    let number = number.parse::<usize>().unwrap_or(usize::MAX);
    match verb {
        "clerk" => match shares.get_mut(number) {
            Some(share) => put_clerk(locked, page, share),
            None => page.put("no such share"),
        },
        "abandon" => abandon(locked, page, held, number as u64),
        "legs" => {
            play_legs(locked, page.alloc, shares);
            page.put("legs");
        },
        _ => report(locked, page, shares, held, line),
    }
}

/// Has the share of its worker report the entry that a line is.
fn report<N: Names, T: Reversible + Send + Drop, R: Wait>(
    locked: &Locked<'_, N, T, R>,
    page: &mut Page<'_>,
    shares: &mut [Share<N>],
    held: &mut Vec<Held>,
    line: &str,
) {
    if let Some(Entry { worker, event }) = loaded(page, read_entry(page.alloc, line.as_bytes())) {
        match shares.get_mut(usize::from(worker)) {
            Some(share) => put_event(locked, page, share, held, event),
            None => page.put("no such share"),
        }
    }
}

/// Whether an event is posted, and neither begins nor ends a step.
fn is_posted(event: &Event) -> bool
    ensures { IsTrue result → IsPosted event.now }
{
    match event {
        Event::Begin { .. } | Event::End { .. } => false,
        Event::Open { .. }
        | Event::Judge { .. }
        | Event::Ask { .. }
        | Event::Drop { .. }
        | Event::Take { .. }
        | Event::Finish { .. }
        | Event::Close { .. }
        | Event::Cancel { .. } => true,
    }
}

/// Has a share report an event, and writes what comes of it. A call that it begins is held, and one that it ends no more.
fn put_event<N: Names, T: Reversible + Send + Drop, R: Wait>(
    locked: &Locked<'_, N, T, R>,
    page: &mut Page<'_>,
    share: &mut Share<N>,
    held: &mut Vec<Held>,
    event: Event,
) {
    if is_posted(&event) {
        let done = locked.board.lock(locked.rt).post(share, event);
        return put_done(page, done);
    }
    match event {
        Event::Begin { leg } => begin(locked, page, share, held, leg),
        Event::End { leg, answer } => match take_held(held, leg) {
            Some(call) => {
                if let Some(back) = end(locked, page, share, call, answer) {
                    hold(locked, held, back);
                }
            },
            None => page.put("no call is held"),
        },
        _ => {},
    }
}

/// Writes the reply to what was posted, or the fault.
pub fn put_done(page: &mut Page<'_>, done: Result<Reply, PostFault>) {
    match done {
        Ok(reply) => put_reply(page, &reply),
        Err(fault) => put_post_fault(page, fault),
    }
}

/// Writes why something is not posted.
pub fn put_post_fault(page: &mut Page<'_>, fault: PostFault) {
    match fault {
        PostFault::Event(fault) => write!(page, "Event {fault}"),
        PostFault::Memory => page.put("Memory"),
    }
}

/// Has a share post the first of the clerk's moves, and writes it with its reply, or why there is none.
fn put_clerk<N: Names, T: Reversible + Send + Drop, R: Wait>(
    locked: &Locked<'_, N, T, R>,
    page: &mut Page<'_>,
    share: &mut Share<N>,
) {
    let done = locked.board.lock(locked.rt).clerk(share);
    match done {
        Ok(Clerk::Moved(event, reply)) => {
            put_move(page, &event);
            page.put(", ");
            put_reply(page, &reply);
        },
        Ok(Clerk::Done) => page.put("Done"),
        Ok(Clerk::Idle) => page.put("Idle"),
        Ok(Clerk::Stalled) => page.put("Stalled"),
        Err(fault) => put_post_fault(page, fault),
    }
}

/// Has each worker play the leg with its number, in a thread of its own where one can be made.
fn play_legs<N: Names + Send + Sync, T: Reversible + Send + Drop, R: Threads + Wait + Sync>(
    locked: &Locked<'_, N, T, R>,
    alloc: Global,
    shares: &mut [Share<N>],
) {
    let (rt, board) = (locked.rt, locked.board);
    let threads = shares.len().max(1);
    let each = |_: usize, share: &mut Share<N>| play_leg(rt, alloc, board, share);
    thread::for_each_mut(rt, shares, threads, &each);
}

/// Writes a history, and whether `run_entries` makes the same board of it.
fn put_end<T: Table>(page: &mut Page<'_>, plan: &CheckedPlan, table: &T, history: &[Entry]) {
    if page.word(0) == "threads" {
        writeln!(page, "{} entries", history.len());
        put_by_worker(page, history);
    } else {
        put_history(page, history);
    }
    let board = shown(page, table.view());
    let again = run_again(page, plan, history);
    page.put(if board.text() == again.text() {
        "same board"
    } else {
        "another board"
    });
}

/// Writes the entries of each worker in turn.
fn put_by_worker(page: &mut Page<'_>, history: &[Entry]) {
    for worker in 0..16u8 {
        put_entries_of(page, history, worker);
    }
}

/// Writes the entries of a worker.
fn put_entries_of(page: &mut Page<'_>, history: &[Entry], worker: u8) {
    for entry in history {
        if entry.worker == worker {
            put_entry(page, entry);
        }
    }
}
