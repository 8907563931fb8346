//! Calls that are begun under the lock of a board, held, and ended or given up.

use crate::board_calls::{Locked, put_done, put_post_fault};
use crate::pool_calls::exit;
use case_reader::Page;
use case_reader::replies::put_call;
use flow_model::{Answer, Event};
use locked_board::{Begun, Held, Names, Share, SharedBoard};
use status_table::Reversible;
use std::alloc::Global;
use std::sync::Wait;

/// Begins a step of a leg, and holds the call.
pub fn begin<N: Names, T: Reversible + Send + Drop, R: Wait>(
    locked: &Locked<'_, N, T, R>,
    page: &mut Page<'_>,
    share: &mut Share<N>,
    held: &mut Vec<Held>,
    leg: u64,
) {
    let begun = locked.board.lock(locked.rt).begin(share, leg);
    match begun {
        Ok(Begun::Call(call)) => {
            put_call(page, &call.call);
            hold(locked, held, call);
        },
        Ok(Begun::Skipped) => page.put("skipped"),
        Ok(Begun::Faulted(fault)) => write!(page, "faulted {fault}"),
        Err(fault) => put_post_fault(page, fault),
    }
}

/// Holds a call, or gives it up where there is no memory.
pub fn hold<N: Names, T: Reversible + Send + Drop, R: Wait>(
    locked: &Locked<'_, N, T, R>,
    held: &mut Vec<Held>,
    call: Held,
) {
    if held.reserve(1).is_err() {
        return locked.board.lock(locked.rt).abandon(call);
    }
    held.push_reserved(call);
}

/// The last call of a leg that is held, which is held no more.
pub fn take_held(held: &mut Vec<Held>, leg: u64) -> Option<Held> {
    let place = held
        .as_slice()
        .iter()
        .rposition(|held| held.call.leg == leg)?;
    Some(held.remove(place))
}

/// Ends a call, and writes the reply, or the fault with the call and the answer that came back. The answer is that call.
pub fn end<N: Names, T: Reversible + Send + Drop, R: Wait>(
    locked: &Locked<'_, N, T, R>,
    page: &mut Page<'_>,
    share: &mut Share<N>,
    call: Held,
    answer: Answer,
) -> Option<Held> {
    let ended = locked.board.lock(locked.rt).end(share, call, answer);
    match ended {
        Ok(reply) => {
            put_done(page, Ok(reply));
            None
        },
        Err((fault, call, answer)) => {
            put_post_fault(page, fault);
            write!(
                page,
                ", back with leg {} step {} and ",
                call.call.leg, call.call.step
            );
            put_answer(page, &answer);
            Some(call)
        },
    }
}

/// Writes an answer.
fn put_answer(page: &mut Page<'_>, answer: &Answer) {
    match answer {
        Answer::Exit { code, .. } => write!(page, "exit {code}"),
        Answer::NotStarted => page.put("not started"),
        Answer::BadOutput => page.put("bad output"),
    }
}

/// Gives up the last call of a leg that is held.
pub fn abandon<N: Names, T: Reversible + Send + Drop, R: Wait>(
    locked: &Locked<'_, N, T, R>,
    page: &mut Page<'_>,
    held: &mut Vec<Held>,
    leg: u64,
) {
    match take_held(held, leg) {
        Some(call) => {
            locked.board.lock(locked.rt).abandon(call);
            page.put("abandoned");
        },
        None => page.put("no call is held"),
    }
}

/// Gives up all calls that are held.
pub fn give_up<N: Names, T: Reversible + Send + Drop, R: Wait>(
    rt: &R,
    board: &SharedBoard<N, T, ()>,
    held: Vec<Held>,
) {
    let mut held = held;
    while let Some(call) = held.pop() {
        board.lock(rt).abandon(call);
    }
    held.destroy_empty();
}

/// Plays the leg with the number of its worker: takes it, begins its next step, ends that with exit 0, and finishes it.
pub fn play_leg<N: Names, T: Reversible + Send + Drop, R: Wait>(
    rt: &R,
    alloc: Global,
    board: &SharedBoard<N, T, ()>,
    share: &mut Share<N>,
) {
    let leg = u64::from(share.worker());
    drop(board.lock(rt).post(share, Event::Take { leg }));
    let begun = board.lock(rt).begin(share, leg);
    match begun {
        Ok(Begun::Call(call)) => end_well(rt, alloc, board, share, call),
        Ok(Begun::Skipped) => {},
        Ok(Begun::Faulted(_)) => {},
        Err(_) => {},
    }
    drop(board.lock(rt).post(share, Event::Finish { leg }));
}

/// Ends a call with exit 0.
fn end_well<N: Names, T: Reversible + Send + Drop, R: Wait>(
    rt: &R,
    alloc: Global,
    board: &SharedBoard<N, T, ()>,
    share: &mut Share<N>,
    call: Held,
) {
    let ended = board.lock(rt).end(share, call, exit(alloc, 0));
    match ended {
        Ok(_) => {},
        Err((_, call, _)) => board.lock(rt).abandon(call),
    }
}
