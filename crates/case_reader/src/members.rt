//! What a table names: the members of a reply, and the moves that are open.

use crate::page::Page;
use flow_model::{Event, Member, Reply};

/// Writes a member, or that there is none.
pub fn put_member(page: &mut Page<'_>, member: Option<Member>) {
    match member {
        Some(Member::Run(number)) => write!(page, "run {number}"),
        Some(Member::Leg(number)) => write!(page, "leg {number}"),
        None => page.put("none"),
    }
}

/// Writes the members that a reply names.
pub fn put_members(page: &mut Page<'_>, reply: &Reply) {
    let members = [
        (", admitted ", reply.admitted),
        (", displaced ", reply.displaced),
        (", stopped ", reply.stopped),
    ];
    for (front, member) in members {
        if member.is_some() {
            page.put(front);
            put_member(page, member);
        }
    }
}

/// Writes moves, one a line, or that there are none.
pub fn put_moves(page: &mut Page<'_>, moves: &[Event]) {
    if moves.is_empty() {
        page.put("none");
    }
    for event in moves {
        put_move(page, event);
        page.put("\n");
    }
}

/// Writes a move; another event is none.
pub fn put_move(page: &mut Page<'_>, event: &Event) {
    match event {
        Event::Close { run } => write!(page, "close {run}"),
        Event::Open { run } => write!(page, "open {run}"),
        Event::Judge { job } => write!(page, "judge {job}"),
        Event::Drop { leg } => write!(page, "drop {leg}"),
        Event::Ask { leg } => write!(page, "ask {leg}"),
        Event::Take { .. }
        | Event::Begin { .. }
        | Event::End { .. }
        | Event::Finish { .. }
        | Event::Cancel { .. } => page.put("no move"),
    }
}
