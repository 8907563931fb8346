//! The verb of the queue of tickets.
//!
//!   tickets CAPACITY   a queue with room for so many, and two passes, of which the second is split off the first: each line of
//!                      the input has the pass, `first` or `second`, and what it does, `put TICKET` or `take`; at the end the
//!                      passes are joined and the queue is closed
//!
//! What is told is the ticket that was taken, or `none`, that one was put, or that it was handed back, and the counts at the end.

ghost use Rattle.ready_queue.specs.Passes.{IsPassOf, records_of};
ghost use Rattle.ready_queue.specs.Records.{IsWhole};
ghost use Rattle.worker_pool.specs.Worker.{KeepsPass};

use case_reader::{Page, parted};
use ready_queue::{Count, Pass, TicketQueue};
use std::str;
use std::sync::Wait;

/// Does what the verb asks. A queue has room for one ticket at least.
pub fn perform<R: Wait>(rt: &R, page: &mut Page<'_>) {
    let capacity = (page.number(1) as usize).max(1);
    match TicketQueue::new(page.alloc, capacity) {
        Ok((queue, pass)) => {
            let count = play(rt, page, queue, pass);
            write!(
                page,
                "put {}, taken {}, left {}",
                count.put, count.taken, count.left
            );
        },
        Err(fault) => write!(page, "{fault}"),
    }
}

/// Has the passes do what the lines say, and closes the queue.
fn play<R: Wait>(rt: &R, page: &mut Page<'_>, queue: TicketQueue, pass: Pass) -> Count
    requires pass { IsPassOf queue pass }
    requires whole { IsWhole (records_of pass) }
{
    let (mut first, mut second) = queue.split(pass);
    let input = page.input;
    for line in str::from_utf8(input).unwrap_or("").lines() {
        let (who, what) = parted(line);
        if who == "second" {
            act(rt, page, &queue, &mut second, what);
        } else {
            act(rt, page, &queue, &mut first, what);
        }
    }
    let joined = queue.join(first, second);
    queue.close(joined)
}

/// Has a pass put a ticket or take one.
fn act<R: Wait>(rt: &R, page: &mut Page<'_>, queue: &TicketQueue, pass: &mut Pass, what: &str)
    requires { IsPassOf queue.now pass.old }
    ensures { KeepsPass queue.now pass.old pass.new }
{
    let (verb, ticket) = parted(what);
    if verb == "put" {
        return match queue.put(rt, pass, ticket.parse::<u64>().unwrap_or(0)) {
            Ok(()) => page.put("put\n"),
            Err(ticket) => writeln!(page, "{ticket} handed back"),
        };
    }
    match queue.take(rt, pass) {
        Some(ticket) => writeln!(page, "{ticket}"),
        None => page.put("none\n"),
    }
}
