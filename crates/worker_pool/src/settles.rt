//! What a play comes to where nothing rests on the order
//! of events, as the contract of a function that does nothing.

ghost use Rattle.worker_pool.specs.Settles.{EachSettles, ManySettle, OneSettles, PlaysAgree};

use board_settled::settled_laws::{boards_agree_with_what_is_settled, order_changes_only_the_ends};
use step_host::StepHost;

/// A play that is Done, of a plan in which nothing rests on the order of events, over a host that
/// admits at most one answer to each call, leaves a board that is all of what is settled, whatever
/// the number of workers.
pub fn plays_leave_what_is_settled<H: StepHost>(host: &H)
    ensures many { ManySettle (H.admits host.now) }
    ensures one { OneSettles (H.admits host.now) }
{
    boards_agree_with_what_is_settled();
}

/// Two plays that are Done, of a plan in which nothing rests on the order of events, over a host that
/// admits at most one answer to each call, leave the same runs, with all their jobs and legs. What one
/// leaves is all of what some answers of the host settle.
pub fn plays_leave_one_result<H: StepHost>(host: &H)
    ensures agree { PlaysAgree (H.admits host.now) }
    ensures settled { EachSettles (H.admits host.now) }
{
    boards_agree_with_what_is_settled();
    order_changes_only_the_ends();
}
