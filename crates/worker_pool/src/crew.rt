//! The workers of a play: how they are hired, and what they hand back.

ghost use Rattle.std.specs.Prelude.{◌≡◌, ◌+◌, ◌≤◌, [], IfSome, map, vec_len, vec_capacity};
ghost use Rattle.std.specs.List.{All};
ghost use Rattle.ready_queue.specs.Passes.{IsPassOf, records_of};
ghost use Rattle.ready_queue.specs.Records.{IsWhole, keepers};
ghost use Rattle.worker_pool.specs.Log.{HaltsFor};
ghost use Rattle.worker_pool.specs.Logs.{AreAnswered};
ghost use Rattle.worker_pool.specs.Worker.{IsFit, crew_keepers};

use crate::halt::Halt;
use crate::log::Log;
use crate::logs::Logs;
use crate::worker::{Pool, Worker};
use locked_board::{Names, Recorder, Share};
use ready_queue::{Pass, TicketQueue};
use status_table::Reversible;
use step_host::StepHost;

/// What workers hand back when they are taken apart: their shares, and what each of them logged.
pub(crate) struct Gathered<N: Names> {
    pub(crate) shares: Vec<Share<N>>,
    pub(crate) logs: Logs,
}

/// Makes a worker of each share, with a pass of its own that is split off the one given. There is room for them. What is left
/// of that pass is handed back.
pub(crate) fn hire<N: Names, T: Reversible + Send + Drop, W: Recorder + Send + Drop, H: StepHost>(
    _host: &H,
    pool: &Pool<N, T, W>,
    pass: Pass,
    shares: &mut Vec<Share<N>>,
    crew: &mut Vec<Worker<N>>,
) -> Pass
    requires pass { IsPassOf pool.now.queue pass }
    requires whole { IsWhole (records_of pass) }
    requires none { crew.old.items ≡ [] }
    requires room { vec_len shares.old ≤ vec_capacity crew.old }
    ensures shares { (vec_len shares.new ≡ 0) × (vec_capacity shares.new ≡ vec_capacity shares.old) }
    ensures crew { vec_len crew.new ≡ vec_len shares.old }
    ensures fit { All (IsFit (H.admits _host.now) pool.now.queue) crew.new.items }
    ensures pass { IsPassOf pool.now.queue result }
    ensures whole { (name : _) → keepers name (records_of result) + crew_keepers name crew.new.items ≡ 1 }
{
    let mut rest = pass;
    while let Some(share) = shares.pop() {
        let (left, pass) = pool.queue.split(rest);
        rest = left;
        crew.push_reserved(Worker {
            share,
            pass,
            log: Log::new(pool.alloc),
            halt: None,
        });
    }
    rest
}

/// Takes the workers apart: their shares come back, their passes are joined to the one given, and their logs are put in
/// order. The answer is that pass, and the first fault that one of them met.
pub(crate) fn gather<N: Names, H: StepHost>(
    _host: &H,
    queue: &TicketQueue,
    pass: Pass,
    crew: Vec<Worker<N>>,
    back: &mut Gathered<N>,
) -> (Pass, Option<Halt>)
    requires pass { IsPassOf queue.now pass }
    requires whole { (name : _) → keepers name (records_of pass) + crew_keepers name crew.items ≡ 1 }
    requires shares { (vec_len back.old.shares ≡ 0) × (vec_len crew ≤ vec_capacity back.old.shares) }
    requires entries { (back.old.logs.entries.items ≡ [])
        × (vec_len crew ≤ vec_capacity back.old.logs.entries) }
    requires calls { (back.old.logs.calls.items ≡ [])
        × (vec_len crew ≤ vec_capacity back.old.logs.calls) }
    requires fit { All (IsFit (H.admits _host.now) queue.now) crew.items }
    requires halts { All (λ w. IfSome w.halt (HaltsFor (H.declines _host.now))) crew.items }
    ensures shares { vec_len back.new.shares ≡ vec_len crew }
    ensures logs { vec_len back.new.logs.entries ≡ vec_len crew }
    ensures answered { AreAnswered (H.admits _host.now)
        (map (λ log. log.items) back.new.logs.entries.items)
        (map (λ log. log.items) back.new.logs.calls.items) }
    ensures pass { IsPassOf queue.now result.0 }
    ensures whole { IsWhole (records_of result.0) }
    ensures halt { IfSome result.1 (HaltsFor (H.declines _host.now)) }
{
    let mut crew = crew;
    let mut joined = pass;
    let mut first = None;
    while let Some(worker) = crew.pop() {
        let Worker {
            share,
            pass,
            log,
            halt,
        } = worker;
        back.shares.push_reserved(share);
        back.logs.add(log);
        joined = queue.join(joined, pass);
        first = first.or(halt);
    }
    crew.destroy_empty();
    (joined, first)
}
