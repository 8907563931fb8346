//! Several workers play a plan to its end.

ghost use Rattle.std.specs.Prelude.{◌≡◌, ◌≤◌, [], Err, IfOk, IfErr, IfSome};
ghost use Rattle.std.specs.List.{All};
ghost use Rattle.status_table.specs.Runs.{new_board, new_play};
ghost use Rattle.worker_pool.specs.Log.{HaltsFor};
ghost use Rattle.worker_pool.specs.Many.{AreNoWorkers, EndsByMany, StopsByMany};
ghost use Rattle.worker_pool.specs.Settles.{SettlesAll};
ghost use Rattle.worker_pool.specs.Stalls.{HasNoJobGroup};
ghost use Rattle.worker_pool.specs.Told.{WasTold};
ghost use Rattle.worker_pool.specs.Worker.{HasRoom, IsFit, IsReady, StaysFit, crew_keepers};
ghost use Rattle.worker_pool.specs.declared.played.Ending.TheVariants as ending;

use crate::bell::Bell;
use crate::crew::{Gathered, gather, hire};
use crate::fault::PoolFault;
use crate::logs::Logs;
use crate::played::Played;
use crate::review::{Handed, settle};
use crate::settles::plays_leave_what_is_settled;
use crate::stalls::stalled_only_by_groups;
use crate::stop::PoolStop;
use crate::worker::{Pool, Worker};
use flow_model::CheckedPlan;
use flow_model::laws::rules_hold;
use locked_board::{Names, Recorder, Share, SharedBoard};
use ready_queue::{Pass, TicketQueue};
use status_table::moves::count_legs;
use status_table::{Reversible, Table};
use std::alloc::{AllocError, Global};
use std::marker::Brand;
use std::sync::Wait;
use std::sync::ledger::Blank;
use std::thread;
use std::thread::Threads;
use step_host::{PlayBoard, StepHost};

/// Has each worker play, in a thread of its own where one can be made: the list of workers is halved at each step.
#[tactic(auto, using(crate::proofs::Hired::names_kept))]
fn play_each<
    N: Names + Send + Sync,
    T: Reversible + Send + Drop,
    W: Recorder + Send + Drop,
    R: Threads + Wait + Sync,
    H: StepHost + Sync,
>(rt: &R, pool: &Pool<N, T, W>, host: &H, workers: &mut [Worker<N>])
    requires fit { All (IsFit (H.admits host.now) pool.now.queue) workers.old }
    ensures fit { All (IsFit (H.admits host.now) pool.now.queue) workers.new }
    ensures names { (name : _) → crew_keepers name workers.new ≡ crew_keepers name workers.old }
    ensures halts { All (λ w. IfSome w.halt (HaltsFor (H.declines host.now))) workers.new }
{
    let threads = workers.len().max(1);
    let each = |_: usize, worker: &mut Worker<N>|
        requires { IsFit (H.admits host.now) pool.now.queue worker.now }
        ensures { StaysFit (H.admits host.entry.now) pool.entry.now.queue worker.entry.now worker.exit.now
            × IfSome worker.exit.now.halt (HaltsFor (H.declines host.entry.now)) }
    { pool.work(rt, host, worker) };
    thread::for_each_mut(rt, workers, threads, &each);
}

/// What the workers of a play need beside their board: the tickets, the first pass, and room for the workers and for what they log.
struct Room<N: Names> {
    queue: TicketQueue,
    pass: Pass,
    crew: Vec<Worker<N>>,
    logs: Logs,
}

/// Takes the memory that so many workers on a table need beside it.
fn make_room<N: Names, T: Reversible>(
    alloc: Global,
    table: &T,
    workers: u8,
) -> Result<Room<N>, AllocError>
    ensures { IfOk result (HasRoom workers) }
{
    rules_hold();
    let count = usize::from(workers);
    let legs = count_legs(table.lend().runs.as_slice());
    let (queue, pass) = TicketQueue::new(alloc, legs.max(1))?;
    let logs = Logs::with_room(alloc, count)?;
    let crew = Vec::with_capacity(alloc, count)?;
    Ok(Room {
        queue,
        pass,
        crew,
        logs,
    })
}

/// What a play begins with: what its workers have in common and their shares, the first pass, and room for the workers and for
/// what they log.
struct Start<N: Names, T: Reversible + Send, W: Recorder + Send> {
    pool: Pool<N, T, W>,
    shares: Vec<Share<N>>,
    pass: Pass,
    crew: Vec<Worker<N>>,
    logs: Logs,
}

/// Takes all memory that is needed before the workers begin. Where there is none, the recorder comes back, who was told of nothing.
fn prepare<N: Names, T: Reversible + Send + Drop, W: Recorder + Send + Drop>(
    alloc: Global,
    fresh: (T, W),
    blank: Blank,
    workers: u8,
) -> Result<Start<N, T, W>, W>
    requires fresh { T.board fresh.0 ≡ new_board (T.plan fresh.0) }
    requires told { W.told fresh.1 [] }
    requires name { blank.name ≡ N.name }
    requires parts { (blank.parts ≡ N.parts) × (blank.parts ≡ workers) }
    requires number { (1 ≤ workers) × (workers ≤ 16) }
    ensures ready { IfOk result (IsReady workers) }
    ensures told { IfErr result (λ recorder. W.told recorder []) }
{
    let (table, recorder) = fresh;
    let Ok(room) = make_room::<N, T>(alloc, &table, workers) else {
        return Err(recorder);
    };
    let Room {
        queue,
        pass,
        crew,
        logs,
    } = room;
    match SharedBoard::recorded(alloc, (table, recorder), blank, workers) {
        Ok((board, shares)) => {
            let bell = Bell::new();
            let pool = Pool {
                board,
                queue,
                bell,
                alloc,
            };
            Ok(Start {
                pool,
                shares,
                pass,
                crew,
                logs,
            })
        },
        Err(failed) => {
            crew.destroy_empty();
            Err(failed.value)
        },
    }
}

/// Plays by so many workers on a table that they share. The other table plays their history again. The recorder is handed back.
fn play_start<
    N: Names + Send + Sync,
    T: Reversible + Send + Drop,
    W: Recorder + Send + Drop,
    R: Threads + Wait + Sync,
    H: StepHost + Sync,
>(
    rt: &R,
    start: Start<N, T, W>,
    again: PlayBoard,
    host: &H,
    workers: u8,
) -> (Result<Played, PoolFault>, W)
    requires fresh { again.board ≡ new_board again.plan }
    requires number { (1 ≤ workers) × (workers ≤ 16) }
    requires parts { N.parts ≡ workers }
    requires ready { IsReady workers start }
    ensures played { IfOk result.0 (EndsByMany (H.admits host.now) again.plan workers) }
    ensures stopped { IfErr result.0
        (StopsByMany (H.admits host.now) (H.declines host.now) again.plan workers) }
    ensures told { WasTold (W.told result.1) result.0 }
{
    let Start {
        pool,
        mut shares,
        pass,
        mut crew,
        logs,
    } = start;
    let alloc = pool.alloc;
    let rest = hire(host, &pool, pass, &mut shares, &mut crew);
    play_each(rt, &pool, host, crew.as_mut_slice());
    let mut back = Gathered { shares, logs };
    let (pass, halt) = gather(host, &pool.queue, rest, crew, &mut back);
    let Pool { board, queue, .. } = pool;
    let Gathered { shares, logs } = back;
    let tickets = queue.close(pass).put;
    let (_, history) = board.finish(shares);
    let (entries, recorder) = history.into_parts();
    let handed = Handed {
        workers,
        logs,
        halt,
        tickets,
    };
    let come = settle(alloc, again, host, &handed, entries);
    (come, recorder)
}

/// The boards of a play, on which all is new: one that the workers share, with its recorder and the ledger of their shares, and one
/// that plays their history again.
struct Boards<T, W> {
    fresh: (T, W),
    blank: Blank,
    again: PlayBoard,
}

/// Plays by so many workers, whose shares are of the ledger that the type names, on a table that they share. The other table plays
/// their history again. Without memory nothing is played. The recorder is handed back.
fn play_named<
    N: Names + Send + Sync,
    T: Reversible + Send + Drop,
    W: Recorder + Send + Drop,
    R: Threads + Wait + Sync,
    H: StepHost + Sync,
>(
    rt: &R,
    alloc: Global,
    boards: Boards<T, W>,
    host: &H,
    workers: u8,
) -> Result<(Result<Played, PoolFault>, W), W>
    requires fresh { T.board boards.fresh.0 ≡ new_board (T.plan boards.fresh.0) }
    requires told { W.told boards.fresh.1 [] }
    requires again { boards.again.board ≡ new_board boards.again.plan }
    requires name { boards.blank.name ≡ N.name }
    requires parts { (boards.blank.parts ≡ N.parts) × (boards.blank.parts ≡ workers) }
    requires number { (1 ≤ workers) × (workers ≤ 16) }
    ensures played { IfOk result (λ come. IfOk come.0
        (EndsByMany (H.admits host.now) boards.again.plan workers)) }
    ensures stopped { IfOk result (λ come. IfErr come.0
        (StopsByMany (H.admits host.now) (H.declines host.now) boards.again.plan workers)) }
    ensures told { IfOk result (λ come. WasTold (W.told come.1) come.0) }
    ensures unplayed { IfErr result (λ recorder. W.told recorder []) }
{
    let Boards {
        fresh,
        blank,
        again,
    } = boards;
    match prepare::<N, T, W>(alloc, fresh, blank, workers) {
        Ok(start) => Ok(play_start(rt, start, again, host, workers)),
        Err(recorder) => Err(recorder),
    }
}

/// Two boards of a plan, on which all is new.
fn two_boards(alloc: Global, plan: &CheckedPlan) -> Result<(PlayBoard, PlayBoard), AllocError>
    ensures { IfOk result (λ both. (both.0 ≡ new_play plan.now) × (both.1 ≡ new_play plan.now)) }
{
    let (table, again) = (PlayBoard::new(alloc, plan)?, PlayBoard::new(alloc, plan)?);
    Ok((table, again))
}

/// Plays a plan by so many workers, each in a thread of its own where one can be made. Without memory nothing is played. The
/// recorder is handed back.
fn play_counted<R: Threads + Wait + Sync, H: StepHost + Sync, W: Recorder + Send + Drop>(
    rt: &R,
    alloc: Global,
    plan: &CheckedPlan,
    host: &H,
    workers: u8,
    recorder: W,
) -> Result<(Result<Played, PoolFault>, W), W>
    requires told { W.told recorder [] }
    requires number { (1 ≤ workers) × (workers ≤ 16) }
    ensures played { IfOk result (λ come. IfOk come.0
        (EndsByMany (H.admits host.now) plan.now workers)) }
    ensures stopped { IfOk result (λ come. IfErr come.0
        (StopsByMany (H.admits host.now) (H.declines host.now) plan.now workers)) }
    ensures told { IfOk result (λ come. WasTold (W.told come.1) come.0) }
    ensures unplayed { IfErr result (λ recorder. W.told recorder []) }
{
    let Ok((table, again)) = two_boards(alloc, plan) else {
        return Err(recorder);
    };
    let boards = Boards {
        fresh: (table, recorder),
        blank: Blank::new(u64::from(workers)),
        again,
    };
    play_named::<Brand, PlayBoard, W, R, H>(rt, alloc, boards, host, workers)
}

/// Plays a plan by 1 to 16 workers, each in a thread of its own where one can be made. Each posts what a clerk may, and else takes a
/// leg that may be taken and plays it to its Finish with the host's answers, of which it may be asked for several at once. At
/// the end the history is played again on a board of the plan on which all is new, which is left, and held against what each
/// worker logged. A plan without job groups never stalls.
///
/// # Errors
///
/// `PoolFault::Workers` where there are no workers or more than 16; `PoolFault::Host` where the host has no answer to a call, with
/// the leg that is in it and its step; `PoolFault::Mismatch` where the history is not what the workers logged, or not one of the
/// plan; `PoolFault::Memory`. All but the first carry what was played until then, as far as it was checked.
pub fn play<R: Threads + Wait + Sync, H: StepHost + Sync>(
    rt: &R,
    alloc: Global,
    plan: &CheckedPlan,
    host: &H,
    workers: u64,
) -> Result<Played, PoolFault>
    ensures number { AreNoWorkers workers → result ≡ Err PoolFault.Workers }
    ensures played { IfOk result (EndsByMany (H.admits host.now) plan.now workers) }
    ensures stopped { IfErr result
        (StopsByMany (H.admits host.now) (H.declines host.now) plan.now workers) }
    ensures groups { HasNoJobGroup plan.now
        → IfOk result (λ played. played.ending ≡ ending.Done) }
    ensures settled { IfOk result (SettlesAll (H.admits host.now) plan.now) }
{
    play_recorded(rt, alloc, plan, host, workers, ()).0
}

/// Plays a plan by 1 to 16 workers, as `play` does, and tells a recorder of each entry as soon as it is accepted. The recorder is
/// handed back, which was told of exactly the history; where the play was stopped, of what was checked and of all that followed.
///
/// # Errors
///
/// Those of `play`.
pub fn play_recorded<R: Threads + Wait + Sync, H: StepHost + Sync, W: Recorder + Send + Drop>(
    rt: &R,
    alloc: Global,
    plan: &CheckedPlan,
    host: &H,
    workers: u64,
    recorder: W,
) -> (Result<Played, PoolFault>, W)
    requires told { W.told recorder [] }
    ensures number { AreNoWorkers workers → result.0 ≡ Err PoolFault.Workers }
    ensures played { IfOk result.0 (EndsByMany (H.admits host.now) plan.now workers) }
    ensures stopped { IfErr result.0
        (StopsByMany (H.admits host.now) (H.declines host.now) plan.now workers) }
    ensures groups { HasNoJobGroup plan.now
        → IfOk result.0 (λ played. played.ending ≡ ending.Done) }
    ensures settled { IfOk result.0 (SettlesAll (H.admits host.now) plan.now) }
    ensures told { WasTold (W.told result.1) result.0 }
{
    if workers == 0 || workers > 16 {
        return (Err(PoolFault::Workers), recorder);
    }
    stalled_only_by_groups();
    plays_leave_what_is_settled(host);
    // The plan says that it breaks no rule.
    let _ = plan.plan();
    match play_counted(rt, alloc, plan, host, workers as u8, recorder) {
        Ok(come) => come,
        Err(recorder) => (Err(PoolStop::Memory.after(Vec::new(alloc))), recorder),
    }
}
