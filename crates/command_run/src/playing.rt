//! What is played of a plan.

ghost use Rattle.std.specs.Prelude.{◌≡◌, ℕ, [], Err, IfErr, IfOk, List};
ghost use Rattle.flow_model.specs.declared.event.Entry.{Entry};
ghost use Rattle.flow_model.specs.declared.plan.Plan.{Plan};
ghost use Rattle.command_run.specs.PlanMasks.{plan_masks};
ghost use Rattle.command_run.specs.Playing as spec;
ghost use Rattle.worker_pool.specs.Told.{IsAnswerOf, WasTold};

use command_io::stop::PlayStop;
use flow_model::{CheckedPlan, Entry, Sequence};
use locked_board::Recorder;
use std::alloc::Global;
use std::sync::Wait;
use std::thread::Threads;
use step_host::{PlayBoard, StepHost};
use worker_pool::{Played, PoolFault, play_alone_recorded, play_recorded};

/// What was played of a plan.
#[derive(Drop)]
pub(crate) struct Playing {
    pub(crate) history: Sequence<Entry>,
    /// The plan in play after it, or why the play was stopped.
    pub(crate) end: Result<PlayBoard, PlayStop>,
}

impl Playing {
    /// Why the play was stopped, if it was.
    pub(crate) fn stop(&self) -> Option<PlayStop>
        ensures { result ≡ spec.stop_of self.now.end }
    {
        match &self.end {
            Ok(_) => None,
            Err(stop) => Some(*stop),
        }
    }
}

/// Plays a plan by so many workers, and tells a recorder of each entry. One plays in the thread of the program, so that the same
/// answers make the same history. The recorder is handed back.
fn play_by<R: Threads + Wait + Sync, H: StepHost, W: Recorder + Send + Drop>(
    rt: &R,
    alloc: Global,
    plan: &CheckedPlan,
    host: &H,
    workers: u64,
    recorder: W,
) -> (Result<Played, PoolFault>, W)
    requires masks { spec.MasksAnswers (plan_masks plan.now) (H.admits host.now) }
    requires told { W.told recorder [] }
    ensures played { IfOk result.0 (spec.EndsPlayed plan.now workers) }
    ensures stopped { IfErr result.0 (spec.StopsPlayed plan.now workers) }
    ensures told { WasTold (W.told result.1) result.0 }
{
    if workers == 1 {
        return play_alone_recorded(alloc, plan, host, recorder);
    }
    play_recorded(rt, alloc, plan, host, workers, recorder)
}

/// What was played until a play was stopped, if there were so many workers.
fn stopped(fault: PoolFault) -> Option<Playing>
    ensures comes { (plan : Plan) (workers : ℕ) → spec.StopsPlayed plan workers fault
        → spec.ComesTo plan workers result }
    ensures accepted { (entries : List Entry) → IsAnswerOf entries (Err fault)
        → spec.WereAcceptedIn result entries }
{
    match fault {
        PoolFault::Workers => None,
        PoolFault::Host { history, .. } => Some(Playing {
            history,
            end: Err(PlayStop::Host),
        }),
        PoolFault::Mismatch { history } => Some(Playing {
            history,
            end: Err(PlayStop::Mismatch),
        }),
        PoolFault::Memory { history } => Some(Playing {
            history,
            end: Err(PlayStop::Memory),
        }),
    }
}

/// What is played of a plan by so many workers, if there are so many. A recorder is told of each entry, and handed back.
pub(crate) fn played_by<R: Threads + Wait + Sync, H: StepHost, W: Recorder + Send + Drop>(
    rt: &R,
    alloc: Global,
    plan: &CheckedPlan,
    host: &H,
    workers: u64,
    recorder: W,
) -> (Option<Playing>, W)
    requires masks { spec.MasksAnswers (plan_masks plan.now) (H.admits host.now) }
    requires told { W.told recorder [] }
    ensures comes { spec.ComesTo plan.now workers result.0 }
    ensures told { spec.WasToldPlay (W.told result.1) result.0 }
{
    let (come, recorder) = play_by(rt, alloc, plan, host, workers, recorder);
    match come {
        Ok(played) => {
            let playing = Playing {
                history: played.history,
                end: Ok(played.left),
            };
            (Some(playing), recorder)
        },
        Err(fault) => (stopped(fault), recorder),
    }
}
