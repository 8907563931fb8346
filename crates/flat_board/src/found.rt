//! Legs as they are found, with the tally of their job, and what is read off it.

ghost use Rattle.std.specs.Prelude.{◌≡◌, IfOk, IfSome, Some, option_map, slice_get};
ghost use Rattle.board_decisions.specs.Decisions as decision;
ghost use Rattle.board_decisions.specs.Derived as derived;
ghost use Rattle.flat_board.specs.Words.{IsKeptOf, job_at, job_seen, leg_at, leg_seen, leg_there, tally_of};

use board_counters::counted::job_of;
use board_counters::{Counted, Tally};
use board_decisions::decisions::is_stopping_given;
use board_decisions::kept::LegKept;
use board_decisions::place::{SeenJob, SeenLeg, find_placed_leg, find_run, job_in_run};
use std::alloc::{AllocError, Global};

/// A leg in play, with the tally of its job.
#[derive(Clone, Copy)]
pub(crate) struct TalliedLeg<'a> {
    pub(crate) at: SeenLeg<'a>,
    tally: Tally,
    ghost tallied: { tally ≡ tally_of at.job.now },
}

/// The job with a number.
pub(crate) fn find_job(state: &Counted, number: u64) -> Option<SeenJob<'_>>
    ensures { option_map job_seen result ≡ job_at state.now.plan state.now.board number }
{
    let board = state.board();
    let place = state.job_place(number)?;
    let at = find_run(state.plan(), board, place.run)?;
    job_in_run(board, at.plan, at.run, place)
}

/// The leg with a number.
#[inline(always)]
pub(crate) fn find_leg(state: &Counted, number: u64) -> Option<TalliedLeg<'_>>
    ensures found { option_map (λ found. leg_seen found.at) result
        ≡ leg_at state.now.plan state.now.board number }
    ensures there { IfSome result
        (λ found. leg_there state.now.board found.at.place ≡ Some (leg_seen found.at).leg) }
    ensures run_plan { IfSome result (λ found. slice_get state.now.plan.runs found.at.place.run
        ≡ Some (leg_seen found.at).run_plan) }
    ensures job_plan { IfSome result
        (λ found. slice_get (leg_seen found.at).run_plan.jobs found.at.place.job
        ≡ Some (leg_seen found.at).job_plan) }
{
    let board = state.board();
    let place = state.leg_place(number)?;
    let at = find_placed_leg(state.plan(), board, place)?;
    let tally = state.tally(job_of(at.place));
    Some(TalliedLeg { at, tally })
}

/// Whether the job of a leg has as many legs under way as it may have at once.
pub(crate) fn is_full(leg: &TalliedLeg) -> bool
    ensures { result ≡ derived.is_full (leg_seen leg.now.at).job_plan (leg_seen leg.now.at).job }
{
    match leg.at.job_plan.max_parallel {
        None => false,
        Some(most) => most <= leg.tally.used as u64,
    }
}

/// Whether a leg is to stop whatever its job's condition:
/// by itself, or since its job fails fast and has failed.
#[inline(always)]
#[tactic(auto, using(board_counters::proofs::Lists::any_counted))]
fn stops_anyway(leg: &TalliedLeg) -> bool
    ensures { result ≡ decision.stops_anyway (leg_seen leg.now.at) }
{
    leg.at.leg.stop || (leg.at.job_plan.fail_fast && leg.tally.failed > 0)
}

/// What is kept of a leg, so that nothing is walked over to know how it counts, and whether its next step is called.
#[inline(always)]
pub(crate) fn keep(state: &Counted, leg: &TalliedLeg) -> LegKept
    requires there { leg_there state.now.board leg.now.at.place ≡ Some (leg_seen leg.now.at).leg }
    requires run_plan { slice_get state.now.plan.runs leg.now.at.place.run
        ≡ Some (leg_seen leg.now.at).run_plan }
    requires job_plan { slice_get (leg_seen leg.now.at).run_plan.jobs leg.now.at.place.job
        ≡ Some (leg_seen leg.now.at).job_plan }
    ensures { IsKeptOf result (leg_seen leg.now.at) }
{
    LegKept {
        stops_anyway: stops_anyway(leg),
        has_failed_step: state.has_failed_step(leg.at.place),
        calls: state.calls(job_of(leg.at.place), leg.at.leg.steps.len()),
    }
}

/// Whether a leg is to stop.
pub(crate) fn is_stopping(alloc: Global, leg: &TalliedLeg) -> Result<bool, AllocError>
    ensures { IfOk result (λ stops. stops ≡ decision.is_stopping (leg_seen leg.now.at)) }
{
    is_stopping_given(alloc, &leg.at, stops_anyway(leg))
}
