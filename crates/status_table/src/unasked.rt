//! What beginning a step comes to, where nobody asks for its call; and what begins and ends at once, since no text is asked.

ghost use Rattle.std.specs.Prelude.{◌≡◌, ℕ, [], Bool, true, Result, Ok, pos};
ghost use Rattle.board_decisions.specs.Kept.{IsKeptOf};
ghost use Rattle.board_decisions.specs.Seen.{leg_seen};
ghost use Rattle.expr_value.specs.Answer.{Gives};
ghost use Rattle.flow_model.specs.declared.event.Answer.TheVariants as answer_of;
ghost use Rattle.flow_model.specs.declared.reply.ValueFault.{ValueFault as ValueFaultOf};
ghost use Rattle.status_table.specs.Answers.{Decides};
ghost use Rattle.status_table.specs.Row.{beginning};
ghost use Rattle.status_table.specs.Seen.{DecidesEnding};
ghost use Rattle.status_table.specs.Unasked.{begins_by, begins_called};

use crate::events::{calling_owner, step_to_begin};
use crate::fault::EventFault;
use board_decisions::kept::LegKept;
use board_decisions::place::SeenLeg;
use board_decisions::unasked::{is_called_at_once, is_step_called};
use flow_model::{Answer, Outcome, ValueFault, faulted};
use std::alloc::Global;

/// What beginning a step comes to, without its call or its fault.
#[derive(Clone, Copy)]
pub enum Begins {
    Calls,
    Skips,
    Faults,
}

/// What is decided of a step by whether it is called; want of memory is apart.
fn told_begins(called: Result<bool, ValueFault>) -> Result<Begins, EventFault>
    ensures { (value : Result Bool ValueFaultOf) → Gives (λ holds. holds) called value
        → Decides (Ok (begins_called value)) result }
{
    match called {
        Ok(true) => Ok(Begins::Calls),
        Ok(false) => Ok(Begins::Skips),
        Err(ValueFault::Memory) => Err(EventFault::Memory),
        Err(faulted!()) => Ok(Begins::Faults),
    }
}

/// What beginning the next step of a leg comes to, or why it is not begun, by what is kept of the leg.
#[tactic(auto, using(crate::proofs::WithoutReply::begins_as_decided))]
pub fn beginning_unasked(
    alloc: Global,
    worker: u8,
    number: u64,
    at: &SeenLeg,
    kept: LegKept,
) -> Result<Begins, EventFault>
    requires { IsKeptOf kept (leg_seen at.now) }
    ensures { Decides (begins_by (beginning worker number (leg_seen at.now))) result }
{
    let step = step_to_begin(worker, at)?;
    told_begins(is_step_called(alloc, number, at, step, kept))
}

/// Whether the next step of a leg is begun by its call, where that is known by what is kept of the leg, and nothing has to be
/// evaluated.
#[inline(always)]
#[tactic(auto, using(crate::proofs::WithoutReply::begins_calling))]
pub fn is_begun_at_once(worker: u8, at: &SeenLeg, kept: LegKept) -> bool
    requires { IsKeptOf kept (leg_seen at.now) }
    ensures { (l : ℕ) → result ≡ true
        → begins_by (beginning worker l (leg_seen at.now)) ≡ Ok Begins.Calls }
{
    match step_to_begin(worker, at) {
        Ok(_step) => is_called_at_once(at, kept),
        Err(_) => false,
    }
}

/// Whether an answer is an exit with code 0 that gave no outputs and set no variables.
#[inline(always)]
#[tactic(auto, using(crate::proofs::WithoutReply::bare_exit))]
fn is_bare_success(answer: &Answer) -> bool
    ensures { result ≡ true → answer.now ≡ answer_of.Exit (pos 0) [] [] }
{
    match answer {
        Answer::Exit { code, outputs, env } => {
            if *code != 0 || !outputs.is_empty() {
                return false;
            }
            env.is_empty()
        },
        Answer::NotStarted => false,
        Answer::BadOutput => false,
    }
}

/// Whether an answer ends the call of a leg with success and leaves nothing behind, so that none of its texts has to be looked
/// at.
#[inline(always)]
#[tactic(auto, using(crate::proofs::WithoutReply::bare_ends))]
pub fn is_ended_at_once(worker: u8, at: &SeenLeg, answer: &Answer) -> bool
    ensures { result ≡ true → DecidesEnding worker (leg_seen at.now) answer.now
        (Ok (Outcome.Success, Outcome.Success)) }
{
    match calling_owner(at.leg.state) {
        Some(owner) => worker == owner && is_bare_success(answer),
        None => false,
    }
}
