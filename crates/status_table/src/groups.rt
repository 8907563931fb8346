//! Entering a concurrency group and leaving it.
//!
//! Memory is asked for first; what comes after it changes the board in place.

ghost use Rattle.std.specs.Prelude.{◌≡◌, Ok, Option, Result};
ghost use Rattle.board_decisions.specs.Place.{LegAt};
ghost use Rattle.board_decisions.specs.declared.entrance.Entrance.{Entrance as EntranceOf};
ghost use Rattle.expr_value.specs.Answer.{Gives};
ghost use Rattle.flow_model.specs.declared.reply.ValueFault.{ValueFault as ValueFaultOf};
ghost use Rattle.status_table.specs.Answers.{Answers};
ghost use Rattle.status_table.specs.Groups as spec;
ghost use Rattle.status_table.specs.Row.{leg_enters, run_enters};
ghost use Rattle.status_table.specs.Shape.{HasFewLegs};

use crate::fault::EventFault;
use crate::members::{
    Role, admit, close_run, delay, drop_leg, find_member, note_end, put_out, stop,
};
use board_decisions::entrance::{Entrance, Entrant};
use flow_model::{
    Board, Leg, LegState, Member, Outcome, Reply, Run, RunState, Text, ValueFault, What, faulted,
};

/// A reply that tells who was admitted, who lost its place, and who is told to stop.
pub fn told(admitted: Option<Member>, displaced: Option<Member>, stopped: Option<Member>) -> Reply
    ensures { result ≡ spec.told admitted displaced stopped }
{
    Reply {
        what: What::Moved,
        admitted,
        displaced,
        stopped,
    }
}

/// A reply that tells of nobody.
pub fn moved() -> Reply
    ensures { result ≡ spec.moved }
{
    told(None, None, None)
}

/// Whether a holder is the run that the asker is a leg of.
pub fn is_own(own: Option<u64>, holder: Member) -> bool
    ensures { result ≡ spec.is_own own holder }
{
    match (own, holder) {
        (Some(run), Member::Run(other)) => run == other,
        (Some(_), Member::Leg(_)) => false,
        (None, _) => false,
    }
}

/// The holder, where it is told to stop.
pub fn stop_told(cancel: bool, holder: Member) -> Option<Member>
    ensures { result ≡ spec.stop_told cancel holder }
{
    if cancel { Some(holder) } else { None }
}

/// Ends a member cancelled.
fn cancel(board: &mut Board, who: Member) -> Result<Reply, EventFault>
    ensures { Answers (Ok (spec.cancelled board.old who, spec.moved)) board.old result board.new }
{
    match who {
        Member::Run(number) => close_run(board, number, Outcome::Cancelled),
        Member::Leg(number) => drop_leg(board, number, Outcome::Cancelled)?,
    }
    Ok(moved())
}

/// Lets a member wait for a name that is held, in the place of one that waited.
#[tactic(auto, using(crate::proofs::Kept::put_out_noted))]
fn queue(
    board: &mut Board,
    who: Member,
    group: Entrance,
    holder: Member,
    waited: Option<Member>,
) -> Result<Reply, EventFault>
    ensures { Answers (Ok (spec.queued board.old who group holder waited))
        board.old result board.new }
{
    note_end(board, waited)?;
    let cancel = group.cancel;
    delay(board, group.name, who);
    put_out(board, waited);
    stop(board, cancel, holder);
    Ok(told(None, waited, stop_told(cancel, holder)))
}

/// What comes of a member that enters a group, by who holds its name and who waits for it.
fn enter_held(
    board: &mut Board,
    entrant: Entrant,
    group: Entrance,
    held: Option<Member>,
    waited: Option<Member>,
) -> Result<Reply, EventFault>
    ensures { Answers
        (Ok (spec.enters_held board.old entrant.who entrant.own group held waited))
        board.old result board.new }
{
    let Some(holder) = held else {
        admit(board, Some(group.name), entrant.who);
        return Ok(told(Some(entrant.who), None, None));
    };
    if is_own(entrant.own, holder) {
        return cancel(board, entrant.who);
    }
    queue(board, entrant.who, group, holder, waited)
}

/// A member enters its group, or none.
pub(crate) fn enter(
    board: &mut Board,
    entrant: Entrant,
    group: Option<Entrance>,
) -> Result<Reply, EventFault>
    requires { HasFewLegs board.old }
    ensures { Answers (Ok (spec.enters board.old entrant.who entrant.own group))
        board.old result board.new }
{
    let Some(group) = group else {
        admit(board, None, entrant.who);
        return Ok(told(Some(entrant.who), None, None));
    };
    let held = find_member(board, Role::Holder, group.name.as_str());
    let waited = find_member(board, Role::Waiter, group.name.as_str());
    enter_held(board, entrant, group, held, waited)
}

/// A run enters its group; a fault of the group's text ends it.
pub(crate) fn enter_run(
    board: &mut Board,
    number: u64,
    group: Result<Option<Entrance>, ValueFault>,
) -> Result<Reply, EventFault>
    requires { HasFewLegs board.old }
    ensures { (value : Result (Option EntranceOf) ValueFaultOf) → Gives (λ group. group) group value
        → Answers (run_enters board.old number value) board.old result board.new }
{
    match group {
        Ok(group) => {
            let entrant = Entrant {
                who: Member::Run(number),
                own: None,
            };
            enter(board, entrant, group)
        },
        Err(ValueFault::Memory) => Err(EventFault::Memory),
        Err(faulted!()) => {
            close_run(board, number, Outcome::Failure);
            Ok(moved())
        },
    }
}

/// A leg enters its group; a fault of the group's text ends it with a failure that is not tolerated.
pub(crate) fn enter_leg(
    board: &mut Board,
    number: u64,
    own: u64,
    group: Result<Option<Entrance>, ValueFault>,
) -> Result<Reply, EventFault>
    requires { HasFewLegs board.old }
    ensures { (at : LegAt) (value : Result (Option EntranceOf) ValueFaultOf)
        → at.place.run ≡ own → Gives (λ group. group) group value
        → Answers (leg_enters board.old number at value) board.old result board.new }
{
    match group {
        Ok(group) => {
            let entrant = Entrant {
                who: Member::Leg(number),
                own: Some(own),
            };
            enter(board, entrant, group)
        },
        Err(ValueFault::Memory) => Err(EventFault::Memory),
        Err(faulted!()) => {
            drop_leg(board, number, Outcome::Failure)?;
            Ok(moved())
        },
    }
}

/// The member that waits for the name of a group, if the group has one.
fn waiter_of(board: &Board, group: &Option<Text>) -> Option<Member>
    requires { HasFewLegs board.now }
    ensures { result ≡ spec.waiter_of board.now group.now }
{
    match group {
        Some(name) => find_member(board, Role::Waiter, name.as_str()),
        None => None,
    }
}

/// Who is next in the group of a run.
pub fn next_after_run(board: &Board, run: &Run) -> Option<Member>
    requires { HasFewLegs board.now }
    ensures { result ≡ spec.next_after board.now (spec.run_standing run.now) }
{
    match run.state {
        RunState::Going => waiter_of(board, &run.group),
        RunState::New => None,
        RunState::Waiting => None,
        RunState::Closed(_) => None,
    }
}

/// Who is next in the group of a leg.
pub fn next_after_leg(board: &Board, leg: &Leg) -> Option<Member>
    requires { HasFewLegs board.now }
    ensures { result ≡ spec.next_after board.now (spec.leg_standing leg.now) }
{
    match leg.state {
        LegState::Admitted => waiter_of(board, &leg.group),
        LegState::Running { .. } => waiter_of(board, &leg.group),
        LegState::Fresh => None,
        LegState::Waiting => None,
        LegState::Ended { .. } => None,
    }
}
