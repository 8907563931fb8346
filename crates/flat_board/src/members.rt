//! Changes of one member of a concurrency group, and of the legs that ended, with the counters.

ghost use Rattle.std.specs.Prelude.{◌≡◌, ◌≤◌, ◌+◌, true, Some, OnOk, OnErr};
ghost use Rattle.flat_board.specs.Words.{Board as BoardOf, Turned, leg_after, leg_ended, noted, put_out as put_out_of, with_numbered_leg};
ghost use Rattle.flow_model.specs.declared.event.Member.TheVariants as member;
ghost use Rattle.status_table.specs.Groups as spec;

use board_counters::{RunChange, Tracked};
use board_decisions::place::LegPlace;
use flow_model::{LegState, Mapping, Member, Outcome, RunState, Text};
use status_table::change::LegChange;
use std::alloc::{AllocError, Global};

/// Changes the leg with a number, where there is one.
fn change_leg(state: &mut Tracked, number: u64, how: LegChange)
    requires { 1 ≤ state.old.room }
    ensures { Turned state.old state.new (with_numbered_leg state.old.board number (leg_after how)) }
{
    if let Some(place) = state.counted().leg_place(number) {
        state.change_leg(place, how);
    }
}

/// Puts the leg of a number into a state.
fn set_state(state: &mut Tracked, number: u64, to: LegState)
    requires { 1 ≤ state.old.room }
    ensures { Turned state.old state.new
        (with_numbered_leg state.old.board number (λ leg. record leg { state = to })) }
{
    change_leg(state, number, LegChange::State(to));
}

/// Admits a member, in the group with a name or in none.
pub(crate) fn admit(state: &mut Tracked, name: Option<Text>, who: Member)
    requires { 1 ≤ state.old.room }
    ensures { Turned state.old state.new (spec.admitted state.old.board name who) }
{
    match who {
        Member::Run(number) => {
            state.change_run(number, RunChange::Group(RunState::Going, name));
        },
        Member::Leg(number) => {
            change_leg(state, number, LegChange::Group(LegState::Admitted, name));
        },
    }
}

/// Lets a member wait for a name.
pub(crate) fn delay(state: &mut Tracked, name: Text, who: Member)
    requires { 1 ≤ state.old.room }
    ensures { Turned state.old state.new (spec.waits state.old.board name who) }
{
    match who {
        Member::Run(number) => {
            state.change_run(number, RunChange::Group(RunState::Waiting, Some(name)));
        },
        Member::Leg(number) => {
            change_leg(
                state,
                number,
                LegChange::Group(LegState::Waiting, Some(name)),
            );
        },
    }
}

/// Tells a run to stop.
pub(crate) fn stop_run(state: &mut Tracked, number: u64)
    requires { 1 ≤ state.old.room }
    ensures { Turned state.old state.new (spec.stopped state.old.board true (member.Run number)) }
{
    state.change_run(number, RunChange::Stop(true));
}

/// Tells a member to stop, where that is wanted.
pub(crate) fn stop(state: &mut Tracked, wanted: bool, who: Member)
    requires { 1 ≤ state.old.room }
    ensures { Turned state.old state.new (spec.stopped state.old.board wanted who) }
{
    if !wanted {
        return;
    }
    match who {
        Member::Run(number) => stop_run(state, number),
        Member::Leg(number) => change_leg(state, number, LegChange::Stop(true)),
    }
}

/// Ends a run.
pub(crate) fn close_run(state: &mut Tracked, number: u64, how: Outcome)
    requires { 1 ≤ state.old.room }
    ensures { Turned state.old state.new (spec.closed state.old.board number how) }
{
    state.change_run(number, RunChange::State(RunState::Closed(how)));
}

/// Lets who waited go on.
pub(crate) fn pass_on(state: &mut Tracked, next: Option<Member>)
    requires { 1 ≤ state.old.room }
    ensures { Turned state.old state.new (spec.passed_on state.old.board next) }
{
    match next {
        Some(Member::Run(number)) => state.change_run(number, RunChange::State(RunState::Going)),
        Some(Member::Leg(number)) => set_state(state, number, LegState::Admitted),
        None => {},
    }
}

/// Notes that a leg ended; where memory runs out, nothing is changed.
pub(crate) fn note_end(state: &mut Tracked, who: Option<Member>) -> Result<(), AllocError>
    requires { 1 ≤ state.old.room }
    ensures plan { state.new.plan ≡ state.old.plan }
    ensures ok { OnOk result (state.new.board ≡ noted state.old.board who) }
    ensures err { OnErr result (state.new.board ≡ state.old.board) }
    ensures back { OnOk result (state.new.back ≡ state.old.back) }
    ensures room { OnOk result (state.old.room ≤ state.new.room + 1) }
{
    if let Some(Member::Leg(number)) = who {
        state.push_end(number)?;
    }
    Ok(())
}

/// Takes back that a leg was noted, where nothing else is to be taken back. It takes no memory.
pub(crate) fn forget_end(alloc: Global, state: &mut Tracked, who: Option<Member>)
    ensures plan { state.new.plan ≡ state.old.plan }
    ensures board { (b : BoardOf) → state.old.board ≡ noted b who → state.new.board ≡ b }
{
    if let Some(Member::Leg(_)) = who {
        state.pop_end(alloc);
    }
}

/// Cancels a member whose end was noted.
pub(crate) fn put_out(state: &mut Tracked, who: Option<Member>)
    requires { 1 ≤ state.old.room }
    ensures { Turned state.old state.new (put_out_of state.old.board who) }
{
    match who {
        Some(Member::Run(number)) => close_run(state, number, Outcome::Cancelled),
        Some(Member::Leg(number)) => set_state(
            state,
            number,
            LegState::Ended {
                result: Outcome::Cancelled,
                tolerated: false,
            },
        ),
        None => {},
    }
}

/// Ends a leg that has no worker, last of all; where memory runs out, nothing is changed.
pub(crate) fn drop_leg(state: &mut Tracked, number: u64, how: Outcome) -> Result<(), AllocError>
    requires { 2 ≤ state.old.room }
    ensures plan { state.new.plan ≡ state.old.plan }
    ensures ok { OnOk result (state.new.board ≡ spec.dropped state.old.board number how) }
    ensures err { OnErr result (state.new.board ≡ state.old.board) }
    ensures back { OnOk result (state.new.back ≡ state.old.back) }
    ensures room { OnOk result (state.old.room ≤ state.new.room + 2) }
{
    state.push_end(number)?;
    set_state(
        state,
        number,
        LegState::Ended {
            result: how,
            tolerated: false,
        },
    );
    Ok(())
}

/// Puts a leg into the state in which it ends, last of all; where memory runs out, nothing is changed.
pub(crate) fn set_ended(
    state: &mut Tracked,
    place: LegPlace,
    number: u64,
    to: LegState,
    outputs: Mapping<Text>,
) -> Result<(), AllocError>
    requires { 2 ≤ state.old.room }
    ensures plan { state.new.plan ≡ state.old.plan }
    ensures ok { OnOk result
        (state.new.board ≡ leg_ended state.old.board place number to outputs) }
    ensures err { OnErr result (state.new.board ≡ state.old.board) }
    ensures back { OnOk result (state.new.back ≡ state.old.back) }
    ensures room { OnOk result (state.old.room ≤ state.new.room + 2) }
{
    state.push_end(number)?;
    state.change_leg(place, LegChange::Outputs(to, outputs));
    Ok(())
}
