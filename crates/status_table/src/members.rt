//! The members of concurrency groups: who holds a name, who waits for it, and the changes of one member.

ghost use Rattle.std.specs.Prelude.{◌≡◌, true, OnOk, OnErr};
ghost use Rattle.flow_model.specs.Numbers.{board_legs};
ghost use Rattle.flow_model.specs.declared.event.Member.TheVariants as member;
ghost use Rattle.status_table.specs.Groups as spec;
ghost use Rattle.status_table.specs.Change.{with_numbered_leg};
ghost use Rattle.status_table.specs.Seen.{has_role, noted, put_out as put_out_of};
ghost use Rattle.status_table.specs.Shape.{HasFewLegs};

use crate::change::{LegChange, change_leg, set_run_state};
use board_decisions::place::numbered_leg;
use flow_model::{Board, Leg, LegState, Member, Outcome, Run, RunState, Text};
use std::alloc::AllocError;

/// The most legs of a plan.
const MOST_LEGS: usize = 4096;

/// Who is looked for at a name: its holder, or who waits for it.
#[derive(Clone, Copy)]
pub enum Role {
    Holder,
    Waiter,
}

/// Whether a name is that of a group, if it has one.
fn is_named(name: &str, group: &Option<Text>) -> bool
    ensures { result ≡ spec.is_named name.now group.now }
{
    match group {
        Some(other) => name == other.as_str(),
        None => false,
    }
}

/// Whether a run has a role at a name.
fn has_run_role(run: &Run, role: Role, name: &str) -> bool
    ensures { result ≡ has_role role name.now (spec.run_standing run.now) }
{
    match (run.state, role) {
        (RunState::Going, Role::Holder) => is_named(name, &run.group),
        (RunState::Waiting, Role::Waiter) => is_named(name, &run.group),
        (RunState::Going, Role::Waiter) => false,
        (RunState::Waiting, Role::Holder) => false,
        (RunState::New, _) => false,
        (RunState::Closed(_), _) => false,
    }
}

/// Whether a leg has a role at a name.
fn has_leg_role(leg: &Leg, role: Role, name: &str) -> bool
    ensures { result ≡ has_role role name.now (spec.leg_standing leg.now) }
{
    match (leg.state, role) {
        (LegState::Admitted, Role::Holder) => is_named(name, &leg.group),
        (LegState::Running { .. }, Role::Holder) => is_named(name, &leg.group),
        (LegState::Waiting, Role::Waiter) => is_named(name, &leg.group),
        (LegState::Admitted, Role::Waiter) => false,
        (LegState::Running { .. }, Role::Waiter) => false,
        (LegState::Waiting, Role::Holder) => false,
        (LegState::Fresh, _) => false,
        (LegState::Ended { .. }, _) => false,
    }
}

/// The first run that has a role at a name.
fn find_run(runs: &[Run], role: Role, name: &str) -> Option<u64>
    ensures { result ≡ spec.first_place 0 (λ run. has_role role name.now (spec.run_standing run))
        runs.now }
{
    for (place, run) in runs.iter().enumerate() {
        if has_run_role(run, role, name) {
            return Some(place as u64);
        }
    }
    None
}

/// The first leg that has a role at a name.
fn find_leg(board: &Board, role: Role, name: &str) -> Option<u64>
    requires { HasFewLegs board.now }
    ensures { result ≡ spec.first_place 0 (λ leg. has_role role name.now (spec.leg_standing leg))
        (board_legs board.now) }
{
    for number in 0..MOST_LEGS {
        let Some(leg) = numbered_leg(board, number) else {
            return None;
        };
        if has_leg_role(leg, role, name) {
            return Some(number as u64);
        }
    }
    None
}

/// The first run, else the first leg, that has a role at a name.
pub fn find_member(board: &Board, role: Role, name: &str) -> Option<Member>
    requires { HasFewLegs board.now }
    ensures { result ≡ spec.first_member (has_role role name.now) board.now }
{
    if let Some(run) = find_run(board.runs.as_slice(), role, name) {
        return Some(Member::Run(run));
    }
    match find_leg(board, role, name) {
        Some(leg) => Some(Member::Leg(leg)),
        None => None,
    }
}

/// Lets a run go, in the group with a name or in none.
fn admit_run(board: &mut Board, number: u64, name: Option<Text>)
    ensures { board.new ≡ spec.admitted board.old name (member.Run number) }
{
    if let Some(run) = board.runs.get_mut(number as usize) {
        run.state = RunState::Going;
        run.group = name;
    }
}

/// Admits a member, in the group with a name or in none.
pub(crate) fn admit(board: &mut Board, name: Option<Text>, who: Member)
    ensures { board.new ≡ spec.admitted board.old name who }
{
    match who {
        Member::Run(number) => admit_run(board, number, name),
        Member::Leg(number) => {
            change_leg(board, number, LegChange::Group(LegState::Admitted, name));
        },
    }
}

/// Lets a run wait for a name.
fn delay_run(board: &mut Board, number: u64, name: Text)
    ensures { board.new ≡ spec.waits board.old name (member.Run number) }
{
    if let Some(run) = board.runs.get_mut(number as usize) {
        run.state = RunState::Waiting;
        run.group = Some(name);
    }
}

/// Lets a member wait for a name.
pub(crate) fn delay(board: &mut Board, name: Text, who: Member)
    ensures { board.new ≡ spec.waits board.old name who }
{
    match who {
        Member::Run(number) => delay_run(board, number, name),
        Member::Leg(number) => {
            change_leg(
                board,
                number,
                LegChange::Group(LegState::Waiting, Some(name)),
            );
        },
    }
}

/// Puts the leg of a number into a state.
fn set_state(board: &mut Board, number: u64, state: LegState)
    ensures { board.new ≡ with_numbered_leg board.old number (λ leg. record leg { state = state }) }
{
    change_leg(board, number, LegChange::State(state));
}

/// Tells a run to stop.
pub(crate) fn stop_run(board: &mut Board, number: u64)
    ensures { board.new ≡ spec.stopped board.old true (member.Run number) }
{
    if let Some(run) = board.runs.get_mut(number as usize) {
        run.stop = true;
    }
}

/// Tells a member to stop, where that is wanted.
pub(crate) fn stop(board: &mut Board, wanted: bool, who: Member)
    ensures { board.new ≡ spec.stopped board.old wanted who }
{
    if !wanted {
        return;
    }
    match who {
        Member::Run(number) => stop_run(board, number),
        Member::Leg(number) => change_leg(board, number, LegChange::Stop(true)),
    }
}

/// Ends a run.
pub(crate) fn close_run(board: &mut Board, number: u64, how: Outcome)
    ensures { board.new ≡ spec.closed board.old number how }
{
    if let Some(run) = board.runs.get_mut(number as usize) {
        run.state = RunState::Closed(how);
    }
}

/// Lets who waited go on.
pub(crate) fn pass_on(board: &mut Board, next: Option<Member>)
    ensures { board.new ≡ spec.passed_on board.old next }
{
    match next {
        Some(Member::Run(number)) => set_run_state(board, number as usize, RunState::Going),
        Some(Member::Leg(number)) => set_state(board, number, LegState::Admitted),
        None => {},
    }
}

/// Notes that a leg ended; where memory runs out, nothing is changed.
pub(crate) fn note_end(board: &mut Board, who: Option<Member>) -> Result<(), AllocError>
    ensures ok { OnOk result (board.new ≡ noted board.old who) }
    ensures err { OnErr result (board.new ≡ board.old) }
{
    if let Some(Member::Leg(number)) = who {
        board.ends.push(number)?;
    }
    Ok(())
}

/// Cancels a member whose end was noted.
pub(crate) fn put_out(board: &mut Board, who: Option<Member>)
    ensures { board.new ≡ put_out_of board.old who }
{
    match who {
        Some(Member::Run(number)) => close_run(board, number, Outcome::Cancelled),
        Some(Member::Leg(number)) => set_state(
            board,
            number,
            LegState::Ended {
                result: Outcome::Cancelled,
                tolerated: false,
            },
        ),
        None => {},
    }
}

/// Ends a leg that has no worker, last of all; where memory runs out, nothing is changed.
pub(crate) fn drop_leg(board: &mut Board, number: u64, how: Outcome) -> Result<(), AllocError>
    ensures ok { OnOk result (board.new ≡ spec.dropped board.old number how) }
    ensures err { OnErr result (board.new ≡ board.old) }
{
    board.ends.push(number)?;
    set_state(
        board,
        number,
        LegState::Ended {
            result: how,
            tolerated: false,
        },
    );
    Ok(())
}
