//! Entering a concurrency group and leaving it, by the index of names.
//!
//! Memory is asked for first; what comes after it changes the board in place.

ghost use Rattle.std.specs.Prelude.{◌≡◌, ◌≤◌, ℕ, List, None, Ok, OnOk, Option, Result, Some, false};
ghost use Rattle.flat_board.specs.Words.{Answers, AsksNamed, Board as BoardOf, EntersNamed, Entrance as EntranceOf, Gives, IsGroup, IsName, Keeps, KeptAsShown, Leaves, Leg as LegOf, LegAt, Moved, Stand as StandOf, StandsOnlyThere, ValueFault as ValueFaultOf, after_enter, asked, content, entered, group_at, is_in_group, leg_enters, leg_there as leg_there_of, opened, run_enters, standing_by, value_at};
ghost use Rattle.flow_model.specs.declared.event.Member.TheVariants as member;
ghost use Rattle.status_table.specs.Groups as spec;

use crate::grouped_board::GroupedBoard;
use crate::members::{admit, close_run, delay, drop_leg, forget_end, note_end, put_out, stop};
use crate::undo::CellBack;
use board_counters::Tracked;
use board_decisions::entrance::{Entrance, Entrant};
use board_decisions::place::{LegPlace, leg_there};
use flow_model::{Board, LegState, Member, Outcome, Reply, RunState, Text, ValueFault, faulted};
use group_admission::{Groups, Held};
use status_table::EventFault;
use status_table::groups::{is_own, moved, stop_told, told};

/// Ends a member cancelled.
fn cancel(state: &mut Tracked, who: Member) -> Result<Reply, EventFault>
    requires { 2 ≤ state.old.room }
    ensures plan { state.new.plan ≡ state.old.plan }
    ensures answers { Answers (Ok (spec.cancelled state.old.board who, spec.moved))
        state.old.board result state.new.board }
    ensures back { OnOk result (state.new.back ≡ state.old.back) }
{
    match who {
        Member::Run(number) => close_run(state, number, Outcome::Cancelled),
        Member::Leg(number) => drop_leg(state, number, Outcome::Cancelled)?,
    }
    Ok(moved())
}

/// Who asks for a name, and for which.
#[derive(Drop)]
struct Asked {
    entrant: Entrant,
    group: Entrance,
}

/// A leg that asks, and the run that it is one of, by their numbers.
#[derive(Clone, Copy)]
pub(crate) struct Asker {
    pub(crate) leg: u64,
    pub(crate) run: u64,
}

impl GroupedBoard {
    /// Lets a member wait for a name that is held, in the place of one that waited.
    #[tactic(auto, using(status_table::proofs::Kept::put_out_noted))]
    fn queue(&mut self, asked: Asked, held: Held) -> Result<(Reply, Option<CellBack>), EventFault>
        requires named { IsName asked.group.name }
        requires outside { is_in_group asked.entrant.who (content self.old.groups) ≡ false }
        requires held { value_at asked.group.name (content self.old.groups) ≡ Some held }
        requires other { spec.is_own asked.entrant.own held.holder ≡ false }
        requires room { 4 ≤ self.old.state.room }
        ensures { Moved self.old self.new
            (Ok (spec.queued self.old.state.board asked.entrant.who asked.group held.holder held.waiter))
            (after_enter asked.group.name asked.entrant.who asked.entrant.own (content self.old.groups))
            result }
    {
        let Asked { entrant, group } = asked;
        note_end(&mut self.state, held.waiter)?;
        if self
            .groups
            .enter(group.name.as_str(), entrant.who, entrant.own, group.cancel)
            .is_err()
        {
            forget_end(self.alloc, &mut self.state, held.waiter);
            return Err(EventFault::Memory);
        }
        let cancel = group.cancel;
        delay(&mut self.state, group.name, entrant.who);
        put_out(&mut self.state, held.waiter);
        stop(&mut self.state, cancel, held.holder);
        let reply = told(None, held.waiter, stop_told(cancel, held.holder));
        let who = entrant.who;
        let held = Some(held);
        Ok((reply, Some(CellBack { who, held })))
    }

    /// What comes of a member that enters a group, whose name is held so.
    fn enter_held(
        &mut self,
        asked: Asked,
        held: Held,
    ) -> Result<(Reply, Option<CellBack>), EventFault>
        requires named { IsName asked.group.name }
        requires outside { is_in_group asked.entrant.who (content self.old.groups) ≡ false }
        requires held { value_at asked.group.name (content self.old.groups) ≡ Some held }
        requires room { 4 ≤ self.old.state.room }
        ensures { Moved self.old self.new (Ok (spec.enters_held self.old.state.board asked.entrant.who
            asked.entrant.own asked.group (Some held.holder) held.waiter))
            (after_enter asked.group.name asked.entrant.who asked.entrant.own (content self.old.groups))
            result }
    {
        if is_own(asked.entrant.own, held.holder) {
            return Ok((cancel(&mut self.state, asked.entrant.who)?, None));
        }
        self.queue(asked, held)
    }

    /// A member enters a group whose name nobody holds.
    fn enter_free(&mut self, asked: Asked) -> Result<(Reply, Option<CellBack>), EventFault>
        requires named { IsName asked.group.name }
        requires outside { is_in_group asked.entrant.who (content self.old.groups) ≡ false }
        requires free { value_at asked.group.name (content self.old.groups) ≡ None }
        requires room { 4 ≤ self.old.state.room }
        ensures { Moved self.old self.new (Ok (spec.enters_held self.old.state.board asked.entrant.who
            asked.entrant.own asked.group None None))
            (after_enter asked.group.name asked.entrant.who asked.entrant.own (content self.old.groups))
            result }
    {
        let Asked { entrant, group } = asked;
        self.groups.enter(group.name.as_str(), entrant.who, entrant.own, group.cancel)?;
        let who = entrant.who;
        admit(&mut self.state, Some(group.name), who);
        Ok((
            told(Some(who), None, None),
            Some(CellBack { who, held: None }),
        ))
    }

    /// A member enters its group, or none.
    pub(crate) fn enter(
        &mut self,
        entrant: Entrant,
        group: Option<Entrance>,
    ) -> Result<(Reply, Option<CellBack>), EventFault>
        requires named { EntersNamed group }
        requires outside { is_in_group entrant.who (content self.old.groups) ≡ false }
        requires kept { KeptAsShown (content self.old.groups) self.old.state.board }
        requires room { 4 ≤ self.old.state.room }
        ensures { Moved self.old self.new
            (Ok (spec.enters self.old.state.board entrant.who entrant.own group))
            (entered entrant.who entrant.own group (content self.old.groups)) result }
    {
        let Some(group) = group else {
            admit(&mut self.state, None, entrant.who);
            return Ok((told(Some(entrant.who), None, None), None));
        };
        match self.groups.held(group.name.as_str()) {
            Some(held) => self.enter_held(Asked { entrant, group }, held),
            None => self.enter_free(Asked { entrant, group }),
        }
    }

    /// A run enters its group; a fault of the group's text ends it.
    pub(crate) fn enter_run(
        &mut self,
        number: u64,
        group: Result<Option<Entrance>, ValueFault>,
    ) -> Result<(Reply, Option<CellBack>), EventFault>
        requires named { AsksNamed group }
        requires outside { is_in_group (member.Run number) (content self.old.groups) ≡ false }
        requires kept { KeptAsShown (content self.old.groups) self.old.state.board }
        requires room { 4 ≤ self.old.state.room }
        ensures { (value : Result (Option EntranceOf) ValueFaultOf) → Gives (λ group. group) group value
            → Moved self.old self.new (run_enters self.old.state.board number value)
            (opened (content self.old.groups) number value) result }
    {
        match group {
            Ok(group) => {
                let entrant = Entrant {
                    who: Member::Run(number),
                    own: None,
                };
                self.enter(entrant, group)
            },
            Err(ValueFault::Memory) => Err(EventFault::Memory),
            Err(faulted!()) => {
                close_run(&mut self.state, number, Outcome::Failure);
                Ok((moved(), None))
            },
        }
    }

    /// A leg enters its group; a fault of the group's text ends it with a failure that is not tolerated.
    pub(crate) fn enter_leg(
        &mut self,
        asker: Asker,
        group: Result<Option<Entrance>, ValueFault>,
    ) -> Result<(Reply, Option<CellBack>), EventFault>
        requires named { AsksNamed group }
        requires outside { is_in_group (member.Leg asker.leg) (content self.old.groups) ≡ false }
        requires kept { KeptAsShown (content self.old.groups) self.old.state.board }
        requires room { 4 ≤ self.old.state.room }
        ensures { (at : LegAt) (value : Result (Option EntranceOf) ValueFaultOf)
            → at.place.run ≡ asker.run → Gives (λ group. group) group value
            → Moved self.old self.new (leg_enters self.old.state.board asker.leg at value)
            (asked (content self.old.groups) asker.leg asker.run value) result }
    {
        match group {
            Ok(group) => {
                let entrant = Entrant {
                    who: Member::Leg(asker.leg),
                    own: Some(asker.run),
                };
                self.enter(entrant, group)
            },
            Err(ValueFault::Memory) => Err(EventFault::Memory),
            Err(faulted!()) => {
                drop_leg(&mut self.state, asker.leg, Outcome::Failure)?;
                Ok((moved(), None))
            },
        }
    }
}

/// How a member stands to its group.
#[derive(Clone, Copy)]
pub(crate) enum Stand {
    Apart,
    Holding,
    Waiting,
}

/// How a run in a state stands.
pub(crate) fn run_stand(state: RunState) -> Stand
    ensures { (group : Option (List ℕ)) → spec.run_stands state group ≡ standing_by result group }
{
    match state {
        RunState::Going => Stand::Holding,
        RunState::Waiting => Stand::Waiting,
        RunState::New | RunState::Closed(_) => Stand::Apart,
    }
}

/// How a leg in a state stands.
pub(crate) fn leg_stand(state: LegState) -> Stand
    ensures { (group : Option (List ℕ)) → spec.leg_stands state group ≡ standing_by result group }
{
    match state {
        LegState::Admitted | LegState::Running { .. } => Stand::Holding,
        LegState::Waiting => Stand::Waiting,
        LegState::Fresh | LegState::Ended { .. } => Stand::Apart,
    }
}

/// The member that holds the name of a group.
#[tactic(auto, using(crate::proofs::Index::holder_told))]
pub(crate) fn holder(groups: &Groups, name: &str) -> Option<Member>
    requires { IsName name.now }
    ensures { (b : BoardOf) → KeptAsShown (content groups.now) b → result ≡ spec.holder b name.now }
{
    groups.holder(name)
}

/// The member that waits for the name of a group.
#[tactic(auto, using(crate::proofs::Index::waiter_told))]
pub(crate) fn waiter(groups: &Groups, name: &str) -> Option<Member>
    requires { IsName name.now }
    ensures { (b : BoardOf) → KeptAsShown (content groups.now) b → result ≡ spec.waiter b name.now }
{
    groups.waiting(name)
}

/// The member that waits for the name of a group, if the group has one.
fn waiter_of(groups: &Groups, group: &Option<Text>) -> Option<Member>
    requires { IsGroup group.now }
    ensures { (b : BoardOf) → KeptAsShown (content groups.now) b → result ≡ spec.waiter_of b group.now }
{
    match group {
        Some(name) => groups.waiting(name.as_str()),
        None => None,
    }
}

/// Who is next in the group of a member.
pub(crate) fn next_after(groups: &Groups, stand: Stand, group: &Option<Text>) -> Option<Member>
    requires { IsGroup group.now }
    ensures { (b : BoardOf) → KeptAsShown (content groups.now) b
        → result ≡ spec.next_after b (standing_by stand group.now) }
{
    match stand {
        Stand::Holding => waiter_of(groups, group),
        Stand::Apart | Stand::Waiting => None,
    }
}

/// A member that ended leaves its group, which is found by its name, and what was held of that is told; one that has no
/// group leaves none.
pub(crate) fn leave(groups: &mut Groups, who: Member, group: &Option<Text>) -> Option<CellBack>
    ensures leaves { (b : BoardOf) (stood : StandOf) → IsGroup group.now → group_at b who ≡ group.now
        → StandsOnlyThere (content groups.old) who (standing_by stood group.now)
        → Leaves result b who (standing_by stood group.now) (content groups.old) (content groups.new) }
    ensures known { Keeps groups.old groups.new }
{
    match group {
        Some(name) => {
            let held = groups.held(name.as_str());
            groups.leave_name(name.as_str(), who);
            Some(CellBack { who, held })
        },
        None => None,
    }
}

/// A leg that ended leaves its group, whose name stands on the board still, and what was held of that is told.
pub(crate) fn leave_leg(
    groups: &mut Groups,
    board: &Board,
    place: LegPlace,
    number: u64,
) -> Option<CellBack>
    ensures leaves { (b : BoardOf) (leg : LegOf) (stood : StandOf) → IsGroup leg.group
        → leg_there_of board.now place ≡ Some leg → group_at b (member.Leg number) ≡ leg.group
        → StandsOnlyThere (content groups.old) (member.Leg number) (standing_by stood leg.group)
        → Leaves result b (member.Leg number) (standing_by stood leg.group)
        (content groups.old) (content groups.new) }
    ensures known { Keeps groups.old groups.new }
{
    match leg_there(board, place) {
        Some(leg) => leave(groups, Member::Leg(number), &leg.group),
        None => None,
    }
}
