//! What takes an entry back.

ghost use Rattle.std.specs.Prelude.{◌≡◌, option_and_then, option_map};
ghost use Rattle.flat_board.specs.Words.{EachOnce, board_before, cell_of, content, group_at, groups_put_back, leg_there as leg_there_of};
ghost use Rattle.flow_model.specs.declared.event.Member.TheVariants as member;

use crate::grouped_board::GroupedBoard;
use board_counters::{Changes, Counted, OnlyChange};
use board_decisions::place::{LegPlace, leg_there};
use flow_model::{Board, Member, Text};
use group_admission::{Groups, Held};
use std::alloc::{AllocError, Global};

const _: () = prove!(size_of::<Undo>() == 40);

/// What was held of the name of a group before a run or a leg entered that or left it. The name stands on the board
/// after it, as that of their group.
#[derive(Clone, Copy)]
pub struct CellBack {
    pub(crate) who: Member,
    pub(crate) held: Option<Held>,
}

/// The changes of the board by an entry, of which the last is taken back first, and what was held of the name that it
/// asked for, if it asked for one.
#[derive(Drop)]
pub struct EntryBack {
    pub(crate) changes: Changes,
    pub(crate) cell: Option<CellBack>,
}

/// What takes one entry back.
#[derive(Drop)]
pub enum Undo {
    /// The only change of an entry.
    Only(OnlyChange),
    /// All that an entry changed.
    Entry(Box<EntryBack>),
}

/// Room for all that an entry changes.
pub(crate) fn make_back(alloc: Global) -> Result<Box<EntryBack>, AllocError> {
    let changes = Changes::new(alloc);
    Ok(Box::new(
        alloc,
        EntryBack {
            changes,
            cell: None,
        },
    )?)
}

/// The name of a group, if it has one.
fn name_of(group: &Option<Text>) -> Option<&str>
    ensures { option_map (λ name. name.now) result ≡ group.now }
{
    match group {
        Some(name) => Some(name.as_str()),
        None => None,
    }
}

/// The name of the group of the run with a number.
fn run_name(board: &Board, number: u64) -> Option<&str>
    ensures { option_map (λ name. name.now) result ≡ group_at board.now (member.Run number) }
{
    name_of(&board.runs.as_slice().get(number as usize)?.group)
}

/// The name of the group of the leg at a place, if that was found.
fn leg_name(board: &Board, place: Option<LegPlace>) -> Option<&str>
    ensures { option_map (λ name. name.now) result
        ≡ option_and_then (λ leg. leg.group) (option_and_then (leg_there_of board.now) place) }
{
    name_of(&leg_there(board, place?)?.group)
}

/// The name of the group of a member.
#[tactic(auto, using(crate::proofs::Names::placed_group))]
fn name_at(state: &Counted, who: Member) -> Option<&str>
    ensures { option_map (λ name. name.now) result ≡ group_at state.now.board who }
{
    match who {
        Member::Run(number) => run_name(state.board(), number),
        Member::Leg(number) => leg_name(state.board(), state.leg_place(number)),
    }
}

/// Puts a name back, where one was asked for: it stands on the board after the entry.
fn put_back(groups: &mut Groups, state: &Counted, cell: Option<CellBack>)
    requires { EachOnce (content (groups_put_back cell state.now.board groups.old)) }
    ensures { groups.new ≡ groups_put_back cell state.now.board groups.old }
{
    if let Some(cell) = cell {
        if let Some(name) = name_at(state, cell.who) {
            groups.put_back(name, cell.held);
        }
    }
}

/// What was held before an entry of the name that it asked for.
fn cell_back(undo: &Undo) -> Option<CellBack>
    ensures { result ≡ cell_of undo.now }
{
    match undo {
        Undo::Only(_) => None,
        Undo::Entry(back) => back.cell,
    }
}

impl GroupedBoard {
    /// All that was changed since the board last began, with what was held of the name that was asked for.
    fn undo_all(&mut self, back: Box<EntryBack>, cell: Option<CellBack>) -> Undo
        ensures plan { self.new.state.plan ≡ self.old.state.plan }
        ensures board { self.new.state.board ≡ self.old.state.board }
        ensures groups { self.new.groups ≡ self.old.groups }
        ensures back { board_before result self.new.state.board ≡ self.old.state.back }
        ensures cell { cell_of result ≡ cell }
    {
        let mut back = back;
        *back = EntryBack {
            changes: self.state.take_changes(self.alloc),
            cell,
        };
        Undo::Entry(back)
    }

    /// What takes back what was played since the board last began, in the room that is there: by itself, where
    /// that is one change of a leg, and no name was asked for.
    pub(crate) fn undo_of(&mut self, back: Box<EntryBack>, cell: Option<CellBack>) -> Undo
        ensures plan { self.new.state.plan ≡ self.old.state.plan }
        ensures board { self.new.state.board ≡ self.old.state.board }
        ensures groups { self.new.groups ≡ self.old.groups }
        ensures back { board_before result self.new.state.board ≡ self.old.state.back }
        ensures cell { cell_of result ≡ cell }
    {
        if let Some(cell) = cell {
            return self.undo_all(back, Some(cell));
        }
        match self.state.take_only() {
            Some(only) => Undo::Only(only),
            None => self.undo_all(back, None),
        }
    }

    /// Takes an entry back.
    pub(crate) fn take_back(&mut self, undo: Undo)
        requires { EachOnce (content (groups_put_back (cell_of undo) self.old.state.board self.old.groups)) }
        ensures plan { self.new.state.plan ≡ self.old.state.plan }
        ensures board { self.new.state.board ≡ board_before undo self.old.state.board }
        ensures groups { self.new.groups
            ≡ groups_put_back (cell_of undo) self.old.state.board self.old.groups }
    {
        put_back(&mut self.groups, self.state.counted(), cell_back(&undo));
        match undo {
            Undo::Only(only) => self.state.revert_only(self.alloc, only),
            Undo::Entry(back) => self.state.revert(self.alloc, Box::into_inner(back).changes),
        }
    }
}
