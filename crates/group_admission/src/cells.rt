//! The cells of all names, in their order: a name's cell is found by halves, and none is taken away.

ghost use Rattle.std.specs.Prelude.{◌≡◌, IfOk, OnOk, OnErr, Some, map, slice_get};
ghost use Rattle.expr_reader.specs.Fold.{fold};
ghost use Rattle.flow_model.specs.Mapping.{value_at, with_pair};
ghost use Rattle.group_admission.specs.Cells.{Ascend, held_in, known_in};
ghost use Rattle.group_admission.specs.Cells as spec;
ghost use Rattle.group_admission.specs.Content as content;
ghost use Rattle.group_admission.specs.Content.{left_by, released, withdrawn};

use crate::cell::{Cell, folded_order};
use crate::held::{Held, left_at, released_at, withdrawn_at};
use crate::member::{is_member, same_member};
use expr_reader::fold;
use flow_model::{Duplicate, Member, Text};
use std::alloc::{AllocError, Global};

/// Whether a name is above that of the cell at a place.
fn is_above(cells: &[Cell], place: usize, name: &str) -> bool
    ensures { result ≡ spec.is_above (fold name.now) (slice_get cells.now place) }
{
    match cells.get(place) {
        Some(cell) => folded_order(name, cell.name.as_str()).is_gt(),
        None => false,
    }
}

/// Whether a name is that of the cell at a place.
fn is_of(cells: &[Cell], place: usize, name: &str) -> bool
    ensures { result ≡ spec.is_of (fold name.now) (slice_get cells.now place) }
{
    match cells.get(place) {
        Some(cell) => folded_order(name, cell.name.as_str()).is_eq(),
        None => false,
    }
}

/// The place of a name's cell, or where it would stand. It looks at few cells, by halves.
#[tactic(auto, using(crate::proofs::Search::count_at_most, crate::proofs::Search::count_above, crate::proofs::Search::count_within))]
fn place_of(cells: &[Cell], name: &str) -> usize
    requires { Ascend cells.now }
    ensures { result ≡ spec.count_below (fold name.now) cells.now }
{
    let mut low = 0;
    let mut high = cells.len();
    while low < high {
        let middle = low + (high - low) / 2;
        if is_above(cells, middle, name) {
            low = middle + 1;
        } else {
            high = middle;
        }
    }
    low
}

/// Who holds the name, if the cell at a place is that name's.
fn held_here(cells: &[Cell], place: usize, name: &str) -> Option<Held>
    ensures { result ≡ spec.held_here (fold name.now) (slice_get cells.now place) }
{
    match cells.get(place) {
        Some(cell) => {
            if folded_order(name, cell.name.as_str()).is_eq() {
                cell.held
            } else {
                None
            }
        },
        None => None,
    }
}

/// Who holds a name.
#[tactic(auto, using(crate::proofs::Kept::held_at_place))]
pub(crate) fn held_at(cells: &[Cell], name: &str) -> Option<Held>
    requires { Ascend cells.now }
    ensures { result ≡ value_at (fold name.now) (held_in cells.now) }
{
    let place = place_of(cells, name);
    held_here(cells, place, name)
}

/// Sets who holds the name of the cell at a place, or that nobody does, if one is there.
fn set_here(cells: &mut Vec<Cell>, place: usize, held: Option<Held>)
    ensures { cells.new.items ≡ spec.set_here cells.old.items place held }
{
    if place < cells.len() {
        cells[place].held = held;
    }
}

/// Sets who holds a name, or that nobody does, if it has a cell; no other cell changes. It looks at few
/// cells, by halves.
#[tactic(auto, using(crate::proofs::Known::put_cell, crate::proofs::Known::put_none))]
pub(crate) fn put_held(cells: &mut Vec<Cell>, name: &str, held: Option<Held>)
    requires { Ascend cells.old.items }
    ensures { cells.new.items ≡ spec.put_at (fold name.now) held cells.old.items }
{
    let place = place_of(cells, name);
    if is_of(cells, place, name) {
        set_here(cells, place, held);
    }
}

/// Writes who holds a name into its cell, or into a new one; where memory runs out, nothing is
/// changed.
#[tactic(auto, using(crate::proofs::Written::set_cell))]
fn write_held(
    cells: &mut Vec<Cell>,
    alloc: Global,
    name: &str,
    held: Held,
) -> Result<(), AllocError>
    requires { Ascend cells.old.items }
    ensures ok { OnOk result
        (cells.new.items ≡ spec.with_cell (fold name.now) held cells.old.items) }
    ensures err { OnErr result (cells.new.items ≡ cells.old.items) }
{
    let place = place_of(cells, name);
    if is_of(cells, place, name) {
        set_here(cells, place, Some(held));
        return Ok(());
    }
    let name = Text::new(fold(alloc, name)?);
    let held = Some(held);
    cells.insert(place, Cell { name, held })?;
    Ok(())
}

/// Sets who holds a name, and changes no other; where memory runs out, nothing is changed.
#[tactic(auto, using(crate::proofs::Known::known_in_with_cell, crate::proofs::Written::held_in_with_cell, crate::proofs::Written::ascend_with_cell))]
pub(crate) fn set_held(
    cells: &mut Vec<Cell>,
    alloc: Global,
    name: &str,
    held: Held,
) -> Result<(), AllocError>
    requires { Ascend cells.old.items }
    ensures ok { OnOk result
        (held_in cells.new.items ≡ with_pair (fold name.now) held (held_in cells.old.items)) }
    ensures known { OnOk result
        (known_in cells.new.items ≡ with_pair (fold name.now) (Some held) (known_in cells.old.items)) }
    ensures err { OnErr result (cells.new.items ≡ cells.old.items) }
    ensures ordered { Ascend cells.new.items }
{
    write_held(cells, alloc, name, held)?;
    Ok(())
}

/// A member leaves the name of the cell at a place, if one is there.
fn leave_here(cells: &mut Vec<Cell>, place: usize, member: Member)
    ensures { cells.new.items ≡ spec.change_here (left_by member) cells.old.items place }
{
    if place < cells.len() {
        let held = cells[place].held;
        cells[place].held = left_at(held, member);
    }
}

/// A member leaves a name, and no other cell changes. It looks at few cells, by halves.
#[tactic(auto, using(crate::proofs::Named::change_cell, crate::proofs::Named::no_cell))]
pub(crate) fn leave_name(cells: &mut Vec<Cell>, name: &str, member: Member)
    requires { Ascend cells.old.items }
    ensures { cells.new.items
        ≡ spec.changed_at (fold name.now) (left_by member) cells.old.items }
{
    let place = place_of(cells, name);
    if is_of(cells, place, name) {
        leave_here(cells, place, member);
    }
}

/// Every name that a member holds passes to its waiter, or nobody holds it.
fn release_each(cells: &mut [Cell], member: Member)
    ensures { cells.new ≡ map (spec.changed (released member)) cells.old }
{
    for cell in cells {
        cell.held = released_at(cell.held, member);
    }
}

/// A member leaves every wait.
fn withdraw_each(cells: &mut [Cell], member: Member)
    ensures { cells.new ≡ map (spec.changed (withdrawn member)) cells.old }
{
    for cell in cells {
        cell.held = withdrawn_at(cell.held, member);
    }
}

/// Every name that a member holds passes to its waiter, or nobody holds it.
pub(crate) fn release_all(cells: &mut Vec<Cell>, member: Member)
    ensures { cells.new.items ≡ map (spec.changed (released member)) cells.old.items }
{
    release_each(cells, member);
}

/// A member leaves every wait.
pub(crate) fn withdraw_all(cells: &mut Vec<Cell>, member: Member)
    ensures { cells.new.items ≡ map (spec.changed (withdrawn member)) cells.old.items }
{
    withdraw_each(cells, member);
}

/// The member that waits for what a member holds.
pub(crate) fn next_after(cells: &[Cell], member: Member) -> Option<Member>
    ensures { result ≡ content.next_after member (held_in cells.now) }
{
    for cell in cells {
        if let Some(held) = cell.held {
            if same_member(member, held.holder) {
                return held.waiter;
            }
        }
    }
    None
}

/// Whether a member holds a name or waits for one.
pub(crate) fn is_in_group(cells: &[Cell], member: Member) -> bool
    ensures { result ≡ content.is_in_group member (held_in cells.now) }
{
    for cell in cells {
        if let Some(held) = cell.held {
            if same_member(member, held.holder) || is_member(member, held.waiter) {
                return true;
            }
        }
    }
    false
}

/// Whether a member waits.
pub(crate) fn is_waiting(cells: &[Cell], member: Member) -> bool
    ensures { result ≡ content.is_waiting member (held_in cells.now) }
{
    for cell in cells {
        if let Some(held) = cell.held {
            if is_member(member, held.waiter) {
                return true;
            }
        }
    }
    false
}

/// The cells, with memory of their own.
pub(crate) fn copy_cells(cells: &[Cell], alloc: Global) -> Result<Vec<Cell>, AllocError>
    ensures { IfOk result (λ twins. twins.items ≡ cells.now) }
{
    let mut twins = Vec::with_capacity(alloc, cells.len())?;
    for cell in cells {
        twins.push(cell.copy(alloc)?)?;
    }
    Ok(twins)
}
