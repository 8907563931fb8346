//! The groups of a board in play: who holds each name, and who waits for it.

ghost use Rattle.std.specs.Prelude.{◌≡◌, ◌≢◌, ℕ, List, [], Some, false, IfOk, OnOk, OnErr};
ghost use Rattle.expr_reader.specs.Fold.{fold};
ghost use Rattle.flow_model.specs.Mapping.{value_at, with_pair, Ascends};
ghost use Rattle.group_admission.specs.Content as spec;
ghost use Rattle.group_admission.specs.Known.{Grows, content, is_known, put_known};

use crate::cell::Cell;
use crate::cells::{
    copy_cells, held_at, is_in_group, is_waiting, leave_name, next_after, put_held, release_all,
    set_held, withdraw_all,
};
use crate::entered::Entered;
use crate::held::{Held, first, joined};
use crate::member::is_own;
use flow_model::{Duplicate, Member};
use std::alloc::{AllocError, Global};
use std::marker::Model;

/// The concurrency groups (GitHub Docs, workflow syntax: `concurrency`): a map from names, which are
/// the same ignoring case, to the member that holds the name and the one that waits for it.
///
/// A name that was entered keeps its cell, so leaving takes no memory. A name is found by halves, and
/// a new one moves the cells behind its place; what a member holds or waits for is found by a pass over
/// all names that were entered, unless its name is said.
#[derive(Drop)]
pub struct Groups {
    alloc: Global,
    cells: Vec<Cell>,
}

impl Model for Groups {
    ghost use Rattle.std.specs.Prelude.{List, Option, ℕ};
    ghost use Rattle.group_admission.specs.Cells.{known_in, IsSound};
    ghost use Rattle.group_admission.specs.declared.held.Held.{Held};

    ghost Value = { List (List ℕ × Option Held) };

    ghost view = { λ groups. known_in groups.cells.items };

    ghost invariant = { λ groups. IsSound groups.cells.items };
}

impl Groups {
    /// Groups that nobody is in. It takes no memory.
    pub fn new(alloc: Global) -> Groups
        ensures { result ≡ [] }
    {
        let cells = Vec::new(alloc);
        Groups { alloc, cells }
    }

    /// The member that holds a name, if there is one. It takes no memory, and finds the name by
    /// halves.
    pub fn holder(&self, name: &str) -> Option<Member>
        ensures member { result ≡ spec.holder_of (fold name.now) (content self.now) }
        ensures ordered { Ascends (content self.now) }
        ensures once { spec.EachOnce (content self.now) }
    {
        match held_at(self.cells.as_slice(), name) {
            Some(held) => Some(held.holder),
            None => None,
        }
    }

    /// Whether a member holds a name or waits for one. It takes no memory, and goes over all names
    /// that were entered.
    pub fn is_in_group(&self, member: Member) -> bool
        ensures { result ≡ spec.is_in_group member (content self.now) }
    {
        is_in_group(self.cells.as_slice(), member)
    }

    /// The member that waits for a name, if there is one. It takes no memory, and finds the name by
    /// halves.
    pub fn waiting(&self, name: &str) -> Option<Member>
        ensures { result ≡ spec.waiter_of (fold name.now) (content self.now) }
    {
        match held_at(self.cells.as_slice(), name) {
            Some(held) => held.waiter,
            None => None,
        }
    }

    /// A member leaves what it holds: its waiter, if there is one, holds it from now on, and is told.
    /// It takes no memory, and goes over all names that were entered.
    pub fn release(&mut self, member: Member) -> Option<Member>
        ensures next { result ≡ spec.next_after member (content self.old) }
        ensures groups { content self.new ≡ spec.after_release member (content self.old) }
        ensures known { (q : List ℕ) → is_known q self.new ≡ is_known q self.old }
    {
        let next = next_after(self.cells.as_slice(), member);
        release_all(&mut self.cells, member);
        next
    }

    /// A member leaves its wait, and whether it waited is told. It takes no memory, and goes over all
    /// names that were entered.
    pub fn withdraw(&mut self, member: Member) -> bool
        ensures waited { result ≡ spec.is_waiting member (content self.old) }
        ensures groups { content self.new ≡ spec.after_withdraw member (content self.old) }
        ensures known { (q : List ℕ) → is_known q self.new ≡ is_known q self.old }
    {
        let waited = is_waiting(self.cells.as_slice(), member);
        withdraw_all(&mut self.cells, member);
        waited
    }

    /// A member leaves a name: what it holds there passes to its waiter, if there is one, and its wait
    /// ends. Where it neither holds the name nor waits for it, nothing is changed. It takes no memory, and
    /// finds the name by halves.
    pub fn leave_name(&mut self, name: &str, member: Member)
        ensures held { spec.holder_of (fold name.now) (content self.old) ≡ Some member
            → content self.new ≡ spec.after_release member (content self.old) }
        ensures awaited { spec.waiter_of (fold name.now) (content self.old) ≡ Some member
            → content self.new ≡ spec.after_withdraw member (content self.old) }
        ensures other { spec.holder_of (fold name.now) (content self.old) ≢ Some member
            → spec.waiter_of (fold name.now) (content self.old) ≢ Some member
            → content self.new ≡ content self.old }
        ensures known { (q : List ℕ) → is_known q self.new ≡ is_known q self.old }
    {
        leave_name(&mut self.cells, name, member);
    }

    /// The names that were entered are in order. It does nothing.
    pub fn names_ascend(&self)
        ensures { Ascends self.now }
    {
        let _cells = self.cells.as_slice();
    }

    /// Who holds a name, and who waits for it, if somebody holds it. It takes no memory, and finds the name
    /// by halves.
    pub fn held(&self, name: &str) -> Option<Held>
        ensures { result ≡ value_at (fold name.now) (content self.now) }
    {
        held_at(self.cells.as_slice(), name)
    }

    /// Puts back who holds a name that is known, and who waits for it, or that nobody does; no other name
    /// changes, and one that isn't known stays so. It takes no memory, and finds the name by halves.
    pub fn put_back(&mut self, name: &str, held: Option<Held>)
        requires { spec.EachOnce (content (put_known (fold name.now) held self.old)) }
        ensures { self.new ≡ put_known (fold name.now) held self.old }
    {
        put_held(&mut self.cells, name, held);
    }

    /// A member enters a name, as a leg of `own_run` if that is said. It is admitted where nobody
    /// holds the name, or the name is empty; else it waits, in the place of who waited, and with
    /// `cancel` the holder is told as one to stop. A leg doesn't wait for its own run.
    ///
    /// # Errors
    ///
    /// No memory was left for a new name; nothing is changed then.
    pub fn enter(
        &mut self,
        name: &str,
        member: Member,
        own_run: Option<u64>,
        cancel: bool,
    ) -> Result<Entered, AllocError>
        requires { spec.is_in_group member (content self.old) ≡ false }
        ensures answer { IfOk result
            (λ entered. entered ≡ spec.answer_to (fold name.now) own_run cancel (content self.old)) }
        ensures ok { OnOk result
            (content self.new ≡ spec.after_enter (fold name.now) member own_run (content self.old)) }
        ensures known { Grows (fold name.now) self.old self.new }
        ensures err { OnErr result (self.new ≡ self.old) }
    {
        if name.is_empty() {
            return Ok(Entered::Admitted);
        }
        self.enter_named(name, member, own_run, cancel)
    }

    /// A member enters a name that is not empty.
    fn enter_named(
        &mut self,
        name: &str,
        member: Member,
        own_run: Option<u64>,
        cancel: bool,
    ) -> Result<Entered, AllocError>
        requires { spec.is_in_group member (content self.old) ≡ false }
        ensures answer { let held = value_at (fold name.now) (content self.old) in
            IfOk result (λ entered. entered ≡ spec.answer_at own_run cancel held) }
        ensures ok { let held = value_at (fold name.now) (content self.old) in
            OnOk result
            (content self.new ≡ spec.after_at (fold name.now) member own_run held (content self.old)) }
        ensures known { Grows (fold name.now) self.old self.new }
        ensures err { OnErr result (self.new ≡ self.old) }
    {
        match held_at(self.cells.as_slice(), name) {
            None => {
                self.hold(name, first(member))?;
                Ok(Entered::Admitted)
            },
            Some(held) if is_own(own_run, held.holder) => Ok(Entered::OwnRun),
            Some(held) => {
                self.hold(name, joined(held, member))?;
                Ok(waiting_for(held, cancel))
            },
        }
    }

    /// Sets who holds a name and who waits for it; where memory runs out, nothing is changed.
    fn hold(&mut self, name: &str, held: Held) -> Result<(), AllocError>
        requires { spec.EachOnce (with_pair (fold name.now) held (content self.old)) }
        ensures ok { OnOk result (content self.new ≡ with_pair (fold name.now) held (content self.old)) }
        ensures known { OnOk result (self.new ≡ with_pair (fold name.now) (Some held) self.old) }
        ensures err { OnErr result (self.new ≡ self.old) }
    {
        set_held(&mut self.cells, self.alloc, name, held)?;
        Ok(())
    }
}

/// The answer to a member that waits for a name that was held.
fn waiting_for(held: Held, cancel: bool) -> Entered
    ensures { result ≡ Entered.Waiting held.waiter (spec.stopped_by cancel held.holder) }
{
    let stopped = if cancel { Some(held.holder) } else { None };
    Entered::Waiting {
        displaced: held.waiter,
        stopped,
    }
}

impl Duplicate for Groups {
    fn copy(&self, alloc: Global) -> Result<Groups, AllocError> {
        let cells = copy_cells(self.cells.as_slice(), alloc)?;
        Ok(Groups { alloc, cells })
    }
}
