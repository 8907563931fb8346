//! Laws of the definitions, as contracts of functions that do nothing.

ghost use Rattle.group_admission.specs.Laws.{CaseIsIgnored, FirstHolds, NextDisplaces, NowhereIsNoGroup, OnceStays, OrderStays, OwnRunChangesNothing, ReleasesPassOn, WaiterIsTold, WaitersHaveHolders, WithdrawsLeaveHolders};

/// A name has a waiter only where it has a holder, and names that are the same ignoring case are one
/// group.
pub fn names_are_held()
    ensures waiters { WaitersHaveHolders }
    ensures case { CaseIsIgnored }
{}

/// The first to enter a name holds it; each further one takes the waiter's place, and not the
/// holder's; a leg whose own run holds the name changes nothing. No other name changes.
pub fn entering_displaces_the_waiter()
    ensures first { FirstHolds }
    ensures further { NextDisplaces }
    ensures own { OwnRunChangesNothing }
{}

/// What a member held its waiter holds after the release, and no other name changes.
pub fn releasing_passes_on()
    ensures { ReleasesPassOn }
{}

/// Where a member waited nobody waits after it left, the holder stays, and no other name changes.
pub fn withdrawing_leaves_the_holder()
    ensures { WithdrawsLeaveHolders }
{}

/// Entering, releasing and leaving a wait keep the names in order.
pub fn order_stays()
    ensures { OrderStays }
{}

/// Where no member stands in two places, entering, releasing and leaving a wait keep it so, and a
/// release tells the waiter of the name that was held. A member that neither holds a name nor waits
/// for one is in no group.
pub fn members_stand_once()
    ensures stays { OnceStays }
    ensures told { WaiterIsTold }
    ensures nowhere { NowhereIsNoGroup }
{}
