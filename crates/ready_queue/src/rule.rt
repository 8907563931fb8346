//! The rule that the array queue is kept under, and what its steps tell a pass.

use crate::house::HouseRule;
use crate::record::Records;
use crossbeam_queue::protocol::{Join, Lesson, Outcome, Protocol, Split};
use std::marker::{Brand, PhantomData};

/// Tickets are taken in the order in which they are put, each once, and the rule of the house is kept.
pub(crate) struct FirstInFirstOut<H: HouseRule> {
    of: PhantomData<H>,
}

impl<H: HouseRule> Protocol<u64, Records> for FirstInFirstOut<H> {
    ghost use Rattle.std.specs.Prelude.{[], ◌∷◌};
    ghost use Rattle.ready_queue.specs.Records.{newcomer};
    ghost use Rattle.ready_queue.specs.Rule.{KeepsRule};

    ghost holds = { λ items views. KeepsRule items views × H.holds items views };

    ghost first = { newcomer [] ∷ [] };
}

/// How many tickets a queue has room for. Each call of a program picks it.
pub(crate) trait Room {
    ghost use Rattle.std.specs.Prelude.{ℕ};

    ghost room: { ℕ };
}

impl Room for Brand {
    ghost room = { 0 };
}

/// An accepted put, or one that finds the queue full.
pub(crate) struct Put<N: Room, H: HouseRule> {
    of: PhantomData<N>,
    house: PhantomData<H>,
}

impl<N: Room, H: HouseRule> Outcome<u64, Records> for Put<N, H> {
    ghost use Rattle.ready_queue.specs.Steps.{Puts};

    ghost then = { Puts N.room };
}

impl<N: Room, H: HouseRule> Lesson<u64, Records> for Put<N, H> {
    ghost use Rattle.ready_queue.specs.History.{GoesWith};
    ghost use Rattle.ready_queue.specs.House.{HeldAt};

    ghost fact = { λ v items. GoesWith v items × HeldAt H.holds v items };
}

/// A take of a ticket, or one that finds the queue empty.
pub(crate) struct Take<H: HouseRule> {
    house: PhantomData<H>,
}

impl<H: HouseRule> Outcome<u64, Records> for Take<H> {
    ghost use Rattle.ready_queue.specs.Steps.{Takes};

    ghost then = { Takes };
}

impl<H: HouseRule> Lesson<u64, Records> for Take<H> {
    ghost use Rattle.ready_queue.specs.History.{GoesWith};
    ghost use Rattle.ready_queue.specs.House.{HeldAt};

    ghost fact = { λ v items. GoesWith v items × HeldAt H.holds v items };
}

/// A split, and a join.
pub(crate) struct Share;

impl Split<Records> for Share {
    ghost use Rattle.ready_queue.specs.Steps.{after_split, split_off};

    ghost left = { after_split };

    ghost right = { split_off };
}

impl Join<Records> for Share {
    ghost use Rattle.std.specs.Prelude.{[]};
    ghost use Rattle.ready_queue.specs.Steps.{joined};

    ghost both = { joined };

    ghost spent = { [] };
}

/// A look at the order of what was taken.
pub(crate) struct Order;

impl Lesson<u64, Records> for Order {
    ghost use Rattle.ready_queue.specs.Records.{AllInOrder};

    ghost fact = { λ v items. AllInOrder v };
}

/// A look at what is left when no other pass is out.
pub(crate) struct Close;

impl Lesson<u64, Records> for Close {
    ghost use Rattle.ready_queue.specs.Steps.{Closes};

    ghost fact = { Closes };
}
