//! The queue of tickets.

ghost use Rattle.std.specs.Prelude.{◌≡◌, ◌<◌, [], ◌∷◌, length, IfOk, OnErr, IfNone};
ghost use Rattle.crossbeam_queue.specs.Fifo.{Held};
ghost use Rattle.crossbeam_queue.specs.Passes.{view, IsSamePass, IsPassOf as IsSeatOf};
ghost use Rattle.ready_queue.specs.Passes.{IsPassOf, records_of, capacity_of, PutStep, TakeStep, IsCountOf};
ghost use Rattle.ready_queue.specs.Records.{newcomer, IsWhole, KeepsNames, DividesNames, AllInOrder};
ghost use Rattle.ready_queue.specs.House.{StaysAtPut, StaysAtTake, StaysAtSplit, StaysAtJoin, HeldAt};
ghost use Rattle.ready_queue.specs.Steps as step;

use crate::count::Count;
use crate::house::{HouseRule, NoRule};
use crate::pass::Pass;
use crate::record::Records;
use crate::rule::{Close, FirstInFirstOut, Order, Put, Room, Share, Take};
use crate::tally::Tally;
use crossbeam_queue::{Pass as Seat, RuledArrayQueue};
use std::alloc::{AllocError, Global};
use std::marker::Brand;
use std::sync::Wait;

/// What is put and taken: the number of a leg that is ready.
pub type Ticket = u64;

/// A queue of tickets for several threads, which has room for a fixed number of them. Each thread puts and
/// takes with a pass of its own.
pub type TicketQueue = HouseQueue<NoRule>;

/// Such a queue, which keeps a rule of the caller's besides.
#[derive(Drop)]
pub struct HouseQueue<H: HouseRule> {
    tickets: RuledArrayQueue<u64, Records, FirstInFirstOut<H>>,
}

impl<H: HouseRule> HouseQueue<H> {
    /// An empty queue with room for so many tickets, and its one pass. Its memory is all that the queue
    /// ever takes.
    pub fn new(alloc: Global, capacity: usize) -> Result<(HouseQueue<H>, Pass), AllocError>
        requires capacity { 0 < capacity }
        requires house { H.holds [] ((newcomer [] ∷ []) ∷ []) }
        ensures capacity { IfOk result (λ made. capacity_of made.0 ≡ capacity) }
        ensures pass { IfOk result (λ made. IsPassOf made.0 made.1) }
        ensures first { IfOk result (λ made. records_of made.1 ≡ newcomer [] ∷ []) }
        ensures whole { IfOk result (λ made. IsWhole (records_of made.1)) }
    {
        let (tickets, seat) = RuledArrayQueue::ruled(alloc, capacity)?;
        let tally = Tally::new();
        Ok((HouseQueue { tickets }, Pass { seat, tally }))
    }

    /// Puts a ticket behind the others. It is handed back only if the queue was full at one moment of the
    /// call. It waits while another thread is in the way, and takes no memory.
    pub fn put<R: Wait>(&self, rt: &R, pass: &mut Pass, ticket: Ticket) -> Result<(), Ticket>
        requires pass { IsPassOf self.now pass.old }
        requires house { StaysAtPut H.holds (capacity_of self.now) (records_of pass.old) ticket }
        ensures pass { IsPassOf self.now pass.new }
        ensures step { PutStep self.now pass.old ticket result pass.new }
        ensures full { OnErr result (Held (capacity_of self.now) (HeldAt H.holds (records_of pass.old))) }
        ensures names { KeepsNames (records_of pass.old) (records_of pass.new) }
    {
        self.put_within::<Brand, R>(rt, &mut pass.seat, ticket)?;
        pass.tally = pass.tally.with_put();
        Ok(())
    }

    // Puts a ticket into a queue that has that much room.
    fn put_within<N: Room, R: Wait>(
        &self,
        rt: &R,
        seat: &mut Seat<u64, Records>,
        ticket: Ticket,
    ) -> Result<(), Ticket>
        requires pass { IsSeatOf self.now.tickets seat.old }
        requires live { 0 < length (view seat.old) }
        requires room { capacity_of self.now ≡ N.room }
        requires house { StaysAtPut H.holds (capacity_of self.now) (view seat.old) ticket }
        ensures pass { IsSamePass seat.old seat.new }
        ensures step { step.PutTells N.room (view seat.old) ticket result (view seat.new) }
        ensures full { OnErr result (Held (capacity_of self.now) (HeldAt H.holds (view seat.old))) }
    {
        // Read for its range: the queue holds fewer tickets than a word counts.
        let _capacity = self.tickets.capacity();
        self.tickets.push_as::<Put<N, H>, R>(rt, seat, ticket)
    }

    /// Takes the ticket before all others. There is none only if the queue was empty at one moment of the
    /// call. It waits while another thread is in the way, and takes no memory.
    pub fn take<R: Wait>(&self, rt: &R, pass: &mut Pass) -> Option<Ticket>
        requires pass { IsPassOf self.now pass.old }
        requires house { StaysAtTake H.holds (records_of pass.old) }
        ensures pass { IsPassOf self.now pass.new }
        ensures step { TakeStep pass.old result pass.new }
        ensures empty { IfNone result (HeldAt H.holds (records_of pass.old) []) }
        ensures names { KeepsNames (records_of pass.old) (records_of pass.new) }
    {
        let ticket = self.tickets.pop_as::<Take<H>, R>(rt, &mut pass.seat)?;
        pass.tally = pass.tally.with_taken();
        Some(ticket)
    }

    /// Splits a pass off, which has a new name and has done nothing. It takes no memory.
    pub fn split(&self, pass: Pass) -> (Pass, Pass)
        requires pass { IsPassOf self.now pass }
        requires house { StaysAtSplit H.holds (records_of pass) }
        ensures passes { IsPassOf self.now result.0 × IsPassOf self.now result.1 }
        ensures kept { records_of result.0 ≡ step.after_split (records_of pass) }
        ensures made { records_of result.1 ≡ step.split_off (records_of pass) }
        ensures names { DividesNames (records_of pass) (records_of result.0) (records_of result.1) }
    {
        let Pass { mut seat, tally } = pass;
        let other = self.tickets.another::<Share>(&mut seat);
        (
            Pass { seat, tally },
            Pass {
                seat: other,
                tally: Tally::new(),
            },
        )
    }

    /// Puts the records of both under the first. It takes no memory.
    pub fn join(&self, pass: Pass, other: Pass) -> Pass
        requires passes { IsPassOf self.now pass × IsPassOf self.now other }
        requires house { StaysAtJoin H.holds (records_of pass) (records_of other) }
        ensures pass { IsPassOf self.now result }
        ensures step { records_of result ≡ step.joined (records_of pass) (records_of other) }
        ensures order { AllInOrder (records_of result) }
        ensures names { DividesNames (records_of result) (records_of pass) (records_of other) }
    {
        let tally = pass.tally.joined(other.tally);
        let mut seat = pass.seat;
        self.tickets.absorb::<Share>(&mut seat, other.seat);
        self.tickets.learn_as::<Order>(&mut seat);
        Pass { seat, tally }
    }

    /// Counts what was put, taken and left, when no other pass is out. It takes no memory.
    pub fn close(self, pass: Pass) -> Count
        requires pass { IsPassOf self pass }
        requires whole { IsWhole (records_of pass) }
        ensures { IsCountOf (records_of pass) result }
    {
        let Pass { mut seat, tally } = pass;
        self.tickets.learn_as::<Close>(&mut seat);
        Count {
            put: tally.put,
            taken: tally.taken,
            left: tally.ahead,
        }
    }
}
