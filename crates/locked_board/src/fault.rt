//! Why an event is not posted.

ghost use Rattle.std.specs.Prelude.{◌≡◌};
ghost use Rattle.locked_board.specs.Fault as spec;

use status_table::EventFault;
use std::alloc::{AllocError, AllocFailed};

/// A refusal of what is under the lock.
#[derive(Clone, Copy)]
pub enum PostFault {
    /// The table refuses the event.
    Event(EventFault),
    /// There is no memory.
    Memory,
}

/// A refusal of the table.
pub(crate) fn post_fault(fault: EventFault) -> PostFault
    ensures { result ≡ spec.post_fault fault }
{
    match fault {
        EventFault::NoSuch => PostFault::Event(EventFault::NoSuch),
        EventFault::WrongState => PostFault::Event(EventFault::WrongState),
        EventFault::OtherWorker => PostFault::Event(EventFault::OtherWorker),
        EventFault::NeedsOpen => PostFault::Event(EventFault::NeedsOpen),
        EventFault::SlotsFull => PostFault::Event(EventFault::SlotsFull),
        EventFault::Stopping => PostFault::Event(EventFault::Stopping),
        EventFault::NotStopping => PostFault::Event(EventFault::NotStopping),
        EventFault::StepsLeft => PostFault::Event(EventFault::StepsLeft),
        EventFault::BadAnswer => PostFault::Event(EventFault::BadAnswer),
        EventFault::Memory => PostFault::Memory,
    }
}

impl From<AllocError> for PostFault {
    ghost use Rattle.locked_board.specs.declared.fault.PostFault.TheVariants.{Memory};

    ghost from_gives = { λ _ e. e ≡ Memory };

    fn from(_: AllocError) -> PostFault {
        PostFault::Memory
    }
}

impl<T: Drop> From<AllocFailed<T>> for PostFault {
    ghost use Rattle.locked_board.specs.declared.fault.PostFault.TheVariants.{Memory};

    ghost from_gives = { λ _ e. e ≡ Memory };

    fn from(_: AllocFailed<T>) -> PostFault {
        PostFault::Memory
    }
}
