//! Why an event is refused.

ghost use Rattle.std.specs.Prelude.{◌≡◌};
ghost use Rattle.status_table.specs.Fault as spec;
ghost use Rattle.status_table.specs.Fault.{event_fault_name};

use std::alloc::{AllocError, AllocFailed};
use std::fmt;
use std::fmt::Display;
use thiserror::Error;

/// A refusal of the table. The first that applies, in this order, is answered; `Memory` is the last.
#[derive(Clone, Copy, Debug, PartialEq, Eq, Error)]
pub enum EventFault {
    /// There is no run, job or leg of that number, or no such worker.
    NoSuch,
    /// The run, job or leg is in another state.
    WrongState,
    /// Another worker has the leg.
    OtherWorker,
    /// What it needs has not ended.
    NeedsOpen,
    /// As many legs of the job are under way as may be at once.
    SlotsFull,
    /// It is to stop.
    Stopping,
    /// It is not to stop.
    NotStopping,
    /// A step of the leg is left.
    StepsLeft,
    /// The answer is not well-formed.
    BadAnswer,
    /// There is no memory.
    Memory,
}

impl EventFault {
    /// Its name, as it is printed.
    pub fn name(self) -> &'static str
        ensures { result.now ≡ event_fault_name self }
    {
        match self {
            EventFault::NoSuch => "NoSuch",
            EventFault::WrongState => "WrongState",
            EventFault::OtherWorker => "OtherWorker",
            EventFault::NeedsOpen => "NeedsOpen",
            EventFault::SlotsFull => "SlotsFull",
            EventFault::Stopping => "Stopping",
            EventFault::NotStopping => "NotStopping",
            EventFault::StepsLeft => "StepsLeft",
            EventFault::BadAnswer => "BadAnswer",
            EventFault::Memory => "Memory",
        }
    }

    /// Whether the event is not at fault: no memory was left.
    pub fn is_memory(self) -> bool
        ensures { result ≡ spec.is_memory self }
    {
        match self {
            EventFault::NoSuch => false,
            EventFault::WrongState => false,
            EventFault::OtherWorker => false,
            EventFault::NeedsOpen => false,
            EventFault::SlotsFull => false,
            EventFault::Stopping => false,
            EventFault::NotStopping => false,
            EventFault::StepsLeft => false,
            EventFault::BadAnswer => false,
            EventFault::Memory => true,
        }
    }
}

impl Display for EventFault {
    ghost use Rattle.std.specs.Prelude.{Some};
    ghost use Rattle.status_table.specs.Fault.{event_fault_name};

    ghost output = { λ fault. Some (event_fault_name fault) };

    fn fmt<W: fmt::Write>(&self, f: &mut fmt::Formatter<W>) -> fmt::Result {
        f.write_str(self.name())
    }
}

impl From<AllocError> for EventFault {
    ghost use Rattle.std.specs.Prelude.{◌≡◌};
    ghost use Rattle.status_table.specs.declared.fault.EventFault.TheVariants.{Memory};

    ghost from_gives = { λ _ e. e ≡ Memory };

    fn from(_error: AllocError) -> EventFault {
        EventFault::Memory
    }
}

impl<T: Drop> From<AllocFailed<T>> for EventFault {
    ghost use Rattle.std.specs.Prelude.{◌≡◌};
    ghost use Rattle.status_table.specs.declared.fault.EventFault.TheVariants.{Memory};

    ghost from_gives = { λ _ e. e ≡ Memory };

    fn from(_error: AllocFailed<T>) -> EventFault {
        EventFault::Memory
    }
}
