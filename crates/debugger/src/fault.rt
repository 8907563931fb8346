//! Why the debugger refuses a move, or a record.

ghost use Rattle.std.specs.Prelude.{◌≡◌};
ghost use Rattle.debugger.specs.Fault.{debug_fault_name};

use status_table::EventFault;
use std::alloc::{AllocError, AllocFailed};
use std::fmt;
use std::fmt::Display;
use thiserror::Error;

/// A refusal of the debugger.
#[derive(Clone, Copy, Debug, Error)]
pub enum DebugFault {
    /// There is no place before this one.
    AtStart,
    /// There is no place after this one.
    AtEnd,
    /// The record has no such place.
    NoPlace,
    /// No break that is set holds at such a place.
    NoBreak,
    /// The table refuses this entry of the record, counted from 0, with this refusal.
    BadRecord(usize, EventFault),
    /// There is no memory.
    Memory,
}

impl DebugFault {
    /// Its name, as it is printed.
    pub fn name(self) -> &'static str
        ensures { result.now ≡ debug_fault_name self }
    {
        match self {
            DebugFault::AtStart => "AtStart",
            DebugFault::AtEnd => "AtEnd",
            DebugFault::NoPlace => "NoPlace",
            DebugFault::NoBreak => "NoBreak",
            DebugFault::BadRecord(_, _) => "BadRecord",
            DebugFault::Memory => "Memory",
        }
    }
}

impl Display for DebugFault {
    ghost use Rattle.std.specs.Prelude.{Some};
    ghost use Rattle.debugger.specs.Fault.{debug_fault_name};

    ghost output = { λ fault. Some (debug_fault_name fault) };

    fn fmt<W: fmt::Write>(&self, f: &mut fmt::Formatter<W>) -> fmt::Result {
        f.write_str(self.name())
    }
}

impl From<AllocError> for DebugFault {
    ghost use Rattle.debugger.specs.declared.fault.DebugFault.TheVariants.{Memory};

    ghost from_gives = { λ _ e. e ≡ Memory };

    fn from(_: AllocError) -> DebugFault {
        DebugFault::Memory
    }
}

impl<T: Drop> From<AllocFailed<T>> for DebugFault {
    ghost use Rattle.debugger.specs.declared.fault.DebugFault.TheVariants.{Memory};

    ghost from_gives = { λ _ e. e ≡ Memory };

    fn from(_: AllocFailed<T>) -> DebugFault {
        DebugFault::Memory
    }
}
