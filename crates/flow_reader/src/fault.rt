//! Why a text is refused.

ghost use Rattle.std.specs.Prelude.{◌≡◌};
ghost use Rattle.flow_reader.specs.Fault.{flow_fault_name};

use flow_model::Text;
use std::alloc::{AllocError, AllocFailed};
use std::fmt;
use thiserror::Error;

/// Why a text stands for no workflow, or for no contexts.
#[derive(Debug, Drop, Error)]
pub enum FlowFault {
    /// It is no JSON (RFC 8259).
    NotJson,
    /// A number in it has a fraction or an exponent, or is out of range.
    NotWhole,
    /// Something that has to be there is missing at this key.
    Missing(Text),
    /// What stands at this path is of the wrong kind, or nested too deep: keys and places from the root, joined by dots.
    WrongShape(Text),
    /// This text is no id or name, or is the id of two steps of one job.
    BadId(Text),
    /// What stands at this key is left out of what workflows may say here.
    LeftOut(Text),
    /// A shell is neither `sh` nor `bash`.
    UnknownShell,
    /// There is no memory.
    Memory,
}

impl FlowFault {
    /// The fault's name, as it is printed.
    pub fn name(&self) -> &'static str
        ensures { result.now ≡ flow_fault_name self.now }
    {
        match self {
            FlowFault::NotJson => "NotJson",
            FlowFault::NotWhole => "NotWhole",
            FlowFault::Missing(_) => "Missing",
            FlowFault::WrongShape(_) => "WrongShape",
            FlowFault::BadId(_) => "BadId",
            FlowFault::LeftOut(_) => "LeftOut",
            FlowFault::UnknownShell => "UnknownShell",
            FlowFault::Memory => "Memory",
        }
    }

    /// The key, path or name that is at fault, if there is one.
    fn place(&self) -> Option<&Text> {
        match self {
            FlowFault::Missing(text)
            | FlowFault::WrongShape(text)
            | FlowFault::BadId(text)
            | FlowFault::LeftOut(text) => Some(text),
            FlowFault::NotJson
            | FlowFault::NotWhole
            | FlowFault::UnknownShell
            | FlowFault::Memory => None,
        }
    }
}

/// The name, and in brackets the key, path or name that is at fault.
impl fmt::Display for FlowFault {
    fn fmt<W: fmt::Write>(&self, f: &mut fmt::Formatter<W>) -> fmt::Result {
        match self.place() {
            Some(place) => write!(f, "{}({place:?})", self.name()),
            None => f.write_str(self.name()),
        }
    }
}

impl From<AllocError> for FlowFault {
    ghost use Rattle.flow_reader.specs.declared.fault.FlowFault.TheVariants.{Memory};

    ghost from_gives = { λ _ e. e ≡ Memory };

    fn from(_: AllocError) -> FlowFault {
        FlowFault::Memory
    }
}

impl<T: Drop> From<AllocFailed<T>> for FlowFault {
    ghost use Rattle.flow_reader.specs.declared.fault.FlowFault.TheVariants.{Memory};

    ghost from_gives = { λ _ e. e ≡ Memory };

    fn from(_: AllocFailed<T>) -> FlowFault {
        FlowFault::Memory
    }
}
