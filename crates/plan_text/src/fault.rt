//! Why a text is refused.

ghost use Rattle.std.specs.Prelude.{◌≡◌};
ghost use Rattle.plan_text.specs.Fault.{load_fault_name};

use flow_model::Text;
use std::alloc::{AllocError, AllocFailed};
use std::fmt;
use thiserror::Error;

/// Why a text stands for no plan, no entry or no record.
#[derive(Debug, Drop, Error)]
pub enum LoadFault {
    /// It is no JSON (RFC 8259).
    NotJson,
    /// It is an object whose `version` is missing or neither 1 nor 2.
    Version,
    /// It is no plan's document, or the plan breaks a rule: the path from the root, keys and places
    /// joined by dots.
    NotPlan(Text),
    /// This line, from 1, is no entry.
    NotEntry(u64),
    /// There is no memory.
    Memory,
}

impl LoadFault {
    /// The fault's name, as it is printed.
    pub fn name(&self) -> &'static str
        ensures { result.now ≡ load_fault_name self.now }
    {
        match self {
            LoadFault::NotJson => "NotJson",
            LoadFault::Version => "Version",
            LoadFault::NotPlan(_) => "NotPlan",
            LoadFault::NotEntry(_) => "NotEntry",
            LoadFault::Memory => "Memory",
        }
    }
}

/// The name, and in brackets the path or the line.
impl fmt::Display for LoadFault {
    fn fmt<W: fmt::Write>(&self, f: &mut fmt::Formatter<W>) -> fmt::Result {
        match self {
            LoadFault::NotPlan(path) => write!(f, "NotPlan({path:?})"),
            LoadFault::NotEntry(line) => write!(f, "NotEntry({line})"),
            LoadFault::NotJson | LoadFault::Version | LoadFault::Memory => f.write_str(self.name()),
        }
    }
}

impl From<AllocError> for LoadFault {
    ghost use Rattle.plan_text.specs.declared.fault.LoadFault.TheVariants.{Memory};

    ghost from_gives = { λ _ e. e ≡ Memory };

    fn from(_: AllocError) -> LoadFault {
        LoadFault::Memory
    }
}

impl<T: Drop> From<AllocFailed<T>> for LoadFault {
    ghost use Rattle.plan_text.specs.declared.fault.LoadFault.TheVariants.{Memory};

    ghost from_gives = { λ _ e. e ≡ Memory };

    fn from(_: AllocFailed<T>) -> LoadFault {
        LoadFault::Memory
    }
}
