//! Why a call has no answer, and why a script is refused.

ghost use Rattle.std.specs.Prelude.{◌≡◌};
ghost use Rattle.step_host.specs.Faults.{host_fault_name};

use std::alloc::{AllocError, AllocFailed};
use thiserror::Error;

/// Why a call has no answer.
#[derive(Clone, Copy, Debug, PartialEq, Eq, Error)]
pub enum HostFault {
    /// The host has no answer to the call.
    #[error("NoAnswer")]
    NoAnswer,
    /// There is no memory.
    #[error("Memory")]
    Memory,
}

impl HostFault {
    /// The fault's name, as it is printed.
    pub fn name(self) -> &'static str
        ensures { result.now ≡ host_fault_name self }
    {
        match self {
            HostFault::NoAnswer => "NoAnswer",
            HostFault::Memory => "Memory",
        }
    }
}

impl From<AllocError> for HostFault {
    ghost use Rattle.step_host.specs.declared.fault.HostFault.TheVariants.{Memory};

    ghost from_gives = { λ _ e. e ≡ Memory };

    fn from(_: AllocError) -> HostFault {
        HostFault::Memory
    }
}

/// Why a script is refused.
#[derive(Clone, Copy, Debug, PartialEq, Eq, Error)]
pub enum ScriptFault {
    /// An answer is not well-formed, or a step of a leg has two.
    #[error("BadScript")]
    BadScript,
    /// There is no memory.
    #[error("Memory")]
    Memory,
}

impl<T: Drop> From<AllocFailed<T>> for ScriptFault {
    ghost use Rattle.step_host.specs.declared.fault.ScriptFault.TheVariants.{Memory};

    ghost from_gives = { λ _ e. e ≡ Memory };

    fn from(_error: AllocFailed<T>) -> ScriptFault {
        ScriptFault::Memory
    }
}
