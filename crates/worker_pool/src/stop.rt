//! Why a play goes no further, apart from what was played.

ghost use Rattle.std.specs.Prelude.{◌≡◌};
ghost use Rattle.status_table.specs.declared.fault.EventFault.TheVariants as event_fault;
ghost use Rattle.worker_pool.specs.PoolStop.{fault_after};

use crate::fault::PoolFault;
use flow_model::{Entry, Sequence};
use status_table::EventFault;
use std::alloc::{AllocError, AllocFailed};
use step_host::HostFault;

/// Why a play goes no further.
#[derive(Clone, Copy)]
pub(crate) enum PoolStop {
    /// The host declined the call of a leg's step.
    NoAnswer { leg: u64, step: u64 },
    /// The next entry is not what the table and the host say.
    Mismatch,
    /// There is no memory.
    Memory,
}

impl PoolStop {
    /// Why a play goes no further where an entry is refused that the table accepts: there is no memory.
    pub(crate) fn of_accepted(fault: EventFault) -> PoolStop
        requires { fault ≡ event_fault.Memory }
        ensures { result ≡ PoolStop.Memory }
    {
        let wants_memory = fault.is_memory();
        prove!(wants_memory);
        PoolStop::Memory
    }

    /// The fault, with what was played.
    pub(crate) fn after(self, history: Vec<Entry>) -> PoolFault
        ensures { result ≡ fault_after self history.items }
    {
        let history = Sequence::new(history);
        match self {
            PoolStop::NoAnswer { leg, step } => PoolFault::Host {
                leg,
                step,
                fault: HostFault::NoAnswer,
                history,
            },
            PoolStop::Mismatch => PoolFault::Mismatch { history },
            PoolStop::Memory => PoolFault::Memory { history },
        }
    }
}

impl From<AllocError> for PoolStop {
    ghost use Rattle.std.specs.Prelude.{◌≡◌};
    ghost use Rattle.worker_pool.specs.declared.stop.PoolStop.TheVariants.{Memory};

    ghost from_gives = { λ _ e. e ≡ Memory };

    fn from(_: AllocError) -> PoolStop {
        PoolStop::Memory
    }
}

impl<T: Drop> From<AllocFailed<T>> for PoolStop {
    ghost use Rattle.std.specs.Prelude.{◌≡◌};
    ghost use Rattle.worker_pool.specs.declared.stop.PoolStop.TheVariants.{Memory};

    ghost from_gives = { λ _ e. e ≡ Memory };

    fn from(_: AllocFailed<T>) -> PoolStop {
        PoolStop::Memory
    }
}
