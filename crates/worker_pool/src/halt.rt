//! Why a worker goes no further.

ghost use Rattle.std.specs.Prelude.{◌≡◌};
ghost use Rattle.worker_pool.specs.Log.{halt_of};

use flow_model::StepCall;
use locked_board::PostFault;
use std::alloc::{AllocError, AllocFailed};

/// Why a worker goes no further.
#[derive(Drop)]
pub(crate) enum Halt {
    /// The host declined this call, in which its leg stays.
    Declined(StepCall),
    /// The board refused what it has to accept.
    Refused,
    /// There is no memory.
    Memory,
}

impl Halt {
    /// Why a worker goes no further whose event is refused.
    pub(crate) fn of(fault: PostFault) -> Halt
        ensures { result ≡ halt_of fault }
    {
        match fault {
            PostFault::Event(_) => Halt::Refused,
            PostFault::Memory => Halt::Memory,
        }
    }
}

impl From<AllocError> for Halt {
    ghost use Rattle.std.specs.Prelude.{◌≡◌};
    ghost use Rattle.worker_pool.specs.declared.halt.Halt.TheVariants.{Memory};

    ghost from_gives = { λ _ e. e ≡ Memory };

    fn from(_: AllocError) -> Halt {
        Halt::Memory
    }
}

impl<T: Drop> From<AllocFailed<T>> for Halt {
    ghost use Rattle.std.specs.Prelude.{◌≡◌};
    ghost use Rattle.worker_pool.specs.declared.halt.Halt.TheVariants.{Memory};

    ghost from_gives = { λ _ e. e ≡ Memory };

    fn from(_: AllocFailed<T>) -> Halt {
        Halt::Memory
    }
}
