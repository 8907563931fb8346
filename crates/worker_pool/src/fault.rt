//! Why a play stopped before its end.

ghost use Rattle.std.specs.Prelude.{◌≡◌};
ghost use Rattle.worker_pool.specs.Fault.{pool_fault_name};

use flow_model::{Entry, Sequence};
use std::fmt;
use std::fmt::Display;
use step_host::HostFault;

/// Why a play stopped before its end. All but the first carry what was played until then.
#[derive(Drop)]
pub enum PoolFault {
    /// There are not so many workers.
    Workers,
    /// The host gave no answer to the call of a leg's step.
    Host {
        leg: u64,
        step: u64,
        fault: HostFault,
        history: Sequence<Entry>,
    },
    /// The next entry is refused by the table, or has another answer than the host's.
    Mismatch {
        history: Sequence<Entry>,
    },
    /// There is no memory.
    Memory {
        history: Sequence<Entry>,
    },
}

impl PoolFault {
    /// The fault's name, as it is printed.
    pub fn name(&self) -> &'static str
        ensures { result.now ≡ pool_fault_name self.now }
    {
        match self {
            PoolFault::Workers => "Workers",
            PoolFault::Host { .. } => "Host",
            PoolFault::Mismatch { .. } => "Mismatch",
            PoolFault::Memory { .. } => "Memory",
        }
    }
}

impl Display for PoolFault {
    ghost use Rattle.std.specs.Prelude.{Some};
    ghost use Rattle.worker_pool.specs.Fault.{pool_fault_name};

    ghost output = { λ fault. Some (pool_fault_name fault) };

    fn fmt<W: fmt::Write>(&self, f: &mut fmt::Formatter<W>) -> fmt::Result {
        f.write_str(self.name())
    }
}
