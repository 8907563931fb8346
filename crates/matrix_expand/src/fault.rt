//! Why a matrix has no combinations.

ghost use Rattle.std.specs.Prelude.{◌≡◌};
ghost use Rattle.matrix_expand.specs.Faults.{matrix_fault_name};

use std::alloc::{AllocError, AllocFailed};
use std::fmt;
use thiserror::Error;

/// Why a matrix has no combinations.
#[derive(Clone, Copy, Debug, Error)]
pub enum MatrixFault {
    /// A variable has no value.
    EmptyVariable,
    /// There is no combination.
    NoCombination,
    /// There are more than 256 combinations, or more than 65,536 before any is taken out.
    TooMany,
    /// There is no memory.
    Memory,
}

impl MatrixFault {
    /// The fault's name, as it is printed.
    pub fn name(self) -> &'static str
        ensures { result.now ≡ matrix_fault_name self }
    {
        match self {
            MatrixFault::EmptyVariable => "EmptyVariable",
            MatrixFault::NoCombination => "NoCombination",
            MatrixFault::TooMany => "TooMany",
            MatrixFault::Memory => "Memory",
        }
    }
}

/// The name.
impl fmt::Display for MatrixFault {
    fn fmt<W: fmt::Write>(&self, f: &mut fmt::Formatter<W>) -> fmt::Result {
        f.write_str(self.name())
    }
}

impl From<AllocError> for MatrixFault {
    ghost use Rattle.matrix_expand.specs.declared.fault.MatrixFault.TheVariants.{Memory};

    ghost from_gives = { λ _ e. e ≡ Memory };

    fn from(_: AllocError) -> MatrixFault {
        MatrixFault::Memory
    }
}
