//! Why a file of outputs or of variables is refused.

ghost use Rattle.std.specs.Prelude.{◌≡◌};
ghost use Rattle.flow_commands.specs.OutputFaults.{output_fault_name};

use std::alloc::AllocError;
use thiserror::Error;

/// Why a file of outputs or of variables is refused. Where several apply, the first of this list does.
#[derive(Clone, Copy, Debug, PartialEq, Eq, Error)]
pub enum OutputFault {
    /// It is not UTF-8.
    #[error("NotUtf8")]
    NotUtf8,
    /// A line is neither `name=value` nor `name<<delimiter`, its name is empty, or its delimiter is; or an output's name
    /// has anything but letters, digits, `_` and `-`, or a variable's name or value has a zero byte.
    #[error("NoName")]
    NoName,
    /// A block is not ended by its delimiter.
    #[error("OpenBlock")]
    OpenBlock,
    /// There are more pairs than 256, or a name or a value is longer than an answer's may be.
    #[error("TooMany")]
    TooMany,
    /// There is no memory.
    #[error("Memory")]
    Memory,
}

impl OutputFault {
    /// The fault's name, as it is printed.
    pub fn name(self) -> &'static str
        ensures { result.now ≡ output_fault_name self }
    {
        match self {
            OutputFault::NotUtf8 => "NotUtf8",
            OutputFault::NoName => "NoName",
            OutputFault::OpenBlock => "OpenBlock",
            OutputFault::TooMany => "TooMany",
            OutputFault::Memory => "Memory",
        }
    }
}

impl From<AllocError> for OutputFault {
    ghost use Rattle.flow_commands.specs.declared.output_fault.OutputFault.TheVariants.{Memory};

    ghost from_gives = { λ _ e. e ≡ Memory };

    fn from(_: AllocError) -> OutputFault {
        OutputFault::Memory
    }
}
