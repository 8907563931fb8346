//! What the board answers to an event that it accepts.

ghost use Rattle.std.specs.Prelude.{◌≡◌};
ghost use Rattle.flow_model.specs.Faults.{value_fault_name};

use crate::duplicate::{Copies, Duplicate};
use crate::event::Member;
use crate::mapping::Mapping;
use crate::plan::Shell;
use crate::text::Text;
use std::alloc::{AllocError, AllocFailed, Global};
use std::fmt;
use std::fmt::Display;
use thiserror::Error;

/// Why a text could not be evaluated.
#[derive(Clone, Copy, Debug, Error)]
pub enum ValueFault {
    /// A number is no whole number, or out of range.
    NotWhole,
    /// Lists or maps were compared for identity.
    NoIdentity,
    /// A format has a brace that fits none of its forms.
    BadFormat,
    /// A text is no JSON.
    BadJson,
    /// A text has more than 1,048,576 bytes.
    TooLarge,
    /// There is no memory.
    Memory,
}

/// The pattern of all value faults but `Memory`.
#[macro_export]
macro_rules! faulted {
    () => {
        $crate::ValueFault::NotWhole
            | $crate::ValueFault::NoIdentity
            | $crate::ValueFault::BadFormat
            | $crate::ValueFault::BadJson
            | $crate::ValueFault::TooLarge
    };
}

impl ValueFault {
    /// The fault's name, as it is printed.
    pub fn name(self) -> &'static str
        ensures { result.now ≡ value_fault_name self }
    {
        match self {
            ValueFault::NotWhole => "NotWhole",
            ValueFault::NoIdentity => "NoIdentity",
            ValueFault::BadFormat => "BadFormat",
            ValueFault::BadJson => "BadJson",
            ValueFault::TooLarge => "TooLarge",
            ValueFault::Memory => "Memory",
        }
    }
}

impl Display for ValueFault {
    ghost use Rattle.std.specs.Prelude.{Some};
    ghost use Rattle.flow_model.specs.Faults.{value_fault_name};

    ghost output = { λ fault. Some (value_fault_name fault) };

    fn fmt<W: fmt::Write>(&self, f: &mut fmt::Formatter<W>) -> fmt::Result {
        f.write_str(self.name())
    }
}

impl From<AllocError> for ValueFault {
    ghost use Rattle.flow_model.specs.declared.reply.ValueFault.TheVariants.{Memory};

    ghost from_gives = { λ _ e. e ≡ Memory };

    fn from(_: AllocError) -> ValueFault {
        ValueFault::Memory
    }
}

impl<T: Drop> From<AllocFailed<T>> for ValueFault {
    ghost use Rattle.flow_model.specs.declared.reply.ValueFault.TheVariants.{Memory};

    ghost from_gives = { λ _ e. e ≡ Memory };

    fn from(_: AllocFailed<T>) -> ValueFault {
        ValueFault::Memory
    }
}

/// A step that is to be played, with its texts evaluated.
#[derive(Drop)]
pub struct StepCall {
    pub leg: u64,
    /// Its place in the job, from 0.
    pub step: u64,
    pub work: CallWork,
    pub env: Mapping<Text>,
}

/// What a call asks for.
#[derive(Drop)]
pub enum CallWork {
    Script {
        text: Text,
        shell: Shell,
        dir: Option<Text>,
    },
    Uses {
        uses: Text,
        given: Mapping<Text>,
    },
}

/// What an event did, beside its change of the board.
#[derive(Drop)]
pub enum What {
    /// No step began.
    Moved,
    /// A step is to be played.
    Call(StepCall),
    /// A step was skipped.
    Skipped,
    /// A step failed, since one of its texts has no value.
    Faulted(ValueFault),
}

/// The answer to an event that was accepted.
#[derive(Drop)]
pub struct Reply {
    pub what: What,
    /// The run or leg that became going or admitted by the event.
    pub admitted: Option<Member>,
    /// The waiter that lost its place.
    pub displaced: Option<Member>,
    /// The holder that was told to stop.
    pub stopped: Option<Member>,
}

impl Duplicate for StepCall {
    fn copy(&self, alloc: Global) -> Result<StepCall, AllocError> {
        let (work, env) = (&self.work, &self.env).copies(alloc)?;
        Ok(StepCall {
            leg: self.leg,
            step: self.step,
            work,
            env,
        })
    }
}

impl Duplicate for CallWork {
    fn copy(&self, alloc: Global) -> Result<CallWork, AllocError> {
        match self {
            CallWork::Script { text, shell, dir } => {
                let (text, dir) = (text, dir).copies(alloc)?;
                Ok(CallWork::Script {
                    text,
                    shell: *shell,
                    dir,
                })
            },
            CallWork::Uses { uses, given } => {
                let (uses, given) = (uses, given).copies(alloc)?;
                Ok(CallWork::Uses { uses, given })
            },
        }
    }
}

impl Duplicate for What {
    fn copy(&self, alloc: Global) -> Result<What, AllocError> {
        match self {
            What::Moved => Ok(What::Moved),
            What::Call(call) => Ok(What::Call(call.copy(alloc)?)),
            What::Skipped => Ok(What::Skipped),
            What::Faulted(fault) => Ok(What::Faulted(*fault)),
        }
    }
}

impl Duplicate for Reply {
    fn copy(&self, alloc: Global) -> Result<Reply, AllocError> {
        let what = self.what.copy(alloc)?;
        Ok(Reply {
            what,
            admitted: self.admitted,
            displaced: self.displaced,
            stopped: self.stopped,
        })
    }
}
