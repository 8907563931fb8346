//! What a worker is told that begins a step, and the call that it then holds.

ghost use Rattle.std.specs.Prelude.{◌≡◌};

use flow_model::{StepCall, ValueFault};

/// What keeps a call from being let go.
struct Owed {}

/// The call of a step that this worker began. It must be spent: by `end`, with an answer, or by `abandon`.
pub struct Held {
    pub call: StepCall,
    owed: Owed,
}

impl Held {
    /// A call that is held.
    pub(crate) fn new(call: StepCall) -> Held
        ensures { result.call ≡ call }
    {
        let owed = Owed {};
        Held { call, owed }
    }

    /// Lets the call go.
    pub(crate) fn spend(self) {
        let Held { call: _, owed } = self;
        let Owed {} = owed;
    }
}

/// What became of a step that a worker began.
pub enum Begun {
    /// It is to be played.
    Call(Held),
    /// It was skipped.
    Skipped,
    /// It failed, since one of its texts has no value.
    Faulted(ValueFault),
}
