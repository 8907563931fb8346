//! What every host of steps promises.

ghost use Rattle.std.specs.Prelude.{◌≡◌, true};
ghost use Rattle.flow_model.specs.Answer.{is_well_formed};
ghost use Rattle.flow_model.specs.declared.event.Answer.{Answer};
ghost use Rattle.flow_model.specs.declared.reply.StepCall.{StepCall};
ghost use Rattle.step_host.specs.Host.{Responds};

use crate::fault::HostFault;
use crate::watch::Watch;
use flow_model::{Answer, StepCall};

/// What plays a step and says what became of it. A host keeps its allocator, and may be asked by several threads at once.
pub trait StepHost: Sync {
    /// Which answers it admits for a call.
    ghost admits: { Self → StepCall → Answer → Type 0 };

    /// For which calls it may have no answer.
    ghost declines: { Self → StepCall → Type 0 };

    /// Plays the step that a call asks for. The answer is one that the host admits.
    ///
    /// # Errors
    ///
    /// `HostFault::NoAnswer` only for a call that the host may decline, and `HostFault::Memory`.
    fn play(&self, call: &StepCall) -> Result<Answer, HostFault>
        ensures { Responds (admits self.now call.now) (declines self.now call.now) result };

    /// An admitted answer is well-formed.
    ghost admits_well_formed: { (host : Self) (call : StepCall) (answer : Answer)
        → admits host call answer → is_well_formed answer ≡ true };
}

/// A host that tells of a step while it plays it.
pub trait WatchedHost: StepHost {
    /// Plays the step that a call asks for, as `play` does, and tells whether a program was started for it.
    ///
    /// # Errors
    ///
    /// Those of `play`.
    fn play_watched<W: Watch>(&self, call: &StepCall, watch: &W) -> Result<Answer, HostFault>
        ensures { Responds (Self.admits self.now call.now) (Self.declines self.now call.now) result };
}

/// A host for whose calls the answer is decided.
pub trait DecidedHost: StepHost {
    /// A call admits one answer at most.
    ghost admits_one: { (host : Self) (call : StepCall) (one other : Answer)
        → Self.admits host call one → Self.admits host call other → one ≡ other };
}
