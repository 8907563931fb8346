//! A host that somebody watches.

ghost use Rattle.std.specs.Prelude.{◌≡◌, ◌↔◌};
ghost use Rattle.flow_model.specs.declared.event.Answer.{Answer};
ghost use Rattle.flow_model.specs.declared.reply.StepCall.{StepCall};

use crate::fault::HostFault;
use crate::host::{StepHost, WatchedHost};
use crate::watch::Watch;
use flow_model::{Answer, StepCall};

/// The host that gives the answers of another, of whose steps somebody is told.
#[derive(Drop)]
pub struct Watched<H, W> {
    host: H,
    watch: W,
}

impl<H: WatchedHost, W: Watch + Sync> Watched<H, W> {
    /// The host that admits and declines what this one does, and tells of its steps.
    pub fn new(host: H, watch: W) -> Watched<H, W>
        ensures admits { (call : StepCall) (answer : Answer)
            → ⟦<Watched<H, W> as StepHost>⟧.admits result call answer
            ↔ H.admits host call answer }
        ensures declines { (call : StepCall)
            → ⟦<Watched<H, W> as StepHost>⟧.declines result call ↔ H.declines host call }
        ensures host { result.host ≡ host }
    {
        Watched { host, watch }
    }
}

impl<H: WatchedHost, W: Watch + Sync> StepHost for Watched<H, W> {
    ghost admits = { λ host call. H.admits host.host call };

    ghost declines = { λ host call. H.declines host.host call };

    fn play(&self, call: &StepCall) -> Result<Answer, HostFault> {
        let moment = self.watch.called();
        let answer = self.host.play_watched(call, &self.watch)?;
        self.watch.ended(call, &answer, moment);
        Ok(answer)
    }

    ghost admits_well_formed = { λ host call answer. H.admits_well_formed host.host call answer };
}
