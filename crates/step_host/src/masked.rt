//! A host whose answers are masked.

ghost use Rattle.std.specs.Prelude.{◌≡◌, ◌↔◌, IfOk};
ghost use Rattle.flow_model.specs.Mapping.{map_values};
ghost use Rattle.flow_model.specs.declared.event.Answer.{Answer};
ghost use Rattle.flow_model.specs.declared.reply.StepCall.{StepCall};
ghost use Rattle.flow_commands.specs.Mask.{masked};
ghost use Rattle.step_host.specs.Masked.{IsMasked, IsMasked-one, IsMasked-well_formed, TellsMasked, checked as checked_of, masked_answer as masked_answer_of};
ghost use Rattle.step_host.specs.Watch.{given};

use crate::fault::HostFault;
use crate::host::{DecidedHost, StepHost, WatchedHost};
use crate::watch::{Nobody, Refusal, Watch, answered};
use flow_commands::{Masks, mask};
use flow_model::{Answer, Mapping, StepCall, Text};
use std::alloc::{AllocError, Global};

/// The host that gives the answers of another with the values of their outputs and variables masked.
#[derive(Drop)]
pub struct Masked<H> {
    host: H,
    masks: Masks,
    alloc: Global,
}

impl<H: StepHost> Masked<H> {
    /// The host that admits the masked forms of what this one admits: the values of outputs and of variables are masked,
    /// and where the answer is no longer well-formed then, `Answer::BadOutput` stands for it. It declines what this one
    /// does. It keeps the allocator, and takes no memory.
    pub fn new(alloc: Global, host: H, masks: Masks) -> Masked<H>
        ensures admits { (call : StepCall) (answer : Answer)
            → ⟦<Masked<H> as StepHost>⟧.admits result call answer
            ↔ IsMasked masks (H.admits host call) answer }
        ensures declines { (call : StepCall)
            → ⟦<Masked<H> as StepHost>⟧.declines result call ↔ H.declines host call }
        ensures host { result.host ≡ host }
        ensures masks { result.masks ≡ masks }
    {
        Masked { host, masks, alloc }
    }
}

/// The pairs, with their values masked.
fn masked_values(
    alloc: Global,
    pairs: &Mapping<Text>,
    masks: &Masks,
) -> Result<Mapping<Text>, AllocError>
    ensures { IfOk result (λ made. made ≡ map_values (masked masks.now) pairs.now) }
{
    let from = pairs.iter();
    let mut made = Mapping::empty(alloc);
    for (name, value) in from {
        made.set(alloc, name.as_str(), mask(alloc, value.as_str(), masks)?)?;
    }
    Ok(made)
}

/// The answer, if it may end a call; else what it gives is bad.
fn checked(answer: Answer) -> Result<Answer, Refusal>
    ensures answer { given result ≡ checked_of answer }
    ensures told { TellsMasked answer result }
{
    if answer.well_formed() {
        Ok(answer)
    } else {
        Err(Refusal::Masked)
    }
}

/// The masked form of an answer, or why it is bad output, where the answer was not.
#[tactic(auto, using(crate::proofs::MaskedExits::told_of_exit))]
fn masked_answer(
    alloc: Global,
    answer: Answer,
    masks: &Masks,
) -> Result<Result<Answer, Refusal>, AllocError>
    ensures answer { IfOk result (λ made. given made ≡ masked_answer_of masks.now answer) }
    ensures told { IfOk result (λ made. TellsMasked answer made) }
{
    match answer {
        Answer::Exit { code, outputs, env } => {
            let outputs = masked_values(alloc, &outputs, masks)?;
            let env = masked_values(alloc, &env, masks)?;
            Ok(checked(Answer::Exit { code, outputs, env }))
        },
        Answer::NotStarted => Ok(Ok(Answer::NotStarted)),
        Answer::BadOutput => Ok(Ok(Answer::BadOutput)),
    }
}

impl<H> Masked<H> {
    /// The masked form of an answer to a call. Where masking makes it bad output, somebody is told.
    fn masks_answer<W: Watch>(
        &self,
        call: &StepCall,
        answer: Answer,
        watch: &W,
    ) -> Result<Answer, AllocError>
        ensures { IfOk result (λ made. made ≡ masked_answer_of self.now.masks answer) }
    {
        let masked = masked_answer(self.alloc, answer, &self.masks)?;
        Ok(answered(call, masked, watch))
    }
}

impl<H: StepHost> StepHost for Masked<H> {
    ghost admits = { λ host call. IsMasked host.masks (H.admits host.host call) };

    ghost declines = { λ host call. H.declines host.host call };

    fn play(&self, call: &StepCall) -> Result<Answer, HostFault> {
        let answer = self.host.play(call)?;
        Ok(self.masks_answer(call, answer, &Nobody)?)
    }

    ghost admits_well_formed = { λ host call answer.
        IsMasked-well_formed host.masks (H.admits host.host call) answer };
}

impl<H: WatchedHost> WatchedHost for Masked<H> {
    fn play_watched<W: Watch>(&self, call: &StepCall, watch: &W) -> Result<Answer, HostFault> {
        let answer = self.host.play_watched(call, watch)?;
        Ok(self.masks_answer(call, answer, watch)?)
    }
}

impl<H: DecidedHost> DecidedHost for Masked<H> {
    ghost admits_one = { λ host call.
        IsMasked-one host.masks (H.admits host.host call) (H.admits_one host.host call) };
}
