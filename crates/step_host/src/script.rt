//! Hosts that answer from a list.

ghost use Rattle.std.specs.Prelude.{IfOk};
ghost use Rattle.flow_model.specs.declared.event.Answer.{Answer};
ghost use Rattle.step_host.specs.Host.{DeclinesUnanswered};
ghost use Rattle.step_host.specs.Entries.{AreWellFormed, IsKept, Keeps, kept_one};
ghost use Rattle.step_host.specs.Script.{MakesScript};

use crate::fault::{HostFault, ScriptFault};
use crate::host::{DecidedHost, StepHost};
use flow_model::{Answer, Duplicate, StepCall};
use std::alloc::Global;
use std::collections::BTreeMap;

/// The host of a script: an answer for each of some steps, by the numbers of the leg and of the step in its job. It
/// looks at these two of a call alone.
#[derive(Drop)]
pub struct ScriptHost {
    answers: BTreeMap<(u64, u64), Answer>,
    alloc: Global,
    ghost sound: { AreWellFormed answers.entries },
}

impl ScriptHost {
    /// The host that admits the listed answers, each after the numbers of its leg and its step, and no others. It declines
    /// only calls for which it admits none. It keeps the allocator.
    ///
    /// # Errors
    ///
    /// `ScriptFault::BadScript` where an answer is not well-formed or a step of a leg has two, and
    /// `ScriptFault::Memory`.
    pub fn new(alloc: Global, lines: Vec<(u64, u64, Answer)>) -> Result<ScriptHost, ScriptFault>
        ensures makes { MakesScript ⟦<ScriptHost as StepHost>⟧.admits lines.items result }
        ensures declines { IfOk result (λ host. DeclinesUnanswered
            (⟦<ScriptHost as StepHost>⟧.admits host) (⟦<ScriptHost as StepHost>⟧.declines host)) }
    {
        let mut answers = BTreeMap::new(alloc);
        for line in lines {
            if let Err(fault) = keep(&mut answers, line) {
                return Err(fault);
            }
        }
        Ok(ScriptHost { answers, alloc })
    }
}

/// Keeps the answer of a line for the step that it is listed for.
///
/// # Errors
///
/// `ScriptFault::BadScript` where it is not well-formed or the step has one, and `ScriptFault::Memory`.
fn keep(
    answers: &mut BTreeMap<(u64, u64), Answer>,
    line: (u64, u64, Answer),
) -> Result<(), ScriptFault>
    ensures { Keeps answers.old.entries line result answers.new.entries }
{
    let (leg, step, answer) = line;
    if !answer.well_formed() || answers.contains_key(&(leg, step)) {
        return Err(ScriptFault::BadScript);
    }
    drop(answers.insert((leg, step), answer)?);
    Ok(())
}

impl StepHost for ScriptHost {
    ghost admits = { λ host. IsKept host.answers.entries };

    ghost declines = { λ host call. (answer : Answer) → IsKept host.answers.entries call answer → ⊥ };

    fn play(&self, call: &StepCall) -> Result<Answer, HostFault> {
        match self.answers.get(&(call.leg, call.step)) {
            Some(answer) => Ok(answer.copy(self.alloc)?),
            None => Err(HostFault::NoAnswer),
        }
    }

    ghost admits_well_formed = { λ host call. host.sound (call.leg, call.step) };
}

impl DecidedHost for ScriptHost {
    ghost admits_one = { λ host. kept_one host.answers.entries };
}
