//! What a host gives to the call of a leg.

ghost use Rattle.worker_pool.specs.Asking.{Gives};

use crate::stop::PoolStop;
use flow_model::{Answer, StepCall};
use step_host::{HostFault, StepHost};

/// Has the host play the call that a leg is in.
pub(crate) fn ask<H: StepHost>(host: &H, leg: u64, call: &StepCall) -> Result<Answer, PoolStop>
    ensures { Gives (H.admits host.now call.now) (H.declines host.now call.now)
        leg call.now.step result }
{
    match host.play(call) {
        Ok(answer) => Ok(answer),
        Err(HostFault::NoAnswer) => {
            let step = call.step;
            Err(PoolStop::NoAnswer { leg, step })
        },
        Err(HostFault::Memory) => Err(PoolStop::Memory),
    }
}
