//! The calls that are open, each of another leg.

ghost use Rattle.std.specs.Prelude.{◌≡◌, ◌≤◌, ◌<◌, ◌↔◌, IsTrue, Some, vec_len, vec_capacity};
ghost use Rattle.locked_board.specs.OpenCalls.{call_of, with_call, without};

use crate::same::is_same_call;
use flow_model::StepCall;

/// Whether a call is among those that are open.
pub(crate) fn is_open(calls: &[StepCall], call: &StepCall) -> bool
    ensures { IsTrue result ↔ (call_of call.now.leg calls.now ≡ Some call.now) }
{
    for open in calls {
        if open.leg == call.leg {
            return is_same_call(open, call);
        }
    }
    false
}

/// Takes out the call of a leg.
pub(crate) fn forget(calls: &mut Vec<StepCall>, leg: u64)
    ensures left { calls.new.items ≡ without leg calls.old.items }
    ensures fewer { vec_len calls.new ≤ vec_len calls.old }
    ensures room { vec_capacity calls.new ≡ vec_capacity calls.old }
{
    calls.retain(|call| call.leg != leg);
}

/// Puts what was begun of a leg in the place of its call. There is room for it.
pub(crate) fn replace(calls: &mut Vec<StepCall>, leg: u64, call: Option<StepCall>)
    requires { vec_len calls.old < vec_capacity calls.old }
    ensures { calls.new.items ≡ with_call (without leg calls.old.items) call }
{
    forget(calls, leg);
    if let Some(call) = call {
        calls.push(call).unwrap();
    }
}
