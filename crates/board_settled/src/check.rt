//! Whether a board is all of what is settled.

ghost use Rattle.std.specs.Prelude.{◌↔◌, IfOk, IsTrue};
ghost use Rattle.board_settled.specs.Words.{ByAnswers, InPlay, IsQuiet, IsSettled, settled};

use crate::quiet::quiet_board;
use crate::run::is_run_settled;
use board_decisions::place::find_run;
use flow_model::laws::rules_hold;
use flow_model::{Board, CheckedPlan, Plan};
use std::alloc::{AllocError, Global};
use step_host::StepHost;

/// Whether each run of a board is Closed as settled, where nothing is told to stop.
fn are_runs_settled<H: StepHost>(
    alloc: Global,
    host: &H,
    plan: &Plan,
    board: &Board,
) -> Result<bool, AllocError>
    requires { IsQuiet plan.now board.now }
    ensures { IfOk result (λ yes. ByAnswers (H.admits host.now) (H.declines host.now)
        (λ answers. IsTrue yes ↔ IsSettled (settled plan.now answers) board.now)) }
{
    let mut first = 0;
    for number in 0..board.runs.len() {
        let Some(run) = find_run(plan, board, number) else {
            return Err(AllocError);
        };
        match is_run_settled(alloc, host, number, first, &run)? {
            Some(next) => first = next,
            None => return Ok(false),
        }
    }
    Ok(true)
}

/// Whether a board is all of what is settled of its plan by the answers of a host: each run Closed, each job judged and
/// each leg Ended as settled, with all its steps and outputs. The legs of a job that was not opened are not looked at,
/// nor what was told to stop, nor the order of the ends.
///
/// # Errors
///
/// `AllocError`.
pub fn is_settled<H: StepHost>(
    alloc: Global,
    plan: &CheckedPlan,
    board: &Board,
    host: &H,
) -> Result<bool, AllocError>
    requires { InPlay plan.now board.now }
    ensures { IfOk result (λ yes. ByAnswers (H.admits host.now) (H.declines host.now)
        (λ answers. IsTrue yes ↔ IsSettled (settled plan.now answers) board.now)) }
{
    rules_hold();
    let quiet = quiet_board(alloc, board)?;
    are_runs_settled(alloc, host, plan.plan(), &quiet)
}
