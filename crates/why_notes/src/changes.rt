//! What an entry makes so, where it is accepted.
//!
//! Each function adds to a list what one event makes so on the board before it.

ghost use Rattle.std.specs.Prelude.{◌≡◌, ◌∷◌, [], Bool, IfOk, OnOk, Option, Result, Some};
ghost use Rattle.board_decisions.specs.Decisions as decisions;
ghost use Rattle.board_decisions.specs.Derived as derived;
ghost use Rattle.board_decisions.specs.Place.{job_at, leg_at, run_at};
ghost use Rattle.board_decisions.specs.Seen.{job_seen, leg_seen};
ghost use Rattle.board_decisions.specs.Ancestors.{StandsAfterNeeds};
ghost use Rattle.board_decisions.specs.declared.entrance.Entrance.{Entrance as EntranceOf};
ghost use Rattle.why_facts.specs.Adds.{Adds};
ghost use Rattle.why_notes.specs.Changes as spec;
ghost use Rattle.why_notes.specs.Conditions as causes;
ghost use Rattle.expr_value.specs.Answer.{Gives};
ghost use Rattle.flat_board.specs.Index.{AsksNamed};
ghost use Rattle.flat_board.specs.Names.{IsName};
ghost use Rattle.flow_model.specs.declared.reply.StepCall.{StepCall as StepCallOf};
ghost use Rattle.flow_model.specs.declared.reply.ValueFault.{ValueFault as ValueFaultOf};
ghost use Rattle.status_table.specs.Groups as groups;
ghost use Rattle.status_table.specs.InPlay.{InPlay};
ghost use Rattle.status_table.specs.Row as row;

use crate::conditions::waits_in_vain;
use crate::texts::{faulted_text, leg_status};
use board_decisions::ancestors::job_status;
use board_decisions::decisions::{
    is_stopping, job_condition, leg_entrance, leg_result, run_entrance, step_decision,
};
use board_decisions::derived::run_result;
use board_decisions::entrance::{Entrance, Entrant};
use board_decisions::place::{SeenJob, SeenLeg, find_job, find_leg, find_run, item_at};
use expr_value::Status;
use flat_board::FlatBoard;
use flow_model::{
    Answer, Board, Event, Member, Outcome, Plan, Run, RunState, StepCall, StepPlan, ValueFault,
    faulted,
};
use status_table::groups::is_own;
use std::alloc::{AllocError, Global};
use why_facts::fact::{Change, JobFact, MemberFact, StepFact, Teller};
use why_facts::failures::first_failure;
use why_facts::queueing::{add_fact, add_queued};
use why_facts::stopping::cause_of_stop;

// ---- Open and Ask

/// Adds what a member makes so that enters a group which somebody holds.
fn add_held(
    out: &mut Vec<Change>,
    table: &FlatBoard,
    entrant: Entrant,
    group: &Entrance,
    holds: Member,
) -> Result<(), AllocError>
    requires { IsName group.now.name }
    ensures { OnOk result (Adds out.old.items out.new.items
        (spec.enters_held entrant.who entrant.own group.now (Some holds)
        (groups.waiter table.now.board group.now.name))) }
{
    if is_own(entrant.own, holds) {
        return add_fact(out, entrant.who, MemberFact::OwnRun);
    }
    let waited = table.waiter(group.name.as_str());
    add_queued(out, entrant.who, group, holds, waited)
}

/// Adds what a member makes so that enters a group.
fn add_grouped(
    out: &mut Vec<Change>,
    table: &FlatBoard,
    entrant: Entrant,
    group: &Entrance,
) -> Result<(), AllocError>
    requires { IsName group.now.name }
    ensures { OnOk result (Adds out.old.items out.new.items
        (spec.enters table.now.board entrant.who entrant.own (Some group.now))) }
{
    match table.holder(group.name.as_str()) {
        Some(holds) => add_held(out, table, entrant, group, holds),
        None => add_fact(out, entrant.who, MemberFact::Admitted),
    }
}

/// Adds what a member makes so that enters a group, or none; the text of the group may have no value.
fn add_entered(
    out: &mut Vec<Change>,
    table: &FlatBoard,
    entrant: Entrant,
    group: Result<Option<Entrance>, ValueFault>,
) -> Result<(), AllocError>
    requires { AsksNamed group }
    ensures { (meant : Result (Option EntranceOf) ValueFaultOf) → Gives (λ group. group) group meant
        → OnOk result (Adds out.old.items out.new.items
        (spec.enters_by table.now.board entrant.who entrant.own meant)) }
{
    let who = entrant.who;
    match group {
        Ok(Some(group)) => add_grouped(out, table, entrant, &group),
        Ok(None) => add_fact(out, who, MemberFact::Admitted),
        Err(ValueFault::Memory) => Err(AllocError),
        Err(fault @ faulted!()) => add_fact(out, who, MemberFact::NoGroup(fault)),
    }
}

fn add_open(
    alloc: Global,
    out: &mut Vec<Change>,
    plan: &Plan,
    table: &FlatBoard,
    number: u64,
) -> Result<(), AllocError>
    ensures { OnOk result (Adds out.old.items out.new.items
        (spec.opens table.now.board number (run_at plan.now table.now.board number))) }
{
    match find_run(plan, table.board(), number as usize) {
        Some(at) => {
            let group = run_entrance(alloc, &at);
            let entrant = Entrant {
                who: Member::Run(number),
                own: None,
            };
            add_entered(out, table, entrant, group)
        },
        None => Ok(()),
    }
}

fn add_ask(
    alloc: Global,
    out: &mut Vec<Change>,
    plan: &Plan,
    table: &FlatBoard,
    number: u64,
) -> Result<(), AllocError>
    ensures { OnOk result (Adds out.old.items out.new.items
        (spec.asks table.now.board number (leg_at plan.now table.now.board number))) }
{
    match find_leg(plan, table.board(), number as usize) {
        Some(at) => {
            let entrant = Entrant {
                who: Member::Leg(number),
                own: Some(at.place.run as u64),
            };
            let group = leg_entrance(alloc, &at);
            add_entered(out, table, entrant, group)
        },
        None => Ok(()),
    }
}

// ---- Judge

/// Why a job was not opened.
fn unopened(stop: bool, vain: bool) -> JobFact
    ensures { result ≡ spec.unopened stop vain }
{
    if stop {
        JobFact::RunStopped
    } else if vain {
        JobFact::Unsuccessful
    } else {
        JobFact::Untrue
    }
}

/// What becomes of a job by the value of its condition.
fn judged(stop: bool, vain: bool, holds: Result<bool, ValueFault>) -> Result<JobFact, AllocError>
    ensures { (meant : Result Bool ValueFaultOf) → Gives (λ holds. holds) holds meant
        → IfOk result (λ fact. fact ≡ spec.judged stop vain meant) }
{
    match holds {
        Ok(true) => Ok(JobFact::Opened),
        Ok(false) => Ok(unopened(stop, vain)),
        Err(ValueFault::Memory) => Err(AllocError),
        Err(fault @ faulted!()) => Ok(JobFact::Faulted(fault)),
    }
}

/// What becomes of a job under a status.
fn judged_under(alloc: Global, at: &SeenJob, status: Status) -> Result<JobFact, AllocError>
    ensures { IfOk result (λ fact. fact ≡ spec.judged_under (job_seen at.now) status) }
{
    let vain = waits_in_vain(alloc, &at.plan.condition, status)?;
    judged(at.run.stop, vain, job_condition(alloc, at, status))
}

/// What becomes of the job with a number.
fn judged_fact(alloc: Global, number: u64, at: &SeenJob) -> Result<JobFact, AllocError>
    requires { StandsAfterNeeds (row.first_of number (job_seen at.now)) (job_seen at.now) }
    ensures { IfOk result (λ fact. fact ≡ spec.judged_under (job_seen at.now)
        (derived.job_status (row.first_of number (job_seen at.now)) (job_seen at.now))) }
{
    let first = number.saturating_sub(at.place.job as u64);
    let status = job_status(alloc, first, at)?;
    judged_under(alloc, at, status)
}

fn add_judge(
    alloc: Global,
    out: &mut Vec<Change>,
    plan: &Plan,
    board: &Board,
    number: u64,
) -> Result<(), AllocError>
    requires { InPlay plan.now board.now }
    ensures { OnOk result (Adds out.old.items out.new.items
        (spec.judges number (job_at plan.now board.now number))) }
{
    match find_job(plan, board, number as usize) {
        Some(at) => {
            let fact = judged_fact(alloc, number, &at)?;
            out.push(Change::Job { job: number, fact })?;
            Ok(())
        },
        None => Ok(()),
    }
}

// ---- Drop, Take, Finish and Close

/// Adds that who waited goes on, since a member left, if somebody waited.
fn add_passed(out: &mut Vec<Change>, who: Member, next: Option<Member>) -> Result<(), AllocError>
    ensures { OnOk result (Adds out.old.items out.new.items (spec.passes who next)) }
{
    match next {
        Some(next) => add_fact(out, next, MemberFact::Follows(who)),
        None => Ok(()),
    }
}

#[tactic(auto, using(flat_board::proofs::Reached::leg_found_named))]
fn add_drop(
    out: &mut Vec<Change>,
    plan: &Plan,
    table: &FlatBoard,
    number: u64,
) -> Result<(), AllocError>
    ensures { OnOk result (Adds out.old.items out.new.items
        (spec.drops table.now.board number (leg_at plan.now table.now.board number))) }
{
    match find_leg(plan, table.board(), number as usize) {
        Some(at) => {
            let fact = MemberFact::Stopped(cause_of_stop(number, &at));
            add_fact(out, Member::Leg(number), fact)?;
            add_passed(out, Member::Leg(number), table.next_after_leg(at.leg))
        },
        None => Ok(()),
    }
}

/// How a leg ends whose steps are done.
fn finished(alloc: Global, number: u64, at: &SeenLeg) -> Result<MemberFact, AllocError>
    ensures { IfOk result (λ fact. fact
        ≡ spec.finished (decisions.is_stopping (leg_seen at.now)) number (leg_seen at.now)) }
{
    if is_stopping(alloc, at)? {
        return Ok(MemberFact::Stopped(cause_of_stop(number, at)));
    }
    let how = leg_result(alloc, at)?;
    Ok(MemberFact::Finished(how))
}

#[tactic(auto, using(flat_board::proofs::Reached::leg_found_named))]
fn add_finish(
    alloc: Global,
    out: &mut Vec<Change>,
    plan: &Plan,
    table: &FlatBoard,
    number: u64,
) -> Result<(), AllocError>
    ensures { OnOk result (Adds out.old.items out.new.items
        (spec.finishes table.now.board number (leg_at plan.now table.now.board number))) }
{
    match find_leg(plan, table.board(), number as usize) {
        Some(at) => {
            let fact = finished(alloc, number, &at)?;
            add_fact(out, Member::Leg(number), fact)?;
            add_passed(out, Member::Leg(number), table.next_after_leg(at.leg))
        },
        None => Ok(()),
    }
}

/// The result with which a run is closed.
fn closing(run: &Run) -> Outcome
    ensures { result ≡ spec.closing run.now.state run.now }
{
    match run.state {
        RunState::New => Outcome::Cancelled,
        RunState::Waiting => Outcome::Cancelled,
        RunState::Going => run_result(run),
        RunState::Closed(how) => how,
    }
}

#[tactic(auto, using(flat_board::proofs::Reached::run_found_named))]
fn add_close(
    out: &mut Vec<Change>,
    plan: &Plan,
    table: &FlatBoard,
    number: u64,
) -> Result<(), AllocError>
    ensures { OnOk result (Adds out.old.items out.new.items
        (spec.closes table.now.board number (run_at plan.now table.now.board number))) }
{
    match find_run(plan, table.board(), number as usize) {
        Some(at) => {
            let fact = MemberFact::Closed(closing(at.run));
            add_fact(out, Member::Run(number), fact)?;
            add_passed(out, Member::Run(number), table.next_after_run(at.run))
        },
        None => Ok(()),
    }
}

// ---- Begin and End

/// Why a step is skipped that waits in vain for success.
fn skipped_in_vain(alloc: Global, number: u64, at: &SeenLeg) -> Result<StepFact, AllocError>
    ensures { IfOk result (λ fact. fact ≡ spec.skipped_in_vain
        (decisions.is_stopping (leg_seen at.now)) number (leg_seen at.now)) }
{
    if is_stopping(alloc, at)? {
        return Ok(StepFact::Stopping(cause_of_stop(number, at)));
    }
    match first_failure(at.leg.steps.as_slice()) {
        Some(place) => Ok(StepFact::AfterFailure(place)),
        None => Ok(StepFact::Untrue),
    }
}

/// Why a step is skipped.
fn skipped(
    alloc: Global,
    number: u64,
    at: &SeenLeg,
    step: &StepPlan,
) -> Result<StepFact, AllocError>
    ensures { IfOk result (λ fact. fact ≡ spec.skipped number (leg_seen at.now) step.now) }
{
    let status = leg_status(alloc, at)?;
    if waits_in_vain(alloc, &step.condition, status)? {
        skipped_in_vain(alloc, number, at)
    } else {
        Ok(StepFact::Untrue)
    }
}

/// That a step is skipped, and why.
fn skips(alloc: Global, number: u64, at: &SeenLeg, step: &StepPlan) -> Result<Change, AllocError>
    ensures { IfOk result (λ change. change
        ≡ Change.Step number (spec.skipped number (leg_seen at.now) step.now)) }
{
    let fact = skipped(alloc, number, at, step)?;
    Ok(Change::Step { leg: number, fact })
}

/// That a text of a step has no value, and which.
fn faults(
    alloc: Global,
    number: u64,
    at: &SeenLeg,
    step: &StepPlan,
    fault: ValueFault,
) -> Result<Change, AllocError>
    ensures { IfOk result (λ change. change ≡ Change.Step number
        (StepFact.Faulted (causes.faulted_text (leg_seen at.now) step.now) fault)) }
{
    let text = faulted_text(alloc, at, step)?;
    let fact = StepFact::Faulted(text, fault);
    Ok(Change::Step { leg: number, fact })
}

/// What comes of a step by what is decided of it.
fn begun(
    alloc: Global,
    number: u64,
    at: &SeenLeg,
    step: &StepPlan,
    decision: Result<Option<StepCall>, ValueFault>,
) -> Result<Change, AllocError>
    ensures { (meant : Result (Option StepCallOf) ValueFaultOf)
        → Gives (λ call. call) decision meant
        → IfOk result (λ change. change ≡ spec.begun number (leg_seen at.now) step.now meant) }
{
    match decision {
        Ok(Some(_)) => Ok(Change::Called { leg: number }),
        Ok(None) => skips(alloc, number, at, step),
        Err(ValueFault::Memory) => Err(AllocError),
        Err(fault @ faulted!()) => faults(alloc, number, at, step, fault),
    }
}

/// Adds what comes of the next step of a leg, if there is one left.
fn add_next_step(
    alloc: Global,
    out: &mut Vec<Change>,
    number: u64,
    at: &SeenLeg,
) -> Result<(), AllocError>
    ensures { OnOk result (Adds out.old.items out.new.items
        (spec.begins_step number (leg_seen at.now) (row.next_step (leg_seen at.now)))) }
{
    match item_at(&at.job_plan.steps, at.leg.steps.len()) {
        Some(step) => {
            let decision = step_decision(alloc, number, at, step);
            out.push(begun(alloc, number, at, step, decision)?)?;
            Ok(())
        },
        None => Ok(()),
    }
}

fn add_begin(
    alloc: Global,
    out: &mut Vec<Change>,
    plan: &Plan,
    board: &Board,
    number: u64,
) -> Result<(), AllocError>
    ensures { OnOk result (Adds out.old.items out.new.items
        (spec.begins number (leg_at plan.now board.now number))) }
{
    match find_leg(plan, board, number as usize) {
        Some(at) => add_next_step(alloc, out, number, &at),
        None => Ok(()),
    }
}

/// How an answer ends a step.
fn answered(answer: &Answer) -> StepFact
    ensures { result ≡ spec.answered answer.now }
{
    match answer {
        Answer::Exit { code, .. } => StepFact::Exited(*code),
        Answer::NotStarted => StepFact::NotStarted,
        Answer::BadOutput => StepFact::BadOutput,
    }
}

// ---- the table

/// Adds one change.
fn add(out: &mut Vec<Change>, change: Change) -> Result<(), AllocError>
    ensures { OnOk result (Adds out.old.items out.new.items (change ∷ [])) }
{
    out.push(change)?;
    Ok(())
}

/// Adds what an event makes so on a board, where it is accepted.
pub(crate) fn add_changes(
    alloc: Global,
    out: &mut Vec<Change>,
    plan: &Plan,
    table: &FlatBoard,
    event: &Event,
) -> Result<(), AllocError>
    requires { table.now.plan ≡ plan.now }
    ensures { OnOk result
        (Adds out.old.items out.new.items (spec.changes plan.now table.now.board event.now)) }
{
    match event {
        Event::Open { run } => add_open(alloc, out, plan, table, *run),
        Event::Judge { job } => add_judge(alloc, out, plan, table.board(), *job),
        Event::Ask { leg } => add_ask(alloc, out, plan, table, *leg),
        Event::Drop { leg } => add_drop(out, plan, table, *leg),
        Event::Take { leg } => add_fact(out, Member::Leg(*leg), MemberFact::Taken),
        Event::Begin { leg } => add_begin(alloc, out, plan, table.board(), *leg),
        Event::End { leg, answer } => {
            let fact = answered(answer);
            add(out, Change::Step { leg: *leg, fact })
        },
        Event::Finish { leg } => add_finish(alloc, out, plan, table, *leg),
        Event::Close { run } => add_close(out, plan, table, *run),
        Event::Cancel { run } => {
            let who = Member::Run(*run);
            let teller = Teller::Cancel;
            add(out, Change::Stop { who, teller })
        },
    }
}
