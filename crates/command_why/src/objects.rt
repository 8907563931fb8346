//! Reasons as JSON: a line of a tree is one object, on one line.

ghost use Rattle.std.specs.Prelude.{◌≡◌, ◌++◌, OnOk, codes, decimal, false};
ghost use Rattle.json.specs.Print.{quoted};
ghost use Rattle.serde_json.specs.Data.{boolean};
ghost use Rattle.serde_json.specs.Written.{comma_if, compact_text, items_text};
ghost use Rattle.why_facts.specs.Adds.{Adds};
ghost use Rattle.flow_model.specs.Faults.{value_fault_name};
ghost use Rattle.why_notes.specs.Account.{account_seen};
ghost use Rattle.plan_documents.specs.Parts.{number_data, optional_data};
ghost use Rattle.command_why.specs.Objects as spec;

use crate::lines::{add_name, add_said};
use crate::summary::{Phase, Reason, Summary, summarize};
use crate::writing::{add, add_number, add_quoted};
use flow_model::{Member, Outcome, ValueFault};
use itoa::Buffer;
use std::alloc::AllocError;
use why_causes::causes::add_causes;
use why_causes::question::{Question, about};
use why_causes::tree::Line;
use why_facts::fact::{JobFact, MemberFact, StepFact, StepText, StopCause, Teller};
use why_notes::account::SeenAccount;

// ---- parts

/// Adds a number between words.
fn add_between(out: &mut Vec<u8>, before: &str, number: u64, after: &str) -> Result<(), AllocError>
    ensures { OnOk result (Adds out.old.items out.new.items
        (before.now ++ (decimal number ++ after.now))) }
{
    add_number(out, before, number)?;
    add(out, &[after])
}

/// Adds a step by its numbers.
#[tactic(auto, unfolding(json::specs::Print::escape_byte))]
fn add_step_part(out: &mut Vec<u8>, leg: u64, step: u64) -> Result<(), AllocError>
    ensures { OnOk result (Adds out.old.items out.new.items
        (compact_text (spec.part_data (Question.Step leg step)))) }
{
    add_number(out, "{\"kind\":\"step\",\"leg\":", leg)?;
    add_between(out, ",\"step\":", step, "}")
}

/// Adds what is asked about.
#[tactic(auto, unfolding(json::specs::Print::escape_byte))]
fn add_part(out: &mut Vec<u8>, question: Question) -> Result<(), AllocError>
    ensures { OnOk result
        (Adds out.old.items out.new.items (compact_text (spec.part_data question))) }
{
    match question {
        Question::Run(number) => add_between(out, "{\"kind\":\"run\",\"run\":", number, "}"),
        Question::Job(number) => add_between(out, "{\"job\":", number, ",\"kind\":\"job\"}"),
        Question::Leg(number) => add_between(out, "{\"kind\":\"leg\",\"leg\":", number, "}"),
        Question::Step { leg, step } => add_step_part(out, leg, step),
        Question::Stop(Member::Run(number)) => {
            add_between(out, "{\"kind\":\"stop\",\"run\":", number, "}")
        },
        Question::Stop(Member::Leg(number)) => {
            add_between(out, "{\"kind\":\"stop\",\"leg\":", number, "}")
        },
    }
}

/// Adds a run or a leg between words.
fn add_who(out: &mut Vec<u8>, before: &str, who: Member, after: &str) -> Result<(), AllocError>
    ensures { OnOk result (Adds out.old.items out.new.items
        (before.now ++ (compact_text (spec.who_data who) ++ after.now))) }
{
    add(out, &[before])?;
    add_part(out, about(who))?;
    add(out, &[after])
}

// ---- what made it so

/// Adds an error between words.
fn add_error(out: &mut Vec<u8>, fault: ValueFault, after: &str) -> Result<(), AllocError>
    ensures { OnOk result (Adds out.old.items out.new.items
        (codes "{\"error\":" ++ (quoted (value_fault_name fault) ++ after.now))) }
{
    add(out, &["{\"error\":"])?;
    add_quoted(out, fault.name().as_bytes())?;
    add(out, &[after])
}

/// Adds why a leg is to stop.
#[tactic(auto, unfolding(json::specs::Print::escape_byte))]
fn add_cause(out: &mut Vec<u8>, cause: StopCause) -> Result<(), AllocError>
    ensures { OnOk result
        (Adds out.old.items out.new.items (compact_text (spec.cause_data cause))) }
{
    match cause {
        StopCause::Told => add(out, &["{\"kind\":\"told\"}"]),
        StopCause::FailFast(leg) => add_between(out, "{\"kind\":\"fail-fast\",\"leg\":", leg, "}"),
        StopCause::RunTold => add(out, &["{\"kind\":\"run-told\"}"]),
    }
}

/// Adds why a leg is to stop, and words after it.
fn add_cause_and(out: &mut Vec<u8>, cause: StopCause, after: &str) -> Result<(), AllocError>
    ensures { OnOk result (Adds out.old.items out.new.items
        (codes "{\"cause\":" ++ (compact_text (spec.cause_data cause) ++ after.now))) }
{
    add(out, &["{\"cause\":"])?;
    add_cause(out, cause)?;
    add(out, &[after])
}

/// Adds what became of a run or a leg.
#[tactic(auto, unfolding(json::specs::Print::escape_byte))]
fn add_member_fact(out: &mut Vec<u8>, fact: MemberFact) -> Result<(), AllocError>
    ensures { OnOk result
        (Adds out.old.items out.new.items (compact_text (spec.member_fact_data fact))) }
{
    match fact {
        MemberFact::Admitted => add(out, &["{\"kind\":\"admitted\"}"]),
        MemberFact::Waits(who) => add_who(out, "{\"behind\":", who, ",\"kind\":\"waits\"}"),
        MemberFact::Follows(who) => add_who(out, "{\"after\":", who, ",\"kind\":\"follows\"}"),
        MemberFact::Displaced(who) => add_who(out, "{\"by\":", who, ",\"kind\":\"displaced\"}"),
        MemberFact::OwnRun => add(out, &["{\"kind\":\"own-run\"}"]),
        MemberFact::NoGroup(fault) => add_error(out, fault, ",\"kind\":\"no-group\"}"),
        MemberFact::Closed(_) => add(out, &["{\"kind\":\"closed\"}"]),
        MemberFact::Taken => add(out, &["{\"kind\":\"taken\"}"]),
        MemberFact::Finished(_) => add(out, &["{\"kind\":\"finished\"}"]),
        MemberFact::Stopped(cause) => add_cause_and(out, cause, ",\"kind\":\"stopped\"}"),
    }
}

/// Adds what became of a job.
#[tactic(auto, unfolding(json::specs::Print::escape_byte))]
fn add_job_fact(out: &mut Vec<u8>, fact: JobFact) -> Result<(), AllocError>
    ensures { OnOk result
        (Adds out.old.items out.new.items (compact_text (spec.job_fact_data fact))) }
{
    match fact {
        JobFact::Opened => add(out, &["{\"kind\":\"opened\"}"]),
        JobFact::RunStopped => add(out, &["{\"kind\":\"run-stopped\"}"]),
        JobFact::Unsuccessful => add(out, &["{\"kind\":\"unsuccessful\"}"]),
        JobFact::Untrue => add(out, &["{\"kind\":\"untrue\"}"]),
        JobFact::Faulted(fault) => add_error(out, fault, ",\"kind\":\"faulted\"}"),
    }
}

/// What follows the error of a text of a step that has no value.
#[tactic(auto, unfolding(json::specs::Print::escape_byte))]
fn after_error(text: StepText) -> &'static str
    ensures { result.now ≡ codes ",\"kind\":\"faulted\",\"text\":"
        ++ (compact_text (spec.step_text_data text) ++ codes "}") }
{
    match text {
        StepText::FlowEnv => ",\"kind\":\"faulted\",\"text\":\"flow-env\"}",
        StepText::JobEnv => ",\"kind\":\"faulted\",\"text\":\"job-env\"}",
        StepText::StepEnv => ",\"kind\":\"faulted\",\"text\":\"step-env\"}",
        StepText::Condition => ",\"kind\":\"faulted\",\"text\":\"condition\"}",
        StepText::Work => ",\"kind\":\"faulted\",\"text\":\"work\"}",
    }
}

/// Adds that a text of a step has no value.
#[tactic(auto, unfolding(json::specs::Print::escape_byte))]
fn add_faulted(out: &mut Vec<u8>, text: StepText, fault: ValueFault) -> Result<(), AllocError>
    ensures { OnOk result (Adds out.old.items out.new.items
        (compact_text (spec.faulted_data text fault))) }
{
    add_error(out, fault, after_error(text))
}

/// Adds what a program ended with.
#[tactic(auto, unfolding(json::specs::Print::escape_byte))]
fn add_code(out: &mut Vec<u8>, code: i64) -> Result<(), AllocError>
    ensures { OnOk result (Adds out.old.items out.new.items
        (compact_text (spec.step_fact_data (StepFact.Exited code)))) }
{
    let mut buffer = Buffer::new();
    let digits = buffer.format(code);
    add(out, &["{\"code\":", digits, ",\"kind\":\"exited\"}"])
}

/// Adds what became of a step.
#[tactic(auto, unfolding(json::specs::Print::escape_byte))]
fn add_step_fact(out: &mut Vec<u8>, fact: StepFact) -> Result<(), AllocError>
    ensures { OnOk result
        (Adds out.old.items out.new.items (compact_text (spec.step_fact_data fact))) }
{
    match fact {
        StepFact::Exited(code) => add_code(out, code),
        StepFact::NotStarted => add(out, &["{\"kind\":\"not-started\"}"]),
        StepFact::BadOutput => add(out, &["{\"kind\":\"bad-output\"}"]),
        StepFact::Stopping(cause) => add_cause_and(out, cause, ",\"kind\":\"stopping\"}"),
        StepFact::AfterFailure(step) => {
            add_between(out, "{\"kind\":\"after-failure\",\"step\":", step, "}")
        },
        StepFact::Untrue => add(out, &["{\"kind\":\"untrue\"}"]),
        StepFact::Faulted(text, fault) => add_faulted(out, text, fault),
    }
}

/// Adds who told to stop.
#[tactic(auto, unfolding(json::specs::Print::escape_byte))]
fn add_teller(out: &mut Vec<u8>, teller: Teller) -> Result<(), AllocError>
    ensures { OnOk result
        (Adds out.old.items out.new.items (compact_text (spec.teller_data teller))) }
{
    match teller {
        Teller::Cancel => add(out, &["{\"kind\":\"cancel\"}"]),
        Teller::Newer(who) => add_who(out, "{\"by\":", who, ",\"kind\":\"newer\"}"),
    }
}

/// Adds what made a fact so.
#[tactic(auto, unfolding(json::specs::Print::escape_byte))]
fn add_reason(out: &mut Vec<u8>, reason: Reason) -> Result<(), AllocError>
    ensures { OnOk result
        (Adds out.old.items out.new.items (compact_text (spec.reason_data reason))) }
{
    match reason {
        Reason::Nothing => add(out, &["null"]),
        Reason::Member(fact) => add_member_fact(out, fact),
        Reason::Job(fact) => add_job_fact(out, fact),
        Reason::LegsEnded => add(out, &["{\"kind\":\"legs-ended\"}"]),
        Reason::Step(fact) => add_step_fact(out, fact),
        Reason::Stop(teller) => add_teller(out, teller),
    }
}

// ---- lines

/// The name of what a line is about, and the line in English.
#[derive(Clone, Copy)]
struct Texts<'a> {
    name: &'a [u8],
    text: &'a [u8],
}

/// A state, as JSON.
#[tactic(auto, unfolding(json::specs::Print::escape_byte))]
fn phase_text(phase: Phase) -> &'static str
    ensures { result.now ≡ compact_text (spec.phase_data phase) }
{
    match phase {
        Phase::Queued => "\"queued\"",
        Phase::Waiting => "\"waiting\"",
        Phase::InProgress => "\"in_progress\"",
        Phase::Completed(Outcome::Success) => "\"success\"",
        Phase::Completed(Outcome::Failure) => "\"failure\"",
        Phase::Completed(Outcome::Cancelled) => "\"cancelled\"",
        Phase::Completed(Outcome::Skipped) => "\"skipped\"",
        Phase::Unknown => "null",
    }
}

/// A boolean, as JSON.
fn boolean_text(holds: bool) -> &'static str
    ensures { result.now ≡ compact_text (boolean holds) }
{
    if holds { "true" } else { "false" }
}

/// Adds a part after a comma, if another is before it.
fn add_item(out: &mut Vec<u8>, later: bool, question: Question) -> Result<(), AllocError>
    ensures { OnOk result (Adds out.old.items out.new.items
        (comma_if later ++ compact_text (spec.part_data question))) }
{
    if later {
        add(out, &[","])?;
    }
    add_part(out, question)
}

/// Adds parts, one after the other, and the bracket after them.
fn add_parts(out: &mut Vec<u8>, questions: &[Question]) -> Result<(), AllocError>
    ensures { OnOk result (Adds out.old.items out.new.items
        (items_text false (spec.parts_data questions.now))) }
{
    let mut later = false;
    for question in questions {
        add_item(out, later, *question)?;
        later = true;
    }
    add(out, &["]"])
}

/// Adds the line of the record, if one is noted.
fn add_line(out: &mut Vec<u8>, line: Option<u64>) -> Result<(), AllocError>
    ensures { OnOk result (Adds out.old.items out.new.items
        (compact_text (optional_data number_data line))) }
{
    match line {
        Some(line) => add_number(out, "", line),
        None => add(out, &["null"]),
    }
}

/// Adds whether a line was told above, and the parts that made it so.
fn add_because(out: &mut Vec<u8>, above: bool, because: &[Question]) -> Result<(), AllocError>
    ensures { OnOk result (Adds out.old.items out.new.items
        (codes "{\"above\":" ++ (compact_text (boolean above) ++ (codes ",\"because\":["
        ++ items_text false (spec.parts_data because.now))))) }
{
    add(out, &["{\"above\":", boolean_text(above), ",\"because\":["])?;
    add_parts(out, because)
}

/// Adds how deep a line is, what made it so, and the line of the record.
fn add_fact(out: &mut Vec<u8>, depth: u64, known: Summary) -> Result<(), AllocError>
    ensures { OnOk result (Adds out.old.items out.new.items
        (codes ",\"depth\":" ++ (decimal depth
        ++ (codes ",\"fact\":" ++ (compact_text (spec.reason_data known.reason)
        ++ (codes ",\"line\":" ++ compact_text (optional_data number_data known.line))))))) }
{
    add_between(out, ",\"depth\":", depth, ",\"fact\":")?;
    add_reason(out, known.reason)?;
    add(out, &[",\"line\":"])?;
    add_line(out, known.line)
}

/// Adds what a line is about, and its name.
fn add_named(out: &mut Vec<u8>, name: &[u8], question: Question) -> Result<(), AllocError>
    ensures { OnOk result (Adds out.old.items out.new.items
        (codes ",\"name\":" ++ (quoted name.now
        ++ (codes ",\"part\":" ++ compact_text (spec.part_data question))))) }
{
    add(out, &[",\"name\":"])?;
    add_quoted(out, name)?;
    add(out, &[",\"part\":"])?;
    add_part(out, question)
}

/// Adds the state of a line.
fn add_phase(out: &mut Vec<u8>, phase: Phase) -> Result<(), AllocError>
    ensures { OnOk result (Adds out.old.items out.new.items
        (codes ",\"state\":" ++ compact_text (spec.phase_data phase))) }
{
    add(out, &[",\"state\":"])?;
    add(out, &[phase_text(phase)])
}

/// Adds whether a failure is tolerated.
fn add_tolerated(out: &mut Vec<u8>, tolerated: bool) -> Result<(), AllocError>
    ensures { OnOk result (Adds out.old.items out.new.items
        (codes ",\"tolerated\":" ++ compact_text (boolean tolerated))) }
{
    add(out, &[",\"tolerated\":", boolean_text(tolerated)])
}

/// Adds whether a failure is tolerated, and the end of an object.
fn add_end(out: &mut Vec<u8>, tolerated: bool) -> Result<(), AllocError>
    ensures { OnOk result (Adds out.old.items out.new.items
        (codes ",\"tolerated\":" ++ (compact_text (boolean tolerated)
        ++ (codes ",\"version\":" ++ (decimal 1 ++ codes "}"))))) }
{
    add_tolerated(out, tolerated)?;
    add_between(out, ",\"version\":", 1, "}")
}

/// Adds the text of a line, and the end of its object.
fn add_text(out: &mut Vec<u8>, text: &[u8], tolerated: bool) -> Result<(), AllocError>
    ensures { OnOk result (Adds out.old.items out.new.items
        (codes ",\"text\":" ++ (quoted text.now ++ (codes ",\"tolerated\":"
        ++ (compact_text (boolean tolerated)
        ++ (codes ",\"version\":" ++ (decimal 1 ++ codes "}"))))))) }
{
    add(out, &[",\"text\":"])?;
    add_quoted(out, text)?;
    add_end(out, tolerated)
}

/// Adds the object of a line of which that is known, piece by piece.
fn add_pieces(
    out: &mut Vec<u8>,
    line: Line,
    because: &[Question],
    known: Summary,
    texts: Texts<'_>,
) -> Result<(), AllocError>
    ensures { OnOk result (Adds out.old.items out.new.items
        (spec.object_text line because.now known texts.entry.name.now texts.entry.text.now)) }
{
    add_because(out, line.above, because)?;
    add_fact(out, line.depth, known)?;
    add_named(out, texts.name, line.question)?;
    add_phase(out, known.phase)?;
    add_text(out, texts.text, known.tolerated)
}

/// Adds the object of a line of which that is known.
#[tactic(auto, using(crate::proofs::ObjectText::object_is))]
fn add_object(
    out: &mut Vec<u8>,
    line: Line,
    because: &[Question],
    known: Summary,
    texts: Texts<'_>,
) -> Result<(), AllocError>
    ensures { OnOk result (Adds out.old.items out.new.items
        (compact_text (spec.line_data line because.now known texts.entry.name.now texts.entry.text.now))) }
{
    add_pieces(out, line, because, known, texts)
}

/// Adds a line of the tree, without its indent.
fn add_plain_words(out: &mut Vec<u8>, account: &SeenAccount, line: Line) -> Result<(), AllocError>
    ensures { OnOk result (Adds out.old.items out.new.items
        (spec.plain_words (account_seen account.now) line)) }
{
    add_name(out, account, line.question)?;
    add_said(out, account, line.question, line.above)
}

/// Adds a line of the tree as an object.
#[tactic(auto, unfolding(crate::specs::Objects::line_json))]
fn add_line_json(out: &mut Vec<u8>, account: &SeenAccount, line: Line) -> Result<(), AllocError>
    ensures { OnOk result (Adds out.old.items out.new.items
        (spec.line_json (account_seen account.now) line)) }
{
    let alloc = *out.allocator();
    let (mut because, mut name, mut text) = (Vec::new(alloc), Vec::new(alloc), Vec::new(alloc));
    add_causes(alloc, &mut because, account, line.question)?;
    add_name(&mut name, account, line.question)?;
    add_plain_words(&mut text, account, line)?;
    let known = summarize(account, line.question);
    let texts = Texts {
        name: name.as_slice(),
        text: text.as_slice(),
    };
    add_object(out, line, because.as_slice(), known, texts)?;
    add(out, &["\n"])
}

/// Adds the lines of a tree, each as an object.
pub(crate) fn add_tree_json(
    out: &mut Vec<u8>,
    account: &SeenAccount,
    lines: &[Line],
) -> Result<(), AllocError>
    ensures { OnOk result (Adds out.old.items out.new.items
        (spec.tree_json (account_seen account.now) lines.now)) }
{
    for line in lines {
        add_line_json(out, account, *line)?;
    }
    Ok(())
}

/// Adds a part by itself, as an object.
fn add_alone(out: &mut Vec<u8>, account: &SeenAccount, question: Question) -> Result<(), AllocError>
    ensures { OnOk result (Adds out.old.items out.new.items
        (spec.part_json (account_seen account.now) question)) }
{
    let line = Line {
        depth: 0,
        question,
        above: false,
    };
    add_line_json(out, account, line)
}

/// Adds each part by itself, as an object.
pub(crate) fn add_each(
    out: &mut Vec<u8>,
    account: &SeenAccount,
    parts: &[Question],
) -> Result<(), AllocError>
    ensures { OnOk result (Adds out.old.items out.new.items
        (spec.each_json (account_seen account.now) parts.now)) }
{
    for question in parts {
        add_alone(out, account, *question)?;
    }
    Ok(())
}
