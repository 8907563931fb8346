//! The bars and marks of a row.

ghost use Rattle.std.specs.Prelude.{◌≡◌, ◌++◌, OnOk};
ghost use Rattle.board_timeline.specs.Bars as spec;

use crate::canvas::Canvas;
use crate::frames::{Lane, bar_frame, lane_frame, mark_frame, sum};
use crate::phase::{Moment, Phase, is_over};
use crate::row::Row;
use crate::shape::{Look, ShapeKind};
use crate::words::{bar_text, last_phase, mark_text, note_text, row_text};
use flow_model::{Outcome, StepPlan};
use std::alloc::AllocError;

/// A row: where it stands, what it is for, and the steps of its job.
#[derive(Clone, Copy)]
pub(crate) struct Strip<'a> {
    pub(crate) lane: Lane,
    pub(crate) name: &'a [u8],
    pub(crate) steps: &'a [StepPlan],
}

/// How something stood from a moment up to a line, and what came after, unless that line ends the record.
#[derive(Clone, Copy)]
pub(crate) struct Span {
    pub(crate) from: Moment,
    pub(crate) to: u64,
    pub(crate) after: Option<Phase>,
}

/// The look of a result.
fn outcome_look(outcome: Outcome) -> Look
    ensures { result ≡ spec.outcome_look outcome }
{
    match outcome {
        Outcome::Success => Look::Success,
        Outcome::Failure => Look::Failure,
        Outcome::Cancelled => Look::Cancelled,
        Outcome::Skipped => Look::Skipped,
    }
}

/// The look of a step that is done.
fn step_look(outcome: Outcome, conclusion: Outcome) -> Look
    ensures { result ≡ spec.step_look outcome conclusion }
{
    match (outcome, conclusion) {
        (Outcome::Failure, Outcome::Success) => Look::Passed,
        (_, _) => outcome_look(outcome),
    }
}

/// The look of something that has ended.
fn end_look(how: Outcome, tolerated: bool) -> Look
    ensures { result ≡ spec.end_look how tolerated }
{
    if tolerated {
        Look::Passed
    } else {
        outcome_look(how)
    }
}

/// The look of a call, by what came after it.
fn call_look(after: Option<Phase>) -> Look
    ensures { result ≡ spec.call_look after }
{
    match after {
        Some(
            Phase::Done {
                outcome,
                conclusion,
                ..
            },
        ) => step_look(outcome, conclusion),
        _ => Look::Calling,
    }
}

/// The look of the bar of how something stands, if there is one; what a worker has of a leg is one bar for all of it.
fn bar_look(phase: Phase, after: Option<Phase>) -> Option<Look>
    ensures { result ≡ spec.bar_look phase after }
{
    match phase {
        Phase::Fresh => None,
        Phase::Waiting => Some(Look::Waiting),
        Phase::Admitted => Some(Look::Admitted),
        Phase::Going => Some(Look::Going),
        Phase::Taken => None,
        Phase::Done { .. } => None,
        Phase::Calling(_) => Some(call_look(after)),
        Phase::Shut(_) => None,
        Phase::Ended { .. } => None,
    }
}

/// Whether a leg is in a call.
fn is_calling(phase: Phase) -> bool
    ensures { result ≡ spec.is_calling phase }
{
    matches!(phase, Phase::Calling(_))
}

/// The look of the mark where something comes to stand otherwise, if there is one: where it ends, and where a step is done
/// without a call.
fn mark_look(before: Phase, phase: Phase) -> Option<Look>
    ensures { result ≡ spec.mark_look before phase }
{
    match phase {
        Phase::Done {
            outcome,
            conclusion,
            ..
        } => {
            if is_calling(before) {
                return None;
            }
            Some(step_look(outcome, conclusion))
        },
        Phase::Shut(how) => Some(outcome_look(how)),
        Phase::Ended { how, tolerated } => Some(end_look(how, tolerated)),
        Phase::Fresh | Phase::Waiting | Phase::Admitted => None,
        Phase::Going | Phase::Taken | Phase::Calling(_) => None,
    }
}

/// Adds a bar from a moment to a line, with this look.
fn add_span(
    canvas: &mut Canvas,
    strip: &Strip<'_>,
    look: Look,
    span: Span,
) -> Result<(), AllocError>
    ensures { OnOk result (canvas.new ≡ canvas.old
        ++ spec.span (spec.strip_seen strip.now) look span.from span.to span.after) }
{
    let frame = bar_frame(strip.lane, span.from.line, span.to)?;
    let text = bar_text(canvas.alloc(), strip.name, strip.steps, span)?;
    canvas.add(ShapeKind::Bar(look), frame, text)
}

/// Adds the bar of how something stood from a moment to a line.
fn add_bar(canvas: &mut Canvas, strip: &Strip<'_>, span: Span) -> Result<(), AllocError>
    ensures { OnOk result (canvas.new ≡ canvas.old
        ++ spec.bar (spec.strip_seen strip.now) span.from span.to span.after) }
{
    match bar_look(span.from.phase, span.after) {
        Some(look) => add_span(canvas, strip, look, span),
        None => Ok(()),
    }
}

/// Adds the mark of a moment.
fn add_mark(
    canvas: &mut Canvas,
    strip: &Strip<'_>,
    before: Phase,
    moment: Moment,
) -> Result<(), AllocError>
    ensures { OnOk result (canvas.new ≡ canvas.old
        ++ spec.mark (spec.strip_seen strip.now) before moment) }
{
    let Some(look) = mark_look(before, moment.phase) else {
        return Ok(());
    };
    let frame = mark_frame(strip.lane, moment.line, 4)?;
    let text = mark_text(canvas.alloc(), strip.name, strip.steps, moment)?;
    canvas.add(ShapeKind::Bar(look), frame, text)
}

/// Adds the bar up to a moment, and the mark of that.
fn add_moment(
    canvas: &mut Canvas,
    strip: &Strip<'_>,
    from: Moment,
    moment: Moment,
) -> Result<(), AllocError>
    ensures { OnOk result (canvas.new ≡ canvas.old
        ++ spec.bar_and_mark (spec.strip_seen strip.now) from moment) }
{
    let span = Span {
        from,
        to: moment.line,
        after: Some(moment.phase),
    };
    add_bar(canvas, strip, span)?;
    add_mark(canvas, strip, from.phase, moment)
}

/// Adds the bars and marks of moments, of which the first comes after that of the plan's line.
fn add_moments(canvas: &mut Canvas, strip: &Strip<'_>, moments: &[Moment]) -> Result<(), AllocError>
    ensures { OnOk result (canvas.new ≡ canvas.old
        ++ spec.bars (spec.strip_seen strip.now) spec.first moments.now) }
{
    let mut from = Moment {
        line: 1,
        phase: Phase::Fresh,
    };
    for moment in moments {
        add_moment(canvas, strip, from, *moment)?;
        from = *moment;
    }
    let last = Span {
        from,
        to: sum(strip.lane.lines, 1)?,
        after: None,
    };
    add_bar(canvas, strip, last)
}

/// Adds the mark of what was done to a member at a line, if it was.
fn add_note(
    canvas: &mut Canvas,
    strip: &Strip<'_>,
    look: Look,
    words: &str,
    line: Option<u64>,
) -> Result<(), AllocError>
    ensures { OnOk result (canvas.new ≡ canvas.old
        ++ spec.note (spec.strip_seen strip.now) look words.now line) }
{
    let Some(line) = line else {
        return Ok(());
    };
    let frame = mark_frame(strip.lane, line, 4)?;
    let text = note_text(canvas.alloc(), strip.name, words, line)?;
    canvas.add(ShapeKind::Bar(look), frame, text)
}

/// Adds the bar on which those of a row stand.
fn add_lane(canvas: &mut Canvas, strip: &Strip<'_>, row: &Row) -> Result<(), AllocError>
    ensures { OnOk result (canvas.new ≡ canvas.old
        ++ spec.lane (spec.strip_seen strip.now) row.now) }
{
    let text = row_text(canvas.alloc(), strip.name, row)?;
    canvas.add(ShapeKind::Bar(Look::Lane), lane_frame(strip.lane), text)
}

/// Whether a leg was taken by its worker and has begun no step.
fn is_taken(phase: Phase) -> bool
    ensures { result ≡ spec.is_taken phase }
{
    matches!(phase, Phase::Taken)
}

/// The line at which a worker took a leg, if one did.
fn taken_at(moments: &[Moment]) -> Option<u64>
    ensures { result ≡ spec.taken_at moments.now }
{
    for moment in moments {
        if is_taken(moment.phase) {
            return Some(moment.line);
        }
    }
    None
}

/// Adds the bar of a leg's worker, from a line on.
fn add_worker(
    canvas: &mut Canvas,
    strip: &Strip<'_>,
    row: &Row,
    line: u64,
) -> Result<(), AllocError>
    ensures { OnOk result (canvas.new ≡ canvas.old
        ++ spec.worker (spec.strip_seen strip.now) row.now line) }
{
    let from = Moment {
        line,
        phase: Phase::Taken,
    };
    let last = last_phase(row);
    let span = if is_over(last) {
        Span {
            from,
            to: row.since,
            after: Some(last),
        }
    } else {
        Span {
            from,
            to: sum(strip.lane.lines, 1)?,
            after: None,
        }
    };
    add_span(canvas, strip, Look::Going, span)
}

/// Adds what lies below the bars of a row: that on which they stand, and the bar of a leg's worker.
fn add_bottom(canvas: &mut Canvas, strip: &Strip<'_>, row: &Row) -> Result<(), AllocError>
    ensures { OnOk result (canvas.new ≡ canvas.old
        ++ spec.bottom (spec.strip_seen strip.now) row.now) }
{
    add_lane(canvas, strip, row)?;
    match taken_at(row.moments.as_slice()) {
        Some(line) => add_worker(canvas, strip, row, line),
        None => Ok(()),
    }
}

/// Adds all bars and marks of a row.
pub(crate) fn add_row(canvas: &mut Canvas, strip: &Strip<'_>, row: &Row) -> Result<(), AllocError>
    ensures { OnOk result (canvas.new ≡ canvas.old
        ++ spec.row_shapes (spec.strip_seen strip.now) row.now) }
{
    add_bottom(canvas, strip, row)?;
    add_moments(canvas, strip, row.moments.as_slice())?;
    add_note(canvas, strip, Look::Told, "told to stop", row.told)?;
    add_note(canvas, strip, Look::Displaced, "displaced", row.displaced)
}
