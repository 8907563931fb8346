//! What stands above and behind the rows: the legend, and lines of the record.

ghost use Rattle.std.specs.Prelude.{◌≡◌, ◌+◌, ◌-◌, ◌/◌, ◌<◌, ◌++◌, OnOk};
ghost use Rattle.board_timeline.specs.Legend as spec;

use crate::canvas::Canvas;
use crate::frames::{ROWS_TOP, place_of};
use crate::shape::{Font, Frame, Look, ShapeKind};
use crate::words::{numbered, worded};
use std::alloc::AllocError;

/// Where the labels of lines have their base line.
const LINE_BASE: u64 = 58;

/// Adds a label.
pub(crate) fn add_label(
    canvas: &mut Canvas,
    font: Font,
    left: u64,
    top: u64,
    text: Vec<u8>,
) -> Result<(), AllocError>
    ensures { OnOk result
        (canvas.new ≡ canvas.old ++ spec.label font left top text.items) }
{
    let frame = Frame {
        left,
        top,
        width: 0,
        height: 0,
    };
    canvas.add(ShapeKind::Label(font), frame, text)
}

/// Adds the bar of a key.
fn add_key_bar(
    canvas: &mut Canvas,
    left: u64,
    top: u64,
    look: Look,
    words: &str,
) -> Result<(), AllocError>
    requires { left < 2000 × top < 2000 }
    ensures { OnOk result
        (canvas.new ≡ canvas.old ++ spec.key_bar left top look words.now) }
{
    let frame = Frame {
        left,
        top,
        width: 12,
        height: 10,
    };
    let text = worded(canvas.alloc(), words)?;
    canvas.add(ShapeKind::Bar(look), frame, text)
}

/// Adds a key: a bar, and what it stands for.
#[tactic(auto, unfolding(crate::specs::Legend::key))]
fn add_key(
    canvas: &mut Canvas,
    left: u64,
    top: u64,
    look: Look,
    words: &str,
) -> Result<(), AllocError>
    requires { left < 2000 × top < 2000 }
    ensures { OnOk result
        (canvas.new ≡ canvas.old ++ spec.key left top look words.now) }
{
    add_key_bar(canvas, left, top, look, words)?;
    let text = worded(canvas.alloc(), words)?;
    add_label(canvas, Font::Note, left + 18, top + 9, text)
}

/// Adds the keys of what goes on.
fn add_phase_keys(canvas: &mut Canvas) -> Result<(), AllocError>
    ensures { OnOk result (canvas.new ≡ canvas.old ++ spec.phase_keys) }
{
    add_key(canvas, 12, 8, Look::Waiting, "waiting for its group")?;
    add_key(canvas, 230, 8, Look::Admitted, "admitted")?;
    add_key(canvas, 360, 8, Look::Going, "going, with a worker")
}

/// Adds the keys of how steps and all else end.
fn add_end_keys(canvas: &mut Canvas) -> Result<(), AllocError>
    ensures { OnOk result (canvas.new ≡ canvas.old ++ spec.end_keys) }
{
    add_key(canvas, 12, 26, Look::Success, "success")?;
    add_key(canvas, 110, 26, Look::Failure, "failure")?;
    add_key(canvas, 208, 26, Look::Passed, "failure that counts as none")?;
    add_key(canvas, 440, 26, Look::Cancelled, "cancelled")
}

/// Adds the keys of what has no such end.
fn add_step_keys(canvas: &mut Canvas) -> Result<(), AllocError>
    ensures { OnOk result (canvas.new ≡ canvas.old ++ spec.step_keys) }
{
    add_key(canvas, 560, 8, Look::Calling, "a call not answered")?;
    add_key(canvas, 560, 26, Look::Skipped, "skipped")
}

/// Adds the keys of marks.
fn add_mark_keys(canvas: &mut Canvas) -> Result<(), AllocError>
    ensures { OnOk result (canvas.new ≡ canvas.old ++ spec.mark_keys) }
{
    add_key(canvas, 740, 8, Look::Told, "told to stop")?;
    add_key(canvas, 740, 26, Look::Displaced, "displaced")
}

/// Adds the legend.
pub(crate) fn add_legend(canvas: &mut Canvas) -> Result<(), AllocError>
    ensures { OnOk result (canvas.new ≡ canvas.old ++ spec.legend) }
{
    add_phase_keys(canvas)?;
    add_end_keys(canvas)?;
    add_step_keys(canvas)?;
    add_mark_keys(canvas)
}

/// Adds a line of the record, from above the rows down to their end.
#[tactic(auto, unfolding(crate::specs::Legend::line_shapes))]
fn add_line(canvas: &mut Canvas, lines: u64, line: u64, bottom: u64) -> Result<(), AllocError>
    ensures { OnOk result
        (canvas.new ≡ canvas.old ++ spec.line_shapes lines line bottom) }
{
    let left = place_of(lines, line)?;
    let frame = Frame {
        left,
        top: ROWS_TOP,
        width: 1,
        height: bottom.saturating_sub(ROWS_TOP),
    };
    let title = numbered(canvas.alloc(), "line ", line)?;
    canvas.add(ShapeKind::Bar(Look::Line), frame, title)?;
    let text = numbered(canvas.alloc(), "line ", line)?;
    add_label(canvas, Font::Note, left, LINE_BASE, text)
}

/// The line in the middle of a record.
fn middle(lines: u64) -> u64
    ensures { result ≡ (lines - 1) / 2 + 1 }
{
    lines.saturating_sub(1) / 2 + 1
}

/// Adds the first line of the record, that in the middle, and the last.
pub(crate) fn add_lines(canvas: &mut Canvas, lines: u64, bottom: u64) -> Result<(), AllocError>
    ensures { OnOk result
        (canvas.new ≡ canvas.old ++ spec.lines_shapes lines bottom) }
{
    add_line(canvas, lines, 1, bottom)?;
    add_line(canvas, lines, middle(lines), bottom)?;
    add_line(canvas, lines, lines, bottom)
}
