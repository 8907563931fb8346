//! Where bars and marks stand.

ghost use Rattle.std.specs.Prelude.{◌≡◌, ◌+◌, ◌*◌, IfOk};
ghost use Rattle.board_timeline.specs.Frames as spec;

use crate::shape::Frame;
use std::alloc::AllocError;

/// Where the bars begin.
pub(crate) const LEFT: u64 = 430;

/// Where the rows begin, below the legend.
pub(crate) const ROWS_TOP: u64 = 62;

/// How wide the whole record is.
pub(crate) const CHART: u64 = 900;

/// The sum of two numbers. No memory holds rows that are so high.
pub(crate) fn sum(one: u64, two: u64) -> Result<u64, AllocError>
    ensures { IfOk result (λ both. both ≡ one + two) }
{
    match one.checked_add(two) {
        Some(both) => Ok(both),
        None => Err(AllocError),
    }
}

/// The product of two numbers, likewise.
pub(crate) fn product(one: u64, two: u64) -> Result<u64, AllocError>
    ensures { IfOk result (λ both. both ≡ one * two) }
{
    match one.checked_mul(two) {
        Some(both) => Ok(both),
        None => Err(AllocError),
    }
}

/// A share of a width: so many parts of a whole.
fn share(parts: u64, whole: u64) -> Result<u64, AllocError>
    ensures { IfOk result (λ width. width ≡ spec.share parts whole) }
{
    match product(parts, CHART)?.checked_div(whole) {
        Some(width) => Ok(width),
        None => Err(AllocError),
    }
}

/// Where a line of a record of so many begins.
pub(crate) fn place_of(lines: u64, line: u64) -> Result<u64, AllocError>
    ensures { IfOk result (λ left. left ≡ spec.place_of lines line) }
{
    sum(LEFT, share(line.saturating_sub(1), lines)?)
}

/// How wide a bar is, which is seen however short it is.
fn width_of(left: u64, right: u64) -> u64
    ensures { result ≡ spec.width_of left right }
{
    if left < right { right - left } else { 1 }
}

/// What the rows of a picture have in common, and where one stands.
#[derive(Clone, Copy)]
pub(crate) struct Lane {
    /// How many lines the record has.
    pub(crate) lines: u64,
    pub(crate) top: u64,
    pub(crate) height: u64,
}

/// Where a bar stands that begins with a line and ends with another.
pub(crate) fn bar_frame(lane: Lane, from: u64, to: u64) -> Result<Frame, AllocError>
    ensures { IfOk result (λ frame. frame ≡ spec.bar_frame lane from to) }
{
    let left = place_of(lane.lines, from)?;
    let right = place_of(lane.lines, to)?;
    Ok(Frame {
        left,
        top: lane.top,
        width: width_of(left, right),
        height: lane.height,
    })
}

/// Where a mark of this width stands.
pub(crate) fn mark_frame(lane: Lane, line: u64, width: u64) -> Result<Frame, AllocError>
    ensures { IfOk result (λ frame. frame ≡ spec.mark_frame lane line width) }
{
    let left = place_of(lane.lines, line)?;
    Ok(Frame {
        left,
        top: lane.top,
        width,
        height: lane.height,
    })
}

/// Where the row itself stands.
pub(crate) fn lane_frame(lane: Lane) -> Frame
    ensures { result ≡ spec.lane_frame lane }
{
    Frame {
        left: LEFT,
        top: lane.top,
        width: CHART,
        height: lane.height,
    }
}
