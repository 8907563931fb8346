//! What stands in a picture: bars and labels.

ghost use Rattle.std.specs.Prelude.{◌≡◌};
ghost use Rattle.board_timeline.specs.Looks as spec;

use flow_model::Sequence;

/// What a bar is there for.
#[derive(Clone, Copy)]
pub enum Look {
    /// Where the bars of a row stand.
    Lane,
    /// A line of the record.
    Line,
    /// Waiting for a group.
    Waiting,
    /// Admitted, with no worker.
    Admitted,
    /// Going, open, or with a worker between two steps.
    Going,
    /// In a call that is not answered.
    Calling,
    Success,
    Failure,
    /// A failure that was passed over, or that is tolerated.
    Passed,
    Cancelled,
    Skipped,
    /// Told to stop.
    Told,
    /// Displaced by another that waits.
    Displaced,
}

/// What a label is there for.
#[derive(Clone, Copy)]
pub enum Font {
    Run,
    Job,
    Leg,
    /// The legend, and lines of the record.
    Note,
}

/// What a shape is.
#[derive(Clone, Copy)]
pub enum ShapeKind {
    Bar(Look),
    Label(Font),
}

/// Where a bar stands; a label begins at `left`, on the line `top`.
#[derive(Clone, Copy)]
pub struct Frame {
    pub left: u64,
    pub top: u64,
    pub width: u64,
    pub height: u64,
}

/// A bar or a label.
#[derive(Drop)]
pub struct Shape {
    pub kind: ShapeKind,
    pub frame: Frame,
    /// What a label says, and what is told of a bar where somebody points at it.
    pub text: Sequence<u8>,
}

/// The class of a bar.
pub(crate) fn look_class(look: Look) -> &'static str
    ensures { result.now ≡ spec.look_class look }
{
    match look {
        Look::Lane => "lane",
        Look::Line => "line",
        Look::Waiting => "waiting",
        Look::Admitted => "admitted",
        Look::Going => "going",
        Look::Calling => "calling",
        Look::Success => "success",
        Look::Failure => "failure",
        Look::Passed => "passed",
        Look::Cancelled => "cancelled",
        Look::Skipped => "skipped",
        Look::Told => "told",
        Look::Displaced => "displaced",
    }
}

/// The class of a label.
pub(crate) fn font_class(font: Font) -> &'static str
    ensures { result.now ≡ spec.font_class font }
{
    match font {
        Font::Run => "run",
        Font::Job => "job",
        Font::Leg => "leg",
        Font::Note => "note",
    }
}
