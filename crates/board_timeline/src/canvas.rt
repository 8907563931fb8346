//! Where a chart is drawn.

ghost use Rattle.std.specs.Prelude.{◌≡◌, ◌++◌, [], OnOk};
ghost use Rattle.board_timeline.specs.Bars as spec;

use crate::shape::{Frame, Shape, ShapeKind};
use flow_model::Sequence;
use std::alloc::{AllocError, Global};
use std::marker::Model;

/// The shapes of a chart, in the order in which they are drawn.
#[derive(Drop)]
pub(crate) struct Canvas {
    alloc: Global,
    shapes: Vec<Shape>,
}

impl Model for Canvas {
    ghost use Rattle.std.specs.Prelude.{List};
    ghost use Rattle.board_timeline.specs.declared.shape.Shape.{Shape};

    ghost Value = { List Shape };

    ghost view = { λ canvas. canvas.shapes.items };
}

impl Canvas {
    /// A canvas with no shapes.
    pub(crate) fn empty(alloc: Global) -> Canvas
        ensures { result ≡ [] }
    {
        Canvas {
            alloc,
            shapes: Vec::new(alloc),
        }
    }

    /// The allocator, for the texts of shapes.
    pub(crate) fn alloc(&self) -> Global {
        self.alloc
    }

    /// Adds a shape.
    pub(crate) fn add(
        &mut self,
        kind: ShapeKind,
        frame: Frame,
        text: Vec<u8>,
    ) -> Result<(), AllocError>
        ensures { OnOk result (self.new ≡ self.old ++ spec.shape kind frame text.items) }
    {
        let text = Sequence::new(text);
        self.shapes.push(Shape { kind, frame, text })?;
        Ok(())
    }

    /// The shapes.
    pub(crate) fn into_shapes(self) -> Sequence<Shape>
        ensures { result ≡ self }
    {
        Sequence::new(self.shapes)
    }
}
