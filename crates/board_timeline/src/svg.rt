//! A picture in SVG.

ghost use Rattle.std.specs.Prelude.{◌≡◌, IfOk, OnOk};
ghost use Rattle.std.specs.List.{flat_map};
ghost use Rattle.board_timeline.specs.Escaped.{Adds};
ghost use Rattle.board_timeline.specs.Picture as spec;
ghost use Rattle.board_timeline.specs.Texts.{HasTextsOf};

use crate::escaped::add_escaped;
use crate::shape::{Frame, Shape, ShapeKind, font_class, look_class};
use crate::writing::{add, add_number};
use std::alloc::{AllocError, Global};

/// Adds where a bar or a label stands.
fn add_place(text: &mut Vec<u8>, left: u64, top: u64) -> Result<(), AllocError>
    ensures { OnOk result (Adds text.old.items text.new.items (spec.place_text left top)) }
{
    add_number(text, "\" x=\"", left)?;
    add_number(text, "\" y=\"", top)
}

/// Adds how large a bar is.
fn add_size(text: &mut Vec<u8>, width: u64, height: u64) -> Result<(), AllocError>
    ensures { OnOk result (Adds text.old.items text.new.items (spec.size_text width height)) }
{
    add_number(text, "\" width=\"", width)?;
    add_number(text, "\" height=\"", height)
}

/// Adds what stands before the text of a bar.
fn begin_bar(text: &mut Vec<u8>, class: &str, frame: Frame) -> Result<(), AllocError>
    ensures { OnOk result (Adds text.old.items text.new.items (spec.bar_begin class.now frame)) }
{
    add(text, &["<rect class=\"", class])?;
    add_place(text, frame.left, frame.top)?;
    add_size(text, frame.width, frame.height)?;
    add(text, &["\"><title>"])
}

/// Adds what stands before the text of a label.
fn begin_label(text: &mut Vec<u8>, class: &str, frame: Frame) -> Result<(), AllocError>
    ensures { OnOk result (Adds text.old.items text.new.items (spec.label_begin class.now frame)) }
{
    add(text, &["<text class=\"", class])?;
    add_place(text, frame.left, frame.top)?;
    add(text, &["\">"])
}

/// Adds what stands before the text of a shape.
fn begin(text: &mut Vec<u8>, kind: ShapeKind, frame: Frame) -> Result<(), AllocError>
    ensures { OnOk result (Adds text.old.items text.new.items (spec.begin kind frame)) }
{
    match kind {
        ShapeKind::Bar(look) => begin_bar(text, look_class(look), frame),
        ShapeKind::Label(font) => begin_label(text, font_class(font), frame),
    }
}

/// Adds what stands after the text of a shape.
fn end(text: &mut Vec<u8>, kind: ShapeKind) -> Result<(), AllocError>
    ensures { OnOk result (Adds text.old.items text.new.items (spec.end kind)) }
{
    match kind {
        ShapeKind::Bar(_) => add(text, &["</title></rect>\n"]),
        ShapeKind::Label(_) => add(text, &["</text>\n"]),
    }
}

/// Adds a shape.
fn add_shape(text: &mut Vec<u8>, shape: &Shape) -> Result<(), AllocError>
    ensures { OnOk result (Adds text.old.items text.new.items (spec.shape_text shape.now)) }
{
    begin(text, shape.kind, shape.frame)?;
    add_escaped(text, shape.text.as_slice())?;
    end(text, shape.kind)
}

/// Adds shapes.
fn add_shapes(text: &mut Vec<u8>, shapes: &[Shape]) -> Result<(), AllocError>
    ensures { OnOk result
        (Adds text.old.items text.new.items (flat_map spec.shape_text shapes.now)) }
{
    for shape in shapes {
        add_shape(text, shape)?;
    }
    Ok(())
}

/// Adds the first tag, with the size of the picture.
fn add_tag(text: &mut Vec<u8>, width: u64, height: u64) -> Result<(), AllocError>
    ensures { OnOk result (Adds text.old.items text.new.items (spec.tag_text width height)) }
{
    add(text, &["<svg xmlns=\"http://www.w3.org/2000/svg"])?;
    add_size(text, width, height)?;
    add(text, &["\">\n"])
}

/// Adds the title of the picture, and the colours, by light and in the dark.
fn add_style(text: &mut Vec<u8>) -> Result<(), AllocError>
    ensures { OnOk result (Adds text.old.items text.new.items spec.style_text) }
{
    add(
        text,
        &[
            "<title>timeline</title>\n",
            "<style>\n",
            "svg { background: #ffffff; font: 11px ui-monospace, Menlo, Consolas, monospace; }\n",
            "text { fill: #24292f; white-space: pre; }\n",
            ".run { font-size: 13px; font-weight: bold; } .job { font-weight: bold; }\n",
            ".leg, .note { fill: #57606a; } .lane { fill: #f0f2f5; } .line { fill: #c8d1da; }\n",
            ".waiting { fill: #eac54f; } .admitted { fill: #b6e3ff; } .going { fill: #bcc4cd; }\n",
            ".calling { fill: #218bff; } .success { fill: #2da44e; } .failure { fill: #cf222e; }\n",
            ".passed { fill: #fb8f44; } .cancelled { fill: #8250df; } .skipped { fill: #6e7781; }\n",
            ".told { fill: #bf3989; } .displaced { fill: #24292f; }\n",
            "@media (prefers-color-scheme: dark) {\n",
            "svg { background: #0d1117; } text { fill: #e6edf3; } .leg, .note { fill: #9198a1; }\n",
            ".lane { fill: #1a2029; } .line { fill: #3d444d; } .going { fill: #4a535e; }\n",
            ".waiting { fill: #d4a72c; } .admitted { fill: #264f78; } .skipped { fill: #b1bac4; }\n",
            ".displaced { fill: #ffffff; }\n",
            "}\n",
            "</style>\n",
        ],
    )
}

/// The picture of these shapes.
fn drawn(alloc: Global, width: u64, height: u64, shapes: &[Shape]) -> Result<Vec<u8>, AllocError>
    ensures { IfOk result (λ text. text.items ≡ spec.picture width height shapes.now) }
{
    let mut text = Vec::new(alloc);
    add_tag(&mut text, width, height)?;
    add_style(&mut text)?;
    add_shapes(&mut text, shapes)?;
    add(&mut text, &["</svg>\n"])?;
    Ok(text)
}

/// The picture of these shapes, in SVG. What stands between its tags is read as their texts, whatever these are.
pub fn picture(
    alloc: Global,
    width: u64,
    height: u64,
    shapes: &[Shape],
) -> Result<Vec<u8>, AllocError>
    ensures text { IfOk result (λ text. text.items ≡ spec.picture width height shapes.now) }
    ensures texts { IfOk result (λ text. HasTextsOf width height shapes.now text.items) }
{
    drawn(alloc, width, height, shapes)
}
