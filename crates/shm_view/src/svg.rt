//! Pictures as SVG: a few shapes, and the text of a picture made of them.

ghost use Rattle.std.specs.{Prelude.{◌≡◌, ◌++◌, IfOk, OnOk}, List.flat_map};
ghost use Rattle.shm_view.specs.Svg.{attribute, channels_text, ends_text, escaped, escaped_byte, fill_text, label_text, line_text, opening_text, paint_text, pair_text, picture_text, place_text, rect_text, shape_text, size_text, stroke_text};

use shm_script::{push_number, push_text};
use std::alloc::{AllocError, Global};

/// A colour by its red, green and blue.
#[derive(Clone, Copy, Drop)]
pub struct Colour {
    pub red: u8,
    pub green: u8,
    pub blue: u8,
}

/// A part of a picture. Places and sizes are in the picture's own units, from its upper left corner on.
#[derive(Drop)]
pub enum Shape {
    /// A filled rectangle.
    Rect {
        x: u32,
        y: u32,
        width: u32,
        height: u32,
        fill: Colour,
    },
    /// A line of text that begins at a place.
    Label {
        x: u32,
        y: u32,
        text: String,
    },
    /// A straight line of this width from one place to another.
    Line {
        from: (u32, u32),
        to: (u32, u32),
        width: u32,
        stroke: Colour,
    },
}

/// A picture of this size: later shapes lie over earlier ones.
#[derive(Drop)]
pub struct Picture {
    pub width: u32,
    pub height: u32,
    pub shapes: Vec<Shape>,
}

/// The text of a picture: one element for each shape, in which all text is escaped.
#[tactic(auto, unfolding(crate::specs::Svg::picture_text))]
pub fn svg_text(alloc: Global, picture: &Picture) -> Result<Vec<u8>, AllocError>
    ensures { IfOk result (λ text. text.items ≡ picture_text picture.now) }
{
    let mut text = Vec::new(alloc);
    push_opening(&mut text, picture.width, picture.height)?;
    push_shapes(&mut text, picture.shapes.as_slice())?;
    push_text(&mut text, "</svg>\n")?;
    Ok(text)
}

// adds what opens a picture of this size
#[tactic(auto, unfolding(crate::specs::Svg::opening_text))]
fn push_opening(text: &mut Vec<u8>, width: u32, height: u32) -> Result<(), AllocError>
    ensures { OnOk result (text.new.items ≡ text.old.items ++ opening_text width height) }
{
    push_text(
        text,
        "<svg xmlns=\"http://www.w3.org/2000/svg\" viewBox=\"0 0 ",
    )?;
    push_pair(text, width, height)?;
    push_text(text, "\" font-family=\"sans-serif\" font-size=\"34\">\n")?;
    Ok(())
}

// adds two numbers
#[tactic(auto, unfolding(crate::specs::Svg::pair_text))]
fn push_pair(text: &mut Vec<u8>, width: u32, height: u32) -> Result<(), AllocError>
    ensures { OnOk result (text.new.items ≡ text.old.items ++ pair_text width height) }
{
    push_number(text, u64::from(width))?;
    push_text(text, " ")?;
    push_number(text, u64::from(height))
}

// adds the elements of some shapes
fn push_shapes(text: &mut Vec<u8>, shapes: &[Shape]) -> Result<(), AllocError>
    ensures { OnOk result (text.new.items ≡ text.old.items ++ flat_map shape_text shapes.now) }
{
    for shape in shapes {
        push_shape(text, shape)?;
    }
    Ok(())
}

// adds the element of a shape
fn push_shape(text: &mut Vec<u8>, shape: &Shape) -> Result<(), AllocError>
    ensures { OnOk result (text.new.items ≡ text.old.items ++ shape_text shape.now) }
{
    match shape {
        Shape::Rect {
            x,
            y,
            width,
            height,
            fill,
        } => push_rect(text, (*x, *y), (*width, *height), *fill),
        Shape::Label { x, y, text: word } => push_label(text, *x, *y, word.as_str()),
        Shape::Line {
            from,
            to,
            width,
            stroke,
        } => push_line(text, *from, *to, *width, *stroke),
    }
}

// adds the element of a rectangle
#[tactic(auto, unfolding(crate::specs::Svg::rect_text))]
fn push_rect(
    text: &mut Vec<u8>,
    place: (u32, u32),
    size: (u32, u32),
    fill: Colour,
) -> Result<(), AllocError>
    ensures { OnOk result (text.new.items ≡ text.old.items ++ rect_text place.0 place.1 size.0 size.1 fill) }
{
    push_text(text, "<rect")?;
    push_place(text, place.0, place.1)?;
    push_size(text, size.0, size.1)?;
    push_fill(text, fill)?;
    push_text(text, "/>\n")
}

// adds the element of a line of text
#[tactic(auto, unfolding(crate::specs::Svg::label_text))]
fn push_label(text: &mut Vec<u8>, x: u32, y: u32, word: &str) -> Result<(), AllocError>
    ensures { OnOk result (text.new.items ≡ text.old.items ++ label_text x y word.now) }
{
    push_text(text, "<text")?;
    push_place(text, x, y)?;
    push_text(text, ">")?;
    push_escaped(text, word.as_bytes())?;
    push_text(text, "</text>\n")
}

// adds the element of a straight line
#[tactic(auto, unfolding(crate::specs::Svg::line_text))]
fn push_line(
    text: &mut Vec<u8>,
    from: (u32, u32),
    to: (u32, u32),
    width: u32,
    stroke: Colour,
) -> Result<(), AllocError>
    ensures { OnOk result (text.new.items ≡ text.old.items ++ line_text from.0 from.1 to.0 to.1 width stroke) }
{
    push_text(text, "<line")?;
    push_ends(text, from, to)?;
    push_stroke(text, width, stroke)?;
    push_text(text, "/>\n")
}

// adds the four attributes of the ends of a line
#[tactic(auto, unfolding(crate::specs::Svg::ends_text))]
fn push_ends(text: &mut Vec<u8>, from: (u32, u32), to: (u32, u32)) -> Result<(), AllocError>
    ensures { OnOk result (text.new.items ≡ text.old.items ++ ends_text from.0 from.1 to.0 to.1) }
{
    push_attribute(text, "x1", from.0)?;
    push_attribute(text, "y1", from.1)?;
    push_attribute(text, "x2", to.0)?;
    push_attribute(text, "y2", to.1)
}

// adds the attributes of a line's width and colour
#[tactic(auto, unfolding(crate::specs::Svg::stroke_text))]
fn push_stroke(text: &mut Vec<u8>, width: u32, stroke: Colour) -> Result<(), AllocError>
    ensures { OnOk result (text.new.items ≡ text.old.items ++ stroke_text width stroke) }
{
    push_attribute(text, "stroke-width", width)?;
    push_paint(text, stroke)
}

// adds the attribute of a line's colour
#[tactic(auto, unfolding(crate::specs::Svg::paint_text))]
fn push_paint(text: &mut Vec<u8>, stroke: Colour) -> Result<(), AllocError>
    ensures { OnOk result (text.new.items ≡ text.old.items ++ paint_text stroke) }
{
    push_text(text, " stroke=\"rgb(")?;
    push_channels(text, stroke)?;
    push_text(text, ")\"")?;
    Ok(())
}

// adds the two attributes of a place
#[tactic(auto, unfolding(crate::specs::Svg::place_text))]
fn push_place(text: &mut Vec<u8>, x: u32, y: u32) -> Result<(), AllocError>
    ensures { OnOk result (text.new.items ≡ text.old.items ++ place_text x y) }
{
    push_attribute(text, "x", x)?;
    push_attribute(text, "y", y)
}

// adds the two attributes of a size
#[tactic(auto, unfolding(crate::specs::Svg::size_text))]
fn push_size(text: &mut Vec<u8>, width: u32, height: u32) -> Result<(), AllocError>
    ensures { OnOk result (text.new.items ≡ text.old.items ++ size_text width height) }
{
    push_attribute(text, "width", width)?;
    push_attribute(text, "height", height)
}

// adds the attribute of a colour
#[tactic(auto, unfolding(crate::specs::Svg::fill_text))]
fn push_fill(text: &mut Vec<u8>, fill: Colour) -> Result<(), AllocError>
    ensures { OnOk result (text.new.items ≡ text.old.items ++ fill_text fill) }
{
    push_text(text, " fill=\"rgb(")?;
    push_channels(text, fill)?;
    push_text(text, ")\"")?;
    Ok(())
}

// adds red, green and blue
#[tactic(auto, unfolding(crate::specs::Svg::channels_text))]
fn push_channels(text: &mut Vec<u8>, fill: Colour) -> Result<(), AllocError>
    ensures { OnOk result (text.new.items ≡ text.old.items ++ channels_text fill) }
{
    push_number(text, u64::from(fill.red))?;
    push_text(text, ",")?;
    push_number(text, u64::from(fill.green))?;
    push_text(text, ",")?;
    push_number(text, u64::from(fill.blue))
}

// adds an attribute with a number
#[tactic(auto, unfolding(crate::specs::Svg::attribute))]
fn push_attribute(text: &mut Vec<u8>, name: &str, number: u32) -> Result<(), AllocError>
    ensures { OnOk result (text.new.items ≡ text.old.items ++ attribute name.now number) }
{
    push_text(text, " ")?;
    push_text(text, name)?;
    push_text(text, "=\"")?;
    push_number(text, u64::from(number))?;
    push_text(text, "\"")
}

// adds a text, of which the bytes that mark up are written by their names
fn push_escaped(text: &mut Vec<u8>, word: &[u8]) -> Result<(), AllocError>
    ensures { OnOk result (text.new.items ≡ text.old.items ++ escaped word.now) }
{
    for byte in word {
        push_escaped_byte(text, *byte)?;
    }
    Ok(())
}

// adds a byte of a text
fn push_escaped_byte(text: &mut Vec<u8>, byte: u8) -> Result<(), AllocError>
    ensures { OnOk result (text.new.items ≡ text.old.items ++ escaped_byte byte) }
{
    match byte {
        b'<' => push_text(text, "&lt;"),
        b'>' => push_text(text, "&gt;"),
        b'&' => push_text(text, "&amp;"),
        b'"' => push_text(text, "&quot;"),
        _ => {
            text.push(byte)?;
            Ok(())
        }
    }
}
