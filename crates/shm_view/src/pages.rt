//! What pictures of pools share: the colours of what has no blocks, classes of pages, sizes of blocks, and lines of text.

ghost use Rattle.std.specs.Prelude.{◌<◌, ◌≤◌, ◌^◌};

use crate::layout::LINE;
use crate::svg::{Colour, Shape};
use std::alloc::{AllocError, Global};

pub const WHITE: Colour = Colour {
    red: 255,
    green: 255,
    blue: 255,
};

/// What a page without blocks is drawn in.
pub const GREY: Colour = Colour {
    red: 221,
    green: 221,
    blue: 221,
};

/// The class that the word of a page says, and 0 where it says none.
pub fn class_of(word: u64) -> u32
    ensures { result ≤ 32 }
{
    match word {
        4 => 4,
        8 => 8,
        16 => 16,
        32 => 32,
        _ => 0,
    }
}

/// How wide and how high a block of this class is drawn.
pub fn size_of(class: u32) -> (u32, u32)
    requires some { 0 < class }
    requires few { class ≤ 32 }
{
    (8 * class.min(16) - 2, LINE * (class.max(16) / 16) - 2)
}

/// The number of a segment, and whose it is by the word of its owner.
pub fn owner_text(alloc: Global, s: u16, owner: u64) -> Result<String, AllocError> {
    match owner {
        0 => format!(in alloc; "{s}: nobody's"),
        owner => format!(in alloc; "{s}: client {}", owner - 1),
    }
}

/// Says below the last row how many segments aren't shown, if there are any.
pub fn draw_rest(
    alloc: Global,
    shapes: &mut Vec<Shape>,
    rest: u16,
    bottom: u32,
) -> Result<(), AllocError>
    requires { bottom < 2 ^ 16 }
{
    if rest > 0 {
        let text = format!(in alloc; "and {rest} more segments, not shown")?;
        shapes.push(Shape::Label {
            x: 16,
            y: bottom + 36,
            text,
        })?;
    }
    Ok(())
}
