//! Where the parts of a pool's picture are.

use crate::svg::{Colour, Shape};

/// Where the pages of a segment begin, and the space of a page: 16 words in a line, and a gap.
pub const LEFT: u32 = 250;

pub const PAGE: u32 = 136;

pub const WIDTH: u32 = LEFT + 16 * PAGE + 16;

/// Where the first segment begins, and the space of a segment: 8 lines of words, and a gap.
pub const TOP: u32 = 130;

pub const LINE: u32 = 10;

pub const ROW: u32 = 8 * LINE + 16;

/// How many segments a picture shows at most.
pub const MOST: u16 = 64;

/// A rectangle.
pub fn rect(place: (u32, u32), size: (u32, u32), fill: Colour) -> Shape {
    Shape::Rect {
        x: place.0,
        y: place.1,
        width: size.0,
        height: size.1,
        fill,
    }
}
