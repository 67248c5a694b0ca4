//! The references of a client's table, as lines of a picture.

ghost use Rattle.std.specs.Prelude.{◌<◌, ◌≤◌, ◌^◌, length, IfSome};
ghost use Rattle.shm_words.specs.Layout.{GeometryFits};

use crate::chain::word_after;
use crate::layout::{LEFT, LINE, PAGE, ROW, TOP, rect};
use crate::svg::{Colour, Shape};
use shm_audit::word;
use shm_words::Geometry;
use std::alloc::AllocError;

/// How many entries of a chain are drawn at most.
const MOST: u32 = 64;

const BLACK: Colour = Colour {
    red: 0,
    green: 0,
    blue: 0,
};

/// Draws the references of the table of the identity `c`: from its directory to the first entry of each chain, from entry to entry, and from each entry to its
/// value. Of a chain 64 entries at most are drawn, and of a pool the words of its first `rows` segments.
pub fn draw_table(
    shapes: &mut Vec<Shape>,
    geometry: Geometry,
    words: &[[u8; 8]],
    rows: u16,
    c: u8,
) -> Result<(), AllocError>
    requires fits { GeometryFits geometry }
    requires short { length words.now < 2 ^ 24 }
    requires rows { rows ≤ 64 }
{
    if c >= geometry.clients() {
        return Ok(());
    }
    let home = word(words, geometry.home(c));
    if home == 0 {
        return Ok(());
    }
    let map = Map {
        first: geometry.body(0, 0),
        rows,
    };
    for bucket in 0..16 {
        draw_chain(shapes, words, map, home, 2 + bucket)?;
    }
    Ok(())
}

// draws the references of a chain that begins at the word so many words after a directory
fn draw_chain(
    shapes: &mut Vec<Shape>,
    words: &[[u8; 8]],
    map: Map,
    home: u64,
    more: u32,
) -> Result<(), AllocError>
    requires short { length words.now < 2 ^ 24 }
    requires more { more < 2 ^ 24 }
    requires rows { map.rows ≤ 64 }
{
    let (mut from, mut behind) = (home, more);
    for _ in 0..MOST {
        let entry = word_after(words, from, behind);
        if entry == 0 {
            return Ok(());
        }
        draw_reference(shapes, map, from.saturating_add(u64::from(behind)), entry)?;
        let value = word_after(words, entry, 3);
        draw_reference(shapes, map, entry.saturating_add(3), value)?;
        from = entry;
        behind = 2;
    }
    Ok(())
}

// draws a line from a word to the block that it names
fn draw_reference(
    shapes: &mut Vec<Shape>,
    map: Map,
    word: u64,
    block: u64,
) -> Result<(), AllocError>
    requires rows { map.rows ≤ 64 }
{
    match (map.place(word), map.place(block)) {
        (Some(from), Some(to)) => {
            shapes.push(Shape::Line {
                from,
                to,
                width: 3,
                stroke: BLACK,
            })?;
            shapes.push(rect((to.0 - 4, to.1 - 4), (9, 9), BLACK))?;
            Ok(())
        }
        _ => Ok(()),
    }
}

/// Where the words of pages are drawn: from which address on, and of how many segments.
#[derive(Clone, Copy, Drop)]
struct Map {
    first: u32,
    rows: u16,
}

impl Map {
    // the middle of a word of a page, where it is drawn
    fn place(self, at: u64) -> Option<(u32, u32)>
        requires rows { self.rows ≤ 64 }
        ensures across { IfSome result (λ q. (4 ≤ q.0) × (q.0 < 2 ^ 16)) }
        ensures down { IfSome result (λ q. (4 ≤ q.1) × (q.1 < 2 ^ 16)) }
    {
        let inside = at.checked_sub(u64::from(self.first))?;
        if inside >= 2048 * u64::from(self.rows) {
            return None;
        }
        let inside = inside as u32;
        let (s, p, k) = (inside / 2048, inside / 128 % 16, inside % 128);
        Some((
            LEFT + PAGE * p + 8 * (k % 16) + 3,
            TOP + ROW * s + LINE * (k / 16) + 4,
        ))
    }
}
