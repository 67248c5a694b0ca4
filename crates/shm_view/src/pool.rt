//! A pool as a picture.

ghost use Rattle.std.specs.Prelude.{◌≡◌, ◌<◌, ◌≤◌, ◌^◌, length, IfErr, IfOk, None};
ghost use Rattle.shm_words.specs.Layout.{GeometryFits, total_of};
ghost use Rattle.shm_audit.specs.{Faults.image_fault_of, Stops.StopsBy};
ghost use Rattle.shm_view.specs.{Svg.picture_text, declared.svg.Picture.Picture as APicture};

use crate::arrows::draw_table;
use crate::layout::{LEFT, LINE, MOST, PAGE, ROW, TOP, WIDTH, rect};
use crate::pages::{GREY, WHITE, class_of, draw_rest, owner_text, size_of};
use crate::svg::{Colour, Picture, Shape, svg_text};
use shm_audit::{AuditStop, audit, open_image, word};
use shm_words::{Geometry, Header};
use std::alloc::{AllocError, Global};

/// The pool of an image as a picture, or the first fault of the image, as an audit finds it.
///
/// It has a row for each of the first 64 segments, with its owner and its 16 pages, and a page has its 128 words in 8 lines. A block is as
/// large as its class says, of the colour of its class, strong where it is live and pale where it is free; a page without a class is grey. The references of the
/// table of `client` are drawn as lines, where one is named.
pub fn pool_picture(alloc: Global, image: &[u8], client: Option<u8>) -> Result<Vec<u8>, AuditStop>
    ensures none { IfOk result (λ _. image_fault_of image.now ≡ None) }
    ensures drawn { IfOk result (λ text. (p : APicture) × (text.items ≡ picture_text p)) }
    ensures err { IfErr result (StopsBy (image_fault_of image.now)) }
{
    let _verdict = audit(alloc, image)?;
    let (geometry, words) = open_image(image).map_err(AuditStop::Fault)?;
    let picture = draw(alloc, geometry, words, client)?;
    Ok(svg_text(alloc, &picture)?)
}

// the picture of a pool with these words
#[tactic(auto, using(shm_words::proofs::Placing::total_small))]
fn draw(
    alloc: Global,
    geometry: Geometry,
    words: &[[u8; 8]],
    client: Option<u8>,
) -> Result<Picture, AllocError>
    requires fits { GeometryFits geometry }
    requires whole { length words.now ≡ total_of geometry }
{
    let rows = geometry.segments().min(MOST);
    let bottom = TOP + ROW * u32::from(rows);
    let mut shapes = Vec::new(alloc);
    shapes.push(rect((0, 0), (WIDTH, bottom + 60), WHITE))?;
    draw_legend(alloc, &mut shapes)?;
    for s in 0..rows {
        draw_segment(alloc, &mut shapes, geometry, words, s)?;
    }
    if let Some(client) = client {
        draw_table(&mut shapes, geometry, words, rows, client)?;
        let text = format!(in alloc; "lines: the table of client {client}")?;
        shapes.push(Shape::Label {
            x: 1000,
            y: bottom + 36,
            text,
        })?;
    }
    draw_rest(alloc, &mut shapes, geometry.segments() - rows, bottom)?;
    Ok(Picture {
        width: WIDTH,
        height: bottom + 60,
        shapes,
    })
}

// what the colours mean
fn draw_legend(alloc: Global, shapes: &mut Vec<Shape>) -> Result<(), AllocError> {
    draw_key(alloc, shapes, 16, 4)?;
    draw_key(alloc, shapes, 486, 8)?;
    draw_key(alloc, shapes, 956, 16)?;
    draw_key(alloc, shapes, 1426, 32)?;
    shapes.push(rect((1896, 32), (34, 34), GREY))?;
    let text = format!(in alloc; "no blocks")?;
    shapes.push(Shape::Label {
        x: 1942,
        y: 60,
        text,
    })?;
    Ok(())
}

// what the colours of a class mean, from the left edge x on
fn draw_key(alloc: Global, shapes: &mut Vec<Shape>, x: u32, class: u32) -> Result<(), AllocError>
    requires { x < 2 ^ 16 }
{
    shapes.push(rect((x, 32), (34, 34), colour(class, true)))?;
    shapes.push(rect((x + 40, 32), (34, 34), colour(class, false)))?;
    let text = format!(in alloc; "{class} words: live, free")?;
    shapes.push(Shape::Label {
        x: x + 86,
        y: 60,
        text,
    })?;
    Ok(())
}

// the row of a segment: its owner and its pages
#[tactic(auto, using(shm_words::proofs::Placing::total_small), unfolding(shm_words::specs::Layout::address))]
fn draw_segment(
    alloc: Global,
    shapes: &mut Vec<Shape>,
    geometry: Geometry,
    words: &[[u8; 8]],
    s: u16,
) -> Result<(), AllocError>
    requires fits { GeometryFits geometry }
    requires segment { s < geometry.segments }
    requires shown { s < 64 }
{
    let y = TOP + ROW * u32::from(s);
    let text = owner_text(alloc, s, word(words, geometry.segment(s)))?;
    shapes.push(Shape::Label {
        x: 16,
        y: y + 52,
        text,
    })?;
    for p in 0..16 {
        let class = class_of(word(words, geometry.page(s, p)));
        draw_page(
            shapes,
            words,
            geometry.body(s, p),
            class,
            (LEFT + PAGE * u32::from(p), y),
        )?;
    }
    Ok(())
}

// a page of this class that begins at an address, and its blocks; a page of class 0 has none
fn draw_page(
    shapes: &mut Vec<Shape>,
    words: &[[u8; 8]],
    first: u32,
    class: u32,
    place: (u32, u32),
) -> Result<(), AllocError>
    requires first { first < 2 ^ 24 }
    requires class { class ≤ 32 }
    requires x { place.0 < 2 ^ 24 }
    requires y { place.1 < 2 ^ 24 }
{
    if class == 0 {
        shapes.push(rect(place, (128, 8 * LINE), GREY))?;
        return Ok(());
    }
    for k in 0..32 {
        let from = 4 * k;
        if from % class == 0 {
            let is_live = Header::unpack(word(words, first + from)).live;
            let at = (place.0 + 8 * (from % 16), place.1 + LINE * (from / 16));
            shapes.push(rect(at, size_of(class), colour(class, is_live)))?;
        }
    }
    Ok(())
}

// the colour of the blocks of a class, live or free
fn colour(class: u32, is_live: bool) -> Colour {
    let (red, green, blue) = match (class, is_live) {
        (4, true) => (0, 114, 178),
        (4, false) => (198, 223, 240),
        (8, true) => (213, 94, 0),
        (8, false) => (248, 220, 196),
        (16, true) => (0, 158, 115),
        (16, false) => (196, 235, 223),
        (_, true) => (123, 50, 148),
        (_, false) => (227, 208, 234),
    };
    Colour { red, green, blue }
}
