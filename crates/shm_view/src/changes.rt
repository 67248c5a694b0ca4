//! What changed between two pools, as a picture.

ghost use Rattle.std.specs.Prelude.{◌≡◌, ◌<◌, ◌≤◌, ◌^◌, IfErr, IfOk, None, Option};
ghost use Rattle.shm_words.specs.Layout.{GeometryFits};
ghost use Rattle.shm_audit.specs.{Faults.image_fault_of, Stops.StopsBy, declared.fault.ImageFault.ImageFault as AFault};
ghost use Rattle.shm_view.specs.{Changes.StopsByOne, Svg.picture_text, declared.changes.ChangesStop.TheVariants.Memory};
ghost use Rattle.shm_view.specs.declared.svg.Picture.{Picture as APicture};

use crate::change::{CHANGES, Change, Page, change_of, class_drawn};
use crate::layout::{LEFT, LINE, MOST, PAGE, ROW, TOP, WIDTH, rect};
use crate::pages::{GREY, WHITE, class_of, draw_rest, owner_text, size_of};
use crate::svg::{Colour, Picture, Shape, svg_text};
use shm_audit::{AuditStop, ImageFault, audit, open_image, word};
use shm_words::Geometry;
use std::alloc::{AllocError, Global};

/// Why there is no picture of what changed between two images.
#[derive(Clone, Copy, Debug, PartialEq, Eq, Drop)]
pub enum ChangesStop {
    /// Memory was wanting.
    Memory(AllocError),
    /// The first image has this fault.
    Before(ImageFault),
    /// The second image has this fault, and the first one none.
    After(ImageFault),
}

impl From<AllocError> for ChangesStop {
    ghost from_gives = { λ e stop. stop ≡ Memory e };

    fn from(e: AllocError) -> ChangesStop {
        ChangesStop::Memory(e)
    }
}

/// The pool of an image.
#[derive(Clone, Copy, Drop)]
struct Side<'a> {
    geometry: Geometry,
    words: &'a [[u8; 8]],
}

/// What changed from the pool of one image to that of another, as a picture, or the first fault of one of them, as an audit finds it.
///
/// It has the rows and pages of a pool's picture, for the first 64 segments of the larger pool, with the owners of the second one. A block is of one colour where
/// it came, of others where it went, changed or is as before; blocks are compared by segment and place in it. Of a page whose class changed the blocks of the
/// second pool lie over those of the first one.
pub fn changes_picture(alloc: Global, before: &[u8], after: &[u8]) -> Result<Vec<u8>, ChangesStop>
    ensures before { IfOk result (λ _. image_fault_of before.now ≡ None) }
    ensures after { IfOk result (λ _. image_fault_of after.now ≡ None) }
    ensures drawn { IfOk result (λ text. (p : APicture) × (text.items ≡ picture_text p)) }
    ensures err { IfErr result (StopsByOne (image_fault_of before.now) (image_fault_of after.now)) }
{
    let old = first_side(alloc, before)?;
    let new = second_side(alloc, after)?;
    let picture = draw(alloc, old, new)?;
    Ok(svg_text(alloc, &picture)?)
}

// the pool of the first image
fn first_side(alloc: Global, image: &[u8]) -> Result<Side<'_>, ChangesStop>
    ensures none { IfOk result (λ _. image_fault_of image.now ≡ None) }
    ensures fits { IfOk result (λ side. GeometryFits side.geometry) }
    ensures err { IfErr result (λ e. (after : Option AFault) → StopsByOne (image_fault_of image.now) after e) }
{
    match audited(alloc, image) {
        Ok(side) => Ok(side),
        Err(AuditStop::Memory(e)) => Err(ChangesStop::Memory(e)),
        Err(AuditStop::Fault(fault)) => Err(ChangesStop::Before(fault)),
    }
}

// the pool of the second image, where the first one has no fault
fn second_side(alloc: Global, image: &[u8]) -> Result<Side<'_>, ChangesStop>
    ensures none { IfOk result (λ _. image_fault_of image.now ≡ None) }
    ensures fits { IfOk result (λ side. GeometryFits side.geometry) }
    ensures err { IfErr result (λ e. (before : Option AFault) → before ≡ None → StopsByOne before (image_fault_of image.now) e) }
{
    match audited(alloc, image) {
        Ok(side) => Ok(side),
        Err(AuditStop::Memory(e)) => Err(ChangesStop::Memory(e)),
        Err(AuditStop::Fault(fault)) => Err(ChangesStop::After(fault)),
    }
}

// the pool of an image without a fault
fn audited(alloc: Global, image: &[u8]) -> Result<Side<'_>, AuditStop>
    ensures none { IfOk result (λ _. image_fault_of image.now ≡ None) }
    ensures fits { IfOk result (λ side. GeometryFits side.geometry) }
    ensures err { IfErr result (StopsBy (image_fault_of image.now)) }
{
    let _verdict = audit(alloc, image)?;
    let (geometry, words) = open_image(image).map_err(AuditStop::Fault)?;
    Ok(Side { geometry, words })
}

// the picture of what changed
fn draw(alloc: Global, old: Side<'_>, new: Side<'_>) -> Result<Picture, AllocError>
    requires old { GeometryFits old.geometry }
    requires new { GeometryFits new.geometry }
{
    let segments = old.geometry.segments().max(new.geometry.segments());
    let rows = segments.min(MOST);
    let bottom = TOP + ROW * u32::from(rows);
    let mut shapes = Vec::new(alloc);
    shapes.push(rect((0, 0), (WIDTH, bottom + 60), WHITE))?;
    draw_legend(alloc, &mut shapes)?;
    for s in 0..rows {
        draw_segment(alloc, &mut shapes, old, new, s)?;
    }
    draw_rest(alloc, &mut shapes, segments - rows, bottom)?;
    Ok(Picture {
        width: WIDTH,
        height: bottom + 60,
        shapes,
    })
}

// what the colours mean
fn draw_legend(alloc: Global, shapes: &mut Vec<Shape>) -> Result<(), AllocError> {
    draw_key(alloc, shapes, 16, Change::Came.colour(), "came")?;
    draw_key(alloc, shapes, 286, Change::Went.colour(), "went")?;
    draw_key(alloc, shapes, 556, Change::Changed.colour(), "changed")?;
    draw_key(alloc, shapes, 886, Change::Same.colour(), "as before")?;
    draw_key(alloc, shapes, 1246, Change::Free.colour(), "free")?;
    draw_key(alloc, shapes, 1516, GREY, "no blocks")
}

// what a colour means, from the left edge x on
fn draw_key(
    alloc: Global,
    shapes: &mut Vec<Shape>,
    x: u32,
    fill: Colour,
    name: &str,
) -> Result<(), AllocError>
    requires { x < 2 ^ 16 }
{
    shapes.push(rect((x, 32), (34, 34), fill))?;
    let text = format!(in alloc; "{name}")?;
    shapes.push(Shape::Label {
        x: x + 46,
        y: 60,
        text,
    })?;
    Ok(())
}

// the row of a segment: its owner in the second pool, and its pages
fn draw_segment(
    alloc: Global,
    shapes: &mut Vec<Shape>,
    old: Side<'_>,
    new: Side<'_>,
    s: u16,
) -> Result<(), AllocError>
    requires old { GeometryFits old.geometry }
    requires new { GeometryFits new.geometry }
    requires shown { s < 64 }
{
    let y = TOP + ROW * u32::from(s);
    let text = owner_text(alloc, s, owner(new, s))?;
    shapes.push(Shape::Label {
        x: 16,
        y: y + 52,
        text,
    })?;
    for p in 0..16 {
        let place = (LEFT + PAGE * u32::from(p), y);
        draw_page(shapes, page_of(old, s, p), page_of(new, s, p), place)?;
    }
    Ok(())
}

// the word of the owner of a segment, and 0 where the pool doesn't have it
fn owner(side: Side<'_>, s: u16) -> u64
    requires { GeometryFits side.geometry }
{
    if s < side.geometry.segments() {
        word(side.words, side.geometry.segment(s))
    } else {
        0
    }
}

// a page, without blocks where the pool doesn't have it
#[tactic(auto, using(shm_words::proofs::Placing::total_small), unfolding(shm_words::specs::Layout::address))]
fn page_of(side: Side<'_>, s: u16, p: u8) -> Page<'_>
    requires fits { GeometryFits side.geometry }
    requires page { p < 16 }
    ensures first { result.first < 2 ^ 24 }
    ensures class { result.class ≤ 32 }
{
    if s >= side.geometry.segments() {
        return Page {
            words: side.words,
            first: 0,
            class: 0,
        };
    }
    Page {
        words: side.words,
        first: side.geometry.body(s, p),
        class: class_of(word(side.words, side.geometry.page(s, p))),
    }
}

// a page of which this is the old and the new state
fn draw_page(
    shapes: &mut Vec<Shape>,
    old: Page<'_>,
    new: Page<'_>,
    place: (u32, u32),
) -> Result<(), AllocError>
    requires old_first { old.first < 2 ^ 24 }
    requires old_class { old.class ≤ 32 }
    requires new_first { new.first < 2 ^ 24 }
    requires new_class { new.class ≤ 32 }
    requires x { place.0 < 2 ^ 24 }
    requires y { place.1 < 2 ^ 24 }
{
    if new.class == 0 {
        shapes.push(rect(place, (128, 8 * LINE), GREY))?;
    }
    for change in CHANGES {
        draw_blocks(shapes, old, new, change, place)?;
    }
    Ok(())
}

// the blocks of a page of which this became: those that went as they lay in the first pool, and all others as they lie in the second one
fn draw_blocks(
    shapes: &mut Vec<Shape>,
    old: Page<'_>,
    new: Page<'_>,
    change: Change,
    place: (u32, u32),
) -> Result<(), AllocError>
    requires old_first { old.first < 2 ^ 24 }
    requires old_class { old.class ≤ 32 }
    requires new_first { new.first < 2 ^ 24 }
    requires new_class { new.class ≤ 32 }
    requires x { place.0 < 2 ^ 24 }
    requires y { place.1 < 2 ^ 24 }
{
    let class = class_drawn(old, new, change);
    if class == 0 {
        return Ok(());
    }
    for k in 0..32 {
        let from = 4 * k;
        if from % class == 0 && change_of(old, new, class, from) == change {
            let at = (place.0 + 8 * (from % 16), place.1 + LINE * (from / 16));
            shapes.push(rect(at, size_of(class), change.colour()))?;
        }
    }
    Ok(())
}
