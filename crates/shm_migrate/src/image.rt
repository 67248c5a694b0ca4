//! The image of a clean pool of format 1 in format 2, written in one pass.

ghost use Rattle.std.specs.Prelude.{◌≡◌, ℕ, ◌+◌, ◌-◌, ◌*◌, ◌%◌, ◌^◌, ◌<◌, ◌≤◌, false, List, length, slice_index, IfOk, OnOk};
ghost use Rattle.shm_words.specs.declared.geometry.Geometry.{Geometry as AGeometry};
ghost use Rattle.shm_words.specs.{Layout.{GeometryFits, bodies, total_of}, Classes.IsClass};
ghost use Rattle.shm_graph.specs.{Spots.{see, class_at, classes_in}, Blocks.IsBlock, Clean.IsClean};
ghost use Rattle.shm_audit.specs.Images.{image_of, numbers};
ghost use Rattle.shm_migrate.specs.{Widened.{wide_of, widened_word, widened}, Writing.WritesOn};

use crate::words::{live_tag, widened_body, widened_tag, widened_word};
use shm_audit::{push_word, word};
use shm_script::push_text;
use shm_words::Geometry;
use std::alloc::{AllocError, Global};

/// How many bytes stand before the words of an image.
const FRAME: usize = 24;

/// The image in format 2 of a clean pool of format 1 with these words.
///
/// It takes as much memory as it is long. Each of its words is below 2^64.
pub fn widened_image(
    alloc: Global,
    geometry: Geometry,
    words: &[[u8; 8]],
) -> Result<Vec<u8>, AllocError>
    requires fits { GeometryFits geometry }
    requires narrow { geometry.wide ≡ false }
    requires clean { IsClean geometry (see geometry (numbers words.now)) }
    ensures bytes { IfOk result (λ v. v.items ≡ image_of (wide_of geometry) (widened geometry (numbers words.now))) }
    ensures small { IfOk result (λ v. (i : ℕ) → slice_index (widened geometry (numbers words.now)) i < 2 ^ 64) }
{
    let total = geometry.total() + u32::from(geometry.clients());
    let mut image = Vec::with_capacity(alloc, FRAME + 8 * total as usize)?;
    push_text(&mut image, "CXLSHM02")?;
    push_word(&mut image, u64::from(geometry.clients()))?;
    push_word(&mut image, u64::from(geometry.segments()))?;
    push_front(&mut image, geometry, words)?;
    for page in 0..16 * u32::from(geometry.segments()) {
        push_page(&mut image, geometry, words, page)?;
    }
    Ok(image)
}

// the words before the bodies of the pages
fn push_front(image: &mut Vec<u8>, geometry: Geometry, words: &[[u8; 8]]) -> Result<(), AllocError>
    requires fits { GeometryFits geometry }
    requires narrow { geometry.wide ≡ false }
    requires clean { IsClean geometry (see geometry (numbers words.now)) }
    ensures { OnOk result (WritesOn geometry (numbers words.now) image.old.items image.new.items 0 (bodies geometry + geometry.clients)) }
{
    for at in 0..geometry.body(0, 0) + u32::from(geometry.clients()) {
        push_word(image, widened_word(geometry, words, at))?;
    }
    Ok(())
}

// the words of a page, by its number in the pool
fn push_page(
    image: &mut Vec<u8>,
    geometry: Geometry,
    words: &[[u8; 8]],
    page: u32,
) -> Result<(), AllocError>
    requires fits { GeometryFits geometry }
    requires narrow { geometry.wide ≡ false }
    requires clean { IsClean geometry (see geometry (numbers words.now)) }
    requires page { page < 16 * geometry.segments }
    ensures { OnOk result (WritesOn geometry (numbers words.now) image.old.items image.new.items (bodies geometry + 128 * page + geometry.clients) (bodies geometry + 128 * (page + 1) + geometry.clients)) }
{
    let class = word(words, geometry.page(0, 0) + page);
    if class == 0 {
        return push_unused(image);
    }
    let first = geometry.body(0, 0) + 128 * page;
    push_blocks(image, geometry, words, first, class as u8)
}

// the words of a page that is in no use
fn push_unused(image: &mut Vec<u8>) -> Result<(), AllocError>
    ensures { OnOk result ((g : AGeometry) (ws : List ℕ) (from : ℕ) → ((k : ℕ) → k < 128 → widened_word g (see g ws) (from + k) ≡ 0) → WritesOn g ws image.old.items image.new.items from (from + 128)) }
{
    for _ in 0..128u8 {
        push_word(image, 0)?;
    }
    Ok(())
}

// the blocks of a page of this class
fn push_blocks(
    image: &mut Vec<u8>,
    geometry: Geometry,
    words: &[[u8; 8]],
    first: u32,
    class: u8,
) -> Result<(), AllocError>
    requires fits { GeometryFits geometry }
    requires narrow { geometry.wide ≡ false }
    requires clean { IsClean geometry (see geometry (numbers words.now)) }
    requires start { bodies geometry ≤ first }
    requires end { first + 128 ≤ total_of geometry }
    requires page { (first - bodies geometry) % 128 ≡ 0 }
    requires class { class_at geometry (classes_in geometry (numbers words.now)) first ≡ class }
    requires is_class { IsClass class }
    ensures { OnOk result (WritesOn geometry (numbers words.now) image.old.items image.new.items (first + geometry.clients) (first + 128 + geometry.clients)) }
{
    let mut block = first;
    while block < first + 128 {
        push_block(image, geometry, words, block, class)?;
        block += u32::from(class);
    }
    Ok(())
}

// a block of this class
fn push_block(
    image: &mut Vec<u8>,
    geometry: Geometry,
    words: &[[u8; 8]],
    block: u32,
    class: u8,
) -> Result<(), AllocError>
    requires fits { GeometryFits geometry }
    requires narrow { geometry.wide ≡ false }
    requires clean { IsClean geometry (see geometry (numbers words.now)) }
    requires is { IsBlock geometry (classes_in geometry (numbers words.now)) block }
    requires class { class_at geometry (classes_in geometry (numbers words.now)) block ≡ class }
    requires is_class { IsClass class }
    ensures { OnOk result (WritesOn geometry (numbers words.now) image.old.items image.new.items (block + geometry.clients) (block + class + geometry.clients)) }
{
    let tag = live_tag(geometry, words, block);
    push_word(image, word(words, block))?;
    push_word(image, widened_tag(tag))?;
    for i in 0..class - 2 {
        let word = word(words, block + 2 + u32::from(i));
        push_word(image, widened_body(geometry, words, tag, i, word))?;
    }
    Ok(())
}
