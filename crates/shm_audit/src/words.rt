//! What the words of an image say: what each is for, and what it names.

ghost use Rattle.std.specs.Prelude.{◌≡◌, ◌≢◌, ℕ, ◌%◌, ◌<◌, ◌≤◌, List, length, slice_index, true};
ghost use Rattle.shm_words.specs.{Layout.{GeometryFits, total_of, bodies, address, is_in}, Tags.tag_refs};
ghost use Rattle.shm_graph.specs.Spots.{spot_at, spot_of, block_spot, classes_in};
ghost use Rattle.shm_audit.specs.{Images.numbers, Tallies.{AreFrom, named}};

use shm_graph::Spot;
use shm_words::{Geometry, Place};

/// The word at an address, whose bytes stand with the lowest first, and 0 past the end.
pub fn word(words: &[[u8; 8]], at: u32) -> u64
    ensures { result ≡ slice_index (numbers words.now) at }
{
    match words.get(at as usize) {
        Some(bytes) => u64::from_le_bytes(*bytes),
        None => 0,
    }
}

/// What the word at an address is for, by the classes of the pages.
pub fn spot(geometry: Geometry, words: &[[u8; 8]], at: u32) -> Spot
    requires { GeometryFits geometry }
    ensures { result ≡ spot_at geometry (classes_in geometry (numbers words.now)) at }
{
    if geometry.body(0, 0) <= at && at < geometry.total() {
        return body_spot(geometry, words, at);
    }
    match geometry.place(at) {
        Some(place) => spot_of(geometry, words, at, place),
        None => Spot::Spare,
    }
}

// what the word at an address of a page's body is for
fn body_spot(geometry: Geometry, words: &[[u8; 8]], at: u32) -> Spot
    requires fits { GeometryFits geometry }
    requires start { bodies geometry ≤ at }
    requires end { at < total_of geometry }
    ensures { result ≡ spot_at geometry (classes_in geometry (numbers words.now)) at }
{
    let behind = at - geometry.body(0, 0);
    let class = word(words, geometry.page(0, 0) + behind / 128);
    block_spot(class, at, (behind % 128) as u8)
}

// what the word of a place is for
fn spot_of(geometry: Geometry, words: &[[u8; 8]], at: u32, place: Place) -> Spot
    requires fits { GeometryFits geometry }
    requires within { is_in geometry place ≡ true }
    requires address { address geometry place ≡ at }
    ensures { result ≡ spot_of (classes_in geometry (numbers words.now)) at place }
{
    match place {
        Place::Spare => Spot::Spare,
        Place::Status { c } => Spot::Status { c },
        Place::Redo { c } => Spot::Redo { c },
        Place::RedoMore { c } => Spot::RedoMore { c },
        Place::Hold { c } => Spot::Hold { c },
        Place::Latch { c } => Spot::Latch { c },
        Place::Home { c } => Spot::Home { c },
        Place::Era { i, j } => Spot::Era { i, j },
        Place::Root { c, k } => Spot::Root { c, k },
        Place::Tail { s, r } => Spot::Tail { s, r },
        Place::Head { s, r } => Spot::QueueHead { s, r },
        Place::Slot { s, r, k } => Spot::Slot { s, r, k },
        Place::Segment { g } => Spot::Segment { g },
        Place::Page { g, p } => Spot::Page { g, p },
        Place::Body { g, p, k } => block_spot(word(words, geometry.page(g, p)), at, k),
    }
}

// the word `k` of a page of this class
fn block_spot(class: u64, at: u32, k: u8) -> Spot
    requires { k ≤ at }
    ensures { result ≡ block_spot class at k }
{
    if class == 0 {
        return Spot::Unused { a: at };
    }
    match place_in(class, k) {
        0 => Spot::Head { b: at },
        1 => Spot::Tag { b: at - 1 },
        i => Spot::Body {
            b: at - i as u32,
            i: (i - 2) as u8,
        },
    }
}

// the place of the word `k` of a page in its block; shifts stand for the division by a class
fn place_in(class: u64, k: u8) -> u64
    requires { class ≢ 0 }
    ensures { result ≡ k % class }
{
    match class {
        4 => u64::from(k % 4),
        8 => u64::from(k % 8),
        16 => u64::from(k % 16),
        32 => u64::from(k % 32),
        _ => u64::from(k) % class,
    }
}

/// How many reference words a tag word shows.
pub fn refs_in(geometry: Geometry, word: u64) -> u8
    ensures { result ≡ tag_refs geometry.wide word }
{
    if geometry.is_wide() {
        (word / (1 << 34) % 32) as u8
    } else {
        (word / (1 << 30) % 32) as u8
    }
}

/// What the word at an address before the bodies names; `front` are the words there.
pub fn reference_before(geometry: Geometry, front: &[[u8; 8]], at: u32) -> u64
    requires fits { GeometryFits geometry }
    requires whole { length front.now ≡ bodies geometry }
    requires before { at < bodies geometry }
    ensures { (ws : List ℕ) → AreFrom ws 0 (numbers front.now) → result ≡ named geometry ws at }
{
    let Some(place) = geometry.place(at) else {
        return 0;
    };
    match place {
        Place::Home { .. } | Place::Root { .. } | Place::Slot { .. } => word(front, at),
        _ => 0,
    }
}
