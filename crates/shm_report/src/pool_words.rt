//! What the words of a closed pool say: what each is for, the headers of blocks, the references and the homes.

ghost use Rattle.std.specs.Prelude.{◌≡◌, ◌+◌, ◌^◌, ◌<◌, ◌≤◌, slice_index, true};
ghost use Rattle.shm_words.specs.Layout.{GeometryFits, bodies, address, is_in};
ghost use Rattle.shm_graph.specs.{Spots.{see, spot_at, spot_of, block_spot, classes_in}, Blocks.{headers, IsBlock}};
ghost use Rattle.shm_graph.specs.References.{words_of, references, homes_in_all};
ghost use Rattle.shm_report.specs.PoolWords.{IsCleanPool};

use shm_graph::Spot;
use shm_words::{Geometry, Header, Place};

/// The word at an address, and 0 past the end.
pub fn word(words: &[u64], at: u32) -> u64
    ensures { result ≡ slice_index words.now at }
{
    words.get(at as usize).copied().unwrap_or(0)
}

/// The word that stands so far behind an address, and 0 past the end.
pub fn word_behind(words: &[u64], at: u32, by: u32) -> u64
    ensures { at + by < 2 ^ 32 → result ≡ slice_index words.now (at + by) }
{
    match at.checked_add(by) {
        Some(place) => word(words, place),
        None => 0,
    }
}

/// That word where it is below 2^32, and otherwise 0.
pub fn small_behind(words: &[u64], at: u32, by: u32) -> u32
    ensures { at + by < 2 ^ 32 → slice_index words.now (at + by) < 2 ^ 32 → result ≡ slice_index words.now (at + by) }
{
    u32::try_from(word_behind(words, at, by)).unwrap_or(0)
}

/// What the word at an address is for, by the classes of the pages.
pub fn spot(geometry: Geometry, words: &[u64], at: u32) -> Spot
    requires { GeometryFits geometry }
    ensures { result ≡ spot_at geometry (classes_in geometry words.now) at }
{
    match geometry.place(at) {
        Some(place) => spot_of(geometry, words, at, place),
        None => Spot::Spare,
    }
}

// what the word of a place is for
fn spot_of(geometry: Geometry, words: &[u64], at: u32, place: Place) -> Spot
    requires fits { GeometryFits geometry }
    requires within { is_in geometry place ≡ true }
    requires address { address geometry place ≡ at }
    ensures { result ≡ spot_of (classes_in geometry words.now) at place }
{
    match place {
        Place::Spare => Spot::Spare,
        Place::Status { c } => Spot::Status { c },
        Place::Redo { c } => Spot::Redo { c },
        Place::RedoMore { c } => Spot::RedoMore { c },
        Place::Hold { c } => Spot::Hold { c },
        Place::Latch { c } => Spot::Latch { c },
        Place::Home { c } => Spot::Home { c },
        Place::Era { i, j } => Spot::Era { i, j },
        Place::Root { c, k } => Spot::Root { c, k },
        Place::Tail { s, r } => Spot::Tail { s, r },
        Place::Head { s, r } => Spot::QueueHead { s, r },
        Place::Slot { s, r, k } => Spot::Slot { s, r, k },
        Place::Segment { g } => Spot::Segment { g },
        Place::Page { g, p } => Spot::Page { g, p },
        Place::Body { g, p, k } => block_spot(word(words, geometry.page(g, p)), at, k),
    }
}

// the word `k` of a page of this class
fn block_spot(class: u64, at: u32, k: u8) -> Spot
    requires { k ≤ at }
    ensures { result ≡ block_spot class at k }
{
    if class == 0 {
        return Spot::Unused { a: at };
    }
    match u64::from(k) % class {
        0 => Spot::Head { b: at },
        1 => Spot::Tag { b: at - 1 },
        i => Spot::Body {
            b: at - i as u32,
            i: (i - 2) as u8,
        },
    }
}

/// The header of the block that begins at an address; where none begins, that of a free block.
pub fn header_at(geometry: Geometry, words: &[u64], at: u32) -> Header
    requires { GeometryFits geometry }
    ensures { result ≡ headers (see geometry words.now) at }
{
    if word(words, at) == 0 {
        return Header::unpack(0);
    }
    match spot(geometry, words, at) {
        Spot::Head { b } => Header::unpack(word(words, b)),
        _ => Header::unpack(0),
    }
}

/// How many reference words a block has.
pub fn block_refs(geometry: Geometry, words: &[u64], block: u32) -> u8
    requires fits { GeometryFits geometry }
    requires is { IsBlock geometry (classes_in geometry words.now) block }
    ensures { IsCleanPool geometry words.now → result ≡ (words_of geometry.wide (see geometry words.now)).refs block }
{
    if !Header::unpack(word(words, block)).live {
        return 0;
    }
    match geometry.read_tag(word(words, block + 1)) {
        Some(tag) => tag.refs,
        None => 0,
    }
}

/// What the word at an address before the bodies names: a block, or 0.
pub fn reference_at(geometry: Geometry, words: &[u64], at: u32) -> u64
    requires fits { GeometryFits geometry }
    requires before { at < bodies geometry }
    ensures { result ≡ references geometry.wide (see geometry words.now) (spot_at geometry (classes_in geometry words.now) at) }
{
    if word(words, at) == 0 {
        return 0;
    }
    match spot(geometry, words, at) {
        Spot::Home { .. } | Spot::Root { .. } | Spot::Slot { .. } => word(words, at),
        _ => 0,
    }
}

/// How many homes are set.
pub fn homes_in_all(geometry: Geometry, words: &[u64]) -> u32
    requires { GeometryFits geometry }
    ensures { result ≡ homes_in_all geometry (see geometry words.now) }
{
    let mut homes = 0;
    for c in 0..geometry.clients() {
        if word(words, geometry.home(c)) != 0 {
            homes += 1;
        }
    }
    homes
}
