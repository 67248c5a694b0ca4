//! What stands at an address of a pool.

ghost use Rattle.std.specs.Prelude.{◌≡◌, ◌*◌, ◌<◌, ◌≤◌, slice_index};
ghost use Rattle.shm_words.specs.Layout.{GeometryFits, total_of};
ghost use Rattle.shm_graph.specs.{declared.spot.Spot.TheVariants.Head, Spots.{see, spot_at, same_spot, classes_in}};
ghost use Rattle.shm_audit.specs.Images.{numbers};
ghost use Rattle.shm_view.specs.Figures.{one_where_set};
ghost use Rattle.shm_view.specs.Kinds.{class_near, count_kind, free_kind, is_free, live_kind, owner_kind, page_kind};

use shm_audit::{spot, word};
use shm_graph::Spot;
use shm_words::{Geometry, Header};

/// Whether a block begins at an address.
pub fn is_block(geometry: Geometry, words: &[[u8; 8]], at: u32) -> bool
    requires { GeometryFits geometry }
    ensures { result ≡ same_spot (spot_at geometry (classes_in geometry (numbers words.now)) at) (Head at) }
{
    match spot(geometry, words, at) {
        Spot::Head { b } => b == at,
        _ => false,
    }
}

/// The header word of the block that begins at an address, and 0 where none does.
#[tactic(auto, unfolding(shm_graph::specs::Spots::see, shm_graph::specs::Spots::spot_address))]
pub fn head_word(geometry: Geometry, words: &[[u8; 8]], at: u32) -> u64
    requires { GeometryFits geometry }
    ensures { result ≡ see geometry (numbers words.now) (Head at) }
{
    if is_block(geometry, words, at) {
        word(words, at)
    } else {
        0
    }
}

/// The class of the page in which an address is.
#[tactic(auto, unfolding(shm_words::specs::Layout::address))]
pub fn class_near(geometry: Geometry, words: &[[u8; 8]], at: u32) -> u64
    requires fits { GeometryFits geometry }
    requires within { at < total_of geometry }
    ensures { result ≡ class_near geometry (numbers words.now) at }
{
    let inside = at.saturating_sub(geometry.body(0, 0));
    word(words, geometry.page(0, 0) + inside / 128)
}

/// The owner of a segment, by its number and one, and 0 where it is nobody's.
#[tactic(auto, unfolding(shm_words::specs::Layout::address))]
pub fn owner_kind(geometry: Geometry, words: &[[u8; 8]], s: u16) -> Option<u64>
    requires fits { GeometryFits geometry }
    requires segment { s < geometry.segments }
    ensures { result ≡ owner_kind geometry (numbers words.now) s }
{
    Some(word(words, geometry.segment(s)))
}

/// The class of a page, where pages are numbered through all segments.
#[tactic(auto, unfolding(shm_words::specs::Layout::address))]
pub fn page_kind(geometry: Geometry, words: &[[u8; 8]], p: u32) -> Option<u64>
    requires fits { GeometryFits geometry }
    requires page { p < 16 * geometry.segments }
    ensures { result ≡ page_kind geometry (numbers words.now) p }
{
    Some(word(words, geometry.page(0, 0) + p))
}

/// The class of the live block that begins at an address, where one does.
pub fn live_kind(geometry: Geometry, words: &[[u8; 8]], at: u32) -> Option<u64>
    requires fits { GeometryFits geometry }
    requires within { at < total_of geometry }
    ensures { result ≡ live_kind geometry (numbers words.now) at }
{
    if Header::unpack(head_word(geometry, words, at)).live {
        Some(class_near(geometry, words, at))
    } else {
        None
    }
}

/// The class of the free block that begins at an address, where one does.
pub fn free_kind(geometry: Geometry, words: &[[u8; 8]], at: u32) -> Option<u64>
    requires fits { GeometryFits geometry }
    requires within { at < total_of geometry }
    ensures { result ≡ free_kind geometry (numbers words.now) at }
{
    if is_free(geometry, words, at) {
        Some(class_near(geometry, words, at))
    } else {
        None
    }
}

// whether a free block begins at an address
fn is_free(geometry: Geometry, words: &[[u8; 8]], at: u32) -> bool
    requires { GeometryFits geometry }
    ensures { result ≡ is_free geometry (numbers words.now) at }
{
    is_block(geometry, words, at) && head_word(geometry, words, at) == 0
}

/// The count of the live block that begins at an address, where one does.
pub fn count_kind(geometry: Geometry, words: &[[u8; 8]], at: u32) -> Option<u64>
    requires { GeometryFits geometry }
    ensures { result ≡ count_kind geometry (numbers words.now) at }
{
    let header = Header::unpack(head_word(geometry, words, at));
    if header.live {
        Some(u64::from(header.count))
    } else {
        None
    }
}

/// 1 where the word at an address isn't 0, and otherwise 0.
pub fn one_where_set(words: &[[u8; 8]], at: u32) -> u32
    ensures is { result ≡ one_where_set (slice_index (numbers words.now) at) }
    ensures most { result ≤ 1 }
{
    if word(words, at) == 0 { 0 } else { 1 }
}
