//! The words of a clean pool of format 1 as they are in format 2.

ghost use Rattle.std.specs.Prelude.{◌≡◌, ◌≢◌, ◌+◌, ◌<◌, false, IfSome};
ghost use Rattle.shm_words.specs.{Layout.{GeometryFits, bodies}, Tags.TagFits};
ghost use Rattle.shm_graph.specs.{declared.spot.Spot.TheVariants.Tag as TagSpot, Spots.{see, spot_at, classes_in}};
ghost use Rattle.shm_graph.specs.{Blocks.{headers, IsBlock, IsLive}, Clean.IsClean};
ghost use Rattle.shm_audit.specs.Images.{numbers};
ghost use Rattle.shm_migrate.specs.Widened.{moved, live_tag, widened_tag, widened_body, widened_at, widened_word};

use shm_audit::{spot, word};
use shm_graph::Spot;
use shm_words::{Geometry, Header, Tag};

/// The word before the bodies of the pages at an address of format 2; behind the redo records each word stands further on, by one for each
/// client.
pub fn widened_word(geometry: Geometry, words: &[[u8; 8]], at: u32) -> u64
    requires fits { GeometryFits geometry }
    requires narrow { geometry.wide ≡ false }
    requires clean { IsClean geometry (see geometry (numbers words.now)) }
    requires range { at < bodies geometry + geometry.clients }
    ensures { result ≡ widened_word geometry (see geometry (numbers words.now)) at }
{
    let clients = u32::from(geometry.clients());
    if at == 0 {
        0
    } else if at <= clients {
        word(words, at)
    } else if at <= 3 * clients {
        0
    } else {
        widened_at(geometry, words, at - clients)
    }
}

// what the word before the bodies at an address of format 1 is in format 2
fn widened_at(geometry: Geometry, words: &[[u8; 8]], at: u32) -> u64
    requires fits { GeometryFits geometry }
    requires narrow { geometry.wide ≡ false }
    requires clean { IsClean geometry (see geometry (numbers words.now)) }
    requires range { at < bodies geometry }
    ensures { result ≡ widened_at geometry (see geometry (numbers words.now)) (spot_at geometry (classes_in geometry (numbers words.now)) at) }
{
    let word = word(words, at);
    match spot(geometry, words, at) {
        Spot::Spare | Spot::Redo { .. } | Spot::RedoMore { .. } => 0,
        Spot::Home { .. } | Spot::Root { .. } | Spot::Slot { .. } => moved(geometry, words, word),
        _ => word,
    }
}

// the address in format 2 of the block that a reference names
fn moved(geometry: Geometry, words: &[[u8; 8]], block: u64) -> u64
    requires fits { GeometryFits geometry }
    requires narrow { geometry.wide ≡ false }
    requires live { block ≢ 0 → IsLive (headers (see geometry (numbers words.now))) block }
    ensures { result ≡ moved geometry block }
{
    if block == 0 {
        0
    } else {
        block + u64::from(geometry.clients())
    }
}

/// What the tag of a block says, where the block is live.
pub fn live_tag(geometry: Geometry, words: &[[u8; 8]], block: u32) -> Option<Tag>
    requires fits { GeometryFits geometry }
    requires narrow { geometry.wide ≡ false }
    requires is { IsBlock geometry (classes_in geometry (numbers words.now)) block }
    requires tag { spot_at geometry (classes_in geometry (numbers words.now)) (block + 1) ≡ TagSpot block }
    ensures says { result ≡ live_tag geometry (see geometry (numbers words.now)) block }
    ensures fits { IfSome result (λ t. TagFits false t) }
{
    if Header::unpack(word(words, block)).live {
        Tag::unpack(word(words, block + 1))
    } else {
        None
    }
}

/// The tag in format 2, with the link 0.
pub fn widened_tag(tag: Option<Tag>) -> u64
    requires { IfSome tag (λ t. TagFits false t) }
    ensures { result ≡ widened_tag tag }
{
    match tag {
        Some(tag) => Tag {
            refs: tag.refs,
            plain: tag.plain,
            author: tag.author,
            link: 0,
        }
        .pack_wide(),
        None => 0,
    }
}

/// The word `i` behind a block's tag.
pub fn widened_body(
    geometry: Geometry,
    words: &[[u8; 8]],
    tag: Option<Tag>,
    i: u8,
    word: u64,
) -> u64
    requires fits { GeometryFits geometry }
    requires narrow { geometry.wide ≡ false }
    requires tag { IfSome tag (λ t. TagFits false t) }
    requires live { IfSome tag (λ t. i < t.refs → word ≢ 0 → IsLive (headers (see geometry (numbers words.now))) word) }
    ensures { result ≡ widened_body geometry tag i word }
{
    match tag {
        Some(tag) if i < tag.refs => moved(geometry, words, word),
        Some(tag) if i < tag.refs + tag.plain => word,
        _ => 0,
    }
}
