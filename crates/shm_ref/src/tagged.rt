//! The tag of a block, as it is read.

ghost use Rattle.std.specs.Prelude.{◌≡◌};
ghost use Rattle.shm_count.specs.Tear.Control.{tag_read};
ghost use Rattle.shm_words.specs.Tags.{tag_author, tag_refs};

use shm_graph::Me;
use shm_words::Tag;

/// The tag that a word is, or an empty one.
#[inline(always)]
pub fn tag_in(me: Me, word: u64) -> Tag
    ensures { result ≡ tag_read me.geometry.wide word }
{
    match me.geometry.read_tag(word) {
        Some(tag) => tag,
        None => Tag {
            refs: 0,
            plain: 0,
            author: 0,
            link: 0,
        },
    }
}

/// The author that a tag word shows.
#[inline(always)]
pub fn author_in(me: Me, word: u64) -> u8
    ensures { result ≡ tag_author me.geometry.wide word }
{
    if me.geometry.is_wide() {
        (word / (1 << 24) % 64) as u8
    } else {
        (word / (1 << 20) % 64) as u8
    }
}

/// How many reference words a tag word shows.
#[inline(always)]
pub fn refs_in(me: Me, word: u64) -> u8
    ensures { result ≡ tag_refs me.geometry.wide word }
{
    if me.geometry.is_wide() {
        (word / (1 << 34) % 32) as u8
    } else {
        (word / (1 << 30) % 32) as u8
    }
}
