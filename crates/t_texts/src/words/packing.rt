//! Words that are packed, and the least class of a block.

ghost use Rattle.std.specs.Prelude.{IfSome};
ghost use Rattle.shm_words.specs.{Headers.HeaderFits, Tags.TagFits, Redos.RedoFits};

use crate::words::numbers::{address, below};
use crate::words::pools::pool;
use shm_words::{Header, Pair2, Redo, Tag, class_of};

/// One client, one segment.
const SMALLEST: [u64; 6] = [1, 1, 0, 0, 0, 0];

/// The word of a header: live, client, count, era.
pub fn header(f: [u64; 6]) -> Option<u64> {
    let client = below(f[1], 64)?;
    let (count, era) = (f[2], f[3]);
    if count >= 1024 || era >= 1 << 47 {
        return None;
    }
    let header = Header {
        live: f[0] == 1,
        client,
        count: count as u16,
        era,
    };
    Some(header.pack())
}

/// A tag of a format: reference words, plain words, author, link.
fn tag_from(wide: bool, f: [u64; 6]) -> Option<Tag>
    ensures { IfSome result (λ t. TagFits wide t) }
{
    Some(Tag {
        refs: below(f[0], 17)?,
        plain: below(f[1], 9)?,
        author: below(f[2], 64)?,
        link: address(wide, f[3])?,
    })
}

/// The word of a tag.
pub fn tag(wide: bool, f: [u64; 6]) -> Option<u64> {
    let tag = tag_from(wide, f)?;
    Some(if wide { tag.pack_wide() } else { tag.pack() })
}

/// The tag that a word is.
pub fn tag_of(wide: bool, word: u64) -> Option<Tag> {
    if wide {
        Tag::unpack_wide(word)
    } else {
        Tag::unpack(word)
    }
}

/// The word of a tag in the smallest pool.
pub fn write_tag(wide: bool, f: [u64; 6]) -> Option<u64> {
    let tag = tag_from(wide, f)?;
    Some(pool(wide, SMALLEST)?.write_tag(tag))
}

/// The tag that a word is in the smallest pool.
pub fn read_tag(wide: bool, word: u64) -> Option<Tag> {
    pool(wide, SMALLEST)?.read_tag(word)
}

/// A redo record of a format: kind, odd, slot, before, after.
fn redo_from(wide: bool, f: [u64; 6]) -> Option<Redo>
    ensures { IfSome result (λ r. RedoFits wide r) }
{
    let (slot, before, after) = (
        address(wide, f[2])?,
        address(wide, f[3])?,
        address(wide, f[4])?,
    );
    Some(match f[0] {
        0 => Redo::Idle,
        1 => Redo::Up { slot, block: after },
        2 => Redo::Down {
            slot,
            block: before,
        },
        _ => Redo::Change {
            odd: f[1] == 1,
            slot,
            before,
            after,
        },
    })
}

/// The word of a redo record in format 1.
pub fn redo(f: [u64; 6]) -> Option<u64> {
    Some(redo_from(false, f)?.pack())
}

/// The words of a redo record in format 2.
pub fn wide_redo(f: [u64; 6]) -> Option<Pair2> {
    Some(redo_from(true, f)?.pack_wide())
}

/// The least class for so many reference words and plain words.
pub fn class(f: [u64; 6]) -> Option<u8> {
    Some(class_of(below(f[0], 17)?, below(f[1], 9)?))
}
